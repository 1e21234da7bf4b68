// Opening.
ghost use Rattle.std.specs.Prelude.{◌≡◌, ◌≤◌, ◌<◌, ◌+◌, ◌-◌, ◌^◌, cond, min, ℕ};
ghost use Rattle.file_model.specs.Files.{descriptors_of, is_same_target, lowest_free, named_by, opened};
ghost use Rattle.file_model.specs.declared.descriptions.Target.TheVariants.{OfNode, ReadEnd, WriteEnd};
ghost use Rattle.file_tree.specs.Counting.{count_in};
ghost use Rattle.linux_files.specs.Rooms.{room_in, room_of_parts};
ghost use Rattle.linux_files.specs.Seen.{IsStore, seen_parts};
ghost use Rattle.mck_word.specs.Maps.{count};

use crate::descriptors::Descriptors;
use crate::open_file::OpenFile;
use crate::parts::Parts;
use file_model::Target;
use mck_word::Pid;

impl Parts {
    /// The descriptors of a process.
    pub(crate) fn descriptors_of(&self, pid: Pid) -> Descriptors
        ensures { result ≡ descriptors_of (seen_parts self.now) pid.0 }
    {
        match self.descriptors.get(pid.0 as u64) {
            Some(descriptors) => descriptors.copy(),
            None => Descriptors::new(),
        }
    }

    /// The description that a descriptor names.
    pub(crate) fn named_by(&self, pid: Pid, fd: u32) -> Option<u32>
        ensures { result ≡ named_by (seen_parts self.now) pid.0 fd }
    {
        match self.descriptors.get(pid.0 as u64) {
            Some(descriptors) => descriptors.get(fd),
            None => None,
        }
    }

    /// Counts one more description that is open on the target.
    fn count_open(&mut self, target: Target)
        requires { 1 ≤ (room_of_parts self.old).opens }
        ensures map { self.new.tree.map ≡ self.old.tree.map }
        ensures next { self.new.tree.next ≡ self.old.tree.next }
        ensures holds { (n : ℕ) → count_in self.new.tree.holds n ≡ count_in self.old.tree.holds n + cond (is_same_target target (OfNode n)) 1 0 }
        ensures readers { (q : ℕ) → count_in self.new.readers.counts q ≡ count_in self.old.readers.counts q + cond (is_same_target target (ReadEnd q)) 1 0 }
        ensures writers { (q : ℕ) → count_in self.new.writers.counts q ≡ count_in self.old.writers.counts q + cond (is_same_target target (WriteEnd q)) 1 0 }
        ensures room_holds { min self.old.tree.spare_holds self.old.tree.left_holds ≤ min self.new.tree.spare_holds self.new.tree.left_holds + 1 }
        ensures room_readers { room_in self.old.readers ≤ room_in self.new.readers + 1 }
        ensures room_writers { room_in self.old.writers ≤ room_in self.new.writers + 1 }
        ensures rest { self.new ≡ record self.old { tree = self.new.tree; readers = self.new.readers; writers = self.new.writers } }
    {
        match target {
            Target::OfNode(node) => self.tree.hold(node),
            Target::ReadEnd(pipe) => self.readers.raise(pipe as u64),
            Target::WriteEnd(pipe) => self.writers.raise(pipe as u64),
            Target::OfConsole(_) => {}
        }
    }

    /// Opens a description of the target, and answers its descriptor.
    pub(crate) fn open_target(
        &mut self,
        pid: Pid,
        target: Target,
        readable: bool,
        writable: bool,
        append: bool,
    ) -> u32
        requires store { IsStore self.old }
        requires room { 1 ≤ (room_of_parts self.old).opens }
        requires free { count (descriptors_of (seen_parts self.old) pid.0) < 64 }
        ensures files { seen_parts self.new ≡ opened pid.0 target readable writable append (seen_parts self.old) }
        ensures descriptor { result ≡ lowest_free (descriptors_of (seen_parts self.old) pid.0) }
        ensures used { count (descriptors_of (seen_parts self.new) pid.0) ≡ count (descriptors_of (seen_parts self.old) pid.0) + 1 }
        ensures room { (room_of_parts self.old).opens ≤ (room_of_parts self.new).opens + 1 }
        ensures store { IsStore self.new }
    {
        let d = self.descriptions.first_free();
        let mut descriptors = self.descriptors_of(pid);
        let fd = descriptors.add(d as u32);
        self.count_open(target);
        self.named.raise(d);
        self.descriptions
            .put(d, OpenFile::new(target, readable, writable, append));
        self.descriptors.put(pid.0 as u64, descriptors);
        fd
    }
}
