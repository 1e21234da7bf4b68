// Closing, and descriptors that a child gets.
ghost use Rattle.std.specs.Prelude.{◌≡◌, ◌≤◌, ◌||◌, IsSome, is_some};
ghost use Rattle.file_model.specs.Files.{close_all, closed, descriptors_of, named_by, share};
ghost use Rattle.linux_files.specs.Rooms.{room_of_parts};
ghost use Rattle.linux_files.specs.Seen.{IsStore, seen_parts};
ghost use Rattle.mck_word.specs.Maps.{at, cut};

use crate::descriptors::Descriptors;
use crate::names::{lower_all, raise_all};
use crate::parts::Parts;
use mck_word::Pid;

/// Whether one of the two is so.
fn either(a: bool, b: bool) -> bool
    ensures { result ≡ (a || b) }
{
    a || b
}

impl Parts {
    /// Closes a descriptor that names a description.
    pub(crate) fn close(&mut self, pid: Pid, fd: u32)
        requires store { IsStore self.old }
        requires named { IsSome (named_by (seen_parts self.old) pid.0 fd) }
        ensures files { seen_parts self.new ≡ closed pid.0 fd (seen_parts self.old) }
        ensures store { IsStore self.new }
    {
        let d = self.named_by(pid, fd).unwrap();
        self.descriptors.row_mut(pid.0 as u64).cut(fd);
        self.named.lower(d as u64);
        self.settle(&[Some(d)]);
    }

    /// Whether a process has a row of descriptors.
    pub(crate) fn has_descriptors(&self, pid: Pid) -> bool
        ensures { result ≡ is_some (at self.now.descriptors.map pid.0) }
    {
        self.descriptors.get(pid.0 as u64).is_some()
    }

    /// Takes the descriptors of a process out.
    fn take_descriptors(&mut self, pid: Pid) -> Descriptors
        ensures row { result ≡ descriptors_of (seen_parts self.old) pid.0 }
        ensures map { self.new.descriptors.map ≡ cut self.old.descriptors.map pid.0 }
        ensures rest { self.new ≡ record self.old { descriptors = self.new.descriptors } }
    {
        if self.descriptors.get(pid.0 as u64).is_some() {
            self.descriptors.remove(pid.0 as u64)
        } else {
            Descriptors::new()
        }
    }

    /// Closes all descriptors of a process.
    pub(crate) fn close_all(&mut self, pid: Pid)
        requires { IsStore self.old }
        ensures files { seen_parts self.new ≡ close_all pid.0 (seen_parts self.old) }
        ensures store { IsStore self.new }
    {
        let row = self.take_descriptors(pid);
        let slots = row.as_slice();
        lower_all(&mut self.named, slots);
        self.settle(slots);
    }

    /// Gives a child its parent's descriptors. What the child's own named alone is settled when next something is closed.
    pub(crate) fn share(&mut self, parent: Pid, child: Pid)
        requires store { IsStore self.old }
        requires room { 1 ≤ (room_of_parts self.old).shares }
        ensures files { seen_parts self.new ≡ share parent.0 child.0 (seen_parts self.old) }
        ensures store { IsStore self.new }
    {
        let row = self.descriptors_of(parent);
        let own = self.descriptors_of(child);
        let loses = self.has_descriptors(child);
        raise_all(&mut self.named, row.as_slice());
        lower_all(&mut self.named, own.as_slice());
        self.unsettled = either(self.unsettled, loses);
        self.descriptors.put(child.0 as u64, row);
    }
}
