// Opening, and processes.
ghost use Rattle.std.specs.Prelude.{◌≡◌, ◌≤◌, ◌<◌, ◌+◌, ◌^◌, OnOk, OnErr, IsSome, None};
ghost use Rattle.file_model.specs.Files.{descriptors_of, lowest_free, named_by, with_console};
ghost use Rattle.mck_word.specs.Maps.{at, count};
ghost use Rattle.one_files.specs.Opened.{with_console_opened, with_file_opened, without_descriptor, without_descriptors};
ghost use Rattle.one_files.specs.Seen.{room_of, seen};

use crate::RowFiles;
use crate::console::Console;
use crate::descriptors::Descriptors;
use crate::open_file::OpenFile;
use crate::stream::Stream;
use file_model::Target;
use mck_word::{NoMemory, Pid};

impl RowFiles {
    /// The descriptors of a process.
    pub(crate) fn descriptors_of(&self, pid: Pid) -> Descriptors
        ensures { result ≡ descriptors_of (seen self.now) pid.0 }
    {
        match self.descriptors.get(pid.0 as u64) {
            Some(descriptors) => descriptors.copy(),
            None => Descriptors::new(),
        }
    }

    /// Puts a description in, under the lowest free number and the lowest free descriptor of the process.
    pub(crate) fn open_file(&mut self, pid: Pid, file: OpenFile) -> u32
        requires room { 1 ≤ (room_of self.old).opens }
        requires free { count (descriptors_of (seen self.old) pid.0) < 64 }
        ensures files { seen self.new ≡ with_file_opened pid.0 file (seen self.old) }
        ensures descriptor { result ≡ lowest_free (descriptors_of (seen self.old) pid.0) }
        ensures used { count (descriptors_of (seen self.new) pid.0) ≡ count (descriptors_of (seen self.old) pid.0) + 1 }
        ensures room { (room_of self.old).opens ≤ (room_of self.new).opens + 1 }
    {
        let d = self.descriptions.first_free();
        let mut descriptors = self.descriptors_of(pid);
        let fd = descriptors.add(d as u32);
        self.descriptions.put(d, file);
        self.descriptors.put(pid.0 as u64, descriptors);
        fd
    }

    /// Takes a descriptor of a process away.
    pub(crate) fn cut_descriptor(&mut self, pid: Pid, fd: u32)
        requires { IsSome (named_by (seen self.old) pid.0 fd) }
        ensures { seen self.new ≡ without_descriptor pid.0 fd (seen self.old) }
    {
        self.descriptors.row_mut(pid.0 as u64).cut(fd);
    }

    /// Takes all descriptors of a process away.
    pub(crate) fn cut_descriptors(&mut self, pid: Pid)
        ensures { seen self.new ≡ without_descriptors pid.0 (seen self.old) }
    {
        if self.descriptors.get(pid.0 as u64).is_some() {
            let _ = self.descriptors.remove(pid.0 as u64);
        }
    }

    /// Makes room for `n` more descriptions. Also fails where nearly 2 ^ 32 of them are open.
    pub(crate) fn reserve_opens(&mut self, n: usize) -> Result<(), NoMemory>
        requires { n ≤ 3 }
        ensures same { seen self.new ≡ seen self.old }
        ensures nodes { (room_of self.new).nodes ≡ (room_of self.old).nodes }
        ensures room { OnOk result (n ≤ (room_of self.new).opens) }
    {
        if self.descriptions.len() > 0xffff_fff0 {
            return Err(NoMemory);
        }
        self.descriptions.reserve(n)?;
        self.descriptors.reserve(n)?;
        Ok(())
    }

    /// Opens the descriptors 0, 1 and 2 of a process on its console.
    fn open_console(&mut self, pid: Pid)
        requires room { 3 ≤ (room_of self.old).opens }
        requires none { at self.old.descriptors.map pid.0 ≡ None }
        ensures { seen self.new ≡ with_console_opened pid.0 (seen self.old) }
    {
        let target = Target::OfConsole(pid.0);
        self.open_file(pid, OpenFile::new(target, true, false, false));
        self.open_file(pid, OpenFile::new(target, false, true, false));
        self.open_file(pid, OpenFile::new(target, false, true, false));
    }

    /// Adds a console with that input, and the descriptors 0, 1 and 2 of a process on it.
    pub(crate) fn add_process(&mut self, pid: Pid, input: &[u8]) -> Result<(), NoMemory>
        requires { at self.old.descriptors.map pid.0 ≡ None }
        ensures ok { OnOk result (seen self.new ≡ with_console pid.0 input.now (seen self.old)) }
        ensures err { OnErr result (seen self.new ≡ seen self.old) }
    {
        let input = Stream::from_slice(self.alloc, input)?;
        self.reserve_opens(3)?;
        self.consoles.reserve()?;
        self.consoles.put(pid.0, Console::new(self.alloc, input));
        self.open_console(pid);
        Ok(())
    }
}
