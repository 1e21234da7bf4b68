// The consoles of guests, and their descriptors on them.
ghost use Rattle.std.specs.Prelude.{◌≡◌, ◌≤◌, ◌+◌, None, OnErr, OnOk, length, take};
ghost use Rattle.file_model.specs.Files.{console_of, with_console};
ghost use Rattle.file_model.specs.Streams.{with_output, without_input};
ghost use Rattle.file_model.specs.declared.descriptions.Target.TheVariants.{OfConsole};
ghost use Rattle.linux_files.specs.Opened.{with_console_opened};
ghost use Rattle.linux_files.specs.Rooms.{can_write_parts, room_of_parts};
ghost use Rattle.linux_files.specs.Seen.{IsStore, seen_parts};
ghost use Rattle.mck_word.specs.Maps.{at};

use crate::console::Console;
use crate::parts::Parts;
use file_model::Target;
use mck_word::{NoMemory, Pid};

impl Parts {
    /// Opens the descriptors 0, 1 and 2 of a process on its console.
    fn open_console(&mut self, pid: Pid)
        requires store { IsStore self.old }
        requires room { 3 ≤ (room_of_parts self.old).opens }
        requires none { at self.old.descriptors.map pid.0 ≡ None }
        ensures files { seen_parts self.new ≡ with_console_opened pid.0 (seen_parts self.old) }
        ensures store { IsStore self.new }
    {
        let target = Target::OfConsole(pid.0);
        self.open_target(pid, target, true, false, false);
        self.open_target(pid, target, false, true, false);
        self.open_target(pid, target, false, true, false);
    }

    /// Adds a console with that input, and the descriptors 0, 1 and 2 of a process on it.
    pub(crate) fn add_process(&mut self, pid: Pid, input: &[u8]) -> Result<(), NoMemory>
        requires store { IsStore self.old }
        requires none { at self.old.descriptors.map pid.0 ≡ None }
        ensures ok { OnOk result (seen_parts self.new ≡ with_console pid.0 input.now (seen_parts self.old)) }
        ensures err { OnErr result (seen_parts self.new ≡ seen_parts self.old) }
        ensures store { IsStore self.new }
    {
        let console = Console::new(self.alloc, input)?;
        self.reserve_opens(3)?;
        self.consoles.reserve()?;
        self.consoles.put(pid.0, console);
        self.open_console(pid);
        Ok(())
    }

    /// Takes bytes of a console's input.
    pub(crate) fn take_input(&mut self, guest: u32, into: &mut [u8])
        requires store { IsStore self.old }
        requires there { length into.old ≤ length (console_of (seen_parts self.old) guest).input }
        ensures bytes { into.new ≡ take (length into.old) (console_of (seen_parts self.old) guest).input }
        ensures files { seen_parts self.new ≡ without_input guest (length into.old) (seen_parts self.old) }
        ensures store { IsStore self.new }
    {
        self.consoles.take_input(guest, into);
    }

    /// Adds bytes to the output of a console.
    pub(crate) fn add_output(&mut self, guest: u32, from: &[u8])
        requires store { IsStore self.old }
        requires room { can_write_parts self.old (OfConsole guest) (length (console_of (seen_parts self.old) guest).output + length from.now) }
        ensures files { seen_parts self.new ≡ with_output guest from.now (seen_parts self.old) }
        ensures store { IsStore self.new }
    {
        self.consoles.add_output(guest, from);
    }
}
