// Pipes.
ghost use Rattle.std.specs.Prelude.{◌≡◌, ◌≤◌, ◌+◌, [], Bool, length, take, true, ℕ};
ghost use Rattle.file_model.specs.Files.{lowest_free, pipe_of, set_pipe};
ghost use Rattle.file_model.specs.Streams.{with_back, without_front};
ghost use Rattle.file_model.specs.declared.descriptions.Target.TheVariants.{WriteEnd};
ghost use Rattle.linux_files.specs.Rooms.{can_write_parts, room_of_parts};
ghost use Rattle.linux_files.specs.Seen.{IsStore, may_be_loose, seen_parts};

use crate::parts::{Loose, Parts};

/// One more pipe of which maybe no end is open.
fn with_loose(loose: Loose, pipe: u32) -> Loose
    ensures here { may_be_loose result pipe ≡ true }
    ensures others { (q : ℕ) → may_be_loose loose q ≡ true → may_be_loose result q ≡ true }
{
    match loose {
        Loose::AllOpen => Loose::One(pipe),
        Loose::One(_) => Loose::Any,
        Loose::Any => Loose::Any,
    }
}

impl Parts {
    /// Makes a pipe without bytes, and answers its number.
    pub(crate) fn make_pipe(&mut self) -> u32
        requires store { IsStore self.old }
        requires room { 1 ≤ (room_of_parts self.old).pipes }
        ensures number { result ≡ lowest_free (seen_parts self.old).pipes }
        ensures files { seen_parts self.new ≡ set_pipe (lowest_free (seen_parts self.old).pipes) [] (seen_parts self.old) }
        ensures opens { (room_of_parts self.new).opens ≡ (room_of_parts self.old).opens }
        ensures store { IsStore self.new }
    {
        let pipe = self.pipes.first_free();
        self.pipes.add(pipe);
        self.loose = with_loose(self.loose, pipe as u32);
        pipe as u32
    }

    /// Takes bytes out of a pipe.
    pub(crate) fn take_pipe(&mut self, pipe: u32, into: &mut [u8])
        requires store { IsStore self.old }
        requires there { length into.old ≤ length (pipe_of (seen_parts self.old) pipe) }
        ensures bytes { into.new ≡ take (length into.old) (pipe_of (seen_parts self.old) pipe) }
        ensures files { seen_parts self.new ≡ without_front pipe (length into.old) (seen_parts self.old) }
        ensures store { IsStore self.new }
    {
        self.pipes.take(pipe as u64, into);
    }

    /// Adds bytes to a pipe.
    pub(crate) fn add_pipe(&mut self, pipe: u32, from: &[u8])
        requires store { IsStore self.old }
        requires room { can_write_parts self.old (WriteEnd pipe) (length (pipe_of (seen_parts self.old) pipe) + length from.now) }
        ensures files { seen_parts self.new ≡ with_back pipe from.now (seen_parts self.old) }
        ensures store { IsStore self.new }
    {
        self.pipes.add_bytes(pipe as u64, from);
    }
}
