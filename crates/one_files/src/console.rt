// A guest's console.
ghost use Rattle.std.specs.Prelude.{◌≡◌, ◌≤◌, ◌+◌, ◌++◌, [], length, take, drop};
ghost use Rattle.std.specs.Vec.{vec_capacity};

use crate::stream::Stream;
use std::alloc::Global;
use std::marker::Model;

/// What is left of a console's input, and its output, seen as the definition's.
#[derive(Drop)]
pub struct Console {
    input: Stream,
    output: Stream,
}

impl Model for Console {
    ghost use Rattle.file_model.specs.Files.{Console as Shown};
    ghost use Rattle.one_files.specs.Codes.{console_code};

    ghost Value = { Shown };

    ghost coded = { console_code };

    ghost view = { λ c. record { input = c.input; output = c.output } };
}

impl Console {
    /// A console without output. Can't fail.
    pub fn new(alloc: Global, input: Stream) -> Console
        ensures { result ≡ record { input = input; output = [] } }
    {
        Console {
            input,
            output: Stream::new(alloc),
        }
    }

    /// How much of the input is left.
    pub fn input_len(&self) -> usize
        ensures { result ≡ length self.now.input }
    {
        self.input.len()
    }

    /// The output.
    pub fn output(&self) -> &[u8]
        ensures { result.now ≡ self.now.output }
    {
        self.output.as_slice()
    }

    /// Fills the buffer with bytes of the input, and takes them away.
    pub fn take_input(&mut self, into: &mut [u8])
        requires { length into.old ≤ length self.old.input }
        ensures bytes { into.new ≡ take (length into.old) self.old.input }
        ensures rest { self.new ≡ record self.old { input = drop (length into.old) self.old.input } }
    {
        self.input.take(into);
    }

    /// Adds bytes to the output. The spare buffer takes the place of its own where that is too small.
    pub fn add_output(&mut self, from: &[u8], spare: &mut Vec<u8>)
        requires { length self.old.output + length from.now ≤ vec_capacity spare.old }
        ensures { self.new ≡ record self.old { output = self.old.output ++ from.now } }
    {
        self.output.add(from, spare);
    }
}
