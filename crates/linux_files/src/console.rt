// A guest's console.
ghost use Rattle.std.specs.Prelude.{◌≡◌, ◌≤◌, ◌<◌, ◌+◌, ◌^◌, ◌++◌, [], OnOk, IfOk, length, take, drop};

use mck_word::NoMemory;
use std::alloc::Global;
use std::marker::Model;

/// What is left of a console's input, and its output, seen as the definition's beside `room`, for how many bytes of output it has
/// memory.
#[derive(Drop)]
pub struct Console {
    input: Vec<u8>,
    start: usize,
    output: Vec<u8>,
}

impl Model for Console {
    ghost use Rattle.linux_files.specs.Codes.{console_code};
    ghost use Rattle.linux_files.specs.Tables.{ConsoleRow};
    ghost use Rattle.std.specs.Prelude.{drop, vec_len, ◌≤◌};
    ghost use Rattle.std.specs.Vec.{vec_capacity};

    ghost Value = { ConsoleRow };

    ghost coded = { console_code };

    ghost view = { λ c. record { console = record { input = drop c.start c.input.items; output = c.output.items }; room = vec_capacity c.output } };

    ghost invariant = { λ c. c.start ≤ vec_len c.input };
}

impl Console {
    /// A console with a copy of that input, and without output.
    pub fn new(alloc: Global, input: &[u8]) -> Result<Console, NoMemory>
        ensures { IfOk result (λ c. c.console ≡ record { input = input.now; output = [] }) }
    {
        Ok(Console {
            input: Vec::from_slice(alloc, input)?,
            start: 0,
            output: Vec::new(alloc),
        })
    }

    /// How much of the input is left.
    pub fn input_len(&self) -> usize
        ensures { result ≡ length self.now.console.input }
    {
        self.input.len() - self.start
    }

    /// The output.
    pub fn output(&self) -> &[u8]
        ensures { result.now ≡ self.now.console.output }
    {
        &self.output
    }

    /// Makes room for output up to that end.
    pub fn reserve(&mut self, end: usize) -> Result<(), NoMemory>
        ensures console { self.new.console ≡ self.old.console }
        ensures room { OnOk result (end ≤ self.new.room) }
    {
        if end > self.output.len() {
            self.output.reserve(end - self.output.len())?;
        }
        Ok(())
    }

    /// Fills the buffer with bytes of the input, and takes them away.
    pub fn take_input(&mut self, into: &mut [u8])
        requires { length into.old ≤ length self.old.console.input }
        ensures bytes { into.new ≡ take (length into.old) self.old.console.input }
        ensures rest { self.new.console ≡ record self.old.console { input = drop (length into.old) self.old.console.input } }
    {
        let end = self.start + into.len();
        into.copy_from_slice(&self.input[self.start..end]);
        self.start = end;
    }

    /// Adds bytes to the output.
    pub fn add_output(&mut self, from: &[u8])
        requires { length self.old.console.output + length from.now ≤ self.old.room }
        ensures { self.new.console ≡ record self.old.console { output = self.old.console.output ++ from.now } }
    {
        let _ = self.output.extend_from_slice(from);
    }
}
