// An open description.
ghost use Rattle.std.specs.Prelude.{◌≡◌, ◌<◌, ◌+◌, ◌-◌, ◌^◌};

use file_model::{Description, Target};
use std::marker::Model;

/// An open description, whose offset is below 2 ^ 63, seen as the definition's.
#[derive(Drop)]
pub struct OpenFile {
    description: Description,
}

impl Model for OpenFile {
    ghost use Rattle.std.specs.Prelude.{◌<◌, ◌^◌};
    ghost use Rattle.file_model.specs.declared.descriptions.Description.{Description};
    ghost use Rattle.file_model.specs.contracts.descriptions.Description as description_row;

    ghost Value = { Description };

    ghost coded = { description_row.the_row.coded };

    ghost view = { λ f. f.description };

    ghost invariant = { λ f. f.description.offset < 2 ^ 63 };
}

impl OpenFile {
    /// A description of the target that no call holds.
    pub fn new(target: Target, readable: bool, writable: bool, append: bool) -> OpenFile
        ensures { result ≡ record { target = target; readable = readable; writable = writable; append = append; offset = 0; calls = 0 } }
    {
        OpenFile {
            description: Description {
                target,
                readable,
                writable,
                append,
                offset: 0,
                calls: 0,
            },
        }
    }

    /// The description.
    pub fn get(&self) -> Description
        ensures is { result ≡ self.now }
        ensures bound { result.offset < 2 ^ 63 }
    {
        self.description
    }

    /// Sets its offset.
    pub fn set_offset(&mut self, offset: u64)
        requires { offset < 2 ^ 63 }
        ensures { self.new ≡ record self.old { offset = offset } }
    {
        self.description.offset = offset;
    }

    /// A call takes it.
    pub fn hold(&mut self)
        requires { self.old.calls < 2 ^ 32 - 1 }
        ensures { self.new ≡ record self.old { calls = self.old.calls + 1 } }
    {
        self.description.calls += 1;
    }

    /// A call gives it back.
    pub fn leave(&mut self)
        ensures { self.new ≡ record self.old { calls = self.old.calls - 1 } }
    {
        self.description.calls = self.description.calls.saturating_sub(1);
    }
}
