// Descriptions that calls move and hold.
ghost use Rattle.std.specs.Prelude.{◌≡◌, ◌<◌, ◌+◌, ◌-◌, ◌^◌, unwrap_or};
ghost use Rattle.file_model.specs.Files.{description_of, hold, leave, no_description, set_offset};
ghost use Rattle.file_model.specs.declared.descriptions.Description.{Description as Shown};
ghost use Rattle.linux_files.specs.Seen.{IsStore, seen_parts};
ghost use Rattle.mck_word.specs.Maps.{at, change};

use crate::open_file::OpenFile;
use crate::parts::Parts;
use key_rows::Rows;

/// Sets the offset of a description that is there.
fn move_to(descriptions: &mut Rows<OpenFile>, d: u64, offset: u64)
    requires { offset < 2 ^ 63 }
    ensures { descriptions.new.map ≡ change descriptions.old.map d (λ (x : Shown). record x { offset = offset }) }
{
    if descriptions.get(d).is_some() {
        descriptions.row_mut(d).set_offset(offset);
    }
}

/// A call takes a description that is there.
fn take(descriptions: &mut Rows<OpenFile>, d: u64)
    requires { (unwrap_or (at descriptions.old.map d) no_description).calls < 2 ^ 32 - 1 }
    ensures { descriptions.new.map ≡ change descriptions.old.map d (λ (x : Shown). record x { calls = x.calls + 1 }) }
{
    if descriptions.get(d).is_some() {
        descriptions.row_mut(d).hold();
    }
}

/// A call gives a description back that is there.
fn give_back(descriptions: &mut Rows<OpenFile>, d: u64)
    ensures { descriptions.new.map ≡ change descriptions.old.map d (λ (x : Shown). record x { calls = x.calls - 1 }) }
{
    if descriptions.get(d).is_some() {
        descriptions.row_mut(d).leave();
    }
}

impl Parts {
    /// Sets the offset of a description.
    pub(crate) fn set_offset(&mut self, d: u32, offset: u64)
        requires store { IsStore self.old }
        requires small { offset < 2 ^ 63 }
        ensures files { seen_parts self.new ≡ set_offset d offset (seen_parts self.old) }
        ensures store { IsStore self.new }
    {
        move_to(&mut self.descriptions, d as u64, offset);
    }

    /// A call takes the description.
    pub(crate) fn hold(&mut self, d: u32)
        requires store { IsStore self.old }
        requires fits { (description_of (seen_parts self.old) d).calls < 2 ^ 32 - 1 }
        ensures files { seen_parts self.new ≡ hold d (seen_parts self.old) }
        ensures store { IsStore self.new }
    {
        take(&mut self.descriptions, d as u64);
    }

    /// A call gives the description back.
    pub(crate) fn leave(&mut self, d: u32)
        requires { IsStore self.old }
        ensures files { seen_parts self.new ≡ leave d (seen_parts self.old) }
        ensures store { IsStore self.new }
    {
        give_back(&mut self.descriptions, d as u64);
        self.settle(&[Some(d)]);
    }
}
