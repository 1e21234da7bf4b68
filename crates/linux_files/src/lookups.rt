// What the parts answer.
ghost use Rattle.std.specs.Prelude.{◌≡◌, ◌<◌, ◌-◌, ◌^◌, IsTrue, nat_lt, ℕ};
ghost use Rattle.std.specs.List.{list_all};
ghost use Rattle.file_calls.specs.FileSteps.{FewCalls};
ghost use Rattle.file_model.specs.Files.{description_of, descriptors_of, is_open, is_same_target};
ghost use Rattle.file_model.specs.declared.descriptions.Target.TheVariants.{OfConsole};
ghost use Rattle.file_model.specs.declared.descriptions.Description.{Description as Shown};
ghost use Rattle.linux_files.specs.Seen.{IsStore, seen_parts};
ghost use Rattle.mck_word.specs.Maps.{count, each_row};

use crate::open_file::OpenFile;
use crate::parts::Parts;
use file_model::{Description, Target};
use mck_word::Pid;

/// The description under a number that is none.
const NO_DESCRIPTION: Description = Description {
    target: Target::OfConsole(0),
    readable: false,
    writable: false,
    append: false,
    offset: 0,
    calls: 0,
};

/// Whether the target is a guest's console.
fn is_console(target: Target, guest: u32) -> bool
    ensures { result ≡ is_same_target target (OfConsole guest) }
{
    match target {
        Target::OfConsole(g) => g == guest,
        _ => false,
    }
}

/// Whether each description is held by so few calls that one more can be counted.
fn are_few(rows: &[(u64, OpenFile)]) -> bool
    ensures { result ≡ list_all (λ (e : ℕ × Shown). nat_lt e.1.calls (2 ^ 32 - 1)) rows.now }
{
    rows.iter().all(|row| row.1.get().calls < u32::MAX)
}

impl Parts {
    /// The description under a number.
    pub(crate) fn description_of(&self, d: u32) -> Description
        ensures is { result ≡ description_of (seen_parts self.now) d }
        ensures bound { result.offset < 2 ^ 63 }
    {
        match self.descriptions.get(d as u64) {
            Some(file) => file.get(),
            None => NO_DESCRIPTION,
        }
    }

    /// How many descriptors a process has.
    pub(crate) fn descriptor_count(&self, pid: Pid) -> u32
        ensures { result ≡ count (descriptors_of (seen_parts self.now) pid.0) }
    {
        self.descriptors_of(pid).count()
    }

    /// Whether a description is open on a guest's console.
    fn is_shown(&self, guest: u32) -> bool
        ensures { result ≡ is_open (seen_parts self.now) (OfConsole guest) }
    {
        let rows = self.descriptions.as_slice();
        rows.iter().any(|row| is_console(row.1.get().target, guest))
    }

    /// Whether a description is open on the target. Only for a console are the descriptions gone through.
    pub(crate) fn is_open(&self, target: Target) -> bool
        requires { IsStore self.now }
        ensures { result ≡ is_open (seen_parts self.now) target }
    {
        match target {
            Target::OfNode(node) => self.tree.is_held(node),
            Target::ReadEnd(pipe) => self.readers.has(pipe as u64),
            Target::WriteEnd(pipe) => self.writers.has(pipe as u64),
            Target::OfConsole(guest) => self.is_shown(guest),
        }
    }

    /// Whether each description is held by so few calls that one more can be counted. All of them are gone through.
    pub(crate) fn few_calls(&self) -> bool
        ensures exactly { result ≡ each_row (λ d (x : Shown). nat_lt x.calls (2 ^ 32 - 1)) (seen_parts self.now).descriptions }
        ensures few { IsTrue result → FewCalls (seen_parts self.now) }
    {
        are_few(self.descriptions.as_slice())
    }
}
