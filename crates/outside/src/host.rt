// Hosts: named bytes outside of the program.
ghost use Rattle.std.specs.Prelude.{◌≡◌, ℕ, ◌≤◌, ◌↔◌, List, Option, Some, OnOk, OnErr, IsErrOf, IsTrue, find, Ok, if◌then◌else◌, ◌++◌};
ghost use Rattle.std.specs.Option.{option_copied};
ghost use Rattle.outside.specs.Outside.{Held, WhereTold, Rose, Appends};
ghost use Rattle.outside.specs.Devices.{bytes_under, bytes_or_none, has_name, one_more, fetch_fails, is_to_fail};
ghost use Rattle.outside.specs.declared.host.Fetch.TheVariants.{Failed};

/// Why nothing was fetched.
#[derive(Clone, Copy, Debug, PartialEq, Eq)]
pub enum Fetch {
    /// A fault of the host: it has no such bytes, or can't give them.
    Failed,
    NoMemory,
}

/// Named bytes outside of the program.
pub trait Host {
    /// The bytes under each name, or none, where the host tells them.
    ghost holds: { Self → Option Held };

    /// How often a fetch of a name failed. The count never falls.
    ghost faults: { Self → List ℕ → ℕ };

    /// Adds the bytes of a name to `into`. `Failed` comes only where the name's count of faults rose. After an `Err` what is in
    /// `into` is to be thrown away.
    fn fetch(&mut self, name: &str, into: &mut Vec<u8>) -> Result<(), Fetch>
        ensures told { holds self.new ≡ holds self.old }
        ensures rises { (other : List ℕ) → faults self.old other ≤ faults self.new other }
        ensures ok { OnOk result (WhereTold (holds self.old) (λ held. Appends (held name.now) into.old.items into.new.items)) }
        ensures failed { IsErrOf result Failed → Rose (faults self.old name.now) (faults self.new name.now) };
}

/// A name and its bytes.
#[derive(Drop)]
pub struct Named {
    pub name: String,
    pub bytes: Vec<u8>,
}

/// A host in memory, which tells all. The fetches with a number in `failing`, counted from 0, fail.
#[derive(Drop)]
pub struct MemHost {
    pub names: Vec<Named>,
    pub failing: Vec<u64>,
    /// How many fetches there were.
    pub fetches: u64,
    /// How many of them failed.
    pub faults: u64,
}

fn find_name<'a>(names: &'a [Named], name: &str) -> Option<&'a Named>
    ensures { option_copied result ≡ find (has_name name.now) names.now }
{
    names.iter().find(|entry| entry.name.as_str() == name)
}

fn is_to_fail(failing: &[u64], call: u64) -> bool
    ensures { result ≡ is_to_fail failing.now call }
{
    failing.contains(&call)
}

// One more fault. At the last value it stays.
fn count_fault(faults: &mut u64) -> Fetch
    ensures fault { result ≡ Failed }
    ensures count { faults.new ≡ one_more faults.old }
    ensures rose { Rose faults.old faults.new }
    ensures rises { faults.old ≤ faults.new }
{
    *faults = faults.saturating_add(1);
    Fetch::Failed
}

impl MemHost {
    /// A host with these names. The fetches with a number in `failing`, counted from 0, fail.
    pub fn new(names: Vec<Named>, failing: Vec<u64>) -> MemHost
        ensures { result ≡ record { names = names; failing = failing; fetches = 0; faults = 0 } }
    {
        MemHost {
            names,
            failing,
            fetches: 0,
            faults: 0,
        }
    }
}

impl Host for MemHost {
    ghost holds = { λ host. Some (bytes_under host.names.items) };

    ghost faults = { λ host _. host.faults };

    /// As the trait has it. It fails exactly where it is to fail, or where there is no such name, and each failure is counted.
    fn fetch(&mut self, name: &str, into: &mut Vec<u8>) -> Result<(), Fetch>
        ensures told { Some (bytes_under self.new.names.items) ≡ Some (bytes_under self.old.names.items) }
        ensures rises { (other : List ℕ) → self.old.faults ≤ self.new.faults }
        ensures ok { OnOk result (WhereTold (Some (bytes_under self.old.names.items)) (λ held. Appends (held name.now) into.old.items into.new.items)) }
        ensures failed { IsErrOf result Failed → Rose self.old.faults self.new.faults }
        ensures fails { IsErrOf result Failed ↔ IsTrue (fetch_fails self.old.names.items self.old.failing.items self.old.fetches name.now) }
        ensures counted { self.new ≡ record self.old {
          fetches = one_more self.old.fetches;
          faults = if fetch_fails self.old.names.items self.old.failing.items self.old.fetches name.now then one_more self.old.faults else self.old.faults;
        } }
    {
        let number = self.fetches;
        self.fetches = self.fetches.saturating_add(1);
        if is_to_fail(&self.failing, number) {
            return Err(count_fault(&mut self.faults));
        }
        match find_name(&self.names, name) {
            Some(entry) => match into.extend_from_slice(&entry.bytes) {
                Ok(()) => Ok(()),
                Err(_) => Err(Fetch::NoMemory),
            },
            None => Err(count_fault(&mut self.faults)),
        }
    }
}

/// A host that has every name, with empty bytes where none were given, and never fails.
#[derive(Drop)]
pub struct SureHost {
    pub names: Vec<Named>,
}

impl Host for SureHost {
    ghost holds = { λ host. Some (bytes_or_none host.names.items) };

    ghost faults = { λ _ _. 0 };

    fn fetch(&mut self, name: &str, into: &mut Vec<u8>) -> Result<(), Fetch> {
        if let Some(entry) = find_name(&self.names, name) {
            match into.extend_from_slice(&entry.bytes) {
                Ok(()) => {}
                Err(_) => return Err(Fetch::NoMemory),
            }
        }
        Ok(())
    }
}
