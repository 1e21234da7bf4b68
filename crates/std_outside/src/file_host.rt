// The files of the working directory as a host.
ghost use Rattle.outside.specs.Devices.{one_more};
ghost use Rattle.outside.specs.Outside.{Appends, Held, Rose, WhereTold};
ghost use Rattle.outside.specs.declared.host.Fetch.TheVariants.{Failed};
ghost use Rattle.std.specs.Prelude.{◌+◌, ◌≡◌, ◌≢◌, ◌≤◌, Err, IfOk, IsErrOf, List, None, OnOk, Option, vec_len, ℕ};

use outside::{Fetch, Host};
use std::fs::File;
use std::io;
use std::io::{ErrorKind, Read};
use std::rt::Files;

/// How many bytes of a file a fetch brings at most.
pub const MOST_BYTES: u64 = 67_108_864;

/// The files of the working directory, each under its path from there. It tells none of their bytes.
#[derive(Drop)]
pub struct FsHost<R: Files> {
    files: R,
    /// How many fetches failed. At the last value the count stays.
    pub faults: u64,
}

impl<R: Files> FsHost<R> {
    /// The host over these files, without a fault so far.
    pub fn new(files: R) -> FsHost<R>
        ensures { result.faults ≡ 0 }
    {
        FsHost { files, faults: 0 }
    }
}

// Adds what the file holds, but at most one byte more than a fetch may bring, and says how many bytes that are.
fn read_file<R: Files>(files: &R, path: &str, into: &mut Vec<u8>) -> io::Result<usize>
    ensures { IfOk result (λ n. vec_len into.new ≡ vec_len into.old + n) }
{
    let file = File::open(files, path)?;
    file.take(MOST_BYTES + 1).read_to_end(into)
}

impl<R: Files> Host for FsHost<R> {
    ghost holds = { λ _. None };

    ghost faults = { λ host _. host.faults };

    /// As the trait has it. It fails where the file can't be opened or read to its end, or has more than 67,108,864 bytes; of
    /// those it reads one more at most.
    fn fetch(&mut self, name: &str, into: &mut Vec<u8>) -> Result<(), Fetch>
        ensures told { ◌≡◌ {A = Option Held} None None }
        ensures rises { (other : List ℕ) → self.old.faults ≤ self.new.faults }
        ensures ok { OnOk result (WhereTold {A = Held} None (λ held. Appends (held name.now) into.old.items into.new.items)) }
        ensures most { OnOk result (vec_len into.new ≤ vec_len into.old + 67_108_864) }
        ensures failed { IsErrOf result Failed → Rose self.old.faults self.new.faults }
        ensures counted { IsErrOf result Failed → self.new.faults ≡ one_more self.old.faults }
        ensures kept { result ≢ Err Failed → self.new.faults ≡ self.old.faults }
    {
        match read_file(&self.files, name, into) {
            Ok(bytes) if bytes as u64 <= MOST_BYTES => return Ok(()),
            Err(error) if error.kind() == ErrorKind::OutOfMemory => return Err(Fetch::NoMemory),
            _ => {}
        }
        self.faults = self.faults.saturating_add(1);
        Err(Fetch::Failed)
    }
}
