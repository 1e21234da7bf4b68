// Standard output as a sink.
ghost use Rattle.outside.specs.Devices.{one_more};
ghost use Rattle.outside.specs.Outside.{Rose, Takes};
ghost use Rattle.std.specs.Prelude.{◌≡◌, ◌≤◌, ◌<◌, [], IfOk, IfSome, List, None, Option, Ok, OnErr, OnOk, length, take, ℕ};

use outside::{Failed, Sink};
use std::io::ErrorKind;

/// Standard output. It tells nothing of what it took.
#[derive(Drop)]
pub struct StdSink<R: Print> {
    output: R,
    /// How many puts failed. At the last value the count stays.
    pub faults: u64,
}

impl<R: Print> StdSink<R> {
    /// The sink over this output, without a fault so far.
    pub fn new(output: R) -> StdSink<R>
        ensures { result.faults ≡ 0 }
    {
        StdSink { output, faults: 0 }
    }
}

// How many bytes of the piece the system took: at least one. A write that a signal cut off before its first byte is tried again.
fn write_some<R: Print>(output: &R, piece: &[u8]) -> Option<usize>
    ensures within { IfSome result (λ n. n ≤ length piece.now) }
    ensures some { IfSome result (λ n. 0 < n) }
{
    for _ in 0..u64::MAX {
        match output.write_some(piece) {
            Ok(0) => return None,
            Ok(n) => return Some(n),
            Err(error) => {
                if error.kind() != ErrorKind::Interrupted {
                    return None;
                }
            }
        }
    }
    None
}

impl<R: Print> Sink for StdSink<R> {
    ghost taken = { λ _. None };

    ghost faults = { λ sink. sink.faults };

    /// As the trait has it. It fails where the system takes no byte of a piece that is not empty, as of a closed pipe or a full disk.
    fn put(&mut self, piece: &[u8]) -> Result<usize, Failed>
        ensures rises { self.old.faults ≤ self.new.faults }
        ensures within { IfOk result (λ n. n ≤ length piece.now) }
        ensures some { IfOk result (λ n. 0 < length piece.now → 0 < n) }
        ensures empty { piece.now ≡ [] → result ≡ Ok 0 }
        ensures ok { IfOk result (λ n. Takes None (take n piece.now) None) }
        ensures failed { OnErr result (Rose self.old.faults self.new.faults) }
        ensures kept { OnErr result (◌≡◌ {A = Option (List ℕ)} None None) }
        ensures counted { OnErr result (self.new.faults ≡ one_more self.old.faults) }
        ensures no_fault { OnOk result (self.new.faults ≡ self.old.faults) }
    {
        if piece.is_empty() {
            return Ok(0);
        }
        let Some(n) = write_some(&self.output, piece) else {
            self.faults = self.faults.saturating_add(1);
            return Err(Failed);
        };
        Ok(n)
    }
}
