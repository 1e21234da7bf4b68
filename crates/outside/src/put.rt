ghost use Rattle.std.specs.Prelude.{◌≤◌, OnOk, OnErr};
ghost use Rattle.outside.specs.Outside.{Rose, Takes, TakesFront};

use crate::sink::{Failed, Sink};

/// Puts all of the text. At an `Err` a front of it was taken, and not all of it.
pub fn put_all<S: Sink>(sink: &mut S, text: &[u8]) -> Result<(), Failed>
    ensures rises { S.faults sink.old ≤ S.faults sink.new }
    ensures ok { OnOk result (Takes (S.taken sink.old) text.now (S.taken sink.new)) }
    ensures failed { OnErr result (Rose (S.faults sink.old) (S.faults sink.new)) }
    ensures front { OnErr result (TakesFront (S.taken sink.old) text.now (S.taken sink.new)) }
{
    let mut done = 0;
    while done < text.len() {
        let (_, rest) = text.split_at(done);
        done += sink.put(rest)?;
    }
    Ok(())
}
