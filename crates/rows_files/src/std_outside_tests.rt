// A file of the system, and an output that is slow and full.
ghost use Rattle.std.specs.Prelude.{◌≤◌, IfOk, length};

use outside::{Failed, Fetch, Host, Sink, put_all};
use std::cell::Cell;
use std::fmt::Display;
use std::io::ErrorKind;
use std::test::Fail;
use std::{fs, io};
use std_outside::{FsHost, StdSink};

// An output that takes two bytes at a time while there is room, after some calls that a signal cuts off.
#[derive(Drop)]
struct Output {
    signals: Cell<u32>,
    room: Cell<usize>,
}

impl Print for Output {
    fn print<D: Display + Drop>(&self, _value: D) -> io::Result<()> {
        Ok(())
    }

    fn println<D: Display + Drop>(&self, _value: D) -> io::Result<()> {
        Ok(())
    }

    fn write_all(&self, _bytes: &[u8]) -> io::Result<()> {
        Ok(())
    }

    fn write_some(&self, bytes: &[u8]) -> io::Result<usize>
        ensures bound { IfOk result (λ n. n ≤ length bytes.now) }
    {
        let signals = self.signals.get();
        if signals > 0 {
            self.signals.set(signals - 1);
            return Err(io::Error::from(ErrorKind::Interrupted));
        }
        let room = self.room.get();
        let n = bytes.len().min(room).min(2);
        if n == 0 {
            return Err(io::Error::from(ErrorKind::StorageFull));
        }
        self.room.set(room - n);
        Ok(n)
    }
}

#[test]
fn sinks(rt: HostRuntime) {
    let output = Output {
        signals: Cell::new(2),
        room: Cell::new(6),
    };
    let mut sink = StdSink::new(output);
    assert_eq!(rt; put_all(&mut sink, b"hello"), Ok(()));
    assert_eq!(rt; put_all(&mut sink, b"ab"), Err(Failed));
    assert_eq!(rt; sink.put(b""), Ok(0));
    assert_eq!(rt; sink.faults, 1);
}

#[test]
fn hosts(rt: HostRuntime) -> Result<(), Fail> {
    let path = "job_of_the_test";
    fs::write(&rt, path, "frames 18\n")?;
    let mut host = FsHost::new(rt);
    let mut bytes = Vec::new(rt.alloc());
    assert_eq!(rt; host.fetch(path, &mut bytes), Ok(()));
    assert_eq!(rt; bytes.as_slice(), b"frames 18\n".as_slice());
    fs::remove_file(&rt, path)?;
    assert_eq!(rt; host.fetch(path, &mut bytes), Err(Fetch::Failed));
    assert_eq!(rt; host.fetch(".", &mut bytes), Err(Fetch::Failed), "a folder");
    assert_eq!(rt; host.faults, 2);
    Ok(())
}
