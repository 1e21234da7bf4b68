// Walks of the two guests of examples/: reports, traces and journals.
use crate::guests::{EXIT_SEVEN, HELLO};
use crate::runs::{call, host_of, sink_of};
use hybrid_model::Event;
use mck_report::Status;
use mck_word::{Pid, Tid};
use std::test::Fail;

const JOB: &[u8] = b"frames 18\nguest image\n";

#[test]
fn exit_code_seven(rt: HostRuntime) -> Result<(), Fail> {
    let alloc = rt.alloc();
    let mut host = host_of(alloc, &[("job", JOB), ("image", &EXIT_SEVEN)], &[])?;
    let mut sink = sink_of(alloc, 4096, 4096)?;
    let ended = call(&rt, alloc, &["walk", "job"], &mut host, &mut sink)?;
    assert_eq!(rt; ended.status, Status::Done);
    let report =
        b"mcreport 1\nend done\nguest 1 exit 7\noutput 1 0\n\ncount instructions 3\ncount requests 0\ncount faults 0\ncount rounds 0\ncount free 18\n";
    assert_eq!(rt; sink.taken(), report.as_slice());
    let journal = [
        Event::Run(0, Tid(1), 64),
        Event::Trap(Tid(1)),
        Event::Reap(Pid(1)),
    ];
    assert_eq!(rt; ended.journal.as_slice(), journal.as_slice());
    Ok(())
}

#[test]
fn hello_by_request_and_mirror_fault(rt: HostRuntime) -> Result<(), Fail> {
    let alloc = rt.alloc();
    let mut host = host_of(alloc, &[("job", JOB), ("image", &HELLO)], &[])?;
    let mut sink = sink_of(alloc, 4096, 4096)?;
    let ended = call(&rt, alloc, &["walk", "job"], &mut host, &mut sink)?;
    assert_eq!(rt; ended.status, Status::Done);
    let report =
        b"mcreport 1\nend done\nguest 1 exit 0\noutput 1 5\nhello\ncount instructions 9\ncount requests 1\ncount faults 1\ncount rounds 0\ncount free 18\n";
    assert_eq!(rt; sink.taken(), report.as_slice());
    let p = Pid(1);
    let t = Tid(1);
    let journal = [
        Event::Run(0, t, 64),
        Event::Trap(t),
        Event::Fetch(p, 0),
        Event::Assign(p, 0),
        Event::Act(p, 0),
        Event::Miss(p, 0),
        Event::Intake(p),
        Event::Answer(p, 0),
        Event::Fetch(p, 0),
        Event::Pin(p, 0),
        Event::Copy(p, 0),
        Event::Unpin(p, 0),
        Event::Finish(p, 0),
        Event::Intake(p),
        Event::Run(0, t, 64),
        Event::Trap(t),
        Event::Reap(p),
    ];
    assert_eq!(rt; ended.journal.as_slice(), journal.as_slice());
    Ok(())
}

#[test]
fn trace_of_hello(rt: HostRuntime) -> Result<(), Fail> {
    let alloc = rt.alloc();
    let mut host = host_of(alloc, &[("job", JOB), ("image", &HELLO)], &[])?;
    let mut sink = sink_of(alloc, 4096, 7)?;
    let ended = call(&rt, alloc, &["walk", "job", "trace"], &mut host, &mut sink)?;
    assert_eq!(rt; ended.status, Status::Done);
    let trace =
        b"mctrace 2\nrun 0 1 64\ntrap 1\nfetch 1\nassign 1 0\nact 1 0\nmiss 1 0\nintake 1\nanswer 1 0\nfetch 1\npin 1 0\ncopy 1 0\nunpin 1 0\nfinish 1 0\nintake 1\nrun 0 1 64\ntrap 1\nreap 1\n";
    assert_eq!(rt; sink.taken(), trace.as_slice());
    Ok(())
}

#[test]
fn another_order_writes_the_same_report(rt: HostRuntime) -> Result<(), Fail> {
    let alloc = rt.alloc();
    let mut host = host_of(alloc, &[("job", JOB), ("image", &HELLO)], &[])?;
    let mut first = sink_of(alloc, 4096, 4096)?;
    let mut second = sink_of(alloc, 4096, 4096)?;
    let ended = call(&rt, alloc, &["walk", "job"], &mut host, &mut first)?;
    assert_eq!(rt; ended.status, Status::Done);
    let ended = call(
        &rt,
        alloc,
        &["walk", "job", "12345"],
        &mut host,
        &mut second,
    )?;
    assert_eq!(rt; ended.status, Status::Done);
    assert_eq!(rt; first.taken(), second.taken());
    Ok(())
}

#[test]
fn two_guests(rt: HostRuntime) -> Result<(), Fail> {
    let alloc = rt.alloc();
    let job = b"frames 36\ncores 2\nguest image\nguest image\n";
    let mut host = host_of(alloc, &[("job", job), ("image", &HELLO)], &[])?;
    let mut sink = sink_of(alloc, 4096, 4096)?;
    let ended = call(&rt, alloc, &["walk", "job"], &mut host, &mut sink)?;
    assert_eq!(rt; ended.status, Status::Done);
    let report =
        b"mcreport 1\nend done\nguest 1 exit 0\nguest 2 exit 0\noutput 1 5\nhello\noutput 2 5\nhello\ncount instructions 18\ncount requests 2\ncount faults 2\ncount rounds 0\ncount free 36\n";
    assert_eq!(rt; sink.taken(), report.as_slice());
    Ok(())
}
