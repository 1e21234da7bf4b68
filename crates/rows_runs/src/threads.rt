// Runs on threads: their reports, and the trace of the journal that a run keeps.
use crate::guests::HELLO;
use crate::runs::{call, host_of, sink_of};
use mck_report::{Status, trace};
use std::test::Fail;

const JOB: &[u8] = b"frames 18\nguest image\n";

const TWO_GUESTS: &[u8] = b"frames 36\ncores 2\nguest image\nguest image\n";

#[test]
fn one_guest(rt: HostRuntime) -> Result<(), Fail> {
    let alloc = rt.alloc();
    let mut host = host_of(alloc, &[("job", JOB), ("image", &HELLO)], &[])?;
    let mut sink = sink_of(alloc, 4096, 4096)?;
    let ended = call(&rt, alloc, &["run", "job"], &mut host, &mut sink)?;
    assert_eq!(rt; ended.status, Status::Done);
    let report =
        b"mcreport 1\nend done\nguest 1 exit 0\noutput 1 5\nhello\ncount instructions 9\ncount requests 1\ncount faults 1\ncount rounds 0\ncount free 18\n";
    assert_eq!(rt; sink.taken(), report.as_slice());
    Ok(())
}

#[test]
fn two_guests_on_two_cores(rt: HostRuntime) -> Result<(), Fail> {
    let alloc = rt.alloc();
    let mut host = host_of(alloc, &[("job", TWO_GUESTS), ("image", &HELLO)], &[])?;
    let mut sink = sink_of(alloc, 4096, 4096)?;
    let ended = call(&rt, alloc, &["run", "job"], &mut host, &mut sink)?;
    assert_eq!(rt; ended.status, Status::Done);
    let report =
        b"mcreport 1\nend done\nguest 1 exit 0\nguest 2 exit 0\noutput 1 5\nhello\noutput 2 5\nhello\ncount instructions 18\ncount requests 2\ncount faults 2\ncount rounds 0\ncount free 36\n";
    assert_eq!(rt; sink.taken(), report.as_slice());
    Ok(())
}

#[test]
fn the_trace_of_a_run(rt: HostRuntime) -> Result<(), Fail> {
    let alloc = rt.alloc();
    let mut host = host_of(alloc, &[("job", JOB), ("image", &HELLO)], &[])?;
    let mut sink = sink_of(alloc, 4096, 4096)?;
    let ran = call(&rt, alloc, &["run", "job", "trace"], &mut host, &mut sink)?;
    assert_eq!(rt; ran.status, Status::Done);
    let kept = trace(alloc, ran.journal.as_slice()).map_err(|_| "no memory")?;
    assert_eq!(rt; sink.taken(), kept.as_slice());
    Ok(())
}
