// Refusals, and faults of the host and the sink.
use crate::guests::{EXIT_SEVEN, HELLO};
use crate::runs::{call, host_of, sink_of};
use mck_report::Status;
use std::test::Fail;

const JOB: &[u8] = b"frames 18\nguest image\n";

#[test]
fn too_few_frames_at_boot(rt: HostRuntime) -> Result<(), Fail> {
    let alloc = rt.alloc();
    let job = b"frames 17\nguest image\n";
    let mut host = host_of(alloc, &[("job", job), ("image", &EXIT_SEVEN)], &[])?;
    let mut sink = sink_of(alloc, 4096, 4096)?;
    let ended = call(&rt, alloc, &["walk", "job"], &mut host, &mut sink)?;
    let refused = Status::NoFrames {
        guest: 1,
        needed: 18,
        free: 17,
    };
    assert_eq!(rt; ended.status, refused);
    assert_eq!(rt; sink.taken().len(), 0);
    Ok(())
}

#[test]
fn no_job_and_no_image(rt: HostRuntime) -> Result<(), Fail> {
    let alloc = rt.alloc();
    let mut host = host_of(alloc, &[("job", JOB)], &[])?;
    let mut sink = sink_of(alloc, 4096, 4096)?;
    let ended = call(&rt, alloc, &["walk", "no job"], &mut host, &mut sink)?;
    assert_eq!(rt; ended.status, Status::HostFault);
    let ended = call(&rt, alloc, &["walk", "job"], &mut host, &mut sink)?;
    assert_eq!(rt; ended.status, Status::HostFault);
    assert_eq!(rt; ended.journal.len(), 0);
    assert_eq!(rt; sink.taken().len(), 0);
    assert_eq!(rt; host.faults, 2);
    Ok(())
}

#[test]
fn a_host_that_fails_once(rt: HostRuntime) -> Result<(), Fail> {
    let alloc = rt.alloc();
    let mut host = host_of(alloc, &[("job", JOB), ("image", &HELLO)], &[1])?;
    let mut sink = sink_of(alloc, 4096, 4096)?;
    let ended = call(&rt, alloc, &["walk", "job"], &mut host, &mut sink)?;
    assert_eq!(rt; ended.status, Status::HostFault);
    let ended = call(&rt, alloc, &["walk", "job"], &mut host, &mut sink)?;
    assert_eq!(rt; ended.status, Status::Done);
    Ok(())
}

#[test]
fn a_sink_that_is_full(rt: HostRuntime) -> Result<(), Fail> {
    let alloc = rt.alloc();
    let mut host = host_of(alloc, &[("job", JOB), ("image", &HELLO)], &[])?;
    let mut sink = sink_of(alloc, 20, 4096)?;
    let ended = call(&rt, alloc, &["walk", "job"], &mut host, &mut sink)?;
    assert_eq!(rt; ended.status, Status::SinkFault);
    assert_eq!(rt; sink.taken(), b"mcreport 1\nend done\n".as_slice());
    assert_eq!(rt; ended.journal.len(), 17, "the journal is kept");
    Ok(())
}

#[test]
fn one_byte_at_a_time(rt: HostRuntime) -> Result<(), Fail> {
    let alloc = rt.alloc();
    let mut host = host_of(alloc, &[("job", JOB), ("image", &HELLO)], &[])?;
    let mut whole = sink_of(alloc, 4096, 4096)?;
    let mut single = sink_of(alloc, 4096, 1)?;
    let ended = call(&rt, alloc, &["walk", "job"], &mut host, &mut whole)?;
    assert_eq!(rt; ended.status, Status::Done);
    let ended = call(&rt, alloc, &["walk", "job"], &mut host, &mut single)?;
    assert_eq!(rt; ended.status, Status::Done);
    assert_eq!(rt; whole.taken(), single.taken());
    Ok(())
}

#[test]
fn words_that_fit_nothing(rt: HostRuntime) -> Result<(), Fail> {
    let alloc = rt.alloc();
    let mut host = host_of(alloc, &[("job", JOB)], &[])?;
    let mut sink = sink_of(alloc, 4096, 4096)?;
    let ended = call(&rt, alloc, &["walks", "job"], &mut host, &mut sink)?;
    assert_eq!(rt; ended.status, Status::BadWords);
    assert_eq!(rt; host.fetches, 0);
    Ok(())
}
