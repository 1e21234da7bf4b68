// Walks of a guest that forks.
use crate::guests::FORK_AND_WAIT;
use crate::runs::{call, host_of, sink_of};
use hybrid_model::Event;
use mck_report::Status;
use mck_word::{Pid, Tid};
use std::test::Fail;

#[test]
fn fork_and_wait(rt: HostRuntime) -> Result<(), Fail> {
    let alloc = rt.alloc();
    let job = b"frames 36\nguest image\n";
    let mut host = host_of(alloc, &[("job", job), ("image", &FORK_AND_WAIT)], &[])?;
    let mut sink = sink_of(alloc, 4096, 4096)?;
    let ended = call(&rt, alloc, &["walk", "job"], &mut host, &mut sink)?;
    assert_eq!(rt; ended.status, Status::Done);
    let report =
        b"mcreport 1\nend done\nguest 1 exit 0\nguest 17 exit 5\noutput 1 0\n\ncount instructions 31\ncount requests 0\ncount faults 0\ncount rounds 0\ncount free 36\n";
    assert_eq!(rt; sink.taken(), report.as_slice());
    let parent = Tid(1);
    let child = Tid(17);
    let journal = [
        Event::Run(0, parent, 64),
        Event::Trap(parent),
        Event::Run(0, child, 64),
        Event::Run(0, parent, 64),
        Event::Trap(child),
        Event::Reap(Pid(17)),
        Event::Trap(parent),
        Event::Run(0, parent, 64),
        Event::Trap(parent),
        Event::Reap(Pid(1)),
    ];
    assert_eq!(rt; ended.journal.as_slice(), journal.as_slice());
    Ok(())
}

#[test]
fn a_fork_without_frames_is_refused(rt: HostRuntime) -> Result<(), Fail> {
    let alloc = rt.alloc();
    let job = b"frames 35\nguest image\n";
    let mut host = host_of(alloc, &[("job", job), ("image", &FORK_AND_WAIT)], &[])?;
    let mut sink = sink_of(alloc, 4096, 4096)?;
    let ended = call(&rt, alloc, &["walk", "job"], &mut host, &mut sink)?;
    assert_eq!(rt; ended.status, Status::Done);
    let report =
        b"mcreport 1\nend done\nguest 1 exit 1\noutput 1 0\n\ncount instructions 13\ncount requests 0\ncount faults 0\ncount rounds 0\ncount free 35\n";
    assert_eq!(rt; sink.taken(), report.as_slice());
    Ok(())
}
