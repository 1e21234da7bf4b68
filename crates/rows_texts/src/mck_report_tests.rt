// Texts of the worked rows, and of broken traces.
use crate::small_files::EXIT_SEVEN;
use elf_load::load;
use file_model::PathRow;
use hybrid_model::{Ending, Event};
use job_text::{JobFault, Key, Why};
use mck_report::{
    Status, TraceError, check, grow, needed_frames, read_trace, report, status_line, status_number,
    trace,
};
use mck_word::{Bytes, End, Items, Pid, Req, Tid};
use run_summary::{Output, ProcessEnd, Summary};
use std::test::Fail;

fn bytes(rt: &HostRuntime, text: &[u8]) -> Result<Bytes, Fail> {
    Ok(Bytes::from_slice(rt.alloc(), text)?)
}

// A node with one guest that ended, and these outputs and paths.
fn summary(rt: &HostRuntime) -> Result<Summary, Fail> {
    Ok(Summary {
        ends: Items::new(rt.alloc()),
        outputs: Items::new(rt.alloc()),
        paths: Items::new(rt.alloc()),
        unsent: Items::new(rt.alloc()),
        instructions: 3,
        free: 18,
    })
}

#[test]
fn exit_code_seven(rt: HostRuntime) -> Result<(), Fail> {
    let journal = [
        Event::Run(0, Tid(1), 64),
        Event::Trap(Tid(1)),
        Event::Reap(Pid(1)),
    ];
    let text = trace(rt.alloc(), &journal)?;
    assert_eq!(rt;
        text.as_slice(),
        b"mctrace 2\nrun 0 1 64\ntrap 1\nreap 1\n".as_slice()
    );
    let mut summary = summary(&rt)?;
    summary.ends.push(ProcessEnd {
        pid: Pid(1),
        end: Some(End::Exit(7)),
    })?;
    summary.outputs.push(Output {
        pid: Pid(1),
        bytes: bytes(&rt, b"")?,
    })?;
    let text = report(rt.alloc(), &summary, Ending::Done, 0, &journal)?;
    assert_eq!(rt;
        text.as_slice(),
        b"mcreport 1\nend done\nguest 1 exit 7\noutput 1 0\n\ncount instructions 3\ncount requests 0\ncount faults 0\ncount rounds 0\ncount free 18\n".as_slice()
    );
    let text = grow(rt.alloc(), 1, &summary, Ending::Done, 0, &journal)?;
    assert_eq!(rt;
        text.as_slice(),
        b"end done\nguests 1\ncount instructions 3\ncount requests 0\ncount faults 0\ncount rounds 0\ncount free 18\n".as_slice()
    );
    Ok(())
}

#[test]
fn all_kinds_of_lines(rt: HostRuntime) -> Result<(), Fail> {
    let mut summary = summary(&rt)?;
    summary.ends.push(ProcessEnd {
        pid: Pid(1),
        end: Some(End::Killed(9)),
    })?;
    summary.ends.push(ProcessEnd {
        pid: Pid(17),
        end: None,
    })?;
    summary.paths.push(PathRow {
        path: bytes(&rt, b"/a b\\")?,
        directory: true,
        bytes: bytes(&rt, b"")?,
    })?;
    summary.paths.push(PathRow {
        path: bytes(&rt, b"/f")?,
        directory: false,
        bytes: bytes(&rt, b"hi")?,
    })?;
    summary.unsent.push(4)?;
    let journal = [
        Event::Miss(Pid(1), 0),
        Event::BeginVm(Tid(1)),
        Event::BeginVm(Tid(1)),
    ];
    let text = report(rt.alloc(), &summary, Ending::Stalled, 2, &journal)?;
    assert_eq!(rt;
        text.as_slice(),
        b"mcreport 1\nend stalled\nguest 1 killed 9\nguest 17 running\ndir /a\\x20b\\x5c\nfile /f 2\nhi\nunsent 4\ncount instructions 3\ncount requests 2\ncount faults 1\ncount rounds 2\ncount free 18\n".as_slice()
    );
    Ok(())
}

#[test]
fn reading(rt: HostRuntime) -> Result<(), Fail> {
    let journal = [
        Event::Run(7, Tid(4294967295), 64),
        Event::Fetch(Pid(1), 0),
        Event::Fetch(Pid(1), 3),
        Event::Wait(Tid(2)),
        Event::Unpark(Pid(1), Req(18446744073709551615)),
        Event::AckClear(Pid(16)),
    ];
    let text = trace(rt.alloc(), &journal)?;
    let read = read_trace(rt.alloc(), text.as_slice()).map_err(|_| "not read")?;
    assert_eq!(rt; read.as_slice(), journal.as_slice());
    let old = read_trace(rt.alloc(), b"mctrace 1\nfetch 1\n").map_err(|_| "not read")?;
    assert_eq!(rt; old.as_slice(), [Event::Fetch(Pid(1), 0)].as_slice());
    let broken: [(&[u8], u64); 12] = [
        (b"", 1),
        (b"mctrace 9\n", 1),
        (b"mctrace 2", 1),
        (b"mctrace 1\nfetch 1 1\n", 2),
        (b"mctrace 1\nwait 1\n", 2),
        (b"mctrace 2\nfetch 1 0\n", 2),
        (b"mctrace 2\ntrap 1\n\n", 3),
        (b"mctrace 2\ntrap 1\ntrap 2", 3),
        (b"mctrace 2\ntrap 01\n", 2),
        (b"mctrace 2\ntrap 4294967296\n", 2),
        (b"mctrace 2\nrun 0 1\n", 2),
        (b"mctrace 2\nrun 0 1 64 \n", 2),
    ];
    for (text, line) in broken {
        match read_trace(rt.alloc(), text) {
            Ok(_) => assert!(rt; false, "line {line}"),
            Err(e) => assert_eq!(rt; e, TraceError::Line(line)),
        }
    }
    Ok(())
}

#[test]
fn checking(rt: HostRuntime) -> Result<(), Fail> {
    let image = load(rt.alloc(), EXIT_SEVEN).map_err(|_| "no image")?;
    assert_eq!(rt; needed_frames(&image), 18);
    let text = check(rt.alloc(), 18, &[])?;
    assert_eq!(rt; text.as_slice(), b"frames 0 of 18\n".as_slice());
    let text = check(rt.alloc(), 18, &[image])?;
    assert_eq!(rt;
        text.as_slice(),
        b"guest 1 entry 0000000000010078 pages 18\nsegment 0000000000010000 132 rwx\nframes 18 of 18\n".as_slice()
    );
    Ok(())
}

#[test]
fn lines_of_statuses(rt: HostRuntime) -> Result<(), Fail> {
    let lines: [(Status, &[u8], u8); 9] = [
        (Status::Done, b"", 0),
        (Status::BadWords, b"mcexec: words\n", 2),
        (
            Status::BadJob(JobFault::Line {
                line: 3,
                why: Why::TooMany,
            }),
            b"mcexec: job line 3 toomany\n",
            3,
        ),
        (
            Status::BadJob(JobFault::Missing(Key::Guest)),
            b"mcexec: job lacks guest\n",
            3,
        ),
        (
            Status::BadElf {
                guest: 2,
                why: elf_load::ElfFault::Overlap(0, 1),
            },
            b"mcexec: guest 2 elf overlap 0 1\n",
            4,
        ),
        (
            Status::NoFrames {
                guest: 1,
                needed: 18,
                free: 17,
            },
            b"mcexec: guest 1 needs 18 frames, 17 free\n",
            5,
        ),
        (Status::from(Ending::Limit), b"", 6),
        (Status::BadTrace(11), b"mcexec: trace line 11\n", 10),
        (Status::LongFile(4), b"mcexec: file line 4 too long\n", 12),
    ];
    for (status, line, number) in lines {
        let text = status_line(rt.alloc(), &status)?;
        assert_eq!(rt; text.as_slice(), line);
        assert_eq!(rt; status_number(&status), number);
    }
    Ok(())
}
