// Commands as the program runs them: page tables of three levels, and the store of files of the Linux side.
use crate::guests::{EXIT_SEVEN, HELLO};
use crate::runs::{host_of, sink_of};
use linux_files::LinuxFiles;
use mcexec_run::mcexec;
use mck_crew::OpenGate;
use mck_report::status_number;
use one_kernel::One;
use outside::{MemHost, MemSink};
use pair_node::Pair;
use std::alloc::Global;
use std::sync::Wait;
use std::test::Fail;
use std::thread::Threads;
use sv_table::SvTable;

// The node that the program runs.
type Node = Pair<SvTable, LinuxFiles>;

// What a command writes over a job of one guest with that image, and its status's number.
fn written<R: Threads + Wait + Sync>(
    rt: &R,
    alloc: Global,
    image: &[u8],
    words: &[&str],
) -> Result<(u8, Vec<u8>), Fail> {
    let job = b"frames 18\nguest image\n";
    let mut host = host_of(alloc, &[("job", job), ("image", image)], &[])?;
    let mut sink = sink_of(alloc, 10_000, 64)?;
    let mut all = Vec::new(alloc);
    for word in words {
        all.push(String::from_str(alloc, word)?)?;
    }
    let ended = mcexec::<Node, One, OpenGate, R, MemHost, MemSink>(
        rt, &OpenGate, alloc, &all, &mut host, &mut sink,
    );
    let text = Vec::from_slice(alloc, sink.taken())?;
    Ok((status_number(&ended.status), text))
}

#[test]
fn exit_code_seven(rt: HostRuntime) -> Result<(), Fail> {
    let alloc = rt.alloc();
    let (status, text) = written(&rt, alloc, &EXIT_SEVEN, &["walk", "job"])?;
    assert_eq!(rt; status, 0);
    let report =
        b"mcreport 1\nend done\nguest 1 exit 7\noutput 1 0\n\ncount instructions 3\ncount requests 0\ncount faults 0\ncount rounds 0\ncount free 18\n";
    assert_eq!(rt; text.as_slice(), report.as_slice());
    let (status, text) = written(&rt, alloc, &EXIT_SEVEN, &["walk", "job", "trace"])?;
    assert_eq!(rt; status, 0);
    assert_eq!(rt;
        text.as_slice(),
        b"mctrace 2\nrun 0 1 64\ntrap 1\nreap 1\n".as_slice()
    );
    Ok(())
}

#[test]
fn hello_by_request_and_mirror_fault(rt: HostRuntime) -> Result<(), Fail> {
    let (status, text) = written(&rt, rt.alloc(), &HELLO, &["walk", "job", "0", "trace"])?;
    assert_eq!(rt; status, 0);
    let trace =
        b"mctrace 2\nrun 0 1 64\ntrap 1\nfetch 1\nassign 1 0\nact 1 0\nmiss 1 0\nintake 1\nanswer 1 0\nfetch 1\npin 1 0\ncopy 1 0\nunpin 1 0\nfinish 1 0\nintake 1\nrun 0 1 64\ntrap 1\nreap 1\n";
    assert_eq!(rt; text.as_slice(), trace.as_slice());
    Ok(())
}

#[test]
fn a_check_and_refusals(rt: HostRuntime) -> Result<(), Fail> {
    let alloc = rt.alloc();
    let (status, text) = written(&rt, alloc, &EXIT_SEVEN, &["check", "job"])?;
    assert_eq!(rt; status, 0);
    let needs =
        b"guest 1 entry 0000000000010078 pages 18\nsegment 0000000000010000 132 rwx\nframes 18 of 18\n";
    assert_eq!(rt; text.as_slice(), needs.as_slice());
    assert_eq!(rt; written(&rt, alloc, &EXIT_SEVEN, &["walk"])?.0, 2);
    assert_eq!(rt; written(&rt, alloc, &EXIT_SEVEN, &["walk", "image"])?.0, 3);
    assert_eq!(rt;
        written(&rt, alloc, &EXIT_SEVEN, &["walk", "nothing"])?.0,
        7
    );
    assert_eq!(rt;
        written(&rt, alloc, &EXIT_SEVEN, &["run", "job", "7"])?.0,
        2
    );
    Ok(())
}
