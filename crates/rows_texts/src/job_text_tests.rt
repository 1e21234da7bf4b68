// Jobs that read, and how often a line may stand.
use job_text::{JobError, JobFault, Key, SignalLine, Source, SourceKind, Why, read_job, sources};
use std::alloc::{AllocError, Global};

fn fault_of(alloc: Global, text: &[u8]) -> Option<JobError> {
    match read_job(alloc, text) {
        Ok(_) => None,
        Err(e) => Some(e),
    }
}

#[test]
fn reads_all_kinds(rt: HostRuntime) {
    let alloc = rt.alloc();
    let text =
        b"# a job\n\nframes 20\ncores 8\nworkers 4\nrings 3\nlimit 100\nguest a b c\nfile /x/y f\nsignal 1 9 7\nguest d\ninput 2 in\n";
    match read_job(alloc, text) {
        Ok(job) => {
            assert_eq!(rt;
                (job.frames, job.cores, job.workers, job.rings),
                (20, 8, 4, 3)
            );
            assert_eq!(rt; job.limit, 100);
            assert_eq!(rt; job.guests.len(), 2);
            assert_eq!(rt;
                job.signals.as_slice().first().copied(),
                Some(SignalLine {
                    line: 10,
                    guest: 1,
                    sig: 9,
                    after: 7
                })
            );
            match (
                job.guests.as_slice().first(),
                job.files.as_slice().first(),
                job.inputs.as_slice().first(),
            ) {
                (Some(guest), Some(file), Some(input)) => {
                    assert_eq!(rt; guest.line, 8);
                    assert_eq!(rt; guest.args.len(), 3);
                    assert_eq!(rt; file.path.as_slice(), b"/x/y".as_slice());
                    assert_eq!(rt; file.name.as_slice(), b"f".as_slice());
                    assert_eq!(rt;
                        (input.line, input.guest, input.name.as_slice()),
                        (12, 2, b"in".as_slice())
                    );
                }
                _ => assert!(rt; false),
            }
            match sources(alloc, &job) {
                Ok(found) => {
                    let want = [
                        Source {
                            line: 8,
                            kind: SourceKind::Guest,
                            place: 0,
                        },
                        Source {
                            line: 9,
                            kind: SourceKind::File,
                            place: 0,
                        },
                        Source {
                            line: 11,
                            kind: SourceKind::Guest,
                            place: 1,
                        },
                        Source {
                            line: 12,
                            kind: SourceKind::Input,
                            place: 0,
                        },
                    ];
                    assert_eq!(rt; found.as_slice(), want.as_slice());
                }
                Err(_) => assert!(rt; false),
            }
        }
        Err(_) => assert!(rt; false),
    }
    match read_job(alloc, b"guest a\nframes 1\n") {
        Ok(job) => {
            assert_eq!(rt;
                (job.cores, job.workers, job.rings, job.limit),
                (1, 2, 1, 1_000_000)
            );
        }
        Err(_) => assert!(rt; false),
    }
}

// A job whose text goes on with so many lines that differ in a number.
fn with_lines(alloc: Global, lines: u64, front: &str, back: &str) -> Result<Vec<u8>, AllocError> {
    let mut text = Vec::from_slice(alloc, b"frames 20\nguest a\n")?;
    for k in 0..lines {
        let line = format!(in alloc; "{front}{k}{back}\n")?;
        text.extend_from_slice(line.as_bytes())?;
    }
    Ok(text)
}

// A text, so many times another one, and a third.
fn repeated(
    alloc: Global,
    front: &[u8],
    part: &[u8],
    times: u64,
    back: &[u8],
) -> Result<Vec<u8>, AllocError> {
    let mut text = Vec::from_slice(alloc, front)?;
    for _ in 0..times {
        text.extend_from_slice(part)?;
    }
    text.extend_from_slice(back)?;
    Ok(text)
}

fn broken_at(line: u64, why: Why) -> Option<JobError> {
    Some(JobError::Fault(JobFault::Line { line, why }))
}

// As often as a line or a word may stand, and once more.
#[test]
fn most_lines_and_words(rt: HostRuntime) -> Result<(), AllocError> {
    let alloc = rt.alloc();
    let signals = with_lines(alloc, 64, "signal 1 9 ", "")?;
    assert_eq!(rt; fault_of(alloc, &signals), None);
    let signals = with_lines(alloc, 65, "signal 1 9 ", "")?;
    assert_eq!(rt; fault_of(alloc, &signals), broken_at(67, Why::TooMany));
    let files = with_lines(alloc, 64, "file /d/", " f")?;
    assert_eq!(rt; fault_of(alloc, &files), None);
    let files = with_lines(alloc, 65, "file /d/", " f")?;
    assert_eq!(rt; fault_of(alloc, &files), broken_at(67, Why::TooMany));
    let words = repeated(alloc, b"frames 20\nguest", b" a", 64, b"\n")?;
    assert_eq!(rt; fault_of(alloc, &words), None);
    let words = repeated(alloc, b"frames 20\nguest", b" a", 65, b"\n")?;
    assert_eq!(rt; fault_of(alloc, &words), broken_at(2, Why::Count));
    let name = repeated(alloc, b"frames 20\nguest a\nfile /", b"a", 255, b" f\n")?;
    assert_eq!(rt; fault_of(alloc, &name), None);
    let name = repeated(alloc, b"frames 20\nguest a\nfile /", b"a", 256, b" f\n")?;
    assert_eq!(rt; fault_of(alloc, &name), broken_at(3, Why::Path));
    let long = repeated(alloc, b"frames 20\nguest a", b"\x07", 1018, b"\n")?;
    assert_eq!(rt; fault_of(alloc, &long), broken_at(2, Why::Length));
    let long = repeated(alloc, b"frames 20\nguest a", b"\x07", 1017, b"\n")?;
    assert_eq!(rt; fault_of(alloc, &long), broken_at(2, Why::Byte));
    Ok(())
}

#[test]
fn limits(rt: HostRuntime) {
    let alloc = rt.alloc();
    let mut long = [b'#'; 1026];
    long[1025] = b'\n';
    assert_eq!(rt;
        fault_of(alloc, &long),
        Some(JobError::Fault(JobFault::Line {
            line: 1,
            why: Why::Length
        }))
    );
    long[1024] = b'\n';
    long[1025] = b'\n';
    assert_eq!(rt;
        fault_of(alloc, &long),
        Some(JobError::Fault(JobFault::Missing(Key::Frames)))
    );
    let mut text = Vec::new(alloc);
    let mut made = true;
    for _ in 0..17 {
        made = made && text.extend_from_slice(b"guest a\n").is_ok();
    }
    assert!(rt; made);
    assert_eq!(rt;
        fault_of(alloc, &text),
        Some(JobError::Fault(JobFault::Line {
            line: 17,
            why: Why::TooMany
        }))
    );
}
