// Failing and small devices.
use outside::{Failed, Fetch, Host, MemHost, MemSink, Named, Sink, SureHost, SureSink, put_all};
use std::test::Fail;

fn named(rt: &HostRuntime, name: &str, bytes: &[u8]) -> Result<Named, Fail> {
    Ok(Named {
        name: String::from_str(rt.alloc(), name)?,
        bytes: Vec::from_slice(rt.alloc(), bytes)?,
    })
}

fn fetched<H: Host>(rt: &HostRuntime, host: &mut H, name: &str) -> (Vec<u8>, Result<(), Fetch>) {
    let mut bytes = Vec::new(rt.alloc());
    let answer = host.fetch(name, &mut bytes);
    (bytes, answer)
}

#[test]
fn hosts(rt: HostRuntime) -> Result<(), Fail> {
    let mut names = Vec::new(rt.alloc());
    names.push(named(&rt, "job", b"frames 18\n")?)?;
    names.push(named(&rt, "job", b"second")?)?;
    let mut failing = Vec::new(rt.alloc());
    failing.push(1)?;
    let mut host = MemHost::new(names, failing);
    let (bytes, answer) = fetched(&rt, &mut host, "job");
    assert_eq!(rt; answer, Ok(()));
    assert_eq!(rt; bytes.as_slice(), b"frames 18\n".as_slice());
    let (_, answer) = fetched(&rt, &mut host, "job");
    assert_eq!(rt; answer, Err(Fetch::Failed), "the second is to fail");
    let (_, answer) = fetched(&rt, &mut host, "no job");
    assert_eq!(rt; answer, Err(Fetch::Failed));
    assert_eq!(rt; host.fetches, 3);
    assert_eq!(rt; host.faults, 2);
    let mut sure = SureHost { names: host.names };
    let (bytes, answer) = fetched(&rt, &mut sure, "job");
    assert_eq!(rt; answer, Ok(()));
    assert_eq!(rt; bytes.len(), 10);
    let (bytes, answer) = fetched(&rt, &mut sure, "no job");
    assert_eq!(rt; answer, Ok(()));
    assert_eq!(rt; bytes.len(), 0);
    Ok(())
}

#[test]
fn sinks(rt: HostRuntime) -> Result<(), Fail> {
    let mut failing = Vec::new(rt.alloc());
    failing.push(1)?;
    let mut one_byte = MemSink::new(rt.alloc(), 100, 1, failing).map_err(|_| "no memory")?;
    assert_eq!(rt; put_all(&mut one_byte, b"mcreport"), Err(Failed));
    assert_eq!(rt; one_byte.taken(), b"m".as_slice());
    assert_eq!(rt; one_byte.put(b""), Ok(0));
    assert_eq!(rt; put_all(&mut one_byte, b"creport"), Ok(()));
    assert_eq!(rt; one_byte.taken(), b"mcreport".as_slice());
    assert_eq!(rt; one_byte.faults, 1);
    let mut small = MemSink::new(rt.alloc(), 5, 4, Vec::new(rt.alloc())).map_err(|_| "no memory")?;
    assert_eq!(rt; small.put(b"hello!"), Ok(4));
    assert_eq!(rt; small.put(b"o!"), Ok(1));
    assert_eq!(rt; small.put(b"!"), Err(Failed));
    assert_eq!(rt; small.taken(), b"hello".as_slice());
    assert_eq!(rt; put_all(&mut SureSink, b"anything"), Ok(()));
    Ok(())
}
