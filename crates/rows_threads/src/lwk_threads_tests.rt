// Threads that are cloned and set.
use lwk_threads::{ThreadTable, core_of};
use mck_flags::SigSet;
use mck_word::{NoMemory, Pid, Regs, Tid};
use std::process::Abort;
use std::test::Fail;

fn registers(pc: u64) -> Regs {
    let mut x = [0; 32];
    x[2] = 4096;
    x[10] = 7;
    Regs { pc, x }
}

// Clones the thread, where it lives and its process has fewer than sixteen.
fn spawn<S: Drop>(
    table: &mut ThreadTable<S>,
    caller: Tid,
    args: &[u64; 6],
    state: S,
) -> Result<Option<Tid>, NoMemory> {
    table.reserve()?;
    let pid = match table.thread(caller) {
        Some(x) => x.pid,
        None => return Ok(None),
    };
    if table.live(pid) < 16 && table.fresh().0 < u32::MAX {
        Ok(Some(table.clone_thread(caller, args, state)))
    } else {
        Ok(None)
    }
}

fn begin<S: Drop>(table: &mut ThreadTable<S>, pid: Pid, state: S) -> Result<(), NoMemory> {
    table.reserve()?;
    let tid = Tid(pid.0);
    if table.live(pid) == 0 && tid.0 < u32::MAX && table.thread(tid).is_none() {
        table.first(pid, tid, registers(4096), SigSet(6), state);
    }
    Ok(())
}

fn end<S: Drop>(table: &mut ThreadTable<S>, tid: Tid) {
    if table.thread(tid).is_some() {
        table.gone(tid);
    }
}

// Stack 8192, tls 99, child tid 12288.
const ARGS: [u64; 6] = [0x28_0f00, 8192, 0, 99, 12288, 0];

// Three clones of thread 1, beside a process of one thread.
fn three_clones(rt: &impl Abort, table: &mut ThreadTable<u8>) -> Result<(), Fail> {
    assert_eq!(rt; table.fresh(), Tid(17));
    for n in 17..20 {
        assert_eq!(rt; spawn(table, Tid(1), &ARGS, 3)?, Some(Tid(n)));
    }
    assert_eq!(rt; table.live(Pid(1)), 4);
    assert_eq!(rt; table.live(Pid(2)), 1);
    assert_eq!(rt; table.live(Pid(3)), 0);
    let x = table.thread(Tid(18)).ok_or("thread 18")?;
    assert_eq!(rt; (x.tid, x.pid, x.place), (Tid(18), Pid(1), 2));
    assert_eq!(rt;
        (x.regs.pc, x.regs.x[2], x.regs.x[4], x.regs.x[10]),
        (4096, 8192, 99, 0)
    );
    assert_eq!(rt; (x.mask, x.pending, x.clear), (SigSet(6), SigSet(0), 12288));
    assert_eq!(rt; (x.back, x.state), (false, 3));
    Ok(())
}

// A clone of a clone takes the lowest free place.
fn clone_of_a_clone(rt: &impl Abort, table: &mut ThreadTable<u8>) -> Result<(), Fail> {
    end(table, Tid(18));
    assert_eq!(rt;
        spawn(table, Tid(17), &[0xf00, 0, 0, 99, 12288, 0], 4)?,
        Some(Tid(20))
    );
    let x = table.thread(Tid(20)).ok_or("thread 20")?;
    assert_eq!(rt; (x.place, x.clear), (2, 0));
    assert_eq!(rt; (x.regs.x[2], x.regs.x[4]), (8192, 99));
    assert_eq!(rt; table.next(Tid(3)), Some(Tid(17)));
    assert_eq!(rt; table.next(Tid(18)), Some(Tid(19)));
    assert_eq!(rt; table.next(Tid(21)), None);
    Ok(())
}

// Clones up to sixteen threads.
fn most_clones(rt: &impl Abort, table: &mut ThreadTable<u8>) -> Result<(), Fail> {
    for _ in 0..12 {
        assert!(rt; spawn(table, Tid(1), &ARGS, 5)?.is_some());
    }
    assert_eq!(rt; spawn(table, Tid(1), &ARGS, 5)?, None);
    Ok(())
}

fn clones_in(rt: &impl Abort, table: &mut ThreadTable<u8>) -> Result<(), Fail> {
    begin(table, Pid(1), 1)?;
    begin(table, Pid(2), 2)?;
    three_clones(rt, table)?;
    clone_of_a_clone(rt, table)?;
    most_clones(rt, table)
}

#[test]
fn clones(rt: HostRuntime) -> Result<(), Fail> {
    assert_eq!(rt; core_of(Tid(19), 8), 3);
    let mut table: ThreadTable<u8> = ThreadTable::new(rt.alloc());
    clones_in(&rt, &mut table)
}

fn sets_in(rt: &impl Abort, table: &mut ThreadTable<u8>) -> Result<(), Fail> {
    begin(table, Pid(1), 1)?;
    let t = Tid(1);
    if table.thread(t).is_some() {
        table.set_regs(t, registers(8));
    }
    if table.thread(t).is_some() {
        table.set_mask(t, SigSet(1));
    }
    if table.thread(t).is_some() {
        table.set_pending(t, SigSet(2));
    }
    if table.thread(t).is_some() {
        table.set_clear(t, 16);
    }
    if table.thread(t).is_some() {
        table.set_back(t, true);
    }
    if table.thread(t).is_some() {
        table.set_state(t, 9);
    }
    let x = table.thread(t).ok_or("thread 1")?;
    assert_eq!(rt; (x.regs.pc, x.mask, x.pending), (8, SigSet(1), SigSet(2)));
    assert_eq!(rt; (x.clear, x.back, x.state), (16, true, 9));
    end(table, t);
    assert!(rt; table.thread(t).is_none());
    assert_eq!(rt; table.live(Pid(1)), 0);
    Ok(())
}

#[test]
fn sets(rt: HostRuntime) -> Result<(), Fail> {
    let mut table: ThreadTable<u8> = ThreadTable::new(rt.alloc());
    sets_in(&rt, &mut table)
}
