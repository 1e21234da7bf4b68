// A node whose guest forks, ends and waits, and is sent signals.
use crate::one_guest::guest;
use kernel_model::{Does, Life};
use kernel_tables::KernelTables;
use mck_flags::SigSet;
use mck_word::{End, NoMemory, Pid, Regs, Tid};
use std::process::Abort;
use std::test::Fail;

fn registers(pc: u64) -> Regs {
    Regs { pc, x: [0; 32] }
}

// Puts a guest in, where its number isn't used.
fn begin(node: &mut KernelTables, p: Pid) -> Result<(), NoMemory> {
    node.reserve_process()?;
    node.reserve_thread()?;
    let _all = node.instructions_in_all();
    node.put_process(p, guest());
    let t = Tid(p.0);
    if node.live_threads(p) == 0 && !node.has_thread(t) && t.0 < u32::MAX {
        node.begin_thread(p, t, registers(65536), SigSet(0), 0);
    }
    Ok(())
}

// Forks, where the caller lives and its process is there.
fn forked(node: &mut KernelTables, t: Tid, args: &[u64; 6]) -> Result<Option<Pid>, NoMemory> {
    node.reserve_process()?;
    node.reserve_thread()?;
    let p = node.process_of_thread(t);
    if node.has_thread(t) && node.has_process(p) && node.next_number() < u32::MAX {
        Ok(Some(node.fork(t, args)))
    } else {
        Ok(None)
    }
}

// Clones, where the caller lives and its process has fewer than sixteen threads.
fn cloned(node: &mut KernelTables, t: Tid, args: &[u64; 6]) -> Result<Option<Tid>, NoMemory> {
    node.reserve_thread()?;
    let p = node.process_of_thread(t);
    if node.has_thread(t) && node.live_threads(p) < 16 && node.next_number() < u32::MAX {
        Ok(Some(node.clone_thread(t, args)))
    } else {
        Ok(None)
    }
}

fn forks_ends_and_waits_in(rt: &impl Abort, node: &mut KernelTables) -> Result<(), Fail> {
    begin(node, Pid(1))?;
    assert!(rt; node.may_run(Tid(1)));
    if node.left_of_limit() >= 5 {
        node.run_over(Tid(1), registers(65556), Does::Ready, 5);
    }
    assert_eq!(rt; (node.instructions(Pid(1)), node.left_of_limit()), (5, 995));
    let child = forked(node, Tid(1), &[17, 0, 0, 0, 0, 0])?.ok_or("child")?;
    assert_eq!(rt; (child, node.parent_number(child)), (Pid(17), 1));
    assert_eq!(rt;
        cloned(node, Tid(1), &[0xf00, 8192, 0, 0, 0, 0])?,
        Some(Tid(18))
    );
    assert_eq!(rt; (node.place(Tid(18)), node.process_count()), (1, 2));
    node.set_does(Tid(1), Does::InWait { pid: -1, status: 0 });
    assert!(rt; !node.may_wait(Tid(1)));
    node.note_first_code(Tid(17), child, 7);
    node.without_thread(Tid(17));
    node.dies_without_threads(child);
    assert_eq!(rt; node.life(child), Life::Dying(End::Exit(7)));
    assert!(rt; node.may_end(child) && !node.may_end(Pid(1)));
    node.process_ended(child);
    assert_eq!(rt; node.ended_child(Pid(1), 17), Some(child));
    assert!(rt; node.may_wait(Tid(1)));
    node.noted_waited(child);
    assert!(rt; !node.any_selected(Pid(1), -1));
    Ok(())
}

#[test]
fn forks_ends_and_waits(rt: HostRuntime) -> Result<(), Fail> {
    let mut node = KernelTables::new(rt.alloc(), 64, 1000);
    forks_ends_and_waits_in(&rt, &mut node)
}

fn signals_and_answers_in(rt: &impl Abort, node: &mut KernelTables) -> Result<(), Fail> {
    begin(node, Pid(1))?;
    let t = Tid(1);
    node.generate_for_process(Pid(1), 17);
    assert!(rt; !node.is_deliverable(t));
    node.generate_for_process(Pid(1), 10);
    assert_eq!(rt; node.next_signal(t), Some(10));
    assert!(rt; node.may_deliver(t) && node.may_be_marked(t) && !node.may_run(t));
    node.moved_to_own(t);
    assert_eq!(rt;
        (node.own_pending(t), node.shared_pending(Pid(1))),
        (SigSet(512), SigSet(0))
    );
    node.set_mask(t, SigSet(512));
    assert_eq!(rt; node.next_signal(t), None);
    node.taken(t, 10);
    node.set_does(t, Does::Called);
    node.returns(t, -4);
    assert_eq!(rt;
        (node.regs(t).pc, node.stands_back(t), node.does(t)),
        (65532, true, Does::Ready)
    );
    node.past_ecall(t);
    node.answered(t, -1);
    assert_eq!(rt; (node.regs(t).pc, node.regs(t).x[10]), (65536, u64::MAX));
    node.raised(t, 11);
    assert_eq!(rt; node.next_signal(t), Some(11));
    node.raised(t, 10);
    assert_eq!(rt; node.life(Pid(1)), Life::Dying(End::Killed(10)));
    Ok(())
}

#[test]
fn signals_and_answers(rt: HostRuntime) -> Result<(), Fail> {
    let mut node = KernelTables::new(rt.alloc(), 64, 1000);
    signals_and_answers_in(&rt, &mut node)
}
