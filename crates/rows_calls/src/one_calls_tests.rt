// The calls of the one-kernel machine at concrete values, over a memory without pages.
use crate::one_guest::{BAD_ADDRESS, INVALID, NO_CHILD, NO_PROCESS, PID, TID, answer, one_thread};
use kernel_model::{Action, Life};
use mck_flags::SigSet;
use mck_word::End;
use one_calls::{
    deliver, exits, getpid, getppid, gettid, kill, sets_clear_address, sets_robust_list, sigaction,
    sigpending, sigprocmask, tgkill, wait4,
};
use one_memory::PageRows;
use std::test::*;

#[test]
fn a_thread_tells_its_numbers(rt: HostRuntime) {
    let mut node = one_thread(rt.alloc()).expect(&rt, "memory");
    getpid(&mut node, TID);
    assert_eq!(rt; answer(&node), 1);
    gettid(&mut node, TID);
    assert_eq!(rt; answer(&node), 1);
    getppid(&mut node, TID);
    assert_eq!(rt; answer(&node), 0);
    sets_clear_address(&mut node, TID, 72);
    assert_eq!(rt; node.clear_address(TID), 72);
    sets_robust_list(&mut node, TID, 8);
    assert_eq!(rt; answer(&node), INVALID);
}

#[test]
fn signals_are_sent(rt: HostRuntime) {
    let mut node = one_thread(rt.alloc()).expect(&rt, "memory");
    kill(&mut node, TID, 1, 10);
    assert_eq!(rt; (answer(&node), node.shared_pending(PID)), (0, SigSet(512)));
    tgkill(&mut node, TID, 1, 1, 12);
    assert_eq!(rt; (answer(&node), node.own_pending(TID)), (0, SigSet(2048)));
    kill(&mut node, TID, 2, 10);
    assert_eq!(rt; answer(&node), NO_PROCESS);
    kill(&mut node, TID, 1, 19);
    assert_eq!(rt; answer(&node), INVALID);
}

#[test]
fn what_is_asked_for_has_to_be_there(rt: HostRuntime) {
    let mut node = one_thread(rt.alloc()).expect(&rt, "memory");
    let mut memory = PageRows::new(rt.alloc());
    sigaction(&mut node, &mut memory, TID, 10, 0, 0, 8);
    assert_eq!(rt; answer(&node), 0);
    sigaction(&mut node, &mut memory, TID, 10, 0x1_0000, 0, 8);
    assert_eq!(rt; answer(&node), BAD_ADDRESS);
    sigprocmask(&mut node, &mut memory, TID, 0, 0, 0x1_0000, 8);
    assert_eq!(rt; answer(&node), BAD_ADDRESS);
    sigpending(&mut node, &mut memory, TID, 0x1_0000, 9);
    assert_eq!(rt; answer(&node), INVALID);
    wait4(&mut node, &mut memory, TID, -1, 0x1_0000, 0, 0);
    assert_eq!(rt; answer(&node), NO_CHILD);
}

#[test]
fn a_handler_needs_a_stack(rt: HostRuntime) {
    let mut node = one_thread(rt.alloc()).expect(&rt, "memory");
    let mut memory = PageRows::new(rt.alloc());
    let action = Action {
        handler: 0x2_0000,
        flags: 0,
        mask: SigSet(4),
    };
    node.with_action(PID, 10, action);
    node.generate_for_process(PID, 10);
    deliver(&mut node, &mut memory, TID);
    assert_eq!(rt; node.shared_pending(PID), SigSet(0));
    assert_eq!(rt; node.life(PID), Life::Dying(End::Killed(11)));
}

#[test]
fn the_last_thread_ends_its_process(rt: HostRuntime) {
    let mut node = one_thread(rt.alloc()).expect(&rt, "memory");
    let mut memory = PageRows::new(rt.alloc());
    sets_clear_address(&mut node, TID, 0x1_0000);
    exits(&mut node, &mut memory, TID, 7);
    assert!(rt; !node.has_thread(TID));
    assert_eq!(rt; node.life(PID), Life::Dying(End::Exit(7)));
}
