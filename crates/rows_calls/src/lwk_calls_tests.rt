// Local calls.
use crate::one_guest::INVALID;
use kernel_tables::KernelTables;
use lwk_calls::{getpid, getppid, gettid, sets_clear_address, sets_robust_list};
use mck_flags::SigSet;
use mck_word::{Pid, Regs, Tid};

#[test]
fn a_thread_tells_its_numbers(rt: HostRuntime) {
    let mut node = KernelTables::new(rt.alloc(), 4, 100);
    let has_room = node.reserve_thread().is_ok();
    assert!(rt; has_room);
    let regs = Regs { pc: 64, x: [0; 32] };
    node.begin_thread(Pid(1), Tid(2), regs, SigSet(0), 0);
    getpid(&mut node, Tid(2));
    assert_eq!(rt; node.regs(Tid(2)).x[10], 1);
    gettid(&mut node, Tid(2));
    assert_eq!(rt; node.regs(Tid(2)).x[10], 2);
    getppid(&mut node, Tid(2));
    assert_eq!(rt; node.regs(Tid(2)).x[10], 0);
    sets_clear_address(&mut node, Tid(2), 72);
    assert_eq!(rt; node.clear_address(Tid(2)), 72);
    sets_robust_list(&mut node, Tid(2), 8);
    assert_eq!(rt; node.regs(Tid(2)).x[10], INVALID);
}
