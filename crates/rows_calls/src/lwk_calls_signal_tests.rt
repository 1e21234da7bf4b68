// The calls on signals at concrete values, over a space of one page.
ghost use Rattle.lwk_space.specs.Rows.{FramesApart, FramesIn};
ghost use Rattle.mck_word.specs.Maps.{no_rows};
ghost use Rattle.std.specs.Prelude.{◌≡◌, IfOk, length};

use crate::one_guest::{INVALID, NO_PROCESS, PID, TID, answer, one_thread};
use frame_mem::FrameMem;
use frame_pool::FramePool;
use kernel_model::Action;
use lwk_calls::{deliver, kill, return_from_handler, sigaction, sigpending, sigprocmask, tgkill};
use lwk_signals::{put_action, set_in};
use lwk_space::Space;
use mck_flags::{Rights, SigSet};
use mck_word::{NoMemory, PageRange};
use page_map::{PageMap, PageTable};
use std::alloc::Global;
use std::test::*;

/// A space with the page at 0x1_0000, which may be read and written, over a memory of one frame.
fn one_page<T: PageTable + Drop>(
    alloc: Global,
    table: T,
    mem: &mut FrameMem,
) -> Result<Space<T>, NoMemory>
    requires empty { T.rows table ≡ no_rows }
    requires frames { length mem.old ≡ 1 }
    ensures inside { IfOk result (λ s. FramesIn (T.rows s.table) mem.new) }
    ensures apart { IfOk result (λ s. FramesApart (T.rows s.table)) }
{
    let mut pool = FramePool::new(alloc, 1)?;
    let mut space = Space::new(alloc, table);
    let page = PageRange { lo: 16, hi: 17 };
    space.make_room(&[page])?;
    space.reserve(1)?;
    space.map(&page, Rights(3), mem, &mut pool);
    Ok(space)
}

#[test]
fn signals_are_sent(rt: HostRuntime) {
    let mut node = one_thread(rt.alloc()).expect(&rt, "memory");
    kill(&mut node, TID, 1, 10);
    assert_eq!(rt; (answer(&node), node.shared_pending(PID)), (0, SigSet(512)));
    tgkill(&mut node, TID, 1, 1, 12);
    assert_eq!(rt; (answer(&node), node.own_pending(TID)), (0, SigSet(2048)));
    kill(&mut node, TID, 2, 10);
    assert_eq!(rt; answer(&node), NO_PROCESS);
    kill(&mut node, TID, 1, 19);
    assert_eq!(rt; answer(&node), INVALID);
}

#[test]
fn an_action_is_given(rt: HostRuntime) {
    let mut node = one_thread(rt.alloc()).expect(&rt, "memory");
    let table: PageMap = PageTable::empty(rt.alloc()).expect(&rt, "memory");
    let mut mem = FrameMem::new(rt.alloc(), 1).expect(&rt, "memory");
    let space = one_page(rt.alloc(), table, &mut mem).expect(&rt, "memory");
    let action = Action {
        handler: 0x2_0000,
        flags: 0,
        mask: SigSet(512),
    };
    let mut bytes = [0; 24];
    put_action(&action, &mut bytes);
    assert!(rt; space.write(&mut mem, 0x1_0000, &bytes).is_ok());
    sigaction(&mut node, &space, &mut mem, TID, 10, 0x1_0000, 0x1_0001, 8);
    assert_eq!(rt; (answer(&node), node.action(PID, 10)), (0, action));
    // the old action, which was the default, stands where it was asked for
    assert!(rt; space.read(&mem, 0x1_0000, &mut bytes).is_ok());
    assert_eq!(rt; bytes, [0; 24]);
}

#[test]
fn a_mask_is_changed(rt: HostRuntime) {
    let mut node = one_thread(rt.alloc()).expect(&rt, "memory");
    let table: PageMap = PageTable::empty(rt.alloc()).expect(&rt, "memory");
    let mut mem = FrameMem::new(rt.alloc(), 1).expect(&rt, "memory");
    let space = one_page(rt.alloc(), table, &mut mem).expect(&rt, "memory");
    node.set_mask(TID, SigSet(4));
    assert!(rt; space.write(&mut mem, 0x1_0008, &[1, 3]).is_ok());
    sigprocmask(&mut node, &space, &mut mem, TID, 0, 0x1_0008, 0x1_0010, 8);
    // signals 1 and 10 are added, 9 never is
    assert_eq!(rt; (answer(&node), node.mask(TID)), (0, SigSet(0x205)));
    let mut bytes = [1; 8];
    assert!(rt; space.read(&mem, 0x1_0010, &mut bytes).is_ok());
    assert_eq!(rt; set_in(&bytes), SigSet(4));
}

#[test]
fn pending_signals_are_told(rt: HostRuntime) {
    let mut node = one_thread(rt.alloc()).expect(&rt, "memory");
    let table: PageMap = PageTable::empty(rt.alloc()).expect(&rt, "memory");
    let mut mem = FrameMem::new(rt.alloc(), 1).expect(&rt, "memory");
    let space = one_page(rt.alloc(), table, &mut mem).expect(&rt, "memory");
    node.set_mask(TID, SigSet(0x601));
    node.generate_for_process(PID, 10);
    node.generate_for_thread(TID, 12);
    sigpending(&mut node, &space, &mut mem, TID, 0x1_0000, 2);
    assert_eq!(rt; answer(&node), 0);
    let mut bytes = [1; 3];
    assert!(rt; space.read(&mem, 0x1_0000, &mut bytes).is_ok());
    assert_eq!(rt; bytes, [0, 2, 0]);
}

#[test]
fn a_signal_is_delivered(rt: HostRuntime) {
    let mut node = one_thread(rt.alloc()).expect(&rt, "memory");
    let table: PageMap = PageTable::empty(rt.alloc()).expect(&rt, "memory");
    let mut mem = FrameMem::new(rt.alloc(), 1).expect(&rt, "memory");
    let space = one_page(rt.alloc(), table, &mut mem).expect(&rt, "memory");
    let action = Action {
        handler: 0x2_0000,
        flags: 0,
        mask: SigSet(4),
    };
    node.with_action(PID, 10, action);
    node.generate_for_process(PID, 10);
    deliver(&mut node, &space, &mut mem, TID);
    let regs = node.regs(TID);
    assert_eq!(rt; (regs.pc, regs.x[1]), (0x2_0000, 0x3f_ffff_f000));
    assert_eq!(rt; (regs.x[2], regs.x[10]), (0x1_06f0, 10));
    assert_eq!(rt;
        (node.mask(TID), node.shared_pending(PID)),
        (SigSet(0x204), SigSet(0))
    );
    let mut bytes = [1; 24];
    assert!(rt; space.read(&mem, 0x1_06f0, &mut bytes).is_ok());
    assert_eq!(rt; (bytes[0], bytes[16], bytes[17]), (64, 0, 8));
    return_from_handler(&mut node, &space, &mem, TID);
    let regs = node.regs(TID);
    assert_eq!(rt; (regs.pc, regs.x[2], regs.x[10]), (64, 0x1_0800, 0));
    assert_eq!(rt; node.mask(TID), SigSet(0));
}
