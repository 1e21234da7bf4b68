// A stop is counted.
use frame_mem::FrameMem;
use isa_model::{Lack, Stop};
use lwk_run::run;
use lwk_space::Space;
use mck_word::{Access, Regs};
use page_map::{PageMap, PageTable};
use rv64i_user::KnownWords;

#[test]
fn a_stop_is_counted(rt: HostRuntime) {
    let table: PageMap = PageTable::empty(rt.alloc()).expect(&rt, "memory");
    let space = Space::new(rt.alloc(), table);
    let mut frames = FrameMem::new(rt.alloc(), 1).expect(&rt, "memory");
    let mut known = KnownWords::new(rt.alloc()).expect(&rt, "memory");
    let mut regs = Regs {
        pc: 0x1_0000,
        x: [0; 32],
    };
    let mut stop = Stop::On;
    let count = run(&mut regs, &space, &mut frames, &mut known, 64, &mut stop);
    let lack = Lack {
        page: 16,
        access: Access::Exec,
    };
    assert_eq!(rt; (count, regs.pc), (1, 0x1_0000));
    assert_eq!(rt; stop, Stop::Fault(lack));
}
