// What memory calls decide.
ghost use Rattle.std.specs.Option.{ForSome};
ghost use Rattle.std.specs.Prelude.{◌≡◌, ◌<◌, ◌^◌};

use kernel_model::Change;
use mck_flags::Rights;
use mck_word::PageRange;
use system_calls::MemoryCall;
use system_calls::errors::{EINVAL, ENOMEM};
use vm_calls::{AtEnd, Facts, VmPlan, call_range, change_range, decide, finish};

fn facts(free: u64, gap: Option<u64>, present: u64, lessens: bool) -> Facts
    requires { ForSome gap (λ low. low < 2 ^ 52) }
    ensures { result ≡ record { brk = 0x12345; base = 0x12000; free = free; gap = gap; present = present; lessens = lessens } }
{
    Facts {
        brk: 0x1_2345,
        base: 0x1_2000,
        free,
        gap,
        present,
        lessens,
    }
}

#[test]
fn decides_rows(rt: HostRuntime) {
    let range = PageRange { lo: 0x20, hi: 0x22 };
    let rights = Rights(3);
    // a right is added without a round
    let protect = [0x2_0000, 0x2000, 3, 0, 0, 0];
    assert_eq!(rt;
        decide(&facts(0, None, 2, false), MemoryCall::Mprotect, &protect),
        VmPlan::Now(Change::Protect { range, rights })
    );
    // a right is taken away, and an absent page is refused
    assert_eq!(rt;
        decide(&facts(0, None, 2, true), MemoryCall::Mprotect, &protect),
        VmPlan::Round(range, Change::Protect { range, rights })
    );
    assert_eq!(rt;
        decide(&facts(0, None, 1, false), MemoryCall::Mprotect, &protect),
        VmPlan::Reply(ENOMEM)
    );
    // frames run out
    let anywhere = [0, 0x2000, 3, 0x22, 0, 0];
    assert_eq!(rt;
        decide(&facts(1, None, 0, false), MemoryCall::Mmap, &anywhere),
        VmPlan::Reply(ENOMEM)
    );
    assert_eq!(rt;
        decide(&facts(2, Some(0x20), 0, false), MemoryCall::Mmap, &anywhere),
        VmPlan::Now(Change::Map { range, rights })
    );
    // pages replaced are not counted as added
    let fixed = [0x2_0000, 0x2000, 3, 0x32, 0, 0];
    assert_eq!(rt;
        decide(&facts(0, None, 2, false), MemoryCall::Mmap, &fixed),
        VmPlan::Round(range, Change::Map { range, rights })
    );
    assert_eq!(rt;
        finish(&facts(0, None, 2, false), &Change::Map { range, rights }),
        AtEnd::Make
    );
    assert_eq!(rt;
        finish(&facts(0, None, 1, false), &Change::Map { range, rights }),
        AtEnd::Reply(ENOMEM)
    );
    assert_eq!(rt;
        decide(
            &facts(9, None, 0, false),
            MemoryCall::Mmap,
            &[0x2_0001, 0x2000, 3, 0x32, 0, 0]
        ),
        VmPlan::Reply(EINVAL)
    );
    // nothing to unmap, and a length that passes the bounds
    assert_eq!(rt;
        decide(
            &facts(9, None, 0, false),
            MemoryCall::Munmap,
            &[0x2_0000, 0x2000, 0, 0, 0, 0]
        ),
        VmPlan::Reply(0)
    );
    assert_eq!(rt;
        decide(
            &facts(9, None, 0, false),
            MemoryCall::Munmap,
            &[0x2_0000, u64::MAX, 0, 0, 0, 0]
        ),
        VmPlan::Reply(EINVAL)
    );
    // the break is told, moved, and falls in a round
    assert_eq!(rt;
        decide(
            &facts(9, None, 0, false),
            MemoryCall::Brk,
            &[0, 0, 0, 0, 0, 0]
        ),
        VmPlan::Reply(0x1_2345)
    );
    assert_eq!(rt;
        decide(
            &facts(9, None, 0, false),
            MemoryCall::Brk,
            &[0x1_4000, 0, 0, 0, 0, 0]
        ),
        VmPlan::Now(Change::Brk(0x1_4000))
    );
    let closed = PageRange {
        lo: 0x12,
        hi: 0x4012,
    };
    assert_eq!(rt;
        decide(
            &facts(9, None, 1, false),
            MemoryCall::Brk,
            &[0x1_2000, 0, 0, 0, 0, 0]
        ),
        VmPlan::Round(closed, Change::Brk(0x1_2000))
    );
    let ranges_agree = call_range(0x1_2345, MemoryCall::Mprotect, &protect) == range
        && change_range(0x1_2345, &Change::Unmap(range)) == range;
    assert!(rt; ranges_agree);
}
