// Sets of signals, actions, frames and masks.
use lwk_signals::{
    Action, Actions, action_in, as_mask, choose, common, frame_address, handler_mask, handler_regs,
    interrupted_regs, lowest, may_be_sent, minus, new_mask, pop_frame, push_frame, put_action,
    put_set, set_in, take_signal, with_signal,
};
use mck_flags::SigSet;
use mck_word::Regs;

// The set of two signals below 65.
fn set_of(a: u32, b: u32) -> SigSet {
    let mut set = SigSet(0);
    for signal in [a, b] {
        if 1 <= signal && signal <= 64 {
            set = with_signal(signal, set);
        }
    }
    set
}

fn registers() -> Regs {
    let mut x = [0; 32];
    x[2] = 4104;
    x[10] = 7;
    x[31] = 0xff;
    Regs {
        pc: 0x0102_0304_0506_0708,
        x,
    }
}

#[test]
fn sets_and_choice(rt: HostRuntime) {
    assert_eq!(rt; set_of(1, 64), SigSet(0x8000_0000_0000_0001));
    assert_eq!(rt; as_mask(set_of(9, 19)), SigSet(0));
    assert_eq!(rt; lowest(set_of(64, 64)), Some(64));
    assert_eq!(rt; lowest(SigSet(0)), None);
    assert_eq!(rt; minus(set_of(3, 5), set_of(5, 6)), set_of(3, 3));
    assert_eq!(rt;
        choose(set_of(10, 10), set_of(5, 12), set_of(5, 7)),
        Some(10)
    );
    assert_eq!(rt; choose(set_of(12, 12), set_of(5, 5), set_of(9, 9)), Some(5));
    assert_eq!(rt; choose(set_of(5, 5), SigSet(0), set_of(5, 5)), None);
    let (own, shared) = take_signal(5, set_of(5, 6), set_of(5, 7));
    assert_eq!(rt; (own, shared), (set_of(6, 6), set_of(5, 7)));
    let (own, shared) = take_signal(5, set_of(6, 6), set_of(5, 7));
    assert_eq!(rt; (own, shared), (set_of(6, 6), set_of(7, 7)));
}

#[test]
fn actions(rt: HostRuntime) {
    let mut actions = Actions::new();
    assert!(rt; actions.ignores(17) && actions.ignores(28) && !actions.ignores(10));
    let ignore = Action {
        handler: 1,
        flags: 0,
        mask: SigSet(0),
    };
    actions.set(64, ignore);
    assert_eq!(rt; actions.of(64), ignore);
    assert!(rt; actions.ignores(64) && !actions.ignores(63));
    actions.set(
        17,
        Action {
            handler: 4096,
            ..ignore
        },
    );
    assert!(rt; !actions.ignores(17));
}

#[test]
fn frames(rt: HostRuntime) {
    let r = registers();
    let mut bytes = [1; 272];
    push_frame(&r, set_of(9, 2), &mut bytes);
    assert_eq!(rt; &bytes[..8], [8, 7, 6, 5, 4, 3, 2, 1].as_slice());
    assert_eq!(rt; &bytes[16..18], [8, 16].as_slice());
    assert_eq!(rt;
        &bytes[248..258],
        [0xff, 0, 0, 0, 0, 0, 0, 0, 2, 1].as_slice()
    );
    assert_eq!(rt; &bytes[264..], [0; 8].as_slice());
    let (back, mask) = pop_frame(&bytes);
    assert_eq!(rt; back, r);
    assert_eq!(rt; mask, set_of(2, 2));
}

#[test]
fn handlers_begin(rt: HostRuntime) {
    let r = registers();
    let action = Action {
        handler: 65536,
        flags: 0,
        mask: set_of(3, 19),
    };
    let restarts = Action {
        flags: 0x5000_0000,
        ..action
    };
    assert_eq!(rt; frame_address(&r), 3824);
    assert_eq!(rt;
        handler_mask(&action, 10, set_of(4, 4)),
        SigSet(0b10_0000_1100)
    );
    assert_eq!(rt; handler_mask(&restarts, 10, set_of(4, 4)), set_of(3, 4));
    let stopped = interrupted_regs(true, &action, &r);
    assert_eq!(rt;
        (stopped.pc, stopped.x[10]),
        (0x0102_0304_0506_070c, u64::MAX - 3)
    );
    assert_eq!(rt; interrupted_regs(true, &restarts, &r), r);
    assert_eq!(rt; interrupted_regs(false, &action, &r), r);
    let h = handler_regs(&action, 10, 3824, &r);
    assert_eq!(rt; (h.pc, h.x[1], h.x[2]), (65536, 0x3f_ffff_f000, 3824));
    assert_eq!(rt; (h.x[10], h.x[11], h.x[12], h.x[31]), (10, 0, 0, 255));
}

#[test]
fn actions_and_sets_as_bytes(rt: HostRuntime) {
    let mut bytes = [0; 24];
    let action = Action {
        handler: 65538,
        flags: 0x1000_0000,
        mask: set_of(1, 9),
    };
    put_action(&action, &mut bytes);
    assert_eq!(rt; &bytes[..4], [2, 0, 1, 0].as_slice());
    assert_eq!(rt; &bytes[8..12], [0, 0, 0, 16].as_slice());
    assert_eq!(rt; &bytes[16..18], [1, 1].as_slice());
    let back = action_in(&bytes);
    assert_eq!(rt;
        (back.handler, back.flags, back.mask),
        (65538, 0x1000_0000, set_of(1, 1))
    );
    put_set(set_of(2, 10), &mut bytes[..8]);
    assert_eq!(rt; set_in(&bytes[..8]), set_of(2, 10));
}

#[test]
fn masks_are_changed(rt: HostRuntime) {
    assert_eq!(rt; new_mask(0, set_of(3, 9), set_of(4, 4)), set_of(3, 4));
    assert_eq!(rt; new_mask(1, set_of(3, 9), set_of(3, 4)), set_of(4, 4));
    assert_eq!(rt; new_mask(2, set_of(3, 19), set_of(4, 4)), set_of(3, 3));
    assert_eq!(rt; common(set_of(3, 5), set_of(5, 6)), set_of(5, 5));
    assert!(rt; may_be_sent(9) && may_be_sent(64));
    assert!(rt; !may_be_sent(0) && !may_be_sent(19) && !may_be_sent(22) && !may_be_sent(65));
}
