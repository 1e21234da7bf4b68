// A call that begins with its phases.
use call_progress::Progress;
use mck_word::{Access, Piece};
use system_calls::FileCall;
use system_calls::errors::{EFAULT, EINTR};

#[test]
fn begins_with_its_phases(rt: HostRuntime) {
    let progress = Progress::of_call(rt.alloc(), FileCall::Openat, &[0, 0x1ffe, 0, 0, 0, 0]);
    assert!(rt; progress.has_piece());
    assert_eq!(rt;
        progress.next_piece(),
        Piece {
            page: 1,
            off: 0xffe,
            len: 2
        }
    );
    assert_eq!(rt; progress.needed_access(), Access::Read);
    assert_eq!(rt; progress.found(), None);
    assert_eq!(rt; progress.moved(), 0);
    assert_eq!(rt; progress.interrupted_answer(), EINTR);
    assert_eq!(rt; progress.fault_answer(), EFAULT);
}
