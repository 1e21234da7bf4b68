// A round and its phases.
use clear_rounds::{Phase, Round};
use mck_word::PageRange;

#[test]
fn goes_through_its_phases(rt: HostRuntime) {
    let range = PageRange { lo: 3, hi: 5 };
    let mut round = Round::new();
    assert_eq!(rt; round.now(), None);
    assert!(rt; !round.closing(4));
    round.begin(range);
    assert_eq!(rt; round.now(), Some((Phase::Posted, range)));
    round.taken();
    assert_eq!(rt; round.now(), Some((Phase::Taken, range)));
    round.acked();
    assert_eq!(rt; round.now(), Some((Phase::Acked, range)));
    assert!(rt; round.closing(3) && round.closing(4));
    assert!(rt; !round.closing(2) && !round.closing(5));
    round.close();
    assert_eq!(rt; round.now(), None);
}
