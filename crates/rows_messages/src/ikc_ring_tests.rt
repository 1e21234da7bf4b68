// Messages in order.
use ikc_ring::{Msg, Ring};
use mck_flags::Rights;
use mck_word::{Frame, PageRange};
use std::test::Fail;

#[test]
fn first_in_first_out(rt: HostRuntime) -> Result<(), Fail> {
    let mut ring = Ring::new(rt.alloc(), 3)?;
    assert_eq!(rt; ring.next(), None);
    let clear = Msg::Clear(PageRange { lo: 1, hi: 4 });
    let answer = Msg::Answer {
        worker: 1,
        page: 3,
        round: 2,
        row: Some((Frame(5), Rights::READ)),
    };
    for m in [clear, Msg::Ack, answer] {
        if !ring.is_full() {
            ring.post(m);
        }
    }
    assert!(rt; ring.is_full());
    assert_eq!(rt; ring.head().copied(), Some(clear));
    assert_eq!(rt; ring.at(2).copied(), Some(answer));
    assert_eq!(rt; ring.at(3), None);
    assert_eq!(rt; ring.next(), Some(clear));
    assert_eq!(rt; ring.next(), Some(Msg::Ack));
    assert_eq!(rt; ring.next(), Some(answer));
    Ok(())
}
