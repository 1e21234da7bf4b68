// Pins by worker.
use mck_flags::Rights;
use mck_word::Frame;
use page_pins::{Pin, Pins};

#[test]
fn pins_by_worker(rt: HostRuntime) {
    let mut pins = Pins::new();
    if pins.of(2).is_none() {
        pins.pin(2, 7, Frame(40), Rights::WRITE);
    }
    let mut pin = Pin {
        page: 7,
        frame: Frame(40),
        rights: Rights::WRITE,
        copied: false,
    };
    assert_eq!(rt; pins.of(2), Some(pin));
    assert_eq!(rt; pins.of(1), None);
    assert_eq!(rt; pins.of(4), None);
    assert!(rt; pins.in_range(7, 8) && !pins.in_range(8, 9) && !pins.in_range(0, 7));
    match pins.of(2) {
        Some(Pin { copied: false, .. }) => pins.copied(2),
        _ => {}
    }
    pin.copied = true;
    assert_eq!(rt; pins.of(2), Some(pin));
    if pins.of(2).is_some() {
        pins.unpin(2);
    }
    assert_eq!(rt; pins.of(2), None);
    assert!(rt; !pins.in_range(0, 8));
}
