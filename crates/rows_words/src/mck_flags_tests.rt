// Bits that are flags, and sets of them.
use bitflags::Flags;
use mck_flags::{CloneFlags, MapFlags, OpenFlags, Rights, SigSet};

#[test]
fn numbers_of_flags(rt: HostRuntime) {
    assert_eq!(rt; Rights::from_bits(3), Some(Rights(3)));
    assert_eq!(rt; Rights::from_bits(8), None);
    assert_eq!(rt; Rights::named(15), None);
    assert_eq!(rt; MapFlags::from_bits(0x32), Some(MapFlags(50)));
    assert_eq!(rt; MapFlags::from_bits(0x4022), None);
    assert_eq!(rt; MapFlags::named(0x22), Some(MapFlags(34)));
    assert_eq!(rt; OpenFlags::from_bits(0x241), Some(OpenFlags(0o1101)));
    assert_eq!(rt; OpenFlags::from_bits(4), None);
    assert_eq!(rt; OpenFlags::named(0x80000), Some(OpenFlags(0o2000000)));
    assert_eq!(rt; CloneFlags::from_bits(0x7d0f00), Some(CloneFlags(0x7d0f00)));
    assert_eq!(rt; CloneFlags::from_bits(0x11), None);
    assert_eq!(rt; CloneFlags::named(0x1000_0000_0100), None);
    assert_eq!(rt; SigSet::from_bits(u64::MAX), Some(SigSet(u64::MAX)));
}

#[test]
fn sets_of_flags(rt: HostRuntime) {
    let both = MapFlags::PRIVATE | MapFlags::ANONYMOUS;
    assert_eq!(rt; both.bits(), 0x22);
    assert!(rt; !both.contains(MapFlags::FIXED));
    assert!(rt; (OpenFlags::CREAT | OpenFlags::EXCL).contains(OpenFlags::EXCL));
    assert!(rt; !Rights::READ.contains(Rights::WRITE));
    assert_eq!(rt; (CloneFlags::VM | CloneFlags::THREAD).bits(), 65792);
    let mut set = SigSet::SIGNAL_13;
    set.insert(SigSet::SIGNAL_64);
    set.remove(SigSet::SIGNAL_13);
    assert_eq!(rt; set, SigSet(1 << 63));
}
