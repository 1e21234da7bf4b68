// Sets of signals.
ghost use Rattle.std.specs.Prelude.{⊤, ◌≡◌, [], ◌∷◌, codes};

use bitflags::{Flag, Flags, bitflag_items};

/// A set of signals: signal s is bit s - 1.
#[derive(Clone, Copy, PartialEq, Eq, Debug)]
pub struct SigSet(pub u64);

bitflag_items! {
    impl SigSet: u64 {
        const SIGNAL_1 = 1;
        const SIGNAL_2 = 2;
        const SIGNAL_3 = 4;
        const SIGNAL_4 = 8;
        const SIGNAL_5 = 16;
        const SIGNAL_6 = 32;
        const SIGNAL_7 = 64;
        const SIGNAL_8 = 128;
        const SIGNAL_9 = 256;
        const SIGNAL_10 = 512;
        const SIGNAL_11 = 1024;
        const SIGNAL_12 = 2048;
        const SIGNAL_13 = 4096;
        const SIGNAL_14 = 8192;
        const SIGNAL_15 = 16384;
        const SIGNAL_16 = 32768;
        const SIGNAL_17 = 65536;
        const SIGNAL_18 = 131072;
        const SIGNAL_19 = 262144;
        const SIGNAL_20 = 524288;
        const SIGNAL_21 = 1048576;
        const SIGNAL_22 = 2097152;
        const SIGNAL_23 = 4194304;
        const SIGNAL_24 = 8388608;
        const SIGNAL_25 = 16777216;
        const SIGNAL_26 = 33554432;
        const SIGNAL_27 = 67108864;
        const SIGNAL_28 = 134217728;
        const SIGNAL_29 = 268435456;
        const SIGNAL_30 = 536870912;
        const SIGNAL_31 = 1073741824;
        const SIGNAL_32 = 2147483648;
        const SIGNAL_33 = 4294967296;
        const SIGNAL_34 = 8589934592;
        const SIGNAL_35 = 17179869184;
        const SIGNAL_36 = 34359738368;
        const SIGNAL_37 = 68719476736;
        const SIGNAL_38 = 137438953472;
        const SIGNAL_39 = 274877906944;
        const SIGNAL_40 = 549755813888;
        const SIGNAL_41 = 1099511627776;
        const SIGNAL_42 = 2199023255552;
        const SIGNAL_43 = 4398046511104;
        const SIGNAL_44 = 8796093022208;
        const SIGNAL_45 = 17592186044416;
        const SIGNAL_46 = 35184372088832;
        const SIGNAL_47 = 70368744177664;
        const SIGNAL_48 = 140737488355328;
        const SIGNAL_49 = 281474976710656;
        const SIGNAL_50 = 562949953421312;
        const SIGNAL_51 = 1125899906842624;
        const SIGNAL_52 = 2251799813685248;
        const SIGNAL_53 = 4503599627370496;
        const SIGNAL_54 = 9007199254740992;
        const SIGNAL_55 = 18014398509481984;
        const SIGNAL_56 = 36028797018963968;
        const SIGNAL_57 = 72057594037927936;
        const SIGNAL_58 = 144115188075855872;
        const SIGNAL_59 = 288230376151711744;
        const SIGNAL_60 = 576460752303423488;
        const SIGNAL_61 = 1152921504606846976;
        const SIGNAL_62 = 2305843009213693952;
        const SIGNAL_63 = 4611686018427387904;
        const SIGNAL_64 = 9223372036854775808;
    }
}

impl Flags for SigSet {
    type Bits = u64;

    ghost exact = { ⊤ };

    ghost table = { (codes "SIGNAL_1", 1) ∷ (codes "SIGNAL_2", 2) ∷ (codes "SIGNAL_3", 4) ∷ (codes "SIGNAL_4", 8) ∷ (codes "SIGNAL_5", 16) ∷ (codes "SIGNAL_6", 32) ∷ (codes "SIGNAL_7", 64) ∷ (codes "SIGNAL_8", 128) ∷ (codes "SIGNAL_9", 256) ∷ (codes "SIGNAL_10", 512) ∷ (codes "SIGNAL_11", 1024) ∷ (codes "SIGNAL_12", 2048) ∷ (codes "SIGNAL_13", 4096) ∷ (codes "SIGNAL_14", 8192) ∷ (codes "SIGNAL_15", 16384) ∷ (codes "SIGNAL_16", 32768) ∷ (codes "SIGNAL_17", 65536) ∷ (codes "SIGNAL_18", 131072) ∷ (codes "SIGNAL_19", 262144) ∷ (codes "SIGNAL_20", 524288) ∷ (codes "SIGNAL_21", 1048576) ∷ (codes "SIGNAL_22", 2097152) ∷ (codes "SIGNAL_23", 4194304) ∷ (codes "SIGNAL_24", 8388608) ∷ (codes "SIGNAL_25", 16777216) ∷ (codes "SIGNAL_26", 33554432) ∷ (codes "SIGNAL_27", 67108864) ∷ (codes "SIGNAL_28", 134217728) ∷ (codes "SIGNAL_29", 268435456) ∷ (codes "SIGNAL_30", 536870912) ∷ (codes "SIGNAL_31", 1073741824) ∷ (codes "SIGNAL_32", 2147483648) ∷ (codes "SIGNAL_33", 4294967296) ∷ (codes "SIGNAL_34", 8589934592) ∷ (codes "SIGNAL_35", 17179869184) ∷ (codes "SIGNAL_36", 34359738368) ∷ (codes "SIGNAL_37", 68719476736) ∷ (codes "SIGNAL_38", 137438953472) ∷ (codes "SIGNAL_39", 274877906944) ∷ (codes "SIGNAL_40", 549755813888) ∷ (codes "SIGNAL_41", 1099511627776) ∷ (codes "SIGNAL_42", 2199023255552) ∷ (codes "SIGNAL_43", 4398046511104) ∷ (codes "SIGNAL_44", 8796093022208) ∷ (codes "SIGNAL_45", 17592186044416) ∷ (codes "SIGNAL_46", 35184372088832) ∷ (codes "SIGNAL_47", 70368744177664) ∷ (codes "SIGNAL_48", 140737488355328) ∷ (codes "SIGNAL_49", 281474976710656) ∷ (codes "SIGNAL_50", 562949953421312) ∷ (codes "SIGNAL_51", 1125899906842624) ∷ (codes "SIGNAL_52", 2251799813685248) ∷ (codes "SIGNAL_53", 4503599627370496) ∷ (codes "SIGNAL_54", 9007199254740992) ∷ (codes "SIGNAL_55", 18014398509481984) ∷ (codes "SIGNAL_56", 36028797018963968) ∷ (codes "SIGNAL_57", 72057594037927936) ∷ (codes "SIGNAL_58", 144115188075855872) ∷ (codes "SIGNAL_59", 288230376151711744) ∷ (codes "SIGNAL_60", 576460752303423488) ∷ (codes "SIGNAL_61", 1152921504606846976) ∷ (codes "SIGNAL_62", 2305843009213693952) ∷ (codes "SIGNAL_63", 4611686018427387904) ∷ (codes "SIGNAL_64", 9223372036854775808) ∷ [] };

    ghost set_of = { λ s. s.0 };

    fn flags<'a>() -> &'a [Flag<SigSet>] {
        SigSet::FLAGS
    }

    fn bits(&self) -> u64 {
        self.0
    }

    fn from_bits_retain(bits: u64) -> SigSet {
        SigSet(bits)
    }
}
