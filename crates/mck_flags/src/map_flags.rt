// The flags of mmap.
ghost use Rattle.std.specs.Prelude.{⊤, ◌≡◌, ◌==◌, [], ◌∷◌, codes, bit_and, option_map, Some, None, if◌then◌else◌};

use bitflags::{Flag, Flags, bitflag_items};

/// How `mmap` maps (man-pages section 2, mmap): shared 1, private 2, at the address 16, without a file 32.
///
/// The kind of a mapping is the low two bits.
#[derive(Clone, Copy, PartialEq, Eq, Debug)]
pub struct MapFlags(pub u32);

bitflag_items! {
    impl MapFlags: u32 {
        const SHARED = 1;
        const PRIVATE = 2;
        const FIXED = 16;
        const ANONYMOUS = 32;
    }
}

impl Flags for MapFlags {
    type Bits = u32;

    ghost exact = { ⊤ };

    ghost table = { (codes "SHARED", 1) ∷ (codes "PRIVATE", 2) ∷ (codes "FIXED", 16) ∷ (codes "ANONYMOUS", 32) ∷ [] };

    ghost set_of = { λ f. f.0 };

    fn flags<'a>() -> &'a [Flag<MapFlags>] {
        MapFlags::FLAGS
    }

    fn bits(&self) -> u32 {
        self.0
    }

    fn from_bits_retain(bits: u32) -> MapFlags {
        MapFlags(bits)
    }
}

impl MapFlags {
    /// The flags of a number. None exactly where a bit without a name is set.
    pub fn named(bits: u32) -> Option<MapFlags>
        ensures { option_map (λ f. f.0) result ≡ (if bit_and bits 0x33 == bits then Some bits else None) }
    {
        MapFlags::from_bits(bits)
    }
}
