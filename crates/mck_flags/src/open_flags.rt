// The flags of openat and pipe2.
ghost use Rattle.std.specs.Prelude.{⊤, ◌≡◌, ◌==◌, [], ◌∷◌, codes, bit_and, option_map, Some, None, if◌then◌else◌};

use bitflags::{Flag, Flags, bitflag_items};

/// How `openat` and `pipe2` open (man-pages section 2, open and pipe), with the values of RISC-V Linux.
///
/// The low two bits are the access: 0 reads, 1 writes, 2 does both, and 3 is none.
#[derive(Clone, Copy, PartialEq, Eq, Debug)]
pub struct OpenFlags(pub u32);

bitflag_items! {
    impl OpenFlags: u32 {
        const WRONLY = 0x1;
        const RDWR = 0x2;
        const CREAT = 0x40;
        const EXCL = 0x80;
        const TRUNC = 0x200;
        const APPEND = 0x400;
        const DIRECTORY = 0x10000;
        const CLOEXEC = 0x80000;
    }
}

impl Flags for OpenFlags {
    type Bits = u32;

    ghost exact = { ⊤ };

    ghost table = { (codes "WRONLY", 0x1) ∷ (codes "RDWR", 0x2) ∷ (codes "CREAT", 0x40) ∷ (codes "EXCL", 0x80) ∷ (codes "TRUNC", 0x200) ∷ (codes "APPEND", 0x400) ∷ (codes "DIRECTORY", 0x10000) ∷ (codes "CLOEXEC", 0x80000) ∷ [] };

    ghost set_of = { λ f. f.0 };

    fn flags<'a>() -> &'a [Flag<OpenFlags>] {
        OpenFlags::FLAGS
    }

    fn bits(&self) -> u32 {
        self.0
    }

    fn from_bits_retain(bits: u32) -> OpenFlags {
        OpenFlags(bits)
    }
}

impl OpenFlags {
    /// The flags of a number. None exactly where a bit without a name is set.
    pub fn named(bits: u32) -> Option<OpenFlags>
        ensures { option_map (λ f. f.0) result ≡ (if bit_and bits 0x906c3 == bits then Some bits else None) }
    {
        OpenFlags::from_bits(bits)
    }
}
