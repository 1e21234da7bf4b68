// The flags of clone.
ghost use Rattle.std.specs.Prelude.{⊤, ◌≡◌, ◌==◌, [], ◌∷◌, codes, bit_and, option_map, Some, None, if◌then◌else◌};

use bitflags::{Flag, Flags, bitflag_items};

/// What a thread made by `clone` shares and what is told of it (man-pages section 2, clone).
///
/// The low eight bits of the argument of `clone` are no flags: they are the signal that the end of a new process sends, and 0 for a
/// thread. A fork may have `SETTLS`, `PARENT_SETTID`, `CHILD_CLEARTID` and `CHILD_SETTID`.
#[derive(Clone, Copy, PartialEq, Eq, Debug)]
pub struct CloneFlags(pub u64);

bitflag_items! {
    impl CloneFlags: u64 {
        const VM = 0x100;
        const FS = 0x200;
        const FILES = 0x400;
        const SIGHAND = 0x800;
        const THREAD = 0x10000;
        const SYSVSEM = 0x40000;
        const SETTLS = 0x80000;
        const PARENT_SETTID = 0x100000;
        const CHILD_CLEARTID = 0x200000;
        const DETACHED = 0x400000;
        const CHILD_SETTID = 0x1000000;
    }
}

impl Flags for CloneFlags {
    type Bits = u64;

    ghost exact = { ⊤ };

    ghost table = { (codes "VM", 0x100) ∷ (codes "FS", 0x200) ∷ (codes "FILES", 0x400) ∷ (codes "SIGHAND", 0x800) ∷ (codes "THREAD", 0x10000) ∷ (codes "SYSVSEM", 0x40000) ∷ (codes "SETTLS", 0x80000) ∷ (codes "PARENT_SETTID", 0x100000) ∷ (codes "CHILD_CLEARTID", 0x200000) ∷ (codes "DETACHED", 0x400000) ∷ (codes "CHILD_SETTID", 0x1000000) ∷ [] };

    ghost set_of = { λ f. f.0 };

    fn flags<'a>() -> &'a [Flag<CloneFlags>] {
        CloneFlags::FLAGS
    }

    fn bits(&self) -> u64 {
        self.0
    }

    fn from_bits_retain(bits: u64) -> CloneFlags {
        CloneFlags(bits)
    }
}

impl CloneFlags {
    /// The flags of a number. None exactly where a bit without a name is set.
    pub fn named(bits: u64) -> Option<CloneFlags>
        ensures { option_map (λ f. f.0) result ≡ (if bit_and bits 0x17d0f00 == bits then Some bits else None) }
    {
        CloneFlags::from_bits(bits)
    }
}
