// The rights of a page.
ghost use Rattle.std.specs.Prelude.{⊤, ◌≡◌, ◌==◌, [], ◌∷◌, codes, bit_and, option_map, Some, None, if◌then◌else◌};

use bitflags::{Flag, Flags, bitflag_items};

/// The rights of a page: read 1, write 2, execute 4.
#[derive(Clone, Copy, PartialEq, Eq, Debug)]
pub struct Rights(pub u8);

bitflag_items! {
    impl Rights: u8 {
        const READ = 1;
        const WRITE = 2;
        const EXEC = 4;
    }
}

impl Flags for Rights {
    type Bits = u8;

    ghost exact = { ⊤ };

    ghost table = { (codes "READ", 1) ∷ (codes "WRITE", 2) ∷ (codes "EXEC", 4) ∷ [] };

    ghost set_of = { λ r. r.0 };

    fn flags<'a>() -> &'a [Flag<Rights>] {
        Rights::FLAGS
    }

    fn bits(&self) -> u8 {
        self.0
    }

    fn from_bits_retain(bits: u8) -> Rights {
        Rights(bits)
    }
}

impl Rights {
    /// The flags of a number. None exactly where a bit without a name is set.
    pub fn named(bits: u8) -> Option<Rights>
        ensures { option_map (λ f. f.0) result ≡ (if bit_and bits 7 == bits then Some bits else None) }
    {
        Rights::from_bits(bits)
    }
}
