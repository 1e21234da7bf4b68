// The bits of arguments.
ghost use Rattle.kernel_model.specs.SignalSets.{minus};
ghost use Rattle.mck_word.specs.Words.{has_bit};
ghost use Rattle.std.specs.Prelude.{◌≡◌, ◌<◌};

/// Whether the bit of that place is set.
pub fn has_bit(place: u32, word: u64) -> bool
    requires { place < 64 }
    ensures { result ≡ has_bit place word }
{
    (word >> place) % 2 == 1
}

/// The bits of the first word that aren't in the second.
pub fn minus(a: u64, b: u64) -> u64
    ensures { result ≡ minus a b }
{
    a - (a & b)
}
