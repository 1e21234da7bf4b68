// Why a text has no words.
use mck_word::NoMemory;
use thiserror::Error;

/// Why no words were made.
#[derive(Clone, Copy, Debug, PartialEq, Eq, Error)]
pub enum AsmError {
    /// The first broken line, counted from 1.
    #[error("line {0}")]
    Line(u64),
    /// There was no memory for the words.
    #[error("no memory")]
    NoMemory,
}

impl From<NoMemory> for AsmError {
    ghost use Rattle.std.specs.Prelude.{◌≡◌};
    ghost use Rattle.guest_asm.specs.declared.fault.AsmError.TheVariants.{NoMemory};

    ghost from_gives = { λ _ e. e ≡ NoMemory };

    fn from(_e: NoMemory) -> AsmError {
        AsmError::NoMemory
    }
}
