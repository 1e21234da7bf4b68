// Why a node is not booted.
use mck_word::NoMemory;

/// Why a node was not booted: the frames don't suffice for that guest, which needs so many where so many are free, or want of memory.
#[derive(Clone, Copy, Debug, PartialEq, Eq)]
pub enum BootError {
    NoFrames { guest: u32, needed: u64, free: u64 },
    NoMemory,
}

impl From<NoMemory> for BootError {
    ghost use Rattle.std.specs.Prelude.{◌≡◌};
    ghost use Rattle.node_machine.specs.declared.boot_error.BootError.TheVariants.{NoMemory};

    ghost from_gives = { λ _ e. e ≡ NoMemory };

    fn from(_e: NoMemory) -> BootError {
        BootError::NoMemory
    }
}
