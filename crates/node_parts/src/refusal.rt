// Why a call on partitions is refused.
use mck_word::NoMemory;
use node_machine::BootError;
use thiserror::Error;

/// Why a call on partitions is refused. But for want of memory the definition refuses it so (specs/Partitions).
#[derive(Clone, Copy, Debug, PartialEq, Eq, Error)]
pub enum PartRefusal {
    /// The instance is there.
    #[error("known")]
    Known,
    /// No instance has the number.
    #[error("unknown")]
    Unknown,
    /// The instance is booted.
    #[error("booted")]
    Booted,
    /// An instance has the core.
    #[error("taken {by}")]
    Taken { by: u32 },
    /// So many frames are free.
    #[error("short {asked} {free}")]
    Short { asked: u32, free: u32 },
    /// The instance has so many cores.
    #[error("cores {asked} {held}")]
    Cores { asked: u32, held: u32 },
    /// The instance has so many frames.
    #[error("frames {asked} {held}")]
    Frames { asked: u32, held: u32 },
    /// The frames don't suffice for that guest.
    #[error("noframes {guest} {needed} {free}")]
    NoFrames { guest: u32, needed: u64, free: u64 },
    /// There was no memory for it.
    #[error("no memory")]
    NoMemory,
}

impl From<NoMemory> for PartRefusal {
    ghost use Rattle.std.specs.Prelude.{◌≡◌};
    ghost use Rattle.node_parts.specs.declared.refusal.PartRefusal.TheVariants.{NoMemory};

    ghost from_gives = { λ _ e. e ≡ NoMemory };

    fn from(_e: NoMemory) -> PartRefusal {
        PartRefusal::NoMemory
    }
}
