// Why bytes are no image of the profile.
use mck_word::NoMemory;
use thiserror::Error;

/// The first rule that the bytes break. A number counts program headers from 0.
#[derive(Clone, Copy, Debug, PartialEq, Eq, Error)]
pub enum ElfFault {
    /// The file, of so many bytes, ends inside its header or inside its program headers.
    #[error("short {0}")]
    Short(u64),
    /// It doesn't begin with 7f 45 4c 46.
    #[error("magic")]
    Magic,
    /// Its class isn't 64 bits (2), its data not little-endian (1), or its version not 1.
    #[error("class")]
    Class,
    /// It isn't a static executable (e_type 2).
    #[error("kind")]
    Kind,
    /// It isn't for RISC-V (e_machine 243).
    #[error("machine")]
    Machine,
    /// It asks for an extension or another way of floating point (e_flags other than 0 and 16).
    #[error("flags")]
    Flags,
    /// A program header isn't of 56 bytes, or there are more than 64.
    #[error("phsize")]
    PhSize,
    /// It asks for an interpreter or a dynamic linker (p_type 2 or 3).
    #[error("linked")]
    Linked,
    /// The file part is larger than the memory part, or reaches past the file.
    #[error("size {0}")]
    Size(u16),
    /// The memory part isn't inside 0x10000 to 0x3000000000.
    #[error("bounds {0}")]
    Bounds(u16),
    /// The second is the first whose segment shares a page with an earlier one, the first the first such.
    #[error("overlap {0} {1}")]
    Overlap(u16, u16),
    /// The entry isn't a multiple of 4, or lies in no segment with the execute right.
    #[error("entry")]
    Entry,
}

/// Why nothing was loaded.
#[derive(Clone, Copy, Debug, PartialEq, Eq, Error)]
pub enum ElfError {
    /// The bytes break this rule.
    #[error("{0}")]
    Fault(ElfFault),
    /// There was no memory for the image.
    #[error("no memory")]
    NoMemory,
}

impl From<NoMemory> for ElfError {
    ghost use Rattle.std.specs.Prelude.{◌≡◌};
    ghost use Rattle.elf_load.specs.declared.fault.ElfError.TheVariants.{NoMemory};

    ghost from_gives = { λ _ e. e ≡ NoMemory };

    fn from(_e: NoMemory) -> ElfError {
        ElfError::NoMemory
    }
}

impl From<ElfFault> for ElfError {
    ghost use Rattle.std.specs.Prelude.{◌≡◌};
    ghost use Rattle.elf_load.specs.declared.fault.ElfError.TheVariants.{Fault};

    ghost from_gives = { λ fault e. e ≡ Fault fault };

    fn from(fault: ElfFault) -> ElfError {
        ElfError::Fault(fault)
    }
}
