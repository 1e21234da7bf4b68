//! The small plain words of all other crates: identifiers, pages and their pieces, registers, lists of one's own, decimal numbers.
//!
//! Promises: `sext` is the two's complement of a number, `pieces` is the one list of pieces of a range, `read_number` reads
//! decimal numbers exactly, and a list's calls are those of plain lists. The definitions stand in specs/: Word, Words, Pages,
//! Pieces, Numbers; specs/Maps, MapLaws, Slots and Lists have words on maps and lists that all other definitions use.
#![tactic(auto)]

pub mod byte_list;
pub mod cut;
pub mod decimal_text;
pub mod item_list;
pub mod no_memory;
pub mod parts;

ghost use Rattle.mck_word.specs.declared.parts.Piece.{Piece};
ghost use Rattle.std.specs.Prelude.{◌≡◌, ℕ, List, ◌+◌, ◌-◌, ◌*◌, ◌/◌, ◌%◌, ◌^◌, ◌<◌, ◌≤◌};
ghost use Rattle.mck_word.specs.Pieces.{ArePieces};
ghost use Rattle.mck_word.specs.Word.{sext_of};
ghost use Rattle.mck_word.specs.Pages.{in_range};

pub use byte_list::Bytes;
pub use cut::Pieces;
pub use decimal_text::read_number;
pub use item_list::Items;
pub use no_memory::NoMemory;
pub use parts::Piece;

/// A process's number.
#[derive(Clone, Copy, Debug, PartialEq, Eq, PartialOrd, Ord)]
pub struct Pid(pub u32);

/// A thread's number.
#[derive(Clone, Copy, Debug, PartialEq, Eq, PartialOrd, Ord)]
pub struct Tid(pub u32);

/// A request's number in its process.
#[derive(Clone, Copy, Debug, PartialEq, Eq, PartialOrd, Ord)]
pub struct Req(pub u64);

/// A frame's number.
#[derive(Clone, Copy, Debug, PartialEq, Eq, PartialOrd, Ord)]
pub struct Frame(pub u32);

/// What an access to memory asks for.
#[derive(Clone, Copy, Debug, PartialEq, Eq)]
pub enum Access {
    Read,
    Write,
    Exec,
}

/// The pages from `lo` up to `hi`, without `hi`.
#[derive(Clone, Copy, Debug, PartialEq, Eq)]
pub struct PageRange {
    pub lo: u64,
    pub hi: u64,
}

impl PageRange {
    /// Whether the page is one of the range.
    pub fn contains(&self, page: u64) -> bool
        ensures { result ≡ in_range self.now page }
    {
        self.lo <= page && page < self.hi
    }
}

/// The registers of a thread. `x[0]` is never read.
#[derive(Clone, Copy, Debug, PartialEq, Eq)]
pub struct Regs {
    pub pc: u64,
    pub x: [u64; 32],
}

/// How a process ends.
#[derive(Clone, Copy, Debug, PartialEq, Eq)]
pub enum End {
    Exit(u8),
    Killed(u32),
}

/// The number whose two's complement at `bits` bits is the low part of `x`, in two's complement at 64 bits.
pub fn sext(x: u64, bits: u32) -> u64
    requires some { 1 ≤ bits }
    requires most { bits ≤ 64 }
    ensures { result ≡ sext_of bits x }
{
    let mask = u64::MAX >> (64 - bits);
    let low = x & mask;
    if low < 1 << (bits - 1) {
        low
    } else {
        low + (u64::MAX - mask)
    }
}

/// The page of an address.
pub fn page_of(a: u64) -> u64
    ensures { result ≡ a / 4096 }
{
    a / 4096
}

/// The pieces of the range of `len` bytes from `addr` on.
pub fn pieces(addr: u64, len: u64) -> Pieces
    requires { addr + len < 2 ^ 64 }
    ensures { ArePieces addr len result }
{
    Pieces::over(addr, len)
}

/// A range has one list of pieces.
pub fn one_cut()
    ensures { (a n : ℕ) (ps qs : List Piece) → ArePieces a n ps → ArePieces a n qs → ps ≡ qs }
{}
