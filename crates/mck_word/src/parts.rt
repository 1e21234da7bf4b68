/// A part of a page: `len` bytes from the offset `off` on, in bytes.
#[derive(Clone, Copy, Debug, PartialEq, Eq)]
pub struct Piece {
    pub page: u64,
    pub off: u32,
    pub len: u32,
}
