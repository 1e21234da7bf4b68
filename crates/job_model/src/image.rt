// What is loaded of an executable.
use mck_flags::Rights;
use mck_word::{Bytes, Items};

/// A part of the image in memory, from the address on: its file part, then zeros up to `mem` bytes.
#[derive(Drop)]
pub struct Segment {
    pub addr: u64,
    pub mem: u64,
    pub bytes: Bytes,
    pub rights: Rights,
}

/// The segments of an image, in the order of its program headers.
pub type Segments = Items<Segment>;

/// A static executable: its entry, the address of its program headers in memory or 0, their number, and its segments.
#[derive(Drop)]
pub struct Image {
    pub entry: u64,
    pub phdr: u64,
    pub phnum: u16,
    pub segments: Segments,
}
