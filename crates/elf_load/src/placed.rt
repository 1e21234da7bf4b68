// A segment and where it stands in the file.
use mck_flags::Rights;

/// A segment of the file: the number of its header, where its file part stands and how long it is, where it goes and how large
/// it is there, and its rights.
#[derive(Clone, Copy, Debug, PartialEq, Eq)]
pub struct Placed {
    pub number: u16,
    pub offset: u64,
    pub len: u64,
    pub addr: u64,
    pub mem: u64,
    pub rights: Rights,
}
