// Ranges of a process's memory.

/// `len` bytes of the process's memory, from `address` on.
#[derive(Clone, Copy, Default, PartialEq, Eq, Debug)]
pub struct Range {
    pub address: u64,
    pub len: u64,
}
