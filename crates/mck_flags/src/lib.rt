//! Sets of named bits: the rights of a page, the flags of system calls, and sets of signals.
//!
//! Promises: each set is over the crate `bitflags`, with its table written by hand, so that `from_bits` is None exactly where an
//! unknown bit is set, and each operation is that of the bits. The names and values are those of Linux (man-pages section 2).
#![tactic(auto)]

pub mod clone_flags;
pub mod map_flags;
pub mod open_flags;
pub mod rights;
pub mod signal_set;

pub use clone_flags::CloneFlags;
pub use map_flags::MapFlags;
pub use open_flags::OpenFlags;
pub use rights::Rights;
pub use signal_set::SigSet;
