//! A static executable for rv64i as the file of ELF-64 that it stands in.
//!
//! Promises: `load` answers the image that the bytes have, or the first rule of the profile that they break, in the profile's
//! order; sums that pass 2^64 are compared exactly. What it answers keeps `IsImage`: its segments lie inside the guest's range,
//! share no page, and what may be written may be read. `write` answers bytes that load to the same image again, for every image
//! that some bytes load to. The definitions stand in specs/: Fields (little-endian fields), Profile (the rules and the image), Kept
//! (what each image keeps), Written (how a file is made of an image).
#![tactic(auto)]

mod fault;
mod headers;
mod loading;
mod placed;
mod writing;
mod written_apart;
mod written_around;

pub use fault::{ElfError, ElfFault};
pub use headers::Header;
pub use job_model::{Image, Segment, Segments};
pub use loading::load;
pub use placed::Placed;
pub use writing::write;
