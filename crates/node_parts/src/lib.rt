//! Partitions of a node: which instance has each core and each frame, and machines on walks of their own.
//!
//! Promises: `Parts` answers each call as the definition of partitions does, and is then seen as the definition's
//! (specs/Partitions). `turn` gives each booted instance the next event of its own walk, and `release` hands out the
//! whole of it, whatever calls on other instances stood between (`parts_do_not_mix`). Where memory runs out a call
//! leaves all as it was, but for events that turns and releases have made. `Walk` is a machine on its walk with the
//! journal that it keeps: all of it follows from where it began, its order and the number of its events
//! (specs/Courses). What an instance's walk is stands in specs/Instances, what calls leave in specs/Keeping, turns by
//! slots in specs/Slotted.
#![tactic(auto)]

mod instance;
mod instances;
mod laws;
mod owners;
mod parts;
mod refusal;
mod walk;

pub use instance::Released;
pub use laws::{owners_are_there, parts_do_not_mix};
pub use parts::Parts;
pub use refusal::PartRefusal;
pub use walk::Walk;
