//! The tree of files: nodes in a slab, found by their numbers, and by their names in a directory.
#![tactic(auto)]

pub mod bytes;
mod changes;
pub mod counts;
pub mod index;
pub mod node;
pub mod nodes;
pub mod tree;
