//! A node: a machine beside the journal that led to it.
//!
//! Promises: a `Node` is in the state to which its journal leads from the one that it began in, and the journal is legal there and goes
//! on from the one that it was handed in with. `commit` makes an event happen exactly where it may, `go_on` what an actor offers; each
//! notes it in the journal. Contracts see a node as its `History`. The definitions stand in specs/History.
#![tactic(auto)]

mod begun;
mod commits;
mod node;

pub use begun::Begun;
pub use commits::Refused;
pub use node::Node;
