//! Who acts next in a walk of the two kernels, and the walk itself.
//!
//! Promises: `Walker` chooses as the definition of walks does (run_model, Walks): with order 0 the next actor in turn that has an
//! offer, with another order the one that the generator's next word names among those that have one. A step looks at each actor
//! at most twice and can't fail; with order 0 it begins behind the last that acted. Where the actors of processes are
//! known to have no offers, as after a run of instructions (quiet_laws), they aren't asked again. `walk_journal` makes
//! events until nobody has an offer, each the one whose turn it is. The definitions stand in specs/Turns and specs/Walking.
#![tactic(auto)]

mod behind;
mod passing;
mod turn;
mod walker;
mod walking;

pub use turn::Turn;
pub use walker::{Walker, turns_are_choices, turns_move_on};
pub use walking::walk_journal;
