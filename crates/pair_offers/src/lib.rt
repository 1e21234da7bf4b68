//! What is left to be asked of each actor of a walk, and how a run stands by what they offer.
//!
//! Promises: `ending` is the definition's ending (hybrid_model, Journals) of any two kernels whose actors are asked (node_machine, Offers): a
//! run is over exactly where no actor has an offer. It can't fail. How the offers of run_model (Walks) are sought stands in specs/: of each
//! thread and of each number (Seeking), and by how a worker stands (Stances), with the laws of such searches in proofs/.
#![tactic(auto)]

mod seeking;
mod stance;
mod standing;

pub use seeking::Numbered;
pub use stance::Stance;
pub use standing::ending;
