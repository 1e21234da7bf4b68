//! Facts of the two kernels' states that are had again from there being some proof of them.
//!
//! Promises: where a proof of coherence is known to be, coherence is had, and so is what lasts and what is small. A struct can thus keep the fact as a
//! ghost field, which has one proof at most. The proofs stand in proofs/, from single facts up.
#![tactic(auto)]

ghost use Rattle.hybrid_laws.specs.Lasting.{Lasting};
ghost use Rattle.hybrid_model.specs.Globals.{Coherent};
ghost use Rattle.hybrid_model.specs.Pairs.{Pair};
ghost use Rattle.offer_laws.specs.Small.{Small};

/// Of a state of which there is a proof that it is coherent, it is had; so is what lasts, and what is small.
pub fn every_told_state()
    ensures coherent { (pair : Pair) → ∥ Coherent pair ∥₁ → Coherent pair }
    ensures lasting { (pair : Pair) → ∥ Lasting pair ∥₁ → Lasting pair }
    ensures small { (pair : Pair) → ∥ Small pair ∥₁ → Small pair }
{}
