//! Laws of Runs: several Runs of a thread that follow one another are one run, and for how many instructions the script
//! stays as it is.
//!
//! Promises: those laws. How long no line of the script comes due stands in specs/Due, the words on Runs in specs/Runs,
//! the proofs in proofs/.
#![tactic(auto)]

ghost use Rattle.hybrid_model.specs.Events.{after, may};
ghost use Rattle.hybrid_model.specs.Globals.{Coherent};
ghost use Rattle.hybrid_model.specs.Journals.{may_all, state};
ghost use Rattle.hybrid_model.specs.Pairs.{Pair};
ghost use Rattle.hybrid_model.specs.Run.{left_of_limit};
ghost use Rattle.hybrid_model.specs.declared.events.Event.TheVariants.{Run};
ghost use Rattle.mck_word.specs.declared.Tid.{Tid};
ghost use Rattle.run_laws.specs.Runs.{AreCounts, AreOne, is_ready, run_length, runs_of, total};
ghost use Rattle.std.specs.Prelude.{◌&&◌, ◌≡◌, ◌≤◌, ◌+◌, ◌*◌, ℕ, List, length, nat_le, true};

/// A Run that leaves its thread ready, and one behind it, are one run of as many instructions.
pub fn runs_join()
    ensures leads { (pair : Pair) → Coherent pair → (core : ℕ) (t : Tid) (n : ℕ) → may pair (Run core t n) ≡ true
        → is_ready (after pair (Run core t n)) t ≡ true → (k : ℕ)
        → after (after pair (Run core t n)) (Run core t k) ≡ after pair (Run core t (n + k)) }
    ensures executed { (pair : Pair) → Coherent pair → (core : ℕ) (t : Tid) (n : ℕ) → may pair (Run core t n) ≡ true
        → is_ready (after pair (Run core t n)) t ≡ true → (k : ℕ)
        → run_length pair t (n + k) ≡ n + run_length (after pair (Run core t n)) t k }
{}

/// Behind a Run that leaves its thread ready, that thread may run for as many instructions as the limit leaves.
pub fn runs_go_on()
    ensures { (pair : Pair) → Coherent pair → (core : ℕ) (t : Tid) (n : ℕ) → may pair (Run core t n) ≡ true
        → is_ready (after pair (Run core t n)) t ≡ true → (k : ℕ)
        → may (after pair (Run core t n)) (Run core t k) ≡ (nat_le 1 k && nat_le k 64 && nat_le (n + k) (left_of_limit pair.node)) }
{}

/// A run of as many instructions as c Runs of 64 have is such Runs, one after another, up to where the thread isn't ready.
pub fn same_runs_are_one()
    ensures { (pair : Pair) → Coherent pair → (core : ℕ) (t : Tid) (c : ℕ) → may pair (Run core t 64) ≡ true → 1 ≤ c
        → 64 * c ≤ left_of_limit pair.node → AreOne pair core t c }
{}

/// A run whose instructions are all executed is Runs of any counts that sum up to it.
pub fn counted_runs_are_one()
    ensures legal { (pair : Pair) → Coherent pair → (core : ℕ) (t : Tid) (counts : List ℕ) → may pair (Run core t 1) ≡ true
        → 1 ≤ length counts → AreCounts counts → total counts ≤ left_of_limit pair.node
        → run_length pair t (total counts) ≡ total counts → may_all pair (runs_of core t counts) ≡ true }
    ensures leads { (pair : Pair) → Coherent pair → (core : ℕ) (t : Tid) (counts : List ℕ) → may pair (Run core t 1) ≡ true
        → 1 ≤ length counts → AreCounts counts → total counts ≤ left_of_limit pair.node
        → run_length pair t (total counts) ≡ total counts
        → state pair (runs_of core t counts) ≡ after pair (Run core t (total counts)) }
{}
