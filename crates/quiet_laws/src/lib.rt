//! A run of instructions makes no new offers: where no process's kernel, Linux side or worker has an offer, none has one
//! after a Run whose thread is still ready. So a walk need not ask them again between such runs.
//!
//! Promises: that law, and that a process which was not made offers nothing, so that asking the others decides. What is
//! quiet stands in specs/Quiet, the offers in run_model/specs/Walks, the proofs in proofs/: the tests of those actors'
//! events read no registers, no counts of instructions and no frames (proofs/Asked), and a run whose thread is still ready
//! changes nothing else (proofs/Running).
#![tactic(auto)]

ghost use Rattle.hybrid_model.specs.Events.{after, may};
ghost use Rattle.hybrid_model.specs.Pairs.{Pair};
ghost use Rattle.hybrid_model.specs.declared.events.Event.TheVariants.{Run};
ghost use Rattle.kernel_model.specs.Nodes.{ready_to_run, thread_of};
ghost use Rattle.mck_word.specs.Maps.{keys};
ghost use Rattle.mck_word.specs.declared.Tid.{Tid};
ghost use Rattle.quiet_laws.specs.Quiet.{IsQuiet};
ghost use Rattle.run_model.specs.Walks.{actors_of_process, first_chosen};
ghost use Rattle.std.specs.Prelude.{◌≡◌, ℕ, None, flat_map, true};

/// A run whose thread is ready afterwards leaves the processes' actors quiet.
pub fn runs_stay_quiet()
    ensures { (pair : Pair) (core : ℕ) (t : Tid) (n : ℕ) → may pair (Run core t n) ≡ true
        → ready_to_run (thread_of (after pair (Run core t n)).node t.0).does ≡ true → IsQuiet pair → IsQuiet (after pair (Run core t n)) }
{}

/// Where the actors of the processes that were made offer nothing, no process's actors do.
pub fn the_made_processes_decide()
    ensures { (pair : Pair) → first_chosen pair (flat_map (actors_of_process pair) (keys pair.node.processes)) ≡ None → IsQuiet pair }
{}
