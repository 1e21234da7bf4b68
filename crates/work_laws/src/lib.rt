//! Bounded work. What is left to do is a natural number of the state (specs/Left), made of the steps of calls that are before them, of requests,
//! messages, faults, pins and rounds, of pending signals, of threads that rest or change memory, and of processes that aren't Ended. `left_to_do` has the
//! prices for so many processes at most: each event but a Run lessens it, and only a trap and a line of the script add to it. So the work of a legal
//! journal is at most its allowance (run_model/specs/Work). `left` has also what may still be added, and every event whatever lessens it.
//!
//! A function here has no work to do: its contract is the law. The proofs stand in proofs/, by what they speak of.
#![tactic(auto)]

ghost use Rattle.hybrid_model.specs.Boot.{boot, shortage};
ghost use Rattle.hybrid_model.specs.Events.{after, may};
ghost use Rattle.hybrid_model.specs.Globals.{Coherent};
ghost use Rattle.hybrid_model.specs.Journals.{IsLegal, state};
ghost use Rattle.hybrid_model.specs.Pairs.{Pair};
ghost use Rattle.hybrid_model.specs.declared.events.Event.{Event};
ghost use Rattle.job_model.specs.Prepared.{IsPrepared};
ghost use Rattle.job_model.specs.declared.image.Image.{Image};
ghost use Rattle.job_model.specs.declared.job.Job.{Job};
ghost use Rattle.mck_word.specs.Maps.{count};
ghost use Rattle.offer_laws.specs.Small.{Small};
ghost use Rattle.run_model.specs.Work.{allowance, processes_after, work};
ghost use Rattle.std.specs.Prelude.{◌<◌, ◌≡◌, ◌≤◌, ℕ, List, None, length, true};
ghost use Rattle.work_laws.specs.Left.{Lessens, left};
ghost use Rattle.work_laws.specs.WholePages.{WholePages};

/// Each event but a Run lessens what is left to do by one at least, and a Run adds nothing. A trap and a line of the script may add 65,536 for
/// each process. So in a state with few processes and whole pages, and so in each state that a legal journal leads to.
pub fn every_event()
    ensures lessens { (most : ℕ) (pair : Pair) (e : Event) → Coherent pair → WholePages pair → pair.workers ≤ 4 → count pair.node.processes ≤ most
        → may pair e ≡ true → Lessens most pair e }
    ensures always { (most : ℕ) (job : Job) (imgs : List Image) (journal : List Event) (e : Event) → IsPrepared job imgs → IsLegal job imgs journal
        → processes_after (boot job imgs) journal ≤ most → may (state (boot job imgs) journal) e ≡ true → Lessens most (state (boot job imgs) journal) e }
{}

/// In every legal journal of a prepared job the work is at most the allowance.
pub fn bounded_work()
    ensures { (job : Job) (imgs : List Image) (journal : List Event) → IsPrepared job imgs → IsLegal job imgs journal
        → work journal ≤ allowance (boot job imgs) journal }
{}

/// Every event lessens the number `left`, in each state that a legal journal leads to. So no legal journal is longer than `left` at the boot.
pub fn every_event_leaves_less()
    ensures falls { (pair : Pair) (e : Event) → Coherent pair → Small pair → WholePages pair → may pair e ≡ true → left (after pair e) < left pair }
    ensures always { (job : Job) (imgs : List Image) (journal : List Event) (e : Event) → IsPrepared job imgs → IsLegal job imgs journal
        → may (state (boot job imgs) journal) e ≡ true → left (after (state (boot job imgs) journal) e) < left (state (boot job imgs) journal) }
    ensures length { (job : Job) (imgs : List Image) (journal : List Event) → IsPrepared job imgs → IsLegal job imgs journal
        → length journal ≤ left (boot job imgs) }
{}

/// Each page of each process has its 4,096 bytes: so at the boot, and each event keeps it.
pub fn whole_pages()
    ensures begins { (job : Job) (imgs : List Image) → IsPrepared job imgs → shortage job imgs ≡ None → WholePages (boot job imgs) }
    ensures kept { (pair : Pair) (e : Event) → Coherent pair → may pair e ≡ true → WholePages pair → WholePages (after pair e) }
    ensures always { (job : Job) (imgs : List Image) (journal : List Event) → IsPrepared job imgs → IsLegal job imgs journal
        → WholePages (state (boot job imgs) journal) }
{}
