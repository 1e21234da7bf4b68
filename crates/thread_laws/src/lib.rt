//! Laws of threads: which there are after an event, and in which processes (specs/Members), so that lists of the live threads can be
//! kept by looking at the threads of the event alone.
//!
//! A function here has no work to do: its contract is the law. The proofs stand in proofs/, by families of events, and the laws of whole
//! states in proofs/Laws.
#![tactic(auto)]

ghost use Rattle.hybrid_model.specs.Events.{after, may, of_thread};
ghost use Rattle.hybrid_model.specs.Globals.{Coherent, Known, is_number};
ghost use Rattle.hybrid_model.specs.Pairs.{Pair, side_of};
ghost use Rattle.hybrid_model.specs.declared.events.Event.TheVariants.{Intake, Reap, Trap};
ghost use Rattle.hybrid_model.specs.declared.events.Event.{Event};
ghost use Rattle.kernel_model.specs.Nodes.{is_living};
ghost use Rattle.mck_word.specs.declared.Pid.{Pid};
ghost use Rattle.mck_word.specs.declared.Tid.{Tid};
ghost use Rattle.std.specs.Prelude.{◌≡◌, ◌==◌, ◌||◌, ◌&&◌, ℕ, None, Some, cond, false, not, true};
ghost use Rattle.thread_laws.specs.Members.{SameThreads, StaysOrGoes, is_in, keeps_threads, outside, process_at, thread_answered};

/// Every event but Trap, Intake and Reap leaves the same threads in the same processes, in any state.
pub fn other_events_keep_threads()
    ensures { (pair : Pair) (e : Event) → keeps_threads e ≡ true → SameThreads pair.node (after pair e).node }
{}

/// A trap that may happen leaves each thread in its process, but that its own may be gone. No thread has the next number before it; one that
/// has it afterwards is in the process of the trap's thread, or is the first one of a process with that number.
pub fn a_trap_keeps_other_threads()
    ensures others { (pair : Pair) (t : Tid) (u : ℕ) → Known pair → may pair (Trap t) ≡ true → (u == t.0) ≡ false → (u == pair.node.next_number) ≡ false
        → process_at (after pair (Trap t)).node u ≡ process_at pair.node u }
    ensures own { (pair : Pair) (t : Tid) → Known pair → may pair (Trap t) ≡ true → StaysOrGoes t.0 pair.node (after pair (Trap t)).node }
    ensures unmade { (pair : Pair) → Known pair → process_at pair.node pair.node.next_number ≡ None }
    ensures made { (pair : Pair) (t : Tid) (q : ℕ) → Known pair → may pair (Trap t) ≡ true → process_at (after pair (Trap t)).node pair.node.next_number ≡ Some q
        → (q == of_thread pair.node t.0 || q == pair.node.next_number) ≡ true }
{}

/// A message leaves each thread in its process, but for the one that gets an answer by it: that is a thread of the process to which the
/// message comes, and it is gone where that process doesn't live.
pub fn an_intake_keeps_other_threads()
    ensures exactly { (pair : Pair) (p : Pid) (u : ℕ) → Coherent pair → process_at (after pair (Intake p)).node u
        ≡ cond (is_number u (thread_answered (side_of pair p.0)) && not (is_living pair.node p.0)) None (process_at pair.node u) }
    ensures others { (pair : Pair) (p : Pid) (u : ℕ) → Coherent pair → is_in p.0 (process_at pair.node u) ≡ false
        → process_at (after pair (Intake p)).node u ≡ process_at pair.node u }
{}

/// The end of a process takes its threads away, and no other.
pub fn a_reap_takes_threads_of_its_process()
    ensures { (pair : Pair) (p : Pid) (u : ℕ) → process_at (after pair (Reap p)).node u ≡ outside p.0 (process_at pair.node u) }
{}

/// No event changes the number of cores, by which a thread is that of a core.
pub fn every_event_keeps_cores()
    ensures { (pair : Pair) (e : Event) → (after pair e).cores ≡ pair.cores }
{}
