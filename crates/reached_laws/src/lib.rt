//! Laws of the states that a legal journal of a prepared job reaches.
//!
//! A function here has no work to do: its contract is the law. The words stand in specs/, the proofs in proofs/.
#![tactic(auto)]

ghost use Rattle.clear_rounds.specs.declared.Phase.{Phase};
ghost use Rattle.file_model.specs.Errno.{ENOMEM};
ghost use Rattle.hybrid_model.specs.Boot.{boot};
ghost use Rattle.hybrid_model.specs.Events.{after, may};
ghost use Rattle.hybrid_model.specs.Globals.{Coherent};
ghost use Rattle.hybrid_model.specs.Journals.{IsLegal, ending, state};
ghost use Rattle.hybrid_model.specs.OneProcess.{memory_here};
ghost use Rattle.hybrid_model.specs.Pairs.{Pair, here, side_of};
ghost use Rattle.hybrid_model.specs.declared.events.Ending.TheVariants.{Limit};
ghost use Rattle.hybrid_model.specs.declared.events.Event.{Event};
ghost use Rattle.isa_model.specs.Memory.{Memory, Page};
ghost use Rattle.job_model.specs.Prepared.{IsPrepared};
ghost use Rattle.job_model.specs.declared.image.Image.{Image};
ghost use Rattle.job_model.specs.declared.job.Job.{Job};
ghost use Rattle.kernel_model.specs.MemoryCalls.{effect_of, highest_gap, refuse};
ghost use Rattle.kernel_model.specs.Nodes.{instructions_in_all, process_of};
ghost use Rattle.kernel_model.specs.declared.Change.{Change};
ghost use Rattle.mck_flags.specs.declared.rights.Rights.{Rights};
ghost use Rattle.mck_word.specs.Maps.{at, keys};
ghost use Rattle.mck_word.specs.Pages.{in_range};
ghost use Rattle.mck_word.specs.declared.PageRange.{PageRange};
ghost use Rattle.reached_laws.specs.Executed.{executed_by, executed_in};
ghost use Rattle.reached_laws.specs.Mapping.{mapped_anywhere};
ghost use Rattle.reached_laws.specs.Rounds.{HasRound, Takes};
ghost use Rattle.std.specs.Prelude.{◌+◌, ◌<◌, ◌↔◌, ◌≡◌, ◌≢◌, ◌≤◌, List, None, Some, length, true, ℕ};

/// Where a memory's pages and those asked for are together at most 16,000, there is a gap for those asked for.
pub fn a_gap_is_found()
    ensures { (m : Memory) (n : ℕ) → length (keys m) + n ≤ 16_000 → highest_gap m n ≢ None }
{}

/// Pages that are asked for at no fixed address, in a well-formed mmap, are refused exactly where fewer frames are free
/// than pages are asked for: addresses never lack.
pub fn an_mmap_lacks_frames_alone()
    ensures { (job : Job) (imgs : List Image) (journal : List Event) (p n : ℕ) (rights : Rights) → IsPrepared job imgs
        → IsLegal job imgs journal
        → (mapped_anywhere (state (boot job imgs) journal) p n rights ≡ refuse ENOMEM) ↔ (length (state (boot job imgs) journal).free < n) }
{}

/// A run that ends at its limit has counted as many instructions as the limit.
pub fn the_limit_means_used_up()
    ensures { (job : Job) (imgs : List Image) (journal : List Event) → IsPrepared job imgs → IsLegal job imgs journal
        → ending (state (boot job imgs) journal) ≡ Limit
        → instructions_in_all (state (boot job imgs) journal).node ≡ (state (boot job imgs) journal).node.limit }
{}

/// The instructions that a node counts are those that were executed: none at the boot, and with each Run as many as it
/// executes. Those of processes that have ended, or whose end was waited for, go on counting.
pub fn instructions_are_counted()
    ensures begins { (job : Job) (imgs : List Image) → instructions_in_all (boot job imgs).node ≡ 0 }
    ensures each { (pair : Pair) (e : Event) → Coherent pair → may pair e ≡ true
        → instructions_in_all (after pair e).node ≡ instructions_in_all pair.node + executed_by pair e }
    ensures journal { (job : Job) (imgs : List Image) (journal : List Event) → IsPrepared job imgs → IsLegal job imgs journal
        → instructions_in_all (state (boot job imgs) journal).node ≡ executed_in (boot job imgs) journal }
{}

/// A round belongs to a thread that waits to make a change, and closes each present page that the change would take
/// away, replace or give fewer rights, with the process's break as it is now.
pub fn rounds_close_enough()
    ensures owned { (job : Job) (imgs : List Image) (journal : List Event) (p : ℕ) (phase : Phase) (closed : PageRange) → IsPrepared job imgs
        → IsLegal job imgs journal → (side_of (state (boot job imgs) journal) p).round ≡ Some (phase, closed)
        → (t : ℕ) × (change : Change) × HasRound (state (boot job imgs) journal) p t change closed }
    ensures closed { (job : Job) (imgs : List Image) (journal : List Event) (p t : ℕ) (change : Change) (closed : PageRange) (number : ℕ)
        (page : Page) → IsPrepared job imgs → IsLegal job imgs journal → HasRound (state (boot job imgs) journal) p t change closed
        → at (memory_here (here (state (boot job imgs) journal) p)) number ≡ Some page
        → Takes (effect_of (process_of (state (boot job imgs) journal).node p) change) number page → in_range closed number ≡ true }
{}
