//! Laws of what actors offer (run_model/specs/Walks): what an actor offers may happen, a run is over exactly where no actor has an offer,
//! and so a walk is a legal journal at the end of which the run is over. And what every state on the way keeps small.
//!
//! A function here has no work to do: its contract is the law. The words stand in specs/, the proofs in proofs/, one file a law.
#![tactic(auto)]

ghost use Rattle.hybrid_model.specs.Boot.{boot, shortage};
ghost use Rattle.hybrid_model.specs.Events.{after, may};
ghost use Rattle.hybrid_model.specs.Globals.{Coherent};
ghost use Rattle.hybrid_model.specs.Journals.{IsLegal, IsOver, ending, is_at_end, state};
ghost use Rattle.hybrid_model.specs.Pairs.{Pair};
ghost use Rattle.hybrid_model.specs.declared.events.Ending.TheVariants.{Unfinished};
ghost use Rattle.hybrid_model.specs.declared.events.Event.{Event};
ghost use Rattle.job_model.specs.Prepared.{IsPrepared};
ghost use Rattle.job_model.specs.declared.image.Image.{Image};
ghost use Rattle.job_model.specs.declared.job.Job.{Job};
ghost use Rattle.offer_laws.specs.Small.{NumbersFit, Small};
ghost use Rattle.run_model.specs.Walks.{Chosen, IsWalked, Walker, actors, first_chosen, next_choice, offer};
ghost use Rattle.run_model.specs.declared.actors.Actor.{Actor};
ghost use Rattle.std.specs.Prelude.{◌≡◌, ◌≢◌, ◌≤◌, ℕ, Contains, List, None, Option, Some, false, is_none, true};

/// What an actor offers may happen.
pub fn offers_may()
    ensures { (pair : Pair) (a : Actor) (e : Event) → offer pair a ≡ Some e → may pair e ≡ true }
{}

/// Where no actor has an offer no candidate may happen, and the run has its ending. It takes a core, which each coherent state has.
pub fn no_offer_is_the_end()
    ensures over { (pair : Pair) → 1 ≤ pair.cores → first_chosen pair (actors pair) ≡ None → is_at_end pair ≡ true }
    ensures ending { (pair : Pair) → 1 ≤ pair.cores → first_chosen pair (actors pair) ≡ None → ending pair ≢ Unfinished }
{}

/// Where an actor has an offer the run isn't over. Together: it is over exactly where no actor has one.
pub fn an_offer_is_no_end()
    ensures under_way { (pair : Pair) (a : Actor) (e : Event) → Contains (actors pair) a → offer pair a ≡ Some e → is_at_end pair ≡ false }
    ensures unfinished { (pair : Pair) (a : Actor) (e : Event) → Contains (actors pair) a → offer pair a ≡ Some e → ending pair ≡ Unfinished }
    ensures exactly { (pair : Pair) → 1 ≤ pair.cores → is_at_end pair ≡ is_none (first_chosen pair (actors pair)) }
{}

/// Where no candidate may happen in a coherent state, no event at all may: the candidates stand for all.
pub fn the_candidates_stand_for_all()
    ensures over { (pair : Pair) → Coherent pair → is_at_end pair ≡ true → IsOver pair }
    ensures at_end { (pair : Pair) → IsOver pair → is_at_end pair ≡ true }
{}

/// In any order, what is chosen next may happen, and nothing is chosen exactly where the run is over.
pub fn every_choice()
    ensures may { (words : Option (ℕ → ℕ)) (w : Walker) (c : Chosen) → next_choice words w ≡ Some c → may w.pair c.event ≡ true }
    ensures none { (words : Option (ℕ → ℕ)) (w : Walker) → 1 ≤ w.pair.cores → is_at_end w.pair ≡ is_none (next_choice words w) }
{}

/// The walk of a prepared job for which the frames suffice is a legal journal, and its run is over: no event may happen then.
pub fn every_walk()
    ensures legal { (job : Job) (imgs : List Image) (words : Option (ℕ → ℕ)) (journal : List Event) → shortage job imgs ≡ None
        → IsWalked job imgs words journal → IsLegal job imgs journal }
    ensures over { (job : Job) (imgs : List Image) (words : Option (ℕ → ℕ)) (journal : List Event) → IsPrepared job imgs → shortage job imgs ≡ None
        → IsWalked job imgs words journal → IsOver (state (boot job imgs) journal) }
    ensures ending { (job : Job) (imgs : List Image) (words : Option (ℕ → ℕ)) (journal : List Event) → IsPrepared job imgs → shortage job imgs ≡ None
        → IsWalked job imgs words journal → ending (state (boot job imgs) journal) ≢ Unfinished }
{}

/// Few cores, workers, rings and processes, a small limit, and memory in its bounds: a prepared job begins with them, and each event keeps
/// them. With coherence they bound each number that is given.
pub fn few()
    ensures begins { (job : Job) (imgs : List Image) → IsPrepared job imgs → Small (boot job imgs) }
    ensures kept { (pair : Pair) (e : Event) → Coherent pair → may pair e ≡ true → Small pair → Small (after pair e) }
    ensures always { (job : Job) (imgs : List Image) (journal : List Event) → IsPrepared job imgs → IsLegal job imgs journal → Small (state (boot job imgs) journal) }
    ensures numbers { (pair : Pair) → Coherent pair → Small pair → NumbersFit pair }
{}
