// How a run stands.
ghost use Rattle.hybrid_model.specs.Journals.{ending, ending_of_run};
ghost use Rattle.hybrid_model.specs.declared.events.Ending.TheVariants.{Unfinished};
ghost use Rattle.mck_word.specs.Lists.{count_from};
ghost use Rattle.pair_offers.specs.Standing.{actors_of, offers, some_offers};
ghost use Rattle.run_model.specs.Walks.{actors, actors_of_process, all_workers, first_chosen};
ghost use Rattle.run_model.specs.declared.actors.Actor.TheVariants.{Core, Worker};
ghost use Rattle.std.specs.Prelude.{◌≡◌, ◌≢◌, None, map};

use hybrid_model::Ending;
use mck_word::Pid;
use node_machine::{Offers, offer};
use run_model::Actor;

fn offers<A: Offers>(state: &A, actor: Actor) -> bool
    ensures { result ≡ offers (A.pair state.now) actor }
{
    offer(state, actor).is_some()
}

fn some_core_offers<A: Offers>(state: &A) -> bool
    ensures { result ≡ some_offers (A.pair state.now) (map (λ c. Core c) (count_from 0 (A.pair state.now).cores)) }
{
    let cores = state.cores();
    let mut core = 0;
    while core < cores {
        if offers(state, Actor::Core(core)) {
            return true;
        }
        core += 1;
    }
    false
}

fn some_worker_offers<A: Offers>(state: &A, p: Pid) -> bool
    ensures { result ≡ some_offers (A.pair state.now) (map (λ w. Worker p w) (all_workers (A.pair state.now))) }
{
    let workers = state.workers();
    let mut worker = 0;
    while worker < workers {
        if offers(state, Actor::Worker(p, worker)) {
            return true;
        }
        worker += 1;
    }
    false
}

fn process_offers<A: Offers>(state: &A, p: Pid) -> bool
    ensures { result ≡ some_offers (A.pair state.now) (actors_of_process (A.pair state.now) p.0) }
{
    offers(state, Actor::Kernel(p))
        || offers(state, Actor::Linux(p))
        || some_worker_offers(state, p)
}

fn some_process_offers<A: Offers>(state: &A, pids: &[Pid]) -> bool
    ensures { result ≡ some_offers (A.pair state.now) (actors_of (A.pair state.now) pids.now) }
{
    let mut rest = pids;
    while let Some((p, more)) = rest.split_first() {
        if process_offers(state, *p) {
            return true;
        }
        rest = more;
    }
    false
}

fn some_actor_offers<A: Offers>(state: &A) -> bool
    ensures { result ≡ some_offers (A.pair state.now) (actors (A.pair state.now)) }
{
    some_core_offers(state)
        || some_process_offers(state, state.processes())
        || offers(state, Actor::Script)
}

/// How the run stands: over in one of three ways exactly where no actor has an offer, else unfinished. `over` is how it stands where it
/// is over.
pub fn ending<A: Offers>(state: &A, over: Ending) -> Ending
    requires { over ≡ ending_of_run (A.pair state.now) }
    ensures value { result ≡ ending (A.pair state.now) }
    ensures over { first_chosen (A.pair state.now) (actors (A.pair state.now)) ≡ None → ending (A.pair state.now) ≢ Unfinished }
{
    // Each state has a core. Where there were none, a thread could go on that no actor offers.
    let _cores = state.cores();
    if some_actor_offers(state) {
        Ending::Unfinished
    } else {
        over
    }
}
