// Passing over the offers of the actors in their order.
ghost use Rattle.ihk_parts.specs.Passing.{Goes, as_chosen, cores_from, processes_and_script, workers_from};
ghost use Rattle.mck_word.specs.Maps.{keys};
ghost use Rattle.quiet_laws.specs.Quiet.{IsQuiet};
ghost use Rattle.run_model.specs.Walks.{actors, actors_of_process, all_workers, chosen_by};
ghost use Rattle.run_model.specs.declared.actors.Actor.TheVariants.{Worker, Linux, Script};
ghost use Rattle.std.specs.Option.{option_map};
ghost use Rattle.std.specs.Prelude.{◌≡◌, ◌∷◌, ◌++◌, [], flat_map, map, true};

use hybrid_model::Event;
use mck_word::Pid;
use node_machine::{Offers, offer};
use quiet_laws::the_made_processes_decide;
use run_model::Actor;

/// An actor and its event.
#[derive(Clone, Copy, Debug, PartialEq, Eq)]
pub struct Choice {
    pub actor: Actor,
    pub event: Event,
}

fn look<P: Offers>(machine: &P, actor: Actor) -> Option<Choice>
    ensures { option_map as_chosen result ≡ chosen_by (P.pair machine.now) actor }
{
    let event = offer(machine, actor)?;
    Some(Choice { actor, event })
}

// The actor's offer, where none is to be passed over any more; `skip` is how many are.
fn pass_one<P: Offers>(machine: &P, actor: Actor, skip: &mut u32) -> Option<Choice>
    ensures { Goes (P.pair machine.now) (actor ∷ []) skip.old result skip.new }
{
    let choice = look(machine, actor)?;
    if *skip == 0 {
        Some(choice)
    } else {
        *skip -= 1;
        None
    }
}

fn pass_cores_from<P: Offers>(machine: &P, first: u32, skip: &mut u32) -> Option<Choice>
    ensures { Goes (P.pair machine.now) (cores_from (P.pair machine.now) first) skip.old result skip.new }
{
    let cores = machine.cores();
    let mut core = first;
    while core < cores {
        if let Some(choice) = pass_one(machine, Actor::Core(core), skip) {
            return Some(choice);
        }
        core += 1;
    }
    None
}

/// Passes over the offers of a process's workers from this one on.
pub fn pass_workers_from<P: Offers>(
    machine: &P,
    pid: Pid,
    first: u32,
    skip: &mut u32,
) -> Option<Choice>
    ensures { Goes (P.pair machine.now) (workers_from (P.pair machine.now) pid first) skip.old result skip.new }
{
    let workers = machine.workers();
    let mut worker = first;
    while worker < workers {
        if let Some(choice) = pass_one(machine, Actor::Worker(pid, worker), skip) {
            return Some(choice);
        }
        worker += 1;
    }
    None
}

/// Passes over the offers of a process's Linux side and of its workers.
pub fn pass_linux<P: Offers>(machine: &P, pid: Pid, skip: &mut u32) -> Option<Choice>
    ensures { Goes (P.pair machine.now) (Linux pid ∷ map (λ w. Worker pid w) (all_workers (P.pair machine.now))) skip.old result skip.new }
{
    if let Some(choice) = pass_one(machine, Actor::Linux(pid), skip) {
        return Some(choice);
    }
    pass_workers_from(machine, pid, 0, skip)
}

fn pass_process<P: Offers>(machine: &P, pid: Pid, skip: &mut u32) -> Option<Choice>
    ensures { Goes (P.pair machine.now) (actors_of_process (P.pair machine.now) pid.0) skip.old result skip.new }
{
    if let Some(choice) = pass_one(machine, Actor::Kernel(pid), skip) {
        return Some(choice);
    }
    pass_linux(machine, pid, skip)
}

fn pass_processes<P: Offers>(machine: &P, pids: &[Pid], skip: &mut u32) -> Option<Choice>
    ensures { Goes (P.pair machine.now) (flat_map (actors_of_process (P.pair machine.now)) (map (λ p. p.0) pids.now)) skip.old result skip.new }
{
    let mut rest = pids;
    while let Some((pid, more)) = rest.split_first() {
        if let Some(choice) = pass_process(machine, *pid, skip) {
            return Some(choice);
        }
        rest = more;
    }
    None
}

fn pass_script<P: Offers>(machine: &P, skip: &mut u32) -> Option<Choice>
    ensures { Goes (P.pair machine.now) (Script ∷ []) skip.old result skip.new }
{
    pass_one(machine, Actor::Script, skip)
}

/// Passes over the offers of these processes and of the script.
pub fn pass_processes_and_script<P: Offers>(
    machine: &P,
    pids: &[Pid],
    skip: &mut u32,
) -> Option<Choice>
    ensures { Goes (P.pair machine.now) (processes_and_script (P.pair machine.now) (map (λ p. p.0) pids.now)) skip.old result skip.new }
{
    if let Some(choice) = pass_processes(machine, pids, skip) {
        return Some(choice);
    }
    pass_script(machine, skip)
}

// Passes over the offers of all processes, without a look where they are known to have none, and notes where none has one.
fn pass_all_processes<P: Offers>(machine: &P, skip: &mut u32, quiet: &mut bool) -> Option<Choice>
    requires quiet { quiet.old ≡ true → IsQuiet (P.pair machine.now) }
    ensures goes { Goes (P.pair machine.now) (flat_map (actors_of_process (P.pair machine.now)) (keys (P.pair machine.now).node.processes)) skip.old result skip.new }
    ensures quiet { quiet.new ≡ true → IsQuiet (P.pair machine.now) }
{
    if *quiet {
        return None;
    }
    the_made_processes_decide();
    let start = *skip;
    if let Some(choice) = pass_processes(machine, machine.processes(), skip) {
        return Some(choice);
    }
    *quiet = *skip == start;
    None
}

// Passes over the offers of all processes and of the script.
fn pass_behind_cores<P: Offers>(machine: &P, skip: &mut u32, quiet: &mut bool) -> Option<Choice>
    requires quiet { quiet.old ≡ true → IsQuiet (P.pair machine.now) }
    ensures goes { Goes (P.pair machine.now) (processes_and_script (P.pair machine.now) (keys (P.pair machine.now).node.processes)) skip.old result skip.new }
    ensures quiet { quiet.new ≡ true → IsQuiet (P.pair machine.now) }
{
    if let Some(choice) = pass_all_processes(machine, skip, quiet) {
        return Some(choice);
    }
    pass_script(machine, skip)
}

/// Passes over the offers of the cores from this one on and of all behind the cores.
pub fn pass_from_core<P: Offers>(
    machine: &P,
    first: u32,
    skip: &mut u32,
    quiet: &mut bool,
) -> Option<Choice>
    requires quiet { quiet.old ≡ true → IsQuiet (P.pair machine.now) }
    ensures goes { Goes (P.pair machine.now)
        (cores_from (P.pair machine.now) first ++ processes_and_script (P.pair machine.now) (keys (P.pair machine.now).node.processes))
        skip.old result skip.new }
    ensures quiet { quiet.new ≡ true → IsQuiet (P.pair machine.now) }
{
    if let Some(choice) = pass_cores_from(machine, first, skip) {
        return Some(choice);
    }
    pass_behind_cores(machine, skip, quiet)
}

/// Passes over the offers of all actors.
pub fn pass_all<P: Offers>(machine: &P, skip: &mut u32, quiet: &mut bool) -> Option<Choice>
    requires quiet { quiet.old ≡ true → IsQuiet (P.pair machine.now) }
    ensures goes { Goes (P.pair machine.now) (actors (P.pair machine.now)) skip.old result skip.new }
    ensures quiet { quiet.new ≡ true → IsQuiet (P.pair machine.now) }
{
    pass_from_core(machine, 0, skip, quiet)
}
