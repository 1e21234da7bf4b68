// Passing over the offers of the actors behind one of them, from its own place on.
ghost use Rattle.ihk_parts.specs.Passing.{Goes, numbers_behind, on_from, workers_from};
ghost use Rattle.mck_word.specs.Maps.{keys};
ghost use Rattle.quiet_laws.specs.Quiet.{IsQuiet};
ghost use Rattle.run_model.specs.Walks.{actors, all_workers, behind};
ghost use Rattle.run_model.specs.declared.actors.Actor.TheVariants.{Core, Worker, Linux};
ghost use Rattle.std.specs.Option.{option_copied, option_map};
ghost use Rattle.std.specs.Prelude.{◌≡◌, ◌∷◌, map, true};

use crate::passing::{
    Choice, pass_from_core, pass_linux, pass_processes_and_script, pass_workers_from,
};
use mck_word::Pid;
use node_machine::Offers;
use run_model::Actor;

// The processes behind this one, found by halving; None where it isn't there.
fn processes_behind<P: Offers>(machine: &P, pid: Pid) -> Option<&[Pid]>
    ensures { option_map (λ pids. map (λ p. p.0) pids) (option_copied result) ≡ numbers_behind pid.0 (keys (P.pair machine.now).node.processes) }
{
    let pids = machine.processes();
    match pids.binary_search(&pid) {
        Ok(place) => Some(&pids[place + 1..]),
        Err(_) => None,
    }
}

fn pass_behind_core<P: Offers>(
    machine: &P,
    core: u32,
    skip: &mut u32,
    quiet: &mut bool,
) -> Option<Choice>
    requires quiet { quiet.old ≡ true → IsQuiet (P.pair machine.now) }
    ensures goes { Goes (P.pair machine.now) (behind (Core core) (actors (P.pair machine.now))) skip.old result skip.new }
    ensures quiet { quiet.new ≡ true → IsQuiet (P.pair machine.now) }
{
    if core < machine.cores() {
        pass_from_core(machine, core + 1, skip, quiet)
    } else {
        None
    }
}

// From the process's Linux side on.
fn pass_from_linux<P: Offers>(machine: &P, pid: Pid, skip: &mut u32) -> Option<Choice>
    ensures { Goes (P.pair machine.now) (on_from (P.pair machine.now) (Linux pid ∷ map (λ w. Worker pid w) (all_workers (P.pair machine.now))) pid) skip.old result skip.new }
{
    let pids = processes_behind(machine, pid)?;
    if let Some(choice) = pass_linux(machine, pid, skip) {
        return Some(choice);
    }
    pass_processes_and_script(machine, pids, skip)
}

// From this worker of the process on.
fn pass_from_worker<P: Offers>(machine: &P, pid: Pid, first: u32, skip: &mut u32) -> Option<Choice>
    ensures { Goes (P.pair machine.now) (on_from (P.pair machine.now) (workers_from (P.pair machine.now) pid first) pid) skip.old result skip.new }
{
    let pids = processes_behind(machine, pid)?;
    if let Some(choice) = pass_workers_from(machine, pid, first, skip) {
        return Some(choice);
    }
    pass_processes_and_script(machine, pids, skip)
}

fn pass_behind_worker<P: Offers>(
    machine: &P,
    pid: Pid,
    worker: u32,
    skip: &mut u32,
) -> Option<Choice>
    ensures { Goes (P.pair machine.now) (behind (Worker pid worker) (actors (P.pair machine.now))) skip.old result skip.new }
{
    if worker < machine.workers() {
        pass_from_worker(machine, pid, worker + 1, skip)
    } else {
        None
    }
}

/// Passes over the offers of the actors behind this one.
pub fn pass_behind<P: Offers>(
    machine: &P,
    last: Actor,
    skip: &mut u32,
    quiet: &mut bool,
) -> Option<Choice>
    requires quiet { quiet.old ≡ true → IsQuiet (P.pair machine.now) }
    ensures goes { Goes (P.pair machine.now) (behind last (actors (P.pair machine.now))) skip.old result skip.new }
    ensures quiet { quiet.new ≡ true → IsQuiet (P.pair machine.now) }
{
    match last {
        Actor::Core(core) => pass_behind_core(machine, core, skip, quiet),
        Actor::Kernel(pid) => pass_from_linux(machine, pid, skip),
        Actor::Linux(pid) => pass_from_worker(machine, pid, 0, skip),
        Actor::Worker(pid, worker) => pass_behind_worker(machine, pid, worker, skip),
        Actor::Script => None,
    }
}
