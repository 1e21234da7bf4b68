// The run of a machine by a crew.
ghost use Rattle.hybrid_model.specs.Journals.{ending, may_all, state};
ghost use Rattle.hybrid_model.specs.declared.events.Ending.TheVariants.{Unfinished};
ghost use Rattle.mck_crew.specs.declared.last_step.CrewEnd.TheVariants.{Over};
ghost use Rattle.std.specs.Prelude.{◌≡◌, ◌≢◌, [], true};

use crate::desk::Stage;
use crate::gates::Gate;
use crate::last_step::{CrewEnd, finish};
use crate::seats::Seating;
use crate::serving::{Shared, make_bells, serve_all};
use hybrid_model::Event;
use mck_node::{Begun, Node};
use mck_word::Items;
use node_machine::Machine;
use std::alloc::Global;
use std::marker::Brand;
use std::sync::Wait;
use std::thread::Threads;

/// What a crew leaves: the machine, the journal that led to it, and how the run ended.
#[derive(Drop)]
pub struct Ran<M: Machine> {
    pub machine: M,
    pub journal: Items<Event>,
    pub end: CrewEnd,
}

// The threads' share of a run: a legal journal goes on by legal events.
fn by_threads<M, B, G, R>(rt: &R, alloc: Global, node: Node<M, B>, gate: &G) -> (Node<M, B>, Stage)
where
    M: Machine + Send + Sync,
    B: Begun + Send + Sync,
    G: Gate + Sync,
    R: Threads + Wait + Sync,
{
    let seats = Seating::of(node.machine()).all();
    let Ok(bells) = make_bells(alloc) else {
        return (node, Stage::NoMemory);
    };
    let shared = Shared::new(node, bells);
    serve_all(rt, alloc, &shared, gate, seats);
    shared.into_parts()
}

// The run of a machine that begins there.
fn run_begun<
    M: Machine + Send + Sync,
    B: Begun + Send + Sync,
    G: Gate + Sync,
    R: Threads + Wait + Sync,
>(rt: &R, alloc: Global, machine: M, gate: &G) -> Ran<M>
    requires start { M.pair machine ≡ B.start }
    requires before { B.before ≡ [] }
    ensures legal { may_all (M.pair machine) result.journal ≡ true }
    ensures state { M.pair result.machine ≡ state (M.pair machine) result.journal }
    ensures over { result.end ≡ Over → ending (M.pair result.machine) ≢ Unfinished }
{
    let node: Node<M, B> = Node::new(alloc, machine);
    let (mut node, stage) = by_threads(rt, alloc, node, gate);
    let end = match stage {
        Stage::NoMemory => CrewEnd::NoMemory,
        _ => finish(rt, &mut node),
    };
    let (machine, journal) = node.into_parts();
    Ran {
        machine,
        journal,
        end,
    }
}

/// Runs a machine by threads, one for each core, and one for each guest and worker number. Each takes the lock to make what its actors
/// offer. The journal is legal from the machine that was handed in and leads to the one that is handed back, also where memory lacks.
pub fn run_machine<M: Machine + Send + Sync, G: Gate + Sync, R: Threads + Wait + Sync>(
    rt: &R,
    alloc: Global,
    machine: M,
    gate: &G,
) -> Ran<M>
    ensures legal { may_all (M.pair machine) result.journal ≡ true }
    ensures state { M.pair result.machine ≡ state (M.pair machine) result.journal }
    ensures over { result.end ≡ Over → ending (M.pair result.machine) ≢ Unfinished }
{
    run_begun::<M, Brand, G, R>(rt, alloc, machine, gate)
}
