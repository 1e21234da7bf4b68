// What is left when the threads have ended.
ghost use Rattle.hybrid_model.specs.Journals.{ending};
ghost use Rattle.hybrid_model.specs.declared.events.Ending.TheVariants.{Unfinished};
ghost use Rattle.mck_crew.specs.declared.last_step.CrewEnd.TheVariants.{Over};
ghost use Rattle.std.specs.Prelude.{◌≡◌, ◌≢◌};

use ihk_parts::Walker;
use mck_node::{Begun, Node, Refused};
use node_machine::Machine;
use std::sync::Wait;

/// How a run of threads ended: no event may happen any more, or memory lacks.
#[derive(Clone, Copy, PartialEq, Eq, Debug)]
pub enum CrewEnd {
    Over,
    NoMemory,
}

/// Makes what is offered, in turn, until nothing is.
pub fn finish<M: Machine, B: Begun, R: Wait>(rt: &R, node: &mut Node<M, B>) -> CrewEnd
    ensures { result ≡ Over → ending node.new.pair ≢ Unfinished }
{
    let mut walker = Walker::new(0);
    for _ in rt.forever() {
        let machine = node.machine();
        let mut quiet = false;
        let Some(event) = walker.next(machine, &mut quiet) else {
            let _ending = machine.ending();
            return CrewEnd::Over;
        };
        if let Err(Refused::NoMemory) = node.commit(&event) {
            return CrewEnd::NoMemory;
        }
    }
    unreachable!()
}
