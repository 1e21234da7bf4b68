// The walk of a node.
ghost use Rattle.hybrid_model.specs.Events.{after, may};
ghost use Rattle.hybrid_model.specs.Journals.{ending, may_all, state};
ghost use Rattle.hybrid_model.specs.Pairs.{Pair};
ghost use Rattle.hybrid_model.specs.declared.events.Ending.TheVariants.{Unfinished};
ghost use Rattle.ihk_parts.specs.Turns.{first_turn, words_of};
ghost use Rattle.ihk_parts.specs.Walking.{Follows, LeavesLess, walker_at};
ghost use Rattle.quiet_laws.specs.Quiet.{IsQuiet};
ghost use Rattle.run_model.specs.Walks.{walk_for};
ghost use Rattle.std.specs.Prelude.{◌≡◌, ◌≢◌, ◌+◌, [], OnOk, length, true};

use crate::walker::Walker;
use hybrid_model::Event;
use mck_word::{Items, NoMemory};
use node_machine::Machine;
use quiet_laws::runs_stay_quiet;

// Whether the actors of processes are still known to have no offers after this event, which led to the state: they are
// after a run whose thread is still ready.
fn stays_quiet<M: Machine>(machine: &M, event: &Event, quiet: bool) -> bool
    ensures { (pair : Pair) → may pair event.now ≡ true → M.pair machine.now ≡ after pair event.now → (quiet ≡ true → IsQuiet pair) → result ≡ true → IsQuiet (M.pair machine.now) }
{
    runs_stay_quiet();
    match *event {
        Event::Run(_, t, _) => quiet && machine.is_ready(t),
        _ => false,
    }
}

/// Walks the machine to where nobody has an offer. The journal so far stays where memory runs out.
pub fn walk_journal<M: Machine>(
    machine: &mut M,
    order: u64,
    journal: &mut Items<Event>,
) -> Result<(), NoMemory>
    requires empty { journal.old ≡ [] }
    requires ends { LeavesLess (M.pair machine.old) }
    ensures front { walk_for (words_of order) (length journal.new) (walker_at (M.pair machine.old)) ≡ journal.new }
    ensures whole { OnOk result (walk_for (words_of order) (length journal.new + 1) (walker_at (M.pair machine.old)) ≡ journal.new) }
    ensures legal { may_all (M.pair machine.old) journal.new ≡ true }
    ensures state { M.pair machine.new ≡ state (M.pair machine.old) journal.new }
    ensures over { OnOk result (ending (M.pair machine.new) ≢ Unfinished) }
{
    let mut walker = Walker::new(order);
    let mut quiet = false;
    'steps: loop {
        // Each event lessens what is left to do. So the walk ends.
        let Some(event) = walker.next(machine, &mut quiet) else {
            let _ending = machine.ending();
            return Ok(());
        };
        machine.make_room(&event)?;
        journal.push(event)?;
        let _executed = machine.apply(&event);
        quiet = stays_quiet(machine, &event, quiet);
    }
}
