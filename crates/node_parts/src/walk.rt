// A machine on its walk, with the journal that it keeps.
ghost use Rattle.hybrid_model.specs.Events.{after, may};
ghost use Rattle.hybrid_model.specs.Journals.{may_all, state};
ghost use Rattle.hybrid_model.specs.Pairs.{Pair};
ghost use Rattle.ihk_parts.specs.Turns.{event_of, words_of};
ghost use Rattle.ihk_parts.specs.Walking.{LeavesLess};
ghost use Rattle.node_parts.specs.Courses.{GoesOn, IsAtEnd, Waits, events, has_next, one_further, place};
ghost use Rattle.quiet_laws.specs.Quiet.{IsQuiet};
ghost use Rattle.run_model.specs.Walks as walks;
ghost use Rattle.run_model.specs.Walks.{next_choice};
ghost use Rattle.std.specs.Option.{option_map};
ghost use Rattle.std.specs.Prelude.{◌≡◌, ◌<◌, ℕ, IfOk, OnErr, OnOk, length, true};
ghost use Rattle.work_laws.specs.Left.{left};

use hybrid_model::Event;
use ihk_parts::{Walker, turns_are_choices, turns_move_on};
use mck_word::{Items, NoMemory};
use node_machine::Machine;
use quiet_laws::runs_stay_quiet;
use std::alloc::Global;
use std::marker::Model;
use std::snapshot::Snapshot;

/// A machine on its walk, seen as its course: where the walk began, its order, and how many events were made.
#[derive(Drop)]
pub struct Walk<M: Machine> {
    machine: M,
    walker: Walker,
    // an event that was chosen, and then there was no room for it
    waiting: Option<Event>,
    journal: Items<Event>,
    quiet: bool,
    order: u64,
    began: Snapshot<M>,
}

impl<M: Machine> Model for Walk<M> {
    ghost use Rattle.node_parts.specs.Codes.{coded-course};
    ghost use Rattle.node_parts.specs.Courses.{Course, IsOn};
    ghost use Rattle.std.specs.Prelude.{length};

    ghost Value = { Course };

    ghost coded = { coded-course };

    ghost view = { λ w. record { start = M.pair w.began.value; order = w.order; made = length w.journal } };

    ghost invariant = { λ w. IsOn (record { start = M.pair w.began.value; order = w.order; made = length w.journal })
        (M.pair w.machine) w.walker w.waiting w.journal w.quiet };
}

// Whether the actors of processes are still known to have no offers after this event, which led to the state: they are
// after a run whose thread is still ready.
fn stays_quiet<M: Machine>(machine: &M, event: &Event, quiet: bool) -> bool
    ensures { (pair : Pair) → may pair event.now ≡ true → M.pair machine.now ≡ after pair event.now
        → (quiet ≡ true → IsQuiet pair) → result ≡ true → IsQuiet (M.pair machine.now) }
{
    runs_stay_quiet();
    match *event {
        Event::Run(_, t, _) => quiet && machine.is_ready(t),
        _ => false,
    }
}

// The event of the place: the one that waits for room, or else that of the actor whose turn it is, which waits from now
// on.
fn next_event<M: Machine>(
    machine: &M,
    walker: &mut Walker,
    waiting: &mut Option<Event>,
    quiet: &mut bool,
) -> Option<Event>
    requires quiet { quiet.old ≡ true → IsQuiet (M.pair machine.now) }
    ensures event { (order : ℕ) (w : walks.Walker) → M.pair machine.now ≡ w.pair → Waits order w walker.old waiting.old
        → result ≡ option_map event_of (next_choice (words_of order) w) }
    ensures turn { (order : ℕ) (w : walks.Walker) → M.pair machine.now ≡ w.pair → Waits order w walker.old waiting.old
        → Waits order w walker.new waiting.new }
    ensures waits { waiting.new ≡ result }
    ensures quiet { quiet.new ≡ true → IsQuiet (M.pair machine.now) }
{
    turns_are_choices();
    turns_move_on();
    if let Some(event) = *waiting {
        return Some(event);
    }
    let event = walker.next(machine, quiet)?;
    *waiting = Some(event);
    Some(event)
}

impl<M: Machine> Walk<M> {
    /// The walk of the order that begins in the machine's state, from which on every event leaves less to do. Can't
    /// fail.
    pub fn begin(alloc: Global, machine: M, order: u64) -> Walk<M>
        requires { LeavesLess (M.pair machine) }
        ensures { result ≡ record { start = M.pair machine; order = order; made = 0 } }
    {
        let began = Snapshot::of(&machine);
        Walk {
            machine,
            walker: Walker::new(order),
            waiting: None,
            journal: Items::new(alloc),
            quiet: false,
            order,
            began,
        }
    }

    /// The next event happens; false where no actor has an offer. Each event lessens what is left to do. The course
    /// stays where memory runs out.
    pub fn step(&mut self) -> Result<bool, NoMemory>
        ensures next { IfOk result (λ more. (more ≡ has_next self.old) × (self.new ≡ one_further self.old)) }
        ensures less { IfOk result (λ more. more ≡ true → left (place self.new).pair < left (place self.old).pair) }
        ensures same { OnErr result (self.new ≡ self.old) }
    {
        let Some(event) = next_event(
            &self.machine,
            &mut self.walker,
            &mut self.waiting,
            &mut self.quiet,
        ) else {
            return Ok(false);
        };
        self.machine.make_room(&event)?;
        self.journal.push(event)?;
        let _executed = self.machine.apply(&event);
        self.quiet = stays_quiet(&self.machine, &event, self.quiet);
        self.waiting = None;
        Ok(true)
    }

    /// Events happen until no actor has an offer. Those that were made stay where memory runs out.
    pub fn finish(&mut self) -> Result<(), NoMemory>
        ensures goes_on { GoesOn self.old self.new }
        ensures end { OnOk result (IsAtEnd (words_of self.new.order) (place self.new)) }
    {
        'steps: loop {
            if !self.step()? {
                let _ending = self.machine.ending();
                return Ok(());
            }
        }
    }

    /// The machine.
    pub fn machine(&self) -> &M
        ensures { M.pair result.now ≡ (place self.now).pair }
    {
        &self.machine
    }

    /// The events that happened, in their order.
    pub fn journal(&self) -> &[Event]
        ensures events { result.now ≡ events self.now }
        ensures count { length result.now ≡ self.now.made }
    {
        self.journal.as_slice()
    }

    /// The machine, and the journal that led to it.
    pub fn into_parts(self) -> (M, Items<Event>)
        ensures pair { M.pair result.0 ≡ (place self).pair }
        ensures journal { result.1 ≡ events self }
        ensures count { length result.1 ≡ self.made }
        ensures legal { may_all self.start result.1 ≡ true }
        ensures state { M.pair result.0 ≡ state self.start result.1 }
    {
        let Walk {
            machine,
            walker: _,
            waiting: _,
            journal,
            quiet: _,
            order: _,
            began: _,
        } = self;
        (machine, journal)
    }
}
