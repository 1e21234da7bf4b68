// What lies under the lock.
ghost use Rattle.std.specs.Prelude.{◌<◌};

use crate::gates::Place;
use crate::seats::{Seat, SeatSet, Seating};
use crate::sleepers::Sleepers;
use crate::turns::Turn;
use mck_node::{Begun, Node};
use mck_word::NoMemory;
use node_machine::Machine;

/// Whether the threads go on: they do, all seats sleep, or memory lacks.
#[derive(Clone, Copy, PartialEq, Eq, Debug)]
pub enum Stage {
    Going,
    AllAsleep,
    NoMemory,
}

/// What a thread does behind its turn, outside the lock: takes another one, passes a place first, goes out for a core's run first, sleeps, or ends.
#[derive(Clone, Copy, PartialEq, Eq, Debug)]
pub enum Next {
    Again,
    Pass(Place),
    GoOut,
    Sleep,
    End,
}

/// The node, and which seats sleep.
#[derive(Drop)]
pub struct Desk<M: Machine, B: Begun> {
    node: Node<M, B>,
    sleepers: Sleepers,
    stage: Stage,
}

// What the seat's actors offer happens.
fn take<M: Machine, B: Begun>(
    turn: &mut Turn,
    node: &mut Node<M, B>,
    seating: &Seating,
    number: u32,
    is_out: bool,
) -> Result<(), NoMemory> {
    match seating.seat(number) {
        Some(Seat::Core(core)) => turn.of_core(node, seating, core, is_out),
        Some(Seat::Worker(guest, worker)) => turn.of_worker(node, seating, guest, worker),
        None => Ok(()),
    }
}

fn next_behind(turn: &Turn) -> Next {
    match turn.place {
        Some(place) => Next::Pass(place),
        None if turn.run_next => Next::GoOut,
        None => Next::Again,
    }
}

impl<M: Machine, B: Begun> Desk<M, B> {
    /// The node with all seats awake.
    pub fn new(node: Node<M, B>) -> Desk<M, B> {
        let seating = Seating::of(node.machine());
        Desk {
            node,
            sleepers: Sleepers::new(seating),
            stage: Stage::Going,
        }
    }

    /// The seat has no thread of its own: the caller serves it.
    pub fn leave_to_caller(&mut self, number: u32)
        requires { number < 72 }
    {
        self.sleepers.leave_to_caller(number);
    }

    /// The threads end. The answer is the bells to be rung.
    pub fn end(&mut self, stage: Stage) -> SeatSet {
        self.stage = stage;
        self.sleepers.wake_all()
    }

    // Wakes those that have work by what the turn made. A run gives others work only where the script has waited for it.
    fn wake_others(&mut self, turn: &Turn) -> SeatSet {
        let machine = self.node.machine();
        if !turn.only_runs {
            return self.sleepers.wake_those_with_work(machine);
        }
        let mut bells = SeatSet::none();
        self.sleepers.wake_for_script(machine, &mut bells);
        bells
    }

    /// A turn of the seat: what its actors offer happens. The answer is the bells to be rung, and what its thread does next.
    pub fn turn(&mut self, number: u32, is_out: bool) -> (SeatSet, Next)
        requires { number < 72 }
    {
        if self.stage != Stage::Going {
            return (SeatSet::none(), Next::End);
        }
        let mut turn = Turn::new();
        let seating = *self.sleepers.seating();
        if take(&mut turn, &mut self.node, &seating, number, is_out).is_err() {
            return (self.end(Stage::NoMemory), Next::End);
        }
        let bells = self.wake_others(&turn);
        if turn.is_cut() {
            self.sleepers.stay_awake(number);
            return (bells, next_behind(&turn));
        }
        if self.sleepers.sleep(number) {
            return (self.end(Stage::AllAsleep), Next::End);
        }
        (bells, Next::Sleep)
    }

    /// The node, and whether memory lacked.
    pub fn into_parts(self) -> (Node<M, B>, Stage) {
        let Desk {
            node,
            sleepers: _,
            stage,
        } = self;
        (node, stage)
    }
}
