// The threads.
ghost use Rattle.std.specs.Prelude.{◌<◌};

use crate::bell::Bell;
use crate::desk::{Desk, Next, Stage};
use crate::gates::{Gate, Place};
use crate::seats::{SEATS, SeatSet};
use mck_node::{Begun, Node};
use mck_word::NoMemory;
use node_machine::Machine;
use std::alloc::Global;
use std::sync::{RwLock, Wait};
use std::thread;
use std::thread::{Scope, Threads};

/// What the threads share: the desk behind its lock, and a bell for each seat.
#[derive(Drop)]
pub struct Shared<M: Machine, B: Begun> {
    desk: RwLock<Desk<M, B>>,
    bells: Vec<Bell>,
}

impl<M: Machine, B: Begun> Shared<M, B> {
    /// The node behind a lock, and the bells.
    pub fn new(node: Node<M, B>, bells: Vec<Bell>) -> Shared<M, B> {
        Shared {
            desk: RwLock::new(Desk::new(node)),
            bells,
        }
    }

    fn ring<R: Wait>(&self, rt: &R, bells: SeatSet) {
        if bells.is_empty() {
            return;
        }
        for number in 0..SEATS {
            if !bells.has(number) {
                continue;
            }
            if let Some(bell) = self.bells.get(number as usize) {
                bell.ring(rt);
            }
        }
    }

    fn sleep<R: Wait>(&self, rt: &R, number: u32) {
        if let Some(bell) = self.bells.get(number as usize) {
            bell.wait(rt);
        }
    }

    fn leave_to_caller<R: Wait>(&self, rt: &R, number: u32)
        requires { number < 72 }
    {
        self.desk.write(rt).leave_to_caller(number);
    }

    fn end<R: Wait>(&self, rt: &R, stage: Stage) {
        let bells = self.desk.write(rt).end(stage);
        self.ring(rt, bells);
    }

    /// What is left when all threads have ended.
    pub fn into_parts(self) -> (Node<M, B>, Stage) {
        let Shared { desk, bells: _ } = self;
        desk.into_inner().into_parts()
    }
}

/// A bell for each seat.
pub fn make_bells(alloc: Global) -> Result<Vec<Bell>, NoMemory> {
    let mut bells = Vec::new(alloc);
    for _ in 0..SEATS {
        bells.push(Bell::new())?;
    }
    Ok(bells)
}

// A seat that a thread serves, and whether its core is out for a run.
#[derive(Clone, Copy)]
struct Served {
    number: u32,
    is_out: bool,
    ghost few: { number < 72 },
}

impl Served {
    fn new(number: u32) -> Served
        requires { number < 72 }
    {
        Served {
            number,
            is_out: false,
        }
    }
}

// One turn of a seat, with the places behind and before it.
fn take_turn<M: Machine, B: Begun, G: Gate, R: Wait>(
    rt: &R,
    shared: &Shared<M, B>,
    gate: &G,
    served: &mut Served,
) -> Next {
    if served.is_out {
        gate.at(Place::QuantumOut(served.number));
    }
    let (bells, next) = shared.desk.write(rt).turn(served.number, served.is_out);
    shared.ring(rt, bells);
    served.is_out = next == Next::GoOut;
    if let Next::Pass(place) = next {
        gate.at(place);
    }
    next
}

// Serves seats until the threads end. It sleeps at its bell where all of them sleep.
fn serve_many<M: Machine, B: Begun, G: Gate, R: Wait>(
    rt: &R,
    shared: &Shared<M, B>,
    gate: &G,
    bell: u32,
    seats: &mut [Served],
) {
    for _ in rt.forever() {
        let mut all_sleep = true;
        for served in seats.iter_mut() {
            match take_turn(rt, shared, gate, served) {
                Next::End => return,
                Next::Sleep => {}
                _ => all_sleep = false,
            }
        }
        if all_sleep {
            shared.sleep(rt, bell);
        }
    }
}

// Serves one seat.
fn serve<M: Machine, B: Begun, G: Gate, R: Wait>(
    rt: &R,
    shared: &Shared<M, B>,
    gate: &G,
    number: u32,
)
    requires { number < 72 }
{
    let mut seats = [Served::new(number)];
    serve_many(rt, shared, gate, number, &mut seats);
}

// Starts a thread for a seat, where one can be made.
fn start<'s, 'r: 's, E, M, B, G, R>(
    scope: &Scope<'s, E>,
    rt: &'r R,
    shared: &'r Shared<M, B>,
    gate: &'r G,
    number: u32,
) -> bool
where
    M: Machine + Send + Sync,
    B: Begun + Send + Sync,
    G: Gate + Sync,
    R: Threads + Wait + Sync,
    requires { number < 72 }
{
    scope.spawn(move || serve(rt, shared, gate, number)).is_ok()
}

/// Serves all seats, each by a thread of its own. The caller serves the first one, and those for which no thread can be made.
pub fn serve_all<'r, M, B, G, R>(
    rt: &'r R,
    alloc: Global,
    shared: &'r Shared<M, B>,
    gate: &'r G,
    seats: SeatSet,
)
where
    M: Machine + Send + Sync,
    B: Begun + Send + Sync,
    G: Gate + Sync,
    R: Threads + Wait + Sync,
{
    thread::scope(thread::scope_env(), rt, |scope| {
        let mut mine = Vec::new(alloc);
        for number in 0..SEATS {
            if !seats.has(number) {
                continue;
            }
            if number > 0 && start(scope, rt, shared, gate, number) {
                continue;
            }
            shared.leave_to_caller(rt, number);
            if mine.push(Served::new(number)).is_err() {
                shared.end(rt, Stage::NoMemory);
            }
        }
        serve_many(rt, shared, gate, 0, &mut mine);
    });
}
