// One turn of a seat: what its actors offer happens, under one hold of the lock.
ghost use Rattle.std.specs.Prelude.{◌<◌, ◌≤◌};

use crate::gates::Place;
use crate::seats::Seating;
use hybrid_model::Event;
use kernel_model::Step;
use mck_node::{Begun, Node, Refused};
use mck_word::{NoMemory, Pid};
use node_machine::{Machine, offer};
use run_model::Actor;

// How many events a turn makes at most.
const EVENTS: u32 = 32;

// More than the place of any process.
const PROCESSES: usize = 1_024;

/// How far a turn is: how many events were made, whether all were runs of a core, the place where the thread now is, and whether the
/// seat's core goes out for a run next.
#[derive(Clone, Copy)]
pub struct Turn {
    pub events: u32,
    pub only_runs: bool,
    pub place: Option<Place>,
    pub run_next: bool,
}

impl Turn {
    /// Before the first event.
    pub fn new() -> Turn {
        Turn {
            events: 0,
            only_runs: true,
            place: None,
            run_next: false,
        }
    }

    /// Whether the thread lets go of the lock though its actors may have more offers.
    pub fn is_cut(&self) -> bool {
        self.events >= EVENTS || self.place.is_some() || self.run_next
    }

    fn note(&mut self, event: &Event) {
        self.events = self.events.saturating_add(1);
        self.only_runs = self.only_runs && is_run(event);
        self.place = place_behind(event);
    }
}

fn is_run(event: &Event) -> bool {
    matches!(event, Event::Run(_, _, _))
}

fn place_behind(event: &Event) -> Option<Place> {
    match *event {
        Event::Pin(p, worker) => Some(Place::Pinned(p, worker)),
        _ => None,
    }
}

// Whether the event takes a reply in, of which its step tells.
fn takes_reply<M: Machine>(machine: &M, event: &Event) -> bool {
    if let Event::Intake(_) = event {
        return matches!(machine.step_of(event), Some(Step::Return(_)));
    }
    false
}

fn offers_run<M: Machine>(machine: &M, core: u32) -> bool {
    match machine.core_offer(core) {
        Some(event) => is_run(&event),
        None => false,
    }
}

fn process_at<M: Machine>(machine: &M, place: usize) -> Option<Pid> {
    machine.processes().get(place).copied()
}

// An event that was offered under this hold of the lock.
fn make<M: Machine, B: Begun>(node: &mut Node<M, B>, event: &Event) -> Result<(), NoMemory> {
    match node.commit(event) {
        Err(Refused::NoMemory) => Err(NoMemory),
        _ => Ok(()),
    }
}

impl Turn {
    // What the actor offers.
    fn serve<M: Machine, B: Begun>(
        &mut self,
        node: &mut Node<M, B>,
        actor: Actor,
    ) -> Result<(), NoMemory> {
        for _ in 0..EVENTS {
            if self.is_cut() {
                break;
            }
            let Some(event) = node.go_on(actor)? else {
                break;
            };
            self.note(&event);
        }
        Ok(())
    }

    // What the kernel of the process offers.
    fn serve_kernel<M: Machine, B: Begun>(
        &mut self,
        node: &mut Node<M, B>,
        p: Pid,
    ) -> Result<(), NoMemory> {
        for _ in 0..EVENTS {
            if self.is_cut() {
                break;
            }
            let Some(event) = node.machine().kernel_offer(p) else {
                break;
            };
            let replied = takes_reply(node.machine(), &event);
            make(node, &event)?;
            self.note(&event);
            if replied {
                self.place = Some(Place::Replied(p));
            }
        }
        Ok(())
    }

    fn serve_kernels<M: Machine, B: Begun>(
        &mut self,
        node: &mut Node<M, B>,
        seating: &Seating,
        core: u32,
    ) -> Result<(), NoMemory> {
        for place in 0..PROCESSES {
            let Some(p) = process_at(node.machine(), place) else {
                break;
            };
            if seating.of_kernel(p) == core {
                self.serve_kernel(node, p)?;
            }
        }
        Ok(())
    }

    // What the core offers but runs.
    fn serve_core_inside<M: Machine, B: Begun>(
        &mut self,
        node: &mut Node<M, B>,
        core: u32,
    ) -> Result<(), NoMemory> {
        for _ in 0..EVENTS {
            if self.is_cut() {
                break;
            }
            let Some(event) = node.machine().core_offer(core) else {
                break;
            };
            if is_run(&event) {
                self.run_next = true;
                break;
            }
            make(node, &event)?;
            self.note(&event);
        }
        Ok(())
    }

    // What the core offers; runs only where it is out for one.
    fn serve_core<M: Machine, B: Begun>(
        &mut self,
        node: &mut Node<M, B>,
        core: u32,
        is_out: bool,
    ) -> Result<(), NoMemory> {
        if !is_out {
            return self.serve_core_inside(node, core);
        }
        self.serve(node, Actor::Core(core))?;
        self.run_next = self.is_cut() && offers_run(node.machine(), core);
        Ok(())
    }

    /// What the kernels of the core's processes, the script for the first core, and the core offer.
    pub fn of_core<M: Machine, B: Begun>(
        &mut self,
        node: &mut Node<M, B>,
        seating: &Seating,
        core: u32,
        is_out: bool,
    ) -> Result<(), NoMemory> {
        for _ in 0..EVENTS {
            let before = self.events;
            self.serve_kernels(node, seating, core)?;
            if core == 0 {
                self.serve(node, Actor::Script)?;
            }
            self.serve_core(node, core, is_out)?;
            if self.is_cut() || self.events == before {
                break;
            }
        }
        Ok(())
    }

    fn serve_worker<M: Machine, B: Begun>(
        &mut self,
        node: &mut Node<M, B>,
        p: Pid,
        worker: u32,
    ) -> Result<(), NoMemory> {
        if worker == 0 {
            self.serve(node, Actor::Linux(p))?;
        }
        self.serve(node, Actor::Worker(p, worker))
    }

    fn serve_workers<M: Machine, B: Begun>(
        &mut self,
        node: &mut Node<M, B>,
        seating: &Seating,
        guest: u32,
        worker: u32,
    ) -> Result<(), NoMemory> {
        for place in 0..PROCESSES {
            let Some(p) = process_at(node.machine(), place) else {
                break;
            };
            if seating.guest_of(p) == guest {
                self.serve_worker(node, p, worker)?;
            }
        }
        Ok(())
    }

    /// What the workers of that number of the guest and its children offer, and for the first number their Linux sides.
    pub fn of_worker<M: Machine, B: Begun>(
        &mut self,
        node: &mut Node<M, B>,
        seating: &Seating,
        guest: u32,
        worker: u32,
    ) -> Result<(), NoMemory> {
        for _ in 0..EVENTS {
            let before = self.events;
            self.serve_workers(node, seating, guest, worker)?;
            if self.is_cut() || self.events == before {
                break;
            }
        }
        Ok(())
    }
}
