// The two kernels with the one-kernel machine beside them, step by step.
ghost use Rattle.hybrid_model.specs.Images.{image};
ghost use Rattle.hybrid_model.specs.Shown.{one};
ghost use Rattle.kernel_model.specs.Steps.{after_all, may_all};
ghost use Rattle.mcexec_run.specs.Lockstep.{RoomBy, run_thread, steps_by};
ghost use Rattle.mcexec_run.specs.OneCodes.{one-once};
ghost use Rattle.node_machine.specs.Reached.{IsShown};
ghost use Rattle.std.specs.Prelude.{◌≡◌, ℕ, OnOk, true};

use elf_load::Image;
use hybrid_laws::lwk_laws::every_event;
use hybrid_laws::whole::every_boot;
use hybrid_model::{Ending, Event};
use job_text::Job;
use kernel_model::Step;
use mck_word::{NoMemory, Pid, Tid};
use node_machine::{BootError, Machine, Offers, SingleKernel};
use run_summary::Summary;
use std::alloc::Global;
use told_states::every_told_state;

/// The two kernels, and the one-kernel machine in the state that they show. It is driven as the two kernels are, and what a report
/// says of it is what the one-kernel machine says of itself.
#[derive(Drop)]
pub struct Lockstep<M: Machine, O: SingleKernel> {
    pub machine: M,
    pub single: O,
    pub ghost same: { O.one single ≡ one (M.pair machine) } by { one-once (O.one single) (one (M.pair machine)) },
}

// The thread whose instructions an event executes.
fn run_thread(event: &Event) -> Option<Tid>
    ensures { result ≡ run_thread event.now }
{
    match event {
        Event::Run(_, t, _) => Some(*t),
        _ => None,
    }
}

// Room for what an event stands for.
fn make_room<O: SingleKernel>(
    single: &mut O,
    thread: Option<Tid>,
    step: Option<Step>,
) -> Result<(), NoMemory>
    requires { IsShown (O.one single.old) }
    ensures state { O.one single.new ≡ O.one single.old }
    ensures room { OnOk result ((count : ℕ) → RoomBy (O.has_room single.new) thread (steps_by thread step count)) }
{
    match thread {
        Some(_) => Ok(()),
        None => match step {
            Some(step) => single.make_room(&step),
            None => Ok(()),
        },
    }
}

// What an event stands for is done.
fn follow<O: SingleKernel>(single: &mut O, thread: Option<Tid>, step: Option<Step>, count: u64)
    requires shown { IsShown (O.one single.old) }
    requires may { may_all (O.one single.old) (steps_by thread step count) ≡ true }
    requires room { RoomBy (O.has_room single.old) thread (steps_by thread step count) }
    ensures { O.one single.new ≡ after_all (O.one single.old) (steps_by thread step count) }
{
    match thread {
        Some(t) => single.execute(t, count),
        None => {
            if let Some(step) = step {
                single.go(&step);
            }
        }
    }
}

impl<M: Machine, O: SingleKernel> Offers for Lockstep<M, O> {
    ghost pair = { λ x. M.pair x.machine };

    fn cores(&self) -> u32 {
        self.machine.cores()
    }

    fn workers(&self) -> u32 {
        self.machine.workers()
    }

    fn processes(&self) -> &[Pid] {
        self.machine.processes()
    }

    fn core_offer(&self, core: u32) -> Option<Event> {
        self.machine.core_offer(core)
    }

    fn kernel_offer(&self, p: Pid) -> Option<Event> {
        self.machine.kernel_offer(p)
    }

    fn linux_offer(&self, p: Pid) -> Option<Event> {
        self.machine.linux_offer(p)
    }

    fn worker_offer(&self, p: Pid, w: u32) -> Option<Event> {
        self.machine.worker_offer(p, w)
    }

    fn script_offer(&self) -> Option<Event> {
        self.machine.script_offer()
    }
}

impl<M: Machine, O: SingleKernel> Machine for Lockstep<M, O> {
    ghost has_room = { λ x e. M.has_room x.machine e × RoomBy (O.has_room x.single) (run_thread e) (image (M.pair x.machine) e) };

    fn boot(alloc: Global, job: &Job, images: &[Image]) -> Result<Self, BootError> {
        let machine = M::boot(alloc, job, images)?;
        every_boot();
        match O::boot(alloc, job, images) {
            Ok(single) => Ok(Lockstep { machine, single }),
            Err(NoMemory) => Err(BootError::NoMemory),
        }
    }

    fn make_room(&mut self, event: &Event) -> Result<(), NoMemory> {
        self.machine.make_room(event)?;
        self.machine.reached();
        let step = self.machine.step_of(event);
        make_room(&mut self.single, run_thread(event), step)
    }

    fn may(&self, event: &Event) -> bool {
        self.machine.may(event)
    }

    fn is_ready(&self, t: Tid) -> bool {
        self.machine.is_ready(t)
    }

    fn step_of(&self, event: &Event) -> Option<Step> {
        self.machine.step_of(event)
    }

    fn apply(&mut self, event: &Event) -> u64 {
        every_told_state();
        every_event();
        self.machine.reached();
        let step = self.machine.step_of(event);
        let executed = self.machine.apply(event);
        follow(&mut self.single, run_thread(event), step, executed);
        executed
    }

    fn reached(&self) {
        self.machine.reached();
    }

    fn ending(&self) -> Ending {
        self.machine.ending()
    }

    fn requests(&self) -> u64 {
        self.machine.requests()
    }

    fn summary(&self) -> Result<Summary, NoMemory> {
        self.single.summary()
    }
}
