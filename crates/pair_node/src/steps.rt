// The step of the one-kernel machine that an event stands for.
ghost use Rattle.hybrid_model.specs.Events.{of_thread};
ghost use Rattle.hybrid_model.specs.Answer.{image_of_answer};
ghost use Rattle.hybrid_model.specs.Images.{image};
ghost use Rattle.hybrid_model.specs.Intake.{image_of_intake};
ghost use Rattle.hybrid_model.specs.Interrupt.{image_of_interrupt};
ghost use Rattle.hybrid_model.specs.Park.{image_of_park};
ghost use Rattle.hybrid_model.specs.Unpark.{thread_of_request};
ghost use Rattle.hybrid_model.specs.Answer.{answer_to, thread_served};
ghost use Rattle.hybrid_model.specs.Interrupt.{is_calling};
ghost use Rattle.hybrid_model.specs.Pairs.{side_of};
ghost use Rattle.hybrid_model.specs.Sides.{call_of, served};
ghost use Rattle.lwk_side.specs.Wired.{CallersFit};
ghost use Rattle.node_machine.specs.Stepping.{executed, steps_of};
ghost use Rattle.node_machine.specs.Reached.{IsSound};
ghost use Rattle.pair_core.specs.Shown.{pair_of, shown_side};
ghost use Rattle.pair_node.specs.Steps.{listed};
ghost use Rattle.std.specs.Prelude.{◌≡◌, ◌∷◌, [], is_some};

use crate::pair::Pair;
use file_calls::store::FileStore;
use hybrid_model::Event;
use ikc_channel::Channel;
use ikc_ring::Msg;
use kernel_model::Step;
use lwk_side::{answer_to, caller_of};
use mck_word::{Pid, Req, Tid};
use offer_laws::few;
use page_map::PageTable;
use pair_core::{Parts, Side};

/// The thread of a call, or thread 0 where the book has no such request.
fn thread_of_call(channel: &Channel, q: Req) -> Tid
    ensures { result.0 ≡ (call_of channel.now.book.requests q.0).tid.0 }
{
    match channel.book.call(q) {
        Some(call) => call.tid,
        None => Tid(0),
    }
}

/// The thread of a request of the process, or thread 0.
fn thread_of_request<T: PageTable + Drop, F: FileStore>(parts: &Parts<T, F>, p: Pid, q: Req) -> Tid
    ensures { result.0 ≡ thread_of_request (side_of (pair_of T.rows F.files parts.now) p.0) q.0 }
{
    match parts.sides.get(p.0 as u64) {
        Some(side) => thread_of_call(&side.channel, q),
        None => Tid(0),
    }
}

/// The thread whose request the worker of the process serves, or thread 0.
fn thread_of_worker<T: PageTable + Drop, F: FileStore>(parts: &Parts<T, F>, p: Pid, w: u32) -> Tid
    ensures { result.0 ≡ thread_served (side_of (pair_of T.rows F.files parts.now) p.0) w }
{
    match parts.sides.get(p.0 as u64) {
        Some(side) => thread_of_call(&side.channel, side.proxy.serves(w)),
        None => Tid(0),
    }
}

/// Whether the call that the worker of the process serves was interrupted.
fn is_interrupted<T: PageTable + Drop, F: FileStore>(parts: &Parts<T, F>, p: Pid, w: u32) -> bool
    ensures { result ≡ (served (side_of (pair_of T.rows F.files parts.now) p.0).linux w).interrupted }
{
    match parts.sides.get(p.0 as u64) {
        Some(side) => side.proxy.is_interrupted(side.proxy.serves(w)),
        None => false,
    }
}

/// Whether a call of the thread of the process is under way.
fn is_calling<T: PageTable + Drop, F: FileStore>(parts: &Parts<T, F>, p: Pid, t: Tid) -> bool
    ensures { result ≡ is_calling (side_of (pair_of T.rows F.files parts.now) p.0) t.0 }
{
    match parts.sides.get(p.0 as u64) {
        Some(side) => side.task.callers.get(t.0 as u64).is_some(),
        None => false,
    }
}

/// Whether the noted fault of the worker of the process is answered by a row.
fn has_answer<T: PageTable + Drop, F: FileStore>(parts: &Parts<T, F>, p: Pid, w: u32) -> bool
    ensures { result ≡ is_some (answer_to (side_of (pair_of T.rows F.files parts.now) p.0) w) }
{
    match parts.sides.get(p.0 as u64) {
        Some(side) => answer_to(&side.task, &side.channel, w).is_some(),
        None => false,
    }
}

/// The step of the next message: a reply returns, and with an acknowledgement a change is finished.
fn step_of_message<T: PageTable + Drop>(side: &Side<T>) -> Option<Step>
    requires { CallersFit side.now.task.callers.map }
    ensures { listed result ≡ (let s = shown_side T.rows side.now in image_of_intake s.to_lwk s) }
{
    match side.channel.to_lwk.head().copied()? {
        Msg::Reply { q, .. } => {
            let t = caller_of(&side.task.callers, q).unwrap_or(Tid(0));
            Some(Step::Return(t))
        }
        Msg::Ack => {
            let t = side.task.changing.unwrap_or(Tid(0));
            Some(Step::VmFinish(t))
        }
        _ => None,
    }
}

/// The step of the intake of the process's next message.
fn step_of_intake<T: PageTable + Drop, F: FileStore>(parts: &Parts<T, F>, p: Pid) -> Option<Step>
    requires { IsSound (pair_of T.rows F.files parts.now) }
    ensures { listed result ≡ (let side = side_of (pair_of T.rows F.files parts.now) p.0 in image_of_intake side.to_lwk side) }
{
    few();
    match parts.sides.get(p.0 as u64) {
        Some(side) => step_of_message(side),
        None => None,
    }
}

/// The step of the answer to a noted fault: an empty one ends a call.
fn step_of_answer<T: PageTable + Drop, F: FileStore>(
    parts: &Parts<T, F>,
    p: Pid,
    w: u32,
) -> Option<Step>
    ensures { listed result ≡ (let side = side_of (pair_of T.rows F.files parts.now) p.0 in image_of_answer (answer_to side w) (thread_served side w)) }
{
    if has_answer(parts, p, w) {
        None
    } else {
        Some(Step::PieceFault(thread_of_worker(parts, p, w)))
    }
}

/// The step of an interruption: the call of the thread is marked, or its rest is over.
fn step_of_interrupt<T: PageTable + Drop, F: FileStore>(parts: &Parts<T, F>, t: Tid) -> Step
    ensures { result ∷ [] ≡ (let pair = pair_of T.rows F.files parts.now in image_of_interrupt (is_calling (side_of pair (of_thread pair.node t.0)) t.0) t.0) }
{
    let p = parts.lwk.node.process_of_thread(t);
    if is_calling(parts, p, t) {
        Step::Mark(t)
    } else {
        Step::Interrupted(t)
    }
}

/// The step of a worker that parks its request: the call was interrupted, or waits.
fn step_of_park<T: PageTable + Drop, F: FileStore>(parts: &Parts<T, F>, p: Pid, w: u32) -> Step
    ensures { result ∷ [] ≡ (let side = side_of (pair_of T.rows F.files parts.now) p.0 in image_of_park (served side.linux w).interrupted (thread_served side w)) }
{
    let t = thread_of_worker(parts, p, w);
    if is_interrupted(parts, p, w) {
        Step::Interrupted(t)
    } else {
        Step::Block(t)
    }
}

impl<T: PageTable + Drop, F: FileStore> Pair<T, F> {
    /// The step that the event stands for, if there is one; of a Run the step of each of its instructions.
    pub fn step_of(&self, event: &Event) -> Option<Step>
        ensures { let pair = pair_of T.rows F.files self.now.parts in image pair event.now ≡ steps_of event.now result (executed pair event.now) }
    {
        let parts = &self.parts;
        match *event {
            Event::Run(_, t, _) => Some(Step::Instr(t)),
            Event::Trap(t) => Some(Step::Trap(t)),
            Event::Deliver(t) => Some(Step::Deliver(t)),
            Event::Intake(p) => step_of_intake(parts, p),
            Event::Answer(p, w) => step_of_answer(parts, p, w),
            Event::Interrupt(t) => Some(step_of_interrupt(parts, t)),
            Event::Wait(t) => Some(Step::Wait(t)),
            Event::Reap(p) => Some(Step::End(p)),
            Event::Script(k) => Some(Step::Script(k)),
            Event::Copy(p, w) => Some(Step::Piece(thread_of_worker(parts, p, w))),
            Event::Act(p, w) => Some(Step::FileStep(thread_of_worker(parts, p, w))),
            Event::Park(p, w) => Some(step_of_park(parts, p, w)),
            Event::Unpark(p, q) => Some(Step::Wake(thread_of_request(parts, p, q))),
            Event::BeginVm(_)
            | Event::Fetch(..)
            | Event::Assign(..)
            | Event::Miss(..)
            | Event::Pin(..)
            | Event::Unpin(..)
            | Event::Finish(..)
            | Event::AckClear(_) => None,
        }
    }
}
