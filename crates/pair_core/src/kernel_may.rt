// When an event of the lightweight kernel may happen.
ghost use Rattle.file_model.specs.Files.{Files};
ghost use Rattle.hybrid_laws.specs.EventKinds.{is_of_linux};
ghost use Rattle.hybrid_model.specs.Events.{may, may_here};
ghost use Rattle.hybrid_model.specs.Globals.{Coherent};
ghost use Rattle.hybrid_model.specs.Reap.{may_reap};
ghost use Rattle.hybrid_model.specs.Run.{may_run_for};
ghost use Rattle.kernel_tables.specs.Shown.{node_of};
ghost use Rattle.pair_core.specs.KernelRoom.{kernel_process};
ghost use Rattle.pair_core.specs.Shown.{here_in, pair_of};
ghost use Rattle.std.specs.Prelude.{◌&&◌, ◌≡◌, ◌≤◌, not, option_map};

use crate::parts::{Parts, Side};
use file_calls::store::FileStore;
use hybrid_model::Event;
use lwk_side::may_answer;
use mck_word::{Pid, Tid};
use page_map::PageTable;

impl<T: PageTable + Drop, F: FileStore> Parts<T, F> {
    /// The process of an event of the lightweight kernel: None exactly where the event is of the Linux side.
    fn process_of(&self, event: Event) -> Option<Pid>
        ensures { (files : Files) → option_map (λ p. p.0) result ≡ kernel_process (node_of self.now.lwk.node files) event }
    {
        match event {
            Event::Run(_, t, _)
            | Event::Trap(t)
            | Event::Deliver(t)
            | Event::BeginVm(t)
            | Event::Interrupt(t)
            | Event::Wait(t) => Some(self.lwk.node.process_of_thread(t)),
            Event::Intake(p) | Event::Answer(p, _) | Event::Reap(p) => Some(p),
            Event::Script(k) => Some(self.process_of_line(k)),
            Event::Fetch(..)
            | Event::Assign(..)
            | Event::Miss(..)
            | Event::Pin(..)
            | Event::Copy(..)
            | Event::Unpin(..)
            | Event::Act(..)
            | Event::Park(..)
            | Event::Unpark(..)
            | Event::Finish(..)
            | Event::AckClear(_) => None,
        }
    }

    /// Whether the thread may execute `most` instructions on the core.
    fn may_run_for(&self, side: &Side<T>, core: u32, t: Tid, most: u32) -> bool
        requires { 1 ≤ self.now.lwk.cores }
        ensures { result ≡ may_run_for core t.0 most (here_in T.rows F.files self.now side.now) }
    {
        self.lwk.node.may_run(t)
            && t.0 % self.lwk.cores == core
            && 1 <= most
            && most <= 64
            && u64::from(most) <= self.lwk.node.left_of_limit()
    }

    /// Whether the process may be Ended.
    fn may_reap(&self, side: &Side<T>, p: Pid) -> bool
        ensures { result ≡ may_reap p.0 (here_in T.rows F.files self.now side.now) }
    {
        self.lwk.node.may_end(p)
            && side.channel.round.now().is_none()
            && side.channel.to_linux.are_empty()
            && side.channel.to_lwk.head().is_none()
    }

    /// Whether the event is of the lightweight kernel and may happen in the process.
    pub(crate) fn may_in(&self, side: &Side<T>, event: Event) -> bool
        requires { 1 ≤ self.now.lwk.cores }
        ensures { result ≡ (not (is_of_linux event) && may_here event (here_in T.rows F.files self.now side.now)) }
    {
        match event {
            Event::Run(core, t, most) => self.may_run_for(side, core, t, most),
            Event::Trap(t) => self.lwk.node.may_trap(t),
            Event::Deliver(t) => self.lwk.node.may_deliver(t),
            Event::Intake(_) => side.channel.to_lwk.head().is_some(),
            Event::Answer(_, w) => w < self.workers && may_answer(&side.task, &side.channel, w),
            Event::BeginVm(t) => self.lwk.may_begin_vm(&side.task, &side.channel, t),
            Event::Interrupt(t) => self.lwk.may_interrupt(&side.task, &side.channel, t),
            Event::Wait(t) => self.lwk.node.may_wait(t),
            Event::Reap(p) => self.may_reap(side, p),
            Event::Script(k) => self.lwk.node.may_script(k),
            Event::Fetch(..)
            | Event::Assign(..)
            | Event::Miss(..)
            | Event::Pin(..)
            | Event::Copy(..)
            | Event::Unpin(..)
            | Event::Act(..)
            | Event::Park(..)
            | Event::Unpark(..)
            | Event::Finish(..)
            | Event::AckClear(_) => false,
        }
    }

    /// Whether the event is of the lightweight kernel and may happen.
    pub fn may_kernel(&self, event: Event) -> bool
        requires { Coherent (pair_of T.rows F.files self.now) }
        ensures { result ≡ (not (is_of_linux event) && may (pair_of T.rows F.files self.now) event) }
    {
        let Some(p) = self.process_of(event) else {
            return false;
        };
        match self.sides.get(p.0 as u64) {
            Some(side) => self.lwk.node.is_there(p) && self.may_in(side, event),
            None => false,
        }
    }
}
