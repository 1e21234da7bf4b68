// The lists of live threads, by core and by process.
ghost use Rattle.file_model.specs.Files.{Files};
ghost use Rattle.kernel_model.specs.Nodes.{Node as KernelNode};
ghost use Rattle.kernel_tables.specs.Shown.{node_of};
ghost use Rattle.number_groups.specs.Groups.{IsNext, NoneFrom};
ghost use Rattle.pair_node.specs.Listed.{HasListRoom, HasRoomToList, if_left, IsListed, Moves, Owners, nobody, owners, touched_by, with_owner, without_gone};
ghost use Rattle.pair_node.specs.declared.members.Touched.TheVariants.{Nothing};
ghost use Rattle.std.specs.Prelude.{◌≡◌, ◌≤◌, ℕ, IfOk, MatchOption, None, OnOk, Option, Some, true};

use hybrid_model::Event;
use kernel_model::Does;
use kernel_tables::KernelTables;
use lwk_threads::ThreadTable;
use mck_word::{NoMemory, Pid, Tid};
use number_groups::Groups;
use std::alloc::Global;

/// Which threads an event may make or end: none, its own one and the next, or some of a process.
#[derive(Clone, Copy, Debug, PartialEq, Eq)]
pub enum Touched {
    Nothing,
    Own(Tid, Pid),
    Group(Pid),
}

/// The live threads by core and by process, so that those of one are found without looking at others.
#[derive(Drop)]
pub struct Members {
    pub by_core: Groups,
    pub by_process: Groups,
}

/// Which threads the event may make or end, and in which process they are.
pub fn touched_by(node: &KernelTables, event: Event) -> Touched
    ensures { (files : Files) → result ≡ touched_by (node_of node.now files) event }
{
    match event {
        Event::Trap(t) => Touched::Own(t, node.process_of_thread(t)),
        Event::Intake(p) => {
            if node.is_living(p) {
                Touched::Nothing
            } else {
                Touched::Group(p)
            }
        }
        Event::Reap(p) => Touched::Group(p),
        _ => Touched::Nothing,
    }
}

/// Whether the event neither makes nor ends a thread, whatever the tables are.
pub fn is_quiet(event: &Event) -> bool
    ensures { (node : KernelNode) → result ≡ true → touched_by node event.now ≡ Nothing }
{
    !matches!(event, Event::Trap(_) | Event::Intake(_) | Event::Reap(_))
}

impl Members {
    /// No threads. Can't fail.
    pub fn new(alloc: Global) -> Members
        ensures { (cores : ℕ) → IsListed nobody cores result }
    {
        Members {
            by_core: Groups::new(alloc),
            by_process: Groups::new(alloc),
        }
    }

    /// Makes room for one thread more. The lists stay, also where memory lacks.
    pub fn reserve(&mut self) -> Result<(), NoMemory>
        ensures by_core { self.new.by_core.map ≡ self.old.by_core.map }
        ensures by_process { self.new.by_process.map ≡ self.old.by_process.map }
        ensures room { OnOk result (HasListRoom self.new) }
    {
        self.by_core.reserve(1)?;
        self.by_process.reserve(1)?;
        Ok(())
    }

    /// Lists a thread that is in no list.
    fn add(&mut self, cores: u32, p: Pid, t: Tid)
        requires some { 1 ≤ cores }
        requires room { HasListRoom self.old }
        ensures { (f : Owners) → f t.0 ≡ None → IsListed f cores self.old → IsListed (with_owner t.0 (Some p.0) f) cores self.new }
    {
        self.by_core.insert(t.0 % cores, t.0);
        self.by_process.insert(p.0, t.0);
    }

    /// Takes a thread of the process out of the lists.
    fn take(&mut self, cores: u32, p: Pid, t: Tid)
        requires some { 1 ≤ cores }
        ensures { (f : Owners) → f t.0 ≡ Some p.0 → IsListed f cores self.old → IsListed (with_owner t.0 None f) cores self.new }
    {
        self.by_core.remove(t.0 % cores, t.0);
        self.by_process.remove(p.0, t.0);
    }

    /// Lists the thread, which was not there, where the table has it.
    fn add_if_made(&mut self, cores: u32, t: Tid, table: &ThreadTable<Does>)
        requires some { 1 ≤ cores }
        requires room { HasListRoom self.old }
        ensures { (f : Owners) → f t.0 ≡ None → IsListed f cores self.old → IsListed (with_owner t.0 (owners table.now t.0) f) cores self.new }
    {
        if let Some(thread) = table.thread(t) {
            self.add(cores, thread.pid, t);
        }
    }

    /// Takes the thread of the process out of the lists where the table has it no more.
    fn take_if_gone(&mut self, cores: u32, p: Pid, t: Tid, table: &ThreadTable<Does>)
        requires some { 1 ≤ cores }
        ensures { (f : Owners) → f t.0 ≡ Some p.0 → IsListed f cores self.old → IsListed (with_owner t.0 (if_left (owners table.now) f t.0) f) cores self.new }
    {
        if table.thread(t).is_none() {
            self.take(cores, p, t);
        }
    }

    /// Takes the threads of the process out of the lists that the table has no more.
    fn take_gone(&mut self, cores: u32, p: Pid, table: &ThreadTable<Does>)
        requires some { 1 ≤ cores }
        ensures { (f : Owners) → IsListed f cores self.old → IsListed (without_gone p.0 (owners table.now) f) cores self.new }
    {
        let mut from = 0;
        while let Some(t) = self.by_process.next(p.0, from) {
            self.take_if_gone(cores, p, Tid(t), table);
            let Some(above) = t.checked_add(1) else {
                return;
            };
            from = above;
        }
    }

    /// Brings the lists up to date after an event, by a look at the threads that it may have made or ended.
    pub fn note(&mut self, cores: u32, touched: Touched, next: Tid, table: &ThreadTable<Does>)
        requires some { 1 ≤ cores }
        requires room { HasRoomToList touched self.old }
        ensures { (f : Owners) → Moves touched next.0 f (owners table.now) → IsListed f cores self.old → IsListed (owners table.now) cores self.new }
    {
        match touched {
            Touched::Nothing => {}
            Touched::Own(t, p) => {
                self.add_if_made(cores, next, table);
                self.take_if_gone(cores, p, t, table);
            }
            Touched::Group(p) => self.take_gone(cores, p, table),
        }
    }

    /// The lowest thread of the core from there on: None exactly where there is none.
    pub fn next_on_core(&self, core: u32, from: Tid) -> Option<Tid>
        ensures { MatchOption result (NoneFrom self.now.by_core.map core from.0) (λ t. IsNext self.now.by_core.map core from.0 t.0) }
    {
        match self.by_core.next(core, from.0) {
            Some(t) => Some(Tid(t)),
            None => None,
        }
    }

    /// The lowest thread of the process from there on: None exactly where there is none.
    pub fn next_of_process(&self, p: Pid, from: Tid) -> Option<Tid>
        ensures { MatchOption result (NoneFrom self.now.by_process.map p.0 from.0) (λ t. IsNext self.now.by_process.map p.0 from.0 t.0) }
    {
        match self.by_process.next(p.0, from.0) {
            Some(t) => Some(Tid(t)),
            None => None,
        }
    }

    /// The lists of the threads of a table.
    pub fn of_table(
        alloc: Global,
        cores: u32,
        table: &ThreadTable<Does>,
    ) -> Result<Members, NoMemory>
        requires some { 1 ≤ cores }
        ensures { IfOk result (λ m. IsListed (owners table.now) cores m) }
    {
        // No thread is at or above the next number, which fits.
        let _end = table.fresh();
        let mut members = Members::new(alloc);
        let mut from = Tid(0);
        while let Some(t) = table.next(from) {
            members.reserve()?;
            members.add_if_made(cores, t, table);
            from = Tid(t.0 + 1);
        }
        Ok(members)
    }
}
