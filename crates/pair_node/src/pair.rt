// The parts of the two kernels in a state that they reach.
ghost use Rattle.hybrid_model.specs.Events.{after, may};
ghost use Rattle.mck_word.specs.Maps.{keys};
ghost use Rattle.pair_core.specs.Kept.{Kept};
ghost use Rattle.node_machine.specs.Reached.{IsReached, IsSound};
ghost use Rattle.node_machine.specs.Stepping.{executed};
ghost use Rattle.pair_core.specs.Shown.{pair_of};
ghost use Rattle.pair_node.specs.Listed.{IsListed, touched_by};
ghost use Rattle.pair_node.specs.Room.{HasListPlace, HasPlace, HasRoom};
ghost use Rattle.pair_node.specs.declared.members.Touched.TheVariants.{Nothing};
ghost use Rattle.thread_laws.specs.Members.{process_at};
ghost use Rattle.kernel_model.specs.Nodes.{has_process};
ghost use Rattle.std.specs.Prelude.{◌≡◌, ◌-◌, ◌<◌, ◌++◌, ◌∷◌, [], OnOk, cond, map, true, vec_len};
ghost use Rattle.std.specs.Vec.{vec_capacity};

use crate::events::happen;
use crate::members::{Members, is_quiet, touched_by};
use crate::room::{make_list_room, make_place, make_room};
use file_calls::store::FileStore;
use hybrid_model::Event;
use mck_word::{NoMemory, Pid, Tid};
use page_map::PageTable;
use pair_core::Parts;
use std::alloc::Global;

/// The two kernels in a state that they reach, beside the numbers of their processes, rising, and the lists of their
/// threads.
#[derive(Drop)]
pub struct Pair<T: PageTable, F: FileStore> {
    pub alloc: Global,
    pub parts: Parts<T, F>,
    pub pids: Vec<Pid>,
    pub members: Members,
    pub ghost sound: { ∥ IsSound (pair_of T.rows F.files parts) ∥₁ },
    pub ghost kept: { Kept parts },
    pub ghost numbered: { map (λ p. p.0) pids.items ≡ keys (pair_of T.rows F.files parts).node.processes },
    pub ghost listed: { IsListed (process_at (pair_of T.rows F.files parts).node) (pair_of T.rows F.files parts).cores members },
}

/// Notes the process of that number among the numbers, where it was made.
fn note_made<T: PageTable + Drop, F: FileStore>(pids: &mut Vec<Pid>, parts: &Parts<T, F>, p: Pid)
    requires { has_process (pair_of T.rows F.files parts.now).node p.0 ≡ true → vec_len pids.old < vec_capacity pids.old }
    ensures { pids.new.items ≡ cond (has_process (pair_of T.rows F.files parts.now).node p.0) (pids.old.items ++ p ∷ []) pids.old.items }
{
    if parts.lwk.node.has_process(p) {
        pids.push_reserved(p);
    }
}

impl<T: PageTable + Drop, F: FileStore> Pair<T, F> {
    /// The numbers of the processes that were made, rising.
    pub fn pids(&self) -> &[Pid]
        ensures { map (λ p. p.0) result.now ≡ keys (pair_of T.rows F.files self.now.parts).node.processes }
    {
        &self.pids
    }

    /// Whether the event may happen.
    pub fn may(&self, event: &Event) -> bool
        ensures { result ≡ may (pair_of T.rows F.files self.now.parts) event.now }
    {
        self.parts.may_linux(*event) || self.parts.may_kernel(*event)
    }

    /// Makes room for the event. The state stays, also when it is refused.
    pub fn make_room(&mut self, event: &Event) -> Result<(), NoMemory>
        ensures state { pair_of T.rows F.files self.new.parts ≡ pair_of T.rows F.files self.old.parts }
        ensures room { OnOk result (HasRoom T.rows T.has_room F.room F.can_write F.files event.now self.new.parts) }
        ensures place { OnOk result (HasPlace event.now (vec_capacity self.new.pids - vec_len self.new.pids)) }
        ensures lists { OnOk result (HasListPlace event.now self.new.members) }
    {
        make_place(&mut self.pids, *event)?;
        make_list_room(&mut self.members, *event)?;
        make_room(&mut self.parts, self.alloc, *event)
    }

    /// An event happens that neither makes nor ends a thread.
    fn apply_quietly(&mut self, event: &Event) -> u64
        requires may { may (pair_of T.rows F.files self.old.parts) event.now ≡ true }
        requires quiet { touched_by (pair_of T.rows F.files self.old.parts).node event.now ≡ Nothing }
        requires room { HasRoom T.rows T.has_room F.room F.can_write F.files event.now self.old.parts }
        ensures after { pair_of T.rows F.files self.new.parts ≡ after (pair_of T.rows F.files self.old.parts) event.now }
        ensures executed { result ≡ executed (pair_of T.rows F.files self.old.parts) event.now }
    {
        happen(&mut self.parts, self.alloc, *event)
    }

    /// An event happens that may make a process, and make or end threads: they are listed.
    fn apply_listed(&mut self, event: &Event) -> u64
        requires may { may (pair_of T.rows F.files self.old.parts) event.now ≡ true }
        requires room { HasRoom T.rows T.has_room F.room F.can_write F.files event.now self.old.parts }
        requires place { HasPlace event.now (vec_capacity self.old.pids - vec_len self.old.pids) }
        requires lists { HasListPlace event.now self.old.members }
        ensures after { pair_of T.rows F.files self.new.parts ≡ after (pair_of T.rows F.files self.old.parts) event.now }
        ensures executed { result ≡ executed (pair_of T.rows F.files self.old.parts) event.now }
    {
        let next = self.parts.lwk.node.next_number();
        let cores = self.parts.lwk.cores;
        let touched = touched_by(&self.parts.lwk.node, *event);
        let executed = happen(&mut self.parts, self.alloc, *event);
        note_made(&mut self.pids, &self.parts, Pid(next));
        self.members
            .note(cores, touched, Tid(next), &self.parts.lwk.node.threads);
        executed
    }

    /// The event happens, for which room was made. The answer is how many instructions it executed.
    pub fn apply(&mut self, event: &Event) -> u64
        requires may { may (pair_of T.rows F.files self.old.parts) event.now ≡ true }
        requires room { HasRoom T.rows T.has_room F.room F.can_write F.files event.now self.old.parts }
        requires place { HasPlace event.now (vec_capacity self.old.pids - vec_len self.old.pids) }
        requires lists { HasListPlace event.now self.old.members }
        ensures after { pair_of T.rows F.files self.new.parts ≡ after (pair_of T.rows F.files self.old.parts) event.now }
        ensures executed { result ≡ executed (pair_of T.rows F.files self.old.parts) event.now }
    {
        if is_quiet(event) {
            self.apply_quietly(event)
        } else {
            self.apply_listed(event)
        }
    }

    /// The state is one that the two kernels reach.
    pub fn reached(&self)
        ensures { IsReached (pair_of T.rows F.files self.now.parts) }
    {}
}
