// Room for the events.
ghost use Rattle.pair_core.specs.Kept.{Kept};
ghost use Rattle.pair_core.specs.LinuxRoom.{HasLinuxRoom};
ghost use Rattle.node_machine.specs.Reached.{IsSound};
ghost use Rattle.pair_core.specs.Shown.{pair_of};
ghost use Rattle.pair_node.specs.Room.{HasListPlace, HasLwkRoom, HasPlace};
ghost use Rattle.std.specs.Prelude.{◌≡◌, ◌-◌, OnOk, vec_len};
ghost use Rattle.std.specs.Vec.{vec_capacity};

use crate::members::Members;
use file_calls::store::FileStore;
use hybrid_model::Event;
use mck_word::{NoMemory, Pid};
use page_map::PageTable;
use pair_core::Parts;
use std::alloc::Global;

/// Makes the room that the event needs. The parts show the same, also where memory lacks.
pub fn make_room<T: PageTable + Drop, F: FileStore>(
    parts: &mut Parts<T, F>,
    alloc: Global,
    event: Event,
) -> Result<(), NoMemory>
    requires sound { IsSound (pair_of T.rows F.files parts.old) }
    ensures same { pair_of T.rows F.files parts.new ≡ pair_of T.rows F.files parts.old }
    ensures kept { Kept parts.old → Kept parts.new }
    ensures linux { OnOk result (HasLinuxRoom F.room F.can_write F.files event parts.new) }
    ensures kernel { OnOk result (HasLwkRoom T.rows T.has_room F.room F.files event parts.new) }
{
    match event {
        Event::Trap(t) => parts.make_trap_or_fork_room(alloc, t),
        Event::BeginVm(_) | Event::Intake(_) => parts.make_kernel_room(event),
        Event::Fetch(..) | Event::Copy(..) | Event::Act(..) | Event::Unpark(..) => {
            parts.make_linux_room(event)
        }
        _ => Ok(()),
    }
}

/// Makes room for one number more, where the event is a trap, which may be a fork.
pub fn make_place(pids: &mut Vec<Pid>, event: Event) -> Result<(), NoMemory>
    ensures same { pids.new.items ≡ pids.old.items }
    ensures room { OnOk result (HasPlace event (vec_capacity pids.new - vec_len pids.new)) }
{
    if let Event::Trap(_) = event {
        pids.reserve(1)?;
    }
    Ok(())
}

/// Makes room for one thread more in the lists, where the event is a trap, which may be a clone.
pub fn make_list_room(members: &mut Members, event: Event) -> Result<(), NoMemory>
    ensures by_core { members.new.by_core.map ≡ members.old.by_core.map }
    ensures by_process { members.new.by_process.map ≡ members.old.by_process.map }
    ensures room { OnOk result (HasListPlace event members.new) }
{
    if let Event::Trap(_) = event {
        members.reserve()?;
    }
    Ok(())
}
