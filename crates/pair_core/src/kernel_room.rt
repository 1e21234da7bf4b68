// Room for the events of the lightweight kernel.
ghost use Rattle.hybrid_model.specs.declared.events.Event.TheVariants.{BeginVm, Intake, Trap};
ghost use Rattle.pair_core.specs.Kept.{Kept};
ghost use Rattle.pair_core.specs.KernelRoom.{HasKernelRoom};
ghost use Rattle.node_machine.specs.Reached.{IsSound};
ghost use Rattle.pair_core.specs.Shown.{pair_of};
ghost use Rattle.std.specs.Prelude.{◌+◌, ◌<◌, ◌≡◌, OnOk};

use crate::parts::Parts;
use file_calls::store::FileStore;
use hybrid_model::Event;
use mck_word::NoMemory;
use page_map::PageTable;

impl<T: PageTable + Drop, F: FileStore> Parts<T, F> {
    /// Makes the room that the event of the lightweight kernel needs. The parts show the same, also where memory
    /// lacks.
    pub fn make_kernel_room(&mut self, event: Event) -> Result<(), NoMemory>
        requires { IsSound (pair_of T.rows F.files self.old) }
        ensures same { pair_of T.rows F.files self.new ≡ pair_of T.rows F.files self.old }
        ensures kept { Kept self.old → Kept self.new }
        ensures room { OnOk result (HasKernelRoom T.rows T.has_room F.files event self.new) }
    {
        match event {
            Event::Trap(t) => self.make_trap_room(t),
            Event::BeginVm(t) => self.make_round_room(t),
            Event::Intake(p) => self.make_intake_room(p),
            _ => Ok(()),
        }
    }
}
