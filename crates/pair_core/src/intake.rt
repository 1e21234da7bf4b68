// Intake: the lightweight kernel takes a reply, a fault or an acknowledgement.
ghost use Rattle.hybrid_model.specs.Events.{after};
ghost use Rattle.hybrid_model.specs.declared.events.Event.TheVariants.{Intake};
ghost use Rattle.pair_core.specs.Kept.{Kept};
ghost use Rattle.pair_core.specs.KernelRoom.{HasKernelRoom, is_ack_first};
ghost use Rattle.node_machine.specs.Reached.{IsSound};
ghost use Rattle.pair_core.specs.Ready.{Ready};
ghost use Rattle.pair_core.specs.Shown.{pair_of};
ghost use Rattle.std.specs.Prelude.{◌+◌, ◌<◌, ◌≡◌, OnOk, Some};

use crate::parts::Parts;
use file_calls::store::FileStore;
use ikc_channel::Channel;
use ikc_ring::Msg;
use mck_word::{NoMemory, Pid};
use offer_laws::few;
use page_map::PageTable;

/// Whether the first message of the ring back is an acknowledgement.
fn starts_with_ack(channel: &Channel) -> bool
    ensures { result ≡ is_ack_first channel.now.to_lwk.items }
{
    matches!(channel.to_lwk.head().copied(), Some(Msg::Ack))
}

impl<T: PageTable + Drop, F: FileStore> Parts<T, F> {
    /// Makes the room that the intake of a process's next message needs.
    pub(crate) fn make_intake_room(&mut self, p: Pid) -> Result<(), NoMemory>
        requires { IsSound (pair_of T.rows F.files self.old) }
        ensures same { pair_of T.rows F.files self.new ≡ pair_of T.rows F.files self.old }
        ensures kept { Kept self.old → Kept self.new }
        ensures room { OnOk result (HasKernelRoom T.rows T.has_room F.files (Intake p) self.new) }
    {
        if self.sides.get(p.0 as u64).is_none() {
            return Ok(());
        }
        let side = self.sides.row_mut(p.0 as u64);
        if !starts_with_ack(&side.channel) {
            return Ok(());
        }
        self.lwk.make_ack_room(&mut side.task, p)
    }

    /// The first message of the ring back is taken: a reply, a fault, or the acknowledgement with which a round is
    /// over.
    pub fn intake(&mut self, p: Pid)
        requires ready { Ready (pair_of T.rows F.files self.old) (Intake p) }
        requires kept { Kept self.old }
        requires room { HasKernelRoom T.rows T.has_room F.files (Intake p) self.old }
        ensures after { pair_of T.rows F.files self.new ≡ after (pair_of T.rows F.files self.old) (Intake p) }
        ensures kept { Kept self.new }
    {
        few();
        let side = self.sides.row_mut(p.0 as u64);
        let Some(m) = side.channel.to_lwk.head().copied() else {
            return;
        };
        match m {
            Msg::Reply { q, code } => {
                self.lwk
                    .take_reply(&mut side.task, &mut side.channel, q, code)
            }
            Msg::Fault {
                worker,
                page,
                access,
            } => {
                self.lwk
                    .take_fault(&mut side.task, &mut side.channel, worker, page, access)
            }
            Msg::Ack => self.lwk.take_ack(&mut side.task, &mut side.channel, p),
            _ => {}
        }
    }
}
