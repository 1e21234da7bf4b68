// The trap that delegates a call: its request is posted.
ghost use Rattle.hybrid_model.specs.Trap.{begin_call};
ghost use Rattle.hybrid_model.specs.Pairs.{ring_of, with_node, with_side};
ghost use Rattle.kernel_model.specs.Nodes.{set_does};
ghost use Rattle.kernel_model.specs.CallPhases.{Phase};
ghost use Rattle.kernel_model.specs.Progress.{starting};
ghost use Rattle.kernel_model.specs.declared.Does.TheVariants.{Called};
ghost use Rattle.lwk_side.specs.Sound.{KeepsFrames, KeepsRings};
ghost use Rattle.lwk_side.specs.Shown.{Rest, here_of};
ghost use Rattle.lwk_side.specs.Trapping.{CanBegin};
ghost use Rattle.lwk_side.specs.Wired.{HasPlace};
ghost use Rattle.std.specs.Prelude.{◌≡◌, ◌<◌, List};

use crate::kernel::Lwk;
use crate::task::{Caller, Task};
use ikc_channel::Channel;
use ikc_ring::{CallRequest, Msg};
use kernel_model::Does;
use mck_word::Tid;
use page_map::PageTable;
use system_calls::FileCall;

#[tactic(auto, using(mck_word::specs::EachLaws::each_maps), unfolding(hybrid_model::specs::Trap::begin_call))]
impl Lwk {
    /// A delegated call of the thread begins: it has the next number, and its Request is posted to the ring of the
    /// thread.
    pub fn begin_call<T: PageTable>(
        &mut self,
        task: &mut Task<T>,
        channel: &mut Channel,
        t: Tid,
        call: FileCall,
        args: &[u64; 6],
    )
        requires begin { CanBegin self.old task.old channel.old }
        requires place { HasPlace self.old channel.old.to_linux t.0 }
        ensures after { (r : Rest) (phases : List Phase) → here_of self.new (T.rows task.new.space.table) task.new channel.new r
            ≡ (let h = here_of self.old (T.rows task.old.space.table) task.old channel.old r in
            with_node (with_side h (begin_call (ring_of h t.0) t.0 (starting call args.now phases) h.side)) (set_does t.0 Called h.node)) }
        ensures cores { self.new.cores ≡ self.old.cores }
        ensures frames { KeepsFrames self.old self.new }
        ensures rings { KeepsRings channel.old channel.new }
    {
        let q = channel.book.fresh();
        let request = CallRequest {
            q,
            tid: t,
            call,
            args: *args,
        };
        let ring = self.ring_of(t);
        task.callers.put(
            t.0 as u64,
            Caller {
                request: channel.book.number(request),
                marked: false,
            },
        );
        channel.to_linux.post(ring, Msg::Request(request));
        self.node.set_does(t, Does::Called);
    }
}
