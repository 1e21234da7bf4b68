// Intake of a reply: the thread of the request gets its answer.
ghost use Rattle.hybrid_model.specs.Intake.{caller_of, take_fault, take_reply};
ghost use Rattle.hybrid_model.specs.Rings.{rest_of};
ghost use Rattle.lwk_side.specs.Shown.{Rest, here_of, shown_caller};
ghost use Rattle.lwk_side.specs.Sound.{KeepsFrames, KeepsRings};
ghost use Rattle.lwk_side.specs.Wired.{CallersFit};
ghost use Rattle.mck_word.specs.Maps.{at, each};
ghost use Rattle.std.specs.Option.{option_copied};
ghost use Rattle.std.specs.Prelude.{◌<◌, ◌==◌, ◌≡◌, IfSome, IsSome, find, option_map};

use crate::kernel::Lwk;
use crate::task::{Caller, Task};
use ikc_channel::Channel;
use key_rows::Rows;
use mck_word::{Req, Tid};
use page_map::PageTable;

/// The first row with the number.
fn calling<'a>(rows: &'a [(u64, Caller)], q: Req) -> Option<&'a (u64, Caller)>
    ensures { option_copied result ≡ find (λ e. e.1.request.0 == q.0) rows.now }
{
    rows.iter().find(|row| row.1.request.0 == q.0)
}

/// The thread whose call has the number. A process has at most sixteen callers.
pub fn caller_of(callers: &Rows<Caller>, q: Req) -> Option<Tid>
    requires { CallersFit callers.now.map }
    ensures is { option_map (λ t. t.0) result ≡ caller_of (each shown_caller callers.now.map) q.0 }
    ensures there { IfSome result (λ t. IsSome (at callers.now.map t.0)) }
{
    match calling(callers.as_slice(), q) {
        Some(row) => Some(Tid(row.0 as u32)),
        None => None,
    }
}

#[tactic(auto, using(mck_word::specs::EachLaws::each_maps), unfolding(hybrid_model::specs::Intake::take_reply, hybrid_model::specs::Intake::take_fault))]
impl Lwk {
    /// The reply at the head of the ring is taken: the thread of the request gets its answer.
    pub fn take_reply<T: PageTable>(
        &mut self,
        task: &mut Task<T>,
        channel: &mut Channel,
        q: Req,
        code: i64,
    )
        requires { CallersFit task.old.callers.map }
        ensures event { (r : Rest) → here_of self.new (T.rows task.new.space.table) task.new channel.new r
            ≡ take_reply q.0 code (rest_of channel.old.to_lwk.items) (here_of self.old (T.rows task.old.space.table) task.old channel.old r) }
        ensures frames { KeepsFrames self.old self.new }
        ensures rings { KeepsRings channel.old channel.new }
    {
        let Some(t) = caller_of(&task.callers, q) else {
            return;
        };
        let _caller = task.callers.remove(t.0 as u64);
        let _reply = channel.to_lwk.next();
        self.node.returns(t, code);
    }
}
