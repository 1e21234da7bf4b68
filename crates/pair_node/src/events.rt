// The events, each as a method of the parts.
ghost use Rattle.hybrid_model.specs.Events.{after};
ghost use Rattle.node_machine.specs.Stepping.{executed};
ghost use Rattle.pair_core.specs.Kept.{Kept};
ghost use Rattle.pair_core.specs.Ready.{Ready};
ghost use Rattle.pair_core.specs.Shown.{pair_of};
ghost use Rattle.pair_node.specs.Room.{HasRoom};
ghost use Rattle.std.specs.Prelude.{◌≡◌};

use file_calls::store::FileStore;
use hybrid_model::Event;
use page_map::PageTable;
use pair_core::Parts;
use std::alloc::Global;

/// The event happens, for which there is room.
fn happens<T: PageTable + Drop, F: FileStore>(parts: &mut Parts<T, F>, alloc: Global, event: Event)
    requires ready { Ready (pair_of T.rows F.files parts.old) event }
    requires kept { Kept parts.old }
    requires room { HasRoom T.rows T.has_room F.room F.can_write F.files event parts.old }
    ensures after { pair_of T.rows F.files parts.new ≡ after (pair_of T.rows F.files parts.old) event }
    ensures kept { Kept parts.new }
{
    match event {
        Event::Run(core, t, most) => {
            parts.run(core, t, most);
        }
        Event::Trap(t) => parts.trap_or_fork(t),
        Event::Deliver(t) => parts.deliver(t),
        Event::Intake(p) => parts.intake(p),
        Event::Answer(p, w) => parts.answer(p, w),
        Event::BeginVm(t) => parts.begin_vm(t),
        Event::Interrupt(t) => parts.interrupt(t),
        Event::Reap(p) => parts.reap(alloc, p),
        Event::Script(k) => parts.script(k),
        Event::Wait(t) => parts.wait(t),
        Event::Fetch(p, r) => parts.fetch(alloc, p, r),
        Event::Assign(p, w) => parts.assign(p, w),
        Event::Miss(p, w) => parts.miss(p, w),
        Event::Pin(p, w) => parts.pin(p, w),
        Event::Copy(p, w) => parts.copy(p, w),
        Event::Unpin(p, w) => parts.unpin(p, w),
        Event::Act(p, w) => parts.act(p, w),
        Event::Park(p, w) => parts.park(p, w),
        Event::Unpark(p, q) => parts.unpark(p, q),
        Event::Finish(p, w) => parts.finish(p, w),
        Event::AckClear(p) => parts.ack_clear(p),
    }
}

/// The event happens, for which there is room. The answer is how many instructions it executed.
pub fn happen<T: PageTable + Drop, F: FileStore>(
    parts: &mut Parts<T, F>,
    alloc: Global,
    event: Event,
) -> u64
    requires ready { Ready (pair_of T.rows F.files parts.old) event }
    requires kept { Kept parts.old }
    requires room { HasRoom T.rows T.has_room F.room F.can_write F.files event parts.old }
    ensures after { pair_of T.rows F.files parts.new ≡ after (pair_of T.rows F.files parts.old) event }
    ensures executed { result ≡ executed (pair_of T.rows F.files parts.old) event }
    ensures kept { Kept parts.new }
{
    match event {
        Event::Run(core, t, most) => u64::from(parts.run(core, t, most)),
        event => {
            happens(parts, alloc, event);
            0
        }
    }
}
