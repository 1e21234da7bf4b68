// Threads that sleep and are woken in order.
ghost use Rattle.futex_queues.specs.Sleep.{is_thread, waiters};
ghost use Rattle.kernel_model.specs.Nodes.{most_threads};
ghost use Rattle.std.specs.List.{list_any};
ghost use Rattle.std.specs.Prelude.{◌≡◌, ◌<◌, [], ◌∷◌, ◌++◌, OnOk, false, length};

use futex_queues::{Sleepers, Woken};
use mck_word::{NoMemory, Pid, Tid};
use std::test::Fail;

// The thread, which is asleep at no address, begins to sleep.
fn sleep(sleepers: &mut Sleepers, addr: u64, tid: Tid) -> Result<(), NoMemory>
    requires awake { list_any (is_thread tid.0) sleepers.old.list ≡ false }
    requires few { length (waiters 1 addr sleepers.old.list) < most_threads }
    ensures { OnOk result (sleepers.new.list ≡ sleepers.old.list ++ record { process = 1; address = addr; thread = tid.0 } ∷ []) }
{
    sleepers.reserve()?;
    sleepers.wait(Pid(1), addr, tid);
    Ok(())
}

#[test]
fn wakes_in_order(rt: HostRuntime) -> Result<(), Fail> {
    let mut sleepers = Sleepers::new(rt.alloc());
    let mut woken = Woken::new();
    sleep(&mut sleepers, 64, Tid(20))?;
    sleep(&mut sleepers, 68, Tid(19))?;
    sleep(&mut sleepers, 64, Tid(18))?;
    sleep(&mut sleepers, 64, Tid(17))?;
    assert_eq!(rt; sleepers.wake(Pid(2), 64, 5, &mut woken), 0);
    assert_eq!(rt; sleepers.wake(Pid(1), 64, 0, &mut woken), 0);
    assert_eq!(rt; sleepers.wake(Pid(1), 64, 1, &mut woken), 1);
    assert_eq!(rt; woken.as_slice(), [Tid(20)].as_slice());
    sleepers.leave(Tid(18));
    assert_eq!(rt; sleepers.wake(Pid(1), 64, 5, &mut woken), 1);
    assert_eq!(rt; woken.as_slice(), [Tid(17)].as_slice());
    assert_eq!(rt; sleepers.wake(Pid(1), 68, 1, &mut woken), 1);
    assert_eq!(rt; woken.as_slice(), [Tid(19)].as_slice());
    Ok(())
}
