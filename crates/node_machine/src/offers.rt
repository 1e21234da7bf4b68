// What a walk asks of the two kernels.
ghost use Rattle.hybrid_model.specs.Pairs.{Pair};
ghost use Rattle.mck_word.specs.Maps.{keys};
ghost use Rattle.run_model.specs.Walks.{core_offer, kernel_offer, linux_offer, offer, script_offer, worker_offer};
ghost use Rattle.std.specs.Prelude.{◌≡◌, ◌≤◌, length, map};

use hybrid_model::Event;
use mck_word::Pid;
use run_model::Actor;

/// Two kernels whose actors offer events. Each actor is asked as a whole.
pub trait Offers {
    /// Their state.
    ghost pair: { Self → Pair };

    /// How many cores there are.
    fn cores(&self) -> u32
        ensures value { result ≡ (pair self.now).cores }
        ensures some { 1 ≤ result }
        ensures few { result ≤ 8 };

    /// How many workers each proxy has.
    fn workers(&self) -> u32
        ensures value { result ≡ (pair self.now).workers }
        ensures few { result ≤ 4 };

    /// The numbers of the processes that were made, rising.
    fn processes(&self) -> &[Pid]
        ensures value { map (λ p. p.0) result.now ≡ keys (pair self.now).node.processes }
        ensures few { length result.now ≤ 1_024 };

    /// What the core offers.
    fn core_offer(&self, core: u32) -> Option<Event>
        ensures { result ≡ core_offer (pair self.now) core };

    /// What the lightweight kernel offers for the process.
    fn kernel_offer(&self, p: Pid) -> Option<Event>
        ensures { result ≡ kernel_offer (pair self.now) p.0 };

    /// What the Linux side of the process offers.
    fn linux_offer(&self, p: Pid) -> Option<Event>
        ensures { result ≡ linux_offer (pair self.now) p.0 };

    /// What the worker of the process offers.
    fn worker_offer(&self, p: Pid, w: u32) -> Option<Event>
        ensures { result ≡ worker_offer (pair self.now) p.0 w };

    /// What the script offers.
    fn script_offer(&self) -> Option<Event>
        ensures { result ≡ script_offer (pair self.now) };
}

/// The event that the actor offers, if any.
pub fn offer<M: Offers>(machine: &M, actor: Actor) -> Option<Event>
    ensures { result ≡ offer (M.pair machine.now) actor }
{
    match actor {
        Actor::Core(core) => machine.core_offer(core),
        Actor::Kernel(p) => machine.kernel_offer(p),
        Actor::Linux(p) => machine.linux_offer(p),
        Actor::Worker(p, w) => machine.worker_offer(p, w),
        Actor::Script => machine.script_offer(),
    }
}
