// Quanta as events of the two kernels.
ghost use Rattle.isa_model.specs.Memory.{page_at};
ghost use Rattle.node_quanta.specs.Happening.{Comes, IsThread, memory_of};
ghost use Rattle.rv_quantum.specs.Images.{page_with};
ghost use Rattle.rv_quantum.specs.Told.{total};
ghost use Rattle.std.specs.Prelude.{◌≡◌, ◌≤◌, None};

use crate::stale::Stale;
use mck_flags::Rights;
use mck_word::{Pid, Regs, Tid};
use node_machine::Machine;
use rv_quantum::Quanta;

/// Two kernels in which quanta happen that were computed outside their lock.
pub trait RunsQuanta: Machine {
    /// The process and the registers of the thread. None exactly where no such thread lives.
    fn regs(&self, t: Tid) -> Option<(Pid, Regs)>
        ensures { IsThread (Self.pair self.now) t.0 result };

    /// Copies the bytes of a page of the process as they are now, and answers its rights. None exactly where it is
    /// absent, and nothing is copied then.
    fn page_image(&self, p: Pid, page: u64, into: &mut [u8; 4096]) -> Option<Rights>
        ensures page { page_with result into.new ≡ page_at (memory_of (Self.pair self.now) p.0) page }
        ensures absent { result ≡ None → into.new ≡ into.old };

    /// The quanta of the thread happen on the core, one Run for each, exactly where all of them may and the state is as
    /// they saw it. The answer is how many instructions they have, or the first reason against them.
    fn run_quanta(&mut self, core: u32, t: Tid, quanta: &Quanta) -> Result<u64, Stale>
        requires { 1 ≤ total quanta.now }
        ensures { Comes core t quanta.now (Self.pair self.old) result (Self.pair self.new) };
}
