// Quanta as one run of a thread.
ghost use Rattle.file_model.specs.Files.{Files};
ghost use Rattle.kernel_model.specs.Nodes.{is_there};
ghost use Rattle.kernel_model.specs.Traps.{may_run};
ghost use Rattle.kernel_tables.specs.Shown.{node_of};
ghost use Rattle.node_machine.specs.Reached.{IsSound};
ghost use Rattle.pair_core.specs.Kept.{Kept};
ghost use Rattle.pair_core.specs.Shown.{pair_of};
ghost use Rattle.pair_quanta.specs.Coming.{Comes};
ghost use Rattle.rv_quantum.specs.Told.{total};
ghost use Rattle.std.specs.Prelude.{◌≡◌, ◌≤◌, ◌&&◌, ◌%◌, ◌==◌};

use file_calls::store::FileStore;
use lwk_side::Lwk;
use mck_word::{Pid, Tid};
use node_quanta::Stale;
use page_map::PageTable;
use pair_core::Parts;
use rv_quantum::Quanta;

// Whether the thread, which is of that process, may run on the core, the limit aside.
fn may_run_on(lwk: &Lwk, core: u32, t: Tid, p: Pid) -> bool
    requires { 1 ≤ lwk.now.cores }
    ensures { (files : Files) → let node = node_of lwk.now.node files in
        result ≡ (is_there node p.0 && may_run node t.0 && t.0 % lwk.now.cores == core) }
{
    lwk.node.is_there(p) && lwk.node.may_run(t) && t.0 % lwk.cores == core
}

/// The quanta of the thread happen on the core, exactly where it may run for all their instructions and all is as they
/// saw it. The answer is how many instructions they have, or the first reason against them.
pub fn run_quanta<T: PageTable + Drop, F: FileStore>(
    parts: &mut Parts<T, F>,
    core: u32,
    t: Tid,
    quanta: &Quanta,
) -> Result<u64, Stale>
    requires sound { IsSound (pair_of T.rows F.files parts.old) }
    requires kept { Kept parts.old }
    requires some { 1 ≤ total quanta.now }
    ensures comes { Comes core t quanta.now (pair_of T.rows F.files parts.old)
        result (pair_of T.rows F.files parts.new) }
    ensures kept { Kept parts.new }
{
    let p = parts.lwk.node.process_of_thread(t);
    if !may_run_on(&parts.lwk, core, t, p) {
        return Err(Stale::Halted);
    }
    let left = parts.lwk.node.left_of_limit();
    let total = u64::from(quanta.total());
    if total > left {
        return Err(Stale::Limit(left));
    }
    let Some(side) = parts.sides.get(p.0 as u64) else {
        unreachable!();
    };
    match lwk_quanta::run_quanta(&mut parts.lwk, &side.task, &side.channel, t, quanta) {
        Some(differs) => Err(Stale::Seen(differs)),
        None => Ok(total),
    }
}
