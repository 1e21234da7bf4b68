// What a run asks of the parts.
ghost use Rattle.hybrid_model.specs.Journals.{ending_of_run, runs_on};
ghost use Rattle.hybrid_model.specs.Workers.{has_pin, holds};
ghost use Rattle.kernel_model.specs.Nodes.{Process as KernelProcess, ScriptLine as KernelLine, has_ended, is_living, ready_to_run, thread_of};
ghost use Rattle.mck_word.specs.Maps.{at, each_row, some_row};
ghost use Rattle.pair_core.specs.Shown.{pair_of};
ghost use Rattle.pair_offers.specs.Seeking.{thread_number};
ghost use Rattle.pair_offers.specs.declared.stance.Stance.TheVariants.{Holding, Other, Pinned};
ghost use Rattle.proxy_worker.specs.Shown.{linux_of};
ghost use Rattle.std.specs.List.{list_all, list_any};
ghost use Rattle.std.specs.Prelude.{◌&&◌, ◌≡◌, ◌-◌, ◌<◌, ◌^◌, IfSome, cond, option_map, slice_get};

use file_calls::store::FileStore;
use hybrid_model::Ending;
use kernel_model::{Does, Life};
use kernel_tables::{Process, ScriptLine};
use lwk_threads::Thread;
use mck_word::Tid;
use page_map::PageTable;
use pair_core::Parts;
use pair_offers::Stance;
use proxy_worker::Proxy;
use request_book::Book;

/// The thread that acted last on the core.
#[tactic(auto, unfolding(pair_core::specs::Shown::pair_of))]
pub fn last<T: PageTable + Drop, F: FileStore>(parts: &Parts<T, F>, core: u32) -> Option<Tid>
    ensures { option_map thread_number result ≡ at (pair_of T.rows F.files parts.now).last core }
{
    let t = parts.lwk.last.of(core)?;
    Some(Tid(t))
}

/// How a worker stands, by its proxy and the book of its process.
pub fn stance_at(proxy: &Proxy, book: &Book, w: u32) -> Stance
    ensures { result ≡ cond (has_pin (linux_of proxy.now) w) Pinned (cond (holds (linux_of proxy.now) book.now.requests w) Holding Other) }
{
    if proxy.has_pin(w) {
        Stance::Pinned
    } else if proxy.holds(w, book) {
        Stance::Holding
    } else {
        Stance::Other
    }
}

fn index_at(lines: &[ScriptLine], place: usize) -> Option<u32>
    ensures value { result ≡ option_map (λ l. l.index) (slice_get lines.now place) }
    ensures below { IfSome result (λ _. place < 2 ^ 64 - 1) }
{
    let line = lines.get(place)?;
    Some(line.index)
}

/// The index of the unsent line of the script at that place, from 0.
pub fn unsent<T: PageTable + Drop, F: FileStore>(parts: &Parts<T, F>, place: usize) -> Option<u32>
    ensures value { result ≡ option_map (λ (l : KernelLine). l.index) (slice_get (pair_of T.rows F.files parts.now).node.unsent place) }
    ensures below { IfSome result (λ _. place < 2 ^ 64 - 1) }
{
    index_at(&parts.lwk.node.unsent, place)
}

fn has_ended(life: Life) -> bool
    ensures { result ≡ has_ended life }
{
    matches!(life, Life::Ended(_))
}

fn all_ended(rows: &[(u64, Process)]) -> bool
    ensures { result ≡ list_all (λ e. has_ended e.1.life) rows.now }
{
    rows.iter().all(|row| has_ended(row.1.life))
}

/// Whether each process has ended.
fn all_have_ended<T: PageTable + Drop, F: FileStore>(parts: &Parts<T, F>) -> bool
    ensures { result ≡ each_row (λ p (x : KernelProcess). has_ended x.life) (pair_of T.rows F.files parts.now).node.processes }
{
    all_ended(parts.lwk.node.processes.rows())
}

#[tactic(auto, unfolding(pair_core::specs::Shown::pair_of))]
fn runs_on<T: PageTable + Drop, F: FileStore>(parts: &Parts<T, F>, thread: &Thread<Does>) -> bool
    ensures { result ≡ (ready_to_run thread.now.state && is_living (pair_of T.rows F.files parts.now).node thread.now.pid.0) }
{
    matches!(thread.state, Does::Ready) && parts.lwk.node.is_living(thread.pid)
}

/// Whether the thread is ready to run.
#[tactic(auto, unfolding(pair_core::specs::Shown::pair_of))]
pub fn is_ready<T: PageTable + Drop, F: FileStore>(parts: &Parts<T, F>, t: Tid) -> bool
    ensures { result ≡ ready_to_run (thread_of (pair_of T.rows F.files parts.now).node t.0).does }
{
    matches!(parts.lwk.node.does(t), Does::Ready)
}

fn some_of<T: PageTable + Drop, F: FileStore>(
    parts: &Parts<T, F>,
    rows: &[(u64, Thread<Does>)],
) -> bool
    ensures { result ≡ list_any (λ e. ready_to_run e.1.state && is_living (pair_of T.rows F.files parts.now).node e.1.pid.0) rows.now }
{
    rows.iter().any(|row| runs_on(parts, &row.1))
}

/// Whether a thread of a living process is ready to run.
fn some_runs_on<T: PageTable + Drop, F: FileStore>(parts: &Parts<T, F>) -> bool
    ensures { result ≡ some_row (runs_on (pair_of T.rows F.files parts.now)) (pair_of T.rows F.files parts.now).node.threads }
{
    some_of(parts, parts.lwk.node.threads.rows())
}

/// How the run stands where no actor has an offer.
pub fn ending_of_run<T: PageTable + Drop, F: FileStore>(parts: &Parts<T, F>) -> Ending
    ensures { result ≡ ending_of_run (pair_of T.rows F.files parts.now) }
{
    if all_have_ended(parts) {
        Ending::Done
    } else if some_runs_on(parts) {
        Ending::Limit
    } else {
        Ending::Stalled
    }
}
