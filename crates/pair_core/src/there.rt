// A process that is asked about several events: it is found once.
ghost use Rattle.hybrid_model.specs.Events.{may, process_of_event};
ghost use Rattle.hybrid_model.specs.Globals.{Coherent};
ghost use Rattle.kernel_model.specs.Nodes.{is_there};
ghost use Rattle.pair_core.specs.Shown.{pair_of};
ghost use Rattle.pair_core.specs.There.{IsThere};
ghost use Rattle.std.specs.Prelude.{◌≡◌, MatchOption, false};

use crate::parts::{Parts, Side};
use file_calls::store::FileStore;
use hybrid_model::Event;
use mck_word::Pid;
use page_map::PageTable;

impl<T: PageTable + Drop, F: FileStore> Parts<T, F> {
    /// The side of the process: None exactly where the process isn't there.
    pub fn side_there(&self, p: Pid) -> Option<&Side<T>>
        requires { Coherent (pair_of T.rows F.files self.now) }
        ensures { MatchOption result (is_there (pair_of T.rows F.files self.now).node p.0 ≡ false) (λ side. IsThere T.rows F.files self.now p.0 side.now) }
    {
        if !self.lwk.node.is_there(p) {
            return None;
        }
        match self.sides.get(p.0 as u64) {
            Some(side) => Some(side),
            None => unreachable!(),
        }
    }

    /// Whether the event may happen in its process, whose side that is.
    pub fn may_there(&self, side: &Side<T>, event: Event) -> bool
        requires coherent { Coherent (pair_of T.rows F.files self.now) }
        requires there { IsThere T.rows F.files self.now (process_of_event (pair_of T.rows F.files self.now).node event) side.now }
        ensures { result ≡ may (pair_of T.rows F.files self.now) event }
    {
        self.may_on(side, event) || self.may_in(side, event)
    }
}
