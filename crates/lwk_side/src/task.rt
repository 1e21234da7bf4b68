// What the lightweight kernel keeps of one process.
ghost use Rattle.mck_word.specs.Maps.{at, cut, no_rows, put};
ghost use Rattle.std.specs.Prelude.{◌≡◌, ◌<◌, IfOk, None, Some};

use key_rows::Rows;
use lwk_space::Space;
use mck_word::{Access, NoMemory, Req, Tid};
use page_map::PageTable;
use std::alloc::Global;
use std::marker::Model;

/// A fault that was taken from the ring: its page and its access.
#[derive(Drop)]
pub struct Noted {
    slots: [Option<(u64, Access)>; 4],
}

impl Model for Noted {
    ghost use Rattle.hybrid_model.specs.Sides.{Noted as Fault};
    ghost use Rattle.mck_word.specs.Maps.{Map};
    ghost use Rattle.mck_word.specs.Slots.{by_place};
    ghost use Rattle.mck_word.specs.contracts.Access as access;
    ghost use Rattle.std.specs.Coded.{coded_ℕ, coded×};
    ghost use Rattle.std.specs.FinMap as map;

    ghost Value = { Map Fault };

    ghost coded = { map.code coded_ℕ (coded× coded_ℕ access.the_row.coded) };

    ghost view = { λ n. by_place n.slots };
}

#[tactic(auto, using(mck_word::specs::Slots::slot_maps))]
impl Noted {
    /// No faults.
    pub fn new() -> Noted
        ensures { result ≡ no_rows }
    {
        Noted { slots: [None; 4] }
    }

    /// The fault of a worker: None exactly where none was taken.
    pub fn of(&self, w: u32) -> Option<(u64, Access)>
        ensures { result ≡ at self.now w }
    {
        match self.slots.get(w as usize) {
            Some(fault) => *fault,
            None => None,
        }
    }

    /// Notes the fault of a worker.
    pub fn note(&mut self, w: u32, page: u64, access: Access)
        requires { w < 4 }
        ensures { self.new ≡ put self.old w (page, access) }
    {
        self.slots[w as usize] = Some((page, access));
    }

    /// Strikes the fault of a worker.
    pub fn strike(&mut self, w: u32)
        requires { w < 4 }
        ensures { self.new ≡ cut self.old w }
    {
        self.slots[w as usize] = None;
    }
}

/// The request of a thread that is Called, and whether its interruption was asked for.
#[derive(Clone, Copy, PartialEq, Eq, Debug)]
pub struct Caller {
    pub request: Req,
    pub marked: bool,
}

/// What the lightweight kernel keeps of one process: its space, the noted faults by worker, how many rounds were
/// begun, the thread to which the round under way belongs, and the calls of its threads by thread number.
#[derive(Drop)]
pub struct Task<T: PageTable> {
    pub space: Space<T>,
    pub noted: Noted,
    pub begun: u64,
    pub changing: Option<Tid>,
    pub callers: Rows<Caller>,
}
