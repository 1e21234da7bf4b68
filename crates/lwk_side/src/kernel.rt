// What the lightweight kernel keeps of the node.
ghost use Rattle.mck_word.specs.Maps.{at, no_rows, put};
ghost use Rattle.std.specs.Prelude.{◌≡◌, ◌<◌, ◌%◌, ◌≤◌};

use frame_mem::FrameMem;
use frame_pool::FramePool;
use kernel_tables::KernelTables;
use mck_word::Tid;
use std::marker::Model;

/// For each core the thread that acted there last.
#[derive(Drop)]
pub struct Last {
    slots: [Option<u32>; 8],
}

impl Model for Last {
    ghost use Rattle.mck_word.specs.Maps.{Map};
    ghost use Rattle.mck_word.specs.Slots.{by_place};
    ghost use Rattle.std.specs.Coded.{coded_ℕ};
    ghost use Rattle.std.specs.FinMap as map;
    ghost use Rattle.std.specs.Prelude.{ℕ};

    ghost Value = { Map ℕ };

    ghost coded = { map.code coded_ℕ coded_ℕ };

    ghost view = { λ l. by_place l.slots };
}

#[tactic(auto, using(mck_word::specs::Slots::slot_maps))]
impl Last {
    /// No thread acted.
    pub fn new() -> Last
        ensures { result ≡ no_rows }
    {
        Last { slots: [None; 8] }
    }

    /// The thread that acted last on the core.
    pub fn of(&self, core: u32) -> Option<u32>
        ensures { result ≡ at self.now core }
    {
        match self.slots.get(core as usize) {
            Some(thread) => *thread,
            None => None,
        }
    }

    /// The thread acted on the core.
    pub fn set(&mut self, core: u32, t: Tid)
        requires { core < 8 }
        ensures { self.new ≡ put self.old core t.0 }
    {
        self.slots[core as usize] = Some(t.0);
    }
}

/// The lightweight kernel: its tables, the frames and the free ones, the last thread of each core, and how many cores
/// and rings there are.
#[derive(Drop)]
pub struct Lwk {
    pub node: KernelTables,
    pub frames: FrameMem,
    pub pool: FramePool,
    pub last: Last,
    pub cores: u32,
    pub rings: u32,
}

impl Lwk {
    /// The ring of a thread.
    pub fn ring_of(&self, t: Tid) -> u32
        requires cores { 1 ≤ self.now.cores }
        requires rings { 1 ≤ self.now.rings }
        ensures { result ≡ t.0 % self.now.cores % self.now.rings }
    {
        t.0 % self.cores % self.rings
    }

    /// The thread acted on its core.
    pub fn ran_last(&mut self, t: Tid)
        requires some { 1 ≤ self.old.cores }
        requires few { self.old.cores ≤ 8 }
        ensures { self.new ≡ record self.old { last = put self.old.last (t.0 % self.old.cores) t.0 } }
    {
        self.last.set(t.0 % self.cores, t);
    }
}
