// The request of each worker.
ghost use Rattle.std.specs.Prelude.{◌≡◌, ◌<◌, IsSome};
ghost use Rattle.mck_word.specs.Maps.{at, put, cut, no_rows};
ghost use Rattle.page_pins.specs.Pins.{most_workers};

use std::marker::Model;

/// The workers of a proxy, at most four, seen as the map from those that serve a request to its number.
#[derive(Drop)]
pub struct Workers {
    slots: [Option<u64>; 4],
}

impl Model for Workers {
    ghost use Rattle.mck_word.specs.Maps.{Map};
    ghost use Rattle.mck_word.specs.Slots.{by_place};
    ghost use Rattle.std.specs.FinMap as map;
    ghost use Rattle.std.specs.Coded.{coded_ℕ};
    ghost use Rattle.std.specs.Prelude.{ℕ};

    ghost Value = { Map ℕ };

    ghost coded = { map.code coded_ℕ coded_ℕ };

    ghost view = { λ p. by_place p.slots };
}

#[tactic(auto, using(mck_word::specs::Slots::slot_maps))]
impl Workers {
    /// No worker serves a request.
    pub fn new() -> Workers
        ensures { result ≡ no_rows }
    {
        Workers { slots: [None; 4] }
    }

    /// The request that the worker serves: None exactly where it serves none.
    pub fn of(&self, worker: u32) -> Option<u64>
        ensures { result ≡ at self.now worker }
    {
        match self.slots.get(worker as usize) {
            Some(request) => *request,
            None => None,
        }
    }

    /// The worker serves the request.
    pub fn take(&mut self, worker: u32, request: u64)
        requires { worker < most_workers }
        ensures { self.new ≡ put self.old worker request }
    {
        self.slots[worker as usize] = Some(request);
    }

    /// The worker, which serves a request, serves none.
    pub fn leave(&mut self, worker: u32)
        requires { IsSome (at self.old worker) }
        ensures { self.new ≡ cut self.old worker }
    {
        if self.slots.get(worker as usize).is_some() {
            self.slots[worker as usize] = None;
        }
    }
}
