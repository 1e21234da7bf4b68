// The descriptors of a process.
ghost use Rattle.std.specs.Prelude.{◌≡◌, ◌≤◌, ◌<◌, ◌+◌, ◌==◌, count_by, is_some, length, slice_index_or, None};
ghost use Rattle.file_model.specs.Files.{lowest_free};
ghost use Rattle.mck_word.specs.Maps.{at, count, cut, no_rows, put, some_row};
ghost use Rattle.mck_word.specs.Slots.{by_place};
ghost use Rattle.one_files.specs.Slotted.{passes};
ghost use Rattle.std.specs.List.{list_any};

use std::marker::Model;

/// The descriptors of a process, at most 64 and all below 64, seen as the map from them to the numbers of their descriptions.
#[derive(Drop)]
pub struct Descriptors {
    slots: [Option<u32>; 64],
}

impl Model for Descriptors {
    ghost use Rattle.mck_word.specs.Maps.{Map};
    ghost use Rattle.mck_word.specs.Slots.{by_place};
    ghost use Rattle.std.specs.Coded.{coded_ℕ};
    ghost use Rattle.std.specs.FinMap as map;
    ghost use Rattle.std.specs.Prelude.{ℕ};

    ghost Value = { Map ℕ };

    ghost coded = { map.code coded_ℕ coded_ℕ };

    ghost view = { λ d. by_place d.slots };
}

/// The place of the first empty slot, or the number of slots where there is none.
fn free_place(slots: &[Option<u32>]) -> usize
    ensures lowest { result ≡ lowest_free (by_place slots.now) }
    ensures empty { slice_index_or slots.now result None ≡ None }
{
    let mut place = 0;
    while place < slots.len() && slots[place].is_some() {
        place += 1;
    }
    place
}

/// How many slots are not empty.
fn used(slots: &[Option<u32>]) -> usize
    ensures is { result ≡ count_by is_some slots.now }
    ensures most { result ≤ length slots.now }
{
    slots.iter().filter(|slot| slot.is_some()).count()
}

/// Whether a slot names the description.
fn some_names(slots: &[Option<u32>], d: u64) -> bool
    ensures { result ≡ list_any (passes (λ n. n == d)) slots.now }
{
    slots.iter().any(|slot| is_number(*slot, d))
}

/// Whether it is that number.
fn is_number(slot: Option<u32>, d: u64) -> bool
    ensures { result ≡ passes (λ n. n == d) slot }
{
    match slot {
        Some(n) => u64::from(n) == d,
        None => false,
    }
}

#[tactic(auto, using(mck_word::specs::Slots::slot_maps, crate::proofs::Slots::slots))]
impl Descriptors {
    /// No descriptors.
    pub fn new() -> Descriptors
        ensures { result ≡ no_rows }
    {
        Descriptors { slots: [None; 64] }
    }

    /// The same descriptors.
    pub fn copy(&self) -> Descriptors
        ensures { result ≡ self.now }
    {
        Descriptors { slots: self.slots }
    }

    /// The description that a descriptor names.
    pub fn get(&self, fd: u32) -> Option<u32>
        ensures { result ≡ at self.now fd }
    {
        match self.slots.get(fd as usize) {
            Some(slot) => *slot,
            None => None,
        }
    }

    /// How many there are.
    pub fn count(&self) -> u32
        ensures is { result ≡ count self.now }
        ensures most { result ≤ 64 }
    {
        used(&self.slots) as u32
    }

    /// Whether one of them names the description.
    pub fn names(&self, d: u64) -> bool
        ensures { result ≡ some_row (λ fd named. named == d) self.now }
    {
        some_names(&self.slots, d)
    }

    /// The description gets the lowest free descriptor.
    pub fn add(&mut self, d: u32) -> u32
        requires { count self.old < 64 }
        ensures map { self.new ≡ put self.old (lowest_free self.old) d }
        ensures descriptor { result ≡ lowest_free self.old }
        ensures used { count self.new ≡ count self.old + 1 }
    {
        let place = free_place(&self.slots);
        self.slots[place] = Some(d);
        place as u32
    }

    /// Takes a descriptor away.
    pub fn cut(&mut self, fd: u32)
        ensures { self.new ≡ cut self.old fd }
    {
        if self.slots.get(fd as usize).is_some() {
            self.slots[fd as usize] = None;
        }
    }
}
