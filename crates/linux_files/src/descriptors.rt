// The descriptors of a process.
ghost use Rattle.std.specs.Prelude.{◌≡◌, ◌≤◌, ◌<◌, ◌+◌, None, Option, count_by, is_some, length, slice_index_or};
ghost use Rattle.file_model.specs.Files.{lowest_free};
ghost use Rattle.mck_word.specs.Maps.{at, count, cut, no_rows, put};
ghost use Rattle.mck_word.specs.Slots.{by_place};

use std::marker::Model;

/// The descriptors of a process, at most 64 and all below 64, seen as the map from them to the numbers of their descriptions.
#[derive(Drop)]
pub struct Descriptors {
    slots: [Option<u32>; 64],
}

impl Model for Descriptors {
    ghost use Rattle.mck_word.specs.Maps.{Map};
    ghost use Rattle.mck_word.specs.Slots.{by_place};
    ghost use Rattle.std.specs.Coded.{coded_ℕ};
    ghost use Rattle.std.specs.FinMap as map;
    ghost use Rattle.std.specs.Prelude.{ℕ};

    ghost Value = { Map ℕ };

    ghost coded = { map.code coded_ℕ coded_ℕ };

    ghost view = { λ d. by_place d.slots };
}

/// The place of the first empty slot, or the number of slots where there is none.
fn free_place(slots: &[Option<u32>]) -> usize
    ensures lowest { result ≡ lowest_free (by_place slots.now) }
    ensures empty { slice_index_or slots.now result None ≡ None }
{
    for (place, slot) in slots.iter().enumerate() {
        if slot.is_none() {
            return place;
        }
    }
    slots.len()
}

/// How many slots are not empty.
fn used(slots: &[Option<u32>]) -> usize
    ensures is { result ≡ count_by is_some slots.now }
    ensures most { result ≤ length slots.now }
{
    slots.iter().filter(|slot| slot.is_some()).count()
}

#[tactic(auto, using(mck_word::specs::Slots::slot_maps, crate::proofs::Slots::slots))]
impl Descriptors {
    /// No descriptors.
    pub fn new() -> Descriptors
        ensures { result ≡ no_rows }
    {
        Descriptors { slots: [None; 64] }
    }

    /// The same descriptors.
    pub fn copy(&self) -> Descriptors
        ensures { result ≡ self.now }
    {
        Descriptors { slots: self.slots }
    }

    /// The description that each place names.
    pub fn as_slice(&self) -> &[Option<u32>]
        ensures places { by_place result.now ≡ self.now }
        ensures len { length result.now ≡ 64 }
    {
        &self.slots
    }

    /// The description that a descriptor names.
    pub fn get(&self, fd: u32) -> Option<u32>
        ensures { result ≡ at self.now fd }
    {
        match self.slots.get(fd as usize) {
            Some(slot) => *slot,
            None => None,
        }
    }

    /// How many there are.
    pub fn count(&self) -> u32
        ensures is { result ≡ count self.now }
        ensures most { result ≤ 64 }
    {
        used(&self.slots) as u32
    }

    /// The description gets the lowest free descriptor.
    pub fn add(&mut self, d: u32) -> u32
        requires { count self.old < 64 }
        ensures map { self.new ≡ put self.old (lowest_free self.old) d }
        ensures descriptor { result ≡ lowest_free self.old }
        ensures free { at self.old (lowest_free self.old) ≡ None }
        ensures used { count self.new ≡ count self.old + 1 }
    {
        let place = free_place(&self.slots);
        self.slots[place] = Some(d);
        place as u32
    }

    /// Takes a descriptor away.
    pub fn cut(&mut self, fd: u32)
        ensures { self.new ≡ cut self.old fd }
    {
        if self.slots.get(fd as usize).is_some() {
            self.slots[fd as usize] = None;
        }
    }
}
