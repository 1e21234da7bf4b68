// Who has each core, and who has each frame.
ghost use Rattle.node_parts.specs.Partitions.{free, given_back, has_it, held, lowest_given, owner_of};
ghost use Rattle.std.specs.Prelude.{◌≡◌, ◌≤◌, ◌<◌, IfOk, None, Some, is_none, length, replicate, slice_set};

use mck_word::NoMemory;
use std::alloc::Global;
use std::marker::Model;

/// The owner of each place, if it has one: the places are the cores of a node, or its frames.
#[derive(Drop)]
pub struct Owners {
    places: Vec<Option<u32>>,
}

impl Model for Owners {
    ghost use Rattle.std.specs.Prelude.{◌≤◌, List, Option, ℕ, length};

    ghost Value = { List (Option ℕ) };

    ghost view = { λ o. o.places.items };

    ghost invariant = { λ o. length o.places.items ≤ 16_000 };
}

fn has_it(slot: &Option<u32>, i: u32) -> bool
    ensures { result ≡ has_it i slot.now }
{
    match slot {
        Some(owner) => *owner == i,
        None => false,
    }
}

// How many places the instance has.
fn count_of(places: &[Option<u32>], i: u32) -> usize
    ensures count { result ≡ held i places.now }
    ensures most { result ≤ length places.now }
{
    places.iter().filter(|slot| has_it(slot, i)).count()
}

// How many places are free.
fn count_free(places: &[Option<u32>]) -> usize
    ensures count { result ≡ free places.now }
    ensures most { result ≤ length places.now }
{
    places.iter().filter(|slot| slot.is_none()).count()
}

// The n lowest free places go to the instance.
fn give_lowest_of(places: &mut [Option<u32>], i: u32, n: u32)
    ensures { places.new ≡ lowest_given i n places.old }
{
    let mut left = n;
    for slot in places.iter_mut() {
        if left == 0 {
            return;
        }
        if slot.is_none() {
            *slot = Some(i);
            left -= 1;
        }
    }
}

// All that the instance has comes back.
fn give_back_of(places: &mut [Option<u32>], i: u32)
    ensures { places.new ≡ given_back i places.old }
{
    for slot in places.iter_mut() {
        if has_it(slot, i) {
            *slot = None;
        }
    }
}

impl Owners {
    /// So many places, and nobody has one.
    pub fn new(alloc: Global, places: u32) -> Result<Owners, NoMemory>
        requires { places ≤ 16_000 }
        ensures { IfOk result (λ owners. owners ≡ replicate places None) }
    {
        let places = vec![in alloc; None; places as usize]?;
        Ok(Owners { places })
    }

    /// How many places there are.
    pub fn len(&self) -> u32
        ensures { result ≡ length self.now }
    {
        self.places.len() as u32
    }

    /// Who has the place.
    pub fn owner(&self, place: u32) -> Option<u32>
        ensures { result ≡ owner_of place self.now }
    {
        match self.places.get(place as usize) {
            Some(owner) => *owner,
            None => None,
        }
    }

    /// How many places the instance has.
    pub fn held(&self, i: u32) -> u32
        ensures { result ≡ held i self.now }
    {
        count_of(&self.places, i) as u32
    }

    /// How many places are free.
    pub fn free(&self) -> u32
        ensures { result ≡ free self.now }
    {
        count_free(&self.places) as u32
    }

    /// The place goes to the instance.
    pub fn give(&mut self, place: u32, i: u32)
        requires { place < length self.old }
        ensures owners { self.new ≡ slice_set self.old place (Some i) }
        ensures len { length self.new ≡ length self.old }
    {
        self.places[place as usize] = Some(i);
    }

    /// The n lowest free places go to the instance.
    pub fn give_lowest(&mut self, i: u32, n: u32)
        ensures owners { self.new ≡ lowest_given i n self.old }
        ensures len { length self.new ≡ length self.old }
    {
        give_lowest_of(&mut self.places, i, n);
    }

    /// All that the instance has comes back.
    pub fn give_back(&mut self, i: u32)
        ensures owners { self.new ≡ given_back i self.old }
        ensures len { length self.new ≡ length self.old }
    {
        give_back_of(&mut self.places, i);
    }
}
