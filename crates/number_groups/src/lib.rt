//! Numbers that stand in groups, so that a group's numbers are found without looking at those of others.
//!
//! Promises: each call is a word of specs/Groups on the map of what stands in which group, beside `spare`, the number of those that
//! there is room for. The numbers of a group stand together and rise (key_rows), and the next one from a number on is found by
//! halving. What takes memory is apart from what puts a number in, which can't fail.
#![tactic(auto)]

ghost use Rattle.std.specs.Prelude.{◌≡◌, ◌+◌, ◌*◌, ◌^◌, ◌≤◌, ◌==◌, ◌&&◌, ◌||◌, ℕ, not, MatchOption, OnOk};
ghost use Rattle.mck_word.specs.Maps.{no_rows};
ghost use Rattle.number_groups.specs.Groups.{IsNext, NoneFrom, is_in, key_of, with_number, without_number};

use key_rows::Rows;
use std::alloc::{AllocError, Global};
use std::marker::Model;

/// Numbers in groups, seen as the map of what stands in which, beside the room for more.
#[derive(Drop)]
pub struct Groups {
    rows: Rows<()>,
}

impl Model for Groups {
    ghost use Rattle.key_rows.specs.Table.{Table, table_code};
    ghost use Rattle.std.specs.Coded.{codes};

    ghost Value = { Table (Unit {0}) };

    ghost coded = { table_code (Prim.hlevel codes) };

    ghost view = { λ g. g.rows };
}

/// The key of a number of a group.
fn key_of(group: u32, number: u32) -> u64
    ensures { result ≡ key_of group number }
{
    group as u64 * (1 << 32) + number as u64
}

impl Groups {
    /// No numbers. Can't fail.
    pub fn new(alloc: Global) -> Groups
        ensures { result ≡ record { map = no_rows; spare = 0 } }
    {
        Groups {
            rows: Rows::new(alloc),
        }
    }

    /// Makes room for `n` more numbers. The contents stay, also where memory lacks.
    pub fn reserve(&mut self, n: usize) -> Result<(), AllocError>
        ensures same { self.new.map ≡ self.old.map }
        ensures grows { self.old.spare ≤ self.new.spare }
        ensures room { OnOk result (n ≤ self.new.spare) }
    {
        self.rows.reserve(n)
    }

    /// Whether the number stands in the group.
    pub fn contains(&self, group: u32, number: u32) -> bool
        ensures { result ≡ is_in self.now.map group number }
    {
        self.rows.get(key_of(group, number)).is_some()
    }

    /// Puts the number into the group, where it may stand already.
    pub fn insert(&mut self, group: u32, number: u32)
        requires { 1 ≤ self.old.spare }
        ensures map { self.new.map ≡ with_number self.old.map group number }
        ensures numbers { (g n : ℕ) → is_in self.new.map g n ≡ (g == group && n == number || is_in self.old.map g n) }
        ensures takes { self.old.spare ≤ self.new.spare + 1 }
    {
        self.rows.put(key_of(group, number), ());
    }

    /// Takes the number out of the group, where it stands there.
    pub fn remove(&mut self, group: u32, number: u32)
        ensures map { self.new.map ≡ without_number self.old.map group number }
        ensures numbers { (g n : ℕ) → is_in self.new.map g n ≡ (not (g == group && n == number) && is_in self.old.map g n) }
        ensures room { self.old.spare ≤ self.new.spare }
    {
        let key = key_of(group, number);
        if self.rows.get(key).is_some() {
            let _ = self.rows.remove(key);
        }
    }

    /// The least number of the group from `from` on: None exactly where there is none.
    pub fn next(&self, group: u32, from: u32) -> Option<u32>
        ensures { MatchOption result (NoneFrom self.now.map group from) (λ n. IsNext self.now.map group from n) }
    {
        let Some(key) = self.rows.next(key_of(group, from)) else {
            return None;
        };
        if key / (1 << 32) == group as u64 {
            Some((key % (1 << 32)) as u32)
        } else {
            None
        }
    }
}
