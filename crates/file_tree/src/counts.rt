// How many there are of each number.
ghost use Rattle.std.specs.Prelude.{◌≡◌, ◌≤◌, ◌<◌, ◌+◌, ◌-◌, ◌^◌, ℕ, OnOk, nat_lt};
ghost use Rattle.file_tree.specs.Counting.{count_in, lowered, raised};
ghost use Rattle.mck_word.specs.Maps.{no_rows};

use key_rows::Rows;
use mck_word::NoMemory;
use std::alloc::Global;
use std::marker::Model;

/// How many there are of each number, seen as the map of those of which there is one, beside `spare`, how many more numbers can be
/// counted with the room that there is, and `left`, how often a count can still be raised.
#[derive(Drop)]
pub struct Counts {
    rows: Rows<u64>,
    raises: u64,
}

impl Model for Counts {
    ghost use Rattle.std.specs.Prelude.{◌≤◌, ◌-◌, ◌^◌, ℕ};
    ghost use Rattle.file_tree.specs.Counting.{count_in};
    ghost use Rattle.file_tree.specs.Codes.{tally_code};
    ghost use Rattle.file_tree.specs.Tables.{Tally};

    ghost Value = { Tally };

    ghost coded = { tally_code };

    ghost view = { λ c. record { counts = c.rows.map; spare = c.rows.spare; left = 2 ^ 64 - 1 - c.raises } };

    ghost invariant = { λ c. (n : ℕ) → count_in c.rows.map n ≤ c.raises };
}

/// One more of that number.
fn raise_row(rows: &mut Rows<u64>, n: u64)
    requires fits { count_in rows.old.map n < 2 ^ 64 - 1 }
    requires room { count_in rows.old.map n ≡ 0 → 1 ≤ rows.old.spare }
    ensures map { rows.new.map ≡ raised n rows.old.map }
    ensures takes { rows.old.spare ≤ rows.new.spare + 1 }
    ensures keeps { 0 < count_in rows.old.map n → rows.new.spare ≡ rows.old.spare }
{
    if rows.get(n).is_some() {
        *rows.row_mut(n) += 1;
    } else {
        rows.insert(n, 1);
    }
}

/// One less of that number.
fn lower_row(rows: &mut Rows<u64>, n: u64)
    ensures map { rows.new.map ≡ lowered n rows.old.map }
    ensures room { rows.old.spare ≤ rows.new.spare }
{
    match rows.get(n).copied() {
        None => {}
        Some(count) => {
            if count > 1 {
                *rows.row_mut(n) -= 1;
            } else {
                let _ = rows.remove(n);
            }
        }
    }
}

impl Counts {
    /// Nothing is counted. Can't fail.
    pub fn new(alloc: Global) -> Counts
        ensures { result ≡ record { counts = no_rows; spare = 0; left = 2 ^ 64 - 1 } }
    {
        Counts {
            rows: Rows::new(alloc),
            raises: 0,
        }
    }

    /// Whether there is one of that number.
    pub fn has(&self, n: u64) -> bool
        ensures { result ≡ nat_lt 0 (count_in self.now.counts n) }
    {
        match self.rows.get(n) {
            Some(count) => *count > 0,
            None => false,
        }
    }

    /// Makes room for `n` more numbers, and for raising counts so often.
    pub fn reserve(&mut self, n: u64) -> Result<(), NoMemory>
        ensures same { self.new.counts ≡ self.old.counts }
        ensures grows { self.old.spare ≤ self.new.spare }
        ensures left { self.new.left ≡ self.old.left }
        ensures room { OnOk result (n ≤ self.new.spare) }
        ensures raises { OnOk result (n ≤ self.new.left) }
    {
        if n > u64::MAX - self.raises {
            return Err(NoMemory);
        }
        self.rows.reserve(n as usize)?;
        Ok(())
    }

    /// One more of that number.
    pub fn raise(&mut self, n: u64)
        requires left { 1 ≤ self.old.left }
        requires room { count_in self.old.counts n ≡ 0 → 1 ≤ self.old.spare }
        ensures counts { self.new.counts ≡ raised n self.old.counts }
        ensures left { self.new.left + 1 ≡ self.old.left }
        ensures takes { self.old.spare ≤ self.new.spare + 1 }
        ensures keeps { 0 < count_in self.old.counts n → self.new.spare ≡ self.old.spare }
    {
        raise_row(&mut self.rows, n);
        self.raises += 1;
    }

    /// One less of that number.
    pub fn lower(&mut self, n: u64)
        ensures counts { self.new.counts ≡ lowered n self.old.counts }
        ensures left { self.new.left ≡ self.old.left }
        ensures room { self.old.spare ≤ self.new.spare }
    {
        lower_row(&mut self.rows, n);
    }
}
