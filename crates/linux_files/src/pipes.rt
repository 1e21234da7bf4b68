// The pipes by their numbers.
ghost use Rattle.std.specs.Prelude.{◌≡◌, ◌≤◌, ◌<◌, ◌+◌, ◌-◌, ◌^◌, ◌++◌, [], List, None, OnOk, IfSome, ℕ, drop, is_some, length, take, true, unwrap_or};
ghost use Rattle.file_model.specs.Files.{lowest_free};
ghost use Rattle.key_rows.specs.Keeping.{kept};
ghost use Rattle.linux_files.specs.Rings.{is_counted};
ghost use Rattle.mck_word.specs.Maps.{at, change, count, cut, no_rows, put};

use crate::pipe::Pipe;
use file_tree::counts::Counts;
use key_rows::{RowTest, Rows};
use mck_word::NoMemory;
use std::alloc::Global;
use std::marker::Model;

/// The pipes by their numbers, seen as the map of their bytes beside the room of each, and the room for more.
#[derive(Drop)]
pub struct Pipes {
    rows: Rows<Pipe>,
    alloc: Global,
}

impl Model for Pipes {
    ghost use Rattle.linux_files.specs.Codes.{pipes_code};
    ghost use Rattle.linux_files.specs.Rings.{bytes_of, room_of};
    ghost use Rattle.linux_files.specs.Tables.{PipeTable};
    ghost use Rattle.mck_word.specs.Maps.{each};

    ghost Value = { PipeTable };

    ghost coded = { pipes_code };

    ghost view = { λ p. record { map = each bytes_of p.rows.map; rooms = each room_of p.rows.map; spare = p.rows.spare } };
}

/// The test of pipes of which an end is counted.
#[derive(Clone, Copy)]
struct OpenPipes<'a> {
    readers: &'a Counts,
    writers: &'a Counts,
}

impl RowTest<Pipe> for OpenPipes<'_> {
    ghost use Rattle.linux_files.specs.Rings.{is_counted};

    ghost passes = { λ t pipe bytes. is_counted t.readers.now.counts t.writers.now.counts pipe };

    fn is_kept(&self, pipe: u64, _bytes: &Pipe) -> bool {
        self.readers.has(pipe) || self.writers.has(pipe)
    }
}

#[tactic(auto, using(mck_word::specs::EachLaws::each_maps))]
impl Pipes {
    /// No pipes. Can't fail.
    pub fn new(alloc: Global) -> Pipes
        ensures map { result.map ≡ no_rows }
    {
        Pipes {
            rows: Rows::new(alloc),
            alloc,
        }
    }

    /// How many bytes a pipe has.
    pub fn len(&self, pipe: u64) -> u64
        ensures len { result ≡ length (unwrap_or (at self.now.map pipe) []) }
        ensures bound { result < 2 ^ 63 }
    {
        match self.rows.get(pipe) {
            Some(bytes) => bytes.len() as u64,
            None => 0,
        }
    }

    /// Whether there is a pipe of that number.
    pub fn has(&self, pipe: u64) -> bool
        ensures { result ≡ is_some (at self.now.map pipe) }
    {
        self.rows.get(pipe).is_some()
    }

    /// How many pipes there are.
    pub fn count(&self) -> usize
        ensures { result ≡ count self.now.map }
    {
        self.rows.len()
    }

    /// The least number of no pipe.
    pub fn first_free(&self) -> u64
        ensures lowest { result ≡ lowest_free self.now.map }
        ensures within { result ≤ count self.now.map }
    {
        self.rows.first_free()
    }

    /// Makes room for `n` more pipes.
    pub fn reserve(&mut self, n: usize) -> Result<(), NoMemory>
        ensures map { self.new.map ≡ self.old.map }
        ensures rooms { self.new.rooms ≡ self.old.rooms }
        ensures room { OnOk result (n ≤ self.new.spare) }
    {
        self.rows.reserve(n)?;
        Ok(())
    }

    /// Makes room for so many bytes of a pipe.
    pub fn reserve_bytes(&mut self, pipe: u64, end: usize) -> Result<(), NoMemory>
        ensures map { self.new.map ≡ self.old.map }
        ensures spare { self.new.spare ≡ self.old.spare }
        ensures room { OnOk result (IfSome (at self.new.rooms pipe) (λ room. end ≤ room)) }
    {
        if self.rows.get(pipe).is_some() {
            return self.rows.row_mut(pipe).reserve(self.alloc, end);
        }
        Ok(())
    }

    /// Adds a pipe without bytes under a number that is free.
    pub fn add(&mut self, pipe: u64)
        requires room { 1 ≤ self.old.spare }
        requires absent { at self.old.map pipe ≡ None }
        ensures map { self.new.map ≡ put self.old.map pipe [] }
        ensures spare { self.new.spare ≡ self.old.spare - 1 }
    {
        self.rows.insert(pipe, Pipe::new());
    }

    /// Takes a pipe out that is there.
    pub fn remove(&mut self, pipe: u64)
        requires { is_some (at self.old.map pipe) ≡ true }
        ensures map { self.new.map ≡ cut self.old.map pipe }
        ensures spare { self.new.spare ≡ self.old.spare + 1 }
    {
        let _ = self.rows.remove(pipe);
    }

    /// Takes out the pipes of which neither end is counted.
    pub fn retain(&mut self, readers: &Counts, writers: &Counts)
        ensures { self.new.map ≡ kept (λ pipe bytes. is_counted readers.now.counts writers.now.counts pipe) self.old.map }
    {
        self.rows.retain(&OpenPipes { readers, writers });
    }

    /// Takes bytes out of a pipe.
    pub fn take(&mut self, pipe: u64, into: &mut [u8])
        requires { length into.old ≤ length (unwrap_or (at self.old.map pipe) []) }
        ensures bytes { into.new ≡ take (length into.old) (unwrap_or (at self.old.map pipe) []) }
        ensures map { self.new.map ≡ change self.old.map pipe (λ (there : List ℕ). drop (length into.old) there) }
        ensures spare { self.new.spare ≡ self.old.spare }
    {
        if self.rows.get(pipe).is_some() {
            self.rows.row_mut(pipe).take(into);
        }
    }

    /// Adds bytes to a pipe.
    pub fn add_bytes(&mut self, pipe: u64, from: &[u8])
        requires { IfSome (at self.old.rooms pipe) (λ room. length (unwrap_or (at self.old.map pipe) []) + length from.now ≤ room) }
        ensures map { self.new.map ≡ change self.old.map pipe (λ (there : List ℕ). there ++ from.now) }
        ensures spare { self.new.spare ≡ self.old.spare }
    {
        if self.rows.get(pipe).is_some() {
            self.rows.row_mut(pipe).add(from);
        }
    }
}
