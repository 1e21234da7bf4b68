//! One node of a table: 512 words, of which so many are present entries.
ghost use Rattle.std.specs.Prelude.{◌≡◌, ◌==◌, ◌<◌, count_by, slice_index, slice_set};
ghost use Rattle.sv_table.specs.Words.{empty_node, is_present};

use crate::words::is_there;
use std::alloc::AllocError;
use std::marker::Model;

/// How many entries a node has.
pub const ENTRIES: usize = 512;

/// A node, seen as its 512 words.
#[derive(Drop)]
pub struct TablePage {
    words: [u64; ENTRIES],
    used: u16,
}

impl Model for TablePage {
    ghost use Rattle.std.specs.Prelude.{List, ℕ};
    ghost use Rattle.std.specs.Coded.{coded_list, coded_ℕ};
    ghost use Rattle.sv_table.specs.Words.{IsCounted};

    ghost Value = { List ℕ };

    ghost coded = { coded_list coded_ℕ };

    ghost view = { λ n. n.words };

    ghost invariant = { λ n. IsCounted n.words n.used };
}

impl TablePage {
    /// A node without an entry.
    pub fn new() -> TablePage
        ensures { result ≡ empty_node }
    {
        TablePage {
            words: [0; ENTRIES],
            used: 0,
        }
    }

    /// The words.
    pub fn words(&self) -> &[u64]
        ensures { result.now ≡ self.now }
    {
        &self.words
    }

    /// One word.
    pub fn word(&self, i: usize) -> u64
        requires { i < 512 }
        ensures { result ≡ slice_index self.now i }
    {
        self.words[i]
    }

    /// Puts a word in place of another.
    pub fn set(&mut self, i: usize, word: u64)
        requires { i < 512 }
        ensures { self.new ≡ slice_set self.old i word }
    {
        let had = is_there(self.words[i]);
        self.words[i] = word;
        match (had, is_there(word)) {
            (false, true) => self.used += 1,
            (true, false) => self.used -= 1,
            _ => {}
        }
    }

    /// Whether no entry is present.
    pub fn is_empty(&self) -> bool
        ensures { result ≡ (count_by is_present self.now == 0) }
    {
        self.used == 0
    }
}

impl Clone for TablePage {
    ghost use Rattle.std.specs.Prelude.{◌≡◌};

    ghost is_clone = { λ a b. b ≡ a };

    fn clone(&self) -> Result<Self, AllocError> {
        Ok(TablePage {
            words: self.words,
            used: self.used,
        })
    }
}
