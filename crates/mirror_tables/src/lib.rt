//! The mirror of a process's mappings, as its proxy keeps it: rows that the lightweight kernel's table gave on first access.
//!
//! Promises: the mirror is a finite map from pages to frames and rights, beside `spare`, the number of rows that there is
//! room for, and each call is a word of maps on it (specs/Mirror). Only `reserve` takes memory. The mirror is this project's
//! own, after the idea of proxy mappings that are made on first access.
#![tactic(auto)]

ghost use Rattle.std.specs.Prelude.{◌≡◌, ◌≤◌, ◌+◌, OnOk};
ghost use Rattle.mck_word.specs.Maps.{at, put, no_rows};
ghost use Rattle.key_rows.specs.Table.{key_from};
ghost use Rattle.mirror_tables.specs.Mirror.{looked_up, without_range};

use isa_model::allows;
use key_rows::Rows;
use mck_flags::Rights;
use mck_word::{Access, Frame, NoMemory, PageRange};
use std::alloc::Global;
use std::marker::Model;

/// The mirror, seen as the map from pages to their rows, beside the room for more.
#[derive(Drop)]
pub struct Mirror {
    rows: Rows<(Frame, Rights)>,
}

impl Model for Mirror {
    ghost use Rattle.key_rows.specs.Table.{Table};
    ghost use Rattle.mck_word.specs.declared.Frame.{Frame};
    ghost use Rattle.mck_flags.specs.declared.rights.Rights.{Rights};

    ghost Value = { Table (Frame × Rights) };

    ghost use Rattle.std.specs.Coded.{coded×};
    ghost use Rattle.key_rows.specs.Table.{table_code};
    ghost use Rattle.mck_word.specs.contracts.Frame as frame;
    ghost use Rattle.mck_flags.specs.contracts.rights.Rights as rights;

    ghost coded = { table_code (coded× frame.the_row.coded rights.the_row.coded) };

    ghost view = { λ m. m.rows };
}

impl Mirror {
    /// No rows. Can't fail.
    pub fn new(alloc: Global) -> Mirror
        ensures { result ≡ record { map = no_rows; spare = 0 } }
    {
        Mirror {
            rows: Rows::new(alloc),
        }
    }

    /// The row of the page: None exactly where no row has the page with the right.
    pub fn look(&self, page: u64, a: Access) -> Option<(Frame, Rights)>
        ensures { result ≡ looked_up (at self.now.map page) a }
    {
        match self.rows.get(page) {
            Some(row) => if allows(a, row.1) { Some(*row) } else { None },
            None => None,
        }
    }

    /// Makes room for one row. The contents stay, also where memory lacks.
    pub fn reserve(&mut self) -> Result<(), NoMemory>
        ensures same { self.new.map ≡ self.old.map }
        ensures grows { self.old.spare ≤ self.new.spare }
        ensures room { OnOk result (1 ≤ self.new.spare) }
    {
        self.rows.reserve(1)?;
        Ok(())
    }

    /// Puts the page's row in, in place of the one that it has.
    pub fn install(&mut self, page: u64, f: Frame, r: Rights)
        requires { 1 ≤ self.old.spare }
        ensures row { self.new.map ≡ put self.old.map page (f, r) }
        ensures takes { self.old.spare ≤ self.new.spare + 1 }
    {
        self.rows.put(page, (f, r));
    }

    /// Drops the rows of the range's pages.
    pub fn drop_range(&mut self, r: PageRange)
        ensures rest { self.new.map ≡ without_range r self.old.map }
        ensures room { self.old.spare ≤ self.new.spare }
    {
        self.rows.drop_range(r.lo, r.hi);
    }

    /// The least page with a row from there on: None exactly where there is none.
    pub fn next(&self, from: u64) -> Option<u64>
        ensures { result ≡ key_from self.now.map from }
    {
        self.rows.next(from)
    }
}
