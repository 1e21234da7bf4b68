// The consoles of the guests.
ghost use Rattle.std.specs.Prelude.{◌≡◌, ◌≤◌, ◌<◌, ◌+◌, ◌-◌, ◌^◌, ◌++◌, IfSome, OnOk, drop, length, slice_get, take, unwrap_or};
ghost use Rattle.std.specs.Option.{option_copied};
ghost use Rattle.std.specs.Vec.{vec_capacity};
ghost use Rattle.file_model.specs.Files.{Console as Shown};
ghost use Rattle.mck_word.specs.Maps.{at, change, keys, no_rows, put};
ghost use Rattle.one_files.specs.Guests.{console_at};

use crate::console::Console;
use key_rows::Rows;
use mck_word::NoMemory;
use std::alloc::Global;
use std::marker::Model;

/// The consoles by their guests' numbers, seen as their map beside the room for more.
#[derive(Drop)]
pub struct Consoles {
    rows: Rows<Console>,
}

impl Model for Consoles {
    ghost use Rattle.file_model.specs.Files.{Console as Shown};
    ghost use Rattle.key_rows.specs.Table.{Table, table_code};
    ghost use Rattle.one_files.specs.Codes.{console_code};
    ghost use Rattle.one_files.specs.Guests.{AreOfGuests};

    ghost Value = { Table Shown };

    ghost coded = { table_code console_code };

    ghost view = { λ c. c.rows };

    ghost invariant = { λ c. AreOfGuests c.rows.map };
}

impl Consoles {
    /// No consoles. Can't fail.
    pub fn new(alloc: Global) -> Consoles
        ensures { result ≡ record { map = no_rows; spare = 0 } }
    {
        Consoles {
            rows: Rows::new(alloc),
        }
    }

    /// The console of a guest.
    pub fn get(&self, guest: u32) -> Option<&Console>
        ensures { option_copied result ≡ at self.now.map guest }
    {
        self.rows.get(guest as u64)
    }

    /// The guest of the console at a place among all, from 0 on: None exactly past the last.
    pub fn guest_at(&self, place: u64) -> Option<u32>
        ensures guest { result ≡ slice_get (keys self.now.map) place }
        ensures few { IfSome result (λ _. place < 2 ^ 64 - 1) }
    {
        let row = self.rows.as_slice().get(place as usize)?;
        Some(row.0 as u32)
    }

    /// Makes room for one console. The contents stay, also where memory lacks.
    pub fn reserve(&mut self) -> Result<(), NoMemory>
        ensures same { self.new.map ≡ self.old.map }
        ensures room { OnOk result (1 ≤ self.new.spare) }
    {
        self.rows.reserve(1)?;
        Ok(())
    }

    /// Puts a guest's console in, in place of the one that it has.
    pub fn put(&mut self, guest: u32, console: Console)
        requires { 1 ≤ self.old.spare }
        ensures { self.new.map ≡ put self.old.map guest console }
    {
        self.rows.put(guest as u64, console);
    }

    /// Fills the buffer with bytes of a guest's input, and takes them away.
    pub fn take_input(&mut self, guest: u32, into: &mut [u8])
        requires { length into.old ≤ length (console_at self.old.map guest).input }
        ensures bytes { into.new ≡ take (length into.old) (console_at self.old.map guest).input }
        ensures rest { self.new.map ≡ change self.old.map guest (λ (c : Shown). record c { input = drop (length into.old) c.input }) }
    {
        if self.rows.get(guest as u64).is_some() {
            self.rows.row_mut(guest as u64).take_input(into);
        }
    }

    /// Adds bytes to a guest's output. The spare buffer takes the place of its own where that is too small.
    pub fn add_output(&mut self, guest: u32, from: &[u8], spare: &mut Vec<u8>)
        requires { length (console_at self.old.map guest).output + length from.now ≤ vec_capacity spare.old }
        ensures { self.new.map ≡ change self.old.map guest (λ (c : Shown). record c { output = c.output ++ from.now }) }
    {
        if self.rows.get(guest as u64).is_some() {
            self.rows.row_mut(guest as u64).add_output(from, spare);
        }
    }
}
