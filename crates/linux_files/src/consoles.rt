// The consoles of the guests.
ghost use Rattle.std.specs.Prelude.{◌≡◌, ◌≤◌, ◌<◌, ◌+◌, ◌-◌, ◌^◌, ◌++◌, [], IfSome, OnOk, drop, length, option_map, slice_get, take, unwrap_or, ℕ};
ghost use Rattle.std.specs.Option.{option_copied};
ghost use Rattle.file_model.specs.Files.{Console as Shown};
ghost use Rattle.linux_files.specs.Consoles.{console_at};
ghost use Rattle.linux_files.specs.Tables.{ConsoleRow};
ghost use Rattle.mck_word.specs.Maps.{at, change, keys, no_rows, put};

use crate::console::Console;
use key_rows::Rows;
use mck_word::NoMemory;
use std::alloc::Global;
use std::marker::Model;

/// The consoles by their guests' numbers, seen as their map beside the room of each, and the room for more.
#[derive(Drop)]
pub struct Consoles {
    rows: Rows<Console>,
}

impl Model for Consoles {
    ghost use Rattle.linux_files.specs.Codes.{consoles_code};
    ghost use Rattle.linux_files.specs.Consoles.{AreOfGuests, console_of_row, room_of_row};
    ghost use Rattle.linux_files.specs.Tables.{ConsoleTable};
    ghost use Rattle.mck_word.specs.Maps.{each};

    ghost Value = { ConsoleTable };

    ghost coded = { consoles_code };

    ghost view = { λ c. record { map = each console_of_row c.rows.map; rooms = each room_of_row c.rows.map; spare = c.rows.spare } };

    ghost invariant = { λ c. AreOfGuests c.rows.map };
}

#[tactic(auto, using(mck_word::specs::EachLaws::each_maps))]
impl Consoles {
    /// No consoles. Can't fail.
    pub fn new(alloc: Global) -> Consoles
        ensures map { result.map ≡ no_rows }
    {
        Consoles {
            rows: Rows::new(alloc),
        }
    }

    /// The output of a guest's console.
    pub fn output(&self, guest: u32) -> Option<&[u8]>
        ensures { option_copied result ≡ option_map (λ (c : Shown). c.output) (at self.now.map guest) }
    {
        match self.rows.get(guest as u64) {
            Some(console) => Some(console.output()),
            None => None,
        }
    }

    /// How much output a console has.
    pub fn output_len(&self, guest: u32) -> u64
        ensures len { result ≡ length (console_at self.now.map guest).output }
        ensures bound { result < 2 ^ 63 }
    {
        match self.rows.get(guest as u64) {
            Some(console) => console.output().len() as u64,
            None => 0,
        }
    }

    /// How much of a console's input is left.
    pub fn input_len(&self, guest: u32) -> u64
        ensures { result ≡ length (console_at self.now.map guest).input }
    {
        match self.rows.get(guest as u64) {
            Some(console) => console.input_len() as u64,
            None => 0,
        }
    }

    /// The guest of the console at a place among all, from 0 on: None exactly past the last.
    pub fn guest_at(&self, place: u64) -> Option<u32>
        ensures guest { result ≡ slice_get (keys self.now.map) place }
        ensures few { IfSome result (λ _. place < 2 ^ 64 - 1) }
    {
        let rows = self.rows.as_slice();
        if place >= rows.len() as u64 {
            return None;
        }
        Some(rows[place as usize].0 as u32)
    }

    /// Makes room for one more console.
    pub fn reserve(&mut self) -> Result<(), NoMemory>
        ensures map { self.new.map ≡ self.old.map }
        ensures room { OnOk result (1 ≤ self.new.spare) }
    {
        self.rows.reserve(1)?;
        Ok(())
    }

    /// Makes room for output of a console up to that end.
    pub fn reserve_bytes(&mut self, guest: u32, end: usize) -> Result<(), NoMemory>
        ensures map { self.new.map ≡ self.old.map }
        ensures room { OnOk result (IfSome (at self.new.rooms guest) (λ room. end ≤ room)) }
    {
        if self.rows.get(guest as u64).is_some() {
            return self.rows.row_mut(guest as u64).reserve(end);
        }
        Ok(())
    }

    /// Puts a guest's console in.
    pub fn put(&mut self, guest: u32, console: Console)
        requires { 1 ≤ self.old.spare }
        ensures { self.new.map ≡ put self.old.map guest console.console }
    {
        self.rows.put(guest as u64, console);
    }

    /// Takes bytes of a console's input.
    pub fn take_input(&mut self, guest: u32, into: &mut [u8])
        requires { length into.old ≤ length (console_at self.old.map guest).input }
        ensures bytes { into.new ≡ take (length into.old) (console_at self.old.map guest).input }
        ensures map { self.new.map ≡ change self.old.map guest (λ (c : Shown). record c { input = drop (length into.old) c.input }) }
    {
        if self.rows.get(guest as u64).is_some() {
            self.rows.row_mut(guest as u64).take_input(into);
        }
    }

    /// Adds bytes to a console's output.
    pub fn add_output(&mut self, guest: u32, from: &[u8])
        requires { IfSome (at self.old.rooms guest) (λ room. length (console_at self.old.map guest).output + length from.now ≤ room) }
        ensures { self.new.map ≡ change self.old.map guest (λ (c : Shown). record c { output = c.output ++ from.now }) }
    {
        if self.rows.get(guest as u64).is_some() {
            self.rows.row_mut(guest as u64).add_output(from);
        }
    }
}
