// The nodes of the tree.
ghost use Rattle.std.specs.Prelude.{◌≡◌, ◌≤◌, ◌<◌, ◌+◌, ◌^◌, [], None, OnOk, OnErr, IfOk, IfSome, ℕ, Bool, false, is_some, length, map, min, option_map, find, sum_by, unwrap_or};
ghost use Rattle.std.specs.List.{list_any};
ghost use Rattle.std.specs.Option.{option_copied};
ghost use Rattle.std.specs.Vec.{vec_capacity};
ghost use Rattle.file_model.specs.Files.{Inode, empty_directory, no_node, root};
ghost use Rattle.file_model.specs.Paths.{name_in, stands_as};
ghost use Rattle.key_rows.specs.Keeping.{kept};
ghost use Rattle.mck_word.specs.Lists.{spliced};
ghost use Rattle.mck_word.specs.Maps.{at, change, count, entries, no_rows, put, total};

use crate::node::FileNode;
use key_rows::{RowTest, Rows};
use mck_word::NoMemory;
use std::alloc::Global;
use std::marker::Model;

/// How many nodes are ever made at most.
const MOST_NUMBERS: u64 = 4_294_967_296;

/// The nodes by their numbers, seen as their map, the next number, and for how many nodes there is room.
#[derive(Drop)]
pub struct Nodes {
    rows: Rows<FileNode>,
    next: u64,
}

impl Model for Nodes {
    ghost use Rattle.std.specs.Prelude.{◌≤◌, ◌-◌, min};
    ghost use Rattle.mck_word.specs.Maps.{count};
    ghost use Rattle.one_files.specs.Codes.{table_code};
    ghost use Rattle.one_files.specs.Tables.{NodeTable, most_numbers};

    ghost Value = { NodeTable };

    ghost coded = { table_code };

    ghost view = { λ n. record { map = n.rows.map; next = n.next; spare = min n.rows.spare (most_numbers - n.next) } };

    ghost invariant = { λ n. (count n.rows.map ≤ n.next) × (n.next ≤ most_numbers) };
}

impl Nodes {
    /// The root alone.
    pub fn new(alloc: Global) -> Result<Nodes, NoMemory>
        ensures { IfOk result (λ n. (n.map ≡ put no_rows root (empty_directory root None)) × (n.next ≡ 2)) }
    {
        let mut rows = Rows::new(alloc);
        rows.reserve(1)?;
        rows.put(1, FileNode::root(alloc));
        Ok(Nodes { rows, next: 2 })
    }

    /// The node of that number.
    pub fn get(&self, n: u64) -> Option<&FileNode>
        ensures { option_copied result ≡ at self.now.map n }
    {
        self.rows.get(n)
    }

    /// The nodes by their numbers.
    pub fn as_slice(&self) -> &[(u64, FileNode)]
        ensures rows { result.now ≡ entries self.now.map }
        ensures few { length result.now ≤ 2 ^ 32 }
    {
        let _next = self.next;
        self.rows.as_slice()
    }

    /// How many nodes there are.
    pub fn count(&self) -> u64
        ensures { result ≡ count self.now.map }
    {
        self.rows.len() as u64
    }

    /// The number of the next node.
    pub fn next(&self) -> u64
        ensures { result ≡ self.now.next }
    {
        self.next
    }

    /// Makes room for `n` more nodes. Also fails where 2 ^ 32 nodes were made.
    pub fn reserve(&mut self, n: u64) -> Result<(), NoMemory>
        ensures map { self.new.map ≡ self.old.map }
        ensures next { self.new.next ≡ self.old.next }
        ensures room { OnOk result (n ≤ self.new.spare) }
    {
        if n > MOST_NUMBERS - self.next {
            return Err(NoMemory);
        }
        self.rows.reserve(n as usize)?;
        Ok(())
    }

    /// Adds a node under the next number.
    pub fn add(&mut self, node: FileNode)
        requires { 1 ≤ self.old.spare }
        ensures map { self.new.map ≡ put self.old.map self.old.next node }
        ensures next { self.new.next ≡ self.old.next + 1 }
        ensures spare { self.old.spare ≤ self.new.spare + 1 }
    {
        self.rows.put(self.next, node);
        self.next += 1;
    }

    /// Takes all bytes of a file away.
    pub fn clear(&mut self, n: u64)
        ensures map { self.new.map ≡ change self.old.map n (λ (x : Inode). record x { bytes = [] }) }
        ensures next { self.new.next ≡ self.old.next }
        ensures spare { self.new.spare ≡ self.old.spare }
    {
        if self.rows.get(n).is_some() {
            self.rows.row_mut(n).clear();
        }
    }

    /// Puts bytes into a file at an offset. The spare buffer takes the place of the file's own where that is too small.
    pub fn write(&mut self, n: u64, offset: usize, from: &[u8], spare: &mut Vec<u8>)
        requires { offset + length from.now ≤ vec_capacity spare.old }
        ensures map { self.new.map ≡ change self.old.map n (λ (x : Inode). record x { bytes = spliced x.bytes offset from.now }) }
        ensures next { self.new.next ≡ self.old.next }
    {
        if self.rows.get(n).is_some() {
            self.rows.row_mut(n).write(offset, from, spare);
        }
    }

    /// Takes a node's name away.
    pub fn unname(&mut self, n: u64)
        ensures map { self.new.map ≡ change self.old.map n (λ (x : Inode). record x { name = None }) }
        ensures next { self.new.next ≡ self.old.next }
    {
        if self.rows.get(n).is_some() {
            self.rows.row_mut(n).unname();
        }
    }

    /// Takes out the nodes that don't pass the test.
    pub fn retain<T: RowTest<FileNode>>(&mut self, test: &T)
        ensures map { self.new.map ≡ kept (T.passes test.now) self.old.map }
        ensures next { self.new.next ≡ self.old.next }
    {
        self.rows.retain(test);
    }
}
