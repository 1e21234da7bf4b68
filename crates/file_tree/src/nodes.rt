// The nodes of the tree by their numbers.
ghost use Rattle.std.specs.Prelude.{◌≡◌, ◌≤◌, ◌<◌, ◌+◌, ◌^◌, [], Some, None, OnOk, OnErr, IfOk, IfSome, ℕ, length, option_map, slice_get};
ghost use Rattle.std.specs.Option.{option_copied};
ghost use Rattle.file_model.specs.Files.{Inode, empty_directory, root};
ghost use Rattle.file_tree.specs.Tables.{NodeRow};
ghost use Rattle.mck_word.specs.Lists.{spliced};
ghost use Rattle.mck_word.specs.Maps.{at, change, count, cut, keys, no_rows, put};

use crate::node::FileNode;
use key_rows::Rows;
use mck_word::NoMemory;
use slab::Slab;
use std::alloc::Global;
use std::marker::Model;

/// How many nodes are ever made at most.
const MOST_NUMBERS: u64 = 4_294_967_296;

/// The nodes by their numbers, which never come again. A node stays where it stands while others come and go.
#[derive(Drop)]
pub struct Nodes {
    slab: Slab<FileNode>,
    keys: Rows<usize>,
    next: u64,
}

impl Model for Nodes {
    ghost use Rattle.std.specs.Prelude.{◌-◌, min};
    ghost use Rattle.file_tree.specs.Codes.{nodes_code};
    ghost use Rattle.file_tree.specs.Shown.{AreStored, shown};
    ghost use Rattle.file_tree.specs.Tables.{NodeRow, NodeTable, most_numbers};
    ghost use Rattle.slab.specs.Slab.{slab_len};

    ghost Value = { NodeTable };

    ghost coded = { nodes_code };

    ghost view = { λ n. record {
      map = shown (λ (r : NodeRow). r.inode) n.slab n.keys.map;
      rooms = shown (λ (r : NodeRow). r.room) n.slab n.keys.map;
      keys = n.keys.map;
      next = n.next;
      spare = min (min n.keys.spare (n.slab.capacity - slab_len n.slab)) (most_numbers - n.next);
    } };

    ghost invariant = { λ n. AreStored n.slab n.keys.map n.next };
}

impl Nodes {
    /// The root alone.
    pub fn new(alloc: Global) -> Result<Nodes, NoMemory>
        ensures map { IfOk result (λ n. n.map ≡ put no_rows root (empty_directory root None)) }
        ensures next { IfOk result (λ n. n.next ≡ 2) }
    {
        let mut nodes = Nodes {
            slab: Slab::new(alloc),
            keys: Rows::new(alloc),
            next: 1,
        };
        nodes.reserve(1)?;
        nodes.add(FileNode::root(alloc));
        Ok(nodes)
    }

    /// The node of that number.
    pub fn get(&self, n: u64) -> Option<&FileNode>
        ensures inode { option_map (λ (r : NodeRow). r.inode) (option_copied result) ≡ at self.now.map n }
        ensures room { option_map (λ (r : NodeRow). r.room) (option_copied result) ≡ at self.now.rooms n }
    {
        match self.keys.get(n) {
            Some(key) => self.slab.get(*key),
            None => None,
        }
    }

    /// Where the node of that number stands.
    pub fn key(&self, n: u64) -> Option<usize>
        ensures { result ≡ at self.now.keys n }
    {
        self.keys.get(n).copied()
    }

    /// The node that stands there.
    pub fn stored(&self, key: usize) -> Option<&FileNode>
        ensures { (n : ℕ) → at self.now.keys n ≡ Some key → option_map (λ (r : NodeRow). r.inode) (option_copied result) ≡ at self.now.map n }
    {
        self.slab.get(key)
    }

    /// How many nodes there are.
    pub fn count(&self) -> u64
        ensures { result ≡ count self.now.map }
    {
        self.keys.len() as u64
    }

    /// The number of the node at a place among all, from 0 on: None exactly past the last.
    pub fn number_at(&self, place: u64) -> Option<u64>
        ensures { result ≡ slice_get (keys self.now.map) place }
    {
        let rows = self.keys.as_slice();
        if place >= rows.len() as u64 {
            return None;
        }
        Some(rows[place as usize].0)
    }

    /// The number of the next node.
    pub fn next(&self) -> u64
        ensures { result ≡ self.now.next }
    {
        self.next
    }

    /// Makes room for `n` more nodes. Also fails where 2 ^ 32 nodes were made.
    pub fn reserve(&mut self, n: u64) -> Result<(), NoMemory>
        ensures map { self.new.map ≡ self.old.map }
        ensures rooms { self.new.rooms ≡ self.old.rooms }
        ensures keys { self.new.keys ≡ self.old.keys }
        ensures next { self.new.next ≡ self.old.next }
        ensures room { OnOk result (n ≤ self.new.spare) }
    {
        if n > MOST_NUMBERS - self.next {
            return Err(NoMemory);
        }
        self.keys.reserve(n as usize)?;
        self.slab.reserve(n as usize)?;
        Ok(())
    }

    /// Adds a node under the next number, and answers where it stands.
    pub fn add(&mut self, node: FileNode) -> usize
        requires room { 1 ≤ self.old.spare }
        requires number { node.number ≡ self.old.next }
        ensures fresh { at self.old.map self.old.next ≡ None }
        ensures free { at self.old.keys self.old.next ≡ None }
        ensures map { self.new.map ≡ put self.old.map self.old.next node.inode }
        ensures keys { self.new.keys ≡ put self.old.keys self.old.next result }
        ensures next { self.new.next ≡ self.old.next + 1 }
        ensures spare { self.old.spare ≤ self.new.spare + 1 }
    {
        let key = self.slab.insert_reserved(node);
        self.keys.insert(self.next, key);
        self.next += 1;
        key
    }

    /// Takes a node out.
    pub fn remove(&mut self, n: u64)
        ensures map { self.new.map ≡ cut self.old.map n }
        ensures keys { self.new.keys ≡ cut self.old.keys n }
        ensures next { self.new.next ≡ self.old.next }
        ensures spare { self.old.spare ≤ self.new.spare }
    {
        match self.keys.get(n).copied() {
            None => {}
            Some(key) => {
                let _ = self.keys.remove(n);
                let _ = self.slab.remove(key);
            }
        }
    }

    /// Makes room for bytes of a file up to that end.
    pub fn reserve_bytes(&mut self, n: u64, end: usize) -> Result<(), NoMemory>
        ensures map { self.new.map ≡ self.old.map }
        ensures keys { self.new.keys ≡ self.old.keys }
        ensures next { self.new.next ≡ self.old.next }
        ensures spare { self.new.spare ≡ self.old.spare }
        ensures room { OnOk result (IfSome (at self.new.rooms n) (λ room. end ≤ room)) }
    {
        match self.keys.get(n).copied() {
            None => Ok(()),
            Some(key) => self.slab[key].reserve(end),
        }
    }

    /// Puts bytes into a file at an offset.
    pub fn write(&mut self, n: u64, offset: usize, from: &[u8])
        requires { IfSome (at self.old.rooms n) (λ room. offset + length from.now ≤ room) }
        ensures map { self.new.map ≡ change self.old.map n (λ (x : Inode). record x { bytes = spliced x.bytes offset from.now }) }
        ensures keys { self.new.keys ≡ self.old.keys }
        ensures next { self.new.next ≡ self.old.next }
        ensures spare { self.new.spare ≡ self.old.spare }
    {
        match self.keys.get(n).copied() {
            None => {}
            Some(key) => self.slab[key].write(offset, from),
        }
    }

    /// Takes all bytes of a file away.
    pub fn clear(&mut self, n: u64)
        ensures map { self.new.map ≡ change self.old.map n (λ (x : Inode). record x { bytes = [] }) }
        ensures keys { self.new.keys ≡ self.old.keys }
        ensures next { self.new.next ≡ self.old.next }
        ensures spare { self.new.spare ≡ self.old.spare }
    {
        match self.keys.get(n).copied() {
            None => {}
            Some(key) => self.slab[key].clear(),
        }
    }

    /// Takes a node's name away.
    pub fn unname(&mut self, n: u64)
        ensures map { self.new.map ≡ change self.old.map n (λ (x : Inode). record x { name = None }) }
        ensures keys { self.new.keys ≡ self.old.keys }
        ensures next { self.new.next ≡ self.old.next }
        ensures spare { self.new.spare ≡ self.old.spare }
    {
        match self.keys.get(n).copied() {
            None => {}
            Some(key) => self.slab[key].unname(),
        }
    }
}
