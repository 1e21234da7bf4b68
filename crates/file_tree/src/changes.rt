// Changes of the tree.
ghost use Rattle.std.specs.Prelude.{◌≡◌, ◌≤◌, ◌<◌, ◌+◌, ◌^◌, [], Some, None, OnOk, IfOk, List, false, length, map, option_map, vec_len};
ghost use Rattle.std.specs.List.{insert};
ghost use Rattle.std.specs.Vec.{vec_capacity};
ghost use Rattle.file_model.specs.Files.{Inode, empty_directory, root};
ghost use Rattle.file_model.specs.Paths as paths;
ghost use Rattle.file_tree.specs.Counting.{lowered, raised};
ghost use Rattle.file_tree.specs.Index.{IsIndex, tagged};
ghost use Rattle.file_tree.specs.Tags.{Tag, place, tag_cmp, tag_in};
ghost use Rattle.file_tree.specs.Trees.{CanWrite, NodesUsed, bytes_in, files_of, settled_at, used_row};
ghost use Rattle.file_tree.specs.declared.index.Listed.{Listed as listed};
ghost use Rattle.mck_word.specs.Lists.{spliced};
ghost use Rattle.mck_word.specs.Maps.{at, change, no_rows, put};

use crate::counts::Counts;
use crate::index::{Listed, TagRef, place_of};
use crate::node::FileNode;
use crate::nodes::Nodes;
use crate::tree::{Tree, len_of};
use mck_word::NoMemory;
use std::alloc::Global;

const ROOT: u64 = 1;

/// How many names there are at most.
const MOST_NAMES: u64 = 4_294_967_296;

/// The place of a node in the index of names: None where it has no name.
fn listed_at(nodes: &Nodes, rows: &[Listed], n: u64) -> Option<usize>
    requires { IsIndex nodes.now.map nodes.now.keys rows.now }
    ensures { result ≡ option_map (λ (t : Tag). place tag_cmp t (tagged nodes.now.map rows.now)) (tag_in nodes.now.map n) }
{
    let node = nodes.get(n)?;
    let name = node.name()?;
    let tag = TagRef {
        directory: node.parent(),
        name,
    };
    Some(place_of(nodes, rows, tag))
}

/// Takes a node's name away.
fn unname(nodes: &mut Nodes, names: &mut Vec<Listed>, n: u64)
    requires { IsIndex nodes.old.map nodes.old.keys names.old.items }
    ensures index { IsIndex nodes.new.map nodes.new.keys names.new.items }
    ensures map { nodes.new.map ≡ change nodes.old.map n (λ (x : Inode). record x { name = None }) }
    ensures next { nodes.new.next ≡ nodes.old.next }
    ensures len { vec_len names.new ≤ vec_len names.old }
{
    match listed_at(nodes, names, n) {
        None => {}
        Some(i) => {
            let _ = names.remove(i);
            nodes.unname(n);
        }
    }
}

/// Whether there is no node of that number, or it is the root, has a name, or is held.
fn is_used(nodes: &Nodes, holds: &Counts, n: u64) -> bool
    ensures { result ≡ used_row holds.now.counts n (at nodes.now.map n) }
{
    match nodes.get(n) {
        Some(x) => n == ROOT || x.name().is_some() || holds.has(n),
        None => true,
    }
}

/// Takes a node out that doesn't live any more.
fn settle(nodes: &mut Nodes, holds: &Counts, bytes: &mut u64, n: u64)
    requires { bytes.old ≡ bytes_in nodes.old.map }
    ensures map { nodes.new.map ≡ settled_at holds.now.counts n nodes.old.map }
    ensures bytes { bytes.new ≡ bytes_in nodes.new.map }
    ensures index { (rows : List listed) → IsIndex nodes.old.map nodes.old.keys rows → IsIndex nodes.new.map nodes.new.keys rows }
    ensures next { nodes.new.next ≡ nodes.old.next }
{
    if is_used(nodes, holds, n) {
        return;
    }
    *bytes -= len_of(nodes, n);
    nodes.remove(n);
}

/// Puts `x` in at `i`, where there is a place for it.
fn insert_reserved(rows: &mut Vec<Listed>, i: usize, x: Listed)
    requires in_bounds { i ≤ vec_len rows.old }
    requires room { vec_len rows.old < vec_capacity rows.old }
    ensures items { rows.new.items ≡ insert rows.old.items i x }
    ensures len { vec_len rows.new ≡ vec_len rows.old + 1 }
    ensures capacity { vec_capacity rows.new ≡ vec_capacity rows.old }
{
    let _ = rows.insert(i, x);
}

impl Tree {
    /// The root alone.
    pub fn new(alloc: Global) -> Result<Tree, NoMemory>
        ensures map { IfOk result (λ t. t.map ≡ put no_rows root (empty_directory root None)) }
        ensures next { IfOk result (λ t. t.next ≡ 2) }
        ensures holds { IfOk result (λ t. t.holds ≡ no_rows) }
    {
        Ok(Tree {
            nodes: Nodes::new(alloc)?,
            names: Vec::new(alloc),
            holds: Counts::new(alloc),
            bytes: 0,
            alloc,
        })
    }

    /// Makes room for `n` more nodes. Also fails where 2 ^ 32 nodes were made.
    pub fn reserve(&mut self, n: u64) -> Result<(), NoMemory>
        ensures map { self.new.map ≡ self.old.map }
        ensures next { self.new.next ≡ self.old.next }
        ensures holds { self.new.holds ≡ self.old.holds }
        ensures spare_holds { self.new.spare_holds ≡ self.old.spare_holds }
        ensures left_holds { self.new.left_holds ≡ self.old.left_holds }
        ensures room { OnOk result (n ≤ self.new.spare) }
    {
        if n > MOST_NAMES - self.names.len() as u64 {
            return Err(NoMemory);
        }
        self.nodes.reserve(n)?;
        self.names.reserve(n as usize)?;
        Ok(())
    }

    /// Makes room for `n` more nodes to be held.
    pub fn reserve_holds(&mut self, n: u64) -> Result<(), NoMemory>
        ensures map { self.new.map ≡ self.old.map }
        ensures next { self.new.next ≡ self.old.next }
        ensures holds { self.new.holds ≡ self.old.holds }
        ensures spare { self.new.spare ≡ self.old.spare }
        ensures room { OnOk result (n ≤ self.new.spare_holds) }
        ensures left { OnOk result (n ≤ self.new.left_holds) }
    {
        self.holds.reserve(n)
    }

    /// Makes room for bytes of a file up to that end.
    pub fn reserve_bytes(&mut self, node: u64, end: u64) -> Result<(), NoMemory>
        ensures map { self.new.map ≡ self.old.map }
        ensures next { self.new.next ≡ self.old.next }
        ensures holds { self.new.holds ≡ self.old.holds }
        ensures spare { self.new.spare ≡ self.old.spare }
        ensures spare_holds { self.new.spare_holds ≡ self.old.spare_holds }
        ensures left_holds { self.new.left_holds ≡ self.old.left_holds }
        ensures room { OnOk result (CanWrite self.new.map self.new.rooms node end) }
    {
        let before = len_of(&self.nodes, node);
        let others = self.bytes - before;
        if before.max(end) > u64::MAX - others {
            return Err(NoMemory);
        }
        self.nodes.reserve_bytes(node, end as usize)
    }

    /// Adds a node without bytes, with a name in a directory.
    pub fn add(&mut self, directory: u64, name: &[u8], is_directory: bool)
        requires room { 1 ≤ self.old.spare }
        requires short { length name.now ≤ 255 }
        requires absent { paths.child (files_of self.old) directory name.now ≡ None }
        ensures map { self.new.map ≡ put self.old.map self.old.next (record { parent = directory; name = Some name.now; directory = is_directory; bytes = [] }) }
        ensures next { self.new.next ≡ self.old.next + 1 }
        ensures spare { self.old.spare ≤ self.new.spare + 1 }
        ensures holds { self.new.holds ≡ self.old.holds }
        ensures spare_holds { self.new.spare_holds ≡ self.old.spare_holds }
        ensures left_holds { self.new.left_holds ≡ self.old.left_holds }
    {
        self.insert(directory, name, is_directory, Vec::new(self.alloc));
    }

    /// Adds a node with those bytes, with a name in a directory.
    pub fn insert(&mut self, directory: u64, name: &[u8], is_directory: bool, bytes: Vec<u8>)
        requires room { 1 ≤ self.old.spare }
        requires short { length name.now ≤ 255 }
        requires absent { paths.child (files_of self.old) directory name.now ≡ None }
        requires fits { bytes_in self.old.map + vec_len bytes < 2 ^ 64 }
        ensures map { self.new.map ≡ put self.old.map self.old.next (record { parent = directory; name = Some name.now; directory = is_directory; bytes = bytes.items }) }
        ensures next { self.new.next ≡ self.old.next + 1 }
        ensures spare { self.old.spare ≤ self.new.spare + 1 }
        ensures holds { self.new.holds ≡ self.old.holds }
        ensures spare_holds { self.new.spare_holds ≡ self.old.spare_holds }
        ensures left_holds { self.new.left_holds ≡ self.old.left_holds }
    {
        let i = place_of(&self.nodes, &self.names, TagRef { directory, name });
        let node = self.nodes.next();
        self.bytes += bytes.len() as u64;
        let key = self
            .nodes
            .add(FileNode::new(node, directory, name, is_directory, bytes));
        insert_reserved(&mut self.names, i, Listed { node, key });
    }

    /// Takes a node's name away; it goes where it isn't held.
    pub fn unlink(&mut self, node: u64)
        ensures map { self.new.map ≡ settled_at self.old.holds node (change self.old.map node (λ (x : Inode). record x { name = None })) }
        ensures next { self.new.next ≡ self.old.next }
        ensures holds { self.new.holds ≡ self.old.holds }
    {
        unname(&mut self.nodes, &mut self.names, node);
        settle(&mut self.nodes, &self.holds, &mut self.bytes, node);
    }

    /// Holds a node once more.
    pub fn hold(&mut self, node: u64)
        requires room { 1 ≤ self.old.spare_holds }
        requires left { 1 ≤ self.old.left_holds }
        ensures map { self.new.map ≡ self.old.map }
        ensures next { self.new.next ≡ self.old.next }
        ensures holds { self.new.holds ≡ raised node self.old.holds }
        ensures spare_holds { self.old.spare_holds ≤ self.new.spare_holds + 1 }
        ensures left_holds { self.new.left_holds + 1 ≡ self.old.left_holds }
    {
        self.holds.raise(node);
    }

    /// Holds a node once less; it goes where it has no name and isn't held any more.
    pub fn release(&mut self, node: u64)
        ensures map { self.new.map ≡ settled_at (lowered node self.old.holds) node self.old.map }
        ensures next { self.new.next ≡ self.old.next }
        ensures holds { self.new.holds ≡ lowered node self.old.holds }
    {
        self.holds.lower(node);
        settle(&mut self.nodes, &self.holds, &mut self.bytes, node);
    }

    /// Writes bytes into a file at an offset, in place; a gap is filled with zeros.
    pub fn write(&mut self, node: u64, offset: u64, from: &[u8])
        requires { CanWrite self.old.map self.old.rooms node (offset + length from.now) }
        ensures map { self.new.map ≡ change self.old.map node (λ (x : Inode). record x { bytes = spliced x.bytes offset from.now }) }
        ensures next { self.new.next ≡ self.old.next }
        ensures holds { self.new.holds ≡ self.old.holds }
    {
        let others = self.bytes - len_of(&self.nodes, node);
        self.nodes.write(node, offset as usize, from);
        self.bytes = others + len_of(&self.nodes, node);
    }

    /// Takes all bytes of a file away.
    pub fn cut(&mut self, node: u64)
        ensures map { self.new.map ≡ change self.old.map node (λ (x : Inode). record x { bytes = [] }) }
        ensures next { self.new.next ≡ self.old.next }
        ensures holds { self.new.holds ≡ self.old.holds }
        ensures spare { self.new.spare ≡ self.old.spare }
        ensures spare_holds { self.new.spare_holds ≡ self.old.spare_holds }
        ensures left_holds { self.new.left_holds ≡ self.old.left_holds }
    {
        self.bytes -= len_of(&self.nodes, node);
        self.nodes.clear(node);
    }

    /// Each node lives: it is the root, has a name, or is held.
    pub fn used(&self)
        ensures { NodesUsed self.now.holds self.now.map }
    {
        let _bytes = self.bytes;
    }
}
