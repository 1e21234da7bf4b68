// The tree of files.
ghost use Rattle.std.specs.Prelude.{◌≡◌, ◌≤◌, ◌<◌, ◌+◌, ◌-◌, ◌^◌, [], Some, None, OnOk, IfOk, IfSome, ℕ, drop, length, nat_lt, slice_get, take};
ghost use Rattle.std.specs.Option.{option_copied};
ghost use Rattle.file_model.specs.Files.{empty_directory, root};
ghost use Rattle.file_model.specs.Paths as paths;
ghost use Rattle.file_tree.specs.Counting.{count_in};
ghost use Rattle.file_tree.specs.Trees.{bytes_in, files_of, node_in};
ghost use Rattle.mck_word.specs.Maps.{count, keys};

use crate::counts::Counts;
use crate::index::{Listed, TagRef, find, name_at};
use crate::nodes::Nodes;
use mck_word::NoMemory;
use std::alloc::Global;
use std::marker::Model;

/// The tree of files: its nodes by their numbers, which never come again, and how often each is held by open descriptions.
///
/// A node without a name lives while it is held. Names are found by halving, in one list of all of them that is kept in order.
#[derive(Drop)]
pub struct Tree {
    pub(crate) nodes: Nodes,
    pub(crate) names: Vec<Listed>,
    pub(crate) holds: Counts,
    pub(crate) bytes: u64,
    pub(crate) alloc: Global,
}

impl Model for Tree {
    ghost use Rattle.std.specs.Prelude.{◌-◌, ◌^◌, min, vec_len};
    ghost use Rattle.std.specs.Vec.{vec_capacity};
    ghost use Rattle.file_tree.specs.Codes.{tree_code};
    ghost use Rattle.file_tree.specs.Tables.{TreeTable};
    ghost use Rattle.file_tree.specs.Trees.{IsTree};

    ghost Value = { TreeTable };

    ghost coded = { tree_code };

    ghost view = { λ t. record {
      map = t.nodes.map;
      rooms = t.nodes.rooms;
      next = t.nodes.next;
      spare = min (min t.nodes.spare (vec_capacity t.names - vec_len t.names)) (2 ^ 32 - vec_len t.names);
      holds = t.holds.counts;
      spare_holds = t.holds.spare;
      left_holds = t.holds.left;
    } };

    ghost invariant = { λ t. IsTree t.nodes t.names.items t.holds.counts t.bytes };
}

impl Tree {
    /// Whether the node is a directory.
    pub fn is_directory(&self, node: u64) -> bool
        ensures { result ≡ (node_in self.now.map node).directory }
    {
        match self.nodes.get(node) {
            Some(x) => x.is_directory(),
            None => false,
        }
    }

    /// The directory that a node stands in; the root stands in itself.
    pub fn parent(&self, node: u64) -> u64
        ensures { result ≡ (node_in self.now.map node).parent }
    {
        match self.nodes.get(node) {
            Some(x) => x.parent(),
            None => 0,
        }
    }

    /// The name of a node.
    pub fn name(&self, node: u64) -> Option<&[u8]>
        ensures { option_copied result ≡ (node_in self.now.map node).name }
    {
        match self.nodes.get(node) {
            Some(x) => x.name(),
            None => None,
        }
    }

    /// How many bytes a file has.
    pub fn len(&self, node: u64) -> u64
        ensures len { result ≡ length (node_in self.now.map node).bytes }
        ensures bound { result < 2 ^ 63 }
    {
        len_of(&self.nodes, node)
    }

    /// How many nodes there are.
    pub fn count(&self) -> u64
        ensures { result ≡ count self.now.map }
    {
        self.nodes.count()
    }

    /// The number of the node at a place among all, from 0 on: None exactly past the last.
    pub fn number_at(&self, place: u64) -> Option<u64>
        ensures { result ≡ slice_get (keys self.now.map) place }
    {
        self.nodes.number_at(place)
    }

    /// The number of the next node.
    pub fn next(&self) -> u64
        ensures { result ≡ self.now.next }
    {
        self.nodes.next()
    }

    /// The bytes of all files.
    pub fn bytes(&self) -> u64
        ensures { result ≡ bytes_in self.now.map }
    {
        self.bytes
    }

    /// Whether the node is held.
    pub fn is_held(&self, node: u64) -> bool
        ensures { result ≡ nat_lt 0 (count_in self.now.holds node) }
    {
        self.holds.has(node)
    }

    /// The node with that name in a directory.
    pub fn find(&self, directory: u64, name: &[u8]) -> Option<u64>
        ensures { result ≡ paths.child (files_of self.now) directory name.now }
    {
        find(&self.nodes, &self.names, TagRef { directory, name })
    }

    /// The k-th name of a directory in the order of bytes, from 0 on.
    pub fn name_at(&self, directory: u64, k: u64) -> Option<&[u8]>
        ensures name { option_copied result ≡ slice_get (paths.names_in (files_of self.now) directory) k }
        ensures few { IfSome result (λ _. k < 2 ^ 32) }
    {
        name_at(&self.nodes, &self.names, directory, k)
    }

    /// Whether a directory has a name in it.
    pub fn holds_names(&self, directory: u64) -> bool
        ensures { result ≡ nat_lt 0 (length (paths.names_in (files_of self.now) directory)) }
    {
        self.name_at(directory, 0).is_some()
    }

    /// Reads bytes of a file from an offset on.
    pub fn read(&self, node: u64, offset: u64, into: &mut [u8])
        requires { length into.old ≤ length (node_in self.now.map node).bytes - offset }
        ensures { into.new ≡ take (length into.old) (drop offset (node_in self.now.map node).bytes) }
    {
        if let Some(x) = self.nodes.get(node) {
            copy_out(x.bytes(), offset, into);
        }
    }
}

/// How many bytes a file has.
pub(crate) fn len_of(nodes: &Nodes, node: u64) -> u64
    ensures len { result ≡ length (node_in nodes.now.map node).bytes }
    ensures bound { result < 2 ^ 63 }
{
    match nodes.get(node) {
        Some(x) => x.bytes().len() as u64,
        None => 0,
    }
}

/// Copies bytes from an offset on into a buffer.
fn copy_out(bytes: &[u8], offset: u64, into: &mut [u8])
    requires { length into.old ≤ length bytes.now - offset }
    ensures { into.new ≡ take (length into.old) (drop offset bytes.now) }
{
    if into.len() == 0 {
        return;
    }
    let (_, rest) = bytes.split_at(offset as usize);
    let (there, _) = rest.split_at(into.len());
    into.copy_from_slice(there);
}
