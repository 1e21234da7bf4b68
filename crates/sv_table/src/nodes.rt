//! The nodes of a table in their slab: looked up by entry and by place, made below an entry, and given back.
ghost use Rattle.slab.specs.Slab.{ContainsKey, Updates, get, slab_len};
ghost use Rattle.std.specs.Prelude.{◌≡◌, ◌≢◌, ◌<◌, ◌≤◌, ◌^◌, ◌+◌, ◌-◌, ◌/◌, ◌%◌, ℕ, List, Some, None, IsTrue, option_map, slice_set, true};
ghost use Rattle.mck_word.specs.declared.PageRange.{PageRange as range};
ghost use Rattle.sv_table.specs.Changes.{SameWalks};
ghost use Rattle.sv_table.specs.Room.{FitsIn, HasPlace, is_touched};
ghost use Rattle.sv_table.specs.Trees.{IsEntry, IsOpenTree, IsTree};
ghost use Rattle.sv_table.specs.Walks.{above, child, key_at, place_of_leaf, walk};
ghost use Rattle.sv_table.specs.Words.{is_present, page_in};

use crate::node::TablePage;
use crate::words::{key_of, node_entry};
use slab::Slab;

/// The key of the root.
pub const ROOT: usize = 0;

/// The node below an entry.
pub fn child_of(nodes: &Slab<TablePage>, key: usize, i: usize) -> Option<usize>
    requires { i < 512 }
    ensures { result ≡ child (get nodes.now) key i }
{
    match nodes.get(key) {
        Some(node) => key_of(node.word(i)),
        None => None,
    }
}

/// The node at a place.
pub fn find(nodes: &Slab<TablePage>, place: u64) -> Option<usize>
    requires { place < 262657 }
    ensures { result ≡ key_at (get nodes.now) place }
{
    if place == 0 {
        return Some(ROOT);
    }
    let i = ((place - 1) % 512) as usize;
    if place < 513 {
        return child_of(nodes, ROOT, i);
    }
    let middle = child_of(nodes, ROOT, ((place - 1) / 512 - 1) as usize)?;
    child_of(nodes, middle, i)
}

/// Puts a word in a node that is there.
fn put(nodes: &mut Slab<TablePage>, key: usize, i: usize, word: u64)
    requires there { ContainsKey nodes.old key }
    requires inside { i < 512 }
    ensures word { Updates nodes.old nodes.new key (option_map (λ words. slice_set words i word) (get nodes.old key)) }
    ensures len { slab_len nodes.new ≡ slab_len nodes.old }
    ensures capacity { nodes.new.capacity ≡ nodes.old.capacity }
{
    nodes[key].set(i, word);
}

/// The node at a place: the one that is there, or else a new one without an entry.
pub fn make(nodes: &mut Slab<TablePage>, parent: usize, place: u64) -> usize
    requires low { 1 ≤ place }
    requires high { place < 262657 }
    requires tree { IsOpenTree (get nodes.old) parent }
    requires parent { key_at (get nodes.old) (above place) ≡ Some parent }
    requires room { HasPlace nodes.old place }
    requires few { nodes.old.capacity ≤ 2 ^ 32 }
    ensures tree { IsOpenTree (get nodes.new) result }
    ensures key { key_at (get nodes.new) place ≡ Some result }
    ensures walks { SameWalks (get nodes.old) (get nodes.new) }
    ensures room { (rs : List range) → IsTrue (is_touched rs place) → FitsIn nodes.old rs → FitsIn nodes.new rs }
    ensures capacity { nodes.new.capacity ≡ nodes.old.capacity }
{
    let i = ((place - 1) % 512) as usize;
    if let Some(key) = child_of(nodes, parent, i) {
        return key;
    }
    let key = nodes.insert_reserved(TablePage::new());
    put(nodes, parent, i, node_entry(key));
    key
}

/// Gives a node back where it has no entry. What it takes from the one above leaves that one open.
pub fn give_back(nodes: &mut Slab<TablePage>, parent: usize, key: usize, place: u64)
    requires low { 1 ≤ place }
    requires high { place < 262657 }
    requires tree { IsOpenTree (get nodes.old) key }
    requires key { key_at (get nodes.old) place ≡ Some key }
    requires parent { key_at (get nodes.old) (above place) ≡ Some parent }
    ensures tree { IsOpenTree (get nodes.new) parent }
    ensures keys { (q : ℕ) → q < 262657 → q ≢ place → key_at (get nodes.new) q ≡ key_at (get nodes.old) q }
    ensures walks { SameWalks (get nodes.old) (get nodes.new) }
    ensures room { (rs : List range) → FitsIn nodes.old rs → FitsIn nodes.new rs }
    ensures capacity { nodes.new.capacity ≡ nodes.old.capacity }
{
    if nodes[key].is_empty() {
        nodes.remove(key);
        put(nodes, parent, ((place - 1) % 512) as usize, 0);
    }
}

/// Puts a word for a page in its leaf.
pub fn set_word(nodes: &mut Slab<TablePage>, leaf: usize, page: u64, word: u64)
    requires low { page < 2 ^ 27 }
    requires entry { IsEntry word }
    requires tree { IsOpenTree (get nodes.old) leaf }
    requires leaf { key_at (get nodes.old) (place_of_leaf page) ≡ Some leaf }
    ensures tree { IsOpenTree (get nodes.new) leaf }
    ensures full { is_present word ≡ true → IsTree (get nodes.new) }
    ensures keys { (q : ℕ) → q < 262657 → key_at (get nodes.new) q ≡ key_at (get nodes.old) q }
    ensures here { walk (get nodes.new) page ≡ page_in word }
    ensures others { (other : ℕ) → other < 2 ^ 27 → other ≢ page → walk (get nodes.new) other ≡ walk (get nodes.old) other }
    ensures room { (rs : List range) → FitsIn nodes.old rs → FitsIn nodes.new rs }
    ensures capacity { nodes.new.capacity ≡ nodes.old.capacity }
{
    put(nodes, leaf, (page % 512) as usize, word);
}
