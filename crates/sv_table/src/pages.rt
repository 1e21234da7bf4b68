//! Pages over the nodes of a table: looked up, put in, taken out, changed and gone through.
ghost use Rattle.key_rows.specs.Table.{key_from};
ghost use Rattle.mck_word.specs.Pages.{in_ranges};
ghost use Rattle.mck_word.specs.declared.PageRange.{PageRange as range};
ghost use Rattle.page_map.specs.Tables.{RoomAt};
ghost use Rattle.slab.specs.Slab.{get};
ghost use Rattle.std.specs.Prelude.{◌≡◌, ◌≢◌, ◌<◌, ◌≤◌, ◌^◌, ◌+◌, ◌/◌, ◌%◌, ℕ, List, Some, None, IsTrue, is_some, option_map};
ghost use Rattle.sv_table.specs.Room.{FitsIn};
ghost use Rattle.sv_table.specs.Trees.{IsEntry, IsOpenTree, IsTree};
ghost use Rattle.sv_table.specs.Walks.{key_at, place_of_leaf, place_of_middle, rows_of, walk};
ghost use Rattle.sv_table.specs.Words.{page_in};

use crate::node::TablePage;
use crate::nodes::{ROOT, child_of, give_back, make, set_word};
use crate::words::{is_there, page_entry, page_of};
use mck_flags::Rights;
use mck_word::Frame;
use slab::Slab;

/// How many pages there are.
pub const PAGES: u64 = 1 << 27;

/// How many pages are below an entry of the root, and below one of the level under it.
const PAGES_OF_MIDDLE: u64 = 262_144;

const PAGES_OF_LEAF: u64 = 512;

/// The leaf of a page, where there is one.
pub fn leaf_of(nodes: &Slab<TablePage>, page: u64) -> Option<usize>
    requires { page < 2 ^ 27 }
    ensures { result ≡ key_at (get nodes.now) (place_of_leaf page) }
{
    let middle = child_of(nodes, ROOT, (page / PAGES_OF_MIDDLE) as usize)?;
    child_of(nodes, middle, (page / PAGES_OF_LEAF % 512) as usize)
}

/// The word of a page in its leaf.
fn word_of(nodes: &Slab<TablePage>, leaf: usize, page: u64) -> u64
    requires low { page < 2 ^ 27 }
    requires tree { IsTree (get nodes.now) }
    requires leaf { key_at (get nodes.now) (place_of_leaf page) ≡ Some leaf }
    ensures entry { IsEntry result }
    ensures value { page_in result ≡ walk (get nodes.now) page }
{
    nodes[leaf].word((page % 512) as usize)
}

/// What a page has: the walk by its three indexes.
pub fn look_up(nodes: &Slab<TablePage>, page: u64) -> Option<(Frame, Rights)>
    requires low { page < 2 ^ 27 }
    requires tree { IsTree (get nodes.now) }
    ensures { result ≡ walk (get nodes.now) page }
{
    let leaf = leaf_of(nodes, page)?;
    page_of(word_of(nodes, leaf, page))
}

/// Puts a page in for which there is room.
pub fn put_in(nodes: &mut Slab<TablePage>, page: u64, f: Frame, r: Rights)
    requires low { page < 2 ^ 27 }
    requires tree { IsTree (get nodes.old) }
    requires room { RoomAt (FitsIn nodes.old) page }
    requires few { nodes.old.capacity ≤ 2 ^ 32 }
    ensures tree { IsTree (get nodes.new) }
    ensures here { walk (get nodes.new) page ≡ Some (f, r) }
    ensures others { (q : ℕ) → q < 2 ^ 27 → q ≢ page → walk (get nodes.new) q ≡ walk (get nodes.old) q }
    ensures room { (rs : List range) → IsTrue (in_ranges rs page) → FitsIn nodes.old rs → FitsIn nodes.new rs }
    ensures capacity { nodes.new.capacity ≡ nodes.old.capacity }
{
    let middle = make(nodes, ROOT, 1 + page / PAGES_OF_MIDDLE);
    let leaf = make(nodes, middle, 513 + page / PAGES_OF_LEAF);
    set_word(nodes, leaf, page, page_entry(f, r));
}

/// The nodes on the way to a page that is there: that of the middle level, and its leaf.
fn path_of(nodes: &Slab<TablePage>, page: u64) -> (usize, usize)
    requires low { page < 2 ^ 27 }
    requires there { IsTrue (is_some (walk (get nodes.now) page)) }
    ensures middle { key_at (get nodes.now) (place_of_middle page) ≡ Some result.0 }
    ensures leaf { key_at (get nodes.now) (place_of_leaf page) ≡ Some result.1 }
{
    let Some(middle) = child_of(nodes, ROOT, (page / PAGES_OF_MIDDLE) as usize) else {
        unreachable!()
    };
    let Some(leaf) = child_of(nodes, middle, (page / PAGES_OF_LEAF % 512) as usize) else {
        unreachable!()
    };
    (middle, leaf)
}

/// Gives a page that is there other rights.
pub fn change(nodes: &mut Slab<TablePage>, page: u64, r: Rights)
    requires low { page < 2 ^ 27 }
    requires tree { IsTree (get nodes.old) }
    requires there { IsTrue (is_some (walk (get nodes.old) page)) }
    ensures tree { IsTree (get nodes.new) }
    ensures here { walk (get nodes.new) page ≡ option_map (λ w. (w.0, r)) (walk (get nodes.old) page) }
    ensures others { (q : ℕ) → q < 2 ^ 27 → q ≢ page → walk (get nodes.new) q ≡ walk (get nodes.old) q }
    ensures room { (rs : List range) → FitsIn nodes.old rs → FitsIn nodes.new rs }
    ensures capacity { nodes.new.capacity ≡ nodes.old.capacity }
{
    let (_, leaf) = path_of(nodes, page);
    let Some((f, _)) = page_of(word_of(nodes, leaf, page)) else {
        unreachable!()
    };
    set_word(nodes, leaf, page, page_entry(f, r));
}

/// Takes a page out that is there, and answers its frame. Nodes that are left without an entry are given back.
pub fn take_out(nodes: &mut Slab<TablePage>, page: u64) -> Frame
    requires low { page < 2 ^ 27 }
    requires tree { IsTree (get nodes.old) }
    requires there { IsTrue (is_some (walk (get nodes.old) page)) }
    ensures tree { IsTree (get nodes.new) }
    ensures frame { option_map (λ w. w.0) (walk (get nodes.old) page) ≡ Some result }
    ensures gone { walk (get nodes.new) page ≡ None }
    ensures others { (q : ℕ) → q < 2 ^ 27 → q ≢ page → walk (get nodes.new) q ≡ walk (get nodes.old) q }
    ensures room { (rs : List range) → FitsIn nodes.old rs → FitsIn nodes.new rs }
    ensures capacity { nodes.new.capacity ≡ nodes.old.capacity }
{
    let (middle, leaf) = path_of(nodes, page);
    let Some((f, _)) = page_of(word_of(nodes, leaf, page)) else {
        unreachable!()
    };
    set_word(nodes, leaf, page, 0);
    give_back(nodes, middle, leaf, 513 + page / PAGES_OF_LEAF);
    give_back(nodes, ROOT, middle, 1 + page / PAGES_OF_MIDDLE);
    f
}

/// The page itself where it is there, or else the next one that isn't below the same absent entry.
fn skip(nodes: &Slab<TablePage>, page: u64) -> u64
    requires low { page < 2 ^ 27 }
    requires tree { IsTree (get nodes.now) }
    ensures there { result ≡ page → IsTrue (is_some (walk (get nodes.now) page)) }
    ensures on { page ≤ result }
    ensures absent { (q : ℕ) → page ≤ q → q < result → walk (get nodes.now) q ≡ None }
    ensures end { result ≤ 2 ^ 27 }
{
    let Some(middle) = child_of(nodes, ROOT, (page / PAGES_OF_MIDDLE) as usize) else {
        return (page / PAGES_OF_MIDDLE + 1) * PAGES_OF_MIDDLE;
    };
    let Some(leaf) = child_of(nodes, middle, (page / PAGES_OF_LEAF % 512) as usize) else {
        return (page / PAGES_OF_LEAF + 1) * PAGES_OF_LEAF;
    };
    if is_there(word_of(nodes, leaf, page)) {
        page
    } else {
        page + 1
    }
}

/// The least page from there on that is there.
pub fn next_page(nodes: &Slab<TablePage>, from: u64) -> Option<u64>
    requires { IsTree (get nodes.now) }
    ensures { result ≡ key_from (rows_of (get nodes.now)) from }
{
    let mut page = from;
    while page < PAGES {
        let next = skip(nodes, page);
        if next == page {
            return Some(page);
        }
        page = next;
    }
    None
}
