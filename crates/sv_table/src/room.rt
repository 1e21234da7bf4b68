//! How many nodes pages lack, and a slab with places for them.
ghost use Rattle.mck_word.specs.Maps.{no_rows};
ghost use Rattle.page_map.specs.Tables.{AreRanges};
ghost use Rattle.slab.specs.Slab.{HasRoomFor, get};
ghost use Rattle.std.specs.Prelude.{◌≡◌, ◌≤◌, ◌^◌, IfOk, IsOk, OnOk};
ghost use Rattle.sv_table.specs.Room.{absent, absent_from};
ghost use Rattle.sv_table.specs.Trees.{IsTable};
ghost use Rattle.sv_table.specs.Walks.{rows_of};

use crate::node::TablePage;
use crate::nodes::find;
use mck_word::{NoMemory, PageRange};
use slab::Slab;
use std::alloc::Global;

/// How many nodes a slab may have places for, so that each key fits in 32 bits.
const MOST_NODES: usize = 1 << 32;

/// How many places from `first` up to `end` have no node.
fn absent_between(nodes: &Slab<TablePage>, first: u64, end: u64) -> u64
    requires { end ≤ 262657 }
    ensures value { result ≡ absent_from (get nodes.now) first end }
    ensures few { result ≤ 262657 }
{
    let mut lacking = 0;
    for place in first..end {
        if find(nodes, place).is_none() {
            lacking += 1;
        }
    }
    lacking
}

/// How many nodes on the paths of the ranges' pages are absent.
pub fn lacking(nodes: &Slab<TablePage>, ranges: &[PageRange]) -> u64
    requires { AreRanges ranges.now }
    ensures { result ≡ absent (get nodes.now) ranges.now }
{
    let mut lacking = 0;
    // Places from which on none was looked at yet, of each level.
    let mut middle = 1u64;
    let mut leaf = 513u64;
    for r in ranges {
        if r.lo < r.hi {
            let end_of_middle = 2 + (r.hi - 1) / 262_144;
            let end_of_leaf = 514 + (r.hi - 1) / 512;
            lacking += absent_between(nodes, middle.max(1 + r.lo / 262_144), end_of_middle);
            lacking += absent_between(nodes, leaf.max(513 + r.lo / 512), end_of_leaf);
            middle = middle.max(end_of_middle);
            leaf = leaf.max(end_of_leaf);
        }
    }
    lacking
}

/// Makes places for so many more nodes. No contract of a slab bounds from above how many places it makes, and a key
/// has to fit in its entry: so the larger slab is made beside this one, and comes in its place if it isn't too large.
pub fn grow(nodes: &mut Slab<TablePage>, more: usize) -> Result<(), NoMemory>
    requires { nodes.old.capacity ≤ 2 ^ 32 }
    ensures same { nodes.new.slots ≡ nodes.old.slots }
    ensures few { nodes.new.capacity ≤ 2 ^ 32 }
    ensures room { OnOk result (HasRoomFor nodes.new more) }
    ensures succeeds { HasRoomFor nodes.old more → IsOk result }
    ensures grows { nodes.old.capacity ≤ nodes.new.capacity }
{
    if nodes.capacity() - nodes.len() >= more {
        return Ok(());
    }
    let mut grown = nodes.clone()?;
    grown.reserve(more)?;
    if grown.capacity() > MOST_NODES {
        return Err(NoMemory);
    }
    *nodes = grown;
    Ok(())
}

/// The root alone.
pub fn root_alone(alloc: Global) -> Result<Slab<TablePage>, NoMemory>
    ensures table { IfOk result (λ nodes. IsTable nodes) }
    ensures empty { IfOk result (λ nodes. rows_of (get nodes) ≡ no_rows) }
{
    let mut nodes = Slab::new(alloc);
    nodes.reserve(1)?;
    if nodes.capacity() > MOST_NODES {
        return Err(NoMemory);
    }
    nodes.insert_reserved(TablePage::new());
    Ok(nodes)
}
