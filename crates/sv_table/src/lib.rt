//! Page tables of three levels: 512 entries of 64 bits a node, with the nodes in a slab.
//!
//! Promises: `SvTable` is the same finite map as any page table, and its map is what the walk over its words finds: from the
//! root, whose key is 0, by the index of a page on each level. An entry has bit 0 where it is present; on the last level it has
//! the rights from bit 1 on and the frame from bit 10 on, above it the key of the node below from bit 10 on. No node but the
//! root is without an entry. A look-up is three loads. `reserve` makes places for the nodes that the pages lack, so what puts
//! a page in can't fail. specs/Walks says what a walk is, specs/Trees what is kept, specs/Room what room is.
#![tactic(auto)]

mod node;
mod nodes;
mod pages;
mod room;
mod words;

ghost use Rattle.mck_word.specs.Maps.{at};
ghost use Rattle.slab.specs.Slab.{get};
ghost use Rattle.std.specs.Prelude.{◌≡◌, ◌≢◌, ◌<◌, ◌^◌, ℕ, IfSome, length, option_map};
ghost use Rattle.sv_table.specs.Room.{FitsIn};
ghost use Rattle.sv_table.specs.Walks.{rows_of, walk};
ghost use Rattle.sv_table.specs.Words.{HasEntry};

use mck_flags::Rights;
use mck_word::{Frame, NoMemory, PageRange};
use node::TablePage;
use page_map::PageTable;
use pages::PAGES;
use slab::Slab;
use std::alloc::Global;
use std::marker::Model;

/// A table of three levels, seen as its nodes by their keys, each as its 512 words.
#[derive(Drop)]
pub struct SvTable {
    nodes: Slab<TablePage>,
}

impl Model for SvTable {
    ghost use Rattle.slab.specs.Slab.{Slab as Nodes, slab_code};
    ghost use Rattle.std.specs.Coded.{coded_list, coded_ℕ};
    ghost use Rattle.std.specs.Prelude.{List, ℕ};
    ghost use Rattle.sv_table.specs.Trees.{IsTable};

    ghost Value = { Nodes (List ℕ) };

    ghost coded = { slab_code (coded_list coded_ℕ) };

    ghost view = { λ t. t.nodes };

    ghost invariant = { λ t. IsTable t.nodes };
}

impl SvTable {
    /// The words of a node: None exactly where no node has the key.
    pub fn node(&self, key: u32) -> Option<&[u64]>
        ensures words { option_map (λ words. words.now) result ≡ get self.now key }
        ensures long { IfSome result (λ words. length words.now ≡ 512) }
        ensures full { IfSome result (λ words. key ≢ 0 → HasEntry words.now) }
        ensures finds { (page : ℕ) → page < 2 ^ 27 → at (rows_of (get self.now)) page ≡ walk (get self.now) page }
    {
        match self.nodes.get(key as usize) {
            Some(node) => Some(node.words()),
            None => None,
        }
    }
}

impl PageTable for SvTable {
    ghost rows = { λ t. rows_of (get t) };

    ghost has_room = { λ t rs. FitsIn t rs };

    fn empty(alloc: Global) -> Result<SvTable, NoMemory> {
        Ok(SvTable {
            nodes: room::root_alone(alloc)?,
        })
    }

    fn get(&self, page: u64) -> Option<(Frame, Rights)> {
        if page < PAGES {
            pages::look_up(&self.nodes, page)
        } else {
            None
        }
    }

    fn reserve(&mut self, pages: &[PageRange]) -> Result<(), NoMemory> {
        let lacking = room::lacking(&self.nodes, pages);
        room::grow(&mut self.nodes, lacking as usize)
    }

    fn insert(&mut self, page: u64, f: Frame, r: Rights) {
        pages::put_in(&mut self.nodes, page, f, r);
    }

    fn remove(&mut self, page: u64) -> Frame {
        pages::take_out(&mut self.nodes, page)
    }

    fn set_rights(&mut self, page: u64, r: Rights) {
        pages::change(&mut self.nodes, page, r);
    }

    fn next(&self, from: u64) -> Option<u64> {
        pages::next_page(&self.nodes, from)
    }
}
