//! The free frames of a node: a tree of marks over the frames, so that taking the lowest and giving one back cost a path of the tree.
//!
//! Promises: `take` gives the lowest free frame, and None exactly where none is free; no call but `new` takes memory or fails.
//! Contracts see the number of frames and the rising list of the free ones (specs/Pools); specs/Trees says how the tree has them.
#![tactic(auto)]

mod marks;

ghost use Rattle.frame_pool.specs.Pools.{Pool};
ghost use Rattle.mck_word.specs.Lists.{count_from, insert_by, member, tail};
ghost use Rattle.std.specs.Prelude.{◌≡◌, ◌<◌, length, nat_lt, slice_get, option_map, false, IfOk, IfSome};

use marks::{lowest, mark};
use mck_word::{Frame, NoMemory};
use std::alloc::Global;
use std::marker::Model;

/// The frames of a node, and which are free.
#[derive(Drop)]
pub struct FramePool {
    nodes: Vec<bool>,
    leaves: usize,
    height: u32,
    frames: u32,
    free: u64,
}

impl Model for FramePool {
    ghost use Rattle.frame_pool.specs.Pools.{Pool};

    ghost Value = { Pool };

    ghost use Rattle.frame_pool.specs.Trees.{IsPool, free_in};

    ghost view = { λ a. record { frames = a.frames; free = free_in a.nodes.items a.leaves } };

    ghost invariant = { λ a. IsPool a.nodes.items a.leaves a.height a.frames a.free };
}

impl FramePool {
    /// `n` frames, all free.
    pub fn new(alloc: Global, n: u32) -> Result<FramePool, NoMemory>
        ensures { IfOk result (λ p. p ≡ record { frames = n; free = count_from 0 n }) }
    {
        let mut height = 0;
        let mut leaves = 1usize;
        for _level in 0..32u32 {
            if leaves < n as usize {
                leaves *= 2;
                height += 1;
            }
        }
        let mut nodes = vec![in alloc; false; 2 * leaves]?;
        for f in 0..n {
            mark(&mut nodes, leaves, leaves + f as usize, true);
        }
        Ok(FramePool {
            nodes,
            leaves,
            height,
            frames: n,
            free: u64::from(n),
        })
    }

    /// The lowest free frame, which isn't free from then on.
    pub fn take(&mut self) -> Option<Frame>
        ensures lowest { option_map (λ f. f.0) result ≡ slice_get self.old.free 0 }
        ensures rest { self.new ≡ record self.old { free = tail self.old.free } }
        ensures below { IfSome result (λ f. f.0 < self.old.frames) }
    {
        if !self.nodes[1] {
            return None;
        }
        let leaf = lowest(&self.nodes, self.leaves, self.height);
        mark(&mut self.nodes, self.leaves, leaf, false);
        self.free -= 1;
        Some(Frame((leaf - self.leaves) as u32))
    }

    /// Makes a frame free that was taken.
    pub fn give(&mut self, f: Frame)
        requires below { f.0 < self.old.frames }
        requires taken { member f.0 self.old.free ≡ false }
        ensures { self.new ≡ record self.old { free = insert_by nat_lt f.0 self.old.free } }
    {
        mark(
            &mut self.nodes,
            self.leaves,
            self.leaves + f.0 as usize,
            true,
        );
        self.free += 1;
    }

    /// How many frames are free.
    pub fn free(&self) -> u64
        ensures { result ≡ length self.now.free }
    {
        self.free
    }
}
