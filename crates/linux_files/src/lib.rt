//! The files of the Linux side: the tree of files, pipes as rings, consoles, open descriptions, and descriptors by process.
//!
//! Promises: the store is seen as the files of file_model's specs/Files (`seen_parts` of specs/Seen), and each method of
//! `file_calls::store::FileStore` is one word of the definitions on them. What takes memory is apart from what acts: `make_room` makes
//! the room of an operation (specs/Rooms), and then it can't fail. Bytes are written in place. Nothing is gone through to act: nodes,
//! descriptions and pipes are found by halving, names in the order of one list, and what goes when nobody uses it any more is told by
//! counts of what names it (specs/Seen, `IsStore`).
#![tactic(auto)]

mod calls;
mod closes;
pub mod console;
pub mod consoles;
pub mod descriptors;
mod ends;
mod filling;
mod job;
mod listing;
mod lookups;
mod names;
mod nodes;
pub mod open_file;
mod opens;
pub mod parts;
pub mod pipe;
pub mod pipes;
mod processes;
mod room;
mod settle;
mod store;

ghost use Rattle.std.specs.Prelude.{◌≡◌, ◌-◌, ◌^◌, IfOk, IsTrue, is_some, nat_lt};
ghost use Rattle.file_calls.specs.FileSteps.{FewCalls};
ghost use Rattle.file_model.specs.Files.{description_of, root_only};
ghost use Rattle.file_model.specs.declared.descriptions.Description.{Description};
ghost use Rattle.linux_files.specs.Ends.{pipe_end};
ghost use Rattle.linux_files.specs.Seen.{seen_parts};
ghost use Rattle.mck_word.specs.Maps.{at, each_row};

use file_model::Target;
use mck_word::{NoMemory, Pid};
use parts::Parts;
use std::alloc::Global;
use std::marker::Model;

/// The files of the Linux side, seen as their parts, which keep the counts of what names what.
#[derive(Drop)]
pub struct LinuxFiles {
    parts: Parts,
}

impl Model for LinuxFiles {
    ghost use Rattle.linux_files.specs.Seen.{IsStore};
    ghost use Rattle.linux_files.specs.contracts.parts.Parts as parts_row;
    ghost use Rattle.linux_files.specs.declared.parts.Parts.{Parts};

    ghost Value = { Parts };

    ghost coded = { parts_row.the_row.coded };

    ghost view = { λ f. f.parts };

    ghost invariant = { λ f. IsStore f.parts };
}

impl LinuxFiles {
    /// The root alone.
    pub fn new(alloc: Global) -> Result<LinuxFiles, NoMemory>
        ensures { IfOk result (λ files. seen_parts files ≡ root_only) }
    {
        Ok(LinuxFiles {
            parts: Parts::new(alloc)?,
        })
    }

    /// Whether each description is held by so few calls that one more can be counted. All of them are gone through.
    pub fn few_calls(&self) -> bool
        ensures exactly { result ≡ each_row (λ d (x : Description). nat_lt x.calls (2 ^ 32 - 1)) (seen_parts self.now).descriptions }
        ensures few { IsTrue result → FewCalls (seen_parts self.now) }
    {
        self.parts.few_calls()
    }

    /// Whether descriptors of a process are kept: `process` asks that they aren't.
    pub fn has_descriptors(&self, pid: Pid) -> bool
        ensures { result ≡ is_some (at (seen_parts self.now).descriptors pid.0) }
    {
        self.parts.has_descriptors(pid)
    }

    /// The pipe that a description is open on, and whether it is the read end: None exactly where it is open on no pipe.
    pub fn end_of(&self, d: u32) -> Option<(u32, bool)>
        ensures { result ≡ pipe_end (description_of (seen_parts self.now) d).target }
    {
        match self.parts.description_of(d).target {
            Target::ReadEnd(pipe) => Some((pipe, true)),
            Target::WriteEnd(pipe) => Some((pipe, false)),
            Target::OfNode(_) | Target::OfConsole(_) => None,
        }
    }
}
