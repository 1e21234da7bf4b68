//! Files on plain lists of rows: the plain store of files, which a fast one is compared with.
//!
//! Promises: the store is seen as the files of file_model's specs/Files (specs/Seen), and each method is one word of the
//! definitions on them, as the trait in file_calls has it. What takes memory is apart from what acts. Rows are found by halving;
//! names, and what goes when nobody names it any more, are found by going through all rows.
#![tactic(auto)]

pub mod console;
pub mod consoles;
pub mod descriptors;
pub mod file_bytes;
mod job;
mod listing;
pub mod names;
pub mod node;
pub mod nodes;
pub mod open_file;
mod opens;
mod room;
pub mod settle;
pub mod short_name;
mod store;
pub mod stream;

ghost use Rattle.std.specs.Prelude.{◌≡◌, IfOk};
ghost use Rattle.file_model.specs.Files.{root_only};
ghost use Rattle.one_files.specs.Seen.{seen};

use consoles::Consoles;
use descriptors::Descriptors;
use key_rows::Rows;
use mck_word::NoMemory;
use nodes::Nodes;
use open_file::OpenFile;
use std::alloc::Global;
use stream::Stream;

/// The files of a node: the tree, pipes, open descriptions, descriptors by process, and consoles, each in rows by number.
///
/// The spare buffer is room for what is written next: it takes the place of a buffer that is too small.
#[derive(Drop)]
pub struct RowFiles {
    nodes: Nodes,
    pipes: Rows<Stream>,
    descriptions: Rows<OpenFile>,
    descriptors: Rows<Descriptors>,
    consoles: Consoles,
    spare: Vec<u8>,
    alloc: Global,
}

impl RowFiles {
    /// The root alone.
    pub fn new(alloc: Global) -> Result<RowFiles, NoMemory>
        ensures { IfOk result (λ files. seen files ≡ root_only) }
    {
        Ok(RowFiles {
            nodes: Nodes::new(alloc)?,
            pipes: Rows::new(alloc),
            descriptions: Rows::new(alloc),
            descriptors: Rows::new(alloc),
            consoles: Consoles::new(alloc),
            spare: Vec::new(alloc),
            alloc,
        })
    }
}
