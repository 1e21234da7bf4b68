// The parts of the store of files.
ghost use Rattle.std.specs.Prelude.{◌≡◌, ◌||◌, IfOk, ℕ, is_some, nat_lt};
ghost use Rattle.file_model.specs.Files.{is_same_target, root_only};
ghost use Rattle.linux_files.specs.Seen.{IsStore, has_end, seen_parts};

use crate::consoles::Consoles;
use crate::descriptors::Descriptors;
use crate::open_file::OpenFile;
use crate::pipes::Pipes;
use file_model::Target;
use file_tree::counts::Counts;
use file_tree::tree::Tree;
use key_rows::Rows;
use mck_word::NoMemory;
use std::alloc::Global;

/// The pipes of which maybe no end is open.
#[derive(Clone, Copy, PartialEq, Eq, Debug)]
pub enum Loose {
    AllOpen,
    One(u32),
    Any,
}

/// The tree, pipes, consoles, open descriptions and descriptors by process, and who names what: how many descriptors name each
/// description, and how many descriptions are open on each end of each pipe. `loose` and `unsettled` tell what may have to go when
/// next something is closed: pipes of which no end is open, and descriptions that nothing uses.
#[derive(Drop)]
pub struct Parts {
    pub tree: Tree,
    pub pipes: Pipes,
    pub consoles: Consoles,
    pub descriptions: Rows<OpenFile>,
    pub descriptors: Rows<Descriptors>,
    pub named: Counts,
    pub readers: Counts,
    pub writers: Counts,
    pub loose: Loose,
    pub unsettled: bool,
    pub alloc: Global,
}

impl Parts {
    /// The root alone.
    pub fn new(alloc: Global) -> Result<Parts, NoMemory>
        ensures files { IfOk result (λ p. seen_parts p ≡ root_only) }
        ensures store { IfOk result IsStore }
    {
        Ok(Parts {
            tree: Tree::new(alloc)?,
            pipes: Pipes::new(alloc),
            consoles: Consoles::new(alloc),
            descriptions: Rows::new(alloc),
            descriptors: Rows::new(alloc),
            named: Counts::new(alloc),
            readers: Counts::new(alloc),
            writers: Counts::new(alloc),
            loose: Loose::AllOpen,
            unsettled: false,
            alloc,
        })
    }

    /// Whether an end of a pipe is open.
    pub fn has_end(&self, pipe: u64) -> bool
        ensures { result ≡ has_end self.now pipe }
    {
        self.readers.has(pipe) || self.writers.has(pipe)
    }
}
