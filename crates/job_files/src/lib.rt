//! A store of files as a job fills it: made with the root alone, and given the job's files one after another.
//!
//! Promises: over any such store the boot of a node puts in what the job says. Each method is one word of the definitions of files
//! (file_model, specs/Files and Paths), as in the trait of file calls; what fails leaves the files as they were. The plain store
//! of one_files is one.
#![tactic(auto)]

ghost use Rattle.std.specs.Prelude.{◌≡◌, IfOk, OnErr, OnOk};
ghost use Rattle.file_model.specs.Files.{root_only};
ghost use Rattle.file_model.specs.Paths.{with_file};

use file_calls::listing::Listing;
use mck_word::NoMemory;
use one_files::RowFiles;
use std::alloc::Global;

/// A store of files that a job's files can be put into.
pub trait JobFiles: Listing + Drop {
    /// A store with the root alone.
    fn with_root(alloc: Global) -> Result<Self, NoMemory>
        ensures { IfOk result (λ store. Self.files store ≡ root_only) };

    /// Adds a file with those bytes; the directories above its last name are made where they are missing.
    ///
    /// An error comes where there is no memory for it, or where a name has more than 255 bytes, which no path of a job has.
    fn add_file(&mut self, path: &[u8], bytes: &[u8]) -> Result<(), NoMemory>
        ensures ok { OnOk result (Self.files self.new ≡ with_file path.now bytes.now (Self.files self.old)) }
        ensures err { OnErr result (Self.files self.new ≡ Self.files self.old) };
}

impl JobFiles for RowFiles {
    fn with_root(alloc: Global) -> Result<RowFiles, NoMemory> {
        RowFiles::new(alloc)
    }

    fn add_file(&mut self, path: &[u8], bytes: &[u8]) -> Result<(), NoMemory> {
        self.file(path, bytes)
    }
}
