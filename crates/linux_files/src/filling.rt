// A job's files, put into the store.

use crate::LinuxFiles;
use job_files::JobFiles;
use mck_word::NoMemory;
use std::alloc::Global;

impl JobFiles for LinuxFiles {
    fn with_root(alloc: Global) -> Result<LinuxFiles, NoMemory> {
        LinuxFiles::new(alloc)
    }

    fn add_file(&mut self, path: &[u8], bytes: &[u8]) -> Result<(), NoMemory> {
        self.file(path, bytes)
    }
}
