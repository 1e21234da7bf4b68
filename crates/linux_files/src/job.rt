// The files of a job.
ghost use Rattle.std.specs.Prelude.{◌≡◌, ◌≤◌, ◌<◌, ◌+◌, ◌^◌, IfSome, IsTrue, OnErr, OnOk, length, vec_len};
ghost use Rattle.file_model.specs.Paths.{add_file, names_of, with_file};
ghost use Rattle.file_tree.specs.Trees.{bytes_in};
ghost use Rattle.linux_files.specs.Jobs.{AreShort, CanBeMade, IsClear};
ghost use Rattle.linux_files.specs.Same.{IsSame};
ghost use Rattle.linux_files.specs.Seen.{IsStore, seen_parts};

use crate::LinuxFiles;
use crate::parts::Parts;
use file_calls::names::next_name;
use mck_word::NoMemory;

/// The number of the root.
const ROOT: u64 = 1;

/// How many names a path has: None where one has more than 255 bytes.
fn name_count(path: &[u8]) -> Option<u64>
    ensures count { IfSome result (λ n. n ≡ length (names_of path.now)) }
    ensures short { IfSome result (λ _. AreShort (names_of path.now)) }
    ensures few { IfSome result (λ n. n ≤ length path.now) }
{
    let Some((name, more)) = next_name(path) else {
        return Some(0);
    };
    if name.len() > 255 {
        return None;
    }
    match name_count(more) {
        Some(n) => Some(n + 1),
        None => None,
    }
}

impl Parts {
    /// Whether no name of the path is there, each in a directory of its own, which have the numbers from `directory` on.
    fn is_clear(&self, directory: u64, path: &[u8]) -> bool
        ensures { IsTrue result → IsClear (seen_parts self.now) directory (names_of path.now) }
    {
        let Some((name, more)) = next_name(path) else {
            return true;
        };
        if directory == u64::MAX || self.tree.find(directory, name).is_some() {
            return false;
        }
        self.is_clear(directory + 1, more)
    }

    /// Adds a file with those bytes at a path of names that aren't there, and the directories above its last name.
    fn make_path(&mut self, here: u64, path: &[u8], bytes: Vec<u8>)
        requires room { length (names_of path.now) ≤ self.old.tree.spare }
        requires short { AreShort (names_of path.now) }
        requires fits { bytes_in self.old.tree.map + vec_len bytes < 2 ^ 64 }
        requires below { here < self.old.tree.next }
        requires clear { CanBeMade (seen_parts self.old) here (names_of path.now) }
        ensures files { seen_parts self.new ≡ add_file here (names_of path.now) bytes.items (seen_parts self.old) }
        ensures holds { self.new.tree.holds ≡ self.old.tree.holds }
        ensures rest { self.new ≡ record self.old { tree = self.new.tree } }
    {
        let Some((name, more)) = next_name(path) else {
            return;
        };
        if next_name(more).is_none() {
            self.tree.insert(here, name, false, bytes);
            return;
        }
        let next = self.tree.next();
        self.tree.add(here, name, true);
        self.make_path(next, more, bytes);
    }

    /// Adds a file with those bytes at a path from a directory on; the directories above its last name are made where they are
    /// missing. An error comes where there is such a file.
    fn add_file(&mut self, here: u64, path: &[u8], bytes: Vec<u8>) -> Result<(), NoMemory>
        requires room { length (names_of path.now) ≤ self.old.tree.spare }
        requires short { AreShort (names_of path.now) }
        requires fits { bytes_in self.old.tree.map + vec_len bytes < 2 ^ 64 }
        ensures ok { OnOk result (seen_parts self.new ≡ add_file here (names_of path.now) bytes.items (seen_parts self.old)) }
        ensures err { OnErr result (seen_parts self.new ≡ seen_parts self.old) }
        ensures holds { self.new.tree.holds ≡ self.old.tree.holds }
        ensures rest { self.new ≡ record self.old { tree = self.new.tree } }
    {
        let Some((name, more)) = next_name(path) else {
            return Ok(());
        };
        match self.tree.find(here, name) {
            Some(there) => {
                if next_name(more).is_none() {
                    return Err(NoMemory);
                }
                self.add_file(there, more, bytes)
            }
            None => {
                let next = self.tree.next();
                if here >= next || !self.is_clear(next, more) {
                    return Err(NoMemory);
                }
                self.make_path(here, path, bytes);
                Ok(())
            }
        }
    }

    /// Adds a file of the job.
    fn add_job_file(&mut self, path: &[u8], bytes: &[u8]) -> Result<(), NoMemory>
        requires { IsStore self.old }
        ensures ok { OnOk result (seen_parts self.new ≡ with_file path.now bytes.now (seen_parts self.old)) }
        ensures err { OnErr result (seen_parts self.new ≡ seen_parts self.old) }
        ensures store { IsStore self.new }
    {
        let Some(names) = name_count(path) else {
            return Err(NoMemory);
        };
        if bytes.len() as u64 > u64::MAX - self.tree.bytes() {
            return Err(NoMemory);
        }
        let bytes = Vec::from_slice(self.alloc, bytes)?;
        self.tree.reserve(names)?;
        self.add_file(ROOT, path, bytes)
    }
}

impl LinuxFiles {
    /// Adds a file of the job; the directories above its last name are made where they are missing.
    ///
    /// An error comes where there is no memory for it, and where a name has more than 255 bytes or the path is there already, which
    /// is so of no path of a job. Then the files are as before.
    pub fn file(&mut self, path: &[u8], bytes: &[u8]) -> Result<(), NoMemory>
        ensures ok { OnOk result (seen_parts self.new ≡ with_file path.now bytes.now (seen_parts self.old)) }
        ensures err { OnErr result (seen_parts self.new ≡ seen_parts self.old) }
    {
        self.parts.add_job_file(path, bytes)
    }
}
