// The files of a job.
ghost use Rattle.std.specs.Prelude.{◌≡◌, ◌≤◌, OnOk, OnErr, IfSome, length};
ghost use Rattle.file_model.specs.Paths.{add_file, names_of, with_file};
ghost use Rattle.one_files.specs.Seen.{room_of, seen};
ghost use Rattle.one_files.specs.Short.{AreShort};

use crate::RowFiles;
use crate::file_bytes::FileBytes;
use crate::names::child_in;
use crate::node::FileNode;
use file_calls::names::next_name;
use mck_word::NoMemory;

/// How many names a path has: None where one has more than 255 bytes.
fn name_count(path: &[u8]) -> Option<u64>
    ensures count { IfSome result (λ n. n ≡ length (names_of path.now)) }
    ensures short { IfSome result (λ _. AreShort (names_of path.now)) }
    ensures few { IfSome result (λ n. n ≤ length path.now) }
{
    let Some((name, more)) = next_name(path) else {
        return Some(0);
    };
    if name.len() > 255 {
        return None;
    }
    match name_count(more) {
        Some(n) => Some(n + 1),
        None => None,
    }
}

impl RowFiles {
    /// Adds a file with those bytes at a path from a directory on; the directories above its last name are made where they are
    /// missing.
    fn add_file(&mut self, here: u64, path: &[u8], bytes: FileBytes)
        requires room { length (names_of path.now) ≤ (room_of self.old).nodes }
        requires short { AreShort (names_of path.now) }
        ensures { seen self.new ≡ add_file here (names_of path.now) bytes (seen self.old) }
    {
        let Some((name, more)) = next_name(path) else {
            return;
        };
        if next_name(more).is_none() {
            self.nodes.add(FileNode::with_bytes(here, name, bytes));
            return;
        }
        match child_in(self.nodes.as_slice(), here, name) {
            Some(next) => self.add_file(next, more, bytes),
            None => {
                let next = self.nodes.next();
                self.nodes.add(FileNode::new(self.alloc, here, name, true));
                self.add_file(next, more, bytes);
            }
        }
    }

    /// Adds a file of the job; the directories above its last name are made where they are missing.
    ///
    /// An error comes where there is no memory for it, or where a name has more than 255 bytes, which no path of a job has. Then
    /// the files are as before.
    pub fn file(&mut self, path: &[u8], bytes: &[u8]) -> Result<(), NoMemory>
        ensures ok { OnOk result (seen self.new ≡ with_file path.now bytes.now (seen self.old)) }
        ensures err { OnErr result (seen self.new ≡ seen self.old) }
    {
        let Some(names) = name_count(path) else {
            return Err(NoMemory);
        };
        let bytes = FileBytes::from_slice(self.alloc, bytes)?;
        self.nodes.reserve(names)?;
        self.add_file(1, path, bytes);
        Ok(())
    }
}
