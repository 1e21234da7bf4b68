// A node of the tree.
ghost use Rattle.std.specs.Prelude.{◌≡◌, ◌≤◌, ◌<◌, ◌+◌, ◌^◌, Some, None, [], false, is_some, length, not};
ghost use Rattle.std.specs.Option.{option_copied};
ghost use Rattle.std.specs.Vec.{vec_capacity};
ghost use Rattle.mck_word.specs.Lists.{spliced};
ghost use Rattle.file_model.specs.Files.{empty_directory};
ghost use Rattle.file_model.specs.Paths.{bytes_before, stands_as};
ghost use Rattle.one_files.specs.Named.{name_below};
ghost use Rattle.one_files.specs.Slotted.{passes};

use crate::file_bytes::FileBytes;
use crate::short_name::ShortName;
use std::alloc::Global;
use std::cmp::Ordering;
use std::marker::Model;

/// A file or directory, seen as the definition's.
#[derive(Drop)]
pub struct FileNode {
    parent: u64,
    name: Option<ShortName>,
    directory: bool,
    bytes: FileBytes,
}

impl Model for FileNode {
    ghost use Rattle.file_model.specs.Files.{Inode};
    ghost use Rattle.one_files.specs.Codes.{inode_code};

    ghost Value = { Inode };

    ghost coded = { inode_code };

    ghost view = { λ n. record { parent = n.parent; name = n.name; directory = n.directory; bytes = n.bytes } };
}

/// Whether the first stands before the second in the order of bytes.
fn is_before(a: &[u8], b: &[u8]) -> bool
    ensures { result ≡ bytes_before a.now b.now }
{
    a.cmp(b) == Ordering::Less
}

impl FileNode {
    /// A node without bytes, with a name in a directory. Can't fail.
    pub fn new(alloc: Global, parent: u64, name: &[u8], directory: bool) -> FileNode
        requires { length name.now ≤ 255 }
        ensures { result ≡ record { parent = parent; name = Some name.now; directory = directory; bytes = [] } }
    {
        FileNode {
            parent,
            name: Some(ShortName::new(name)),
            directory,
            bytes: FileBytes::new(alloc),
        }
    }

    /// A file with those bytes, with a name in a directory.
    pub fn with_bytes(parent: u64, name: &[u8], bytes: FileBytes) -> FileNode
        requires { length name.now ≤ 255 }
        ensures { result ≡ record { parent = parent; name = Some name.now; directory = false; bytes = bytes } }
    {
        FileNode {
            parent,
            name: Some(ShortName::new(name)),
            directory: false,
            bytes,
        }
    }

    /// The root, which stands in itself. Can't fail.
    pub fn root(alloc: Global) -> FileNode
        ensures { result ≡ empty_directory 1 None }
    {
        FileNode {
            parent: 1,
            name: None,
            directory: true,
            bytes: FileBytes::new(alloc),
        }
    }

    /// The directory that it stands in.
    pub fn parent(&self) -> u64
        ensures { result ≡ self.now.parent }
    {
        self.parent
    }

    /// Its name.
    pub fn name(&self) -> Option<&[u8]>
        ensures { option_copied result ≡ self.now.name }
    {
        match &self.name {
            Some(name) => Some(name.as_slice()),
            None => None,
        }
    }

    /// Whether it is a directory.
    pub fn is_directory(&self) -> bool
        ensures { result ≡ self.now.directory }
    {
        self.directory
    }

    /// Its bytes.
    pub fn bytes(&self) -> &[u8]
        ensures { result.now ≡ self.now.bytes }
    {
        self.bytes.as_slice()
    }

    /// Whether it has that name in that directory.
    pub fn stands_as(&self, directory: u64, name: &[u8]) -> bool
        ensures { result ≡ stands_as directory name.now self.now }
    {
        match self.name() {
            Some(own) => self.parent == directory && own == name,
            None => false,
        }
    }

    /// Its name, where it stands in that directory.
    pub fn name_in(&self, directory: u64) -> Option<&[u8]>
        ensures { option_copied result ≡ name_below directory self.now }
    {
        if self.parent == directory {
            self.name()
        } else {
            None
        }
    }

    /// Whether it has a name in that directory.
    pub fn is_in(&self, directory: u64) -> bool
        ensures { result ≡ is_some (name_below directory self.now) }
    {
        self.name_in(directory).is_some()
    }

    /// Whether its name in that directory stands before another one.
    pub fn is_before(&self, directory: u64, name: &[u8]) -> bool
        ensures { result ≡ passes (λ n. bytes_before n name.now) (name_below directory self.now) }
    {
        match self.name_in(directory) {
            Some(own) => is_before(own, name),
            None => false,
        }
    }

    /// Whether it has a name in that directory that doesn't stand behind another one.
    pub fn is_up_to(&self, directory: u64, name: &[u8]) -> bool
        ensures { result ≡ passes (λ n. not (bytes_before name.now n)) (name_below directory self.now) }
    {
        match self.name_in(directory) {
            Some(own) => !is_before(name, own),
            None => false,
        }
    }

    /// Takes its bytes away.
    pub fn clear(&mut self)
        ensures { self.new ≡ record self.old { bytes = [] } }
    {
        self.bytes.clear();
    }

    /// Puts bytes at an offset. The spare buffer takes the place of the own one where that is too small.
    pub fn write(&mut self, offset: usize, from: &[u8], spare: &mut Vec<u8>)
        requires { offset + length from.now ≤ vec_capacity spare.old }
        ensures { self.new ≡ record self.old { bytes = spliced self.old.bytes offset from.now } }
    {
        self.bytes.write(offset, from, spare);
    }

    /// Takes its name away.
    pub fn unname(&mut self)
        ensures { self.new ≡ record self.old { name = None } }
    {
        self.name = None;
    }
}
