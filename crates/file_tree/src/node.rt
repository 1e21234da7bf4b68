// A node of the tree.
ghost use Rattle.std.specs.Prelude.{◌≡◌, ◌≤◌, ◌<◌, ◌+◌, ◌^◌, Some, None, [], OnOk, length};
ghost use Rattle.std.specs.Option.{option_copied};
ghost use Rattle.mck_word.specs.Lists.{spliced};
ghost use Rattle.file_model.specs.Files.{empty_directory};

use crate::bytes::write_at;
use arrayvec::ArrayVec;
use mck_word::NoMemory;
use std::alloc::Global;
use std::marker::Model;

/// A name of at most 255 bytes, seen as its bytes. It is kept in place.
#[derive(Drop)]
pub struct ShortName {
    bytes: ArrayVec<u8, 255>,
}

impl Model for ShortName {
    ghost use Rattle.std.specs.Prelude.{List, ℕ};

    ghost Value = { List ℕ };

    ghost view = { λ n. n.bytes.items };
}

impl ShortName {
    /// The name of these bytes.
    pub fn new(bytes: &[u8]) -> ShortName
        requires { length bytes.now ≤ 255 }
        ensures { result ≡ bytes.now }
    {
        let mut name = ArrayVec::new();
        let _ = name.try_extend_from_slice(bytes);
        ShortName { bytes: name }
    }

    /// Its bytes.
    pub fn as_slice(&self) -> &[u8]
        ensures { result.now ≡ self.now }
    {
        self.bytes.as_slice()
    }
}

/// A file or directory with its number, seen as the definition's beside `number` and `room`, how many bytes it has memory for.
#[derive(Drop)]
pub struct FileNode {
    number: u64,
    parent: u64,
    name: Option<ShortName>,
    directory: bool,
    bytes: Vec<u8>,
}

impl Model for FileNode {
    ghost use Rattle.std.specs.Vec.{vec_capacity};
    ghost use Rattle.file_tree.specs.Codes.{node_code};
    ghost use Rattle.file_tree.specs.Tables.{NodeRow};

    ghost Value = { NodeRow };

    ghost coded = { node_code };

    ghost view = { λ n. record { number = n.number; inode = record { parent = n.parent; name = n.name; directory = n.directory; bytes = n.bytes.items }; room = vec_capacity n.bytes } };
}

impl FileNode {
    /// A file with those bytes, or a directory, with a name in a directory. Can't fail.
    pub fn new(number: u64, parent: u64, name: &[u8], directory: bool, bytes: Vec<u8>) -> FileNode
        requires { length name.now ≤ 255 }
        ensures number { result.number ≡ number }
        ensures inode { result.inode ≡ record { parent = parent; name = Some name.now; directory = directory; bytes = bytes.items } }
    {
        FileNode {
            number,
            parent,
            name: Some(ShortName::new(name)),
            directory,
            bytes,
        }
    }

    /// The root, which stands in itself. Can't fail.
    pub fn root(alloc: Global) -> FileNode
        ensures number { result.number ≡ 1 }
        ensures inode { result.inode ≡ empty_directory 1 None }
    {
        FileNode {
            number: 1,
            parent: 1,
            name: None,
            directory: true,
            bytes: Vec::new(alloc),
        }
    }

    /// The directory that it stands in.
    pub fn parent(&self) -> u64
        ensures { result ≡ self.now.inode.parent }
    {
        self.parent
    }

    /// Its name.
    pub fn name(&self) -> Option<&[u8]>
        ensures { option_copied result ≡ self.now.inode.name }
    {
        match &self.name {
            Some(name) => Some(name.as_slice()),
            None => None,
        }
    }

    /// Whether it is a directory.
    pub fn is_directory(&self) -> bool
        ensures { result ≡ self.now.inode.directory }
    {
        self.directory
    }

    /// Its bytes.
    pub fn bytes(&self) -> &[u8]
        ensures { result.now ≡ self.now.inode.bytes }
    {
        &self.bytes
    }

    /// Makes room for bytes up to that end.
    pub fn reserve(&mut self, end: usize) -> Result<(), NoMemory>
        ensures number { self.new.number ≡ self.old.number }
        ensures inode { self.new.inode ≡ self.old.inode }
        ensures room { OnOk result (end ≤ self.new.room) }
    {
        if end > self.bytes.len() {
            self.bytes.reserve(end - self.bytes.len())?;
        }
        Ok(())
    }

    /// Puts bytes at an offset, in place.
    pub fn write(&mut self, offset: usize, from: &[u8])
        requires { offset + length from.now ≤ self.old.room }
        ensures number { self.new.number ≡ self.old.number }
        ensures inode { self.new.inode ≡ record self.old.inode { bytes = spliced self.old.inode.bytes offset from.now } }
    {
        write_at(&mut self.bytes, offset, from);
    }

    /// Takes its bytes away.
    pub fn clear(&mut self)
        ensures number { self.new.number ≡ self.old.number }
        ensures inode { self.new.inode ≡ record self.old.inode { bytes = [] } }
    {
        self.bytes.clear();
    }

    /// Takes its name away.
    pub fn unname(&mut self)
        ensures number { self.new.number ≡ self.old.number }
        ensures inode { self.new.inode ≡ record self.old.inode { name = None } }
    {
        self.name = None;
    }
}
