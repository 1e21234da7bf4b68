// The bytes of a file.
ghost use Rattle.std.specs.Prelude.{◌≡◌, ◌≤◌, ◌+◌, ◌-◌, ◌++◌, [], IfOk, length, replicate, vec_len};
ghost use Rattle.std.specs.Vec.{vec_capacity};
ghost use Rattle.mck_word.specs.Lists.{spliced};

use mck_word::NoMemory;
use std::alloc::Global;
use std::marker::Model;
use std::mem;

/// The bytes of a file, seen as the list of its bytes.
#[derive(Drop)]
pub struct FileBytes {
    bytes: Vec<u8>,
}

impl Model for FileBytes {
    ghost use Rattle.std.specs.Prelude.{List, ℕ};

    ghost Value = { List ℕ };

    ghost view = { λ b. b.bytes.items };
}

/// Moves the bytes into the spare buffer, which takes the place of their own.
pub fn change_buffer(bytes: &mut Vec<u8>, spare: &mut Vec<u8>)
    requires { vec_len bytes.old ≤ vec_capacity spare.old }
    ensures items { bytes.new.items ≡ bytes.old.items }
    ensures len { vec_len bytes.new ≡ vec_len bytes.old }
    ensures capacity { vec_capacity spare.old ≤ vec_capacity bytes.new }
{
    spare.clear();
    let _ = spare.extend_from_slice(bytes);
    mem::swap(bytes, spare);
}

/// Puts bytes in place of those at an offset.
fn put_at(bytes: &mut [u8], offset: usize, from: &[u8])
    requires { offset + length from.now ≤ length bytes.old }
    ensures { bytes.new ≡ spliced bytes.old offset from.now }
{
    let (_, rest) = bytes.split_at_mut(offset);
    let (there, _) = rest.split_at_mut(from.len());
    there.copy_from_slice(from);
}

/// Fills up with zeros to that length.
fn fill(bytes: &mut Vec<u8>, end: usize)
    requires { end ≤ vec_capacity bytes.old }
    ensures items { bytes.new.items ≡ bytes.old.items ++ replicate (end - length bytes.old.items) 0 }
    ensures len { end ≤ vec_len bytes.new }
{
    if bytes.len() < end {
        let _ = bytes.resize(end, 0);
    }
}

/// Puts bytes at an offset, behind zeros where the bytes end before it.
fn splice(bytes: &mut Vec<u8>, offset: usize, from: &[u8])
    requires { offset + length from.now ≤ vec_capacity bytes.old }
    ensures { bytes.new.items ≡ spliced bytes.old.items offset from.now }
{
    fill(bytes, offset + from.len());
    put_at(bytes, offset, from);
}

impl FileBytes {
    /// No bytes. Can't fail.
    pub fn new(alloc: Global) -> FileBytes
        ensures { result ≡ [] }
    {
        FileBytes {
            bytes: Vec::new(alloc),
        }
    }

    /// A copy of these bytes.
    pub fn from_slice(alloc: Global, bytes: &[u8]) -> Result<FileBytes, NoMemory>
        ensures { IfOk result (λ copy. copy ≡ bytes.now) }
    {
        Ok(FileBytes {
            bytes: Vec::from_slice(alloc, bytes)?,
        })
    }

    /// The bytes.
    pub fn as_slice(&self) -> &[u8]
        ensures { result.now ≡ self.now }
    {
        &self.bytes
    }

    /// Takes all bytes away.
    pub fn clear(&mut self)
        ensures { self.new ≡ [] }
    {
        self.bytes.clear();
    }

    /// Puts bytes at an offset. The spare buffer takes the place of the own one where that is too small.
    pub fn write(&mut self, offset: usize, from: &[u8], spare: &mut Vec<u8>)
        requires { offset + length from.now ≤ vec_capacity spare.old }
        ensures { self.new ≡ spliced self.old offset from.now }
    {
        if self.bytes.capacity() < offset + from.len() {
            change_buffer(&mut self.bytes, spare);
        }
        splice(&mut self.bytes, offset, from);
    }
}
