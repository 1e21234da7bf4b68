// Bytes that come in at one end and go out at the other.
ghost use Rattle.std.specs.Prelude.{◌≡◌, ◌≤◌, ◌<◌, ◌+◌, ◌-◌, ◌^◌, ◌++◌, [], IfOk, length, take, drop, vec_len};
ghost use Rattle.std.specs.Vec.{vec_capacity};

use crate::file_bytes::change_buffer;
use mck_word::NoMemory;
use std::alloc::Global;
use std::marker::Model;

/// The bytes of a stream that are left, seen as their list.
#[derive(Drop)]
pub struct Stream {
    bytes: Vec<u8>,
    start: usize,
}

impl Model for Stream {
    ghost use Rattle.std.specs.Prelude.{List, ℕ, ◌≤◌, drop, vec_len};

    ghost Value = { List ℕ };

    ghost view = { λ s. drop s.start s.bytes.items };

    ghost invariant = { λ s. s.start ≤ vec_len s.bytes };
}

/// Adds bytes for which there is room.
fn append(v: &mut Vec<u8>, bytes: &[u8])
    requires { vec_len v.old + length bytes.now ≤ vec_capacity v.old }
    ensures items { v.new.items ≡ v.old.items ++ bytes.now }
    ensures len { vec_len v.new ≡ vec_len v.old + length bytes.now }
{
    let _ = v.extend_from_slice(bytes);
}

/// Takes bytes away at the front.
fn drop_front(v: &mut Vec<u8>, n: usize)
    requires { n ≤ vec_len v.old }
    ensures items { v.new.items ≡ drop n v.old.items }
    ensures len { vec_len v.new ≡ vec_len v.old - n }
    ensures capacity { vec_capacity v.new ≡ vec_capacity v.old }
{
    let left = v.len() - n;
    v.rotate_left(n);
    v.truncate(left);
}

impl Stream {
    /// No bytes. Can't fail.
    pub fn new(alloc: Global) -> Stream
        ensures { result ≡ [] }
    {
        Stream {
            bytes: Vec::new(alloc),
            start: 0,
        }
    }

    /// A copy of these bytes.
    pub fn from_slice(alloc: Global, bytes: &[u8]) -> Result<Stream, NoMemory>
        ensures { IfOk result (λ s. s ≡ bytes.now) }
    {
        Ok(Stream {
            bytes: Vec::from_slice(alloc, bytes)?,
            start: 0,
        })
    }

    /// The bytes that are left.
    pub fn as_slice(&self) -> &[u8]
        ensures { result.now ≡ self.now }
    {
        &self.bytes[self.start..]
    }

    /// How many bytes are left.
    pub fn len(&self) -> usize
        ensures len { result ≡ length self.now }
        ensures bound { result < 2 ^ 63 }
    {
        self.bytes.len() - self.start
    }

    /// Fills the buffer with bytes from the front, and takes them away.
    pub fn take(&mut self, into: &mut [u8])
        requires { length into.old ≤ length self.old }
        ensures bytes { into.new ≡ take (length into.old) self.old }
        ensures rest { self.new ≡ drop (length into.old) self.old }
    {
        let end = self.start + into.len();
        into.copy_from_slice(&self.bytes[self.start..end]);
        self.start = end;
    }

    /// Adds bytes. The spare buffer takes the place of the own one where that is too small.
    pub fn add(&mut self, from: &[u8], spare: &mut Vec<u8>)
        requires { length self.old + length from.now ≤ vec_capacity spare.old }
        ensures { self.new ≡ self.old ++ from.now }
    {
        if self.bytes.capacity() - self.bytes.len() < from.len() {
            drop_front(&mut self.bytes, self.start);
            self.start = 0;
            change_buffer(&mut self.bytes, spare);
        }
        append(&mut self.bytes, from);
    }
}
