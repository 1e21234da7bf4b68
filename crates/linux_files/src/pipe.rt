// The bytes of a pipe.
ghost use Rattle.std.specs.Prelude.{◌≡◌, ◌≤◌, ◌<◌, ◌+◌, ◌^◌, ◌++◌, [], OnOk, length, take, drop};
ghost use Rattle.circular_buffer.specs.Buffer.{buffer};

use circular_buffer::HeapCircularBuffer;
use mck_word::NoMemory;
use std::alloc::Global;
use std::marker::Model;

/// The least room that a pipe with bytes has.
const LEAST_ROOM: usize = 512;

/// The bytes of a pipe, in a ring that grows as it is needed, seen as them and as the number that there is room for.
#[derive(Drop)]
pub struct Pipe {
    ring: Option<HeapCircularBuffer<u8>>,
}

impl Model for Pipe {
    ghost use Rattle.circular_buffer.specs.Buffer.{Buffer, buffer_code};
    ghost use Rattle.linux_files.specs.Rings.{ring_of};
    ghost use Rattle.std.specs.Coded.{coded_ℕ};
    ghost use Rattle.std.specs.Prelude.{ℕ};

    ghost Value = { Buffer ℕ };

    ghost coded = { buffer_code coded_ℕ };

    ghost view = { λ p. ring_of p.ring };
}

/// A ring for at least so many bytes, which may grow in few steps.
fn grown(capacity: usize, end: usize) -> usize
    requires { capacity < 2 ^ 63 }
    ensures { end ≤ result }
{
    end.max(2 * capacity).max(LEAST_ROOM)
}

impl Pipe {
    /// No bytes. Can't fail.
    pub fn new() -> Pipe
        ensures { result ≡ buffer [] 0 }
    {
        Pipe { ring: None }
    }

    /// How many bytes there are.
    pub fn len(&self) -> usize
        ensures len { result ≡ length self.now.items }
        ensures bound { result < 2 ^ 63 }
    {
        match &self.ring {
            Some(ring) => ring.len(),
            None => 0,
        }
    }

    /// Makes room for so many bytes.
    pub fn reserve(&mut self, alloc: Global, end: usize) -> Result<(), NoMemory>
        ensures items { self.new.items ≡ self.old.items }
        ensures room { OnOk result (end ≤ self.new.capacity) }
    {
        match &mut self.ring {
            Some(ring) => {
                if end > ring.capacity() {
                    ring.resize(grown(ring.capacity(), end))?;
                }
            }
            None => self.ring = Some(HeapCircularBuffer::with_capacity(alloc, grown(0, end))?),
        }
        Ok(())
    }

    /// Fills the buffer with bytes from the front, and takes them away.
    pub fn take(&mut self, into: &mut [u8])
        requires { length into.old ≤ length self.old.items }
        ensures bytes { into.new ≡ take (length into.old) self.old.items }
        ensures rest { self.new ≡ buffer (drop (length into.old) self.old.items) self.old.capacity }
    {
        if let Some(ring) = &mut self.ring {
            let _ = ring.read_into(into);
        }
    }

    /// Adds bytes at the end.
    pub fn add(&mut self, from: &[u8])
        requires { length self.old.items + length from.now ≤ self.old.capacity }
        ensures { self.new ≡ buffer (self.old.items ++ from.now) self.old.capacity }
    {
        if let Some(ring) = &mut self.ring {
            let _ = ring.fill_from_slice(from);
        }
    }
}
