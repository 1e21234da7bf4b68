// Sinks: where text goes.
ghost use Rattle.std.specs.Prelude.{◌≡◌, ℕ, ◌≤◌, ◌<◌, ◌+◌, ◌-◌, ◌++◌, ◌↔◌, List, [], Option, Some, None, Ok, IfOk, OnErr, IsErr, IsTrue, length, take, vec_len, vec_capacity, if◌then◌else◌};
ghost use Rattle.outside.specs.Outside.{Rose, Takes};
ghost use Rattle.outside.specs.Devices.{is_to_fail, one_more, put_fails, put_length};

use mck_word::NoMemory;
use std::alloc::Global;

/// A put failed, and nothing was taken.
#[derive(Clone, Copy, Debug, PartialEq, Eq)]
pub struct Failed;

/// Where text goes.
pub trait Sink {
    /// The bytes that were taken so far, where the sink tells them.
    ghost taken: { Self → Option (List ℕ) };

    /// How often a put failed. The count never falls.
    ghost faults: { Self → ℕ };

    /// Takes a front of the piece, and says how long it is: at least a byte where the piece is not empty. `Failed` comes only where
    /// the count of faults rose, and never for an empty piece.
    fn put(&mut self, piece: &[u8]) -> Result<usize, Failed>
        ensures rises { faults self.old ≤ faults self.new }
        ensures within { IfOk result (λ n. n ≤ length piece.now) }
        ensures some { IfOk result (λ n. 0 < length piece.now → 0 < n) }
        ensures empty { piece.now ≡ [] → result ≡ Ok 0 }
        ensures ok { IfOk result (λ n. Takes (taken self.old) (take n piece.now) (taken self.new)) }
        ensures failed { OnErr result (Rose (faults self.old) (faults self.new)) }
        ensures kept { OnErr result (taken self.new ≡ taken self.old) };
}

/// A sink in memory, which tells all. One put takes at most `most` bytes, and there is room for `room` more in all. The puts with a
/// number in `failing`, counted from 0, fail.
#[derive(Drop)]
pub struct MemSink {
    pub taken: Vec<u8>,
    pub room: usize,
    pub most: usize,
    pub failing: Vec<u64>,
    /// How many puts there were.
    pub puts: u64,
    /// How many of them failed.
    pub faults: u64,
    pub ghost has_room: { vec_len taken + room ≤ vec_capacity taken },
    pub ghost takes_some: { 0 < most },
}

fn is_to_fail(failing: &[u64], call: u64) -> bool
    ensures { result ≡ is_to_fail failing.now call }
{
    failing.contains(&call)
}

impl MemSink {
    /// An empty sink with room for so many bytes, of which one put takes at most `most`.
    pub fn new(
        alloc: Global,
        room: usize,
        most: usize,
        failing: Vec<u64>,
    ) -> Result<MemSink, NoMemory>
        requires { 0 < most }
        ensures taken { IfOk result (λ sink. sink.taken.items ≡ []) }
        ensures room { IfOk result (λ sink. sink.room ≡ room) }
        ensures most { IfOk result (λ sink. sink.most ≡ most) }
        ensures failing { IfOk result (λ sink. sink.failing.items ≡ failing.items) }
        ensures counts { IfOk result (λ sink. (sink.puts ≡ 0) × (sink.faults ≡ 0)) }
    {
        let taken = Vec::with_capacity(alloc, room)?;
        Ok(MemSink {
            taken,
            room,
            most,
            failing,
            puts: 0,
            faults: 0,
        })
    }

    /// What it has taken.
    pub fn taken(&self) -> &[u8]
        ensures { result.now ≡ self.now.taken.items }
    {
        &self.taken
    }
}

impl Sink for MemSink {
    ghost taken = { λ sink. Some sink.taken.items };

    ghost faults = { λ sink. sink.faults };

    /// As the trait has it. It fails exactly where the piece is not empty and it is to fail or finds no room, and takes as much as the
    /// piece, `most` and the room allow.
    fn put(&mut self, piece: &[u8]) -> Result<usize, Failed>
        ensures rises { self.old.faults ≤ self.new.faults }
        ensures within { IfOk result (λ n. n ≤ length piece.now) }
        ensures some { IfOk result (λ n. 0 < length piece.now → 0 < n) }
        ensures empty { piece.now ≡ [] → result ≡ Ok 0 }
        ensures ok { IfOk result (λ n. Takes (Some self.old.taken.items) (take n piece.now) (Some self.new.taken.items)) }
        ensures failed { OnErr result (Rose self.old.faults self.new.faults) }
        ensures kept { OnErr result (Some self.new.taken.items ≡ Some self.old.taken.items) }
        ensures fails { IsErr result ↔ IsTrue (put_fails self.old.failing.items self.old.puts self.old.room piece.now) }
        ensures length { IfOk result (λ n. n ≡ put_length self.old.most self.old.room piece.now) }
        ensures room { IfOk result (λ n. self.new.room + n ≡ self.old.room) }
        ensures counted { self.new.puts ≡ one_more self.old.puts }
        ensures faults { self.new.faults ≡ (if put_fails self.old.failing.items self.old.puts self.old.room piece.now then one_more self.old.faults else self.old.faults) }
        ensures same { (self.new.most ≡ self.old.most) × (self.new.failing.items ≡ self.old.failing.items) }
    {
        let number = self.puts;
        self.puts = self.puts.saturating_add(1);
        if piece.is_empty() {
            return Ok(0);
        }
        if is_to_fail(&self.failing, number) || self.room == 0 {
            self.faults = self.faults.saturating_add(1);
            return Err(Failed);
        }
        let n = piece.len().min(self.most).min(self.room);
        match self.taken.extend_from_slice(&piece[..n]) {
            Ok(()) => {
                self.room -= n;
                Ok(n)
            }
            Err(_) => unreachable!(),
        }
    }
}

/// A sink that takes every piece whole, keeps none of it and tells nothing.
#[derive(Drop)]
pub struct SureSink;

impl Sink for SureSink {
    ghost taken = { λ _. None };

    ghost faults = { λ _. 0 };

    fn put(&mut self, piece: &[u8]) -> Result<usize, Failed> {
        Ok(piece.len())
    }
}
