//! What the two kernels share of one process: the book of its requests, the round under way, its rings to Linux and the ring back.
//!
//! Promises: `Rings` are seen as the lists of their messages by number, with the number that each takes (specs/Lines); posting and
//! taking are the words of hybrid_model's specs/Rings, in constant time; neither can fail. The channel is this project's own.
#![tactic(auto)]

ghost use Rattle.hybrid_model.specs.Rings.{all_empty, ring};
ghost use Rattle.hybrid_model.specs.Rings as rings;
ghost use Rattle.ikc_channel.specs.Lines.{posted, without_first};
ghost use Rattle.ikc_ring.specs.Rings as one_ring;
ghost use Rattle.request_book.specs.Requests.{no_requests};
ghost use Rattle.std.specs.List.{list_all};
ghost use Rattle.std.specs.Option.{option_copied};
ghost use Rattle.std.specs.Prelude.{◌≡◌, ◌<◌, ◌==◌, ◌≤◌, ◌^◌, [], IfOk, None, length, replicate};

use clear_rounds::Round;
use ikc_ring::{Msg, Ring};
use mck_word::NoMemory;
use request_book::Book;
use std::alloc::Global;
use std::marker::Model;

/// The rings of a process to Linux, seen as the messages of each and the number that each takes.
#[derive(Drop)]
pub struct Rings {
    rings: Vec<Ring>,
    capacity: u32,
}

fn is_empty(one: &Ring) -> bool
    ensures { result ≡ (length one.now.items == 0) }
{
    one.head().is_none()
}

fn all_are_empty(rings: &[Ring]) -> bool
    ensures { result ≡ list_all (λ r. length r.items == 0) rings.now }
{
    rings.iter().all(|one| is_empty(one))
}

impl Model for Rings {
    ghost use Rattle.ikc_channel.specs.Lines.{EachTakes, Lines, lines_code, messages_of};
    ghost use Rattle.ikc_ring.specs.contracts.Msg as message;

    ghost Value = { Lines };

    ghost coded = { lines_code message.the_row.coded };

    ghost view = { λ a. record { messages = messages_of a.rings.items; capacity = a.capacity } };

    ghost invariant = { λ a. EachTakes a.capacity a.rings.items };
}

#[tactic(auto, using(crate::proofs::Places::places))]
impl Rings {
    /// So many empty rings, each of which takes so many messages.
    pub fn new(alloc: Global, count: u32, capacity: u32) -> Result<Rings, NoMemory>
        ensures { IfOk result (λ r. r ≡ record { messages = replicate count []; capacity = capacity }) }
    {
        let mut rings = Vec::new(alloc);
        let mut made = 0;
        while made < count {
            rings.push(Ring::new(alloc, capacity)?)?;
            made += 1;
        }
        Ok(Rings { rings, capacity })
    }

    /// How many rings there are.
    pub fn len(&self) -> u32
        requires { length self.now.messages < 2 ^ 32 }
        ensures { result ≡ length self.now.messages }
    {
        self.rings.len() as u32
    }

    /// Puts a message behind the others of a ring.
    pub fn post(&mut self, r: u32, m: Msg)
        requires there { r < length self.old.messages }
        requires room { length (ring r self.old.messages) < self.old.capacity }
        ensures { self.new ≡ posted r m self.old }
    {
        self.rings[r as usize].post(m);
    }

    /// The first message of a ring, which stays: None exactly where there is none.
    pub fn head(&self, r: u32) -> Option<&Msg>
        ensures { option_copied result ≡ rings.head_of (ring r self.now.messages) }
    {
        if (r as usize) < self.rings.len() {
            self.rings[r as usize].head()
        } else {
            None
        }
    }

    /// Takes the first message of a ring: None exactly where there is none.
    pub fn take(&mut self, r: u32) -> Option<Msg>
        ensures value { result ≡ rings.head_of (ring r self.old.messages) }
        ensures rest { self.new ≡ without_first r self.old }
    {
        if (r as usize) < self.rings.len() {
            self.rings[r as usize].next()
        } else {
            None
        }
    }

    /// Whether no ring has a message.
    pub fn are_empty(&self) -> bool
        ensures { result ≡ all_empty self.now.messages }
    {
        all_are_empty(&self.rings)
    }
}

/// What the two kernels share of one process.
#[derive(Drop)]
pub struct Channel {
    pub book: Book,
    pub round: Round,
    pub to_linux: Rings,
    pub to_lwk: Ring,
}

impl Channel {
    /// A channel with so many rings to Linux, without requests, rounds and messages. Each ring takes so many messages.
    pub fn new(alloc: Global, rings: u32, capacity: u32) -> Result<Channel, NoMemory>
        ensures { IfOk result (λ c. c ≡ record {
          book = record { requests = no_requests; spare = 0 };
          round = None;
          to_linux = record { messages = replicate rings []; capacity = capacity };
          to_lwk = one_ring.ring [] capacity;
        }) }
    {
        Ok(Channel {
            book: Book::new(alloc),
            round: Round::new(),
            to_linux: Rings::new(alloc, rings, capacity)?,
            to_lwk: Ring::new(alloc, capacity)?,
        })
    }
}
