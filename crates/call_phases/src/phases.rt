// The phases that a delegated call has left.
ghost use Rattle.std.specs.Prelude.{◌≡◌, ◌≤◌, ◌<◌, ◌==◌, ◌+◌, ◌^◌, ◌∷◌, [], List, ℕ, IfSome, Some, IsTrue, MatchOption, false, is_some, true, not, length, slice_get, get_or};
ghost use Rattle.std.specs.List.{list_all, list_any};
ghost use Rattle.call_phases.specs.Ranges.{is_full, is_too_long};
ghost use Rattle.call_phases.specs.Stages.{kind_of, moved_past, stage_phases, vector_stream};
ghost use Rattle.call_phases.specs.StreamBytes.{most_left, total_len};
ghost use Rattle.call_phases.specs.declared.phases.Kind.{Kind as kind};
ghost use Rattle.kernel_model.specs.CallPhases.{Act, most_moved};
ghost use Rattle.kernel_model.specs.Progress.{advanced, drop_used_up, ranges_of, vectors, with_scatter, without_empty};
ghost use Rattle.mck_word.specs.Lists.{tail};

use crate::calls::MOST_MOVED;
use crate::vectors::add_vectors;
use arrayvec::ArrayVec;
use kernel_model::Range;
use std::marker::Model;

/// What a phase does: it gathers from the process's memory, acts on the files, scatters into the memory, or streams.
#[derive(Clone, Copy, PartialEq, Eq, Debug)]
pub enum Kind {
    Gather,
    Act,
    Scatter,
    Stream,
}

/// The phases that are left, by their kinds; the ranges are those of the first that is no act.
#[derive(Clone, Copy, PartialEq, Eq, Debug)]
pub enum Stages {
    GatherAct,
    Act,
    ActScatter,
    ActGatherStream,
    ActStream,
    Scatter,
    GatherStream,
    Stream,
    Over,
}

/// At most three phases with at most sixteen ranges, seen as the list of phases.
#[derive(Drop)]
pub struct Phases {
    stages: Stages,
    ranges: ArrayVec<Range, 16>,
}

impl Model for Phases {
    ghost use Rattle.std.specs.Prelude.{List, ◌<◌, length, IsTrue};
    ghost use Rattle.std.specs.List.{list_all};
    ghost use Rattle.kernel_model.specs.CallPhases.{Phase};
    ghost use Rattle.call_phases.specs.Ranges.{is_full};
    ghost use Rattle.call_phases.specs.Stages.{stage_phases};

    ghost Value = { List Phase };

    ghost view = { λ p. stage_phases p.stages p.ranges.items };

    ghost invariant = { λ p. 1 < length p.ranges.items → IsTrue (list_all is_full p.ranges.items) };
}

impl Phases {
    /// The phases of the stages, with one range.
    pub fn with_range(stages: Stages, address: u64, len: u64) -> Phases
        ensures { result ≡ stage_phases stages (record { address = address; len = len } ∷ []) }
    {
        let mut ranges = ArrayVec::new();
        ranges.push(Range { address, len });
        Phases { stages, ranges }
    }

    /// The phases of the stages, without ranges.
    pub fn without_ranges(stages: Stages) -> Phases
        ensures { result ≡ stage_phases stages [] }
    {
        Phases {
            stages,
            ranges: ArrayVec::new(),
        }
    }

    /// A stream over the ranges of the vectors in the bytes, cut to 65,536 bytes in all; none where a length is above
    /// 2^63 - 1.
    pub fn over_vectors(bytes: &[u8]) -> Option<Phases>
        ensures is { MatchOption result (list_any is_too_long (vectors 16 bytes.now) ≡ true) (λ p. (list_any is_too_long (vectors 16 bytes.now) ≡ false) × (p ≡ vector_stream bytes.now)) }
        ensures few { IfSome result (λ p. most_left p ≤ most_moved) }
    {
        let mut ranges = ArrayVec::new();
        if add_vectors(16, bytes, MOST_MOVED, &mut ranges) {
            return None;
        }
        Some(Phases {
            stages: Stages::Stream,
            ranges,
        })
    }

    /// The kind of the first phase.
    pub fn kind(&self) -> Option<Kind>
        ensures { result ≡ kind_of self.now }
    {
        match self.stages {
            Stages::GatherAct | Stages::GatherStream => Some(Kind::Gather),
            Stages::Act | Stages::ActScatter | Stages::ActGatherStream | Stages::ActStream => Some(
                Kind::Act,
            ),
            Stages::Scatter => Some(Kind::Scatter),
            Stages::Stream => Some(Kind::Stream),
            Stages::Over => None,
        }
    }

    /// The first range of the first phase that is not empty.
    pub fn first_range(&self) -> Option<Range>
        ensures { result ≡ slice_get (without_empty (ranges_of (get_or self.now 0 Act))) 0 }
    {
        match self.stages {
            Stages::GatherAct | Stages::GatherStream | Stages::Scatter | Stages::Stream =>
                first_full(&self.ranges),
            _ => None,
        }
    }

    /// Goes on to the next phase.
    pub fn pass(&mut self)
        ensures is { self.new ≡ tail self.old }
        ensures few { most_left self.new ≤ most_left self.old }
    {
        match self.stages {
            Stages::GatherAct => self.stages = Stages::Act,
            Stages::Act | Stages::Scatter | Stages::Stream | Stages::Over => self.stages =
                Stages::Over,
            Stages::ActScatter => self.stages = Stages::Scatter,
            Stages::ActGatherStream => self.stages = Stages::GatherStream,
            Stages::ActStream => self.stages = Stages::Stream,
            Stages::GatherStream => {
                self.stages = Stages::Stream;
                self.ranges.clear();
            }
        }
    }

    /// Passes over phases without a byte left.
    pub fn settle(&mut self)
        ensures is { self.new ≡ drop_used_up self.old }
        ensures few { most_left self.new ≤ most_left self.old }
    {
        match self.stages {
            Stages::GatherAct if first_full(&self.ranges).is_none() => self.stages = Stages::Act,
            Stages::Scatter | Stages::GatherStream | Stages::Stream
                if first_full(&self.ranges).is_none() => self.stages = Stages::Over,
            _ => {}
        }
    }

    /// Whether nothing of the first phase is left behind `n` bytes of its first range.
    pub fn is_last(&self, n: u64) -> bool
        ensures { result ≡ (length (advanced n (without_empty (ranges_of (get_or self.now 0 Act)))) == 0) }
    {
        match self.stages {
            Stages::GatherAct | Stages::GatherStream | Stages::Scatter | Stages::Stream =>
                is_used_up(&self.ranges, n),
            _ => true,
        }
    }

    /// Goes on behind `n` bytes of the first phase's first range.
    pub fn advance(&mut self, n: u64)
        requires { IfSome (slice_get (without_empty (ranges_of (get_or self.old 0 Act))) 0) (λ r. r.address + n < 2 ^ 64) }
        ensures is { self.new ≡ moved_past n self.old }
        ensures few { most_left self.new ≤ most_left self.old }
        ensures fewer { IfSome (slice_get (without_empty (ranges_of (get_or self.old 0 Act))) 0) (λ r. kind_of self.old ≡ Some kind.Stream → n ≤ r.len → most_left self.new + n ≤ most_left self.old) }
    {
        match self.stages {
            Stages::GatherAct | Stages::GatherStream | Stages::Scatter | Stages::Stream =>
                advance_first(&mut self.ranges, n),
            _ => {}
        }
    }

    /// Leaves `len` bytes of a scatter, which is the first phase.
    pub fn cut_scatter(&mut self, len: u64)
        ensures is { (out : List ℕ) → length out ≡ len → self.new ≡ with_scatter out self.old }
        ensures few { most_left self.new ≤ most_left self.old }
    {
        if self.stages != Stages::Scatter {
            return;
        }
        if let Some(range) = self.ranges.first().copied() {
            self.ranges.clear();
            if len > 0 {
                self.ranges.push(Range {
                    address: range.address,
                    len,
                });
            }
        }
    }
}

/// The first range that is not empty, where at most one is.
fn first_full(ranges: &ArrayVec<Range, 16>) -> Option<Range>
    requires { 1 < length ranges.now.items → IsTrue (list_all is_full ranges.now.items) }
    ensures first { result ≡ slice_get (without_empty ranges.now.items) 0 }
    ensures none { is_some result ≡ not (length (without_empty ranges.now.items) == 0) }
{
    match ranges.first() {
        Some(range) if range.len > 0 => Some(*range),
        _ => None,
    }
}

/// Whether nothing is left behind `n` bytes of the first range.
fn is_used_up(ranges: &ArrayVec<Range, 16>, n: u64) -> bool
    requires { 1 < length ranges.now.items → IsTrue (list_all is_full ranges.now.items) }
    ensures { result ≡ (length (advanced n (without_empty ranges.now.items)) == 0) }
{
    match ranges.first() {
        None => true,
        Some(first) => ranges.len() == 1 && first.len <= n,
    }
}

/// Goes on behind `n` bytes of the first range.
fn advance_first(ranges: &mut ArrayVec<Range, 16>, n: u64)
    requires full { 1 < length ranges.old.items → IsTrue (list_all is_full ranges.old.items) }
    requires fits { IfSome (slice_get (without_empty ranges.old.items) 0) (λ r. r.address + n < 2 ^ 64) }
    ensures full { 1 < length ranges.new.items → IsTrue (list_all is_full ranges.new.items) }
    ensures items { ranges.new.items ≡ advanced n (without_empty ranges.old.items) }
    ensures few { total_len ranges.new.items ≤ total_len ranges.old.items }
    ensures fewer { IfSome (slice_get (without_empty ranges.old.items) 0) (λ r. n ≤ r.len → total_len ranges.new.items + n ≤ total_len ranges.old.items) }
{
    let Some(first) = ranges.first().copied() else {
        return;
    };
    ranges.remove(0);
    if n < first.len {
        ranges.insert(
            0,
            Range {
                address: first.address + n,
                len: first.len - n,
            },
        );
    }
}
