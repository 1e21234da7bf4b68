// Reading a trace.
ghost use Rattle.hybrid_model.specs.declared.events.Event.{Event};
ghost use Rattle.mck_report.specs.Reading.{cut_at, event_of, made_by, ones, numbers_of, one_of, same, small_of, three_of, twos, two_numbers, two_of, two_or_three, two_small, version_of, BrokenBehind, FirstBroken, Fits, IsEntry, IsVersion};
ghost use Rattle.mck_report.specs.declared.reading.TraceError.TheVariants.{Line};
ghost use Rattle.run_model.specs.Texts.{Line as TextLine, part_bytes, spaced, text_of};
ghost use Rattle.run_model.specs.Traces.{Spells, event_lines, is_of_first, version as version_line, words_of};
ghost use Rattle.std.specs.List.{AllByRecursion};
ghost use Rattle.std.specs.Prelude.{◌≡◌, ◌+◌, ◌<◌, ◌^◌, ◌==◌, ◌∷◌, ◌++◌, [], Err, IfOk, IfNone, IfSome, List, MatchOption, MatchResult, None, OnOk, Some, length, position, ℕ};

use hybrid_model::Event;
use mck_word::{Items, NoMemory, Pid, Req, Tid, read_number};
use std::alloc::Global;

/// Why a trace was not read: its first line that is no entry, counted from 1, or want of memory.
#[derive(Clone, Copy, Debug, PartialEq, Eq)]
pub enum TraceError {
    Line(u64),
    NoMemory,
}

impl From<NoMemory> for TraceError {
    ghost use Rattle.mck_report.specs.declared.reading.TraceError.TheVariants.{NoMemory};

    ghost from_gives = { λ _ e. e ≡ NoMemory };

    fn from(_e: NoMemory) -> TraceError {
        TraceError::NoMemory
    }
}

// The place of the first mark.
fn place(bytes: &[u8], mark: u8) -> Option<usize>
    ensures value { result ≡ position (λ b. b == mark) bytes.now }
    ensures bound { IfSome result (λ i. i < length bytes.now) }
{
    bytes.iter().position(|b| *b == mark)
}

// The bytes before the first mark, and those behind it.
fn cut(bytes: &[u8], mark: u8) -> Option<(&[u8], &[u8])>
    ensures { MatchOption result (cut_at mark bytes.now ≡ None) (λ p. cut_at mark bytes.now ≡ Some (p.0.now, p.1.now)) }
{
    match place(bytes, mark) {
        Some(at) => {
            let (front, rest) = bytes.split_at(at);
            let (_, back) = rest.split_at(1);
            Some((front, back))
        }
        None => None,
    }
}

fn read_small(bytes: &[u8]) -> Option<u32>
    ensures { result ≡ small_of bytes.now }
{
    let n = read_number(bytes)?;
    if n < 1 << 32 { Some(n as u32) } else { None }
}

fn made_of_one(word: &[u8], n: u32) -> Option<Event>
    ensures { result ≡ made_by ones word.now n }
{
    if word == b"trap".as_slice() {
        Some(Event::Trap(Tid(n)))
    } else if word == b"deliver".as_slice() {
        Some(Event::Deliver(Tid(n)))
    } else if word == b"intake".as_slice() {
        Some(Event::Intake(Pid(n)))
    } else if word == b"begin".as_slice() {
        Some(Event::BeginVm(Tid(n)))
    } else if word == b"interrupt".as_slice() {
        Some(Event::Interrupt(Tid(n)))
    } else if word == b"wait".as_slice() {
        Some(Event::Wait(Tid(n)))
    } else if word == b"reap".as_slice() {
        Some(Event::Reap(Pid(n)))
    } else if word == b"script".as_slice() {
        Some(Event::Script(n))
    } else if word == b"fetch".as_slice() {
        Some(Event::Fetch(Pid(n), 0))
    } else if word == b"ack".as_slice() {
        Some(Event::AckClear(Pid(n)))
    } else {
        None
    }
}

fn made_of_two(word: &[u8], n: u32, m: u32) -> Option<Event>
    ensures { result ≡ made_by twos word.now (n, m) }
{
    if word == b"answer".as_slice() {
        Some(Event::Answer(Pid(n), m))
    } else if word == b"assign".as_slice() {
        Some(Event::Assign(Pid(n), m))
    } else if word == b"miss".as_slice() {
        Some(Event::Miss(Pid(n), m))
    } else if word == b"pin".as_slice() {
        Some(Event::Pin(Pid(n), m))
    } else if word == b"copy".as_slice() {
        Some(Event::Copy(Pid(n), m))
    } else if word == b"unpin".as_slice() {
        Some(Event::Unpin(Pid(n), m))
    } else if word == b"act".as_slice() {
        Some(Event::Act(Pid(n), m))
    } else if word == b"park".as_slice() {
        Some(Event::Park(Pid(n), m))
    } else if word == b"finish".as_slice() {
        Some(Event::Finish(Pid(n), m))
    } else {
        None
    }
}

fn made_small(word: &[u8], n: u32, m: u32) -> Option<Event>
    ensures { result ≡ two_small word.now n m }
{
    if word == b"fetch".as_slice() {
        if m == 0 {
            None
        } else {
            Some(Event::Fetch(Pid(n), m))
        }
    } else {
        made_of_two(word, n, m)
    }
}

fn made_of_numbers(word: &[u8], n: u32, m: u64) -> Option<Event>
    ensures { result ≡ two_numbers word.now n m }
{
    if word == b"unpark".as_slice() {
        Some(Event::Unpark(Pid(n), Req(m)))
    } else if m < 1 << 32 {
        made_small(word, n, m as u32)
    } else {
        None
    }
}

fn read_one(word: &[u8], a: &[u8]) -> Option<Event>
    ensures { result ≡ one_of word.now a.now }
{
    let n = read_small(a)?;
    made_of_one(word, n)
}

fn read_two(word: &[u8], a: &[u8], b: &[u8]) -> Option<Event>
    ensures { result ≡ two_of word.now a.now b.now }
{
    let n = read_small(a)?;
    let m = read_number(b)?;
    made_of_numbers(word, n, m)
}

fn read_three(word: &[u8], a: &[u8], b: &[u8], c: &[u8]) -> Option<Event>
    ensures { result ≡ three_of word.now a.now b.now c.now }
{
    if word == b"run".as_slice() {
        let core = read_small(a)?;
        let tid = read_small(b)?;
        let n = read_small(c)?;
        Some(Event::Run(core, Tid(tid), n))
    } else {
        None
    }
}

fn read_later(word: &[u8], a: &[u8], rest: &[u8]) -> Option<Event>
    ensures { result ≡ two_or_three word.now a.now rest.now (cut_at 32 rest.now) }
{
    match cut(rest, b' ') {
        None => read_two(word, a, rest),
        Some((b, c)) => read_three(word, a, b, c),
    }
}

fn read_numbers(word: &[u8], rest: &[u8]) -> Option<Event>
    ensures { result ≡ numbers_of word.now rest.now (cut_at 32 rest.now) }
{
    match cut(rest, b' ') {
        None => read_one(word, rest),
        Some((a, more)) => read_later(word, a, more),
    }
}

// The event whose line these bytes are.
fn read_event(line: &[u8]) -> Option<Event>
    ensures { result ≡ event_of line.now }
{
    match cut(line, b' ') {
        None => None,
        Some((word, rest)) => read_numbers(word, rest),
    }
}

fn is_of_first(event: &Event) -> bool
    ensures { result ≡ is_of_first event.now }
{
    match event {
        Event::Wait(_) => false,
        Event::Fetch(_, ring) => *ring == 0,
        _ => true,
    }
}

// The event whose line these bytes are, where a trace of the version may have it.
fn read_entry(version: u8, line: &[u8]) -> Option<Event>
    ensures entry { IfSome result (IsEntry version) }
    ensures line { IfSome result (λ e. line.now ≡ spaced (words_of e)) }
    ensures none { IfNone result ((e : Event) → IsEntry version e → line.now ≡ spaced (words_of e) → ⊥) }
{
    let Some(event) = read_event(line) else {
        return None;
    };
    if version == 1 && !is_of_first(&event) {
        return None;
    }
    Some(event)
}

// The version that a first line names.
fn version_of(line: &[u8]) -> Option<u8>
    ensures { result ≡ version_of line.now }
{
    if line == b"mctrace 1".as_slice() {
        Some(1)
    } else if line == b"mctrace 2".as_slice() {
        Some(2)
    } else {
        None
    }
}

// The events of the lines behind the first.
fn read_events(version: u8, bytes: &[u8], journal: &mut Items<Event>) -> Result<(), TraceError>
    requires empty { journal.old ≡ [] }
    requires room { length bytes.now + 2 < 2 ^ 64 }
    ensures spelled { OnOk result (bytes.now ≡ text_of (event_lines journal.new)) }
    ensures entries { AllByRecursion (IsEntry version) journal.new }
    ensures broken { (n : ℕ) → result ≡ Err (Line n) → BrokenBehind version journal.new bytes.now n }
{
    let mut rest = bytes;
    let mut line = 2u64;
    while !rest.is_empty() {
        let Some((text, more)) = cut(rest, b'\n') else {
            return Err(TraceError::Line(line));
        };
        let Some(event) = read_entry(version, text) else {
            return Err(TraceError::Line(line));
        };
        journal.push(event)?;
        line += 1;
        rest = more;
    }
    Ok(())
}

fn read(alloc: Global, bytes: &[u8]) -> Result<Items<Event>, TraceError>
    ensures spells { IfOk result (Spells bytes.now) }
    ensures fits { IfOk result (AllByRecursion Fits) }
    ensures broken { (n : ℕ) → result ≡ Err (Line n) → FirstBroken bytes.now n }
{
    let Some((first, rest)) = cut(bytes, b'\n') else {
        return Err(TraceError::Line(1));
    };
    let Some(version) = version_of(first) else {
        return Err(TraceError::Line(1));
    };
    let mut journal = Items::new(alloc);
    read_events(version, rest, &mut journal)?;
    Ok(journal)
}

/// The journal that a trace spells, in its own version or the first one. `Line` names the first line that is no entry; a text without
/// a line feed at its end is broken in its last line, and an empty text in line 1.
pub fn read_trace(alloc: Global, bytes: &[u8]) -> Result<Items<Event>, TraceError>
    ensures spells { IfOk result (Spells bytes.now) }
    ensures fits { IfOk result (AllByRecursion Fits) }
    ensures broken { (n : ℕ) → result ≡ Err (Line n) → FirstBroken bytes.now n }
    ensures complete { (journal : List Event) → AllByRecursion Fits journal → Spells bytes.now journal → MatchResult result (λ read. read ≡ journal) (λ e. e ≡ TraceError.NoMemory) }
{
    read(alloc, bytes)
}

/// The version that a trace's first line names, and the bytes behind that line. None exactly where the bytes begin with no such line.
pub fn split_version(bytes: &[u8]) -> Option<(u8, &[u8])>
    ensures some { IfSome result (λ p. IsVersion p.0 × (bytes.now ≡ part_bytes (version_line p.0) ++ p.1.now)) }
    ensures none { IfNone result ((v : ℕ) (rest : List ℕ) → IsVersion v → bytes.now ≡ part_bytes (version_line v) ++ rest → ⊥) }
{
    let Some((first, rest)) = cut(bytes, b'\n') else {
        return None;
    };
    let Some(version) = version_of(first) else {
        return None;
    };
    Some((version, rest))
}

/// The event of the first line of bytes, where a trace of the version may have it, and the bytes behind that line. None exactly where
/// the bytes begin with no entry's line.
pub fn split_entry(version: u8, bytes: &[u8]) -> Option<(Event, &[u8])>
    ensures some { IfSome result (λ p. IsEntry version p.0 × (bytes.now ≡ part_bytes (TextLine (words_of p.0)) ++ p.1.now)) }
    ensures none { IfNone result ((e : Event) (more : List ℕ) → IsEntry version e → bytes.now ≡ part_bytes (TextLine (words_of e)) ++ more → ⊥) }
{
    let Some((line, rest)) = cut(bytes, b'\n') else {
        return None;
    };
    let Some(event) = read_entry(version, line) else {
        return None;
    };
    Some((event, rest))
}
