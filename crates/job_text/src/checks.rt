// The checks of each kind of line, and what the line adds.
ghost use Rattle.std.specs.Prelude.{◌≡◌, ◌==◌, ◌≤◌, ℕ, Option, is_some, IfOk, length};
ghost use Rattle.std.specs.List.{list_any};
ghost use Rattle.job_text.specs.Lines.{one_number, guest_of, signal_of, add_guest, add_signal, add_file, add_input, add_key, has_input};
ghost use Rattle.job_text.specs.TextLines.{LineGives};
ghost use Rattle.job_text.specs.Words.{word_at};
ghost use Rattle.mck_word.specs.Numbers.{number_of};

use crate::draft::Draft;
use crate::fault::{LineError, Why};
use crate::paths::{is_path, is_taken};
use crate::words::{Words, in_range, is_decimal};
use job_model::{FileLine, GuestLine, InputLine, SignalLine};
use mck_word::{Bytes, read_number};
use std::alloc::Global;

const MOST_GUESTS: usize = 16;

const MOST_SIGNALS: usize = 64;

const MOST_FILES: usize = 64;

const MOST_INSTRUCTIONS: u64 = 4_000_000;

// The number of a key that may stand once.
#[tactic(auto, unfolding(crate::specs::Lines::one_number))]
fn read_one(seen: bool, least: u64, most: u64, words: &Words) -> Result<u64, Why>
    ensures value { (old : Option ℕ) → is_some old ≡ seen → result ≡ one_number old least most words.now }
    ensures low { IfOk result (λ n. least ≤ n) }
    ensures high { IfOk result (λ n. n ≤ most) }
{
    if words.miscounts(1, 1) {
        return Err(Why::Count);
    }
    if seen {
        return Err(Why::Repeat);
    }
    in_range(least, most, words.at(1))
}

// The guest that a word names, of those above.
#[tactic(auto, unfolding(crate::specs::Lines::guest_of))]
fn read_guest(guests: &[GuestLine], word: &[u8]) -> Result<u32, Why>
    requires { length guests.now ≤ 16 }
    ensures { result ≡ guest_of guests.now word.now }
{
    match read_number(word) {
        Some(n) if 1 <= n && n <= guests.len() as u64 => Ok(n as u32),
        _ => Err(Why::Guest),
    }
}

#[tactic(auto, unfolding(crate::specs::Lines::signal_of))]
fn read_signal(word: &[u8]) -> Result<u32, Why>
    ensures { result ≡ signal_of word.now }
{
    let sig = in_range(1, 64, word)?;
    if 19 <= sig && sig <= 22 {
        return Err(Why::Number);
    }
    Ok(sig as u32)
}

#[tactic(auto, unfolding(crate::specs::Lines::add_guest))]
fn add_guest(alloc: Global, draft: &mut Draft, line: u64, words: &Words) -> Result<(), LineError>
    ensures { LineGives draft.new result (add_guest draft.old line words.now) }
{
    if words.miscounts(1, 64) {
        return Err(LineError::Broken(Why::Count));
    }
    if MOST_GUESTS <= draft.guests.len() {
        return Err(LineError::Broken(Why::TooMany));
    }
    let args = words.copies(alloc, 1)?;
    draft.guests.push(GuestLine { line, args })?;
    Ok(())
}

#[tactic(auto, unfolding(crate::specs::Lines::add_signal))]
fn add_signal(draft: &mut Draft, line: u64, words: &Words) -> Result<(), LineError>
    requires { length draft.old.guests ≤ 16 }
    ensures { LineGives draft.new result (add_signal draft.old line words.now) }
{
    if words.miscounts(3, 3) {
        return Err(LineError::Broken(Why::Count));
    }
    if MOST_SIGNALS <= draft.signals.len() {
        return Err(LineError::Broken(Why::TooMany));
    }
    if !is_decimal(words.at(1)) {
        return Err(LineError::Broken(Why::Number));
    }
    let sig = read_signal(words.at(2))?;
    let after = in_range(0, MOST_INSTRUCTIONS, words.at(3))?;
    let guest = read_guest(draft.guests.as_slice(), words.at(1))?;
    draft.signals.push(SignalLine {
        line,
        guest,
        sig,
        after,
    })?;
    Ok(())
}

#[tactic(auto, unfolding(crate::specs::Lines::add_file))]
fn add_file(alloc: Global, draft: &mut Draft, line: u64, words: &Words) -> Result<(), LineError>
    ensures { LineGives draft.new result (add_file draft.old line words.now) }
{
    if words.miscounts(2, 2) {
        return Err(LineError::Broken(Why::Count));
    }
    if MOST_FILES <= draft.files.len() {
        return Err(LineError::Broken(Why::TooMany));
    }
    if !is_path(words.at(1)) || is_taken(draft.files.as_slice(), words.at(1)) {
        return Err(LineError::Broken(Why::Path));
    }
    let file = FileLine {
        line,
        path: Bytes::from_slice(alloc, words.at(1))?,
        name: Bytes::from_slice(alloc, words.at(2))?,
        bytes: Bytes::new(alloc),
    };
    draft.files.push(file)?;
    Ok(())
}

fn any_input(inputs: &[InputLine], guest: u64) -> bool
    ensures { result ≡ list_any (λ i. i.guest == guest) inputs.now }
{
    inputs.iter().any(|i| u64::from(i.guest) == guest)
}

// Whether an input of the guest that a word names stands above.
fn has_input(inputs: &[InputLine], word: &[u8]) -> bool
    ensures { result ≡ has_input inputs.now (number_of word.now) }
{
    match read_number(word) {
        Some(guest) => any_input(inputs, guest),
        None => false,
    }
}

#[tactic(auto, unfolding(crate::specs::Lines::add_input))]
fn add_input(alloc: Global, draft: &mut Draft, line: u64, words: &Words) -> Result<(), LineError>
    requires { length draft.old.guests ≤ 16 }
    ensures { LineGives draft.new result (add_input draft.old line words.now) }
{
    if words.miscounts(2, 2) {
        return Err(LineError::Broken(Why::Count));
    }
    if has_input(draft.inputs.as_slice(), words.at(1)) {
        return Err(LineError::Broken(Why::Repeat));
    }
    if !is_decimal(words.at(1)) {
        return Err(LineError::Broken(Why::Number));
    }
    let guest = read_guest(draft.guests.as_slice(), words.at(1))?;
    let input = InputLine {
        line,
        guest,
        name: Bytes::from_slice(alloc, words.at(2))?,
        bytes: Bytes::new(alloc),
    };
    draft.inputs.push(input)?;
    Ok(())
}

/// The line that begins with a key.
#[tactic(auto, unfolding(crate::specs::Lines::add_key))]
pub fn add_key(alloc: Global, draft: &mut Draft, line: u64, words: &Words) -> Result<(), LineError>
    requires { length draft.old.guests ≤ 16 }
    ensures { LineGives draft.new result (add_key draft.old line (word_at words.now 0) words.now) }
{
    let key = words.at(0);
    if key == b"frames".as_slice() {
        let n = read_one(draft.frames.is_some(), 1, 16000, words)?;
        draft.frames = Some(n as u32);
    } else if key == b"cores".as_slice() {
        let n = read_one(draft.cores.is_some(), 1, 8, words)?;
        draft.cores = Some(n as u32);
    } else if key == b"workers".as_slice() {
        let n = read_one(draft.workers.is_some(), 1, 4, words)?;
        draft.workers = Some(n as u32);
    } else if key == b"rings".as_slice() {
        let n = read_one(draft.rings.is_some(), 1, 8, words)?;
        draft.rings = Some(n as u32);
    } else if key == b"limit".as_slice() {
        let n = read_one(draft.limit.is_some(), 1, MOST_INSTRUCTIONS, words)?;
        draft.limit = Some(n);
    } else if key == b"guest".as_slice() {
        return add_guest(alloc, draft, line, words);
    } else if key == b"signal".as_slice() {
        return add_signal(draft, line, words);
    } else if key == b"file".as_slice() {
        return add_file(alloc, draft, line, words);
    } else if key == b"input".as_slice() {
        return add_input(alloc, draft, line, words);
    } else {
        return Err(LineError::Broken(Why::Keyword));
    }
    Ok(())
}
