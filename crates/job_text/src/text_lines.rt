// The lines of a text, one after another.
ghost use Rattle.std.specs.Prelude.{◌≡◌, ℕ, ◌∷◌, ◌++◌, List, false, IfErr, IfOk, IfSome, IfNone, OnOk, Ok, Result};
ghost use Rattle.std.specs.List.{list_any};
ghost use Rattle.job_text.specs.TextLines.{IsLine, LineGives, TextFails, TextGives, add_line, add_lines, at_line, is_line_feed, is_odd_byte, is_skipped, lines_of};
ghost use Rattle.job_text.specs.declared.fault.Why.{Why};

use crate::fault::{BrokenLine, LineError, TextError, Why};
use crate::words::Words;
use std::alloc::Global;

const LONGEST_LINE: usize = 1024;

/// What the lines of a text add to, one after another.
pub trait TakesLines {
    /// What the words of a line with that number add, or the first check that they break.
    ghost adds: { Self → ℕ → List (List ℕ) → Result Self Why };

    /// What the lines so far keep.
    ghost keeps: { Self → Type 0 };

    /// Adds the words of a line with that number. After an `Err` what there is so far is to be thrown away.
    fn add_words(&mut self, alloc: Global, line: u64, words: &Words) -> Result<(), LineError>
        requires so_far { keeps self.old }
        requires line { IsLine words.now }
        ensures value { LineGives self.new result (adds self.old line words.now) }
        ensures kept { OnOk result (keeps self.new) };
}

fn has_odd(line: &[u8]) -> bool
    ensures { result ≡ list_any is_odd_byte line.now }
{
    line.iter().any(|b| *b < 0x20 || 0x7e < *b)
}

fn is_skipped(line: &[u8]) -> bool
    ensures { result ≡ is_skipped line.now }
{
    match line.first() {
        Some(b) => *b == b'#',
        None => true,
    }
}

// One line without its line feed, by the checks in order.
#[tactic(auto, unfolding(crate::specs::TextLines::add_line))]
fn add_line<D: TakesLines>(
    alloc: Global,
    taken: &mut D,
    line: u64,
    bytes: &[u8],
) -> Result<(), LineError>
    requires { D.keeps taken.old }
    ensures value { LineGives taken.new result (add_line D.adds taken.old line bytes.now) }
    ensures kept { OnOk result (D.keeps taken.new) }
{
    if LONGEST_LINE < bytes.len() {
        return Err(LineError::Broken(Why::Length));
    }
    if has_odd(bytes) {
        return Err(LineError::Broken(Why::Byte));
    }
    if is_skipped(bytes) {
        return Ok(());
    }
    let words = Words::of(alloc, bytes)?;
    taken.add_words(alloc, line, &words)
}

fn take_line<D: TakesLines>(
    alloc: Global,
    taken: &mut D,
    line: u64,
    bytes: &[u8],
) -> Result<(), TextError>
    requires { D.keeps taken.old }
    ensures ok { OnOk result (at_line line (add_line D.adds taken.old line bytes.now) ≡ Ok taken.new) }
    ensures err { IfErr result (λ e. TextFails e (at_line line (add_line D.adds taken.old line bytes.now))) }
    ensures kept { OnOk result (D.keeps taken.new) }
{
    match add_line(alloc, taken, line, bytes) {
        Ok(()) => Ok(()),
        Err(LineError::Broken(why)) => Err(TextError::Broken(BrokenLine { line, why })),
        Err(LineError::NoMemory) => Err(TextError::NoMemory),
    }
}

// The bytes before the first line feed, and those behind it.
fn cut_line(bytes: &[u8]) -> Option<(&[u8], &[u8])>
    ensures cut { IfSome result (λ p. bytes.now ≡ p.0.now ++ 10 ∷ p.1.now) }
    ensures line { IfSome result (λ p. list_any is_line_feed p.0.now ≡ false) }
    ensures none { IfNone result (list_any is_line_feed bytes.now ≡ false) }
{
    let mut done = 0;
    while done < bytes.len() {
        if bytes[done] == b'\n' {
            let (line, rest) = bytes.split_at(done);
            let (_, more) = rest.split_first()?;
            return Some((line, more));
        }
        done += 1;
    }
    None
}

/// What the lines of a text add to what there is at the start, or the first line that breaks a check.
pub fn read_lines<D: TakesLines + Drop>(
    alloc: Global,
    start: D,
    text: &[u8],
) -> Result<D, TextError>
    requires { D.keeps start }
    ensures value { TextGives result (add_lines D.adds 1 start (lines_of text.now)) }
    ensures kept { IfOk result D.keeps }
{
    let mut taken = start;
    let mut line = 1u64;
    let mut rest = text;
    while !rest.is_empty() {
        let Some((bytes, more)) = cut_line(rest) else {
            let why = Why::Length;
            return Err(TextError::Broken(BrokenLine { line, why }));
        };
        take_line(alloc, &mut taken, line, bytes)?;
        line += 1;
        rest = more;
    }
    Ok(taken)
}
