// The labels of a text.
ghost use Rattle.std.specs.Prelude.{◌≡◌, ◌≤◌, ◌+◌, List, ℕ, IfOk, IfSome, OnOk, Some, None, map, length, option_map, if◌then◌else◌};
ghost use Rattle.std.specs.List.{list_all};
ghost use Rattle.guest_asm.specs.Assembly.{marks_from};
ghost use Rattle.guest_asm.specs.Lines.{is_letter, is_label_byte, is_label, ends_in, but_last, defined_in, is_silent, words_in};

use crate::marks::Mark;
use mck_word::NoMemory;
use std::alloc::Global;
use std::collections::BTreeMap;

fn is_letter(b: u8) -> bool
    ensures { result ≡ is_letter b }
{
    b'A' <= b && b <= b'Z' || b'a' <= b && b <= b'z' || b == b'_'
}

fn is_label_byte(b: u8) -> bool
    ensures { result ≡ is_label_byte b }
{
    is_letter(b) || b'0' <= b && b <= b'9'
}

fn are_label_bytes(name: &[u8]) -> bool
    ensures { result ≡ list_all is_label_byte name.now }
{
    name.iter().all(|b| is_label_byte(*b))
}

/// Whether the bytes are a label: letters, digits and `_`, the first no digit.
pub fn is_label(name: &[u8]) -> bool
    ensures { result ≡ is_label name.now }
{
    match name.split_first() {
        Some((first, rest)) => is_letter(*first) && are_label_bytes(rest),
        None => false,
    }
}

/// The text before its last byte, if that is this one.
pub fn before_last(text: &[u8], last: u8) -> Option<&[u8]>
    ensures { option_map (λ x. x.now) result ≡ (if ends_in last text.now then Some (but_last text.now) else None) }
{
    if text.is_empty() {
        return None;
    }
    let end = text.len() - 1;
    if text[end] == last {
        let (front, _) = text.split_at(end);
        Some(front)
    } else {
        None
    }
}

/// The label that a line defines.
pub fn defined_in(text: &[u8]) -> Option<&[u8]>
    ensures { option_map (λ x. x.now) result ≡ defined_in text.now }
{
    let name = before_last(text, b':')?;
    if is_label(name) { Some(name) } else { None }
}

fn ends_in(text: &[u8], last: u8) -> bool
    ensures { result ≡ ends_in last text.now }
{
    !text.is_empty() && text[text.len() - 1] == last
}

/// Whether a line has no word.
pub fn is_silent(text: &[u8]) -> bool
    ensures { result ≡ is_silent text.now }
{
    text.is_empty() || ends_in(text, b':')
}

/// How many words a line has.
pub fn words_in(text: &[u8]) -> u64
    ensures value { result ≡ words_in text.now }
    ensures most { result ≤ 1 }
{
    if is_silent(text) { 0 } else { 1 }
}

/// Where the labels of a text are defined first. Clauses see it by `marks_in`, as a function of the label.
#[derive(Drop)]
pub struct Labels<'a> {
    marks: BTreeMap<&'a [u8], Mark>,
}

impl<'a> Labels<'a> {
    ghost use Rattle.std.specs.Prelude.{◌≡◌, List, ℕ, IfOk, OnOk, OnErr, None, Some, cond, bytes_eq};
    ghost use Rattle.guest_asm.specs.Assembly.{with_mark};
    ghost use Rattle.guest_asm.specs.Labels.{marks_in};

    /// No labels. Can't fail.
    pub fn new(alloc: Global) -> Labels<'a>
        ensures { (name : List ℕ) → marks_in result name ≡ None }
    {
        Labels {
            marks: BTreeMap::new(alloc),
        }
    }

    /// Where a label is defined first. None exactly where it isn't defined.
    pub fn mark(&self, name: &[u8]) -> Option<Mark>
        ensures { result ≡ marks_in self.now name.now }
    {
        self.marks.get(name).copied()
    }

    /// Adds a definition, unless there is one.
    pub fn add(&mut self, name: &'a [u8], mark: Mark) -> Result<(), NoMemory>
        ensures { OnOk result ((other : List ℕ) → marks_in self.new other ≡ with_mark (marks_in self.old) name.now mark other) }
    {
        if self.mark(name).is_some() {
            return Ok(());
        }
        self.marks.insert(name, mark)?;
        Ok(())
    }
}
