// The words of a line.
ghost use Rattle.std.specs.Prelude.{◌≡◌, ◌==◌, ◌≤◌, ◌<◌, ◌+◌, [], List, ℕ, IfOk, length, drop, map, slice_get, unwrap_or};
ghost use Rattle.job_text.specs.Checks.{in_range};
ghost use Rattle.job_text.specs.Words.{words_of, word_at, has_empty, is_digit, is_decimal, miscounts};
ghost use Rattle.mck_word.specs.Numbers.{number_of};
ghost use Rattle.std.specs.List.{list_any, list_all};

use crate::fault::Why;
use job_model::ArgList;
use mck_word::{Bytes, Items, NoMemory, read_number};
use std::alloc::{AllocError, Global};
use std::marker::Model;

/// The words of a line, lent by it, seen as the list of their bytes.
#[derive(Drop)]
pub struct Words<'a> {
    words: Vec<&'a [u8]>,
}

impl<'a> Model for Words<'a> {
    ghost use Rattle.std.specs.Prelude.{List, ℕ, map};

    ghost Value = { List (List ℕ) };

    ghost view = { λ w. map (λ x. x.now) w.words.items };
}

impl<'a> Words<'a> {
    /// The words of a line, between any two of which one space stands.
    pub fn of(alloc: Global, line: &'a [u8]) -> Result<Words<'a>, NoMemory>
        ensures { IfOk result (λ words. words ≡ words_of line.now) }
    {
        let words = split_words(alloc, line)?;
        Ok(Words { words })
    }

    /// How many there are.
    pub fn len(&self) -> usize
        ensures { result ≡ length self.now }
    {
        self.words.len()
    }

    /// The word of that place, counted from 0, or an empty one past the last.
    pub fn at(&self, place: usize) -> &[u8]
        ensures { result.now ≡ word_at self.now place }
    {
        match self.words.get(place) {
            Some(word) => word,
            None => &[],
        }
    }

    /// Whether one is empty.
    pub fn has_empty(&self) -> bool
        ensures { result ≡ has_empty self.now }
    {
        any_empty(&self.words)
    }

    /// Whether not so many stand behind the key, or one is empty.
    pub fn miscounts(&self, least: usize, most: usize) -> bool
        ensures { result ≡ miscounts least most self.now }
    {
        self.len() <= least || most < self.len() - 1 || self.has_empty()
    }

    /// Copies of the words from a place on.
    pub fn copies(&self, alloc: Global, from: usize) -> Result<ArgList, NoMemory>
        requires { from ≤ length self.now }
        ensures { IfOk result (λ args. args ≡ drop from self.now) }
    {
        let (_, rest) = self.words.split_at(from);
        copies_of(alloc, rest)
    }
}

fn split_words<'a>(alloc: Global, line: &'a [u8]) -> Result<Vec<&'a [u8]>, AllocError>
    ensures { IfOk result (λ words. map (λ x. x.now) words.items ≡ words_of line.now) }
{
    line.split(|b| *b == b' ').collect(alloc)
}

fn any_empty(words: &[&[u8]]) -> bool
    ensures { result ≡ list_any (λ word. length word.now == 0) words.now }
{
    words.iter().any(|word| word.is_empty())
}

fn copies_of(alloc: Global, words: &[&[u8]]) -> Result<ArgList, NoMemory>
    ensures { IfOk result (λ args. args ≡ map (λ x. x.now) words.now) }
{
    let mut args = Items::new(alloc);
    for word in words {
        args.push(Bytes::from_slice(alloc, word)?)?;
    }
    Ok(args)
}

/// The number that a word is, if it lies in the range.
pub fn in_range(least: u64, most: u64, word: &[u8]) -> Result<u64, Why>
    ensures value { result ≡ in_range least most (number_of word.now) }
    ensures low { IfOk result (λ n. least ≤ n) }
    ensures high { IfOk result (λ n. n ≤ most) }
{
    match read_number(word) {
        Some(n) if least <= n && n <= most => Ok(n),
        _ => Err(Why::Number),
    }
}

/// Whether the bytes are a decimal number, of any size, without a leading zero.
pub fn is_decimal(word: &[u8]) -> bool
    ensures { result ≡ is_decimal word.now }
{
    match word.split_first() {
        Some((first, rest)) => { are_digits(word) && !(*first == b'0' && !rest.is_empty()) }
        None => false,
    }
}

fn are_digits(word: &[u8]) -> bool
    ensures { result ≡ list_all is_digit word.now }
{
    word.iter().all(|b| b'0' <= *b && *b <= b'9')
}
