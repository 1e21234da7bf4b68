// A text's words.
ghost use Rattle.std.specs.Prelude.{◌≡◌, ◌++◌, List, ℕ, IfOk, OnOk, OnErr, map};
ghost use Rattle.std.specs.Option.{option_to_list};
ghost use Rattle.guest_asm.specs.Assembly.{lines_of, marks_from, with_line, words_of, words_from, Gives};
ghost use Rattle.guest_asm.specs.Labels.{marks_in};

use crate::fault::AsmError;
use crate::labels::{Labels, defined_in, words_in};
use crate::lines::said;
use crate::marks::Mark;
use mck_word::{Items, NoMemory};
use std::alloc::{AllocError, Global};

/// Words of instructions and of data.
pub type Words = Items<u32>;

fn split_lines<'a>(alloc: Global, text: &'a [u8]) -> Result<Vec<&'a [u8]>, AllocError>
    ensures { IfOk result (λ lines. map (λ x. x.now) lines.items ≡ lines_of text.now) }
{
    text.split(|b| *b == b'\n').collect(alloc)
}

fn add_label<'a>(
    labels: &mut Labels<'a>,
    line: u64,
    place: u64,
    text: &'a [u8],
) -> Result<(), NoMemory>
    ensures { OnOk result ((name : List ℕ) → marks_in labels.new name ≡ with_line (marks_in labels.old) line place text.now name) }
{
    if let Some(name) = defined_in(text) {
        labels.add(name, Mark { line, place })?;
    }
    Ok(())
}

// The labels of the lines, each with its first definition.
fn labels_of<'a>(alloc: Global, lines: &[&'a [u8]]) -> Result<Labels<'a>, NoMemory>
    ensures { IfOk result (λ labels. (name : List ℕ) → marks_in labels name ≡ marks_from 1 0 (map (λ x. x.now) lines.now) name) }
{
    let mut labels = Labels::new(alloc);
    let mut line = 1u64;
    let mut place = 0u64;
    for text in lines {
        add_label(&mut labels, line, place, text)?;
        line += 1;
        place += words_in(text);
    }
    Ok(labels)
}

fn add_word(words: &mut Words, word: Option<u32>) -> Result<(), NoMemory>
    ensures { OnOk result (words.new ≡ words.old ++ option_to_list word) }
{
    if let Some(word) = word {
        words.push(word)?;
    }
    Ok(())
}

fn words_of(alloc: Global, labels: &Labels, lines: &[&[u8]]) -> Result<Words, AsmError>
    ensures { Gives result (words_from (marks_in labels.now) 1 0 (map (λ x. x.now) lines.now)) }
{
    let mut words = Items::new(alloc);
    let mut line = 1u64;
    let mut place = 0u64;
    for text in lines {
        let Some(found) = said(labels, line, place, text) else {
            return Err(AsmError::Line(line));
        };
        add_word(&mut words, found)?;
        line += 1;
        place += words_in(text);
    }
    Ok(words)
}

/// The words of a text, or the first broken line: one that is no line of an assembler text, whose number or offset doesn't fit,
/// that names a label which no line defines, or that defines a label which a line above defines.
#[tactic(auto, unfolding(crate::specs::Assembly::words_of))]
pub fn assemble(alloc: Global, text: &[u8]) -> Result<Words, AsmError>
    ensures { Gives result (words_of text.now) }
{
    let lines = split_lines(alloc, text).map_err(|_| AsmError::NoMemory)?;
    let labels = labels_of(alloc, &lines)?;
    words_of(alloc, &labels, &lines)
}
