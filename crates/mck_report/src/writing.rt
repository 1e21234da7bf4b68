// Lines of words.
ghost use Rattle.mck_report.specs.Writing.{word_of, spaced_token};
ghost use Rattle.run_model.specs.Texts.{Line, Text, part_bytes, word_bytes};
ghost use Rattle.std.specs.Prelude.{◌≡◌, ◌++◌, ◌∷◌, [], OnOk, map, flat_map};

use itoa::Buffer;
use mck_word::{Bytes, NoMemory};

/// A word of a line, as it stands or as a number.
#[derive(Clone, Copy)]
pub enum Token<'a> {
    Text(&'a [u8]),
    Number(u64),
}

fn add_token(text: &mut Bytes, token: &Token) -> Result<(), NoMemory>
    ensures { OnOk result (text.new ≡ text.old ++ word_bytes (word_of token.now)) }
{
    match *token {
        Token::Text(bytes) => text.add(bytes),
        Token::Number(n) => text.add(Buffer::new().format(n).as_bytes()),
    }
}

fn add_words(text: &mut Bytes, word: &[u8], more: &[Token]) -> Result<(), NoMemory>
    ensures { OnOk result (text.new ≡ text.old ++ word.now ++ flat_map spaced_token more.now) }
{
    text.add(word)?;
    for token in more {
        text.push(b' ')?;
        add_token(text, token)?;
    }
    Ok(())
}

/// Adds the line of a word and more words.
pub fn add_line(text: &mut Bytes, word: &[u8], more: &[Token]) -> Result<(), NoMemory>
    ensures { OnOk result (text.new ≡ text.old ++ part_bytes (Line (Text word.now ∷ map word_of more.now))) }
{
    add_words(text, word, more)?;
    text.push(b'\n')?;
    Ok(())
}
