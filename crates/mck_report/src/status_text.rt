// The line that is printed with a status.
ghost use Rattle.mck_report.specs.Status.{elf_words, job_words, key_word, status_text, why_word};
ghost use Rattle.run_model.specs.Texts.{Line, Number, Text, part_bytes};
ghost use Rattle.std.specs.Prelude.{◌≡◌, ◌++◌, ◌∷◌, [], IfOk, OnOk, codes, map};
ghost use Rattle.mck_report.specs.Writing.{word_of};

use crate::status::Status;
use crate::writing::{Token, add_line};
use elf_load::ElfFault;
use job_text::{JobFault, Key, Why};
use mck_word::{Bytes, NoMemory};
use std::alloc::Global;

fn why_word(why: Why) -> &'static [u8]
    ensures { result.now ≡ why_word why }
{
    match why {
        Why::Length => b"length",
        Why::Byte => b"byte",
        Why::Keyword => b"keyword",
        Why::Count => b"count",
        Why::Repeat => b"repeat",
        Why::TooMany => b"toomany",
        Why::Number => b"number",
        Why::Guest => b"guest",
        Why::Path => b"path",
    }
}

fn key_word(key: Key) -> &'static [u8]
    ensures { result.now ≡ key_word key }
{
    match key {
        Key::Frames => b"frames",
        Key::Guest => b"guest",
    }
}

fn add_message(text: &mut Bytes, words: &[Token]) -> Result<(), NoMemory>
    ensures { OnOk result (text.new ≡ text.old ++ part_bytes (Line (Text (codes "mcexec:") ∷ map word_of words.now))) }
{
    add_line(text, b"mcexec:", words)
}

fn add_job(text: &mut Bytes, fault: &JobFault) -> Result<(), NoMemory>
    ensures { OnOk result (text.new ≡ text.old ++ part_bytes (Line (Text (codes "mcexec:") ∷ job_words fault.now))) }
{
    let job = Token::Text(b"job");
    match *fault {
        JobFault::Line { line, why } => {
            let why = Token::Text(why_word(why));
            add_message(text, &[job, Token::Text(b"line"), Token::Number(line), why])
        }
        JobFault::Missing(key) => {
            let key = Token::Text(key_word(key));
            add_message(text, &[job, Token::Text(b"lacks"), key])
        }
    }
}

fn add_elf(text: &mut Bytes, guest: u32, why: &ElfFault) -> Result<(), NoMemory>
    ensures { OnOk result (text.new ≡ text.old ++ part_bytes (Line (Text (codes "mcexec:") ∷ Text (codes "guest") ∷ Number guest ∷ Text (codes "elf") ∷ elf_words why.now))) }
{
    match *why {
        ElfFault::Short(length) => add_elf_number(text, guest, b"short", length),
        ElfFault::Magic => add_elf_word(text, guest, b"magic"),
        ElfFault::Class => add_elf_word(text, guest, b"class"),
        ElfFault::Kind => add_elf_word(text, guest, b"kind"),
        ElfFault::Machine => add_elf_word(text, guest, b"machine"),
        ElfFault::Flags => add_elf_word(text, guest, b"flags"),
        ElfFault::PhSize => add_elf_word(text, guest, b"phsize"),
        ElfFault::Linked => add_elf_word(text, guest, b"linked"),
        ElfFault::Size(k) => add_elf_number(text, guest, b"size", u64::from(k)),
        ElfFault::Bounds(k) => add_elf_number(text, guest, b"bounds", u64::from(k)),
        ElfFault::Overlap(j, k) => {
            let first = Token::Number(u64::from(j));
            let second = Token::Number(u64::from(k));
            let word = Token::Text(b"overlap");
            let elf = Token::Text(b"elf");
            let guest = Token::Number(u64::from(guest));
            add_message(
                text,
                &[Token::Text(b"guest"), guest, elf, word, first, second],
            )
        }
        ElfFault::Entry => add_elf_word(text, guest, b"entry"),
    }
}

fn add_elf_word(text: &mut Bytes, guest: u32, word: &[u8]) -> Result<(), NoMemory>
    ensures { OnOk result (text.new ≡ text.old ++ part_bytes (Line (Text (codes "mcexec:") ∷ Text (codes "guest") ∷ Number guest ∷ Text (codes "elf") ∷ Text word.now ∷ []))) }
{
    let guest = Token::Number(u64::from(guest));
    let words = [
        Token::Text(b"guest"),
        guest,
        Token::Text(b"elf"),
        Token::Text(word),
    ];
    add_message(text, &words)
}

fn add_elf_number(text: &mut Bytes, guest: u32, word: &[u8], n: u64) -> Result<(), NoMemory>
    ensures { OnOk result (text.new ≡ text.old ++ part_bytes (Line (Text (codes "mcexec:") ∷ Text (codes "guest") ∷ Number guest ∷ Text (codes "elf") ∷ Text word.now ∷ Number n ∷ []))) }
{
    let guest = Token::Number(u64::from(guest));
    let words = [
        Token::Text(b"guest"),
        guest,
        Token::Text(b"elf"),
        Token::Text(word),
        Token::Number(n),
    ];
    add_message(text, &words)
}

fn add_frames(text: &mut Bytes, guest: u32, needed: u64, free: u64) -> Result<(), NoMemory>
    ensures { OnOk result (text.new ≡ text.old ++ part_bytes (Line (Text (codes "mcexec:") ∷ Text (codes "guest") ∷ Number guest ∷ Text (codes "needs") ∷ Number needed ∷ Text (codes "frames,") ∷ Number free ∷ Text (codes "free") ∷ []))) }
{
    let words = [
        Token::Text(b"guest"),
        Token::Number(u64::from(guest)),
        Token::Text(b"needs"),
        Token::Number(needed),
        Token::Text(b"frames,"),
        Token::Number(free),
        Token::Text(b"free"),
    ];
    add_message(text, &words)
}

// The line of a status, if it has one.
fn add_status(text: &mut Bytes, status: &Status) -> Result<(), NoMemory>
    ensures { OnOk result (text.new ≡ text.old ++ status_text status.now) }
{
    match *status {
        Status::Done | Status::Stalled | Status::Limit | Status::Unfinished => Ok(()),
        Status::BadWords => add_message(text, &[Token::Text(b"words")]),
        Status::BadJob(fault) => add_job(text, &fault),
        Status::BadElf { guest, why } => add_elf(text, guest, &why),
        Status::NoFrames {
            guest,
            needed,
            free,
        } => add_frames(text, guest, needed, free),
        Status::HostFault => add_message(text, &[Token::Text(b"host"), Token::Text(b"fault")]),
        Status::SinkFault => add_message(text, &[Token::Text(b"sink"), Token::Text(b"fault")]),
        Status::NoMemory => add_message(text, &[Token::Text(b"no"), Token::Text(b"memory")]),
        Status::BadTrace(line) => {
            let line = Token::Number(line);
            add_message(text, &[Token::Text(b"trace"), Token::Text(b"line"), line])
        }
        Status::LongFile(line) => add_long(text, line),
    }
}

fn add_long(text: &mut Bytes, line: u64) -> Result<(), NoMemory>
    ensures { OnOk result (text.new ≡ text.old ++ part_bytes (Line (Text (codes "mcexec:") ∷ Text (codes "file") ∷ Text (codes "line") ∷ Number line ∷ Text (codes "too") ∷ Text (codes "long") ∷ []))) }
{
    let words = [
        Token::Text(b"file"),
        Token::Text(b"line"),
        Token::Number(line),
        Token::Text(b"too"),
        Token::Text(b"long"),
    ];
    add_message(text, &words)
}

/// The line that is printed with a status, with its line feed; nothing where the status has none.
pub fn status_line(alloc: Global, status: &Status) -> Result<Bytes, NoMemory>
    ensures { IfOk result (λ text. text ≡ status_text status.now) }
{
    let mut text = Bytes::new(alloc);
    add_status(&mut text, status)?;
    Ok(text)
}
