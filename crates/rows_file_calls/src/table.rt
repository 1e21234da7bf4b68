// A table of rows.
use crate::alike::alike;
use crate::calls::read_call;
use crate::running::{Stores, Told, begin, run};
use crate::words::{Words, bytes_of};
use anyhow::{Result, anyhow};
use mck_word::Pid;
use std::alloc::Global;

/// The numbers of the errors.
const ERRORS: [(&str, i64); 15] = [
    ("ENOENT", -2),
    ("EBADF", -9),
    ("EBUSY", -16),
    ("EEXIST", -17),
    ("ENOTDIR", -20),
    ("EISDIR", -21),
    ("EINVAL", -22),
    ("EMFILE", -24),
    ("ENOTTY", -25),
    ("EFBIG", -27),
    ("ENOSPC", -28),
    ("ESPIPE", -29),
    ("EPIPE", -32),
    ("ENAMETOOLONG", -36),
    ("ENOTEMPTY", -39),
];

/// A table as far as it was run: both stores, how many calls were made, and what is told of those that were answered otherwise.
#[derive(Drop)]
struct Table {
    stores: Stores,
    calls: u64,
    told: String,
}

// The answer that a row wants: the name of an error, a number, or `wait`.
fn wanted(words: &mut Words<'_>) -> Result<Option<i64>> {
    for (name, number) in ERRORS {
        if words.rest() == name {
            words.word();
            return Ok(Some(number));
        }
    }
    if words.rest() == "wait" {
        words.word();
        return Ok(None);
    }
    Ok(Some(words.i64()?))
}

// A row with a number in the place of each `#`.
fn with_number(alloc: Global, row: &str, number: u64) -> Result<String> {
    let mut text = String::new(alloc);
    let mut parts = row.split('#');
    text.push_str(parts.next().unwrap_or(""))?;
    for part in parts {
        let digits = format!(in alloc; "{number}")?;
        text.push_str(digits.as_str())?;
        text.push_str(part)?;
    }
    Ok(text)
}

// What is told of a call that was answered otherwise.
fn tell(alloc: Global, row: &str, told: &Told) -> Result<String> {
    let len = told.bytes.len();
    let agree = told.agree;
    Ok(match told.answer {
        Some(value) => format!(in alloc; "{row}: {value} with {len} bytes, agreed: {agree}\n")?,
        None => format!(in alloc; "{row}: wait, agreed: {agree}\n")?,
    })
}

// Whether the bytes that were given out are those of a word, where it isn't `?`.
fn gives(alloc: Global, bytes: &[u8], word: &str) -> Result<bool> {
    if word == "?" {
        return Ok(true);
    }
    if word.is_empty() {
        return Ok(bytes.is_empty());
    }
    Ok(bytes_of(alloc, word)?.as_slice() == bytes)
}

// Runs one row: `PROCESS CALL .. = ANSWER BYTES`.
fn run_row(alloc: Global, table: &mut Table, row: &str) -> Result<()> {
    let Some((asked, answer)) = row.split_once(" = ") else {
        return Err(anyhow!("no answer: {row}"));
    };
    let mut words = Words::of(asked);
    let pid = Pid(words.u32()?);
    let call = read_call(alloc, &mut words)?;
    let told = run(alloc, &mut table.stores, pid, call)?;
    let mut words = Words::of(answer);
    let answer = wanted(&mut words)?;
    table.calls = table.calls.saturating_add(1);
    if told.answer != answer || !told.agree || !gives(alloc, &told.bytes, words.rest())? {
        let line = tell(alloc, row, &told)?;
        table.told.push_str(line.as_str())?;
    }
    Ok(())
}

// Runs a row once for each number of a range: `A..B ROW`.
fn run_rows(alloc: Global, table: &mut Table, text: &str) -> Result<()> {
    let Some((range, row)) = text.split_once(' ') else {
        return Err(anyhow!("no row: {text}"));
    };
    let Some((low, high)) = range.split_once("..") else {
        return Err(anyhow!("no range: {text}"));
    };
    for number in low.parse::<u64>()?..high.parse::<u64>()? {
        let row = with_number(alloc, row, number)?;
        run_row(alloc, table, row.as_str())?;
    }
    Ok(())
}

// Whether both stores show the same files.
fn show_the_same(stores: &Stores) -> bool {
    alike(&stores.first, &stores.second)
}

// Begins anew with process 1, whose console has the input that a word says.
fn begin_anew(alloc: Global, table: &mut Table, word: &str) -> Result<()> {
    let input = Words::of(word).bytes(alloc)?;
    table.stores = begin(alloc, &input)?;
    Ok(())
}

// Makes what a line asks for: `new INPUT`, which begins anew, `for A..B ROW`, or a row.
fn make(alloc: Global, table: &mut Table, line: &str) -> Result<()> {
    if let Some(input) = line.strip_prefix("new ") {
        return begin_anew(alloc, table, input);
    }
    match line.strip_prefix("for ") {
        Some(text) => run_rows(alloc, table, text),
        None => run_row(alloc, table, line),
    }
}

// Tells of a line where the stores show different files behind it.
fn compare(table: &mut Table, line: &str) -> Result<()> {
    if !show_the_same(&table.stores) {
        table.told.push_str(line)?;
        table.told.push_str(": the stores differ\n")?;
    }
    Ok(())
}

// Runs a line: nothing, a note, or what is asked for.
fn run_line(alloc: Global, table: &mut Table, line: &str) -> Result<()> {
    if line.is_empty() || line.starts_with("#") {
        return Ok(());
    }
    make(alloc, table, line)?;
    compare(table, line)
}

fn run_lines(alloc: Global, table: &mut Table, text: &str) -> Result<()> {
    for line in text.lines() {
        run_line(alloc, table, line)?;
    }
    let calls = table.calls;
    let end = format!(in alloc; "{calls} calls\n")?;
    table.told.push_str(end.as_str())?;
    Ok(())
}

fn empty_table(alloc: Global) -> Result<Table> {
    Ok(Table {
        stores: begin(alloc, b"")?,
        calls: 0,
        told: String::new(alloc),
    })
}

/// What is told of a table: each call that was answered otherwise, and how many calls there were.
pub fn run_table(alloc: Global, input: &[u8]) -> Result<String> {
    let text = std::str::from_utf8(input)?;
    let mut table = empty_table(alloc)?;
    run_lines(alloc, &mut table, text)?;
    Ok(table.told)
}
