// The report of a run.
ghost use Rattle.mck_report.specs.Grow.{grow_summary};
ghost use Rattle.run_model.specs.Reports.{count_line, ending_line, ending_word, escaped, faults, hex_digit, is_begin_vm, is_miss, rounds};
ghost use Rattle.run_model.specs.Texts.{Block, Line, Number, Text, part_bytes, text_of};
ghost use Rattle.run_summary.specs.Summaries.{end_line, output_parts, path_parts, summary_counts, summary_parts, unsent_part};
ghost use Rattle.std.specs.Prelude.{◌≡◌, ◌<◌, ◌++◌, ◌∷◌, [], OnOk, IfOk, codes, flat_map, map};

use crate::writing::{Token, add_line};
use file_model::PathRow;
use hybrid_model::{Ending, Event};
use mck_word::{Bytes, End, NoMemory};
use run_summary::{Output, ProcessEnd, Summary};
use std::alloc::Global;

fn ending_word(ending: Ending) -> &'static [u8]
    ensures { result.now ≡ ending_word ending }
{
    match ending {
        Ending::Done => b"done",
        Ending::Limit => b"limit",
        Ending::Stalled => b"stalled",
        Ending::Unfinished => b"unfinished",
    }
}

fn add_ending(text: &mut Bytes, ending: Ending) -> Result<(), NoMemory>
    ensures { OnOk result (text.new ≡ text.old ++ part_bytes (ending_line ending)) }
{
    add_line(text, b"end", &[Token::Text(ending_word(ending))])
}

fn add_process(text: &mut Bytes, process: &ProcessEnd) -> Result<(), NoMemory>
    ensures { OnOk result (text.new ≡ text.old ++ part_bytes (end_line process.now)) }
{
    let number = Token::Number(u64::from(process.pid.0));
    match process.end {
        None => add_line(text, b"guest", &[number, Token::Text(b"running")]),
        Some(End::Exit(code)) => {
            let code = Token::Number(u64::from(code));
            add_line(text, b"guest", &[number, Token::Text(b"exit"), code])
        }
        Some(End::Killed(signal)) => {
            let signal = Token::Number(u64::from(signal));
            add_line(text, b"guest", &[number, Token::Text(b"killed"), signal])
        }
    }
}

fn add_processes(text: &mut Bytes, processes: &[ProcessEnd]) -> Result<(), NoMemory>
    ensures { OnOk result (text.new ≡ text.old ++ text_of (map end_line processes.now)) }
{
    let mut rest = processes;
    while let Some((process, more)) = rest.split_first() {
        add_process(text, process)?;
        rest = more;
    }
    Ok(())
}

// Bytes and a line feed.
fn add_block(text: &mut Bytes, bytes: &[u8]) -> Result<(), NoMemory>
    ensures { OnOk result (text.new ≡ text.old ++ part_bytes (Block bytes.now)) }
{
    text.add(bytes)?;
    text.push(b'\n')?;
    Ok(())
}

fn add_output(text: &mut Bytes, output: &Output) -> Result<(), NoMemory>
    ensures { OnOk result (text.new ≡ text.old ++ text_of (output_parts output.now)) }
{
    let number = Token::Number(u64::from(output.pid.0));
    let length = Token::Number(output.bytes.len() as u64);
    add_line(text, b"output", &[number, length])?;
    add_block(text, output.bytes.as_slice())?;
    Ok(())
}

#[tactic(auto, using(crate::proofs::Lines::text_of_front))]
fn add_outputs(text: &mut Bytes, outputs: &[Output]) -> Result<(), NoMemory>
    ensures { OnOk result (text.new ≡ text.old ++ text_of (flat_map output_parts outputs.now)) }
{
    let mut rest = outputs;
    while let Some((output, more)) = rest.split_first() {
        add_output(text, output)?;
        rest = more;
    }
    Ok(())
}

fn hex_digit(n: u8) -> u8
    requires { n < 16 }
    ensures { result ≡ hex_digit n }
{
    if n < 10 { b'0' + n } else { b'W' + n }
}

fn add_escaped(text: &mut Bytes, byte: u8) -> Result<(), NoMemory>
    ensures { OnOk result (text.new ≡ text.old ++ escaped byte) }
{
    if 0x21 <= byte && byte <= 0x7e && byte != b'\\' {
        text.push(byte)
    } else {
        text.add(&[b'\\', b'x', hex_digit(byte / 16), hex_digit(byte % 16)])
    }
}

// A path as it is written.
fn escaped(alloc: Global, path: &[u8]) -> Result<Bytes, NoMemory>
    ensures { IfOk result (λ text. text ≡ flat_map escaped path.now) }
{
    let mut text = Bytes::new(alloc);
    for byte in path {
        add_escaped(&mut text, *byte)?;
    }
    Ok(text)
}

fn add_path(alloc: Global, text: &mut Bytes, row: &PathRow) -> Result<(), NoMemory>
    ensures { OnOk result (text.new ≡ text.old ++ text_of (path_parts row.now)) }
{
    let path = escaped(alloc, row.path.as_slice())?;
    let path = Token::Text(path.as_slice());
    if row.directory {
        add_line(text, b"dir", &[path])?;
    } else {
        let length = Token::Number(row.bytes.len() as u64);
        add_line(text, b"file", &[path, length])?;
        add_block(text, row.bytes.as_slice())?;
    }
    Ok(())
}

#[tactic(auto, using(crate::proofs::Lines::text_of_front))]
fn add_paths(alloc: Global, text: &mut Bytes, rows: &[PathRow]) -> Result<(), NoMemory>
    ensures { OnOk result (text.new ≡ text.old ++ text_of (flat_map path_parts rows.now)) }
{
    let mut rest = rows;
    while let Some((row, more)) = rest.split_first() {
        add_path(alloc, text, row)?;
        rest = more;
    }
    Ok(())
}

fn add_unsent(text: &mut Bytes, lines: &[u64]) -> Result<(), NoMemory>
    ensures { OnOk result (text.new ≡ text.old ++ text_of (map unsent_part lines.now)) }
{
    let mut rest = lines;
    while let Some((line, more)) = rest.split_first() {
        add_line(text, b"unsent", &[Token::Number(*line)])?;
        rest = more;
    }
    Ok(())
}

fn is_miss(event: &Event) -> bool
    ensures { result ≡ is_miss event.now }
{
    matches!(event, Event::Miss(..))
}

fn is_begin_vm(event: &Event) -> bool
    ensures { result ≡ is_begin_vm event.now }
{
    matches!(event, Event::BeginVm(_))
}

fn faults(journal: &[Event]) -> usize
    ensures { result ≡ faults journal.now }
{
    journal.iter().filter(|event| is_miss(event)).count()
}

fn rounds(journal: &[Event]) -> usize
    ensures { result ≡ rounds journal.now }
{
    journal.iter().filter(|event| is_begin_vm(event)).count()
}

fn add_count(text: &mut Bytes, name: &[u8], n: u64) -> Result<(), NoMemory>
    ensures { OnOk result (text.new ≡ text.old ++ part_bytes (count_line name.now n)) }
{
    add_line(text, b"count", &[Token::Text(name), Token::Number(n)])
}

fn add_counts(
    text: &mut Bytes,
    summary: &Summary,
    requests: u64,
    journal: &[Event],
) -> Result<(), NoMemory>
    ensures { OnOk result (text.new ≡ text.old ++ text_of (summary_counts summary.now requests journal.now)) }
{
    add_count(text, b"instructions", summary.instructions)?;
    add_count(text, b"requests", requests)?;
    add_count(text, b"faults", faults(journal) as u64)?;
    add_count(text, b"rounds", rounds(journal) as u64)?;
    add_count(text, b"free", summary.free)?;
    Ok(())
}

/// The report of a run: of the summary of its last state, its ending, how many requests were given in it, and its journal.
pub fn report(
    alloc: Global,
    summary: &Summary,
    ending: Ending,
    requests: u64,
    journal: &[Event],
) -> Result<Bytes, NoMemory>
    ensures { IfOk result (λ text. text ≡ text_of (summary_parts summary.now ending requests journal.now)) }
{
    let mut text = Bytes::new(alloc);
    add_line(&mut text, b"mcreport", &[Token::Number(1)])?;
    add_ending(&mut text, ending)?;
    add_processes(&mut text, summary.ends.as_slice())?;
    add_outputs(&mut text, summary.outputs.as_slice())?;
    add_paths(alloc, &mut text, summary.paths.as_slice())?;
    add_unsent(&mut text, summary.unsent.as_slice())?;
    add_counts(&mut text, summary, requests, journal)?;
    Ok(text)
}

/// What grow writes: the ending, the number of guests, and the counts of the report.
pub fn grow(
    alloc: Global,
    guests: u32,
    summary: &Summary,
    ending: Ending,
    requests: u64,
    journal: &[Event],
) -> Result<Bytes, NoMemory>
    ensures { IfOk result (λ text. text ≡ text_of (grow_summary guests summary.now ending requests journal.now)) }
{
    let mut text = Bytes::new(alloc);
    add_ending(&mut text, ending)?;
    add_line(&mut text, b"guests", &[Token::Number(u64::from(guests))])?;
    add_counts(&mut text, summary, requests, journal)?;
    Ok(text)
}
