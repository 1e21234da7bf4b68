// The trace of a journal.
ghost use Rattle.run_model.specs.Texts.{Line, Text, Number, part_bytes};
ghost use Rattle.run_model.specs.Traces.{trace, words_of};
ghost use Rattle.std.specs.Prelude.{◌≡◌, ◌++◌, ◌∷◌, [], OnOk, IfOk, codes};
ghost use Rattle.hybrid_model.specs.declared.events.Event.TheVariants.{Fetch};

use crate::writing::{Token, add_line};
use hybrid_model::Event;
use mck_word::{Bytes, NoMemory, Pid};
use std::alloc::Global;

fn add_one(text: &mut Bytes, word: &[u8], n: u32) -> Result<(), NoMemory>
    ensures { OnOk result (text.new ≡ text.old ++ part_bytes (Line (Text word.now ∷ Number n ∷ []))) }
{
    add_line(text, word, &[Token::Number(u64::from(n))])
}

fn add_two(text: &mut Bytes, word: &[u8], n: u32, m: u64) -> Result<(), NoMemory>
    ensures { OnOk result (text.new ≡ text.old ++ part_bytes (Line (Text word.now ∷ Number n ∷ Number m ∷ []))) }
{
    add_line(text, word, &[Token::Number(u64::from(n)), Token::Number(m)])
}

fn add_run(text: &mut Bytes, core: u32, tid: u32, n: u32) -> Result<(), NoMemory>
    ensures { OnOk result (text.new ≡ text.old ++ part_bytes (Line (Text (codes "run") ∷ Number core ∷ Number tid ∷ Number n ∷ []))) }
{
    add_line(
        text,
        b"run",
        &[
            Token::Number(u64::from(core)),
            Token::Number(u64::from(tid)),
            Token::Number(u64::from(n)),
        ],
    )
}

// A message is taken from the first ring or from another one.
fn add_fetch(text: &mut Bytes, pid: Pid, ring: u32) -> Result<(), NoMemory>
    ensures { OnOk result (text.new ≡ text.old ++ part_bytes (Line (words_of (Fetch pid ring)))) }
{
    if ring == 0 {
        add_one(text, b"fetch", pid.0)
    } else {
        add_two(text, b"fetch", pid.0, u64::from(ring))
    }
}

fn add_event(text: &mut Bytes, event: &Event) -> Result<(), NoMemory>
    ensures { OnOk result (text.new ≡ text.old ++ part_bytes (Line (words_of event.now))) }
{
    match *event {
        Event::Run(core, tid, n) => add_run(text, core, tid.0, n),
        Event::Trap(tid) => add_one(text, b"trap", tid.0),
        Event::Deliver(tid) => add_one(text, b"deliver", tid.0),
        Event::Intake(pid) => add_one(text, b"intake", pid.0),
        Event::Answer(pid, w) => add_two(text, b"answer", pid.0, u64::from(w)),
        Event::BeginVm(tid) => add_one(text, b"begin", tid.0),
        Event::Interrupt(tid) => add_one(text, b"interrupt", tid.0),
        Event::Wait(tid) => add_one(text, b"wait", tid.0),
        Event::Reap(pid) => add_one(text, b"reap", pid.0),
        Event::Script(k) => add_one(text, b"script", k),
        Event::Fetch(pid, ring) => add_fetch(text, pid, ring),
        Event::Assign(pid, w) => add_two(text, b"assign", pid.0, u64::from(w)),
        Event::Miss(pid, w) => add_two(text, b"miss", pid.0, u64::from(w)),
        Event::Pin(pid, w) => add_two(text, b"pin", pid.0, u64::from(w)),
        Event::Copy(pid, w) => add_two(text, b"copy", pid.0, u64::from(w)),
        Event::Unpin(pid, w) => add_two(text, b"unpin", pid.0, u64::from(w)),
        Event::Act(pid, w) => add_two(text, b"act", pid.0, u64::from(w)),
        Event::Park(pid, w) => add_two(text, b"park", pid.0, u64::from(w)),
        Event::Unpark(pid, request) => add_two(text, b"unpark", pid.0, request.0),
        Event::Finish(pid, w) => add_two(text, b"finish", pid.0, u64::from(w)),
        Event::AckClear(pid) => add_one(text, b"ack", pid.0),
    }
}

/// The trace of a journal: its version, then a line for each event.
pub fn trace(alloc: Global, journal: &[Event]) -> Result<Bytes, NoMemory>
    ensures { IfOk result (λ text. text ≡ trace journal.now) }
{
    let mut text = Bytes::new(alloc);
    add_line(&mut text, b"mctrace", &[Token::Number(2)])?;
    let mut rest = journal;
    while let Some((event, more)) = rest.split_first() {
        add_event(&mut text, event)?;
        rest = more;
    }
    Ok(text)
}
