// The events of a trace, made to happen one after another.
ghost use Rattle.hybrid_model.specs.Journals.{may_all, state};
ghost use Rattle.mcexec_run.specs.Replaying.{FirstRefused, FrontBehind, IsFront, IsTraceOf, RefusedBehind};
ghost use Rattle.mcexec_run.specs.declared.replaying.Refusal.TheVariants.{Line};
ghost use Rattle.mck_report.specs.Reading.{IsEntry};
ghost use Rattle.run_model.specs.Texts.{text_of};
ghost use Rattle.run_model.specs.Traces.{event_lines};
ghost use Rattle.std.specs.List.{AllByRecursion};
ghost use Rattle.std.specs.Prelude.{◌≡◌, ◌<◌, ◌+◌, ◌^◌, [], Err, ℕ, IsErrOf, OnOk, length, true};

use hybrid_model::Event;
use mck_report::{split_entry, split_version};
use mck_word::{Items, NoMemory};
use node_machine::Machine;

/// Why a trace was not run to its end: its first line that is no entry or whose event may not happen there, counted from 1, or want of
/// memory.
#[derive(Clone, Copy, Debug, PartialEq, Eq)]
pub enum Refusal {
    Line(u64),
    NoMemory,
}

impl From<NoMemory> for Refusal {
    ghost use Rattle.mcexec_run.specs.declared.replaying.Refusal.TheVariants.{NoMemory};

    ghost from_gives = { λ _ e. e ≡ NoMemory };

    fn from(_e: NoMemory) -> Refusal {
        Refusal::NoMemory
    }
}

// The lines behind the first.
fn replay_lines<M: Machine>(
    machine: &mut M,
    version: u8,
    bytes: &[u8],
    journal: &mut Items<Event>,
) -> Result<(), Refusal>
    requires empty { journal.old ≡ [] }
    requires room { length bytes.now + 2 < 2 ^ 64 }
    ensures entries { AllByRecursion (IsEntry version) journal.new }
    ensures front { FrontBehind bytes.now journal.new }
    ensures whole { OnOk result (bytes.now ≡ text_of (event_lines journal.new)) }
    ensures legal { may_all (M.pair machine.old) journal.new ≡ true }
    ensures state { M.pair machine.new ≡ state (M.pair machine.old) journal.new }
    ensures refused { (n : ℕ) → result ≡ Err (Line n) → RefusedBehind (M.pair machine.old) version journal.new bytes.now n }
{
    let mut rest = bytes;
    let mut line = 2u64;
    'lines: while !rest.is_empty() {
        let Some((event, more)) = split_entry(version, rest) else {
            return Err(Refusal::Line(line));
        };
        if !machine.may(&event) {
            return Err(Refusal::Line(line));
        }
        machine.make_room(&event)?;
        journal.push(event)?;
        machine.apply(&event);
        line += 1;
        rest = more;
    }
    Ok(())
}

/// Makes the events of a trace happen, line by line, to its end or before the first line that is refused. Where memory runs out, the
/// journal so far stays.
pub fn replay_trace<M: Machine>(
    machine: &mut M,
    trace: &[u8],
    journal: &mut Items<Event>,
) -> Result<(), Refusal>
    requires { journal.old ≡ [] }
    ensures spelled { OnOk result (IsTraceOf trace.now journal.new) }
    ensures front { IsErrOf result Refusal.NoMemory → IsFront trace.now journal.new }
    ensures legal { may_all (M.pair machine.old) journal.new ≡ true }
    ensures state { M.pair machine.new ≡ state (M.pair machine.old) journal.new }
    ensures refused { (n : ℕ) → result ≡ Err (Line n) → FirstRefused (M.pair machine.old) trace.now n }
{
    let Some((version, rest)) = split_version(trace) else {
        return Err(Refusal::Line(1));
    };
    replay_lines(machine, version, rest, journal)
}
