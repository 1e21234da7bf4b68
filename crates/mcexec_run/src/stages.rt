// What calls share: the boot of the node, and the texts of its journal.
ghost use Rattle.hybrid_model.specs.Boot.{shortage};
ghost use Rattle.hybrid_model.specs.Journals.{ending};
ghost use Rattle.job_model.specs.Prepared.{IsPrepared};
ghost use Rattle.mcexec_run.specs.Chain.{Gives, IsRefusal, with_frames};
ghost use Rattle.mcexec_run.specs.Growing.{grow_text};
ghost use Rattle.mcexec_run.specs.Outcome.{Puts, booted, text_at};
ghost use Rattle.mcexec_run.specs.Writing.{text_of_kind};
ghost use Rattle.mck_report.specs.Status.{status_of};
ghost use Rattle.mck_report.specs.declared.status.Status.TheVariants.{HostFault, SinkFault};
ghost use Rattle.outside.specs.Outside.{Rose};
ghost use Rattle.std.specs.Prelude.{◌≡◌, ◌≢◌, ◌≤◌, IfErr, IfOk, None, OnOk};

use crate::chain::Prepared;
use crate::command::Form;
use hybrid_model::Event;
use mck_report::{Status, grow, report, trace};
use mck_word::{Bytes, NoMemory};
use node_machine::{BootError, Machine};
use outside::{Sink, put_all};
use run_summary::{one_count, one_report};
use std::alloc::Global;

/// Which text of a walk's journal is written: a report, a trace, or what grow writes of so many guests.
#[derive(Clone, Copy, Debug, PartialEq, Eq)]
pub enum Text {
    Of(Form),
    Growth(u32),
}

/// The node at the boot, where the frames suffice.
pub fn boot<M: Machine>(alloc: Global, p: &Prepared) -> Result<M, Status>
    requires { IsPrepared p.now.job p.now.images }
    ensures value { Gives (λ _. p.now) result (with_frames p.now) }
    ensures state { IfOk result (λ machine. M.pair machine ≡ booted p.now) }
    ensures frames { OnOk result (shortage p.now.job p.now.images ≡ None) }
    ensures refusal { IfErr result IsRefusal }
    ensures no_fault { IfErr result (λ status. status ≢ HostFault) }
{
    match M::boot(alloc, &p.job, p.images.as_slice()) {
        Ok(machine) => Ok(machine),
        Err(
            BootError::NoFrames {
                guest,
                needed,
                free,
            },
        ) => Err(Status::NoFrames {
            guest,
            needed,
            free,
        }),
        Err(BootError::NoMemory) => Err(Status::NoMemory),
    }
}

// The report of a journal that led to this state.
fn report_of<M: Machine>(alloc: Global, machine: &M, journal: &[Event]) -> Result<Bytes, NoMemory>
    ensures { IfOk result (λ text. text ≡ text_at Form.Report (M.pair machine.now) journal.now) }
{
    let summary = machine.summary()?;
    one_report();
    let text = report(
        alloc,
        &summary,
        machine.ending(),
        machine.requests(),
        journal,
    )?;
    Ok(text)
}

// What grow writes of a journal that led to this state.
fn growth_of<M: Machine>(
    alloc: Global,
    guests: u32,
    machine: &M,
    journal: &[Event],
) -> Result<Bytes, NoMemory>
    ensures { IfOk result (λ text. text ≡ grow_text guests (M.pair machine.now) journal.now) }
{
    let summary = machine.summary()?;
    one_count();
    let text = grow(
        alloc,
        guests,
        &summary,
        machine.ending(),
        machine.requests(),
        journal,
    )?;
    Ok(text)
}

// The text of a journal that led to this state.
fn text_of<M: Machine>(
    alloc: Global,
    machine: &M,
    journal: &[Event],
    text: Text,
) -> Result<Bytes, NoMemory>
    ensures { IfOk result (λ bytes. bytes ≡ text_of_kind text (M.pair machine.now) journal.now) }
{
    match text {
        Text::Of(Form::Report) => report_of(alloc, machine, journal),
        Text::Of(Form::Trace) => trace(alloc, journal),
        Text::Growth(guests) => growth_of(alloc, guests, machine, journal),
    }
}

/// Writes the text of a journal. The answer is the status of the ending, or what failed.
pub fn show<M: Machine, S: Sink>(
    alloc: Global,
    machine: &M,
    journal: &[Event],
    text: Text,
    sink: &mut S,
) -> Status
    ensures rises { S.faults sink.old ≤ S.faults sink.new }
    ensures puts { Puts (status_of (ending (M.pair machine.now))) (text_of_kind text (M.pair machine.now) journal.now) result (S.taken sink.old) (S.taken sink.new) }
    ensures fault { result ≡ SinkFault → Rose (S.faults sink.old) (S.faults sink.new) }
    ensures no_fault { result ≢ HostFault }
{
    let Ok(bytes) = text_of(alloc, machine, journal, text) else {
        return Status::NoMemory;
    };
    match put_all(sink, bytes.as_slice()) {
        Ok(()) => Status::from(machine.ending()),
        Err(_) => Status::SinkFault,
    }
}
