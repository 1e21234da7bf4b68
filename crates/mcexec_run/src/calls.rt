// The call of the program.
ghost use Rattle.mcexec_run.specs.Calls.{CallCompletes, CallGiven, CallMachine, CallOutcome, hands_out, names_to_fetch};
ghost use Rattle.mcexec_run.specs.Chain.{RoseAmong};
ghost use Rattle.mcexec_run.specs.Commands.{command_of, second_word, third_word};
ghost use Rattle.mcexec_run.specs.Given.{RoseSomewhere};
ghost use Rattle.mck_report.specs.declared.status.Status.TheVariants.{HostFault, SinkFault};
ghost use Rattle.outside.specs.Outside.{HostGoesOn, Rose, WhereTold};
ghost use Rattle.std.specs.Option.{option_map};
ghost use Rattle.std.specs.Prelude.{◌≡◌, ◌≤◌, [], None, is_some};

use crate::audits::{Audited, audit};
use crate::checks::check;
use crate::command::{Command, read_command};
use crate::replays::replay;
use crate::runs::run;
use crate::walks::{grow, walk};
use hybrid_model::Event;
use mck_crew::Gate;
use mck_report::Status;
use mck_word::Items;
use node_machine::{Machine, SingleKernel};
use outside::{Host, Sink};
use std::alloc::Global;
use std::sync::Wait;
use std::thread::Threads;

/// How a call ended, and the journal that it kept.
#[derive(Drop)]
pub struct Ended {
    pub status: Status,
    pub journal: Items<Event>,
}

/// A call that keeps and writes nothing.
pub fn nothing_kept(alloc: Global, status: Status) -> Ended
    ensures status { result.status ≡ status }
    ensures journal { result.journal ≡ [] }
{
    Ended {
        status,
        journal: Items::new(alloc),
    }
}

// A call that runs no one-kernel machine.
fn alone<O>(ended: Ended) -> Audited<O>
    ensures status { result.status ≡ ended.status }
    ensures journal { result.journal ≡ ended.journal }
    ensures machine { result.machine ≡ None }
{
    Audited {
        status: ended.status,
        journal: ended.journal,
        machine: None,
    }
}

// The second word, where there is one.
fn second_word(words: &[String]) -> &str
    ensures { result.now ≡ second_word words.now }
{
    match words.get(1) {
        Some(word) => word.as_str(),
        None => "",
    }
}

// The third word, where there is one.
fn third_word(words: &[String]) -> &str
    ensures { result.now ≡ third_word words.now }
{
    match words.get(2) {
        Some(word) => word.as_str(),
        None => "",
    }
}

/// Runs the command that the words are; each has the clauses of its call. An audit hands out its one-kernel machine where the trace was run to its
/// end. Threads start, and the gate is passed, in `run` alone.
pub fn mcexec<
    M: Machine + Send + Sync,
    O: SingleKernel,
    G: Gate + Sync,
    R: Threads + Wait + Sync,
    H: Host,
    S: Sink,
>(rt: &R, gate: &G, alloc: Global, words: &[String], host: &mut H, sink: &mut S) -> Audited<O>
    ensures goes_on { HostGoesOn H.holds H.faults host.old host.new }
    ensures rises { S.faults sink.old ≤ S.faults sink.new }
    ensures outcome { WhereTold (H.holds host.old) (λ held.
        CallOutcome (command_of words.now) (second_word words.now) (third_word words.now) held result.status result.journal (S.taken sink.old) (S.taken sink.new)) }
    ensures hands_out { is_some result.machine ≡ hands_out (command_of words.now) result.status }
    ensures machine { WhereTold (H.holds host.old) (λ held.
        CallMachine (command_of words.now) (second_word words.now) (third_word words.now) held result.status result.journal (option_map O.one result.machine)) }
    ensures given { CallGiven (command_of words.now) result.status result.journal (option_map O.one result.machine) (S.taken sink.old) (S.taken sink.new) }
    ensures host_fault { WhereTold (H.holds host.old) (λ held.
        result.status ≡ HostFault → RoseAmong H.faults host.old host.new (names_to_fetch (command_of words.now) (second_word words.now) (third_word words.now) held)) }
    ensures rose { result.status ≡ HostFault → RoseSomewhere H.faults host.old host.new }
    ensures sink_fault { result.status ≡ SinkFault → Rose (S.faults sink.old) (S.faults sink.new) }
    ensures complete { WhereTold (H.holds host.old) (λ held. CallCompletes (command_of words.now) (second_word words.now) (third_word words.now) held result.status result.journal) }
{
    match read_command(words) {
        Some(Command::Walk { order, form }) => alone(walk::<M, H, S>(
            alloc,
            second_word(words),
            order,
            form,
            host,
            sink,
        )),
        Some(Command::Check) => alone(check::<M, H, S>(alloc, second_word(words), host, sink)),
        Some(Command::Replay) => {
            let (job, trace) = (second_word(words), third_word(words));
            alone(replay::<M, H, S>(alloc, job, trace, host, sink))
        }
        Some(Command::Audit) => {
            audit::<M, O, H, S>(alloc, second_word(words), third_word(words), host, sink)
        }
        Some(Command::Grow { guests, order }) => alone(grow::<M, S>(alloc, guests, order, sink)),
        Some(Command::Run { form }) => {
            let job = second_word(words);
            alone(run::<M, G, R, H, S>(rt, gate, alloc, job, form, host, sink))
        }
        None => alone(nothing_kept(alloc, Status::BadWords)),
    }
}
