// Replays of a trace.
ghost use Rattle.hybrid_model.specs.Boot.{shortage};
ghost use Rattle.job_model.specs.Prepared.{IsPrepared};
ghost use Rattle.mcexec_run.specs.Chain.{RoseAmong};
ghost use Rattle.mcexec_run.specs.Given.{Answered, GivenTraced, RoseSomewhere};
ghost use Rattle.mcexec_run.specs.Outcome.{booted};
ghost use Rattle.mcexec_run.specs.Replaying.{CompletesReplay, LedTo, ReplayOutcome, Traced, has_to_fetch_both, ran_whole, traced, with_given, with_trace};
ghost use Rattle.mck_report.specs.declared.status.Status.TheVariants.{HostFault, SinkFault};
ghost use Rattle.outside.specs.Outside.{HostGoesOn, Rose, WhereTold};
ghost use Rattle.std.specs.Prelude.{◌≡◌, ◌≢◌, ◌≤◌, [], IfSome, None, Ok, is_some};

use crate::calls::Ended;
use crate::chain::{Prepared, gather};
use crate::command::Form;
use crate::fetches::fetch_name;
use crate::replaying::{Refusal, replay_trace};
use crate::stages::{Text, boot, show};
use hybrid_laws::whole::every_legal_journal;
use hybrid_model::Event;
use mck_report::Status;
use mck_word::Items;
use node_machine::Machine;
use offer_laws::the_candidates_stand_for_all;
use outside::{Host, Sink};
use std::alloc::Global;

/// How a replay ended: its status, and the machine where the trace was run to its end.
#[derive(Drop)]
pub struct Replayed<M> {
    pub status: Status,
    pub machine: Option<M>,
}

// Whether a trace was run to its end.
fn ran_whole(status: &Status) -> bool
    ensures { result ≡ ran_whole status.now }
{
    matches!(
        status,
        Status::Done | Status::Stalled | Status::Limit | Status::SinkFault | Status::Unfinished
    )
}

fn without_machine<M>(status: Status) -> Replayed<M>
    ensures status { result.status ≡ status }
    ensures machine { result.machine ≡ None }
{
    Replayed {
        status,
        machine: None,
    }
}

// The machine stays where the trace was run to its end.
fn with_machine<M: Drop>(status: Status, machine: M) -> Replayed<M>
    ensures status { result.status ≡ status }
    ensures some { is_some result.machine ≡ ran_whole status }
    ensures machine { IfSome result.machine (λ m. m ≡ machine) }
{
    if ran_whole(&status) {
        Replayed {
            status,
            machine: Some(machine),
        }
    } else {
        without_machine(status)
    }
}

// Runs a trace on the node at its boot, and writes the report.
fn run_trace<M: Machine, S: Sink>(
    alloc: Global,
    p: &Prepared,
    mut machine: M,
    trace: &[u8],
    sink: &mut S,
    journal: &mut Items<Event>,
) -> Replayed<M>
    requires prepared { IsPrepared p.now.job p.now.images }
    requires frames { shortage p.now.job p.now.images ≡ None }
    requires booted { M.pair machine ≡ booted p.now }
    requires empty { journal.old ≡ [] }
    ensures rises { S.faults sink.old ≤ S.faults sink.new }
    ensures outcome { ReplayOutcome (Ok (record { start = p.now; trace = trace.now })) result.status journal.new (S.taken sink.old) (S.taken sink.new) }
    ensures hands_out { is_some result.machine ≡ ran_whole result.status }
    ensures machine { IfSome result.machine (λ m. LedTo p.now journal.new (M.pair m)) }
    ensures fault { result.status ≡ SinkFault → Rose (S.faults sink.old) (S.faults sink.new) }
    ensures no_fault { result.status ≢ HostFault }
{
    every_legal_journal();
    the_candidates_stand_for_all();
    match replay_trace(&mut machine, trace, journal) {
        Ok(()) => {
            let report = Text::Of(Form::Report);
            let status = show(alloc, &machine, journal.as_slice(), report, sink);
            with_machine(status, machine)
        }
        Err(Refusal::Line(line)) => {
            *journal = Items::new(alloc);
            without_machine(Status::BadTrace(line))
        }
        Err(Refusal::NoMemory) => without_machine(Status::NoMemory),
    }
}

// A replay of a job that was gathered: the trace is fetched once the frames suffice.
fn replay_into<M: Machine, H: Host, S: Sink>(
    alloc: Global,
    p: &Prepared,
    trace: &str,
    host: &mut H,
    sink: &mut S,
    journal: &mut Items<Event>,
) -> Replayed<M>
    requires prepared { IsPrepared p.now.job p.now.images }
    requires empty { journal.old ≡ [] }
    ensures goes_on { HostGoesOn H.holds H.faults host.old host.new }
    ensures rises { S.faults sink.old ≤ S.faults sink.new }
    ensures outcome { WhereTold (H.holds host.old) (λ held. ReplayOutcome (with_trace held trace.now p.now) result.status journal.new (S.taken sink.old) (S.taken sink.new)) }
    ensures given { Answered (λ held. ReplayOutcome (with_trace held [] p.now) result.status journal.new (S.taken sink.old) (S.taken sink.new)) }
    ensures hands_out { is_some result.machine ≡ ran_whole result.status }
    ensures machine { IfSome result.machine (λ m. LedTo p.now journal.new (M.pair m)) }
    ensures fault { result.status ≡ SinkFault → Rose (S.faults sink.old) (S.faults sink.new) }
    ensures host_fault { result.status ≡ HostFault → Rose (H.faults host.old trace.now) (H.faults host.new trace.now) }
{
    let machine: M = match boot(alloc, p) {
        Ok(machine) => machine,
        Err(status) => return without_machine(status),
    };
    match fetch_name(alloc, host, trace.as_bytes()) {
        Ok(bytes) => run_trace(alloc, p, machine, &bytes, sink, journal),
        Err(status) => without_machine(status),
    }
}

/// A replay of a prepared job with the bytes of its trace, with its journal.
pub fn replay_bytes<M: Machine, S: Sink>(
    alloc: Global,
    p: &Prepared,
    trace: &[u8],
    sink: &mut S,
    journal: &mut Items<Event>,
) -> Replayed<M>
    requires prepared { IsPrepared p.now.job p.now.images }
    requires empty { journal.old ≡ [] }
    ensures rises { S.faults sink.old ≤ S.faults sink.new }
    ensures outcome { ReplayOutcome (with_given trace.now p.now) result.status journal.new (S.taken sink.old) (S.taken sink.new) }
    ensures hands_out { is_some result.machine ≡ ran_whole result.status }
    ensures machine { IfSome result.machine (λ m. LedTo p.now journal.new (M.pair m)) }
    ensures fault { result.status ≡ SinkFault → Rose (S.faults sink.old) (S.faults sink.new) }
    ensures no_fault { result.status ≢ HostFault }
{
    match boot(alloc, p) {
        Ok(machine) => run_trace(alloc, p, machine, trace, sink, journal),
        Err(status) => without_machine(status),
    }
}

/// Runs the trace on the node of a prepared job, and writes the report of its journal, as `replay` does.
pub fn replay_prepared<M: Machine, S: Sink>(
    alloc: Global,
    p: &Prepared,
    trace: &[u8],
    sink: &mut S,
) -> Ended
    requires { IsPrepared p.now.job p.now.images }
    ensures rises { S.faults sink.old ≤ S.faults sink.new }
    ensures outcome { ReplayOutcome (with_given trace.now p.now) result.status result.journal (S.taken sink.old) (S.taken sink.new) }
    ensures no_host_fault { result.status ≢ HostFault }
    ensures sink_fault { result.status ≡ SinkFault → Rose (S.faults sink.old) (S.faults sink.new) }
    ensures complete { CompletesReplay (with_given trace.now p.now) result.status result.journal }
{
    let mut journal = Items::new(alloc);
    let replayed: Replayed<M> = replay_bytes(alloc, p, trace, sink, &mut journal);
    Ended {
        status: replayed.status,
        journal,
    }
}

/// A replay of the job and the trace under two names, with its journal.
pub fn replay_job<M: Machine, H: Host, S: Sink>(
    alloc: Global,
    job: &str,
    trace: &str,
    host: &mut H,
    sink: &mut S,
    journal: &mut Items<Event>,
) -> Replayed<M>
    requires { journal.old ≡ [] }
    ensures goes_on { HostGoesOn H.holds H.faults host.old host.new }
    ensures rises { S.faults sink.old ≤ S.faults sink.new }
    ensures outcome { WhereTold (H.holds host.old) (λ held. ReplayOutcome (traced held job.now trace.now) result.status journal.new (S.taken sink.old) (S.taken sink.new)) }
    ensures hands_out { is_some result.machine ≡ ran_whole result.status }
    ensures given { GivenTraced (λ ready.
        ReplayOutcome ready result.status journal.new (S.taken sink.old) (S.taken sink.new)
        × ((t : Traced) → ready ≡ Ok t → IfSome result.machine (λ m. LedTo t.start journal.new (M.pair m)))) }
    ensures machine { WhereTold (H.holds host.old) (λ held. (t : Traced) → traced held job.now trace.now ≡ Ok t → IfSome result.machine (λ m. LedTo t.start journal.new (M.pair m))) }
    ensures host_fault { WhereTold (H.holds host.old) (λ held. result.status ≡ HostFault → RoseAmong H.faults host.old host.new (has_to_fetch_both held job.now trace.now)) }
    ensures rose { result.status ≡ HostFault → RoseSomewhere H.faults host.old host.new }
    ensures sink_fault { result.status ≡ SinkFault → Rose (S.faults sink.old) (S.faults sink.new) }
{
    match gather(alloc, host, job) {
        Ok(p) => replay_into(alloc, &p, trace, host, sink, journal),
        Err(status) => without_machine(status),
    }
}

/// Runs the trace under the second name on the node of the job under the first, and writes the report of its journal. The journal that
/// it keeps is the one that the trace spells. `BadTrace` names the trace's first line that is no entry or whose event may not happen there,
/// and nothing is kept then; `Unfinished` comes where an event may still happen after the trace.
///
/// The main theorem holds of the journal that it keeps, as `walk` says, whatever the trace is.
pub fn replay<M: Machine, H: Host, S: Sink>(
    alloc: Global,
    job: &str,
    trace: &str,
    host: &mut H,
    sink: &mut S,
) -> Ended
    ensures goes_on { HostGoesOn H.holds H.faults host.old host.new }
    ensures rises { S.faults sink.old ≤ S.faults sink.new }
    ensures outcome { WhereTold (H.holds host.old) (λ held.
        ReplayOutcome (traced held job.now trace.now) result.status result.journal (S.taken sink.old) (S.taken sink.new)) }
    ensures given { GivenTraced (λ ready.
        ReplayOutcome ready result.status result.journal (S.taken sink.old) (S.taken sink.new) × CompletesReplay ready result.status result.journal) }
    ensures host_fault { WhereTold (H.holds host.old) (λ held. result.status ≡ HostFault → RoseAmong H.faults host.old host.new (has_to_fetch_both held job.now trace.now)) }
    ensures rose { result.status ≡ HostFault → RoseSomewhere H.faults host.old host.new }
    ensures sink_fault { result.status ≡ SinkFault → Rose (S.faults sink.old) (S.faults sink.new) }
    ensures complete { WhereTold (H.holds host.old) (λ held. CompletesReplay (traced held job.now trace.now) result.status result.journal) }
{
    let mut journal = Items::new(alloc);
    let replayed: Replayed<M> = replay_job(alloc, job, trace, host, sink, &mut journal);
    Ended {
        status: replayed.status,
        journal,
    }
}
