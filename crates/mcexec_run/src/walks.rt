// Walks of a job, and of the job that grows.
ghost use Rattle.job_model.specs.Prepared.{IsPrepared};
ghost use Rattle.mcexec_run.specs.Chain.{RoseAmong, has_to_fetch, prepared, with_frames};
ghost use Rattle.mcexec_run.specs.Given.{Given, RoseSomewhere};
ghost use Rattle.mcexec_run.specs.Growing.{GrowOutcome, grow_text, grown};
ghost use Rattle.mcexec_run.specs.Outcome.{Completes, WalkOutcome, text_at};
ghost use Rattle.mcexec_run.specs.Writing.{text_of_kind};
ghost use Rattle.mck_report.specs.declared.status.Status.TheVariants.{HostFault, SinkFault};
ghost use Rattle.outside.specs.Outside.{HostGoesOn, Rose, WhereTold};
ghost use Rattle.std.specs.Prelude.{◌≡◌, ◌≢◌, ◌≤◌, [], IfOk, Ok};

use crate::calls::Ended;
use crate::chain::{Prepared, gather};
use crate::command::Form;
use crate::stages::{Text, boot, show};
use guest_asm::grow_job;
use hybrid_laws::whole::every_legal_journal;
use hybrid_model::Event;
use ihk_parts::walk_journal;
use mck_report::Status;
use mck_word::{Items, NoMemory};
use node_machine::Machine;
use offer_laws::the_candidates_stand_for_all;
use outside::{Host, Sink};
use std::alloc::Global;
use work_laws::every_event_leaves_less;

// A walk with its journal: the status.
fn walk_into<M: Machine, S: Sink>(
    alloc: Global,
    p: &Prepared,
    order: u64,
    text: Text,
    sink: &mut S,
    journal: &mut Items<Event>,
) -> Status
    requires prepared { IsPrepared p.now.job p.now.images }
    requires empty { journal.old ≡ [] }
    ensures rises { S.faults sink.old ≤ S.faults sink.new }
    ensures outcome { WalkOutcome (with_frames p.now) order (text_of_kind text) result journal.new (S.taken sink.old) (S.taken sink.new) }
    ensures fault { result ≡ SinkFault → Rose (S.faults sink.old) (S.faults sink.new) }
    ensures no_fault { result ≢ HostFault }
{
    let mut machine: M = match boot(alloc, p) {
        Ok(machine) => machine,
        Err(status) => return status,
    };
    every_legal_journal();
    the_candidates_stand_for_all();
    every_event_leaves_less();
    match walk_journal(&mut machine, order, journal) {
        Ok(()) => show(alloc, &machine, journal.as_slice(), text, sink),
        Err(NoMemory) => Status::NoMemory,
    }
}

/// Walks a prepared job in that order, and writes the report or the trace. Of the journal that it keeps the main theorem holds, as `walk`
/// says.
pub fn walk_prepared<M: Machine, S: Sink>(
    alloc: Global,
    p: &Prepared,
    order: u64,
    form: Form,
    sink: &mut S,
) -> Ended
    requires { IsPrepared p.now.job p.now.images }
    ensures rises { S.faults sink.old ≤ S.faults sink.new }
    ensures outcome { WalkOutcome (with_frames p.now) order (text_at form) result.status result.journal (S.taken sink.old) (S.taken sink.new) }
    ensures no_host_fault { result.status ≢ HostFault }
    ensures sink_fault { result.status ≡ SinkFault → Rose (S.faults sink.old) (S.faults sink.new) }
    ensures complete { Completes (with_frames p.now) order (text_at form) result.status result.journal }
{
    let mut journal = Items::new(alloc);
    let status = walk_into::<M, S>(alloc, p, order, Text::Of(form), sink, &mut journal);
    Ended { status, journal }
}

fn walk_job<M: Machine, H: Host, S: Sink>(
    alloc: Global,
    job: &str,
    order: u64,
    form: Form,
    host: &mut H,
    sink: &mut S,
    journal: &mut Items<Event>,
) -> Status
    requires { journal.old ≡ [] }
    ensures goes_on { HostGoesOn H.holds H.faults host.old host.new }
    ensures rises { S.faults sink.old ≤ S.faults sink.new }
    ensures outcome { WhereTold (H.holds host.old) (λ held. WalkOutcome (prepared held job.now) order (text_at form) result journal.new (S.taken sink.old) (S.taken sink.new)) }
    ensures given { Given (λ ready. WalkOutcome ready order (text_at form) result journal.new (S.taken sink.old) (S.taken sink.new)) }
    ensures host_fault { WhereTold (H.holds host.old) (λ held. result ≡ HostFault → RoseAmong H.faults host.old host.new (has_to_fetch held job.now)) }
    ensures rose { result ≡ HostFault → RoseSomewhere H.faults host.old host.new }
    ensures sink_fault { result ≡ SinkFault → Rose (S.faults sink.old) (S.faults sink.new) }
{
    match gather(alloc, host, job) {
        Ok(p) => walk_into::<M, S>(alloc, &p, order, Text::Of(form), sink, journal),
        Err(status) => status,
    }
}

/// Walks the job under a name in that order, and writes the report or the trace.
///
/// The main theorem holds of the journal that it keeps, also where memory runs out before its end. Read without proxies, mirrors and
/// clear rounds, the journal is a run of the one-kernel machine, from that machine's boot of the same job to the state that the two
/// kernels show at its end. After each event the state is coherent, what the event shows of itself are steps that the one-kernel machine
/// may take there, a copy by the Linux side reaches the frame that the process's own table gives, with the right that it needs, and a frame
/// that is handed out was free or is given up by the same event, is referred to by nothing, and holds zeros or a fork's copy. Each
/// request number gets one reply at most, and has had it where the run is over, but for calls that wait for ever in a process that lives.
/// And where no event may happen any more, the one-kernel machine has no step either: the two kernels add no stall.
pub fn walk<M: Machine, H: Host, S: Sink>(
    alloc: Global,
    job: &str,
    order: u64,
    form: Form,
    host: &mut H,
    sink: &mut S,
) -> Ended
    ensures goes_on { HostGoesOn H.holds H.faults host.old host.new }
    ensures rises { S.faults sink.old ≤ S.faults sink.new }
    ensures outcome { WhereTold (H.holds host.old) (λ held.
        WalkOutcome (prepared held job.now) order (text_at form) result.status result.journal (S.taken sink.old) (S.taken sink.new)) }
    ensures given { Given (λ ready.
        WalkOutcome ready order (text_at form) result.status result.journal (S.taken sink.old) (S.taken sink.new) × Completes ready order (text_at form) result.status result.journal) }
    ensures host_fault { WhereTold (H.holds host.old) (λ held. result.status ≡ HostFault → RoseAmong H.faults host.old host.new (has_to_fetch held job.now)) }
    ensures rose { result.status ≡ HostFault → RoseSomewhere H.faults host.old host.new }
    ensures sink_fault { result.status ≡ SinkFault → Rose (S.faults sink.old) (S.faults sink.new) }
    ensures complete { WhereTold (H.holds host.old) (λ held. Completes (prepared held job.now) order (text_at form) result.status result.journal) }
{
    let mut journal = Items::new(alloc);
    let status = walk_job::<M, H, S>(alloc, job, order, form, host, sink, &mut journal);
    Ended { status, journal }
}

// The job that grows.
fn grown(alloc: Global, n: u32) -> Result<Prepared, NoMemory>
    requires some { 1 ≤ n }
    requires most { n ≤ 16 }
    ensures value { IfOk result (λ p. p ≡ grown n) }
    ensures prepared { IfOk result (λ p. IsPrepared p.job p.images) }
{
    let (job, images) = grow_job(alloc, n)?;
    Ok(Prepared { job, images })
}

fn grow_into<M: Machine, S: Sink>(
    alloc: Global,
    n: u32,
    order: u64,
    sink: &mut S,
    journal: &mut Items<Event>,
) -> Status
    requires some { 1 ≤ n }
    requires most { n ≤ 16 }
    requires empty { journal.old ≡ [] }
    ensures rises { S.faults sink.old ≤ S.faults sink.new }
    ensures outcome { GrowOutcome n order result journal.new (S.taken sink.old) (S.taken sink.new) }
    ensures fault { result ≡ SinkFault → Rose (S.faults sink.old) (S.faults sink.new) }
    ensures no_fault { result ≢ HostFault }
{
    match grown(alloc, n) {
        Ok(p) => walk_into::<M, S>(alloc, &p, order, Text::Growth(n), sink, journal),
        Err(NoMemory) => Status::NoMemory,
    }
}

/// Walks the job of n guests that map, write and unmap in rounds, in that order, and writes its ending and its counts. Nothing stands
/// before the walk: the frames suffice. Of the journal that it keeps the main theorem holds, as `walk` says.
pub fn grow<M: Machine, S: Sink>(alloc: Global, n: u32, order: u64, sink: &mut S) -> Ended
    requires some { 1 ≤ n }
    requires most { n ≤ 16 }
    ensures rises { S.faults sink.old ≤ S.faults sink.new }
    ensures outcome { GrowOutcome n order result.status result.journal (S.taken sink.old) (S.taken sink.new) }
    ensures no_host_fault { result.status ≢ HostFault }
    ensures sink_fault { result.status ≡ SinkFault → Rose (S.faults sink.old) (S.faults sink.new) }
    ensures complete { Completes (Ok (grown n)) order (grow_text n) result.status result.journal }
{
    let mut journal = Items::new(alloc);
    let status = grow_into::<M, S>(alloc, n, order, sink, &mut journal);
    Ended { status, journal }
}
