// Audits of a trace.
ghost use Rattle.job_model.specs.Prepared.{IsPrepared};
ghost use Rattle.mcexec_run.specs.Audits.{AuditOutcome, SingleRun};
ghost use Rattle.mcexec_run.specs.Chain.{RoseAmong};
ghost use Rattle.mcexec_run.specs.Given.{GivenTraced, RoseSomewhere};
ghost use Rattle.mcexec_run.specs.Replaying.{CompletesReplay, has_to_fetch_both, ran_whole, traced, with_given};
ghost use Rattle.mck_report.specs.declared.status.Status.TheVariants.{HostFault, SinkFault};
ghost use Rattle.outside.specs.Outside.{HostGoesOn, Rose, WhereTold};
ghost use Rattle.std.specs.Option.{option_map};
ghost use Rattle.std.specs.Prelude.{◌≡◌, ◌≢◌, ◌≤◌, is_some};

use crate::chain::Prepared;
use crate::lockstep::Lockstep;
use crate::replays::{Replayed, replay_bytes, replay_job};
use hybrid_laws::whole::every_legal_journal;
use hybrid_model::Event;
use mck_report::Status;
use mck_word::Items;
use node_machine::{Machine, SingleKernel};
use outside::{Host, Sink};
use std::alloc::Global;

/// How an audit ended, the journal that it kept, and the one-kernel machine where the trace was run to its end.
#[derive(Drop)]
pub struct Audited<O> {
    pub status: Status,
    pub journal: Items<Event>,
    pub machine: Option<O>,
}

// The one-kernel machine of the two.
fn single_of<M: Machine, O: SingleKernel>(both: Option<Lockstep<M, O>>) -> Option<O>
    ensures { result ≡ option_map (λ x. x.single) both }
{
    match both {
        Some(both) => Some(both.single),
        None => None,
    }
}

/// Audits the trace on the node of a prepared job, as `audit` does.
pub fn audit_prepared<M: Machine, O: SingleKernel, S: Sink>(
    alloc: Global,
    p: &Prepared,
    trace: &[u8],
    sink: &mut S,
) -> Audited<O>
    requires { IsPrepared p.now.job p.now.images }
    ensures rises { S.faults sink.old ≤ S.faults sink.new }
    ensures outcome { AuditOutcome (with_given trace.now p.now) result.status result.journal (S.taken sink.old) (S.taken sink.new) }
    ensures hands_out { is_some result.machine ≡ ran_whole result.status }
    ensures machine { SingleRun (with_given trace.now p.now) result.status result.journal (option_map O.one result.machine) }
    ensures no_host_fault { result.status ≢ HostFault }
    ensures sink_fault { result.status ≡ SinkFault → Rose (S.faults sink.old) (S.faults sink.new) }
    ensures complete { CompletesReplay (with_given trace.now p.now) result.status result.journal }
{
    let mut journal = Items::new(alloc);
    let replayed: Replayed<Lockstep<M, O>> = replay_bytes(alloc, p, trace, sink, &mut journal);
    Audited {
        status: replayed.status,
        journal,
        machine: single_of(replayed.machine),
    }
}

/// Replays the trace under the second name for the job under the first, and runs the steps that its events stand for on the one-kernel
/// machine beside the two kernels. The report is made from what the one-kernel machine says of itself. It is the same bytes, and the
/// same status, as `replay` gives, since the journal read without proxies, mirrors and clear rounds is a run of that machine. The machine is
/// handed out where the trace was run to its end.
pub fn audit<M: Machine, O: SingleKernel, H: Host, S: Sink>(
    alloc: Global,
    job: &str,
    trace: &str,
    host: &mut H,
    sink: &mut S,
) -> Audited<O>
    ensures goes_on { HostGoesOn H.holds H.faults host.old host.new }
    ensures rises { S.faults sink.old ≤ S.faults sink.new }
    ensures outcome { WhereTold (H.holds host.old) (λ held.
        AuditOutcome (traced held job.now trace.now) result.status result.journal (S.taken sink.old) (S.taken sink.new)) }
    ensures hands_out { is_some result.machine ≡ ran_whole result.status }
    ensures machine { WhereTold (H.holds host.old) (λ held. SingleRun (traced held job.now trace.now) result.status result.journal (option_map O.one result.machine)) }
    ensures given { GivenTraced (λ ready.
        AuditOutcome ready result.status result.journal (S.taken sink.old) (S.taken sink.new)
        × SingleRun ready result.status result.journal (option_map O.one result.machine)
        × CompletesReplay ready result.status result.journal) }
    ensures host_fault { WhereTold (H.holds host.old) (λ held. result.status ≡ HostFault → RoseAmong H.faults host.old host.new (has_to_fetch_both held job.now trace.now)) }
    ensures rose { result.status ≡ HostFault → RoseSomewhere H.faults host.old host.new }
    ensures sink_fault { result.status ≡ SinkFault → Rose (S.faults sink.old) (S.faults sink.new) }
    ensures complete { WhereTold (H.holds host.old) (λ held. CompletesReplay (traced held job.now trace.now) result.status result.journal) }
{
    let mut journal = Items::new(alloc);
    let replayed: Replayed<Lockstep<M, O>> = replay_job(
        alloc,
        job,
        trace,
        host,
        sink,
        &mut journal,
    );
    Audited {
        status: replayed.status,
        journal,
        machine: single_of(replayed.machine),
    }
}
