// Checks of a job.
ghost use Rattle.job_model.specs.Prepared.{IsPrepared};
ghost use Rattle.mcexec_run.specs.Chain.{RoseAmong, has_to_fetch, prepared, with_frames};
ghost use Rattle.mcexec_run.specs.Given.{Given, RoseSomewhere};
ghost use Rattle.mcexec_run.specs.Outcome.{CheckOutcome, CompletesCheck, PutsText};
ghost use Rattle.mck_report.specs.declared.status.Status.TheVariants.{Done, HostFault, SinkFault};
ghost use Rattle.outside.specs.Outside.{HostGoesOn, Rose, WhereTold};
ghost use Rattle.std.specs.Prelude.{◌≡◌, ◌≢◌, ◌≤◌, []};

use crate::calls::Ended;
use crate::chain::{Prepared, gather};
use crate::stages::boot;
use mck_report::Status;
use mck_word::{Bytes, Items, NoMemory};
use node_machine::Machine;
use outside::{Host, Sink, put_all};
use std::alloc::Global;

// Writes a text. The answer is the status that was meant, or what failed.
fn write<S: Sink>(text: Result<Bytes, NoMemory>, sink: &mut S) -> Status
    ensures rises { S.faults sink.old ≤ S.faults sink.new }
    ensures puts { PutsText text Done result (S.taken sink.old) (S.taken sink.new) }
    ensures fault { result ≡ SinkFault → Rose (S.faults sink.old) (S.faults sink.new) }
    ensures no_fault { result ≢ HostFault }
{
    let Ok(text) = text else {
        return Status::NoMemory;
    };
    match put_all(sink, text.as_slice()) {
        Ok(()) => Status::Done,
        Err(_) => Status::SinkFault,
    }
}

// A check with its job: the status.
fn check_into<M: Machine, S: Sink>(alloc: Global, p: &Prepared, sink: &mut S) -> Status
    requires { IsPrepared p.now.job p.now.images }
    ensures rises { S.faults sink.old ≤ S.faults sink.new }
    ensures outcome { CheckOutcome (with_frames p.now) result [] (S.taken sink.old) (S.taken sink.new) }
    ensures fault { result ≡ SinkFault → Rose (S.faults sink.old) (S.faults sink.new) }
    ensures no_fault { result ≢ HostFault }
{
    let machine: Result<M, Status> = boot(alloc, p);
    match machine {
        Ok(_machine) => write(
            mck_report::check(alloc, p.job.frames, p.images.as_slice()),
            sink,
        ),
        Err(status) => status,
    }
}

/// Checks a prepared job, and writes what it needs.
pub fn check_prepared<M: Machine, S: Sink>(alloc: Global, p: &Prepared, sink: &mut S) -> Ended
    requires { IsPrepared p.now.job p.now.images }
    ensures rises { S.faults sink.old ≤ S.faults sink.new }
    ensures outcome { CheckOutcome (with_frames p.now) result.status result.journal (S.taken sink.old) (S.taken sink.new) }
    ensures no_host_fault { result.status ≢ HostFault }
    ensures sink_fault { result.status ≡ SinkFault → Rose (S.faults sink.old) (S.faults sink.new) }
    ensures complete { CompletesCheck (with_frames p.now) result.status }
{
    let status = check_into::<M, S>(alloc, p, sink);
    Ended {
        status,
        journal: Items::new(alloc),
    }
}

fn check_job<M: Machine, H: Host, S: Sink>(
    alloc: Global,
    job: &str,
    host: &mut H,
    sink: &mut S,
) -> Status
    ensures goes_on { HostGoesOn H.holds H.faults host.old host.new }
    ensures rises { S.faults sink.old ≤ S.faults sink.new }
    ensures outcome { WhereTold (H.holds host.old) (λ held. CheckOutcome (prepared held job.now) result [] (S.taken sink.old) (S.taken sink.new)) }
    ensures given { Given (λ ready. CheckOutcome ready result [] (S.taken sink.old) (S.taken sink.new)) }
    ensures host_fault { WhereTold (H.holds host.old) (λ held. result ≡ HostFault → RoseAmong H.faults host.old host.new (has_to_fetch held job.now)) }
    ensures rose { result ≡ HostFault → RoseSomewhere H.faults host.old host.new }
    ensures sink_fault { result ≡ SinkFault → Rose (S.faults sink.old) (S.faults sink.new) }
{
    match gather(alloc, host, job) {
        Ok(p) => check_into::<M, S>(alloc, &p, sink),
        Err(status) => status,
    }
}

/// Checks the job under a name, and writes what it needs.
pub fn check<M: Machine, H: Host, S: Sink>(
    alloc: Global,
    job: &str,
    host: &mut H,
    sink: &mut S,
) -> Ended
    ensures goes_on { HostGoesOn H.holds H.faults host.old host.new }
    ensures rises { S.faults sink.old ≤ S.faults sink.new }
    ensures outcome { WhereTold (H.holds host.old) (λ held.
        CheckOutcome (prepared held job.now) result.status result.journal (S.taken sink.old) (S.taken sink.new)) }
    ensures given { Given (λ ready. CheckOutcome ready result.status result.journal (S.taken sink.old) (S.taken sink.new) × CompletesCheck ready result.status) }
    ensures host_fault { WhereTold (H.holds host.old) (λ held. result.status ≡ HostFault → RoseAmong H.faults host.old host.new (has_to_fetch held job.now)) }
    ensures rose { result.status ≡ HostFault → RoseSomewhere H.faults host.old host.new }
    ensures sink_fault { result.status ≡ SinkFault → Rose (S.faults sink.old) (S.faults sink.new) }
    ensures complete { WhereTold (H.holds host.old) (λ held. CompletesCheck (prepared held job.now) result.status) }
{
    let status = check_job::<M, H, S>(alloc, job, host, sink);
    Ended {
        status,
        journal: Items::new(alloc),
    }
}
