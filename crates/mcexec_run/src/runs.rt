// Runs of a job on threads.
ghost use Rattle.job_model.specs.Prepared.{IsPrepared};
ghost use Rattle.mcexec_run.specs.Chain.{RoseAmong, has_to_fetch, prepared, with_frames};
ghost use Rattle.mcexec_run.specs.Given.{Given, RoseSomewhere};
ghost use Rattle.mcexec_run.specs.Outcome.{text_at};
ghost use Rattle.mcexec_run.specs.Running.{CompletesRun, RunOutcome};
ghost use Rattle.mck_report.specs.declared.status.Status.TheVariants.{HostFault, SinkFault};
ghost use Rattle.outside.specs.Outside.{HostGoesOn, Rose, WhereTold};
ghost use Rattle.std.specs.Prelude.{◌≡◌, ◌≢◌, ◌≤◌};

use crate::calls::{Ended, nothing_kept};
use crate::chain::{Prepared, gather};
use crate::command::Form;
use crate::stages::{Text, boot, show};
use hybrid_laws::whole::every_legal_journal;
use mck_crew::{CrewEnd, Gate, Ran, run_machine};
use mck_report::Status;
use node_machine::Machine;
use offer_laws::the_candidates_stand_for_all;
use outside::{Host, Sink};
use std::alloc::Global;
use std::sync::Wait;
use std::thread::Threads;

/// Runs a prepared job on threads, and writes the report or the trace. Of the journal that it keeps the main theorem holds, as `run` says.
pub fn run_prepared<M: Machine + Send + Sync, G: Gate + Sync, R: Threads + Wait + Sync, S: Sink>(
    rt: &R,
    gate: &G,
    alloc: Global,
    p: &Prepared,
    form: Form,
    sink: &mut S,
) -> Ended
    requires { IsPrepared p.now.job p.now.images }
    ensures rises { S.faults sink.old ≤ S.faults sink.new }
    ensures outcome { RunOutcome (with_frames p.now) (text_at form) result.status result.journal (S.taken sink.old) (S.taken sink.new) }
    ensures no_host_fault { result.status ≢ HostFault }
    ensures sink_fault { result.status ≡ SinkFault → Rose (S.faults sink.old) (S.faults sink.new) }
    ensures complete { CompletesRun (with_frames p.now) (text_at form) result.status result.journal }
{
    let machine: M = match boot(alloc, p) {
        Ok(machine) => machine,
        Err(status) => return nothing_kept(alloc, status),
    };
    every_legal_journal();
    the_candidates_stand_for_all();
    let Ran {
        machine,
        journal,
        end,
    } = run_machine(rt, alloc, machine, gate);
    match end {
        CrewEnd::Over => {
            let status = show(alloc, &machine, journal.as_slice(), Text::Of(form), sink);
            Ended { status, journal }
        }
        CrewEnd::NoMemory => Ended {
            status: Status::NoMemory,
            journal,
        },
    }
}

/// Runs the job under a name on threads (mck_crew), and writes the report or the trace. The gate is passed at the places that mck_crew
/// names.
///
/// Whatever the threads do, the journal that it keeps is legal, and the main theorem holds of it, as `walk` says; where the run comes to its
/// end, no event may happen after it. Which legal journal it is, the threads decide. That they run beside each other, and that the call
/// comes back, no clause says.
pub fn run<M: Machine + Send + Sync, G: Gate + Sync, R: Threads + Wait + Sync, H: Host, S: Sink>(
    rt: &R,
    gate: &G,
    alloc: Global,
    job: &str,
    form: Form,
    host: &mut H,
    sink: &mut S,
) -> Ended
    ensures goes_on { HostGoesOn H.holds H.faults host.old host.new }
    ensures rises { S.faults sink.old ≤ S.faults sink.new }
    ensures outcome { WhereTold (H.holds host.old) (λ held.
        RunOutcome (prepared held job.now) (text_at form) result.status result.journal (S.taken sink.old) (S.taken sink.new)) }
    ensures given { Given (λ ready.
        RunOutcome ready (text_at form) result.status result.journal (S.taken sink.old) (S.taken sink.new) × CompletesRun ready (text_at form) result.status result.journal) }
    ensures host_fault { WhereTold (H.holds host.old) (λ held. result.status ≡ HostFault → RoseAmong H.faults host.old host.new (has_to_fetch held job.now)) }
    ensures rose { result.status ≡ HostFault → RoseSomewhere H.faults host.old host.new }
    ensures sink_fault { result.status ≡ SinkFault → Rose (S.faults sink.old) (S.faults sink.new) }
    ensures complete { WhereTold (H.holds host.old) (λ held. CompletesRun (prepared held job.now) (text_at form) result.status result.journal) }
{
    match gather(alloc, host, job) {
        Ok(p) => run_prepared::<M, G, R, S>(rt, gate, alloc, &p, form, sink),
        Err(status) => nothing_kept(alloc, status),
    }
}
