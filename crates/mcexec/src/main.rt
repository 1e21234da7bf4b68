//! The program: runs the command that the words are, with the files of the working directory as its host and standard output as its sink.
//! The status's line goes to standard error, and its number is the exit status.
//!
//! Promises: over any host and sink, `answer` meets the table of statuses (mcexec_run, Outcome) with the two kernels of pair_node, page tables
//! of three levels and the store of files of the Linux side, and of an audit with the one-kernel machine of one_kernel. In it stands, for
//! each journal that a walk, a run, a replay or an audit keeps, the whole main theorem (hybrid_model, Claims). Of the program's own host, which
//! tells nothing, it says it for some answers to the fetches (mcexec_run, Given): what the system gives under a name, and what becomes of
//! what it takes, no clause says.
#![tactic(auto)]

ghost use Rattle.mcexec_run.specs.Calls.{CallCompletes, CallGiven, CallMachine, CallOutcome, hands_out, names_to_fetch};
ghost use Rattle.mcexec_run.specs.Chain.{RoseAmong};
ghost use Rattle.mcexec_run.specs.Commands.{command_of, second_word, third_word};
ghost use Rattle.mcexec_run.specs.Given.{RoseSomewhere};
ghost use Rattle.mck_report.specs.Status.{number_of};
ghost use Rattle.mck_report.specs.declared.status.Status.TheVariants.{HostFault, SinkFault};
ghost use Rattle.one_kernel.specs.Parts.{one_of};
ghost use Rattle.outside.specs.Outside.{HostGoesOn, Rose, WhereTold};
ghost use Rattle.std.specs.Option.{option_map};
ghost use Rattle.std.specs.Prelude.{◌≡◌, ◌≤◌, is_some};
ghost use Rattle.std.specs.Process.{exit_status};

use linux_files::LinuxFiles;
use mcexec_run::{Audited, mcexec};
use mck_crew::OpenGate;
use mck_report::{Status, status_line, status_number};
use one_kernel::One;
use outside::{Host, Sink};
use pair_node::Pair;
use std::alloc::Global;
use std::io::ErrorKind;
use std::process::ExitCode;
use std::sync::Wait;
use std::thread::Threads;
use std::{env, str};
use std_outside::{FsHost, StdSink};
use sv_table::SvTable;

/// The node that is run.
type Node = Pair<SvTable, LinuxFiles>;

/// Runs the command that the words are.
fn answer<R: Threads + Wait + Sync, H: Host, S: Sink>(
    rt: &R,
    alloc: Global,
    words: &[String],
    host: &mut H,
    sink: &mut S,
) -> Audited<One>
    ensures goes_on { HostGoesOn H.holds H.faults host.old host.new }
    ensures rises { S.faults sink.old ≤ S.faults sink.new }
    ensures outcome { WhereTold (H.holds host.old) (λ held.
        CallOutcome (command_of words.now) (second_word words.now) (third_word words.now) held result.status result.journal (S.taken sink.old) (S.taken sink.new)) }
    ensures hands_out { is_some result.machine ≡ hands_out (command_of words.now) result.status }
    ensures machine { WhereTold (H.holds host.old) (λ held.
        CallMachine (command_of words.now) (second_word words.now) (third_word words.now) held result.status result.journal (option_map one_of result.machine)) }
    ensures given { CallGiven (command_of words.now) result.status result.journal (option_map one_of result.machine) (S.taken sink.old) (S.taken sink.new) }
    ensures host_fault { WhereTold (H.holds host.old) (λ held.
        result.status ≡ HostFault → RoseAmong H.faults host.old host.new (names_to_fetch (command_of words.now) (second_word words.now) (third_word words.now) held)) }
    ensures rose { result.status ≡ HostFault → RoseSomewhere H.faults host.old host.new }
    ensures sink_fault { result.status ≡ SinkFault → Rose (S.faults sink.old) (S.faults sink.new) }
    ensures complete { WhereTold (H.holds host.old) (λ held. CallCompletes (command_of words.now) (second_word words.now) (third_word words.now) held result.status result.journal) }
{
    mcexec::<Node, One, OpenGate, R, H, S>(rt, &OpenGate, alloc, words, host, sink)
}

// The words behind the program's name. One that isn't UTF-8 fits no command.
fn read_words(rt: &HostRuntime) -> Result<Vec<String>, Status> {
    let mut args = match env::args(rt) {
        Ok(args) => args,
        Err(error) if error.kind() == ErrorKind::OutOfMemory => return Err(Status::NoMemory),
        Err(_) => return Err(Status::BadWords),
    };
    let _name = args.next();
    match args.collect(rt.alloc()) {
        Ok(words) => Ok(words),
        Err(_) => Err(Status::NoMemory),
    }
}

// Prints the line of a status, where it has one. Where that fails, the exit status still tells it.
fn tell(rt: &HostRuntime, status: &Status) {
    let Ok(line) = status_line(rt.alloc(), status) else {
        return;
    };
    if let Ok(line) = str::from_utf8(line.as_slice()) {
        let _ = rt.eprint(line);
    }
}

fn exit_code(status: &Status) -> ExitCode
    ensures { exit_status result ≡ number_of status.now }
{
    ExitCode::from(status_number(status))
}

fn main(rt: HostRuntime) -> ExitCode {
    let status = match read_words(&rt) {
        Ok(words) => {
            let mut host = FsHost::new(&rt);
            let mut sink = StdSink::new(&rt);
            answer(&rt, rt.alloc(), &words, &mut host, &mut sink).status
        }
        Err(status) => status,
    };
    tell(&rt, &status);
    exit_code(&status)
}
