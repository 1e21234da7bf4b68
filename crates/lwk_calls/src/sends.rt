// kill and tgkill: signals that a thread sends.
ghost use Rattle.kernel_model.specs.Nodes.{is_there};
ghost use Rattle.kernel_model.specs.SignalCalls.{checked_signal, has_thread_in, kill, kills, kills_thread, positive, send, tgkill};
ghost use Rattle.kernel_model.specs.Signals.{generate_for_process, generate_for_thread};
ghost use Rattle.file_model.specs.Files.{Files};
ghost use Rattle.kernel_tables.specs.Room.{KeepsRoom};
ghost use Rattle.kernel_tables.specs.Shown.{node_of};
ghost use Rattle.lwk_views.specs.Views.{DidAlone, Stepped};
ghost use Rattle.std.specs.Prelude.{◌&&◌, ◌≡◌, ◌≤◌, MatchOption};

use crate::answering::answers;
use kernel_tables::KernelTables;
use lwk_signals::may_be_sent;
use mck_word::{Pid, Tid};
use system_calls::errors::EINVAL;

// The refusal where there is no such process or thread.
const ESRCH: i64 = -3;

/// A number of a process or thread: it is positive.
fn positive(n: i32) -> Option<u32>
    ensures { result ≡ positive n }
{
    if n > 0 { Some(n as u32) } else { None }
}

/// A signal that may be sent, or 0.
fn checked_signal(n: i32) -> Option<u32>
    ensures is { result ≡ checked_signal n }
    ensures most { MatchOption result (Unit {0}) (λ s. s ≤ 64) }
{
    if n < 0 {
        return None;
    }
    let signal = n as u32;
    if signal == 0 || may_be_sent(signal) {
        Some(signal)
    } else {
        None
    }
}

/// Whether the thread lives and is one of the process.
fn has_thread_in(node: &KernelTables, p: Pid, t: Tid) -> bool
    ensures { (files : Files) → result ≡ has_thread_in (node_of node.now files) p.0 t.0 }
{
    node.has_thread(t) && node.process_of_thread(t).0 == p.0
}

/// Whether the process is there and has the thread.
fn is_thread_there(node: &KernelTables, p: Pid, t: Tid) -> bool
    ensures { (files : Files) → result ≡ (is_there (node_of node.now files) p.0 && has_thread_in (node_of node.now files) p.0 t.0) }
{
    node.is_there(p) && has_thread_in(node, p, t)
}

/// The signal is generated for the process; 0 is no signal.
fn send_to_process(node: &mut KernelTables, p: Pid, signal: u32)
    requires { signal ≤ 64 }
    ensures is { Stepped node.old node.new (send signal (generate_for_process p.0)) }
    ensures room { KeepsRoom node.old node.new }
{
    if signal != 0 {
        node.generate_for_process(p, signal);
    }
}

/// The signal is generated for the thread; 0 is no signal.
fn send_to_thread(node: &mut KernelTables, t: Tid, signal: u32)
    requires { signal ≤ 64 }
    ensures is { Stepped node.old node.new (send signal (generate_for_thread t.0)) }
    ensures room { KeepsRoom node.old node.new }
{
    if signal != 0 {
        node.generate_for_thread(t, signal);
    }
}

/// A kill whose arguments are right: the process is there, or the caller is refused.
fn kills(node: &mut KernelTables, t: Tid, p: Pid, signal: u32)
    requires { signal ≤ 64 }
    ensures did { DidAlone node.old node.new (kills t.0 p.0 signal) }
    ensures room { KeepsRoom node.old node.new }
{
    if node.is_there(p) {
        send_to_process(node, p, signal);
        node.answered(t, 0);
    } else {
        answers(node, t, ESRCH);
    }
}

/// kill: the signal is generated for a process; 0 only asks whether the process is there.
pub fn kill(node: &mut KernelTables, t: Tid, pid: i32, signal: i32)
    ensures did { DidAlone node.old node.new (kill t.0 pid signal) }
    ensures room { KeepsRoom node.old node.new }
{
    match positive(pid) {
        None => answers(node, t, EINVAL),
        Some(p) => match checked_signal(signal) {
            None => answers(node, t, EINVAL),
            Some(s) => kills(node, t, Pid(p), s),
        },
    }
}

/// A tgkill whose arguments are right: the process is there and has the thread, or the caller is refused.
fn kills_thread(node: &mut KernelTables, t: Tid, p: Pid, tid: Tid, signal: u32)
    requires { signal ≤ 64 }
    ensures did { DidAlone node.old node.new (kills_thread t.0 p.0 tid.0 signal) }
    ensures room { KeepsRoom node.old node.new }
{
    if is_thread_there(node, p, tid) {
        send_to_thread(node, tid, signal);
        node.answered(t, 0);
    } else {
        answers(node, t, ESRCH);
    }
}

/// tgkill: the signal is generated for a thread of a process; 0 only asks whether there is one.
pub fn tgkill(node: &mut KernelTables, t: Tid, pid: i32, tid: i32, signal: i32)
    ensures did { DidAlone node.old node.new (tgkill t.0 pid tid signal) }
    ensures room { KeepsRoom node.old node.new }
{
    match positive(pid) {
        None => answers(node, t, EINVAL),
        Some(p) => match positive(tid) {
            None => answers(node, t, EINVAL),
            Some(x) => match checked_signal(signal) {
                None => answers(node, t, EINVAL),
                Some(s) => kills_thread(node, t, Pid(p), Tid(x), s),
            },
        },
    }
}
