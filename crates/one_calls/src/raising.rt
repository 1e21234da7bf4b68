// Stops that are no calls: each raises a signal of its own.
ghost use Rattle.file_model.specs.Files.{Files};
ghost use Rattle.kernel_model.specs.Signals.{on_node, raised, signal_of_stop};
ghost use Rattle.kernel_tables.specs.Shown.{node_of};
ghost use Rattle.one_calls.specs.Views.{DidAlone};
ghost use Rattle.std.specs.Prelude.{◌≡◌, ◌≤◌};

use isa_model::Stop;
use kernel_model::Does;
use kernel_tables::KernelTables;
use lwk_signals::has;
use mck_word::{End, Tid};

/// The signal of a stop that is no call, or 0.
fn signal_of(stop: Stop) -> u32
    ensures is { result ≡ signal_of_stop stop }
    ensures most { result ≤ 64 }
{
    match stop {
        Stop::On | Stop::Ecall => 0,
        Stop::Break => 5,
        Stop::Illegal => 4,
        Stop::Misaligned => 7,
        Stop::Fault(_) => 11,
    }
}

/// The thread raises number 0, which is no signal: it is masked, ignored and pending as signal 1 is.
fn raises_none(node: &mut KernelTables, t: Tid)
    ensures { (files : Files) → node_of node.new files ≡ raised t.0 0 (node_of node.old files) }
{
    let p = node.process_of_thread(t);
    if has(1, node.mask(t)) || node.ignores(p, 1) {
        node.set_does(t, Does::Ready);
        node.dies(p, End::Killed(0));
    } else {
        node.raised(t, 1);
    }
}

/// The thread raises the signal.
fn raises_number(node: &mut KernelTables, t: Tid, signal: u32)
    requires { signal ≤ 64 }
    ensures { (files : Files) → node_of node.new files ≡ raised t.0 signal (node_of node.old files) }
{
    if signal == 0 {
        raises_none(node, t);
    } else {
        node.raised(t, signal);
    }
}

/// The stop of the thread raises its signal.
pub fn raises(node: &mut KernelTables, t: Tid, stop: Stop)
    ensures { DidAlone node.old node.new (on_node (raised t.0 (signal_of_stop stop))) }
{
    raises_number(node, t, signal_of(stop));
}
