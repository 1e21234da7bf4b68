// The trap of a local call, or of one that isn't known.
ghost use Rattle.file_model.specs.Errno.{ENOSYS};
ghost use Rattle.file_model.specs.Files.{Files};
ghost use Rattle.kernel_model.specs.Calls.{one_of_calls};
ghost use Rattle.kernel_model.specs.LocalCalls.{answers};
ghost use Rattle.kernel_model.specs.Signals.{on_node, raised, signal_of_stop};
ghost use Rattle.kernel_tables.specs.Room.{KeepsRoom};
ghost use Rattle.kernel_tables.specs.Shown.{node_of};
ghost use Rattle.lwk_side.specs.Resting.{MayRest};
ghost use Rattle.lwk_space.specs.Rows.{FramesApart, FramesIn};
ghost use Rattle.lwk_views.specs.Views.{Did, DidAlone};
ghost use Rattle.mck_word.specs.Words.{refused};
ghost use Rattle.std.specs.Prelude.{◌≡◌, ◌≤◌, get_or};
ghost use Rattle.system_calls.specs.declared.LocalCall.TheVariants.{Futex};

use call_phases::arguments::int;
use frame_mem::FrameMem;
use isa_model::Stop;
use kernel_model::Does;
use kernel_tables::KernelTables;
use lwk_signals::has;
use lwk_space::Space;
use mck_word::{End, Tid};
use page_map::PageTable;
use system_calls::{LocalCall, errors};

/// The signal of a stop that is no call, or 0.
fn signal_of(stop: Stop) -> u32
    ensures is { result ≡ signal_of_stop stop }
    ensures most { result ≤ 64 }
{
    match stop {
        Stop::On | Stop::Ecall => 0,
        Stop::Break => 5,
        Stop::Illegal => 4,
        Stop::Misaligned => 7,
        Stop::Fault(_) => 11,
    }
}

/// The thread raises number 0, which is no signal: it is masked, ignored and pending as signal 1 is.
fn raises_none(node: &mut KernelTables, t: Tid)
    ensures node { (files : Files) → node_of node.new files ≡ raised t.0 0 (node_of node.old files) }
    ensures room { KeepsRoom node.old node.new }
{
    let p = node.process_of_thread(t);
    if has(1, node.mask(t)) || node.ignores(p, 1) {
        node.set_does(t, Does::Ready);
        node.dies(p, End::Killed(0));
    } else {
        node.raised(t, 1);
    }
}

/// The thread raises the signal.
fn raises_number(node: &mut KernelTables, t: Tid, signal: u32)
    requires { signal ≤ 64 }
    ensures node { (files : Files) → node_of node.new files ≡ raised t.0 signal (node_of node.old files) }
    ensures room { KeepsRoom node.old node.new }
{
    if signal == 0 {
        raises_none(node, t);
    } else {
        node.raised(t, signal);
    }
}

/// The stop of the thread raises its signal.
pub fn raises(node: &mut KernelTables, t: Tid, stop: Stop)
    ensures { DidAlone node.old node.new (on_node (raised t.0 (signal_of_stop stop))) }
{
    raises_number(node, t, signal_of(stop));
}

/// A call that isn't known is refused.
pub fn refuses_unknown(node: &mut KernelTables, t: Tid)
    ensures { DidAlone node.old node.new (answers t.0 (refused ENOSYS)) }
{
    node.answered(t, errors::ENOSYS);
}

/// A local call of the thread, which stands behind its ecall.
pub fn local_call<T: PageTable>(
    node: &mut KernelTables,
    space: &Space<T>,
    mem: &mut FrameMem,
    t: Tid,
    call: LocalCall,
    args: &[u64; 6],
)
    requires frames { FramesIn (T.rows space.now.table) mem.old }
    requires apart { FramesApart (T.rows space.now.table) }
    requires rest { call ≡ Futex → MayRest node.old t.0 }
    ensures { Did (T.rows space.now.table) node.old mem.old node.new mem.new (one_of_calls t.0 call (λ k. get_or args.now k 0)) }
{
    match call {
        LocalCall::Exit => lwk_calls::exits(node, space, mem, t, (args[0] % 256) as u8),
        LocalCall::ExitGroup => lwk_calls::exits_group(node, t, (args[0] % 256) as u8),
        LocalCall::SetTidAddress => lwk_calls::sets_clear_address(node, t, args[0]),
        LocalCall::Futex => lwk_calls::futex(
            node, space, mem, t, args[0], args[1], args[2], args[3],
        ),
        LocalCall::SetRobustList => lwk_calls::sets_robust_list(node, t, args[1]),
        LocalCall::SchedYield => lwk_calls::answers_zero(node, t),
        LocalCall::Kill => lwk_calls::kill(node, t, int(args[0]), int(args[1])),
        LocalCall::Tgkill => lwk_calls::tgkill(node, t, int(args[0]), int(args[1]), int(args[2])),
        LocalCall::RtSigaction => lwk_calls::sigaction(
            node,
            space,
            mem,
            t,
            int(args[0]),
            args[1],
            args[2],
            args[3],
        ),
        LocalCall::RtSigprocmask => lwk_calls::sigprocmask(
            node,
            space,
            mem,
            t,
            int(args[0]),
            args[1],
            args[2],
            args[3],
        ),
        LocalCall::RtSigpending => lwk_calls::sigpending(node, space, mem, t, args[0], args[1]),
        LocalCall::RtSigreturn => lwk_calls::return_from_handler(node, space, mem, t),
        LocalCall::Getpid => lwk_calls::getpid(node, t),
        LocalCall::Getppid => lwk_calls::getppid(node, t),
        LocalCall::Gettid => lwk_calls::gettid(node, t),
        LocalCall::Wait4 => lwk_calls::wait4(
            node,
            space,
            mem,
            t,
            int(args[0]),
            args[1],
            (args[2] % (1 << 32)) as u32,
            args[3],
        ),
    }
}
