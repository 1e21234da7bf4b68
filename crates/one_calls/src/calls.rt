// The local calls by their names, and a clone.
ghost use Rattle.file_model.specs.Errno as errnos;
ghost use Rattle.kernel_model.specs.Calls.{local_call};
ghost use Rattle.kernel_model.specs.CloneCalls.{clone};
ghost use Rattle.kernel_model.specs.LocalCalls.{answers};
ghost use Rattle.kernel_model.specs.Traps.{past_ecall};
ghost use Rattle.mck_word.specs.Words.{refused};
ghost use Rattle.one_calls.specs.Resting.{MayClone, MayRest};
ghost use Rattle.one_calls.specs.Views.{Did, DidAlone};
ghost use Rattle.std.specs.Prelude.{◌≡◌, slice_index};
ghost use Rattle.system_calls.specs.declared.LocalCall.TheVariants.{Futex};

use crate::{
    answers_zero, clone, exits, exits_group, futex, getpid, getppid, gettid, kill,
    return_from_handler, sets_clear_address, sets_robust_list, sigaction, sigpending, sigprocmask,
    tgkill, wait4,
};
use call_phases::arguments::int;
use kernel_tables::KernelTables;
use mck_word::Tid;
use one_memory::PageRows;
use system_calls::LocalCall;
use system_calls::errors::ENOSYS;

/// A local call of the thread, by its arguments.
#[tactic(auto, unfolding(kernel_model::specs::Calls::local_call), using(crate::proofs::Doing::alone_did))]
pub fn local_call(
    node: &mut KernelTables,
    memory: &mut PageRows,
    t: Tid,
    call: LocalCall,
    args: &[u64; 6],
)
    requires { call ≡ Futex → MayRest node.old t.0 }
    ensures { Did node.old memory.old.map node.new memory.new.map (local_call t.0 call args.now) }
{
    match call {
        LocalCall::Exit => exits(node, memory, t, (args[0] % 256) as u8),
        LocalCall::ExitGroup => exits_group(node, t, (args[0] % 256) as u8),
        LocalCall::SetTidAddress => sets_clear_address(node, t, args[0]),
        LocalCall::Futex => futex(node, memory, t, args[0], args[1], args[2], args[3]),
        LocalCall::SetRobustList => sets_robust_list(node, t, args[1]),
        LocalCall::SchedYield => answers_zero(node, t),
        LocalCall::Kill => kill(node, t, int(args[0]), int(args[1])),
        LocalCall::Tgkill => tgkill(node, t, int(args[0]), int(args[1]), int(args[2])),
        LocalCall::RtSigaction => {
            sigaction(node, memory, t, int(args[0]), args[1], args[2], args[3])
        }
        LocalCall::RtSigprocmask => {
            sigprocmask(node, memory, t, int(args[0]), args[1], args[2], args[3])
        }
        LocalCall::RtSigpending => sigpending(node, memory, t, args[0], args[1]),
        LocalCall::RtSigreturn => return_from_handler(node, memory, t),
        LocalCall::Getpid => getpid(node, t),
        LocalCall::Getppid => getppid(node, t),
        LocalCall::Gettid => gettid(node, t),
        LocalCall::Wait4 => {
            let options = (args[2] % (1 << 32)) as u32;
            wait4(node, memory, t, int(args[0]), args[1], options, args[3]);
        }
    }
}

/// A local call of the thread is made, behind its ecall.
pub fn calls_locally(
    node: &mut KernelTables,
    memory: &mut PageRows,
    t: Tid,
    call: LocalCall,
    args: &[u64; 6],
)
    requires { call ≡ Futex → MayRest node.old t.0 }
    ensures { Did node.old memory.old.map node.new memory.new.map (λ v. local_call t.0 call args.now (past_ecall t.0 v)) }
{
    node.past_ecall(t);
    local_call(node, memory, t, call, args);
}

/// A clone of the thread that is no fork is made, behind its ecall.
pub fn calls_clone(node: &mut KernelTables, memory: &mut PageRows, t: Tid, args: &[u64; 6])
    requires { MayClone node.old t.0 }
    ensures { Did node.old memory.old.map node.new memory.new.map (λ v. clone t.0 (slice_index args.now 0) (slice_index args.now 1) (slice_index args.now 2) (slice_index args.now 3) (slice_index args.now 4) (past_ecall t.0 v)) }
{
    node.past_ecall(t);
    clone(node, memory, t, args);
}

/// A call of the thread that isn't known is refused, behind its ecall.
pub fn refuses_call(node: &mut KernelTables, t: Tid)
    ensures { DidAlone node.old node.new (λ v. answers t.0 (refused errnos.ENOSYS) (past_ecall t.0 v)) }
{
    node.past_ecall(t);
    node.answered(t, ENOSYS);
}
