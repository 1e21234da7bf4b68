// The calls that only speak of the caller itself.
ghost use Rattle.kernel_model.specs.CloneCalls.{parent_number};
ghost use Rattle.kernel_model.specs.LocalCalls.{answers, sets_clear_address, sets_robust_list};
ghost use Rattle.kernel_model.specs.Nodes.{thread_of};
ghost use Rattle.kernel_tables.specs.Room.{KeepsRoom};
ghost use Rattle.lwk_views.specs.Views.{DidAlone};
ghost use Rattle.std.specs.Prelude.{pos};

use crate::answering::answers;
use kernel_tables::KernelTables;
use mck_word::Tid;
use system_calls::errors::EINVAL;

/// set_tid_address: the address is cleared when the thread ends, and the answer is the thread's number.
pub fn sets_clear_address(node: &mut KernelTables, t: Tid, address: u64)
    ensures did { DidAlone node.old node.new (sets_clear_address t.0 address) }
    ensures room { KeepsRoom node.old node.new }
{
    node.set_clear_address(t, address);
    node.answered(t, t.0 as i64);
}

/// set_robust_list: nothing is kept; a list's head of another length than 24 bytes is refused.
pub fn sets_robust_list(node: &mut KernelTables, t: Tid, len: u64)
    ensures did { DidAlone node.old node.new (sets_robust_list t.0 len) }
    ensures room { KeepsRoom node.old node.new }
{
    if len == 24 {
        answers(node, t, 0);
    } else {
        answers(node, t, EINVAL);
    }
}

/// sched_yield: the answer is 0.
pub fn answers_zero(node: &mut KernelTables, t: Tid)
    ensures did { DidAlone node.old node.new (answers t.0 (pos 0)) }
    ensures room { KeepsRoom node.old node.new }
{
    answers(node, t, 0);
}

/// getpid: the number of the thread's process.
pub fn getpid(node: &mut KernelTables, t: Tid)
    ensures did { DidAlone node.old node.new (λ v. answers t.0 (pos (thread_of v.node t.0).process) v) }
    ensures room { KeepsRoom node.old node.new }
{
    let p = node.process_of_thread(t);
    node.answered(t, p.0 as i64);
}

/// getppid: the number of the parent of the thread's process, or 0 where it is Ended or there is none.
pub fn getppid(node: &mut KernelTables, t: Tid)
    ensures did { DidAlone node.old node.new (λ v. answers t.0 (pos (parent_number v.node (thread_of v.node t.0).process)) v) }
    ensures room { KeepsRoom node.old node.new }
{
    let p = node.process_of_thread(t);
    let parent = node.parent_number(p);
    node.answered(t, parent as i64);
}

/// gettid: the thread's number.
pub fn gettid(node: &mut KernelTables, t: Tid)
    ensures did { DidAlone node.old node.new (answers t.0 (pos t.0)) }
    ensures room { KeepsRoom node.old node.new }
{
    answers(node, t, t.0 as i64);
}
