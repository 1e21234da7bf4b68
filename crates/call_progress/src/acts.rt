// The act of a call.
ghost use Rattle.std.specs.Prelude.{◌≡◌, ◌||◌, ◌≤ℤ◌, ◌<ℤ◌, ◌^◌, Some, pos};
ghost use Rattle.call_progress.specs.Kept.{HasActed, HasOut, IsAct, after};
ghost use Rattle.file_calls.specs.FileSteps.{FewCalls, IsNumber, len_of};
ghost use Rattle.file_calls.specs.Placed.{len_said};
ghost use Rattle.file_calls.specs.Pieces.{HasRoom};
ghost use Rattle.file_model.specs.FileSteps as steps;
ghost use Rattle.file_model.specs.declared.operations.FileAns.{FileAns as answer};
ghost use Rattle.kernel_model.specs.CallPhases.{act_of};
ghost use Rattle.kernel_model.specs.Progress.{acted, settle, with_scatter};
ghost use Rattle.mck_word.specs.Lists.{tail};
ghost use Rattle.system_calls.specs.FileCalls as calls;

use crate::progress::Progress;
use file_calls::descriptors::{read, write};
use file_calls::open::openat;
use file_calls::steps::file_step;
use file_calls::store::FileStore;
use file_calls::tree::{mkdirat, unlinkat};
use file_model::{FileAns, FileOp};
use mck_word::Pid;
use std::mem;

/// How many bytes an act has given out with a value.
fn given(op: &FileOp, value: i64) -> u64
    requires { pos 0 ≤ℤ value }
    ensures { result ≡ len_of op.now value }
{
    match *op {
        FileOp::Pipe2 { .. } => 8,
        FileOp::Fstat { .. } => 128,
        FileOp::Getdents { .. } | FileOp::Get { .. } => value as u64,
        _ => 0,
    }
}

/// Makes the file step of an act that gives bytes out or has no path and no stream, and leaves the bytes that it gave
/// out.
fn plain_act<S: FileStore>(files: &mut S, pid: Pid, op: &FileOp, out: &mut Vec<u8>) -> i64
    requires act { IsAct op.now }
    requires room { HasRoom (S.room files.old) (S.can_write files.old) (S.files files.old) op.now }
    requires few { FewCalls (S.files files.old) }
    requires out { HasOut op.now out.old.items }
    ensures few { IsNumber op.now (answer.Done result) }
    ensures answers { result ≡ (steps.file_step (S.files files.old) pid.0 op.now out.old.items).answer }
    ensures leaves { S.files files.new ≡ (steps.file_step (S.files files.old) pid.0 op.now out.old.items).files }
    ensures gives { pos 0 ≤ℤ result → out.new.items ≡ (steps.file_step (S.files files.old) pid.0 op.now out.old.items).out }
{
    let FileAns::Done(value) = file_step(files, pid, op, out.as_mut_slice()) else {
        return 0;
    };
    if value >= 0 {
        out.truncate(given(op, value) as usize);
    }
    value
}

impl Progress {
    /// Makes the file step of an act, and leaves the bytes that it gave out.
    fn make_act<S: FileStore>(&mut self, files: &mut S, pid: Pid, op: &FileOp) -> i64
        requires act { IsAct op.now }
        requires room { HasRoom (S.room files.old) (S.can_write files.old) (S.files files.old) op.now }
        requires few { FewCalls (S.files files.old) }
        requires out { HasOut op.now self.old.out }
        ensures few { IsNumber op.now (answer.Done result) }
        ensures acted { HasActed (steps.file_step (S.files files.old) pid.0 op.now self.old.progress.buffer) result (S.files files.new) self.old self.new }
    {
        let path = self.buffer.split_at(self.from).1;
        let value = match *op {
            FileOp::Openat { dirfd, flags } => openat(files, pid, dirfd, flags, path),
            FileOp::Mkdirat { dirfd } => mkdirat(files, pid, dirfd, path),
            FileOp::Unlinkat { dirfd, flags } => unlinkat(files, pid, dirfd, flags, path),
            FileOp::Read { fd, at, count } => read(files, pid, fd, at, count),
            FileOp::Write { fd, at, count } => write(files, pid, fd, at, count),
            _ => return plain_act(files, pid, op, &mut self.out),
        };
        self.out.clear();
        value
    }

    /// Whether the call reads or writes a stream.
    fn has_stream(&self) -> bool
        ensures { result ≡ (calls.is_read self.now.progress.call || calls.is_write self.now.progress.call) }
    {
        self.call.is_read() || self.call.is_write()
    }

    /// Goes on after an act that found a description.
    fn take_found<S: FileStore>(&mut self, files: &mut S, value: i64) -> Option<i64>
        requires low { pos 0 ≤ℤ value }
        requires high { value <ℤ pos (2 ^ 32) }
        ensures { after self.new.progress result (S.files files.new) ≡ settle (record self.old.progress { found = Some (len_said value); phases = tail self.old.progress.phases }) (S.files files.old) }
    {
        self.found = Some(value as u32);
        self.phases.pass();
        self.settle(files)
    }

    /// Goes on after an act that answered a value, and gave out bytes.
    fn take_value<S: FileStore>(&mut self, files: &mut S, value: i64) -> Option<i64>
        ensures { after self.new.progress result (S.files files.new) ≡ settle (record self.old.progress { answer = value; buffer = self.old.out; phases = with_scatter self.old.out (tail self.old.progress.phases) }) (S.files files.old) }
    {
        self.answer = value;
        mem::swap(&mut self.buffer, &mut self.out);
        self.from = 0;
        self.phases.pass();
        self.phases.cut_scatter(self.buffer.len() as u64);
        self.settle(files)
    }

    /// Makes the act of the call, which is its first phase.
    pub(crate) fn act<S: FileStore>(&mut self, files: &mut S, pid: Pid) -> Option<i64>
        requires room { HasRoom (S.room files.old) (S.can_write files.old) (S.files files.old) (act_of self.old.progress.call self.old.progress.arguments) }
        requires few { FewCalls (S.files files.old) }
        requires out { HasOut (act_of self.old.progress.call self.old.progress.arguments) self.old.out }
        ensures { after self.new.progress result (S.files files.new) ≡ acted self.old.progress (steps.file_step (S.files files.old) pid.0 (act_of self.old.progress.call self.old.progress.arguments) self.old.progress.buffer) }
    {
        let op = call_phases::act_of(self.call, &self.arguments);
        let value = self.make_act(files, pid, &op);
        if value < 0 {
            return Some(value);
        }
        if self.has_stream() {
            return self.take_found(files, value);
        }
        self.take_value(files, value)
    }
}
