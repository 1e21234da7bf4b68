// Two stores of files, step by step.
ghost use Rattle.file_calls.specs.FileSteps.{Allows};
ghost use Rattle.file_model.specs.Files.{close_all, root_only, share, with_console};
ghost use Rattle.rows_file_calls.specs.Codes.{files-once};
ghost use Rattle.rows_file_calls.specs.Steps.{IsStepOfBoth};
ghost use Rattle.std.specs.Prelude.{◌≡◌, IfOk, OnErr, OnOk};

use file_calls::steps::file_step;
use file_calls::store::FileStore;
use file_model::{FileAns, FileOp};
use mck_word::{NoMemory, Pid};

/// Two stores that are seen as the same files.
#[derive(Drop)]
pub struct Both<A: FileStore, B: FileStore> {
    pub first: A,
    pub second: B,
    pub ghost same: { A.files first ≡ B.files second } by { files-once (A.files first) (B.files second) },
}

/// What each of two stores answers.
#[derive(Clone, Copy, PartialEq, Eq, Debug)]
pub struct Answers {
    pub first: FileAns,
    pub second: FileAns,
}

impl<A: FileStore + Drop, B: FileStore + Drop> Both<A, B> {
    /// Two stores of the root alone, to which a process with a console of that input is added.
    pub fn with_process(
        mut first: A,
        mut second: B,
        pid: Pid,
        input: &[u8],
    ) -> Result<Both<A, B>, NoMemory>
        requires first { A.files first ≡ root_only }
        requires second { B.files second ≡ root_only }
        ensures { IfOk result (λ both. A.files both.first ≡ with_console pid.0 input.now root_only) }
    {
        first.process(pid, input)?;
        second.process(pid, input)?;
        Ok(Both { first, second })
    }
}

impl<A: FileStore, B: FileStore> Both<A, B> {
    /// Gives a child its parent's descriptors in both stores. Without room nothing is changed.
    pub fn share(&mut self, parent: Pid, child: Pid) -> Result<(), NoMemory>
        ensures ok { OnOk result (A.files self.new.first ≡ share parent.0 child.0 (A.files self.old.first)) }
        ensures err { OnErr result (A.files self.new.first ≡ A.files self.old.first) }
    {
        self.first.make_share()?;
        self.second.make_share()?;
        self.first.share(parent, child);
        self.second.share(parent, child);
        Ok(())
    }

    /// Closes all descriptors of a process in both stores.
    pub fn close_all(&mut self, pid: Pid)
        ensures { A.files self.new.first ≡ close_all pid.0 (A.files self.old.first) }
    {
        self.first.close_all(pid);
        self.second.close_all(pid);
    }

    /// Makes the step of an operation of a process in both stores, with its room.
    ///
    /// `io` and `other` have what the operation is given, and get what each store gives out. Without room nothing is changed.
    pub fn step(
        &mut self,
        pid: Pid,
        op: &FileOp,
        io: &mut [u8],
        other: &mut [u8],
    ) -> Result<Answers, NoMemory>
        requires allowed { Allows (A.files self.old.first) op.now io.old }
        requires given { other.old ≡ io.old }
        ensures step { IfOk result (λ answers. IsStepOfBoth (A.files self.old.first) pid.0 op.now io.old answers io.new other.new (A.files self.new.first)) }
        ensures none { OnErr result (A.files self.new.first ≡ A.files self.old.first) }
    {
        self.first.make_room(op)?;
        self.second.make_room(op)?;
        let first = file_step(&mut self.first, pid, op, io);
        let second = file_step(&mut self.second, pid, op, other);
        Ok(Answers { first, second })
    }
}
