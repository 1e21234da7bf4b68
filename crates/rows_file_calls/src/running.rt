// The calls of rows, made in both stores.
ghost use Rattle.std.specs.Prelude.{IsTrue};
ghost use Rattle.file_calls.specs.FileSteps.{Allows, FewCalls};
ghost use Rattle.file_model.specs.Files.{Files};

use crate::both::Both;
use crate::calls::{Call, zeros};
use anyhow::{Result, anyhow};
use file_calls::store::FileStore;
use file_model::{FileAns, FileOp};
use linux_files::LinuxFiles;
use mck_word::Pid;
use one_files::RowFiles;
use std::alloc::Global;

/// The store of the Linux side and the plain one.
pub type Stores = Both<LinuxFiles, RowFiles>;

/// What the stores told: the answer, or None where the call has to wait; the bytes that were given out; and whether the two told the
/// same.
#[derive(Drop)]
pub struct Told {
    pub answer: Option<i64>,
    pub bytes: Vec<u8>,
    pub agree: bool,
}

/// Both stores with process 1, whose console has that input.
pub fn begin(alloc: Global, input: &[u8]) -> Result<Stores> {
    let (Ok(first), Ok(second)) = (LinuxFiles::new(alloc), RowFiles::new(alloc)) else {
        return Err(anyhow!("no memory"));
    };
    match Both::with_process(first, second, Pid(1), input) {
        Ok(stores) => Ok(stores),
        Err(_) => Err(anyhow!("no memory")),
    }
}

// Whether the buffer is as the operation asks for.
fn fits(op: &FileOp, io: &[u8], few: bool) -> bool
    ensures { IsTrue result → (files : Files) → (IsTrue few → FewCalls files) → Allows files op.now io.now }
{
    let len = io.len() as u64;
    match *op {
        FileOp::Pipe2 { .. } => len == 8,
        FileOp::Fstat { .. } => len == 128,
        FileOp::Getdents { most, .. } => len == most.min(65_536),
        FileOp::Read { .. } | FileOp::Write { .. } => few,
        FileOp::Get { len: piece, .. } | FileOp::Put { len: piece, .. } => len == u64::from(piece),
        _ => true,
    }
}

// How many bytes come with an answer.
fn given_len(op: &FileOp, answer: Option<i64>) -> usize {
    let value = match answer {
        Some(value) if value >= 0 => value as usize,
        _ => return 0,
    };
    match op {
        FileOp::Pipe2 { .. } => 8,
        FileOp::Fstat { .. } => 128,
        FileOp::Getdents { .. } | FileOp::Get { .. } => value,
        _ => 0,
    }
}

// Makes a step in both stores.
fn step(stores: &mut Stores, pid: Pid, op: &FileOp, mut io: Vec<u8>) -> Result<Told> {
    let few = match op {
        FileOp::Read { .. } | FileOp::Write { .. } => stores.first.few_calls(),
        _ => false,
    };
    if !fits(op, &io, few) {
        return Err(anyhow!("no such buffer"));
    }
    let mut other = io.clone()?;
    let Ok(answers) = stores.step(pid, op, &mut io, &mut other) else {
        return Err(anyhow!("no memory"));
    };
    let agree = answers.first == answers.second && io.as_slice() == other.as_slice();
    let answer = match answers.first {
        FileAns::Done(value) => Some(value),
        FileAns::NotReady => None,
    };
    io.truncate(given_len(op, answer));
    Ok(Told {
        answer,
        bytes: io,
        agree,
    })
}

// The description that an act has found.
fn found(act: &Told) -> Option<u32> {
    match act.answer {
        Some(d) => u32::try_from(d).ok(),
        None => None,
    }
}

// A piece of a stream behind its act, and the giving back of the description.
fn stream(
    alloc: Global,
    stores: &mut Stores,
    pid: Pid,
    act: Told,
    op: &FileOp,
    io: Vec<u8>,
    d: u32,
) -> Result<Told> {
    let piece = step(stores, pid, op, io)?;
    let left = step(stores, pid, &FileOp::Leave(d), Vec::new(alloc))?;
    Ok(Told {
        answer: piece.answer,
        bytes: piece.bytes,
        agree: act.agree && piece.agree && left.agree,
    })
}

// A reading call with one piece.
fn read(
    alloc: Global,
    stores: &mut Stores,
    pid: Pid,
    fd: i32,
    at: Option<i64>,
    len: u32,
) -> Result<Told> {
    let count = 0;
    let act = step(
        stores,
        pid,
        &FileOp::Read { fd, at, count },
        Vec::new(alloc),
    )?;
    let Some(desc) = found(&act) else {
        return Ok(act);
    };
    let op = FileOp::Get {
        desc,
        at: own(at),
        moved: 0,
        len,
    };
    let io = zeros(alloc, u64::from(len))?;
    stream(alloc, stores, pid, act, &op, io, desc)
}

// A writing call with one piece.
fn write(
    alloc: Global,
    stores: &mut Stores,
    pid: Pid,
    fd: i32,
    at: Option<i64>,
    bytes: &[u8],
) -> Result<Told> {
    let count = 0;
    let act = step(
        stores,
        pid,
        &FileOp::Write { fd, at, count },
        Vec::new(alloc),
    )?;
    let Some(desc) = found(&act) else {
        return Ok(act);
    };
    let Ok(len) = u32::try_from(bytes.len()) else {
        return Err(anyhow!("too long"));
    };
    let op = FileOp::Put {
        desc,
        at: own(at),
        moved: 0,
        len,
    };
    let io = Vec::from_slice(alloc, bytes)?;
    stream(alloc, stores, pid, act, &op, io, desc)
}

// The offset of the call's own, of which the act has said that it isn't negative.
fn own(at: Option<i64>) -> Option<u64> {
    match at {
        Some(at) => Some(at.unsigned_abs()),
        None => None,
    }
}

// What both stores tell of a question.
fn asked(alloc: Global, first: u64, second: u64) -> Told {
    Told {
        answer: i64::try_from(first).ok(),
        bytes: Vec::new(alloc),
        agree: first == second,
    }
}

// The output of a console.
fn output(alloc: Global, stores: &Stores, pid: Pid) -> Result<Told> {
    let bytes = stores.first.output(pid).unwrap_or(b"");
    let agree = stores.second.output(pid).unwrap_or(b"") == bytes;
    Ok(Told {
        answer: i64::try_from(bytes.len()).ok(),
        bytes: Vec::from_slice(alloc, bytes)?,
        agree,
    })
}

/// Makes a call of a process in both stores.
pub fn run(alloc: Global, stores: &mut Stores, pid: Pid, call: Call) -> Result<Told> {
    match call {
        Call::Step(op, io) => step(stores, pid, &op, io),
        Call::Reads { fd, at, len } => read(alloc, stores, pid, fd, at, len),
        Call::Writes { fd, at, bytes } => write(alloc, stores, pid, fd, at, &bytes),
        Call::Share(child) => match stores.share(pid, child) {
            Ok(()) => Ok(asked(alloc, 0, 0)),
            Err(_) => Err(anyhow!("no memory")),
        },
        Call::CloseAll => {
            stores.close_all(pid);
            Ok(asked(alloc, 0, 0))
        }
        Call::Output => output(alloc, stores, pid),
        Call::Nodes => Ok(asked(alloc, stores.first.node_count(), stores.second.node_count())),
        Call::Bytes => Ok(asked(alloc, stores.first.all_bytes(), stores.second.all_bytes())),
    }
}
