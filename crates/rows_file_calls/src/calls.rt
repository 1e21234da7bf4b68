// The calls of rows.
use crate::words::Words;
use anyhow::{Result, anyhow};
use file_model::FileOp;
use mck_word::Pid;
use std::alloc::Global;

/// What a row asks of both stores: an operation with the bytes of its buffer, a reading or writing call whole, a process that gets the
/// descriptors of another one or whose descriptors go, or a question.
#[derive(Drop)]
pub enum Call {
    Step(FileOp, Vec<u8>),
    Reads {
        fd: i32,
        at: Option<i64>,
        len: u32,
    },
    Writes {
        fd: i32,
        at: Option<i64>,
        bytes: Vec<u8>,
    },
    Share(Pid),
    CloseAll,
    Output,
    Nodes,
    Bytes,
}

/// A buffer of so many bytes.
pub fn zeros(alloc: Global, len: u64) -> Result<Vec<u8>> {
    let mut bytes = Vec::new(alloc);
    bytes.resize(len as usize, 0)?;
    Ok(bytes)
}

/// An offset of the call's own, or none.
fn offset(words: &mut Words<'_>) -> Result<Option<i64>> {
    if words.rest().starts_with("none") {
        words.word();
        return Ok(None);
    }
    Ok(Some(words.i64()?))
}

/// The acts with a path.
fn path_call(alloc: Global, name: &str, words: &mut Words<'_>) -> Result<Call> {
    let dirfd = words.i32()?;
    let path = words.bytes(alloc)?;
    let op = match name {
        "openat" => FileOp::Openat {
            dirfd,
            flags: words.u32()?,
        },
        "mkdirat" => FileOp::Mkdirat { dirfd },
        _ => FileOp::Unlinkat {
            dirfd,
            flags: words.u32()?,
        },
    };
    Ok(Call::Step(op, path))
}

/// The acts of one descriptor without bytes.
fn plain_act(name: &str, words: &mut Words<'_>) -> Result<FileOp> {
    let fd = words.i32()?;
    Ok(match name {
        "close" => FileOp::Close { fd },
        "ioctl" => FileOp::Ioctl { fd },
        "lseek" => FileOp::Lseek {
            fd,
            offset: words.i64()?,
            whence: words.i32()?,
        },
        "read_act" => FileOp::Read {
            fd,
            at: offset(words)?,
            count: words.i32()?,
        },
        _ => FileOp::Write {
            fd,
            at: offset(words)?,
            count: words.i32()?,
        },
    })
}

/// The acts that give bytes out.
fn giving_act(alloc: Global, name: &str, words: &mut Words<'_>) -> Result<Call> {
    if name == "pipe2" {
        let flags = words.u32()?;
        return Ok(Call::Step(FileOp::Pipe2 { flags }, zeros(alloc, 8)?));
    }
    let fd = words.i32()?;
    if name == "fstat" {
        return Ok(Call::Step(FileOp::Fstat { fd }, zeros(alloc, 128)?));
    }
    let most = words.u64()?;
    Ok(Call::Step(
        FileOp::Getdents { fd, most },
        zeros(alloc, most.min(65_536))?,
    ))
}

/// The reading and writing calls.
fn stream_call(alloc: Global, name: &str, words: &mut Words<'_>) -> Result<Call> {
    let fd = words.i32()?;
    Ok(match name {
        "read" => Call::Reads {
            fd,
            at: None,
            len: words.u32()?,
        },
        "pread64" => Call::Reads {
            fd,
            len: words.u32()?,
            at: offset(words)?,
        },
        "write" => Call::Writes {
            fd,
            at: None,
            bytes: words.bytes(alloc)?,
        },
        _ => Call::Writes {
            fd,
            bytes: words.bytes(alloc)?,
            at: offset(words)?,
        },
    })
}

/// The pieces of streams.
fn piece(alloc: Global, name: &str, words: &mut Words<'_>) -> Result<Call> {
    let desc = words.u32()?;
    let at = match offset(words)? {
        Some(at) => Some(at.unsigned_abs()),
        None => None,
    };
    let moved = words.u32()?;
    if name == "get" {
        let len = words.u32()?;
        let op = FileOp::Get {
            desc,
            at,
            moved,
            len,
        };
        return Ok(Call::Step(op, zeros(alloc, u64::from(len))?));
    }
    let bytes = words.bytes(alloc)?;
    let Ok(len) = u32::try_from(bytes.len()) else {
        return Err(anyhow!("too long"));
    };
    let op = FileOp::Put {
        desc,
        at,
        moved,
        len,
    };
    Ok(Call::Step(op, bytes))
}

/// The call that the words of a row say.
pub fn read_call(alloc: Global, words: &mut Words<'_>) -> Result<Call> {
    let name = words.word();
    match name {
        "openat" | "mkdirat" | "unlinkat" => path_call(alloc, name, words),
        "close" | "ioctl" | "lseek" | "read_act" | "write_act" => Ok(Call::Step(
            plain_act(name, words)?,
            Vec::new(alloc),
        )),
        "pipe2" | "fstat" | "getdents64" => giving_act(alloc, name, words),
        "read" | "pread64" | "write" | "pwrite64" => stream_call(alloc, name, words),
        "get" | "put" => piece(alloc, name, words),
        "leave" => Ok(Call::Step(FileOp::Leave(words.u32()?), Vec::new(alloc))),
        "share" => Ok(Call::Share(Pid(words.u32()?))),
        "close_all" => Ok(Call::CloseAll),
        "output" => Ok(Call::Output),
        "nodes" => Ok(Call::Nodes),
        "bytes" => Ok(Call::Bytes),
        _ => Err(anyhow!("no call: {name}")),
    }
}
