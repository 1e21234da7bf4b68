// The room that an operation needs.
ghost use Rattle.std.specs.Prelude.{◌≡◌, ◌≤◌, ◌<◌, ◌+◌, ◌-◌, ◌^◌, OnOk, length, min};
ghost use Rattle.std.specs.Vec.{vec_capacity};
ghost use Rattle.file_calls.specs.Pieces.{HasRoom, file_end, put_end};
ghost use Rattle.file_model.specs.Files.{console_of, description_of, node_of, pipe_of};
ghost use Rattle.file_model.specs.Streams.{cut_at, write_offset};
ghost use Rattle.one_files.specs.Seen.{can_write_of, room_of, seen};

use crate::RowFiles;
use file_calls::streams::{MOST_CONSOLE_BYTES, MOST_FILE_BYTES, MOST_PIPE_BYTES};
use file_model::{Description, FileOp, Target};
use mck_word::NoMemory;

/// The description under a number that is none.
const NO_DESCRIPTION: Description = Description {
    target: Target::OfConsole(0),
    readable: false,
    writable: false,
    append: false,
    offset: 0,
    calls: 0,
};

/// Where a piece of `len` bytes from an offset ends, cut at the most bytes that there may be.
fn end_of(most: u64, offset: u64, len: u32) -> u64
    requires { most < 2 ^ 32 }
    ensures { result ≡ offset + cut_at most offset len }
{
    offset + u64::from(len).min(most.saturating_sub(offset))
}

/// Makes room for so many bytes in a buffer whose own are not needed.
fn reserve_whole(spare: &mut Vec<u8>, end: u64) -> Result<(), NoMemory>
    ensures { OnOk result (end ≤ vec_capacity spare.new) }
{
    spare.clear();
    spare.reserve(end as usize)?;
    Ok(())
}

impl RowFiles {
    /// The description under a number.
    pub(crate) fn description_of(&self, d: u32) -> Description
        ensures is { result ≡ description_of (seen self.now) d }
        ensures bound { result.offset < 2 ^ 63 }
    {
        match self.descriptions.get(d as u64) {
            Some(file) => file.get(),
            None => NO_DESCRIPTION,
        }
    }

    /// How many bytes a file has.
    pub(crate) fn len_of(&self, node: u64) -> u64
        ensures len { result ≡ length (node_of (seen self.now) node).bytes }
        ensures bound { result < 2 ^ 63 }
    {
        match self.nodes.get(node) {
            Some(x) => x.bytes().len() as u64,
            None => 0,
        }
    }

    /// How many bytes a pipe has.
    pub(crate) fn pipe_len_of(&self, pipe: u32) -> u64
        ensures len { result ≡ length (pipe_of (seen self.now) pipe) }
        ensures bound { result < 2 ^ 63 }
    {
        match self.pipes.get(pipe as u64) {
            Some(bytes) => bytes.len() as u64,
            None => 0,
        }
    }

    /// How much output a console has.
    pub(crate) fn output_len_of(&self, guest: u32) -> u64
        ensures len { result ≡ length (console_of (seen self.now) guest).output }
        ensures bound { result < 2 ^ 63 }
    {
        match self.consoles.get(guest) {
            Some(console) => console.output().len() as u64,
            None => 0,
        }
    }

    /// Where the next piece is written in a file, as far as a u64 tells it.
    fn offset_of(&self, description: Description, at: Option<u64>, moved: u32) -> u64
        requires { description.offset < 2 ^ 63 }
        ensures { result ≡ min (write_offset (seen self.now) description at moved) (2 ^ 64 - 1) }
    {
        match at {
            Some(at) => at.saturating_add(u64::from(moved)),
            None => match description.target {
                Target::OfNode(node) if description.append => self.len_of(node),
                _ => description.offset,
            },
        }
    }

    /// Where a piece ends in a file: 0 where its offset lies at or past the limit of a file, since nothing is written there.
    fn file_end_of(&self, description: Description, at: Option<u64>, moved: u32, len: u32) -> u64
        requires { description.offset < 2 ^ 63 }
        ensures { result ≡ file_end (write_offset (seen self.now) description at moved) len }
    {
        let offset = self.offset_of(description, at, moved);
        if offset >= MOST_FILE_BYTES {
            return 0;
        }
        end_of(MOST_FILE_BYTES, offset, len)
    }

    /// Where a written piece ends in its target.
    fn put_end_of(&self, d: u32, at: Option<u64>, moved: u32, len: u32) -> u64
        ensures { result ≡ put_end (seen self.now) d at moved len (description_of (seen self.now) d).target }
    {
        let description = self.description_of(d);
        match description.target {
            Target::OfNode(_) => self.file_end_of(description, at, moved, len),
            Target::ReadEnd(_) => 0,
            Target::WriteEnd(pipe) => end_of(MOST_PIPE_BYTES, self.pipe_len_of(pipe), len),
            Target::OfConsole(guest) => end_of(MOST_CONSOLE_BYTES, self.output_len_of(guest), len),
        }
    }

    /// Makes room for one more pipe. Also fails where nearly 2 ^ 32 of them are there.
    fn reserve_pipe(&mut self) -> Result<(), NoMemory>
        ensures same { seen self.new ≡ seen self.old }
        ensures opens { (room_of self.new).opens ≡ (room_of self.old).opens }
        ensures room { OnOk result (1 ≤ (room_of self.new).pipes) }
    {
        if self.pipes.len() > 0xffff_fff0 {
            return Err(NoMemory);
        }
        self.pipes.reserve(1)?;
        Ok(())
    }

    /// Makes the room that an operation needs.
    pub(crate) fn room_for(&mut self, op: &FileOp) -> Result<(), NoMemory>
        ensures same { seen self.new ≡ seen self.old }
        ensures room { OnOk result (HasRoom (room_of self.new) (can_write_of self.new) (seen self.new) op.now) }
    {
        match *op {
            FileOp::Openat { .. } => {
                self.nodes.reserve(1)?;
                self.reserve_opens(1)
            }
            FileOp::Mkdirat { .. } => self.nodes.reserve(1),
            FileOp::Pipe2 { .. } => {
                self.reserve_opens(2)?;
                self.reserve_pipe()
            }
            FileOp::Put {
                desc,
                at,
                moved,
                len,
            } => {
                let end = self.put_end_of(desc, at, moved, len);
                reserve_whole(&mut self.spare, end)
            }
            FileOp::Unlinkat { .. }
            | FileOp::Close { .. }
            | FileOp::Lseek { .. }
            | FileOp::Ioctl { .. }
            | FileOp::Fstat { .. }
            | FileOp::Getdents { .. }
            | FileOp::Read { .. }
            | FileOp::Write { .. }
            | FileOp::Get { .. }
            | FileOp::Leave(_) => Ok(()),
        }
    }
}
