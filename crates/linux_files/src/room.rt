// Room.
ghost use Rattle.std.specs.Prelude.{◌≡◌, ◌≤◌, ◌<◌, ◌+◌, ◌-◌, ◌^◌, OnOk, min};
ghost use Rattle.file_calls.specs.Pieces.{HasPutRoom, HasRoom, file_end, put_end};
ghost use Rattle.file_model.specs.Files.{description_of};
ghost use Rattle.file_model.specs.Streams.{cut_at, write_offset};
ghost use Rattle.linux_files.specs.Rooms.{HasCounts, can_write_parts, room_of_parts};
ghost use Rattle.linux_files.specs.Same.{IsSame};
ghost use Rattle.linux_files.specs.Seen.{seen_parts};

use crate::parts::Parts;
use file_calls::streams::{MOST_CONSOLE_BYTES, MOST_FILE_BYTES, MOST_PIPE_BYTES};
use file_model::{Description, FileOp, Target};
use mck_word::NoMemory;

/// How many names a process gets at most.
const MOST_DESCRIPTORS: u64 = 64;

/// Where a piece of `len` bytes from an offset ends, cut at the most bytes that there may be.
fn end_of(most: u64, offset: u64, len: u32) -> u64
    requires { most < 2 ^ 32 }
    ensures { result ≡ offset + cut_at most offset len }
{
    offset + u64::from(len).min(most.saturating_sub(offset))
}

impl Parts {
    /// Where the next piece is written in a file, as far as a u64 tells it.
    fn offset_of(&self, description: Description, at: Option<u64>, moved: u32) -> u64
        requires { description.offset < 2 ^ 63 }
        ensures { result ≡ min (write_offset (seen_parts self.now) description at moved) (2 ^ 64 - 1) }
    {
        match at {
            Some(at) => at.saturating_add(u64::from(moved)),
            None => match description.target {
                Target::OfNode(node) if description.append => self.tree.len(node),
                _ => description.offset,
            },
        }
    }

    /// Where a piece ends in a file: 0 where its offset lies at or past the limit of a file, since nothing is written there.
    fn file_end_of(&self, description: Description, at: Option<u64>, moved: u32, len: u32) -> u64
        requires { description.offset < 2 ^ 63 }
        ensures { result ≡ file_end (write_offset (seen_parts self.now) description at moved) len }
    {
        let offset = self.offset_of(description, at, moved);
        if offset >= MOST_FILE_BYTES {
            return 0;
        }
        end_of(MOST_FILE_BYTES, offset, len)
    }

    /// Where a written piece ends in its target.
    fn put_end_of(&self, d: u32, at: Option<u64>, moved: u32, len: u32) -> u64
        ensures { result ≡ put_end (seen_parts self.now) d at moved len (description_of (seen_parts self.now) d).target }
    {
        let description = self.description_of(d);
        match description.target {
            Target::OfNode(_) => self.file_end_of(description, at, moved, len),
            Target::ReadEnd(_) => 0,
            Target::WriteEnd(pipe) => end_of(MOST_PIPE_BYTES, self.pipes.len(pipe as u64), len),
            Target::OfConsole(guest) => {
                end_of(MOST_CONSOLE_BYTES, self.consoles.output_len(guest), len)
            }
        }
    }

    /// Makes room for bytes of a target up to that end.
    fn reserve_target(&mut self, target: Target, end: u64) -> Result<(), NoMemory>
        ensures same { IsSame self.old self.new }
        ensures room { OnOk result (can_write_parts self.new target end) }
    {
        match target {
            Target::OfNode(node) => self.tree.reserve_bytes(node, end),
            Target::ReadEnd(_) => Ok(()),
            Target::WriteEnd(pipe) => self.pipes.reserve_bytes(pipe as u64, end as usize),
            Target::OfConsole(guest) => self.consoles.reserve_bytes(guest, end as usize),
        }
    }

    /// Makes the room that a written piece needs.
    fn reserve_piece(
        &mut self,
        d: u32,
        at: Option<u64>,
        moved: u32,
        len: u32,
    ) -> Result<(), NoMemory>
        ensures same { IsSame self.old self.new }
        ensures room { OnOk result (HasPutRoom (can_write_parts self.new) (seen_parts self.new) d at moved len) }
    {
        let end = self.put_end_of(d, at, moved, len);
        self.reserve_target(self.description_of(d).target, end)
    }

    /// Makes room for `n` more nodes.
    fn reserve_nodes(&mut self, n: u64) -> Result<(), NoMemory>
        ensures same { IsSame self.old self.new }
        ensures room { OnOk result (n ≤ (room_of_parts self.new).nodes) }
    {
        self.tree.reserve(n)
    }

    /// Makes room for counting `n` more descriptions and their names.
    fn reserve_counts(&mut self, n: u64) -> Result<(), NoMemory>
        ensures same { IsSame self.old self.new }
        ensures nodes { (room_of_parts self.new).nodes ≡ (room_of_parts self.old).nodes }
        ensures room { OnOk result (HasCounts n self.new) }
    {
        self.tree.reserve_holds(n)?;
        self.named.reserve(n)?;
        self.readers.reserve(n)?;
        self.writers.reserve(n)
    }

    /// Makes room for `n` more descriptions. Also fails where nearly 2 ^ 32 of them are open.
    pub(crate) fn reserve_opens(&mut self, n: u64) -> Result<(), NoMemory>
        requires { n ≤ 3 }
        ensures same { IsSame self.old self.new }
        ensures nodes { (room_of_parts self.new).nodes ≡ (room_of_parts self.old).nodes }
        ensures room { OnOk result (n ≤ (room_of_parts self.new).opens) }
    {
        if self.descriptions.len() > 0xffff_fff0 {
            return Err(NoMemory);
        }
        self.reserve_counts(n)?;
        self.descriptions.reserve(n as usize)?;
        self.descriptors.reserve(n as usize)?;
        Ok(())
    }

    /// Makes room for one more pipe. Also fails where nearly 2 ^ 32 of them are there.
    fn reserve_pipe(&mut self) -> Result<(), NoMemory>
        ensures same { IsSame self.old self.new }
        ensures opens { (room_of_parts self.new).opens ≡ (room_of_parts self.old).opens }
        ensures room { OnOk result (1 ≤ (room_of_parts self.new).pipes) }
    {
        if self.pipes.count() > 0xffff_fff0 {
            return Err(NoMemory);
        }
        self.pipes.reserve(1)
    }

    /// Makes the room that one more `share` needs. Also fails where names can hardly be counted any more.
    pub(crate) fn reserve_share(&mut self) -> Result<(), NoMemory>
        ensures same { IsSame self.old self.new }
        ensures room { OnOk result (1 ≤ (room_of_parts self.new).shares) }
    {
        self.named.reserve(MOST_DESCRIPTORS)?;
        self.descriptors.reserve(1)?;
        Ok(())
    }

    /// Makes the room that an operation needs.
    pub(crate) fn room_for(&mut self, op: &FileOp) -> Result<(), NoMemory>
        ensures same { IsSame self.old self.new }
        ensures room { OnOk result (HasRoom (room_of_parts self.new) (can_write_parts self.new) (seen_parts self.new) op.now) }
    {
        match *op {
            FileOp::Openat { .. } => {
                self.reserve_nodes(1)?;
                self.reserve_opens(1)
            }
            FileOp::Mkdirat { .. } => self.reserve_nodes(1),
            FileOp::Pipe2 { .. } => {
                self.reserve_opens(2)?;
                self.reserve_pipe()
            }
            FileOp::Put {
                desc,
                at,
                moved,
                len,
            } => self.reserve_piece(desc, at, moved, len),
            FileOp::Unlinkat { .. }
            | FileOp::Close { .. }
            | FileOp::Lseek { .. }
            | FileOp::Ioctl { .. }
            | FileOp::Fstat { .. }
            | FileOp::Getdents { .. }
            | FileOp::Read { .. }
            | FileOp::Write { .. }
            | FileOp::Get { .. }
            | FileOp::Leave(_) => Ok(()),
        }
    }
}
