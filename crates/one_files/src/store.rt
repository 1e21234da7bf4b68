// The store of files.
ghost use Rattle.std.specs.Prelude.{◌≡◌, ◌≤◌, ◌-◌, length, take, drop};

use crate::RowFiles;
use crate::names::{all_bytes, child_in, kth_name, some_name};
use crate::node::FileNode;
use crate::open_file::OpenFile;
use crate::settle::is_open;
use crate::stream::Stream;
use file_calls::store::FileStore;
use file_model::{Description, FileOp, Target};
use mck_word::{NoMemory, Pid};

/// Copies bytes from an offset on into a buffer.
fn copy_out(bytes: &[u8], offset: u64, into: &mut [u8])
    requires { length into.old ≤ length bytes.now - offset }
    ensures { into.new ≡ take (length into.old) (drop offset bytes.now) }
{
    if into.len() == 0 {
        return;
    }
    let (_, rest) = bytes.split_at(offset as usize);
    let (there, _) = rest.split_at(into.len());
    into.copy_from_slice(there);
}

impl FileStore for RowFiles {
    ghost use Rattle.one_files.specs.Seen.{can_write_of, room_of, seen};

    ghost files = { seen };

    ghost room = { room_of };

    ghost can_write = { can_write_of };

    fn is_directory(&self, node: u64) -> bool {
        match self.nodes.get(node) {
            Some(x) => x.is_directory(),
            None => false,
        }
    }

    fn parent(&self, node: u64) -> u64 {
        match self.nodes.get(node) {
            Some(x) => x.parent(),
            None => 0,
        }
    }

    fn is_unlinked(&self, node: u64) -> bool {
        match self.nodes.get(node) {
            Some(x) => x.name().is_none() && node != 1,
            None => node != 1,
        }
    }

    fn file_len(&self, node: u64) -> u64 {
        self.len_of(node)
    }

    fn child(&self, directory: u64, name: &[u8]) -> Option<u64> {
        child_in(self.nodes.as_slice(), directory, name)
    }

    fn holds_names(&self, directory: u64) -> bool {
        some_name(self.nodes.as_slice(), directory)
    }

    fn name_at(&self, directory: u64, k: u64) -> Option<&[u8]> {
        kth_name(self.nodes.as_slice(), directory, k)
    }

    fn node_count(&self) -> u64 {
        self.nodes.count()
    }

    fn next_node(&self) -> u64 {
        self.nodes.next()
    }

    fn all_bytes(&self) -> u64 {
        all_bytes(self.nodes.as_slice())
    }

    fn make(&mut self, parent: u64, name: &[u8], directory: bool) {
        self.nodes
            .add(FileNode::new(self.alloc, parent, name, directory));
    }

    fn empty(&mut self, node: u64) {
        self.nodes.clear(node);
    }

    fn unlink(&mut self, node: u64) {
        self.nodes.unname(node);
        self.settle();
    }

    fn named(&self, pid: Pid, fd: u32) -> Option<u32> {
        match self.descriptors.get(pid.0 as u64) {
            Some(descriptors) => descriptors.get(fd),
            None => None,
        }
    }

    fn description(&self, d: u32) -> Description {
        self.description_of(d)
    }

    fn descriptor_count(&self, pid: Pid) -> u32 {
        match self.descriptors.get(pid.0 as u64) {
            Some(descriptors) => descriptors.count(),
            None => 0,
        }
    }

    fn is_open(&self, target: Target) -> bool {
        is_open(&self.descriptions, target)
    }

    fn open(
        &mut self,
        pid: Pid,
        target: Target,
        readable: bool,
        writable: bool,
        append: bool,
    ) -> u32 {
        self.open_file(pid, OpenFile::new(target, readable, writable, append))
    }

    fn set_offset(&mut self, d: u32, offset: u64) {
        if self.descriptions.get(d as u64).is_some() {
            self.descriptions.row_mut(d as u64).set_offset(offset);
        }
    }

    fn close(&mut self, pid: Pid, fd: u32) {
        self.cut_descriptor(pid, fd);
        self.settle();
    }

    fn hold(&mut self, d: u32) {
        if self.descriptions.get(d as u64).is_some() {
            self.descriptions.row_mut(d as u64).hold();
        }
    }

    fn leave(&mut self, d: u32) {
        if self.descriptions.get(d as u64).is_some() {
            self.descriptions.row_mut(d as u64).leave();
        }
        self.settle();
    }

    fn make_pipe(&mut self) -> u32 {
        let pipe = self.pipes.first_free();
        self.pipes.put(pipe, Stream::new(self.alloc));
        pipe as u32
    }

    fn pipe_len(&self, pipe: u32) -> u64 {
        self.pipe_len_of(pipe)
    }

    fn input_len(&self, guest: u32) -> u64 {
        match self.consoles.get(guest) {
            Some(console) => console.input_len() as u64,
            None => 0,
        }
    }

    fn output_len(&self, guest: u32) -> u64 {
        self.output_len_of(guest)
    }

    fn read_file(&self, node: u64, offset: u64, into: &mut [u8]) {
        if let Some(x) = self.nodes.get(node) {
            copy_out(x.bytes(), offset, into);
        }
    }

    fn take_pipe(&mut self, pipe: u32, into: &mut [u8]) {
        if self.pipes.get(pipe as u64).is_some() {
            self.pipes.row_mut(pipe as u64).take(into);
        }
    }

    fn take_input(&mut self, guest: u32, into: &mut [u8]) {
        self.consoles.take_input(guest, into);
    }

    fn write_file(&mut self, node: u64, offset: u64, from: &[u8]) {
        self.nodes
            .write(node, offset as usize, from, &mut self.spare);
    }

    fn add_pipe(&mut self, pipe: u32, from: &[u8]) {
        if self.pipes.get(pipe as u64).is_some() {
            self.pipes.row_mut(pipe as u64).add(from, &mut self.spare);
        }
    }

    fn add_output(&mut self, guest: u32, from: &[u8]) {
        self.consoles.add_output(guest, from, &mut self.spare);
    }

    fn make_room(&mut self, op: &FileOp) -> Result<(), NoMemory> {
        self.room_for(op)
    }

    fn close_all(&mut self, pid: Pid) {
        self.cut_descriptors(pid);
        self.settle();
    }

    fn make_share(&mut self) -> Result<(), NoMemory> {
        self.descriptors.reserve(1)?;
        Ok(())
    }

    fn share(&mut self, parent: Pid, child: Pid) {
        let descriptors = self.descriptors_of(parent);
        self.descriptors.put(child.0 as u64, descriptors);
    }

    fn process(&mut self, pid: Pid, input: &[u8]) -> Result<(), NoMemory> {
        self.add_process(pid, input)
    }

    fn output(&self, guest: Pid) -> Option<&[u8]> {
        match self.consoles.get(guest.0) {
            Some(console) => Some(console.output()),
            None => None,
        }
    }
}
