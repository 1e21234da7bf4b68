// The store of files.
use crate::LinuxFiles;
use file_calls::store::FileStore;
use file_model::{Description, FileOp, Target};
use mck_word::{NoMemory, Pid};

/// The number of the root.
const ROOT: u64 = 1;

impl FileStore for LinuxFiles {
    ghost use Rattle.linux_files.specs.Rooms.{can_write_parts, room_of_parts};
    ghost use Rattle.linux_files.specs.Seen.{seen_parts};

    ghost files = { seen_parts };

    ghost room = { room_of_parts };

    ghost can_write = { can_write_parts };

    fn is_directory(&self, node: u64) -> bool {
        self.parts.tree.is_directory(node)
    }

    fn parent(&self, node: u64) -> u64 {
        self.parts.tree.parent(node)
    }

    fn is_unlinked(&self, node: u64) -> bool {
        match self.parts.tree.name(node) {
            Some(_) => false,
            None => node != ROOT,
        }
    }

    fn file_len(&self, node: u64) -> u64 {
        self.parts.tree.len(node)
    }

    fn child(&self, directory: u64, name: &[u8]) -> Option<u64> {
        self.parts.tree.find(directory, name)
    }

    fn holds_names(&self, directory: u64) -> bool {
        self.parts.tree.holds_names(directory)
    }

    fn name_at(&self, directory: u64, k: u64) -> Option<&[u8]> {
        self.parts.tree.name_at(directory, k)
    }

    fn node_count(&self) -> u64 {
        self.parts.tree.count()
    }

    fn next_node(&self) -> u64 {
        self.parts.tree.next()
    }

    fn all_bytes(&self) -> u64 {
        self.parts.tree.bytes()
    }

    fn make(&mut self, parent: u64, name: &[u8], directory: bool) {
        self.parts.make(parent, name, directory);
    }

    fn empty(&mut self, node: u64) {
        self.parts.empty(node);
    }

    fn unlink(&mut self, node: u64) {
        self.parts.unlink(node);
    }

    fn named(&self, pid: Pid, fd: u32) -> Option<u32> {
        self.parts.named_by(pid, fd)
    }

    fn description(&self, d: u32) -> Description {
        self.parts.description_of(d)
    }

    fn descriptor_count(&self, pid: Pid) -> u32 {
        self.parts.descriptor_count(pid)
    }

    fn is_open(&self, target: Target) -> bool {
        self.parts.is_open(target)
    }

    fn open(
        &mut self,
        pid: Pid,
        target: Target,
        readable: bool,
        writable: bool,
        append: bool,
    ) -> u32 {
        self.parts
            .open_target(pid, target, readable, writable, append)
    }

    fn set_offset(&mut self, d: u32, offset: u64) {
        self.parts.set_offset(d, offset);
    }

    fn close(&mut self, pid: Pid, fd: u32) {
        self.parts.close(pid, fd);
    }

    fn hold(&mut self, d: u32) {
        self.parts.hold(d);
    }

    fn leave(&mut self, d: u32) {
        self.parts.leave(d);
    }

    fn make_pipe(&mut self) -> u32 {
        self.parts.make_pipe()
    }

    fn pipe_len(&self, pipe: u32) -> u64 {
        self.parts.pipes.len(pipe as u64)
    }

    fn input_len(&self, guest: u32) -> u64 {
        self.parts.consoles.input_len(guest)
    }

    fn output_len(&self, guest: u32) -> u64 {
        self.parts.consoles.output_len(guest)
    }

    fn read_file(&self, node: u64, offset: u64, into: &mut [u8]) {
        self.parts.tree.read(node, offset, into);
    }

    fn take_pipe(&mut self, pipe: u32, into: &mut [u8]) {
        self.parts.take_pipe(pipe, into);
    }

    fn take_input(&mut self, guest: u32, into: &mut [u8]) {
        self.parts.take_input(guest, into);
    }

    fn write_file(&mut self, node: u64, offset: u64, from: &[u8]) {
        self.parts.write_file(node, offset, from);
    }

    fn add_pipe(&mut self, pipe: u32, from: &[u8]) {
        self.parts.add_pipe(pipe, from);
    }

    fn add_output(&mut self, guest: u32, from: &[u8]) {
        self.parts.add_output(guest, from);
    }

    fn make_room(&mut self, op: &FileOp) -> Result<(), NoMemory> {
        self.parts.room_for(op)
    }

    fn close_all(&mut self, pid: Pid) {
        self.parts.close_all(pid);
    }

    fn make_share(&mut self) -> Result<(), NoMemory> {
        self.parts.reserve_share()
    }

    fn share(&mut self, parent: Pid, child: Pid) {
        self.parts.share(parent, child);
    }

    fn process(&mut self, pid: Pid, input: &[u8]) -> Result<(), NoMemory> {
        self.parts.add_process(pid, input)
    }

    fn output(&self, guest: Pid) -> Option<&[u8]> {
        self.parts.consoles.output(guest.0)
    }
}
