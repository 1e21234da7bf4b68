// What a store of files offers to the file calls.
ghost use Rattle.std.specs.Prelude.{◌≡◌, ◌≤◌, ◌<◌, ◌+◌, ◌-◌, ◌^◌, ◌==◌, ℕ, List, [], Some, None, IsTrue, IsSome, IfSome, OnErr, OnOk, option_map, length, take, drop, min, nat_lt, slice_get, not};
ghost use Rattle.std.specs.Option.{option_copied};
ghost use Rattle.mck_word.specs.Maps.{at, count};
ghost use Rattle.file_model.specs.Files.{Console, Files, node_of, pipe_of, console_of, description_of, named_by, descriptors_of, lowest_free, is_open, total_bytes, set_offset, set_bytes, set_pipe};
ghost use Rattle.file_model.specs.Files as files_of;
ghost use Rattle.file_model.specs.Paths as paths;
ghost use Rattle.file_model.specs.Acts as acts;
ghost use Rattle.file_model.specs.Streams as streams;
ghost use Rattle.file_model.specs.declared.descriptions.Target.{Target as target};
ghost use Rattle.file_calls.specs.Pieces.{HasRoom};
ghost use Rattle.file_calls.specs.Rooms.{Room};

use file_model::{Description, FileOp, Target};
use mck_word::{NoMemory, Pid};

/// A store of files, seen as the files that it holds.
///
/// Each method is one word of the definitions of files. Numbers that name nothing are met as the definitions say: a node that is
/// not there is a file without bytes, and a change of what is not there changes nothing. What takes memory has its room made before.
pub trait FileStore: Sized {
    ghost files: { Self → Files };

    // for how many nodes, descriptions and pipes there is room, and up to which end of a target
    ghost room: { Self → Room };

    ghost can_write: { Self → target → ℕ → Type 0 };

    // ---- the tree

    /// Whether the node is a directory.
    fn is_directory(&self, node: u64) -> bool
        ensures { result ≡ (node_of (files self.now) node).directory };

    /// The directory that a node stands in; the root stands in itself.
    fn parent(&self, node: u64) -> u64
        ensures { result ≡ (node_of (files self.now) node).parent };

    /// Whether the node has no name and is not the root.
    fn is_unlinked(&self, node: u64) -> bool
        ensures { result ≡ paths.is_unlinked node (node_of (files self.now) node).name };

    /// How many bytes a file has.
    fn file_len(&self, node: u64) -> u64
        ensures len { result ≡ length (node_of (files self.now) node).bytes }
        ensures bound { result < 2 ^ 63 };

    /// The node with that name in a directory.
    fn child(&self, directory: u64, name: &[u8]) -> Option<u64>
        ensures { result ≡ paths.child (files self.now) directory name.now };

    /// Whether a directory has a name in it.
    fn holds_names(&self, directory: u64) -> bool
        ensures { result ≡ nat_lt 0 (length (paths.names_in (files self.now) directory)) };

    /// The k-th name of a directory in the order of bytes, from 0 on.
    fn name_at(&self, directory: u64, k: u64) -> Option<&[u8]>
        ensures name { option_copied result ≡ slice_get (paths.names_in (files self.now) directory) k }
        ensures few { IfSome result (λ _. k < 2 ^ 32) };

    /// How many nodes there are.
    fn node_count(&self) -> u64
        ensures { result ≡ count (files self.now).nodes };

    /// The number of the next node.
    fn next_node(&self) -> u64
        ensures { result ≡ (files self.now).next_node };

    /// The bytes of all files, as far as that is told.
    fn all_bytes(&self) -> u64
        ensures { result ≡ min (total_bytes (files self.now)) (2 ^ 64 - 1) };

    /// Makes a node without bytes, with a name in a directory.
    fn make(&mut self, parent: u64, name: &[u8], directory: bool)
        requires room { 1 ≤ (room self.old).nodes }
        requires short { length name.now ≤ 255 }
        requires directory { IsTrue (node_of (files self.old) parent).directory }
        requires absent { paths.child (files self.old) parent name.now ≡ None }
        ensures files { files self.new ≡ files_of.made parent name.now directory (files self.old) }
        ensures opens { (room self.new).opens ≡ (room self.old).opens };

    /// Takes all bytes of a file away.
    fn empty(&mut self, node: u64)
        ensures files { files self.new ≡ set_bytes node [] (files self.old) }
        ensures room { room self.new ≡ room self.old };

    /// Takes a node's name away.
    fn unlink(&mut self, node: u64)
        requires { IsTrue (node_of (files self.old) node).directory → length (paths.names_in (files self.old) node) ≡ 0 }
        ensures { files self.new ≡ acts.unlink node (files self.old) };

    // ---- descriptors and descriptions

    /// The description that a descriptor names.
    fn named(&self, pid: Pid, fd: u32) -> Option<u32>
        ensures { result ≡ named_by (files self.now) pid.0 fd };

    /// The description under a number.
    fn description(&self, d: u32) -> Description
        ensures is { result ≡ description_of (files self.now) d }
        ensures bound { result.offset < 2 ^ 63 };

    /// How many descriptors a process has.
    fn descriptor_count(&self, pid: Pid) -> u32
        ensures { result ≡ count (descriptors_of (files self.now) pid.0) };

    /// Whether a description is open on the target.
    fn is_open(&self, target: Target) -> bool
        ensures { result ≡ is_open (files self.now) target };

    /// Opens a description of the target, and answers its descriptor.
    fn open(
        &mut self,
        pid: Pid,
        target: Target,
        readable: bool,
        writable: bool,
        append: bool,
    ) -> u32
        requires room { 1 ≤ (room self.old).opens }
        requires free { count (descriptors_of (files self.old) pid.0) < 64 }
        ensures files { files self.new ≡ files_of.opened pid.0 target readable writable append (files self.old) }
        ensures descriptor { result ≡ lowest_free (descriptors_of (files self.old) pid.0) }
        ensures used { count (descriptors_of (files self.new) pid.0) ≡ count (descriptors_of (files self.old) pid.0) + 1 }
        ensures room { (room self.old).opens ≤ (room self.new).opens + 1 };

    /// Sets the offset of a description.
    fn set_offset(&mut self, d: u32, offset: u64)
        requires { offset < 2 ^ 63 }
        ensures { files self.new ≡ set_offset d offset (files self.old) };

    /// Closes a descriptor that names a description.
    fn close(&mut self, pid: Pid, fd: u32)
        requires { IsSome (named_by (files self.old) pid.0 fd) }
        ensures { files self.new ≡ files_of.closed pid.0 fd (files self.old) };

    /// A call takes the description.
    fn hold(&mut self, d: u32)
        requires { (description_of (files self.old) d).calls < 2 ^ 32 - 1 }
        ensures { files self.new ≡ files_of.hold d (files self.old) };

    /// A call gives the description back.
    fn leave(&mut self, d: u32)
        ensures { files self.new ≡ files_of.leave d (files self.old) };

    // ---- pipes and consoles

    /// Makes a pipe without bytes, and answers its number.
    fn make_pipe(&mut self) -> u32
        requires { 1 ≤ (room self.old).pipes }
        ensures number { result ≡ lowest_free (files self.old).pipes }
        ensures files { files self.new ≡ set_pipe (lowest_free (files self.old).pipes) [] (files self.old) }
        ensures opens { (room self.new).opens ≡ (room self.old).opens };

    /// How many bytes a pipe has.
    fn pipe_len(&self, pipe: u32) -> u64
        ensures { result ≡ length (pipe_of (files self.now) pipe) };

    /// How much of a console's input is left.
    fn input_len(&self, guest: u32) -> u64
        ensures { result ≡ length (console_of (files self.now) guest).input };

    /// How much output a console has.
    fn output_len(&self, guest: u32) -> u64
        ensures { result ≡ length (console_of (files self.now) guest).output };

    // ---- bytes

    /// Reads bytes of a file from an offset on.
    fn read_file(&self, node: u64, offset: u64, into: &mut [u8])
        requires { length into.old ≤ length (node_of (files self.now) node).bytes - offset }
        ensures { into.new ≡ take (length into.old) (drop offset (node_of (files self.now) node).bytes) };

    /// Takes bytes out of a pipe.
    fn take_pipe(&mut self, pipe: u32, into: &mut [u8])
        requires { length into.old ≤ length (pipe_of (files self.old) pipe) }
        ensures bytes { into.new ≡ take (length into.old) (pipe_of (files self.old) pipe) }
        ensures files { files self.new ≡ streams.without_front pipe (length into.old) (files self.old) };

    /// Takes bytes of a console's input.
    fn take_input(&mut self, guest: u32, into: &mut [u8])
        requires { length into.old ≤ length (console_of (files self.old) guest).input }
        ensures bytes { into.new ≡ take (length into.old) (console_of (files self.old) guest).input }
        ensures files { files self.new ≡ streams.without_input guest (length into.old) (files self.old) };

    /// Writes bytes into a file at an offset.
    fn write_file(&mut self, node: u64, offset: u64, from: &[u8])
        requires { can_write self.old (target.OfNode node) (offset + length from.now) }
        ensures { files self.new ≡ streams.with_bytes_at node offset from.now (files self.old) };

    /// Adds bytes to a pipe.
    fn add_pipe(&mut self, pipe: u32, from: &[u8])
        requires { can_write self.old (target.WriteEnd pipe) (length (pipe_of (files self.old) pipe) + length from.now) }
        ensures { files self.new ≡ streams.with_back pipe from.now (files self.old) };

    /// Adds bytes to the output of a console.
    fn add_output(&mut self, guest: u32, from: &[u8])
        requires { can_write self.old (target.OfConsole guest) (length (console_of (files self.old) guest).output + length from.now) }
        ensures { files self.new ≡ streams.with_output guest from.now (files self.old) };

    // ---- room, processes, what the job puts in and the report reads

    /// Makes the room that an operation needs.
    fn make_room(&mut self, op: &FileOp) -> Result<(), NoMemory>
        ensures same { files self.new ≡ files self.old }
        ensures room { OnOk result (HasRoom (room self.new) (can_write self.new) (files self.new) op.now) };

    /// Closes all descriptors of a process.
    fn close_all(&mut self, pid: Pid)
        ensures { files self.new ≡ files_of.close_all pid.0 (files self.old) };

    /// Makes the room that one more `share` needs.
    fn make_share(&mut self) -> Result<(), NoMemory>
        ensures same { files self.new ≡ files self.old }
        ensures room { OnOk result (1 ≤ (room self.new).shares) };

    /// Gives a child its parent's descriptors.
    fn share(&mut self, parent: Pid, child: Pid)
        requires { 1 ≤ (room self.old).shares }
        ensures { files self.new ≡ files_of.share parent.0 child.0 (files self.old) };

    /// Adds a console with that input, and the descriptors 0, 1 and 2 of a process on it.
    fn process(&mut self, pid: Pid, input: &[u8]) -> Result<(), NoMemory>
        requires { at (files self.old).descriptors pid.0 ≡ None }
        ensures ok { OnOk result (files self.new ≡ files_of.with_console pid.0 input.now (files self.old)) }
        ensures err { OnErr result (files self.new ≡ files self.old) };

    /// The output of a guest's console.
    fn output(&self, guest: Pid) -> Option<&[u8]>
        ensures { option_copied result ≡ option_map (λ (c : Console). c.output) (at (files self.now).consoles guest.0) };
}
