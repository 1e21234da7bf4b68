// openat.
ghost use Rattle.std.specs.Prelude.{◌≡◌, ◌≤◌, ◌<◌, pos, IsTrue, true, None, length};
ghost use Rattle.file_model.specs.Acts as acts;
ghost use Rattle.file_model.specs.Acts.{access_of, may_read, may_write, open_node, open_place};
ghost use Rattle.file_model.specs.Files.{descriptors_of, node_of};
ghost use Rattle.file_model.specs.Operations.{done};
ghost use Rattle.file_model.specs.Paths.{Absent, Present, child};
ghost use Rattle.mck_word.specs.Maps.{count};
ghost use Rattle.mck_word.specs.Words.{has_bit};

use crate::errno::{EEXIST, EINVAL, EISDIR, EMFILE, ENOENT, ENOSPC, ENOTDIR, fails};
use crate::names::has_final_slash;
use crate::start::find;
use crate::store::FileStore;
use crate::walk::Found;
use file_model::Target;
use mck_word::Pid;

const MOST_DESCRIPTORS: u32 = 64;

pub const MOST_NODES: u64 = 1024;

/// The low two bits of flags: 0 reads, 1 writes, 2 does both.
fn access(flags: u32) -> u32
    ensures { result ≡ access_of flags }
{
    flags % 4
}

fn reads(flags: u32) -> bool
    ensures { result ≡ may_read flags }
{
    access(flags) == 0 || access(flags) == 2
}

fn writes(flags: u32) -> bool
    ensures { result ≡ may_write flags }
{
    access(flags) == 1 || access(flags) == 2
}

/// Whether the bit of a place is set.
fn has_flag(flags: u32, place: u32) -> bool
    requires { place < 32 }
    ensures { result ≡ has_bit place flags }
{
    (flags >> place) % 2 == 1
}

/// Opens a node that is there.
fn open_at<S: FileStore>(files: &mut S, pid: Pid, flags: u32, node: u64) -> i64
    requires room { 1 ≤ (S.room files.old).opens }
    requires free { count (descriptors_of (S.files files.old) pid.0) < 64 }
    ensures { done result (S.files files.new) ≡ open_node (S.files files.old) pid.0 flags node }
{
    let fd = files.open(
        pid,
        Target::OfNode(node),
        reads(flags),
        writes(flags),
        has_flag(flags, 10),
    );
    i64::from(fd)
}

/// Opens what a path leads to.
fn open_present<S: FileStore>(files: &mut S, pid: Pid, flags: u32, text: &[u8], node: u64) -> i64
    requires room { 1 ≤ (S.room files.old).opens }
    requires free { count (descriptors_of (S.files files.old) pid.0) < 64 }
    ensures { done result (S.files files.new) ≡ open_place (S.files files.old) pid.0 flags text.now (Present node) }
{
    if has_flag(flags, 6) && has_flag(flags, 7) {
        return fails(EEXIST);
    }
    let directory = files.is_directory(node);
    if directory && (writes(flags) || has_flag(flags, 6)) {
        return fails(EISDIR);
    }
    if !directory && has_flag(flags, 16) {
        return fails(ENOTDIR);
    }
    if has_flag(flags, 9) && writes(flags) {
        files.empty(node);
    }
    open_at(files, pid, flags, node)
}

/// Makes a file and opens it.
fn open_absent<S: FileStore>(
    files: &mut S,
    pid: Pid,
    flags: u32,
    text: &[u8],
    directory: u64,
    name: &[u8],
) -> i64
    requires nodes { 1 ≤ (S.room files.old).nodes }
    requires opens { 1 ≤ (S.room files.old).opens }
    requires free { count (descriptors_of (S.files files.old) pid.0) < 64 }
    requires directory { (node_of (S.files files.old) directory).directory ≡ true }
    requires absent { child (S.files files.old) directory name.now ≡ None }
    requires short { length name.now ≤ 255 }
    ensures { done result (S.files files.new) ≡ open_place (S.files files.old) pid.0 flags text.now (Absent directory name.now) }
{
    if !has_flag(flags, 6) {
        return fails(ENOENT);
    }
    if has_final_slash(text) {
        return fails(EISDIR);
    }
    if files.node_count() >= MOST_NODES {
        return fails(ENOSPC);
    }
    let node = files.next_node();
    files.make(directory, name, false);
    open_at(files, pid, flags, node)
}

/// Opens a file or directory, and makes a file where it is missing and the flags say so.
pub fn openat<S: FileStore>(files: &mut S, pid: Pid, dirfd: i32, flags: u32, text: &[u8]) -> i64
    requires nodes { 1 ≤ (S.room files.old).nodes }
    requires opens { 1 ≤ (S.room files.old).opens }
    ensures { done result (S.files files.new) ≡ acts.openat (S.files files.old) pid.0 dirfd flags text.now }
{
    if access(flags) == 3 || has_flag(flags, 6) && has_flag(flags, 16) {
        return fails(EINVAL);
    }
    if files.descriptor_count(pid) >= MOST_DESCRIPTORS {
        return fails(EMFILE);
    }
    match find(files, pid, dirfd, text) {
        Found::Error(errno) => fails(errno),
        Found::Node(node) => open_present(files, pid, flags, text, node),
        Found::Missing { directory, name } => open_absent(files, pid, flags, text, directory, name),
    }
}
