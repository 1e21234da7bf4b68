// mkdirat and unlinkat.
ghost use Rattle.std.specs.Prelude.{◌≡◌, ◌≤◌, ◌++◌, [], ◌∷◌, IfNone, MatchOption, IsTrue, length, true};
ghost use Rattle.file_calls.specs.Walks.{special};
ghost use Rattle.file_model.specs.Acts as acts;
ghost use Rattle.file_model.specs.Acts.{special_last, unlink_last, unlink_place};
ghost use Rattle.file_model.specs.Operations.{done};
ghost use Rattle.file_model.specs.Paths.{Present, names_of};

use crate::errno::{EBUSY, EEXIST, EINVAL, EISDIR, ENOENT, ENOSPC, ENOTDIR, ENOTEMPTY, fails};
use crate::names::{is_dot, is_dot_dot, last_name};
use crate::open::MOST_NODES;
use crate::start::{find, find_front};
use crate::store::FileStore;
use crate::walk::Found;
use mck_word::Pid;

const AT_REMOVEDIR: u32 = 0x200;

/// Makes a directory.
pub fn mkdirat<S: FileStore>(files: &mut S, pid: Pid, dirfd: i32, text: &[u8]) -> i64
    requires { 1 ≤ (S.room files.old).nodes }
    ensures { done result (S.files files.new) ≡ acts.mkdirat (S.files files.old) pid.0 dirfd text.now }
{
    match find(files, pid, dirfd, text) {
        Found::Error(errno) => fails(errno),
        Found::Node(_) => fails(EEXIST),
        Found::Missing { .. } if files.node_count() >= MOST_NODES => fails(ENOSPC),
        Found::Missing { directory, name } => {
            files.make(directory, name, true);
            0
        }
    }
}

/// The error that a path has whose last name is missing, `.` or `..`; none where it has another one.
fn special_error(text: &[u8], removes_directory: bool) -> Option<u32>
    ensures { result ≡ special removes_directory (special_last (names_of text.now)) }
{
    let of_directory = match last_name(text) {
        None => EBUSY,
        Some((_, last)) if is_dot(last) => EINVAL,
        Some((_, last)) if is_dot_dot(last) => ENOTEMPTY,
        Some(_) => return None,
    };
    Some(if removes_directory {
        of_directory
    } else {
        EISDIR
    })
}

/// Takes the name of a node away.
fn unlink_node<S: FileStore>(files: &mut S, flags: u32, node: u64) -> i64
    ensures { done result (S.files files.new) ≡ unlink_place (S.files files.old) flags (Present node) }
{
    let directory = files.is_directory(node);
    if flags == 0 && directory {
        return fails(EISDIR);
    }
    if flags != 0 && !directory {
        return fails(ENOTDIR);
    }
    if flags != 0 && files.holds_names(node) {
        return fails(ENOTEMPTY);
    }
    files.unlink(node);
    0
}

/// Takes the last name of a path away, whose directory is there.
fn unlink_last<S: FileStore>(files: &mut S, pid: Pid, dirfd: i32, flags: u32, text: &[u8]) -> i64
    ensures { done result (S.files files.new) ≡ unlink_last (S.files files.old) pid.0 dirfd flags text.now }
{
    if let Some(errno) = special_error(text, flags != 0) {
        return fails(errno);
    }
    match find(files, pid, dirfd, text) {
        Found::Error(errno) => fails(errno),
        Found::Missing { .. } => fails(ENOENT),
        Found::Node(node) => unlink_node(files, flags, node),
    }
}

/// Takes the name of a file, or of a directory without names, away.
pub fn unlinkat<S: FileStore>(files: &mut S, pid: Pid, dirfd: i32, flags: u32, text: &[u8]) -> i64
    ensures { done result (S.files files.new) ≡ acts.unlinkat (S.files files.old) pid.0 dirfd flags text.now }
{
    if flags != 0 && flags != AT_REMOVEDIR {
        return fails(EINVAL);
    }
    let front = match last_name(text) {
        None => b"".as_slice(),
        Some((front, _)) => front,
    };
    match find_front(files, pid, dirfd, text, front) {
        Found::Error(errno) => fails(errno),
        Found::Missing { .. } => fails(ENOENT),
        Found::Node(_) => unlink_last(files, pid, dirfd, flags, text),
    }
}
