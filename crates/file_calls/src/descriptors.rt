// close, ioctl, lseek, and the acts of the reading and writing calls.
ghost use Rattle.std.specs.Prelude.{◌≡◌, ◌<◌, ◌-◌, ◌^◌, ◌+ℤ◌, ◌<ℤ◌, pos, ℕ};
ghost use Rattle.file_model.specs.Acts as acts;
ghost use Rattle.file_model.specs.Acts.{found, offset_error, seek_from, seek_to};
ghost use Rattle.file_model.specs.Files.{description_of, node_of};
ghost use Rattle.file_model.specs.Operations.{done};

use crate::errno::{EBADF, EINVAL, EISDIR, ENOTTY, ESPIPE, fails};
use crate::start::described;
use crate::store::FileStore;
use file_model::Target;
use mck_word::Pid;

/// Closes a descriptor.
pub fn close<S: FileStore>(files: &mut S, pid: Pid, fd: i32) -> i64
    ensures { done result (S.files files.new) ≡ acts.close (S.files files.old) pid.0 fd }
{
    if described(files, pid, fd).is_none() || fd < 0 {
        return fails(EBADF);
    }
    files.close(pid, fd as u32);
    0
}

/// No descriptor is a terminal.
pub fn ioctl<S: FileStore>(files: &S, pid: Pid, fd: i32) -> i64
    ensures { done result (S.files files.now) ≡ acts.ioctl (S.files files.now) pid.0 fd }
{
    match described(files, pid, fd) {
        None => fails(EBADF),
        Some(_) => fails(ENOTTY),
    }
}

/// Sets the offset of a description, where it is no negative number.
fn seek_to<S: FileStore>(files: &mut S, d: u32, offset: i64) -> i64
    ensures { done result (S.files files.new) ≡ seek_to (S.files files.old) d offset }
{
    if offset < 0 {
        return fails(EINVAL);
    }
    files.set_offset(d, offset as u64);
    offset
}

/// Sets the offset of a description to one that is counted from a place of the file.
fn seek_past<S: FileStore>(files: &mut S, d: u32, place: u64, offset: i64) -> i64
    requires { place < 2 ^ 63 }
    ensures { done result (S.files files.new) ≡ seek_to (S.files files.old) d (pos place +ℤ offset) }
{
    match (place as i64).checked_add(offset) {
        Some(sum) => seek_to(files, d, sum),
        None => fails(EINVAL),
    }
}

/// Moves the offset of a description of a node.
fn seek<S: FileStore>(files: &mut S, d: u32, node: u64, offset: i64, whence: i32) -> i64
    ensures { done result (S.files files.new) ≡ seek_from (S.files files.old) d (node_of (S.files files.old) node) offset whence }
{
    if whence == 0 {
        return seek_to(files, d, offset);
    }
    if files.is_directory(node) {
        return fails(EINVAL);
    }
    match whence {
        1 => seek_past(files, d, files.description(d).offset, offset),
        2 => seek_past(files, d, files.file_len(node), offset),
        _ => fails(EINVAL),
    }
}

/// Moves the offset of what a descriptor names.
pub fn lseek<S: FileStore>(files: &mut S, pid: Pid, fd: i32, offset: i64, whence: i32) -> i64
    ensures { done result (S.files files.new) ≡ acts.lseek (S.files files.old) pid.0 fd offset whence }
{
    let Some(d) = described(files, pid, fd) else {
        return fails(EBADF);
    };
    match files.description(d).target {
        Target::OfNode(node) => seek(files, d, node, offset, whence),
        _ => fails(ESPIPE),
    }
}

/// The error of an offset of the call's own.
fn offset_error(target: Target, at: Option<i64>) -> Option<u32>
    ensures { result ≡ offset_error target at }
{
    let at = at?;
    if !matches!(target, Target::OfNode(_)) {
        return Some(ESPIPE);
    }
    if at < 0 { Some(EINVAL) } else { None }
}

/// The call takes the description, where its offset and count are such as they may be.
fn take<S: FileStore>(files: &mut S, d: u32, target: Target, at: Option<i64>, count: i32) -> i64
    requires { (description_of (S.files files.old) d).calls < 2 ^ 32 - 1 }
    ensures is { done result (S.files files.new) ≡ found (S.files files.old) d target at count }
    ensures few { result <ℤ pos (2 ^ 32) }
{
    if let Some(errno) = offset_error(target, at) {
        return fails(errno);
    }
    if count < 0 || count > 16 {
        return fails(EINVAL);
    }
    files.hold(d);
    i64::from(d)
}

/// The act of a reading call.
pub fn read<S: FileStore>(files: &mut S, pid: Pid, fd: i32, at: Option<i64>, count: i32) -> i64
    requires { (d : ℕ) → (description_of (S.files files.old) d).calls < 2 ^ 32 - 1 }
    ensures is { done result (S.files files.new) ≡ acts.read_act (S.files files.old) pid.0 fd at count }
    ensures few { result <ℤ pos (2 ^ 32) }
{
    let Some(d) = described(files, pid, fd) else {
        return fails(EBADF);
    };
    let description = files.description(d);
    if !description.readable {
        return fails(EBADF);
    }
    if let Target::OfNode(node) = description.target {
        if files.is_directory(node) {
            return fails(EISDIR);
        }
    }
    take(files, d, description.target, at, count)
}

/// The act of a writing call.
pub fn write<S: FileStore>(files: &mut S, pid: Pid, fd: i32, at: Option<i64>, count: i32) -> i64
    requires { (d : ℕ) → (description_of (S.files files.old) d).calls < 2 ^ 32 - 1 }
    ensures is { done result (S.files files.new) ≡ acts.write_act (S.files files.old) pid.0 fd at count }
    ensures few { result <ℤ pos (2 ^ 32) }
{
    let Some(d) = described(files, pid, fd) else {
        return fails(EBADF);
    };
    let description = files.description(d);
    if !description.writable {
        return fails(EBADF);
    }
    take(files, d, description.target, at, count)
}
