// The acts that give bytes out: pipe2, fstat and getdents64.
ghost use Rattle.std.specs.Prelude.{◌≡◌, ◌≤◌, ◌<◌, ◌==◌, ◌&&◌, nat_lt, drop, length, min, ℕ};
ghost use Rattle.file_calls.specs.Placed.{Gives, len_said, len_with};
ghost use Rattle.file_model.specs.Acts as acts;
ghost use Rattle.file_model.specs.Acts.{all_records, list_node, stat_of_target};
ghost use Rattle.mck_word.specs.Maps.{count};

use crate::entries::{entry_at, put_entries};
use crate::errno::{EBADF, EINVAL, EMFILE, ENOENT, ENOTDIR, fails};
use crate::records::{put_number, put_stat};
use crate::start::described;
use crate::store::FileStore;
use file_model::Target;
use mck_word::Pid;

const O_CLOEXEC: u32 = 0x80000;

const MOST_DESCRIPTORS: u32 = 64;

const DIRECTORY_MODE: u32 = 0o40755;

const FILE_MODE: u32 = 0o100644;

const PIPE_MODE: u32 = 0o10600;

const CONSOLE_MODE: u32 = 0o20620;

/// Makes a pipe, and gives out the descriptors of its two ends, the read end first.
pub fn pipe2<S: FileStore>(files: &mut S, pid: Pid, flags: u32, into: &mut [u8]) -> i64
    requires pipes { 1 ≤ (S.room files.old).pipes }
    requires opens { 2 ≤ (S.room files.old).opens }
    requires bytes { length into.old ≡ 8 }
    ensures { Gives (acts.pipe2 (S.files files.old) pid.0 flags) result (len_with 8 result) into.old into.new (S.files files.new) }
{
    if flags != 0 && flags != O_CLOEXEC {
        return fails(EINVAL);
    }
    if files.descriptor_count(pid) > MOST_DESCRIPTORS - 2 {
        return fails(EMFILE);
    }
    let pipe = files.make_pipe();
    let read_end = files.open(pid, Target::ReadEnd(pipe), true, false, false);
    let write_end = files.open(pid, Target::WriteEnd(pipe), false, true, false);
    let (first, second) = into.split_at_mut(4);
    put_number(first, u64::from(read_end));
    put_number(second, u64::from(write_end));
    0
}

/// Fills the stat record of a target.
fn put_target<S: FileStore>(files: &S, target: Target, into: &mut [u8])
    requires { length into.old ≡ 128 }
    ensures { into.new ≡ stat_of_target (S.files files.now) target }
{
    match target {
        Target::OfNode(node) if files.is_directory(node) => put_stat(into, node, DIRECTORY_MODE, 0),
        Target::OfNode(node) => put_stat(into, node, FILE_MODE, files.file_len(node)),
        Target::ReadEnd(_) | Target::WriteEnd(_) => put_stat(into, 0, PIPE_MODE, 0),
        Target::OfConsole(_) => put_stat(into, 0, CONSOLE_MODE, 0),
    }
}

/// Gives out the stat record of what a descriptor names.
pub fn fstat<S: FileStore>(files: &S, pid: Pid, fd: i32, into: &mut [u8]) -> i64
    requires { length into.old ≡ 128 }
    ensures { Gives (acts.fstat (S.files files.now) pid.0 fd) result (len_with 128 result) into.old into.new (S.files files.now) }
{
    let Some(d) = described(files, pid, fd) else {
        return fails(EBADF);
    };
    put_target(files, files.description(d).target, into);
    0
}

/// Whether an entry stands at a place and none was given out.
fn is_stuck<S: FileStore>(files: &S, here: u64, place: u64, entries: u64) -> bool
    ensures { result ≡ (nat_lt 0 (length (drop place (all_records (S.files files.now) here))) && entries == 0) }
{
    entry_at(files, here, place).is_some() && entries == 0
}

/// Gives out the entries of a node from the description's place on.
fn list<S: FileStore>(files: &mut S, d: u32, node: u64, into: &mut [u8]) -> i64
    ensures { (most : ℕ) → length into.old ≡ min most 65_536 → Gives (list_node (S.files files.old) d most node) result (len_said result) into.old into.new (S.files files.new) }
{
    if !files.is_directory(node) {
        return fails(ENOTDIR);
    }
    if files.is_unlinked(node) {
        return fails(ENOENT);
    }
    let place = files.description(d).offset;
    let filled = put_entries(files, node, place, into);
    if is_stuck(files, node, place, filled.entries) {
        return fails(EINVAL);
    }
    files.set_offset(d, place + filled.entries);
    filled.bytes as i64
}

/// Gives out the entries of a directory, as many whole ones as fit.
pub fn getdents<S: FileStore>(files: &mut S, pid: Pid, fd: i32, most: u64, into: &mut [u8]) -> i64
    requires { length into.old ≡ min most 65_536 }
    ensures { Gives (acts.getdents (S.files files.old) pid.0 fd most) result (len_said result) into.old into.new (S.files files.new) }
{
    let Some(d) = described(files, pid, fd) else {
        return fails(EBADF);
    };
    match files.description(d).target {
        Target::OfNode(node) => list(files, d, node, into),
        _ => fails(ENOTDIR),
    }
}
