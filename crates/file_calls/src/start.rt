// Where a call's path starts, and where it leads.
ghost use Rattle.std.specs.Prelude.{◌≡◌};
ghost use Rattle.file_calls.specs.Walks.{CanBeMade, place, start};
ghost use Rattle.file_model.specs.Files.{described};
ghost use Rattle.file_model.specs.Paths.{names_of, place_of, place_of_names, start_at_target, start_of};

use crate::errno::{EBADF, ENOENT, ENOTDIR};
use crate::names::{has_final_slash, starts_at_root};
use crate::store::FileStore;
use crate::walk::{Found, walk};
use file_model::Target;
use mck_word::Pid;

const ROOT: u64 = 1;

const AT_ROOT: i32 = -100;

/// The description that a descriptor of a call names.
pub fn described<S: FileStore>(files: &S, pid: Pid, fd: i32) -> Option<u32>
    ensures { result ≡ described (S.files files.now) pid.0 fd }
{
    if fd < 0 {
        return None;
    }
    files.named(pid, fd as u32)
}

/// Where a relative path starts that is given a target.
fn start_at<S: FileStore>(files: &S, target: Target) -> Result<u64, u32>
    ensures { start result ≡ start_at_target (S.files files.now) target }
{
    let Target::OfNode(node) = target else {
        return Err(ENOTDIR);
    };
    if !files.is_directory(node) {
        return Err(ENOTDIR);
    }
    if files.is_unlinked(node) {
        return Err(ENOENT);
    }
    Ok(node)
}

/// Where a path starts: at the root, or at the directory that the descriptor names.
fn start_of<S: FileStore>(files: &S, pid: Pid, dirfd: i32, text: &[u8]) -> Result<u64, u32>
    ensures { start result ≡ start_of (S.files files.now) pid.0 dirfd text.now }
{
    if starts_at_root(text) || dirfd == AT_ROOT {
        return Ok(ROOT);
    }
    let Some(d) = described(files, pid, dirfd) else {
        return Err(EBADF);
    };
    start_at(files, files.description(d).target)
}

/// Where the names of `front`, which a path begins with, lead.
#[tactic(auto, unfolding(crate::specs::Walks::walked, crate::specs::Walks::steps))]
pub fn find_front<'a, S: FileStore>(
    files: &S,
    pid: Pid,
    dirfd: i32,
    text: &[u8],
    front: &'a [u8],
) -> Found<'a>
    ensures makes { CanBeMade (S.files files.now) result }
    ensures place { place result ≡ place_of_names (S.files files.now) pid.0 dirfd text.now (names_of front.now) }
{
    match start_of(files, pid, dirfd, text) {
        Err(errno) => Found::Error(errno),
        Ok(_) if text.is_empty() => Found::Error(ENOENT),
        Ok(node) => walk(files, node, front),
    }
}

/// Where a path leads.
pub fn find<'a, S: FileStore>(files: &S, pid: Pid, dirfd: i32, text: &'a [u8]) -> Found<'a>
    ensures makes { CanBeMade (S.files files.now) result }
    ensures place { place result ≡ place_of (S.files files.now) pid.0 dirfd text.now }
{
    let found = find_front(files, pid, dirfd, text, text);
    if let Found::Node(node) = found {
        if has_final_slash(text) && !files.is_directory(node) {
            return Found::Error(ENOTDIR);
        }
    }
    found
}
