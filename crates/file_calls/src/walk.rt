// Where a path leads in a tree.
ghost use Rattle.std.specs.Prelude.{◌≡◌, ◌≤◌, true, None, [], ◌∷◌, length, ◌==◌, ◌<◌, MatchOption, IfSome, if◌then◌else◌};
ghost use Rattle.file_model.specs.Files.{Files, node_of};
ghost use Rattle.file_model.specs.Paths.{Absent, NoPlace, child};
ghost use Rattle.file_calls.specs.Walks.{CanBeMade, place, steps, walked};

use crate::errno::{ENAMETOOLONG, ENOENT, ENOTDIR};
use crate::names::{is_dot, is_dot_dot, next_name};
use crate::store::FileStore;

/// Where a path leads: to a node, to a name that is missing in a directory that is there, or to an error.
#[derive(Clone, Copy)]
pub enum Found<'a> {
    Node(u64),
    Missing { directory: u64, name: &'a [u8] },
    Error(u32),
}

/// The first name that is not `.`, and the text behind it.
fn next_step(text: &[u8]) -> Option<(&[u8], &[u8])>
    ensures names { MatchOption result (steps text.now ≡ []) (λ r. steps text.now ≡ r.0.now ∷ steps r.1.now) }
    ensures shorter { IfSome result (λ r. length r.1.now < length text.now) }
{
    let mut rest = text;
    while let Some((name, more)) = next_name(rest) {
        if !is_dot(name) {
            return Some((name, more));
        }
        rest = more;
    }
    None
}

/// A name that is not in its directory, with the text behind it.
fn missing<'a>(directory: u64, name: &'a [u8], more: &[u8]) -> Found<'a>
    ensures makes { (files : Files) → ((node_of files directory).directory ≡ true) → (child files directory name.now ≡ None) → (length name.now ≤ 255) → CanBeMade files result }
    ensures place { place result ≡ (if length (steps more.now) == 0 then Absent directory name.now else NoPlace ENOENT) }
{
    match next_step(more) {
        None => Found::Missing { directory, name },
        Some(_) => Found::Error(ENOENT),
    }
}

/// Goes name by name from a node.
pub fn walk<'a, S: FileStore>(files: &S, from: u64, text: &'a [u8]) -> Found<'a>
    ensures makes { CanBeMade (S.files files.now) result }
    ensures place { place result ≡ walked (S.files files.now) from text.now }
{
    let mut here = from;
    let mut rest = text;
    while let Some((name, more)) = next_step(rest) {
        if name.len() > 255 {
            return Found::Error(ENAMETOOLONG);
        }
        if !files.is_directory(here) {
            return Found::Error(ENOTDIR);
        }
        if is_dot_dot(name) {
            here = files.parent(here);
        } else if let Some(node) = files.child(here, name) {
            here = node;
        } else {
            return missing(here, name, more);
        }
        rest = more;
    }
    Found::Node(here)
}
