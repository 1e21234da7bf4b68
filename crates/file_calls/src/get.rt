// Pieces of reading streams.
ghost use Rattle.std.specs.Prelude.{◌≡◌, ◌<◌, ◌^◌, IsNone, length};
ghost use Rattle.file_calls.specs.Placed.{Gives, len_said};
ghost use Rattle.file_model.specs.Files.{description_of};
ghost use Rattle.file_model.specs.Streams as streams;
ghost use Rattle.file_model.specs.Streams.{moved_on};
ghost use Rattle.file_model.specs.declared.descriptions.Target.{Target as target};

use crate::store::FileStore;
use crate::streams::read_offset;
use file_model::Target;

/// Leaves the offset of a description behind a piece, unless the call has an offset of its own.
pub fn move_on<S: FileStore>(files: &mut S, d: u32, at: Option<u64>, end: u64)
    requires { IsNone at → end < 2 ^ 63 }
    ensures { S.files files.new ≡ moved_on d at end (S.files files.old) }
{
    if at.is_none() {
        files.set_offset(d, end);
    }
}

/// Reads a piece of a file.
fn get_file<S: FileStore>(
    files: &mut S,
    d: u32,
    at: Option<u64>,
    moved: u32,
    node: u64,
    into: &mut [u8],
) -> i64
    requires { (description_of (S.files files.old) d).target ≡ target.OfNode node }
    ensures { Gives (streams.get_piece (S.files files.old) d at moved (length into.old)) result (len_said result) into.old into.new (S.files files.new) }
{
    let offset = read_offset(files.description(d), at, moved);
    let left = files.file_len(node).saturating_sub(offset);
    let len = left.min(into.len() as u64);
    let (front, _) = into.split_at_mut(len as usize);
    files.read_file(node, offset, front);
    move_on(files, d, at, offset + len);
    len as i64
}

/// Takes a piece out of a pipe.
fn get_pipe<S: FileStore>(
    files: &mut S,
    d: u32,
    at: Option<u64>,
    moved: u32,
    pipe: u32,
    into: &mut [u8],
) -> i64
    requires { (description_of (S.files files.old) d).target ≡ target.ReadEnd pipe }
    ensures { Gives (streams.get_piece (S.files files.old) d at moved (length into.old)) result (len_said result) into.old into.new (S.files files.new) }
{
    let len = files.pipe_len(pipe).min(into.len() as u64);
    let (front, _) = into.split_at_mut(len as usize);
    files.take_pipe(pipe, front);
    len as i64
}

/// Takes a piece of a console's input.
fn get_input<S: FileStore>(
    files: &mut S,
    d: u32,
    at: Option<u64>,
    moved: u32,
    guest: u32,
    into: &mut [u8],
) -> i64
    requires { (description_of (S.files files.old) d).target ≡ target.OfConsole guest }
    ensures { Gives (streams.get_piece (S.files files.old) d at moved (length into.old)) result (len_said result) into.old into.new (S.files files.new) }
{
    let len = files.input_len(guest).min(into.len() as u64);
    let (front, _) = into.split_at_mut(len as usize);
    files.take_input(guest, front);
    len as i64
}

/// Moves a piece of a reading stream into the buffer, as many bytes as there are and fit.
pub fn get<S: FileStore>(files: &mut S, d: u32, at: Option<u64>, moved: u32, into: &mut [u8]) -> i64
    ensures { Gives (streams.get_piece (S.files files.old) d at moved (length into.old)) result (len_said result) into.old into.new (S.files files.new) }
{
    match files.description(d).target {
        Target::OfNode(node) => get_file(files, d, at, moved, node, into),
        Target::ReadEnd(pipe) => get_pipe(files, d, at, moved, pipe, into),
        Target::WriteEnd(_) => 0,
        Target::OfConsole(guest) => get_input(files, d, at, moved, guest, into),
    }
}
