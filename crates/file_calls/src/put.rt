// Pieces of writing streams.
ghost use Rattle.std.specs.Prelude.{◌≡◌, ◌<◌, length};
ghost use Rattle.file_calls.specs.Pieces.{HasPutRoom};
ghost use Rattle.file_model.specs.Files.{description_of, most_file_bytes};
ghost use Rattle.file_model.specs.Operations.{done};
ghost use Rattle.file_model.specs.Streams as streams;
ghost use Rattle.file_model.specs.Streams.{put_bytes, write_offset};
ghost use Rattle.file_model.specs.declared.descriptions.Target.{Target as target};
ghost use Rattle.file_model.specs.declared.operations.Readiness.{Readiness as readiness};

use crate::errno::fails;
use crate::get::move_on;
use crate::store::FileStore;
use crate::streams::{
    MOST_CONSOLE_BYTES, MOST_FILE_BYTES, MOST_PIPE_BYTES, write_error, write_offset, write_ready,
};
use file_model::{Readiness, Target};

/// Writes a piece into a file.
fn put_file<S: FileStore>(
    files: &mut S,
    d: u32,
    at: Option<u64>,
    moved: u32,
    node: u64,
    from: &[u8],
) -> i64
    requires target { (description_of (S.files files.old) d).target ≡ target.OfNode node }
    requires below { write_offset (S.files files.old) (description_of (S.files files.old) d) at moved < most_file_bytes }
    requires room { HasPutRoom (S.can_write files.old) (S.files files.old) d at moved (length from.now) }
    ensures { done result (S.files files.new) ≡ put_bytes (S.files files.old) d at moved from.now (target.OfNode node) }
{
    let offset = write_offset(files, files.description(d), at, moved);
    let len = (from.len() as u64).min(MOST_FILE_BYTES.saturating_sub(offset));
    let (front, _) = from.split_at(len as usize);
    files.write_file(node, offset, front);
    move_on(files, d, at, offset + len);
    len as i64
}

/// Adds a piece to a pipe.
fn put_pipe<S: FileStore>(
    files: &mut S,
    d: u32,
    at: Option<u64>,
    moved: u32,
    pipe: u32,
    from: &[u8],
) -> i64
    requires target { (description_of (S.files files.old) d).target ≡ target.WriteEnd pipe }
    requires room { HasPutRoom (S.can_write files.old) (S.files files.old) d at moved (length from.now) }
    ensures { done result (S.files files.new) ≡ put_bytes (S.files files.old) d at moved from.now (target.WriteEnd pipe) }
{
    let len = (from.len() as u64).min(MOST_PIPE_BYTES.saturating_sub(files.pipe_len(pipe)));
    let (front, _) = from.split_at(len as usize);
    files.add_pipe(pipe, front);
    len as i64
}

/// Adds a piece to a console's output.
fn put_output<S: FileStore>(
    files: &mut S,
    d: u32,
    at: Option<u64>,
    moved: u32,
    guest: u32,
    from: &[u8],
) -> i64
    requires target { (description_of (S.files files.old) d).target ≡ target.OfConsole guest }
    requires room { HasPutRoom (S.can_write files.old) (S.files files.old) d at moved (length from.now) }
    ensures { done result (S.files files.new) ≡ put_bytes (S.files files.old) d at moved from.now (target.OfConsole guest) }
{
    let len = (from.len() as u64).min(MOST_CONSOLE_BYTES.saturating_sub(files.output_len(guest)));
    let (front, _) = from.split_at(len as usize);
    files.add_output(guest, front);
    len as i64
}

/// Moves a piece of `len` bytes of a writing stream. Where it is ready, `from` has those bytes.
pub fn put<S: FileStore>(
    files: &mut S,
    d: u32,
    at: Option<u64>,
    moved: u32,
    len: u32,
    from: &[u8],
) -> i64
    requires whole { streams.write_ready (S.files files.old) d at moved len ≡ readiness.Ready → length from.now ≡ len }
    requires room { HasPutRoom (S.can_write files.old) (S.files files.old) d at moved len }
    ensures { done result (S.files files.new) ≡ streams.put_piece (S.files files.old) d at moved len from.now }
{
    let description = files.description(d);
    match write_ready(files, d, at, moved, len) {
        Readiness::NotReady => 0,
        Readiness::FileStep => fails(write_error(files, description, at, moved)),
        Readiness::Ready => match description.target {
            Target::OfNode(node) => put_file(files, d, at, moved, node, from),
            Target::ReadEnd(_) => 0,
            Target::WriteEnd(pipe) => put_pipe(files, d, at, moved, pipe, from),
            Target::OfConsole(guest) => put_output(files, d, at, moved, guest, from),
        },
    }
}
