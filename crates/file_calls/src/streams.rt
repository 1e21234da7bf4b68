// How the pieces of streams stand.
ghost use Rattle.std.specs.Prelude.{◌≡◌, ◌-◌, ◌<◌, ◌^◌, IsNone, min, nat_le};
ghost use Rattle.file_model.specs.Files.{most_bytes_of_all_files, most_file_bytes};
ghost use Rattle.file_model.specs.Streams as streams;
ghost use Rattle.file_model.specs.Streams.{read_offset, read_ready, total_after, write_error, write_offset, write_ready};

use crate::errno::{EFBIG, ENOSPC, EPIPE};
use crate::store::FileStore;
use file_model::{Description, Readiness, Target};

pub const MOST_FILE_BYTES: u64 = 1_048_576;

const MOST_BYTES_OF_ALL_FILES: u64 = 67_108_864;

pub const MOST_CONSOLE_BYTES: u64 = 1_048_576;

pub const MOST_PIPE_BYTES: u64 = 65_536;

/// Where the next piece is read in a file, as far as a u64 tells it.
pub fn read_offset(description: Description, at: Option<u64>, moved: u32) -> u64
    requires { description.offset < 2 ^ 63 }
    ensures is { result ≡ min (read_offset description at moved) (2 ^ 64 - 1) }
    ensures own { IsNone at → result < 2 ^ 63 }
{
    match at {
        None => description.offset,
        Some(at) => at.saturating_add(u64::from(moved)),
    }
}

/// Where the next piece is written in a file, as far as a u64 tells it.
pub fn write_offset<S: FileStore>(
    files: &S,
    description: Description,
    at: Option<u64>,
    moved: u32,
) -> u64
    requires { description.offset < 2 ^ 63 }
    ensures is { result ≡ min (write_offset (S.files files.now) description at moved) (2 ^ 64 - 1) }
    ensures own { IsNone at → result < 2 ^ 63 }
{
    match at {
        Some(at) => at.saturating_add(u64::from(moved)),
        None => match description.target {
            Target::OfNode(node) if description.append => files.file_len(node),
            _ => description.offset,
        },
    }
}

fn ready_if(can_move: bool) -> Readiness
    ensures { result ≡ streams.ready_if can_move }
{
    if can_move {
        Readiness::Ready
    } else {
        Readiness::FileStep
    }
}

/// How a piece of a reading stream stands.
pub fn read_ready<S: FileStore>(files: &S, d: u32, at: Option<u64>, moved: u32) -> Readiness
    ensures { result ≡ read_ready (S.files files.now) d at moved }
{
    let description = files.description(d);
    match description.target {
        Target::OfNode(node) => ready_if(
            read_offset(description, at, moved) < files.file_len(node),
        ),
        Target::ReadEnd(pipe) => {
            if files.pipe_len(pipe) > 0 {
                return Readiness::Ready;
            }
            if files.is_open(Target::WriteEnd(pipe)) && moved == 0 {
                return Readiness::NotReady;
            }
            Readiness::FileStep
        }
        Target::WriteEnd(_) => Readiness::FileStep,
        Target::OfConsole(guest) => ready_if(files.input_len(guest) > 0),
    }
}

/// Whether the bytes of all files stay within their limit where a file gets a piece at an offset.
fn fits<S: FileStore>(files: &S, node: u64, offset: u64, len: u32) -> bool
    requires { offset < most_file_bytes }
    ensures { result ≡ nat_le (total_after (S.files files.now) node offset len) most_bytes_of_all_files }
{
    let before = files.file_len(node);
    let end = offset + u64::from(len).min(MOST_FILE_BYTES.saturating_sub(offset));
    let others = files.all_bytes().saturating_sub(before);
    others.saturating_add(before.max(end)) <= MOST_BYTES_OF_ALL_FILES
}

/// How a piece of a writing stream stands.
pub fn write_ready<S: FileStore>(
    files: &S,
    d: u32,
    at: Option<u64>,
    moved: u32,
    len: u32,
) -> Readiness
    ensures { result ≡ write_ready (S.files files.now) d at moved len }
{
    let description = files.description(d);
    match description.target {
        Target::OfNode(node) => {
            let offset = write_offset(files, description, at, moved);
            ready_if(offset < MOST_FILE_BYTES && fits(files, node, offset, len))
        }
        Target::ReadEnd(_) => Readiness::FileStep,
        Target::WriteEnd(pipe) => {
            if !files.is_open(Target::ReadEnd(pipe)) {
                return Readiness::FileStep;
            }
            if files.pipe_len(pipe) < MOST_PIPE_BYTES {
                return Readiness::Ready;
            }
            Readiness::NotReady
        }
        Target::OfConsole(guest) => ready_if(files.output_len(guest) < MOST_CONSOLE_BYTES),
    }
}

/// The error of a piece that can't move and doesn't wait.
pub fn write_error<S: FileStore>(
    files: &S,
    description: Description,
    at: Option<u64>,
    moved: u32,
) -> u32
    requires { description.offset < 2 ^ 63 }
    ensures { result ≡ write_error (S.files files.now) description at moved description.target }
{
    match description.target {
        Target::OfNode(_) if write_offset(files, description, at, moved) < MOST_FILE_BYTES =>
            ENOSPC,
        Target::OfNode(_) => EFBIG,
        Target::ReadEnd(_) | Target::WriteEnd(_) => EPIPE,
        Target::OfConsole(_) => ENOSPC,
    }
}
