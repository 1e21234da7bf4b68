// Steps of a process on the plain store.
ghost use Rattle.file_calls.specs.FileSteps.{Allows};
ghost use Rattle.one_files.specs.Seen.{seen};

use file_calls::steps::file_step;
use file_calls::store::FileStore;
use file_model::{FileAns, FileOp};
use mck_word::{NoMemory, Pid};
use one_files::RowFiles;

/// A step of process 1, with its room.
pub fn step(files: &mut RowFiles, op: &FileOp, io: &mut [u8]) -> Result<FileAns, NoMemory>
    requires { Allows (seen files.old) op.now io.old }
{
    files.make_room(op)?;
    Ok(file_step(files, Pid(1), op, io))
}
