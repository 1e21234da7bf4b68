// The parts of the one-kernel machine.
ghost use Rattle.mck_word.specs.Maps.{at};
ghost use Rattle.std.specs.Prelude.{◌≡◌, is_some};

use crate::calls::Call;
use kernel_tables::KernelTables;
use key_rows::Rows;
use mck_word::Tid;
use one_files::RowFiles;
use one_memory::PageRows;
use rv64i_user::KnownWords;
use std::alloc::Global;

/// What the kernel keeps of one process beside the node: its memory, and the calls of its threads by number.
#[derive(Drop)]
pub struct Own {
    pub(crate) memory: PageRows,
    pub(crate) calls: Rows<Call>,
}

impl Own {
    /// Whether the thread has a call.
    pub fn has_call(&self, t: Tid) -> bool
        ensures { result ≡ is_some (at self.now.calls.map t.0) }
    {
        self.calls.get(t.0 as u64).is_some()
    }
}

/// The machine: the node's tables, what is kept of each process, the files, the number of free frames, the
/// instructions that were decoded before, and the memory of a process that is to be made. Only its boot makes one, and
/// only its steps change it.
#[derive(Drop)]
pub struct One {
    pub(crate) node: KernelTables,
    pub(crate) own: Rows<Own>,
    pub(crate) files: RowFiles,
    pub(crate) free: u64,
    pub(crate) known: KnownWords,
    pub(crate) unborn: PageRows,
    pub(crate) alloc: Global,
}
