// The parts of the two kernels.
use file_calls::store::FileStore;
use ikc_channel::Channel;
use key_rows::Rows;
use lwk_side::{Lwk, Task};
use page_map::PageTable;
use proxy_worker::{Proxy, Turns};
use rv64i_user::KnownWords;

/// What both kernels keep of one process, and the channel between them.
#[derive(Drop)]
pub struct Side<T: PageTable> {
    pub task: Task<T>,
    pub proxy: Proxy,
    pub channel: Channel,
}

/// The parts of the two kernels: the lightweight kernel, the processes by number, the files, the turns at pipes, the
/// number of workers of each proxy, the instructions that were decoded before, and the side of the next child, where
/// it was made ready.
#[derive(Drop)]
pub struct Parts<T: PageTable, F: FileStore> {
    pub lwk: Lwk,
    pub sides: Rows<Side<T>>,
    pub files: F,
    pub turns: Turns,
    pub workers: u32,
    pub known: KnownWords,
    pub newborn: Option<Side<T>>,
}
