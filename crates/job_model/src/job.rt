// What a job asks for.
use mck_word::{Bytes, Items};

/// The arguments of a guest, of which the first is the name of its image.
pub type ArgList = Items<Bytes>;

/// A guest: the number of its line in the job, and its arguments.
#[derive(Drop)]
pub struct GuestLine {
    pub line: u64,
    pub args: ArgList,
}

/// A signal for a guest, once it has executed so many instructions.
#[derive(Clone, Copy, Debug, PartialEq, Eq)]
pub struct SignalLine {
    pub line: u64,
    pub guest: u32,
    pub sig: u32,
    pub after: u64,
}

/// A file of the host that is in the tree: its path, its name at the host, and its bytes once they are fetched.
#[derive(Drop)]
pub struct FileLine {
    pub line: u64,
    pub path: Bytes,
    pub name: Bytes,
    pub bytes: Bytes,
}

/// The console input of a guest: its name at the host, and its bytes once they are fetched.
#[derive(Drop)]
pub struct InputLine {
    pub line: u64,
    pub guest: u32,
    pub name: Bytes,
    pub bytes: Bytes,
}

/// The guest lines of a job in their order.
pub type GuestLines = Items<GuestLine>;

/// The signal lines of a job in their order.
pub type SignalLines = Items<SignalLine>;

/// The file lines of a job in their order.
pub type FileLines = Items<FileLine>;

/// The input lines of a job in their order.
pub type InputLines = Items<InputLine>;

/// A job: how large the node is, what its guests are, and what is done to them.
#[derive(Drop)]
pub struct Job {
    pub frames: u32,
    pub cores: u32,
    pub workers: u32,
    pub rings: u32,
    pub limit: u64,
    pub guests: GuestLines,
    pub signals: SignalLines,
    pub files: FileLines,
    pub inputs: InputLines,
}
