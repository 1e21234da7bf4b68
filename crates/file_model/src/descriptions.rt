// Open descriptions.

/// What a description is open on: a node of the tree, an end of a pipe, or a guest's console, each by its number.
#[derive(Clone, Copy, PartialEq, Eq, Debug)]
pub enum Target {
    OfNode(u64),
    ReadEnd(u32),
    WriteEnd(u32),
    OfConsole(u32),
}

/// An open description: shared by the descriptors that name it and by the calls that hold it.
///
/// The offset of a directory is its place, the index of its next entry. `calls` are those that hold the description.
#[derive(Clone, Copy, PartialEq, Eq, Debug)]
pub struct Description {
    pub target: Target,
    pub readable: bool,
    pub writable: bool,
    pub append: bool,
    pub offset: u64,
    pub calls: u32,
}
