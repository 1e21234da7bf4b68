// Where labels are defined.

/// The first definition of a label: its line, counted from 1, and how many words stand above it.
#[derive(Clone, Copy, Debug, PartialEq, Eq)]
pub struct Mark {
    pub line: u64,
    pub place: u64,
}
