// Which events of one process are sought number by number.
use mck_word::Pid;

/// Events of one process that are told apart by the number of a worker or a ring.
#[derive(Clone, Copy, Debug, PartialEq, Eq)]
pub enum Numbered {
    Answers(Pid),
    Fetches(Pid),
    Assigns(Pid),
}
