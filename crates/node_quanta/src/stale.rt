// Why quanta don't happen.
use rv_quantum::Differs;

/// Why quanta don't happen: the thread may not run on the core; the limit leaves only so many instructions; or
/// something isn't as they saw it.
#[derive(Clone, Copy, Debug, PartialEq, Eq)]
pub enum Stale {
    Halted,
    Limit(u64),
    Seen(Differs),
}
