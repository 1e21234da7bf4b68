// How a worker stands.

/// How a worker stands: what it may do next depends on that first of all.
#[derive(Clone, Copy, Debug, PartialEq, Eq)]
pub enum Stance {
    /// It has a pin.
    Pinned,
    /// It holds a request, and has no pin.
    Holding,
    /// It has no pin and holds no request: it is idle, or its request waits for a row or has ended.
    Other,
}
