// What isn't as quanta saw it.

/// The first thing that isn't as quanta saw it: the registers that they began with, or the rights or the bytes of a
/// page.
#[derive(Clone, Copy, Debug, PartialEq, Eq)]
pub enum Differs {
    Regs,
    Rights(u64),
    Bytes(u64),
}
