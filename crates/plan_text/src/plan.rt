// A plan, as plain data.
use mck_word::{Bytes, Items};

/// A command behind `node`. Instances count from 1, cores from 0.
#[derive(Drop)]
pub enum PlanCommand {
    /// A new instance without cores and frames.
    Create {
        instance: u32,
    },
    /// The core goes to the instance.
    Cpu {
        instance: u32,
        core: u32,
    },
    /// So many frames go to the instance.
    Mem {
        instance: u32,
        frames: u32,
    },
    /// The instance boots the job of that name, which is then walked in that order.
    Boot {
        instance: u32,
        job: Bytes,
        order: u64,
    },
    /// Each booted instance is given so many turns.
    Turns {
        count: u32,
    },
    /// The instance gives back what it has.
    Release {
        instance: u32,
    },
}

/// A command and the number of its line.
#[derive(Drop)]
pub struct PlanLine {
    pub line: u64,
    pub command: PlanCommand,
}

/// A node of so many cores and frames, and the commands behind that.
#[derive(Drop)]
pub struct Plan {
    pub cores: u32,
    pub frames: u32,
    pub commands: Items<PlanLine>,
}
