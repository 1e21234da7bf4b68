// How a call of the program ended.
ghost use Rattle.mck_report.specs.Status.{number_of, status_of};
ghost use Rattle.std.specs.Prelude.{◌≡◌};

use elf_load::ElfFault;
use hybrid_model::Ending;
use job_text::JobFault;
use mck_word::NoMemory;

/// How a call of the program ended.
#[derive(Clone, Copy, Debug, PartialEq, Eq)]
pub enum Status {
    Done,
    Stalled,
    /// The words fit no command.
    BadWords,
    BadJob(JobFault),
    /// The image of that guest breaks a rule.
    BadElf { guest: u32, why: ElfFault },
    /// The frames don't suffice for the boot of that guest.
    NoFrames { guest: u32, needed: u64, free: u64 },
    /// The instructions reached the job's limit.
    Limit,
    HostFault,
    SinkFault,
    NoMemory,
    /// The trace's first line that is no entry or whose event may not happen there.
    BadTrace(u64),
    /// The trace is legal, and an event may still happen after it.
    Unfinished,
    /// The file of that line of the job is too long.
    LongFile(u64),
}

impl From<NoMemory> for Status {
    ghost use Rattle.mck_report.specs.declared.status.Status.TheVariants.{NoMemory};

    ghost from_gives = { λ _ e. e ≡ NoMemory };

    fn from(_e: NoMemory) -> Status {
        Status::NoMemory
    }
}

impl From<Ending> for Status {
    ghost use Rattle.mck_report.specs.Status.{status_of};

    ghost from_gives = { λ ending status. status ≡ status_of ending };

    fn from(ending: Ending) -> Status {
        match ending {
            Ending::Done => Status::Done,
            Ending::Limit => Status::Limit,
            Ending::Stalled => Status::Stalled,
            Ending::Unfinished => Status::Unfinished,
        }
    }
}

/// The number with which the program ends.
pub fn status_number(status: &Status) -> u8
    ensures { result ≡ number_of status.now }
{
    match status {
        Status::Done => 0,
        Status::Stalled => 1,
        Status::BadWords => 2,
        Status::BadJob(_) => 3,
        Status::BadElf { .. } => 4,
        Status::NoFrames { .. } => 5,
        Status::Limit => 6,
        Status::HostFault => 7,
        Status::SinkFault => 8,
        Status::NoMemory => 9,
        Status::BadTrace(_) => 10,
        Status::Unfinished => 11,
        Status::LongFile(_) => 12,
    }
}
