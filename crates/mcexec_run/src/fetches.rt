// One fetch, and what is read from what it brings.
ghost use Rattle.job_model.specs.Images.{IsImage};
ghost use Rattle.job_model.specs.Prepared.{most_file};
ghost use Rattle.job_text.specs.Kept.{IsJob};
ghost use Rattle.mcexec_run.specs.Chain.{Gives, IsRefusal, fetched, file_bytes, guest_image, image_name, job_at};
ghost use Rattle.mcexec_run.specs.Given.{Answered};
ghost use Rattle.mck_report.specs.declared.status.Status.TheVariants.{HostFault};
ghost use Rattle.outside.specs.Outside.{HostGoesOn, Rose, WhereTold};
ghost use Rattle.std.specs.Prelude.{◌≡◌, ◌≤◌, ◌<◌, ◌+◌, ◌^◌, [], Some, IfErr, IfOk, IsErrOf, IsUtf8, OnOk, length, slice_get, unwrap_or};

use elf_load::{ElfError, Image, load};
use job_text::{GuestLine, Job, JobError, read_job};
use mck_report::Status;
use mck_word::Bytes;
use outside::{Fetch, Host};
use std::alloc::Global;
use std::str;

/// The bytes of a name.
pub fn fetch_name<H: Host>(alloc: Global, host: &mut H, name: &[u8]) -> Result<Vec<u8>, Status>
    requires { IsUtf8 name.now }
    ensures goes_on { HostGoesOn H.holds H.faults host.old host.new }
    ensures refusal { IfErr result IsRefusal }
    ensures value { WhereTold (H.holds host.old) (λ held. Gives (λ (bytes : _). bytes.items) result (fetched (held name.now))) }
    ensures given { Answered (λ held. Gives (λ (bytes : _). bytes.items) result (fetched (held name.now))) }
    ensures fault { IsErrOf result HostFault → Rose (H.faults host.old name.now) (H.faults host.new name.now) }
{
    let mut bytes = Vec::new(alloc);
    let Ok(text) = str::from_utf8(name) else {
        return Err(Status::HostFault);
    };
    match host.fetch(text, &mut bytes) {
        Ok(()) => Ok(bytes),
        Err(Fetch::Failed) => Err(Status::HostFault),
        Err(Fetch::NoMemory) => Err(Status::NoMemory),
    }
}

fn image_name(line: &GuestLine) -> &[u8]
    ensures { result.now ≡ image_name line.now }
{
    match line.args.as_slice().first() {
        Some(name) => name.as_slice(),
        None => &[],
    }
}

/// The image of a guest: its first argument is its name.
#[tactic(auto, unfolding(crate::specs::Chain::guest_image))]
pub fn fetch_image<H: Host>(
    alloc: Global,
    host: &mut H,
    guest: u32,
    line: &GuestLine,
) -> Result<Image, Status>
    requires { IsUtf8 (image_name line.now) }
    ensures goes_on { HostGoesOn H.holds H.faults host.old host.new }
    ensures refusal { IfErr result IsRefusal }
    ensures value { WhereTold (H.holds host.old) (λ held. Gives (λ image. image) result (guest_image held guest line.now)) }
    ensures given { Answered (λ held. Gives (λ image. image) result (guest_image held guest line.now)) }
    ensures fault { IsErrOf result HostFault → Rose (H.faults host.old (image_name line.now)) (H.faults host.new (image_name line.now)) }
    ensures image { IfOk result IsImage }
{
    let bytes = fetch_name(alloc, host, image_name(line))?;
    match load(alloc, &bytes) {
        Ok(image) => Ok(image),
        Err(ElfError::Fault(why)) => Err(Status::BadElf { guest, why }),
        Err(ElfError::NoMemory) => Err(Status::NoMemory),
    }
}

/// The bytes of a file or an input of that line of the job.
#[tactic(auto, unfolding(crate::specs::Chain::file_bytes))]
pub fn fetch_file<H: Host>(
    alloc: Global,
    host: &mut H,
    line: u64,
    name: &[u8],
) -> Result<Bytes, Status>
    requires { IsUtf8 name.now }
    ensures goes_on { HostGoesOn H.holds H.faults host.old host.new }
    ensures refusal { IfErr result IsRefusal }
    ensures value { WhereTold (H.holds host.old) (λ held. Gives (λ bytes. bytes) result (file_bytes held line name.now)) }
    ensures given { Answered (λ held. Gives (λ bytes. bytes) result (file_bytes held line name.now)) }
    ensures fault { IsErrOf result HostFault → Rose (H.faults host.old name.now) (H.faults host.new name.now) }
    ensures short { IfOk result (λ bytes. length bytes ≤ most_file) }
{
    let bytes = fetch_name(alloc, host, name)?;
    if bytes.len() > 1_048_576 {
        return Err(Status::LongFile(line));
    }
    Ok(Bytes::from_vec(bytes))
}

/// The job under a name.
#[tactic(auto, unfolding(crate::specs::Chain::job_at))]
pub fn fetch_job<H: Host>(alloc: Global, host: &mut H, name: &str) -> Result<Job, Status>
    ensures goes_on { HostGoesOn H.holds H.faults host.old host.new }
    ensures refusal { IfErr result IsRefusal }
    ensures value { WhereTold (H.holds host.old) (λ held. Gives (λ job. job) result (job_at held name.now)) }
    ensures given { Answered (λ held. Gives (λ job. job) result (job_at held name.now)) }
    ensures fault { IsErrOf result HostFault → Rose (H.faults host.old name.now) (H.faults host.new name.now) }
    ensures job { IfOk result IsJob }
{
    let text = fetch_name(alloc, host, name.as_bytes())?;
    match read_job(alloc, &text) {
        Ok(job) => Ok(job),
        Err(JobError::Fault(fault)) => Err(Status::BadJob(fault)),
        Err(JobError::NoMemory) => Err(Status::NoMemory),
    }
}
