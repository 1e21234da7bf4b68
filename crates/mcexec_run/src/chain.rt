// The chain of refusals before a run.
ghost use Rattle.job_model.specs.Images.{IsImage};
ghost use Rattle.job_model.specs.Prepared.{IsPrepared};
ghost use Rattle.job_text.specs.Kept.{IsJob};
ghost use Rattle.mcexec_run.specs.Given.{Answer, Answered, RoseSomewhere, gathered_given, take_given};
ghost use Rattle.mcexec_run.specs.Chain.{Gives, IsFilled, IsRefusal, RoseAmong, image_name, names_of_job, take_all, take_file, take_guest, take_input, take_kind, take_source, IsPlaced, IsSource, images_in, images_made, nothing_fetched, gathered, has_to_fetch, prepared_job};
ghost use Rattle.job_text.specs.Order.{sources_of};
ghost use Rattle.job_text.specs.declared.order.SourceKind.TheVariants.{Guest, File, Input};
ghost use Rattle.std.specs.List.{AllByRecursion};
ghost use Rattle.mck_report.specs.declared.status.Status.TheVariants.{HostFault};
ghost use Rattle.outside.specs.Outside.{HostGoesOn, Rose, WhereTold};
ghost use Rattle.std.specs.Prelude.{◌≡◌, ◌<◌, ◌+◌, Some, IfErr, IfOk, IsErrOf, IsUtf8, List, OnOk, length};

use crate::fetches::{fetch_file, fetch_image, fetch_job};
use elf_load::Image;
use job_text::{FileLine, GuestLine, InputLine, Job, Source, SourceKind, sources};
use mck_report::Status;
use mck_word::{Bytes, Items, NoMemory};
use outside::Host;
use std::alloc::Global;

/// A job with all that was fetched for it: its files and inputs with their bytes, and one image for each guest.
#[derive(Drop)]
pub struct Prepared {
    pub job: Job,
    pub images: Items<Image>,
}

/// What was fetched for the lines of a job so far.
#[derive(Drop)]
pub struct Fetched {
    pub images: Items<Image>,
    pub files: Items<FileLine>,
    pub inputs: Items<InputLine>,
}

fn file_with(alloc: Global, line: &FileLine, bytes: Bytes) -> Result<FileLine, NoMemory>
    ensures { IfOk result (λ file. file ≡ record line.now { bytes = bytes }) }
{
    Ok(FileLine {
        line: line.line,
        path: Bytes::from_slice(alloc, line.path.as_slice())?,
        name: Bytes::from_slice(alloc, line.name.as_slice())?,
        bytes,
    })
}

fn input_with(alloc: Global, line: &InputLine, bytes: Bytes) -> Result<InputLine, NoMemory>
    ensures { IfOk result (λ input. input ≡ record line.now { bytes = bytes }) }
{
    Ok(InputLine {
        line: line.line,
        guest: line.guest,
        name: Bytes::from_slice(alloc, line.name.as_slice())?,
        bytes,
    })
}

// A guest's image is fetched.
fn take_guest<H: Host>(
    alloc: Global,
    host: &mut H,
    guest: u32,
    line: &GuestLine,
    fetched: &mut Fetched,
) -> Result<(), Status>
    requires { IsUtf8 (image_name line.now) }
    ensures goes_on { HostGoesOn H.holds H.faults host.old host.new }
    ensures refusal { IfErr result IsRefusal }
    ensures value { WhereTold (H.holds host.old) (λ held. Gives (λ _. fetched.new) result (take_guest held guest fetched.old (Some line.now))) }
    ensures given { Answered (λ held. Gives (λ _. fetched.new) result (take_guest held guest fetched.old (Some line.now))) }
    ensures fault { IsErrOf result HostFault → Rose (H.faults host.old (image_name line.now)) (H.faults host.new (image_name line.now)) }
    ensures kept { IsFilled fetched.old → IsFilled fetched.new }
    ensures count { OnOk result (length fetched.new.images ≡ length fetched.old.images + 1) }
{
    let image = fetch_image(alloc, host, guest, line)?;
    fetched.images.push(image)?;
    Ok(())
}

// A file's bytes are fetched.
fn take_file<H: Host>(
    alloc: Global,
    host: &mut H,
    line: &FileLine,
    fetched: &mut Fetched,
) -> Result<(), Status>
    requires { IsUtf8 line.now.name }
    ensures goes_on { HostGoesOn H.holds H.faults host.old host.new }
    ensures refusal { IfErr result IsRefusal }
    ensures value { WhereTold (H.holds host.old) (λ held. Gives (λ _. fetched.new) result (take_file held fetched.old (Some line.now))) }
    ensures given { Answered (λ held. Gives (λ _. fetched.new) result (take_file held fetched.old (Some line.now))) }
    ensures fault { IsErrOf result HostFault → Rose (H.faults host.old line.now.name) (H.faults host.new line.now.name) }
    ensures kept { IsFilled fetched.old → IsFilled fetched.new }
    ensures count { OnOk result (length fetched.new.images ≡ length fetched.old.images) }
{
    let bytes = fetch_file(alloc, host, line.line, line.name.as_slice())?;
    let file = file_with(alloc, line, bytes)?;
    fetched.files.push(file)?;
    Ok(())
}

// An input's bytes are fetched.
fn take_input<H: Host>(
    alloc: Global,
    host: &mut H,
    line: &InputLine,
    fetched: &mut Fetched,
) -> Result<(), Status>
    requires { IsUtf8 line.now.name }
    ensures goes_on { HostGoesOn H.holds H.faults host.old host.new }
    ensures refusal { IfErr result IsRefusal }
    ensures value { WhereTold (H.holds host.old) (λ held. Gives (λ _. fetched.new) result (take_input held fetched.old (Some line.now))) }
    ensures given { Answered (λ held. Gives (λ _. fetched.new) result (take_input held fetched.old (Some line.now))) }
    ensures fault { IsErrOf result HostFault → Rose (H.faults host.old line.now.name) (H.faults host.new line.now.name) }
    ensures kept { IsFilled fetched.old → IsFilled fetched.new }
    ensures count { OnOk result (length fetched.new.images ≡ length fetched.old.images) }
{
    let bytes = fetch_file(alloc, host, line.line, line.name.as_slice())?;
    let input = input_with(alloc, line, bytes)?;
    fetched.inputs.push(input)?;
    Ok(())
}

// The guest line at a place among those of its kind is fetched.
fn take_guest_at<H: Host>(
    alloc: Global,
    host: &mut H,
    job: &Job,
    place: usize,
    fetched: &mut Fetched,
) -> Result<(), Status>
    requires job { IsJob job.now }
    requires placed { place < length job.now.guests }
    ensures goes_on { HostGoesOn H.holds H.faults host.old host.new }
    ensures refusal { IfErr result IsRefusal }
    ensures value { WhereTold (H.holds host.old) (λ held. Gives (λ _. fetched.new) result (take_kind held job.now Guest place fetched.old)) }
    ensures given { Answered (λ held. Gives (λ _. fetched.new) result (take_kind held job.now Guest place fetched.old)) }
    ensures fault { IsErrOf result HostFault → RoseAmong H.faults host.old host.new (names_of_job job.now) }
    ensures kept { IsFilled fetched.old → IsFilled fetched.new }
    ensures count { OnOk result (length fetched.new.images ≡ length fetched.old.images + images_made Guest) }
{
    let line = &job.guests.as_slice()[place];
    take_guest(alloc, host, place as u32 + 1, line, fetched)
}

// The file line at a place among those of its kind is fetched.
fn take_file_at<H: Host>(
    alloc: Global,
    host: &mut H,
    job: &Job,
    place: usize,
    fetched: &mut Fetched,
) -> Result<(), Status>
    requires job { IsJob job.now }
    requires placed { place < length job.now.files }
    ensures goes_on { HostGoesOn H.holds H.faults host.old host.new }
    ensures refusal { IfErr result IsRefusal }
    ensures value { WhereTold (H.holds host.old) (λ held. Gives (λ _. fetched.new) result (take_kind held job.now File place fetched.old)) }
    ensures given { Answered (λ held. Gives (λ _. fetched.new) result (take_kind held job.now File place fetched.old)) }
    ensures fault { IsErrOf result HostFault → RoseAmong H.faults host.old host.new (names_of_job job.now) }
    ensures kept { IsFilled fetched.old → IsFilled fetched.new }
    ensures count { OnOk result (length fetched.new.images ≡ length fetched.old.images + images_made File) }
{
    let line = &job.files.as_slice()[place];
    take_file(alloc, host, line, fetched)
}

// The input line at a place among those of its kind is fetched.
fn take_input_at<H: Host>(
    alloc: Global,
    host: &mut H,
    job: &Job,
    place: usize,
    fetched: &mut Fetched,
) -> Result<(), Status>
    requires job { IsJob job.now }
    requires placed { place < length job.now.inputs }
    ensures goes_on { HostGoesOn H.holds H.faults host.old host.new }
    ensures refusal { IfErr result IsRefusal }
    ensures value { WhereTold (H.holds host.old) (λ held. Gives (λ _. fetched.new) result (take_kind held job.now Input place fetched.old)) }
    ensures given { Answered (λ held. Gives (λ _. fetched.new) result (take_kind held job.now Input place fetched.old)) }
    ensures fault { IsErrOf result HostFault → RoseAmong H.faults host.old host.new (names_of_job job.now) }
    ensures kept { IsFilled fetched.old → IsFilled fetched.new }
    ensures count { OnOk result (length fetched.new.images ≡ length fetched.old.images + images_made Input) }
{
    let line = &job.inputs.as_slice()[place];
    take_input(alloc, host, line, fetched)
}

// What a line of the job names is fetched.
fn take_source<H: Host>(
    alloc: Global,
    host: &mut H,
    job: &Job,
    source: &Source,
    fetched: &mut Fetched,
) -> Result<(), Status>
    requires job { IsJob job.now }
    requires placed { IsPlaced job.now source.now.kind source.now.place }
    ensures goes_on { HostGoesOn H.holds H.faults host.old host.new }
    ensures refusal { IfErr result IsRefusal }
    ensures value { WhereTold (H.holds host.old) (λ held. Gives (λ _. fetched.new) result (take_source held job.now source.now fetched.old)) }
    ensures given { Answered (λ held. Gives (λ _. fetched.new) result (take_source held job.now source.now fetched.old)) }
    ensures fault { IsErrOf result HostFault → RoseAmong H.faults host.old host.new (names_of_job job.now) }
    ensures kept { IsFilled fetched.old → IsFilled fetched.new }
    ensures count { OnOk result (length fetched.new.images ≡ length fetched.old.images + images_made source.now.kind) }
{
    match source.kind {
        SourceKind::Guest => take_guest_at(alloc, host, job, source.place, fetched),
        SourceKind::File => take_file_at(alloc, host, job, source.place, fetched),
        SourceKind::Input => take_input_at(alloc, host, job, source.place, fetched),
    }
}

// What the lines of the job name is fetched, one after another.
fn take_all<H: Host>(
    alloc: Global,
    host: &mut H,
    job: &Job,
    all: &[Source],
) -> Result<Fetched, Status>
    requires job { IsJob job.now }
    requires placed { AllByRecursion (IsSource job.now) all.now }
    ensures goes_on { HostGoesOn H.holds H.faults host.old host.new }
    ensures refusal { IfErr result IsRefusal }
    ensures value { WhereTold (H.holds host.old) (λ held. Gives (λ f. f) result (take_all held job.now all.now nothing_fetched)) }
    ensures given { (answers : List Answer) × Gives (λ f. f) result (take_given answers job.now all.now nothing_fetched) }
    ensures fault { IsErrOf result HostFault → RoseAmong H.faults host.old host.new (names_of_job job.now) }
    ensures filled { IfOk result IsFilled }
    ensures count { IfOk result (λ f. length f.images ≡ images_in all.now) }
{
    let mut fetched = Fetched {
        images: Items::new(alloc),
        files: Items::new(alloc),
        inputs: Items::new(alloc),
    };
    let mut rest = all;
    while let Some((source, more)) = rest.split_first() {
        take_source(alloc, host, job, source, &mut fetched)?;
        rest = more;
    }
    Ok(fetched)
}

// What a job that reads becomes with what was fetched for it.
fn with_fetched(job: Job, fetched: Fetched) -> Prepared
    requires job { IsJob job }
    requires filled { IsFilled fetched }
    requires count { length fetched.images ≡ images_in (sources_of job) }
    ensures value { result ≡ prepared_job job fetched }
    ensures prepared { IsPrepared result.job result.images }
{
    let Job {
        frames,
        cores,
        workers,
        rings,
        limit,
        guests,
        signals,
        files: _,
        inputs: _,
    } = job;
    let Fetched {
        images,
        files,
        inputs,
    } = fetched;
    let job = Job {
        frames,
        cores,
        workers,
        rings,
        limit,
        guests,
        signals,
        files,
        inputs,
    };
    Prepared { job, images }
}

// What the lines of the job name, in their order in the text.
fn fetch_all<H: Host>(alloc: Global, host: &mut H, job: &Job) -> Result<Fetched, Status>
    requires { IsJob job.now }
    ensures goes_on { HostGoesOn H.holds H.faults host.old host.new }
    ensures refusal { IfErr result IsRefusal }
    ensures value { WhereTold (H.holds host.old) (λ held. Gives (λ f. f) result (take_all held job.now (sources_of job.now) nothing_fetched)) }
    ensures given { (answers : List Answer) × Gives (λ f. f) result (take_given answers job.now (sources_of job.now) nothing_fetched) }
    ensures fault { IsErrOf result HostFault → RoseAmong H.faults host.old host.new (names_of_job job.now) }
    ensures filled { IfOk result IsFilled }
    ensures count { IfOk result (λ f. length f.images ≡ images_in (sources_of job.now)) }
{
    let Ok(all) = sources(alloc, job) else {
        return Err(Status::NoMemory);
    };
    take_all(alloc, host, job, all.as_slice())
}

/// The job under a name with all that its lines name, or the first refusal.
#[tactic(auto, unfolding(crate::specs::Chain::gathered))]
pub fn gather<H: Host>(alloc: Global, host: &mut H, name: &str) -> Result<Prepared, Status>
    ensures goes_on { HostGoesOn H.holds H.faults host.old host.new }
    ensures refusal { IfErr result IsRefusal }
    ensures value { WhereTold (H.holds host.old) (λ held. Gives (λ p. p) result (gathered held name.now)) }
    ensures given { (answers : List Answer) × Gives (λ p. p) result (gathered_given answers) }
    ensures fault { WhereTold (H.holds host.old) (λ held. IsErrOf result HostFault → RoseAmong H.faults host.old host.new (has_to_fetch held name.now)) }
    ensures rose { IsErrOf result HostFault → RoseSomewhere H.faults host.old host.new }
    ensures prepared { IfOk result (λ p. IsPrepared p.job p.images) }
{
    let job = fetch_job(alloc, host, name)?;
    let fetched = fetch_all(alloc, host, &job)?;
    Ok(with_fetched(job, fetched))
}
