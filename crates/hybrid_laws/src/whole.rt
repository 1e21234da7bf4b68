//! The laws of whole states and journals.

ghost use Rattle.hybrid_laws.specs.EventKinds.{is_of_linux};
ghost use Rattle.hybrid_laws.specs.Journals.{Follows};
ghost use Rattle.hybrid_laws.specs.Lasting.{Lasting};
ghost use Rattle.hybrid_model.specs.Boot.{boot, shortage};
ghost use Rattle.hybrid_model.specs.Claims.{Headline, Holds, NoAddedStall};
ghost use Rattle.hybrid_model.specs.Events.{may};
ghost use Rattle.hybrid_model.specs.Globals.{Coherent};
ghost use Rattle.hybrid_model.specs.Journals.{IsLegal, may_all};
ghost use Rattle.hybrid_model.specs.Pairs.{Pair};
ghost use Rattle.hybrid_model.specs.Shown.{one};
ghost use Rattle.hybrid_model.specs.declared.events.Event.{Event};
ghost use Rattle.job_model.specs.Prepared.{IsPrepared};
ghost use Rattle.job_model.specs.declared.image.Image.{Image};
ghost use Rattle.job_model.specs.declared.job.Job.{Job};
ghost use Rattle.kernel_model.specs.OneKernel as One;
ghost use Rattle.std.specs.Prelude.{◌≡◌, None, false, true, List};

/// The boot of a prepared job for which the frames suffice: it is coherent, and shows the boot of the one-kernel machine.
pub fn every_boot()
    ensures coherent { (job : Job) (imgs : List Image) → IsPrepared job imgs → shortage job imgs ≡ None → Coherent (boot job imgs) }
    ensures shows { (job : Job) (imgs : List Image) → IsPrepared job imgs → shortage job imgs ≡ None → one (boot job imgs) ≡ One.boot job imgs }
    ensures lasts { (job : Job) (imgs : List Image) → IsPrepared job imgs → shortage job imgs ≡ None → Lasting (boot job imgs) }
{}

/// Where no event of the two kernels may happen, no step of the one-kernel machine may: the division adds no stall. Beside coherence
/// it takes that there is a worker and that marked calls are told of, which lasts from the boot on.
pub fn no_added_stall()
    ensures { (pair : Pair) → Coherent pair → Lasting pair → NoAddedStall pair }
{}

/// Each event of the lightweight kernel that may happen in a coherent state: Run, Trap, Deliver, Intake, Answer, BeginVm, Interrupt, Wait,
/// Reap and Script.
pub fn every_lwk_event()
    ensures { (pair : Pair) (e : Event) → Coherent pair → is_of_linux e ≡ false → may pair e ≡ true → Holds pair e }
{}

/// Events one after another from a coherent state: every state is coherent, the images together are a run of the one-kernel machine, each
/// event keeps its laws, and a number is gone once its one reply is posted.
pub fn every_journal_follows()
    ensures { (journal : List Event) (pair : Pair) → Coherent pair → Lasting pair → may_all pair journal ≡ true → Follows pair journal }
{}

/// The whole claim of every legal journal of a prepared job: the two kernels begin as the one-kernel machine does, stay coherent and
/// are simulated step for step, each copy reaches the frame that the table gives, frames handed out are fresh, each request has one reply or
/// waits for ever, and no stall is added.
pub fn every_legal_journal()
    ensures { (job : Job) (imgs : List Image) (journal : List Event) → IsPrepared job imgs → IsLegal job imgs journal → Headline job imgs journal }
{}
