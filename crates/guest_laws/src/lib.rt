//! What follows from the laws of the two kernels, for a reader: no ring is ever full, and the images of a journal tell its report.
//!
//! A function here has no work to do: its contract is the law. The words stand in specs/, the proofs in proofs/, one file a law.
#![tactic(auto)]

ghost use Rattle.guest_laws.specs.RingRoom.{FindsRoom, RingsFit};
ghost use Rattle.guest_laws.specs.SameReport.{EndAlike, SameButCounts};
ghost use Rattle.hybrid_model.specs.Boot.{boot};
ghost use Rattle.hybrid_model.specs.Events.{may};
ghost use Rattle.hybrid_model.specs.Globals.{Coherent};
ghost use Rattle.hybrid_model.specs.Journals.{IsLegal, IsOver, images, state};
ghost use Rattle.hybrid_model.specs.Pairs.{Pair};
ghost use Rattle.hybrid_model.specs.Shown.{one};
ghost use Rattle.hybrid_model.specs.declared.events.Event.{Event};
ghost use Rattle.job_model.specs.Prepared.{IsPrepared};
ghost use Rattle.job_model.specs.declared.image.Image.{Image};
ghost use Rattle.job_model.specs.declared.job.Job.{Job};
ghost use Rattle.run_model.specs.Reports.{report_of};
ghost use Rattle.std.specs.Prelude.{◌≡◌, true, List};

/// In a coherent state a ring to Linux has at most 49 messages and one for each worker, the ring to the lightweight kernel at most 17 and
/// one for each worker; and a ring that an event makes longer is below what a ring takes, so no post finds it full.
pub fn no_ring_is_full()
    ensures fit { (pair : Pair) → Coherent pair → RingsFit pair }
    ensures room { (pair : Pair) (e : Event) → Coherent pair → may pair e ≡ true → FindsRoom pair e }
{}

/// Two legal journals of one job whose images are the same steps show the same state at their ends. Where their endings are equal, and so
/// where both are over, their reports are the same line for line, but for the counts of requests, faults and rounds.
pub fn images_tell_the_report()
    ensures shown { (job : Job) (imgs : List Image) (j k : List Event) → IsPrepared job imgs → IsLegal job imgs j → IsLegal job imgs k
        → images (boot job imgs) j ≡ images (boot job imgs) k → one (state (boot job imgs) j) ≡ one (state (boot job imgs) k) }
    ensures report { (job : Job) (imgs : List Image) (j k : List Event) → IsPrepared job imgs → IsLegal job imgs j → IsLegal job imgs k
        → images (boot job imgs) j ≡ images (boot job imgs) k → EndAlike job imgs j k → SameButCounts (report_of job imgs j) (report_of job imgs k) }
    ensures over { (job : Job) (imgs : List Image) (j k : List Event) → IsPrepared job imgs → IsLegal job imgs j → IsLegal job imgs k
        → images (boot job imgs) j ≡ images (boot job imgs) k → IsOver (state (boot job imgs) j) × IsOver (state (boot job imgs) k)
        → SameButCounts (report_of job imgs j) (report_of job imgs k) }
{}
