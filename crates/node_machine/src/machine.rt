// What the commands ask of the two kernels.
ghost use Rattle.hybrid_model.specs.Boot.{Shortage, boot, shortage};
ghost use Rattle.hybrid_model.specs.Events.{after, may};
ghost use Rattle.hybrid_model.specs.Images.{image};
ghost use Rattle.hybrid_model.specs.Journals.{ending};
ghost use Rattle.hybrid_model.specs.Pairs.{Pair};
ghost use Rattle.hybrid_model.specs.Shown.{one};
ghost use Rattle.hybrid_model.specs.declared.events.Ending.TheVariants.{Unfinished};
ghost use Rattle.hybrid_model.specs.declared.events.Event.{Event};
ghost use Rattle.job_model.specs.Prepared.{IsPrepared};
ghost use Rattle.kernel_model.specs.Nodes.{ready_to_run, thread_of};
ghost use Rattle.node_machine.specs.Booting.{BootFails};
ghost use Rattle.node_machine.specs.Reached.{IsReached};
ghost use Rattle.node_machine.specs.Stepping.{executed, steps_of};
ghost use Rattle.run_model.specs.Reports.{requests};
ghost use Rattle.run_model.specs.Walks.{actors, first_chosen, offer};
ghost use Rattle.run_model.specs.declared.actors.Actor.{Actor};
ghost use Rattle.run_summary.specs.Summaries.{summary_of};
ghost use Rattle.std.specs.Prelude.{◌≡◌, ◌≢◌, IfOk, MatchResult, None, OnOk, Some, true};

use crate::boot_error::BootError;
use crate::offers::Offers;
use hybrid_model::{Ending, Event};
use job_model::{Image, Job};
use kernel_model::Step;
use mck_word::{NoMemory, Tid};
use run_summary::Summary;
use std::alloc::Global;

/// The two kernels of a node.
pub trait Machine: Offers + Drop {
    /// Whether room was made for the event.
    ghost has_room: { Self → Event → Type 0 };

    /// The node at the boot of a job. `NoFrames` names the first guest for which the frames don't suffice.
    fn boot(alloc: Global, job: &Job, images: &[Image]) -> Result<Self, BootError>
        requires { IsPrepared job.now images.now }
        ensures state { IfOk result (λ machine. Self.pair machine ≡ boot job.now images.now) }
        ensures frames { MatchResult result (λ _. shortage job.now images.now ≡ None) (λ e. BootFails e (shortage job.now images.now)) };

    /// Makes room for the event. The state stays, also when it is refused. An event that an actor offers may happen.
    fn make_room(&mut self, event: &Event) -> Result<(), NoMemory>
        ensures offered { (actor : Actor) → offer (Self.pair self.old) actor ≡ Some event.now → may (Self.pair self.old) event.now ≡ true }
        ensures state { Self.pair self.new ≡ Self.pair self.old }
        ensures room { OnOk result (has_room self.new event.now) };

    /// Whether the event may happen.
    fn may(&self, event: &Event) -> bool
        ensures { result ≡ may (Self.pair self.now) event.now };

    /// Whether the thread is ready to run.
    fn is_ready(&self, t: Tid) -> bool
        ensures { result ≡ ready_to_run (thread_of (Self.pair self.now).node t.0).does };

    /// The step of the one-kernel machine that the event stands for, if there is one; of a Run the step of each of its instructions.
    fn step_of(&self, event: &Event) -> Option<Step>
        ensures { image (Self.pair self.now) event.now ≡ steps_of event.now result (executed (Self.pair self.now) event.now) };

    /// The event happens. The answer is how many instructions it executed.
    fn apply(&mut self, event: &Event) -> u64
        requires may { may (Self.pair self.old) event.now ≡ true }
        requires room { has_room self.old event.now }
        ensures after { Self.pair self.new ≡ after (Self.pair self.old) event.now }
        ensures executed { result ≡ executed (Self.pair self.old) event.now };

    /// The state is one that the two kernels reach.
    fn reached(&self)
        ensures { IsReached (Self.pair self.now) };

    /// How the run stands. Where no actor has an offer, it is over.
    fn ending(&self) -> Ending
        ensures value { result ≡ ending (Self.pair self.now) }
        ensures over { first_chosen (Self.pair self.now) (actors (Self.pair self.now)) ≡ None → ending (Self.pair self.now) ≢ Unfinished };

    /// How many requests were numbered in all processes.
    fn requests(&self) -> u64
        ensures { result ≡ requests (Self.pair self.now) };

    /// What a report says of the state.
    fn summary(&self) -> Result<Summary, NoMemory>
        ensures { IfOk result (λ summary. summary ≡ summary_of (one (Self.pair self.now))) };
}
