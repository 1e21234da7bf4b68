// A booted instance: a machine on its walk, and of what it was booted.
ghost use Rattle.hybrid_model.specs.Boot.{shortage};
ghost use Rattle.ihk_parts.specs.Turns.{words_of};
ghost use Rattle.job_model.specs.Prepared.{IsPrepared};
ghost use Rattle.node_parts.specs.Courses.{IsAtEnd};
ghost use Rattle.node_parts.specs.Instances.{IsWholeWalk, WentOn, just_booted};
ghost use Rattle.node_parts.specs.Keeping.{Refuses};
ghost use Rattle.node_parts.specs.Partitions.{Partitions, gone_on, stands, start_where};
ghost use Rattle.std.specs.Prelude.{◌≡◌, ℕ, IfErr, IfOk, None, OnErr, OnOk, map};

use crate::refusal::PartRefusal;
use crate::walk::Walk;
use hybrid_model::Event;
use job_model::{Image, Job};
use mck_word::{Items, NoMemory};
use node_machine::{BootError, Machine};
use std::alloc::Global;
use std::marker::Model;
use std::snapshot::Snapshot;
use work_laws::every_event_leaves_less;

/// What is left of an instance that was released: its machine, and the journal that led to it.
#[derive(Drop)]
pub struct Released<M: Machine> {
    pub machine: M,
    pub journal: Items<Event>,
}

/// A booted instance, seen as what it booted, the order of its walk and how many events of it were made.
#[derive(Drop)]
pub struct Instance<M: Machine> {
    walk: Walk<M>,
    job: Snapshot<Job>,
    images: Items<Snapshot<Image>>,
}

impl<M: Machine> Model for Instance<M> {
    ghost use Rattle.node_parts.specs.Codes.{coded-booted};
    ghost use Rattle.node_parts.specs.Instances.{IsOfJob};
    ghost use Rattle.node_parts.specs.Partitions.{Booted};
    ghost use Rattle.std.specs.Prelude.{map};

    ghost Value = { Booted };

    ghost coded = { coded-booted };

    ghost view = { λ a. record {
      job = a.job.value;
      images = map (λ s. s.value) a.images;
      order = a.walk.order;
      made = a.walk.made;
    } };

    ghost invariant = { λ a. IsOfJob a.job.value (map (λ s. s.value) a.images) a.walk };
}

// The images as clauses see them.
fn seen(alloc: Global, images: &[Image]) -> Result<Items<Snapshot<Image>>, NoMemory>
    ensures { IfOk result (λ seen. map (λ s. s.value) seen ≡ images.now) }
{
    let mut seen = Items::new(alloc);
    for image in images {
        seen.push(Snapshot::of(image))?;
    }
    Ok(seen)
}

impl<M: Machine> Instance<M> {
    /// The instance at the boot of a prepared job. It is refused as the definition refuses it, by the frames alone.
    pub fn boot(
        alloc: Global,
        job: &Job,
        images: &[Image],
        order: u64,
    ) -> Result<Instance<M>, PartRefusal>
        requires { IsPrepared job.now images.now }
        ensures value { IfOk result (λ instance. instance ≡ just_booted job.now images.now order) }
        ensures frames { OnOk result (shortage job.now images.now ≡ None) }
        ensures refused { (i : ℕ) (s : Partitions) → IfErr result (λ why.
            Refuses why (start_where (shortage job.now images.now) i (just_booted job.now images.now order) s)) }
    {
        let seen_images = seen(alloc, images)?;
        let machine = match M::boot(alloc, job, images) {
            Ok(machine) => machine,
            Err(
                BootError::NoFrames {
                    guest,
                    needed,
                    free,
                },
            ) => {
                return Err(PartRefusal::NoFrames {
                    guest,
                    needed,
                    free,
                });
            }
            Err(BootError::NoMemory) => return Err(PartRefusal::NoMemory),
        };
        every_event_leaves_less();
        Ok(Instance {
            walk: Walk::begin(alloc, machine, order),
            job: Snapshot::of(job),
            images: seen_images,
        })
    }

    /// The next event of its walk happens, if there is one.
    pub fn turn(&mut self) -> Result<(), NoMemory>
        ensures ok { OnOk result (self.new ≡ gone_on self.old) }
        ensures same { OnErr result (self.new ≡ self.old) }
    {
        let _more = self.walk.step()?;
        Ok(())
    }

    /// Its walk goes to its end. The events that were made stay where memory runs out.
    pub fn finish(&mut self) -> Result<(), NoMemory>
        ensures went_on { WentOn self.old self.new }
        ensures end { OnOk result (IsAtEnd (words_of self.new.order) (stands self.new)) }
    {
        self.walk.finish()
    }

    /// The machine.
    pub fn machine(&self) -> &M
        ensures { M.pair result.now ≡ (stands self.now).pair }
    {
        self.walk.machine()
    }

    /// The machine and the journal, at the end of the walk.
    pub fn into_released(self) -> Released<M>
        requires { IsAtEnd (words_of self.order) (stands self) }
        ensures { IsWholeWalk self (M.pair result.machine) result.journal }
    {
        let Instance {
            walk,
            job: _,
            images: _,
        } = self;
        let (machine, journal) = walk.into_parts();
        Released { machine, journal }
    }
}
