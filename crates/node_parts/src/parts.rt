// The partitions of a node.
ghost use Rattle.job_model.specs.Prepared.{IsPrepared};
ghost use Rattle.mck_word.specs.Maps.{at};
ghost use Rattle.node_parts.specs.Instances.{IsWholeWalk};
ghost use Rattle.node_parts.specs.Keeping.{Refuses, SameSizes, SomeTurned, WentOnAt, booted_at, if_held, is_there};
ghost use Rattle.node_parts.specs.Partitions.{Answer, Booted, boot, cpu, create, mem, nothing_parted, owner_of};
ghost use Rattle.node_parts.specs.Partitions.{released, stands, turned};
ghost use Rattle.std.specs.Option.{option_map};
ghost use Rattle.std.specs.Prelude.{◌≡◌, ◌≤◌, ◌<◌, Err, IfErr, IfOk, IfSome, IsSomeAnd, MatchResult, None, Ok, OnErr};
ghost use Rattle.std.specs.Prelude.{OnOk, Some, length, true};

use crate::instance::{Instance, Released};
use crate::instances::Instances;
use crate::owners::Owners;
use crate::refusal::PartRefusal;
use job_model::{Image, Job};
use mck_word::NoMemory;
use node_machine::Machine;
use std::alloc::Global;
use std::marker::Model;

/// The partitions of a node, seen as the definition's: who has each core and each frame, and what each instance has
/// booted. Instances have the numbers from 1 to 8, and of each booted one the machine is where its walk stands.
#[derive(Drop)]
pub struct Parts<M: Machine> {
    alloc: Global,
    cores: Owners,
    frames: Owners,
    instances: Instances<M>,
}

impl<M: Machine> Model for Parts<M> {
    ghost use Rattle.node_parts.specs.Codes.{coded-partitions};
    ghost use Rattle.node_parts.specs.Keeping.{IsOwned};
    ghost use Rattle.node_parts.specs.Partitions.{Partitions};

    ghost Value = { Partitions };

    ghost coded = { coded-partitions };

    ghost view = { λ p. record { core_owners = p.cores; frame_owners = p.frames; instances = p.instances } };

    ghost invariant = { λ p.
        IsOwned (record { core_owners = p.cores; frame_owners = p.frames; instances = p.instances }) };
}

impl<M: Machine> Parts<M> {
    /// A node with so many cores and frames, and no instances.
    pub fn new(alloc: Global, cores: u32, frames: u32) -> Result<Parts<M>, NoMemory>
        requires some_cores { 1 ≤ cores }
        requires most_cores { cores ≤ 64 }
        requires some_frames { 1 ≤ frames }
        requires most_frames { frames ≤ 16_000 }
        ensures { IfOk result (λ parts. parts ≡ nothing_parted cores frames) }
    {
        Ok(Parts {
            alloc,
            cores: Owners::new(alloc, cores)?,
            frames: Owners::new(alloc, frames)?,
            instances: Instances::new(alloc)?,
        })
    }

    /// How many cores the node has.
    pub fn cores(&self) -> u32
        ensures { result ≡ length self.now.core_owners }
    {
        self.cores.len()
    }

    /// How many frames the node has.
    pub fn frames(&self) -> u32
        ensures { result ≡ length self.now.frame_owners }
    {
        self.frames.len()
    }

    /// Makes the instance, with nothing.
    pub fn create(&mut self, i: u32) -> Result<(), PartRefusal>
        requires least { 1 ≤ i }
        requires most { i ≤ 8 }
        ensures ok { OnOk result (create i self.old ≡ Ok self.new) }
        ensures refused { IfErr result (λ why. create i self.old ≡ Err why) }
        ensures same { OnErr result (self.new ≡ self.old) }
        ensures sizes { SameSizes self.old self.new }
    {
        if self.instances.has(i) {
            return Err(PartRefusal::Known);
        }
        self.instances.create(i);
        Ok(())
    }

    /// Gives the instance a core.
    pub fn cpu(&mut self, i: u32, core: u32) -> Result<(), PartRefusal>
        requires least { 1 ≤ i }
        requires most { i ≤ 8 }
        requires core { core < length self.old.core_owners }
        ensures ok { OnOk result (cpu i core self.old ≡ Ok self.new) }
        ensures refused { IfErr result (λ why. cpu i core self.old ≡ Err why) }
        ensures same { OnErr result (self.new ≡ self.old) }
        ensures sizes { SameSizes self.old self.new }
    {
        self.instances.check_idle(i)?;
        if let Some(by) = self.cores.owner(core) {
            return Err(PartRefusal::Taken { by });
        }
        self.cores.give(core, i);
        Ok(())
    }

    /// Gives the instance the n lowest free frames.
    pub fn mem(&mut self, i: u32, n: u32) -> Result<(), PartRefusal>
        requires least { 1 ≤ i }
        requires most { i ≤ 8 }
        requires some { 1 ≤ n }
        requires few { n ≤ 16_000 }
        ensures ok { OnOk result (mem i n self.old ≡ Ok self.new) }
        ensures refused { IfErr result (λ why. mem i n self.old ≡ Err why) }
        ensures same { OnErr result (self.new ≡ self.old) }
        ensures sizes { SameSizes self.old self.new }
    {
        self.instances.check_idle(i)?;
        let free = self.frames.free();
        if free < n {
            return Err(PartRefusal::Short { asked: n, free });
        }
        self.frames.give_lowest(i, n);
        Ok(())
    }

    // Whether the instance, which is there and isn't booted, has what the job asks for.
    fn check_held(&self, i: u32, job: &Job) -> Result<(), PartRefusal>
        ensures { MatchResult result (λ _. (answer : Answer) → if_held i job.now self.now answer ≡ answer)
            (λ why. (answer : Answer) → if_held i job.now self.now answer ≡ Err why) }
    {
        let cores = self.cores.held(i);
        if cores < job.cores {
            return Err(PartRefusal::Cores {
                asked: job.cores,
                held: cores,
            });
        }
        let frames = self.frames.held(i);
        if frames < job.frames {
            return Err(PartRefusal::Frames {
                asked: job.frames,
                held: frames,
            });
        }
        Ok(())
    }

    /// Boots a prepared job on the instance, for a walk of that order.
    pub fn boot(
        &mut self,
        i: u32,
        job: &Job,
        images: &[Image],
        order: u64,
    ) -> Result<(), PartRefusal>
        requires least { 1 ≤ i }
        requires most { i ≤ 8 }
        requires prepared { IsPrepared job.now images.now }
        ensures ok { OnOk result (boot i job.now images.now order self.old ≡ Ok self.new) }
        ensures refused { IfErr result (λ why. Refuses why (boot i job.now images.now order self.old)) }
        ensures same { OnErr result (self.new ≡ self.old) }
        ensures sizes { SameSizes self.old self.new }
    {
        self.instances.check_idle(i)?;
        self.check_held(i, job)?;
        let instance = Instance::boot(self.alloc, job, images, order)?;
        self.instances.boot(i, instance);
        Ok(())
    }

    /// Gives each booted instance, by number, the next event of its walk, if there is one. Where memory runs out, those
    /// below some number have had theirs.
    pub fn turn(&mut self) -> Result<(), NoMemory>
        ensures ok { OnOk result (self.new ≡ turned self.old) }
        ensures short { OnErr result (SomeTurned self.old self.new) }
        ensures sizes { SameSizes self.old self.new }
    {
        self.instances.turn()?;
        Ok(())
    }

    /// Takes the instance away, and gives its cores and frames back. A booted one is first walked to its end, and its
    /// machine and its journal are handed out; it stays, perhaps further on, where memory runs out.
    pub fn release(&mut self, i: u32) -> Result<Option<Released<M>>, PartRefusal>
        requires least { 1 ≤ i }
        requires most { i ≤ 8 }
        ensures unknown { at self.old.instances i ≡ None → (result ≡ Err PartRefusal.Unknown) × (self.new ≡ self.old) }
        ensures idle { at self.old.instances i ≡ Some None → (result ≡ Ok None) × (self.new ≡ released i self.old) }
        ensures booted { (b : Booted) → at self.old.instances i ≡ Some (Some b) → MatchResult result
            (λ gone. (self.new ≡ released i self.old)
            × IsSomeAnd gone (λ r. IsWholeWalk b (M.pair r.machine) r.journal))
            (λ why. (why ≡ PartRefusal.NoMemory) × WentOnAt i b self.old self.new) }
        ensures sizes { SameSizes self.old self.new }
    {
        let released = self.instances.release(i)?;
        self.cores.give_back(i);
        self.frames.give_back(i);
        Ok(released)
    }

    /// Who has the core: an instance that is there; none exactly where it is free.
    pub fn core_owner(&self, core: u32) -> Option<u32>
        ensures owner { result ≡ owner_of core self.now.core_owners }
        ensures there { IfSome result (λ i. is_there i self.now ≡ true) }
    {
        self.cores.owner(core)
    }

    /// Who has the frame: an instance that is there; none exactly where it is free.
    pub fn frame_owner(&self, frame: u32) -> Option<u32>
        ensures owner { result ≡ owner_of frame self.now.frame_owners }
        ensures there { IfSome result (λ i. is_there i self.now ≡ true) }
    {
        self.frames.owner(frame)
    }

    /// The machine of the instance, in the state where its walk stands; none exactly where no instance of that number
    /// is booted.
    pub fn pair(&self, i: u32) -> Option<&M>
        ensures { option_map (λ machine. M.pair machine.now) result
            ≡ option_map (λ b. (stands b).pair) (booted_at i self.now) }
    {
        self.instances.machine(i)
    }
}
