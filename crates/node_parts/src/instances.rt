// The instances by their numbers.
ghost use Rattle.mck_word.specs.Maps.{and_then, at, cut, no_rows, put};
ghost use Rattle.node_parts.specs.Instances.{IsWholeWalk, WentOn};
ghost use Rattle.node_parts.specs.Partitions.{Answer, Booted, before_boot, stands};
ghost use Rattle.node_parts.specs.Slotted.{rows_turned, turned_slot, turned_slots};
ghost use Rattle.std.specs.Option.{option_map};
ghost use Rattle.std.specs.Prelude.{◌≡◌, ◌≤◌, ℕ, Err, IfOk, IsSomeAnd, MatchResult, None, Ok, OnErr, OnOk, Some};
ghost use Rattle.std.specs.Prelude.{is_some, nat_lt, replicate, true};

use crate::instance::{Instance, Released};
use crate::refusal::PartRefusal;
use mck_word::NoMemory;
use node_machine::Machine;
use std::alloc::Global;
use std::marker::Model;

// The slot of a number: none where no instance has it, and with what the instance has booted, if it has.
type Slot<M> = Option<Option<Instance<M>>>;

/// The instances, with numbers up to 8, seen as the map from them to what each has booted.
#[derive(Drop)]
pub struct Instances<M: Machine> {
    slots: Vec<Slot<M>>,
}

impl<M: Machine> Model for Instances<M> {
    ghost use Rattle.mck_word.specs.Maps.{Map};
    ghost use Rattle.mck_word.specs.Slots.{by_place};
    ghost use Rattle.node_parts.specs.Codes.{coded-instances};
    ghost use Rattle.node_parts.specs.Partitions.{Booted};
    ghost use Rattle.std.specs.Prelude.{◌≡◌, Option, length};

    ghost Value = { Map (Option Booted) };

    ghost coded = { coded-instances };

    ghost view = { λ a. by_place a.slots.items };

    ghost invariant = { λ a. length a.slots.items ≡ 9 };
}

// Slots for the numbers up to 8, all empty.
fn no_instances<M: Machine>(alloc: Global) -> Result<Vec<Slot<M>>, NoMemory>
    ensures { IfOk result (λ slots. slots.items ≡ replicate 9 None) }
{
    let mut slots = Vec::new(alloc);
    for _ in 0..9_usize {
        slots.push(None)?;
    }
    Ok(slots)
}

fn turn_one<M: Machine>(slot: &mut Slot<M>) -> Result<(), NoMemory>
    ensures ok { OnOk result (slot.new ≡ turned_slot true slot.old) }
    ensures same { OnErr result (slot.new ≡ slot.old) }
{
    match slot {
        Some(Some(instance)) => instance.turn(),
        Some(None) | None => Ok(()),
    }
}

fn turn_all<M: Machine>(slots: &mut [Slot<M>]) -> Result<(), NoMemory>
    ensures ok { OnOk result (slots.new ≡ turned_slots (λ i. true) slots.old) }
    ensures short { OnErr result ((n : ℕ) × (slots.new ≡ turned_slots (λ i. nat_lt i n) slots.old)) }
{
    for slot in slots.iter_mut() {
        turn_one(slot)?;
    }
    Ok(())
}

// Empties the slot. What was booted is first walked to its end.
fn empty<M: Machine>(slot: &mut Slot<M>) -> Result<Option<Released<M>>, PartRefusal>
    ensures none { slot.old ≡ None → (result ≡ Err PartRefusal.Unknown) × (slot.new ≡ None) }
    ensures idle { slot.old ≡ Some None → (result ≡ Ok None) × (slot.new ≡ None) }
    ensures booted { (b : Booted) → slot.old ≡ Some (Some b) → MatchResult result
        (λ released. (slot.new ≡ None) × IsSomeAnd released (λ r. IsWholeWalk b (M.pair r.machine) r.journal))
        (λ why. (why ≡ PartRefusal.NoMemory) × (c : Booted) × WentOn b c × (slot.new ≡ Some (Some c))) }
{
    let Some(booted) = slot.take() else {
        return Err(PartRefusal::Unknown);
    };
    let Some(mut instance) = booted else {
        return Ok(None);
    };
    match instance.finish() {
        Ok(()) => Ok(Some(instance.into_released())),
        Err(NoMemory) => {
            *slot = Some(Some(instance));
            Err(PartRefusal::NoMemory)
        }
    }
}

#[tactic(auto, using(mck_word::specs::Slots::slot_maps))]
impl<M: Machine> Instances<M> {
    /// No instances.
    pub fn new(alloc: Global) -> Result<Instances<M>, NoMemory>
        ensures { IfOk result (λ instances. instances ≡ no_rows) }
    {
        let slots = no_instances(alloc)?;
        Ok(Instances { slots })
    }

    /// Whether the instance is there.
    pub fn has(&self, i: u32) -> bool
        ensures { result ≡ is_some (at self.now i) }
    {
        match self.slots.get(i as usize) {
            Some(Some(_)) => true,
            _ => false,
        }
    }

    /// Whether the instance is there and isn't booted; else the definition's refusal.
    pub fn check_idle(&self, i: u32) -> Result<(), PartRefusal>
        ensures { MatchResult result (λ _. at self.now i ≡ Some None)
            (λ why. (answer : Answer) → before_boot (at self.now i) answer ≡ Err why) }
    {
        match self.slots.get(i as usize) {
            None | Some(None) => Err(PartRefusal::Unknown),
            Some(Some(Some(_))) => Err(PartRefusal::Booted),
            Some(Some(None)) => Ok(()),
        }
    }

    /// The machine of the instance, if it is booted.
    pub fn machine(&self, i: u32) -> Option<&M>
        ensures { option_map (λ machine. M.pair machine.now) result
            ≡ option_map (λ b. (stands b).pair) (and_then (at self.now i) (λ booted. booted)) }
    {
        match self.slots.get(i as usize) {
            Some(Some(Some(instance))) => Some(instance.machine()),
            _ => None,
        }
    }

    /// The instance is there, with nothing booted.
    pub fn create(&mut self, i: u32)
        requires { i ≤ 8 }
        ensures { self.new ≡ put self.old i None }
    {
        self.slots[i as usize] = Some(None);
    }

    /// The instance is there, and booted.
    pub fn boot(&mut self, i: u32, instance: Instance<M>)
        requires { i ≤ 8 }
        ensures { self.new ≡ put self.old i (Some instance) }
    {
        self.slots[i as usize] = Some(Some(instance));
    }

    /// Each booted instance goes on by one event, by number. Where memory runs out, those below some number have.
    pub fn turn(&mut self) -> Result<(), NoMemory>
        ensures ok { OnOk result (self.new ≡ rows_turned (λ i. true) self.old) }
        ensures short { OnErr result ((n : ℕ) × (self.new ≡ rows_turned (λ i. nat_lt i n) self.old)) }
    {
        turn_all(&mut self.slots)
    }

    /// Takes the instance away. A booted one is first walked to its end; where memory runs out, it stays with the
    /// events that were made.
    pub fn release(&mut self, i: u32) -> Result<Option<Released<M>>, PartRefusal>
        requires { i ≤ 8 }
        ensures none { at self.old i ≡ None → (result ≡ Err PartRefusal.Unknown) × (self.new ≡ self.old) }
        ensures idle { at self.old i ≡ Some None → (result ≡ Ok None) × (self.new ≡ cut self.old i) }
        ensures booted { (b : Booted) → at self.old i ≡ Some (Some b) → MatchResult result
            (λ released. (self.new ≡ cut self.old i)
            × IsSomeAnd released (λ r. IsWholeWalk b (M.pair r.machine) r.journal))
            (λ why. (why ≡ PartRefusal.NoMemory) × (c : Booted) × WentOn b c × (self.new ≡ put self.old i (Some c))) }
    {
        empty(&mut self.slots[i as usize])
    }
}
