// The walker: one choice after another.
ghost use Rattle.hybrid_model.specs.declared.events.Event.{Event};
ghost use Rattle.ihk_parts.specs.Passing.{as_chosen, offers_of};
ghost use Rattle.ihk_parts.specs.Turns.{chosen, event_of, first_turn, turn_after};
ghost use Rattle.quiet_laws.specs.Quiet.{IsQuiet};
ghost use Rattle.rand_pcg.specs.Pcg.{pcg32};
ghost use Rattle.run_model.specs.Walks.{actors, next_by_word, next_in_turn};
ghost use Rattle.std.specs.Option.{option_map};
ghost use Rattle.std.specs.Prelude.{◌≡◌, ◌<◌, ℕ, MatchOption, Some, length, slice_get, true};
ghost use Rattle.run_model.specs.Walks.{Chosen, moved, next_choice};
ghost use Rattle.run_model.specs.Walks as walks;
ghost use Rattle.ihk_parts.specs.Turns.{turn_at, words_of};

use crate::behind::pass_behind;
use crate::passing::{Choice, pass_all};
use crate::turn::Turn;
use hybrid_model::Event;
use node_machine::Offers;
use rand_core::SeedableRng;
use rand_core::utils::NextWord;
use rand_pcg::Pcg32;
use run_model::Actor;
use std::marker::Model;

/// Who acts next, seen as the turn that it is.
#[derive(Drop)]
pub struct Walker {
    turn: Turn,
}

impl Model for Walker {
    ghost use Rattle.ihk_parts.specs.declared.turn.Turn.{Turn};

    ghost Value = { Turn };

    ghost view = { λ w. w.turn };
}

/// The turn of an order is what a walk's definition chooses by.
pub fn turns_are_choices()
    ensures { (order : ℕ) (w : walks.Walker) → chosen (turn_at order w.last w.drawn) w.pair ≡ next_choice (words_of order) w }
{}

/// After a choice it is the turn of the walk's next place.
pub fn turns_move_on()
    ensures { (order : ℕ) (w : walks.Walker) (c : Chosen) → turn_after (turn_at order w.last w.drawn) c ≡ turn_at order (moved c w).last (moved c w).drawn }
{}

// The first offer of all.
fn first<P: Offers>(machine: &P, quiet: &mut bool) -> Option<Choice>
    requires quiet { quiet.old ≡ true → IsQuiet (P.pair machine.now) }
    ensures first { option_map as_chosen result ≡ slice_get (offers_of (P.pair machine.now) (actors (P.pair machine.now))) 0 }
    ensures quiet { quiet.new ≡ true → IsQuiet (P.pair machine.now) }
{
    let mut skip = 0;
    pass_all(machine, &mut skip, quiet)
}

// The first offer behind the last that acted, else the first of all.
fn next_in_turn<P: Offers>(machine: &P, last: Option<Actor>, quiet: &mut bool) -> Option<Choice>
    requires quiet { quiet.old ≡ true → IsQuiet (P.pair machine.now) }
    ensures choice { option_map as_chosen result ≡ next_in_turn last (P.pair machine.now) }
    ensures quiet { quiet.new ≡ true → IsQuiet (P.pair machine.now) }
{
    match last {
        None => first(machine, quiet),
        Some(last) => next_behind(machine, last, quiet),
    }
}

fn next_behind<P: Offers>(machine: &P, last: Actor, quiet: &mut bool) -> Option<Choice>
    requires quiet { quiet.old ≡ true → IsQuiet (P.pair machine.now) }
    ensures choice { option_map as_chosen result ≡ next_in_turn (Some last) (P.pair machine.now) }
    ensures quiet { quiet.new ≡ true → IsQuiet (P.pair machine.now) }
{
    let mut skip = 0;
    match pass_behind(machine, last, &mut skip, quiet) {
        Some(choice) => Some(choice),
        None => first(machine, quiet),
    }
}

// How many actors there are.
fn count_actors<P: Offers>(machine: &P) -> u32
    ensures { result ≡ length (actors (P.pair machine.now)) }
{
    let processes = machine.processes().len() as u32;
    machine.cores() + processes * (machine.workers() + 2) + 1
}

// How many of them have an offer.
fn count_offers<P: Offers>(machine: &P, quiet: &mut bool) -> u32
    requires quiet { quiet.old ≡ true → IsQuiet (P.pair machine.now) }
    ensures count { result ≡ length (offers_of (P.pair machine.now) (actors (P.pair machine.now))) }
    ensures quiet { quiet.new ≡ true → IsQuiet (P.pair machine.now) }
{
    let most = count_actors(machine);
    let mut skip = most;
    match pass_all(machine, &mut skip, quiet) {
        Some(_) => unreachable!(),
        None => most - skip,
    }
}

// The offer at a place among those of all.
fn offer_at<P: Offers>(machine: &P, place: u32, quiet: &mut bool) -> Choice
    requires place { place < length (offers_of (P.pair machine.now) (actors (P.pair machine.now))) }
    requires quiet { quiet.old ≡ true → IsQuiet (P.pair machine.now) }
    ensures choice { slice_get (offers_of (P.pair machine.now) (actors (P.pair machine.now))) place ≡ Some (as_chosen result) }
    ensures quiet { quiet.new ≡ true → IsQuiet (P.pair machine.now) }
{
    let mut skip = place;
    match pass_all(machine, &mut skip, quiet) {
        Some(choice) => choice,
        None => unreachable!(),
    }
}

fn next_drawn<P: Offers>(machine: &P, generator: &mut Pcg32, quiet: &mut bool) -> Option<Choice>
    requires quiet { quiet.old ≡ true → IsQuiet (P.pair machine.now) }
    ensures choice { option_map as_chosen result ≡ next_by_word (pcg32 generator.old).0 (P.pair machine.now) }
    ensures generator { MatchOption result (generator.new ≡ generator.old) (λ _. generator.new ≡ (pcg32 generator.old).1) }
    ensures quiet { quiet.new ≡ true → IsQuiet (P.pair machine.now) }
{
    let count = count_offers(machine, quiet);
    if count == 0 {
        return None;
    }
    let word = generator.next_word();
    Some(offer_at(machine, word % count, quiet))
}

impl Walker {
    /// The walker of an order at the start of a walk. With order 0 the actors act in turn, with another one as its generator draws.
    pub fn new(order: u64) -> Walker
        ensures { result ≡ first_turn order }
    {
        let turn = if order == 0 {
            Turn::Round(None)
        } else {
            Turn::Drawn(Pcg32::seed_from_u64(order))
        };
        Walker { turn }
    }

    /// The event of the actor that acts next; none exactly where no actor has an offer, and then the walker stays as it is.
    /// `quiet` says that no process's actors have an offer: from the cores on they aren't asked then. It is noted where none has.
    pub fn next<P: Offers>(&mut self, machine: &P, quiet: &mut bool) -> Option<Event>
        requires quiet { quiet.old ≡ true → IsQuiet (P.pair machine.now) }
        ensures event { result ≡ option_map event_of (chosen self.old (P.pair machine.now)) }
        ensures turn { MatchOption (chosen self.old (P.pair machine.now)) (self.new ≡ self.old) (λ c. self.new ≡ turn_after self.old c) }
        ensures quiet { quiet.new ≡ true → IsQuiet (P.pair machine.now) }
    {
        match &mut self.turn {
            Turn::Round(last) => {
                let choice = next_in_turn(machine, *last, quiet)?;
                *last = Some(choice.actor);
                Some(choice.event)
            }
            Turn::Drawn(generator) => {
                let choice = next_drawn(machine, generator, quiet)?;
                Some(choice.event)
            }
        }
    }
}
