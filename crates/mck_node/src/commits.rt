// Events that happen to a node.
ghost use Rattle.mck_node.specs.Commits.{Commits, GoesOn};

use crate::begun::Begun;
use crate::node::Node;
use hybrid_model::Event;
use mck_word::NoMemory;
use node_machine::{Machine, offer};
use run_model::Actor;

/// Why an event did not happen: it may not in this state, or memory lacks.
#[derive(Clone, Copy, Debug, PartialEq, Eq)]
pub enum Refused {
    NotNow,
    NoMemory,
}

impl From<NoMemory> for Refused {
    ghost use Rattle.mck_node.specs.declared.commits.Refused.TheVariants.{NoMemory};
    ghost use Rattle.std.specs.Prelude.{◌≡◌};

    ghost from_gives = { λ _ e. e ≡ NoMemory };

    fn from(_e: NoMemory) -> Refused {
        Refused::NoMemory
    }
}

impl<M: Machine, B: Begun> Node<M, B> {
    /// The event happens, exactly where it may and memory suffices. The answer is how many instructions it executed.
    pub fn commit(&mut self, event: &Event) -> Result<u64, Refused>
        ensures { Commits self.old event.now result self.new }
    {
        if !self.machine.may(event) {
            return Err(Refused::NotNow);
        }
        self.machine.make_room(event)?;
        self.journal.push(*event)?;
        Ok(self.machine.apply(event))
    }

    /// What the actor offers happens; none exactly where it offers nothing.
    pub fn go_on(&mut self, actor: Actor) -> Result<Option<Event>, NoMemory>
        ensures { GoesOn self.old actor result self.new }
    {
        let Some(event) = offer(&self.machine, actor) else {
            return Ok(None);
        };
        self.machine.make_room(&event)?;
        self.journal.push(event)?;
        let _executed = self.machine.apply(&event);
        Ok(Some(event))
    }
}
