// A machine beside the journal that led to it.
ghost use Rattle.hybrid_model.specs.Journals.{may_all, state};
ghost use Rattle.mck_node.specs.Histories.{Begins, begun};
ghost use Rattle.std.specs.Prelude.{◌≡◌, [], true};

use crate::begun::Begun;
use hybrid_model::Event;
use mck_word::Items;
use node_machine::Machine;
use std::alloc::Global;
use std::marker::{Model, PhantomData};

/// A machine beside the journal that led to it, seen as the state and the journal.
#[derive(Drop)]
pub struct Node<M: Machine, B: Begun> {
    pub(crate) machine: M,
    pub(crate) journal: Items<Event>,
    begun: PhantomData<B>,
}

impl<M: Machine, B: Begun> Model for Node<M, B> {
    ghost use Rattle.mck_node.specs.Codes.{coded-history};
    ghost use Rattle.mck_node.specs.Histories.{History, IsHistory};

    ghost Value = { History };

    ghost coded = { coded-history };

    ghost view = { λ n. record { pair = M.pair n.machine; journal = n.journal } };

    ghost invariant = { λ n. IsHistory B.start B.before (record { pair = M.pair n.machine; journal = n.journal }) };
}

impl<M: Machine, B: Begun> Node<M, B> {
    /// The node that begins with this machine. Can't fail.
    pub fn new(alloc: Global, machine: M) -> Self
        requires start { M.pair machine ≡ B.start }
        requires before { B.before ≡ [] }
        ensures { result ≡ begun (M.pair machine) }
    {
        Node {
            machine,
            journal: Items::new(alloc),
            begun: PhantomData,
        }
    }

    /// The machine.
    pub fn machine(&self) -> &M
        ensures { M.pair result.now ≡ self.now.pair }
    {
        &self.machine
    }

    /// The events that happened, in their order.
    pub fn journal(&self) -> &[Event]
        ensures { result.now ≡ self.now.journal }
    {
        self.journal.as_slice()
    }

    /// The machine, and the journal that led to it.
    pub fn into_parts(self) -> (M, Items<Event>)
        ensures pair { M.pair result.0 ≡ self.pair }
        ensures journal { result.1 ≡ self.journal }
        ensures legal { may_all B.start result.1 ≡ true }
        ensures state { M.pair result.0 ≡ state B.start result.1 }
        ensures goes_on { Begins B.before result.1 }
    {
        let Node {
            machine,
            journal,
            begun: _,
        } = self;
        (machine, journal)
    }
}
