// With what a node begins.
ghost use Rattle.hybrid_model.specs.Pairs.{Pair};
ghost use Rattle.hybrid_model.specs.declared.events.Event.{Event};
ghost use Rattle.mck_node.specs.Beginnings.{nowhere};
ghost use Rattle.std.specs.Prelude.{List, []};

use std::marker::Brand;

/// With what a node began, for proofs alone: its first state, and the journal that it was handed in with.
pub trait Begun {
    ghost start: { Pair };

    ghost before: { List Event };
}

impl Begun for Brand {
    ghost start = { nowhere };

    ghost before = { [] };
}
