// Answers, and what is read of arguments.
ghost use Rattle.kernel_model.specs.LocalCalls.{answers};
ghost use Rattle.kernel_model.specs.SignalSets.{minus};
ghost use Rattle.kernel_tables.specs.Room.{KeepsRoom};
ghost use Rattle.lwk_views.specs.Views.{DidAlone};
ghost use Rattle.mck_word.specs.Words.{has_bit};
ghost use Rattle.std.specs.Prelude.{◌≡◌, ◌<◌};

use kernel_tables::KernelTables;
use mck_word::Tid;

/// The thread gets its answer, and is Ready.
pub fn answers(node: &mut KernelTables, t: Tid, answer: i64)
    ensures did { DidAlone node.old node.new (answers t.0 answer) }
    ensures room { KeepsRoom node.old node.new }
{
    node.answered(t, answer);
}

/// Whether the bit of that place is set.
pub fn has_bit(place: u32, word: u64) -> bool
    requires { place < 64 }
    ensures { result ≡ has_bit place word }
{
    (word >> place) % 2 == 1
}

/// The bits of the first word that aren't in the second.
pub fn minus(a: u64, b: u64) -> u64
    ensures { result ≡ minus a b }
{
    a - (a & b)
}
