// Actions and sets as the bytes that the signal calls read and store: each word with its lowest byte first.
ghost use Rattle.std.specs.Prelude.{◌≡◌, length};
ghost use Rattle.kernel_model.specs.SignalCalls.{action_bytes, action_in};
ghost use Rattle.mck_word.specs.Words.{little_endian, number_of};

use crate::frames::{put_word, word_in};
use crate::sets::as_mask;
use kernel_model::Action;
use mck_flags::SigSet;

/// How many bytes an action has.
pub const ACTION_SIZE: usize = 24;

/// How many bytes a set has.
pub const SET_SIZE: usize = 8;

/// Writes an action: its handler, its flags and its mask.
pub fn put_action(a: &Action, into: &mut [u8])
    requires { length into.old ≡ 24 }
    ensures { into.new ≡ action_bytes a.now }
{
    let (handler, rest) = into.split_at_mut(8);
    let (flags, mask) = rest.split_at_mut(8);
    put_word(handler, a.handler);
    put_word(flags, a.flags);
    put_word(mask, a.mask.0);
}

/// The action that the bytes hold, SIGKILL and SIGSTOP taken out of its mask.
pub fn action_in(from: &[u8]) -> Action
    requires { length from.now ≡ 24 }
    ensures { result ≡ action_in from.now }
{
    let (_, mask) = from.split_at(16);
    Action {
        handler: word_in(&from[..8]),
        flags: word_in(&from[8..16]),
        mask: as_mask(SigSet(word_in(mask))),
    }
}

/// Writes a set.
pub fn put_set(set: SigSet, into: &mut [u8])
    requires { length into.old ≡ 8 }
    ensures { into.new ≡ little_endian 8 set.0 }
{
    put_word(into, set.0);
}

/// The set that the bytes hold.
pub fn set_in(from: &[u8]) -> SigSet
    requires { length from.now ≡ 8 }
    ensures { result.0 ≡ number_of from.now }
{
    SigSet(word_in(from))
}
