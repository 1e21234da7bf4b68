// Sets of signals: a word whose bit n - 1 says whether signal n is in the set.
ghost use Rattle.std.specs.Prelude.{◌≡◌, ◌≤◌, ◌-◌, ◌^◌};
ghost use Rattle.kernel_model.specs.SignalCalls.{new_mask};
ghost use Rattle.kernel_model.specs.SignalSets.{as_mask, common, has, lowest, may_be_sent, minus, union, with_signal, without_signal};

use mck_flags::SigSet;

const SIGKILL: u32 = 9;

const SIGSTOP: u32 = 19;

fn bit_of(signal: u32) -> u64
    requires least { 1 ≤ signal }
    requires most { signal ≤ 64 }
    ensures { result ≡ 2 ^ (signal - 1) }
{
    1 << (signal - 1)
}

/// Whether the signal is in the set.
pub fn has(signal: u32, set: SigSet) -> bool
    requires least { 1 ≤ signal }
    requires most { signal ≤ 64 }
    ensures { result ≡ has signal set.0 }
{
    (set.0 >> (signal - 1)) % 2 == 1
}

/// The set with the signal.
pub fn with_signal(signal: u32, set: SigSet) -> SigSet
    requires least { 1 ≤ signal }
    requires most { signal ≤ 64 }
    ensures { result.0 ≡ with_signal signal set.0 }
{
    if has(signal, set) {
        set
    } else {
        SigSet(set.0 | bit_of(signal))
    }
}

/// The set without the signal.
pub fn without_signal(signal: u32, set: SigSet) -> SigSet
    requires least { 1 ≤ signal }
    requires most { signal ≤ 64 }
    ensures { result.0 ≡ without_signal signal set.0 }
{
    if has(signal, set) {
        SigSet(set.0 - bit_of(signal))
    } else {
        set
    }
}

/// The signals of either set.
pub fn union(a: SigSet, b: SigSet) -> SigSet
    ensures { result.0 ≡ union a.0 b.0 }
{
    SigSet(a.0 | b.0)
}

/// The signals of both sets.
pub fn common(a: SigSet, b: SigSet) -> SigSet
    ensures { result.0 ≡ common a.0 b.0 }
{
    SigSet(a.0 & b.0)
}

/// The signals of the first set that aren't in the second.
pub fn minus(a: SigSet, b: SigSet) -> SigSet
    ensures { result.0 ≡ minus a.0 b.0 }
{
    SigSet(a.0 - (a.0 & b.0))
}

/// The set as a mask, in which SIGKILL and SIGSTOP are never.
pub fn as_mask(set: SigSet) -> SigSet
    ensures { result.0 ≡ as_mask set.0 }
{
    without_signal(SIGKILL, without_signal(SIGSTOP, set))
}

/// The mask that rt_sigprocmask makes of a mask and a set: 0 adds the set, 1 takes it out, 2 puts it in the mask's place.
pub fn new_mask(how: i32, set: SigSet, mask: SigSet) -> SigSet
    ensures { result.0 ≡ new_mask how set.0 mask.0 }
{
    let changed = match how {
        0 => union(mask, set),
        1 => minus(mask, set),
        _ if how < 0 => mask,
        _ => set,
    };
    as_mask(changed)
}

/// Whether kill, tgkill and the script may send the signal: one of 1 to 64, but for 19 to 22.
pub fn may_be_sent(signal: u32) -> bool
    ensures { result ≡ may_be_sent signal }
{
    1 <= signal && signal <= 64 && !matches!(signal, 19..=22)
}

/// The lowest signal of the set: None exactly where it is empty.
pub fn lowest(set: SigSet) -> Option<u32>
    ensures { result ≡ lowest set.0 }
{
    let word = set.0;
    if word == 0 {
        None
    } else {
        Some(word.trailing_zeros() + 1)
    }
}
