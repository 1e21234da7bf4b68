//! Signals of a node: the actions of a process, sets of signals, which signal is next, and the frame that a handler returns by.
//!
//! Promises: each call is a word of kernel_model's Signals and SignalSets: `choose` is the lowest number that is pending and not
//! masked, `push_frame` writes the 272 bytes of the frame, `pop_frame` gives back the registers and the mask that they hold. No call
//! takes memory. Actions, flags and defaults are after man-pages sections 2 (sigaction, sigreturn) and 7 (signal); the frame, the
//! order of pending signals and the signals that are ignored by default are this project's own.
#![tactic(auto)]

pub mod action_bytes;
pub mod frames;
pub mod handlers;
pub mod sets;

ghost use Rattle.std.specs.Prelude.{◌≡◌, ◌≤◌, if◌then◌else◌};
ghost use Rattle.kernel_model.specs.SignalSets.{has as set_has, without_signal as set_without};
ghost use Rattle.kernel_model.specs.Signals.{action_ignores, next_of_sets};
ghost use Rattle.lwk_signals.specs.Actions.{action_at, no_actions, signals, with_action_at};

pub use action_bytes::{ACTION_SIZE, SET_SIZE, action_in, put_action, put_set, set_in};
pub use frames::{FRAME_SIZE, pop_frame, push_frame};
pub use handlers::{frame_address, handler_mask, handler_regs, interrupted_regs};
pub use kernel_model::Action;
use mck_flags::SigSet;
pub use sets::{
    as_mask, common, has, lowest, may_be_sent, minus, new_mask, union, with_signal, without_signal,
};
use std::marker::Model;

const DEFAULT: u64 = 0;

const IGNORE: u64 = 1;

/// The actions of a process at the signals 1 to 64, seen as their list.
#[derive(Drop)]
pub struct Actions {
    actions: [Action; 64],
}

impl Model for Actions {
    ghost use Rattle.std.specs.Prelude.{List};
    ghost use Rattle.kernel_model.specs.declared.Action.{Action};

    ghost Value = { List Action };

    ghost view = { λ a. a.actions };
}

impl Actions {
    /// The default at each signal.
    pub fn new() -> Actions
        ensures { result ≡ no_actions }
    {
        let none = Action {
            handler: DEFAULT,
            flags: 0,
            mask: SigSet(0),
        };
        Actions {
            actions: [none; 64],
        }
    }

    /// The same actions, for another process.
    pub fn copied(&self) -> Actions
        ensures { result ≡ self.now }
    {
        Actions {
            actions: self.actions,
        }
    }

    /// What the process does at the signal.
    pub fn of(&self, sig: u32) -> Action
        requires least { 1 ≤ sig }
        requires most { sig ≤ signals }
        ensures { result ≡ action_at self.now sig }
    {
        self.actions[sig as usize - 1]
    }

    /// Gives the signal another action.
    pub fn set(&mut self, sig: u32, a: Action)
        requires least { 1 ≤ sig }
        requires most { sig ≤ signals }
        ensures { self.new ≡ with_action_at self.old sig a }
    {
        self.actions[sig as usize - 1] = a;
    }

    /// Whether the process ignores the signal, by its action or by default.
    pub fn ignores(&self, sig: u32) -> bool
        requires least { 1 ≤ sig }
        requires most { sig ≤ signals }
        ensures { result ≡ action_ignores sig (action_at self.now sig) }
    {
        let handler = self.of(sig).handler;
        handler == IGNORE || handler == DEFAULT && matches!(sig, 17 | 18 | 23 | 28)
    }
}

/// The next signal of a thread, of its own pending set and its process's: the lowest that isn't masked. None exactly where there
/// is none.
pub fn choose(own: SigSet, shared: SigSet, mask: SigSet) -> Option<u32>
    ensures { result ≡ next_of_sets own.0 shared.0 mask.0 }
{
    lowest(minus(union(own, shared), mask))
}

/// What is left of a thread's own pending set and of its process's when the signal is taken: it leaves the thread's own set, and the
/// process's only where it isn't in the thread's.
pub fn take_signal(signal: u32, own: SigSet, shared: SigSet) -> (SigSet, SigSet)
    requires least { 1 ≤ signal }
    requires most { signal ≤ signals }
    ensures own { result.0.0 ≡ set_without signal own.0 }
    ensures shared { result.1.0 ≡ (if set_has signal own.0 then shared.0 else set_without signal shared.0) }
{
    if has(signal, own) {
        (without_signal(signal, own), shared)
    } else {
        (own, without_signal(signal, shared))
    }
}
