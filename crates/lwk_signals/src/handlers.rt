// What a thread has when a handler is entered.
ghost use Rattle.std.specs.Prelude.{◌≡◌, ◌≤◌, ◌<◌};
ghost use Rattle.kernel_model.specs.Signals.{frame_address, handler_mask, handler_regs, interrupted_regs};
ghost use Rattle.mck_word.specs.Words.{has_bit};

use crate::frames::FRAME_SIZE;
use crate::sets::{as_mask, union, with_signal};
use kernel_model::Action;
use mck_flags::SigSet;
use mck_word::Regs;

const SA_RESTART: u32 = 28;

const SA_NODEFER: u32 = 30;

// Where a handler returns to.
const TRAMPOLINE: u64 = 0x3f_ffff_f000;

// -EINTR as a word.
const MINUS_EINTR: u64 = 0xffff_ffff_ffff_fffc;

fn has_bit(place: u32, word: u64) -> bool
    requires { place < 64 }
    ensures { result ≡ has_bit place word }
{
    (word >> place) % 2 == 1
}

/// Where the frame of a thread with these registers stands: below its stack pointer, at a multiple of 16.
pub fn frame_address(r: &Regs) -> u64
    ensures { result ≡ frame_address r.now }
{
    r.x[2].wrapping_sub(FRAME_SIZE as u64) / 16 * 16
}

/// The registers with which a thread meets a signal: one that stands back on an interrupted ecall goes on behind it with -EINTR,
/// unless the action restarts.
pub fn interrupted_regs(back: bool, a: &Action, r: &Regs) -> Regs
    ensures { result ≡ interrupted_regs back a.now r.now }
{
    if back && !has_bit(SA_RESTART, a.flags) {
        let mut x = r.x;
        x[10] = MINUS_EINTR;
        Regs {
            pc: r.pc.wrapping_add(4),
            x,
        }
    } else {
        *r
    }
}

/// The registers with which the handler of the action begins, its frame at `sp`.
pub fn handler_regs(a: &Action, signal: u32, sp: u64, r: &Regs) -> Regs
    ensures { result ≡ handler_regs a.now signal sp r.now }
{
    let mut x = r.x;
    x[12] = 0;
    x[11] = 0;
    x[10] = signal as u64;
    x[2] = sp;
    x[1] = TRAMPOLINE;
    Regs { pc: a.handler, x }
}

/// The mask with which the handler begins: with the action's mask and, without SA_NODEFER, the signal.
pub fn handler_mask(a: &Action, signal: u32, mask: SigSet) -> SigSet
    requires least { 1 ≤ signal }
    requires most { signal ≤ 64 }
    ensures { result.0 ≡ handler_mask a.now signal mask.0 }
{
    let gained = if has_bit(SA_NODEFER, a.flags) {
        a.mask
    } else {
        with_signal(signal, a.mask)
    };
    as_mask(union(mask, gained))
}
