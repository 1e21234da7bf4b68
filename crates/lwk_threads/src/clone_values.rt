// What a clone call asks for, by its arguments: flags, stack, parent tid, tls, child tid.
ghost use Rattle.std.specs.Prelude.{◌≡◌, ◌<◌, slice_index};
ghost use Rattle.kernel_model.specs.CloneCalls.{child_regs};
ghost use Rattle.mck_word.specs.Words.{has_bit};
ghost use Rattle.lwk_threads.specs.Threads.{clone_clear, clone_regs};

use mck_word::Regs;

const SETTLS: u32 = 19;

const CHILD_CLEARTID: u32 = 21;

/// Whether the bit of that place is set.
fn has_bit(place: u32, word: u64) -> bool
    requires { place < 64 }
    ensures { result ≡ has_bit place word }
{
    (word >> place) % 2 == 1
}

/// The registers of a thread or process that a clone call makes: its caller's, with a0 = 0, the stack pointer that is asked for where
/// it isn't 0, and the thread pointer with SETTLS.
pub fn child_registers(caller: &Regs, args: &[u64; 6]) -> Regs
    ensures { result ≡ clone_regs args.now caller.now }
{
    let mut x = caller.x;
    if has_bit(SETTLS, args[0]) {
        x[4] = args[3];
    }
    if args[1] != 0 {
        x[2] = args[1];
    }
    x[10] = 0;
    Regs { pc: caller.pc, x }
}

/// The address that is cleared when the new thread ends, or 0.
pub fn clear_of_clone(args: &[u64; 6]) -> u64
    ensures { result ≡ clone_clear args.now }
{
    if has_bit(CHILD_CLEARTID, args[0]) {
        args[4]
    } else {
        0
    }
}
