// The call that registers name.
ghost use Rattle.kernel_model.specs.Traps.{arguments_of as arguments_in, call_named as call_in};
ghost use Rattle.std.specs.Prelude.{◌≡◌};

use mck_word::Regs;
use system_calls::{SystemCall, system_call};

/// The call that the registers name by its number: None where there is no call of that number.
pub fn call_named(regs: &Regs) -> Option<SystemCall>
    ensures { result ≡ call_in regs.now }
{
    system_call(regs.x[17])
}

/// The arguments of the call that the registers name.
pub fn arguments_of(regs: &Regs) -> [u64; 6]
    ensures { result ≡ arguments_in regs.now }
{
    [
        regs.x[10], regs.x[11], regs.x[12], regs.x[13], regs.x[14], regs.x[15],
    ]
}
