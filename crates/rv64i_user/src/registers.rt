// The registers, of which the first reads as zero.
ghost use Rattle.std.specs.Prelude.{◌≡◌, ◌<◌};
ghost use Rattle.isa_model.specs.Registers.{reg, with_reg, goes_on};

use mck_word::Regs;

// A register's value.
#[inline(always)]
pub fn get(r: &Regs, k: u8) -> u64
    requires { k < 32 }
    ensures { result ≡ reg r.now k }
{
    if k == 0 { 0 } else { r.x[k as usize] }
}

// Writes a register.
#[inline(always)]
pub fn set(r: &mut Regs, k: u8, v: u64)
    requires { k < 32 }
    ensures { r.new ≡ with_reg r.old k v }
{
    if k != 0 {
        r.x[k as usize] = v;
    }
}

// Goes on to the next instruction.
#[inline(always)]
pub fn advance(r: &mut Regs)
    ensures { r.new ≡ goes_on r.old }
{
    r.pc = r.pc.wrapping_add(4);
}
