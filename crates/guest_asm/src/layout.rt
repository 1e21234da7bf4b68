// Which operands an instruction has.

/// The operands behind an instruction's name, in the order of the text.
#[derive(Clone, Copy, Debug, PartialEq, Eq)]
pub enum Layout {
    /// None: `ecall`.
    Alone,
    /// Three registers: `add a0,a1,a2`.
    Registers,
    /// Two registers and a number: `addi a0,x0,7`.
    Immediate,
    /// A register and a place in memory: `ld a0,8(sp)`.
    Place,
    /// The register that is stored, and a place: `sd a0,8(sp)`.
    Store,
    /// Two registers and a target: `bne s1,x0,loop`.
    Branch,
    /// A register and the bits 12 to 31: `lui a1,4`.
    Upper,
    /// A register and a target: `jal ra,loop`.
    Jump,
}
