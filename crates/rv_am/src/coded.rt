// An instruction.
ghost use Rattle.std.specs.Prelude.{IsTrue};
ghost use Rattle.rv_am.specs.Words.{am, is_am_code};

use isa_model::AmOp;

/// An instruction of M or an atomic one. Some word decodes to it.
///
/// `order` is bits 25 and 26 of an atomic word, which have no effect, and 0 for the others.
#[derive(Clone, Copy, Debug)]
pub struct AmIns {
    pub op: AmOp,
    pub rd: u8,
    pub rs1: u8,
    pub rs2: u8,
    pub order: u8,
    pub ghost coded: { IsTrue (is_am_code (am op rd rs1 rs2 order)) },
}
