// What an instruction does, as one flat name.
ghost use Rattle.std.specs.Prelude.{◌≡◌};
ghost use Rattle.isa_model.specs.Kinds.{kind_of};
ghost use Rattle.rv64i_user.specs.Slots.{act_in, am_act, am_act_in, b_act, i_act, nowhere, r_act, s_act, u_act};
ghost use Rattle.rv_am.specs.Words.{am};

use isa_model::kinds::{Kind, kind_for};
use isa_model::{AmOp, Form, Op};
use rv_am::{AmIns, is_atomic};

// What a slot does. An instruction that would write register 0 has another name: a computing one is Nothing, as a fence is, the
// two that jump are Jump and JumpTo, a load is Touch, and an atomic operation Update. Other is a word that is no instruction.
#[derive(Clone, Copy, PartialEq, Eq)]
pub enum Act {
    Lui,
    Auipc,
    Jal,
    Jump,
    Jalr,
    JumpTo,
    Beq,
    Bne,
    Blt,
    Bge,
    Bltu,
    Bgeu,
    Lb,
    Lh,
    Lw,
    Ld,
    Lbu,
    Lhu,
    Lwu,
    Sb,
    Sh,
    Sw,
    Sd,
    Addi,
    Slti,
    Sltiu,
    Xori,
    Ori,
    Andi,
    Slli,
    Srli,
    Srai,
    Addiw,
    Slliw,
    Srliw,
    Sraiw,
    Add,
    Sub,
    Sll,
    Slt,
    Sltu,
    Xor,
    Srl,
    Sra,
    Or,
    And,
    Addw,
    Subw,
    Sllw,
    Srlw,
    Sraw,
    Mul,
    Mulh,
    Mulhsu,
    Mulhu,
    Div,
    Divu,
    Rem,
    Remu,
    Mulw,
    Divw,
    Divuw,
    Remw,
    Remuw,
    Amo(AmOp),
    Update(AmOp),
    Touch(Op),
    Nothing,
    Ecall,
    Ebreak,
    Other,
}

// With the fields of R.
fn act_of_r(op: Op) -> Act
    ensures { result ≡ r_act op }
{
    match op {
        Op::Add => Act::Add,
        Op::Sub => Act::Sub,
        Op::Sll => Act::Sll,
        Op::Slt => Act::Slt,
        Op::Sltu => Act::Sltu,
        Op::Xor => Act::Xor,
        Op::Srl => Act::Srl,
        Op::Sra => Act::Sra,
        Op::Or => Act::Or,
        Op::And => Act::And,
        Op::Addw => Act::Addw,
        Op::Subw => Act::Subw,
        Op::Sllw => Act::Sllw,
        Op::Srlw => Act::Srlw,
        Op::Sraw => Act::Sraw,
        _ => Act::Other,
    }
}

// With the fields of I.
fn act_of_i(op: Op) -> Act
    ensures { result ≡ i_act op }
{
    match op {
        Op::Lb => Act::Lb,
        Op::Lh => Act::Lh,
        Op::Lw => Act::Lw,
        Op::Ld => Act::Ld,
        Op::Lbu => Act::Lbu,
        Op::Lhu => Act::Lhu,
        Op::Lwu => Act::Lwu,
        Op::Addi => Act::Addi,
        Op::Slti => Act::Slti,
        Op::Sltiu => Act::Sltiu,
        Op::Xori => Act::Xori,
        Op::Ori => Act::Ori,
        Op::Andi => Act::Andi,
        Op::Slli => Act::Slli,
        Op::Srli => Act::Srli,
        Op::Srai => Act::Srai,
        Op::Addiw => Act::Addiw,
        Op::Slliw => Act::Slliw,
        Op::Srliw => Act::Srliw,
        Op::Sraiw => Act::Sraiw,
        Op::Jalr => Act::Jalr,
        Op::Fence => Act::Nothing,
        Op::Ecall => Act::Ecall,
        Op::Ebreak => Act::Ebreak,
        _ => Act::Other,
    }
}

// With the fields of S.
fn act_of_s(op: Op) -> Act
    ensures { result ≡ s_act op }
{
    match op {
        Op::Sb => Act::Sb,
        Op::Sh => Act::Sh,
        Op::Sw => Act::Sw,
        Op::Sd => Act::Sd,
        _ => Act::Other,
    }
}

// With the fields of B.
fn act_of_b(op: Op) -> Act
    ensures { result ≡ b_act op }
{
    match op {
        Op::Beq => Act::Beq,
        Op::Bne => Act::Bne,
        Op::Blt => Act::Blt,
        Op::Bge => Act::Bge,
        Op::Bltu => Act::Bltu,
        Op::Bgeu => Act::Bgeu,
        _ => Act::Other,
    }
}

// With the fields of U.
fn act_of_u(op: Op) -> Act
    ensures { result ≡ u_act op }
{
    match op {
        Op::Lui => Act::Lui,
        Op::Auipc => Act::Auipc,
        _ => Act::Other,
    }
}

// With the fields of I, where it writes register 0.
fn act_nowhere(op: Op) -> Act
    ensures { result ≡ nowhere (kind_of op) op }
{
    match kind_for(op) {
        Kind::Load => Act::Touch(op),
        Kind::Jump => Act::JumpTo,
        Kind::Nothing | Kind::Compute => Act::Nothing,
        Kind::Call => Act::Ecall,
        Kind::Break => Act::Ebreak,
    }
}

// What a form does.
pub fn act_of(form: &Form) -> Act
    ensures { result ≡ act_in form.now }
{
    match *form {
        Form::R { op, rd, .. } => { if rd == 0 { Act::Nothing } else { act_of_r(op) } }
        Form::I { op, rd, .. } => {
            if rd == 0 {
                act_nowhere(op)
            } else {
                act_of_i(op)
            }
        }
        Form::S { op, .. } => act_of_s(op),
        Form::B { op, .. } => act_of_b(op),
        Form::U { op, rd, .. } => { if rd == 0 { Act::Nothing } else { act_of_u(op) } }
        Form::J { rd, .. } => { if rd == 0 { Act::Jump } else { Act::Jal } }
    }
}

// Of M and A, where it writes a register other than 0.
fn act_of_am(op: AmOp) -> Act
    ensures { result ≡ am_act op }
{
    match op {
        AmOp::Mul => Act::Mul,
        AmOp::Mulh => Act::Mulh,
        AmOp::Mulhsu => Act::Mulhsu,
        AmOp::Mulhu => Act::Mulhu,
        AmOp::Div => Act::Div,
        AmOp::Divu => Act::Divu,
        AmOp::Rem => Act::Rem,
        AmOp::Remu => Act::Remu,
        AmOp::Mulw => Act::Mulw,
        AmOp::Divw => Act::Divw,
        AmOp::Divuw => Act::Divuw,
        AmOp::Remw => Act::Remw,
        AmOp::Remuw => Act::Remuw,
        _ => Act::Amo(op),
    }
}

// What an instruction of M or A does.
pub fn am_act_of(i: &AmIns) -> Act
    ensures { result ≡ am_act_in (am i.now.op i.now.rd i.now.rs1 i.now.rs2 i.now.order) }
{
    if i.rd != 0 {
        act_of_am(i.op)
    } else if is_atomic(i.op) {
        Act::Update(i.op)
    } else {
        Act::Nothing
    }
}
