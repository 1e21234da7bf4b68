// The names of instructions and registers.
ghost use Rattle.std.specs.Prelude.{◌≡◌, ◌==◌, ◌<◌, find, bytes_eq, IfSome};
ghost use Rattle.std.specs.Option.{option_copied};
ghost use Rattle.isa_model.specs.Table.{all_ops};
ghost use Rattle.guest_asm.specs.Names.{name_of, named, layout_of, abi_name, below_32, by_convention, register_of};
ghost use Rattle.mck_word.specs.Numbers.{number_of};

use crate::layout::Layout;
use mck_word::read_number;
use rv_code::Op;

static REGISTERS: [u8; 32] = [
    0, 1, 2, 3, 4, 5, 6, 7, 8, 9, 10, 11, 12, 13, 14, 15, 16, 17, 18, 19, 20, 21, 22, 23, 24, 25,
    26, 27, 28, 29, 30, 31,
];

static OPS: [Op; 52] = [
    Op::Lui,
    Op::Auipc,
    Op::Jal,
    Op::Jalr,
    Op::Beq,
    Op::Bne,
    Op::Blt,
    Op::Bge,
    Op::Bltu,
    Op::Bgeu,
    Op::Lb,
    Op::Lh,
    Op::Lw,
    Op::Ld,
    Op::Lbu,
    Op::Lhu,
    Op::Lwu,
    Op::Sb,
    Op::Sh,
    Op::Sw,
    Op::Sd,
    Op::Addi,
    Op::Slti,
    Op::Sltiu,
    Op::Xori,
    Op::Ori,
    Op::Andi,
    Op::Slli,
    Op::Srli,
    Op::Srai,
    Op::Addiw,
    Op::Slliw,
    Op::Srliw,
    Op::Sraiw,
    Op::Add,
    Op::Sub,
    Op::Sll,
    Op::Slt,
    Op::Sltu,
    Op::Xor,
    Op::Srl,
    Op::Sra,
    Op::Or,
    Op::And,
    Op::Addw,
    Op::Subw,
    Op::Sllw,
    Op::Srlw,
    Op::Sraw,
    Op::Fence,
    Op::Ecall,
    Op::Ebreak,
];

/// An instruction's name in a text.
pub fn name_of(op: Op) -> &'static [u8]
    ensures { result.now ≡ name_of op }
{
    match op {
        Op::Lui => b"lui",
        Op::Auipc => b"auipc",
        Op::Jal => b"jal",
        Op::Jalr => b"jalr",
        Op::Beq => b"beq",
        Op::Bne => b"bne",
        Op::Blt => b"blt",
        Op::Bge => b"bge",
        Op::Bltu => b"bltu",
        Op::Bgeu => b"bgeu",
        Op::Lb => b"lb",
        Op::Lh => b"lh",
        Op::Lw => b"lw",
        Op::Ld => b"ld",
        Op::Lbu => b"lbu",
        Op::Lhu => b"lhu",
        Op::Lwu => b"lwu",
        Op::Sb => b"sb",
        Op::Sh => b"sh",
        Op::Sw => b"sw",
        Op::Sd => b"sd",
        Op::Addi => b"addi",
        Op::Slti => b"slti",
        Op::Sltiu => b"sltiu",
        Op::Xori => b"xori",
        Op::Ori => b"ori",
        Op::Andi => b"andi",
        Op::Slli => b"slli",
        Op::Srli => b"srli",
        Op::Srai => b"srai",
        Op::Addiw => b"addiw",
        Op::Slliw => b"slliw",
        Op::Srliw => b"srliw",
        Op::Sraiw => b"sraiw",
        Op::Add => b"add",
        Op::Sub => b"sub",
        Op::Sll => b"sll",
        Op::Slt => b"slt",
        Op::Sltu => b"sltu",
        Op::Xor => b"xor",
        Op::Srl => b"srl",
        Op::Sra => b"sra",
        Op::Or => b"or",
        Op::And => b"and",
        Op::Addw => b"addw",
        Op::Subw => b"subw",
        Op::Sllw => b"sllw",
        Op::Srlw => b"srlw",
        Op::Sraw => b"sraw",
        Op::Fence => b"fence",
        Op::Ecall => b"ecall",
        Op::Ebreak => b"ebreak",
    }
}

fn find_op(word: &[u8]) -> Option<&'static Op>
    ensures { option_copied result ≡ find (λ op. bytes_eq (name_of op) word.now) OPS }
{
    OPS.iter().find(|op| name_of(**op) == word)
}

/// The instruction that a word names.
pub fn named(word: &[u8]) -> Option<Op>
    ensures { result ≡ named word.now }
{
    find_op(word).copied()
}

/// Which operands stand behind an instruction's name.
pub fn layout_of(op: Op) -> Layout
    ensures { result ≡ layout_of op }
{
    match op {
        Op::Fence | Op::Ecall | Op::Ebreak => Layout::Alone,
        Op::Jalr | Op::Lb | Op::Lh | Op::Lw | Op::Ld | Op::Lbu | Op::Lhu | Op::Lwu => Layout::Place,
        Op::Sb | Op::Sh | Op::Sw | Op::Sd => Layout::Store,
        Op::Beq | Op::Bne | Op::Blt | Op::Bge | Op::Bltu | Op::Bgeu => Layout::Branch,
        Op::Lui | Op::Auipc => Layout::Upper,
        Op::Jal => Layout::Jump,
        Op::Add
        | Op::Sub
        | Op::Sll
        | Op::Slt
        | Op::Sltu
        | Op::Xor
        | Op::Srl
        | Op::Sra
        | Op::Or
        | Op::And
        | Op::Addw
        | Op::Subw
        | Op::Sllw
        | Op::Srlw
        | Op::Sraw => Layout::Registers,
        _ => Layout::Immediate,
    }
}

// The names of the registers in the calling convention.
fn abi_name(register: u8) -> &'static [u8]
    ensures { result.now ≡ abi_name register }
{
    match register {
        0 => b"zero",
        1 => b"ra",
        2 => b"sp",
        3 => b"gp",
        4 => b"tp",
        5 => b"t0",
        6 => b"t1",
        7 => b"t2",
        8 => b"s0",
        9 => b"s1",
        10 => b"a0",
        11 => b"a1",
        12 => b"a2",
        13 => b"a3",
        14 => b"a4",
        15 => b"a5",
        16 => b"a6",
        17 => b"a7",
        18 => b"s2",
        19 => b"s3",
        20 => b"s4",
        21 => b"s5",
        22 => b"s6",
        23 => b"s7",
        24 => b"s8",
        25 => b"s9",
        26 => b"s10",
        27 => b"s11",
        28 => b"t3",
        29 => b"t4",
        30 => b"t5",
        31 => b"t6",
        _ => b"",
    }
}

fn find_register(word: &[u8]) -> Option<&'static u8>
    ensures { option_copied result ≡ find (λ register. bytes_eq (abi_name register) word.now) REGISTERS }
{
    REGISTERS.iter().find(|register| is_named(**register, word))
}

fn is_named(register: u8, word: &[u8]) -> bool
    ensures { result ≡ bytes_eq (abi_name register) word.now }
{
    abi_name(register) == word
}

// By its name in the calling convention.
fn by_convention(word: &[u8]) -> Option<u8>
    ensures { result ≡ by_convention word.now }
{
    if word == b"fp".as_slice() {
        return Some(8);
    }
    find_register(word).copied()
}

fn numbered(word: &[u8]) -> Option<u8>
    ensures { result ≡ below_32 (number_of word.now) }
{
    match read_number(word) {
        Some(n) if n < 32 => Some(n as u8),
        _ => None,
    }
}

/// The register that a word names: x and its number, or its name in the calling convention.
pub fn register_of(word: &[u8]) -> Option<u8>
    ensures { result ≡ register_of word.now }
{
    let (first, rest) = word.split_first()?;
    if *first == b'x' {
        numbered(rest)
    } else {
        by_convention(word)
    }
}
