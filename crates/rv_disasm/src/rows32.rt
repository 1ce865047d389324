//! The forms of 32-bit instructions: the mnemonic and the operands of each row of the listing.
ghost use Rattle.std.specs.Prelude.{◌≡◌};
ghost use Rattle.rv_disasm.specs.Forms.{form32, form_view};

use crate::form::{
    BRANCH, FENCE, Form, IMMEDIATE, JUMP, LOAD, Operands, REGISTERS, STORE, UPPER_IMMEDIATE,
};
use rv_isa::Op;

/// Returns the form of the 32-bit instruction with this name: its mnemonic and its operands.
pub(crate) fn form32(op: Op) -> Form
    ensures { form_view result ≡ form32 op }
{
    Form(mnemonic(op), operands_of_op(op))
}

// Returns which operands the 32-bit instruction with this name has, in the order in which they are written.
fn operands_of_op(op: Op) -> Operands
    ensures { result ≡ (form32 op).operands }
{
    match op {
        Op::Lui | Op::Auipc => UPPER_IMMEDIATE,
        Op::Jal => JUMP,
        Op::Jalr | Op::Lb | Op::Lh | Op::Lw | Op::Lbu | Op::Lhu => LOAD,
        Op::Beq | Op::Bne | Op::Blt | Op::Bge | Op::Bltu | Op::Bgeu => BRANCH,
        Op::Sb | Op::Sh | Op::Sw => STORE,
        Op::Addi
        | Op::Slti
        | Op::Sltiu
        | Op::Xori
        | Op::Ori
        | Op::Andi
        | Op::Slli
        | Op::Srli
        | Op::Srai => IMMEDIATE,
        Op::Add
        | Op::Sub
        | Op::Sll
        | Op::Slt
        | Op::Sltu
        | Op::Xor
        | Op::Srl
        | Op::Sra
        | Op::Or
        | Op::And
        | Op::Mul
        | Op::Mulh
        | Op::Mulhsu
        | Op::Mulhu
        | Op::Div
        | Op::Divu
        | Op::Rem
        | Op::Remu => REGISTERS,
        Op::Fence => FENCE,
        Op::FenceI | Op::Ecall | Op::Ebreak => Operands::Absent,
    }
}

// Returns the mnemonic of the 32-bit instruction with this name.
fn mnemonic(op: Op) -> &'static str
    ensures { result.now ≡ (form32 op).mnemonic }
{
    match op {
        Op::Lui => "lui",
        Op::Auipc => "auipc",
        Op::Jal => "jal",
        Op::Jalr => "jalr",
        Op::Beq => "beq",
        Op::Bne => "bne",
        Op::Blt => "blt",
        Op::Bge => "bge",
        Op::Bltu => "bltu",
        Op::Bgeu => "bgeu",
        Op::Lb => "lb",
        Op::Lh => "lh",
        Op::Lw => "lw",
        Op::Lbu => "lbu",
        Op::Lhu => "lhu",
        Op::Sb => "sb",
        Op::Sh => "sh",
        Op::Sw => "sw",
        Op::Addi => "addi",
        Op::Slti => "slti",
        Op::Sltiu => "sltiu",
        Op::Xori => "xori",
        Op::Ori => "ori",
        Op::Andi => "andi",
        Op::Slli => "slli",
        Op::Srli => "srli",
        Op::Srai => "srai",
        Op::Add => "add",
        Op::Sub => "sub",
        Op::Sll => "sll",
        Op::Slt => "slt",
        Op::Sltu => "sltu",
        Op::Xor => "xor",
        Op::Srl => "srl",
        Op::Sra => "sra",
        Op::Or => "or",
        Op::And => "and",
        Op::Fence => "fence",
        Op::FenceI => "fence.i",
        Op::Ecall => "ecall",
        Op::Ebreak => "ebreak",
        Op::Mul => "mul",
        Op::Mulh => "mulh",
        Op::Mulhsu => "mulhsu",
        Op::Mulhu => "mulhu",
        Op::Div => "div",
        Op::Divu => "divu",
        Op::Rem => "rem",
        Op::Remu => "remu",
    }
}
