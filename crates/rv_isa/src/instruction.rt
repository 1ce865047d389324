//! A decoded instruction, independent of its length: its name and operands.

/// The name of an instruction of RV32IM with Zifencei, in the order of the listing of the RISC-V Unprivileged ISA 20191213 (chapter 24). A
/// 16-bit instruction of the C extension has the name of the instruction that it expands to.
#[derive(Clone, Copy, Debug, PartialEq, Eq)]
pub enum Op {
    Lui,
    Auipc,
    Jal,
    Jalr,
    Beq,
    Bne,
    Blt,
    Bge,
    Bltu,
    Bgeu,
    Lb,
    Lh,
    Lw,
    Lbu,
    Lhu,
    Sb,
    Sh,
    Sw,
    Addi,
    Slti,
    Sltiu,
    Xori,
    Ori,
    Andi,
    Slli,
    Srli,
    Srai,
    Add,
    Sub,
    Sll,
    Slt,
    Sltu,
    Xor,
    Srl,
    Sra,
    Or,
    And,
    Fence,
    FenceI,
    Ecall,
    Ebreak,
    Mul,
    Mulh,
    Mulhsu,
    Mulhu,
    Div,
    Divu,
    Rem,
    Remu,
}

/// A decoded instruction: its name and operands. Operands that its format lacks are 0.
#[derive(Clone, Copy, Debug, PartialEq, Eq)]
pub struct Instr {
    pub op: Op,
    /// The number of the destination register, below 32.
    pub rd: u8,
    /// The number of the first source register, below 32.
    pub rs1: u8,
    /// The number of the second source register, below 32.
    pub rs2: u8,
    /// The sign-extended immediate. For LUI and AUIPC, the value loaded or added, with its low 12 bits 0; for a shift by an immediate, the
    /// shift amount, from 0 to 31; for a branch or jump, the offset in bytes.
    pub imm: i32,
}
