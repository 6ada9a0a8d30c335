//! Decoding a word, and calling a processor's function for it.

ghost use Rattle.std.specs.Prelude.{◌≡◌, ◌%◌, IfSome, IfNone};
ghost use Rattle.rrs_instruction.specs.Encodings.{Fields};
ghost use Rattle.rrs_instruction.specs.Table.{Row, Decodes, IsIllegal, IsRowAnd, IsOneRowAtMost};
ghost use Rattle.rrs_instruction.specs.Instructions.{row_of, fields_of, IsInstruction, IsHanded};

use crate::instruction::Instruction;
use crate::instruction_formats::{
    BType, IType, ITypeShamt, JType, OPCODE_AUIPC, OPCODE_BRANCH, OPCODE_JAL, OPCODE_JALR,
    OPCODE_LOAD, OPCODE_LUI, OPCODE_MISC_MEM, OPCODE_OP, OPCODE_OP_IMM, OPCODE_STORE,
    OPCODE_SYSTEM, RType, SType, UType,
};
use crate::{InstructionHandler, InstructionProcessor};

/// The instruction that a word is, or `None` where it is none of the table.
///
/// A word whose funct3 or funct7 is not the row's is an illegal instruction. `ecall` and `ebreak`
/// are one word each.
///
/// The clauses: at `Some` the word is that instruction (`decoded`), and at `None` it is no row
/// (`outside`); whichever row and fields the word is known to be, they are those of the instruction
/// (`only`).
///
/// # Examples
///
/// ```
/// let Some(Instruction::Beq(fields)) = decode(0x0020_8463) else {
///     return Err("no branch");
/// };
/// assert_eq!(rt; fields.imm, 8);
/// assert_eq!(rt; decode(0xffff_ffff), None);
/// ```
#[inline(always)]
pub fn decode(word: u32) -> Option<Instruction>
    ensures decoded { IfSome result (IsInstruction word) }
    ensures outside { IfNone result (IsIllegal word) }
    ensures only { IfSome result (λ instruction. (row : Row) (f : Fields) → Decodes word row f
        → (row ≡ row_of instruction) × (f ≡ fields_of instruction)) }
{
    process_instruction(&mut Decoder, word)
}

/// A handler that answers with the instruction.
#[derive(Drop)]
struct Decoder;

impl InstructionHandler for Decoder {
    type Answer = Instruction;

    ghost did = { λ row f old new instruction.
        (row ≡ row_of instruction) × (f ≡ fields_of instruction) };

    #[inline(always)]
    fn handle(&mut self, instruction: &Instruction) -> Instruction {
        *instruction
    }
}

/// Decodes the word `insn_bits`, and calls the processor's function for it.
///
/// The rows of the table are RV32I and the M extension; of the SYSTEM instructions, `ecall` and
/// `ebreak` alone. A word that is a row's is passed, as the decoded fields, to that row's
/// function, which is called once, and the result is `Some` of what it returns. A word is one row's
/// at most. The result is `None` exactly for illegal instructions, and the processor is then
/// unchanged.
///
/// The clauses: at `Some` the word is some row with some fields, and the processor did that
/// (`decoded`); whichever row and fields the word is known to be, it did these (`these`); at `None`
/// the word is no row (`outside`) and the processor is what it was (`unchanged`); no word is two
/// rows or has two tuples of fields (`unique`).
///
/// A word whose funct3 or funct7 is not the row's is an illegal instruction. `ecall` and `ebreak`
/// are one word each.
///
/// # Examples
///
/// ```
/// let mut outputter = InstructionStringOutputter { insn_pc: 0x100, alloc };
/// let text = process_instruction(&mut outputter, 0x0020_8463).ok_or("no row")??;
/// assert_eq!(rt; text.as_str(), "beq x1, x2, 0x00000108");
/// assert!(rt; process_instruction(&mut outputter, 0xffff_ffff).is_none());
/// ```
#[inline(always)]
pub fn process_instruction<T: InstructionProcessor>(
    processor: &mut T,
    insn_bits: u32,
) -> Option<T::InstructionResult>
    ensures decoded { IfSome result (λ answer. IsRowAnd insn_bits
        (λ row f. T.did row f processor.old processor.new answer)) }
    ensures outside { IfNone result (IsIllegal insn_bits) }
    ensures these { IfSome result (λ answer. (row : Row) (f : Fields) → Decodes insn_bits row f
        → T.did row f processor.old processor.new answer) }
    ensures unchanged { IfNone result (processor.new ≡ processor.old) }
    ensures unique { IsOneRowAtMost insn_bits }
{
    hand_opcode(processor, insn_bits)
}

/// The opcode of a word: its low seven bits.
#[inline(always)]
fn opcode_of(word: u32) -> u32
    ensures { result ≡ word % 128 }
{
    word & 0x7f
}

/// Hands a word to the function of its row, by its opcode.
#[inline(always)]
fn hand_opcode<T: InstructionProcessor>(
    processor: &mut T,
    word: u32,
) -> Option<T::InstructionResult>
    ensures { IsHanded T.did word processor.old processor.new result }
{
    match opcode_of(word) {
        OPCODE_OP => hand_op(processor, word),
        OPCODE_OP_IMM => hand_op_imm(processor, word),
        OPCODE_LUI => Some(processor.process_lui(UType::new(word))),
        OPCODE_AUIPC => Some(processor.process_auipc(UType::new(word))),
        OPCODE_BRANCH => hand_branch(processor, word),
        OPCODE_LOAD => hand_load(processor, word),
        OPCODE_STORE => hand_store(processor, word),
        OPCODE_JAL => Some(processor.process_jal(JType::new(word))),
        OPCODE_JALR => hand_jalr(processor, word),
        OPCODE_MISC_MEM => hand_misc_mem(processor, word),
        OPCODE_SYSTEM => hand_system(processor, word),
        _ => None,
    }
}

/// Hands the operation on two registers that a word is to its function, or gives `None` where it is
/// none.
#[inline(always)]
fn hand_op<T: InstructionProcessor>(processor: &mut T, word: u32) -> Option<T::InstructionResult>
    requires { word % 128 ≡ 0x33 }
    ensures { IsHanded T.did word processor.old processor.new result }
{
    let dec_insn = RType::new(word);
    match (dec_insn.funct7, dec_insn.funct3) {
        (0, 0) => Some(processor.process_add(dec_insn)),
        (0, 1) => Some(processor.process_sll(dec_insn)),
        (0, 2) => Some(processor.process_slt(dec_insn)),
        (0, 3) => Some(processor.process_sltu(dec_insn)),
        (0, 4) => Some(processor.process_xor(dec_insn)),
        (0, 5) => Some(processor.process_srl(dec_insn)),
        (0, 6) => Some(processor.process_or(dec_insn)),
        (0, 7) => Some(processor.process_and(dec_insn)),
        (0x20, 0) => Some(processor.process_sub(dec_insn)),
        (0x20, 5) => Some(processor.process_sra(dec_insn)),
        (1, 0) => Some(processor.process_mul(dec_insn)),
        (1, 1) => Some(processor.process_mulh(dec_insn)),
        (1, 2) => Some(processor.process_mulhsu(dec_insn)),
        (1, 3) => Some(processor.process_mulhu(dec_insn)),
        (1, 4) => Some(processor.process_div(dec_insn)),
        (1, 5) => Some(processor.process_divu(dec_insn)),
        (1, 6) => Some(processor.process_rem(dec_insn)),
        (1, 7) => Some(processor.process_remu(dec_insn)),
        _ => None,
    }
}

/// Hands the operation on a register and an immediate that a word is to its function, or gives
/// `None` where it is none.
#[inline(always)]
fn hand_op_imm<T: InstructionProcessor>(
    processor: &mut T,
    word: u32,
) -> Option<T::InstructionResult>
    requires { word % 128 ≡ 0x13 }
    ensures { IsHanded T.did word processor.old processor.new result }
{
    let dec_insn = IType::new(word);
    match dec_insn.funct3 {
        0 => Some(processor.process_addi(dec_insn)),
        1 => {
            let dec_insn = ITypeShamt::new(word);
            match dec_insn.funct7 {
                0 => Some(processor.process_slli(dec_insn)),
                _ => None,
            }
        }
        2 => Some(processor.process_slti(dec_insn)),
        3 => Some(processor.process_sltui(dec_insn)),
        4 => Some(processor.process_xori(dec_insn)),
        5 => {
            let dec_insn = ITypeShamt::new(word);
            match dec_insn.funct7 {
                0 => Some(processor.process_srli(dec_insn)),
                0x20 => Some(processor.process_srai(dec_insn)),
                _ => None,
            }
        }
        6 => Some(processor.process_ori(dec_insn)),
        7 => Some(processor.process_andi(dec_insn)),
        _ => None,
    }
}

/// Hands the branch that a word is to its function, or gives `None` where it is none.
#[inline(always)]
fn hand_branch<T: InstructionProcessor>(
    processor: &mut T,
    word: u32,
) -> Option<T::InstructionResult>
    requires { word % 128 ≡ 0x63 }
    ensures { IsHanded T.did word processor.old processor.new result }
{
    let dec_insn = BType::new(word);
    match dec_insn.funct3 {
        0 => Some(processor.process_beq(dec_insn)),
        1 => Some(processor.process_bne(dec_insn)),
        4 => Some(processor.process_blt(dec_insn)),
        5 => Some(processor.process_bge(dec_insn)),
        6 => Some(processor.process_bltu(dec_insn)),
        7 => Some(processor.process_bgeu(dec_insn)),
        _ => None,
    }
}

/// Hands the load that a word is to its function, or gives `None` where it is none.
#[inline(always)]
fn hand_load<T: InstructionProcessor>(processor: &mut T, word: u32) -> Option<T::InstructionResult>
    requires { word % 128 ≡ 0x03 }
    ensures { IsHanded T.did word processor.old processor.new result }
{
    let dec_insn = IType::new(word);
    match dec_insn.funct3 {
        0 => Some(processor.process_lb(dec_insn)),
        1 => Some(processor.process_lh(dec_insn)),
        2 => Some(processor.process_lw(dec_insn)),
        4 => Some(processor.process_lbu(dec_insn)),
        5 => Some(processor.process_lhu(dec_insn)),
        _ => None,
    }
}

/// Hands the store that a word is to its function, or gives `None` where it is none.
#[inline(always)]
fn hand_store<T: InstructionProcessor>(processor: &mut T, word: u32) -> Option<T::InstructionResult>
    requires { word % 128 ≡ 0x23 }
    ensures { IsHanded T.did word processor.old processor.new result }
{
    let dec_insn = SType::new(word);
    match dec_insn.funct3 {
        0 => Some(processor.process_sb(dec_insn)),
        1 => Some(processor.process_sh(dec_insn)),
        2 => Some(processor.process_sw(dec_insn)),
        _ => None,
    }
}

/// Hands the `jalr` that a word is to its function, or gives `None` for another funct3.
#[inline(always)]
fn hand_jalr<T: InstructionProcessor>(processor: &mut T, word: u32) -> Option<T::InstructionResult>
    requires { word % 128 ≡ 0x67 }
    ensures { IsHanded T.did word processor.old processor.new result }
{
    let dec_insn = IType::new(word);
    match dec_insn.funct3 {
        0 => Some(processor.process_jalr(dec_insn)),
        _ => None,
    }
}

/// Hands the `fence` that a word is to its function, or gives `None` for another funct3.
#[inline(always)]
fn hand_misc_mem<T: InstructionProcessor>(
    processor: &mut T,
    word: u32,
) -> Option<T::InstructionResult>
    requires { word % 128 ≡ 0x0f }
    ensures { IsHanded T.did word processor.old processor.new result }
{
    let dec_insn = IType::new(word);
    match dec_insn.funct3 {
        0 => Some(processor.process_fence(dec_insn)),
        _ => None,
    }
}

/// Hands the `ecall` or `ebreak` that a word is to its function, or gives `None` for any other
/// SYSTEM word.
#[inline(always)]
fn hand_system<T: InstructionProcessor>(
    processor: &mut T,
    word: u32,
) -> Option<T::InstructionResult>
    requires { word % 128 ≡ 0x73 }
    ensures { IsHanded T.did word processor.old processor.new result }
{
    let dec_insn = IType::new(word);
    match (dec_insn.rd, dec_insn.funct3, dec_insn.rs1, dec_insn.imm) {
        (0, 0, 0, 0) => Some(processor.process_ecall(dec_insn)),
        (0, 0, 0, 1) => Some(processor.process_ebreak(dec_insn)),
        _ => None,
    }
}
