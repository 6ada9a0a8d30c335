//! The instructions of RV32I with the M extension: formats, decoding, and results.
//!
//! `process_instruction` decodes a word and calls a function of an [InstructionProcessor], which an
//! [InstructionHandler] is in one function; `instruction` has the instructions as values,
//! `instruction_formats` their fields, and `arithmetic` their results on words. `rrs_lib` passes on
//! all but the results. A crate that cites `ROW_COUNT` in a clause, or calls `arithmetic`, lists
//! `rrs_instruction` as well.
//!
//! What the rows of the table are, which words they are and what their results are is written in
//! `specs/`, in the terms of the RISC-V unprivileged specification. The contracts of the calls cite
//! these definitions.

#![tactic(auto)]

pub mod arithmetic;
mod decode;
pub mod instruction;
pub mod instruction_formats;

ghost use Rattle.rrs_instruction.specs.Encodings.{Fields, R, I, IShamt, S, B, U, J, HasRegisters};
ghost use Rattle.rrs_instruction.specs.Table.{Row};
ghost use Rattle.rrs_instruction.specs.Instructions.{row_of, fields_of};

use crate::instruction::Instruction;
use crate::instruction_formats::{BType, IType, ITypeShamt, JType, RType, SType, UType};
pub use decode::process_instruction;

/// Something that is done with instructions: executing them, printing them, counting them.
///
/// There is one function for each row of the table, in its order. Each takes the row's decoded
/// fields, whose register numbers are below 32; immediates, shift amounts, funct3 and funct7 may be
/// anything. An implementation says what it does by its relation `did`, and each function meets it.
///
/// Every [InstructionHandler], a processor in one function, implements this too.
pub trait InstructionProcessor {
    /// What each function returns.
    type InstructionResult;

    /// What a call of a row's function does: the row, its fields, the processor before, the
    /// processor after, and what the call returned.
    ghost did: { Row → Fields → Self → Self → Self.InstructionResult → Type 0 };

    fn process_add(&mut self, dec_insn: RType) -> Self::InstructionResult
        requires { HasRegisters (R dec_insn) }
        ensures { did Row.Add (R dec_insn) self.old self.new result };

    fn process_sub(&mut self, dec_insn: RType) -> Self::InstructionResult
        requires { HasRegisters (R dec_insn) }
        ensures { did Row.Sub (R dec_insn) self.old self.new result };

    fn process_sll(&mut self, dec_insn: RType) -> Self::InstructionResult
        requires { HasRegisters (R dec_insn) }
        ensures { did Row.Sll (R dec_insn) self.old self.new result };

    fn process_slt(&mut self, dec_insn: RType) -> Self::InstructionResult
        requires { HasRegisters (R dec_insn) }
        ensures { did Row.Slt (R dec_insn) self.old self.new result };

    fn process_sltu(&mut self, dec_insn: RType) -> Self::InstructionResult
        requires { HasRegisters (R dec_insn) }
        ensures { did Row.Sltu (R dec_insn) self.old self.new result };

    fn process_xor(&mut self, dec_insn: RType) -> Self::InstructionResult
        requires { HasRegisters (R dec_insn) }
        ensures { did Row.Xor (R dec_insn) self.old self.new result };

    fn process_srl(&mut self, dec_insn: RType) -> Self::InstructionResult
        requires { HasRegisters (R dec_insn) }
        ensures { did Row.Srl (R dec_insn) self.old self.new result };

    fn process_sra(&mut self, dec_insn: RType) -> Self::InstructionResult
        requires { HasRegisters (R dec_insn) }
        ensures { did Row.Sra (R dec_insn) self.old self.new result };

    fn process_or(&mut self, dec_insn: RType) -> Self::InstructionResult
        requires { HasRegisters (R dec_insn) }
        ensures { did Row.Or (R dec_insn) self.old self.new result };

    fn process_and(&mut self, dec_insn: RType) -> Self::InstructionResult
        requires { HasRegisters (R dec_insn) }
        ensures { did Row.And (R dec_insn) self.old self.new result };

    fn process_addi(&mut self, dec_insn: IType) -> Self::InstructionResult
        requires { HasRegisters (I dec_insn) }
        ensures { did Row.Addi (I dec_insn) self.old self.new result };

    fn process_slli(&mut self, dec_insn: ITypeShamt) -> Self::InstructionResult
        requires { HasRegisters (IShamt dec_insn) }
        ensures { did Row.Slli (IShamt dec_insn) self.old self.new result };

    fn process_slti(&mut self, dec_insn: IType) -> Self::InstructionResult
        requires { HasRegisters (I dec_insn) }
        ensures { did Row.Slti (I dec_insn) self.old self.new result };

    fn process_sltui(&mut self, dec_insn: IType) -> Self::InstructionResult
        requires { HasRegisters (I dec_insn) }
        ensures { did Row.Sltiu (I dec_insn) self.old self.new result };

    fn process_xori(&mut self, dec_insn: IType) -> Self::InstructionResult
        requires { HasRegisters (I dec_insn) }
        ensures { did Row.Xori (I dec_insn) self.old self.new result };

    fn process_srli(&mut self, dec_insn: ITypeShamt) -> Self::InstructionResult
        requires { HasRegisters (IShamt dec_insn) }
        ensures { did Row.Srli (IShamt dec_insn) self.old self.new result };

    fn process_srai(&mut self, dec_insn: ITypeShamt) -> Self::InstructionResult
        requires { HasRegisters (IShamt dec_insn) }
        ensures { did Row.Srai (IShamt dec_insn) self.old self.new result };

    fn process_ori(&mut self, dec_insn: IType) -> Self::InstructionResult
        requires { HasRegisters (I dec_insn) }
        ensures { did Row.Ori (I dec_insn) self.old self.new result };

    fn process_andi(&mut self, dec_insn: IType) -> Self::InstructionResult
        requires { HasRegisters (I dec_insn) }
        ensures { did Row.Andi (I dec_insn) self.old self.new result };

    fn process_lui(&mut self, dec_insn: UType) -> Self::InstructionResult
        requires { HasRegisters (U dec_insn) }
        ensures { did Row.Lui (U dec_insn) self.old self.new result };

    fn process_auipc(&mut self, dec_insn: UType) -> Self::InstructionResult
        requires { HasRegisters (U dec_insn) }
        ensures { did Row.Auipc (U dec_insn) self.old self.new result };

    fn process_beq(&mut self, dec_insn: BType) -> Self::InstructionResult
        requires { HasRegisters (B dec_insn) }
        ensures { did Row.Beq (B dec_insn) self.old self.new result };

    fn process_bne(&mut self, dec_insn: BType) -> Self::InstructionResult
        requires { HasRegisters (B dec_insn) }
        ensures { did Row.Bne (B dec_insn) self.old self.new result };

    fn process_blt(&mut self, dec_insn: BType) -> Self::InstructionResult
        requires { HasRegisters (B dec_insn) }
        ensures { did Row.Blt (B dec_insn) self.old self.new result };

    fn process_bltu(&mut self, dec_insn: BType) -> Self::InstructionResult
        requires { HasRegisters (B dec_insn) }
        ensures { did Row.Bltu (B dec_insn) self.old self.new result };

    fn process_bge(&mut self, dec_insn: BType) -> Self::InstructionResult
        requires { HasRegisters (B dec_insn) }
        ensures { did Row.Bge (B dec_insn) self.old self.new result };

    fn process_bgeu(&mut self, dec_insn: BType) -> Self::InstructionResult
        requires { HasRegisters (B dec_insn) }
        ensures { did Row.Bgeu (B dec_insn) self.old self.new result };

    fn process_lb(&mut self, dec_insn: IType) -> Self::InstructionResult
        requires { HasRegisters (I dec_insn) }
        ensures { did Row.Lb (I dec_insn) self.old self.new result };

    fn process_lbu(&mut self, dec_insn: IType) -> Self::InstructionResult
        requires { HasRegisters (I dec_insn) }
        ensures { did Row.Lbu (I dec_insn) self.old self.new result };

    fn process_lh(&mut self, dec_insn: IType) -> Self::InstructionResult
        requires { HasRegisters (I dec_insn) }
        ensures { did Row.Lh (I dec_insn) self.old self.new result };

    fn process_lhu(&mut self, dec_insn: IType) -> Self::InstructionResult
        requires { HasRegisters (I dec_insn) }
        ensures { did Row.Lhu (I dec_insn) self.old self.new result };

    fn process_lw(&mut self, dec_insn: IType) -> Self::InstructionResult
        requires { HasRegisters (I dec_insn) }
        ensures { did Row.Lw (I dec_insn) self.old self.new result };

    fn process_sb(&mut self, dec_insn: SType) -> Self::InstructionResult
        requires { HasRegisters (S dec_insn) }
        ensures { did Row.Sb (S dec_insn) self.old self.new result };

    fn process_sh(&mut self, dec_insn: SType) -> Self::InstructionResult
        requires { HasRegisters (S dec_insn) }
        ensures { did Row.Sh (S dec_insn) self.old self.new result };

    fn process_sw(&mut self, dec_insn: SType) -> Self::InstructionResult
        requires { HasRegisters (S dec_insn) }
        ensures { did Row.Sw (S dec_insn) self.old self.new result };

    fn process_jal(&mut self, dec_insn: JType) -> Self::InstructionResult
        requires { HasRegisters (J dec_insn) }
        ensures { did Row.Jal (J dec_insn) self.old self.new result };

    fn process_jalr(&mut self, dec_insn: IType) -> Self::InstructionResult
        requires { HasRegisters (I dec_insn) }
        ensures { did Row.Jalr (I dec_insn) self.old self.new result };

    fn process_mul(&mut self, dec_insn: RType) -> Self::InstructionResult
        requires { HasRegisters (R dec_insn) }
        ensures { did Row.Mul (R dec_insn) self.old self.new result };

    fn process_mulh(&mut self, dec_insn: RType) -> Self::InstructionResult
        requires { HasRegisters (R dec_insn) }
        ensures { did Row.Mulh (R dec_insn) self.old self.new result };

    fn process_mulhu(&mut self, dec_insn: RType) -> Self::InstructionResult
        requires { HasRegisters (R dec_insn) }
        ensures { did Row.Mulhu (R dec_insn) self.old self.new result };

    fn process_mulhsu(&mut self, dec_insn: RType) -> Self::InstructionResult
        requires { HasRegisters (R dec_insn) }
        ensures { did Row.Mulhsu (R dec_insn) self.old self.new result };

    fn process_div(&mut self, dec_insn: RType) -> Self::InstructionResult
        requires { HasRegisters (R dec_insn) }
        ensures { did Row.Div (R dec_insn) self.old self.new result };

    fn process_divu(&mut self, dec_insn: RType) -> Self::InstructionResult
        requires { HasRegisters (R dec_insn) }
        ensures { did Row.Divu (R dec_insn) self.old self.new result };

    fn process_rem(&mut self, dec_insn: RType) -> Self::InstructionResult
        requires { HasRegisters (R dec_insn) }
        ensures { did Row.Rem (R dec_insn) self.old self.new result };

    fn process_remu(&mut self, dec_insn: RType) -> Self::InstructionResult
        requires { HasRegisters (R dec_insn) }
        ensures { did Row.Remu (R dec_insn) self.old self.new result };

    fn process_fence(&mut self, dec_insn: IType) -> Self::InstructionResult
        requires { HasRegisters (I dec_insn) }
        ensures { did Row.Fence (I dec_insn) self.old self.new result };

    fn process_ecall(&mut self, dec_insn: IType) -> Self::InstructionResult
        requires { HasRegisters (I dec_insn) }
        ensures { did Row.Ecall (I dec_insn) self.old self.new result };

    fn process_ebreak(&mut self, dec_insn: IType) -> Self::InstructionResult
        requires { HasRegisters (I dec_insn) }
        ensures { did Row.Ebreak (I dec_insn) self.old self.new result };
}

/// Something that is done with instructions, in one function: executing them, or counting them.
///
/// A type that implements it is an [InstructionProcessor] with the same relation, whose functions
/// each call `handle`. So `process_instruction` and `Instruction::process` take it, and each row's
/// function can be called by its name.
pub trait InstructionHandler {
    /// What the function returns.
    type Answer;

    /// What a call does: the row of the instruction, its fields, the handler before, the handler
    /// after, and what the call returned.
    ghost did: { Row → Fields → Self → Self → Self.Answer → Type 0 };

    /// Handles an instruction.
    ///
    /// Its register numbers are below 32; immediates, shift amounts, funct3 and funct7 may be
    /// anything, also such as no word has. The handler did what it does for the row and the fields
    /// that the instruction is.
    fn handle(&mut self, instruction: &Instruction) -> Self::Answer
        requires { HasRegisters (fields_of instruction.now) }
        ensures { did (row_of instruction.now) (fields_of instruction.now)
            self.old self.new result };
}

/// Each function of a row hands its instruction to the one.
impl<T: InstructionHandler> InstructionProcessor for T {
    type InstructionResult = T::Answer;

    ghost did = { T.did };

    #[inline(always)]
    fn process_add(&mut self, dec_insn: RType) -> Self::InstructionResult {
        self.handle(&Instruction::Add(dec_insn))
    }

    #[inline(always)]
    fn process_sub(&mut self, dec_insn: RType) -> Self::InstructionResult {
        self.handle(&Instruction::Sub(dec_insn))
    }

    #[inline(always)]
    fn process_sll(&mut self, dec_insn: RType) -> Self::InstructionResult {
        self.handle(&Instruction::Sll(dec_insn))
    }

    #[inline(always)]
    fn process_slt(&mut self, dec_insn: RType) -> Self::InstructionResult {
        self.handle(&Instruction::Slt(dec_insn))
    }

    #[inline(always)]
    fn process_sltu(&mut self, dec_insn: RType) -> Self::InstructionResult {
        self.handle(&Instruction::Sltu(dec_insn))
    }

    #[inline(always)]
    fn process_xor(&mut self, dec_insn: RType) -> Self::InstructionResult {
        self.handle(&Instruction::Xor(dec_insn))
    }

    #[inline(always)]
    fn process_srl(&mut self, dec_insn: RType) -> Self::InstructionResult {
        self.handle(&Instruction::Srl(dec_insn))
    }

    #[inline(always)]
    fn process_sra(&mut self, dec_insn: RType) -> Self::InstructionResult {
        self.handle(&Instruction::Sra(dec_insn))
    }

    #[inline(always)]
    fn process_or(&mut self, dec_insn: RType) -> Self::InstructionResult {
        self.handle(&Instruction::Or(dec_insn))
    }

    #[inline(always)]
    fn process_and(&mut self, dec_insn: RType) -> Self::InstructionResult {
        self.handle(&Instruction::And(dec_insn))
    }

    #[inline(always)]
    fn process_addi(&mut self, dec_insn: IType) -> Self::InstructionResult {
        self.handle(&Instruction::Addi(dec_insn))
    }

    #[inline(always)]
    fn process_slli(&mut self, dec_insn: ITypeShamt) -> Self::InstructionResult {
        self.handle(&Instruction::Slli(dec_insn))
    }

    #[inline(always)]
    fn process_slti(&mut self, dec_insn: IType) -> Self::InstructionResult {
        self.handle(&Instruction::Slti(dec_insn))
    }

    #[inline(always)]
    fn process_sltui(&mut self, dec_insn: IType) -> Self::InstructionResult {
        self.handle(&Instruction::Sltiu(dec_insn))
    }

    #[inline(always)]
    fn process_xori(&mut self, dec_insn: IType) -> Self::InstructionResult {
        self.handle(&Instruction::Xori(dec_insn))
    }

    #[inline(always)]
    fn process_srli(&mut self, dec_insn: ITypeShamt) -> Self::InstructionResult {
        self.handle(&Instruction::Srli(dec_insn))
    }

    #[inline(always)]
    fn process_srai(&mut self, dec_insn: ITypeShamt) -> Self::InstructionResult {
        self.handle(&Instruction::Srai(dec_insn))
    }

    #[inline(always)]
    fn process_ori(&mut self, dec_insn: IType) -> Self::InstructionResult {
        self.handle(&Instruction::Ori(dec_insn))
    }

    #[inline(always)]
    fn process_andi(&mut self, dec_insn: IType) -> Self::InstructionResult {
        self.handle(&Instruction::Andi(dec_insn))
    }

    #[inline(always)]
    fn process_lui(&mut self, dec_insn: UType) -> Self::InstructionResult {
        self.handle(&Instruction::Lui(dec_insn))
    }

    #[inline(always)]
    fn process_auipc(&mut self, dec_insn: UType) -> Self::InstructionResult {
        self.handle(&Instruction::Auipc(dec_insn))
    }

    #[inline(always)]
    fn process_beq(&mut self, dec_insn: BType) -> Self::InstructionResult {
        self.handle(&Instruction::Beq(dec_insn))
    }

    #[inline(always)]
    fn process_bne(&mut self, dec_insn: BType) -> Self::InstructionResult {
        self.handle(&Instruction::Bne(dec_insn))
    }

    #[inline(always)]
    fn process_blt(&mut self, dec_insn: BType) -> Self::InstructionResult {
        self.handle(&Instruction::Blt(dec_insn))
    }

    #[inline(always)]
    fn process_bltu(&mut self, dec_insn: BType) -> Self::InstructionResult {
        self.handle(&Instruction::Bltu(dec_insn))
    }

    #[inline(always)]
    fn process_bge(&mut self, dec_insn: BType) -> Self::InstructionResult {
        self.handle(&Instruction::Bge(dec_insn))
    }

    #[inline(always)]
    fn process_bgeu(&mut self, dec_insn: BType) -> Self::InstructionResult {
        self.handle(&Instruction::Bgeu(dec_insn))
    }

    #[inline(always)]
    fn process_lb(&mut self, dec_insn: IType) -> Self::InstructionResult {
        self.handle(&Instruction::Lb(dec_insn))
    }

    #[inline(always)]
    fn process_lbu(&mut self, dec_insn: IType) -> Self::InstructionResult {
        self.handle(&Instruction::Lbu(dec_insn))
    }

    #[inline(always)]
    fn process_lh(&mut self, dec_insn: IType) -> Self::InstructionResult {
        self.handle(&Instruction::Lh(dec_insn))
    }

    #[inline(always)]
    fn process_lhu(&mut self, dec_insn: IType) -> Self::InstructionResult {
        self.handle(&Instruction::Lhu(dec_insn))
    }

    #[inline(always)]
    fn process_lw(&mut self, dec_insn: IType) -> Self::InstructionResult {
        self.handle(&Instruction::Lw(dec_insn))
    }

    #[inline(always)]
    fn process_sb(&mut self, dec_insn: SType) -> Self::InstructionResult {
        self.handle(&Instruction::Sb(dec_insn))
    }

    #[inline(always)]
    fn process_sh(&mut self, dec_insn: SType) -> Self::InstructionResult {
        self.handle(&Instruction::Sh(dec_insn))
    }

    #[inline(always)]
    fn process_sw(&mut self, dec_insn: SType) -> Self::InstructionResult {
        self.handle(&Instruction::Sw(dec_insn))
    }

    #[inline(always)]
    fn process_jal(&mut self, dec_insn: JType) -> Self::InstructionResult {
        self.handle(&Instruction::Jal(dec_insn))
    }

    #[inline(always)]
    fn process_jalr(&mut self, dec_insn: IType) -> Self::InstructionResult {
        self.handle(&Instruction::Jalr(dec_insn))
    }

    #[inline(always)]
    fn process_mul(&mut self, dec_insn: RType) -> Self::InstructionResult {
        self.handle(&Instruction::Mul(dec_insn))
    }

    #[inline(always)]
    fn process_mulh(&mut self, dec_insn: RType) -> Self::InstructionResult {
        self.handle(&Instruction::Mulh(dec_insn))
    }

    #[inline(always)]
    fn process_mulhu(&mut self, dec_insn: RType) -> Self::InstructionResult {
        self.handle(&Instruction::Mulhu(dec_insn))
    }

    #[inline(always)]
    fn process_mulhsu(&mut self, dec_insn: RType) -> Self::InstructionResult {
        self.handle(&Instruction::Mulhsu(dec_insn))
    }

    #[inline(always)]
    fn process_div(&mut self, dec_insn: RType) -> Self::InstructionResult {
        self.handle(&Instruction::Div(dec_insn))
    }

    #[inline(always)]
    fn process_divu(&mut self, dec_insn: RType) -> Self::InstructionResult {
        self.handle(&Instruction::Divu(dec_insn))
    }

    #[inline(always)]
    fn process_rem(&mut self, dec_insn: RType) -> Self::InstructionResult {
        self.handle(&Instruction::Rem(dec_insn))
    }

    #[inline(always)]
    fn process_remu(&mut self, dec_insn: RType) -> Self::InstructionResult {
        self.handle(&Instruction::Remu(dec_insn))
    }

    #[inline(always)]
    fn process_fence(&mut self, dec_insn: IType) -> Self::InstructionResult {
        self.handle(&Instruction::Fence(dec_insn))
    }

    #[inline(always)]
    fn process_ecall(&mut self, dec_insn: IType) -> Self::InstructionResult {
        self.handle(&Instruction::Ecall(dec_insn))
    }

    #[inline(always)]
    fn process_ebreak(&mut self, dec_insn: IType) -> Self::InstructionResult {
        self.handle(&Instruction::Ebreak(dec_insn))
    }
}
