//! A processor with a function of its own for each row, and the calls of the kit's processors.

use crate::machines::memory_of;
use rrs_lib::instruction_executor::{InstructionException, InstructionExecutor};
use rrs_lib::instruction_formats::{BType, IType, ITypeShamt, JType, RType, SType, UType};
use rrs_lib::instruction_string_outputter::InstructionStringOutputter;
use rrs_lib::{HartState, InstructionProcessor, Memory};
use std::alloc::{AllocError, Global};
use std::test::Fail;

/// A processor that does nothing. Its functions are those of the trait, in their order.
#[derive(Drop)]
struct Idle;

impl InstructionProcessor for Idle {
    type InstructionResult = ();

    ghost did = { λ row f old new answer. Unit {0} };

    fn process_add(&mut self, _dec_insn: RType) {}

    fn process_sub(&mut self, _dec_insn: RType) {}

    fn process_sll(&mut self, _dec_insn: RType) {}

    fn process_slt(&mut self, _dec_insn: RType) {}

    fn process_sltu(&mut self, _dec_insn: RType) {}

    fn process_xor(&mut self, _dec_insn: RType) {}

    fn process_srl(&mut self, _dec_insn: RType) {}

    fn process_sra(&mut self, _dec_insn: RType) {}

    fn process_or(&mut self, _dec_insn: RType) {}

    fn process_and(&mut self, _dec_insn: RType) {}

    fn process_addi(&mut self, _dec_insn: IType) {}

    fn process_slli(&mut self, _dec_insn: ITypeShamt) {}

    fn process_slti(&mut self, _dec_insn: IType) {}

    fn process_sltui(&mut self, _dec_insn: IType) {}

    fn process_xori(&mut self, _dec_insn: IType) {}

    fn process_srli(&mut self, _dec_insn: ITypeShamt) {}

    fn process_srai(&mut self, _dec_insn: ITypeShamt) {}

    fn process_ori(&mut self, _dec_insn: IType) {}

    fn process_andi(&mut self, _dec_insn: IType) {}

    fn process_lui(&mut self, _dec_insn: UType) {}

    fn process_auipc(&mut self, _dec_insn: UType) {}

    fn process_beq(&mut self, _dec_insn: BType) {}

    fn process_bne(&mut self, _dec_insn: BType) {}

    fn process_blt(&mut self, _dec_insn: BType) {}

    fn process_bltu(&mut self, _dec_insn: BType) {}

    fn process_bge(&mut self, _dec_insn: BType) {}

    fn process_bgeu(&mut self, _dec_insn: BType) {}

    fn process_lb(&mut self, _dec_insn: IType) {}

    fn process_lbu(&mut self, _dec_insn: IType) {}

    fn process_lh(&mut self, _dec_insn: IType) {}

    fn process_lhu(&mut self, _dec_insn: IType) {}

    fn process_lw(&mut self, _dec_insn: IType) {}

    fn process_sb(&mut self, _dec_insn: SType) {}

    fn process_sh(&mut self, _dec_insn: SType) {}

    fn process_sw(&mut self, _dec_insn: SType) {}

    fn process_jal(&mut self, _dec_insn: JType) {}

    fn process_jalr(&mut self, _dec_insn: IType) {}

    fn process_mul(&mut self, _dec_insn: RType) {}

    fn process_mulh(&mut self, _dec_insn: RType) {}

    fn process_mulhu(&mut self, _dec_insn: RType) {}

    fn process_mulhsu(&mut self, _dec_insn: RType) {}

    fn process_div(&mut self, _dec_insn: RType) {}

    fn process_divu(&mut self, _dec_insn: RType) {}

    fn process_rem(&mut self, _dec_insn: RType) {}

    fn process_remu(&mut self, _dec_insn: RType) {}

    fn process_fence(&mut self, _dec_insn: IType) {}

    fn process_ecall(&mut self, _dec_insn: IType) {}

    fn process_ebreak(&mut self, _dec_insn: IType) {}
}

/// The fields of a shift by 33, which no word has.
const SHIFT: ITypeShamt = ITypeShamt {
    funct7: 0,
    shamt: 33,
    rs1: 1,
    funct3: 1,
    rd: 3,
};

/// What the executor does with it: its answer, x3, the pc and the last written register.
fn executed<M: Memory>(
    mem: &mut M,
) -> (Result<bool, InstructionException>, u32, u32, Option<usize>) {
    let mut hart = HartState::new();
    hart.registers[1] = 1;
    let mut executor: InstructionExecutor<M> = InstructionExecutor {
        mem,
        hart_state: &mut hart,
    };
    let answer: Result<bool, InstructionException> = executor.process_slli(SHIFT);
    (answer, hart.registers[3], hart.pc, hart.last_register_write)
}

#[test]
fn a_shift_is_executed(rt: HostRuntime) -> Result<(), Fail> {
    let mut memory = memory_of(rt.alloc(), &[])?;
    assert!(rt; executed(&mut memory) == (Ok(false), 2, 0, Some(3)));
    Ok(())
}

/// Its text.
fn printed(alloc: Global, insn_pc: u32) -> Result<String, AllocError> {
    let mut outputter = InstructionStringOutputter { insn_pc, alloc };
    outputter.process_slli(SHIFT)
}

#[test]
fn a_shift_is_printed(rt: HostRuntime) -> Result<(), Fail> {
    let text: String = printed(rt.alloc(), 0)?;
    assert!(rt; text.as_str() == "slli x3, x1, 33");
    Ok(())
}
