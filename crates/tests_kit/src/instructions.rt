//! Instructions as values: what words are, and what is done with them.

use rrs_lib::instruction::{DataAccess, Instruction, decode};
use rrs_lib::instruction_string_outputter::InstructionStringOutputter;
use std::test::Fail;

/// Where the jump or the branch at `pc` goes to if it is taken, where its word alone tells.
fn target_of(pc: u32, word: u32) -> Option<u32> {
    let offset = match decode(word)? {
        Instruction::Jal(fields) => fields.imm,
        Instruction::Beq(fields)
        | Instruction::Bne(fields)
        | Instruction::Blt(fields)
        | Instruction::Bltu(fields)
        | Instruction::Bge(fields)
        | Instruction::Bgeu(fields) => fields.imm,
        _ => return None,
    };
    Some(pc.wrapping_add(offset.cast_unsigned()))
}

// beq x1, x2, 8; jal x0, -20; jalr x1, 0x0(x1); no row
#[test]
fn targets_are_told(rt: HostRuntime) {
    let told = [
        target_of(0x100, 0x0020_8463),
        target_of(0x14, 0xfedf_f06f),
        target_of(0, 0x0000_80e7),
        target_of(0, 0xffff_ffff),
    ];
    assert!(rt; told == [Some(0x108), Some(0), None, None]);
}

/// The operands of an instruction: rd, rs1 and rs2, the immediate, and the shift amount.
type Operands = ([Option<usize>; 3], Option<i32>, Option<u32>);

/// The operands of the instruction that a word is, and what it accesses.
fn operands_of(word: u32) -> Option<(Operands, Option<DataAccess>)> {
    let instruction = decode(word)?;
    let registers = [instruction.rd(), instruction.rs1(), instruction.rs2()];
    let operands = (
        registers,
        instruction.immediate(),
        instruction.shift_amount(),
    );
    Some((operands, instruction.access()))
}

// sw x1, 4(x0); lh x3, -4(x1); srai x3, x1, 7; no row
#[test]
fn operands_are_told(rt: HostRuntime) {
    let told = [
        operands_of(0x0010_2223),
        operands_of(0xffc0_9183),
        operands_of(0x4070_d193),
        operands_of(0xffff_ffff),
    ];
    let store = ([None, Some(0), Some(1)], Some(4), None);
    let load = ([Some(3), Some(1), None], Some(-4), None);
    let shift = ([Some(3), Some(1), None], None, Some(7));
    let expected = [
        Some((store, Some(DataAccess::Store(4)))),
        Some((load, Some(DataAccess::Load(2)))),
        Some((shift, None)),
        None,
    ];
    assert!(rt; told == expected);
}

#[test]
fn an_instruction_is_processed(rt: HostRuntime) -> Result<(), Fail> {
    let instruction = decode(0x0020_8463).ok_or("no row")?;
    let mut outputter = InstructionStringOutputter {
        insn_pc: 0x100,
        alloc: rt.alloc(),
    };
    let text = instruction.process(&mut outputter)?;
    assert!(rt; text.as_str() == "beq x1, x2, 0x00000108");
    Ok(())
}
