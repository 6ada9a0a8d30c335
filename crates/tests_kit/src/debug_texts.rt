//! The texts of instructions for programmers, `{:?}` and `{:#?}`, which are those of a derive.

use rrs_lib::instruction::{Instruction, decode};
use std::alloc::{AllocError, Global};
use std::test::Fail;

/// Whether `{:?}` begins with the instruction's name and a parenthesis, the first letter capital.
fn shows_its_name(alloc: Global, instruction: Instruction) -> Result<bool, AllocError> {
    let text = format!(in alloc; "{instruction:?}")?;
    match (text.as_bytes(), instruction.mnemonic().as_bytes()) {
        ([first, shown @ ..], [letter, letters @ ..]) => {
            let is_capital = *first == letter.to_ascii_uppercase();
            let is_followed = shown.get(letters.len()) == Some(&b'(');
            Ok(is_capital && shown.starts_with(letters) && is_followed)
        }
        _ => Ok(false),
    }
}

/// Words of all rows of RV32I and M: 18 of two registers, 21 of a register and an immediate, 3
/// times 24 of `lui`, `auipc` and `jal`, 18 branches, 15 loads, 9 stores, 3 of `jalr` and of
/// `fence`, and two. A row beside these may have words too.
#[test]
fn names_are_shown(rt: HostRuntime) -> Result<(), Fail> {
    let mut rows = 0u32;
    let mut shown = 0u32;
    for index in 0..3 * 128 * 8u32 {
        let word = match index {
            0 => 0x0000_0073,
            1 => 0x0010_0073,
            _ => {
                let funct7 = [0, 1, 0x20][(index >> 10) as usize % 3];
                0x0020_8180 | (index & 0x7f) | (index >> 7 & 7) << 12 | funct7 << 25
            }
        };
        if let Some(instruction) = decode(word) {
            rows = rows.saturating_add(1);
            if shows_its_name(rt.alloc(), instruction)? {
                shown = shown.saturating_add(1);
            }
        }
    }
    assert!(rt; shown == rows && rows >= 161);
    Ok(())
}

#[test]
fn fields_are_shown(rt: HostRuntime) -> Result<(), Fail> {
    let alloc = rt.alloc();
    let sum = decode(0x0020_81b3);
    let line = format!(in alloc; "{sum:?}")?;
    let lines = format!(in alloc; "{sum:#?}")?;
    let in_a_line = "Some(Add(RType { funct7: 0, rs2: 2, rs1: 1, funct3: 0, rd: 3 }))";
    let in_lines = "Some(
    Add(
        RType {
            funct7: 0,
            rs2: 2,
            rs1: 1,
            funct3: 0,
            rd: 3,
        },
    ),
)";
    assert!(rt; line.as_str() == in_a_line && lines.as_str() == in_lines);
    Ok(())
}
