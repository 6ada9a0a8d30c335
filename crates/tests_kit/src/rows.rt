//! One word of each row: its number, its text, and the count of its row.

ghost use Rattle.std.specs.Prelude.{◌≡◌, IfSome, IfNone};
ghost use Rattle.rrs_lib.specs.Table.{IsRowAnd, IsIllegal, table};

use crate::call_counter::{CallCounter, count_word};
use crate::machines::same_text_at;
use crate::texts::text_by;
use rrs_extra::{ROW_COUNT, RowNumberer};
use rrs_lib::instruction_string_outputter::InstructionStringOutputter;
use rrs_lib::process_instruction;
use std::test::Fail;
use tests_shared::ROWS;

/// Words of no row: `ecall` with another immediate, rd, rs1 and funct3, `fence.i`, `slli` with
/// another funct7, `jalr` with another funct3, all ones and all zeros.
pub(crate) static WORDS_OUTSIDE: [u32; 9] = [
    0x00200073, 0x000000f3, 0x00008073, 0x00001073, 0x0000100f, 0xfe109093, 0x00009067, 0xffffffff,
    0x00000000,
];

#[test]
fn each_row_has_its_text(rt: HostRuntime) -> Result<(), Fail> {
    let mut outputter = InstructionStringOutputter {
        insn_pc: 0x100,
        alloc: rt.alloc(),
    };
    for &(word, expected) in &ROWS {
        let text = text_by(&mut outputter, word).ok_or("no row")??;
        same_text_at(&rt, word, text.as_str(), expected);
    }
    Ok(())
}

/// The number of the row of a word, through the decoder.
fn number_of(word: u32) -> Option<u32>
    ensures number { IfSome result (λ number. IsRowAnd word
        (λ row f. number ≡ (table row).number)) }
    ensures outside { IfNone result (IsIllegal word) }
{
    process_instruction(&mut RowNumberer, word)
}

#[test]
fn numbers_each_row(rt: HostRuntime) {
    let mut number = 0u32;
    for &(word, name) in &ROWS {
        number = number.saturating_add(1);
        assert!(rt; number_of(word) == Some(number), "{name}");
    }
    for &word in &WORDS_OUTSIDE {
        assert!(rt; number_of(word).is_none(), "at {word:#x}");
    }
}

/// How many words that are 0 but for the opcode, funct3 and funct7 have a number.
fn words_with_numbers() -> u32 {
    let mut numbered = 0u32;
    for opcode in 0..128u32 {
        for funct3 in 0..8u32 {
            for funct7 in 0..128u32 {
                if number_of(opcode | funct3 << 12 | funct7 << 25).is_some() {
                    numbered = numbered.saturating_add(1);
                }
            }
        }
    }
    numbered
}

#[test]
fn numbers_as_many_words_as_the_table_has(rt: HostRuntime) {
    assert!(rt; words_with_numbers() == 5_910);
}

/// How many words of the rows are counted.
fn count_rows(counter: &mut CallCounter) -> usize {
    let mut counted = 0usize;
    for &(word, _) in &ROWS {
        if count_word(counter, word) {
            counted = counted.saturating_add(1);
        }
    }
    counted
}

#[test]
fn counts_each_row(rt: HostRuntime) {
    let mut counter = CallCounter::new();
    let counted = count_rows(&mut counter);
    for &word in &WORDS_OUTSIDE {
        assert!(rt; !count_word(&mut counter, word), "at {word:#x}");
    }
    assert!(rt; counted == ROW_COUNT && counter.counts == [1; ROW_COUNT]);
}

#[test]
fn counts_no_further_than_the_maximum(rt: HostRuntime) {
    let mut counter = CallCounter {
        counts: [u64::MAX - 1; ROW_COUNT],
    };
    let counted = [count_rows(&mut counter), count_rows(&mut counter)];
    assert!(rt; counted == [ROW_COUNT; 2] && counter.counts == [u64::MAX; ROW_COUNT]);
}
