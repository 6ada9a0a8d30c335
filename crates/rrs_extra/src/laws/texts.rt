//! The texts of words, compared.

ghost use Rattle.std.specs.Prelude.{◌≡◌, ◌↔◌, Some, IfSome, IfNone, IfOk, string_bytes};
ghost use Rattle.rrs_lib.specs.Table.{IsRowAnd, IsIllegal};
ghost use Rattle.rrs_lib.specs.Texts.{text_of};
ghost use Rattle.rrs_extra.specs.Showing.{ShowAlike, AreOneOrFences, IfBothTexts};

use rrs_lib::instruction_string_outputter::InstructionStringOutputter;
use rrs_lib::process_instruction;
use std::alloc::{AllocError, Global};

/// The texts of two words at one address.
///
/// Each of the two answers is `None` exactly for an illegal instruction. Otherwise it is
/// `Some` of the text of the word's row with its fields at `insn_pc`, or of the error when out of
/// memory.
///
/// Where both are texts, they are equal exactly when the words are equal or both are `fence` words,
/// whose fields the table takes as they are and no text shows (`faithful`). So a text is the word
/// again. That is so because they are equal exactly when the words are of one row and agree in the
/// register numbers and the immediate or shift amount that a text of that row shows (`alike`).
///
/// This needs one address for both words, since a branch is printed with its target: `beq` by 8
/// bytes at 0x100 and by 4 bytes at 0x104 have the same text.
pub fn both_texts(
    alloc: Global,
    insn_pc: u32,
    first: u32,
    second: u32,
) -> (
    Option<Result<String, AllocError>>,
    Option<Result<String, AllocError>>,
)
    ensures first_text { IfSome result.0 (λ answer. IsRowAnd first
        (λ row f. IfOk answer (λ text. text_of row f insn_pc ≡ Some (string_bytes text)))) }
    ensures second_text { IfSome result.1 (λ answer. IsRowAnd second
        (λ row f. IfOk answer (λ text. text_of row f insn_pc ≡ Some (string_bytes text)))) }
    ensures first_outside { IfNone result.0 (IsIllegal first) }
    ensures second_outside { IfNone result.1 (IsIllegal second) }
    ensures faithful { IfBothTexts result.0 result.1
        (λ text other. (text ≡ other) ↔ AreOneOrFences first second) }
    ensures alike { IfBothTexts result.0 result.1
        (λ text other. (text ≡ other) ↔ ShowAlike first second) }
{
    (
        text_at(alloc, insn_pc, first),
        text_at(alloc, insn_pc, second),
    )
}

/// The text of a word at an address, or `None` for an illegal instruction.
fn text_at(alloc: Global, insn_pc: u32, word: u32) -> Option<Result<String, AllocError>>
    ensures text { IfSome result (λ answer. IsRowAnd word
        (λ row f. IfOk answer (λ text. text_of row f insn_pc ≡ Some (string_bytes text)))) }
    ensures outside { IfNone result (IsIllegal word) }
{
    let mut outputter = InstructionStringOutputter { insn_pc, alloc };
    process_instruction(&mut outputter, word)
}
