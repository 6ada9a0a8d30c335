//! The texts of the compressed instructions.
//!
//! | Instructions | Text |
//! |---|---|
//! | `c.sub`, `c.xor`, `c.or`, `c.and`, `c.mv`, `c.add` | `c.add x8, x9`: the two registers |
//! | `c.addi`, `c.addi16sp`, `c.li`, `c.andi` | `c.addi x2, -16`: the register and the immediate |
//! | `c.slli`, `c.srli`, `c.srai` | `c.slli x8, 3`: the register and the amount |
//! | `c.addi4spn` | `c.addi4spn x8, x2, 16`: the two registers and the immediate |
//! | `c.lui` | `c.lui x8, 0xfffff000`: the word that the register gets |
//! | `c.lw`, `c.lwsp`, `c.sw`, `c.swsp` | `c.swsp x1, 12(x2)`: a register, the offset and the base |
//! | `c.beqz`, `c.bnez` | `c.beqz x8, 0x00000108`: the register and the target |
//! | `c.j`, `c.jal` | `c.j 0x00000108`: the target |
//! | `c.jr`, `c.jalr` | `c.jr x1`: the register |
//! | `c.ebreak` | the mnemonic alone |

ghost use Rattle.std.specs.Prelude.{◌≡◌, ◌+◌, ◌≤◌, ◌++◌, ℤ, length, pos, codes};
ghost use Rattle.std.specs.Fmt.{signed_decimal};
ghost use Rattle.rrs_lib.specs.Texts.{register, hexadecimal};
ghost use Rattle.rrs_words.specs.FormTexts.{short_text, operands_text};

use crate::forms::{ShortForm, ShortInstruction, ShortOperands, extended};
use crate::texts::{LayerText, push_number};
use rrs_instruction::arithmetic;
use rrs_lib::disassembly::hexadecimal_digits;

/// Appends a register and a number.
fn push_register_and_number(text: &mut LayerText, first: usize, number: i32)
    requires room { length text.old.bytes ≤ 10 }
    ensures { text.new.bytes ≡ text.old.bytes ++ codes " " ++ register first ++ codes ", "
        ++ signed_decimal number }
{
    push_number(text, " x", first);
    push_number(text, ", ", number);
}

/// Appends two registers.
fn push_two_registers(text: &mut LayerText, first: usize, second: usize)
    requires room { length text.old.bytes ≤ 10 }
    ensures bytes { text.new.bytes ≡ text.old.bytes ++ codes " " ++ register first ++ codes ", "
        ++ register second }
    ensures length { length text.new.bytes ≤ length text.old.bytes + 45 }
{
    push_number(text, " x", first);
    push_number(text, ", x", second);
}

/// Appends a register, and a number and a register in parentheses.
fn push_place(text: &mut LayerText, operands: ShortOperands)
    requires room { length text.old.bytes ≤ 10 }
    ensures { text.new.bytes ≡ text.old.bytes ++ codes " " ++ register operands.first ++ codes ", "
        ++ signed_decimal (pos operands.imm) ++ codes "(" ++ register operands.second
        ++ codes ")" }
{
    push_number(text, " x", operands.first);
    push_number(text, ", ", i32::from(operands.imm));
    push_number(text, "(x", operands.second);
    text.push_str(")");
}

/// Appends a word in hexadecimal, and what comes before it.
fn push_word(text: &mut LayerText, before: &str, word: u32)
    requires room { length text.old.bytes + length before.now ≤ 60 }
    ensures { text.new.bytes ≡ text.old.bytes ++ before.now ++ hexadecimal 8 word }
{
    text.push_str(before);
    text.push_str(hexadecimal_digits(8, word).as_str());
}

/// Appends a register and a word in hexadecimal.
fn push_register_and_word(text: &mut LayerText, first: usize, word: u32)
    requires room { length text.old.bytes ≤ 10 }
    ensures { text.new.bytes ≡ text.old.bytes ++ codes " " ++ register first ++ codes ", 0x"
        ++ hexadecimal 8 word }
{
    push_number(text, " x", first);
    push_word(text, ", 0x", word);
}

/// Appends what stands behind the name.
fn push_operands(text: &mut LayerText, short: &ShortInstruction, pc: u32)
    requires room { length text.old.bytes ≤ 10 }
    ensures { text.new.bytes ≡ text.old.bytes
        ++ operands_text short.now.form short.now.operands pc }
{
    let ShortOperands { first, second, imm } = short.operands;
    match short.form {
        ShortForm::Addi4spn => {
            push_two_registers(text, first, second);
            push_number(text, ", ", i32::from(imm));
        }
        ShortForm::Lw | ShortForm::Sw | ShortForm::Lwsp | ShortForm::Swsp => {
            push_place(text, short.operands)
        }
        ShortForm::Addi | ShortForm::Li | ShortForm::Andi => {
            push_register_and_number(text, first, extended(imm, 0x20))
        }
        ShortForm::Addi16sp => push_register_and_number(text, first, extended(imm, 0x200)),
        ShortForm::Slli | ShortForm::Srli | ShortForm::Srai => {
            push_register_and_number(text, first, i32::from(imm))
        }
        ShortForm::Lui => {
            let word = arithmetic::immediate(extended(imm, 0x20) * 4096);
            push_register_and_word(text, first, word);
        }
        ShortForm::Jal | ShortForm::J => {
            let target = arithmetic::plus_immediate(pc, extended(imm, 0x800));
            push_word(text, " 0x", target);
        }
        ShortForm::Beqz | ShortForm::Bnez => {
            let target = arithmetic::plus_immediate(pc, extended(imm, 0x100));
            push_register_and_word(text, first, target);
        }
        ShortForm::Jr | ShortForm::Jalr => push_number(text, " x", first),
        ShortForm::Ebreak => {}
        ShortForm::Sub
        | ShortForm::Xor
        | ShortForm::Or
        | ShortForm::And
        | ShortForm::Mv
        | ShortForm::Add => push_two_registers(text, first, second),
    }
}

/// The text of a compressed instruction at an address, whatever its operands.
///
/// It is that of `objdump` with `-M numeric,no-aliases`, with the blanks, the addresses and the
/// words of the texts of the 48 rows.
///
/// # Examples
///
/// ```
/// let operands = ShortOperands { first: 8, second: 0, imm: 0x1fe };
/// let back = ShortInstruction { form: ShortForm::Bnez, operands };
/// assert_eq!(rt; short_text(&back, 0x100).as_str(), "c.bnez x8, 0x000000fe");
/// ```
pub fn short_text(short: &ShortInstruction, pc: u32) -> LayerText
    ensures { result.bytes ≡ short_text short.now.form short.now.operands pc }
{
    let mut text = LayerText::new();
    text.push_str(short.form.name());
    push_operands(&mut text, short, pc);
    text
}
