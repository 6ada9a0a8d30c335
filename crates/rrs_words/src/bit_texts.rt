//! The texts of the instructions of Zba to Zicond.
//!
//! | Instructions | Text |
//! |---|---|
//! | on two registers | `sh1add x1, x2, x3`: rd, rs1 and rs2 |
//! | by a shift amount | `rori x1, x2, 5`: rd, rs1 and the amount |
//! | on one register | `clz x1, x2`: rd and rs1 |

ghost use Rattle.std.specs.Prelude.{◌≡◌, ◌≤◌, ◌++◌, length};
ghost use Rattle.rrs_words.specs.BitTexts.{bit_operand, bit_text};

use crate::bits::{BitInstruction, BitOperand};
use crate::texts::{LayerText, push_number};

/// Appends what stands in the place of rs2.
fn push_operand(text: &mut LayerText, operand: BitOperand, rs2: usize)
    requires room { length text.old.bytes ≤ 60 }
    ensures { text.new.bytes ≡ text.old.bytes ++ bit_operand operand rs2 }
{
    match operand {
        BitOperand::Register | BitOperand::NotX0 => push_number(text, ", x", rs2),
        BitOperand::Amount => push_number(text, ", ", rs2),
        BitOperand::Fixed(_) => {}
    }
}

/// The text of an instruction, whatever its fields: that of `objdump` with
/// `-M numeric,no-aliases`, with the blanks and the shift amounts of the texts of the 48 rows.
///
/// # Examples
///
/// ```
/// let fields = RType { funct7: 0x30, rs2: 5, rs1: 2, funct3: 5, rd: 1 };
/// let turn = BitInstruction { row: BitRow::Rori, fields };
/// assert_eq!(rt; bit_text(&turn).as_str(), "rori x1, x2, 5");
/// ```
pub fn bit_text(instruction: &BitInstruction) -> LayerText
    ensures { result.bytes ≡ bit_text instruction.now.row instruction.now.fields }
{
    let mut text = LayerText::new();
    text.push_str(instruction.row.name());
    push_number(&mut text, " x", instruction.fields.rd);
    push_number(&mut text, ", x", instruction.fields.rs1);
    push_operand(&mut text, instruction.row.operand(), instruction.fields.rs2);
    text
}
