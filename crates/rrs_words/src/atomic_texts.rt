//! The names and texts of the instructions of extension A.
//!
//! | Instructions | Text |
//! |---|---|
//! | `lr.w` | `lr.w x1, (x2)`: rd, and the address |
//! | the others | `amoadd.w.aqrl x1, x3, (x2)`: rd, the operand and the address |

ghost use Rattle.std.specs.Prelude.{◌≡◌, ◌≢◌, ◌+◌, ◌≤◌, ◌<◌, ◌/◌, ◌^◌, ◌++◌, ℕ, IfNone, IfSome, IsTrue, ◌↔◌, length, codes};
ghost use Rattle.std.specs.Bool.{OnFalse, OnTrue};
ghost use Rattle.rrs_words.specs.AtomicInstructions.{atomic_table};
ghost use Rattle.rrs_words.specs.AtomicTexts.{order_letters, atomic_name, atomic_operand, atomic_text};

use crate::atomics::{AtomicInstruction, AtomicRow, row_of};
use crate::texts::{LayerText, push_number};

/// What stands behind the name: the letters of aq and rl.
fn order_letters(funct7: u32) -> &'static str
    ensures letters { result.now ≡ order_letters funct7 }
    ensures length { length result.now ≤ 5 }
{
    match funct7 % 4 {
        0 => "",
        1 => ".rl",
        2 => ".aq",
        _ => ".aqrl",
    }
}

/// Appends the name of an instruction.
fn push_name(text: &mut LayerText, row: AtomicRow, funct7: u32)
    requires room { length text.old.bytes ≤ 60 }
    ensures bytes { text.new.bytes ≡ text.old.bytes ++ atomic_name row funct7 }
    ensures length { length text.new.bytes ≤ length text.old.bytes + 14 }
{
    text.push_str(row.name());
    text.push_str(order_letters(funct7));
}

/// Appends the operand.
fn push_operand(text: &mut LayerText, instruction: &AtomicInstruction)
    requires room { length text.old.bytes ≤ 38 }
    ensures bytes { text.new.bytes ≡ text.old.bytes
        ++ atomic_operand instruction.now.row instruction.now.fields.rs2 }
    ensures length { length text.new.bytes ≤ length text.old.bytes + 23 }
{
    match instruction.row {
        AtomicRow::LrW => {}
        _ => {
            push_number(text, "x", instruction.fields.rs2);
            text.push_str(", ");
        }
    }
}

/// Whether this is the name of the row with these seven bits.
fn is_named(row: AtomicRow, funct7: u32, name: &[u8]) -> bool
    ensures { IsTrue result ↔ (atomic_name row funct7 ≡ name.now) }
{
    let mut text = LayerText::new();
    push_name(&mut text, row, funct7);
    text.as_bytes() == name
}

/// The instruction of extension A that has a name, with the letters of aq and rl: its row and the
/// seven bits of funct7. `None` where none has it.
///
/// # Examples
///
/// ```
/// assert_eq!(rt; atomic_named(b"sc.w.rl"), Some((AtomicRow::ScW, 0x0d)));
/// assert_eq!(rt; atomic_named(b"amoadd.d"), None);
/// ```
pub fn atomic_named(name: &[u8]) -> Option<(AtomicRow, u32)>
    ensures named { IfSome result (λ both. atomic_name both.0 both.1 ≡ name.now) }
    ensures bits { IfSome result (λ both. both.1 / 4 ≡ (atomic_table both.0).funct5) }
    ensures none { IfNone result ((row : AtomicRow) (funct7 : ℕ)
        → funct7 / 4 ≡ (atomic_table row).funct5 → atomic_name row funct7 ≢ name.now) }
{
    for funct7 in 0..128 {
        if let Some(row) = row_of(funct7 / 4) {
            if is_named(row, funct7, name) {
                return Some((row, funct7));
            }
        }
    }
    None
}

/// The text of an instruction, whatever its fields: that of `objdump` with
/// `-M numeric,no-aliases`, with the blanks of the texts of the 48 rows.
///
/// # Examples
///
/// ```
/// let fields = RType { funct7: 3, rs2: 12, rs1: 11, funct3: 2, rd: 10 };
/// let add = AtomicInstruction { row: AtomicRow::AmoAdd, fields };
/// assert_eq!(rt; atomic_text(&add).as_str(), "amoadd.w.aqrl x10, x12, (x11)");
/// ```
pub fn atomic_text(instruction: &AtomicInstruction) -> LayerText
    ensures { result.bytes ≡ atomic_text instruction.now.row instruction.now.fields }
{
    let mut text = LayerText::new();
    push_name(&mut text, instruction.row, instruction.fields.funct7);
    push_number(&mut text, " x", instruction.fields.rd);
    text.push_str(", ");
    push_operand(&mut text, instruction);
    push_number(&mut text, "(x", instruction.fields.rs1);
    text.push_str(")");
    text
}
