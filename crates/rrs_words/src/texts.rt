//! The texts of the instructions that the 48 rows leave out.
//!
//! | Instructions | Text |
//! |---|---|
//! | `csrrw`, `csrrs`, `csrrc` | `csrrw x1, mstatus, x2`: rd, the CSR and rs1 |
//! | `csrrwi`, `csrrsi`, `csrrci` | `csrrsi x1, mie, 8`: rd, the CSR and the immediate |
//! | `mret`, `wfi`, `fence.i` | `mret`: the mnemonic alone |

ghost use Rattle.std.specs.Prelude.{◌≡◌, ◌≢◌, ◌+◌, ◌≤◌, ◌<◌, ◌^◌, ◌++◌, ℕ, IfNone, IfSome, length, codes, true, IsTrue};
ghost use Rattle.std.specs.Bool.{OnFalse, OnTrue};
ghost use Rattle.rrs_words.specs.SystemInstructions.{system_table, csr_number};
ghost use Rattle.rrs_words.specs.CsrNumbers.{is_csr, is_from_to};
ghost use Rattle.rrs_words.specs.SystemTexts.{csr_name, monitor_name, operand_text, csr_text, system_text};
ghost use Rattle.rrs_lib.specs.Texts.{register};

use crate::csrs::{Csr, Profile};
use crate::instructions::{SystemInstruction, SystemRow};
use crate::names::table_name;
use arrayvec::ArrayString;
use itoa::{Buffer, Integer};
use rrs_lib::disassembly::hexadecimal_digits;

/// The number of bytes of the longest text that any fields have, also such as no word has.
pub const LAYER_TEXT_CAPACITY: usize = 88;

/// The text of an instruction of a layer, which lies in the value itself.
pub type LayerText = ArrayString<LAYER_TEXT_CAPACITY>;

/// Appends a number in decimal, and what comes before it.
#[inline]
pub(crate) fn push_number<I: Integer>(text: &mut LayerText, before: &str, number: I)
    requires { length text.old.bytes + length before.now + I.MAX_STR_LEN ≤ LAYER_TEXT_CAPACITY }
    ensures bytes { text.new.bytes ≡ text.old.bytes ++ before.now ++ I.text number }
    ensures length { length text.new.bytes
        ≤ length text.old.bytes + length before.now + I.MAX_STR_LEN }
{
    let mut buffer = Buffer::new();
    text.push_str(before);
    text.push_str(buffer.format(number));
}

/// The mnemonic of a row.
fn mnemonic(row: SystemRow) -> &'static str
    ensures name { result.now ≡ (system_table row).name }
    ensures length { length result.now ≤ 7 }
{
    match row {
        SystemRow::Csrrw => "csrrw",
        SystemRow::Csrrs => "csrrs",
        SystemRow::Csrrc => "csrrc",
        SystemRow::Csrrwi => "csrrwi",
        SystemRow::Csrrsi => "csrrsi",
        SystemRow::Csrrci => "csrrci",
        SystemRow::Mret => "mret",
        SystemRow::Wfi => "wfi",
        SystemRow::FenceI => "fence.i",
    }
}

/// Whether a number is from one to another.
fn is_from_to(first: u32, last: u32, number: u32) -> bool
    ensures same { result ≡ is_from_to first last number }
    ensures within { IsTrue result → (first ≤ number) × (number ≤ last) }
{
    first <= number && number <= last
}

/// Appends the name of a CSR that counts nothing, or a number that is no CSR.
fn push_monitor(text: &mut LayerText, number: u32)
    requires room { length text.old.bytes ≤ 31 }
    ensures bytes { text.new.bytes ≡ text.old.bytes ++ monitor_name number }
    ensures length { length text.new.bytes ≤ length text.old.bytes + 22 }
{
    if is_from_to(0x323, 0x33f, number) {
        push_number(text, "mhpmevent", number - 0x320);
    } else if is_from_to(0xb03, 0xb1f, number) {
        push_number(text, "mhpmcounter", number - 0xb00);
    } else if is_from_to(0xb83, 0xb9f, number) {
        push_number(text, "mhpmcounter", number - 0xb80);
        text.push_str("h");
    } else {
        text.push_str("0x");
        text.push_str(hexadecimal_digits(1, number).as_str());
    }
}

/// Appends a CSR: its name, or its number where it has none.
#[tactic(auto, unfolding(crate::specs::SystemTexts::csr_name))]
fn push_csr(text: &mut LayerText, number: u32)
    requires room { length text.old.bytes ≤ 31 }
    ensures bytes { text.new.bytes ≡ text.old.bytes ++ csr_name number }
    ensures length { length text.new.bytes ≤ length text.old.bytes + 22 }
{
    let name = table_name(number);
    if name.is_empty() {
        push_monitor(text, number);
    } else {
        text.push_str(name);
    }
}

/// The name of a CSR by its number, or its number in hexadecimal where no profile has it.
pub fn csr_name(number: u32) -> LayerText
    ensures name { result.bytes ≡ csr_name number }
    ensures length { length result.bytes ≤ 22 }
{
    let mut text = LayerText::new();
    push_csr(&mut text, number);
    text
}

/// Whether some hart has a CSR with this number, and it has this name.
fn is_named(number: u32, name: &[u8]) -> bool
    ensures yes { OnTrue result ((csr_name number ≡ name.now)
        × (is_csr number ≡ true)) }
    ensures no { OnFalse result (is_csr number ≡ true → csr_name number ≢ name.now) }
{
    if Csr::at(Profile::with_atomics_and_user_mode(), number).is_none() {
        return false;
    }
    csr_name(number).as_bytes() == name
}

/// The number of the CSR that has a name, or `None` where none has it, whatever the profile.
///
/// # Examples
///
/// ```
/// assert_eq!(rt; csr_named(b"mstatus"), Some(0x300));
/// assert_eq!(rt; csr_named(b"satp"), None);
/// ```
pub fn csr_named(name: &[u8]) -> Option<u32>
    ensures named { IfSome result (λ number. (csr_name number ≡ name.now)
        × (is_csr number ≡ true)) }
    ensures none { IfNone result ((number : ℕ) → number < 4096
        → is_csr number ≡ true → csr_name number ≢ name.now) }
{
    for number in 0..4096 {
        if is_named(number, name) {
            return Some(number);
        }
    }
    None
}

/// Appends the operand of an instruction on a CSR.
fn push_operand(text: &mut LayerText, instruction: &SystemInstruction)
    requires room { length text.old.bytes ≤ 53 }
    ensures { text.new.bytes ≡ text.old.bytes ++ codes ", "
        ++ operand_text instruction.now.row instruction.now.fields.rs1 }
{
    if instruction.row.has_immediate() {
        push_number(text, ", ", instruction.fields.rs1);
    } else {
        push_number(text, ", x", instruction.fields.rs1);
    }
}

/// The text of an instruction on a CSR.
fn csr_text(instruction: &SystemInstruction) -> LayerText
    ensures { result.bytes ≡ csr_text instruction.now.row instruction.now.fields }
{
    let mut text = LayerText::new();
    text.push_str(mnemonic(instruction.row));
    push_number(&mut text, " x", instruction.fields.rd);
    text.push_str(", ");
    push_csr(&mut text, instruction.csr_number());
    push_operand(&mut text, instruction);
    text
}

/// The text of an instruction, whatever its fields.
///
/// It is that of `objdump` with `-M numeric,no-aliases`, with the blanks of the texts of the 48
/// rows: a CSR by its name, and the mnemonic that the instruction has in the table. A number that
/// is no CSR of any profile is written in hexadecimal; `objdump` has names for some of these.
///
/// # Examples
///
/// ```
/// let fields = IType { imm: 0x304, rs1: 8, funct3: 6, rd: 1 };
/// let set = SystemInstruction { row: SystemRow::Csrrsi, fields };
/// assert_eq!(rt; system_text(&set).as_str(), "csrrsi x1, mie, 8");
/// ```
pub fn system_text(instruction: &SystemInstruction) -> LayerText
    ensures { result.bytes ≡ system_text instruction.now.row instruction.now.fields }
{
    match instruction.row {
        SystemRow::Mret | SystemRow::Wfi | SystemRow::FenceI => {
            let mut text = LayerText::new();
            text.push_str(mnemonic(instruction.row));
            text
        }
        _ => csr_text(instruction),
    }
}
