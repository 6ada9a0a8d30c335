//! From compressed instructions to half-words.

ghost use Rattle.std.specs.Prelude.{◌≡◌, ◌≢◌, ◌↔◌, ◌<◌, ◌*◌, ◌%◌, ◌^◌, ℕ, Some};
ghost use Rattle.std.specs.Bool.{OnFalse, OnTrue};
ghost use Rattle.rrs_words.specs.Forms.{IsShort, immediate_bits, six_bits, shift_amount, word_offset, stack_load_offset, stack_store_offset, above_stack, stack_step, jump_offset, branch_offset};

use crate::forms::{ShortForm, ShortInstruction, ShortOperands};
use crate::short_decoding::decode_short;

/// The places of an immediate of six bits.
fn six_bits(imm: u16) -> u16
    ensures bits { result ≡ immediate_bits six_bits.pieces imm }
    ensures below { result < 2 ^ 13 }
{
    imm / 0x20 % 2 * 0x1000 + imm % 0x20 * 4
}

/// The places of a shift amount.
fn shift_amount(imm: u16) -> u16
    ensures bits { result ≡ immediate_bits shift_amount.pieces imm }
    ensures below { result < 2 ^ 7 }
{
    imm % 0x20 * 4
}

/// The places of the offset of `c.lw` and `c.sw`.
fn word_offset(imm: u16) -> u16
    ensures bits { result ≡ immediate_bits word_offset.pieces imm }
    ensures below { result < 2 ^ 13 }
{
    imm / 8 % 8 * 0x400 + imm / 4 % 2 * 0x40 + imm / 0x40 % 2 * 0x20
}

/// The places of the offset of `c.lwsp`.
fn stack_load_offset(imm: u16) -> u16
    ensures bits { result ≡ immediate_bits stack_load_offset.pieces imm }
    ensures below { result < 2 ^ 13 }
{
    imm / 0x20 % 2 * 0x1000 + imm / 4 % 8 * 0x10 + imm / 0x40 % 4 * 4
}

/// The places of the offset of `c.swsp`.
fn stack_store_offset(imm: u16) -> u16
    ensures bits { result ≡ immediate_bits stack_store_offset.pieces imm }
    ensures below { result < 2 ^ 13 }
{
    imm / 4 % 0x10 * 0x200 + imm / 0x40 % 4 * 0x80
}

/// The places of the immediate of `c.addi4spn`.
fn above_stack(imm: u16) -> u16
    ensures bits { result ≡ immediate_bits above_stack.pieces imm }
    ensures below { result < 2 ^ 13 }
{
    let high = imm / 0x10 % 4 * 0x800 + imm / 0x40 % 0x10 * 0x80;
    high + imm / 4 % 2 * 0x40 + imm / 8 % 2 * 0x20
}

/// The places of the immediate of `c.addi16sp`.
fn stack_step(imm: u16) -> u16
    ensures bits { result ≡ immediate_bits stack_step.pieces imm }
    ensures below { result < 2 ^ 13 }
{
    let high = imm / 0x200 % 2 * 0x1000 + imm / 0x10 % 2 * 0x40 + imm / 0x40 % 2 * 0x20;
    high + imm / 0x80 % 4 * 8 + imm / 0x20 % 2 * 4
}

/// The places of the offset of `c.jal` and `c.j`.
fn jump_offset(imm: u16) -> u16
    ensures bits { result ≡ immediate_bits jump_offset.pieces imm }
    ensures below { result < 2 ^ 13 }
{
    imm / 0x800 % 2 * 0x1000
        + imm / 0x10 % 2 * 0x800
        + imm / 0x100 % 4 * 0x200
        + imm / 0x400 % 2 * 0x100
        + imm / 0x40 % 2 * 0x80
        + imm / 0x80 % 2 * 0x40
        + imm / 2 % 8 * 8
        + imm / 0x20 % 2 * 4
}

/// The places of the offset of `c.beqz` and `c.bnez`.
fn branch_offset(imm: u16) -> u16
    ensures bits { result ≡ immediate_bits branch_offset.pieces imm }
    ensures below { result < 2 ^ 13 }
{
    let high = imm / 0x100 % 2 * 0x1000 + imm / 8 % 4 * 0x400 + imm / 0x40 % 4 * 0x20;
    high + imm / 2 % 4 * 8 + imm / 0x20 % 2 * 4
}

/// The half-word that the instruction is, if one is.
fn half_of(short: &ShortInstruction) -> u16
    ensures { (h : ℕ) → IsShort h short.now.form short.now.operands → h ≡ result }
{
    let ShortOperands { first, second, imm } = short.operands;
    let (five, three) = ((first % 0x20) as u16 * 0x80, (first % 8) as u16 * 0x80);
    let (low_five, low_three) = ((second % 0x20) as u16 * 4, (second % 8) as u16 * 4);
    match short.form {
        ShortForm::Addi4spn => (first % 8) as u16 * 4 + above_stack(imm),
        ShortForm::Lw => 0x4000
            + (first % 8) as u16 * 4
            + (second % 8) as u16 * 0x80
            + word_offset(imm),
        ShortForm::Sw => 0xc000
            + (first % 8) as u16 * 4
            + (second % 8) as u16 * 0x80
            + word_offset(imm),
        ShortForm::Addi => 0x0001 + five + six_bits(imm),
        ShortForm::Jal => 0x2001 + jump_offset(imm),
        ShortForm::Li => 0x4001 + five + six_bits(imm),
        ShortForm::Addi16sp => 0x6101 + stack_step(imm),
        ShortForm::Lui => 0x6001 + five + six_bits(imm),
        ShortForm::Srli => 0x8001 + three + shift_amount(imm),
        ShortForm::Srai => 0x8401 + three + shift_amount(imm),
        ShortForm::Andi => 0x8801 + three + six_bits(imm),
        ShortForm::Sub => 0x8c01 + three + low_three,
        ShortForm::Xor => 0x8c21 + three + low_three,
        ShortForm::Or => 0x8c41 + three + low_three,
        ShortForm::And => 0x8c61 + three + low_three,
        ShortForm::J => 0xa001 + jump_offset(imm),
        ShortForm::Beqz => 0xc001 + three + branch_offset(imm),
        ShortForm::Bnez => 0xe001 + three + branch_offset(imm),
        ShortForm::Slli => 0x0002 + five + shift_amount(imm),
        ShortForm::Lwsp => 0x4002 + five + stack_load_offset(imm),
        ShortForm::Jr => 0x8002 + five,
        ShortForm::Mv => 0x8002 + five + low_five,
        ShortForm::Ebreak => 0x9002,
        ShortForm::Jalr => 0x9002 + five,
        ShortForm::Add => 0x9002 + five + low_five,
        ShortForm::Swsp => 0xc002 + (first % 0x20) as u16 * 4 + stack_store_offset(imm),
    }
}

/// Whether two forms are one.
fn is_same_form(one: ShortForm, other: ShortForm) -> bool
    ensures yes { OnTrue result (one ≡ other) }
    ensures no { OnFalse result (one ≢ other) }
{
    one == other
}

/// Whether two instructions are one.
fn is_same(one: &ShortInstruction, other: &ShortInstruction) -> bool
    ensures yes { OnTrue result ((one.now.form ≡ other.now.form)
        × (one.now.operands ≡ other.now.operands)) }
    ensures no { OnFalse result (one.now.form ≡ other.now.form
        → one.now.operands ≢ other.now.operands) }
{
    is_same_form(one.form, other.form) && one.operands == other.operands
}

/// The half-word that the instruction is, or `None` where none is.
///
/// None is where a register or the immediate is out of the range of the form, or is one that the
/// form may not have. What `decode_short` returned has the half-word that was decoded.
///
/// # Examples
///
/// ```
/// let operands = ShortOperands { first: 8, second: 9, imm: 4 };
/// let load = ShortInstruction { form: ShortForm::Lw, operands };
/// assert_eq!(rt; encode_short(&load), Some(0x40c0));
/// ```
pub fn encode_short(short: &ShortInstruction) -> Option<u16>
    ensures { (h : ℕ) → (result ≡ Some h) ↔ IsShort h short.now.form short.now.operands }
{
    let half = half_of(short);
    let found = decode_short(half)?;
    if is_same(&found, short) {
        Some(half)
    } else {
        None
    }
}
