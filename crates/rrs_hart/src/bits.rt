//! What the instructions of Zba to Zicond do.
//!
//! [bit_result] is the result of one, and [execute_bits] writes it. `specs/Bits.antt` says what they
//! are.

ghost use Rattle.std.specs.Prelude.{◌≡◌, ◌<◌, ◌≤◌, ◌%◌, ℕ, Bool, Option, slice_index};
ghost use Rattle.rrs_instruction.specs.Words.{bit};
ghost use Rattle.rrs_words.specs.declared.bits.BitRow.{BitRow};
ghost use Rattle.rrs_instruction.specs.Encodings.{R, HasRegisters};
ghost use Rattle.rrs_lib.specs.Machine.{state_of, reg};
ghost use Rattle.rrs_words.specs.BitInstructions.{bit_table};
ghost use Rattle.rrs_hart.specs.Bits.{single, whole_byte, carryless, in_turn, every_other, bit_result, second_operand, bits_done};

use rrs_instruction::arithmetic;
use rrs_lib::HartState;
use rrs_lib::instruction_formats::RType;
use rrs_words::{BitOperand, BitRow};

/// The bit at a place modulo 32 alone.
fn single(place: u32) -> u32
    ensures { result ≡ single place }
{
    arithmetic::sll(1, place)
}

/// The bit of a word at a place modulo 32.
fn bit_at(x: u32, place: u32) -> u32
    ensures { result ≡ bit x (place % 32) }
{
    (x >> (place & 31)) % 2
}

/// The greater as signed numbers.
fn greater(x: u32, y: u32) -> u32
    ensures { result ≡ bit_result BitRow.Max x y }
{
    if arithmetic::less_than_signed(x, y) {
        y
    } else {
        x
    }
}

/// The smaller as signed numbers.
fn smaller(x: u32, y: u32) -> u32
    ensures { result ≡ bit_result BitRow.Min x y }
{
    if arithmetic::less_than_signed(x, y) {
        x
    } else {
        y
    }
}

/// 0xff where a byte is not 0.
fn whole_byte(byte: u8) -> u8
    ensures { result ≡ whole_byte byte }
{
    if byte == 0 { 0 } else { 0xff }
}

/// Each byte that is not 0 becomes 0xff.
fn whole_bytes(x: u32) -> u32
    ensures { result ≡ bit_result BitRow.OrcB x 0 }
{
    let bytes = x.to_le_bytes();
    u32::from_le_bytes([
        whole_byte(bytes[0]),
        whole_byte(bytes[1]),
        whole_byte(bytes[2]),
        whole_byte(bytes[3]),
    ])
}

/// The product without carries of a number and so many low bits of another one.
#[tactic(auto, using(crate::proofs::BitSums::carryless_fits), unfolding(crate::specs::Bits::carryless))]
fn carryless(count: u32, x: u32, y: u32) -> u64
    requires { count ≤ 32 }
    ensures { result ≡ carryless count x y }
{
    if count == 0 {
        return 0;
    }
    let above = carryless(count - 1, x, y / 2);
    let here = if y % 2 == 1 { u64::from(x) } else { 0 };
    here ^ (2 * above)
}

/// The bits of each byte in the other order.
fn reversed_bytes(x: u32) -> u32
    ensures { result ≡ bit_result BitRow.Brev8 x 0 }
{
    let bytes = x.to_le_bytes();
    u32::from_le_bytes([
        bytes[0].reverse_bits(),
        bytes[1].reverse_bits(),
        bytes[2].reverse_bits(),
        bytes[3].reverse_bits(),
    ])
}

/// So many low bits of two numbers in turn.
#[tactic(auto, using(crate::proofs::BitSums::in_turn_fits), unfolding(crate::specs::Bits::in_turn))]
fn in_turn(count: u32, x: u32, y: u32) -> u32
    requires { count ≤ 16 }
    ensures { result ≡ in_turn count x y }
{
    if count == 0 {
        return 0;
    }
    x % 2 + y % 2 * 2 + 4 * in_turn(count - 1, x / 2, y / 2)
}

/// Every other bit of a number, so many of them.
#[tactic(auto, using(crate::proofs::BitSums::every_other_fits), unfolding(crate::specs::Bits::every_other))]
fn every_other(count: u32, x: u32) -> u32
    requires { count ≤ 16 }
    ensures { result ≡ every_other count x }
{
    if count == 0 {
        return 0;
    }
    x % 2 + 2 * every_other(count - 1, x / 4)
}

/// The result of an instruction, from the value of rs1 and that of rs2 or the shift amount.
#[tactic(auto, using(crate::proofs::BitSums::every_other_fits))]
pub fn bit_result(row: BitRow, x: u32, y: u32) -> u32
    ensures { result ≡ bit_result row x y }
{
    match row {
        BitRow::Sh1add => x.wrapping_mul(2).wrapping_add(y),
        BitRow::Sh2add => x.wrapping_mul(4).wrapping_add(y),
        BitRow::Sh3add => x.wrapping_mul(8).wrapping_add(y),
        BitRow::Andn => arithmetic::and(x, !y),
        BitRow::Orn => arithmetic::or(x, !y),
        BitRow::Xnor => !arithmetic::xor(x, y),
        BitRow::Clz => x.leading_zeros(),
        BitRow::Ctz => x.trailing_zeros(),
        BitRow::Cpop => x.count_ones(),
        BitRow::Max => greater(x, y),
        BitRow::Maxu => { if x < y { y } else { x } }
        BitRow::Min => smaller(x, y),
        BitRow::Minu => { if x < y { x } else { y } }
        BitRow::SextB => arithmetic::sign_extended_byte(x % 0x100),
        BitRow::SextH => arithmetic::sign_extended_half_word(x % 0x1_0000),
        BitRow::ZextH => x % 0x1_0000,
        BitRow::Rol => x.rotate_left(y),
        BitRow::Ror | BitRow::Rori => x.rotate_right(y),
        BitRow::OrcB => whole_bytes(x),
        BitRow::Rev8 => x.swap_bytes(),
        BitRow::Bclr | BitRow::Bclri => arithmetic::and(x, !single(y)),
        BitRow::Bext | BitRow::Bexti => bit_at(x, y),
        BitRow::Binv | BitRow::Binvi => arithmetic::xor(x, single(y)),
        BitRow::Bset | BitRow::Bseti => arithmetic::or(x, single(y)),
        BitRow::Clmul => (carryless(32, x, y) % 0x1_0000_0000) as u32,
        BitRow::Clmulh => (carryless(32, x, y) / 0x1_0000_0000) as u32,
        BitRow::Clmulr => (carryless(32, x, y) / 0x8000_0000 % 0x1_0000_0000) as u32,
        BitRow::Pack => x % 0x1_0000 + y % 0x1_0000 * 0x1_0000,
        BitRow::Packh => x % 0x100 + y % 0x100 * 0x100,
        BitRow::Brev8 => reversed_bytes(x),
        BitRow::Zip => in_turn(16, x, x / 0x1_0000),
        BitRow::Unzip => every_other(16, x) + every_other(16, x / 2) * 0x1_0000,
        BitRow::CzeroEqz => { if y == 0 { 0 } else { x } }
        BitRow::CzeroNez => { if y == 0 { x } else { 0 } }
    }
}

/// Executes an instruction of Zba to Zicond. The pc stays: the caller moves it on.
///
/// The clauses: rd gets the result, and nothing else changes (`done`); the entry of x0 stays
/// (`entry_zero`).
pub fn execute_bits(hart: &mut HartState, row: BitRow, fields: &RType)
    requires { HasRegisters (R fields.now) }
    ensures done { (bytes : ℕ → Option ℕ) (writable : ℕ → Bool) → state_of hart.new bytes writable
        ≡ bits_done row fields.now (state_of hart.old bytes writable) }
    ensures entry_zero { slice_index hart.new.registers 0 ≡ slice_index hart.old.registers 0 }
{
    let first = hart.read_register(fields.rs1);
    let second = match row.operand() {
        BitOperand::Register | BitOperand::NotX0 => hart.read_register(fields.rs2),
        _ => fields.rs2 as u32,
    };
    hart.write_register(fields.rd, bit_result(row, first, second));
}
