//! The registers as gdb has them: x0 to x31, and then the pc.

ghost use Rattle.std.specs.Prelude.{◌≡◌, ◌≢◌, ◌<◌, ◌≤◌, ◌+◌, ◌*◌, ◌++◌, ℕ, Bool, Option, length, slice_index, IfOk, OnOk};
ghost use Rattle.std.specs.Bool.{OnTrue, OnFalse};
ghost use Rattle.rrs_lib.specs.Machine.{state_of};
ghost use Rattle.rrs_gdb.specs.Shown.{text_of, word_bytes, words_text, register, register_text, registers_text, with_register, word_at};

use crate::framing::push_bytes;
use rrs_lib::HartState;
use std::alloc::AllocError;

/// How many registers gdb knows: 32, and the pc.
pub const REGISTERS: u32 = 33;

/// How many bytes they have.
const REGISTER_BYTES: usize = 132;

/// Appends a word: its bytes, the lowest first, each as two digits.
///
/// # Errors
///
/// Out of memory.
pub fn push_word(text: &mut Vec<u8>, word: u32) -> Result<(), AllocError>
    ensures { OnOk result (text.new.items ≡ text.old.items ++ text_of (word_bytes word)) }
{
    push_bytes(
        text,
        &[
            (word % 256) as u8,
            (word / 256 % 256) as u8,
            (word / 65536 % 256) as u8,
            (word / 16777216 % 256) as u8,
        ],
    )
}

/// Appends words.
fn push_words(text: &mut Vec<u8>, words: &[u32]) -> Result<(), AllocError>
    ensures { OnOk result (text.new.items ≡ text.old.items ++ words_text words.now) }
{
    for word in words {
        push_word(text, *word)?;
    }
    Ok(())
}

/// The value of a register by its number, 32 for the pc.
pub fn register_value(hart: &HartState, number: u32) -> u32
    requires { number < 33 }
    ensures { (bytes : ℕ → Option ℕ) (writable : ℕ → Bool)
        → result ≡ register (state_of hart.now bytes writable) number }
{
    if number == 32 {
        hart.pc
    } else {
        hart.read_register(number as usize)
    }
}

/// Appends the text of a register by its number, 32 for the pc: the value's bytes, the lowest
/// first. It tells whether there is such a register; where there is none, nothing is appended.
///
/// # Errors
///
/// Out of memory.
pub fn push_register(hart: &HartState, number: u32, text: &mut Vec<u8>) -> Result<bool, AllocError>
    ensures shown { (bytes : ℕ → Option ℕ) (writable : ℕ → Bool) → IfOk result (λ found. OnTrue found
        (text.new.items ≡ text.old.items
        ++ register_text (state_of hart.now bytes writable) number)) }
    ensures found { IfOk result (λ found. OnTrue found (number < 33)) }
    ensures none { IfOk result (λ found. OnFalse found
        ((33 ≤ number) × (text.new.items ≡ text.old.items))) }
{
    if number >= REGISTERS {
        return Ok(false);
    }
    push_word(text, register_value(hart, number))?;
    Ok(true)
}

/// Appends the texts of all registers, x0 to x31 and then the pc.
///
/// # Errors
///
/// Out of memory.
pub fn push_registers(hart: &HartState, text: &mut Vec<u8>) -> Result<(), AllocError>
    ensures { (bytes : ℕ → Option ℕ) (writable : ℕ → Bool)
        → OnOk result (text.new.items ≡ text.old.items
        ++ registers_text (state_of hart.now bytes writable)) }
{
    // From this call the check knows that there are 32 registers.
    let _count = hart.register_count();
    push_word(text, 0)?;
    push_words(text, &hart.registers[1..])?;
    push_word(text, hart.pc)?;
    Ok(())
}

/// Changes a register, 1 to 32, where 32 is the pc, and returns whether there is such a register.
/// x0 is none: it is 0. Nothing else changes.
pub fn write_register(hart: &mut HartState, number: u32, value: u32) -> bool
    ensures written { (bytes : ℕ → Option ℕ) (writable : ℕ → Bool) → OnTrue result
        (state_of hart.new bytes writable
        ≡ with_register (state_of hart.old bytes writable) number value) }
    ensures found { OnTrue result ((1 ≤ number) × (number ≤ 32)) }
    ensures last { hart.new.last_register_write ≡ hart.old.last_register_write }
    ensures none { OnFalse result (hart.new ≡ hart.old) }
    ensures refused { OnFalse result (1 ≤ number → 33 ≤ number) }
    ensures entry_zero { slice_index hart.new.registers 0 ≡ slice_index hart.old.registers 0 }
{
    if number == 32 {
        hart.pc = value;
        return true;
    }
    if 0 < number && number < 32 {
        hart.registers[number as usize] = value;
        return true;
    }
    false
}

/// The word at a place of bytes, the lowest first.
pub(crate) fn word_at(bytes: &[u8], at: usize) -> u32
    requires { at + 4 ≤ length bytes.now }
    ensures { result ≡ word_at bytes.now at }
{
    u32::from(bytes[at])
        + 256 * u32::from(bytes[at + 1])
        + 65536 * u32::from(bytes[at + 2])
        + 16777216 * u32::from(bytes[at + 3])
}

/// Changes all registers to the words of these bytes, and returns whether there are as many: 132
/// bytes. The first word, for x0, counts for nothing. Where there are not as many, nothing changes.
pub fn write_registers(hart: &mut HartState, bytes: &[u8]) -> bool
    ensures written { OnTrue result ((r : ℕ) → 1 ≤ r → r < 32
        → slice_index hart.new.registers r ≡ word_at bytes.now (4 * r)) }
    ensures pc { OnTrue result (hart.new.pc ≡ word_at bytes.now 128) }
    ensures last { hart.new.last_register_write ≡ hart.old.last_register_write }
    ensures entry_zero { slice_index hart.new.registers 0 ≡ slice_index hart.old.registers 0 }
    ensures whole { OnTrue result (length bytes.now ≡ 132) }
    ensures none { OnFalse result ((hart.new ≡ hart.old) × (length bytes.now ≢ 132)) }
{
    if bytes.len() != REGISTER_BYTES {
        return false;
    }
    for number in 1..32_usize {
        hart.registers[number] = word_at(bytes, 4 * number);
    }
    hart.pc = word_at(bytes, 128);
    true
}
