//! Compressed instructions for C: their texts, and the words that they stand for.

ghost use Rattle.std.specs.Prelude.{◌%◌, ◌^◌};
ghost use Rattle.rrs_c.specs.Profiled.{hart_profile_in};
ghost use Rattle.rrs_c.specs.Shorts.{DisassemblesIn, Expands};

use crate::profiled::hart_profile_of;
use crate::rrs_disassemble;
use crate::text::put_short;
use rrs_encode::encode;
use rrs_words::{decode_short, expanded};

/// Writes the text of what the hart of a profile executes of the four bytes at an address, as
/// `rrs_disassemble` does: with extension C of the half-word in the low bits, where it is the whole
/// instruction, and else of the word.
#[unsafe(no_mangle)]
pub extern "C" fn rrs_disassemble_hart(word: u32, pc: u32, profile: u32, buffer: &mut [u8]) -> usize
    ensures { DisassemblesIn (hart_profile_in profile) word pc buffer.old buffer.new result }
{
    if hart_profile_of(profile).compressed && word % 4 != 3 {
        put_short((word % 0x1_0000) as u16, pc, buffer)
    } else {
        rrs_disassemble(word, pc, buffer)
    }
}

/// The word of 32 bits that a compressed instruction, the low half of a number, stands for, and 0
/// for a half-word that is none. They differ in the next pc and in the link.
#[unsafe(no_mangle)]
pub extern "C" fn rrs_expand(half: u32) -> u32
    ensures { Expands (half % 2 ^ 16) result }
{
    let Some(short) = decode_short((half % 0x1_0000) as u16) else {
        return 0;
    };
    match encode(&expanded(&short)) {
        Some(word) => word,
        None => 0,
    }
}
