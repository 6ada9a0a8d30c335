//! The text of an instruction, in a buffer of C.

ghost use Rattle.std.specs.Prelude.{◌≡◌};
ghost use Rattle.rrs_c.specs.Buffers.{with_text, PutsLayer};
ghost use Rattle.rrs_c.specs.Shorts.{PutsShort};

use rrs_words::{decode_layer, decode_short, layer_text, short_text};

/// Puts a text at the front of a buffer, and a 0 after it, where there is room for both.
#[inline]
pub(crate) fn put_text(text: &[u8], buffer: &mut [u8])
    ensures { buffer.new ≡ with_text text.now buffer.old }
{
    if text.len() < buffer.len() {
        buffer[..text.len()].copy_from_slice(text);
        buffer[text.len()] = 0;
    }
}

/// Puts the text of a word that is an instruction of a layer at the front of a buffer, and a 0 after
/// it, where there is room for both. Returns its length, and 0 for a word that is none.
pub(crate) fn put_layer(word: u32, buffer: &mut [u8]) -> usize
    ensures { PutsLayer word buffer.old buffer.new result }
{
    match decode_layer(word) {
        Some(instruction) => {
            let text = layer_text(&instruction);
            put_text(text.as_str().as_bytes(), buffer);
            text.len()
        }
        None => 0,
    }
}

/// Puts the text of a half-word that is a compressed instruction at the front of a buffer, and a 0
/// after it, where there is room for both. Returns its length, and 0 for a half-word that is none.
pub(crate) fn put_short(half: u16, pc: u32, buffer: &mut [u8]) -> usize
    ensures { PutsShort half pc buffer.old buffer.new result }
{
    match decode_short(half) {
        Some(short) => {
            let text = short_text(&short, pc);
            put_text(text.as_str().as_bytes(), buffer);
            text.len()
        }
        None => 0,
    }
}
