//! Whether a result keeps what stands above the first directive.

ghost use Rattle.std.specs.Prelude.{◌≡◌, ◌<◌, ◌+◌, true, length, slice_index};
ghost use Rattle.rrs_asm_macros.specs.Lines.{KeepsAbove};

use crate::output::Expanded;
use crate::words::has_directives;
use rrs_asm_lines::first_line;
use std::alloc::Allocator;

/// Whether the lines above the first one with a directive stand at the head of a result, each as it
/// is, and of itself.
pub fn keeps_above<A: Allocator + Copy>(source: &[u8], expanded: &Expanded<A>) -> bool
    ensures { result ≡ true → KeepsAbove source.now expanded.now }
{
    let mut number = 0usize;
    let mut left = Some(source);
    let mut made = Some(expanded.text.as_slice());
    while let Some(text) = left {
        let (line, others) = first_line(text);
        if has_directives(line) {
            return true;
        }
        let Some(own) = made else {
            return false;
        };
        let (own_line, own_others) = first_line(own);
        if own_line != line || !is_numbered(&expanded.lines, number) {
            return false;
        }
        number += 1;
        left = others;
        made = own_others;
    }
    true
}

/// Whether the line with this index has the number that is one more.
fn is_numbered(numbers: &[usize], index: usize) -> bool
    ensures { result ≡ true → (index < length numbers.now)
        × (slice_index numbers.now index ≡ index + 1) }
{
    index < numbers.len() && numbers[index] == index + 1
}
