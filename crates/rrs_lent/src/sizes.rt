//! How much of a room of a size an arena can take.

ghost use Rattle.std.specs.Prelude.{◌+◌, ◌^◌, ◌<◌, ◌≤◌};

// What an arena asks of its parent beside the capacity of a chunk.
const FOOTER: usize = 48;

// What an arena leaves to its parent, so that all three come to a power of two from 512 to 4096, or
// to whole pages.
const OVERHEAD: usize = 16;

const SMALLEST: usize = 512;

const PAGE: usize = 4096;

/// The capacity to ask of an arena, so that its first chunk takes as much of a room of `size` bytes
/// as a chunk can. It takes all of a room of 496, 1008 or 2032 bytes or of whole pages less 16
/// bytes, and leaves fewer than 4096 bytes of any other. In fewer than 496 bytes no chunk fits, and
/// an arena is an error.
pub fn capacity_of(size: usize) -> usize
    ensures fits { 496 ≤ size → result + 48 ≤ size }
    ensures fills { size < 2 ^ 61 → size < result + 48 + 4096 }
{
    let most = size.saturating_add(OVERHEAD).min(1 << 62);
    let total = if most < PAGE {
        power_below(most)
    } else {
        most - most % PAGE
    };
    total - FOOTER - OVERHEAD
}

// The largest power of two up to `most`, or 512.
fn power_below(most: usize) -> usize
    ensures { (512 ≤ result) × (512 ≤ most → result ≤ most) }
{
    if most >= 2048 {
        2048
    } else if most >= 1024 {
        1024
    } else {
        SMALLEST
    }
}
