//! The numbers of the calls that are not served.

ghost use Rattle.std.specs.Prelude.{◌≡◌};
ghost use Rattle.rrs_linux.specs.SystemCalls.{noted, noted_break};

use crate::Heap;
use crate::requests::BRK;
use arrayvec::ArrayVec;

/// How many numbers of calls that are not served are kept.
pub const MOST_UNSERVED: usize = 16;

/// Keeps the number of a call that is not served, unless it is kept already or there is no room.
pub fn keep_number(numbers: &mut ArrayVec<u32, MOST_UNSERVED>, number: u32)
    ensures { numbers.new.items ≡ noted numbers.old.items number }
{
    if !numbers.contains(&number) && !numbers.is_full() {
        numbers.push(number);
    }
}

/// Keeps the number of `brk` where a program asks for a break past the highest one: it is refused
/// memory.
pub(crate) fn note_break(heap: Heap, numbers: &mut ArrayVec<u32, MOST_UNSERVED>, address: u32)
    ensures { numbers.new.items ≡ noted_break heap numbers.old.items address }
{
    if heap.end < address {
        keep_number(numbers, BRK);
    }
}
