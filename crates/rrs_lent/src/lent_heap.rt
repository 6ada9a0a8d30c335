//! The allocator over a lent room, [LentHeap]. Its functions are in `heap`, since their clauses
//! cite what reads it.

ghost use Rattle.std.specs.Prelude.{◌≡◌};

use crate::slot::Slot;

/// An allocator over a room. It gives the whole room as its one block, and again once that came
/// back. While the block is out it has no memory, and each other request is an error.
#[derive(Drop)]
pub struct LentHeap {
    pub(crate) slot: Slot,
    pub(crate) size: usize,
    ghost tied: { slot.1 ≡ size },
}
