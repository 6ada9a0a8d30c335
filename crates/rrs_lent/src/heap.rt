//! What the allocator over a lent room does: it gives the room as one block, and takes it back.

ghost use Rattle.std.specs.Prelude.{◌≡◌, ◌^◌, ◌<◌, ◌≤◌, IfSome};
ghost use Rattle.rrs_lent.specs.Ownership.{block_token};
ghost use Rattle.rrs_lent.specs.Heaps.{heap_place, Grants, IsBack};
ghost use Rattle.rrs_lent.specs.Rooms.{place_of};

use crate::lent_heap::LentHeap;
use crate::room::{Room, UNIT};
use crate::sizes::capacity_of;
use crate::slot::Slot;
use bumpalo::Bump;
use std::alloc::{AllocError, Allocator};

impl LentHeap {
    /// A heap whose memory is the room.
    pub fn new(room: Room) -> LentHeap
        ensures { heap_place result ≡ place_of room }
    {
        let (size, room) = room.with_size();
        LentHeap {
            slot: Slot::new(room),
            size,
        }
    }

    /// The bytes of the room, also while the block is out.
    pub fn size(&self) -> usize
        ensures { result ≡ (heap_place self.now).1 }
    {
        self.size
    }

    /// An arena whose one chunk is the room, up to [capacity_of] its size. The chunk comes back
    /// when the arena is dropped, if all that was allocated in it was dropped before.
    ///
    /// # Errors
    ///
    /// The room has fewer than 496 bytes, or the block is out. The heap stays as it is.
    pub fn arena(&self) -> Result<Bump<&LentHeap>, AllocError> {
        Bump::try_with_capacity(self, capacity_of(self.size))
    }

    /// The room again, to be lent once more. Where a value in an arena was forgotten and not
    /// dropped, the block is still out: its memory is then lost, and the room is empty.
    pub fn into_room(self) -> Room
        ensures { IsBack (heap_place self) (place_of result) }
    {
        let LentHeap { slot, size: _ } = self;
        match slot.into_inner() {
            Some(room) => room,
            None => Room::empty(),
        }
    }

    fn take(&self, size: usize, align: usize) -> Option<Room>
        ensures { IfSome result (Grants (heap_place self.now) size align) }
    {
        let usable = self.size - self.size % UNIT;
        if usable == 0 || size > usable || size > isize::MAX as usize || align > UNIT {
            return None;
        }
        self.slot.replace(None)
    }

    fn give(&self, room: Room)
        requires { place_of room ≡ heap_place self.now }
    {
        self.slot.replace(Some(room));
    }
}

unsafe impl Allocator for LentHeap {
    ghost dealloc_token = { λ heap. block_token (heap_place heap) };

    fn allocate(&self, size: usize, align: usize) -> Result<*mut u8, AllocError> {
        match self.take(size, align) {
            Some(Room { start, size: _ }) => Ok(start),
            None => Err(AllocError),
        }
    }

    unsafe fn deallocate(&self, ptr: *mut u8, _size: usize, _align: usize) {
        let size = self.size();
        self.give(Room { start: ptr, size });
    }
}
