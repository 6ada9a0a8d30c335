//! The room: memory that C, a page or another program lends, by its start and its size.

ghost use Rattle.std.specs.Prelude.{◌≡◌, ◌*◌, ◌/◌, ◌%◌, ◌^◌, ◌<◌, IfSome, IfOk};
ghost use Rattle.rrs_lent.specs.Rooms.{place_of, room_size};

use std::alloc::{AllocError, Allocator};
use std::marker::Model;
use std::ptr::null_mut;

/// The bytes of which memory is given, and to which each block is aligned.
pub(crate) const UNIT: usize = 16;

/// Memory that is lent: `size` bytes from `start` on. C has it as a struct of a pointer and a
/// `size_t`, and passes a pointer to that.
///
/// It owns the whole units of 16 bytes among them, and nothing where there are none, so `start` may
/// then be null. The bytes may hold anything. Whoever makes one in C owes that `start` is aligned
/// to 16, that the struct itself and all else that the call is given lie outside of the room, and
/// that nobody reads or writes it until the call has returned.
#[repr(C)]
#[derive(Drop)]
pub struct Room {
    pub(crate) start: *mut u8,
    pub(crate) size: usize,
}

impl Model for Room {
    ghost use Rattle.rrs_lent.specs.Ownership.{room_owns};

    ghost also_owns = { λ r. room_owns (r.start, r.size) };
}

impl Room {
    /// A room of no bytes.
    pub fn empty() -> Room
        ensures { room_size result ≡ 0 }
    {
        Room {
            start: null_mut(),
            size: 0,
        }
    }

    /// A room of at most `size` bytes of another allocator, which never has them back.
    pub fn of_allocator<A: Allocator>(alloc: &A, size: usize) -> Result<Room, AllocError>
        ensures { IfOk result (λ r. size < 2 ^ 63 → room_size r ≡ size / 16 * 16) }
    {
        let most = size.min(isize::MAX as usize);
        Room::allocated(alloc, most - most % UNIT).ok_or(AllocError)
    }

    fn allocated<A: Allocator>(alloc: &A, size: usize) -> Option<Room>
        requires { (size % 16 ≡ 0) × (size < 2 ^ 63) }
        ensures { IfSome result (λ r. room_size r ≡ size) }
    {
        match alloc.allocate(size, UNIT) {
            Ok(start) => Some(Room { start, size }),
            Err(_) => None,
        }
    }

    /// The room that lies here, in whose place an empty one is left.
    pub fn take(&mut self) -> Room
        ensures taken { result ≡ self.old }
        ensures left { room_size self.new ≡ 0 }
    {
        std::mem::replace(self, Room::empty())
    }

    /// The size, and the room again.
    pub fn with_size(self) -> (usize, Room)
        ensures { (result.0 ≡ room_size self) × (result.1 ≡ self) }
    {
        let Room { start, size } = self;
        (size, Room { start, size })
    }
}
