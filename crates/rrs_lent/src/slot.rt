//! A cell that holds the room of one place, or nothing while its block is out.

ghost use Rattle.std.specs.Prelude.{◌≡◌};
ghost use base.Fml.{fex, fsep};
ghost use Rattle.bumpalo.specs.Ownership.{behind_a_ref};
ghost use Rattle.rrs_lent.specs.Ownership.{Place};
ghost use Rattle.rrs_lent.specs.Rooms.{place_of, LiesAt, lies_there};

use crate::room::Room;
use std::marker::{Move, Owns};

#[derive(Drop)]
pub(crate) struct Slot {
    room: Option<Room>,
}

impl Owns for Slot {
    ghost Value = { Place };

    ghost shr_at = { λ p. behind_a_ref Fields (λ i. lies_there p i.room) };
}

impl Move for Slot {
    ghost own_val = { λ p vs. fex Inside (λ i. fsep (Fields.own_val i vs) (lies_there p i.room)) };
}

impl Slot {
    pub(crate) fn new(room: Room) -> Slot
        ensures { result ≡ place_of room }
    {
        Slot { room: Some(room) }
    }

    pub(crate) fn replace(&self, room: Option<Room>) -> Option<Room>
        requires { LiesAt self.now room }
        ensures { LiesAt self.now result }
    {
        let place = &raw const self.room as *mut Option<Room>;
        unsafe {
            let old = place.read();
            place.write(room);
            old
        }
    }

    pub(crate) fn into_inner(self) -> Option<Room>
        ensures { LiesAt self result }
    {
        let Slot { room } = self;
        room
    }
}
