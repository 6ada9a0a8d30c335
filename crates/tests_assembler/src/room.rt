//! Collections in a room that is lent.

ghost use Rattle.rrs_lent.specs.Heaps.{IsBack};
ghost use Rattle.rrs_lent.specs.Rooms.{place_of};

use rrs_lent::{LentHeap, Room};
use std::alloc::{AllocError, Allocator};
use std::collections::BTreeMap;
use std::test::Fail;

/// How many numbers a `Vec` takes before an error, up to `most`, and whether all are in it then.
fn filled<A: Allocator + Copy>(alloc: A, most: u64) -> (u64, bool) {
    let mut numbers = Vec::new(alloc);
    let mut count = 0;
    for n in 0..most {
        if numbers.push(n).is_err() {
            break;
        }
        count = n + 1;
    }
    let mut expected = 0;
    for &n in &numbers {
        if n != expected {
            return (count, false);
        }
        expected = n.saturating_add(1);
    }
    (count, expected == count)
}

/// The same in an arena over a heap.
fn filled_over(heap: &LentHeap, most: u64) -> Result<(u64, bool), AllocError> {
    let arena = heap.arena()?;
    Ok(filled(&arena, most))
}

/// As an exported function uses a room.
fn filled_in(room: &mut Room, most: u64) -> Result<(u64, bool), AllocError>
    ensures { IsBack (place_of room.old) (place_of room.new) }
{
    let heap = LentHeap::new(room.take());
    let answer = filled_over(&heap, most);
    *room = heap.into_room();
    answer
}

/// What a map of halves has at 9, of so many numbers.
fn mapped<A: Allocator + Copy>(alloc: A, most: u32) -> Result<Option<u32>, AllocError> {
    let mut halves = BTreeMap::new(alloc);
    for n in 0..most {
        halves.insert(n, n / 2)?;
    }
    Ok(halves.get(&9).copied())
}

/// A `Vec` doubles, so it ends at the largest power of two of numbers that the room holds.
#[test]
fn a_vec_fills_the_room_and_the_room_is_lent_again(rt: HostRuntime) -> Result<(), Fail> {
    for (size, most) in [(496, 32), (1008, 64), (8176, 512), (12272, 1024)] {
        let mut room = Room::of_allocator(&rt.alloc(), size)?;
        let first = filled_in(&mut room, 5000);
        let second = filled_in(&mut room, 20);
        let third = filled_in(&mut room, 5000);
        let is_filled = first == Ok((most, true)) && third == first;
        let is_given = room.with_size().0 == size;
        assert!(rt; is_filled && second == Ok((20, true)) && is_given, "{size}");
    }
    Ok(())
}

#[test]
fn a_small_room_is_an_error(rt: HostRuntime) -> Result<(), Fail> {
    for size in [0, 15, 16, 480] {
        let mut room = Room::of_allocator(&rt.alloc(), size)?;
        let answer = filled_in(&mut room, 1);
        let is_given = room.with_size().0 == size - size % 16;
        assert!(rt; answer == Err(AllocError) && is_given, "{size}");
    }
    let mut none = Room::empty();
    assert!(rt; filled_in(&mut none, 1) == Err(AllocError));
    Ok(())
}

#[test]
fn the_block_is_out_once_at_a_time(rt: HostRuntime) -> Result<(), Fail> {
    let room = Room::of_allocator(&rt.alloc(), 8176)?;
    let heap = LentHeap::new(room);
    let arena = heap.arena()?;
    let while_out = heap.arena().is_err();
    let found = mapped(&arena, 50);
    drop(arena);
    let arena = heap.arena()?;
    assert!(rt; while_out && found == Ok(Some(4)) && mapped(&arena, 10) == Ok(Some(4)));
    std::mem::forget(Box::new(&arena, 3u64)?);
    drop(arena);
    assert!(rt; heap.size() == 8176 && heap.into_room().with_size().0 == 0);
    Ok(())
}
