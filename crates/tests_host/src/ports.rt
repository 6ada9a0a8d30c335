//! The port that prints: chosen accesses, what it keeps of them, and a program that reads it back.

use crate::machines::{beside_port, has_logged, memory_of, space_beside};
use rrs_lib::instruction_executor::InstructionException;
use rrs_lib::memories::{BoxedMemory, MemorySpace};
use rrs_lib::{MemAccessSize, Memory};
use rrs_programs::PrintPort;
use std::alloc::Global;
use std::test::Fail;
use tests_shared::{faulted, hart_of, read_at, run_over, write_at};

/// Whether a port grants writes of values that end with the bytes of a text, and its byte reads as
/// 0 before and as the last one after them.
fn takes_two_men(port: &mut PrintPort) -> bool {
    let before = read_at(port, 0, MemAccessSize::Byte);
    let mut granted = true;
    for byte in b"two men" {
        granted &= write_at(port, 0, MemAccessSize::Byte, 0x1200 + u32::from(*byte));
    }
    let after = read_at(port, 0, MemAccessSize::Byte);
    granted && (before, after) == (Some(0), Some(0x6e))
}

/// Rooms, each with what is kept of the bytes, and how many are lost.
static ROOMS: [(usize, &[u8], u64); 4] = [
    (0, b"", 7),
    (3, b"two", 4),
    (7, b"two men", 0),
    (8, b"two men", 0),
];

// The bytes are logged in their order while there is room, and counted else.
#[test]
fn what_finds_no_room_is_counted(rt: HostRuntime) -> Result<(), Fail> {
    for &(room, log, lost) in &ROOMS {
        let mut port = PrintPort::new(rt.alloc(), room)?;
        let is_right = takes_two_men(&mut port) && port.log.as_slice() == log && port.lost == lost;
        assert!(rt; is_right, "with room for {room}");
    }
    Ok(())
}

#[test]
fn other_accesses_are_refused(rt: HostRuntime) -> Result<(), Fail> {
    let mut port = PrintPort::new(rt.alloc(), 8)?;
    let granted = [
        write_at(&mut port, 0, MemAccessSize::HalfWord, 65),
        write_at(&mut port, 0, MemAccessSize::Word, 65),
        write_at(&mut port, 1, MemAccessSize::Byte, 65),
    ];
    let read = [
        read_at(&mut port, 0, MemAccessSize::HalfWord),
        read_at(&mut port, 0, MemAccessSize::Word),
        read_at(&mut port, 3, MemAccessSize::Byte),
    ];
    assert!(rt; granted == [false; 3] && read == [None; 3] && port.log.is_empty());
    Ok(())
}

/// Whether the run of the program over a space of its words and of a port at 0x1000 ends as it has
/// to. It writes 65, reads it back into x3, writes 66, and tries to write a whole word.
fn reads_back<M: Memory + Drop>(space: &mut MemorySpace<M>) -> bool {
    let mut hart = hart_of(0, &[]);
    let end = run_over(space, &mut hart, 10);
    let refused = faulted(6, InstructionException::StoreAccessFault(0x1000));
    end == refused && hart.registers[3] == 65
}

/// The words of the program.
static WORDS: [u32; 8] = [
    0x04100093, 0x00001137, 0x00110023, 0x00014183, 0x00108093, 0x00110023, 0x00112023, 0,
];

/// A space of the words and a port, each in a box.
fn boxed_machine(alloc: Global) -> Result<MemorySpace<BoxedMemory>, Fail> {
    let memory = Box::new(alloc, memory_of(alloc, &WORDS, 8)?)?;
    let words = BoxedMemory { memory };
    let memory = Box::new(alloc, PrintPort::new(alloc, 4)?)?;
    let port = BoxedMemory { memory };
    space_beside(alloc, words, 0x20, port, 0x1000)
}

// Over the enum of memories the port is reached by the space's own call. Behind boxes the program
// runs alike, but the port can't be reached any more: its byte can.
#[test]
fn a_program_writes_to_the_port(rt: HostRuntime) -> Result<(), Fail> {
    let mut boxed = boxed_machine(rt.alloc())?;
    let is_boxed = reads_back(&mut boxed)
        && read_at(&mut boxed, 0x1000, MemAccessSize::Byte) == Some(66);
    let words = memory_of(rt.alloc(), &WORDS, 8)?;
    let mut space = beside_port(rt.alloc(), words, 0x20, 0x1000, 4)?;
    let is_logged = reads_back(&mut space) && has_logged(&space, b"AB", 66, 0);
    assert!(rt;
        is_boxed && is_logged,
        "boxed: {is_boxed}, over the enum: {is_logged}"
    );
    Ok(())
}
