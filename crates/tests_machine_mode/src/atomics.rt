//! Instructions of extension A, over a memory and on a device.

use crate::steps::{PLAIN, QUIET, step_over};
use rrs_board::{Board, BoardEvent};
use rrs_lib::HartState;
use rrs_lib::memories::VecMemory;
use rrs_machine::{CsrFile, Exception, MachineAnswer, Profile};
use rrs_words::HartProfile;
use std::alloc::{AllocError, Global};
use std::test::Fail;

/// Whether the hart has extension A.
fn profile(atomics: bool) -> Profile {
    Profile {
        hart: HartProfile { atomics, ..PLAIN },
        user_mode: false,
    }
}

/// What an instruction leaves: how its step ended, x5, the word at 4, and the reservation.
type Left = (MachineAnswer, u32, u32, Option<u32>);

/// What a word at 0 leaves, where 9 stands at 4, x6 has an address, and x7 has 5.
fn left_by(
    alloc: Global,
    atomics: bool,
    word: u32,
    address: u32,
    reservation: Option<u32>,
) -> Result<Left, AllocError> {
    let mut memory = VecMemory::new(vec![in alloc; word, 9]?);
    let mut hart = HartState::new();
    hart.registers[6] = address;
    hart.registers[7] = 5;
    let mut csrs = CsrFile::with_profile(profile(atomics));
    csrs.reservation = reservation;
    let answer = step_over(&mut memory, &mut hart, &mut csrs, &QUIET);
    let stored = memory.mem.get(1).copied().unwrap_or(0);
    Ok((answer, hart.registers[5], stored, csrs.reservation))
}

const LR: u32 = 0x1003_22af; // lr.w x5, (x6)

const SC: u32 = 0x1873_22af; // sc.w x5, x7, (x6)

const ADD: u32 = 0x0073_22af; // amoadd.w x5, x7, (x6)

const MIN: u32 = 0x8073_22af; // amomin.w x5, x7, (x6)

/// A word, the address and the reservation before it, and what it leaves.
const DONE: [(u32, u32, Option<u32>, (u32, u32, Option<u32>)); 6] = [
    (LR, 4, None, (9, 9, Some(4))),
    (SC, 4, None, (1, 9, None)),
    (SC, 4, Some(0), (1, 9, None)),
    (SC, 4, Some(4), (0, 5, None)),
    (ADD, 4, Some(4), (9, 14, Some(4))),
    (MIN, 4, None, (9, 5, None)),
];

/// A word, and the exception that it raises at an address.
const RAISED: [(u32, u32, Exception); 4] = [
    (LR, 6, Exception::LoadMisaligned(6)),
    (ADD, 6, Exception::StoreMisaligned(6)),
    (LR, 8, Exception::LoadFault(8)),
    (ADD, 8, Exception::StoreFault(8)),
];

#[test]
fn each_atomic_instruction_is_executed(rt: HostRuntime) -> Result<(), Fail> {
    let alloc = rt.alloc();
    let (mut done, mut raised, mut unknown) = (true, true, true);
    for (word, address, reservation, (x5, stored, after)) in DONE {
        let left = left_by(alloc, true, word, address, reservation)?;
        done = done && left == (MachineAnswer::Retired, x5, stored, after);
        let left = left_by(alloc, false, word, address, reservation)?;
        let illegal = MachineAnswer::Raised(Exception::IllegalInstruction(word));
        unknown = unknown && left == (illegal, 0, 9, reservation);
    }
    for (word, address, exception) in RAISED {
        let left = left_by(alloc, true, word, address, Some(4))?;
        raised = raised && left == (MachineAnswer::Raised(exception), 0, 9, Some(4));
    }
    // A sc.w that is refused takes the reservation away.
    let refused = left_by(alloc, true, SC, 8, Some(8))?;
    let fault = MachineAnswer::Raised(Exception::StoreFault(8));
    raised = raised && refused == (fault, 0, 9, None);
    assert_eq!(rt; (done, unknown, raised), (true, true, true));
    Ok(())
}

/// What an `amoswap.w` of 65 on RBR and THR does, where the UART holds a byte: the event, what was
/// read, and whether the byte is held still.
fn swapped_on_uart(
    alloc: Global,
    byte: u8,
) -> Result<Option<(Option<BoardEvent>, u32, bool)>, AllocError> {
    let word = 0x0873_22af_u32.to_le_bytes(); // amoswap.w x5, x7, (x6)
    let Ok(mut board) = Board::load_image(alloc, &word, 1) else {
        return Ok(None);
    };
    board.set_profile(profile(true));
    board.hart.registers[6] = 0x1000_0000;
    board.hart.registers[7] = 65;
    board.memory.devices.receive(byte);
    let event = board.step().event;
    let holds = board.memory.devices.uart.has_byte();
    Ok(Some((event, board.hart.registers[5], holds)))
}

#[test]
fn an_amo_on_the_uart_reads_and_writes(rt: HostRuntime) -> Result<(), Fail> {
    // LCR is 0, IIR is 1, IER is 0, and RBR is the byte.
    let done = swapped_on_uart(rt.alloc(), b'x')?;
    let event = Some(BoardEvent::Transmitted(65));
    assert_eq!(rt; done, Some((event, 0x0001_0078, false)));
    Ok(())
}
