//! Packets for firmware on a board, and what they are answered.

use crate::packets::wanted;
use crate::steps::PLAIN;
use rrs_board::memory::Ram;
use rrs_board::{
    Board, BoardEnd, BoardError, BoardEvent, PlainRuns, Profile, TerminalError, Typed,
    run_at_terminal,
};
use rrs_board_gdb::{BoardSession, serve};
use rrs_elf::{CodeUnit, ElfError};
use rrs_gdb::{Link, LinkError, encode};
use rrs_lib::{MemAccessSize, Memory};
use rrs_machine::Mode;
use std::alloc::{AllocError, Global};
use std::test::Fail;

/// It transmits `A`, makes an `ecall`, echoes a byte, and ends with status 5. The others are for
/// packets that change the pc.
const FIRMWARE: [u32; 27] = [
    0x0000_0297, // 0x80000000: auipc x5, 0
    0x0402_8293, // 04: addi x5, x5, 0x40
    0x3052_9073, // 08: csrrw x0, mtvec, x5
    0x1000_00b7, // 0c: lui x1, 0x10000
    0x0410_0113, // 10: addi x2, x0, 65
    0x0020_8023, // 14: sb x2, 0(x1)
    0x0000_0073, // 18: ecall
    0x0050_c203, // 1c: lbu x4, 5(x1)
    0x0012_7213, // 20: andi x4, x4, 1
    0xfe02_0ce3, // 24: beq x4, x0, 0x1c
    0x0000_c303, // 28: lbu x6, 0(x1)
    0x0060_8023, // 2c: sb x6, 0(x1)
    0x0010_03b7, // 30: lui x7, 0x100
    0x0005_3437, // 34: lui x8, 0x53
    0x3334_0413, // 38: addi x8, x8, 0x333
    0x0083_a023, // 3c: sw x8, 0(x7)
    0x3410_24f3, // 40: csrrs x9, mepc, x0
    0x0044_8493, // 44: addi x9, x9, 4
    0x3414_9073, // 48: csrrw x0, mepc, x9
    0x3020_0073, // 4c: mret
    0x4443_4241, // 50
    0,
    0x1050_0073, // 58: wfi
    0,
    0x0020_8023, // 60: sb x2, 0(x1)
    0xffdf_f06f, // 64: jal x0, 0x60
    0x0000_006f, // 68: jal x0, 0x68
];

/// A board with the firmware as its RAM, whose hart is at an address.
fn firmware_at(alloc: Global, pc: u32) -> Result<Board, AllocError> {
    let mut image = Vec::new(alloc);
    for word in FIRMWARE {
        image.extend_from_slice(&word.to_le_bytes())?;
    }
    match Board::load_image(alloc, &image, FIRMWARE.len()) {
        Ok(mut board) => {
            board.hart.pc = pc;
            Ok(board)
        }
        Err(_) => Ok(Board::new(Ram::new(alloc, 0)?, pc)),
    }
}

/// What the stub sends for packets, whose payloads stand with a bar between, where a `continue`
/// makes so many steps at most, and how it ends. The UART receives `xyz`.
fn answers_to(
    alloc: Global,
    payloads: &str,
    limit: u64,
) -> Result<(Vec<u8>, Result<(), LinkError>), AllocError> {
    let mut input = Vec::new(alloc);
    for payload in payloads.split('|') {
        let frame = encode(alloc, payload.as_bytes())?;
        input.extend_from_slice(&frame)?;
    }
    let board = firmware_at(alloc, 0x8000_0000)?;
    let mut session = BoardSession::new(alloc, board, b"xyz", limit);
    let mut output = Vec::new(alloc);
    let end = served(alloc, &mut session, &input, &mut output);
    Ok((output, end))
}

/// Serves packets.
fn served(
    alloc: Global,
    session: &mut BoardSession<'_>,
    packets: &[u8],
    output: &mut Vec<u8>,
) -> Result<(), LinkError> {
    let mut reader = packets;
    let mut link = Link::new(alloc, &mut reader, output);
    serve(session, &mut link)
}

/// The numbers of the registers are gdb's: a CSR has 65 and its own number. mstatus is 0x341, misa
/// 0x342, mie 0x345, mtvec 0x346, mepc 0x382, mcause 0x383, mip 0x385, cycle 0xc41, mvendorid
/// 0xf52. The privilege mode is 0x1041.
const PACKETS: [(&str, &str); 63] = [
    ("?", "S05"),
    (
        "g",
        "000000000000000000000000000000000000000000000000000000000000000000000000000000000000000000000000000000000000000000000000000000000000000000000000000000000000000000000000000000000000000000000000000000000000000000000000000000000000000000000000000000000000000000000080",
    ),
    ("g0", ""),
    ("p20", "00000080"),
    ("p0", "00000000"),
    ("p341|p342|p346", "00180000|+|00110040|+|00000000"),
    ("pc41|pf52", "00000000|+|00000000"),
    (
        "p21|p40|p41|p1042|p|px",
        "E16|+|E16|+|E16|+|E16|+|E16|+|E16",
    ),
    (
        "P1=01020304|p1|p2|p0",
        "OK|+|01020304|+|00000000|+|00000000",
    ),
    ("P20=10000080|p20", "OK|+|10000080"),
    ("P345=ffffffff|p345", "OK|+|88080000"),
    ("P346=ffffffff|p346", "OK|+|fdffffff"),
    ("P382=ffffffff|p382", "OK|+|fcffffff"),
    ("P341=ffffffff|p341", "OK|+|88180000"),
    ("P385=ffffffff|p385", "OK|+|00000000"),
    ("P342=00000000|p342", "OK|+|00110040"),
    (
        "Pc41=01000000|Pf52=01000000|P0=01000000|P21=01000000",
        "E16|+|E16|+|E16|+|E16",
    ),
    (
        "p1041|P1041=03000000|P1041=00000000|P1041=01000000|p1041",
        "03000000|+|OK|+|E16|+|E16|+|03000000",
    ),
    ("P1=0102|P1|Px=01020304|p1", "E16|+|E16|+|E16|+|00000000"),
    ("G00|X80000050,1:a", "|+|"),
    ("m80000050,4|m80000051,2|m80000050,0", "41424344|+|4243|+|"),
    ("m80000068,8|m8000006c,1", "6f000000|+|E0e"),
    (
        "m10000005,1|m2000000,4|m0,1|m7fffffff,2|mffffffff,2",
        "E0e|+|E0e|+|E0e|+|E0e|+|E0e",
    ),
    ("m80000050|mx,1|m80000050,fffffffff", "E16|+|E16|+|E16"),
    (
        "M80000050,4:00010203|m80000050,4|m80000054,1",
        "OK|+|00010203|+|00",
    ),
    ("M80000050,1:ff|m80000050,4", "OK|+|ff424344"),
    ("M8000006a,4:00010203|m80000068,4", "E0e|+|6f000000"),
    (
        "M10000000,1:41|M2000000,1:01|M7fffffff,2:0102",
        "E0e|+|E0e|+|E0e",
    ),
    (
        "M80000050,2:00|M80000050,1:zz|M80000050,1|m80000050,1",
        "E16|+|E16|+|E16|+|41",
    ),
    ("M80000050,0:", "OK"),
    ("s|p20|s|p5", "S05|+|04000080|+|S05|+|40000080"),
    ("S05|p20", "S05|+|04000080"),
    ("s80000010|p20", "E16|+|00000080"),
    ("c|?|c|s|p20", "O4178|W05|+|W05|+|W05|+|W05|+|40000080"),
    ("C05", "O4178|W05"),
    ("c80000010|p20", "E16|+|00000080"),
    ("vCont?", "vCont;c;C;s;S"),
    ("vCont;c", "O4178|W05"),
    ("vCont;C05:1;c", "O4178|W05"),
    ("vCont;s:1;c|p20", "S05|+|04000080"),
    ("vCont;S05|p20", "S05|+|04000080"),
    (
        "vCont;t|vCont;|vCont;c8|vCont|p20",
        "E16|+|E16|+|E16|+||+|00000080",
    ),
    (
        "Z0,80000040,4|c|p20|p383|p382|p341|z0,80000040,4|c",
        "OK|+|O41|S05|+|40000080|+|0b000000|+|18000080|+|00180000|+|OK|+|O78|W05",
    ),
    (
        "Z1,80000028,4|vCont;c|p4|z1,80000028,4|c",
        "OK|+|O41|S05|+|01000000|+|OK|+|O78|W05",
    ),
    ("Z0,80000000,4|c|z0,80000004,4", "OK|+|O4178|W05|+|OK"),
    (
        "Z2,80000050,4|z2,80000050,4|Z3,80000050,4|Z4,80000050,4",
        "|+||+||+|",
    ),
    ("Z5,80000050,4|Z0,x,4|Z0", "E16|+|E16|+|E16"),
    ("P20=68000080|c|p20|s", "OK|+|S05|+|68000080|+|S05"),
    (
        "P20=58000080|c|p20|c|p20|c",
        "OK|+|S11|+|5c000080|+|S04|+|00000000|+|S04",
    ),
    (
        "P345=08000000|P341=08000000|P346=44000080|P7=00000002|P8=01000000|P20=3c000080|s|p20|p385",
        "OK|+|OK|+|OK|+|OK|+|OK|+|OK|+|S05|+|40000080|+|08000000",
    ),
    (
        "P345=08000000|P341=08000000|P346=44000080|P7=00000002|P8=01000000|P20=3c000080|s|s|p20|p383|p382|p341",
        "OK|+|OK|+|OK|+|OK|+|OK|+|OK|+|S05|+|S05|+|44000080|+|03000080|+|40000080|+|80180000",
    ),
    ("Hc-1", "OK"),
    ("T1", "OK"),
    ("D;1", "OK"),
    ("vKill;1", "OK"),
    (
        "qSupported:swbreak+",
        "PacketSize=4000;QStartNoAckMode+;qXfer:features:read+;vContSupported+",
    ),
    (
        "qXfer:features:read:target.xml:0,15",
        "m<?xml version=\"1.0\"?>",
    ),
    ("qAttached", "1"),
    ("qC", "QC1"),
    ("qfThreadInfo", "m1"),
    ("qsThreadInfo", "l"),
    ("QStartNoAckMode", "OK"),
    ("vMustReplyEmpty|qTStatus|x40,4|bs|bc|!", "|+||+||+||+||+|"),
];

#[test]
fn each_packet_of_a_board_is_answered(rt: HostRuntime) -> Result<(), Fail> {
    let alloc = rt.alloc();
    let mut wrong = Vec::new(alloc);
    for (index, (payloads, answers)) in PACKETS.iter().enumerate() {
        let (sent, end) = answers_to(alloc, payloads, 5000)?;
        if sent.as_slice() != wanted(alloc, answers)?.as_slice() || end != Ok(()) {
            wrong.push(index)?;
        }
    }
    assert_eq!(rt; wrong.as_slice(), [].as_slice());
    Ok(())
}

/// The payload of so much output: `A` so often.
fn output_of(alloc: Global, count: usize) -> Result<Vec<u8>, AllocError> {
    let mut payload = Vec::new(alloc);
    payload.push(b'O')?;
    for _ in 0..count {
        payload.extend_from_slice(b"41")?;
    }
    Ok(payload)
}

#[test]
fn output_is_sent_in_parts(rt: HostRuntime) -> Result<(), Fail> {
    let alloc = rt.alloc();
    let (sent, _end) = answers_to(alloc, "P1=00000010|P2=41000000|P20=60000080|c", 5000)?;
    let mut wanted = wanted(alloc, "OK|+|OK|+|OK|+")?;
    for payload in [
        output_of(alloc, 2048)?.as_slice(),
        output_of(alloc, 452)?.as_slice(),
        b"S02",
    ] {
        let frame = encode(alloc, payload)?;
        wanted.extend_from_slice(&frame)?;
    }
    assert_eq!(rt; sent.as_slice(), wanted.as_slice());
    Ok(())
}

/// A segment of an executable: its virtual and its physical address.
type Segment = (u32, u32);

/// The file that each of these segments has the bytes of: they end the program with status 7.
const CODE: [u32; 4] = [
    0x0010_03b7, // lui x7, 0x100
    0x0007_3437, // lui x8, 0x73
    0x3334_0413, // addi x8, x8, 0x333
    0x0083_a023, // sw x8, 0(x7)
];

/// An executable with two segments of 16 bytes, each with the code, which starts at the virtual
/// address of the first.
fn executable_with(alloc: Global, segments: [Segment; 2]) -> Result<Vec<u8>, AllocError> {
    let mut file = b"\x7fELF\x01\x01\x01\0\0\0\0\0\0\0\0\0\x02\0\xf3\0".to_vec(alloc)?;
    for word in [
        1, // e_version
        segments[0].0, // e_entry
        52, // e_phoff
        0, // e_shoff
        0, // e_flags
        0x0020_0034, // e_ehsize, e_phentsize
        0x0028_0002, // e_phnum, e_shentsize
        0, // e_shnum, e_shstrndx
    ] {
        file.extend_from_slice(&u32::to_le_bytes(word))?;
    }
    for (address, physical_address) in segments {
        for word in [
            1, // p_type
            116, // p_offset
            address, // p_vaddr
            physical_address, // p_paddr
            16, // p_filesz
            16, // p_memsz
            5, // p_flags
            4, // p_align
        ] {
            file.extend_from_slice(&u32::to_le_bytes(word))?;
        }
    }
    for word in CODE {
        file.extend_from_slice(&u32::to_le_bytes(word))?;
    }
    Ok(file)
}

/// How such an executable ends on a board with 64 bytes of RAM, and the words at 0x80000010 and
/// 0x80000020 before.
fn loaded_end(
    alloc: Global,
    segments: [Segment; 2],
) -> Result<Result<(BoardEnd, [Option<u32>; 2]), BoardError>, AllocError> {
    let file = executable_with(alloc, segments)?;
    Ok(match Board::load(alloc, &file, CodeUnit::Word, 16) {
        Ok(mut board) => {
            let words = [
                board.memory.read_mem(0x8000_0010, MemAccessSize::Word),
                board.memory.read_mem(0x8000_0020, MemAccessSize::Word),
            ];
            Ok((board.run(10), words))
        }
        Err(error) => Err(error),
    })
}

/// How one ends that is loaded, by whether the words are those of code.
fn ended(first: bool, second: bool) -> Result<(BoardEnd, [Option<u32>; 2]), BoardError> {
    let end = BoardEnd {
        steps: 4,
        event: Some(BoardEvent::Finished(7)),
    };
    let word_of = |is_code| Some(if is_code { CODE[0] } else { 0 });
    Ok((end, [word_of(first), word_of(second)]))
}

#[test]
fn a_segment_is_in_ram_or_refused(rt: HostRuntime) -> Result<(), Fail> {
    let alloc = rt.alloc();
    let first = (0x8000_0000, 0x8000_0000);
    for (address, wanted) in [
        (0x8000_0010, ended(true, false)),
        (0x8000_0030, ended(false, false)),
        (0x8000_0034, Err(BoardError::Refused(0x8000_0040))),
        (0x7fff_fff0, Err(BoardError::Refused(0x7fff_fff0))),
        (0x1000_0000, Err(BoardError::Refused(0x1000_0000))),
    ] {
        // where its virtual address is makes no difference
        for other in [address, 0x2000_0000] {
            let end = loaded_end(alloc, [first, (other, address)])?;
            assert_eq!(rt; end, wanted, "{other:#x} at {address:#x}");
        }
    }
    Ok(())
}

#[test]
fn segments_lie_apart_at_their_physical_addresses(rt: HostRuntime) -> Result<(), Fail> {
    let alloc = rt.alloc();
    let first = (0x8000_0000, 0x8000_0000);
    for (second, wanted) in [
        // overlays share their virtual addresses
        ((0x8000_0000, 0x8000_0020), ended(false, true)),
        ((0xffff_fff4, 0x8000_0020), ended(false, true)),
        (
            (0x8000_0020, 0x8000_000c),
            Err(BoardError::Elf(ElfError::SegmentsOverlap(0, 1))),
        ),
        (
            (0x8000_0020, 0xffff_fff4),
            Err(BoardError::Elf(ElfError::SegmentPastLastAddress(1))),
        ),
    ] {
        assert_eq!(rt; loaded_end(alloc, [first, second])?, wanted, "{second:?}");
    }
    Ok(())
}

#[test]
fn the_entry_is_a_virtual_address(rt: HostRuntime) -> Result<(), Fail> {
    // the code of the first is where the second says, and the hart starts there
    let end = loaded_end(
        rt.alloc(),
        [(0x8000_0020, 0x8000_0000), (0x8000_0000, 0x8000_0020)],
    )?;
    assert_eq!(rt; end, ended(false, true));
    Ok(())
}

/// What firmware prints at a terminal with this input, from a pc on, and what it ends with.
fn at_terminal(
    alloc: Global,
    pc: u32,
    input: &[u8],
    output: &mut Vec<u8>,
) -> Result<Result<Option<BoardEvent>, TerminalError>, AllocError> {
    let mut board = firmware_at(alloc, pc)?;
    Ok(
        match run_at_terminal(
            &mut PlainRuns,
            &mut board,
            10_000,
            false,
            &mut Typed::new(input),
            output,
        ) {
            Ok(end) => Ok(end.event),
            Err(error) => Err(error),
        },
    )
}

#[test]
fn a_board_runs_at_a_terminal(rt: HostRuntime) -> Result<(), Fail> {
    let alloc = rt.alloc();
    let mut output = Vec::new(alloc);
    let echoes = at_terminal(alloc, 0x8000_0000, b"xyz", &mut output)?;
    let lacks_input = at_terminal(alloc, 0x8000_0000, b"", &mut output)?;
    let waits = at_terminal(alloc, 0x8000_0058, b"xyz", &mut output)?;
    assert_eq!(rt;
        (echoes, lacks_input, waits, output.as_slice()),
        (
            Ok(Some(BoardEvent::Finished(5))),
            Ok(None),
            Ok(Some(BoardEvent::NothingWakes)),
            b"AxA".as_slice(),
        )
    );
    Ok(())
}

/// How such a board goes on at a pc with this `mstatus`, this `mie` and this `mtvec`.
fn end_with(
    alloc: Global,
    pc: u32,
    [mstatus, mie, mtvec]: [u32; 3],
    mode: Mode,
) -> Result<Option<BoardEvent>, AllocError> {
    let mut board = firmware_at(alloc, pc)?;
    board.set_profile(Profile {
        hart: PLAIN,
        user_mode: true,
    });
    board.csrs.mstatus = mstatus;
    board.csrs.mie = mie;
    board.csrs.mtvec = mtvec;
    board.csrs.mode = mode;
    board.hart.registers[1] = 0x8000_0050;
    Ok(board.run(100_000).event)
}

/// A jump to itself is the last word of RAM, at 0x80000068, and MIE is 8. The others: a trap to
/// where nothing is, a handler that jumps to itself, and two words that go round.
const ENDS: [(u32, [u32; 3], Mode, Option<BoardEvent>); 14] = [
    (
        0x8000_0068,
        [0, 0, 0],
        Mode::Machine,
        Some(BoardEvent::Spins),
    ),
    (
        0x8000_0068,
        [0, 0x888, 0],
        Mode::Machine,
        Some(BoardEvent::Spins),
    ),
    (
        0x8000_0068,
        [8, 0, 0],
        Mode::Machine,
        Some(BoardEvent::Spins),
    ),
    (
        0x8000_0068,
        [8, 0x777, 0],
        Mode::Machine,
        Some(BoardEvent::Spins),
    ),
    (0x8000_0068, [8, 0x80, 0], Mode::Machine, None),
    (0x8000_0068, [8, 0x08, 0], Mode::Machine, None),
    (0x8000_0068, [8, 0x800, 0], Mode::Machine, None),
    (0x8000_0068, [0, 0, 0], Mode::User, Some(BoardEvent::Spins)),
    (0x8000_0068, [0, 0x80, 0], Mode::User, None),
    (
        0x8000_006c,
        [8, 0x80, 0],
        Mode::Machine,
        Some(BoardEvent::LacksHandler),
    ),
    (
        0x8000_006c,
        [0, 0x80, 1],
        Mode::User,
        Some(BoardEvent::LacksHandler),
    ),
    (
        0,
        [8, 0, 0x7fff_fffc],
        Mode::Machine,
        Some(BoardEvent::LacksHandler),
    ),
    (
        0x8000_0054,
        [8, 0x80, 0x8000_0068],
        Mode::Machine,
        Some(BoardEvent::Spins),
    ),
    (0x8000_0060, [0, 0, 0], Mode::Machine, None),
];

#[test]
fn a_hart_that_is_dead_is_told(rt: HostRuntime) -> Result<(), Fail> {
    let alloc = rt.alloc();
    let mut wrong = Vec::new(alloc);
    for (index, &(pc, csrs, mode, event)) in ENDS.iter().enumerate() {
        if end_with(alloc, pc, csrs, mode)? != event {
            wrong.push(index)?;
        }
    }
    assert_eq!(rt; wrong.as_slice(), [].as_slice());
    Ok(())
}

#[test]
fn the_finisher_ends_and_restarts(rt: HostRuntime) -> Result<(), Fail> {
    let alloc = rt.alloc();
    let mut events = Vec::new(alloc);
    for word in [0x5555, 0x0007_3333, 0x0001_7777, 0x7776] {
        let mut board = firmware_at(alloc, 0x8000_003c)?;
        board.hart.registers[7] = 0x0010_0000;
        board.hart.registers[8] = word;
        events.push(board.run(1).event)?;
    }
    assert_eq!(rt;
        events.as_slice(),
        [
            Some(BoardEvent::Finished(0)),
            Some(BoardEvent::Finished(7)),
            Some(BoardEvent::Restarts),
            None,
        ]
        .as_slice()
    );
    Ok(())
}
