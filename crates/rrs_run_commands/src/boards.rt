//! `rrs board`: firmware on a board with a hart of machine mode.

use crate::executables::{place_of, tell_place};
use crate::files::{Noting, STANDARD_INPUT, STANDARD_OUTPUT, read_program};
use crate::options::{Task, most_memory, usual_memory};
use crate::refusal::{FileFault, HostFault, Refusal, no_firmware, out_of_memory};
use crate::requests::Request;
use rrs_board::memory::RAM_START;
use rrs_board::{
    Board, BoardEnd, BoardError, BoardEvent, PlainRuns, Profile, TerminalError, Typed, device_tree,
    run_at_terminal,
};
use rrs_elf::{Addresses, CodeUnit, has_compressed_code};
use rrs_fast::Ending;
use rrs_hart::HartProfile;
use rrs_machine::Mode;
use std::io::{Read, Write};
use std::rt::Files;

/// The status where a `wfi` waits and nothing can wake it, and where the hart is dead.
const NOTHING_WAKES: u32 = 126;

/// The refusal of firmware for a board with so many bytes of RAM.
fn refused<'a>(path: &'a str, file: &[u8], error: BoardError, bytes: u64) -> Refusal<'a> {
    match error {
        BoardError::Elf(error) => no_firmware(path, file, error),
        BoardError::Refused(address) => Refusal::File(path, FileFault::OutsideRam(address, bytes)),
        BoardError::OutOfMemory => out_of_memory(),
    }
}

/// The layers of the hart of a board: those of `--march`, or else extension A, `fence.i`, Zba to
/// Zicond, and compressed code where the flags of an executable have it. Misaligned accesses are
/// exceptions.
pub(crate) fn layers_of(request: Request<'_>, file: &[u8]) -> HartProfile {
    match request.march {
        Some(profile) => HartProfile {
            misaligned: false,
            ..profile
        },
        None => HartProfile {
            atomics: true,
            fence_i: true,
            misaligned: false,
            compressed: !request.is_raw && has_compressed_code(file),
            zba: true,
            zbb: true,
            zbs: true,
            zbc: true,
            zbkb: true,
            zicond: true,
        },
    }
}

/// What the instructions of a hart with these layers lie in.
pub(crate) fn unit_of(layers: HartProfile) -> CodeUnit {
    if layers.compressed {
        CodeUnit::HalfWord
    } else {
        CodeUnit::Word
    }
}

/// The bytes of RAM at its end that a device tree is put into.
const TREE_ROOM: u64 = 0x1_0000;

/// The arguments for a kernel where no word says them: its console is the UART.
const USUAL_ARGUMENTS: &str = "earlycon=uart8250,mmio,0x10000000 console=ttyS0";

/// The device tree that a board whose hart has these layers, with so many bytes of RAM, hands over,
/// if it hands one over: a file, or its own, for a raw image and where a word has arguments for the
/// kernel.
///
/// # Errors
///
/// Those of `read_program`; `Refusal::File` where a file and arguments are asked for, or the tree
/// has more than 64 KiB; out of memory as a failure.
fn tree_of<'a, H: Files + AllocGlobal>(
    rt: &H,
    request: Request<'a>,
    layers: HartProfile,
    bytes: u64,
) -> Result<Option<Vec<u8>>, Refusal<'a>> {
    if let Some(path) = request.tree {
        if request.append.is_some() {
            return Err(Refusal::File(path, FileFault::HasArguments));
        }
        let tree = read_program(rt, path)?;
        if tree.len() as u64 > TREE_ROOM {
            return Err(Refusal::File(path, FileFault::LongTree));
        }
        return Ok(Some(tree));
    }
    if !request.is_raw && request.append.is_none() {
        return Ok(None);
    }
    let arguments = request.append.unwrap_or(USUAL_ARGUMENTS);
    match device_tree(rt.alloc(), layers, bytes.min(1 << 31) as u32, arguments) {
        Ok(tree) if tree.len() as u64 > TREE_ROOM => {
            Err(Refusal::File(request.path(), FileFault::LongArguments))
        }
        Ok(tree) => Ok(Some(tree)),
        Err(_) => Err(out_of_memory()),
    }
}

/// Hands over a device tree at the end of RAM of so many bytes, if there is one, after an image of
/// so many. The answer is whether there is room for both.
fn hand_tree(board: &mut Board, tree: Option<Vec<u8>>, image: usize, bytes: u64) -> bool {
    let Some(tree) = tree else {
        return true;
    };
    if bytes < TREE_ROOM || image as u64 > bytes - TREE_ROOM {
        return false;
    }
    let place = (bytes - TREE_ROOM).min(u64::from(u32::MAX - RAM_START)) as u32;
    board.hand_over(&tree, RAM_START + place).is_ok()
}

/// A board at reset, with firmware in its RAM of so many bytes, or of the usual 128 MiB: an
/// executable, or a raw image. Of the bytes a multiple of 8 is there. Its hart has extension A and
/// user mode.
///
/// # Errors
///
/// Those of `read_program` and `tree_of`, and `Refusal::File` where it is no executable for this
/// board, is an executable and no raw image, or does not fit in RAM with its device tree.
pub fn board_of<'a, H: Files + AllocGlobal>(
    rt: &H,
    request: Request<'a>,
) -> Result<Board, Refusal<'a>> {
    let file = read_program(rt, request.path())?;
    board_with(rt, request, &file)
}

/// The same, with the firmware of a file that was read.
///
/// # Errors
///
/// Those of `board_of`.
pub(crate) fn board_with<'a, H: Files + AllocGlobal>(
    rt: &H,
    request: Request<'a>,
    file: &[u8],
) -> Result<Board, Refusal<'a>> {
    if request.is_raw && file.starts_with(b"\x7fELF") {
        return Err(Refusal::File(request.path(), FileFault::IsNoImage));
    }
    let bytes = request.memory.unwrap_or(usual_memory(Task::Board));
    let bytes = bytes.min(most_memory(Task::Board)) / 8 * 8;
    let layers = layers_of(request, file);
    let tree = tree_of(rt, request, layers, bytes)?;
    let words = (bytes / 4) as usize;
    let (loaded, image) = if request.is_raw {
        (Board::load_image(rt.alloc(), file, words), file.len())
    } else {
        (Board::load(rt.alloc(), file, unit_of(layers), words), 0)
    };
    let mut board = match loaded {
        Ok(board) => board,
        Err(error) => return Err(refused(request.path(), file, error, bytes)),
    };
    board.set_profile(Profile {
        hart: layers,
        user_mode: true,
    });
    if hand_tree(&mut board, tree, image, bytes) {
        Ok(board)
    } else {
        Err(Refusal::File(request.path(), FileFault::NoTreeRoom))
    }
}

/// The executable with the names of the functions that a board runs, whose segments are at these of
/// their addresses. Other bytes name none.
#[derive(Clone, Copy)]
pub(crate) struct Names<'a> {
    pub file: &'a [u8],
    pub addresses: Addresses,
}

/// The names that firmware has itself: those of an executable, and none of a raw image.
pub(crate) fn own_names<'a>(request: Request<'_>, file: &'a [u8]) -> Names<'a> {
    Names {
        file: if request.is_raw { b"" } else { file },
        addresses: Addresses::Physical,
    }
}

/// How the run ended. Unless the finisher ended it, it is told on standard error, after the name of
/// the program, where it was, in which mode, after how many steps, and what the CSRs of its latest
/// trap have; and why it ended, if that is not the limit. At a restart the status is 0.
pub(crate) fn ending_of<H: Eprint>(
    rt: &H,
    name: &str,
    board: &Board,
    names: Names<'_>,
    end: BoardEnd,
) -> Ending {
    match end.event {
        Some(BoardEvent::Finished(status)) => Ending::Exit(status),
        Some(BoardEvent::Restarts) => Ending::Exit(0),
        _ => {
            tell_board(rt, name, board, names, end);
            tell_stuck(rt, name, board, end)
        }
    }
}

/// Says where a board is, in which mode, and what the CSRs of its latest trap have. Where it waits
/// that is at the `wfi`.
fn tell_board<H: Eprint>(rt: &H, name: &str, board: &Board, names: Names<'_>, end: BoardEnd) {
    let pc = match end.event {
        Some(BoardEvent::NothingWakes) => board.hart.pc.wrapping_sub(4),
        _ => board.hart.pc,
    };
    let mode = match board.csrs.mode() {
        Mode::Machine => ", in machine mode",
        Mode::User => ", in user mode",
    };
    let place = place_of(names.file, names.addresses, pc);
    tell_place(rt, name, place, pc, mode, end.steps);
    let (cause, pc, value) = (board.csrs.mcause, board.csrs.mepc, board.csrs.mtval);
    let _ = eprintln!(rt; "{name}: mcause 0x{cause:08x}, mepc 0x{pc:08x}, mtval 0x{value:08x}");
}

/// How the run ended that the finisher did not end, where a `wfi` that nothing wakes and a hart that
/// is dead are told.
fn tell_stuck<H: Eprint>(rt: &H, name: &str, board: &Board, end: BoardEnd) -> Ending {
    let (pc, steps) = (board.hart.pc, end.steps);
    let _ = match end.event {
        Some(BoardEvent::NothingWakes) => {
            let pc = pc.wrapping_sub(4);
            eprintln!(rt;
                "{name}: wfi at pc 0x{pc:08x} waits, and nothing can wake it, after {steps} steps"
            )
        }
        Some(BoardEvent::Spins) => {
            eprintln!(rt;
                "{name}: the jump to itself at pc 0x{pc:08x} never ends: no interrupt can be taken"
            )
        }
        Some(BoardEvent::LacksHandler) => {
            eprintln!(rt;
                "{name}: a trap went to 0x{pc:08x}, where mtvec points, and no memory is there"
            )
        }
        _ => return Ending::Limit,
    };
    Ending::Exit(NOTHING_WAKES)
}

/// Why a board was stopped at its terminal, by why a read of the input and a write of the output
/// failed.
pub(crate) fn stopped<'a>(
    error: TerminalError,
    input: Option<HostFault>,
    output: Option<HostFault>,
) -> Refusal<'a> {
    let (refusal, stream, fault) = match error {
        TerminalError::Input => (Refusal::Input, STANDARD_INPUT, input),
        TerminalError::Output => (Refusal::Output, STANDARD_OUTPUT, output),
    };
    match fault {
        Some(fault) => Refusal::File(stream, FileFault::Host(fault)),
        None => refusal,
    }
}

/// What is typed at a board, as a request says: whether a look waits for it.
pub(crate) fn typed_at<R>(input: R, request: Request<'_>) -> Typed<Noting<R>> {
    Typed {
        reader: Noting::new(input),
        waits: request.waits,
    }
}

/// Runs firmware as a request says: what its UART transmits goes to `output`, each byte at once,
/// and what it receives comes from `input`.
///
/// # Errors
///
/// Those of `board_of`; `Refusal::File` for a stream of which a read or a write fails.
pub fn run_board<'a, H: Files + Eprint + AllocGlobal, R: Read, W: Write>(
    rt: &H,
    request: Request<'a>,
    input: &mut R,
    output: &mut W,
) -> Result<Ending, Refusal<'a>> {
    let file = read_program(rt, request.path())?;
    let (mut input, mut output) = (typed_at(input, request), Noting::new(output));
    let mut left = request.limit;
    for _ in 0..u64::MAX {
        let mut board = board_with(rt, request, &file)?;
        let run = run_at_terminal(
            &mut PlainRuns,
            &mut board,
            left,
            request.is_polled,
            &mut input,
            &mut output,
        );
        match run {
            Ok(end) if end.event == Some(BoardEvent::Restarts) => {
                left = left.saturating_sub(end.steps);
            }
            Ok(end) => {
                let earlier = request.limit.saturating_sub(left);
                let steps = earlier.saturating_add(end.steps);
                let names = own_names(request, &file);
                let end = BoardEnd { steps, ..end };
                return Ok(ending_of(rt, "rrs board", &board, names, end));
            }
            Err(error) => return Err(stopped(error, input.reader.fault, output.fault)),
        }
    }
    Ok(Ending::Limit)
}
