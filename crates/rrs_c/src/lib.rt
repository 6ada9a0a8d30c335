//! The kit for C: functions over a hart and words of memory that the caller owns.
//!
//! `include/rrs.h` declares them for C, and `docs/C.md` says how to build and call them. Each
//! function is total. It requires of its pointers that they are aligned, that each points to a
//! value of the caller, and that no two of these overlap. `rrs_run_cached` and
//! `rrs_run_until_cached` require too that `rrs_cache_clear` made their cache, and `rrs_assemble`
//! that nobody else has the memory of its room. None keeps anything between two calls, or calls
//! back, and none allocates but `rrs_assemble`, in this room.
//!
//! The contracts are those of the kit's own calls, over `state_in_c`: the hart, and the words from
//! the base on, all writable. Those of a board are over `board_in_c`: what C keeps of it, and the
//! words of its RAM.

#![tactic(auto)]

mod access;
mod board;
mod cached;
mod causes;
mod comparison;
mod completed;
mod elf;
mod hart;
mod instruction;
mod jumps;
mod lent;
mod lent_board;
mod lent_hart;
mod machine;
mod names;
mod profiled;
mod retired;
mod shorts;
mod text;
mod undoing;

ghost use Rattle.std.specs.Prelude.{◌≡◌, ◌*◌, ◌%◌, ◌^◌, ◌<◌, ◌≤◌, ◌==◌, ◌↔◌, not, List, length, take, slice_index, OnErr, Err};
ghost use Rattle.rrs_lib.specs.Encodings.{Fields};
ghost use Rattle.rrs_lib.specs.Table.{Row, Decodes, IsIllegal};
ghost use Rattle.rrs_lib.specs.Steps.{Step, IsOnlyStep, ChangesLittle, RunUntil, IsOnlyRunUntil, cleared};
ghost use Rattle.rrs_trace.specs.Retired.{Retires};
ghost use Rattle.rrs_trace.specs.Stops.{RunsToStop, IsOnlyRunToStop};
ghost use Rattle.rrs_fast.specs.Decoded.{AreDecoded};
ghost use Rattle.rrs_c.specs.Harts.{hart_in, state_in_c, exception_of, IsFault, IsEnd, answer_of, reason_of};
ghost use Rattle.rrs_c.specs.Listing.{Lists, ListsLayer};
ghost use Rattle.rrs_c.specs.Records.{retired_in, IsRecord};
ghost use Rattle.rrs_c.specs.Buffers.{Disassembles};
ghost use Rattle.rrs_trace.specs.Outside.{WithEachMemory, AccessesAfterFetch, requested, Foretells, Completes};
ghost use Rattle.rrs_c.specs.Asking.{request_answer, IsAccess, given};
ghost use Rattle.rrs_c.specs.Completing.{CompletesRetiring};
ghost use Rattle.rrs_c.specs.Jumps.{StepAtJump, IsOnlyStepAtJump};
ghost use Rattle.rrs_c.specs.Causes.{IsCode};
ghost use Rattle.rrs_elf.specs.Headers.{e_entry};
ghost use Rattle.rrs_elf.specs.Executables.{IsExecutable};
ghost use Rattle.rrs_elf.specs.Refusals.{first_refusal, checks, checks_in};
ghost use Rattle.rrs_elf.specs.declared.errors.ElfError.{ElfError};
ghost use Rattle.rrs_c.specs.Elf.{unit_for, IsExecutableFor, accepted_elf, refused_elf, SegmentIn, LoadsElf, FindsFunction};
ghost use Rattle.rrs_c.specs.Comparing.{first_different, record_fields};
ghost use Rattle.rrs_words.specs.CsrNumbers.{csr_at, machine_alone};
ghost use Rattle.rrs_machine.specs.Csrs.{reset_file};
ghost use Rattle.rrs_machine.specs.MachineSteps.{MachineStep, IsOnlyMachineStep};
ghost use Rattle.rrs_machine.specs.MachineRecords.{MachineRetires};
ghost use Rattle.rrs_history.specs.Changes.{undone};
ghost use Rattle.rrs_board.specs.Uart.{has_byte};
ghost use Rattle.rrs_board.specs.Registers.{ram_start};
ghost use Rattle.rrs_board.specs.Effects.{arrived, waits_for_input};
ghost use Rattle.rrs_c.specs.Boards.{with_pc, uart_in, devices_in, board_in_c, LentRun, event_in, IsBoardEnd, as_number, IsResetInC};
ghost use Rattle.rrs_c.specs.Machines.{profile_in, csrs_in, machine_in_c, inputs_in, machine_answer, IsOutcome, machine_retired_in, IsMachineRecord, csr_told, csr_to_write, file_after, was_written};
ghost use Rattle.rrs_c.specs.Profiled.{hart_profile_in};
ghost use Rattle.rrs_c.specs.Undoing.{change_in, IsChange};
ghost use Rattle.rrs_lent.specs.Heaps.{IsBack};
ghost use Rattle.rrs_lent.specs.Rooms.{place_of, room_size};
ghost use Rattle.rrs_lent.specs.Lent.{Arena};
ghost use Rattle.rrs_lent.specs.Telling.{Assembles, Needs, TellMistakes, HasNoProgram, AllFit, StaysBehind, small_room};
ghost use Rattle.rrs_c.specs.Names.{PutsRowName, PutsName, named, fault_names, register_names, field_names};

use access::{RrsAccess, access_or_fault, given_by};
use board::{RrsBoard, RrsBoardEnd, board_end_of, devices_of, receive, reset_board};
use cached::run_over_cache;
use comparison::{RrsDifference, first_difference};
use completed::complete_retired;
use elf::{
    RrsElf, RrsLoaded, RrsLocation, RrsSegment, elf_of, function_of, load_into, segment_of,
    start_at_entry, unit_of,
};
use hart::{
    RrsEnd, RrsFault, RrsHart, close, end_of_run, end_of_stop, fault_of, fault_of_answer, last_of,
    number_of, opened,
};
use instruction::{RrsInstruction, listed, listed_layer};
use jumps::jumps_aside;
use lent::{
    machine_step_lent, run_lent, run_until_lent, run_until_over_cache, step_lent, step_noted_lent,
    step_retired_lent, undo_lent,
};
use lent_board::{LentMemory, close_board, hart_of_board, run_board};
use machine::{
    RrsCsr, RrsCsrs, RrsMachineRetired, RrsOutcome, csr_read, csr_write, csrs_of, file_of,
    inputs_of, machine_written_out, outcome_of, profile_of,
};
use names::{fault_name, field_name, put_name, register_name, row_name};
use profiled::hart_profile_of;
pub use profiled::{rrs_run_hart, rrs_step_hart, rrs_step_hart_rvfi};
use retired::{RrsRetired, refused, written_out};
use rrs_board::memory::RAM_START;
use rrs_elf::{Addresses, CodeUnit};
use rrs_fast::WordTable;
use rrs_lent::{LentHeap, Room, RrsAssembled, RrsMistake, RrsStatement, RrsSymbol, assemble_lent};
use rrs_lib::disassembly::Disassembled;
use rrs_lib::instruction::decode;
use rrs_lib::instruction_executor::InstructionException;
use rrs_lib::memories::SliceMemory;
use rrs_machine::CsrFile;
use rrs_trace::{complete_parts, request_parts};
pub use shorts::{rrs_disassemble_hart, rrs_expand};
use std::alloc::Allocator;
use text::{put_layer, put_text};
use undoing::{RrsChange, change_from, change_of};

/// The version of this interface, 65536 times the major number plus 256 times the minor one plus
/// the patch: 0.2.0.
const VERSION: u32 = 512;

/// The version of this interface.
#[unsafe(no_mangle)]
pub extern "C" fn rrs_version() -> u32
    ensures { result ≡ 512 }
{
    VERSION
}

/// Executes the instruction at the pc, and returns its exception, kind 0 where there is none.
#[unsafe(no_mangle)]
pub extern "C" fn rrs_step(hart: &mut RrsHart, words: &mut [u32], base: u32) -> RrsFault
    ensures step { Step (state_in_c hart.old base words.old)
        (state_in_c hart.new base words.new) (answer_of result) }
    ensures only { IsOnlyStep (state_in_c hart.old base words.old)
        (state_in_c hart.new base words.new) (answer_of result) }
    ensures fault { OnErr (answer_of result) (state_in_c hart.new base words.new
        ≡ cleared (state_in_c hart.old base words.old)) }
    ensures little { ChangesLittle (state_in_c hart.old base words.old)
        (state_in_c hart.new base words.new) }
    ensures told { IsFault result }
    ensures last { hart.new.last < 32 }
    ensures entry_zero { slice_index hart.new.x 0 ≡ slice_index hart.old.x 0 }
{
    let mut memory = SliceMemory { words, base };
    let end = step_lent(&mut memory, &mut hart.x, hart.pc);
    hart.pc = end.pc;
    hart.last = number_of(end.last_register_write);
    fault_of_answer(end.answer)
}

/// Makes steps until as many as `limit` were made, or one raises an exception.
#[unsafe(no_mangle)]
pub extern "C" fn rrs_run(hart: &mut RrsHart, words: &mut [u32], base: u32, limit: u64) -> RrsEnd
    ensures run { RunUntil limit (state_in_c hart.old base words.old)
        result.steps (exception_of result.fault) (state_in_c hart.new base words.new) }
    ensures only { IsOnlyRunUntil limit (state_in_c hart.old base words.old)
        result.steps (exception_of result.fault) (state_in_c hart.new base words.new) }
    ensures told { IsEnd result }
    ensures no_stop { result.at_stop ≡ 0 }
    ensures last { hart.new.last < 32 }
    ensures entry_zero { slice_index hart.new.x 0 ≡ slice_index hart.old.x 0 }
{
    let mut state = opened(hart);
    let mut memory = SliceMemory { words, base };
    let end = run_lent(&mut memory, &mut state, limit);
    close(&state, hart);
    end_of_run(end)
}

/// Makes steps until the pc is a stop, as many as `limit` were made, or one raises an exception.
#[unsafe(no_mangle)]
pub extern "C" fn rrs_run_until(
    hart: &mut RrsHart,
    words: &mut [u32],
    base: u32,
    limit: u64,
    stops: &[u32],
) -> RrsEnd
    ensures run { RunsToStop stops.now limit (state_in_c hart.old base words.old)
        result.steps (reason_of result) (state_in_c hart.new base words.new) }
    ensures only { IsOnlyRunToStop stops.now limit (state_in_c hart.old base words.old)
        result.steps (reason_of result) (state_in_c hart.new base words.new) }
    ensures told { IsEnd result }
    ensures last { hart.new.last < 32 }
    ensures entry_zero { slice_index hart.new.x 0 ≡ slice_index hart.old.x 0 }
{
    let mut state = opened(hart);
    let mut memory = SliceMemory { words, base };
    let end = run_until_lent(&mut memory, &mut state, limit, stops);
    close(&state, hart);
    end_of_stop(end)
}

/// Makes any bytes a cache, one that has no word of any program.
#[unsafe(no_mangle)]
pub extern "C" fn rrs_cache_clear(cache: &mut WordTable)
    ensures { AreDecoded cache.new.entries }
{
    cache.clear();
}

/// Does what `rrs_run` does, over a cache of decoded words that C owns. Whatever the cache has, and
/// whatever was written to the words since it was lent last, the run is the same.
#[unsafe(no_mangle)]
pub extern "C" fn rrs_run_cached(
    hart: &mut RrsHart,
    cache: &mut WordTable,
    words: &mut [u32],
    base: u32,
    limit: u64,
) -> RrsEnd
    requires cache { AreDecoded cache.old.entries }
    ensures cache { AreDecoded cache.new.entries }
    ensures run { RunUntil limit (state_in_c hart.old base words.old)
        result.steps (exception_of result.fault) (state_in_c hart.new base words.new) }
    ensures only { IsOnlyRunUntil limit (state_in_c hart.old base words.old)
        result.steps (exception_of result.fault) (state_in_c hart.new base words.new) }
    ensures told { IsEnd result }
    ensures no_stop { result.at_stop ≡ 0 }
    ensures last { hart.new.last < 32 }
    ensures entry_zero { slice_index hart.new.x 0 ≡ slice_index hart.old.x 0 }
{
    let last = last_of(hart);
    let ran = run_over_cache(words, base, &mut hart.x, hart.pc, last, cache, limit);
    hart.pc = ran.pc;
    hart.last = number_of(ran.last);
    end_of_run(ran.end)
}

/// Does what `rrs_run_until` does, over a cache of decoded words that C owns, as `rrs_run_cached`.
#[unsafe(no_mangle)]
pub extern "C" fn rrs_run_until_cached(
    hart: &mut RrsHart,
    cache: &mut WordTable,
    words: &mut [u32],
    base: u32,
    limit: u64,
    stops: &[u32],
) -> RrsEnd
    requires cache { AreDecoded cache.old.entries }
    ensures cache { AreDecoded cache.new.entries }
    ensures run { RunsToStop stops.now limit (state_in_c hart.old base words.old)
        result.steps (reason_of result) (state_in_c hart.new base words.new) }
    ensures only { IsOnlyRunToStop stops.now limit (state_in_c hart.old base words.old)
        result.steps (reason_of result) (state_in_c hart.new base words.new) }
    ensures told { IsEnd result }
    ensures last { hart.new.last < 32 }
    ensures entry_zero { slice_index hart.new.x 0 ≡ slice_index hart.old.x 0 }
{
    let mut state = opened(hart);
    let mut memory = SliceMemory { words, base };
    let end = run_until_over_cache(&mut memory, &mut state, cache, limit, stops);
    close(&state, hart);
    end_of_stop(end)
}

/// Makes a step, and tells what it retired, under this number.
#[unsafe(no_mangle)]
pub extern "C" fn rrs_step_rvfi(
    hart: &mut RrsHart,
    words: &mut [u32],
    base: u32,
    order: u64,
    retired: &mut RrsRetired,
) -> RrsFault
    ensures step { Step (state_in_c hart.old base words.old)
        (state_in_c hart.new base words.new) (answer_of result) }
    ensures only { IsOnlyStep (state_in_c hart.old base words.old)
        (state_in_c hart.new base words.new) (answer_of result) }
    ensures retires { Retires order (state_in_c hart.old base words.old)
        (state_in_c hart.new base words.new) (answer_of result) (retired_in retired.new) }
    ensures record { IsRecord retired.new }
    ensures told { IsFault result }
    ensures last { hart.new.last < 32 }
    ensures entry_zero { slice_index hart.new.x 0 ≡ slice_index hart.old.x 0 }
{
    let mut memory = SliceMemory { words, base };
    let (end, seen) = step_retired_lent(&mut memory, &mut hart.x, hart.pc, order);
    hart.pc = end.pc;
    hart.last = number_of(end.last_register_write);
    *retired = written_out(&seen);
    fault_of_answer(end.answer)
}

/// Makes a step of a machine whose jumps and taken branches to a misaligned address raise the
/// exception themselves, as IALIGN 32 has it, and tells what it retired, under this number. All
/// other steps are those of `rrs_step_rvfi`. The exception's address is the one that the jump goes
/// to, and after it the hart and the words are as before.
#[unsafe(no_mangle)]
pub extern "C" fn rrs_step_rvfi_ialign32(
    hart: &mut RrsHart,
    words: &mut [u32],
    base: u32,
    order: u64,
    retired: &mut RrsRetired,
) -> RrsFault
    ensures step { StepAtJump (state_in_c hart.old base words.old)
        (state_in_c hart.new base words.new) (answer_of result) }
    ensures only { IsOnlyStepAtJump (state_in_c hart.old base words.old)
        (state_in_c hart.new base words.new) (answer_of result) }
    ensures retires { Retires order (state_in_c hart.old base words.old)
        (state_in_c hart.new base words.new) (answer_of result) (retired_in retired.new) }
    ensures record { IsRecord retired.new }
    ensures told { IsFault result }
    ensures last { hart.new.last < 32 }
    ensures entry_zero { slice_index hart.new.x 0 ≡ slice_index hart.old.x 0 }
{
    let before = hart.x;
    let mut memory = SliceMemory { words, base };
    let (end, seen) = step_retired_lent(&mut memory, &mut hart.x, hart.pc, order);
    if jumps_aside(&end) {
        hart.x = before;
        hart.last = 0;
        *retired = written_out(&refused(&seen));
        return fault_of(Some(InstructionException::AlignmentFault(end.pc)));
    }
    hart.pc = end.pc;
    hart.last = number_of(end.last_register_write);
    *retired = written_out(&seen);
    fault_of_answer(end.answer)
}

/// Makes a step, as `rrs_step`, and tells the change that takes it back.
#[unsafe(no_mangle)]
pub extern "C" fn rrs_step_noted(
    hart: &mut RrsHart,
    words: &mut [u32],
    base: u32,
    change: &mut RrsChange,
) -> RrsFault
    ensures step { Step (state_in_c hart.old base words.old)
        (state_in_c hart.new base words.new) (answer_of result) }
    ensures only { IsOnlyStep (state_in_c hart.old base words.old)
        (state_in_c hart.new base words.new) (answer_of result) }
    ensures fault { OnErr (answer_of result) (state_in_c hart.new base words.new
        ≡ cleared (state_in_c hart.old base words.old)) }
    ensures undoes { undone (change_in change.new) (state_in_c hart.new base words.new)
        ≡ state_in_c hart.old base words.old }
    ensures change { IsChange change.new }
    ensures told { IsFault result }
    ensures last { hart.new.last < 32 }
    ensures entry_zero { slice_index hart.new.x 0 ≡ slice_index hart.old.x 0 }
{
    let last = last_of(hart);
    let mut memory = SliceMemory { words, base };
    let (end, noted) = step_noted_lent(&mut memory, &mut hart.x, hart.pc, last);
    hart.pc = end.pc;
    hart.last = number_of(end.last_register_write);
    *change = change_of(&noted);
    fault_of_answer(end.answer)
}

/// Takes a change back: the register and the bytes that it says are what they were before it, and
/// so are the pc and the last written register. Bytes that are not in the words stay.
#[unsafe(no_mangle)]
pub extern "C" fn rrs_undo(hart: &mut RrsHart, words: &mut [u32], base: u32, change: &RrsChange)
    ensures back { state_in_c hart.new base words.new
        ≡ undone (change_in change.now) (state_in_c hart.old base words.old) }
    ensures last { hart.new.last < 32 }
    ensures entry_zero { slice_index hart.new.x 0 ≡ slice_index hart.old.x 0 }
{
    let last = last_of(hart);
    let mut memory = SliceMemory { words, base };
    let (pc, before) = undo_lent(
        &mut memory,
        &mut hart.x,
        hart.pc,
        last,
        &change_from(change),
    );
    hart.pc = pc;
    hart.last = number_of(before);
}

/// Makes the CSRs those of a hart with machine mode alone, at reset. A caller that wants more sets
/// `profile` after it.
#[unsafe(no_mangle)]
pub extern "C" fn rrs_csrs_reset(csrs: &mut RrsCsrs)
    ensures reset { csrs_in csrs.new ≡ reset_file machine_alone }
    ensures trapped { csrs.new.trapped ≡ 0 }
{
    *csrs = csrs_of(&CsrFile::new(), 0);
}

/// Makes a step of a hart with machine mode: takes an interrupt, or else executes the instruction
/// at the pc, which may raise an exception. `mip` has the bits of the interrupts that are pending.
/// Returns what the step retired, under this number.
#[unsafe(no_mangle)]
pub extern "C" fn rrs_machine_step(
    hart: &mut RrsHart,
    csrs: &mut RrsCsrs,
    words: &mut [u32],
    base: u32,
    mip: u32,
    time: u64,
    order: u64,
    retired: &mut RrsMachineRetired,
) -> RrsOutcome
    ensures step { MachineStep (inputs_in mip time) (machine_in_c hart.old csrs.old base words.old)
        (machine_in_c hart.new csrs.new base words.new) (machine_answer result) }
    ensures only { IsOnlyMachineStep (inputs_in mip time)
        (machine_in_c hart.old csrs.old base words.old)
        (machine_in_c hart.new csrs.new base words.new) (machine_answer result) }
    ensures retires { MachineRetires order (csrs.old.trapped == 1) (inputs_in mip time)
        (machine_in_c hart.old csrs.old base words.old)
        (machine_in_c hart.new csrs.new base words.new) (machine_answer result)
        (machine_retired_in retired.new) }
    ensures record { IsMachineRecord retired.new }
    ensures trapped { csrs.new.trapped ≡ retired.new.trapped }
    ensures told { IsOutcome result }
    ensures last { hart.new.last < 32 }
    ensures entry_zero { slice_index hart.new.x 0 ≡ slice_index hart.old.x 0 }
{
    let mut state = opened(hart);
    let mut file = file_of(csrs);
    let mut memory = SliceMemory { words, base };
    let inputs = inputs_of(mip, time);
    let first = csrs.trapped == 1;
    let (answer, seen) = machine_step_lent(
        &mut memory,
        &mut state,
        &mut file,
        &inputs,
        order,
        first,
    );
    close(&state, hart);
    let record = machine_written_out(&seen);
    *csrs = csrs_of(&file, record.trapped);
    *retired = record;
    outcome_of(answer)
}

/// The value of the CSR with this number, as an instruction in machine mode reads it, where there
/// is one.
#[unsafe(no_mangle)]
pub extern "C" fn rrs_csr_read(csrs: &RrsCsrs, number: u32, mip: u32, time: u64) -> RrsCsr
    ensures { result ≡ csr_told (csr_at (profile_in csrs.now.profile) number) (csrs_in csrs.now)
        (inputs_in mip time) }
{
    csr_read(csrs, number, &inputs_of(mip, time))
}

/// Writes the CSR with this number, as an instruction in machine mode does: the bits that are not
/// written stay.
/// Returns 1, or 0 where there is no such CSR or it is read only, and then nothing changes.
#[unsafe(no_mangle)]
pub extern "C" fn rrs_csr_write(csrs: &mut RrsCsrs, number: u32, value: u32) -> u32
    ensures written { csrs_in csrs.new
        ≡ file_after (csr_to_write (profile_in csrs.old.profile) number) value (csrs_in csrs.old) }
    ensures told { result ≡ was_written (csr_to_write (profile_in csrs.old.profile) number) }
    ensures trapped_kept { csrs.new.trapped ≡ csrs.old.trapped }
{
    csr_write(csrs, number, value)
}

/// Makes a board one at reset, whose hart has the extensions of a profile and starts at an address.
#[unsafe(no_mangle)]
pub extern "C" fn rrs_board_reset(board: &mut RrsBoard, profile: u32, pc: u32)
    ensures reset { IsResetInC profile pc board.new }
{
    *board = reset_board(profile, pc);
}

/// Loads an executable into the words that are the RAM of a board, and puts its hart at the entry:
/// of each segment, at its physical address, the bytes of the file, and then zeros. It ends at the
/// first address that is not in RAM. Where not all is loaded the board stays as it is. The profile
/// of the board says whether the executable may have compressed code.
#[unsafe(no_mangle)]
pub extern "C" fn rrs_board_load(board: &mut RrsBoard, file: &[u8], words: &mut [u32]) -> RrsLoaded
    ensures loaded { LoadsElf (unit_for (profile_in board.old.csrs.profile).hart)
        Addresses.Physical file.now words.old words.new ram_start result }
    ensures started { result.refusal ≡ 0 → board.new ≡ with_pc (e_entry file.now) board.old }
    ensures kept { 1 ≤ result.refusal → board.new ≡ board.old }
{
    let unit = unit_of(profile_of(board.csrs.profile).hart);
    let loaded = load_into(file, unit, Addresses::Physical, words, RAM_START);
    if loaded.refusal == 0 {
        start_at_entry(board, file, unit);
    }
    loaded
}

/// Makes steps of a board whose RAM is these words, until as many as `limit` were made, or a device
/// has something for the caller. A further call goes on from there.
///
/// The clause: a chain of steps leads from the board before to that after, and the caller is told
/// of the last one alone (`run`).
#[unsafe(no_mangle)]
pub extern "C" fn rrs_board_run(board: &mut RrsBoard, words: &mut [u32], limit: u64) -> RrsBoardEnd
    ensures run { LentRun limit (board_in_c board.old words.old)
        result.steps (event_in result) (board_in_c board.new words.new) }
    ensures within { result.steps ≤ limit }
    ensures told { IsBoardEnd result }
    ensures last { board.new.hart.last < 32 }
    ensures entry_zero { slice_index board.new.hart.x 0 ≡ slice_index board.old.hart.x 0 }
{
    let mut hart = hart_of_board(board);
    let devices = devices_of(board);
    let mut memory = LentMemory { words, devices };
    let end = run_board(&mut memory, &mut hart, limit);
    close_board(&hart, &memory.devices, board);
    board_end_of(end.steps, end.event)
}

/// Hands the UART a byte that arrives, the lowest of the word. Returns 1, or 0 where it holds one
/// that the program has not read, and then nothing changes.
#[unsafe(no_mangle)]
pub extern "C" fn rrs_board_receive(board: &mut RrsBoard, byte: u32) -> u32
    ensures arrived { devices_in board.new ≡ arrived (byte % 256) (devices_in board.old) }
    ensures told { result ≡ as_number (not (has_byte (uart_in board.old.uart))) }
    ensures refused { result ≡ 0 → board.new ≡ board.old }
    ensures hart_kept { board.new.hart ≡ board.old.hart }
    ensures csrs_kept { board.new.csrs ≡ board.old.csrs }
{
    receive(board, byte)
}

/// Returns 1 where the UART asks for received data and holds none, else 0.
#[unsafe(no_mangle)]
pub extern "C" fn rrs_board_waits_for_input(board: &RrsBoard) -> u32
    ensures { result ≡ as_number (waits_for_input (devices_in board.now)) }
{
    let devices = devices_of(board);
    if devices.waits_for_input() { 1 } else { 0 }
}

/// The instruction that a word is: the number of its row and its fields. An instruction of a layer,
/// as `csrrw` or `lr.w`, has a number past the rows, and an illegal instruction row 0.
#[unsafe(no_mangle)]
pub extern "C" fn rrs_decode(word: u32) -> RrsInstruction
    ensures listed { (row : Row) (f : Fields) → Decodes word row f → Lists row f result }
    ensures outside { IsIllegal word → ListsLayer word result }
{
    match decode(word) {
        Some(instruction) => listed(&instruction),
        None => listed_layer(word),
    }
}

/// Writes the text of the instruction that a word is at an address, and a 0 after it, where the
/// buffer has room for both. Returns the length of the text without the 0, at most 88, whether it
/// had room or not, and 0 for an illegal instruction. An instruction of a layer, as `csrrw` or
/// `lr.w`, has its text too.
#[unsafe(no_mangle)]
pub extern "C" fn rrs_disassemble(word: u32, pc: u32, buffer: &mut [u8]) -> usize
    ensures { Disassembles word pc buffer.old buffer.new result }
{
    let Some(instruction) = decode(word) else {
        return put_layer(word, buffer);
    };
    let text = Disassembled { instruction, pc }.text();
    put_text(text.as_str().as_bytes(), buffer);
    text.len()
}

/// The load or the store that the instruction `word` asks for, the word at the pc, or the exception
/// before it asks. Nothing changes.
#[unsafe(no_mangle)]
pub extern "C" fn rrs_request(hart: &RrsHart, word: u32) -> RrsAccess
    ensures access { WithEachMemory (hart_in hart.now) word (λ s.
        AccessesAfterFetch s (requested s (request_answer result))) }
    ensures foretold { WithEachMemory (hart_in hart.now) word (λ s.
        Foretells s (request_answer result)) }
    ensures told { IsAccess result }
{
    access_or_fault(request_parts(&hart.x, hart.pc, word))
}

/// Executes the instruction `word`, the word at the pc, with what C's memory or device answered to
/// its access, and returns its fault. `granted` is 0 where the access is refused; `value` is that
/// of a load, of which the low bytes count.
#[unsafe(no_mangle)]
pub extern "C" fn rrs_complete(hart: &mut RrsHart, word: u32, granted: u32, value: u32) -> RrsFault
    ensures step { Completes (hart_in hart.old) (hart_in hart.new) word (given granted value)
        (answer_of result) }
    ensures told { IsFault result }
    ensures last { hart.new.last < 32 }
    ensures entry_zero { slice_index hart.new.x 0 ≡ slice_index hart.old.x 0 }
{
    let end = complete_parts(&mut hart.x, hart.pc, word, given_by(granted, value));
    hart.pc = end.pc;
    hart.last = number_of(end.last_register_write);
    fault_of_answer(end.answer)
}

/// Does what `rrs_complete` does, and tells what the step retired, under this number. A load or a
/// store that is refused is none in the record.
#[unsafe(no_mangle)]
pub extern "C" fn rrs_complete_rvfi(
    hart: &mut RrsHart,
    word: u32,
    granted: u32,
    value: u32,
    order: u64,
    retired: &mut RrsRetired,
) -> RrsFault
    ensures step { Completes (hart_in hart.old) (hart_in hart.new) word (given granted value)
        (answer_of result) }
    ensures retires { CompletesRetiring order (hart_in hart.old) (hart_in hart.new) word
        (given granted value) (answer_of result) (retired_in retired.new) }
    ensures record { IsRecord retired.new }
    ensures told { IsFault result }
    ensures last { hart.new.last < 32 }
    ensures entry_zero { slice_index hart.new.x 0 ≡ slice_index hart.old.x 0 }
{
    let (fault, seen) = complete_retired(hart, word, granted, value, order);
    *retired = written_out(&seen);
    fault
}

/// The exception code of the machine cause register for a fault of the word at this pc: 0 to 7 or
/// 11, and 0xffffffff where there is no exception.
#[unsafe(no_mangle)]
pub extern "C" fn rrs_cause(fault: &RrsFault, pc: u32, word: u32) -> u32
    ensures { IsCode (exception_of fault.now) pc word result }
{
    causes::code_of(fault, pc, word)
}

/// The first field in which the record of a core differs from that of the kit, and what each has;
/// field 0 where none differs. `by_words` is 1 where the core tells the address of the word that it
/// accesses, and shifts masks and data within it, and any other number where it tells the first
/// byte's.
#[unsafe(no_mangle)]
pub extern "C" fn rrs_compare(model: &RrsRetired, core: &RrsRetired, by_words: u32) -> RrsDifference
    ensures { result ≡ first_different (record_fields (by_words == 1) model.now core.now) }
{
    first_difference(by_words == 1, model, core)
}

/// Writes the name of a row, such as `addi`, and a 0 after it, where the buffer has room for both.
/// Returns the length of the name without the 0, whether it had room or not, and 0 where there is
/// no such row.
#[unsafe(no_mangle)]
pub extern "C" fn rrs_row_name(row: u32, buffer: &mut [u8]) -> usize
    ensures { PutsRowName row buffer.old buffer.new result }
{
    put_name(row_name(row), buffer)
}

/// Writes the name of a kind of exception as `rrs_row_name` does.
#[unsafe(no_mangle)]
pub extern "C" fn rrs_fault_name(kind: u32, buffer: &mut [u8]) -> usize
    ensures { PutsName (named fault_names kind) buffer.old buffer.new result }
{
    put_name(fault_name(kind), buffer)
}

/// Writes the name of a register in the ABI as `rrs_row_name` does.
#[unsafe(no_mangle)]
pub extern "C" fn rrs_register_name(register: u32, buffer: &mut [u8]) -> usize
    ensures { PutsName (named register_names register) buffer.old buffer.new result }
{
    put_name(register_name(register), buffer)
}

/// Writes the name of a field of a record, such as `rd_wdata`, as `rrs_row_name` does. Field 0 is
/// `same`.
#[unsafe(no_mangle)]
pub extern "C" fn rrs_field_name(field: u32, buffer: &mut [u8]) -> usize
    ensures { PutsName (named field_names field) buffer.old buffer.new result }
{
    put_name(field_name(field), buffer)
}

/// What the bytes of a file are: an executable for this machine in the ELF format, without
/// compressed code, with its entry and the number of its segments, or the first refusal.
#[unsafe(no_mangle)]
pub extern "C" fn rrs_elf_parse(file: &[u8]) -> RrsElf
    ensures executable { (result.refusal ≡ 0) ↔ IsExecutable file.now }
    ensures accepted { IsExecutable file.now → result ≡ accepted_elf file.now }
    ensures refused { (error : ElfError) → first_refusal (checks file.now) ≡ Err error
        → result ≡ refused_elf error }
{
    elf_of(file, CodeUnit::Word)
}

/// What the bytes of a file are for the hart of a profile, as `rrs_elf_parse` tells it: with
/// extension C the executable may have compressed code.
#[unsafe(no_mangle)]
pub extern "C" fn rrs_elf_parse_hart(file: &[u8], profile: u32) -> RrsElf
    ensures executable { (result.refusal ≡ 0)
        ↔ IsExecutableFor (hart_profile_in profile) file.now }
    ensures accepted { IsExecutableFor (hart_profile_in profile) file.now
        → result ≡ accepted_elf file.now }
    ensures refused { (error : ElfError) → first_refusal
        (checks_in (unit_for (hart_profile_in profile)) Addresses.Virtual file.now) ≡ Err error
        → result ≡ refused_elf error }
{
    elf_of(file, unit_of(hart_profile_of(profile)))
}

/// The segment of this number of an executable, with or without compressed code, if it is one that
/// is loaded.
#[unsafe(no_mangle)]
pub extern "C" fn rrs_elf_segment(file: &[u8], index: u32) -> RrsSegment
    ensures { SegmentIn file.now index result }
{
    segment_of(file, index)
}

/// Loads an executable into words from a base on: of each segment, at its virtual address, the
/// bytes of the file, and then zeros. It ends at the first address that is not in the words.
#[unsafe(no_mangle)]
pub extern "C" fn rrs_elf_load(file: &[u8], words: &mut [u32], base: u32) -> RrsLoaded
    ensures { LoadsElf CodeUnit.Word Addresses.Virtual file.now words.old words.new base result }
{
    load_into(file, CodeUnit::Word, Addresses::Virtual, words, base)
}

/// Loads an executable for the hart of a profile, as `rrs_elf_load` does: with extension C it may
/// have compressed code.
#[unsafe(no_mangle)]
pub extern "C" fn rrs_elf_load_hart(
    file: &[u8],
    words: &mut [u32],
    base: u32,
    profile: u32,
) -> RrsLoaded
    ensures { LoadsElf (unit_for (hart_profile_in profile)) Addresses.Virtual file.now
        words.old words.new base result }
{
    let unit = unit_of(hart_profile_of(profile));
    load_into(file, unit, Addresses::Virtual, words, base)
}

/// The function of an executable, with or without compressed code, that an address lies in, or else
/// the nearest function or label before it, whose name is written as `rrs_row_name` does.
#[unsafe(no_mangle)]
pub extern "C" fn rrs_elf_function_at(file: &[u8], address: u32, buffer: &mut [u8]) -> RrsLocation
    ensures { FindsFunction file.now address buffer.old buffer.new result }
{
    function_of(file, address, buffer)
}

/// Assembles a source in the memory of a room, whose first section lies at an address and each
/// other after the one before, and gives the memory back. The bytes from this address on, the
/// statements, and the labels with their names stand then at the front of the buffers
/// (`assembled`), or the mistakes (`refused`). What is after them stays. Where a buffer is too
/// small nothing is written (`unwritten`), and the counts say how many of each there are
/// (`needed`). Where the room is too small all counts are 0 (`no_room`).
#[unsafe(no_mangle)]
pub extern "C" fn rrs_assemble(
    source: &[u8],
    start: u32,
    room: &mut Room,
    bytes: &mut [u8],
    statements: &mut [RrsStatement],
    symbols: &mut [RrsSymbol],
    mistakes: &mut [RrsMistake],
    texts: &mut [u8],
) -> RrsAssembled
    ensures ends { result.end < 4 }
    ensures assembled { result.end ≡ 0
        → Assembles (Arena ⟦<&'static LentHeap as Allocator>⟧) source.now start result.entry
        (take result.bytes bytes.new) (take result.statements statements.new)
        (take result.symbols symbols.new) (take result.texts texts.new) }
    ensures no_mistakes { result.end ≡ 0 → result.mistakes ≡ 0 }
    ensures refused { result.end ≡ 1
        → TellMistakes (take result.mistakes mistakes.new) (take result.texts texts.new) }
    ensures no_program { result.end ≡ 1 → HasNoProgram result }
    ensures no_room { result.end ≡ 2 → result ≡ small_room result.room }
    ensures twice { result.end ≡ 2 → room_size room.old < 2 ^ 63
        → 2 * room_size room.old ≤ result.room }
    ensures asks_none { (result.end ≡ 2 → ⊥) → result.room ≡ 0 }
    ensures needed { result.end ≡ 3
        → Needs (Arena ⟦<&'static LentHeap as Allocator>⟧) source.now start result }
    ensures fit { result.end < 3 → AllFit result (length bytes.old) (length statements.old)
        (length symbols.old) (length mistakes.old) (length texts.old) }
    ensures small { result.end ≡ 3 → AllFit result (length bytes.old) (length statements.old)
        (length symbols.old) (length mistakes.old) (length texts.old) → ⊥ }
    ensures unwritten { result.end ≡ 3 → (bytes.new ≡ bytes.old)
        × (statements.new ≡ statements.old) × (symbols.new ≡ symbols.old)
        × (mistakes.new ≡ mistakes.old) × (texts.new ≡ texts.old) }
    ensures back { IsBack (place_of room.old) (place_of room.new) }
    ensures bytes_behind { StaysBehind result.bytes bytes.old bytes.new }
    ensures statements_behind { StaysBehind result.statements statements.old statements.new }
    ensures symbols_behind { StaysBehind result.symbols symbols.old symbols.new }
    ensures mistakes_behind { StaysBehind result.mistakes mistakes.old mistakes.new }
    ensures texts_behind { StaysBehind result.texts texts.old texts.new }
{
    assemble_lent(
        source, start, room, bytes, statements, symbols, mistakes, texts,
    )
}
