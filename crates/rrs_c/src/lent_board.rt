//! The board over words that are lent as its RAM, its steps and runs.

ghost use Rattle.std.specs.Prelude.{◌≡◌, ◌%◌, ◌<◌, ◌≤◌, slice_index};
ghost use Rattle.rrs_lib.specs.Bytes.{width, little_endian, all_writable};
ghost use Rattle.rrs_lib.specs.SliceBytes.{bytes_from, lies_from};
ghost use Rattle.rrs_lib.specs.Steps.{LastIsRegister};
ghost use Rattle.rrs_lib.specs.Accesses.{MakesExactly};
ghost use Rattle.rrs_machine.specs.MachineSteps.{MachineStep, AccessesOfMachineStep, fetched_at};
ghost use Rattle.rrs_board.specs.Registers.{ram_start};
ghost use Rattle.rrs_board.specs.Effects.{Tells};
ghost use Rattle.rrs_c.specs.Boards.{LentRam, board_in_c, devices_in, WritesWords, LentStepped, LentRun};
ghost use Rattle.rrs_c.specs.LentBoards.{seen_with, seen, MemoryReads, MemoryWrites, machine_over, AreSettled};

use crate::board::{RrsBoard, put_devices};
use crate::hart::{close, opened};
use crate::machine::{csrs_of, file_of};
use crate::retired::flag;
use rrs_board::effects::dead_event;
use rrs_board::memory::RAM_START;
use rrs_board::runs::takes_trap;
use rrs_board::{BoardEnd, BoardEvent, BoardStep, Devices};
use rrs_hart::{Encoding, fetch_in};
use rrs_lib::instruction_executor::{InstructionException, InstructionExecutor};
use rrs_lib::memories::SliceMemory;
use rrs_lib::{HartState, MemAccessSize, Memory};
use rrs_machine::{CsrFile, Inputs, MachineAnswer, step_machine};

/// RAM of words that are lent, and the registers of the devices below it.
#[derive(Drop)]
pub(crate) struct LentMemory<'a> {
    /// The words of RAM.
    pub(crate) words: &'a mut [u32],
    /// The devices.
    pub(crate) devices: Devices,
}

/// The `size` bytes at an address of RAM, whose words stay as they are.
#[inline(always)]
fn read_ram(words: &mut [u32], addr: u32, size: MemAccessSize) -> Option<u32>
    requires { addr % width size ≡ 0 }
    ensures value { result ≡ little_endian (bytes_from ram_start words.old) addr (width size) }
    ensures kept { words.new ≡ words.old }
{
    let mut ram = SliceMemory {
        words,
        base: RAM_START,
    };
    ram.read_mem(addr, size)
}

/// Writes to an address of RAM, and returns whether it lies in the words.
#[inline(always)]
fn write_ram(words: &mut [u32], addr: u32, size: MemAccessSize, value: u32) -> bool
    requires { addr % width size ≡ 0 }
    ensures granted { result ≡ all_writable (lies_from ram_start words.old) addr (width size) }
    ensures did { WritesWords words.old addr size value words.new result }
{
    let mut ram = SliceMemory {
        words,
        base: RAM_START,
    };
    ram.write_mem(addr, size, value)
}

impl<'a> Memory for LentMemory<'a> {
    ghost use Rattle.rrs_c.specs.LentBoards.{memory_bytes, memory_writable, memory_layout, MemoryReads, MemoryWrites};

    ghost bytes = { memory_bytes };

    ghost writable = { memory_writable };

    ghost layout = { memory_layout };

    ghost reads = { MemoryReads };

    ghost writes = { MemoryWrites };

    #[inline(always)]
    fn read_mem(&mut self, addr: u32, size: MemAccessSize) -> Option<u32> {
        if addr < RAM_START {
            self.devices.read_mem(addr, size)
        } else {
            read_ram(self.words, addr, size)
        }
    }

    #[inline(always)]
    fn write_mem(&mut self, addr: u32, size: MemAccessSize, store_data: u32) -> bool {
        if addr < RAM_START {
            self.devices.write_mem(addr, size, store_data)
        } else {
            write_ram(self.words, addr, size, store_data)
        }
    }
}

/// A hart with machine mode and its CSRs.
#[derive(Drop)]
pub(crate) struct BoardHart {
    /// The hart.
    pub(crate) state: HartState,
    /// Its CSRs.
    pub(crate) csrs: CsrFile,
    /// Whether the latest step took a trap.
    pub(crate) trapped: bool,
}

/// Makes a step of a hart over the memory.
#[inline(always)]
fn step_over<'a>(
    mem: &mut LentMemory<'a>,
    hart_state: &mut HartState,
    csrs: &mut CsrFile,
    inputs: &Inputs,
) -> MachineAnswer
    ensures step { MachineStep inputs.now (machine_over hart_state.old csrs.old mem.old)
        (machine_over hart_state.new csrs.new mem.new) result }
    ensures accesses { MakesExactly MemoryReads MemoryWrites (AccessesOfMachineStep inputs.now
        (machine_over hart_state.old csrs.old mem.old)) mem.old mem.new }
    ensures entry_zero { slice_index hart_state.new.registers 0
        ≡ slice_index hart_state.old.registers 0 }
{
    let mut executor = InstructionExecutor { mem, hart_state };
    step_machine(&mut executor, csrs, inputs)
}

/// The instruction that a hart is about to execute, or the exception of its fetch. No device hears
/// of it.
fn fetched<'a>(mem: &mut LentMemory<'a>, hart: &BoardHart) -> Result<Encoding, InstructionException>
    ensures fetched { result ≡ fetched_at (machine_over hart.now.state hart.now.csrs mem.old) }
    ensures words { mem.new.words.now ≡ mem.old.words.now }
    ensures same_words { mem.new.words.ghost_name ≡ mem.old.words.ghost_name }
    ensures devices { mem.new.devices ≡ mem.old.devices }
{
    let devices = mem.devices;
    let fetched = fetch_in(mem, hart.csrs.profile.hart, hart.state.pc);
    mem.devices = devices;
    fetched
}

/// What the caller is told after a step from this pc, where the devices have this event for him:
/// that, or that the hart is dead.
fn told_from<'a>(
    mem: &mut LentMemory<'a>,
    hart: &BoardHart,
    pc: u32,
    event: Option<BoardEvent>,
) -> Option<BoardEvent>
    ensures words { mem.new.words.now ≡ mem.old.words.now }
    ensures same_words { mem.new.words.ghost_name ≡ mem.old.words.ghost_name }
    ensures devices { mem.new.devices ≡ mem.old.devices }
    ensures told { Tells event result (machine_over hart.now.state hart.now.csrs mem.old) }
{
    match event {
        None if hart.state.pc == pc => {
            let fetched = fetched(mem, hart);
            dead_event(&hart.csrs, pc, fetched)
        }
        _ => event,
    }
}

/// Makes a step of a board: the hart makes its own, and the devices answer to what it did.
#[inline(always)]
fn step_board<'a>(mem: &mut LentMemory<'a>, hart: &mut BoardHart) -> BoardStep
    requires { AreSettled mem.old.devices }
    ensures settled { AreSettled mem.new.devices }
    ensures step { LentStepped (seen hart.old mem.old) (seen hart.new mem.new)
        result.answer result.event }
    ensures same_words { mem.new.words.ghost_name ≡ mem.old.words.ghost_name }
    ensures last { LastIsRegister hart.new.state.last_register_write }
    ensures entry_zero { slice_index hart.new.state.registers 0
        ≡ slice_index hart.old.state.registers 0 }
{
    let pc = hart.state.pc;
    let inputs = mem.devices.inputs();
    let answer = step_over(mem, &mut hart.state, &mut hart.csrs, &inputs);
    hart.trapped = takes_trap(answer);
    let event = mem.devices.settle(answer, &hart.csrs);
    let event = told_from(mem, hart, pc, event);
    BoardStep { answer, event }
}

/// Makes steps until as many as `limit` were made, or a device has something for the caller.
pub(crate) fn run_board<'a>(mem: &mut LentMemory<'a>, hart: &mut BoardHart, limit: u64) -> BoardEnd
    requires { AreSettled mem.old.devices }
    ensures settled { AreSettled mem.new.devices }
    ensures run { LentRun limit (seen hart.old mem.old)
        result.steps result.event (seen hart.new mem.new) }
    ensures within { result.steps ≤ limit }
    ensures same_words { mem.new.words.ghost_name ≡ mem.old.words.ghost_name }
    ensures last { LastIsRegister hart.old.state.last_register_write
        → LastIsRegister hart.new.state.last_register_write }
    ensures entry_zero { slice_index hart.new.state.registers 0
        ≡ slice_index hart.old.state.registers 0 }
{
    let mut steps = 0;
    'steps: while steps < limit {
        let step = step_board(mem, hart);
        steps += 1;
        match step.event {
            Some(event) => {
                return BoardEnd {
                    steps,
                    event: Some(event),
                };
            }
            None => {}
        }
    }
    BoardEnd { steps, event: None }
}

/// The hart of a board of C.
#[inline]
pub(crate) fn hart_of_board(board: &RrsBoard) -> BoardHart
    ensures same { (ram : LentRam) → ram.devices ≡ devices_in board.now
        → seen_with result ram ≡ board_in_c board.now ram.words }
    ensures registers { result.state.registers ≡ board.now.hart.x }
    ensures last { LastIsRegister result.state.last_register_write }
{
    BoardHart {
        state: opened(&board.hart),
        csrs: file_of(&board.csrs),
        trapped: board.csrs.trapped == 1,
    }
}

/// Makes a board of C what this hart and these devices are.
#[inline]
pub(crate) fn close_board(hart: &BoardHart, devices: &Devices, board: &mut RrsBoard)
    requires settled { AreSettled devices.now }
    requires last { LastIsRegister hart.now.state.last_register_write }
    ensures same { (ram : LentRam) → ram.devices ≡ devices.now
        → board_in_c board.new ram.words ≡ seen_with hart.now ram }
    ensures last { board.new.hart.last < 32 }
    ensures registers { board.new.hart.x ≡ hart.now.state.registers }
{
    close(&hart.state, &mut board.hart);
    board.csrs = csrs_of(&hart.csrs, flag(hart.trapped));
    put_devices(devices, board);
}
