//! What a step changed, and taking it back.

ghost use Rattle.std.specs.Prelude.{◌≡◌, false, slice_index, drop, OnErr, IsTrue};
ghost use Rattle.rrs_lib.specs.Machine.{State, state_of, hart_of};
ghost use Rattle.rrs_lib.specs.Executor.{state_in, KeepsTheRest};
ghost use Rattle.rrs_lib.specs.Accesses.{Makes, MakesExactly};
ghost use Rattle.rrs_lib.specs.Steps.{Step, IsOnlyStep, LastIsRegister, cleared};
ghost use Rattle.rrs_history.specs.Changes.{undone, last_before, put_back, stored_back, accesses_back, NotedAccessesOf};

use crate::recorder::{Recorded, record_step};
use rrs_lib::instruction_executor::{InstructionException, InstructionExecutor, StepEnd};
use rrs_lib::{MemAccessSize, Memory};

/// What takes a step back: the pc and the last written register before it, and the register that
/// it wrote and the bytes that it stored, with what these were. It takes 32 bytes.
#[derive(Clone, Copy, Debug, PartialEq)]
pub struct Change {
    /// The register that was the last written one before, where `had_last` is set.
    pub last: usize,
    /// The pc before: the address of the instruction.
    pub pc: u32,
    /// What the register was before.
    pub value: u32,
    /// The address of the first byte that was stored.
    pub address: u32,
    /// What the bytes that were stored were before, little-endian.
    pub bytes: u32,
    /// How many bytes were stored, or `None` if none were.
    pub stored: Option<MemAccessSize>,
    /// The register that was written, 1 to 31, or 0 if none was.
    pub register: u8,
    /// Whether there was a last written register before.
    pub had_last: bool,
    /// Whether a step or a call begins with this change. Otherwise it is a part of the call that
    /// began before it, and leaves the pc and the last written register.
    pub starts: bool,
    /// Whether it is of a call that was served, and of no step.
    pub of_call: bool,
}

const _: () = prove!(size_of::<Change>() == 32);

/// The change that takes a step back, which was made from this pc, with this last written register.
#[inline(always)]
fn change_of(recorded: Recorded, pc: u32, last: Option<usize>) -> Change
    ensures last { last_before result ≡ last }
    ensures pc { result.pc ≡ pc }
    ensures register { result.register ≡ recorded.register }
    ensures value { result.value ≡ recorded.value }
    ensures stored { result.stored ≡ recorded.replaced.size }
    ensures address { result.address ≡ recorded.replaced.address }
    ensures bytes { result.bytes ≡ recorded.replaced.bytes }
    ensures starts { IsTrue result.starts }
    ensures of_step { result.of_call ≡ false }
{
    Change {
        last: last.unwrap_or(0),
        pc,
        value: recorded.value,
        address: recorded.replaced.address,
        bytes: recorded.replaced.bytes,
        stored: recorded.replaced.size,
        register: recorded.register,
        had_last: last.is_some(),
        starts: true,
        of_call: false,
    }
}

/// Makes a step of a hart whose registers, pc and last written register are handed in apart, as
/// `step_parts`, and tells the change that takes it back: [step_noted] for a hart that is kept in
/// another layout.
///
/// # Errors
///
/// The answer is that of `step`, with its exceptions; what each leaves is as there. The change
/// takes that back too.
#[inline(always)]
pub fn step_noted_parts<M: Memory>(
    mem: &mut M,
    registers: &mut [u32; 32],
    pc: u32,
    last: Option<usize>,
) -> (StepEnd, Change)
    ensures step { Step
        (state_of (hart_of registers.old pc last) (M.bytes mem.old) (M.writable mem.old))
        (state_of (hart_of registers.new result.0.pc result.0.last_register_write)
        (M.bytes mem.new) (M.writable mem.new)) result.0.answer }
    ensures undoes { undone result.1
        (state_of (hart_of registers.new result.0.pc result.0.last_register_write)
        (M.bytes mem.new) (M.writable mem.new))
        ≡ state_of (hart_of registers.old pc last) (M.bytes mem.old) (M.writable mem.old) }
    ensures starts { IsTrue result.1.starts }
    ensures of_step { result.1.of_call ≡ false }
    ensures last { LastIsRegister result.0.last_register_write }
    ensures entry_zero { slice_index registers.new 0 ≡ slice_index registers.old 0 }
    ensures layout_kept { M.layout mem.new ≡ M.layout mem.old }
    ensures accesses { MakesExactly M.reads M.writes (NotedAccessesOf
        (state_of (hart_of registers.old pc last) (M.bytes mem.old) (M.writable mem.old)))
        mem.old mem.new }
{
    let recorded = record_step(mem, registers, pc);
    (recorded.end, change_of(recorded, pc, last))
}

/// Makes a step, and tells the change that takes it back.
///
/// The step is that of `step`, with its answer and its accesses, and before its store one read
/// more, of the bytes that it is to replace (`accesses`). From the state after it the change leads
/// to the state before it (`undoes`).
///
/// # Errors
///
/// The first of the two is the answer of `step`, with its exceptions. After each of them the
/// registers, the pc and the bytes are as before, and no register is the one written last; the
/// change takes that back too.
#[inline]
pub fn step_noted<M: Memory>(
    executor: &mut InstructionExecutor<M>,
) -> (Result<(), InstructionException>, Change)
    ensures step { Step (state_in M.bytes M.writable executor.old)
        (state_in M.bytes M.writable executor.new) result.0 }
    ensures only { IsOnlyStep (state_in M.bytes M.writable executor.old)
        (state_in M.bytes M.writable executor.new) result.0 }
    ensures fault { OnErr result.0 (state_in M.bytes M.writable executor.new
        ≡ cleared (state_in M.bytes M.writable executor.old)) }
    ensures undoes { undone result.1 (state_in M.bytes M.writable executor.new)
        ≡ state_in M.bytes M.writable executor.old }
    ensures starts { IsTrue result.1.starts }
    ensures of_step { result.1.of_call ≡ false }
    ensures last { LastIsRegister executor.new.hart_state.now.last_register_write }
    ensures rest { KeepsTheRest M.layout executor.old executor.new }
    ensures accesses { MakesExactly M.reads M.writes
        (NotedAccessesOf (state_in M.bytes M.writable executor.old))
        executor.old.mem.now executor.new.mem.now }
{
    let hart = &mut *executor.hart_state;
    let pc = hart.pc;
    let recorded = record_step(executor.mem, &mut hart.registers, pc);
    let change = change_of(recorded, pc, hart.last_register_write);
    hart.pc = recorded.end.pc;
    hart.last_register_write = recorded.end.last_register_write;
    (recorded.end.answer, change)
}

/// Puts a register back. x0, and what is no register, stays.
#[inline]
fn put_register(registers: &mut [u32; 32], register: u8, value: u32)
    ensures back { drop 1 registers.new ≡ put_back register value (drop 1 registers.old) }
    ensures entry_zero { slice_index registers.new 0 ≡ slice_index registers.old 0 }
{
    if 0 < register && register < 32 {
        registers[register as usize] = value;
    }
}

/// Writes the bytes of a change back, where it stored some, at an aligned address.
#[inline]
fn put_bytes<M: Memory>(mem: &mut M, change: &Change)
    ensures back { M.bytes mem.new ≡ stored_back change.now.stored change.now.address
        change.now.bytes (M.writable mem.old) (M.bytes mem.old) }
    ensures writable_kept { M.writable mem.new ≡ M.writable mem.old }
    ensures layout_kept { M.layout mem.new ≡ M.layout mem.old }
    ensures makes { (s : State) → s.writable ≡ M.writable mem.old
        → Makes M.reads M.writes (accesses_back change.now s) mem.old mem.new }
{
    let Some(size) = change.stored else {
        return;
    };
    if size.is_aligned(change.address) {
        let _granted = mem.write_mem(change.address, size, change.bytes);
    }
}

/// Takes a change back in a hart whose registers, pc and last written register are handed in apart,
/// and tells what its pc and its last written register are then: [undo] for a hart that is kept in
/// another layout.
#[inline(always)]
pub fn undo_parts<M: Memory>(
    mem: &mut M,
    registers: &mut [u32; 32],
    pc: u32,
    last: Option<usize>,
    change: &Change,
) -> (u32, Option<usize>)
    ensures back { state_of (hart_of registers.new result.0 result.1)
        (M.bytes mem.new) (M.writable mem.new)
        ≡ undone change.now
        (state_of (hart_of registers.old pc last) (M.bytes mem.old) (M.writable mem.old)) }
    ensures entry_zero { slice_index registers.new 0 ≡ slice_index registers.old 0 }
    ensures layout_kept { M.layout mem.new ≡ M.layout mem.old }
    ensures makes { Makes M.reads M.writes (accesses_back change.now
        (state_of (hart_of registers.old pc last) (M.bytes mem.old) (M.writable mem.old)))
        mem.old mem.new }
{
    put_bytes(mem, change);
    put_register(registers, change.register, change.value);
    if !change.starts {
        return (pc, last);
    }
    let last_before = if change.had_last {
        Some(change.last)
    } else {
        None
    };
    (change.pc, last_before)
}

/// Takes a change back.
///
/// The register and the bytes of the change are what they were before it, and where a step begins
/// with it the pc and the last written register too (`back`). The bytes are put back by one write;
/// nothing else is accessed (`makes`). If the memory refuses that write they stay. It does not
/// refuse it after the step whose change this is, nor after later ones that were taken back, since
/// what is writable stays so: there the state before the step is back, by `undoes` of
/// [step_noted].
pub fn undo<M: Memory>(executor: &mut InstructionExecutor<M>, change: &Change)
    ensures back { state_in M.bytes M.writable executor.new
        ≡ undone change.now (state_in M.bytes M.writable executor.old) }
    ensures rest { KeepsTheRest M.layout executor.old executor.new }
    ensures makes { Makes M.reads M.writes
        (accesses_back change.now (state_in M.bytes M.writable executor.old))
        executor.old.mem.now executor.new.mem.now }
{
    let hart = &mut *executor.hart_state;
    let last = hart.last_register_write;
    let (pc, before) = undo_parts(executor.mem, &mut hart.registers, hart.pc, last, change);
    hart.pc = pc;
    hart.last_register_write = before;
}
