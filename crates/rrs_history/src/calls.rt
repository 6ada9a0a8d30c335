//! Steps of a program that calls its environment, which can be taken back.

ghost use Rattle.std.specs.Prelude.{◌≡◌, ℕ, Bool, true, Option, length, drop, slice_index, OnOk, OnErr, IsTrue};
ghost use Rattle.rrs_lib.specs.Machine.{State, state_of};
ghost use Rattle.rrs_lib.specs.Executor.{state_in, KeepsTheRest};
ghost use Rattle.rrs_fast.specs.Serving.{MakesSome, resumed};
ghost use Rattle.rrs_history.specs.Changes.{undone};
ghost use Rattle.rrs_history.specs.Histories.{changes, past};
ghost use Rattle.rrs_history.specs.Calls.{IsServedStep, RemembersCall, ServesCall, IsRecorded, Carries, part_stored, part_written};

use crate::change::{Change, step_noted};
use crate::history::History;
use crate::noting::write_noted;
use rrs_fast::Environment;
use rrs_lib::instruction_executor::{InstructionException, InstructionExecutor};
use rrs_lib::{HartState, MemAccessSize, Memory};

/// A memory of any type, lent beside a history, which keeps what each write changes as a part of
/// the step or the call that was kept last.
///
/// Its bytes and what is writable are those of the memory that is lent. A read is one read of that
/// memory. A write is a read of the bytes that it is to replace, and the write.
#[derive(Drop)]
pub struct RecordedMemory<'a, M: Memory> {
    /// The memory.
    pub memory: &'a mut M,
    /// The history.
    pub history: &'a mut History,
}

/// A part of a call: the bytes that a write replaced.
#[inline]
fn stored_part(address: u32, size: MemAccessSize, bytes: u32) -> Change
    ensures { result ≡ part_stored address size bytes }
{
    Change {
        last: 0,
        pc: 0,
        value: 0,
        address,
        bytes,
        stored: Some(size),
        register: 0,
        had_last: false,
        starts: false,
        of_call: true,
    }
}

/// A part of a call: a register that it wrote, with what it was.
#[inline]
fn register_part(register: u8, value: u32) -> Change
    ensures { result ≡ part_written register value }
{
    Change {
        last: 0,
        pc: 0,
        value,
        address: 0,
        bytes: 0,
        stored: None,
        register,
        had_last: false,
        starts: false,
        of_call: true,
    }
}

impl<'a, M: Memory> Memory for RecordedMemory<'a, M> {
    ghost use Rattle.rrs_history.specs.Calls.{recorded_reads, recorded_writes};

    ghost bytes = { λ m. M.bytes m.memory.now };

    ghost writable = { λ m. M.writable m.memory.now };

    ghost layout = { λ m. M.layout m.memory.now };

    ghost reads = { recorded_reads M.bytes M.writable M.reads };

    ghost writes = { recorded_writes M.bytes M.writable M.reads M.writes };

    fn read_mem(&mut self, addr: u32, size: MemAccessSize) -> Option<u32> {
        self.memory.read_mem(addr, size)
    }

    fn write_mem(&mut self, addr: u32, size: MemAccessSize, store_data: u32) -> bool {
        let (granted, bytes) = write_noted(self.memory, addr, size, store_data);
        if granted {
            self.history.push(stored_part(addr, size, bytes));
        }
        granted
    }
}

/// Serves a call of a hart with a memory that is recorded.
fn serve_executor<'b, M: Memory, E: Environment>(
    executor: &mut InstructionExecutor<RecordedMemory<'b, M>>,
    environment: &mut E,
) -> Option<u32>
    ensures served { IsRecorded M.bytes M.writable M.reads M.writes E.serves
        environment.old executor.old.hart_state.now
        executor.old.mem.now.memory.now executor.old.mem.now.history.now
        environment.new executor.new.hart_state.now
        executor.new.mem.now.memory.now executor.new.mem.now.history.now result }
    ensures rest { KeepsTheRest (λ m. M.layout m.memory.now) executor.old executor.new }
    ensures same_memory { executor.new.mem.now.memory.ghost_name
        ≡ executor.old.mem.now.memory.ghost_name }
    ensures same_history { executor.new.mem.now.history.ghost_name
        ≡ executor.old.mem.now.history.ghost_name }
{
    environment.serve(executor)
}

/// Serves a call over a memory that is recorded.
fn serve_inner<'b, M: Memory, E: Environment>(
    recorded: &mut RecordedMemory<'b, M>,
    hart_state: &mut HartState,
    environment: &mut E,
) -> Option<u32>
    ensures served { IsRecorded M.bytes M.writable M.reads M.writes E.serves
        environment.old hart_state.old recorded.old.memory.now recorded.old.history.now
        environment.new hart_state.new recorded.new.memory.now recorded.new.history.now result }
    ensures entry_zero { slice_index hart_state.new.registers 0
        ≡ slice_index hart_state.old.registers 0 }
    ensures layout_kept { M.layout recorded.new.memory.now ≡ M.layout recorded.old.memory.now }
    ensures same_memory { recorded.new.memory.ghost_name ≡ recorded.old.memory.ghost_name }
    ensures same_history { recorded.new.history.ghost_name ≡ recorded.old.history.ghost_name }
{
    let mut executor = InstructionExecutor {
        mem: recorded,
        hart_state,
    };
    serve_executor(&mut executor, environment)
}

/// Serves a call, and keeps what it writes into memory.
fn serve_over<M: Memory, E: Environment>(
    mem: &mut M,
    hart_state: &mut HartState,
    environment: &mut E,
    history: &mut History,
) -> Option<u32>
    ensures served { IsRecorded M.bytes M.writable M.reads M.writes E.serves
        environment.old hart_state.old mem.old history.old
        environment.new hart_state.new mem.new history.new result }
    ensures entry_zero { slice_index hart_state.new.registers 0
        ≡ slice_index hart_state.old.registers 0 }
    ensures layout_kept { M.layout mem.new ≡ M.layout mem.old }
{
    let mut recorded = RecordedMemory {
        memory: mem,
        history,
    };
    serve_inner(&mut recorded, hart_state, environment)
}

/// Keeps the registers that are not what they were.
pub(crate) fn keep_registers(history: &mut History, before: &[u32; 32], after: &[u32; 32])
    ensures { (s : State) → s.registers ≡ drop 1 before.now
        → Carries 31 history.old s history.new (record s { registers = drop 1 after.now }) }
{
    for register in 1..32_u8 {
        let was = before[register as usize];
        if after[register as usize] != was {
            history.push(register_part(register, was));
        }
    }
}

/// Goes on after the `ecall` at `pc`, if the program goes on.
fn resume(hart: &mut HartState, answer: Option<u32>, pc: u32)
    ensures resumed { (bytes : ℕ → Option ℕ) (writable : ℕ → Bool) → state_of hart.new bytes writable
        ≡ resumed answer pc (state_of hart.old bytes writable) }
    ensures registers { hart.new.registers ≡ hart.old.registers }
{
    if answer.is_none() {
        hart.pc = pc.wrapping_add(4);
    }
}

/// Serves the call of a hart that is at an `ecall` at `pc`, and keeps it with the change that led
/// there. A program that goes on does so at the next instruction.
fn serve_noted<M: Memory, E: Environment>(
    executor: &mut InstructionExecutor<M>,
    environment: &mut E,
    history: &mut History,
    change: Change,
    pc: u32,
) -> Option<u32>
    requires { IsTrue change.starts }
    ensures served { MakesSome M.reads M.writes (λ noted. ServesCall E.serves
        environment.old (state_in M.bytes M.writable executor.old) result pc
        environment.new (state_in M.bytes M.writable executor.new) noted
        × RemembersCall true history.old
        (undone change (state_in M.bytes M.writable executor.old))
        history.new (state_in M.bytes M.writable executor.new) (length noted))
        executor.old.mem.now executor.new.mem.now }
    ensures rest { KeepsTheRest M.layout executor.old executor.new }
{
    history.push(Change {
        of_call: true,
        ..change
    });
    let before = executor.hart_state.registers;
    let answer = serve_over(executor.mem, executor.hart_state, environment, history);
    keep_registers(history, &before, &executor.hart_state.registers);
    resume(executor.hart_state, answer, pc);
    answer
}

/// The change with which a call begins of a hart that stands here. It leads to the state that it is
/// in.
pub(crate) fn begun(hart: &HartState) -> Change
    ensures same { (bytes : ℕ → Option ℕ) (writable : ℕ → Bool)
        → undone result (state_of hart.now bytes writable) ≡ state_of hart.now bytes writable }
    ensures starts { IsTrue result.starts }
    ensures of_call { IsTrue result.of_call }
{
    Change {
        last: hart.last_register_write.unwrap_or(0),
        pc: hart.pc,
        value: 0,
        address: 0,
        bytes: 0,
        stored: None,
        register: 0,
        had_last: hart.last_register_write.is_some(),
        starts: true,
        of_call: true,
    }
}

/// Has the environment serve a hart where it stands, whatever the word there is, and keeps what
/// that changed as a call.
///
/// It is for an instruction at which a step faulted and that the environment carries out. The
/// answer is that of the environment: with `None` the hart goes on behind the word, and with a
/// status at the pc that the environment left (`served`). The history then leads back to the state
/// before, and tells that it was a call.
pub fn serve_recorded<M: Memory, E: Environment>(
    executor: &mut InstructionExecutor<M>,
    environment: &mut E,
    history: &mut History,
) -> Option<u32>
    ensures served { MakesSome M.reads M.writes (λ noted. ServesCall E.serves
        environment.old (state_in M.bytes M.writable executor.old) result
        executor.old.hart_state.now.pc
        environment.new (state_in M.bytes M.writable executor.new) noted
        × RemembersCall true history.old (state_in M.bytes M.writable executor.old)
        history.new (state_in M.bytes M.writable executor.new) (length noted))
        executor.old.mem.now executor.new.mem.now }
    ensures rest { KeepsTheRest M.layout executor.old executor.new }
{
    let change = begun(executor.hart_state);
    let pc = executor.hart_state.pc;
    serve_noted(executor, environment, history, change, pc)
}

/// Makes a step, has an `ecall` served by the environment, and keeps what either changed.
///
/// The answer is `None` where the program goes on, after the `ecall` as in `run_served`, or the
/// status with which the call ended it. The clause `served` says what happened: a step, with the
/// read before its store, or a step that is an `ecall`, and its call, with a read before each of
/// its writes. The history then leads back to the state before, and from there to the states before
/// that: registers, pc, last written register and bytes. What the environment keeps, as what it
/// read and printed, is not taken back: its owner does that at a change that is `of_call`. The
/// latest one that `starts` is so exactly where a call was served (`is_call`).
///
/// # Errors
///
/// The exceptions of `step` but `EnvironmentCall`. After each of them the registers, the pc and the
/// bytes are as before, and no register is the one written last. Nothing is kept, and the history
/// leads back to the states to which it led before (`kept`).
pub fn step_served<M: Memory, E: Environment>(
    executor: &mut InstructionExecutor<M>,
    environment: &mut E,
    history: &mut History,
) -> Result<Option<u32>, InstructionException>
    ensures served { MakesSome M.reads M.writes (λ accesses. (is_call : Bool)
        × IsServedStep E.serves is_call environment.old (state_in M.bytes M.writable executor.old) result
        environment.new (state_in M.bytes M.writable executor.new) accesses
        × OnOk result (RemembersCall is_call
        history.old (state_in M.bytes M.writable executor.old)
        history.new (state_in M.bytes M.writable executor.new) (length accesses)))
        executor.old.mem.now executor.new.mem.now }
    ensures kept { OnErr result ((changes history.new ≡ changes history.old)
        × (past (changes history.new) (state_in M.bytes M.writable executor.new)
        ≡ past (changes history.old) (state_in M.bytes M.writable executor.old))) }
    ensures rest { KeepsTheRest M.layout executor.old executor.new }
{
    let (answer, change) = step_noted(executor);
    let Err(exception) = answer else {
        history.push(change);
        return Ok(None);
    };
    match exception {
        InstructionException::EnvironmentCall(pc) => {
            Ok(serve_noted(executor, environment, history, change, pc))
        }
        fault => Err(fault),
    }
}
