//! What a step retires, in the shape of RVFI.

ghost use Rattle.std.specs.Prelude.{slice_index, drop, ◌≡◌, ◌<◌, ℕ, List, true, None, Option, Err};
ghost use Rattle.rrs_lib.specs.Encodings.{HasRegisters};
ghost use Rattle.rrs_lib.specs.Instructions.{fields_of};
ghost use Rattle.rrs_lib.specs.Machine.{State, state_of, hart_of};
ghost use Rattle.rrs_lib.specs.Executor.{state_in, KeepsTheRest};
ghost use Rattle.rrs_lib.specs.Accesses.{Access, AccessesOf, MakesExactly};
ghost use Rattle.rrs_lib.specs.Steps.{Step, IsOnlyStep, next_word, LastIsRegister};
ghost use Rattle.rrs_trace.specs.Traced.{traced_state, traced_reads, traced_writes};
ghost use Rattle.rrs_trace.specs.Retired.{no_access, after_fetch, first_source, second_source, HasSources, HasValues, HasRegisterNumbers, Retires};

use crate::registers::{last_register, register_value, source_registers};
use crate::traced::{MemoryAccess, TracedMemory};
use rrs_lib::Memory;
use rrs_lib::instruction::{Instruction, decode};
use rrs_lib::instruction_executor::{
    InstructionException, InstructionExecutor, StepEnd, execute_parts, fetch_word,
};

/// What a step retired, under the names of RVFI. After an exception `trap` is set.
///
/// A register number is 0 where there is none, and its value 0 then.
#[derive(Clone, Copy, Debug, PartialEq)]
pub struct Retired {
    /// The number of the step, which the caller gave.
    pub order: u64,
    /// The word at the pc, or the 16 bits of a compressed instruction, or `None` where none was
    /// fetched.
    pub insn: Option<u32>,
    /// Whether the step ended with an exception.
    pub trap: bool,
    /// The pc before.
    pub pc_rdata: u32,
    /// The pc after.
    pub pc_wdata: u32,
    /// The first source register of the word, by its format.
    pub rs1_addr: usize,
    /// Its value before.
    pub rs1_rdata: u32,
    /// The second source register of the word, by its format.
    pub rs2_addr: usize,
    /// Its value before.
    pub rs2_rdata: u32,
    /// The register that was written. A write to x0 is none.
    pub rd_addr: usize,
    /// Its value after.
    pub rd_wdata: u32,
    /// The load or the store, if one was granted.
    pub mem: MemoryAccess,
}

/// The source registers of a word, with the values that they had, all 0 where there are none.
#[derive(Clone, Copy)]
struct Sources {
    /// The first source register.
    rs1_addr: usize,
    /// Its value.
    rs1_rdata: u32,
    /// The second source register.
    rs2_addr: usize,
    /// Its value.
    rs2_rdata: u32,
}

/// The source registers of an instruction, with their values.
#[inline(always)]
fn sources_of(instruction: &Instruction, registers: &[u32; 32]) -> Sources
    requires { HasRegisters (fields_of instruction.now) }
    ensures first { result.rs1_addr ≡ first_source (fields_of instruction.now) }
    ensures second { result.rs2_addr ≡ second_source (fields_of instruction.now) }
    ensures values { (s : State) → s.registers ≡ drop 1 registers.now → HasValues s result }
{
    let (rs1_addr, rs2_addr) = source_registers(instruction);
    Sources {
        rs1_addr,
        rs1_rdata: register_value(registers, rs1_addr),
        rs2_addr,
        rs2_rdata: register_value(registers, rs2_addr),
    }
}

/// No source registers.
#[inline(always)]
fn no_sources() -> Sources
    ensures numbers { (result.rs1_addr ≡ 0) × (result.rs2_addr ≡ 0) }
    ensures values { (s : State) → HasValues s result }
{
    Sources {
        rs1_addr: 0,
        rs1_rdata: 0,
        rs2_addr: 0,
        rs2_rdata: 0,
    }
}

/// How a step ends that has an exception before its instruction is executed.
#[inline(always)]
fn faulted(exception: InstructionException, pc: u32) -> StepEnd
    ensures answer { result.answer ≡ Err exception }
    ensures pc { result.pc ≡ pc }
    ensures last { result.last_register_write ≡ None }
{
    StepEnd {
        answer: Err(exception),
        pc,
        last_register_write: None,
    }
}

/// Makes a step over a memory that is traced, and that nothing has accessed yet.
#[inline(always)]
fn step_traced<'b, M: Memory>(
    traced: &mut TracedMemory<'b, M>,
    registers: &mut [u32; 32],
    pc: u32,
) -> (StepEnd, Sources)
    ensures step { (last : Option ℕ) → Step
        (traced_state M.bytes M.writable (hart_of registers.old pc last) traced.old)
        (traced_state M.bytes M.writable (hart_of registers.new result.0.pc
        result.0.last_register_write) traced.new) result.0.answer }
    ensures sources { (last : Option ℕ) → HasSources (next_word
        (traced_state M.bytes M.writable (hart_of registers.old pc last) traced.old))
        result.1.rs1_addr result.1.rs2_addr }
    ensures values { (last : Option ℕ) → HasValues
        (traced_state M.bytes M.writable (hart_of registers.old pc last) traced.old) result.1 }
    ensures accesses { (last : Option ℕ) → MakesExactly (traced_reads M.reads)
        (traced_writes M.writes) (AccessesOf
        (traced_state M.bytes M.writable (hart_of registers.old pc last) traced.old))
        traced.old traced.new }
    ensures layout_kept { M.layout traced.new.memory.now ≡ M.layout traced.old.memory.now }
    ensures entry_zero { slice_index registers.new 0 ≡ slice_index registers.old 0 }
{
    let word = match fetch_word(traced, pc) {
        Ok(word) => word,
        Err(exception) => return (faulted(exception, pc), no_sources()),
    };
    let Some(instruction) = decode(word) else {
        let illegal = InstructionException::IllegalInstruction(pc, word);
        return (faulted(illegal, pc), no_sources());
    };
    let sources = sources_of(&instruction, registers);
    (execute_parts(traced, registers, pc, &instruction), sources)
}

/// Makes a step over a memory that is traced, and that nothing has accessed yet: what was seen.
#[inline(always)]
fn trace_step<'b, M: Memory>(
    traced: &mut TracedMemory<'b, M>,
    registers: &mut [u32; 32],
    pc: u32,
) -> (StepEnd, Sources)
    requires first { traced.old.is_fetch ≡ true }
    requires no_word { traced.old.insn ≡ None }
    requires no_access { traced.old.access ≡ no_access }
    ensures step { (last : Option ℕ) → Step
        (traced_state M.bytes M.writable (hart_of registers.old pc last) traced.old)
        (traced_state M.bytes M.writable (hart_of registers.new result.0.pc
        result.0.last_register_write) traced.new) result.0.answer }
    ensures sources { (last : Option ℕ) → HasSources (next_word
        (traced_state M.bytes M.writable (hart_of registers.old pc last) traced.old))
        result.1.rs1_addr result.1.rs2_addr }
    ensures values { (last : Option ℕ) → HasValues
        (traced_state M.bytes M.writable (hart_of registers.old pc last) traced.old) result.1 }
    ensures insn { (last : Option ℕ) → traced.new.insn ≡ next_word
        (traced_state M.bytes M.writable (hart_of registers.old pc last) traced.old) }
    ensures access { (last : Option ℕ) (accesses : List Access) → AccessesOf
        (traced_state M.bytes M.writable (hart_of registers.old pc last) traced.old) accesses
        → traced.new.access ≡ after_fetch accesses }
    ensures accesses { (last : Option ℕ) → MakesExactly M.reads M.writes (AccessesOf
        (traced_state M.bytes M.writable (hart_of registers.old pc last) traced.old))
        traced.old.memory.now traced.new.memory.now }
    ensures same_memory { traced.new.memory.ghost_name ≡ traced.old.memory.ghost_name }
    ensures layout_kept { M.layout traced.new.memory.now ≡ M.layout traced.old.memory.now }
    ensures entry_zero { slice_index registers.new 0 ≡ slice_index registers.old 0 }
{
    step_traced(traced, registers, pc)
}

/// What was seen of a step.
#[derive(Clone, Copy)]
struct SeenStep {
    /// How it ended.
    end: StepEnd,
    /// What the fetch read.
    insn: Option<u32>,
    /// The source registers of that word.
    sources: Sources,
    /// The access after the fetch.
    access: MemoryAccess,
}

/// Makes a step over a memory, which is traced for it.
#[inline(always)]
fn see_step<M: Memory>(mem: &mut M, registers: &mut [u32; 32], pc: u32) -> SeenStep
    ensures step { (last : Option ℕ) → Step
        (state_of (hart_of registers.old pc last) (M.bytes mem.old) (M.writable mem.old))
        (state_of (hart_of registers.new result.end.pc result.end.last_register_write)
        (M.bytes mem.new) (M.writable mem.new)) result.end.answer }
    ensures insn { (last : Option ℕ) → result.insn ≡ next_word
        (state_of (hart_of registers.old pc last) (M.bytes mem.old) (M.writable mem.old)) }
    ensures sources { (last : Option ℕ) → HasSources (next_word
        (state_of (hart_of registers.old pc last) (M.bytes mem.old) (M.writable mem.old)))
        result.sources.rs1_addr result.sources.rs2_addr }
    ensures values { (last : Option ℕ) → HasValues
        (state_of (hart_of registers.old pc last) (M.bytes mem.old) (M.writable mem.old))
        result.sources }
    ensures access { (last : Option ℕ) (accesses : List Access) → AccessesOf
        (state_of (hart_of registers.old pc last) (M.bytes mem.old) (M.writable mem.old)) accesses
        → result.access ≡ after_fetch accesses }
    ensures accesses { (last : Option ℕ) → MakesExactly M.reads M.writes (AccessesOf
        (state_of (hart_of registers.old pc last) (M.bytes mem.old) (M.writable mem.old)))
        mem.old mem.new }
    ensures layout_kept { M.layout mem.new ≡ M.layout mem.old }
    ensures entry_zero { slice_index registers.new 0 ≡ slice_index registers.old 0 }
{
    let mut traced = TracedMemory {
        memory: mem,
        is_fetch: true,
        insn: None,
        access: MemoryAccess::none(),
    };
    let (end, sources) = trace_step(&mut traced, registers, pc);
    SeenStep {
        end,
        insn: traced.insn,
        sources,
        access: traced.access,
    }
}

/// Makes a step of a hart whose registers and pc are handed in apart, as `step_parts`, and tells
/// what it retired, with this number: [step_retired] for a hart that is kept in another layout.
///
/// The clauses hold whatever register was written last before.
///
/// # Errors
///
/// The first of the two is the answer of `step`, with its exceptions; what each leaves is as there.
/// The second is told after an exception too, with `trap`.
#[inline(always)]
pub fn step_retired_parts<M: Memory>(
    mem: &mut M,
    registers: &mut [u32; 32],
    pc: u32,
    order: u64,
) -> (StepEnd, Retired)
    ensures step { (last : Option ℕ) → Step
        (state_of (hart_of registers.old pc last) (M.bytes mem.old) (M.writable mem.old))
        (state_of (hart_of registers.new result.0.pc result.0.last_register_write)
        (M.bytes mem.new) (M.writable mem.new)) result.0.answer }
    ensures retires { (last : Option ℕ) → Retires order
        (state_of (hart_of registers.old pc last) (M.bytes mem.old) (M.writable mem.old))
        (state_of (hart_of registers.new result.0.pc result.0.last_register_write)
        (M.bytes mem.new) (M.writable mem.new)) result.0.answer result.1 }
    ensures numbers { HasRegisterNumbers result.1 }
    ensures last { LastIsRegister result.0.last_register_write }
    ensures entry_zero { slice_index registers.new 0 ≡ slice_index registers.old 0 }
    ensures layout_kept { M.layout mem.new ≡ M.layout mem.old }
    ensures accesses { (last : Option ℕ) → MakesExactly M.reads M.writes (AccessesOf
        (state_of (hart_of registers.old pc last) (M.bytes mem.old) (M.writable mem.old)))
        mem.old mem.new }
{
    let seen = see_step(mem, registers, pc);
    let rd_addr = last_register(seen.end.last_register_write);
    let retired = Retired {
        order,
        insn: seen.insn,
        trap: seen.end.answer.is_err(),
        pc_rdata: pc,
        pc_wdata: seen.end.pc,
        rs1_addr: seen.sources.rs1_addr,
        rs1_rdata: seen.sources.rs1_rdata,
        rs2_addr: seen.sources.rs2_addr,
        rs2_rdata: seen.sources.rs2_rdata,
        rd_addr,
        rd_wdata: register_value(registers, rd_addr),
        mem: seen.access,
    };
    (seen.end, retired)
}

/// Makes a step, and tells what it retired, with this number.
///
/// The step is that of `step`, with its answer and its accesses and no others: the word and the
/// load or store are seen as they are made, and the source registers are read between the two.
///
/// # Errors
///
/// The first of the two is the answer of `step`, with its exceptions; what each leaves is as there.
/// The second is told after an exception too, with `trap`.
pub fn step_retired<M: Memory>(
    executor: &mut InstructionExecutor<M>,
    order: u64,
) -> (Result<(), InstructionException>, Retired)
    ensures step { Step (state_in M.bytes M.writable executor.old)
        (state_in M.bytes M.writable executor.new) result.0 }
    ensures only { IsOnlyStep (state_in M.bytes M.writable executor.old)
        (state_in M.bytes M.writable executor.new) result.0 }
    ensures retires { Retires order (state_in M.bytes M.writable executor.old)
        (state_in M.bytes M.writable executor.new) result.0 result.1 }
    ensures numbers { HasRegisterNumbers result.1 }
    ensures last { LastIsRegister executor.new.hart_state.now.last_register_write }
    ensures rest { KeepsTheRest M.layout executor.old executor.new }
    ensures accesses { MakesExactly M.reads M.writes
        (AccessesOf (state_in M.bytes M.writable executor.old))
        executor.old.mem.now executor.new.mem.now }
{
    let hart = &mut *executor.hart_state;
    let (end, retired) = step_retired_parts(executor.mem, &mut hart.registers, hart.pc, order);
    hart.pc = end.pc;
    hart.last_register_write = end.last_register_write;
    (end.answer, retired)
}
