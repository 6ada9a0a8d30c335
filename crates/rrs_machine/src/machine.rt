//! A step of a hart that has machine mode, and by its profile user mode and layers.

ghost use Rattle.std.specs.Prelude.{◌≡◌, ℕ, ◌%◌, Bool, Ok, Err, Option, IfSome, IfNone, drop, slice_index};
ghost use Rattle.rrs_instruction.specs.Encodings.{HasRegisters, I};
ghost use Rattle.rrs_instruction.specs.declared.instruction_formats.IType.{IType as IFields};
ghost use Rattle.rrs_lib.specs.Bytes.{ByteMap};
ghost use Rattle.rrs_lib.specs.Machine.{state_of};
ghost use Rattle.rrs_lib.specs.Executor.{state_in, KeepsTheRest};
ghost use Rattle.rrs_lib.specs.Accesses.{MakesExactly};
ghost use Rattle.rrs_words.specs.declared.instructions.SystemRow.{SystemRow as TheRow};
ghost use Rattle.rrs_words.specs.SystemInstructions.{csr_number};
ghost use Rattle.rrs_hart.specs.declared.halves.Encoding.TheVariants.{Long};
ghost use Rattle.rrs_hart.specs.Harts.{hart_with, fetched_in, HartStep, AccessesOfHart};
ghost use Rattle.rrs_machine.specs.declared.csrs.Inputs.{Inputs as InputsOfStep};
ghost use Rattle.rrs_machine.specs.declared.traps.AccessKind.{AccessKind as Kind};
ghost use Rattle.rrs_machine.specs.Csrs.{mode_of, found_csr};
ghost use Rattle.rrs_machine.specs.Traps.{IsKind, exception_of};
ghost use Rattle.rrs_machine.specs.MachineSteps.{MachineState, machine_of, machine_in, ends, operand_of, file_updated, accessed, trapped, raised, raises, interrupted, csr_outcome, returned, passed, wait_answer, is_permitted, permitted_outcome, system_outcome, hart_in, layers_of, fetched_at, IsOwn, IsBefore, may_lie, InstructionStep, MachineStep, IsOnlyMachineStep, AccessesOfMachineStep, IsNoSystem};
ghost use Rattle.rrs_machine.specs.Laws.{KeepsUnlessRetired, WritesNeither, instructions_after, cycles_after};
ghost use Rattle.rrs_instruction.specs.Words.{bit};

use crate::csrs::{CsrFile, Inputs, Mode};
use crate::traps::{Exception, Interrupt, exception_of, kind_of};
use rrs_hart::{Encoding, HartProfile, bits_of, execute_in, fetch_in};
use rrs_lib::instruction::decode;
use rrs_lib::instruction_executor::{InstructionException, InstructionExecutor};
use rrs_lib::{HartState, Memory};
use rrs_words::csrs::is_read_only;
use rrs_words::{Csr, SystemInstruction, SystemRow, decode_system};

/// How a step of a hart with machine mode ended.
#[derive(Debug, PartialEq, Clone, Copy)]
pub enum MachineAnswer {
    /// An instruction retired.
    Retired,
    /// A `wfi` retired, and no interrupt is pending that `mie` enables. The hart is after it, and
    /// waits: the caller makes the next step once an interrupt is.
    Waiting,
    /// The instruction raised this exception, and the hart is at the handler.
    Raised(Exception),
    /// This interrupt was taken before the instruction, and the hart is at the handler.
    Interrupted(Interrupt),
}

/// Takes a trap: with a cause, a value for `mtval`, to a place.
pub(crate) fn trap(hart: &mut HartState, csrs: &mut CsrFile, cause: u32, value: u32, target: u32)
    ensures trapped { (bytes : ByteMap) (writable : ℕ → Bool)
        → machine_of hart.new csrs.new bytes writable
        ≡ trapped cause value target (machine_of hart.old csrs.old bytes writable) }
    ensures registers_kept { hart.new.registers ≡ hart.old.registers }
{
    csrs.enter(cause, value, hart.pc);
    csrs.count_cycle();
    hart.pc = target;
    hart.last_register_write = None;
}

/// Raises an exception.
pub(crate) fn raise(hart: &mut HartState, csrs: &mut CsrFile, exception: Exception) -> MachineAnswer
    ensures raised { (bytes : ByteMap) (writable : ℕ → Bool)
        → machine_of hart.new csrs.new bytes writable
        ≡ raised exception (machine_of hart.old csrs.old bytes writable) }
    ensures answer { result ≡ MachineAnswer.Raised exception }
    ensures registers_kept { hart.new.registers ≡ hart.old.registers }
{
    let base = csrs.base();
    trap(hart, csrs, exception.code(), exception.value(), base);
    MachineAnswer::Raised(exception)
}

/// Takes an interrupt.
pub(crate) fn interrupt(
    hart: &mut HartState,
    csrs: &mut CsrFile,
    interrupt: Interrupt,
) -> MachineAnswer
    ensures interrupted { (bytes : ByteMap) (writable : ℕ → Bool)
        → machine_of hart.new csrs.new bytes writable
        ≡ interrupted interrupt (machine_of hart.old csrs.old bytes writable) }
    ensures answer { result ≡ MachineAnswer.Interrupted interrupt }
    ensures registers_kept { hart.new.registers ≡ hart.old.registers }
{
    let code = interrupt.code();
    let target = csrs.vector(code);
    trap(hart, csrs, 0x8000_0000 + code, 0, target);
    MachineAnswer::Interrupted(interrupt)
}

/// Goes on after an instruction with no effect.
fn pass(hart: &mut HartState, csrs: &mut CsrFile)
    ensures passed { (bytes : ByteMap) (writable : ℕ → Bool)
        → machine_of hart.new csrs.new bytes writable
        ≡ passed (machine_of hart.old csrs.old bytes writable) }
    ensures registers_kept { hart.new.registers ≡ hart.old.registers }
{
    hart.last_register_write = None;
    hart.pc = hart.pc.wrapping_add(4);
    csrs.count_retired();
}

/// Goes back from a trap.
pub(crate) fn return_from_trap(hart: &mut HartState, csrs: &mut CsrFile, inputs: &Inputs)
    ensures returned { (bytes : ByteMap) (writable : ℕ → Bool)
        → machine_of hart.new csrs.new bytes writable
        ≡ returned inputs.now (machine_of hart.old csrs.old bytes writable) }
    ensures registers_kept { hart.new.registers ≡ hart.old.registers }
{
    hart.last_register_write = None;
    hart.pc = csrs.read(Csr::Mepc, inputs);
    csrs.leave();
    csrs.count_retired();
}

/// What a `wfi` answers, by the interrupt that is ready.
fn answer_of_wait(ready: Option<Interrupt>) -> MachineAnswer
    ensures { result ≡ wait_answer ready }
{
    match ready {
        Some(_) => MachineAnswer::Retired,
        None => MachineAnswer::Waiting,
    }
}

/// The operand of an instruction on a CSR.
fn operand_of(hart: &HartState, instruction: &SystemInstruction) -> u32
    requires { HasRegisters (I instruction.now.fields) }
    ensures { (bytes : ByteMap) (writable : ℕ → Bool) → result
        ≡ operand_of instruction.now.row instruction.now.fields
        (state_of hart.now bytes writable) }
{
    if instruction.row.has_immediate() {
        instruction.fields.rs1 as u32
    } else {
        hart.read_register(instruction.fields.rs1)
    }
}

/// Writes a CSR, where the instruction does, and counts the instruction.
fn update_csr(csrs: &mut CsrFile, instruction: &SystemInstruction, csr: Csr, old: u32, operand: u32)
    ensures { csrs.new ≡ file_updated instruction.now.row instruction.now.fields csr old operand
        csrs.old }
{
    if instruction.writes_csr() {
        csrs.count_beside(csr);
        csrs.write(csr, instruction.row.updated(old, operand));
    } else {
        csrs.count_retired();
    }
}

/// Executes an instruction on a CSR that it may access.
fn access_csr(
    hart: &mut HartState,
    csrs: &mut CsrFile,
    inputs: &Inputs,
    instruction: &SystemInstruction,
    csr: Csr,
)
    requires { HasRegisters (I instruction.now.fields) }
    ensures accessed { (bytes : ByteMap) (writable : ℕ → Bool)
        → machine_of hart.new csrs.new bytes writable
        ≡ accessed instruction.now.row instruction.now.fields csr inputs.now
        (machine_of hart.old csrs.old bytes writable) }
    ensures entry_zero { slice_index hart.new.registers 0 ≡ slice_index hart.old.registers 0 }
{
    let old = csrs.read(csr, inputs);
    let operand = operand_of(hart, instruction);
    update_csr(csrs, instruction, csr, old, operand);
    hart.last_register_write = None;
    hart.write_register(instruction.fields.rd, old);
    hart.pc = hart.pc.wrapping_add(4);
}

/// Executes an instruction on a CSR.
fn execute_csr(
    hart: &mut HartState,
    csrs: &mut CsrFile,
    inputs: &Inputs,
    instruction: &SystemInstruction,
    word: u32,
) -> MachineAnswer
    requires { HasRegisters (I instruction.now.fields) }
    ensures outcome { (bytes : ByteMap) (writable : ℕ → Bool)
        → ends (machine_of hart.new csrs.new bytes writable) result
        ≡ csr_outcome instruction.now.row instruction.now.fields word
        (found_csr csrs.old (csr_number instruction.now.fields)) inputs.now
        (machine_of hart.old csrs.old bytes writable) }
    ensures entry_zero { slice_index hart.new.registers 0 ≡ slice_index hart.old.registers 0 }
{
    let number = instruction.csr_number();
    match csrs.found(number) {
        Some(csr) => {
            if instruction.writes_csr() && is_read_only(number) {
                return raise(hart, csrs, Exception::IllegalInstruction(word));
            }
            access_csr(hart, csrs, inputs, instruction, csr);
            MachineAnswer::Retired
        }
        None => raise(hart, csrs, Exception::IllegalInstruction(word)),
    }
}

/// Whether a mode has an instruction: user mode has no `mret`, and no `wfi` where TW is 1.
fn is_permitted(row: SystemRow, mode: Mode, csrs: &CsrFile) -> bool
    ensures { result ≡ is_permitted row mode csrs.now }
{
    match (row, mode) {
        (SystemRow::Mret, Mode::User) => false,
        (SystemRow::Wfi, Mode::User) => csrs.mstatus / 0x20_0000 % 2 != 1,
        _ => true,
    }
}

/// Executes an instruction that the 48 rows leave out and the mode has.
fn execute_permitted(
    hart: &mut HartState,
    csrs: &mut CsrFile,
    inputs: &Inputs,
    instruction: &SystemInstruction,
    word: u32,
) -> MachineAnswer
    requires { HasRegisters (I instruction.now.fields) }
    ensures outcome { (bytes : ByteMap) (writable : ℕ → Bool)
        → ends (machine_of hart.new csrs.new bytes writable) result
        ≡ permitted_outcome instruction.now.row instruction.now.fields word inputs.now
        (machine_of hart.old csrs.old bytes writable) }
    ensures entry_zero { slice_index hart.new.registers 0 ≡ slice_index hart.old.registers 0 }
{
    match instruction.row {
        SystemRow::Mret => {
            return_from_trap(hart, csrs, inputs);
            MachineAnswer::Retired
        }
        SystemRow::Wfi => {
            let answer = answer_of_wait(csrs.ready_interrupt(inputs));
            pass(hart, csrs);
            answer
        }
        _ => execute_csr(hart, csrs, inputs, instruction, word),
    }
}

/// Executes an instruction that the 48 rows leave out.
fn execute_system(
    hart: &mut HartState,
    csrs: &mut CsrFile,
    inputs: &Inputs,
    instruction: &SystemInstruction,
    word: u32,
) -> MachineAnswer
    requires { HasRegisters (I instruction.now.fields) }
    ensures outcome { (bytes : ByteMap) (writable : ℕ → Bool)
        → ends (machine_of hart.new csrs.new bytes writable) result
        ≡ system_outcome instruction.now.row instruction.now.fields word inputs.now
        (machine_of hart.old csrs.old bytes writable) }
    ensures entry_zero { slice_index hart.new.registers 0 ≡ slice_index hart.old.registers 0 }
{
    if is_permitted(instruction.row, csrs.mode(), csrs) {
        execute_permitted(hart, csrs, inputs, instruction, word)
    } else {
        raise(hart, csrs, Exception::IllegalInstruction(word))
    }
}

/// The instruction of machine mode that an encoding is: one on a CSR, `mret` or `wfi`.
pub(crate) fn system_in(encoding: Encoding) -> Option<SystemInstruction>
    ensures own { IfSome result (λ i. IsOwn encoding i.row i.fields) }
    ensures outside { IfNone result ((row : TheRow) (f : IFields) → ¬ IsOwn encoding row f) }
{
    match encoding {
        Encoding::Short(_) => None,
        Encoding::Long(word) => own_word(word),
    }
}

/// The instruction of machine mode that a word is.
fn own_word(word: u32) -> Option<SystemInstruction>
    ensures own { IfSome result (λ i. IsOwn (Long word) i.row i.fields) }
    ensures outside { IfNone result ((row : TheRow) (f : IFields) → ¬ IsOwn (Long word) row f) }
{
    if decode(word).is_some() {
        return None;
    }
    match decode_system(word) {
        Some(instruction) => {
            if instruction.row == SystemRow::FenceI {
                None
            } else {
                Some(instruction)
            }
        }
        None => None,
    }
}

/// Whether an instruction may lie at an address.
fn may_lie(profile: HartProfile, address: u32) -> bool
    ensures { result ≡ may_lie profile address }
{
    profile.compressed || address % 4 == 0
}

/// Ends a step of the hart that was `Ok`, from these registers and this pc.
fn end_executed(
    hart: &mut HartState,
    csrs: &mut CsrFile,
    registers: &[u32; 32],
    pc: u32,
) -> MachineAnswer
    ensures step { (inputs : InputsOfStep) (bytes : ByteMap) (writable : ℕ → Bool)
        (s : MachineState) → IsBefore csrs.old s
        → s.hart.registers ≡ drop 1 registers.now → s.hart.pc ≡ pc
        → HartStep (layers_of s) (hart_in s)
        (hart_with (state_of hart.old bytes writable) csrs.old.reservation) (Ok tt)
        → InstructionStep inputs s (machine_of hart.new csrs.new bytes writable) result }
    ensures entry_zero { slice_index hart.old.registers 0 ≡ slice_index registers.now 0
        → slice_index hart.new.registers 0 ≡ slice_index registers.now 0 }
{
    let target = hart.pc;
    if may_lie(csrs.profile.hart, target) {
        csrs.count_retired();
        return MachineAnswer::Retired;
    }
    hart.registers = *registers;
    hart.pc = pc;
    raise(hart, csrs, Exception::InstructionMisaligned(target))
}

/// Ends a step of the hart that raised a fault: an instruction of machine mode is executed, and the
/// exception of another one is raised.
fn end_fault(
    hart: &mut HartState,
    csrs: &mut CsrFile,
    inputs: &Inputs,
    fetched: Result<Encoding, InstructionException>,
    fault: InstructionException,
) -> MachineAnswer
    ensures step { (bytes : ByteMap) (writable : ℕ → Bool) (s : MachineState)
        → IsBefore csrs.old s → fetched_at s ≡ fetched
        → HartStep (layers_of s) (hart_in s)
        (hart_with (state_of hart.old bytes writable) csrs.old.reservation) (Err fault)
        → InstructionStep inputs.now s (machine_of hart.new csrs.new bytes writable) result }
    ensures entry_zero { slice_index hart.new.registers 0 ≡ slice_index hart.old.registers 0 }
{
    match fetched {
        Ok(encoding) => match system_in(encoding) {
            Some(instruction) => {
                execute_system(hart, csrs, inputs, &instruction, bits_of(encoding))
            }
            None => raise_fault(hart, csrs, fetched, fault),
        },
        Err(_) => raise_fault(hart, csrs, fetched, fault),
    }
}

/// Raises the exception of a fault of the hart.
fn raise_fault(
    hart: &mut HartState,
    csrs: &mut CsrFile,
    fetched: Result<Encoding, InstructionException>,
    fault: InstructionException,
) -> MachineAnswer
    ensures raised { (bytes : ByteMap) (writable : ℕ → Bool) → (kind : Kind)
        × IsKind csrs.old.profile.hart fetched kind
        × (machine_of hart.new csrs.new bytes writable
        ≡ raised (exception_of (mode_of csrs.old) kind fault)
        (machine_of hart.old csrs.old bytes writable))
        × (result ≡ MachineAnswer.Raised (exception_of (mode_of csrs.old) kind fault)) }
    ensures registers_kept { hart.new.registers ≡ hart.old.registers }
{
    let kind = kind_of(csrs.profile.hart, fetched);
    raise(hart, csrs, exception_of(csrs.mode(), kind, fault))
}

/// Ends an instruction whose step the hart made, from these registers and this pc.
pub(crate) fn end_step(
    hart: &mut HartState,
    csrs: &mut CsrFile,
    inputs: &Inputs,
    registers: &[u32; 32],
    pc: u32,
    end: &HartEnd,
) -> MachineAnswer
    ensures step { (bytes : ByteMap) (writable : ℕ → Bool) (s : MachineState)
        → IsBefore csrs.old s → s.hart.registers ≡ drop 1 registers.now → s.hart.pc ≡ pc
        → fetched_at s ≡ end.now.fetched
        → HartStep (layers_of s) (hart_in s)
        (hart_with (state_of hart.old bytes writable) csrs.old.reservation) end.now.answer
        → InstructionStep inputs.now s (machine_of hart.new csrs.new bytes writable) result }
    ensures entry_zero { slice_index hart.old.registers 0 ≡ slice_index registers.now 0
        → slice_index hart.new.registers 0 ≡ slice_index registers.now 0 }
{
    match end.answer {
        Ok(()) => end_executed(hart, csrs, registers, pc),
        Err(fault) => end_fault(hart, csrs, inputs, end.fetched, fault),
    }
}

/// A step of the hart: what was fetched, and how it ended.
#[derive(Clone, Copy)]
pub(crate) struct HartEnd {
    /// The instruction, or the exception of the fetch.
    pub fetched: Result<Encoding, InstructionException>,
    /// The answer of the step.
    pub answer: Result<(), InstructionException>,
}

/// Makes the step of the hart.
fn step_layers<M: Memory>(
    mem: &mut M,
    hart: &mut HartState,
    reservation: &mut Option<u32>,
    profile: HartProfile,
) -> HartEnd
    ensures fetched { result.fetched ≡ fetched_in profile (M.bytes mem.old) hart.old.pc }
    ensures step { HartStep profile
        (hart_with (state_of hart.old (M.bytes mem.old) (M.writable mem.old)) reservation.old)
        (hart_with (state_of hart.new (M.bytes mem.new) (M.writable mem.new)) reservation.new)
        result.answer }
    ensures accesses { MakesExactly M.reads M.writes (AccessesOfHart profile
        (hart_with (state_of hart.old (M.bytes mem.old) (M.writable mem.old)) reservation.old))
        mem.old mem.new }
    ensures layout_kept { M.layout mem.new ≡ M.layout mem.old }
    ensures entry_zero { slice_index hart.new.registers 0 ≡ slice_index hart.old.registers 0 }
{
    match fetch_in(mem, profile, hart.pc) {
        Ok(encoding) => HartEnd {
            fetched: Ok(encoding),
            answer: execute_in(mem, hart, reservation, profile, encoding),
        },
        Err(fault) => {
            hart.last_register_write = None;
            HartEnd {
                fetched: Err(fault),
                answer: Err(fault),
            }
        }
    }
}

/// Executes the instruction at the pc.
#[inline(always)]
fn step_instruction<M: Memory>(
    mem: &mut M,
    hart: &mut HartState,
    csrs: &mut CsrFile,
    inputs: &Inputs,
) -> MachineAnswer
    ensures step { InstructionStep inputs.now
        (machine_of hart.old csrs.old (M.bytes mem.old) (M.writable mem.old))
        (machine_of hart.new csrs.new (M.bytes mem.new) (M.writable mem.new)) result }
    ensures accesses { MakesExactly M.reads M.writes (AccessesOfHart csrs.old.profile.hart
        (hart_with (state_of hart.old (M.bytes mem.old) (M.writable mem.old)) csrs.old.reservation))
        mem.old mem.new }
    ensures layout_kept { M.layout mem.new ≡ M.layout mem.old }
    ensures entry_zero { slice_index hart.new.registers 0 ≡ slice_index hart.old.registers 0 }
{
    let registers = hart.registers;
    let pc = hart.pc;
    let profile = csrs.profile.hart;
    let end = step_layers(mem, hart, &mut csrs.reservation, profile);
    end_step(hart, csrs, inputs, &registers, pc, &end)
}

/// Makes a step of a hart with machine mode: takes an interrupt, or else executes the instruction
/// at the pc.
///
/// Which interrupts are pending, and the time, are handed in for this step. An interrupt is taken
/// where it is pending, `mie` enables it, and MIE of `mstatus` is 1 or the hart is in user mode; of
/// several the external one comes first, then the software one, then that of the timer. Then no
/// instruction is executed.
///
/// Each trap goes to machine mode, and `mret` to the mode in MPP. In user mode `mret`, the CSRs of
/// machine mode, the counters that `mcounteren` hides, and `wfi` where TW is 1 are illegal
/// instructions.
///
/// An instruction of the hart does what `step_hart` of `rrs_hart` does, by the layers of the
/// profile, with the reservation among the CSRs. Where there are compressed instructions, one lies
/// at any even address. An `lr.w` that is misaligned or refused raises the exception of a load, and
/// the others of extension A raise that of a store. No trap and no `mret` takes the reservation
/// away.
///
/// An exception is no error here: the hart takes the trap, and is at its handler. A jump or a taken
/// branch to an address where no instruction may lie raises its exception at the jump, with no
/// register written. A
/// `wfi` that nothing wakes is `Waiting`: it has retired, the hart is after it, and the caller
/// decides what passes meanwhile. `mcycle` counts each step, and `minstret` those that are
/// `Retired` or `Waiting`.
///
/// The clauses: what happened is a step (`step`), and no other one leads from there (`only`); what
/// is no part of the state stays (`rest`); the memory goes from what it was to what it is by
/// exactly the accesses of the step: those of the hart's step, or none where an interrupt is taken
/// (`accesses`). Four more are laws that follow from these. Where no instruction retires, registers
/// and bytes stay (`traps`). An instruction that retires, and is none of those that machine mode
/// has, is a step of the hart (`hart`). While IR of `mcountinhibit` is 0 and the instruction does not write it, `minstret`
/// counts the instructions that retire (`minstret`). Likewise, by CY, `mcycle` counts the steps
/// (`mcycle`).
#[inline(always)]
pub fn step_machine<M: Memory>(
    executor: &mut InstructionExecutor<M>,
    csrs: &mut CsrFile,
    inputs: &Inputs,
) -> MachineAnswer
    ensures step { MachineStep inputs.now
        (machine_in M.bytes M.writable executor.old csrs.old)
        (machine_in M.bytes M.writable executor.new csrs.new) result }
    ensures only { IsOnlyMachineStep inputs.now
        (machine_in M.bytes M.writable executor.old csrs.old)
        (machine_in M.bytes M.writable executor.new csrs.new) result }
    ensures rest { KeepsTheRest M.layout executor.old executor.new }
    ensures accesses { MakesExactly M.reads M.writes (AccessesOfMachineStep inputs.now
        (machine_in M.bytes M.writable executor.old csrs.old))
        executor.old.mem.now executor.new.mem.now }
    ensures traps { KeepsUnlessRetired result (state_in M.bytes M.writable executor.old)
        (state_in M.bytes M.writable executor.new) }
    ensures hart { result ≡ MachineAnswer.Retired
        → IsNoSystem (machine_in M.bytes M.writable executor.old csrs.old)
        → HartStep csrs.old.profile.hart
        (hart_in (machine_in M.bytes M.writable executor.old csrs.old))
        (hart_in (machine_in M.bytes M.writable executor.new csrs.new)) (Ok tt) }
    ensures minstret { bit csrs.old.mcountinhibit 2 ≡ 0
        → WritesNeither Csr.Minstret Csr.Minstreth (machine_in M.bytes M.writable executor.old csrs.old)
        → csrs.new.minstret ≡ instructions_after result csrs.old.minstret }
    ensures mcycle { bit csrs.old.mcountinhibit 0 ≡ 0
        → WritesNeither Csr.Mcycle Csr.Mcycleh (machine_in M.bytes M.writable executor.old csrs.old)
        → csrs.new.mcycle ≡ cycles_after result csrs.old.mcycle }
{
    match csrs.interrupt_due(inputs) {
        Some(due) => interrupt(executor.hart_state, csrs, due),
        None => step_instruction(executor.mem, executor.hart_state, csrs, inputs),
    }
}
