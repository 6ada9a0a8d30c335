//! What a step of a hart with machine mode retires, in the shape of RVFI.

ghost use Rattle.std.specs.Prelude.{slice_index, drop, ◌≡◌, ◌<◌, ◌&&◌, ◌++◌, ℕ, List, true, false, Some, None, Option};
ghost use Rattle.rrs_instruction.specs.declared.instruction_formats.IType.{IType as IFields};
ghost use Rattle.rrs_instruction.specs.Table.{Row};
ghost use Rattle.rrs_instruction.specs.Encodings.{HasRegisters, I, Fields};
ghost use Rattle.rrs_words.specs.declared.csrs.Csr.{Csr as TheCsr};
ghost use Rattle.rrs_words.specs.declared.instructions.SystemRow.{SystemRow as TheRow};
ghost use Rattle.rrs_words.specs.declared.layers.LayerInstruction.{LayerInstruction as Layer};
ghost use Rattle.rrs_words.specs.CsrNumbers.{csr_at};
ghost use Rattle.rrs_words.specs.SystemInstructions.{csr_number};
ghost use Rattle.rrs_lib.specs.Machine.{State, state_of};
ghost use Rattle.rrs_lib.specs.Executor.{KeepsTheRest};
ghost use Rattle.rrs_lib.specs.Accesses.{MakesExactly};
ghost use Rattle.rrs_hart.specs.declared.halves.Encoding.{Encoding as TheEncoding};
ghost use Rattle.rrs_hart.specs.Halves.{StandsFor, IsNoRow, IsLayers, IsIllegalIn};
ghost use Rattle.rrs_lib.specs.Steps.{StepAnswer};
ghost use Rattle.rrs_hart.specs.Harts.{Hart, hart_with, fetched_in, HartStep, AccessesOfHart};
ghost use Rattle.rrs_trace.specs.Retired.{first_source, second_source, HasRegisterNumbers};
ghost use Rattle.rrs_trace.specs.HartRecords.{first_of_layer, second_of_layer, HasAccess};
ghost use Rattle.rrs_machine.specs.Csrs.{csr_value};
ghost use Rattle.rrs_machine.specs.MachineSteps.{machine, machine_of, machine_in, IsOwn, InstructionStep, MachineStep, IsOnlyMachineStep, AccessesOfMachineStep, operand_of};
ghost use Rattle.rrs_machine.specs.MachineRecords.{fetched_encoding, encoding_of_step, bits_if, system_source, HasSourcesOf, reads_csr, is_on_csr, no_csr, csr_access, HasCsrAccess, HasAccessOf, is_instruction, is_raised, cause_of, MachineRetires};

use crate::csrs::{CsrFile, Inputs};
use crate::machine::{HartEnd, MachineAnswer, end_step, interrupt, system_in};
use rrs_hart::{Encoding, HartProfile, bits_of, fetch_in};
use rrs_instruction::arithmetic;
use rrs_lib::instruction_executor::InstructionExecutor;
use rrs_lib::{HartState, Memory};
use rrs_trace::{
    MemoryAccess, Retired, execute_in_seen, last_register, register_value, sources_in,
};
use rrs_words::{Csr, Profile, SystemInstruction, SystemRow};

/// What was read and written of a CSR, under the names of RVFI (`rvfi_csr_*`), or none: then all
/// fields are 0.
#[derive(Clone, Copy, Debug, PartialEq)]
pub struct CsrAccess {
    /// The number of the CSR.
    pub addr: u32,
    /// The bits that were read: all, or none.
    pub rmask: u32,
    /// The bits that were written: those that a write changes, or none.
    pub wmask: u32,
    /// The value that was read.
    pub rdata: u32,
    /// The value of the bits that were written.
    pub wdata: u32,
}

/// What a step of a hart with machine mode retired, under the names of RVFI.
#[derive(Clone, Copy, Debug, PartialEq)]
pub struct MachineRetired {
    /// What a step of the kit tells too. After an exception `trap` is set, and `pc_wdata` is the
    /// handler.
    pub retired: Retired,
    /// Whether it is an instruction. Where an interrupt was taken it is none.
    pub valid: bool,
    /// Whether it is the first instruction of a handler.
    pub intr: bool,
    /// The privilege mode before the step: 3 is machine mode, and 0 is user mode.
    pub mode: u8,
    /// What `mcause` has after an exception or an interrupt, else `None`.
    pub cause: Option<u32>,
    /// The CSR that was read and written, if one was.
    pub csr: CsrAccess,
}

/// No CSR.
fn no_csr() -> CsrAccess
    ensures { result ≡ no_csr }
{
    CsrAccess {
        addr: 0,
        rmask: 0,
        wmask: 0,
        rdata: 0,
        wdata: 0,
    }
}

/// The source register of an instruction of machine mode, or 0.
fn system_source(instruction: &SystemInstruction) -> usize
    requires { HasRegisters (I instruction.now.fields) }
    ensures source { result ≡ system_source instruction.now.row instruction.now.fields }
    ensures low { result < 32 }
{
    match instruction.row {
        SystemRow::Csrrw | SystemRow::Csrrs | SystemRow::Csrrc => instruction.fields.rs1,
        _ => 0,
    }
}

/// The source registers of what was fetched, 0 where nothing was.
fn sources_of(profile: HartProfile, encoding: Option<Encoding>) -> (usize, usize)
    ensures of_row { (x : TheEncoding) (row : Row) (f : Fields) → encoding ≡ Some x
        → StandsFor x row f → (result.0 ≡ first_source f) × (result.1 ≡ second_source f) }
    ensures of_layer { (x : TheEncoding) (i : Layer) → encoding ≡ Some x → IsNoRow x
        → IsLayers profile x i → (result.0 ≡ first_of_layer i) × (result.1 ≡ second_of_layer i) }
    ensures of_system { (x : TheEncoding) (row : TheRow) (f : IFields) → encoding ≡ Some x
        → IsOwn x row f → (result.0 ≡ system_source row f) × (result.1 ≡ 0) }
    ensures of_illegal { (x : TheEncoding) → encoding ≡ Some x → IsIllegalIn profile x
        → ((row : TheRow) (f : IFields) → ¬ IsOwn x row f) → (result.0 ≡ 0) × (result.1 ≡ 0) }
    ensures of_none { encoding ≡ None → (result.0 ≡ 0) × (result.1 ≡ 0) }
    ensures low { (result.0 < 32) × (result.1 < 32) }
{
    let Some(encoding) = encoding else {
        return (0, 0);
    };
    match system_in(encoding) {
        Some(instruction) => (system_source(&instruction), 0),
        None => sources_in(profile, encoding),
    }
}

/// The operand of an instruction on a CSR, by the registers before.
fn operand_of(instruction: &SystemInstruction, registers: &[u32; 32]) -> u32
    requires { HasRegisters (I instruction.now.fields) }
    ensures { (s : State) → s.registers ≡ drop 1 registers.now → result
        ≡ operand_of instruction.now.row instruction.now.fields s }
{
    if instruction.row.has_immediate() {
        instruction.fields.rs1 as u32
    } else {
        register_value(registers, instruction.fields.rs1)
    }
}

/// Whether an instruction on a CSR reads it.
fn reads_csr(instruction: &SystemInstruction) -> bool
    ensures { result ≡ reads_csr instruction.now.row instruction.now.fields }
{
    match instruction.row {
        SystemRow::Csrrw | SystemRow::Csrrwi => instruction.fields.rd != 0,
        _ => true,
    }
}

/// What an instruction on a CSR reads and writes of it.
fn access_of(
    profile: Profile,
    instruction: &SystemInstruction,
    csr: Csr,
    old: u32,
    operand: u32,
) -> CsrAccess
    ensures { result
        ≡ csr_access profile instruction.now.row instruction.now.fields csr old operand }
{
    let is_read = reads_csr(instruction);
    let is_written = instruction.writes_csr();
    let bits = csr.written_bits(profile);
    let new = csr.legal(old, instruction.row.updated(old, operand));
    CsrAccess {
        addr: instruction.csr_number(),
        rmask: if is_read { u32::MAX } else { 0 },
        wmask: if is_written { bits } else { 0 },
        rdata: if is_read { old } else { 0 },
        wdata: if is_written {
            arithmetic::and(new, bits)
        } else {
            0
        },
    }
}

/// Whether an instruction is one on a CSR.
fn is_on_csr(row: SystemRow) -> bool
    ensures { result ≡ is_on_csr row }
{
    !matches!(row, SystemRow::Mret | SystemRow::Wfi)
}

/// What an instruction accesses of a CSR, by the CSRs and the registers before.
fn csr_of_instruction(
    instruction: &SystemInstruction,
    csrs: &CsrFile,
    inputs: &Inputs,
    registers: &[u32; 32],
) -> CsrAccess
    requires { HasRegisters (I instruction.now.fields) }
    ensures of_csr { (s : State) (csr : TheCsr) → s.registers ≡ drop 1 registers.now
        → is_on_csr instruction.now.row ≡ true
        → csr_at csrs.now.profile (csr_number instruction.now.fields) ≡ Some csr
        → result ≡ csr_access csrs.now.profile instruction.now.row instruction.now.fields csr
        (csr_value csr csrs.now inputs.now)
        (operand_of instruction.now.row instruction.now.fields s) }
    ensures of_other { is_on_csr instruction.now.row ≡ false → result ≡ no_csr }
{
    if !is_on_csr(instruction.row) {
        return no_csr();
    }
    let Some(csr) = Csr::at(csrs.profile, instruction.csr_number()) else {
        return no_csr();
    };
    let old = csrs.read(csr, inputs);
    let operand = operand_of(instruction, registers);
    access_of(csrs.profile, instruction, csr, old, operand)
}

/// What an encoding accesses of a CSR.
fn csr_of_encoding(
    encoding: Encoding,
    csrs: &CsrFile,
    inputs: &Inputs,
    registers: &[u32; 32],
) -> CsrAccess
    ensures of_csr { (s : State) (row : TheRow) (f : IFields) (csr : TheCsr)
        → s.registers ≡ drop 1 registers.now → IsOwn encoding row f → is_on_csr row ≡ true
        → csr_at csrs.now.profile (csr_number f) ≡ Some csr
        → result ≡ csr_access csrs.now.profile row f csr (csr_value csr csrs.now inputs.now)
        (operand_of row f s) }
    ensures of_other { ((row : TheRow) (f : IFields) → IsOwn encoding row f
        → is_on_csr row ≡ false) → result ≡ no_csr }
{
    match system_in(encoding) {
        Some(instruction) => csr_of_instruction(&instruction, csrs, inputs, registers),
        None => no_csr(),
    }
}

/// What a step accesses of a CSR.
fn csr_of_step(
    encoding: Option<Encoding>,
    answer: MachineAnswer,
    csrs: &CsrFile,
    inputs: &Inputs,
    registers: &[u32; 32],
) -> CsrAccess
    ensures { (s : State) → s.registers ≡ drop 1 registers.now
        → HasCsrAccess encoding answer inputs.now (machine s csrs.now) result }
{
    if answer != MachineAnswer::Retired {
        return no_csr();
    }
    match encoding {
        Some(encoding) => csr_of_encoding(encoding, csrs, inputs, registers),
        None => no_csr(),
    }
}

/// Whether a step executed an instruction.
fn is_instruction(answer: MachineAnswer) -> bool
    ensures { result ≡ is_instruction answer }
{
    !matches!(answer, MachineAnswer::Interrupted(_))
}

/// Whether a step raised an exception.
fn is_raised(answer: MachineAnswer) -> bool
    ensures { result ≡ is_raised answer }
{
    matches!(answer, MachineAnswer::Raised(_))
}

/// What `mcause` has after a trap.
fn cause_of(answer: MachineAnswer) -> Option<u32>
    ensures { result ≡ cause_of answer }
{
    match answer {
        MachineAnswer::Raised(exception) => Some(exception.code()),
        MachineAnswer::Interrupted(interrupt) => Some(0x8000_0000 + interrupt.code()),
        MachineAnswer::Retired | MachineAnswer::Waiting => None,
    }
}

/// The bits of what was fetched.
fn bits_if(encoding: Option<Encoding>) -> Option<u32>
    ensures { result ≡ bits_if encoding }
{
    match encoding {
        Some(encoding) => Some(bits_of(encoding)),
        None => None,
    }
}

/// Makes the step of the hart, and tells its load or its store.
fn see_layers<M: Memory>(
    mem: &mut M,
    hart: &mut HartState,
    reservation: &mut Option<u32>,
    profile: HartProfile,
) -> (HartEnd, MemoryAccess)
    ensures fetched { result.0.fetched ≡ fetched_in profile (M.bytes mem.old) hart.old.pc }
    ensures step { HartStep profile
        (hart_with (state_of hart.old (M.bytes mem.old) (M.writable mem.old)) reservation.old)
        (hart_with (state_of hart.new (M.bytes mem.new) (M.writable mem.new)) reservation.new)
        result.0.answer }
    ensures access { HasAccess profile
        (hart_with (state_of hart.old (M.bytes mem.old) (M.writable mem.old)) reservation.old)
        result.0.answer result.1 }
    ensures accesses { MakesExactly M.reads M.writes (AccessesOfHart profile
        (hart_with (state_of hart.old (M.bytes mem.old) (M.writable mem.old)) reservation.old))
        mem.old mem.new }
    ensures layout_kept { M.layout mem.new ≡ M.layout mem.old }
    ensures entry_zero { slice_index hart.new.registers 0 ≡ slice_index hart.old.registers 0 }
{
    match fetch_in(mem, profile, hart.pc) {
        Ok(encoding) => {
            let (answer, access) = execute_in_seen(mem, hart, reservation, profile, encoding);
            let fetched = Ok(encoding);
            (HartEnd { fetched, answer }, access)
        }
        Err(fault) => {
            hart.last_register_write = None;
            let (fetched, answer) = (Err(fault), Err(fault));
            (HartEnd { fetched, answer }, MemoryAccess::none())
        }
    }
}

/// What was seen of a step.
#[derive(Clone, Copy)]
struct SeenStep {
    /// How it ended.
    answer: MachineAnswer,
    /// What was fetched, if anything was.
    encoding: Option<Encoding>,
    /// The load or the store.
    access: MemoryAccess,
}

/// Executes the instruction at the pc.
fn see_instruction<M: Memory>(
    mem: &mut M,
    hart: &mut HartState,
    csrs: &mut CsrFile,
    inputs: &Inputs,
) -> SeenStep
    ensures step { InstructionStep inputs.now
        (machine_of hart.old csrs.old (M.bytes mem.old) (M.writable mem.old))
        (machine_of hart.new csrs.new (M.bytes mem.new) (M.writable mem.new)) result.answer }
    ensures encoding { result.encoding
        ≡ fetched_encoding (fetched_in csrs.old.profile.hart (M.bytes mem.old) hart.old.pc) }
    ensures access { (u : Hart) (answer : StepAnswer) → HartStep csrs.old.profile.hart (hart_with
        (state_of hart.old (M.bytes mem.old) (M.writable mem.old)) csrs.old.reservation) u answer
        → HasAccess csrs.old.profile.hart (hart_with (state_of hart.old (M.bytes mem.old)
        (M.writable mem.old)) csrs.old.reservation) answer result.access }
    ensures accesses { MakesExactly M.reads M.writes (AccessesOfHart csrs.old.profile.hart
        (hart_with (state_of hart.old (M.bytes mem.old) (M.writable mem.old)) csrs.old.reservation))
        mem.old mem.new }
    ensures layout_kept { M.layout mem.new ≡ M.layout mem.old }
    ensures entry_zero { slice_index hart.new.registers 0 ≡ slice_index hart.old.registers 0 }
{
    let registers = hart.registers;
    let pc = hart.pc;
    let profile = csrs.profile.hart;
    let (end, access) = see_layers(mem, hart, &mut csrs.reservation, profile);
    let answer = end_step(hart, csrs, inputs, &registers, pc, &end);
    SeenStep {
        answer,
        encoding: end.fetched.ok(),
        access,
    }
}

/// Makes a step, and tells what was seen of it.
fn see_step<M: Memory>(
    mem: &mut M,
    hart: &mut HartState,
    csrs: &mut CsrFile,
    inputs: &Inputs,
) -> SeenStep
    ensures step { MachineStep inputs.now
        (machine_of hart.old csrs.old (M.bytes mem.old) (M.writable mem.old))
        (machine_of hart.new csrs.new (M.bytes mem.new) (M.writable mem.new)) result.answer }
    ensures encoding { result.encoding ≡ encoding_of_step inputs.now
        (machine_of hart.old csrs.old (M.bytes mem.old) (M.writable mem.old)) }
    ensures access { HasAccessOf inputs.now
        (machine_of hart.old csrs.old (M.bytes mem.old) (M.writable mem.old)) result.access }
    ensures accesses { MakesExactly M.reads M.writes (AccessesOfMachineStep inputs.now
        (machine_of hart.old csrs.old (M.bytes mem.old) (M.writable mem.old))) mem.old mem.new }
    ensures layout_kept { M.layout mem.new ≡ M.layout mem.old }
    ensures entry_zero { slice_index hart.new.registers 0 ≡ slice_index hart.old.registers 0 }
{
    match csrs.interrupt_due(inputs) {
        Some(due) => SeenStep {
            answer: interrupt(hart, csrs, due),
            encoding: None,
            access: MemoryAccess::none(),
        },
        None => see_instruction(mem, hart, csrs, inputs),
    }
}

/// Makes a step of a hart with machine mode, and tells what it retired, with this number.
///
/// The step is that of `step_machine`, with its answer and its accesses and no others. The load or
/// the store that is told of one by bytes is that of all of them. `is_first`
/// says that the step before took a trap, an exception or an interrupt: then an instruction is the
/// first one of a handler, and has `intr`. Where an interrupt is taken there is no instruction:
/// `valid` is not set, and the record has no word, register, access or CSR.
///
/// `trap` is set at an exception, and `cause` is what `mcause` has after it. `pc_wdata` is the
/// handler then. `csr` is the CSR that an instruction read and wrote; what a trap or `mret` does to
/// the CSRs is not in it.
pub fn step_machine_retired<M: Memory>(
    executor: &mut InstructionExecutor<M>,
    csrs: &mut CsrFile,
    inputs: &Inputs,
    order: u64,
    is_first: bool,
) -> (MachineAnswer, MachineRetired)
    ensures step { MachineStep inputs.now
        (machine_in M.bytes M.writable executor.old csrs.old)
        (machine_in M.bytes M.writable executor.new csrs.new) result.0 }
    ensures only { IsOnlyMachineStep inputs.now
        (machine_in M.bytes M.writable executor.old csrs.old)
        (machine_in M.bytes M.writable executor.new csrs.new) result.0 }
    ensures retires { MachineRetires order is_first inputs.now
        (machine_in M.bytes M.writable executor.old csrs.old)
        (machine_in M.bytes M.writable executor.new csrs.new) result.0 result.1 }
    ensures numbers { HasRegisterNumbers result.1.retired }
    ensures rest { KeepsTheRest M.layout executor.old executor.new }
    ensures accesses { MakesExactly M.reads M.writes (AccessesOfMachineStep inputs.now
        (machine_in M.bytes M.writable executor.old csrs.old))
        executor.old.mem.now executor.new.mem.now }
{
    let registers = executor.hart_state.registers;
    let pc = executor.hart_state.pc;
    let before = *csrs;
    let seen = see_step(executor.mem, executor.hart_state, csrs, inputs);
    let (rs1_addr, rs2_addr) = sources_of(before.profile.hart, seen.encoding);
    let rd_addr = last_register(executor.hart_state.last_register_write);
    let retired = Retired {
        order,
        insn: bits_if(seen.encoding),
        trap: is_raised(seen.answer),
        pc_rdata: pc,
        pc_wdata: executor.hart_state.pc,
        rs1_addr,
        rs1_rdata: register_value(&registers, rs1_addr),
        rs2_addr,
        rs2_rdata: register_value(&registers, rs2_addr),
        rd_addr,
        rd_wdata: register_value(&executor.hart_state.registers, rd_addr),
        mem: seen.access,
    };
    let csr = csr_of_step(seen.encoding, seen.answer, &before, inputs, &registers);
    let mode = before.mode().number() as u8;
    let record = MachineRetired {
        retired,
        valid: is_instruction(seen.answer),
        intr: is_first && is_instruction(seen.answer),
        mode,
        cause: cause_of(seen.answer),
        csr,
    };
    (seen.answer, record)
}
