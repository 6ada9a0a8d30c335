//! What a step of a hart with a profile retires, in the shape of RVFI.

ghost use Rattle.std.specs.Prelude.{◌≡◌, ◌<◌, ◌≤◌, ◌++◌, ℕ, false, List, Ok, IfOk, IfSome, slice_index};
ghost use Rattle.rrs_instruction.specs.Encodings.{Fields};
ghost use Rattle.rrs_instruction.specs.Table.{Row};
ghost use Rattle.rrs_lib.specs.Bytes.{EndsAtLastAddress};
ghost use Rattle.rrs_lib.specs.Machine.{state_of};
ghost use Rattle.rrs_lib.specs.Executor.{state_in, KeepsTheRest};
ghost use Rattle.rrs_lib.specs.Accesses.{Access, Makes, MakesExactly};
ghost use Rattle.rrs_words.specs.declared.layers.LayerInstruction.{LayerInstruction as Layer};
ghost use Rattle.rrs_words.specs.declared.csrs.HartProfile.{HartProfile as Profile};
ghost use Rattle.rrs_hart.specs.declared.halves.Encoding.{Encoding};
ghost use Rattle.rrs_hart.specs.Anywhere.{answer_of};
ghost use Rattle.rrs_hart.specs.Harts.{Hart, hart_with, fetched_in, fetch_reads_in, HartStep, IsOnlyHartStep, AccessesOfHart};
ghost use Rattle.rrs_hart.specs.Halves.{StandsFor, IsNoRow, IsLayers, IsIllegalIn};
ghost use Rattle.rrs_trace.specs.Retired.{no_access, first_source, second_source, HasRegisterNumbers};
ghost use Rattle.rrs_trace.specs.Traced.{traced_state};
ghost use Rattle.rrs_trace.specs.HartRecords.{byte_mask, whole_of, first_of_layer, second_of_layer, Tells, Sees, HasAccess, HartRetires, unfetched};

use crate::registers::{last_register, register_value, source_registers};
use crate::retired::Retired;
use crate::traced::{MemoryAccess, TracedMemory};
use rrs_hart::{
    ByteAccess, Encoding, HartProfile, bits_of, execute_encoding_told, execute_word_told, fetch_in,
    layer_in, row_in,
};
use rrs_lib::instruction_executor::{InstructionException, InstructionExecutor};
use rrs_lib::{HartState, Memory};
use rrs_words::{BitOperand, LayerInstruction};

/// A bit for each of so many bytes, the lowest ones.
fn byte_mask(size: u32) -> u8
    requires { size ≤ 4 }
    ensures { result ≡ byte_mask size }
{
    match size {
        0 => 0,
        1 => 0b1,
        2 => 0b11,
        3 => 0b111,
        _ => 0b1111,
    }
}

/// A load or a store that was made byte by byte, as one access of all its bytes.
fn whole(access: &ByteAccess) -> MemoryAccess
    requires { access.now.size ≤ 4 }
    ensures { result ≡ whole_of access.now }
{
    let mask = byte_mask(access.size);
    if access.is_store {
        MemoryAccess {
            addr: access.address,
            rmask: 0,
            wmask: mask,
            rdata: 0,
            wdata: access.value,
        }
    } else {
        MemoryAccess {
            addr: access.address,
            rmask: mask,
            wmask: 0,
            rdata: access.value,
            wdata: 0,
        }
    }
}

/// The source registers of an instruction of a layer, or 0.
fn sources_of_layer(instruction: &LayerInstruction) -> (usize, usize)
    ensures first { result.0 ≡ first_of_layer instruction.now }
    ensures second { result.1 ≡ second_of_layer instruction.now }
{
    match instruction {
        LayerInstruction::System(_) => (0, 0),
        LayerInstruction::Atomic(atomic) => (atomic.fields.rs1, atomic.fields.rs2),
        LayerInstruction::Bits(bits) => match bits.row.operand() {
            BitOperand::Register | BitOperand::NotX0 => (bits.fields.rs1, bits.fields.rs2),
            _ => (bits.fields.rs1, 0),
        },
    }
}

/// The source registers of an encoding, by the row that it is or stands for or the instruction of a
/// layer that it is, or 0.
pub fn sources_in(profile: HartProfile, encoding: Encoding) -> (usize, usize)
    ensures of_row { (row : Row) (f : Fields) → StandsFor encoding row f
        → (result.0 ≡ first_source f) × (result.1 ≡ second_source f) }
    ensures of_layer { (i : Layer) → IsNoRow encoding → IsLayers profile encoding i
        → (result.0 ≡ first_of_layer i) × (result.1 ≡ second_of_layer i) }
    ensures of_illegal { IsIllegalIn profile encoding → (result.0 ≡ 0) × (result.1 ≡ 0) }
    ensures low { (result.0 < 32) × (result.1 < 32) }
{
    if let Some(instruction) = row_in(encoding) {
        return source_registers(&instruction);
    }
    match layer_in(profile, encoding) {
        Some(instruction) => sources_of_layer(&instruction),
        None => (0, 0),
    }
}

/// The answer of a step, and its load or its store: what is told of one by bytes, else what was
/// seen.
fn access_of(
    told: Result<Option<ByteAccess>, InstructionException>,
    seen: MemoryAccess,
) -> (Result<(), InstructionException>, MemoryAccess)
    requires { IfOk told (λ x. IfSome x (λ y. y.size ≤ 4)) }
    ensures answer { result.0 ≡ answer_of told }
    ensures access { (p : Profile) (s : Hart) (x : Encoding)
        → fetched_in p s.state.bytes s.state.pc ≡ Ok x → IfOk told (Tells p s.state)
        → Sees p s seen → HasAccess p s result.0 result.1 }
{
    match told {
        Ok(bytes) => match bytes {
            Some(access) => (Ok(()), whole(&access)),
            None => (Ok(()), seen),
        },
        Err(fault) => (Err(fault), MemoryAccess::none()),
    }
}

/// Executes what was fetched, and tells its access by bytes.
fn execute_told<M: Memory>(
    mem: &mut M,
    hart: &mut HartState,
    reservation: &mut Option<u32>,
    profile: HartProfile,
    encoding: Encoding,
) -> Result<Option<ByteAccess>, InstructionException>
    requires ends { EndsAtLastAddress (M.bytes mem.old) (M.writable mem.old) }
    requires fetched { fetched_in profile (M.bytes mem.old) hart.old.pc ≡ Ok encoding }
    ensures step { HartStep profile
        (hart_with (state_of hart.old (M.bytes mem.old) (M.writable mem.old)) reservation.old)
        (hart_with (state_of hart.new (M.bytes mem.new) (M.writable mem.new)) reservation.new)
        (answer_of result) }
    ensures told { IfOk result
        (Tells profile (state_of hart.old (M.bytes mem.old) (M.writable mem.old))) }
    ensures makes { (accesses : List Access) × AccessesOfHart profile
        (hart_with (state_of hart.old (M.bytes mem.old) (M.writable mem.old)) reservation.old)
        (fetch_reads_in profile (M.bytes mem.old) hart.old.pc ++ accesses)
        × Makes M.reads M.writes accesses mem.old mem.new }
    ensures layout_kept { M.layout mem.new ≡ M.layout mem.old }
    ensures entry_zero { slice_index hart.new.registers 0 ≡ slice_index hart.old.registers 0 }
{
    if profile.compressed {
        execute_encoding_told(mem, hart, reservation, profile, encoding)
    } else {
        execute_word_told(mem, hart, reservation, profile, bits_of(encoding))
    }
}

/// Executes what was fetched over a memory that is traced, and that nothing has accessed yet but
/// for the fetch: tells what an access by bytes did, and what was seen else.
fn execute_traced<'b, M: Memory>(
    traced: &mut TracedMemory<'b, M>,
    hart: &mut HartState,
    reservation: &mut Option<u32>,
    profile: HartProfile,
    encoding: Encoding,
) -> Result<Option<ByteAccess>, InstructionException>
    requires past_fetch { traced.old.is_fetch ≡ false }
    requires no_access { traced.old.access ≡ no_access }
    requires ends { EndsAtLastAddress (M.bytes traced.old.memory.now)
        (M.writable traced.old.memory.now) }
    requires fetched { fetched_in profile (M.bytes traced.old.memory.now) hart.old.pc
        ≡ Ok encoding }
    ensures step { HartStep profile
        (hart_with (traced_state M.bytes M.writable hart.old traced.old) reservation.old)
        (hart_with (traced_state M.bytes M.writable hart.new traced.new) reservation.new)
        (answer_of result) }
    ensures told { IfOk result
        (Tells profile (traced_state M.bytes M.writable hart.old traced.old)) }
    ensures seen { Sees profile
        (hart_with (traced_state M.bytes M.writable hart.old traced.old) reservation.old)
        traced.new.access }
    ensures makes { (accesses : List Access) × AccessesOfHart profile
        (hart_with (traced_state M.bytes M.writable hart.old traced.old) reservation.old)
        (fetch_reads_in profile (M.bytes traced.old.memory.now) hart.old.pc ++ accesses)
        × Makes M.reads M.writes accesses traced.old.memory.now traced.new.memory.now }
    ensures same_memory { traced.new.memory.ghost_name ≡ traced.old.memory.ghost_name }
    ensures layout_kept { M.layout traced.new.memory.now ≡ M.layout traced.old.memory.now }
    ensures entry_zero { slice_index hart.new.registers 0 ≡ slice_index hart.old.registers 0 }
{
    execute_told(traced, hart, reservation, profile, encoding)
}

/// Ends a step whose instruction was fetched, as [execute_in](rrs_hart::execute_in) does, and tells
/// its load or its store: that of all its bytes where it is made byte by byte.
///
/// # Errors
///
/// The first of the two is the answer of `execute_in`, with its exceptions.
pub fn execute_in_seen<M: Memory>(
    mem: &mut M,
    hart: &mut HartState,
    reservation: &mut Option<u32>,
    profile: HartProfile,
    encoding: Encoding,
) -> (Result<(), InstructionException>, MemoryAccess)
    requires ends { EndsAtLastAddress (M.bytes mem.old) (M.writable mem.old) }
    requires fetched { fetched_in profile (M.bytes mem.old) hart.old.pc ≡ Ok encoding }
    ensures step { HartStep profile
        (hart_with (state_of hart.old (M.bytes mem.old) (M.writable mem.old)) reservation.old)
        (hart_with (state_of hart.new (M.bytes mem.new) (M.writable mem.new)) reservation.new)
        result.0 }
    ensures access { HasAccess profile
        (hart_with (state_of hart.old (M.bytes mem.old) (M.writable mem.old)) reservation.old)
        result.0 result.1 }
    ensures makes { (accesses : List Access) × AccessesOfHart profile
        (hart_with (state_of hart.old (M.bytes mem.old) (M.writable mem.old)) reservation.old)
        (fetch_reads_in profile (M.bytes mem.old) hart.old.pc ++ accesses)
        × Makes M.reads M.writes accesses mem.old mem.new }
    ensures layout_kept { M.layout mem.new ≡ M.layout mem.old }
    ensures entry_zero { slice_index hart.new.registers 0 ≡ slice_index hart.old.registers 0 }
{
    let mut traced = TracedMemory {
        memory: mem,
        is_fetch: false,
        insn: None,
        access: MemoryAccess::none(),
    };
    let told = execute_traced(&mut traced, hart, reservation, profile, encoding);
    access_of(told, traced.access)
}

/// What a step retires that fetches no instruction.
fn unfetched(order: u64, pc: u32) -> Retired
    ensures { result ≡ unfetched order pc }
{
    Retired {
        order,
        insn: None,
        trap: true,
        pc_rdata: pc,
        pc_wdata: pc,
        rs1_addr: 0,
        rs1_rdata: 0,
        rs2_addr: 0,
        rs2_rdata: 0,
        rd_addr: 0,
        rd_wdata: 0,
        mem: MemoryAccess::none(),
    }
}

/// Makes a step in two parts, and looks at the instruction between the two.
fn retire_parts<M: Memory>(
    mem: &mut M,
    hart: &mut HartState,
    reservation: &mut Option<u32>,
    profile: HartProfile,
    order: u64,
) -> (Result<(), InstructionException>, Retired)
    ensures step { HartStep profile
        (hart_with (state_of hart.old (M.bytes mem.old) (M.writable mem.old)) reservation.old)
        (hart_with (state_of hart.new (M.bytes mem.new) (M.writable mem.new)) reservation.new)
        result.0 }
    ensures retires { HartRetires profile order
        (hart_with (state_of hart.old (M.bytes mem.old) (M.writable mem.old)) reservation.old)
        (hart_with (state_of hart.new (M.bytes mem.new) (M.writable mem.new)) reservation.new)
        result.0 result.1 }
    ensures numbers { HasRegisterNumbers result.1 }
    ensures accesses { MakesExactly M.reads M.writes (AccessesOfHart profile
        (hart_with (state_of hart.old (M.bytes mem.old) (M.writable mem.old)) reservation.old))
        mem.old mem.new }
    ensures layout_kept { M.layout mem.new ≡ M.layout mem.old }
    ensures entry_zero { slice_index hart.new.registers 0 ≡ slice_index hart.old.registers 0 }
{
    let pc_rdata = hart.pc;
    let encoding = match fetch_in(mem, profile, pc_rdata) {
        Ok(encoding) => encoding,
        Err(fault) => {
            hart.last_register_write = None;
            return (Err(fault), unfetched(order, pc_rdata));
        }
    };
    let (rs1_addr, rs2_addr) = sources_in(profile, encoding);
    let rs1_rdata = register_value(&hart.registers, rs1_addr);
    let rs2_rdata = register_value(&hart.registers, rs2_addr);
    let (answer, access) = execute_in_seen(mem, hart, reservation, profile, encoding);
    let rd_addr = last_register(hart.last_register_write);
    let retired = Retired {
        order,
        insn: Some(bits_of(encoding)),
        trap: answer.is_err(),
        pc_rdata,
        pc_wdata: hart.pc,
        rs1_addr,
        rs1_rdata,
        rs2_addr,
        rs2_rdata,
        rd_addr,
        rd_wdata: register_value(&hart.registers, rd_addr),
        mem: access,
    };
    (answer, retired)
}

/// Makes a step of the hart of a profile, and tells what it retired, with this number.
///
/// The step is that of [step_hart](rrs_hart::step_hart), with its answer and its accesses and no
/// others. The load or the store that is told of one by bytes is that of all of them.
///
/// # Errors
///
/// The first of the two is the answer of `step_hart`, with its exceptions; what each leaves is as
/// there. The second is told after an exception too, with `trap`.
pub fn step_hart_retired<M: Memory>(
    executor: &mut InstructionExecutor<M>,
    reservation: &mut Option<u32>,
    profile: HartProfile,
    order: u64,
) -> (Result<(), InstructionException>, Retired)
    ensures step { HartStep profile
        (hart_with (state_in M.bytes M.writable executor.old) reservation.old)
        (hart_with (state_in M.bytes M.writable executor.new) reservation.new) result.0 }
    ensures only { IsOnlyHartStep profile
        (hart_with (state_in M.bytes M.writable executor.old) reservation.old)
        (hart_with (state_in M.bytes M.writable executor.new) reservation.new) result.0 }
    ensures retires { HartRetires profile order
        (hart_with (state_in M.bytes M.writable executor.old) reservation.old)
        (hart_with (state_in M.bytes M.writable executor.new) reservation.new)
        result.0 result.1 }
    ensures numbers { HasRegisterNumbers result.1 }
    ensures rest { KeepsTheRest M.layout executor.old executor.new }
    ensures accesses { MakesExactly M.reads M.writes (AccessesOfHart profile
        (hart_with (state_in M.bytes M.writable executor.old) reservation.old))
        executor.old.mem.now executor.new.mem.now }
{
    let mem = &mut *executor.mem;
    let hart = &mut *executor.hart_state;
    retire_parts(mem, hart, reservation, profile, order)
}
