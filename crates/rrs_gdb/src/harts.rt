//! Steps of the hart of a session, made where the kit's own step raises an exception.
//!
//! An instruction of a layer of its profile, a load or a store at a misaligned address, and
//! compressed code are steps of the hart, as `rrs exec` makes them. For a session each is one
//! instruction: its history keeps it as a call, and a watchpoint sees its whole access before it is
//! made.

ghost use Rattle.std.specs.Prelude.{◌≡◌, ◌%◌, ◌<◌, ◌∷◌, [], if◌then◌else◌, ℕ, Bool, Option, MatchOption};
ghost use Rattle.rrs_instruction.specs.declared.instruction_formats.RType.{RType as RFields};
ghost use Rattle.rrs_instruction.specs.Encodings.{HasRegisters, R};
ghost use Rattle.rrs_instruction.specs.Instructions.{row_of, fields_of};
ghost use Rattle.rrs_instruction.specs.Table.{table};
ghost use Rattle.rrs_lib.specs.Bytes.{little_endian};
ghost use Rattle.rrs_lib.specs.Machine.{State, state_of, reg, plus_immediate};
ghost use Rattle.rrs_lib.specs.Executor.{state_in, KeepsTheRest};
ghost use Rattle.rrs_lib.specs.Accesses.{write_in};
ghost use Rattle.rrs_hart.specs.Atomics.{accesses_of_atomic, holds, swap_accesses};
ghost use Rattle.rrs_hart.specs.Harts.{hart_with, layer_accesses, HasLayerRegisters};
ghost use Rattle.rrs_trace.specs.Outside.{request_by};
ghost use Rattle.rrs_gdb.specs.Harts.{may_differ, encoding_at, TouchesOneOf, TouchesAsked, HartTouchesNone, HartTouchesOne};

use crate::breaks::{Watch, touched};
use rrs_hart::{Encoding, HartProfile, fetch_encoding, layer_in, row_in};
use rrs_instruction::arithmetic;
use rrs_lib::instruction::Instruction;
use rrs_lib::instruction_executor::{InstructionException, InstructionExecutor, fetch_word};
use rrs_lib::instruction_formats::{IType, RType, SType};
use rrs_lib::{HartState, MemAccessSize, Memory};
use rrs_trace::DataRequest;
use rrs_words::{AtomicRow, LayerInstruction};

/// Whether the hart may make another step in the place of one of the kit that raised an exception.
pub(crate) fn may_differ(fault: &InstructionException) -> bool
    ensures { result ≡ may_differ fault.now }
{
    match fault {
        InstructionException::AlignmentFault(_)
        | InstructionException::IllegalInstruction(_, _)
        | InstructionException::FetchError(_) => true,
        InstructionException::Breakpoint(_)
        | InstructionException::LoadAccessFault(_)
        | InstructionException::StoreAccessFault(_)
        | InstructionException::EnvironmentCall(_) => false,
    }
}

/// The instruction at the pc, if there is one.
fn encoding_at<M: Memory>(
    executor: &mut InstructionExecutor<M>,
    profile: HartProfile,
) -> Option<Encoding>
    ensures found { result ≡ encoding_at profile (state_in M.bytes M.writable executor.old) }
    ensures kept { state_in M.bytes M.writable executor.new
        ≡ state_in M.bytes M.writable executor.old }
    ensures rest { KeepsTheRest M.layout executor.old executor.new }
{
    let pc = executor.hart_state.pc;
    if profile.compressed {
        return match fetch_encoding(executor.mem, pc) {
            Ok(encoding) => Some(encoding),
            Err(_) => None,
        };
    }
    match fetch_word(executor.mem, pc) {
        Ok(word) => Some(Encoding::Long(word)),
        Err(_) => None,
    }
}

/// A load from the address that a register and an immediate give.
fn load_at(hart: &HartState, fields: &IType, size: MemAccessSize) -> DataRequest
    requires { fields.now.rs1 < 32 }
    ensures { (bytes : ℕ → Option ℕ) (writable : ℕ → Bool) → result ≡ DataRequest.Load
        (plus_immediate (reg (state_of hart.now bytes writable) fields.now.rs1) fields.now.imm)
        size }
{
    let base = hart.read_register(fields.rs1);
    DataRequest::Load(arithmetic::plus_immediate(base, fields.imm), size)
}

/// A store of a register to the address that a register and an immediate give.
fn store_at(hart: &HartState, fields: &SType, size: MemAccessSize) -> DataRequest
    requires { (fields.now.rs1 < 32) × (fields.now.rs2 < 32) }
    ensures { (bytes : ℕ → Option ℕ) (writable : ℕ → Bool) → result ≡ DataRequest.Store
        (plus_immediate (reg (state_of hart.now bytes writable) fields.now.rs1) fields.now.imm)
        size (reg (state_of hart.now bytes writable) fields.now.rs2) }
{
    let base = hart.read_register(fields.rs1);
    let address = arithmetic::plus_immediate(base, fields.imm);
    DataRequest::Store(address, size, hart.read_register(fields.rs2))
}

/// What an instruction asks of the memory, whether or not the address is aligned.
fn access_anywhere(hart: &HartState, instruction: &Instruction) -> Option<DataRequest>
    requires { HasRegisters (fields_of instruction.now) }
    ensures { (bytes : ℕ → Option ℕ) (writable : ℕ → Bool) → result
        ≡ request_by (table (row_of instruction.now)).action (fields_of instruction.now)
        (state_of hart.now bytes writable) }
{
    match instruction {
        Instruction::Lb(fields) => Some(load_at(hart, fields, MemAccessSize::Byte)),
        Instruction::Lbu(fields) => Some(load_at(hart, fields, MemAccessSize::Byte)),
        Instruction::Lh(fields) => Some(load_at(hart, fields, MemAccessSize::HalfWord)),
        Instruction::Lhu(fields) => Some(load_at(hart, fields, MemAccessSize::HalfWord)),
        Instruction::Lw(fields) => Some(load_at(hart, fields, MemAccessSize::Word)),
        Instruction::Sb(fields) => Some(store_at(hart, fields, MemAccessSize::Byte)),
        Instruction::Sh(fields) => Some(store_at(hart, fields, MemAccessSize::HalfWord)),
        Instruction::Sw(fields) => Some(store_at(hart, fields, MemAccessSize::Word)),
        _ => None,
    }
}

/// The watchpoint that a load of a word touches, and then a store of it, if it is mapped.
fn both_touched<M: Memory>(
    executor: &mut InstructionExecutor<M>,
    watches: &[Watch],
    address: u32,
) -> Option<Watch>
    requires { address % 4 ≡ 0 }
    ensures kept { state_in M.bytes M.writable executor.new
        ≡ state_in M.bytes M.writable executor.old }
    ensures touched { (row : AtomicRow) (f : RFields) → TouchesOneOf watches.now
        (swap_accesses row f address (state_in M.bytes M.writable executor.old)
        (little_endian (M.bytes executor.old.mem.now) address 4)) result }
    ensures rest { KeepsTheRest M.layout executor.old executor.new }
{
    let load = DataRequest::Load(address, MemAccessSize::Word);
    if let Some(watch) = touched(watches, load) {
        return Some(watch);
    }
    match executor.mem.read_mem(address, MemAccessSize::Word) {
        Some(_) => touched(watches, DataRequest::Store(address, MemAccessSize::Word, 0)),
        None => None,
    }
}

/// The watchpoint that a store of a word touches, if its address is reserved.
fn reserved_touched(watches: &[Watch], reservation: Option<u32>, address: u32) -> Option<Watch>
    ensures { (s : State) (value : ℕ) → TouchesOneOf watches.now
        (if holds reservation address then write_in s address MemAccessSize.Word value ∷ [] else [])
        result }
{
    match reservation {
        Some(reserved) if reserved == address => {
            touched(watches, DataRequest::Store(address, MemAccessSize::Word, 0))
        }
        _ => None,
    }
}

/// The watchpoint that an instruction of extension A touches.
fn atomic_touched<M: Memory>(
    executor: &mut InstructionExecutor<M>,
    watches: &[Watch],
    reservation: Option<u32>,
    row: AtomicRow,
    fields: &RType,
) -> Option<Watch>
    requires { HasRegisters (R fields.now) }
    ensures kept { state_in M.bytes M.writable executor.new
        ≡ state_in M.bytes M.writable executor.old }
    ensures touched { TouchesOneOf watches.now (accesses_of_atomic row fields.now
        (state_in M.bytes M.writable executor.old) reservation) result }
    ensures rest { KeepsTheRest M.layout executor.old executor.new }
{
    let address = executor.hart_state.read_register(fields.rs1);
    if !MemAccessSize::Word.is_aligned(address) {
        return None;
    }
    match row {
        AtomicRow::LrW => touched(watches, DataRequest::Load(address, MemAccessSize::Word)),
        AtomicRow::ScW => reserved_touched(watches, reservation, address),
        _ => both_touched(executor, watches, address),
    }
}

/// The watchpoint that a load or a store touches, wherever its address is.
fn row_touched(watches: &[Watch], hart: &HartState, instruction: &Instruction) -> Option<Watch>
    requires { HasRegisters (fields_of instruction.now) }
    ensures { (bytes : ℕ → Option ℕ) (writable : ℕ → Bool) → TouchesAsked watches.now
        (request_by (table (row_of instruction.now)).action (fields_of instruction.now)
        (state_of hart.now bytes writable)) result }
{
    match access_anywhere(hart, instruction) {
        Some(request) => touched(watches, request),
        None => None,
    }
}

/// The watchpoint that an instruction of a layer touches.
fn layer_touched<M: Memory>(
    executor: &mut InstructionExecutor<M>,
    watches: &[Watch],
    reservation: Option<u32>,
    instruction: &LayerInstruction,
) -> Option<Watch>
    requires { HasLayerRegisters instruction.now }
    ensures kept { state_in M.bytes M.writable executor.new
        ≡ state_in M.bytes M.writable executor.old }
    ensures touched { TouchesOneOf watches.now (layer_accesses instruction.now
        (state_in M.bytes M.writable executor.old) reservation) result }
    ensures rest { KeepsTheRest M.layout executor.old executor.new }
{
    match instruction {
        LayerInstruction::System(_) | LayerInstruction::Bits(_) => None,
        LayerInstruction::Atomic(atomic) => {
            atomic_touched(executor, watches, reservation, atomic.row, &atomic.fields)
        }
    }
}

/// The first watchpoint that the instruction at the pc touches by a step of the hart, with this
/// address reserved or none. It is fetched, if there are watchpoints, and an AMO's word is read;
/// nothing changes.
pub(crate) fn watch_hart<M: Memory>(
    executor: &mut InstructionExecutor<M>,
    watches: &[Watch],
    profile: HartProfile,
    reservation: Option<u32>,
) -> Option<Watch>
    ensures kept { state_in M.bytes M.writable executor.new
        ≡ state_in M.bytes M.writable executor.old }
    ensures touched { MatchOption result (HartTouchesNone watches.now profile
        (hart_with (state_in M.bytes M.writable executor.old) reservation))
        (λ watch. HartTouchesOne watches.now profile
        (hart_with (state_in M.bytes M.writable executor.old) reservation) watch) }
    ensures rest { KeepsTheRest M.layout executor.old executor.new }
{
    if watches.is_empty() {
        return None;
    }
    let Some(encoding) = encoding_at(executor, profile) else {
        return None;
    };
    if let Some(instruction) = row_in(encoding) {
        return row_touched(watches, executor.hart_state, &instruction);
    }
    match layer_in(profile, encoding) {
        Some(instruction) => layer_touched(executor, watches, reservation, &instruction),
        None => None,
    }
}
