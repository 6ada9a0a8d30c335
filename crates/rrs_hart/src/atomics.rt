//! What the instructions of extension A do, on one hart, over any memory.
//!
//! [execute_atomic] executes one that `decode_atomic` of `rrs_words` decoded. `specs/Atomics.antt`
//! says what they do.

ghost use Rattle.std.specs.Prelude.{◌≡◌, ℕ, ◌%◌, ◌<◌, [], ◌∷◌, Option, slice_index, if◌then◌else◌};
ghost use Rattle.rrs_instruction.specs.Encodings.{R, HasRegisters};
ghost use Rattle.rrs_lib.specs.Machine.{state_of, reg};
ghost use Rattle.rrs_lib.specs.Accesses.{Makes, read_in, write_in};
ghost use Rattle.rrs_memory.specs.Bytes.{little_endian};
ghost use Rattle.rrs_hart.specs.Atomics.{combined, holds, kept_reservation, leaves, reserved, conditional, swapped, swap_accesses, atomic_outcome, accesses_of_atomic};

use rrs_instruction::arithmetic;
use rrs_lib::instruction_executor::InstructionException;
use rrs_lib::instruction_formats::RType;
use rrs_lib::{HartState, MemAccessSize, Memory};
use rrs_words::AtomicRow;

/// What an AMO stores, from the word that was there and the operand.
fn combined(row: AtomicRow, old: u32, operand: u32) -> u32
    ensures { result ≡ combined row old operand }
{
    match row {
        AtomicRow::AmoSwap => operand,
        AtomicRow::AmoAdd => arithmetic::add(old, operand),
        AtomicRow::AmoXor => arithmetic::xor(old, operand),
        AtomicRow::AmoAnd => arithmetic::and(old, operand),
        AtomicRow::AmoOr => arithmetic::or(old, operand),
        AtomicRow::AmoMin => {
            if arithmetic::less_than_signed(operand, old) {
                operand
            } else {
                old
            }
        }
        AtomicRow::AmoMax => {
            if arithmetic::less_than_signed(old, operand) {
                operand
            } else {
                old
            }
        }
        AtomicRow::AmoMinu => { if operand < old { operand } else { old } }
        AtomicRow::AmoMaxu => { if old < operand { operand } else { old } }
        AtomicRow::LrW | AtomicRow::ScW => old,
    }
}

/// Whether an address is reserved.
fn holds(reservation: Option<u32>, address: u32) -> bool
    ensures { result ≡ holds reservation address }
{
    match reservation {
        Some(reserved) => reserved == address,
        None => false,
    }
}

/// `lr.w` at an aligned address.
fn load_reserved<M: Memory>(
    mem: &mut M,
    hart: &mut HartState,
    reservation: &mut Option<u32>,
    rd: usize,
    address: u32,
) -> Result<(), InstructionException>
    requires aligned { address % 4 ≡ 0 }
    requires register { rd < 32 }
    ensures outcome { leaves (state_of hart.new (M.bytes mem.new) (M.writable mem.new))
        reservation.new result
        ≡ reserved rd address (state_of hart.old (M.bytes mem.old) (M.writable mem.old))
        reservation.old (little_endian (M.bytes mem.old) address 4) }
    ensures makes { Makes M.reads M.writes (read_in
        (state_of hart.old (M.bytes mem.old) (M.writable mem.old)) address MemAccessSize.Word ∷ [])
        mem.old mem.new }
    ensures layout_kept { M.layout mem.new ≡ M.layout mem.old }
    ensures entry_zero { slice_index hart.new.registers 0 ≡ slice_index hart.old.registers 0 }
{
    match mem.read_mem(address, MemAccessSize::Word) {
        Some(value) => {
            *reservation = Some(address);
            hart.write_register(rd, value);
            Ok(())
        }
        None => Err(InstructionException::LoadAccessFault(address)),
    }
}

/// `sc.w` at an aligned address.
fn store_conditional<M: Memory>(
    mem: &mut M,
    hart: &mut HartState,
    reservation: &mut Option<u32>,
    fields: &RType,
    address: u32,
) -> Result<(), InstructionException>
    requires aligned { address % 4 ≡ 0 }
    requires registers { HasRegisters (R fields.now) }
    ensures outcome { leaves (state_of hart.new (M.bytes mem.new) (M.writable mem.new))
        reservation.new result
        ≡ conditional fields.now address
        (state_of hart.old (M.bytes mem.old) (M.writable mem.old)) reservation.old }
    ensures makes { Makes M.reads M.writes (if holds reservation.old address
        then write_in (state_of hart.old (M.bytes mem.old) (M.writable mem.old)) address
        MemAccessSize.Word (reg (state_of hart.old (M.bytes mem.old) (M.writable mem.old))
        fields.now.rs2) ∷ []
        else []) mem.old mem.new }
    ensures layout_kept { M.layout mem.new ≡ M.layout mem.old }
    ensures entry_zero { slice_index hart.new.registers 0 ≡ slice_index hart.old.registers 0 }
{
    let is_held = holds(*reservation, address);
    *reservation = None;
    if is_held {
        let value = hart.read_register(fields.rs2);
        if mem.write_mem(address, MemAccessSize::Word, value) {
            hart.write_register(fields.rd, 0);
            Ok(())
        } else {
            Err(InstructionException::StoreAccessFault(address))
        }
    } else {
        hart.write_register(fields.rd, 1);
        Ok(())
    }
}

/// An AMO at an aligned address.
fn swap<M: Memory>(
    mem: &mut M,
    hart: &mut HartState,
    row: AtomicRow,
    fields: &RType,
    address: u32,
) -> Result<(), InstructionException>
    requires aligned { address % 4 ≡ 0 }
    requires registers { HasRegisters (R fields.now) }
    ensures outcome { (r : Option ℕ)
        → leaves (state_of hart.new (M.bytes mem.new) (M.writable mem.new)) r result
        ≡ swapped row fields.now address
        (state_of hart.old (M.bytes mem.old) (M.writable mem.old)) r
        (little_endian (M.bytes mem.old) address 4) }
    ensures makes { Makes M.reads M.writes (swap_accesses row fields.now address
        (state_of hart.old (M.bytes mem.old) (M.writable mem.old))
        (little_endian (M.bytes mem.old) address 4)) mem.old mem.new }
    ensures layout_kept { M.layout mem.new ≡ M.layout mem.old }
    ensures entry_zero { slice_index hart.new.registers 0 ≡ slice_index hart.old.registers 0 }
{
    match mem.read_mem(address, MemAccessSize::Word) {
        Some(old) => {
            let value = combined(row, old, hart.read_register(fields.rs2));
            if mem.write_mem(address, MemAccessSize::Word, value) {
                hart.write_register(fields.rd, old);
                Ok(())
            } else {
                Err(InstructionException::StoreAccessFault(address))
            }
        }
        None => Err(InstructionException::StoreAccessFault(address)),
    }
}

/// The reservation after an instruction that is refused before its access: `sc.w` takes it away.
fn kept_reservation(row: AtomicRow, reservation: Option<u32>) -> Option<u32>
    ensures { result ≡ kept_reservation row reservation }
{
    match row {
        AtomicRow::ScW => None,
        _ => reservation,
    }
}

/// Executes an instruction of extension A. The pc stays: the caller moves it on after `Ok`.
///
/// The reservation is the address of the last `lr.w`, and `None` after each `sc.w`. `outcome` says
/// what is left of the hart, the memory and the reservation, and `makes` which accesses are made: an
/// AMO reads once and then writes once, and a `sc.w` with no reservation of its address makes none.
///
/// # Errors
///
/// `AlignmentFault` where the address is no multiple of 4, before any access. `LoadAccessFault`
/// where memory refuses the read of `lr.w`; the reservation stays. `StoreAccessFault` where memory
/// refuses the write of `sc.w`, or the read or the write of an AMO. Each has the address. The
/// registers and the memory are as before.
pub fn execute_atomic<M: Memory>(
    mem: &mut M,
    hart: &mut HartState,
    reservation: &mut Option<u32>,
    row: AtomicRow,
    fields: &RType,
) -> Result<(), InstructionException>
    requires { HasRegisters (R fields.now) }
    ensures outcome { leaves (state_of hart.new (M.bytes mem.new) (M.writable mem.new))
        reservation.new result
        ≡ atomic_outcome row fields.now
        (state_of hart.old (M.bytes mem.old) (M.writable mem.old)) reservation.old }
    ensures makes { Makes M.reads M.writes (accesses_of_atomic row fields.now
        (state_of hart.old (M.bytes mem.old) (M.writable mem.old)) reservation.old)
        mem.old mem.new }
    ensures layout_kept { M.layout mem.new ≡ M.layout mem.old }
    ensures entry_zero { slice_index hart.new.registers 0 ≡ slice_index hart.old.registers 0 }
{
    let address = hart.read_register(fields.rs1);
    if address % 4 != 0 {
        *reservation = kept_reservation(row, *reservation);
        return Err(InstructionException::AlignmentFault(address));
    }
    match row {
        AtomicRow::LrW => load_reserved(mem, hart, reservation, fields.rd, address),
        AtomicRow::ScW => store_conditional(mem, hart, reservation, fields, address),
        _ => swap(mem, hart, row, fields, address),
    }
}
