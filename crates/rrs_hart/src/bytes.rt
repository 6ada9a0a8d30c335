//! Loads and stores at any address, by accesses of single bytes.

ghost use Rattle.std.specs.Prelude.{◌≡◌, ◌+◌, ◌*◌, ◌%◌, ◌^◌, ◌<◌, ◌≤◌, true, false, Some, IfSome, IfNone, IfOk, slice_index};
ghost use Rattle.rrs_instruction.specs.Encodings.{I, S, HasRegisters};
ghost use Rattle.rrs_instruction.specs.Instructions.{row_of, fields_of};
ghost use Rattle.rrs_instruction.specs.Table.{table, Load, Store};
ghost use Rattle.rrs_instruction.specs.Words.{word};
ghost use Rattle.rrs_memory.specs.Bytes.{little_endian, all_writable, store, EndsAtLastAddress};
ghost use Rattle.rrs_lib.specs.Machine.{state_of};
ghost use Rattle.rrs_lib.specs.Accesses.{Makes};
ghost use Rattle.rrs_hart.specs.Anywhere.{anywhere_by, accesses_anywhere, byte_read, byte_reads, byte_trial, byte_trials, byte_writes, extended_by, answer_of, answer_if, LeavesIf, told_anywhere};

use rrs_instruction::arithmetic;
use rrs_lib::instruction::Instruction;
use rrs_lib::instruction_executor::InstructionException;
use rrs_lib::instruction_formats::{IType, SType};
use rrs_lib::{HartState, MemAccessSize, Memory};

/// A load or a store that was made byte by byte.
#[derive(Debug, PartialEq, Clone, Copy)]
pub struct ByteAccess {
    /// Its address, that of the first byte.
    pub address: u32,
    /// How many bytes: 1, 2 or 4.
    pub size: u32,
    /// The value that was read, which is not extended, or the low bytes that were written.
    pub value: u32,
    /// Whether it is a store.
    pub is_store: bool,
}

/// A number of so many bytes, and a byte above them.
fn with_byte(low: u32, count: u32, byte: u32) -> u32
    requires count { count < 4 }
    requires low { low < 256 ^ count }
    requires byte { byte < 256 }
    ensures sum { result ≡ low + byte * 256 ^ count }
    ensures below { result < 256 ^ (count + 1) }
{
    match count {
        0 => byte,
        1 => low + byte * 0x100,
        2 => low + byte * 0x1_0000,
        _ => low + byte * 0x100_0000,
    }
}

/// Reads the byte that lies so far behind an address. No address is 2^32.
fn read_byte<M: Memory>(mem: &mut M, address: u32, offset: u32) -> Option<u32>
    requires { EndsAtLastAddress (M.bytes mem.old) (M.writable mem.old) }
    ensures value { result ≡ little_endian (M.bytes mem.old) (address + offset) 1 }
    ensures below { IfSome result (λ byte. byte < 256) }
    ensures within { IfSome result (λ byte. address + offset < 2 ^ 32) }
    ensures unmapped { IfNone result (M.writable mem.old (address + offset) ≡ false) }
    ensures bytes_kept { M.bytes mem.new ≡ M.bytes mem.old }
    ensures writable_kept { M.writable mem.new ≡ M.writable mem.old }
    ensures layout_kept { M.layout mem.new ≡ M.layout mem.old }
    ensures makes { Makes M.reads M.writes (byte_read (M.bytes mem.old) (address + offset))
        mem.old mem.new }
{
    match address.checked_add(offset) {
        Some(place) => mem.read_mem(place, MemAccessSize::Byte),
        None => None,
    }
}

/// Reads so many bytes, in order, up to one that is not mapped: their little-endian value.
fn read_bytes<M: Memory>(mem: &mut M, address: u32, size: u32) -> Option<u32>
    requires size { size ≤ 4 }
    requires ends { EndsAtLastAddress (M.bytes mem.old) (M.writable mem.old) }
    ensures value { result ≡ little_endian (M.bytes mem.old) address size }
    ensures below { IfSome result (λ value. value < 256 ^ size) }
    ensures bytes_kept { M.bytes mem.new ≡ M.bytes mem.old }
    ensures writable_kept { M.writable mem.new ≡ M.writable mem.old }
    ensures layout_kept { M.layout mem.new ≡ M.layout mem.old }
    ensures makes { Makes M.reads M.writes (byte_reads (M.bytes mem.old) address size)
        mem.old mem.new }
{
    let mut value = 0;
    for i in 0..size {
        match read_byte(mem, address, i) {
            Some(byte) => value = with_byte(value, i, byte),
            None => return None,
        }
    }
    Some(value)
}

/// Whether the byte that lies so far behind an address is writable: it is read, and written as it
/// is.
fn try_byte<M: Memory>(mem: &mut M, address: u32, offset: u32) -> bool
    requires { EndsAtLastAddress (M.bytes mem.old) (M.writable mem.old) }
    ensures answer { result ≡ M.writable mem.old (address + offset) }
    ensures bytes_kept { M.bytes mem.new ≡ M.bytes mem.old }
    ensures writable_kept { M.writable mem.new ≡ M.writable mem.old }
    ensures layout_kept { M.layout mem.new ≡ M.layout mem.old }
    ensures makes { Makes M.reads M.writes
        (byte_trial (M.bytes mem.old) (M.writable mem.old) (address + offset)) mem.old mem.new }
{
    match read_byte(mem, address, offset) {
        Some(byte) => mem.write_mem(address + offset, MemAccessSize::Byte, byte),
        None => false,
    }
}

/// Whether so many bytes are writable: they are tried, in order, up to one that is not.
fn try_bytes<M: Memory>(mem: &mut M, address: u32, size: u32) -> bool
    requires { EndsAtLastAddress (M.bytes mem.old) (M.writable mem.old) }
    ensures answer { result ≡ all_writable (M.writable mem.old) address size }
    ensures bytes_kept { M.bytes mem.new ≡ M.bytes mem.old }
    ensures writable_kept { M.writable mem.new ≡ M.writable mem.old }
    ensures layout_kept { M.layout mem.new ≡ M.layout mem.old }
    ensures makes { Makes M.reads M.writes
        (byte_trials (M.bytes mem.old) (M.writable mem.old) address size) mem.old mem.new }
{
    for i in 0..size {
        if !try_byte(mem, address, i) {
            return false;
        }
    }
    true
}

/// Writes the low bytes of a value, so many, in order. All are writable.
fn write_bytes<M: Memory>(mem: &mut M, address: u32, size: u32, value: u32)
    requires size { size ≤ 4 }
    requires writable { all_writable (M.writable mem.old) address size ≡ true }
    requires ends { EndsAtLastAddress (M.bytes mem.old) (M.writable mem.old) }
    ensures stored { M.bytes mem.new ≡ store (M.bytes mem.old) address size value }
    ensures writable_kept { M.writable mem.new ≡ M.writable mem.old }
    ensures layout_kept { M.layout mem.new ≡ M.layout mem.old }
    ensures makes { Makes M.reads M.writes (byte_writes address value size) mem.old mem.new }
{
    for i in 0..size {
        let _granted = mem.write_mem(address + i, MemAccessSize::Byte, value >> (8 * i));
    }
}

/// The word that a value of 1, 2 or 4 bytes is extended to: by its sign, or by zeros.
fn extended(value: u32, size: u32, is_signed: bool) -> u32
    requires value { value < 256 ^ size }
    requires signed { is_signed ≡ true → (1 ≤ size) × (size ≤ 2) }
    ensures { result ≡ word (extended_by is_signed size value) }
{
    match size {
        1 if is_signed => arithmetic::sign_extended_byte(value),
        2 if is_signed => arithmetic::sign_extended_half_word(value),
        _ => value,
    }
}

/// The low bytes of a value, so many.
fn low_bytes(value: u32, size: u32) -> u32
    requires { size ≤ 4 }
    ensures { result ≡ value % 256 ^ size }
{
    match size {
        0 => 0,
        1 => value % 0x100,
        2 => value % 0x1_0000,
        3 => value % 0x100_0000,
        _ => value,
    }
}

/// A load of so many bytes, at any address.
///
/// # Errors
///
/// `LoadAccessFault` with the address, where a byte is not mapped. No register is written then.
fn load<M: Memory>(
    mem: &mut M,
    hart: &mut HartState,
    fields: &IType,
    size: u32,
    is_signed: bool,
) -> Result<ByteAccess, InstructionException>
    requires size { size ≤ 4 }
    requires signed { is_signed ≡ true → (1 ≤ size) × (size ≤ 2) }
    requires registers { HasRegisters (I fields.now) }
    requires ends { EndsAtLastAddress (M.bytes mem.old) (M.writable mem.old) }
    ensures outcome { LeavesIf (anywhere_by (Load size (extended_by is_signed size))
        (I fields.now) (state_of hart.old (M.bytes mem.old) (M.writable mem.old)))
        (state_of hart.old (M.bytes mem.old) (M.writable mem.old))
        (state_of hart.new (M.bytes mem.new) (M.writable mem.new)) (Some (answer_of result)) }
    ensures size { IfOk result (λ x. x.size ≤ 4) }
    ensures told { IfOk result (λ x. told_anywhere (Load size (extended_by is_signed size))
        (I fields.now) (state_of hart.old (M.bytes mem.old) (M.writable mem.old)) ≡ Some x) }
    ensures makes { Makes M.reads M.writes (accesses_anywhere
        (Load size (extended_by is_signed size)) (I fields.now)
        (state_of hart.old (M.bytes mem.old) (M.writable mem.old))) mem.old mem.new }
    ensures layout_kept { M.layout mem.new ≡ M.layout mem.old }
    ensures entry_zero { slice_index hart.new.registers 0 ≡ slice_index hart.old.registers 0 }
{
    let address = arithmetic::plus_immediate(hart.read_register(fields.rs1), fields.imm);
    match read_bytes(mem, address, size) {
        Some(value) => {
            hart.write_register(fields.rd, extended(value, size, is_signed));
            Ok(ByteAccess {
                address,
                size,
                value,
                is_store: false,
            })
        }
        None => Err(InstructionException::LoadAccessFault(address)),
    }
}

/// A store of so many bytes, at any address.
///
/// # Errors
///
/// `StoreAccessFault` with the address, where a byte is not writable. No byte is changed then.
fn store<M: Memory>(
    mem: &mut M,
    hart: &HartState,
    fields: &SType,
    size: u32,
) -> Result<ByteAccess, InstructionException>
    requires size { size ≤ 4 }
    requires registers { HasRegisters (S fields.now) }
    requires ends { EndsAtLastAddress (M.bytes mem.old) (M.writable mem.old) }
    ensures outcome { LeavesIf (anywhere_by (Store size) (S fields.now)
        (state_of hart.now (M.bytes mem.old) (M.writable mem.old)))
        (state_of hart.now (M.bytes mem.old) (M.writable mem.old))
        (state_of hart.now (M.bytes mem.new) (M.writable mem.new)) (Some (answer_of result)) }
    ensures size { IfOk result (λ x. x.size ≤ 4) }
    ensures told { IfOk result (λ x. told_anywhere (Store size) (S fields.now)
        (state_of hart.now (M.bytes mem.old) (M.writable mem.old)) ≡ Some x) }
    ensures makes { Makes M.reads M.writes (accesses_anywhere (Store size) (S fields.now)
        (state_of hart.now (M.bytes mem.old) (M.writable mem.old))) mem.old mem.new }
    ensures layout_kept { M.layout mem.new ≡ M.layout mem.old }
{
    let address = arithmetic::plus_immediate(hart.read_register(fields.rs1), fields.imm);
    if !try_bytes(mem, address, size) {
        return Err(InstructionException::StoreAccessFault(address));
    }
    let value = hart.read_register(fields.rs2);
    write_bytes(mem, address, size, value);
    Ok(ByteAccess {
        address,
        size,
        value: low_bytes(value, size),
        is_store: true,
    })
}

/// Executes a load or a store, at any address, by accesses of single bytes, in order; `None` where
/// the instruction is neither, and then nothing changes. The pc stays: the caller moves it on after
/// `Ok`.
///
/// A store tries each of its bytes first, and changes none where one is not writable. What is
/// told of the access is that of all its bytes (`told`).
///
/// # Errors
///
/// `LoadAccessFault` and `StoreAccessFault` with the address, where a byte is refused. The registers
/// and the memory are as before.
pub fn access_by_bytes<M: Memory>(
    mem: &mut M,
    hart: &mut HartState,
    instruction: &Instruction,
) -> Option<Result<ByteAccess, InstructionException>>
    requires registers { HasRegisters (fields_of instruction.now) }
    requires ends { EndsAtLastAddress (M.bytes mem.old) (M.writable mem.old) }
    ensures outcome { LeavesIf (anywhere_by (table (row_of instruction.now)).action
        (fields_of instruction.now) (state_of hart.old (M.bytes mem.old) (M.writable mem.old)))
        (state_of hart.old (M.bytes mem.old) (M.writable mem.old))
        (state_of hart.new (M.bytes mem.new) (M.writable mem.new)) (answer_if result) }
    ensures size { IfSome result (λ answer. IfOk answer (λ x. x.size ≤ 4)) }
    ensures told { IfSome result (λ answer. IfOk answer (λ x.
        told_anywhere (table (row_of instruction.now)).action (fields_of instruction.now)
        (state_of hart.old (M.bytes mem.old) (M.writable mem.old)) ≡ Some x)) }
    ensures makes { Makes M.reads M.writes (accesses_anywhere
        (table (row_of instruction.now)).action (fields_of instruction.now)
        (state_of hart.old (M.bytes mem.old) (M.writable mem.old))) mem.old mem.new }
    ensures layout_kept { M.layout mem.new ≡ M.layout mem.old }
    ensures entry_zero { slice_index hart.new.registers 0 ≡ slice_index hart.old.registers 0 }
{
    match instruction {
        Instruction::Lb(fields) => Some(load(mem, hart, fields, 1, true)),
        Instruction::Lbu(fields) => Some(load(mem, hart, fields, 1, false)),
        Instruction::Lh(fields) => Some(load(mem, hart, fields, 2, true)),
        Instruction::Lhu(fields) => Some(load(mem, hart, fields, 2, false)),
        Instruction::Lw(fields) => Some(load(mem, hart, fields, 4, false)),
        Instruction::Sb(fields) => Some(store(mem, hart, fields, 1)),
        Instruction::Sh(fields) => Some(store(mem, hart, fields, 2)),
        Instruction::Sw(fields) => Some(store(mem, hart, fields, 4)),
        _ => None,
    }
}
