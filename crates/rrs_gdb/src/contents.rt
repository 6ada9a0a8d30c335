//! The bytes of memory, read and changed.

ghost use Rattle.std.specs.Prelude.{◌≡◌, ◌<◌, ◌≤◌, ◌+◌, ◌^◌, ℕ, true, false, Some, None, length, IfOk, IfSome, IfNone};
ghost use Rattle.std.specs.Bool.{OnTrue, OnFalse};
ghost use Rattle.rrs_lib.specs.Loading.{Loaded};
ghost use Rattle.rrs_gdb.specs.Shown.{HasBytes};

use rrs_lib::{MemAccessSize, Memory};
use std::alloc::{AllocError, Global};

/// The byte that stands so far after an address, if it is mapped. No byte changes.
fn byte_behind<M: Memory>(memory: &mut M, address: u32, index: u32) -> Option<u8>
    ensures read { IfSome result (λ byte. M.bytes memory.old (address + index) ≡ Some byte) }
    ensures none { IfNone result (address + index < 2 ^ 32
        → M.bytes memory.old (address + index) ≡ None) }
    ensures bytes_kept { M.bytes memory.new ≡ M.bytes memory.old }
    ensures writable_kept { M.writable memory.new ≡ M.writable memory.old }
    ensures layout_kept { M.layout memory.new ≡ M.layout memory.old }
{
    let Some(at) = address.checked_add(index) else {
        return None;
    };
    match memory.read_mem(at, MemAccessSize::Byte) {
        Some(byte) => Some(byte as u8),
        None => None,
    }
}

/// The bytes from an address on, as many as are wanted, up to the first that is not mapped, or to
/// the last address. No byte changes.
///
/// # Errors
///
/// Out of memory.
pub fn read_memory<M: Memory>(
    alloc: Global,
    memory: &mut M,
    address: u32,
    count: u32,
) -> Result<Vec<u8>, AllocError>
    ensures read { IfOk result (λ values.
        HasBytes (M.bytes memory.old) address values.items) }
    ensures within { IfOk result (λ values. length values.items ≤ count) }
    ensures ended { IfOk result (λ values. length values.items < count
        → address + length values.items < 2 ^ 32
        → M.bytes memory.old (address + length values.items) ≡ None) }
    ensures bytes_kept { M.bytes memory.new ≡ M.bytes memory.old }
    ensures writable_kept { M.writable memory.new ≡ M.writable memory.old }
    ensures layout_kept { M.layout memory.new ≡ M.layout memory.old }
{
    let mut values = Vec::new(alloc);
    for index in 0..count {
        let Some(byte) = byte_behind(memory, address, index) else {
            return Ok(values);
        };
        values.push(byte)?;
    }
    Ok(values)
}

/// Whether a byte is writable. It is read, and written as it is.
fn is_byte_writable<M: Memory>(memory: &mut M, address: u32) -> bool
    ensures yes { OnTrue result (M.writable memory.old address ≡ true) }
    ensures no { OnFalse result (M.writable memory.old address ≡ false) }
    ensures bytes_kept { M.bytes memory.new ≡ M.bytes memory.old }
    ensures writable_kept { M.writable memory.new ≡ M.writable memory.old }
    ensures layout_kept { M.layout memory.new ≡ M.layout memory.old }
{
    match memory.read_mem(address, MemAccessSize::Byte) {
        Some(byte) => memory.write_mem(address, MemAccessSize::Byte, byte),
        None => false,
    }
}

/// Whether bytes from an address on are writable. Each is read, and written as it is.
fn is_writable<M: Memory>(memory: &mut M, address: u32, count: usize) -> bool
    requires { address + count ≤ 2 ^ 32 }
    ensures yes { OnTrue result
        ((i : ℕ) → i < count → M.writable memory.old (address + i) ≡ true) }
    ensures no { OnFalse result
        ((i : ℕ) × (i < count) × (M.writable memory.old (address + i) ≡ false)) }
    ensures bytes_kept { M.bytes memory.new ≡ M.bytes memory.old }
    ensures writable_kept { M.writable memory.new ≡ M.writable memory.old }
    ensures layout_kept { M.layout memory.new ≡ M.layout memory.old }
{
    for index in 0..count {
        if !is_byte_writable(memory, address + index as u32) {
            return false;
        }
    }
    true
}

/// Writes bytes from an address on, which are writable.
fn write_all<M: Memory>(memory: &mut M, address: u32, values: &[u8])
    requires within { address + length values.now ≤ 2 ^ 32 }
    requires writable { (i : ℕ) → i < length values.now
        → M.writable memory.old (address + i) ≡ true }
    ensures written { Loaded (M.bytes memory.old) (M.bytes memory.new) (M.writable memory.old)
        address values.now }
    ensures writable_kept { M.writable memory.new ≡ M.writable memory.old }
    ensures layout_kept { M.layout memory.new ≡ M.layout memory.old }
{
    for index in 0..values.len() {
        let value = values[index];
        let _granted = memory.write_mem(
            address + index as u32,
            MemAccessSize::Byte,
            u32::from(value),
        );
    }
}

/// Writes bytes from an address on, and returns whether all of them are writable.
///
/// Then exactly these bytes are changed, to these values (`written`). Where one is not writable, or
/// the last address is passed, no byte changes (`kept`). Each byte is read, and written as it is,
/// before the first changes.
pub fn write_memory<M: Memory>(memory: &mut M, address: u32, values: &[u8]) -> bool
    ensures written { OnTrue result (Loaded (M.bytes memory.old) (M.bytes memory.new)
        (M.writable memory.old) address values.now) }
    ensures kept { OnFalse result (M.bytes memory.new ≡ M.bytes memory.old) }
    ensures refused { OnFalse result (address + length values.now ≤ 2 ^ 32
        → (i : ℕ) × (i < length values.now) × (M.writable memory.old (address + i) ≡ false)) }
    ensures writable_kept { M.writable memory.new ≡ M.writable memory.old }
    ensures layout_kept { M.layout memory.new ≡ M.layout memory.old }
{
    if values.len() > 0x1_0000_0000 - address as usize {
        return false;
    }
    if !is_writable(memory, address, values.len()) {
        return false;
    }
    write_all(memory, address, values);
    true
}
