//! The bytes of RAM. The registers of the devices are no part of it: a read of one is an access,
//! which its device would answer to.

ghost use Rattle.std.specs.Prelude.{◌≡◌, ◌<◌, ◌≤◌, ◌+◌, ◌^◌, ℕ, false, None, length, IfOk};
ghost use Rattle.std.specs.Bool.{OnTrue, OnFalse};
ghost use Rattle.rrs_memory.specs.Loading.{Loaded};
ghost use Rattle.rrs_gdb.specs.Shown.{HasBytes};
ghost use Rattle.rrs_board_gdb.specs.Shown.{byte_at, is_writable_at, SameBoard, SameButRam};

use rrs_board::Board;
use rrs_board::memory::RAM_START;
use rrs_gdb::{read_memory, write_memory};
use std::alloc::{AllocError, Global};

/// The bytes of RAM from an address on, as many as are wanted, up to the last; below RAM there is
/// none. Nothing changes.
///
/// # Errors
///
/// Out of memory.
pub fn show_ram(
    alloc: Global,
    board: &mut Board,
    address: u32,
    count: u32,
) -> Result<Vec<u8>, AllocError>
    ensures read { IfOk result (λ values. HasBytes (byte_at board.old) address values.items) }
    ensures within { IfOk result (λ values. length values.items ≤ count) }
    ensures ended { IfOk result (λ values. length values.items < count
        → address + length values.items < 2 ^ 32
        → byte_at board.old (address + length values.items) ≡ None) }
    ensures kept { SameBoard board.old board.new }
{
    if address < RAM_START {
        return Ok(Vec::new(alloc));
    }
    let left = u32::MAX - address + 1;
    let ram = &mut board.memory.ram;
    let bytes = read_memory(alloc, ram, address, count.min(left))?;
    Ok(bytes)
}

/// Writes bytes of RAM from an address on, and returns whether all of them are there.
///
/// Then exactly these bytes are changed, to these values (`written`). Where one of them is not in
/// RAM, or the last address is passed (`refused`), none is (`kept`). Nothing but RAM changes
/// (`rest`).
pub fn change_ram(board: &mut Board, address: u32, values: &[u8]) -> bool
    ensures written { OnTrue result (Loaded (byte_at board.old) (byte_at board.new)
        (is_writable_at board.old) address values.now) }
    ensures refused { OnFalse result (1 ≤ length values.now → address + length values.now ≤ 2 ^ 32
        → (i : ℕ) × (i < length values.now) × (is_writable_at board.old (address + i) ≡ false)) }
    ensures kept { OnFalse result (SameBoard board.old board.new) }
    ensures rest { SameButRam board.old board.new }
{
    if address < RAM_START || values.len() > 0x1_0000_0000 - address as usize {
        return false;
    }
    write_memory(&mut board.memory.ram, address, values)
}
