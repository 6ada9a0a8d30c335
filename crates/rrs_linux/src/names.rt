//! What `uname` tells of the system.

ghost use Rattle.std.specs.Prelude.{◌≡◌};
ghost use Rattle.rrs_fast.specs.Serving.{MakesSome};
ghost use Rattle.rrs_linux.specs.Names.{system_names};
ghost use Rattle.rrs_linux.specs.Statuses.{PutsBytes};

use crate::buffers::put_bytes;
use rrs_lib::Memory;

/// The bytes of a field of `struct utsname`.
const FIELD: usize = 65;

/// Puts the names of the system into memory, and gives the answer of the call.
pub fn put_names<M: Memory>(memory: &mut M, address: u32) -> u32
    ensures put { MakesSome M.reads M.writes
        (λ accesses. PutsBytes (M.writable memory.old) (M.bytes memory.old) (M.bytes memory.new)
        address system_names accesses result)
        memory.old memory.new }
    ensures writable_kept { M.writable memory.new ≡ M.writable memory.old }
    ensures layout_kept { M.layout memory.new ≡ M.layout memory.old }
{
    put_bytes(&names(), memory, address)
}

/// The names of the system, as `struct utsname` has them: each at the beginning of a field, with
/// zeros behind it.
fn names() -> [u8; 6 * FIELD]
    ensures { result ≡ system_names }
{
    let mut names = [0; 6 * FIELD];
    names[..5].copy_from_slice(b"Linux");
    names[FIELD..FIELD + 3].copy_from_slice(b"rrs");
    names[2 * FIELD..2 * FIELD + 5].copy_from_slice(b"6.1.0");
    names[3 * FIELD..3 * FIELD + 2].copy_from_slice(b"#1");
    names[4 * FIELD..4 * FIELD + 7].copy_from_slice(b"riscv32");
    names[5 * FIELD..5 * FIELD + 6].copy_from_slice(b"(none)");
    names
}
