//! The status of a stream, and what a path names.

ghost use Rattle.std.specs.Prelude.{◌≡◌, ◌≤◌, ◌<◌, length};
ghost use Rattle.rrs_fast.specs.Serving.{MakesSome};
ghost use Rattle.rrs_linux.specs.Statuses.{PutsBytes, PutsNamed, failed, stream_status, extended_status};
ghost use Rattle.rrs_linux.specs.Transfers.{most_bytes};

use crate::buffers::{BAD_ADDRESS, put_bytes};
use rrs_lib::{MemAccessSize, Memory};

/// The status of a stream, as `struct stat64` has it: a pipe that its owner may read and write, one
/// link, blocks of 4,096 bytes.
const STATUS: [u8; 104] = [
    0, 0, 0, 0, 0, 0, 0, 0, 0, 0, 0, 0, 0, 0, 0, 0, 0x80, 0x11, 0, 0, 1, 0, 0, 0, 0, 0, 0, 0, 0, 0,
    0, 0, 0, 0, 0, 0, 0, 0, 0, 0, 0, 0, 0, 0, 0, 0, 0, 0, 0, 0, 0, 0, 0, 0, 0, 0, 0, 0x10, 0, 0, 0,
    0, 0, 0, 0, 0, 0, 0, 0, 0, 0, 0, 0, 0, 0, 0, 0, 0, 0, 0, 0, 0, 0, 0, 0, 0, 0, 0, 0, 0, 0, 0, 0,
    0, 0, 0, 0, 0, 0, 0, 0, 0, 0, 0,
];

/// The status of a stream, as `struct statx` has it.
const EXTENDED: [u8; 256] = [
    0xff, 7, 0, 0, 0, 0x10, 0, 0, 0, 0, 0, 0, 0, 0, 0, 0, 1, 0, 0, 0, 0, 0, 0, 0, 0, 0, 0, 0, 0x80,
    0x11, 0, 0, 0, 0, 0, 0, 0, 0, 0, 0, 0, 0, 0, 0, 0, 0, 0, 0, 0, 0, 0, 0, 0, 0, 0, 0, 0, 0, 0, 0,
    0, 0, 0, 0, 0, 0, 0, 0, 0, 0, 0, 0, 0, 0, 0, 0, 0, 0, 0, 0, 0, 0, 0, 0, 0, 0, 0, 0, 0, 0, 0, 0,
    0, 0, 0, 0, 0, 0, 0, 0, 0, 0, 0, 0, 0, 0, 0, 0, 0, 0, 0, 0, 0, 0, 0, 0, 0, 0, 0, 0, 0, 0, 0, 0,
    0, 0, 0, 0, 0, 0, 0, 0, 0, 0, 0, 0, 0, 0, 0, 0, 0, 0, 0, 0, 0, 0, 0, 0, 0, 0, 0, 0, 0, 0, 0, 0,
    0, 0, 0, 0, 0, 0, 0, 0, 0, 0, 0, 0, 0, 0, 0, 0, 0, 0, 0, 0, 0, 0, 0, 0, 0, 0, 0, 0, 0, 0, 0, 0,
    0, 0, 0, 0, 0, 0, 0, 0, 0, 0, 0, 0, 0, 0, 0, 0, 0, 0, 0, 0, 0, 0, 0, 0, 0, 0, 0, 0, 0, 0, 0, 0,
    0, 0, 0, 0, 0, 0, 0, 0, 0, 0, 0, 0, 0, 0, 0, 0, 0, 0, 0, 0, 0, 0, 0, 0, 0, 0, 0, 0, 0, 0, 0, 0,
    0, 0, 0, 0,
];

/// The flag of a path that may be empty, `AT_EMPTY_PATH`.
const MAY_BE_EMPTY: u32 = 0x1000;

/// The byte that an absolute path begins with.
const SLASH: u32 = 0x2f;

/// The directory that the program is in, `AT_FDCWD`: -100.
const WORKING_DIRECTORY: u32 = 0xffff_ff9c;

/// The answer where there is no such file: -2, `ENOENT`.
const NO_SUCH_FILE: u32 = 0xffff_fffe;
/// The answer where a descriptor is not open: -9, `EBADF`.
const BAD_DESCRIPTOR: u32 = 0xffff_fff7;
/// The answer where a descriptor is no directory: -20, `ENOTDIR`.
const NO_DIRECTORY: u32 = 0xffff_ffec;

/// What a path is looked up by: beside which descriptor, at which address, with which flags.
#[derive(Clone, Copy, Debug, PartialEq)]
pub struct Lookup {
    /// The descriptor.
    pub descriptor: u32,
    /// The address of the path.
    pub path: u32,
    /// The flags.
    pub flags: u32,
}

impl Lookup {
    /// A lookup by these.
    pub fn new(descriptor: u32, path: u32, flags: u32) -> Lookup
        ensures { result ≡ record { descriptor = descriptor; path = path; flags = flags } }
    {
        Lookup {
            descriptor,
            path,
            flags,
        }
    }
}

/// Puts the status of a stream into memory, and gives the answer of the call.
pub fn put_status<M: Memory>(memory: &mut M, address: u32) -> u32
    ensures put { MakesSome M.reads M.writes
        (λ accesses. PutsBytes (M.writable memory.old) (M.bytes memory.old) (M.bytes memory.new)
        address stream_status accesses result)
        memory.old memory.new }
    ensures writable_kept { M.writable memory.new ≡ M.writable memory.old }
    ensures layout_kept { M.layout memory.new ≡ M.layout memory.old }
{
    put_bytes(&STATUS, memory, address)
}

/// Puts the status of what a path names into memory, and gives the answer of the call.
pub fn put_named_status<M: Memory>(memory: &mut M, lookup: Lookup, address: u32) -> u32
    ensures put { MakesSome M.reads M.writes
        (λ accesses. PutsNamed (M.writable memory.old) (M.bytes memory.old) (M.bytes memory.new)
        lookup address stream_status accesses result)
        memory.old memory.new }
    ensures writable_kept { M.writable memory.new ≡ M.writable memory.old }
    ensures layout_kept { M.layout memory.new ≡ M.layout memory.old }
{
    put_named(&STATUS, memory, lookup, address)
}

/// Puts the status of what a path names into memory, as `statx` does, and gives the answer of the
/// call.
pub fn put_extended_status<M: Memory>(memory: &mut M, lookup: Lookup, address: u32) -> u32
    ensures put { MakesSome M.reads M.writes
        (λ accesses. PutsNamed (M.writable memory.old) (M.bytes memory.old) (M.bytes memory.new)
        lookup address extended_status accesses result)
        memory.old memory.new }
    ensures writable_kept { M.writable memory.new ≡ M.writable memory.old }
    ensures layout_kept { M.layout memory.new ≡ M.layout memory.old }
{
    put_named(&EXTENDED, memory, lookup, address)
}

/// Puts the bytes of a structure into memory, if a path names a stream, and gives the answer of the
/// call.
fn put_named<M: Memory>(structure: &[u8], memory: &mut M, lookup: Lookup, address: u32) -> u32
    requires some { 0 < length structure.now }
    requires small { length structure.now ≤ most_bytes }
    ensures put { MakesSome M.reads M.writes
        (λ accesses. PutsNamed (M.writable memory.old) (M.bytes memory.old) (M.bytes memory.new)
        lookup address structure.now accesses result)
        memory.old memory.new }
    ensures writable_kept { M.writable memory.new ≡ M.writable memory.old }
    ensures layout_kept { M.layout memory.new ≡ M.layout memory.old }
{
    let first = memory.read_mem(lookup.path, MemAccessSize::Byte);
    match failure_of(first, lookup) {
        Some(answer) => answer,
        None => put_bytes(structure, memory, address),
    }
}

/// The answer where a path that begins with this byte names no stream.
fn failure_of(first: Option<u32>, lookup: Lookup) -> Option<u32>
    ensures { result ≡ failed first lookup }
{
    let Some(byte) = first else {
        return Some(BAD_ADDRESS);
    };
    let is_open = lookup.descriptor <= 2;
    if byte == 0 {
        if lookup.flags & MAY_BE_EMPTY == 0 {
            return Some(NO_SUCH_FILE);
        }
        return if is_open { None } else { Some(BAD_DESCRIPTOR) };
    }
    if byte == SLASH || lookup.descriptor == WORKING_DIRECTORY {
        return Some(NO_SUCH_FILE);
    }
    Some(if is_open {
        NO_DIRECTORY
    } else {
        BAD_DESCRIPTOR
    })
}
