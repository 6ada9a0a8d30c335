//! The status of a file as a program finds it in memory.

ghost use Rattle.std.specs.Prelude.{◌≡◌};
ghost use Rattle.std.specs.Prelude.{◌*◌};
ghost use Rattle.rrs_fast.specs.Serving.{MakesSome};
ghost use Rattle.rrs_linux.specs.Statuses.{PutsBytes};
ghost use Rattle.rrs_files.specs.Statuses.{device_numbers, extended_back, extended_bytes, extended_front, moment_word, pair, status_bytes, stream_bytes, told_bytes, two_words};

use crate::folder::{Moment, Status};
use rrs_lib::Memory;
use rrs_linux::put_bytes;

/// What is known of a status that `statx` gives: all that its basic mask names.
const BASIC: u32 = 0x7ff;

/// The status of a standard stream: that of a pipe that its owner may read and write, with one
/// link, and blocks of 4,096 bytes.
const STREAM: Status = Status {
    device: 0,
    number: 0,
    mode: 0x1180,
    links: 1,
    owner: 0,
    group: 0,
    size: 0,
    block_size: 4096,
    blocks: 0,
    accessed: NO_MOMENT,
    modified: NO_MOMENT,
    changed: NO_MOMENT,
};

/// The time of a stream, which is not told.
const NO_MOMENT: Moment = Moment {
    seconds: 0,
    nanos: 0,
};

/// The structure that a status is put into memory in.
#[derive(Clone, Copy, Debug, PartialEq)]
pub enum Form {
    /// `struct stat64`.
    Stat64,
    /// `struct statx`.
    Statx,
}

/// Puts a status into memory, and gives the answer of the call.
pub fn put_told<M: Memory>(memory: &mut M, address: u32, form: Form, status: &Status) -> u32
    ensures put { MakesSome M.reads M.writes
        (λ accesses. PutsBytes (M.writable memory.old) (M.bytes memory.old) (M.bytes memory.new)
        address (told_bytes form status.now) accesses result)
        memory.old memory.new }
    ensures writable_kept { M.writable memory.new ≡ M.writable memory.old }
    ensures layout_kept { M.layout memory.new ≡ M.layout memory.old }
{
    match form {
        Form::Stat64 => put_bytes(&status_bytes(status), memory, address),
        Form::Statx => put_bytes(&extended_bytes(status), memory, address),
    }
}

/// Puts the status of a standard stream into memory, and gives the answer of the call.
pub fn put_stream<M: Memory>(memory: &mut M, address: u32, form: Form) -> u32
    ensures put { MakesSome M.reads M.writes
        (λ accesses. PutsBytes (M.writable memory.old) (M.bytes memory.old) (M.bytes memory.new)
        address (stream_bytes form) accesses result)
        memory.old memory.new }
    ensures writable_kept { M.writable memory.new ≡ M.writable memory.old }
    ensures layout_kept { M.layout memory.new ≡ M.layout memory.old }
{
    let stream = STREAM;
    put_told(memory, address, form, &stream)
}

/// The bytes of a status in `struct stat64`.
fn status_bytes(status: &Status) -> [u8; 104]
    ensures { result ≡ status_bytes status.now }
{
    let Status {
        accessed,
        modified,
        changed,
        ..
    } = *status;
    let mut bytes = [0; 104];
    bytes[..16].copy_from_slice(&two_words(status.device, status.number));
    let who = pair(status.owner, status.group);
    bytes[16..32].copy_from_slice(&two_words(pair(status.mode, status.links), who));
    bytes[48..64].copy_from_slice(&two_words(status.size, u64::from(status.block_size)));
    bytes[64..80].copy_from_slice(&two_words(status.blocks, moment(accessed)));
    bytes[80..96].copy_from_slice(&two_words(moment(modified), moment(changed)));
    bytes
}

/// The bytes of a status in `struct statx`.
fn extended_bytes(status: &Status) -> [u8; 256]
    ensures { result ≡ extended_bytes status.now }
{
    let mut bytes = [0; 256];
    bytes[..80].copy_from_slice(&extended_front(status));
    bytes[96..144].copy_from_slice(&extended_back(status));
    bytes
}

/// Those before the time when a file was made, which is not told.
fn extended_front(status: &Status) -> [u8; 80]
    ensures { result ≡ extended_front status.now }
{
    let Status { accessed, .. } = *status;
    let mut bytes = [0; 80];
    bytes[..16].copy_from_slice(&two_words(pair(BASIC, status.block_size), 0));
    let kind = pair(status.group, status.mode % (1 << 16));
    bytes[16..32].copy_from_slice(&two_words(pair(status.links, status.owner), kind));
    bytes[32..48].copy_from_slice(&two_words(status.number, status.size));
    bytes[48..64].copy_from_slice(&two_words(status.blocks, 0));
    bytes[64..].copy_from_slice(&two_words(accessed.seconds, u64::from(accessed.nanos)));
    bytes
}

/// Those after it, up to the numbers of the device.
fn extended_back(status: &Status) -> [u8; 48]
    ensures { result ≡ extended_back status.now }
{
    let Status {
        modified,
        changed,
        ..
    } = *status;
    let mut bytes = [0; 48];
    bytes[..16].copy_from_slice(&two_words(changed.seconds, u64::from(changed.nanos)));
    bytes[16..32].copy_from_slice(&two_words(modified.seconds, u64::from(modified.nanos)));
    bytes[32..].copy_from_slice(&two_words(0, device_numbers(status.device)));
    bytes
}

/// The two numbers of a device, of which the first has 12 bits and the other 20.
fn device_numbers(device: u64) -> u64
    ensures { result ≡ device_numbers device }
{
    let major = device / 0x100 % 0x1000;
    let minor = device / 0x10_0000 % 0x1000 * 0x100 + device % 0x100;
    pair(major as u32, minor as u32)
}

/// The bytes of two words of 64 bits, the lowest first.
fn two_words(first: u64, second: u64) -> [u8; 16]
    ensures { result ≡ two_words first second }
{
    let mut bytes = [0; 16];
    bytes[..8].copy_from_slice(&first.to_le_bytes());
    bytes[8..].copy_from_slice(&second.to_le_bytes());
    bytes
}

/// A moment in a word of 64 bits: the low 32 of its seconds, and its nanoseconds.
fn moment(moment: Moment) -> u64
    ensures { result ≡ moment_word moment }
{
    pair((moment.seconds % (1 << 32)) as u32, moment.nanos)
}

/// Two words in one of 64 bits, the first one lowest.
fn pair(first: u32, second: u32) -> u64
    ensures { result ≡ pair first second }
{
    u64::from(second) * (1 << 32) + u64::from(first)
}
