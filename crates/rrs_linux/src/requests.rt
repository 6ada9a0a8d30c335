//! What a call asks for, by its number and its arguments.

ghost use Rattle.std.specs.Prelude.{◌≡◌, ℕ, Bool, Option};
ghost use Rattle.rrs_lib.specs.Machine.{state_of};
ghost use Rattle.rrs_linux.specs.Requests.{Asks, AsksBy, are_flags, are_random_flags, are_statx_flags};

use crate::buffers::BAD_ARGUMENT;
use crate::clocks::{REALTIME, TimeForm};
use crate::statuses::Lookup;
use rrs_lib::HartState;

/// `ioctl`.
const IOCTL: u32 = 29;
/// `close`.
const CLOSE: u32 = 57;
/// `lseek`.
const LSEEK: u32 = 62;
/// `read`.
const READ: u32 = 63;
/// `write`.
const WRITE: u32 = 64;
/// `writev`.
const WRITEV: u32 = 66;
/// `newfstatat`.
const NEWFSTATAT: u32 = 79;
/// `fstat`.
const FSTAT: u32 = 80;
/// `exit`.
const EXIT: u32 = 93;
/// `exit_group`.
const EXIT_GROUP: u32 = 94;
/// `uname`.
const UNAME: u32 = 160;
/// `gettimeofday`.
const GETTIMEOFDAY: u32 = 169;
/// `getpid`.
const GETPID: u32 = 172;
/// `getuid`.
const GETUID: u32 = 174;
/// `geteuid`.
const GETEUID: u32 = 175;
/// `getgid`.
const GETGID: u32 = 176;
/// `getegid`.
const GETEGID: u32 = 177;
/// The number of `brk`.
pub const BRK: u32 = 214;
/// `getrandom`.
const GETRANDOM: u32 = 278;
/// `statx`.
const STATX: u32 = 291;
/// `clock_gettime64`.
const CLOCK_GETTIME64: u32 = 403;

/// The number of the process.
const PROCESS_ID: u32 = 1;
/// The number of its user, and that of its group.
const USER_ID: u32 = 1000;
/// The answer where a stream is no terminal: -25, `ENOTTY`.
const NO_TERMINAL: u32 = 0xffff_ffe7;
/// The answer where a stream has no position: -29, `ESPIPE`.
const NO_POSITION: u32 = 0xffff_ffe3;

/// The answer where a descriptor is not open for this: -9, `EBADF`.
const BAD_DESCRIPTOR: u32 = 0xffff_fff7;
/// The answer to a call that there is not: -38, `ENOSYS`.
pub const NO_SUCH_CALL: u32 = 0xffff_ffda;

/// The flags that there are not for a path: all but `AT_SYMLINK_NOFOLLOW`, `AT_NO_AUTOMOUNT`,
/// `AT_EMPTY_PATH` and the two of `AT_STATX_SYNC_TYPE`.
const NO_FLAGS: u32 = 0xffff_86ff;
/// The two flags of `AT_STATX_SYNC_TYPE`, of which a call has one at most.
const SYNC_TYPE: u32 = 0x6000;

/// The flags `GRND_RANDOM` and `GRND_INSECURE`, of which `getrandom` takes one at most.
const RANDOM_SOURCE: u32 = 6;

/// What a call asks for.
#[derive(Clone, Copy, Debug, PartialEq)]
pub enum Request {
    /// To end with a status, 0 to 255.
    Exit(u32),
    /// Nothing but this answer.
    Answer(u32),
    /// What there is no call for: the call of this number is not served.
    NoCall(u32),
    /// To put the status of an open stream at an address.
    Status(u32),
    /// To put the status of what a path names at an address.
    NamedStatus(Lookup, u32),
    /// To put the status of what a path names at an address, as `statx` does.
    ExtendedStatus(Lookup, u32),
    /// To put what a clock tells at an address, in a form.
    Time(u32, TimeForm, u32),
    /// To move the break to an address.
    SetBreak(u32),
    /// To put the names of the system at an address.
    Names(u32),
    /// To give pseudo-random bytes, to an address, so many at most.
    Random(u32, u32),
    /// To read from standard input, to an address, so many bytes at most.
    Read(u32, u32),
    /// To write to standard output, from an address, so many bytes at most.
    WriteOutput(u32, u32),
    /// To write to standard error, from an address, so many bytes at most.
    WriteErrors(u32, u32),
    /// To write to standard output the pieces of a vector, which has an address and so many pieces.
    WriteOutputPieces(u32, u32),
    /// To write to standard error the pieces of a vector, which has an address and so many pieces.
    WriteErrorPieces(u32, u32),
}

/// What the call of a hart at an `ecall` asks for.
pub fn system_call_of(hart: &HartState) -> Request
    ensures { (bytes : ℕ → Option ℕ) (writable : ℕ → Bool)
        → Asks (state_of hart.now bytes writable) result }
{
    let call = hart.read_register(17);
    let first = hart.read_register(10);
    let second = hart.read_register(11);
    let third = hart.read_register(12);
    let fourth = hart.read_register(13);
    let fifth = hart.read_register(14);
    request_by(call, first, second, third, fourth, fifth)
}

/// What a call with this number and these arguments asks for.
fn request_by(call: u32, first: u32, second: u32, third: u32, fourth: u32, fifth: u32) -> Request
    ensures { AsksBy call first second third fourth fifth result }
{
    match call {
        EXIT | EXIT_GROUP => Request::Exit(first % 256),
        BRK => Request::SetBreak(first),
        GETPID => Request::Answer(PROCESS_ID),
        GETUID | GETEUID | GETGID | GETEGID => Request::Answer(USER_ID),
        CLOSE if first <= 2 => Request::Answer(0),
        FSTAT if first <= 2 => Request::Status(second),
        IOCTL if first <= 2 => Request::Answer(NO_TERMINAL),
        LSEEK if first <= 2 => Request::Answer(NO_POSITION),
        READ if first == 0 => Request::Read(second, third),
        WRITE if first == 1 => Request::WriteOutput(second, third),
        WRITE if first == 2 => Request::WriteErrors(second, third),
        WRITEV if first == 1 => Request::WriteOutputPieces(second, third),
        WRITEV if first == 2 => Request::WriteErrorPieces(second, third),
        CLOSE | FSTAT | IOCTL | LSEEK | READ | WRITE | WRITEV => Request::Answer(BAD_DESCRIPTOR),
        NEWFSTATAT if are_flags(fourth) => {
            Request::NamedStatus(Lookup::new(first, second, fourth), third)
        }
        STATX if are_statx_flags(third, fourth) => {
            Request::ExtendedStatus(Lookup::new(first, second, third), fifth)
        }
        CLOCK_GETTIME64 if first <= 3 => Request::Time(first, TimeForm::Timespec, second),
        GETTIMEOFDAY => Request::Time(REALTIME, TimeForm::Timeval, first),
        GETRANDOM if are_random_flags(third) => Request::Random(first, second),
        UNAME => Request::Names(first),
        NEWFSTATAT | STATX | CLOCK_GETTIME64 | GETRANDOM => Request::Answer(BAD_ARGUMENT),
        _ => Request::NoCall(call),
    }
}

/// Whether there are these flags of a path.
fn are_flags(flags: u32) -> bool
    ensures { result ≡ are_flags flags }
{
    flags & NO_FLAGS == 0
}

/// Whether `statx` takes these flags and this mask.
fn are_statx_flags(flags: u32, mask: u32) -> bool
    ensures { result ≡ are_statx_flags flags mask }
{
    are_flags(flags) && flags & SYNC_TYPE != SYNC_TYPE && mask < 1 << 31
}

/// Whether `getrandom` takes these flags.
fn are_random_flags(flags: u32) -> bool
    ensures { result ≡ are_random_flags flags }
{
    flags < 8 && flags & RANDOM_SOURCE != RANDOM_SOURCE
}
