//! What a program asks for of its files.

ghost use Rattle.std.specs.Prelude.{◌≡◌, ℕ, Bool, Option, Some};
ghost use Rattle.rrs_lib.specs.Machine.{state_of};
ghost use Rattle.rrs_linux.specs.Requests.{are_flags, are_statx_flags};
ghost use Rattle.rrs_files.specs.Descriptors.{stream_of};
ghost use Rattle.rrs_files.specs.Requests.{AsksFile, AsksFileBy, IsOfFiles, descriptor_in, how_of};

use crate::descriptors::Descriptors;
use crate::errors::BAD_ARGUMENT;
use crate::folder::{Change, How, NameChange};
use rrs_lib::HartState;

/// `getcwd`.
const GETCWD: u32 = 17;
/// `dup`.
const DUP: u32 = 23;
/// `dup3`.
const DUP3: u32 = 24;
/// `fcntl64`.
const FCNTL64: u32 = 25;
/// `ioctl`.
const IOCTL: u32 = 29;
/// `mkdirat`.
const MKDIRAT: u32 = 34;
/// `unlinkat`.
const UNLINKAT: u32 = 35;
/// `ftruncate64`.
const FTRUNCATE64: u32 = 46;
/// `faccessat`.
const FACCESSAT: u32 = 48;
/// `fchmod`.
const FCHMOD: u32 = 52;
/// `fchown`.
const FCHOWN: u32 = 55;
/// `openat`.
const OPENAT: u32 = 56;
/// `close`.
const CLOSE: u32 = 57;
/// `getdents64`.
const GETDENTS64: u32 = 61;
/// `_llseek`.
const LLSEEK: u32 = 62;
/// `read`.
const READ: u32 = 63;
/// `write`.
const WRITE: u32 = 64;
/// `writev`.
const WRITEV: u32 = 66;
/// `pread64`.
const PREAD64: u32 = 67;
/// `pwrite64`.
const PWRITE64: u32 = 68;
/// `readlinkat`.
const READLINKAT: u32 = 78;
/// `fstatat64`.
const FSTATAT64: u32 = 79;
/// `fstat64`.
const FSTAT64: u32 = 80;
/// `fsync`.
const FSYNC: u32 = 82;
/// `fdatasync`.
const FDATASYNC: u32 = 83;
/// `renameat2`.
const RENAMEAT2: u32 = 276;
/// `statx`.
const STATX: u32 = 291;
/// `utimensat_time64`.
const UTIMENSAT: u32 = 412;

/// The flag of `unlinkat` that removes a directory, `AT_REMOVEDIR`.
const A_DIRECTORY_TOO: u32 = 0x200;

/// No flags of `fstatat64` and `statx`: all but `AT_SYMLINK_NOFOLLOW`, `AT_NO_AUTOMOUNT`,
/// `AT_EMPTY_PATH` and the two of `AT_STATX_SYNC_TYPE`.
const NO_FLAGS: u32 = 0xffff_86ff;

/// The two flags of `AT_STATX_SYNC_TYPE`, of which a call has one at most.
const SYNC_TYPE: u32 = 0x6000;

/// What a call asks for of the files.
#[derive(Clone, Copy, Debug, PartialEq)]
pub enum FileRequest {
    /// To open a file: beside a descriptor, by the path at an address, with flags and a mode.
    Open(u32, u32, u32, u32),
    /// To close a descriptor.
    Close(u32),
    /// To give what a descriptor has another one.
    Copy(u32),
    /// To give what a descriptor has this other one, with flags.
    CopyTo(u32, u32, u32),
    /// To move the position of a descriptor, by an offset of 64 bits, from a place, and to put it
    /// at an address: descriptor, offset, place, address.
    Seek(u32, u64, u32, u32),
    /// To read from a descriptor, to an address, so many bytes at most.
    Read(u32, u32, u32),
    /// To read from a descriptor, from an offset on, to an address, so many bytes at most.
    ReadAt(u32, u64, u32, u32),
    /// To write to a descriptor, from an address, so many bytes at most.
    Write(u32, u32, u32),
    /// To write to a descriptor, from an offset on, from an address, so many bytes at most.
    WriteAt(u32, u64, u32, u32),
    /// To write to a descriptor, from the pieces of a vector at an address, so many pieces.
    WritePieces(u32, u32, u32),
    /// To put the next entries of the directory of a descriptor at an address, where there is room
    /// for so many bytes.
    List(u32, u32, u32),
    /// To put the status of a descriptor at an address.
    Status(u32, u32),
    /// To put the status of a file at an address: beside a descriptor, by the path at an address,
    /// with flags.
    NamedStatus(u32, u32, u32, u32),
    /// To put the status of a file at an address as `statx` does: beside a descriptor, by the path
    /// at an address, with flags.
    ExtendedStatus(u32, u32, u32, u32),
    /// To put the text of a link at an address: beside a descriptor, by the path at an address, and
    /// so many bytes at most.
    Link(u32, u32, u32, u32),
    /// To change the file of a descriptor.
    ChangeFile(u32, Change),
    /// To give the file of a descriptor an owner and a group, of which `0xffff_ffff` leaves one as
    /// it is.
    Own(u32, u32, u32),
    /// To change a name: beside a descriptor, by the path at an address.
    ChangeName(u32, u32, NameChange),
    /// To give a file another name: beside a descriptor, by the path at an address, and both for
    /// the new name.
    Rename(u32, u32, u32, u32),
    /// Whether a file may be read (4), written (2) or executed (1): beside a descriptor, by the
    /// path at an address, and a sum of these.
    Test(u32, u32, u32),
    /// To do a command of `fcntl` on a descriptor, with an argument.
    Control(u32, u32, u32),
    /// To do what only a device does, `ioctl`, on a descriptor.
    ControlDevice(u32),
    /// To set the times of a file: beside a descriptor, by the path at an address, and the times at
    /// an address.
    SetTimes(u32, u32, u32),
    /// To put the path of the working directory at an address, where there is room for so many
    /// bytes.
    Folder(u32, u32),
    /// Nothing: this is the answer.
    Refused(u32),
}

/// What the call of a hart at an `ecall` asks for of the files, if it is one for them.
pub fn file_request_of(hart: &HartState) -> Option<FileRequest>
    ensures { (bytes : ℕ → Option ℕ) (writable : ℕ → Bool)
        → AsksFile (state_of hart.now bytes writable) result }
{
    let call = hart.read_register(17);
    let first = hart.read_register(10);
    let second = hart.read_register(11);
    let third = hart.read_register(12);
    let fourth = hart.read_register(13);
    let fifth = hart.read_register(14);
    request_by(call, first, second, third, fourth, fifth)
}

/// What a call with this number and these arguments asks for.
fn request_by(
    call: u32,
    first: u32,
    second: u32,
    third: u32,
    fourth: u32,
    fifth: u32,
) -> Option<FileRequest>
    ensures { AsksFileBy call first second third fourth fifth result }
{
    match call {
        OPENAT => Some(FileRequest::Open(first, second, third, fourth)),
        FSTATAT64 => Some(named_status(first, second, third, fourth)),
        STATX => Some(extended_status(first, second, third, fourth, fifth)),
        READLINKAT => Some(FileRequest::Link(first, second, third, fourth)),
        GETCWD => Some(FileRequest::Folder(first, second)),
        UNLINKAT if third == 0 => {
            Some(FileRequest::ChangeName(first, second, NameChange::Remove))
        }
        UNLINKAT if third == A_DIRECTORY_TOO => {
            Some(FileRequest::ChangeName(first, second, NameChange::RemoveDirectory))
        }
        UNLINKAT => Some(FileRequest::Refused(BAD_ARGUMENT)),
        MKDIRAT => {
            let made = NameChange::MakeDirectory(third & 0o1777);
            Some(FileRequest::ChangeName(first, second, made))
        }
        RENAMEAT2 if fifth == 0 => Some(FileRequest::Rename(first, second, third, fourth)),
        RENAMEAT2 => Some(FileRequest::Refused(BAD_ARGUMENT)),
        FACCESSAT if third <= 7 => Some(FileRequest::Test(first, second, third)),
        FACCESSAT => Some(FileRequest::Refused(BAD_ARGUMENT)),
        UTIMENSAT if third != 0 && fourth == 0 => Some(FileRequest::SetTimes(first, second, third)),
        UTIMENSAT => Some(FileRequest::Refused(BAD_ARGUMENT)),
        FCNTL64 => Some(FileRequest::Control(first, second, third)),
        CLOSE => Some(FileRequest::Close(first)),
        DUP => Some(FileRequest::Copy(first)),
        DUP3 => Some(FileRequest::CopyTo(first, second, third)),
        _ => request_on(call, first, second, third, fourth, fifth),
    }
}

/// What a call with this number and these arguments asks for, of which the first is a descriptor.
fn request_on(
    call: u32,
    first: u32,
    second: u32,
    third: u32,
    fourth: u32,
    fifth: u32,
) -> Option<FileRequest>
    requires { IsOfFiles call → ⊥ }
    ensures { AsksFileBy call first second third fourth fifth result }
{
    match call {
        GETDENTS64 => Some(FileRequest::List(first, second, third)),
        READ => Some(FileRequest::Read(first, second, third)),
        WRITE => Some(FileRequest::Write(first, second, third)),
        PREAD64 => {
            let offset = u64::from(fifth) << 32 | u64::from(fourth);
            Some(FileRequest::ReadAt(first, offset, second, third))
        }
        PWRITE64 => {
            let offset = u64::from(fifth) << 32 | u64::from(fourth);
            Some(FileRequest::WriteAt(first, offset, second, third))
        }
        WRITEV => Some(FileRequest::WritePieces(first, second, third)),
        IOCTL => Some(FileRequest::ControlDevice(first)),
        FSTAT64 => Some(FileRequest::Status(first, second)),
        LLSEEK => {
            let offset = u64::from(second) << 32 | u64::from(third);
            Some(FileRequest::Seek(first, offset, fifth, fourth))
        }
        FTRUNCATE64 => {
            let length = u64::from(third) << 32 | u64::from(second);
            Some(FileRequest::ChangeFile(first, Change::Length(length)))
        }
        FSYNC => Some(FileRequest::ChangeFile(first, Change::Flush)),
        FDATASYNC => Some(FileRequest::ChangeFile(first, Change::FlushBytes)),
        FCHMOD => Some(FileRequest::ChangeFile(first, Change::Mode(second & 0o7777))),
        FCHOWN => Some(FileRequest::Own(first, second, third)),
        _ => None,
    }
}

/// The descriptor that is read, written or asked, if one is.
fn descriptor_in(request: &FileRequest) -> Option<u32>
    ensures { result ≡ descriptor_in request.now }
{
    match *request {
        FileRequest::Seek(descriptor, _, _, _)
        | FileRequest::Read(descriptor, _, _)
        | FileRequest::ReadAt(descriptor, _, _, _)
        | FileRequest::Write(descriptor, _, _)
        | FileRequest::WriteAt(descriptor, _, _, _)
        | FileRequest::WritePieces(descriptor, _, _)
        | FileRequest::List(descriptor, _, _)
        | FileRequest::Status(descriptor, _)
        | FileRequest::ChangeFile(descriptor, _)
        | FileRequest::Own(descriptor, _, _)
        | FileRequest::ControlDevice(descriptor) => Some(descriptor),
        _ => None,
    }
}

/// The standard stream that is read, written or asked, if one is.
pub fn stream_asked(request: &FileRequest, descriptors: &Descriptors) -> Option<u32>
    ensures { result ≡ stream_of descriptors.now.targets (descriptor_in request.now) }
{
    match descriptor_in(request) {
        Some(descriptor) => descriptors.stream_of(descriptor),
        None => None,
    }
}

/// What `fstatat64` asks for with these arguments.
fn named_status(first: u32, second: u32, third: u32, fourth: u32) -> FileRequest
    ensures { (fifth : ℕ) → AsksFileBy 79 first second third fourth fifth (Some result) }
{
    if are_flags(fourth) {
        FileRequest::NamedStatus(first, second, fourth, third)
    } else {
        FileRequest::Refused(BAD_ARGUMENT)
    }
}

/// What `statx` asks for with these arguments.
fn extended_status(first: u32, second: u32, third: u32, fourth: u32, fifth: u32) -> FileRequest
    ensures { AsksFileBy 291 first second third fourth fifth (Some result) }
{
    if are_statx_flags(third, fourth) {
        FileRequest::ExtendedStatus(first, second, third, fifth)
    } else {
        FileRequest::Refused(BAD_ARGUMENT)
    }
}

/// Whether `fstatat64` takes these flags.
fn are_flags(flags: u32) -> bool
    ensures { result ≡ are_flags flags }
{
    flags & NO_FLAGS == 0
}

/// Whether `statx` takes these flags and this mask.
fn are_statx_flags(flags: u32, mask: u32) -> bool
    ensures { result ≡ are_statx_flags flags mask }
{
    are_flags(flags) && flags & SYNC_TYPE != SYNC_TYPE && mask < 1 << 31
}

/// How a file is opened by these flags and this mode.
pub fn how_of(flags: u32, mode: u32) -> How
    ensures { result ≡ how_of flags mode }
{
    How {
        reads: flags & 1 == 0,
        writes: flags & 3 != 0,
        appends: flags & 0x400 != 0 && flags & 3 != 0,
        creates: flags & 0x40 != 0,
        is_new: flags & 0x80 != 0,
        truncates: flags & 0x200 != 0,
        is_directory: flags & 0x1_0000 != 0,
        mode: mode & 0o777,
    }
}
