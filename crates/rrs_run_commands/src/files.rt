//! The files that a subcommand reads, and the streams that it writes to.

ghost use Rattle.std.specs.Prelude.{◌≡◌, ℕ, List, IfOk, length};
ghost use Rattle.std.specs.Int.{from_le_bytes, w64};
ghost use Rattle.std.specs.Io.KnownBytes.{Consumes};

use crate::refusal::{FileFault, HostFault, Refusal, out_of_memory};
use rrs_board::{ByteSource, Patience};
use std::alloc::Global;
use std::fs;
use std::io::{self, BufWriter, ErrorKind, Read, Write};
use std::rt::Files;

/// The most bytes of a program's file, 256 MiB.
const PROGRAM_BYTES: u64 = 1 << 28;

/// The most bytes of a source, 64 MiB. A device may have bytes without an end.
const SOURCE_BYTES: u64 = 1 << 26;

/// The path by which standard input is opened.
const INPUT_PATH: &str = "/dev/stdin";

/// The path of the host's random bytes.
const RANDOM_PATH: &str = "/dev/urandom";

/// The names of the standard streams in messages.
pub const STANDARD_INPUT: &str = "standard input";

pub const STANDARD_OUTPUT: &str = "standard output";

pub const STANDARD_ERROR: &str = "standard error";

/// Why the host did not do what it was called for: by the kind of the error, and where that says
/// too little by its number.
pub fn fault_of(error: &io::Error) -> HostFault {
    match error.raw_os_error() {
        Some(1) => HostFault::NotPermitted,
        Some(5) => HostFault::InputOutput,
        Some(6) => HostFault::NoDevice,
        Some(9) => HostFault::BadDescriptor,
        Some(16) => HostFault::InUse,
        Some(24) => HostFault::ManyFiles,
        Some(40) => HostFault::Loop,
        _ => fault_of_kind(error.kind()),
    }
}

/// Why the host did not do what it was called for, by the kind of the error.
fn fault_of_kind(kind: ErrorKind) -> HostFault {
    match kind {
        ErrorKind::BrokenPipe => HostFault::Closed,
        ErrorKind::NotFound => HostFault::NotFound,
        ErrorKind::PermissionDenied => HostFault::Denied,
        ErrorKind::IsADirectory => HostFault::IsDirectory,
        ErrorKind::NotADirectory => HostFault::NotDirectory,
        ErrorKind::StorageFull => HostFault::NoSpace,
        ErrorKind::ReadOnlyFilesystem => HostFault::ReadOnly,
        ErrorKind::QuotaExceeded => HostFault::Quota,
        ErrorKind::FileTooLarge => HostFault::Large,
        ErrorKind::ExecutableFileBusy => HostFault::Busy,
        ErrorKind::InvalidFilename => HostFault::LongName,
        ErrorKind::InvalidInput => HostFault::Invalid,
        ErrorKind::UnexpectedEof => HostFault::InputOutput,
        ErrorKind::Unsupported => HostFault::Unsupported,
        _ => HostFault::Unknown,
    }
}

/// The refusal of a file by the host.
pub fn refused_by_host<'a>(path: &'a str, error: &io::Error) -> Refusal<'a> {
    Refusal::File(path, FileFault::Host(fault_of(error)))
}

/// The bytes of a program's file; `-` is standard input.
///
/// # Errors
///
/// `Refusal::File` where it can't be opened or read, or has more than 256 MiB; out of memory as a
/// failure.
pub fn read_program<'a, H: Files + AllocGlobal>(
    rt: &H,
    path: &'a str,
) -> Result<Vec<u8>, Refusal<'a>> {
    let fault = FileFault::LargeProgram;
    read_most(rt, path, place_of(path), PROGRAM_BYTES, fault)
}

/// The bytes of a source; `-` is standard input.
///
/// # Errors
///
/// `Refusal::File` where it can't be opened or read, or has more than 64 MiB; out of memory as a
/// failure.
pub fn read_source<'a, H: Files + AllocGlobal>(
    rt: &H,
    path: &'a str,
) -> Result<Vec<u8>, Refusal<'a>> {
    let fault = FileFault::LargeSource;
    read_most(rt, path, place_of(path), SOURCE_BYTES, fault)
}

/// The bytes of a file that a source names.
///
/// # Errors
///
/// Those of `read_source`.
pub fn read_file<'a, H: Files + AllocGlobal>(
    rt: &H,
    path: &'a str,
) -> Result<Vec<u8>, Refusal<'a>> {
    read_most(rt, path, path, SOURCE_BYTES, FileFault::LargeSource)
}

/// Eight random bytes of the host, as a number that has the lowest byte first: the seed of the
/// random bytes of a program. They are those of `/dev/urandom` (urandom(4)).
///
/// # Errors
///
/// `Refusal::File` where it can't be opened, and where eight bytes can't be read of it.
pub fn host_seed<'a, H: Files>(rt: &H) -> Result<u64, Refusal<'a>> {
    let seed = match fs::open(rt, RANDOM_PATH) {
        Ok(mut file) => seed_in(&mut file),
        Err(error) => Err(error),
    };
    match seed {
        Ok(seed) => Ok(seed),
        Err(error) => Err(refused_by_host(RANDOM_PATH, &error)),
    }
}

/// The next eight bytes of a reader, as a number that has the lowest byte first.
///
/// # Errors
///
/// That of the reader, and `ErrorKind::UnexpectedEof` where it has fewer.
fn seed_in<R: Read>(reader: &mut R) -> io::Result<u64>
    ensures { IfOk result (λ seed. (bytes : List ℕ) × (length bytes ≡ 8)
        × Consumes (R.remaining reader.old) (R.remaining reader.new) bytes
        × (seed ≡ from_le_bytes w64 bytes)) }
{
    let mut bytes = [0; 8];
    reader.read_exact(&mut bytes)?;
    Ok(u64::from_le_bytes(bytes))
}

/// The path by which a file that is read is opened.
pub(crate) fn place_of(path: &str) -> &str {
    if path == "-" { INPUT_PATH } else { path }
}

/// The bytes of a file, of which there are so many at most, and that is opened by this place.
fn read_most<'a, H: Files + AllocGlobal>(
    rt: &H,
    path: &'a str,
    place: &str,
    most: u64,
    fault: FileFault,
) -> Result<Vec<u8>, Refusal<'a>> {
    match fs::open(rt, place) {
        Ok(file) => read_all(rt.alloc(), path, file, most, fault),
        Err(error) => Err(refused_by_host(path, &error)),
    }
}

/// The bytes that a reader has left, of which there are so many at most.
fn read_all<'a, R: Read + Drop>(
    alloc: Global,
    path: &'a str,
    reader: R,
    most: u64,
    fault: FileFault,
) -> Result<Vec<u8>, Refusal<'a>> {
    let mut file = Vec::new(alloc);
    match reader.take(most.saturating_add(1)).read_to_end(&mut file) {
        Ok(_) if file.len() as u64 > most => Err(Refusal::File(path, fault)),
        Ok(_) => Ok(file),
        Err(error) if error.kind() == ErrorKind::OutOfMemory => Err(out_of_memory()),
        Err(error) => Err(refused_by_host(path, &error)),
    }
}

/// A writer with a buffer.
///
/// # Errors
///
/// Out of memory.
pub fn buffered<'a, W: Write + Drop>(alloc: Global, out: W) -> Result<BufWriter<W>, Refusal<'a>> {
    match BufWriter::new(alloc, out) {
        Ok(out) => Ok(out),
        Err(_) => Err(out_of_memory()),
    }
}

/// The refusal that an error of a write is.
pub fn unwritten<'a>(_error: io::Error) -> Refusal<'a> {
    Refusal::Output
}

/// A stream that keeps why a read or a write of it failed.
#[derive(Drop)]
pub struct Noting<S> {
    /// The stream.
    pub stream: S,
    /// Why the latest read or write that failed did.
    pub fault: Option<HostFault>,
}

impl<S> Noting<S> {
    /// A stream of which no read or write has failed.
    pub fn new(stream: S) -> Noting<S>
        ensures { result.stream ≡ stream }
    {
        Noting {
            stream,
            fault: None,
        }
    }
}

/// What is read is what the stream gives, by one read of it.
impl<S: ByteSource> ByteSource for Noting<S> {
    ghost remaining = { λ noting. S.remaining noting.stream };

    ghost reads = { λ old patience result new. S.reads old.stream patience result new.stream };

    fn read_byte(&mut self, patience: Patience) -> io::Result<Option<u8>> {
        let read = self.stream.read_byte(patience);
        if let Err(error) = &read {
            self.fault = Some(fault_of(error));
        }
        read
    }
}

/// What is written is what the stream takes.
impl<S: Write> Write for Noting<S> {
    ghost contents = { λ noting. S.contents noting.stream };

    fn write(&mut self, buf: &[u8]) -> io::Result<usize> {
        let written = self.stream.write(buf);
        if let Err(error) = &written {
            self.fault = Some(fault_of(error));
        }
        written
    }

    fn flush(&mut self) -> io::Result<()> {
        let flushed = self.stream.flush();
        if let Err(error) = &flushed {
            self.fault = Some(fault_of(error));
        }
        flushed
    }
}
