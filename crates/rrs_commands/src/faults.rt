//! What is said of a file that a subcommand can't use.

use rrs_exec::ImageError;
use rrs_run_commands::refusal::{Advice, FileFault, HostFault};
use std::fmt;

/// What is wrong with a file, as a line on standard error has it after the file's path.
#[derive(Clone, Copy)]
pub struct ToldFault(pub FileFault);

impl fmt::Display for ToldFault {
    fn fmt<W: fmt::Write>(&self, f: &mut fmt::Formatter<W>) -> fmt::Result {
        match &self.0 {
            FileFault::Host(fault) => f.write_str(reason_of(*fault)),
            FileFault::LargeSource => f.write_str("a source has at most 64 MiB"),
            FileFault::LargeProgram => f.write_str("a program has at most 256 MiB"),
            FileFault::Image(error, advice) => {
                ToldImageError(*error).fmt(f)?;
                ToldAdvice(*advice, COMPILE).fmt(f)
            }
            FileFault::Firmware(error, advice) => {
                error.fmt(f)?;
                ToldAdvice(*advice, COMPILE_FIRMWARE).fmt(f)
            }
            FileFault::OutsideRam(address, bytes) => {
                write!(f, "cannot load at address 0x{address:08x}: ")?;
                write!(f, "RAM has {bytes} bytes from 0x80000000 on")
            }
            FileFault::NoTreeRoom => {
                f.write_str("no room behind it for a device tree of 64 KiB: --memory gives it more")
            }
            FileFault::LongTree => f.write_str("a device tree has at most 64 KiB"),
            FileFault::LongArguments => {
                f.write_str("--append makes the device tree longer than 64 KiB")
            }
            FileFault::HasArguments => {
                f.write_str("--append is for the board's own device tree, and this is another")
            }
            FileFault::IsNoImage => f.write_str("an ELF file: without --raw it is loaded"),
            FileFault::HasNoSymbols => {
                f.write_str("a raw image has no symbols: --symbols names an executable with them")
            }
            FileFault::IsElf => f.write_str("an ELF file: rrs exec runs it"),
            FileFault::TooLong(address) => {
                write!(
                    f,
                    "more bytes than the memory, which ends at 0x{address:08x}"
                )
            }
            FileFault::EmptyProgram => f.write_str("the program is empty"),
            FileFault::WrongEntry(address) => {
                write!(f, "no instruction can begin at the entry 0x{address:08x}")
            }
            FileFault::NoExecutable => f.write_str("no executable of the program"),
            FileFault::LargeImage => {
                f.write_str("the program has more than 64 MiB from its first byte to its last")
            }
            FileFault::IsSource => f.write_str("this is the source, which stays as it is"),
            FileFault::IsRead => f.write_str("it is read, and stays as it is"),
            FileFault::IsWrittenTwice => f.write_str("two options write it"),
            FileFault::IsOpen => {
                f.write_str("it is open already, as a standard stream or a descriptor")
            }
        }
    }
}

/// What the C library says where the host did not do what it was called for.
fn reason_of(fault: HostFault) -> &'static str {
    match fault {
        HostFault::Closed => "Broken pipe",
        HostFault::NotPermitted => "Operation not permitted",
        HostFault::InputOutput => "Input/output error",
        HostFault::NoDevice => "No such device or address",
        HostFault::BadDescriptor => "Bad file descriptor",
        HostFault::InUse => "Device or resource busy",
        HostFault::ManyFiles => "Too many open files",
        HostFault::Loop => "Too many levels of symbolic links",
        HostFault::NotFound => "No such file or directory",
        HostFault::Denied => "Permission denied",
        HostFault::IsDirectory => "Is a directory",
        HostFault::NotDirectory => "Not a directory",
        HostFault::NoSpace => "No space left on device",
        HostFault::ReadOnly => "Read-only file system",
        HostFault::Quota => "Disk quota exceeded",
        HostFault::Large => "File too large",
        HostFault::Busy => "Text file busy",
        HostFault::LongName => "File name too long",
        HostFault::Invalid => "Invalid argument",
        HostFault::Unsupported => "Operation not supported",
        HostFault::Unknown => "the host gives no reason",
    }
}

/// Why an executable can't be run.
#[derive(Clone, Copy)]
struct ToldImageError(ImageError);

impl fmt::Display for ToldImageError {
    fn fmt<W: fmt::Write>(&self, f: &mut fmt::Formatter<W>) -> fmt::Result {
        match &self.0 {
            ImageError::Elf(error) => error.fmt(f),
            ImageError::NoRoom => f.write_str("there are no addresses for a heap and a stack"),
            ImageError::NeedsMemory(bytes) => {
                write!(f, "it needs {bytes} bytes of memory: --memory {bytes}")
            }
            ImageError::LongArguments => {
                f.write_str("the arguments and the environment do not fit in the stack: ")?;
                f.write_str("--memory gives it more")
            }
            ImageError::Refused(address) => write!(f, "cannot load at address 0x{address:08x}"),
            ImageError::OutOfMemory => f.write_str("out of memory"),
        }
    }
}

/// The names of machines that programs are made for, by `e_machine` of an ELF file.
static MACHINES: [(u16, &str); 11] = [
    (2, "SPARC"),
    (3, "Intel 80386"),
    (8, "MIPS"),
    (20, "PowerPC"),
    (21, "PowerPC64"),
    (22, "S/390"),
    (40, "Arm"),
    (62, "x86-64"),
    (183, "AArch64"),
    (243, "RV64"),
    (258, "LoongArch"),
];

/// What a file is, or what is to be done about it, after the refusal, and how a program for this
/// machine is compiled.
#[derive(Clone, Copy)]
struct ToldAdvice(Advice, &'static str);

impl fmt::Display for ToldAdvice {
    fn fmt<W: fmt::Write>(&self, f: &mut fmt::Formatter<W>) -> fmt::Result {
        match self.0 {
            Advice::Nothing => Ok(()),
            Advice::Compile => f.write_str(self.1),
            Advice::Link => f.write_str(": link it"),
            Advice::LinkFixed => f.write_str(": link it with -static -no-pie"),
            Advice::Machine(machine) => {
                for (number, name) in &MACHINES {
                    if *number == machine {
                        write!(f, ": a program for {name}")?;
                    }
                }
                f.write_str(self.1)
            }
        }
    }
}

/// How a program is compiled for this machine.
const COMPILE: &str = ": compile it with -march=rv32im -mabi=ilp32";

/// How firmware is compiled for it.
const COMPILE_FIRMWARE: &str = ": compile it with -march=rv32ima_zicsr -mabi=ilp32";
