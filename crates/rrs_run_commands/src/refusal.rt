//! Why a subcommand of `rrs` did not do what it was asked.

ghost use Rattle.std.specs.Prelude.{◌≡◌, IfOk, Ok};
ghost use Rattle.rrs_run_commands.specs.Advice.{HasMachine, advice};
ghost use Rattle.rrs_run_commands.specs.WrittenFiles.{IsWantOfMemory};

use crate::options::Setting;
use rrs_cli::command::Failure;
use rrs_cli::fault::RunFault;
use rrs_elf::ElfError;
use rrs_exec::ImageError;

/// Why the words of a command line ask for nothing that can be done. Each word is one of these.
#[derive(Clone, Copy)]
pub enum Mistake<'a> {
    /// A file or another word that has to be there is missing.
    Missing,
    /// This word is one too many.
    Surplus(&'a str),
    /// There is no such option.
    Unknown(&'a str),
    /// The option takes no value, and has one.
    TakesNone(&'a str),
    /// The option takes a value, and has none.
    HasNone(&'a str),
    /// The value of the option is not what it takes.
    Wrong(Setting, &'a str),
    /// The value asks for more bytes of memory than there can be, which are so many at most.
    Large(&'a str, u64),
    /// This variable is one more than a program can have, which are `MOST_VARIABLES`.
    ManyVariables(&'a str),
    /// The word for the steps of `rrs run` is no limit.
    WrongSteps(&'a str),
}

/// Why the host did not do what it was called for.
#[derive(Clone, Copy)]
pub enum HostFault {
    /// Nobody reads what is written any more.
    Closed,
    /// Operation not permitted.
    NotPermitted,
    /// Input/output error.
    InputOutput,
    /// No such device or address.
    NoDevice,
    /// Bad file descriptor.
    BadDescriptor,
    /// Device or resource busy.
    InUse,
    /// Too many open files.
    ManyFiles,
    /// Too many levels of symbolic links.
    Loop,
    /// No such file or directory.
    NotFound,
    /// Permission denied.
    Denied,
    /// Is a directory.
    IsDirectory,
    /// Not a directory.
    NotDirectory,
    /// No space left on device.
    NoSpace,
    /// Read-only file system.
    ReadOnly,
    /// Disk quota exceeded.
    Quota,
    /// File too large.
    Large,
    /// Text file busy.
    Busy,
    /// File name too long.
    LongName,
    /// Invalid argument.
    Invalid,
    /// Operation not supported.
    Unsupported,
    /// It gives no reason that is listed here.
    Unknown,
}

/// What a file is that is refused, or what is to be done about it.
#[derive(Clone, Copy)]
pub enum Advice {
    /// Nothing more is said.
    Nothing,
    /// It is to be compiled for this machine.
    Compile,
    /// It is to be linked.
    Link,
    /// It is to be linked to fixed addresses, with no library that is loaded at run time.
    LinkFixed,
    /// It is a program for the machine with this number.
    Machine(u16),
}

/// What is wrong with a file.
#[derive(Clone, Copy)]
pub enum FileFault {
    /// The host does not open, read, create or write it.
    Host(HostFault),
    /// The source has more bytes than are read.
    LargeSource,
    /// The program has more bytes than are read.
    LargeProgram,
    /// It can't be made a process, and what is to be done then.
    Image(ImageError, Advice),
    /// It can't be made the firmware of a board, and what is to be done then.
    Firmware(ElfError, Advice),
    /// A byte of it, at this address, is outside of the RAM of a board, which has so many bytes.
    OutsideRam(u32, u64),
    /// It leaves no room in RAM for a device tree.
    NoTreeRoom,
    /// It is a device tree of more bytes than there is room for.
    LongTree,
    /// With the arguments for a kernel the board's device tree has more bytes than there is room for.
    LongArguments,
    /// It is a device tree, and the arguments for a kernel are for the board's own.
    HasArguments,
    /// It is an ELF file, and no raw image.
    IsNoImage,
    /// It is a raw image, which has no symbols.
    HasNoSymbols,
    /// It is an ELF file, and its bytes are not to be run as they stand.
    IsElf,
    /// Its bytes are more than the memory has, which ends at this address.
    TooLong(u32),
    /// The program that was assembled has no executable, since it has no bytes.
    EmptyProgram,
    /// It has none, since no instruction can begin at its entry, which is this address.
    WrongEntry(u32),
    /// It has none for another reason. This does not happen.
    NoExecutable,
    /// The bytes of the program, with the zeros between its sections, are too many.
    LargeImage,
    /// The file that is to be written is the source.
    IsSource,
    /// The file that is to be written is one that is read.
    IsRead,
    /// The file is to be written for two options.
    IsWrittenTwice,
    /// The file that is to be written is open already, as a standard stream or by a descriptor.
    IsOpen,
}

/// Why a subcommand did not do what it was asked.
#[derive(Drop)]
pub enum Refusal<'a> {
    /// The words ask for nothing that it does.
    Words(Mistake<'a>),
    /// The source has mistakes, which were printed.
    SourceErrors,
    /// Something is wrong with the file of this path.
    File(&'a str, FileFault),
    /// This word after an option for an address is none, and no symbol has this name.
    NoAddress(Setting, &'a str),
    /// No function has this name, which stands after `--only`.
    NoFunction(&'a str),
    /// The bytes of a program are not written to a terminal.
    Terminal,
    /// What is written can't be written. `named` says where to.
    Output,
    /// What the firmware reads can't be read. `named` says where from.
    Input,
    /// Something else failed.
    Failed(Failure),
}

impl<'a> From<Failure> for Refusal<'a> {
    fn from(failure: Failure) -> Refusal<'a> {
        Refusal::Failed(failure)
    }
}

impl<'a> From<Mistake<'a>> for Refusal<'a> {
    fn from(mistake: Mistake<'a>) -> Refusal<'a> {
        Refusal::Words(mistake)
    }
}

/// The refusal that an error of a run is.
pub fn failed<'a>(fault: RunFault) -> Refusal<'a> {
    match fault {
        RunFault::Output => Refusal::Output,
        fault => Refusal::Failed(Failure::Run(fault)),
    }
}

/// The refusal that an error of the run of a raw program is.
pub fn unloaded(path: &str, fault: RunFault) -> Refusal<'_> {
    match fault {
        RunFault::Refused(address) => Refusal::File(path, FileFault::TooLong(address)),
        fault => failed(fault),
    }
}

/// The refusal for want of memory.
pub fn out_of_memory<'a>() -> Refusal<'a>
    ensures { IsWantOfMemory result }
{
    Refusal::Failed(Failure::Run(RunFault::OutOfMemory))
}

/// What is said of a file that is refused, after the refusal.
#[tactic(auto, unfolding(rrs_elf::specs::Numbers::half))]
fn advice_of(file: &[u8], error: ImageError) -> Advice
    ensures { HasMachine file.now → result ≡ advice file.now error }
{
    match error {
        ImageError::Elf(ElfError::Class(_) | ElfError::Machine(_)) if file.len() >= 20 => {
            Advice::Machine(u16::from(file[18]) + 256 * u16::from(file[19]))
        }
        ImageError::Elf(ElfError::CompressedCode | ElfError::FloatingPoint | ElfError::Embedded) =>
            Advice::Compile,
        ImageError::Elf(ElfError::NotExecutable(1)) => Advice::Link,
        ImageError::Elf(ElfError::PositionIndependent | ElfError::Interpreter(_)) => {
            Advice::LinkFixed
        }
        _ => Advice::Nothing,
    }
}

/// The refusal of a file that is no executable.
pub fn no_executable<'a>(path: &'a str, file: &[u8], error: ElfError) -> Refusal<'a> {
    no_image(path, file, ImageError::Elf(error))
}

/// The refusal of a file that can't be made the firmware of a board.
pub fn no_firmware<'a>(path: &'a str, file: &[u8], error: ElfError) -> Refusal<'a> {
    let advice = advice_of(file, ImageError::Elf(error));
    Refusal::File(path, FileFault::Firmware(error, advice))
}

/// The refusal of a file that can't be made a process.
pub fn no_image<'a>(path: &'a str, file: &[u8], error: ImageError) -> Refusal<'a> {
    Refusal::File(path, FileFault::Image(error, advice_of(file, error)))
}

/// An outcome, and where it was refused since something can't be read or written the name of that,
/// and why.
///
/// # Errors
///
/// Those of the outcome.
pub fn named<'a, T>(
    outcome: Result<T, Refusal<'a>>,
    path: &'a str,
    fault: Option<HostFault>,
) -> Result<T, Refusal<'a>>
    ensures { IfOk result (λ value. outcome.entry ≡ Ok value) }
{
    match (outcome, fault) {
        (Err(Refusal::Output | Refusal::Input), Some(fault)) => {
            Err(Refusal::File(path, FileFault::Host(fault)))
        }
        (outcome, _) => outcome,
    }
}
