//! The text of an exception.

ghost use Rattle.std.specs.Fmt.{WritesOnOk};
ghost use Rattle.std.specs.Prelude.{◌++◌, Some};
ghost use Rattle.rrs_memory.specs.Hexadecimal.{hexadecimal};
ghost use Rattle.rrs_lib.specs.FaultTexts.{exception_text};

use crate::instruction_executor::InstructionException;
use std::fmt;

impl fmt::Display for InstructionException {
    ghost output = { λ fault. Some (exception_text fault) };

    fn fmt<W: fmt::Write>(&self, f: &mut fmt::Formatter<W>) -> fmt::Result {
        match *self {
            Self::IllegalInstruction(pc, word) => {
                write!(f, "IllegalInstruction pc=0x{pc:08x} word=0x{word:08x}")
            }
            Self::FetchError(pc) => write_at(f, "FetchError pc=0x", pc),
            Self::LoadAccessFault(addr) => write_at(f, "LoadAccessFault addr=0x", addr),
            Self::StoreAccessFault(addr) => write_at(f, "StoreAccessFault addr=0x", addr),
            Self::AlignmentFault(addr) => write_at(f, "AlignmentFault addr=0x", addr),
            Self::EnvironmentCall(pc) => write_at(f, "EnvironmentCall pc=0x", pc),
            Self::Breakpoint(pc) => write_at(f, "Breakpoint pc=0x", pc),
        }
    }
}

/// Writes a text, and a pc or an address in 8 hexadecimal digits.
fn write_at<W: fmt::Write>(f: &mut fmt::Formatter<W>, text: &str, address: u32) -> fmt::Result
    ensures writes { WritesOnOk W.write_str_gives f.old result
        (text.now ++ hexadecimal 8 address) f.new }
{
    write!(f, "{text}{address:08x}")
}
