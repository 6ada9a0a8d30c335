//! What can go wrong in a run or in the writing of a text, beside the program that is run.

ghost use Rattle.std.specs.Prelude.{Some};
ghost use Rattle.rrs_cli.specs.Faults.{fault_text};

use rrs_lib::memories::LoadFault;
use std::error::Error;
use std::io::ErrorKind;
use std::{fmt, io};

/// Why a run can't be made, or a text not be written.
#[derive(Debug, PartialEq, Drop)]
pub enum RunFault {
    /// Out of memory for the words of the memory, for a text or for a buffer.
    OutOfMemory,
    /// A read of the program's bytes failed.
    Reader,
    /// The program has a byte for this address, which is not writable.
    Refused(u32),
    /// A write or a flush of the output failed.
    Output,
}

impl fmt::Display for RunFault {
    ghost output = { λ fault. Some (fault_text fault) };

    // The loader's texts are printed by its fault: that of a failed read is the same for every
    // error.
    fn fmt<W: fmt::Write>(&self, f: &mut fmt::Formatter<W>) -> fmt::Result {
        match self {
            RunFault::OutOfMemory => write!(f, "out of memory"),
            RunFault::Reader => {
                let error = io::Error::from(ErrorKind::Other);
                write!(f, "{}", LoadFault::Reader(error))
            }
            RunFault::Refused(address) => write!(f, "{}", LoadFault::Refused(*address)),
            RunFault::Output => write!(f, "cannot write output"),
        }
    }
}

impl Error for RunFault {}
