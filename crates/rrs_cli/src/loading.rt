//! The memory that a program runs in, with the program's bytes.

ghost use Rattle.std.specs.Prelude.{◌≡◌, ◌<◌, ◌^◌, Ok, IfOk, IfErr};
ghost use Rattle.rrs_lib.specs.Loading.{Loads};
ghost use Rattle.rrs_lib.specs.VecBytes.{bytes_of_words, lies_in_words};
ghost use Rattle.rrs_cli.specs.Printed.{zero_words};
ghost use Rattle.rrs_cli.specs.Faults.{StopsLoadInto};

use crate::fault::RunFault;
use rrs_lib::memories::{LoadFault, VecMemory, read_to_memory};
use std::alloc::Global;
use std::io::Read;

/// A memory of so many words, with the reader's bytes at the addresses 0, 1, 2, .. until it ends,
/// and zeros after them.
///
/// # Errors
///
/// `RunFault::OutOfMemory` before anything is read. `RunFault::Reader` and `RunFault::Refused`
/// where the bytes can't be loaded.
pub fn load<R: Read>(alloc: Global, words: usize, reader: &mut R) -> Result<VecMemory, RunFault>
    requires { words < 2 ^ 30 }
    ensures loaded { IfOk result (λ memory. Loads (R.remaining reader.old) (R.remaining reader.new)
        (bytes_of_words (zero_words words)) (bytes_of_words memory.mem.items)
        (lies_in_words (zero_words words)) 0 (Ok tt)) }
    ensures writable { IfOk result (λ memory. lies_in_words memory.mem.items
        ≡ lies_in_words (zero_words words)) }
    ensures fault { IfErr result
        (StopsLoadInto words (R.remaining reader.old) (R.remaining reader.new)) }
{
    let mut memory = empty_memory(alloc, words)?;
    match read_to_memory(reader, &mut memory, 0) {
        Ok(()) => Ok(memory),
        Err(LoadFault::Reader(_)) => Err(RunFault::Reader),
        Err(LoadFault::Refused(address)) => Err(RunFault::Refused(address)),
        Err(LoadFault::EndOfAddresses) => unreachable!(),
    }
}

/// A memory of zero words.
fn empty_memory(alloc: Global, words: usize) -> Result<VecMemory, RunFault>
    ensures words { IfOk result (λ memory. memory.mem.items ≡ zero_words words) }
    ensures fault { IfErr result (λ fault. fault ≡ RunFault.OutOfMemory) }
{
    match vec![in alloc; 0; words] {
        Ok(words) => Ok(VecMemory::new(words)),
        Err(_) => Err(RunFault::OutOfMemory),
    }
}
