//! Loading a reader's bytes into a memory.

ghost use Rattle.std.specs.Prelude.{◌≡◌, ◌<◌, ◌^◌, [], ◌∷◌, Some, MatchResult, MatchOption, IfErr, is_ok};
ghost use Rattle.std.specs.Io.KnownBytes.{Consumes, IsAtEnd};
ghost use Rattle.rrs_memory.specs.Bytes.{Writes};
ghost use Rattle.rrs_memory.specs.Loading.{Loads, WritesEachByte};

use crate::{MemAccessSize, Memory};
use std::fmt;
use std::io::{self, Read};

/// Why a load ended before its reader did. What was written before stays written.
#[derive(Drop)]
pub enum LoadFault {
    /// A read failed, or was interrupted.
    Reader(io::Error),
    /// The memory refused the byte at this address. The byte is read already.
    Refused(u32),
    /// The reader has a byte more than there are addresses. That byte is read already.
    EndOfAddresses,
}

impl fmt::Display for LoadFault {
    ghost use Rattle.rrs_memory.specs.LoadTexts.{load_text};

    ghost output = { λ fault. Some (load_text fault) };

    fn fmt<W: fmt::Write>(&self, f: &mut fmt::Formatter<W>) -> fmt::Result {
        match self {
            LoadFault::Reader(_) => write!(f, "Could not read byte"),
            LoadFault::Refused(address) => {
                write!(f, "Could not write byte at address 0x{address:08x}")
            }
            LoadFault::EndOfAddresses => write!(f, "Could not write byte past address 0xffffffff"),
        }
    }
}

/// The next byte of a reader, or `None` at its end.
fn next_byte<R: Read>(reader: &mut R) -> io::Result<Option<u8>>
    ensures { MatchResult result
        (λ next. MatchOption next
        (Consumes (R.remaining reader.old) (R.remaining reader.new) []
        × IsAtEnd (R.remaining reader.new))
        (λ byte. (byte < 2 ^ 8)
        × Consumes (R.remaining reader.old) (R.remaining reader.new) (byte ∷ [])))
        (λ _. Consumes (R.remaining reader.old) (R.remaining reader.new) []) }
{
    let mut buffer = [0];
    let count = reader.read(&mut buffer)?;
    Ok((count != 0).then_some(buffer[0]))
}

/// Writes a byte to its address, or says that the memory refused it.
fn write_byte<M: Memory>(memory: &mut M, addr: u32, byte: u8) -> Result<(), LoadFault>
    ensures laws { Writes M.bytes M.writable M.layout
        memory.old memory.new addr 1 byte (is_ok result) }
    ensures did { M.writes memory.old addr MemAccessSize.Byte byte memory.new (is_ok result) }
    ensures refused { IfErr result (λ fault. fault ≡ LoadFault.Refused addr) }
{
    if memory.write_mem(addr, MemAccessSize::Byte, u32::from(byte)) {
        Ok(())
    } else {
        Err(LoadFault::Refused(addr))
    }
}

/// Reads a reader to its end, byte by byte, and writes each byte into a memory, from `start_addr`
/// on.
///
/// Over a reader that tells its bytes the clause `loads` says which bytes the memory has after
/// each result, how many were read, and for `Ok`, `Refused` and `EndOfAddresses` exactly why it
/// ended. That `Reader` comes only where a read failed is shown by tests: any read may fail. So is
/// that the reader is not asked again after its end.
///
/// Of the memory it asks exactly one write for each byte that was read, in order, a refused one
/// among them as the last, and no read [`accesses`]. A byte past the last address has no write.
///
/// # Errors
///
/// `Reader(error)` where a read failed or was interrupted: no further byte is read, and the bytes
/// before it are written. `Refused(address)` where the memory refused the byte for this address:
/// that byte is read, and the bytes before it are written. `EndOfAddresses` where the reader has a
/// byte more after address 0xffffffff was written: that byte is read.
///
/// # Examples
///
/// ```
/// let mut memory = VecMemory::new(vec![in alloc; 0; 2]?);
/// let mut reader: &[u8] = &[0xaa, 0xbb];
/// assert!(rt; read_to_memory(&mut reader, &mut memory, 3).is_ok());
/// assert_eq!(rt; memory.mem.as_slice(), [0xaa00_0000, 0x0000_00bb].as_slice());
/// ```
pub fn read_to_memory<R: Read, M: Memory>(
    reader: &mut R,
    memory: &mut M,
    start_addr: u32,
) -> Result<(), LoadFault>
    ensures loads { Loads (R.remaining reader.old) (R.remaining reader.new)
        (M.bytes memory.old) (M.bytes memory.new) (M.writable memory.old) start_addr result }
    ensures accesses { WritesEachByte M.reads M.writes
        (R.remaining reader.old) (R.remaining reader.new)
        memory.old memory.new (M.writable memory.old) start_addr }
    ensures writable_kept { M.writable memory.new ≡ M.writable memory.old }
    ensures layout_kept { M.layout memory.new ≡ M.layout memory.old }
{
    for addr in u64::from(start_addr)..1 << 32 {
        let addr = addr as u32;
        match next_byte(reader) {
            Ok(Some(byte)) => {
                if let Err(refused) = write_byte(memory, addr, byte) {
                    return Err(refused);
                }
            }
            Ok(None) => return Ok(()),
            Err(error) => return Err(LoadFault::Reader(error)),
        }
    }
    match next_byte(reader) {
        Ok(None) => Ok(()),
        Ok(Some(_)) => Err(LoadFault::EndOfAddresses),
        Err(error) => Err(LoadFault::Reader(error)),
    }
}
