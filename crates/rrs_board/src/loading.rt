//! A board with an executable in its RAM.

ghost use Rattle.std.specs.Prelude.{◌≡◌, ◌+◌, ◌*◌, ◌^◌, ℕ, min, Err, IfOk};
ghost use Rattle.rrs_elf.specs.Refusals.{first_refusal, checks_in};
ghost use Rattle.rrs_elf.specs.Loading.{EndsOutside};
ghost use Rattle.rrs_board.specs.Registers.{ram_start};
ghost use Rattle.rrs_board.specs.Boards.{StartsWith, is_in_ram};

use crate::board::Board;
use crate::memory::{RAM_START, Ram};
use rrs_elf::{Addresses, CodeUnit, ElfError, Executable};
use std::alloc::Global;

/// Why no board starts with a file.
#[derive(Debug, PartialEq, Clone, Copy)]
pub enum BoardError {
    /// The file is no executable for this machine.
    Elf(ElfError),
    /// The byte for this address, a physical one, is not for RAM.
    Refused(u32),
    /// Out of memory.
    OutOfMemory,
}

/// The address after the last of so many words of RAM.
fn end_of_ram(words: usize) -> u64
    ensures { result ≡ min (ram_start + 4 * words) (2 ^ 32) }
{
    u64::from(RAM_START) + 4 * words.min(1 << 29) as u64
}

impl Board {
    /// A board at reset with so many words of RAM, in which the segments of an executable stand at
    /// their physical addresses, and whose hart is at its entry (`starts`). Its instructions lie in
    /// these units: with half-words compressed code is accepted, and the profile of the hart, which
    /// is set then, is to have it.
    ///
    /// # Errors
    ///
    /// `BoardError::Elf` exactly where the file is refused, with its first refusal (`refused`,
    /// `elf`); `BoardError::Refused` only where a byte of a segment lies outside RAM, with the
    /// physical address of the first one (`outside`); and `BoardError::OutOfMemory`.
    pub fn load(
        alloc: Global,
        file: &[u8],
        unit: CodeUnit,
        words: usize,
    ) -> Result<Board, BoardError>
        ensures starts { IfOk result (StartsWith file.now words) }
        ensures refused { (refusal : ElfError)
            → first_refusal (checks_in unit Addresses.Physical file.now) ≡ Err refusal
            → result ≡ Err (BoardError.Elf refusal) }
        ensures elf { (refusal : ElfError) → result ≡ Err (BoardError.Elf refusal)
            → first_refusal (checks_in unit Addresses.Physical file.now) ≡ Err refusal }
        ensures outside { (address : ℕ) → result ≡ Err (BoardError.Refused address)
            → EndsOutside Addresses.Physical file.now (is_in_ram words) address }
    {
        let executable = match Executable::parse_in(file, Addresses::Physical, unit) {
            Ok(executable) => executable,
            Err(error) => return Err(BoardError::Elf(error)),
        };
        let mut ram = match Ram::new(alloc, words) {
            Ok(ram) => ram,
            Err(_) => return Err(BoardError::OutOfMemory),
        };
        match executable.load_over_zeros(&mut ram, RAM_START, end_of_ram(words)) {
            Ok(()) => Ok(Board::new(ram, executable.entry())),
            Err(refused) => Err(BoardError::Refused(refused.address)),
        }
    }
}
