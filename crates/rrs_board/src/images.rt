//! A board with an image in its RAM, and bytes that are handed over to its hart.

ghost use Rattle.std.specs.Prelude.{◌≡◌, ◌⊎◌, ℕ, ◌+◌, ◌^◌, ◌<◌, false, length, Err, IfOk, OnOk};
ghost use Rattle.rrs_memory.specs.Loading.{Loaded};
ghost use Rattle.rrs_board.specs.Registers.{ram_start};
ghost use Rattle.rrs_board.specs.Boards.{StartsWithImage, HandsOver, is_in_ram};

use crate::board::Board;
use crate::loading::BoardError;
use crate::memory::{RAM_START, Ram};
use rrs_memory::Memory;
use rrs_memory::memories::{LoadFault, read_to_memory};
use std::alloc::Global;

impl Board {
    /// A board at reset with so many words of RAM, in which the bytes of an image stand from the
    /// start of RAM on, where its hart is (`starts`).
    ///
    /// # Errors
    ///
    /// `BoardError::Refused` only where a byte of the image has no place in RAM (`outside`), with
    /// the first address that is not in RAM; and `BoardError::OutOfMemory`.
    pub fn load_image(alloc: Global, image: &[u8], words: usize) -> Result<Board, BoardError>
        ensures starts { IfOk result (StartsWithImage image.now words) }
        ensures outside { (address : ℕ) → result ≡ Err (BoardError.Refused address)
            → (k : ℕ) × (k < length image.now) × (is_in_ram words (ram_start + k) ≡ false) }
    {
        let Ok(mut ram) = Ram::new(alloc, words) else {
            return Err(BoardError::OutOfMemory);
        };
        put_bytes(&mut ram, RAM_START, image)?;
        Ok(Board::new(ram, RAM_START))
    }

    /// Hands bytes over to the hart, such as a device tree: puts them into RAM from an address on,
    /// and the address into `a1` (`handed`).
    ///
    /// # Errors
    ///
    /// `BoardError::Refused` with the first address that is not in RAM. The bytes before it are
    /// written then.
    pub fn hand_over(&mut self, bytes: &[u8], address: u32) -> Result<(), BoardError>
        ensures handed { OnOk result (HandsOver bytes.now address self.old self.new) }
    {
        put_bytes(&mut self.memory.ram, address, bytes)?;
        self.hart.registers[11] = address;
        Ok(())
    }
}

/// Puts bytes into a memory from an address on.
fn put_bytes<M: Memory>(memory: &mut M, address: u32, bytes: &[u8]) -> Result<(), BoardError>
    ensures loaded { OnOk result (Loaded (M.bytes memory.old) (M.bytes memory.new)
        (M.writable memory.old) address bytes.now) }
    ensures outside { (first : ℕ) → result ≡ Err (BoardError.Refused first)
        → (k : ℕ) × (k < length bytes.now)
        × ((address + k ≡ 2 ^ 32) ⊎ (M.writable memory.old (address + k) ≡ false)) }
    ensures layout_kept { M.layout memory.new ≡ M.layout memory.old }
{
    let mut reader = bytes;
    match read_to_memory(&mut reader, memory, address) {
        Ok(()) => Ok(()),
        Err(LoadFault::Refused(address)) => Err(BoardError::Refused(address)),
        Err(LoadFault::EndOfAddresses) => Err(BoardError::Refused(0)),
        // Bytes that are lent can be read.
        Err(LoadFault::Reader(_)) => Err(BoardError::OutOfMemory),
    }
}
