//! What a step changed, as C has it.

ghost use Rattle.std.specs.Prelude.{◌≡◌, ◌<◌, ℕ, IsTrue, List, length};
ghost use Rattle.rrs_lib.specs.Machine.{State};
ghost use Rattle.rrs_lib.specs.Steps.{LastIsRegister};
ghost use Rattle.rrs_history.specs.Changes.{undone, last_before, put_back};
ghost use Rattle.rrs_c.specs.Undoing.{change_in, IsChange, size_in, bytes_stored};

use crate::hart::number_of;
use rrs_history::Change;
use rrs_lib::MemAccessSize;

/// What takes a step back. It takes 28 bytes.
#[repr(C)]
#[derive(Clone, Copy)]
pub struct RrsChange {
    /// The pc before: the address of the instruction.
    pub pc: u32,
    /// The register that was the last written one before, 1 to 31, or 0 for none.
    pub last: u32,
    /// The register that was written, 1 to 31, or 0 for none.
    pub rd: u32,
    /// What it was before.
    pub value: u32,
    /// The address of the first byte that was stored.
    pub address: u32,
    /// How many bytes were stored: 1, 2 or 4, or 0 for none.
    pub size: u32,
    /// What they were before, lowest byte first.
    pub bytes: u32,
}

const _: () = prove!(size_of::<RrsChange>() == 28);

/// How many bytes were stored.
#[inline]
fn bytes_stored(stored: Option<MemAccessSize>) -> u32
    ensures { result ≡ bytes_stored stored }
{
    match stored {
        None => 0,
        Some(MemAccessSize::Byte) => 1,
        Some(MemAccessSize::HalfWord) => 2,
        Some(MemAccessSize::Word) => 4,
    }
}

/// The size of a store by its number of bytes.
#[inline]
fn size_in(size: u32) -> Option<MemAccessSize>
    ensures { result ≡ size_in size }
{
    match size {
        0 => None,
        1 => Some(MemAccessSize::Byte),
        2 => Some(MemAccessSize::HalfWord),
        _ => Some(MemAccessSize::Word),
    }
}

/// The register that was the last written one before.
#[inline]
fn last_before(change: &Change) -> Option<usize>
    ensures { result ≡ last_before change.now }
{
    if change.had_last {
        Some(change.last)
    } else {
        None
    }
}

/// The register that was written, or 0.
#[inline]
fn register_of(change: &Change) -> u32
    ensures same { (registers : List ℕ) → length registers ≡ 31
        → put_back result change.now.value registers
        ≡ put_back change.now.register change.now.value registers }
    ensures low { result < 32 }
{
    if change.register < 32 {
        u32::from(change.register)
    } else {
        0
    }
}

/// The change of C that takes back what one of the kit takes back.
#[inline]
pub(crate) fn change_of(change: &Change) -> RrsChange
    requires starts { IsTrue change.now.starts }
    requires last { LastIsRegister (last_before change.now) }
    ensures same { (t : State) → length t.registers ≡ 31
        → undone (change_in result) t ≡ undone change.now t }
    ensures told { IsChange result }
{
    RrsChange {
        pc: change.pc,
        last: number_of(last_before(change)),
        rd: register_of(change),
        value: change.value,
        address: change.address,
        size: bytes_stored(change.stored),
        bytes: change.bytes,
    }
}

/// The change of the kit that one of C is.
#[inline]
pub(crate) fn change_from(change: &RrsChange) -> Change
    ensures same { result ≡ change_in change.now }
    ensures last { LastIsRegister (last_before result) }
{
    Change {
        last: change.last as usize,
        pc: change.pc,
        value: change.value,
        address: change.address,
        bytes: change.bytes,
        stored: size_in(change.size),
        register: if change.rd < 32 { change.rd as u8 } else { 0 },
        had_last: 0 < change.last && change.last < 32,
        starts: true,
        of_call: false,
    }
}
