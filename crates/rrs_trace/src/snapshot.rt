//! A hart's state at a moment, to keep, compare and print.

ghost use Rattle.std.specs.Prelude.{◌≡◌, ℕ, Bool, Option, slice_index};
ghost use Rattle.rrs_lib.specs.Machine.{state_of, hart_of};

use rrs_lib::HartState;

/// The registers, the pc and the last written register of a hart at a moment.
///
/// Two of them are equal exactly where the harts are in one state: entry 0 of a hart's registers is
/// no part of it.
#[derive(Clone, Copy, Debug, PartialEq)]
pub struct Snapshot {
    /// The registers x0 to x31; x0 is 0.
    pub registers: [u32; 32],
    /// The program counter, in bytes.
    pub pc: u32,
    /// The register that the latest instruction wrote, or `None` if it wrote none.
    pub last_register_write: Option<usize>,
}

impl Snapshot {
    /// The state of a hart.
    pub fn of(hart: &HartState) -> Snapshot
        ensures state { (bytes : ℕ → Option ℕ) (writable : ℕ → Bool)
            → state_of (hart_of result.registers result.pc result.last_register_write)
            bytes writable ≡ state_of hart.now bytes writable }
        ensures zero { slice_index result.registers 0 ≡ 0 }
    {
        let mut registers = hart.registers;
        registers[0] = 0;
        Snapshot {
            registers,
            pc: hart.pc,
            last_register_write: hart.last_register_write,
        }
    }

    /// Gives a hart this state. Entry 0 of its registers stays.
    pub fn put_back(&self, hart: &mut HartState)
        ensures state { (bytes : ℕ → Option ℕ) (writable : ℕ → Bool)
            → state_of hart.new bytes writable
            ≡ state_of (hart_of self.now.registers self.now.pc self.now.last_register_write)
            bytes writable }
        ensures entry_zero { slice_index hart.new.registers 0 ≡ slice_index hart.old.registers 0 }
    {
        let entry_zero = hart.registers[0];
        hart.registers = self.registers;
        hart.registers[0] = entry_zero;
        hart.pc = self.pc;
        hart.last_register_write = self.last_register_write;
    }
}
