//! Building blocks for a RISC-V instruction set simulator: RV32I with the M extension.
//!
//! `process_instruction` decodes a word and calls a function of an [InstructionProcessor], for
//! which a user writes an [InstructionHandler]: one function over an `Instruction`. The processor
//! of `instruction_executor` executes the instruction, over any [Memory]; that of
//! `instruction_string_outputter` gives its text, which `disassembly` makes with no allocation;
//! `memories` has memories and a loader.
//!
//! What the rows of the table are, and what they do, is written in `specs/`, in the terms of the
//! RISC-V unprivileged specification. The contracts of the calls here cite these definitions. Two
//! crates below have their own: `rrs_memory` the memories, and `rrs_instruction` the formats, the
//! decoder and the results. What a user needs of them is passed on here.

#![tactic(auto)]

pub mod disassembly;
pub mod instruction_executor;
pub mod instruction_string_outputter;

ghost use Rattle.std.specs.Prelude.{◌≡◌, ℕ, ◌<◌, ◌≤◌, slice_index, length, Bool, Option, Some, None, IfSome, IfNone, pos, replicate};

pub use rrs_instruction::{
    InstructionHandler, InstructionProcessor, instruction, instruction_formats, process_instruction,
};
pub use rrs_memory::{MemAccessSize, Memory, memories};

/// The state of a single RISC-V hart (hardware thread).
#[derive(Drop)]
pub struct HartState {
    /// The registers x1 to x31. x0 is 0, whatever entry 0 holds, and no call leaves another value
    /// there than it found.
    pub registers: [u32; 32],
    /// The program counter: the address, in bytes, of the next instruction.
    pub pc: u32,
    /// The register that the latest instruction wrote, or `None` if it wrote none.
    pub last_register_write: Option<usize>,
}

impl HartState {
    ghost use Rattle.rrs_lib.specs.Machine.{state_of, reg, put};
    ghost use Rattle.rrs_lib.specs.Steps.{LastIsRegister};

    /// A hart with all registers 0, at address 0, that has written no register.
    pub fn new() -> Self
        ensures registers { result.registers ≡ replicate 32 0 }
        ensures pc { result.pc ≡ 0 }
        ensures last { result.last_register_write ≡ None }
    {
        HartState {
            registers: [0; 32],
            pc: 0,
            last_register_write: None,
        }
    }

    /// Writes a register, 0 to 31; a write to x0 changes nothing. Any other register becomes the
    /// one written last, also where its value stays equal.
    #[inline]
    pub fn write_register(&mut self, reg_index: usize, value: u32)
        requires { reg_index < 32 }
        ensures written { (bytes : ℕ → Option ℕ) (writable : ℕ → Bool)
            → state_of self.new bytes writable
            ≡ put (state_of self.old bytes writable) reg_index (pos value) }
        ensures zero_kept { slice_index self.new.registers 0 ≡ slice_index self.old.registers 0 }
    {
        if reg_index == 0 {
            return;
        }
        self.registers[reg_index] = value;
        self.last_register_write = Some(reg_index);
    }

    /// The value of a register, 0 to 31; x0 is 0 whatever its entry holds.
    #[inline]
    pub fn read_register(&self, reg_index: usize) -> u32
        requires { reg_index < 32 }
        ensures { (bytes : ℕ → Option ℕ) (writable : ℕ → Bool)
            → result ≡ reg (state_of self.now bytes writable) reg_index }
    {
        if reg_index == 0 {
            0
        } else {
            self.registers[reg_index]
        }
    }

    /// The register that the latest instruction wrote, 1 to 31, and its value; `None` if it wrote
    /// none. So it is also where `last_register_write` holds another number, which no call leaves
    /// there.
    #[inline]
    pub fn last_written(&self) -> Option<(usize, u32)>
        ensures register { IfSome result (λ written.
            self.now.last_register_write ≡ Some written.0) }
        ensures within { IfSome result (λ written. (1 ≤ written.0) × (written.0 ≤ 31)) }
        ensures value { (bytes : ℕ → Option ℕ) (writable : ℕ → Bool)
            → IfSome result (λ written.
            written.1 ≡ reg (state_of self.now bytes writable) written.0) }
        ensures none { LastIsRegister self.now.last_register_write
            → IfNone result (self.now.last_register_write ≡ None) }
    {
        match self.last_register_write {
            Some(register) if 1 <= register && register < 32 => {
                Some((register, self.read_register(register)))
            }
            _ => None,
        }
    }

    /// The number of registers, 32. A proof that must know the length of the array calls this.
    #[inline]
    pub fn register_count(&self) -> usize
        ensures count { result ≡ 32 }
        ensures whole { length self.now.registers ≡ 32 }
    {
        let registers = self.registers;
        registers.len()
    }
}

impl Default for HartState {
    fn default() -> Self
        ensures registers { result.registers ≡ replicate 32 0 }
        ensures pc { result.pc ≡ 0 }
        ensures last { result.last_register_write ≡ None }
    {
        Self::new()
    }
}
