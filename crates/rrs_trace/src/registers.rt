//! The registers of a step: those that an instruction reads, and the one that is written.

ghost use Rattle.std.specs.Prelude.{drop, ◌≡◌, ◌<◌};
ghost use Rattle.rrs_lib.specs.Encodings.{HasRegisters};
ghost use Rattle.rrs_lib.specs.Instructions.{fields_of};
ghost use Rattle.rrs_lib.specs.Machine.{State, reg};
ghost use Rattle.rrs_lib.specs.Steps.{LastIsRegister};
ghost use Rattle.rrs_trace.specs.Retired.{first_source, second_source, last_of};

use rrs_lib::instruction::{Instruction, InstructionFields};

/// The numbers of the source registers of an instruction, by its format: 0 where it has none.
#[inline(always)]
pub fn source_registers(instruction: &Instruction) -> (usize, usize)
    requires { HasRegisters (fields_of instruction.now) }
    ensures first { result.0 ≡ first_source (fields_of instruction.now) }
    ensures second { result.1 ≡ second_source (fields_of instruction.now) }
    ensures first_low { result.0 < 32 }
    ensures second_low { result.1 < 32 }
{
    match instruction.fields() {
        InstructionFields::R(fields) => (fields.rs1, fields.rs2),
        InstructionFields::I(fields) => (fields.rs1, 0),
        InstructionFields::IShamt(fields) => (fields.rs1, 0),
        InstructionFields::S(fields) => (fields.rs1, fields.rs2),
        InstructionFields::B(fields) => (fields.rs1, fields.rs2),
        InstructionFields::U(_) | InstructionFields::J(_) => (0, 0),
    }
}

/// The value of a register, by the registers of a hart. x0 reads 0, whatever entry 0 is.
#[inline]
pub fn register_value(registers: &[u32; 32], register: usize) -> u32
    requires { register < 32 }
    ensures { (s : State) → s.registers ≡ drop 1 registers.now → result ≡ reg s register }
{
    if register == 0 {
        0
    } else {
        registers[register]
    }
}

/// The number of the register that was written last, or 0 where none was.
#[inline]
pub fn last_register(last: Option<usize>) -> usize
    requires { LastIsRegister last }
    ensures number { last ≡ last_of result }
    ensures low { result < 32 }
{
    match last {
        Some(register) => register,
        None => 0,
    }
}
