//! What a step retires whose access C made.

ghost use Rattle.std.specs.Prelude.{◌≡◌, ◌<◌, ◌%◌, ◌^◌, ℕ, Bool, List, Option, Some, None, ◌==◌, if◌then◌else◌, slice_index};
ghost use Rattle.rrs_lib.specs.Bytes.{ByteMap, width};
ghost use Rattle.rrs_lib.specs.Encodings.{HasRegisters};
ghost use Rattle.rrs_lib.specs.Instructions.{fields_of};
ghost use Rattle.rrs_lib.specs.Machine.{hart_of};
ghost use Rattle.rrs_lib.specs.Steps.{next_word, LastIsRegister};
ghost use Rattle.rrs_lib.specs.Accesses.{Access, AccessesOf, size_of};
ghost use Rattle.rrs_trace.specs.Outside.{WithEachMemory, Completes, AccessesAfterFetch, AnsweredBy};
ghost use Rattle.rrs_trace.specs.Retired.{mask, is_fault, last_of, first_source, second_source, after_fetch, HasSources, HasRegisterNumbers};
ghost use Rattle.rrs_c.specs.Harts.{hart_in, IsFault, answer_of};
ghost use Rattle.rrs_c.specs.Asking.{request_answer, given};
ghost use Rattle.rrs_c.specs.Completing.{CompletesRetiring, logged};

use crate::access::{RrsAccess, given_by};
use crate::hart::{RrsFault, RrsHart, last_of};
use crate::{rrs_complete, rrs_request};
use rrs_lib::MemAccessSize;
use rrs_lib::instruction::{Instruction, decode};
use rrs_trace::{MemoryAccess, Retired, register_value};

/// A bit for each byte of an access, and these bytes of a value.
#[inline]
fn bytes_accessed(size: MemAccessSize, value: u32) -> (u8, u32)
    ensures mask { result.0 ≡ mask size }
    ensures bytes { result.1 ≡ value % 256 ^ width size }
{
    match size {
        MemAccessSize::Byte => (0b1, value % 256),
        MemAccessSize::HalfWord => (0b11, value % 65536),
        MemAccessSize::Word => (0b1111, value),
    }
}

/// The size of an access by its number of bytes.
#[inline]
fn size_by(bytes: u32) -> MemAccessSize
    ensures { result ≡ size_of bytes }
{
    match bytes {
        1 => MemAccessSize::Byte,
        2 => MemAccessSize::HalfWord,
        _ => MemAccessSize::Word,
    }
}

/// Whether a fault is an exception.
#[inline]
fn is_raised(fault: &RrsFault) -> bool
    ensures { result ≡ is_fault (answer_of fault.now) }
{
    matches!(fault.kind, 1..=7)
}

/// The load or the store that a record has, where this was given to what an instruction asked.
#[inline]
fn access_logged(asked: &RrsAccess, given: Option<u32>) -> MemoryAccess
    ensures { result ≡ logged (request_answer asked.now) given }
{
    let Some(value) = given else {
        return MemoryAccess::none();
    };
    if is_raised(&asked.fault) {
        return MemoryAccess::none();
    }
    let addr = asked.address;
    match asked.kind {
        1 => {
            let (rmask, rdata) = bytes_accessed(size_by(asked.size), value);
            MemoryAccess {
                addr,
                rmask,
                wmask: 0,
                rdata,
                wdata: 0,
            }
        }
        2 => {
            let (wmask, wdata) = bytes_accessed(size_by(asked.size), asked.value);
            MemoryAccess {
                addr,
                rmask: 0,
                wmask,
                rdata: 0,
                wdata,
            }
        }
        _ => MemoryAccess::none(),
    }
}

/// The source registers of an instruction, 0 where its format has none.
#[inline]
fn sources_of(instruction: &Instruction) -> (usize, usize)
    requires { HasRegisters (fields_of instruction.now) }
    ensures first { result.0 ≡ first_source (fields_of instruction.now) }
    ensures second { result.1 ≡ second_source (fields_of instruction.now) }
    ensures first_low { result.0 < 32 }
    ensures second_low { result.1 < 32 }
{
    (
        instruction.rs1().unwrap_or(0),
        instruction.rs2().unwrap_or(0),
    )
}

/// The word that is fetched, and its source registers: none at a misaligned pc.
#[inline]
fn fetched(pc: u32, word: u32) -> (Option<u32>, (usize, usize))
    ensures insn { (registers : List ℕ) (last : Option ℕ)
        → WithEachMemory (hart_of registers pc last) word (λ s. result.0 ≡ next_word s) }
    ensures sources { (registers : List ℕ) (last : Option ℕ)
        → WithEachMemory (hart_of registers pc last) word (λ s.
        HasSources (next_word s) result.1.0 result.1.1) }
    ensures first_low { result.1.0 < 32 }
    ensures second_low { result.1.1 < 32 }
{
    if !MemAccessSize::Word.is_aligned(pc) {
        return (None, (0, 0));
    }
    match decode(word) {
        Some(instruction) => (Some(word), sources_of(&instruction)),
        None => (Some(word), (0, 0)),
    }
}

/// The number of the register that was written last, or 0.
#[inline]
fn number_written(last: Option<usize>) -> usize
    requires { LastIsRegister last }
    ensures number { last ≡ last_of result }
    ensures low { result < 32 }
{
    match last {
        Some(register) => register,
        None => 0,
    }
}

/// Executes the instruction `word` with what was answered to its access, and tells what the step
/// retired.
///
/// It makes the two calls that C makes. With a second caller of the kit's `request_parts` or
/// `complete_parts` the compiler does not build these into `rrs_request` and `rrs_complete`, which
/// then take half as many machine instructions again.
pub(crate) fn complete_retired(
    hart: &mut RrsHart,
    word: u32,
    granted: u32,
    value: u32,
    order: u64,
) -> (RrsFault, Retired)
    ensures step { Completes (hart_in hart.old) (hart_in hart.new) word (given granted value)
        (answer_of result.0) }
    ensures retires { CompletesRetiring order (hart_in hart.old) (hart_in hart.new) word
        (given granted value) (answer_of result.0) result.1 }
    ensures numbers { HasRegisterNumbers result.1 }
    ensures told { IsFault result.0 }
    ensures last { hart.new.last < 32 }
    ensures entry_zero { slice_index hart.new.x 0 ≡ slice_index hart.old.x 0 }
{
    let asked = rrs_request(hart, word);
    let pc_rdata = hart.pc;
    let (insn, (rs1_addr, rs2_addr)) = fetched(pc_rdata, word);
    let rs1_rdata = register_value(&hart.x, rs1_addr);
    let rs2_rdata = register_value(&hart.x, rs2_addr);
    let fault = rrs_complete(hart, word, granted, value);
    let rd_addr = number_written(last_of(hart));
    let retired = Retired {
        order,
        insn,
        trap: is_raised(&fault),
        pc_rdata,
        pc_wdata: hart.pc,
        rs1_addr,
        rs1_rdata,
        rs2_addr,
        rs2_rdata,
        rd_addr,
        rd_wdata: register_value(&hart.x, rd_addr),
        mem: access_logged(&asked, given_by(granted, value)),
    };
    (fault, retired)
}
