//! A step of the hart of a profile in two parts, the fetch and what is executed, for a caller that
//! looks at the instruction between the two.

ghost use Rattle.std.specs.Prelude.{◌≡◌, ◌++◌, ◌%◌, ◌<◌, ◌^◌, ℕ, List, Ok, Err, IfOk, IfErr, slice_index};
ghost use Rattle.rrs_lib.specs.Bytes.{EndsAtLastAddress};
ghost use Rattle.rrs_lib.specs.Machine.{state_of};
ghost use Rattle.rrs_lib.specs.Steps.{cleared};
ghost use Rattle.rrs_lib.specs.Accesses.{Access, Makes};
ghost use Rattle.rrs_hart.specs.Harts.{Hart, hart_with, word_fetched, fetched_in, word_read, fetch_reads_in, HartStep, AccessesOfHart};

use crate::halves::{Encoding, bits_of, execute_encoding_told, fetch_encoding};
use crate::step::{answer_of, execute_word};
use rrs_lib::instruction_executor::{InstructionException, fetch_word};
use rrs_lib::{HartState, Memory};
use rrs_words::HartProfile;

/// Reads the word at a pc.
fn fetch_whole<M: Memory>(mem: &mut M, pc: u32) -> Result<Encoding, InstructionException>
    ensures fetched { result ≡ word_fetched (M.bytes mem.old) pc }
    ensures bytes_kept { M.bytes mem.new ≡ M.bytes mem.old }
    ensures writable_kept { M.writable mem.new ≡ M.writable mem.old }
    ensures layout_kept { M.layout mem.new ≡ M.layout mem.old }
    ensures makes { Makes M.reads M.writes (word_read (M.bytes mem.old) pc) mem.old mem.new }
    ensures ends { pc % 4 ≡ 0 → EndsAtLastAddress (M.bytes mem.old) (M.writable mem.old) }
{
    match fetch_word(mem, pc) {
        Ok(word) => Ok(Encoding::Long(word)),
        Err(fault) => Err(fault),
    }
}

/// Reads the instruction at a pc, as the hart of a profile does: a word, or half-words where it has
/// the compressed instructions. Each byte stays.
///
/// The clauses: what is read (`fetched`) and by which reads (`makes`). Where nothing is fetched, a
/// step of each hart at this pc ends with the exception (`step`), and its accesses are those reads
/// (`alone`).
///
/// # Errors
///
/// `AlignmentFault(pc)` where the pc is no multiple of 4, or of 2 with the compressed instructions:
/// then nothing is read. `FetchError` with the address of a word or a half-word that is not mapped.
pub fn fetch_in<M: Memory>(
    mem: &mut M,
    profile: HartProfile,
    pc: u32,
) -> Result<Encoding, InstructionException>
    ensures fetched { result ≡ fetched_in profile (M.bytes mem.old) pc }
    ensures bytes_kept { M.bytes mem.new ≡ M.bytes mem.old }
    ensures writable_kept { M.writable mem.new ≡ M.writable mem.old }
    ensures layout_kept { M.layout mem.new ≡ M.layout mem.old }
    ensures makes { Makes M.reads M.writes (fetch_reads_in profile (M.bytes mem.old) pc)
        mem.old mem.new }
    ensures step { IfErr result (λ e. (s : Hart) → s.state.pc ≡ pc → s.state.bytes ≡ M.bytes mem.old
        → HartStep profile s (hart_with (cleared s.state) s.reserved) (Err e)) }
    ensures alone { IfErr result (λ e. (s : Hart) → s.state.pc ≡ pc
        → s.state.bytes ≡ M.bytes mem.old
        → AccessesOfHart profile s (fetch_reads_in profile (M.bytes mem.old) pc)) }
    ensures ends { pc % 4 ≡ 0 → EndsAtLastAddress (M.bytes mem.old) (M.writable mem.old) }
    ensures mapped { IfOk result (λ x. EndsAtLastAddress (M.bytes mem.old) (M.writable mem.old)) }
    ensures inside { pc < 2 ^ 32 }
{
    if profile.compressed {
        fetch_encoding(mem, pc)
    } else {
        fetch_whole(mem, pc)
    }
}

/// Ends a step whose instruction was fetched by [fetch_in]: executes it.
///
/// The clauses: it is the step from the state before (`step`), and behind the fetch it makes exactly
/// these accesses (`makes`).
///
/// # Errors
///
/// The answer is that of [step_hart](crate::step_hart).
pub fn execute_in<M: Memory>(
    mem: &mut M,
    hart: &mut HartState,
    reservation: &mut Option<u32>,
    profile: HartProfile,
    encoding: Encoding,
) -> Result<(), InstructionException>
    requires ends { EndsAtLastAddress (M.bytes mem.old) (M.writable mem.old) }
    requires fetched { fetched_in profile (M.bytes mem.old) hart.old.pc ≡ Ok encoding }
    ensures step { HartStep profile
        (hart_with (state_of hart.old (M.bytes mem.old) (M.writable mem.old)) reservation.old)
        (hart_with (state_of hart.new (M.bytes mem.new) (M.writable mem.new)) reservation.new)
        result }
    ensures makes { (accesses : List Access) × AccessesOfHart profile
        (hart_with (state_of hart.old (M.bytes mem.old) (M.writable mem.old)) reservation.old)
        (fetch_reads_in profile (M.bytes mem.old) hart.old.pc ++ accesses)
        × Makes M.reads M.writes accesses mem.old mem.new }
    ensures layout_kept { M.layout mem.new ≡ M.layout mem.old }
    ensures entry_zero { slice_index hart.new.registers 0 ≡ slice_index hart.old.registers 0 }
{
    if profile.compressed {
        answer_of(execute_encoding_told(mem, hart, reservation, profile, encoding))
    } else {
        execute_word(mem, hart, reservation, profile, bits_of(encoding))
    }
}
