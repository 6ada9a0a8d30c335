//! The row numberer, the laws, and what `rrs-run` calls.

ghost use Rattle.std.specs.Prelude.{◌≡◌, length};
ghost use Rattle.rrs_lib.specs.Executor.{state_in};
ghost use Rattle.rrs_extra.specs.Agreement.{Agree, AreOpenPages, words_of};
ghost use Rattle.rrs_extra.specs.Programs.{SumLoopStarts};

use crate::texts::text_or_no_row;
use rrs_cli::fault::RunFault;
use rrs_cli::limits::limit_of;
use rrs_cli::simulation::simulate;
use rrs_extra::laws::{agree_each, both_texts, same_bytes, sum_loop};
use rrs_extra::{PagedMemory, RowNumberer};
use rrs_lib::instruction_executor::{InstructionException, InstructionExecutor, RunEnd};
use rrs_lib::memories::VecMemory;
use rrs_lib::{Memory, process_instruction};
use std::alloc::{AllocError, Global};
use std::io::{Read, Write};
use std::test::Fail;

#[test]
fn a_word_is_numbered(rt: HostRuntime) {
    let number: Option<u32> = process_instruction(&mut RowNumberer, 0x00100073);
    assert!(rt; number == Some(48));
}

/// The law of two machines, with its types.
fn agreeing<A: Memory, B: Memory>(
    first: &mut InstructionExecutor<'_, A>,
    second: &mut InstructionExecutor<'_, B>,
    first_answers: &mut [Result<(), InstructionException>],
    second_answers: &mut [Result<(), InstructionException>],
)
    requires same_length { length first_answers.old ≡ length second_answers.old }
    requires agree { Agree (state_in A.bytes A.writable first.old)
        (state_in B.bytes B.writable second.old) }
{
    agree_each(first, second, first_answers, second_answers)
}

/// The law of pages and words, with its types.
fn being_same(pages: &PagedMemory, words: &VecMemory, k: u32)
    requires pages { AreOpenPages k pages.now }
    requires words { words.now.mem.items ≡ words_of pages.now }
{
    same_bytes(pages, words, k)
}

/// A program that is proved, with its types.
fn adding_up<M: Memory>(executor: &mut InstructionExecutor<'_, M>) -> RunEnd
    requires { SumLoopStarts (state_in M.bytes M.writable executor.old) }
{
    sum_loop(executor)
}

#[test]
fn texts_are_compared(rt: HostRuntime) -> Result<(), Fail> {
    let (first, second): (
        Option<Result<String, AllocError>>,
        Option<Result<String, AllocError>>,
    ) = both_texts(rt.alloc(), 0, 0x0ff0000f, 0x00009067);
    let text: String = text_or_no_row(rt.alloc(), first)?;
    assert!(rt; text.as_str() == "fence" && second.is_none());
    Ok(())
}

#[test]
fn limits_are_read(rt: HostRuntime) {
    let limits: [Option<u64>; 2] = [limit_of("10"), limit_of("-1")];
    assert!(rt; limits == [Some(10), None]);
}

/// The number of an error, and its address.
fn kind_of(fault: &RunFault) -> (u32, u32) {
    match fault {
        RunFault::OutOfMemory => (1, 0),
        RunFault::Reader => (2, 0),
        RunFault::Refused(address) => (3, *address),
        RunFault::Output => (4, 0),
    }
}

#[test]
fn faults_of_a_run_are_printed(rt: HostRuntime) -> Result<(), Fail> {
    let fault = RunFault::Refused(0x10000);
    let text = format!(in rt.alloc(); "{fault}")?;
    let is_told = text.as_str() == "Could not write byte at address 0x00010000";
    assert!(rt; is_told && kind_of(&fault) == (3, 0x10000));
    Ok(())
}

/// The run of a reader's bytes, with its types.
fn simulated<R: Read, W: Write>(
    alloc: Global,
    reader: &mut R,
    limit: u64,
    out: &mut W,
) -> Result<(), RunFault> {
    simulate::<R, W>(alloc, reader, limit, out)
}

// lui x2, 0x1234b000; lui x3, 0xf387e000; add x1, x2, x3, and a word of zeros after them.
#[test]
fn a_file_is_simulated(rt: HostRuntime) -> Result<(), Fail> {
    let mut reader: &[u8] = b"\x37\xb1\x34\x12\xb7\xe1\x87\xf3\xb3\x00\x31\x00";
    let mut out: Vec<u8> = Vec::new(rt.alloc());
    let answer: Result<(), RunFault> = simulated(rt.alloc(), &mut reader, 10, &mut out);
    let beginning: &[u8] = b"0x00000000: lui x2, 0x1234b000
0x00000004: lui x3, 0xf387e000
0x00000008: add x1, x2, x3
end: IllegalInstruction pc=0x0000000c word=0x00000000, steps 3
x0 0x00000000
x1 0x05bc9000
x2 0x1234b000
x3 0xf387e000
";
    let ends = out.as_slice().ends_with(b"\npc 0x0000000c\n");
    assert!(rt; answer.is_ok() && out.as_slice().starts_with(beginning) && ends);
    Ok(())
}
