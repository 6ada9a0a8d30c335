//! The same steps over memories of different kinds.

ghost use Rattle.std.specs.Prelude.{◌≡◌, ◌∷◌, [], IfOk, vec_len, replicate, false};
ghost use Rattle.rrs_extra.specs.Pages.{page};

use rrs_extra::PagedMemory;
use rrs_extra::laws::{agree_each, same_bytes};
use rrs_lib::instruction_executor::{InstructionException, InstructionExecutor};
use rrs_lib::memories::{MemorySpace, VecMemory};
use rrs_lib::{HartState, MemAccessSize, Memory};
use std::alloc::{AllocError, Global};
use std::process::Abort;
use std::test::Fail;
use tests_shared::{end_at, faulted, hart_of, run_over};

/// A memory of page 0 alone.
fn one_page(alloc: Global, words: Vec<u32>, read_only: Vec<bool>) -> Result<PagedMemory, AllocError>
    requires words_long { vec_len words ≡ 1024 }
    requires marks_long { vec_len read_only ≡ 1024 }
    ensures { IfOk result (λ pages. pages ≡ page 0 words.items read_only.items ∷ []) }
{
    let mut pages = PagedMemory::new(alloc);
    match pages.add_page(0, words, read_only) {
        Ok(()) => Ok(pages),
        Err(_) => Err(AllocError),
    }
}

/// A program that loads the word at 8, stores it at 12, and loads that again twice.
const PROGRAM: [u32; 4] = [0x0080_2083, 0x0010_2623, 0x00c0_2103, 0];

/// lui x2, 0x1234b000; lui x3, 0xf387e000; add x1, x2, x3
const THREE_WORDS: [u32; 3] = [0x1234_b137, 0xf387_e1b7, 0x0031_00b3];

/// What four steps from address 0 answer.
type FourAnswers = [Result<(), InstructionException>; 4];

/// Four steps from address 0 over each of two memories with the same bytes and writable addresses.
fn four_steps<A: Memory, B: Memory>(first: &mut A, second: &mut B) -> (FourAnswers, FourAnswers)
    requires bytes { A.bytes first.old ≡ B.bytes second.old }
    requires writable { A.writable first.old ≡ B.writable second.old }
{
    let mut first_hart = HartState::new();
    let mut second_hart = HartState::new();
    let mut first_machine = InstructionExecutor {
        mem: first,
        hart_state: &mut first_hart,
    };
    let mut second_machine = InstructionExecutor {
        mem: second,
        hart_state: &mut second_hart,
    };
    let mut first_answers = [Ok(()); 4];
    let mut second_answers = [Ok(()); 4];
    agree_each(
        &mut first_machine,
        &mut second_machine,
        &mut first_answers,
        &mut second_answers,
    );
    (first_answers, second_answers)
}

/// Asserts that three steps were `Ok` on both machines, and the fourth answered this.
fn same_answers(
    rt: &impl Abort,
    seen: &(FourAnswers, FourAnswers),
    last: Result<(), InstructionException>,
) {
    let expected = [Ok(()), Ok(()), Ok(()), last];
    assert!(rt; seen.0 == expected && seen.1 == expected);
}

#[test]
fn a_page_and_its_words_answer_alike(rt: HostRuntime) -> Result<(), Fail> {
    let alloc = rt.alloc();
    let mut words = [0; 1024];
    words[..3].copy_from_slice(&THREE_WORDS);
    let unmarked = Vec::from_slice(alloc, &[false; 1024])?;
    let mut pages = one_page(alloc, words.to_vec(alloc)?, unmarked)?;
    let mut memory = VecMemory::new(words.to_vec(alloc)?);
    same_bytes(&pages, &memory, 1);
    let answers = four_steps(&mut pages, &mut memory);
    let illegal = Err(InstructionException::IllegalInstruction(0xc, 0));
    same_answers(&rt, &answers, illegal);
    Ok(())
}

/// A space of one region, at address 0.
fn space_around<M: Memory + Drop>(
    alloc: Global,
    size: u32,
    memory: M,
) -> Result<MemorySpace<M>, AllocError>
    ensures { IfOk result (λ space.
        space.regions ≡ record { base = 0; size = size; memory = memory } ∷ []) }
{
    let mut space = MemorySpace::new(alloc);
    match space.add_memory(0, size, memory) {
        Ok(_) => Ok(space),
        Err(_) => Err(AllocError),
    }
}

#[test]
fn a_space_in_a_space_answers_as_its_words(rt: HostRuntime) -> Result<(), Fail> {
    let alloc = rt.alloc();
    let words = VecMemory::new(Vec::from_slice(alloc, &PROGRAM)?);
    let inner = space_around(alloc, 16, words)?;
    let mut space = space_around(alloc, 16, inner)?;
    let mut memory = VecMemory::new(Vec::from_slice(alloc, &PROGRAM)?);
    let answers = four_steps(&mut space, &mut memory);
    same_answers(&rt, &answers, Ok(()));
    Ok(())
}

// A store to a word that is read-only, sw x0, 4(x0): over a memory of the same words it is made.
// The exception comes again.
#[test]
fn what_is_writable_tells_memories_apart(rt: HostRuntime) -> Result<(), Fail> {
    let alloc = rt.alloc();
    let mut words = [0; 1024];
    words[0] = 0x0000_2223;
    words[1] = 5;
    let mut marks = [false; 1024];
    marks[1] = true;
    let mut pages = one_page(alloc, words.to_vec(alloc)?, marks.to_vec(alloc)?)?;
    let mut memory = VecMemory::new(words.to_vec(alloc)?);
    let ends = [
        run_over(&mut pages, &mut hart_of(0, &[]), 10),
        run_over(&mut pages, &mut hart_of(0, &[]), 10),
        run_over(&mut memory, &mut hart_of(0, &[]), 10),
    ];
    let refused = || faulted(0, InstructionException::StoreAccessFault(4));
    let read = pages.read_mem(4, MemAccessSize::Word);
    assert!(rt; ends == [refused(), refused(), end_at(1, 4)] && read == Some(5));
    Ok(())
}
