//! A step depends on the bytes of its memory and on which addresses are writable, and on nothing
//! else of it: over two memories that agree in these, the same steps have the same answers.

ghost use Rattle.std.specs.Prelude.{◌≡◌, ◌≤◌, length};
ghost use Rattle.rrs_lib.specs.Accesses.{AccessesOfRun, MakesExactly};
ghost use Rattle.rrs_lib.specs.Executor.{state_in, KeepsTheRest};
ghost use Rattle.rrs_lib.specs.Steps.{Run};
ghost use Rattle.rrs_lib.specs.VecBytes.{vec_bytes, vec_writable};
ghost use Rattle.rrs_extra.specs.Agreement.{Agree, AreOpenPages, words_of};
ghost use Rattle.rrs_extra.specs.Pages.{paged_bytes, paged_writable};

use crate::PagedMemory;
use rrs_lib::Memory;
use rrs_lib::instruction_executor::{InstructionException, InstructionExecutor};
use rrs_lib::memories::VecMemory;

/// Makes as many steps on each of two machines that agree, and puts the answers into the slices.
///
/// The answers are equal, exceptions among them, and the machines agree again. After at least one
/// step their last written registers are equal too. Each memory goes from what it was to what it is
/// by exactly the accesses of its machine's steps.
pub fn agree_each<A: Memory, B: Memory>(
    first: &mut InstructionExecutor<A>,
    second: &mut InstructionExecutor<B>,
    first_answers: &mut [Result<(), InstructionException>],
    second_answers: &mut [Result<(), InstructionException>],
)
    requires same_length { length first_answers.old ≡ length second_answers.old }
    requires agree { Agree (state_in A.bytes A.writable first.old)
        (state_in B.bytes B.writable second.old) }
    ensures first_run { Run (state_in A.bytes A.writable first.old) first_answers.new
        (state_in A.bytes A.writable first.new) }
    ensures second_run { Run (state_in B.bytes B.writable second.old) second_answers.new
        (state_in B.bytes B.writable second.new) }
    ensures same_answers { first_answers.new ≡ second_answers.new }
    ensures agree_after { Agree (state_in A.bytes A.writable first.new)
        (state_in B.bytes B.writable second.new) }
    ensures same_last { 1 ≤ length first_answers.old
        → first.new.hart_state.now.last_register_write
        ≡ second.new.hart_state.now.last_register_write }
    ensures first_rest { KeepsTheRest A.layout first.old first.new }
    ensures second_rest { KeepsTheRest B.layout second.old second.new }
    ensures first_accesses { MakesExactly A.reads A.writes
        (AccessesOfRun (state_in A.bytes A.writable first.old) first_answers.new)
        first.old.mem.now first.new.mem.now }
    ensures second_accesses { MakesExactly B.reads B.writes
        (AccessesOfRun (state_in B.bytes B.writable second.old) second_answers.new)
        second.old.mem.now second.new.mem.now }
{
    first.step_each(first_answers);
    second.step_each(second_answers);
}

/// A memory of the pages 0 to `k - 1`, none of whose words is read-only, and one of the same words
/// in page order have the same bytes and writable addresses, as [agree_each] asks of two machines.
///
/// It does nothing: its contract is what it is for. There are 2^20 pages at most, and with `k` 0
/// both memories are empty.
pub fn same_bytes(pages: &PagedMemory, words: &VecMemory, k: u32)
    requires pages { AreOpenPages k pages.now }
    requires words { words.now.mem.items ≡ words_of pages.now }
    ensures bytes { paged_bytes pages.now ≡ vec_bytes words.now }
    ensures writable { paged_writable pages.now ≡ vec_writable words.now }
{
    let _ = pages.page_count();
}
