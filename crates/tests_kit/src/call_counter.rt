//! A processor that counts, as a user might write it: how often each row was called.

ghost use Rattle.std.specs.Prelude.{◌≡◌, ℕ, ◌+◌, ◌-◌, ◌^◌, ◌≤◌, min, slice_index, replicate};
ghost use Rattle.std.specs.Bool.{OnTrue, OnFalse};
ghost use Rattle.rrs_lib.specs.Table.{IsRowAnd, IsIllegal, IsOneRowAtMost};
ghost use Rattle.tests_kit.specs.Counting.{CountsOnce};
ghost use Rattle.rrs_extra.specs.declared.TheConstants.{ROW_COUNT};

use rrs_extra::ROW_COUNT;
use rrs_lib::instruction::Instruction;
use rrs_lib::{InstructionHandler, process_instruction};

/// How often each row was called. A count that is `u64::MAX` stays there.
pub(crate) struct CallCounter {
    /// The counts of the rows 1 to `ROW_COUNT`, in their order.
    pub(crate) counts: [u64; ROW_COUNT],
}

impl CallCounter {
    /// A counter that has counted nothing.
    pub(crate) fn new() -> Self
        ensures { result.counts ≡ replicate ROW_COUNT 0 }
    {
        CallCounter {
            counts: [0; ROW_COUNT],
        }
    }

    /// Counts one call of the row with this number.
    fn count(&mut self, number: usize)
        requires first { 1 ≤ number }
        requires last { number ≤ ROW_COUNT }
        ensures counted { slice_index self.new.counts (number - 1)
            ≡ min (slice_index self.old.counts (number - 1) + 1) (2 ^ 64 - 1) }
        ensures others { (other : ℕ) → 1 ≤ other → ¬ (other ≡ number)
            → slice_index self.new.counts (other - 1) ≡ slice_index self.old.counts (other - 1) }
    {
        self.counts[number - 1] = self.counts[number - 1].saturating_add(1);
    }
}

impl Drop for CallCounter {
    fn drop(self) {
        let CallCounter { counts: _ } = self;
    }
}

impl InstructionHandler for CallCounter {
    type Answer = ();

    ghost did = { λ row f old new answer. CountsOnce row old.counts new.counts };

    fn handle(&mut self, instruction: &Instruction) {
        self.count(instruction.number())
    }
}

/// Counts the row of a word, and returns whether the word is one.
pub(crate) fn count_word(counter: &mut CallCounter, word: u32) -> bool
    ensures counted { OnTrue result (IsRowAnd word
        (λ row f. CountsOnce row counter.old.counts counter.new.counts)) }
    ensures outside { OnFalse result (IsIllegal word) }
    ensures unchanged { OnFalse result (counter.new ≡ counter.old) }
    ensures unique { IsOneRowAtMost word }
{
    process_instruction(counter, word).is_some()
}
