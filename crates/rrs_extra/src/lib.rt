//! What users of `rrs_lib` might write, by its contracts alone: a processor, a memory, and laws.
//!
//! [RowNumberer] names the row of the table that a word is: its number, 1 to [ROW_COUNT].
//! [PagedMemory] is a memory of pages, some of whose words are read-only. The functions of [laws]
//! have contracts that relate what several calls of the kit return, or say what a program does.

#![tactic(auto)]

pub mod laws;
mod paged;

ghost use Rattle.rrs_extra.specs.Numbering.{Numbers};

pub use paged::{PageError, PagedMemory};
use rrs_lib::InstructionHandler;
use rrs_lib::instruction::Instruction;

/// The number of rows of the table.
pub const ROW_COUNT: usize = rrs_lib::instruction::ROW_COUNT;

/// Returns the number of the row of an instruction, 1 to [ROW_COUNT], in the order of the table.
///
/// The fields are not looked at, and there is no state. `process_instruction` over it returns
/// `Some` of the one row's number for a word of the table, and `None` for each other word.
#[derive(Drop)]
pub struct RowNumberer;

impl InstructionHandler for RowNumberer {
    type Answer = u32;

    ghost did = { Numbers };

    fn handle(&mut self, instruction: &Instruction) -> u32 {
        instruction.number() as u32
    }
}
