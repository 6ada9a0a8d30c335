//! An [InstructionHandler] that gives the text of each instruction, in assembly syntax, as a
//! `String`.
//!
//! The texts are those of [Disassembled], which makes them with no allocation: the module
//! `disassembly` shows one of each kind.

use crate::InstructionHandler;
use crate::disassembly::Disassembled;
use crate::instruction::Instruction;
use std::alloc::{AllocError, Global};

/// A processor whose functions return the text of each instruction.
///
/// Each `Ok` has the whole text, whatever the fields: an immediate or a shift amount that no word
/// encodes is printed as it is. Out of memory (`AllocError`) is the only error. No function
/// changes `insn_pc`, whatever it returns, so that the same instruction may be asked for
/// again; it is for the caller to set it to the address of each instruction.
///
/// `process_instruction` returns `None` for a word that is no row of the table, which has no text.
#[derive(Drop)]
pub struct InstructionStringOutputter {
    /// The address of the instruction. The targets of branches and of `jal`, and the result of
    /// `auipc`, are printed as sums with it; no other text depends on it.
    pub insn_pc: u32,
    /// Where the texts get their memory.
    pub alloc: Global,
}

impl InstructionHandler for InstructionStringOutputter {
    ghost use Rattle.rrs_lib.specs.Outputter.{Prints};

    type Answer = Result<String, AllocError>;

    ghost did = { λ row f before after answer. Prints row f before after answer };

    fn handle(&mut self, instruction: &Instruction) -> Self::Answer {
        let disassembled = Disassembled {
            instruction: *instruction,
            pc: self.insn_pc,
        };
        String::from_str(self.alloc, disassembled.text().as_str())
    }
}
