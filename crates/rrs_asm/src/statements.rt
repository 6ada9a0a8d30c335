//! Statements: what stands at an address.

ghost use Rattle.std.specs.Prelude.{◌≡◌, ◌<◌, ℕ, List, length};
ghost use Rattle.rrs_asm.specs.Statements.{AreBytes, is_short};

use crate::pseudo::Pseudo;
use rrs_instruction::instruction::Instruction;
use rrs_words::{LayerInstruction, ShortInstruction};

/// What a statement of a source puts at its address.
#[derive(Clone, Copy)]
pub enum Statement {
    /// An instruction of the table.
    Instruction(Instruction),
    /// An instruction of a layer, which is no row of the kit.
    Layer(LayerInstruction),
    /// A compressed instruction.
    Short(ShortInstruction),
    /// One or two instructions.
    Pseudo(Pseudo),
    /// So many bytes of data.
    Data(usize),
    /// So many of one byte.
    Fill(u32, u8),
    /// `unimp`: the word 0xc0001073, which is no instruction of the table.
    Unimp,
}

impl Statement {
    /// How many bytes it takes: as many as it is laid out as.
    pub fn size(&self) -> usize
        ensures { (own : List ℕ) → AreBytes self.now own → result ≡ length own }
    {
        match self {
            Statement::Instruction(_) | Statement::Layer(_) | Statement::Unimp => 4,
            Statement::Short(_) => 2,
            Statement::Pseudo(pseudo) => match pseudo.expand().second {
                None => 4,
                Some(_) => 8,
            },
            Statement::Data(count) => *count,
            Statement::Fill(count, _) => *count as usize,
        }
    }

    /// Whether it is a compressed instruction.
    pub fn is_short(&self) -> bool
        ensures { result ≡ is_short self.now }
    {
        matches!(self, Statement::Short(_))
    }

    /// What its address has to be a multiple of, where instructions lie at multiples of `unit`.
    pub fn alignment(&self, unit: u32) -> u32
        requires { 0 < unit }
        ensures { 0 < result }
    {
        match self {
            Statement::Data(_) | Statement::Fill(_, _) => 1,
            _ => unit,
        }
    }

    /// Whether all its bytes are zero, where its data are given.
    pub fn is_zero(&self, data: &[u8]) -> bool {
        match self {
            Statement::Fill(_, byte) => *byte == 0,
            Statement::Data(_) => are_zero(data),
            _ => false,
        }
    }
}

/// Whether all these bytes are zero.
fn are_zero(bytes: &[u8]) -> bool {
    for byte in bytes {
        if *byte != 0 {
            return false;
        }
    }
    true
}
