//! What an assembler reads in a line of a source.
//!
//! [first_line] and [first_part] cut a source into lines, and a line into labels and statements.
//! [Line] reads the operands of a statement: registers, numbers, symbols and values with operators,
//! which [Waiting] puts together.
//! [Symbols] has what the symbols of a source stand for, and [Scope] is how a line sees them. What
//! is made of all this is the work of the crate `rrs_asm`.
//!
//! Which lines a source has, which parts a line has, and which word a part begins with is written
//! in `specs/Lines.antt`. What the operands are is not proved.

#![tactic(auto)]

mod errors;
mod expressions;
mod lexing;
mod literals;
mod reading;
mod registers;
mod symbols;

pub use errors::{Halt, LineError, SourceErrorKind};
pub use expressions::{LOOSEST, Operator, Waiting, operator_before, operator_between};
pub use lexing::{
    Part, begins_with, behind_blanks, first_line, first_part, is_blank, is_in_word, is_name,
    place_among, split_word,
};
pub use literals::{escaped, number_of};
pub use reading::{Line, Notes, Site};
pub use registers::register_number;
pub use symbols::{Found, Known, Pass, Scope, Symbols};
