//! An assembler for what people write: a file of assembly in, its bytes out.
//!
//! [assemble_source] reads a source of RV32I with multiply and divide, extension A, Zba to Zicond,
//! the instructions on CSRs and the compressed ones, with the names of the ABI, numbers, labels,
//! pseudo-instructions and directives. `docs/ASSEMBLY.md` has the syntax.
//!
//! A source is read three times: for how long its sections are, for what its symbols stand for, and
//! for its statements, each of which is placed after the one before. One with `%pcrel_hi` is read
//! once more before the last time, for how far each of these reaches. What stands in a line is read
//! by the crate `rrs_asm_lines`, whose `specs/Lines.antt` says which lines a source has, and which
//! parts. What is made is a list of labels, a list of placed statements, and their bytes: see
//! [Assembled]. Which labels and statements a source has is written in `specs/Source.antt`, what
//! the name and the bytes of a statement are in `specs/Names.antt` and `specs/Statements.antt`, and
//! which instructions a pseudo-instruction is in `specs/Pseudo.antt`.

#![tactic(auto)]

mod assembling;
mod atomic;
mod bits;
mod directives;
mod errors;
mod instructions;
mod names;
mod output;
mod program;
mod pseudo;
mod sections;
mod short;
mod statements;
mod system;

pub use assembling::assemble_source;
pub use errors::{SourceError, SourceFault};
pub use output::{Assembled, Label, MOST_BYTES, Placed};
pub use program::{Program, image};
pub use pseudo::{
    Branch, Expansion, Load, Pseudo, Store, SwappedBranch, SwappedComparison, Unary, ZeroBranch,
};
pub use rrs_asm_lines::SourceErrorKind;
pub use sections::{Layout, Section, SectionKind};
pub use statements::Statement;
