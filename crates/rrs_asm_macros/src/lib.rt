//! Macros, conditions and repetitions of assembly, as GNU `as` has them.
//!
//! [expand] makes of a source one without `.macro`, `.rept`, `.irp`, `.if` and their like, and says
//! of each line of the result which line of the source it is of. `docs/ASSEMBLY.md` has the
//! directives, and `specs/` what is proved of a result.

#![tactic(auto)]

mod arguments;
mod blocks;
mod comments;
mod conditions;
mod cursor;
mod directives;
mod errors;
mod expanding;
mod following;
mod frames;
mod keeping;
mod output;
mod performing;
mod repeating;
mod repetitions;
mod scanning;
mod substitution;
mod symbols;
mod tables;
mod values;
mod words;

pub use comments::without_block_comments;
pub use errors::{MacroError, MacroErrorKind, MacroFault};
pub use expanding::{MOST_MADE, expand};
pub use output::Expanded;
