//! Questions about RISC-V instructions, one a line, and their answers, so that answers obtained
//! elsewhere can be replayed as data.
//!
//! | Question | Answer |
//! |---|---|
//! | `decode WORD` | the number and the name of the word's row, as `11 addi`, or `none` |
//! | `text PC WORD` | the text of the word at this address, or `none` |
//! | `steps N pc=PC last=LAST regs=REGS mem=MEM` | what N steps return, and what they leave |
//!
//! A line of another form is answered by `error: ` and what is wrong with it. `docs/RUNNING.md` has
//! the form of each part, and of each answer. The program `rrs_replay` answers standard input.

#![tactic(auto)]

mod answers;
mod lines;
mod numerals;
mod parsing;
mod questions;
mod writing;

pub use answers::write_answer;
pub use lines::{ReplayFault, answer_all, answer_lines};
pub use parsing::question_of;
pub use questions::{MOST_STEPS, ParseError, ParseErrorKind, Question, Register, Steps};
