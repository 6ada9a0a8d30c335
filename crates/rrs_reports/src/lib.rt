//! What is written about executables: the disassembly of one, as `objdump -d` lays it out, the
//! commit log of a run, as Spike writes it, and what a run covered.
//!
//! [Code] is the code of an executable, with its functions and the names of its addresses.
//! [trace_process] makes a run and writes a line for each instruction, which
//! `specs/CommitLogs.antt` defines. [cover_process] makes a run and counts its steps, as
//! `specs/Coverages.antt` says. [trace_board] and [cover_board] do so of a board at a terminal,
//! whose log `specs/BoardLogs.antt` defines.

#![tactic(auto)]

mod board_log;
mod board_profile;
mod callgrind;
mod calls;
mod code;
mod commit_log;
mod coverage;
mod disassembly;
mod functions;
mod names;
mod pieces;
mod profile;
mod sections;
mod summary;

pub use board_log::{BoardTraceError, trace_board};
pub use board_profile::{BoardCoverError, cover_board};
pub use callgrind::write_callgrind;
pub use calls::{Call, Calls};
pub use code::Code;
pub use commit_log::{
    CodeRange, CommitLine, CommitLog, LogWindow, StepRange, TraceError, commit_line,
    committed_word, trace_process,
};
pub use coverage::Coverage;
pub use disassembly::{write_annotated, write_disassembly};
pub use functions::Function;
pub use names::{SHOWN_BYTES, ShownName};
pub use pieces::Pieces;
pub use profile::{Profile, cover_process};
pub use sections::CodePart;
pub use summary::{Covered, write_summary};
