//! What all subcommands of `rrs` share, and those that run something or say what an executable has.
//!
//! Shared are the words that they are asked with (`words`, `architectures`, `options`, `variables`, `requests`), the
//! files that they read (`files`) and write (`outputs`), which of these are one (`places`), and why
//! they refuse what they are asked (`refusal`). The subcommands here are runs of files, with and
//! without a line for each instruction, programs that make system calls of Linux, with a report of
//! the run or none, firmware on a board, and the listing and the disassembly of an executable.

#![tactic(auto)]

pub mod architectures;
pub mod boards;
pub mod covering;
pub mod debugger;
pub mod disassembling;
pub mod elf_listing;
pub mod executables;
pub mod execution;
pub mod files;
pub mod options;
pub mod outputs;
pub mod places;
pub mod progress_line;
pub mod quiet;
pub mod refusal;
pub mod requests;
pub mod tracing;
pub mod variables;
pub mod words;
