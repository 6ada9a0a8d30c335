//! Proved programs over any memory, the port they print to, and two programs proved over Linux's
//! calls.
//!
//! The words are what a C compiler makes, and each call makes one run. Over an
//! [OutputRecorder](rrs_linux::OutputRecorder), whose calls follow from the environment and the
//! machine, the clauses of a program that makes calls say exactly what it writes and how it ends;
//! over the streams of a host, what stays true whatever they do. `docs/PROGRAMS.md` has the C
//! sources, and says how such a proof is made.

#![tactic(auto)]

mod computing;
mod echoing;
mod independence;
mod print_port;
mod printing;
mod writing;

pub use computing::{copy_words, gcd};
pub use echoing::echo;
pub use independence::same_run;
pub use print_port::{PrintPort, RamOrPort};
pub use printing::{print_string, put_string};
pub use writing::{write_and_exit, write_and_exit_over};
