//! The program `rrs`: the table of its subcommands, what the words of its command line make of
//! them, and how it ends.
//!
//! `subcommands` has the table, `program` does what the words ask for, and `ending` turns how that
//! ended into a status and a line on standard error. `assembly` is `rrs as`: what its words ask
//! for, and what it makes of a source.

#![tactic(auto)]

pub mod assembly;
mod assembly_files;
mod call_names;
pub mod ending;
mod faults;
mod mistakes;
pub mod program;
pub mod subcommands;
