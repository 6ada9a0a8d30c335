//! What runs the bytes of a file, after the programs that do so: the words of their command line,
//! the load, the run with its account, what can go wrong, and how a program ends.

#![tactic(auto)]

pub mod command;
pub mod fault;
pub mod limits;
pub mod loading;
pub mod programs;
pub mod report;
pub mod requests;
pub mod simulation;
pub mod streams;
