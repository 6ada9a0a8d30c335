//! The tests of the kit, which are those of `rrs_lib` and of the two crates below it, and of small
//! crates over it: `rrs_encode`, `rrs_elf`, `rrs_fast` and `rrs_extra`. `surface` calls each public
//! name of the port.
//!
//! The processor `call_counter` and its use in `coverage` are those of `docs/PROCESSORS.md`. They
//! are written as a user's crate would be.
//!
//! They are in a crate of their own so that a check of a library proves its calls and a check of
//! this crate its tests, and in one crate, since each crate of tests costs the gate a start.
//!
//! What the tests share is in `machines`: a call that is generic over a memory, and a comparison,
//! are proved once there, and each test is a table of cases.

#![tactic(auto)]

#[cfg(test)]
mod call_counter;
#[cfg(test)]
mod changing;
#[cfg(test)]
mod coverage;
#[cfg(test)]
mod debug_texts;
#[cfg(test)]
mod edges;
#[cfg(test)]
mod elf;
#[cfg(test)]
mod encoding;
#[cfg(test)]
mod executor;
#[cfg(test)]
mod independence;
#[cfg(test)]
mod instructions;
#[cfg(test)]
mod loading;
#[cfg(test)]
mod machines;
#[cfg(test)]
mod pages;
#[cfg(test)]
mod rows;
#[cfg(test)]
mod spaces;
#[cfg(test)]
mod summing;
#[cfg(test)]
mod surface;
#[cfg(test)]
mod texts;
