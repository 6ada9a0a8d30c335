//! The tests of machine mode and of gdb, written as a user's crate would be.
//!
//! Of `rrs_words`, `rrs_hart` and `rrs_machine`: each CSR by each of the six instructions, each trap,
//! interrupts, runs, generated programs beside a model, and the words, half-words and texts of the
//! instructions. The answers are those of the RISC-V privileged specification, and words are as GNU
//! `as` makes them. Of `rrs_gdb` and `rrs_board_gdb`: packets and their answers.

#![tactic(auto)]

#[cfg(test)]
mod atomics;
#[cfg(test)]
mod boards;
#[cfg(test)]
mod compressed;
#[cfg(test)]
mod csrs;
#[cfg(test)]
mod generated;
#[cfg(test)]
mod half_words;
#[cfg(test)]
mod harts;
#[cfg(test)]
mod packets;
#[cfg(test)]
mod records;
#[cfg(test)]
mod steps;
#[cfg(test)]
mod traps;
#[cfg(test)]
mod words;
