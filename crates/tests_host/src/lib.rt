//! The tests of what stands around a machine, written as a user's crate would be: of `rrs_fast` and
//! `rrs_linux`, which serve the calls of a program, of the stack that `rrs_exec` gives one, of
//! `rrs_trace`, of `rrs_history`, and of the proved programs of `rrs_programs`.
//!
//! `calls`, `console`, `tracing` and `back` have examples of `docs/HOSTS.md`, `devices` two of
//! `docs/MEMORIES.md`, which also speaks of `ports` and `greeting`, and `count_down` is the program
//! that `docs/PROGRAMS.md` proves step by step.

#![tactic(auto)]

#[cfg(test)]
mod back;
#[cfg(test)]
mod calls;
#[cfg(test)]
mod console;
#[cfg(test)]
mod count_down;
#[cfg(test)]
mod devices;
#[cfg(test)]
mod greeting;
#[cfg(test)]
mod independence;
#[cfg(test)]
mod machines;
#[cfg(test)]
mod names_and_numbers;
#[cfg(test)]
mod ports;
#[cfg(test)]
mod printing;
#[cfg(test)]
mod programs;
#[cfg(test)]
mod served_programs;
#[cfg(test)]
mod stack;
#[cfg(test)]
mod stopping;
#[cfg(test)]
mod system_calls;
#[cfg(test)]
mod tracing;
