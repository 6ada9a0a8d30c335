//! The tests of the assembler, written as a user's crate would be. The words of
//! pseudo-instructions and of compressed instructions, and the bytes of sources, are those that GNU
//! `as` makes.
//!
//! Of `rrs_asm` and `rrs_asm_output`: lines and their words, the places of labels, statements and
//! mistakes, and the programs of `examples/assembly`, which are assembled, compared with their
//! words, and run. Of `rrs_asm_macros`: sources and their bytes, the lines of the source that it
//! tells, and mistakes. What `rrs_lent` tells of sources is compared with what `assemble_source`
//! makes, and collections fill its rooms.

#![tactic(auto)]

#[cfg(test)]
mod assembled;
#[cfg(test)]
mod bytes;
#[cfg(test)]
mod executables;
#[cfg(test)]
mod expansions;
#[cfg(test)]
mod lent;
#[cfg(test)]
mod lines;
#[cfg(test)]
mod macro_mistakes;
#[cfg(test)]
mod macro_places;
#[cfg(test)]
mod mistakes;
#[cfg(test)]
mod places;
#[cfg(test)]
mod programs;
#[cfg(test)]
mod room;
#[cfg(test)]
mod sections;
#[cfg(test)]
mod told;
