//! The tests of `rrs_elf`: a file for each refusal, files that are just accepted, compressed code,
//! what a load leaves in memory, the names of symbols, and the functions at addresses.

mod accepted;
mod file;
mod refused;
