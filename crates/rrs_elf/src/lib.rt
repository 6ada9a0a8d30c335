//! Executables in the ELF format, read and loaded.
//!
//! [Executable::parse] takes the bytes of a file, and accepts it exactly where it is an executable
//! that this machine can run: 32 bits, lowest byte first, for RISC-V without compressed code and
//! without a floating-point ABI, linked to fixed addresses. A file that it refuses gets the first
//! refusal of a list, [ElfError]. [Executable] then answers from these bytes: its entry, its
//! segments, and its symbol table. [Executable::load] writes the segments into a memory, at their
//! virtual addresses, or, after [Executable::parse_at], at their physical ones. A machine with
//! compressed instructions has [Executable::parse_in], which accepts code of both kinds.
//!
//! ```text
//! let program = Executable::parse(&file)?;         // a `&[u8]`, and an `ElfError`
//! for index in 0..program.program_header_count() {
//!     if let Some(segment) = program.segment(index) { .. } // its addresses, sizes, and rights
//! }
//! program.load(&mut memory)?;                      // any `Memory`, and a `Refused` with its address
//! hart.pc = program.entry();
//! ```
//!
//! Nothing allocates, and each call is total: where a file says nonsense that nothing needs, it is
//! not looked at.
//!
//! What an executable is, is written in `specs/Executables.antt`, and in which order a file is
//! checked in `specs/Refusals.antt`.

#![tactic(auto)]

mod accepting;
mod code_units;
mod errors;
mod loading;
mod locations;
mod numbers;
mod program_headers;
mod sections;
mod segments;
mod symbol_table;

pub use accepting::{Executable, has_compressed_code};
pub use code_units::CodeUnit;
pub use errors::ElfError;
pub use loading::Refused;
pub use locations::Location;
pub use program_headers::{Addresses, ProgramHeader};
pub use symbol_table::{Symbol, Symbols};
