//! The tests of `rrs_cli` and of `rrs_commands`, which call what they offer to every crate.
//!
//! They are in a crate of their own, so that a check of those proves their calls and a check of
//! this crate the tests.

#![tactic(auto)]

#[cfg(test)]
mod account;
#[cfg(test)]
mod machine;
#[cfg(test)]
mod mending;
#[cfg(test)]
mod programs;
#[cfg(test)]
mod progress;
#[cfg(test)]
mod requests;
#[cfg(test)]
mod starts;
#[cfg(test)]
mod writers;

/// lui x2, 0x1234b / lui x3, 0xf387e / add x1, x2, x3, as bytes, lowest first.
#[cfg(test)]
const THREE_WORDS: &[u8] = b"\x37\xb1\x34\x12\xb7\xe1\x87\xf3\xb3\x00\x31\x00";
