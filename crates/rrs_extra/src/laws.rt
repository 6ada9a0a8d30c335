//! Laws over several calls of the kit, and a theorem about a program, as calls.
//!
//! No proof looks at how a call of `rrs_lib` is written: they use its contracts, its definitions,
//! and lemmas over these.

mod independence;
mod summing;
mod texts;

pub use independence::{agree_each, same_bytes};
pub use summing::sum_loop;
pub use texts::both_texts;
