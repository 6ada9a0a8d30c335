//! What is written of a program that was assembled, beside its bytes.
//!
//! [executable_of] gives an ELF executable with the program's labels as its symbols, and
//! [listing_of] the source with the address and the word of each line. [gnu_text] gives bytes as a
//! source that GNU `as` takes. [mistakes_of] tells of the mistakes of a source what is wanted and
//! what was probably meant.

#![tactic(auto)]

mod accepting;
mod entries;
mod executable;
mod files;
mod forms;
mod gnu;
mod hints;
mod listing;
mod mistakes;
mod units;
mod words;

pub use entries::entry_of;
pub use executable::{ExecutableError, executable_of};
pub use gnu::gnu_text;
pub use listing::listing_of;
pub use mistakes::{MOST_MISTAKES, Mistake, mistakes_of, number_of};
pub use words::are_alike;
