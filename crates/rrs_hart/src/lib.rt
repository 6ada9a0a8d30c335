//! One hart with a profile: the kit's machine, and what the layers of the profile add to it.
//!
//! [step_hart] makes one step of a hart whose [HartProfile] says which layers it has, and
//! [run_hart] a run of them. Where no layer takes part, the step is the kit's own. `specs/Harts.antt`
//! says what a step and a run are. A hart that has the compressed instructions fetches half-words,
//! and its steps are those of `specs/Halves.antt`.
//! [fetch_in] and [execute_in] are a step in two parts, and [execute_word] and
//! [execute_encoding_told] end one whose instruction was fetched.
//! [execute_atomic] executes an instruction of extension A (`specs/Atomics.antt`), [execute_bits]
//! one of Zba to Zicond (`specs/Bits.antt`), and [access_by_bytes] a load or a store at any
//! address (`specs/Anywhere.antt`).

#![tactic(auto)]

mod atomics;
mod bits;
mod bytes;
mod halves;
mod parts;
mod profile;
mod runs;
mod step;

pub use atomics::execute_atomic;
pub use bits::{bit_result, execute_bits};
pub use bytes::{ByteAccess, access_by_bytes};
pub use halves::{Encoding, bits_of, execute_encoding_told, fetch_encoding, layer_in, row_in};
pub use parts::{execute_in, fetch_in};
pub use profile::decode_in;
pub use rrs_words::HartProfile;
pub use runs::run_hart;
pub use step::{execute_word, execute_word_told, step_hart};
