//! The words that are no row of the kit: the instructions on CSRs, `mret`, `wfi` and `fence.i`,
//! those of extension A, and those of Zba to Zicond.
//!
//! [decode_system] gives the instruction of a word, [encode_system] the word of an instruction, and
//! [system_text] its text; [decode_atomic] and [encode_atomic] do so for extension A, and [decode_bits] and
//! [encode_bits] for Zba to Zicond. [laws] has
//! encoding and decoding, the one after the other. [Csr::at] is the register that the number of a
//! CSR names on a hart with a [Profile], and [csr_named] is the number of a name. What the
//! instructions are is written in `specs/SystemInstructions.antt` and
//! `specs/AtomicInstructions.antt`, the numbers in `specs/CsrNumbers.antt` and the texts in
//! `specs/SystemTexts.antt`. Executing is done above, in `rrs_machine` and `rrs_hart`.

#![tactic(auto)]

mod atomic_texts;
mod atomics;
mod bit_texts;
mod bits;
pub mod csrs;
mod encoding;
mod forms;
mod instructions;
pub mod laws;
mod layers;
mod names;
mod short_decoding;
mod short_encoding;
mod short_texts;
mod texts;

pub use atomic_texts::{atomic_named, atomic_text};
pub use atomics::{AtomicInstruction, AtomicRow, decode_atomic};
pub use bit_texts::bit_text;
pub use bits::{BitExtension, BitInstruction, BitOperand, BitRow, decode_bits};
pub use csrs::{Csr, HartProfile, Profile};
pub use encoding::{encode_atomic, encode_bits, encode_system};
pub use forms::{ShortForm, ShortInstruction, ShortOperands, expanded};
pub use instructions::{SystemInstruction, SystemRow, decode_system};
pub use layers::{LayerInstruction, decode_layer, encode_layer, layer_text};
pub use short_decoding::decode_short;
pub use short_encoding::encode_short;
pub use short_texts::short_text;
pub use texts::{LayerText, csr_name, csr_named, system_text};
