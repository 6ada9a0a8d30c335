//! The instructions of the layers, all in one: what a reader of words or of texts asks.

ghost use Rattle.std.specs.Prelude.{◌≡◌, ◌↔◌, ℕ, Some, IfSome, IfNone};
ghost use Rattle.rrs_words.specs.declared.layers.LayerInstruction.{LayerInstruction as Layer};
ghost use Rattle.rrs_words.specs.Layers.{IsOfLayer, layer_text};

use crate::atomic_texts::atomic_text;
use crate::atomics::{AtomicInstruction, decode_atomic};
use crate::bit_texts::bit_text;
use crate::bits::{BitInstruction, decode_bits};
use crate::encoding::{encode_atomic, encode_bits, encode_system};
use crate::instructions::{SystemInstruction, decode_system};
use crate::texts::{LayerText, system_text};

/// An instruction that is no row of the kit.
#[derive(Debug, PartialEq, Clone, Copy)]
pub enum LayerInstruction {
    /// One on a CSR, `mret`, `wfi` or `fence.i`.
    System(SystemInstruction),
    /// One of extension A.
    Atomic(AtomicInstruction),
    /// One of Zba to Zicond.
    Bits(BitInstruction),
}

/// The instruction of a layer that a word is, or `None`.
///
/// The clauses: the word is the instruction that is returned (`decoded`), and no other (`only`); at
/// `None` it is none (`outside`).
///
/// # Examples
///
/// ```
/// let fields = IType { imm: 0x302, rs1: 0, funct3: 0, rd: 0 };
/// let back = SystemInstruction { row: SystemRow::Mret, fields };
/// assert_eq!(rt; decode_layer(0x3020_0073), Some(LayerInstruction::System(back)));
/// ```
pub fn decode_layer(word: u32) -> Option<LayerInstruction>
    ensures decoded { IfSome result (IsOfLayer word) }
    ensures only { IfSome result (λ x. (i : Layer) → IsOfLayer word i → i ≡ x) }
    ensures outside { IfNone result ((i : Layer) → ¬ IsOfLayer word i) }
{
    if let Some(system) = decode_system(word) {
        return Some(LayerInstruction::System(system));
    }
    if let Some(atomic) = decode_atomic(word) {
        return Some(LayerInstruction::Atomic(atomic));
    }
    if let Some(bits) = decode_bits(word) {
        return Some(LayerInstruction::Bits(bits));
    }
    None
}

/// The word that the instruction of a layer is, or `None` where no word is.
pub fn encode_layer(instruction: &LayerInstruction) -> Option<u32>
    ensures { (w : ℕ) → (result ≡ Some w) ↔ IsOfLayer w instruction.now }
{
    match instruction {
        LayerInstruction::System(system) => encode_system(system),
        LayerInstruction::Atomic(atomic) => encode_atomic(atomic),
        LayerInstruction::Bits(bits) => encode_bits(bits),
    }
}

/// The text of an instruction of a layer, whatever its fields.
pub fn layer_text(instruction: &LayerInstruction) -> LayerText
    ensures { result.bytes ≡ layer_text instruction.now }
{
    match instruction {
        LayerInstruction::System(system) => system_text(system),
        LayerInstruction::Atomic(atomic) => atomic_text(atomic),
        LayerInstruction::Bits(bits) => bit_text(bits),
    }
}
