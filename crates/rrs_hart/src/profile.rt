//! Which layers a hart has, and the words of these.

ghost use Rattle.std.specs.Prelude.{◌≡◌, IfSome, IfNone};
ghost use Rattle.rrs_words.specs.declared.layers.LayerInstruction.{LayerInstruction as Layer};
ghost use Rattle.rrs_hart.specs.Harts.{has_system, has_bits, has_layer, IsOfProfile};

use rrs_words::{BitExtension, HartProfile, LayerInstruction, SystemRow, decode_layer};

/// Whether a hart has an instruction that `rrs_words` has in a table of its own.
fn has_system(profile: HartProfile, row: SystemRow) -> bool
    ensures { result ≡ has_system profile row }
{
    match row {
        SystemRow::FenceI => profile.fence_i,
        _ => false,
    }
}

/// Whether a hart has an extension of Zba to Zicond.
fn has_bits(profile: HartProfile, extension: BitExtension) -> bool
    ensures { result ≡ has_bits profile extension }
{
    match extension {
        BitExtension::Zba => profile.zba,
        BitExtension::Zbb => profile.zbb,
        BitExtension::Zbs => profile.zbs,
        BitExtension::Zbc => profile.zbc,
        BitExtension::Zbkb => profile.zbkb,
        BitExtension::ZbbZbkb => profile.zbb || profile.zbkb,
        BitExtension::Zicond => profile.zicond,
    }
}

/// Whether a hart has the instruction of a layer.
fn has_layer(profile: HartProfile, instruction: &LayerInstruction) -> bool
    ensures { result ≡ has_layer profile instruction.now }
{
    match instruction {
        LayerInstruction::System(system) => has_system(profile, system.row),
        LayerInstruction::Atomic(_) => profile.atomics,
        LayerInstruction::Bits(bits) => has_bits(profile, bits.row.extension()),
    }
}

/// The instruction of a layer of the profile that a word is, or `None`.
///
/// Instructions on CSRs, `mret` and `wfi` are of no profile: machine mode has them.
///
/// The clauses: the word is the instruction that is returned (`decoded`), and no other of the profile
/// (`only`); at `None` it is none of the profile (`outside`).
pub fn decode_in(profile: HartProfile, word: u32) -> Option<LayerInstruction>
    ensures decoded { IfSome result (IsOfProfile profile word) }
    ensures only { IfSome result (λ x. (i : Layer) → IsOfProfile profile word i → i ≡ x) }
    ensures outside { IfNone result ((i : Layer) → ¬ IsOfProfile profile word i) }
{
    match decode_layer(word) {
        Some(instruction) => {
            if has_layer(profile, &instruction) {
                Some(instruction)
            } else {
                None
            }
        }
        None => None,
    }
}
