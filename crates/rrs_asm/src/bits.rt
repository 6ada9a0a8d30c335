//! Reading the instructions of Zba to Zicond.

ghost use Rattle.std.specs.Prelude.{◌≡◌, IfSome};
ghost use Rattle.rrs_words.specs.BitInstructions.{bit_table};
ghost use Rattle.rrs_asm.specs.Names.{IsNamed};

use crate::statements::Statement;
use rrs_asm_lines::Line;
use rrs_instruction::instruction_formats::RType;
use rrs_words::{BitInstruction, BitOperand, LayerInstruction, decode_bits};

/// The words of the instructions, of x0 alone where they can be, and the amount 0.
const WORDS: &[u32] = &[
    // docs/check --write writes them
    0x2000_2033, // sh1add
    0x2000_4033, // sh2add
    0x2000_6033, // sh3add
    0x4000_7033, // andn
    0x4000_6033, // orn
    0x4000_4033, // xnor
    0x6000_1013, // clz
    0x6010_1013, // ctz
    0x6020_1013, // cpop
    0x0a00_6033, // max
    0x0a00_7033, // maxu
    0x0a00_4033, // min
    0x0a00_5033, // minu
    0x6040_1013, // sext.b
    0x6050_1013, // sext.h
    0x0800_4033, // zext.h
    0x6000_1033, // rol
    0x6000_5033, // ror
    0x6000_5013, // rori
    0x2870_5013, // orc.b
    0x6980_5013, // rev8
    0x4800_1033, // bclr
    0x4800_1013, // bclri
    0x4800_5033, // bext
    0x4800_5013, // bexti
    0x6800_1033, // binv
    0x6800_1013, // binvi
    0x2800_1033, // bset
    0x2800_1013, // bseti
    0x0a00_1033, // clmul
    0x0a00_3033, // clmulh
    0x0a00_2033, // clmulr
    0x0810_4033, // pack
    0x0800_7033, // packh
    0x6870_5013, // brev8
    0x08f0_1013, // zip
    0x08f0_5013, // unzip
    0x0e00_5033, // czero.eqz
    0x0e00_7033, // czero.nez
];

/// The instruction of a name, with x0 alone and the amount 0.
pub fn bits_named(name: &[u8]) -> Option<BitInstruction>
    ensures { IfSome result (λ i. (bit_table i.row).name ≡ name.now) }
{
    bits_in(WORDS, name)
}

/// The instruction of a name, of those that words are.
fn bits_in(words: &[u32], name: &[u8]) -> Option<BitInstruction>
    ensures { IfSome result (λ i. (bit_table i.row).name ≡ name.now) }
{
    for word in words {
        if let Some(instruction) = decode_bits(*word) {
            if instruction.row.name().as_bytes() == name {
                return Some(instruction);
            }
        }
    }
    None
}

/// Reads the operands of such an instruction: `rd, rs1, rs2`, `rd, rs1, amount`, or `rd, rs1`.
pub fn read_bits(line: &mut Line, template: BitInstruction) -> Statement
    ensures { IsNamed (bit_table template.row).name result }
{
    let row = template.row;
    let rd = line.register();
    line.comma();
    let rs1 = line.register();
    let rs2 = match row.operand() {
        BitOperand::Register | BitOperand::NotX0 => {
            line.comma();
            line.register()
        }
        BitOperand::Amount => {
            line.comma();
            line.below(32, 0) as usize
        }
        BitOperand::Fixed(_) => template.fields.rs2,
    };
    let fields = RType {
        rd,
        rs1,
        rs2,
        ..template.fields
    };
    Statement::Layer(LayerInstruction::Bits(BitInstruction { row, fields }))
}
