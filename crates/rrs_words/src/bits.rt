//! The instructions of Zba, Zbb, Zbs, Zbc, Zbkb and Zicond: sums of shifted numbers, operations on
//! bits and bytes, those on one bit, products without carries, packed halves, and conditional zeros.

ghost use Rattle.std.specs.Prelude.{◌≡◌, ◌+◌, ◌<◌, ◌≤◌, ◌^◌, IfSome, IfNone, length};
ghost use Rattle.rrs_instruction.specs.declared.instruction_formats.RType.{RType as RFields};
ghost use Rattle.rrs_words.specs.BitInstructions.{IsBits, HasBits, bit_table};
ghost use Rattle.rrs_words.specs.Layers.{bit_number};

use rrs_lib::instruction_formats::RType;

/// An instruction of one of these extensions.
#[derive(Debug, PartialEq, Clone, Copy)]
pub enum BitRow {
    /// `sh1add`: rs1 by 2, and rs2.
    Sh1add,
    /// `sh2add`: rs1 by 4, and rs2.
    Sh2add,
    /// `sh3add`: rs1 by 8, and rs2.
    Sh3add,
    /// `andn`: and, with rs2 inverted.
    Andn,
    /// `orn`: or, with rs2 inverted.
    Orn,
    /// `xnor`: exclusive or, inverted.
    Xnor,
    /// `clz`: how many zeros are above the highest 1.
    Clz,
    /// `ctz`: how many zeros are below the lowest 1.
    Ctz,
    /// `cpop`: how many bits are 1.
    Cpop,
    /// `max`: the greater, as signed numbers.
    Max,
    /// `maxu`: the greater.
    Maxu,
    /// `min`: the smaller, as signed numbers.
    Min,
    /// `minu`: the smaller.
    Minu,
    /// `sext.b`: the lowest byte, extended by its sign.
    SextB,
    /// `sext.h`: the lower half-word, extended by its sign.
    SextH,
    /// `zext.h`: the lower half-word.
    ZextH,
    /// `rol`: turned to the left.
    Rol,
    /// `ror`: turned to the right.
    Ror,
    /// `rori`: turned to the right by an amount.
    Rori,
    /// `orc.b`: each byte that is not 0 becomes 0xff.
    OrcB,
    /// `rev8`: the four bytes in the other order.
    Rev8,
    /// `bclr`: one bit cleared.
    Bclr,
    /// `bclri`: the bit at an amount cleared.
    Bclri,
    /// `bext`: one bit.
    Bext,
    /// `bexti`: the bit at an amount.
    Bexti,
    /// `binv`: one bit inverted.
    Binv,
    /// `binvi`: the bit at an amount inverted.
    Binvi,
    /// `bset`: one bit set.
    Bset,
    /// `bseti`: the bit at an amount set.
    Bseti,
    /// `clmul`: the lower half of the product without carries.
    Clmul,
    /// `clmulh`: the upper half of the product without carries.
    Clmulh,
    /// `clmulr`: bits 31 to 62 of the product without carries.
    Clmulr,
    /// `pack`: the lower half-words of rs1 and, above it, of rs2, which is not x0.
    Pack,
    /// `packh`: the lowest bytes of rs1 and, above it, of rs2.
    Packh,
    /// `brev8`: the bits of each byte in the other order.
    Brev8,
    /// `zip`: the bits of both half-words in turn.
    Zip,
    /// `unzip`: the bits at even places, and above them those at odd places.
    Unzip,
    /// `czero.eqz`: rs1, or 0 where rs2 is 0.
    CzeroEqz,
    /// `czero.nez`: rs1, or 0 where rs2 is not 0.
    CzeroNez,
}

/// The extension that an instruction is of.
#[derive(Debug, PartialEq, Clone, Copy)]
pub enum BitExtension {
    /// Addresses.
    Zba,
    /// Basic bit manipulation.
    Zbb,
    /// Single bits.
    Zbs,
    /// Products without carries.
    Zbc,
    /// Bit manipulation for cryptography.
    Zbkb,
    /// Instructions that Zbb and Zbkb both have.
    ZbbZbkb,
    /// Conditional zeros.
    Zicond,
}

/// What stands in the place of rs2.
#[derive(Debug, PartialEq, Clone, Copy)]
pub enum BitOperand {
    /// The number of a register.
    Register,
    /// The number of a register but x0, with which the word is that of another row.
    NotX0,
    /// A shift amount.
    Amount,
    /// A number that tells the instruction.
    Fixed(u32),
}

/// Such an instruction with its fields. A shift amount is `rs2`.
#[derive(Debug, PartialEq, Clone, Copy)]
pub struct BitInstruction {
    /// Which instruction it is.
    pub row: BitRow,
    /// Its fields.
    pub fields: RType,
}

impl BitRow {
    /// The extension that it is of.
    pub fn extension(self) -> BitExtension
        ensures { result ≡ (bit_table self).extension }
    {
        match self {
            BitRow::Sh1add | BitRow::Sh2add | BitRow::Sh3add => BitExtension::Zba,
            BitRow::Bclr
            | BitRow::Bclri
            | BitRow::Bext
            | BitRow::Bexti
            | BitRow::Binv
            | BitRow::Binvi
            | BitRow::Bset
            | BitRow::Bseti => BitExtension::Zbs,
            BitRow::Clmul | BitRow::Clmulh | BitRow::Clmulr => BitExtension::Zbc,
            BitRow::Pack | BitRow::Packh | BitRow::Brev8 | BitRow::Zip | BitRow::Unzip =>
                BitExtension::Zbkb,
            BitRow::Andn
            | BitRow::Orn
            | BitRow::Xnor
            | BitRow::ZextH
            | BitRow::Rol
            | BitRow::Ror
            | BitRow::Rori
            | BitRow::Rev8 => BitExtension::ZbbZbkb,
            BitRow::CzeroEqz | BitRow::CzeroNez => BitExtension::Zicond,
            _ => BitExtension::Zbb,
        }
    }

    /// What stands in the place of its rs2.
    pub fn operand(self) -> BitOperand
        ensures { result ≡ (bit_table self).operand }
    {
        match self {
            BitRow::Clz | BitRow::ZextH => BitOperand::Fixed(0),
            BitRow::Ctz => BitOperand::Fixed(1),
            BitRow::Cpop => BitOperand::Fixed(2),
            BitRow::SextB => BitOperand::Fixed(4),
            BitRow::SextH => BitOperand::Fixed(5),
            BitRow::Rori | BitRow::Bclri | BitRow::Bexti | BitRow::Binvi | BitRow::Bseti =>
                BitOperand::Amount,
            BitRow::OrcB | BitRow::Brev8 => BitOperand::Fixed(7),
            BitRow::Zip | BitRow::Unzip => BitOperand::Fixed(15),
            BitRow::Pack => BitOperand::NotX0,
            BitRow::Rev8 => BitOperand::Fixed(24),
            _ => BitOperand::Register,
        }
    }

    /// Its opcode: that of the instructions on two registers, or that of those on an immediate.
    pub(crate) fn opcode(self) -> u32
        ensures opcode { result ≡ (bit_table self).opcode }
        ensures low { result < 2 ^ 7 }
    {
        match self.operand() {
            BitOperand::Register | BitOperand::NotX0 => 0x33,
            _ => { if self == BitRow::ZextH { 0x33 } else { 0x13 } }
        }
    }

    /// Its number, 69 to 107: those of these rows follow those of [AtomicRow].
    ///
    /// [AtomicRow]: crate::AtomicRow
    pub fn number(self) -> u32
        ensures { result ≡ bit_number self }
    {
        match self {
            BitRow::Sh1add => 69,
            BitRow::Sh2add => 70,
            BitRow::Sh3add => 71,
            BitRow::Andn => 72,
            BitRow::Orn => 73,
            BitRow::Xnor => 74,
            BitRow::Clz => 75,
            BitRow::Ctz => 76,
            BitRow::Cpop => 77,
            BitRow::Max => 78,
            BitRow::Maxu => 79,
            BitRow::Min => 80,
            BitRow::Minu => 81,
            BitRow::SextB => 82,
            BitRow::SextH => 83,
            BitRow::ZextH => 84,
            BitRow::Rol => 85,
            BitRow::Ror => 86,
            BitRow::Rori => 87,
            BitRow::OrcB => 88,
            BitRow::Rev8 => 89,
            BitRow::Bclr => 90,
            BitRow::Bclri => 91,
            BitRow::Bext => 92,
            BitRow::Bexti => 93,
            BitRow::Binv => 94,
            BitRow::Binvi => 95,
            BitRow::Bset => 96,
            BitRow::Bseti => 97,
            BitRow::Clmul => 98,
            BitRow::Clmulh => 99,
            BitRow::Clmulr => 100,
            BitRow::Pack => 101,
            BitRow::Packh => 102,
            BitRow::Brev8 => 103,
            BitRow::Zip => 104,
            BitRow::Unzip => 105,
            BitRow::CzeroEqz => 106,
            BitRow::CzeroNez => 107,
        }
    }

    /// Its name.
    pub fn name(self) -> &'static str
        ensures name { result.now ≡ (bit_table self).name }
        ensures length { length result.now ≤ 9 }
    {
        match self {
            BitRow::Sh1add => "sh1add",
            BitRow::Sh2add => "sh2add",
            BitRow::Sh3add => "sh3add",
            BitRow::Andn => "andn",
            BitRow::Orn => "orn",
            BitRow::Xnor => "xnor",
            BitRow::Clz => "clz",
            BitRow::Ctz => "ctz",
            BitRow::Cpop => "cpop",
            BitRow::Max => "max",
            BitRow::Maxu => "maxu",
            BitRow::Min => "min",
            BitRow::Minu => "minu",
            BitRow::SextB => "sext.b",
            BitRow::SextH => "sext.h",
            BitRow::ZextH => "zext.h",
            BitRow::Rol => "rol",
            BitRow::Ror => "ror",
            BitRow::Rori => "rori",
            BitRow::OrcB => "orc.b",
            BitRow::Rev8 => "rev8",
            BitRow::Bclr => "bclr",
            BitRow::Bclri => "bclri",
            BitRow::Bext => "bext",
            BitRow::Bexti => "bexti",
            BitRow::Binv => "binv",
            BitRow::Binvi => "binvi",
            BitRow::Bset => "bset",
            BitRow::Bseti => "bseti",
            BitRow::Clmul => "clmul",
            BitRow::Clmulh => "clmulh",
            BitRow::Clmulr => "clmulr",
            BitRow::Pack => "pack",
            BitRow::Packh => "packh",
            BitRow::Brev8 => "brev8",
            BitRow::Zip => "zip",
            BitRow::Unzip => "unzip",
            BitRow::CzeroEqz => "czero.eqz",
            BitRow::CzeroNez => "czero.nez",
        }
    }
}

/// The row of the opcode of two registers that has these fields.
fn row_on_registers(fields: &RType) -> Option<BitRow>
    ensures some { IfSome result (λ row. ((bit_table row).opcode ≡ 0x33) × HasBits row fields.now) }
    ensures none { IfNone result ((row : BitRow) → (bit_table row).opcode ≡ 0x33
        → ¬ HasBits row fields.now) }
{
    match (fields.funct7, fields.funct3, fields.rs2) {
        (0x10, 2, _) => Some(BitRow::Sh1add),
        (0x10, 4, _) => Some(BitRow::Sh2add),
        (0x10, 6, _) => Some(BitRow::Sh3add),
        (0x20, 7, _) => Some(BitRow::Andn),
        (0x20, 6, _) => Some(BitRow::Orn),
        (0x20, 4, _) => Some(BitRow::Xnor),
        (0x05, 6, _) => Some(BitRow::Max),
        (0x05, 7, _) => Some(BitRow::Maxu),
        (0x05, 4, _) => Some(BitRow::Min),
        (0x05, 5, _) => Some(BitRow::Minu),
        (0x04, 4, 0) => Some(BitRow::ZextH),
        (0x04, 4, _) => Some(BitRow::Pack),
        (0x04, 7, _) => Some(BitRow::Packh),
        (0x05, 1, _) => Some(BitRow::Clmul),
        (0x05, 3, _) => Some(BitRow::Clmulh),
        (0x05, 2, _) => Some(BitRow::Clmulr),
        (0x07, 5, _) => Some(BitRow::CzeroEqz),
        (0x07, 7, _) => Some(BitRow::CzeroNez),
        (0x30, 1, _) => Some(BitRow::Rol),
        (0x30, 5, _) => Some(BitRow::Ror),
        (0x24, 1, _) => Some(BitRow::Bclr),
        (0x24, 5, _) => Some(BitRow::Bext),
        (0x34, 1, _) => Some(BitRow::Binv),
        (0x14, 1, _) => Some(BitRow::Bset),
        _ => None,
    }
}

/// The row of the opcode of an immediate that has these fields.
fn row_on_immediate(fields: &RType) -> Option<BitRow>
    ensures some { IfSome result (λ row. ((bit_table row).opcode ≡ 0x13) × HasBits row fields.now) }
    ensures none { IfNone result ((row : BitRow) → (bit_table row).opcode ≡ 0x13
        → ¬ HasBits row fields.now) }
{
    match (fields.funct7, fields.funct3, fields.rs2) {
        (0x30, 1, 0) => Some(BitRow::Clz),
        (0x30, 1, 1) => Some(BitRow::Ctz),
        (0x30, 1, 2) => Some(BitRow::Cpop),
        (0x30, 1, 4) => Some(BitRow::SextB),
        (0x30, 1, 5) => Some(BitRow::SextH),
        (0x30, 5, _) => Some(BitRow::Rori),
        (0x14, 5, 7) => Some(BitRow::OrcB),
        (0x34, 5, 24) => Some(BitRow::Rev8),
        (0x34, 5, 7) => Some(BitRow::Brev8),
        (0x04, 1, 15) => Some(BitRow::Zip),
        (0x04, 5, 15) => Some(BitRow::Unzip),
        (0x24, 1, _) => Some(BitRow::Bclri),
        (0x24, 5, _) => Some(BitRow::Bexti),
        (0x34, 1, _) => Some(BitRow::Binvi),
        (0x14, 1, _) => Some(BitRow::Bseti),
        _ => None,
    }
}

/// The instruction of Zba to Zicond that a word is, or `None`.
///
/// The clauses: the word is the instruction that is returned (`decoded`), and no other (`only`); at
/// `None` it is none (`outside`).
pub fn decode_bits(word: u32) -> Option<BitInstruction>
    ensures decoded { IfSome result (λ x. IsBits word x.row x.fields) }
    ensures only { IfSome result (λ x. (row : BitRow) (f : RFields)
        → IsBits word row f → (row ≡ x.row) × (f ≡ x.fields)) }
    ensures outside { IfNone result ((row : BitRow) (f : RFields) → ¬ IsBits word row f) }
{
    let fields = RType::new(word);
    let row = match word % 0x80 {
        0x33 => row_on_registers(&fields)?,
        0x13 => row_on_immediate(&fields)?,
        _ => return None,
    };
    Some(BitInstruction { row, fields })
}
