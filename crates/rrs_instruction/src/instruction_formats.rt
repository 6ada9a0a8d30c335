//! Constants and structs for the instruction formats.
//!
//! The structs are the formats of the RISC-V unprivileged specification (RV32I, "Base Instruction
//! Formats" and "Immediate Encoding Variants"). Bit 0 is a word's lowest bit. The opcode is in
//! bits 6 to 0 and is no field: `new` ignores it, and takes any word apart, whether or not its
//! opcode belongs to the format. It gives the one tuple of fields, in their ranges, that encodes
//! the word with the word's own opcode.
//!
//! A register number is between 0 and 31. An immediate is a number in two's complement, whose top
//! bit is always bit 31 of the word. An offset is in bytes.

ghost use Rattle.std.specs.Prelude.{◌≡◌, ◌+◌, ◌-◌, ◌/◌, ◌%◌, ◌^◌, ◌<◌, ◌≤◌, ℤ, pos, neg_ℤ, ◌≤ℤ◌, ◌<ℤ◌};
ghost use Rattle.rrs_instruction.specs.Words.{floor_mod};
ghost use Rattle.rrs_instruction.specs.Encodings.{R, I, IShamt, S, B, U, J, encode, IsInRange};

/// Opcode of the loads: `lb`, `lh`, `lw`, `lbu` and `lhu`, of the I format.
pub const OPCODE_LOAD: u32 = 0x03;

/// Opcode of `fence`, of the I format.
pub const OPCODE_MISC_MEM: u32 = 0x0f;

/// Opcode of the operations on a register and an immediate, of the I format. The shifts among them,
/// `slli`, `srli` and `srai`, are read as [ITypeShamt].
pub const OPCODE_OP_IMM: u32 = 0x13;

/// Opcode of `auipc`, of the U format.
pub const OPCODE_AUIPC: u32 = 0x17;

/// Opcode of the stores: `sb`, `sh` and `sw`, of the S format.
pub const OPCODE_STORE: u32 = 0x23;

/// Opcode of the operations on two registers, of the R format. Those of the M extension are among
/// them, with funct7 1.
pub const OPCODE_OP: u32 = 0x33;

/// Opcode of `lui`, of the U format.
pub const OPCODE_LUI: u32 = 0x37;

/// Opcode of the branches, of the B format.
pub const OPCODE_BRANCH: u32 = 0x63;

/// Opcode of `jalr`, of the I format.
pub const OPCODE_JALR: u32 = 0x67;

/// Opcode of `jal`, of the J format.
pub const OPCODE_JAL: u32 = 0x6f;

/// Opcode of `ecall`, `ebreak` and the instructions on control and status registers. Of these words
/// the crate decodes those of `ecall` and `ebreak` alone, of the I format.
pub const OPCODE_SYSTEM: u32 = 0x73;

// The opcodes of the listings.
const _: () = prove!(OPCODE_LOAD == 0x03 && OPCODE_MISC_MEM == 0x0f && OPCODE_OP_IMM == 0x13);

const _: () = prove!(OPCODE_AUIPC == 0x17 && OPCODE_STORE == 0x23 && OPCODE_OP == 0x33);

const _: () = prove!(OPCODE_LUI == 0x37 && OPCODE_BRANCH == 0x63 && OPCODE_JALR == 0x67);

const _: () = prove!(OPCODE_JAL == 0x6f && OPCODE_SYSTEM == 0x73);

/// `count` bits of a word, from bit `low` on.
#[inline]
#[tactic(auto, using(crate::proofs::Masks::and_low_ones))]
fn bits(insn: u32, low: u32, count: u32) -> u32
    requires inside { low + count ≤ 32 }
    requires some { 0 < count }
    ensures { result ≡ insn / 2 ^ low % 2 ^ count }
{
    (insn >> low) & (u32::MAX >> (32 - count))
}

/// The number that `value`, of `width` bits, is in two's complement: the one between
/// `-2^(width - 1)` and `2^(width - 1) - 1` whose low bits are `value`.
#[inline]
fn sign_extended(value: u32, width: u32) -> i32
    requires narrow { (0 < width) × (width ≤ 32) }
    requires fits { value < 2 ^ width }
    ensures from_least { neg_ℤ (pos (2 ^ (width - 1))) ≤ℤ result }
    ensures to_greatest { result <ℤ pos (2 ^ (width - 1)) }
    ensures low_bits { floor_mod result (2 ^ width) ≡ value }
{
    let above = 32 - width;
    (value << above).cast_signed() >> above
}

/// The R format: operations on two registers.
#[derive(Debug, PartialEq, Clone, Copy)]
pub struct RType {
    /// Bits 31 to 25, below 128: which of the instructions with this opcode and funct3 it is.
    pub funct7: u32,
    /// Bits 24 to 20: the second register that is read.
    pub rs2: usize,
    /// Bits 19 to 15: the first register that is read.
    pub rs1: usize,
    /// Bits 14 to 12, below 8: which of the instructions with this opcode it is.
    pub funct3: u32,
    /// Bits 11 to 7: the register that is written.
    pub rd: usize,
}

impl RType {
    /// The fields of `insn`, whatever its opcode.
    pub fn new(insn: u32) -> RType
        ensures in_range { IsInRange (R result) }
        ensures encodes { insn ≡ encode (insn % 2 ^ 7) (R result) }
        ensures only { (f : RType) → IsInRange (R f)
            → insn ≡ encode (insn % 2 ^ 7) (R f) → f ≡ result }
    {
        RType {
            funct7: bits(insn, 25, 7),
            rs2: bits(insn, 20, 5) as usize,
            rs1: bits(insn, 15, 5) as usize,
            funct3: bits(insn, 12, 3),
            rd: bits(insn, 7, 5) as usize,
        }
    }
}

/// The I format: operations on a register and an immediate, loads, `jalr`, `fence`, `ecall` and
/// `ebreak`.
#[derive(Debug, PartialEq, Clone, Copy)]
pub struct IType {
    /// Bits 31 to 20 are the immediate's bits 11 to 0: it is between -2048 and 2047.
    pub imm: i32,
    /// Bits 19 to 15: the register that is read.
    pub rs1: usize,
    /// Bits 14 to 12, below 8: which of the instructions with this opcode it is.
    pub funct3: u32,
    /// Bits 11 to 7: the register that is written.
    pub rd: usize,
}

impl IType {
    /// The fields of `insn`, whatever its opcode.
    pub fn new(insn: u32) -> IType
        ensures in_range { IsInRange (I result) }
        ensures encodes { insn ≡ encode (insn % 2 ^ 7) (I result) }
        ensures only { (f : IType) → IsInRange (I f)
            → insn ≡ encode (insn % 2 ^ 7) (I f) → f ≡ result }
    {
        IType {
            imm: sign_extended(bits(insn, 20, 12), 12),
            rs1: bits(insn, 15, 5) as usize,
            funct3: bits(insn, 12, 3),
            rd: bits(insn, 7, 5) as usize,
        }
    }
}

/// The variant of the I format whose immediate is a funct7 and a shift amount: `slli`, `srli` and
/// `srai`.
#[derive(Debug, PartialEq, Clone, Copy)]
pub struct ITypeShamt {
    /// Bits 31 to 25, below 128: which of the instructions with this opcode and funct3 it is.
    pub funct7: u32,
    /// Bits 24 to 20, below 32: how many bits the value of `rs1` is shifted by.
    pub shamt: u32,
    /// Bits 19 to 15: the register that is read.
    pub rs1: usize,
    /// Bits 14 to 12, below 8: which of the instructions with this opcode it is.
    pub funct3: u32,
    /// Bits 11 to 7: the register that is written.
    pub rd: usize,
}

impl ITypeShamt {
    /// The fields of `insn`, whatever its opcode.
    pub fn new(insn: u32) -> ITypeShamt
        ensures in_range { IsInRange (IShamt result) }
        ensures encodes { insn ≡ encode (insn % 2 ^ 7) (IShamt result) }
        ensures only { (f : ITypeShamt) → IsInRange (IShamt f)
            → insn ≡ encode (insn % 2 ^ 7) (IShamt f) → f ≡ result }
    {
        ITypeShamt {
            funct7: bits(insn, 25, 7),
            shamt: bits(insn, 20, 5),
            rs1: bits(insn, 15, 5) as usize,
            funct3: bits(insn, 12, 3),
            rd: bits(insn, 7, 5) as usize,
        }
    }
}

/// The S format: stores.
#[derive(Debug, PartialEq, Clone, Copy)]
pub struct SType {
    /// Bits 31 to 25 are the immediate's bits 11 to 5, and bits 11 to 7 its bits 4 to 0: it is
    /// between -2048 and 2047. The address is the value of `rs1` plus this.
    pub imm: i32,
    /// Bits 24 to 20: the second register that is read.
    pub rs2: usize,
    /// Bits 19 to 15: the first register that is read.
    pub rs1: usize,
    /// Bits 14 to 12, below 8: which of the instructions with this opcode it is.
    pub funct3: u32,
}

impl SType {
    /// The fields of `insn`, whatever its opcode.
    pub fn new(insn: u32) -> SType
        ensures in_range { IsInRange (S result) }
        ensures encodes { insn ≡ encode (insn % 2 ^ 7) (S result) }
        ensures only { (f : SType) → IsInRange (S f)
            → insn ≡ encode (insn % 2 ^ 7) (S f) → f ≡ result }
    {
        SType {
            imm: sign_extended((bits(insn, 25, 7) << 5) + bits(insn, 7, 5), 12),
            rs2: bits(insn, 20, 5) as usize,
            rs1: bits(insn, 15, 5) as usize,
            funct3: bits(insn, 12, 3),
        }
    }
}

/// The B format: branches.
#[derive(Debug, PartialEq, Clone, Copy)]
pub struct BType {
    /// Bit 31 is the immediate's bit 12, bit 7 its bit 11, bits 30 to 25 its bits 10 to 5, and bits
    /// 11 to 8 its bits 4 to 1. Bit 0 is 0: it is an even number between -4096 and 4094, the offset
    /// from the branch to its target.
    pub imm: i32,
    /// Bits 24 to 20: the second register that is read.
    pub rs2: usize,
    /// Bits 19 to 15: the first register that is read.
    pub rs1: usize,
    /// Bits 14 to 12, below 8: which of the instructions with this opcode it is.
    pub funct3: u32,
}

impl BType {
    /// The fields of `insn`, whatever its opcode.
    pub fn new(insn: u32) -> BType
        ensures in_range { IsInRange (B result) }
        ensures encodes { insn ≡ encode (insn % 2 ^ 7) (B result) }
        ensures only { (f : BType) → IsInRange (B f)
            → insn ≡ encode (insn % 2 ^ 7) (B f) → f ≡ result }
    {
        BType {
            imm: sign_extended(
                (bits(insn, 31, 1) << 12)
                    + (bits(insn, 7, 1) << 11)
                    + (bits(insn, 25, 6) << 5)
                    + (bits(insn, 8, 4) << 1),
                13,
            ),
            rs2: bits(insn, 20, 5) as usize,
            rs1: bits(insn, 15, 5) as usize,
            funct3: bits(insn, 12, 3),
        }
    }
}

/// The U format: `lui` and `auipc`.
#[derive(Debug, PartialEq, Clone, Copy)]
pub struct UType {
    /// Bits 31 to 12 are the immediate's bits 31 to 12, and its lower bits are 0: it is a multiple
    /// of 4096 between -2147483648 and 2147479552.
    pub imm: i32,
    /// Bits 11 to 7: the register that is written.
    pub rd: usize,
}

impl UType {
    /// The fields of `insn`, whatever its opcode.
    pub fn new(insn: u32) -> UType
        ensures in_range { IsInRange (U result) }
        ensures encodes { insn ≡ encode (insn % 2 ^ 7) (U result) }
        ensures only { (f : UType) → IsInRange (U f)
            → insn ≡ encode (insn % 2 ^ 7) (U f) → f ≡ result }
    {
        UType {
            imm: (bits(insn, 12, 20) << 12).cast_signed(),
            rd: bits(insn, 7, 5) as usize,
        }
    }
}

/// The J format: `jal`.
#[derive(Debug, PartialEq, Clone, Copy)]
pub struct JType {
    /// Bit 31 is the immediate's bit 20, bits 19 to 12 its bits 19 to 12, bit 20 its bit 11, and
    /// bits 30 to 21 its bits 10 to 1. Bit 0 is 0: it is an even number between -1048576 and
    /// 1048574, the offset from the jump to its target.
    pub imm: i32,
    /// Bits 11 to 7: the register that is written.
    pub rd: usize,
}

impl JType {
    /// The fields of `insn`, whatever its opcode.
    pub fn new(insn: u32) -> JType
        ensures in_range { IsInRange (J result) }
        ensures encodes { insn ≡ encode (insn % 2 ^ 7) (J result) }
        ensures only { (f : JType) → IsInRange (J f)
            → insn ≡ encode (insn % 2 ^ 7) (J f) → f ≡ result }
    {
        JType {
            imm: sign_extended(
                (bits(insn, 31, 1) << 20)
                    + (bits(insn, 12, 8) << 12)
                    + (bits(insn, 20, 1) << 11)
                    + (bits(insn, 21, 10) << 1),
                21,
            ),
            rd: bits(insn, 7, 5) as usize,
        }
    }
}
