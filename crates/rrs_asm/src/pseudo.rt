//! Pseudo-instructions, and the instructions that they are.

ghost use Rattle.std.specs.Prelude.{◌≡◌, ◌<◌, ◌^◌, ℕ, pos, neg_ℤ, ◌+ℤ◌, ◌≤ℤ◌, ◌∷◌, []};
ghost use Rattle.rrs_instruction.specs.Words.{word, floor_mod};
ghost use Rattle.rrs_asm.specs.Pseudo.{expanded, listed, AreHalves, lower, upper, load_immediate, of_one, branch, opposite, opposite_of_zero, opposite_of_swapped, against_zero, swapped, compared, load, store, addi, lui, auipc, jal, jalr, fence_all};

use rrs_instruction::instruction::Instruction;
use rrs_instruction::instruction_formats::{BType, IType, JType, RType, SType, UType};

/// A pseudo-instruction that writes a register from one other.
#[derive(Clone, Copy)]
pub enum Unary {
    Mv,
    Not,
    Neg,
    Seqz,
    Snez,
    Sltz,
    Sgtz,
    ZextB,
}

/// A branch of the table.
#[derive(Clone, Copy)]
pub enum Branch {
    Beq,
    Bne,
    Blt,
    Bge,
    Bltu,
    Bgeu,
}

/// A branch that compares a register with zero.
#[derive(Clone, Copy)]
pub enum ZeroBranch {
    Beqz,
    Bnez,
    Blez,
    Bgez,
    Bltz,
    Bgtz,
}

/// A branch whose two registers change places.
#[derive(Clone, Copy)]
pub enum SwappedBranch {
    Bgt,
    Ble,
    Bgtu,
    Bleu,
}

/// A comparison whose two registers change places.
#[derive(Clone, Copy)]
pub enum SwappedComparison {
    Sgt,
    Sgtu,
}

/// A load from a symbol.
#[derive(Clone, Copy)]
pub enum Load {
    Lb,
    Lbu,
    Lh,
    Lhu,
    Lw,
}

/// A store at a symbol.
#[derive(Clone, Copy)]
pub enum Store {
    Sb,
    Sh,
    Sw,
}

/// A pseudo-instruction with its operands. Registers go by their numbers, and the offset of a
/// branch or a jump is that from its own address.
#[derive(Clone, Copy)]
pub enum Pseudo {
    /// `nop`.
    Nop,
    /// `ret`.
    Ret,
    /// `fence` with no operands.
    Fence,
    /// `li rd, value`.
    Li(usize, u32),
    /// `la rd, symbol`: the offset to the symbol, as a word.
    La(usize, u32),
    /// `lla rd, symbol`, which is `la`.
    Lla(usize, u32),
    /// `lw rd, symbol`, and those like it: the offset to the symbol, as a word.
    From(Load, usize, u32),
    /// `sw rs, symbol, rt`, and those like it: the offset to the symbol, as a word.
    At(Store, usize, usize, u32),
    /// `sgt rd, rs, rt`, and the one like it.
    Compared(SwappedComparison, usize, usize, usize),
    /// `jump symbol, rt`: the offset to the symbol, as a word.
    Jump(usize, u32),
    /// `mv rd, rs`, and those like it.
    OfOne(Unary, usize, usize),
    /// `beqz rs, target`, and those like it: the offset.
    AgainstZero(ZeroBranch, usize, i32),
    /// `bgt rs, rt, target`, and those like it: the offset.
    Swapped(SwappedBranch, usize, usize, i32),
    /// `beq rs, rt, target`, and those like it, where the target is out of reach: the opposite
    /// branch over a jump, and the offset from the jump.
    Far(Branch, usize, usize, i32),
    /// `beqz rs, target`, and those like it, in the same case.
    FarFromZero(ZeroBranch, usize, i32),
    /// `bgt rs, rt, target`, and those like it, in the same case.
    FarSwapped(SwappedBranch, usize, usize, i32),
    /// `j target`: the offset.
    J(i32),
    /// `jal target`: the offset.
    Jal(i32),
    /// `jr rs`.
    Jr(usize),
    /// `jalr rs`.
    Jalr(usize),
    /// `call symbol`: the offset to the symbol, as a word.
    Call(u32),
    /// `tail symbol`: the offset to the symbol, as a word.
    Tail(u32),
}

/// The instructions that a pseudo-instruction is: one or two.
#[derive(Clone, Copy)]
pub struct Expansion {
    pub first: Instruction,
    pub second: Option<Instruction>,
}

impl Pseudo {
    /// The instructions that it is (`expanded`).
    ///
    /// A word that is loaded or reached by two instructions is cut into a multiple of 4096 and a
    /// signed rest of 12 bits, whose sum modulo 2^32 is the word again (`halves`).
    #[tactic(auto, using(crate::proofs::Halves::halves))]
    pub fn expand(&self) -> Expansion
        ensures expanded { listed result ≡ expanded self.now }
        ensures halves { (v : ℕ) → v < 2 ^ 32 → AreHalves v (upper v) (lower v) }
    {
        self.instructions()
    }

    /// The instructions that it is.
    fn instructions(&self) -> Expansion
        ensures { listed result ≡ expanded self.now }
    {
        match *self {
            Pseudo::Nop => one(addi(0, 0, 0)),
            Pseudo::Ret => one(jalr(0, 0, 1)),
            Pseudo::Fence => one(fence_all()),
            Pseudo::Li(rd, value) => load_immediate(rd, value),
            Pseudo::La(rd, offset) => load_address(rd, offset),
            Pseudo::Lla(rd, offset) => load_address(rd, offset),
            Pseudo::From(name, rd, offset) => {
                two(
                    auipc(rd, upper(offset)),
                    make_load(name, rd, rd, lower(offset)),
                )
            }
            Pseudo::At(name, rs, rt, offset) => {
                two(
                    auipc(rt, upper(offset)),
                    make_store(name, rs, rt, lower(offset)),
                )
            }
            Pseudo::Compared(name, rd, rs, rt) => one(compared(name, rd, rs, rt)),
            Pseudo::Jump(rt, offset) => jump_far(0, rt, offset),
            Pseudo::OfOne(name, rd, rs) => one(of_one(name, rd, rs)),
            Pseudo::AgainstZero(name, rs, offset) => one(against_zero(name, rs, offset)),
            Pseudo::Swapped(name, rs, rt, offset) => one(swapped(name, rs, rt, offset)),
            Pseudo::Far(name, rs, rt, offset) => {
                two(make_branch(opposite(name), rs, rt, 8), jal(0, offset))
            }
            Pseudo::FarFromZero(name, rs, offset) => {
                two(against_zero(opposite_of_zero(name), rs, 8), jal(0, offset))
            }
            Pseudo::FarSwapped(name, rs, rt, offset) => {
                two(
                    swapped(opposite_of_swapped(name), rs, rt, 8),
                    jal(0, offset),
                )
            }
            Pseudo::J(offset) => one(jal(0, offset)),
            Pseudo::Jal(offset) => one(jal(1, offset)),
            Pseudo::Jr(rs) => one(jalr(0, 0, rs)),
            Pseudo::Jalr(rs) => one(jalr(1, 0, rs)),
            Pseudo::Call(offset) => jump_far(1, 1, offset),
            Pseudo::Tail(offset) => jump_far(0, 6, offset),
        }
    }
}

/// One instruction.
fn one(first: Instruction) -> Expansion
    ensures { listed result ≡ first ∷ [] }
{
    Expansion {
        first,
        second: None,
    }
}

/// Two instructions.
fn two(first: Instruction, second: Instruction) -> Expansion
    ensures { listed result ≡ first ∷ second ∷ [] }
{
    Expansion {
        first,
        second: Some(second),
    }
}

/// The lower 12 bits of a word, sign-extended.
pub fn lower(value: u32) -> i32
    ensures { result ≡ lower value }
{
    let low = (value % 4096) as i32;
    if low < 2048 { low } else { low - 4096 }
}

/// The multiple of 4096 that is left.
pub fn upper(value: u32) -> i32
    ensures { result ≡ upper value }
{
    (value.wrapping_add(2048) / 4096 * 4096).cast_signed()
}

/// `addi` where the value is an immediate of 12 bits, and else `lui`, and `addi` if something is
/// left.
fn load_immediate(rd: usize, value: u32) -> Expansion
    ensures { listed result ≡ load_immediate rd value }
{
    if value.wrapping_add(2048) / 4096 == 0 {
        one(addi(rd, 0, lower(value)))
    } else if value % 4096 == 0 {
        one(lui(rd, upper(value)))
    } else {
        two(lui(rd, upper(value)), addi(rd, rd, lower(value)))
    }
}

/// `auipc` and `addi`: the sum of an offset and the address.
fn load_address(rd: usize, offset: u32) -> Expansion
    ensures { listed result ≡ auipc rd (upper offset) ∷ addi rd rd (lower offset) ∷ [] }
{
    two(auipc(rd, upper(offset)), addi(rd, rd, lower(offset)))
}

/// `auipc` and `jalr`: a jump to the sum of an offset and the address, by way of a register.
fn jump_far(link: usize, way: usize, offset: u32) -> Expansion
    ensures { listed result ≡ auipc way (upper offset) ∷ jalr link (lower offset) way ∷ [] }
{
    two(auipc(way, upper(offset)), jalr(link, lower(offset), way))
}

fn of_one(name: Unary, rd: usize, rs: usize) -> Instruction
    ensures { result ≡ of_one name rd rs }
{
    match name {
        Unary::Mv => addi(rd, rs, 0),
        Unary::Not => Instruction::Xori(immediate(4, rd, rs, -1)),
        Unary::Neg => Instruction::Sub(registers(0x20, 0, rd, 0, rs)),
        Unary::Seqz => Instruction::Sltiu(immediate(3, rd, rs, 1)),
        Unary::Snez => Instruction::Sltu(registers(0, 3, rd, 0, rs)),
        Unary::Sltz => Instruction::Slt(registers(0, 2, rd, rs, 0)),
        Unary::Sgtz => Instruction::Slt(registers(0, 2, rd, 0, rs)),
        Unary::ZextB => Instruction::Andi(immediate(7, rd, rs, 0xff)),
    }
}

fn compared(name: SwappedComparison, rd: usize, rs: usize, rt: usize) -> Instruction
    ensures { result ≡ compared name rd rs rt }
{
    match name {
        SwappedComparison::Sgt => Instruction::Slt(registers(0, 2, rd, rt, rs)),
        SwappedComparison::Sgtu => Instruction::Sltu(registers(0, 3, rd, rt, rs)),
    }
}

fn make_load(name: Load, rd: usize, rs: usize, imm: i32) -> Instruction
    ensures { result ≡ load name rd rs imm }
{
    match name {
        Load::Lb => Instruction::Lb(immediate(0, rd, rs, imm)),
        Load::Lbu => Instruction::Lbu(immediate(4, rd, rs, imm)),
        Load::Lh => Instruction::Lh(immediate(1, rd, rs, imm)),
        Load::Lhu => Instruction::Lhu(immediate(5, rd, rs, imm)),
        Load::Lw => Instruction::Lw(immediate(2, rd, rs, imm)),
    }
}

fn make_store(name: Store, rs2: usize, rs1: usize, imm: i32) -> Instruction
    ensures { result ≡ store name rs2 rs1 imm }
{
    match name {
        Store::Sb => Instruction::Sb(stored(0, rs1, rs2, imm)),
        Store::Sh => Instruction::Sh(stored(1, rs1, rs2, imm)),
        Store::Sw => Instruction::Sw(stored(2, rs1, rs2, imm)),
    }
}

fn stored(funct3: u32, rs1: usize, rs2: usize, imm: i32) -> SType
    ensures { result ≡ record { imm = imm; rs2 = rs2; rs1 = rs1; funct3 = funct3 } }
{
    SType {
        imm,
        rs2,
        rs1,
        funct3,
    }
}

fn make_branch(name: Branch, rs: usize, rt: usize, offset: i32) -> Instruction
    ensures { result ≡ branch name rs rt offset }
{
    match name {
        Branch::Beq => Instruction::Beq(branch_format(0, rs, rt, offset)),
        Branch::Bne => Instruction::Bne(branch_format(1, rs, rt, offset)),
        Branch::Blt => Instruction::Blt(branch_format(4, rs, rt, offset)),
        Branch::Bge => Instruction::Bge(branch_format(5, rs, rt, offset)),
        Branch::Bltu => Instruction::Bltu(branch_format(6, rs, rt, offset)),
        Branch::Bgeu => Instruction::Bgeu(branch_format(7, rs, rt, offset)),
    }
}

fn opposite(name: Branch) -> Branch
    ensures { result ≡ opposite name }
{
    match name {
        Branch::Beq => Branch::Bne,
        Branch::Bne => Branch::Beq,
        Branch::Blt => Branch::Bge,
        Branch::Bge => Branch::Blt,
        Branch::Bltu => Branch::Bgeu,
        Branch::Bgeu => Branch::Bltu,
    }
}

fn opposite_of_zero(name: ZeroBranch) -> ZeroBranch
    ensures { result ≡ opposite_of_zero name }
{
    match name {
        ZeroBranch::Beqz => ZeroBranch::Bnez,
        ZeroBranch::Bnez => ZeroBranch::Beqz,
        ZeroBranch::Blez => ZeroBranch::Bgtz,
        ZeroBranch::Bgez => ZeroBranch::Bltz,
        ZeroBranch::Bltz => ZeroBranch::Bgez,
        ZeroBranch::Bgtz => ZeroBranch::Blez,
    }
}

fn opposite_of_swapped(name: SwappedBranch) -> SwappedBranch
    ensures { result ≡ opposite_of_swapped name }
{
    match name {
        SwappedBranch::Bgt => SwappedBranch::Ble,
        SwappedBranch::Ble => SwappedBranch::Bgt,
        SwappedBranch::Bgtu => SwappedBranch::Bleu,
        SwappedBranch::Bleu => SwappedBranch::Bgtu,
    }
}

fn against_zero(name: ZeroBranch, rs: usize, offset: i32) -> Instruction
    ensures { result ≡ against_zero name rs offset }
{
    match name {
        ZeroBranch::Beqz => Instruction::Beq(branch_format(0, rs, 0, offset)),
        ZeroBranch::Bnez => Instruction::Bne(branch_format(1, rs, 0, offset)),
        ZeroBranch::Blez => Instruction::Bge(branch_format(5, 0, rs, offset)),
        ZeroBranch::Bgez => Instruction::Bge(branch_format(5, rs, 0, offset)),
        ZeroBranch::Bltz => Instruction::Blt(branch_format(4, rs, 0, offset)),
        ZeroBranch::Bgtz => Instruction::Blt(branch_format(4, 0, rs, offset)),
    }
}

fn swapped(name: SwappedBranch, rs: usize, rt: usize, offset: i32) -> Instruction
    ensures { result ≡ swapped name rs rt offset }
{
    match name {
        SwappedBranch::Bgt => Instruction::Blt(branch_format(4, rt, rs, offset)),
        SwappedBranch::Ble => Instruction::Bge(branch_format(5, rt, rs, offset)),
        SwappedBranch::Bgtu => Instruction::Bltu(branch_format(6, rt, rs, offset)),
        SwappedBranch::Bleu => Instruction::Bgeu(branch_format(7, rt, rs, offset)),
    }
}

fn registers(funct7: u32, funct3: u32, rd: usize, rs1: usize, rs2: usize) -> RType
    ensures { result ≡ record { funct7 = funct7; rs2 = rs2; rs1 = rs1; funct3 = funct3; rd = rd } }
{
    RType {
        funct7,
        rs2,
        rs1,
        funct3,
        rd,
    }
}

fn immediate(funct3: u32, rd: usize, rs1: usize, imm: i32) -> IType
    ensures { result ≡ record { imm = imm; rs1 = rs1; funct3 = funct3; rd = rd } }
{
    IType {
        imm,
        rs1,
        funct3,
        rd,
    }
}

fn branch_format(funct3: u32, rs1: usize, rs2: usize, imm: i32) -> BType
    ensures { result ≡ record { imm = imm; rs2 = rs2; rs1 = rs1; funct3 = funct3 } }
{
    BType {
        imm,
        rs2,
        rs1,
        funct3,
    }
}

fn addi(rd: usize, rs: usize, imm: i32) -> Instruction
    ensures { result ≡ addi rd rs imm }
{
    Instruction::Addi(immediate(0, rd, rs, imm))
}

fn lui(rd: usize, imm: i32) -> Instruction
    ensures { result ≡ lui rd imm }
{
    Instruction::Lui(UType { imm, rd })
}

fn auipc(rd: usize, imm: i32) -> Instruction
    ensures { result ≡ auipc rd imm }
{
    Instruction::Auipc(UType { imm, rd })
}

fn jal(rd: usize, imm: i32) -> Instruction
    ensures { result ≡ jal rd imm }
{
    Instruction::Jal(JType { imm, rd })
}

fn jalr(rd: usize, imm: i32, rs: usize) -> Instruction
    ensures { result ≡ jalr rd imm rs }
{
    Instruction::Jalr(immediate(0, rd, rs, imm))
}

fn fence_all() -> Instruction
    ensures { result ≡ fence_all }
{
    Instruction::Fence(immediate(0, 0, 0, 0xff))
}
