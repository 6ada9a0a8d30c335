//! The instructions of extension A on words: `lr.w`, `sc.w` and the nine AMOs.

ghost use Rattle.std.specs.Prelude.{◌≡◌, ◌≢◌, ◌+◌, ◌<◌, ◌≤◌, ◌^◌, ◌/◌, ◌*◌, IfSome, IfNone, length};
ghost use Rattle.rrs_instruction.specs.declared.instruction_formats.RType.{RType as RFields};
ghost use Rattle.rrs_words.specs.AtomicInstructions.{IsAtomic, atomic_table};
ghost use Rattle.rrs_words.specs.Layers.{atomic_number};

use rrs_lib::instruction_formats::RType;

/// An instruction of extension A on words.
#[derive(Debug, PartialEq, Clone, Copy)]
pub enum AtomicRow {
    /// `lr.w`: a load that reserves its address.
    LrW,
    /// `sc.w`: a store where the address is reserved.
    ScW,
    /// `amoswap.w`: the operand is stored.
    AmoSwap,
    /// `amoadd.w`: the sum is stored.
    AmoAdd,
    /// `amoxor.w`: the exclusive or of each two bits.
    AmoXor,
    /// `amoand.w`: the and of each two bits.
    AmoAnd,
    /// `amoor.w`: the or of each two bits.
    AmoOr,
    /// `amomin.w`: the smaller, as signed numbers.
    AmoMin,
    /// `amomax.w`: the greater, as signed numbers.
    AmoMax,
    /// `amominu.w`: the smaller.
    AmoMinu,
    /// `amomaxu.w`: the greater.
    AmoMaxu,
}

/// Such an instruction with its fields.
///
/// `rs1` is the register of the address and `rs2` that of the operand, 0 in `lr.w`. Bit 1 of funct7
/// is aq and bit 0 is rl: the order to other harts, of which there are none here.
#[derive(Debug, PartialEq, Clone, Copy)]
pub struct AtomicInstruction {
    /// Which instruction it is.
    pub row: AtomicRow,
    /// Its fields.
    pub fields: RType,
}

impl AtomicRow {
    /// What bits 31 to 27 of its words are.
    pub fn funct5(self) -> u32
        ensures { result ≡ (atomic_table self).funct5 }
    {
        match self {
            AtomicRow::AmoAdd => 0,
            AtomicRow::AmoSwap => 1,
            AtomicRow::LrW => 2,
            AtomicRow::ScW => 3,
            AtomicRow::AmoXor => 4,
            AtomicRow::AmoOr => 8,
            AtomicRow::AmoAnd => 12,
            AtomicRow::AmoMin => 16,
            AtomicRow::AmoMax => 20,
            AtomicRow::AmoMinu => 24,
            AtomicRow::AmoMaxu => 28,
        }
    }

    /// Its number, 58 to 68: those of extension A follow the 57 of the kit and of [SystemRow].
    ///
    /// [SystemRow]: crate::SystemRow
    pub fn number(self) -> u32
        ensures { result ≡ atomic_number self }
    {
        match self {
            AtomicRow::LrW => 58,
            AtomicRow::ScW => 59,
            AtomicRow::AmoSwap => 60,
            AtomicRow::AmoAdd => 61,
            AtomicRow::AmoXor => 62,
            AtomicRow::AmoAnd => 63,
            AtomicRow::AmoOr => 64,
            AtomicRow::AmoMin => 65,
            AtomicRow::AmoMax => 66,
            AtomicRow::AmoMinu => 67,
            AtomicRow::AmoMaxu => 68,
        }
    }

    /// Its name, without the letters of aq and rl: `amoadd.w`.
    pub fn name(self) -> &'static str
        ensures name { result.now ≡ (atomic_table self).name }
        ensures length { length result.now ≤ 9 }
    {
        match self {
            AtomicRow::LrW => "lr.w",
            AtomicRow::ScW => "sc.w",
            AtomicRow::AmoSwap => "amoswap.w",
            AtomicRow::AmoAdd => "amoadd.w",
            AtomicRow::AmoXor => "amoxor.w",
            AtomicRow::AmoAnd => "amoand.w",
            AtomicRow::AmoOr => "amoor.w",
            AtomicRow::AmoMin => "amomin.w",
            AtomicRow::AmoMax => "amomax.w",
            AtomicRow::AmoMinu => "amominu.w",
            AtomicRow::AmoMaxu => "amomaxu.w",
        }
    }
}

/// The row with this funct5.
pub(crate) fn row_of(funct5: u32) -> Option<AtomicRow>
    ensures some { IfSome result (λ row. funct5 ≡ (atomic_table row).funct5) }
    ensures none { IfNone result ((row : AtomicRow) → funct5 ≢ (atomic_table row).funct5) }
{
    match funct5 {
        0 => Some(AtomicRow::AmoAdd),
        1 => Some(AtomicRow::AmoSwap),
        2 => Some(AtomicRow::LrW),
        3 => Some(AtomicRow::ScW),
        4 => Some(AtomicRow::AmoXor),
        8 => Some(AtomicRow::AmoOr),
        12 => Some(AtomicRow::AmoAnd),
        16 => Some(AtomicRow::AmoMin),
        20 => Some(AtomicRow::AmoMax),
        24 => Some(AtomicRow::AmoMinu),
        28 => Some(AtomicRow::AmoMaxu),
        _ => None,
    }
}

/// The instruction of extension A that a word is, or `None`.
///
/// The clauses: the word is the instruction that is returned (`decoded`), and no other (`only`); at
/// `None` it is none (`outside`).
#[tactic(auto, using(crate::proofs::AtomicPlaces::atomic_places))]
pub fn decode_atomic(word: u32) -> Option<AtomicInstruction>
    ensures decoded { IfSome result (λ x. IsAtomic word x.row x.fields) }
    ensures only { IfSome result (λ x. (row : AtomicRow) (f : RFields)
        → IsAtomic word row f → (row ≡ x.row) × (f ≡ x.fields)) }
    ensures outside { IfNone result ((row : AtomicRow) (f : RFields) → ¬ IsAtomic word row f) }
{
    if word % 0x80 != 0x2f {
        return None;
    }
    let fields = RType::new(word);
    if fields.funct3 != 2 {
        return None;
    }
    let row = row_of(fields.funct7 / 4)?;
    if row == AtomicRow::LrW && fields.rs2 != 0 {
        return None;
    }
    Some(AtomicInstruction { row, fields })
}
