//! The instructions that the 48 rows leave out: those on CSRs, `mret`, `wfi` and `fence.i`.

ghost use Rattle.std.specs.Prelude.{◌≡◌, ◌+◌, ◌-◌, ◌/◌, ◌%◌, ◌^◌, ◌<◌, ◌≤ℤ◌, pos, neg_ℤ, IfSome, IfNone};
ghost use Rattle.rrs_instruction.specs.declared.instruction_formats.IType.{IType as IFields};
ghost use Rattle.rrs_instruction.specs.Encodings.{I, IsInRange};
ghost use Rattle.rrs_words.specs.Layers.{system_number};
ghost use Rattle.rrs_words.specs.SystemInstructions.{IsSystem, alone_number, csr_number, system_table, always_writes, writes_csr, has_immediate, updated, HasPlaces};

use rrs_instruction::arithmetic;
use rrs_lib::instruction_formats::IType;

/// An instruction that the 48 rows leave out.
#[derive(Debug, PartialEq, Clone, Copy)]
pub enum SystemRow {
    /// `csrrw`: a CSR is read and written.
    Csrrw,
    /// `csrrs`: a CSR is read, and bits of it are set.
    Csrrs,
    /// `csrrc`: a CSR is read, and bits of it are cleared.
    Csrrc,
    /// `csrrwi`: as `csrrw`, with an immediate.
    Csrrwi,
    /// `csrrsi`: as `csrrs`, with an immediate.
    Csrrsi,
    /// `csrrci`: as `csrrc`, with an immediate.
    Csrrci,
    /// `mret`: back from a trap.
    Mret,
    /// `wfi`: waits for an interrupt.
    Wfi,
    /// `fence.i`: an order of stores and fetches, which does nothing here.
    FenceI,
}

/// Such an instruction with its fields.
///
/// The low 12 bits of the immediate are the number of the CSR. In the forms with an immediate `rs1`
/// is that number, 0 to 31.
#[derive(Debug, PartialEq, Clone, Copy)]
pub struct SystemInstruction {
    /// Which instruction it is.
    pub row: SystemRow,
    /// Its fields.
    pub fields: IType,
}

impl SystemRow {
    /// Whether the instruction writes its CSR in any case.
    fn always_writes(self) -> bool
        ensures { result ≡ always_writes self }
    {
        matches!(self, SystemRow::Csrrw | SystemRow::Csrrwi)
    }

    /// What funct3 of its words is.
    fn funct3(self) -> u32
        ensures { result ≡ (system_table self).funct3 }
    {
        match self {
            SystemRow::Mret | SystemRow::Wfi => 0,
            SystemRow::Csrrw | SystemRow::FenceI => 1,
            SystemRow::Csrrs => 2,
            SystemRow::Csrrc => 3,
            SystemRow::Csrrwi => 5,
            SystemRow::Csrrsi => 6,
            SystemRow::Csrrci => 7,
        }
    }

    /// Its number, 49 to 57: the numbers of the rows that the kit leaves out follow its 48.
    pub fn number(self) -> u32
        ensures { result ≡ system_number self }
    {
        match self {
            SystemRow::Csrrw => 49,
            SystemRow::Csrrs => 50,
            SystemRow::Csrrc => 51,
            SystemRow::Csrrwi => 52,
            SystemRow::Csrrsi => 53,
            SystemRow::Csrrci => 54,
            SystemRow::Mret => 55,
            SystemRow::Wfi => 56,
            SystemRow::FenceI => 57,
        }
    }

    /// Whether the operand is the number in the place of `rs1`, and not that register's value.
    pub fn has_immediate(self) -> bool
        ensures { result ≡ has_immediate self }
    {
        matches!(
            self,
            SystemRow::Csrrwi | SystemRow::Csrrsi | SystemRow::Csrrci
        )
    }

    /// What the CSR gets, from its old value and the operand.
    pub fn updated(self, old: u32, operand: u32) -> u32
        ensures { result ≡ updated self old operand }
    {
        match self {
            SystemRow::Csrrw | SystemRow::Csrrwi => operand,
            SystemRow::Csrrs | SystemRow::Csrrsi => arithmetic::or(old, operand),
            SystemRow::Csrrc | SystemRow::Csrrci => arithmetic::and(old, u32::MAX - operand),
            SystemRow::Mret | SystemRow::Wfi | SystemRow::FenceI => old,
        }
    }
}

impl SystemInstruction {
    /// The instruction on a CSR, by the low 12 bits of its number.
    pub fn on_csr(row: SystemRow, rd: usize, number: u32, rs1: usize) -> SystemInstruction
        ensures row { result.row ≡ row }
        ensures csr { csr_number result.fields ≡ number % 2 ^ 12 }
        ensures funct3 { result.fields.funct3 ≡ (system_table row).funct3 }
        ensures registers { (result.fields.rd ≡ rd) × (result.fields.rs1 ≡ rs1) }
        ensures range { (neg_ℤ (pos 2048) ≤ℤ result.fields.imm)
            × (result.fields.imm ≤ℤ pos 2047) }
    {
        let number = (number % 4096) as i32;
        let fields = IType {
            imm: if number < 2048 { number } else { number - 4096 },
            rs1,
            funct3: row.funct3(),
            rd,
        };
        SystemInstruction { row, fields }
    }

    /// `mret`, `wfi` or `fence.i`; of another row the instruction on CSR 0 with x0.
    pub fn alone(row: SystemRow) -> SystemInstruction
        ensures row { result.row ≡ row }
        ensures csr { csr_number result.fields ≡ alone_number row }
        ensures funct3 { result.fields.funct3 ≡ (system_table row).funct3 }
        ensures registers { (result.fields.rd ≡ 0) × (result.fields.rs1 ≡ 0) }
    {
        let number = match row {
            SystemRow::Mret => 0x302,
            SystemRow::Wfi => 0x105,
            _ => 0,
        };
        SystemInstruction::on_csr(row, 0, number, 0)
    }

    /// Whether the instruction writes its CSR: `csrrw` and `csrrwi` do in any case, the others
    /// where `rs1` is not 0.
    pub fn writes_csr(&self) -> bool
        ensures { result ≡ writes_csr self.now.row self.now.fields }
    {
        if self.row.always_writes() {
            true
        } else {
            self.fields.rs1 != 0
        }
    }

    /// The number of the CSR, below 4096.
    pub fn csr_number(&self) -> u32
        ensures { result ≡ csr_number self.now.fields }
    {
        self.fields.imm.rem_euclid(4096).unsigned_abs()
    }
}

/// The row of a word with the opcode SYSTEM and funct3 0.
fn privileged_row(word: u32) -> Option<SystemRow>
    requires { (word % 2 ^ 7 ≡ 0x73) × (word / 2 ^ 12 % 2 ^ 3 ≡ 0) }
    ensures places { IfSome result (HasPlaces word) }
    ensures none { IfNone result ((row : SystemRow) → ¬ HasPlaces word row) }
{
    match word {
        0x3020_0073 => Some(SystemRow::Mret),
        0x1050_0073 => Some(SystemRow::Wfi),
        _ => None,
    }
}

/// The row of a word with the opcode SYSTEM.
fn system_row(word: u32) -> Option<SystemRow>
    requires { word % 2 ^ 7 ≡ 0x73 }
    ensures places { IfSome result (HasPlaces word) }
    ensures none { IfNone result ((row : SystemRow) → ¬ HasPlaces word row) }
{
    match word / 0x1000 % 8 {
        0 => privileged_row(word),
        1 => Some(SystemRow::Csrrw),
        2 => Some(SystemRow::Csrrs),
        3 => Some(SystemRow::Csrrc),
        5 => Some(SystemRow::Csrrwi),
        6 => Some(SystemRow::Csrrsi),
        7 => Some(SystemRow::Csrrci),
        _ => None,
    }
}

/// The row of a word with the opcode MISC-MEM.
fn fence_row(word: u32) -> Option<SystemRow>
    requires { word % 2 ^ 7 ≡ 0x0f }
    ensures places { IfSome result (HasPlaces word) }
    ensures none { IfNone result ((row : SystemRow) → ¬ HasPlaces word row) }
{
    match word / 0x1000 % 8 {
        1 => Some(SystemRow::FenceI),
        _ => None,
    }
}

/// The row of a word.
fn row_of_word(word: u32) -> Option<SystemRow>
    ensures places { IfSome result (HasPlaces word) }
    ensures none { IfNone result ((row : SystemRow) → ¬ HasPlaces word row) }
{
    match word % 0x80 {
        0x73 => system_row(word),
        0x0f => fence_row(word),
        _ => None,
    }
}

/// The instruction that a word is, of those that the 48 rows leave out, or `None`.
///
/// The clauses: the word is the instruction that is returned (`decoded`), and no other (`only`); at
/// `None` it is none (`outside`).
pub fn decode_system(word: u32) -> Option<SystemInstruction>
    ensures decoded { IfSome result (λ x. IsSystem word x.row x.fields) }
    ensures only { IfSome result (λ x. (row : SystemRow) (f : IFields)
        → IsSystem word row f → (row ≡ x.row) × (f ≡ x.fields)) }
    ensures outside { IfNone result ((row : SystemRow) (f : IFields) → ¬ IsSystem word row f) }
{
    let row = row_of_word(word)?;
    let fields = IType::new(word);
    Some(SystemInstruction { row, fields })
}
