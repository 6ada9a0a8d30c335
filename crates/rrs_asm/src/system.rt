//! Reading the instructions on CSRs, `mret`, `wfi` and `fence.i`.

ghost use Rattle.std.specs.Prelude.{◌≡◌, ◌⊎◌, Bool, true, List, ℕ, IfSome};
ghost use Rattle.std.specs.List.{list_all};
ghost use Rattle.rrs_asm.specs.declared.system.SystemForm.{SystemForm};
ghost use Rattle.rrs_asm.specs.Names.{IsNamed, counter_number, immediate_form, system_form_name};

use crate::statements::Statement;
use rrs_asm_lines::Line;
use rrs_words::{LayerInstruction, SystemInstruction, SystemRow, csr_named};

/// A counter that a program reads.
#[derive(Clone, Copy)]
pub enum Counter {
    Cycle,
    Time,
    Instret,
    Cycleh,
    Timeh,
    Instreth,
}

/// Such an instruction, by how its operands are written.
#[derive(Clone, Copy)]
pub enum SystemForm {
    /// It has none.
    Alone(SystemRow),
    /// `rd, csr, operand`.
    Whole(SystemRow),
    /// `csr, operand`: rd is x0.
    Short(SystemRow),
    /// `rd, csr`: the CSR is read.
    Read,
    /// `rd`: the counter is read.
    Counter(Counter),
}

/// The names of these instructions.
const FORMS: [(&[u8], SystemForm); 22] = [
    (b"mret", SystemForm::Alone(SystemRow::Mret)),
    (b"wfi", SystemForm::Alone(SystemRow::Wfi)),
    (b"fence.i", SystemForm::Alone(SystemRow::FenceI)),
    (b"csrrw", SystemForm::Whole(SystemRow::Csrrw)),
    (b"csrrs", SystemForm::Whole(SystemRow::Csrrs)),
    (b"csrrc", SystemForm::Whole(SystemRow::Csrrc)),
    (b"csrrwi", SystemForm::Whole(SystemRow::Csrrwi)),
    (b"csrrsi", SystemForm::Whole(SystemRow::Csrrsi)),
    (b"csrrci", SystemForm::Whole(SystemRow::Csrrci)),
    (b"csrw", SystemForm::Short(SystemRow::Csrrw)),
    (b"csrs", SystemForm::Short(SystemRow::Csrrs)),
    (b"csrc", SystemForm::Short(SystemRow::Csrrc)),
    (b"csrwi", SystemForm::Short(SystemRow::Csrrwi)),
    (b"csrsi", SystemForm::Short(SystemRow::Csrrsi)),
    (b"csrci", SystemForm::Short(SystemRow::Csrrci)),
    (b"csrr", SystemForm::Read),
    (b"rdcycle", SystemForm::Counter(Counter::Cycle)),
    (b"rdtime", SystemForm::Counter(Counter::Time)),
    (b"rdinstret", SystemForm::Counter(Counter::Instret)),
    (b"rdcycleh", SystemForm::Counter(Counter::Cycleh)),
    (b"rdtimeh", SystemForm::Counter(Counter::Timeh)),
    (b"rdinstreth", SystemForm::Counter(Counter::Instreth)),
];

/// The form of a name.
pub fn system_named(name: &[u8]) -> Option<SystemForm>
    ensures { IfSome result (λ form. system_form_name form ≡ name.now) }
{
    system_in(&FORMS, name)
}

/// What stands beside a name in a table. A test that all entries pass, it passes with the name.
fn system_in(table: &[(&[u8], SystemForm)], name: &[u8]) -> Option<SystemForm>
    ensures { (fits : List ℕ → SystemForm → Bool)
        → list_all (λ e. fits e.0.now e.1) table.now ≡ true
        → IfSome result (λ form. fits name.now form ≡ true) }
{
    for (own, form) in table {
        if *own == name {
            return Some(*form);
        }
    }
    None
}

/// Reads the operands of an instruction of this form.
pub fn read_system(line: &mut Line, form: SystemForm) -> Statement
    ensures { IsNamed (system_form_name form) result }
{
    Statement::Layer(LayerInstruction::System(match form {
        SystemForm::Alone(row) => SystemInstruction::alone(row),
        SystemForm::Whole(row) => {
            let rd = line.register();
            line.comma();
            read_csr_and_operand(line, row, rd)
        }
        SystemForm::Short(row) => read_csr_and_operand(line, row, 0),
        SystemForm::Read => {
            let rd = line.register();
            line.comma();
            SystemInstruction::on_csr(SystemRow::Csrrs, rd, read_csr(line), 0)
        }
        SystemForm::Counter(counter) => {
            let rd = line.register();
            SystemInstruction::on_csr(SystemRow::Csrrs, rd, number_of(counter), 0)
        }
    }))
}

/// Reads a CSR and an operand: a register, or a number below 32, with which the instruction is that
/// of its immediate.
fn read_csr_and_operand(line: &mut Line, row: SystemRow, rd: usize) -> SystemInstruction
    ensures row { (result.row ≡ row) ⊎ (result.row ≡ immediate_form row) }
    ensures rd { result.fields.rd ≡ rd }
{
    let number = read_csr(line);
    line.comma();
    let before = *line;
    if !row.has_immediate() {
        let rs1 = line.register();
        if line.mistake.is_none() {
            return SystemInstruction::on_csr(row, rd, number, rs1);
        }
        *line = before;
    }
    let operand = line.below(32, 0) as usize;
    SystemInstruction::on_csr(immediate_form(row), rd, number, operand)
}

/// Reads a CSR: its name, or its number.
fn read_csr(line: &mut Line) -> u32 {
    line.skip_blanks();
    let before = *line;
    match csr_named(line.word()) {
        Some(number) => number,
        None => {
            *line = before;
            line.below(4096, 0)
        }
    }
}

/// The row that has an immediate in the place of a register.
fn immediate_form(row: SystemRow) -> SystemRow
    ensures { result ≡ immediate_form row }
{
    match row {
        SystemRow::Csrrw => SystemRow::Csrrwi,
        SystemRow::Csrrs => SystemRow::Csrrsi,
        SystemRow::Csrrc => SystemRow::Csrrci,
        _ => row,
    }
}

/// The number of a counter.
fn number_of(counter: Counter) -> u32
    ensures { result ≡ counter_number counter }
{
    match counter {
        Counter::Cycle => 0xc00,
        Counter::Time => 0xc01,
        Counter::Instret => 0xc02,
        Counter::Cycleh => 0xc80,
        Counter::Timeh => 0xc81,
        Counter::Instreth => 0xc82,
    }
}
