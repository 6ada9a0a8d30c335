//! Reading the operands of instructions and pseudo-instructions.

ghost use Rattle.std.specs.Prelude.{◌≡◌, ◌<◌, IfOk, codes};
ghost use Rattle.rrs_instruction.specs.Table.{table};
ghost use Rattle.rrs_instruction.specs.Instructions.{row_of};
ghost use Rattle.rrs_asm.specs.Names.{IsNamed, pseudo_name, branch_name, load_name, store_name};
ghost use Rattle.rrs_asm.specs.Forms.{form_name, IsRowForm};

use crate::atomic::read_atomic;
use crate::bits::{bits_named, read_bits};
use crate::names::{PseudoForm, pseudo_named};
use crate::pseudo::{Branch, Load, Pseudo, Store};
use crate::short::read_short;
use crate::statements::Statement;
use crate::system::{read_system, system_named};
use rrs_asm_lines::{Line, LineError, SourceErrorKind, place_among};
use rrs_encode::{Operands, instruction_named, with_operands};
use rrs_instruction::instruction::{Instruction, InstructionFields};
use rrs_words::atomic_named;

/// How far a branch reaches, in bytes: so many backward, and fewer forward.
const BRANCH_REACH: u32 = 0x1000;

/// How far a jump reaches.
const JUMP_REACH: u32 = 0x10_0000;

/// No operands.
const NONE: Operands = Operands {
    rd: 0,
    rs1: 0,
    rs2: 0,
    imm: 0,
};

/// Reads the operands of an instruction or a pseudo-instruction of this name. Its name stands at
/// `error`.
pub fn read_instruction(
    line: &mut Line,
    name: &[u8],
    error: LineError,
) -> Result<Statement, LineError>
    ensures { IfOk result (IsNamed name.now) }
{
    if let Some(template) = instruction_named(name) {
        return Ok(read_row(line, template));
    }
    if let Some(form) = system_named(name) {
        return Ok(read_system(line, form));
    }
    if let Some(form) = pseudo_named(name) {
        return Ok(Statement::Pseudo(read_pseudo(line, form)));
    }
    if name == b"unimp".as_slice() {
        return Ok(Statement::Unimp);
    }
    if let Some(template) = bits_named(name) {
        return Ok(read_bits(line, template));
    }
    // The other names are many, and each has a dot.
    if !name.contains(&b'.') {
        return Err(error);
    }
    if let Some(statement) = read_short(line, name) {
        return Ok(statement);
    }
    match atomic_named(name) {
        Some((row, funct7)) => Ok(read_atomic(line, row, funct7)),
        None => Err(error),
    }
}

/// Reads the operands of a row.
fn read_row(line: &mut Line, template: Instruction) -> Statement
    ensures { IsNamed (table (row_of template)).name result }
{
    match row_form(template) {
        RowForm::Alone => Statement::Instruction(template),
        RowForm::Fence => read_fence(line, template),
        RowForm::Jal => read_jal(line, template),
        RowForm::Jalr => read_jalr(line, template),
        RowForm::Branch(branch) => read_branch(line, template, branch),
        RowForm::Load(load) => read_load(line, template, load),
        RowForm::Store(store) => read_store(line, template, store),
        RowForm::Format => {
            let operands = read_operands(line, operands_of(template.fields()));
            statement_of(line, template, operands)
        }
    }
}

/// How the operands of a row are written.
#[derive(Clone, Copy)]
pub enum RowForm {
    /// It has none.
    Alone,
    Fence,
    Jal,
    Jalr,
    Branch(Branch),
    Load(Load),
    Store(Store),
    /// As those of others of its format.
    Format,
}

/// How the operands of a row are written.
fn row_form(template: Instruction) -> RowForm
    ensures { IsRowForm (table (row_of template)).name result }
{
    match template {
        Instruction::Ecall(_) | Instruction::Ebreak(_) => RowForm::Alone,
        Instruction::Fence(_) => RowForm::Fence,
        Instruction::Jal(_) => RowForm::Jal,
        Instruction::Jalr(_) => RowForm::Jalr,
        Instruction::Beq(_) => RowForm::Branch(Branch::Beq),
        Instruction::Bne(_) => RowForm::Branch(Branch::Bne),
        Instruction::Blt(_) => RowForm::Branch(Branch::Blt),
        Instruction::Bge(_) => RowForm::Branch(Branch::Bge),
        Instruction::Bltu(_) => RowForm::Branch(Branch::Bltu),
        Instruction::Bgeu(_) => RowForm::Branch(Branch::Bgeu),
        Instruction::Lb(_) => RowForm::Load(Load::Lb),
        Instruction::Lbu(_) => RowForm::Load(Load::Lbu),
        Instruction::Lh(_) => RowForm::Load(Load::Lh),
        Instruction::Lhu(_) => RowForm::Load(Load::Lhu),
        Instruction::Lw(_) => RowForm::Load(Load::Lw),
        Instruction::Sb(_) => RowForm::Store(Store::Sb),
        Instruction::Sh(_) => RowForm::Store(Store::Sh),
        Instruction::Sw(_) => RowForm::Store(Store::Sw),
        _ => RowForm::Format,
    }
}

/// Reads `rs1, rs2, target`. A branch whose target is out of reach is two instructions.
fn read_branch(line: &mut Line, template: Instruction, branch: Branch) -> Statement
    requires { branch_name branch ≡ (table (row_of template)).name }
    ensures { IsNamed (table (row_of template)).name result }
{
    let operands = read_operands(line, &OF_B);
    if line.notes.is_far() {
        let Operands { rs1, rs2, imm, .. } = operands;
        return Statement::Pseudo(Pseudo::Far(branch, rs1, rs2, imm));
    }
    statement_of(line, template, operands)
}

/// Reads `rd, immediate(rs1)`, or `rd, symbol`.
fn read_load(line: &mut Line, template: Instruction, load: Load) -> Statement
    requires { load_name load ≡ (table (row_of template)).name }
    ensures { IsNamed (table (row_of template)).name result }
{
    let rd = line.register();
    line.comma();
    if let Some(distance) = line.distance_alone() {
        return Statement::Pseudo(Pseudo::From(load, rd, distance));
    }
    let (imm, rs1) = line.address();
    let operands = Operands {
        rd,
        rs1,
        imm,
        ..NONE
    };
    statement_of(line, template, operands)
}

/// Reads `rs2, immediate(rs1)`, or `rs2, symbol, rt`.
fn read_store(line: &mut Line, template: Instruction, store: Store) -> Statement
    requires { store_name store ≡ (table (row_of template)).name }
    ensures { IsNamed (table (row_of template)).name result }
{
    let rs2 = line.register();
    line.comma();
    if let Some(distance) = line.distance_alone() {
        line.comma();
        let rt = line.register();
        return Statement::Pseudo(Pseudo::At(store, rs2, rt, distance));
    }
    let (imm, rs1) = line.address();
    let operands = Operands {
        rs1,
        rs2,
        imm,
        ..NONE
    };
    statement_of(line, template, operands)
}

/// The statement that is an instruction with these operands, whose ranges the readers saw to.
fn statement_of(line: &mut Line, template: Instruction, operands: Operands) -> Statement
    ensures { IsNamed (table (row_of template)).name result }
{
    match with_operands(&template, operands) {
        Some(instruction) => Statement::Instruction(instruction),
        None => {
            line.want(false, SourceErrorKind::Range);
            Statement::Instruction(template)
        }
    }
}

/// An operand: where it goes, and how it is written.
#[derive(Clone, Copy)]
enum Operand {
    Rd,
    Rs1,
    Rs2,
    /// `immediate(rs1)`.
    Address,
    /// A number of 12 bits. This one and those below go where an immediate does.
    Immediate,
    /// How far is shifted: below 32.
    Amount,
    /// The upper 20 bits of a word.
    Upper,
    /// The target of a branch.
    Branch,
    /// The target of a jump.
    Jump,
    /// A word that is known here.
    Word,
    /// A symbol, or an address: how far it is from the statement, modulo 2^32.
    Distance,
}

/// The operands of each format, and of the pseudo-instructions that are written as it is.
static OF_R: [Operand; 3] = [Operand::Rd, Operand::Rs1, Operand::Rs2];

static OF_I: [Operand; 3] = [Operand::Rd, Operand::Rs1, Operand::Immediate];

static OF_SHIFT: [Operand; 3] = [Operand::Rd, Operand::Rs1, Operand::Amount];

static OF_S: [Operand; 2] = [Operand::Rs2, Operand::Address];

static OF_B: [Operand; 3] = [Operand::Rs1, Operand::Rs2, Operand::Branch];

static OF_U: [Operand; 2] = [Operand::Rd, Operand::Upper];

static OF_J: [Operand; 2] = [Operand::Rd, Operand::Jump];

/// The operands of an instruction that is written as others of its format.
fn operands_of(fields: InstructionFields) -> &'static [Operand] {
    match fields {
        InstructionFields::R(_) => &OF_R,
        InstructionFields::I(_) => &OF_I,
        InstructionFields::IShamt(_) => &OF_SHIFT,
        InstructionFields::S(_) => &OF_S,
        InstructionFields::B(_) => &OF_B,
        InstructionFields::U(_) => &OF_U,
        InstructionFields::J(_) => &OF_J,
    }
}

/// Reads operands with commas between them.
fn read_operands(line: &mut Line, wanted: &[Operand]) -> Operands {
    let mut operands = NONE;
    for (number, operand) in wanted.iter().enumerate() {
        if number > 0 {
            line.comma();
        }
        read_operand(line, *operand, &mut operands);
    }
    operands
}

/// Reads an operand, and puts it where it goes. A word is taken as a signed one.
fn read_operand(line: &mut Line, operand: Operand, operands: &mut Operands) {
    match operand {
        Operand::Rd => operands.rd = line.register(),
        Operand::Rs1 => operands.rs1 = line.register(),
        Operand::Rs2 => operands.rs2 = line.register(),
        Operand::Address => (operands.imm, operands.rs1) = line.address(),
        Operand::Immediate => operands.imm = line.immediate(),
        Operand::Branch => operands.imm = line.branch_offset(BRANCH_REACH, JUMP_REACH),
        Operand::Jump => operands.imm = line.offset(JUMP_REACH),
        Operand::Amount => operands.imm = line.below(32, 0).cast_signed(),
        Operand::Upper => operands.imm = (line.upper() << 12).cast_signed(),
        Operand::Word => operands.imm = line.known_value().cast_signed(),
        Operand::Distance => {
            operands.imm = line.value().wrapping_sub(line.site.here).cast_signed();
        }
    }
}

/// Reads `rd, target`, or `target` alone.
fn read_jal(line: &mut Line, template: Instruction) -> Statement
    requires { (table (row_of template)).name ≡ codes "jal" }
    ensures { IsNamed (table (row_of template)).name result }
{
    let before = *line;
    let rd = line.register();
    line.comma();
    if line.mistake.is_some() {
        *line = before;
        return Statement::Pseudo(Pseudo::Jal(line.offset(JUMP_REACH)));
    }
    let imm = line.offset(JUMP_REACH);
    let operands = Operands { rd, imm, ..NONE };
    statement_of(line, template, operands)
}

/// Reads `rd, immediate(rs1)`, `rd, rs1, immediate`, `rd, rs1`, or `rs1` alone.
fn read_jalr(line: &mut Line, template: Instruction) -> Statement
    requires { (table (row_of template)).name ≡ codes "jalr" }
    ensures { IsNamed (table (row_of template)).name result }
{
    let rd = line.register();
    if !line.take(b',') {
        return Statement::Pseudo(Pseudo::Jalr(rd));
    }
    let before = *line;
    let mut rs1 = line.register();
    let mut imm = 0;
    if line.mistake.is_some() {
        *line = before;
        (imm, rs1) = line.address();
    } else if line.take(b',') {
        imm = line.immediate();
    }
    let operands = Operands {
        rd,
        rs1,
        imm,
        ..NONE
    };
    statement_of(line, template, operands)
}

/// Reads two sets of accesses, or nothing.
fn read_fence(line: &mut Line, template: Instruction) -> Statement
    requires { (table (row_of template)).name ≡ codes "fence" }
    ensures { IsNamed (table (row_of template)).name result }
{
    if line.is_over() {
        return Statement::Pseudo(Pseudo::Fence);
    }
    let before = read_accesses(line);
    line.comma();
    let after = read_accesses(line);
    let imm = (before * 16 + after).cast_signed();
    let operands = Operands { imm, ..NONE };
    statement_of(line, template, operands)
}

/// Reads a set of accesses: some of the letters `iorw`, in this order.
fn read_accesses(line: &mut Line) -> u32
    ensures { result < 16 }
{
    line.skip_blanks();
    let error = line.error(SourceErrorKind::Value);
    match place_among(ACCESSES, line.word()) {
        Some(place) if place < 15 => place as u32 + 1,
        _ => {
            line.fail(error);
            0
        }
    }
}

/// The sets of accesses, in the order of their four bits, from 1 on.
const ACCESSES: &[u8] = b"w r rw o ow or orw i iw ir irw io iow ior iorw";

/// Reads the operands of a pseudo-instruction.
fn read_pseudo(line: &mut Line, form: PseudoForm) -> Pseudo
    ensures { pseudo_name result ≡ form_name form }
{
    let operands = read_operands(line, operands_of_pseudo(form));
    pseudo_of(form, operands, line.notes.is_far())
}

/// The operands of pseudo-instructions that are written as no format is.
static OF_LI: [Operand; 2] = [Operand::Rd, Operand::Word];

static OF_LA: [Operand; 2] = [Operand::Rd, Operand::Distance];

static OF_JUMP: [Operand; 2] = [Operand::Distance, Operand::Rs1];

static OF_ONE: [Operand; 2] = [Operand::Rd, Operand::Rs1];

static AGAINST_ZERO: [Operand; 2] = [Operand::Rs1, Operand::Branch];

static OF_TARGET: [Operand; 1] = [Operand::Jump];

static OF_REGISTER: [Operand; 1] = [Operand::Rs1];

static OF_SYMBOL: [Operand; 1] = [Operand::Distance];

/// The operands of a pseudo-instruction.
fn operands_of_pseudo(form: PseudoForm) -> &'static [Operand] {
    match form {
        PseudoForm::Nop | PseudoForm::Ret => &[],
        PseudoForm::Li => &OF_LI,
        PseudoForm::La | PseudoForm::Lla => &OF_LA,
        PseudoForm::Compared(_) => &OF_R,
        PseudoForm::Jump => &OF_JUMP,
        PseudoForm::OfOne(_) => &OF_ONE,
        PseudoForm::AgainstZero(_) => &AGAINST_ZERO,
        PseudoForm::Swapped(_) => &OF_B,
        PseudoForm::J => &OF_TARGET,
        PseudoForm::Jr => &OF_REGISTER,
        PseudoForm::Call | PseudoForm::Tail => &OF_SYMBOL,
    }
}

/// The pseudo-instruction with these operands, of a branch where its target is out of reach or not.
fn pseudo_of(form: PseudoForm, operands: Operands, is_far: bool) -> Pseudo
    ensures { pseudo_name result ≡ form_name form }
{
    let Operands { rd, rs1, rs2, imm } = operands;
    let word = imm.cast_unsigned();
    match form {
        PseudoForm::Nop => Pseudo::Nop,
        PseudoForm::Ret => Pseudo::Ret,
        PseudoForm::Li => Pseudo::Li(rd, word),
        PseudoForm::La => Pseudo::La(rd, word),
        PseudoForm::Lla => Pseudo::Lla(rd, word),
        PseudoForm::Compared(name) => Pseudo::Compared(name, rd, rs1, rs2),
        PseudoForm::Jump => Pseudo::Jump(rs1, word),
        PseudoForm::OfOne(name) => Pseudo::OfOne(name, rd, rs1),
        PseudoForm::AgainstZero(name) if is_far => Pseudo::FarFromZero(name, rs1, imm),
        PseudoForm::AgainstZero(name) => Pseudo::AgainstZero(name, rs1, imm),
        PseudoForm::Swapped(name) if is_far => Pseudo::FarSwapped(name, rs1, rs2, imm),
        PseudoForm::Swapped(name) => Pseudo::Swapped(name, rs1, rs2, imm),
        PseudoForm::J => Pseudo::J(imm),
        PseudoForm::Jr => Pseudo::Jr(rs1),
        PseudoForm::Call => Pseudo::Call(word),
        PseudoForm::Tail => Pseudo::Tail(word),
    }
}
