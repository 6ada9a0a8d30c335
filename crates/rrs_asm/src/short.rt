//! Reading the compressed instructions.

ghost use Rattle.std.specs.Prelude.{◌≡◌, ◌<◌, ◌≤◌, IfSome};
ghost use Rattle.rrs_words.specs.Forms.{form_table};
ghost use Rattle.rrs_asm.specs.Names.{IsNamed};

use crate::statements::Statement;
use rrs_asm_lines::{Line, SourceErrorKind, register_number, split_word};
use rrs_words::{ShortForm, ShortInstruction, ShortOperands};

/// How far `c.j` and `c.jal` reach, in bytes: so many backward, and fewer forward.
const JUMP_REACH: u32 = 0x800;

/// How far `c.beqz` and `c.bnez` reach.
const BRANCH_REACH: u32 = 0x100;

/// No operands.
const NONE: ShortOperands = ShortOperands {
    first: 0,
    second: 0,
    imm: 0,
};

/// The forms.
static FORMS: [ShortForm; 26] = [
    ShortForm::Addi4spn,
    ShortForm::Lw,
    ShortForm::Sw,
    ShortForm::Addi,
    ShortForm::Jal,
    ShortForm::Li,
    ShortForm::Addi16sp,
    ShortForm::Lui,
    ShortForm::Srli,
    ShortForm::Srai,
    ShortForm::Andi,
    ShortForm::Sub,
    ShortForm::Xor,
    ShortForm::Or,
    ShortForm::And,
    ShortForm::J,
    ShortForm::Beqz,
    ShortForm::Bnez,
    ShortForm::Slli,
    ShortForm::Lwsp,
    ShortForm::Jr,
    ShortForm::Mv,
    ShortForm::Ebreak,
    ShortForm::Jalr,
    ShortForm::Add,
    ShortForm::Swsp,
];

/// Reads the operands of a compressed instruction of this name. `None` where none has it.
pub fn read_short(line: &mut Line, name: &[u8]) -> Option<Statement>
    ensures { IfSome result (IsNamed name.now) }
{
    if name == b"c.nop".as_slice() {
        return Some(Statement::Short(ShortInstruction {
            form: ShortForm::Addi,
            operands: NONE,
        }));
    }
    let form = form_named(name)?;
    let operands = read_operands(line, form);
    Some(Statement::Short(ShortInstruction { form, operands }))
}

/// The form of a name.
fn form_named(name: &[u8]) -> Option<ShortForm>
    ensures { IfSome result (λ form. (form_table form).name ≡ name.now) }
{
    for form in &FORMS {
        if form.name().as_bytes() == name {
            return Some(*form);
        }
    }
    None
}

/// Reads the operands of a form.
fn read_operands(line: &mut Line, form: ShortForm) -> ShortOperands {
    match form {
        ShortForm::Ebreak => NONE,
        ShortForm::J | ShortForm::Jal => ShortOperands {
            imm: read_target(line, JUMP_REACH),
            ..NONE
        },
        _ => {
            let first = read_register(line, first_of(form));
            read_others(line, form, first)
        }
    }
}

/// Reads the operands after the first register.
fn read_others(line: &mut Line, form: ShortForm, first: usize) -> ShortOperands {
    if let ShortForm::Jr | ShortForm::Jalr = form {
        return ShortOperands { first, ..NONE };
    }
    line.comma();
    let (mut second, mut imm) = (0, 0);
    match form {
        ShortForm::Beqz | ShortForm::Bnez => imm = read_target(line, BRANCH_REACH),
        ShortForm::Lw | ShortForm::Sw | ShortForm::Lwsp | ShortForm::Swsp => {
            (imm, second) = read_address(line, form);
        }
        ShortForm::Addi4spn => {
            second = read_register(line, second_of(form));
            line.comma();
            imm = read_number(line, form);
        }
        ShortForm::Sub
        | ShortForm::Xor
        | ShortForm::Or
        | ShortForm::And
        | ShortForm::Mv
        | ShortForm::Add => second = read_register(line, second_of(form)),
        _ => imm = read_number(line, form),
    }
    ShortOperands { first, second, imm }
}

/// The registers that can stand at a place.
#[derive(Clone, Copy)]
enum Registers {
    /// All of them.
    All,
    /// x8 to x15.
    Eight,
    /// All but x0.
    NotZero,
    /// All but x2.
    NotStack,
    /// x2 alone.
    Stack,
}

impl Registers {
    /// Whether a register is one of these.
    fn have(self, register: usize) -> bool {
        match self {
            Registers::All => true,
            Registers::Eight => register >= 8 && register < 16,
            Registers::NotZero => register != 0,
            Registers::NotStack => register != 2,
            Registers::Stack => register == 2,
        }
    }
}

/// The registers that can be the first of a form.
fn first_of(form: ShortForm) -> Registers {
    match form {
        ShortForm::Addi | ShortForm::Li | ShortForm::Slli => Registers::All,
        ShortForm::Mv | ShortForm::Add | ShortForm::Swsp => Registers::All,
        ShortForm::Lwsp | ShortForm::Jr | ShortForm::Jalr => Registers::NotZero,
        ShortForm::Lui => Registers::NotStack,
        ShortForm::Addi16sp => Registers::Stack,
        _ => Registers::Eight,
    }
}

/// The registers that can be the second of a form.
fn second_of(form: ShortForm) -> Registers {
    match form {
        ShortForm::Addi4spn | ShortForm::Lwsp | ShortForm::Swsp => Registers::Stack,
        ShortForm::Mv | ShortForm::Add => Registers::NotZero,
        _ => Registers::Eight,
    }
}

/// Reads a register that is one of these.
fn read_register(line: &mut Line, wanted: Registers) -> usize {
    line.skip_blanks();
    let error = line.error(SourceErrorKind::Register);
    let register = line.register();
    if !wanted.have(register) {
        line.fail(error);
    }
    register
}

/// Reads `offset(register)`, or `(register)`, with which the offset is 0.
fn read_address(line: &mut Line, form: ShortForm) -> (u16, usize) {
    let imm = if is_register_enclosed(line) {
        0
    } else {
        read_number(line, form)
    };
    line.expect(b'(', SourceErrorKind::Parenthesis);
    let register = read_register(line, second_of(form));
    line.expect(b')', SourceErrorKind::Parenthesis);
    (imm, register)
}

/// Whether a register in parentheses is next.
fn is_register_enclosed(line: &Line) -> bool {
    let mut ahead = *line;
    ahead.take(b'(') && register_number(ahead.word()).is_some()
}

/// Reads a target: the offset to it, in two's complement.
fn read_target(line: &mut Line, reach: u32) -> u16
    requires { (0 < reach) × (reach ≤ 0x800) }
{
    let offset = line.offset(reach).cast_unsigned();
    (offset % (2 * reach)) as u16
}

/// Reads a number that is known here and that a form takes, in as many bits as the form has.
fn read_number(line: &mut Line, form: ShortForm) -> u16 {
    line.skip_blanks();
    let error = line.error(SourceErrorKind::Range);
    let (word, _) = split_word(line.rest);
    line.want(register_number(word).is_none(), SourceErrorKind::Value);
    let value = line.constant();
    if !takes(form, value.cast_signed()) {
        line.fail(error);
    }
    match form {
        ShortForm::Addi | ShortForm::Li | ShortForm::Andi | ShortForm::Lui => (value % 0x40) as u16,
        _ => (value % 0x400) as u16,
    }
}

/// Whether a form takes a number. That of `c.lui` is one of 20 bits, as in `lui`, whose upper 15
/// bits are alike.
fn takes(form: ShortForm, number: i64) -> bool {
    match form {
        ShortForm::Slli | ShortForm::Srli | ShortForm::Srai => number > 0 && number < 0x20,
        ShortForm::Lui => {
            number > 0 && number < 0x20 || number >= 0xf_ffe0 && number < 0x10_0000
        }
        ShortForm::Addi16sp => {
            number >= -0x200 && number < 0x200 && number != 0 && number % 0x10 == 0
        }
        ShortForm::Addi4spn => number > 0 && number < 0x400 && number % 4 == 0,
        ShortForm::Lw | ShortForm::Sw => number >= 0 && number < 0x80 && number % 4 == 0,
        ShortForm::Lwsp | ShortForm::Swsp => number >= 0 && number < 0x100 && number % 4 == 0,
        _ => number >= -0x20 && number < 0x20,
    }
}
