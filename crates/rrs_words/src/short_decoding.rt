//! Which compressed instruction a half-word is.

ghost use Rattle.std.specs.Prelude.{◌≡◌, ◌≢◌, ◌<◌, ◌*◌, ◌/◌, ◌%◌, ◌^◌, ℕ, IfSome, IfNone};
ghost use Rattle.rrs_words.specs.declared.forms.ShortForm.{ShortForm as Form};
ghost use Rattle.rrs_words.specs.declared.forms.ShortOperands.{ShortOperands as Operands};
ghost use Rattle.rrs_words.specs.Forms.{IsShort, immediate_bits, jump_offset};
ghost use Rattle.rrs_words.specs.FormBits.{HasBits};

use crate::forms::{ShortForm, ShortInstruction, ShortOperands};

/// The form of a half-word whose low bits are 00.
fn form_of_quadrant_0(half: u16) -> Option<ShortForm>
    requires { half % 4 ≡ 0 }
    ensures bits { IfSome result (HasBits half) }
    ensures only { IfSome result (λ form. (other : Form) → HasBits half other → other ≡ form) }
    ensures none { IfNone result ((form : Form) → ¬ HasBits half form) }
{
    match half / 0x2000 {
        0 if half / 0x20 % 0x100 != 0 => Some(ShortForm::Addi4spn),
        2 => Some(ShortForm::Lw),
        6 => Some(ShortForm::Sw),
        _ => None,
    }
}

/// The form of an operation on a register of three bits.
fn form_of_arithmetic(half: u16) -> Option<ShortForm>
    requires quadrant { half % 4 ≡ 1 }
    requires funct3 { half / 2 ^ 13 ≡ 4 }
    ensures bits { IfSome result (HasBits half) }
    ensures only { IfSome result (λ form. (other : Form) → HasBits half other → other ≡ form) }
    ensures none { IfNone result ((form : Form) → ¬ HasBits half form) }
{
    match (half / 0x400 % 8, half / 0x20 % 4) {
        (0, _) => Some(ShortForm::Srli),
        (1, _) => Some(ShortForm::Srai),
        (2 | 6, _) => Some(ShortForm::Andi),
        (3, 0) => Some(ShortForm::Sub),
        (3, 1) => Some(ShortForm::Xor),
        (3, 2) => Some(ShortForm::Or),
        (3, 3) => Some(ShortForm::And),
        _ => None,
    }
}

/// The form of a half-word whose low bits are 01.
fn form_of_quadrant_1(half: u16) -> Option<ShortForm>
    requires { half % 4 ≡ 1 }
    ensures bits { IfSome result (HasBits half) }
    ensures only { IfSome result (λ form. (other : Form) → HasBits half other → other ≡ form) }
    ensures none { IfNone result ((form : Form) → ¬ HasBits half form) }
{
    match half / 0x2000 {
        0 => Some(ShortForm::Addi),
        1 => Some(ShortForm::Jal),
        2 => Some(ShortForm::Li),
        3 if half / 0x1000 % 2 == 0 && half / 4 % 0x20 == 0 => None,
        3 if half / 0x80 % 0x20 == 2 => Some(ShortForm::Addi16sp),
        3 => Some(ShortForm::Lui),
        4 => form_of_arithmetic(half),
        5 => Some(ShortForm::J),
        6 => Some(ShortForm::Beqz),
        _ => Some(ShortForm::Bnez),
    }
}

/// The form of a half-word whose low bits are 10.
fn form_of_quadrant_2(half: u16) -> Option<ShortForm>
    requires { half % 4 ≡ 2 }
    ensures bits { IfSome result (HasBits half) }
    ensures only { IfSome result (λ form. (other : Form) → HasBits half other → other ≡ form) }
    ensures none { IfNone result ((form : Form) → ¬ HasBits half form) }
{
    let (first, second) = (half / 0x80 % 0x20, half / 4 % 0x20);
    match half / 0x1000 {
        0 => Some(ShortForm::Slli),
        4 | 5 if first != 0 => Some(ShortForm::Lwsp),
        8 if second != 0 => Some(ShortForm::Mv),
        8 if first != 0 => Some(ShortForm::Jr),
        9 if second != 0 => Some(ShortForm::Add),
        9 if first != 0 => Some(ShortForm::Jalr),
        9 => Some(ShortForm::Ebreak),
        12 | 13 => Some(ShortForm::Swsp),
        _ => None,
    }
}

/// The form of a half-word.
fn form_of(half: u16) -> Option<ShortForm>
    ensures bits { IfSome result (HasBits half) }
    ensures only { IfSome result (λ form. (other : Form) → HasBits half other → other ≡ form) }
    ensures none { IfNone result ((form : Form) → ¬ HasBits half form) }
{
    match half % 4 {
        0 => form_of_quadrant_0(half),
        1 => form_of_quadrant_1(half),
        2 => form_of_quadrant_2(half),
        _ => None,
    }
}

/// The operands of these registers and this immediate.
fn operands(first: u16, second: u16, imm: u16) -> ShortOperands
    ensures { (result.first ≡ first) × (result.second ≡ second) × (result.imm ≡ imm) }
{
    ShortOperands {
        first: usize::from(first),
        second: usize::from(second),
        imm,
    }
}

/// The operands of a form whose low bits are 00.
fn operands_of_quadrant_0(half: u16, form: ShortForm) -> ShortOperands
    requires quadrant { half % 4 ≡ 0 }
    requires bits { HasBits half form }
    ensures is { IsShort half form result }
    ensures only { (other : Operands) → IsShort half form other → other ≡ result }
{
    let (first, second) = (8 + half / 4 % 8, 8 + half / 0x80 % 8);
    match form {
        ShortForm::Addi4spn => {
            let low = half / 0x20 % 2 * 8 + half / 0x40 % 2 * 4;
            operands(
                first,
                2,
                low + half / 0x80 % 0x10 * 0x40 + half / 0x800 % 4 * 0x10,
            )
        }
        _ => {
            let imm = half / 0x20 % 2 * 0x40 + half / 0x40 % 2 * 4 + half / 0x400 % 8 * 8;
            operands(first, second, imm)
        }
    }
}

/// The operands of an operation on a register of three bits.
fn operands_of_arithmetic(half: u16, form: ShortForm) -> ShortOperands
    requires quadrant { half % 4 ≡ 1 }
    requires funct3 { half / 2 ^ 13 ≡ 4 }
    requires bits { HasBits half form }
    ensures is { IsShort half form result }
    ensures only { (other : Operands) → IsShort half form other → other ≡ result }
{
    let first = 8 + half / 0x80 % 8;
    match form {
        ShortForm::Srli | ShortForm::Srai => operands(first, 0, half / 4 % 0x20),
        ShortForm::Andi => operands(first, 0, half / 4 % 0x20 + half / 0x1000 % 2 * 0x20),
        _ => operands(first, 8 + half / 4 % 8, 0),
    }
}

/// The offset of `c.jal` or `c.j`, of the eleven bits from bit 2 on.
fn read_jump_offset(half: u16) -> u16
    ensures below { result < 2 ^ 12 }
    ensures even { result % 2 ≡ 0 }
    ensures bits { immediate_bits jump_offset.pieces result ≡ half / 2 ^ 2 % 2 ^ 11 * 2 ^ 2 }
    ensures only { (x : ℕ) → x < 2 ^ 12 → x % 2 ≡ 0
        → immediate_bits jump_offset.pieces x ≡ half / 2 ^ 2 % 2 ^ 11 * 2 ^ 2 → x ≡ result }
{
    half / 0x1000 % 2 * 0x800
        + half / 0x800 % 2 * 0x10
        + half / 0x200 % 4 * 0x100
        + half / 0x100 % 2 * 0x400
        + half / 0x80 % 2 * 0x40
        + half / 0x40 % 2 * 0x80
        + half / 8 % 8 * 2
        + half / 4 % 2 * 0x20
}

/// The operands of another form whose low bits are 01.
fn operands_of_quadrant_1(half: u16, form: ShortForm) -> ShortOperands
    requires quadrant { half % 4 ≡ 1 }
    requires funct3 { half / 2 ^ 13 ≢ 4 }
    requires bits { HasBits half form }
    ensures is { IsShort half form result }
    ensures only { (other : Operands) → IsShort half form other → other ≡ result }
{
    let six = half / 4 % 0x20 + half / 0x1000 % 2 * 0x20;
    match form {
        ShortForm::Jal => operands(0, 0, read_jump_offset(half)),
        ShortForm::J => operands(0, 0, read_jump_offset(half)),
        ShortForm::Addi16sp => {
            let low = half / 4 % 2 * 0x20 + half / 8 % 4 * 0x80 + half / 0x20 % 2 * 0x40;
            operands(
                2,
                0,
                low + half / 0x40 % 2 * 0x10 + half / 0x1000 % 2 * 0x200,
            )
        }
        ShortForm::Beqz | ShortForm::Bnez => {
            let low = half / 4 % 2 * 0x20 + half / 8 % 4 * 2 + half / 0x20 % 4 * 0x40;
            let imm = low + half / 0x400 % 4 * 8 + half / 0x1000 % 2 * 0x100;
            operands(8 + half / 0x80 % 8, 0, imm)
        }
        _ => operands(half / 0x80 % 0x20, 0, six),
    }
}

/// The operands of a form whose low bits are 10.
fn operands_of_quadrant_2(half: u16, form: ShortForm) -> ShortOperands
    requires quadrant { half % 4 ≡ 2 }
    requires bits { HasBits half form }
    ensures is { IsShort half form result }
    ensures only { (other : Operands) → IsShort half form other → other ≡ result }
{
    let (first, second) = (half / 0x80 % 0x20, half / 4 % 0x20);
    match form {
        ShortForm::Slli => operands(first, 0, second),
        ShortForm::Lwsp => {
            let imm = half / 4 % 4 * 0x40 + half / 0x10 % 8 * 4 + half / 0x1000 % 2 * 0x20;
            operands(first, 2, imm)
        }
        ShortForm::Jr | ShortForm::Jalr => operands(first, 0, 0),
        ShortForm::Ebreak => operands(0, 0, 0),
        ShortForm::Swsp => {
            let imm = half / 0x80 % 4 * 0x40 + half / 0x200 % 0x10 * 4;
            operands(second, 2, imm)
        }
        _ => operands(first, second, 0),
    }
}

/// The operands of a form.
fn operands_of(half: u16, form: ShortForm) -> ShortOperands
    requires { HasBits half form }
    ensures is { IsShort half form result }
    ensures only { (other : Operands) → IsShort half form other → other ≡ result }
{
    match half % 4 {
        0 => operands_of_quadrant_0(half, form),
        1 if half / 0x2000 == 4 => operands_of_arithmetic(half, form),
        1 => operands_of_quadrant_1(half, form),
        _ => operands_of_quadrant_2(half, form),
    }
}

/// The compressed instruction that a half-word is, or `None`.
///
/// The clauses: the half-word is the instruction that is returned (`decoded`), and no other
/// (`only`); at `None` it is none (`outside`). A hint is an instruction, which changes no register.
/// The first half of a word, whose low bits are 11, is none.
///
/// # Examples
///
/// ```
/// let operands = ShortOperands { first: 2, second: 0, imm: 0x3f0 };
/// let step = ShortInstruction { form: ShortForm::Addi16sp, operands };
/// assert_eq!(rt; decode_short(0x717d), Some(step));
/// assert_eq!(rt; decode_short(0x0000), None);
/// ```
pub fn decode_short(half: u16) -> Option<ShortInstruction>
    ensures decoded { IfSome result (λ short. IsShort half short.form short.operands) }
    ensures only { IfSome result (λ short. (form : Form) (o : Operands)
        → IsShort half form o → (form ≡ short.form) × (o ≡ short.operands)) }
    ensures outside { IfNone result ((form : Form) (o : Operands) → ¬ IsShort half form o) }
{
    let form = form_of(half)?;
    let operands = operands_of(half, form);
    Some(ShortInstruction { form, operands })
}
