//! The names of pseudo-instructions and of directives.

ghost use Rattle.std.specs.Prelude.{◌≡◌, ℕ, Bool, true, List, IfSome};
ghost use Rattle.std.specs.List.{list_all};
ghost use Rattle.rrs_asm_lines.specs.Lines.{words_of};
ghost use Rattle.rrs_asm.specs.Forms.{form_name, IsForm};
ghost use Rattle.rrs_asm.specs.declared.names.DirectiveForm.{DirectiveForm};
ghost use Rattle.rrs_asm.specs.declared.names.PseudoForm.{PseudoForm};

use crate::pseudo::{SwappedBranch, SwappedComparison, Unary, ZeroBranch};
use rrs_asm_lines::place_among;

/// A pseudo-instruction by how its operands are written.
#[derive(Clone, Copy)]
pub enum PseudoForm {
    Nop,
    Ret,
    /// `li rd, value`.
    Li,
    /// `la rd, symbol`.
    La,
    /// `lla rd, symbol`.
    Lla,
    /// `rd, rs, rt`.
    Compared(SwappedComparison),
    /// `jump symbol, rt`.
    Jump,
    /// `rd, rs`.
    OfOne(Unary),
    /// `rs, target`.
    AgainstZero(ZeroBranch),
    /// `rs, rt, target`.
    Swapped(SwappedBranch),
    /// `j target`.
    J,
    /// `jr rs`.
    Jr,
    /// `call symbol`.
    Call,
    /// `tail symbol`.
    Tail,
}

/// The pseudo-instructions whose names are those of no row.
const FORMS: [(&[u8], PseudoForm); 30] = [
    (b"nop", PseudoForm::Nop),
    (b"ret", PseudoForm::Ret),
    (b"li", PseudoForm::Li),
    (b"la", PseudoForm::La),
    (b"lla", PseudoForm::Lla),
    (b"sgt", PseudoForm::Compared(SwappedComparison::Sgt)),
    (b"sgtu", PseudoForm::Compared(SwappedComparison::Sgtu)),
    (b"jump", PseudoForm::Jump),
    (b"zext.b", PseudoForm::OfOne(Unary::ZextB)),
    (b"mv", PseudoForm::OfOne(Unary::Mv)),
    (b"not", PseudoForm::OfOne(Unary::Not)),
    (b"neg", PseudoForm::OfOne(Unary::Neg)),
    (b"seqz", PseudoForm::OfOne(Unary::Seqz)),
    (b"snez", PseudoForm::OfOne(Unary::Snez)),
    (b"sltz", PseudoForm::OfOne(Unary::Sltz)),
    (b"sgtz", PseudoForm::OfOne(Unary::Sgtz)),
    (b"beqz", PseudoForm::AgainstZero(ZeroBranch::Beqz)),
    (b"bnez", PseudoForm::AgainstZero(ZeroBranch::Bnez)),
    (b"blez", PseudoForm::AgainstZero(ZeroBranch::Blez)),
    (b"bgez", PseudoForm::AgainstZero(ZeroBranch::Bgez)),
    (b"bltz", PseudoForm::AgainstZero(ZeroBranch::Bltz)),
    (b"bgtz", PseudoForm::AgainstZero(ZeroBranch::Bgtz)),
    (b"bgt", PseudoForm::Swapped(SwappedBranch::Bgt)),
    (b"ble", PseudoForm::Swapped(SwappedBranch::Ble)),
    (b"bgtu", PseudoForm::Swapped(SwappedBranch::Bgtu)),
    (b"bleu", PseudoForm::Swapped(SwappedBranch::Bleu)),
    (b"j", PseudoForm::J),
    (b"jr", PseudoForm::Jr),
    (b"call", PseudoForm::Call),
    (b"tail", PseudoForm::Tail),
];

/// The pseudo-instruction of a name.
pub fn pseudo_named(name: &[u8]) -> Option<PseudoForm>
    ensures { IfSome result (λ form. form_name form ≡ name.now) }
{
    pseudo_in(&FORMS, name)
}

/// What stands beside a name in a table. A test that all entries pass, it passes with the name.
fn pseudo_in(table: &[(&[u8], PseudoForm)], name: &[u8]) -> Option<PseudoForm>
    ensures { (fits : List ℕ → PseudoForm → Bool)
        → list_all (λ e. fits e.0.now e.1) table.now ≡ true
        → IfSome result (λ form. fits name.now form ≡ true) }
{
    for (own, form) in table {
        if *own == name {
            return Some(*form);
        }
    }
    None
}

/// A directive that puts bytes at its address, by how its operands are written.
#[derive(Clone, Copy)]
pub enum DataForm {
    /// Numbers of so many bits each.
    Numbers(u32),
    /// Strings, with a zero byte after each or not.
    Strings(bool),
    /// A number, so often as is said.
    Pattern,
    /// An alignment, as a power of 2 or in bytes.
    Alignment(bool),
}

/// A directive that puts something at its address, by how its operands are written.
#[derive(Clone, Copy)]
pub enum PlacedForm {
    /// Bytes.
    Data(DataForm),
    /// A number of bytes, and which byte.
    Space,
    /// The address of what follows.
    Origin,
}

/// A directive by what it says.
#[derive(Clone, Copy)]
pub enum DirectiveForm {
    /// What stands at its address.
    Place(PlacedForm),
    /// That a constant has a value.
    Constant,
    /// That a section follows.
    Section,
    /// That a symbol has bytes in `COMMON`.
    Common,
    /// An option, of which some would mean other instructions.
    Option,
    /// What means nothing here: of symbols, of the file, or of debugging.
    Silent,
    /// What lays bytes out in GNU `as`, or speaks of debugging, and is not implemented here.
    Refused,
}

/// The directives, which begin with a dot, by what they say.
static DIRECTIVES: [(&[u8], DirectiveForm); 17] = [
    (
        b".word .long .4byte .int",
        DirectiveForm::Place(PlacedForm::Data(DataForm::Numbers(32))),
    ),
    (
        b".half .short .2byte .hword",
        DirectiveForm::Place(PlacedForm::Data(DataForm::Numbers(16))),
    ),
    (
        b".byte",
        DirectiveForm::Place(PlacedForm::Data(DataForm::Numbers(8))),
    ),
    (
        b".dword .quad .8byte",
        DirectiveForm::Place(PlacedForm::Data(DataForm::Numbers(64))),
    ),
    (
        b".ascii",
        DirectiveForm::Place(PlacedForm::Data(DataForm::Strings(false))),
    ),
    (
        b".asciz .string",
        DirectiveForm::Place(PlacedForm::Data(DataForm::Strings(true))),
    ),
    (
        b".fill",
        DirectiveForm::Place(PlacedForm::Data(DataForm::Pattern)),
    ),
    (
        b".align .p2align",
        DirectiveForm::Place(PlacedForm::Data(DataForm::Alignment(true))),
    ),
    (
        b".balign",
        DirectiveForm::Place(PlacedForm::Data(DataForm::Alignment(false))),
    ),
    (
        b".space .zero .skip",
        DirectiveForm::Place(PlacedForm::Space),
    ),
    (b".org", DirectiveForm::Place(PlacedForm::Origin)),
    (b".equ .set", DirectiveForm::Constant),
    (b".text .data .bss .rodata .section", DirectiveForm::Section),
    (b".option", DirectiveForm::Option),
    (SILENT, DirectiveForm::Silent),
    (REFUSED, DirectiveForm::Refused),
    (b".comm .lcomm", DirectiveForm::Common),
];

/// The directives that mean nothing here.
const SILENT: &[u8] =
    b".globl .global .local .weak .hidden .internal .protected .extern .type .size .file \
    .ident .attribute .loc .cfi_startproc .cfi_endproc .cfi_sections .cfi_def_cfa \
    .cfi_def_cfa_offset .cfi_def_cfa_register .cfi_adjust_cfa_offset .cfi_offset \
    .cfi_rel_offset .cfi_register .cfi_restore .cfi_undefined .cfi_same_value \
    .cfi_remember_state .cfi_restore_state .cfi_return_column .cfi_signal_frame \
    .cfi_personality .cfi_lsda .cfi_escape";

/// The directives that are not implemented here, and lay bytes out in GNU `as` or speak of
/// debugging.
const REFUSED: &[u8] =
    b".uleb128 .sleb128 .float .double .single .octa .dcb .ds .incbin .insn .reloc .float16 \
    .base64 .dtprelword .dtpreldword .line .stabs .stabn .stabd .inst .string8 .string16 \
    .string32 .string64 .ln .half_float .bfloat16";

/// The other directives that GNU `as` has, and that are not implemented here.
const UNSUPPORTED: &[u8] =
    b".include .subsection .struct .offset .weakref .symver .version .vtable_entry \
    .vtable_inherit .balignw .balignl .p2alignw .p2alignl .bundle_align_mode .linkonce \
    .pushsection .popsection .previous .macro .endm .exitm .purgem .rept .endr .irp .irpc \
    .if .ifdef .ifndef .else .elseif .endif .altmacro .noaltmacro .end .err .error .warning \
    .print .func .endfunc .lflags .list .nolist .title .sbttl .psize .eject .abort \
    .cfi_fde_data .cfi_b_key_frame .cfi_val_offset .cfi_label .cfi_inline_lsda \
    .cfi_window_save .gnu_attribute .tls_common .zerofill";

/// Whether GNU `as` has a directive of this name, of which nothing is known here.
pub fn is_unsupported(name: &[u8]) -> bool {
    place_among(UNSUPPORTED, name).is_some()
}

/// What the directive of a name says.
pub fn directive_named(name: &[u8]) -> Option<DirectiveForm>
    ensures { IfSome result (IsForm name.now) }
{
    directive_in(&DIRECTIVES, name)
}

/// What stands beside words in a table, one of which is the name. A test that all words pass with
/// what stands beside them, the name passes with it.
fn directive_in(table: &[(&[u8], DirectiveForm)], name: &[u8]) -> Option<DirectiveForm>
    ensures { (fits : List ℕ → DirectiveForm → Bool)
        → list_all (λ e. list_all (λ own. fits own e.1) (words_of e.0.now)) table.now ≡ true
        → IfSome result (λ form. fits name.now form ≡ true) }
{
    for (words, form) in table {
        if place_among(words, name).is_some() {
            return Some(*form);
        }
    }
    None
}
