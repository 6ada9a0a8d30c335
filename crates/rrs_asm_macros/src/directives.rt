//! The directives that are expanded, by their names.

ghost use Rattle.std.specs.Prelude.{◌≡◌};
ghost use Rattle.std.specs.List.{list_any};
ghost use Rattle.std.specs.Map.{lookup};
ghost use Rattle.std.specs.Str.{str_eq_ignore_ascii_case};
ghost use Rattle.rrs_asm_macros.specs.Directives.{directive_named, is_directive};
ghost use Rattle.rrs_asm_macros.specs.Conditions.{compares};

/// What a condition asks of two values, or of one and zero.
#[derive(Clone, Copy)]
pub enum Comparison {
    Equal,
    NotEqual,
    Less,
    LessOrEqual,
    Greater,
    GreaterOrEqual,
}

impl Comparison {
    /// Whether it holds of two signed numbers.
    pub fn holds(self, left: u64, right: u64) -> bool
        ensures { result ≡ compares self left right }
    {
        let left = left.cast_signed();
        let right = right.cast_signed();
        match self {
            Comparison::Equal => left == right,
            Comparison::NotEqual => left != right,
            Comparison::Less => left < right,
            Comparison::LessOrEqual => left <= right,
            Comparison::Greater => left > right,
            Comparison::GreaterOrEqual => left >= right,
        }
    }
}

/// What a condition asks.
#[derive(Clone, Copy)]
pub enum Test {
    /// How a value compares with zero.
    Compared(Comparison),
    /// Whether a symbol is defined before, or is not.
    Defined(bool),
    /// Whether nothing stands there, or something does.
    Blank(bool),
    /// Whether two texts are equal, or are not.
    SameText(bool),
    /// Whether two strings are equal, or are not.
    SameString(bool),
}

/// A directive that is expanded.
#[derive(Clone, Copy)]
pub enum Directive {
    Macro,
    EndMacro,
    ExitMacro,
    Purge,
    Repeat,
    RepeatEach,
    RepeatCharacters,
    EndRepeat,
    If(Test),
    ElseIf,
    Else,
    EndIf,
}

/// The names of the directives.
const NAMES: [(&[u8], Directive); 30] = [
    (b".macro", Directive::Macro),
    (b".endm", Directive::EndMacro),
    (b".exitm", Directive::ExitMacro),
    (b".purgem", Directive::Purge),
    (b".rept", Directive::Repeat),
    (b".rep", Directive::Repeat),
    (b".irp", Directive::RepeatEach),
    (b".irpc", Directive::RepeatCharacters),
    (b".endr", Directive::EndRepeat),
    (b".if", Directive::If(Test::Compared(Comparison::NotEqual))),
    (
        b".ifne",
        Directive::If(Test::Compared(Comparison::NotEqual)),
    ),
    (b".ifeq", Directive::If(Test::Compared(Comparison::Equal))),
    (
        b".ifge",
        Directive::If(Test::Compared(Comparison::GreaterOrEqual)),
    ),
    (b".ifgt", Directive::If(Test::Compared(Comparison::Greater))),
    (
        b".ifle",
        Directive::If(Test::Compared(Comparison::LessOrEqual)),
    ),
    (b".iflt", Directive::If(Test::Compared(Comparison::Less))),
    (b".ifdef", Directive::If(Test::Defined(true))),
    (b".ifndef", Directive::If(Test::Defined(false))),
    (b".ifnotdef", Directive::If(Test::Defined(false))),
    (b".ifb", Directive::If(Test::Blank(true))),
    (b".ifnb", Directive::If(Test::Blank(false))),
    (b".ifc", Directive::If(Test::SameText(true))),
    (b".ifnc", Directive::If(Test::SameText(false))),
    (b".ifeqs", Directive::If(Test::SameString(true))),
    (b".ifnes", Directive::If(Test::SameString(false))),
    (b".elseif", Directive::ElseIf),
    (b".else", Directive::Else),
    (b".endif", Directive::EndIf),
    (b".endc", Directive::EndIf),
    (b".elsec", Directive::Else),
];

/// Whether two words are equal, in capitals or not.
fn are_same(one: &[u8], other: &[u8]) -> bool
    ensures { result ≡ str_eq_ignore_ascii_case one.now other.now }
{
    one.eq_ignore_ascii_case(other)
}

/// The directive with a name, in capitals or not.
pub fn directive_named(word: &[u8]) -> Option<Directive>
    ensures { result ≡ directive_named word.now }
{
    if word.first() != Some(&b'.') {
        return None;
    }
    meaning_among(&NAMES, word)
}

/// The directive of a word that stands in a table, in capitals or not.
fn meaning_among(table: &[(&[u8], Directive)], word: &[u8]) -> Option<Directive>
    ensures { result ≡ lookup (λ name. str_eq_ignore_ascii_case word.now name.now) table.now }
{
    for (name, directive) in table {
        if are_same(word, name) {
            return Some(*directive);
        }
    }
    None
}

/// Whether a word is the name of a directive, in capitals or not.
pub fn is_directive(word: &[u8]) -> bool
    ensures { result ≡ is_directive word.now }
{
    is_among(&NAMES, word)
}

/// Whether a word stands in a table, in capitals or not.
pub fn is_among(table: &[(&[u8], Directive)], word: &[u8]) -> bool
    ensures { result
        ≡ list_any (λ e. str_eq_ignore_ascii_case word.now e.0.now) table.now }
{
    for (name, _) in table {
        if are_same(word, name) {
            return true;
        }
    }
    false
}
