//! Parameters of macros, and the arguments that a call gives them.

ghost use Rattle.std.specs.Prelude.{◌≡◌, ◌<◌, ◌≤◌, ◌++◌, ◌∷◌, [], false, true, None, Some, IfSome, IfNone, IfErr, IfOk, is_none, ◌==◌, length, take};
ghost use Rattle.std.specs.Bool.{OnFalse, OnTrue};
ghost use Rattle.std.specs.List.{HoldsAt};
ghost use Rattle.rrs_asm_lines.specs.Lines.{begins_with, behind_blanks, behind_word, is_name, word};
ghost use Rattle.rrs_asm_macros.specs.declared.errors.Halt.{Halt};
ghost use Rattle.rrs_asm_macros.specs.Arguments.{by_place, decimal_of, has_name, kind_of, named, string_from, behind_string};
ghost use Rattle.rrs_asm_macros.specs.Operands.{Halts, Reads, behind_mark, next_byte, slip_at};
ghost use Rattle.rrs_asm_macros.specs.Scanning.{first_of};

use crate::cursor::Cursor;
use crate::errors::MacroErrorKind;
use crate::values::character;
use rrs_asm_lines::is_name;
use std::alloc::Allocator;

/// The most parameters of a macro.
const MOST_PARAMETERS: usize = 256;

/// What a parameter takes.
#[derive(Clone, Copy)]
pub enum Kind {
    /// An argument, or its default.
    Optional,
    /// An argument that has to be there.
    Required,
    /// All that is left.
    Rest,
}

/// A parameter.
#[derive(Drop)]
pub struct Parameter<A: Allocator> {
    pub name: Vec<u8, A>,
    pub default: Vec<u8, A>,
    pub kind: Kind,
}

/// Takes the parameters of a macro.
pub fn take_parameters<A: Allocator + Copy>(alloc: A, cursor: &mut Cursor) -> Vec<Parameter<A>, A> {
    let mut parameters = Vec::new(alloc);
    for _ in 0..u64::MAX {
        if cursor.is_over() {
            break;
        }
        let slip = cursor.slip(MacroErrorKind::DuplicateParameter);
        let parameter = take_parameter(alloc, cursor);
        if let Some(kind) = mistake_behind(&parameters, &parameter.name) {
            cursor.fail(slip.with_kind(kind));
        }
        cursor.keep(parameters.push(parameter).is_ok());
        cursor.skip_comma();
    }
    parameters
}

/// What is wrong with a parameter of this name after others, if something is.
fn mistake_behind<A: Allocator + Copy>(
    parameters: &[Parameter<A>],
    name: &[u8],
) -> Option<MacroErrorKind>
    ensures twice { has_name parameters.now name.now ≡ true
        → result ≡ Some MacroErrorKind.DuplicateParameter }
    ensures many { result ≡ Some MacroErrorKind.Parameters → 256 ≤ length parameters.now }
    ensures none { IfNone result ((has_name parameters.now name.now ≡ false)
        × (length parameters.now < 256)) }
{
    if index_of(parameters, name).is_some() {
        return Some(MacroErrorKind::DuplicateParameter);
    }
    if parameters.len() >= MOST_PARAMETERS {
        return Some(MacroErrorKind::Parameters);
    }
    match parameters.last()?.kind {
        Kind::Rest => Some(MacroErrorKind::BehindRest),
        _ => None,
    }
}

/// Takes a parameter: its name, what it takes, and its default.
fn take_parameter<A: Allocator + Copy>(alloc: A, cursor: &mut Cursor) -> Parameter<A>
    ensures name { OnTrue (is_none cursor.new.mistake)
        (result.name.items ≡ word cursor.old.rest.now) }
    ensures kind { OnTrue (is_none cursor.new.mistake)
        (take 1 (behind_blanks (behind_word cursor.old.rest.now)) ≡ 58 ∷ []
        → kind_of (word (behind_mark (behind_word cursor.old.rest.now))) ≡ Some result.kind) }
{
    let name = cursor.name();
    let kind = take_kind(cursor);
    let mut parameter = Parameter {
        name: copied(alloc, name, cursor),
        default: Vec::new(alloc),
        kind,
    };
    if cursor.take_if(b"=") {
        take_argument(cursor, &mut parameter.default);
    }
    parameter
}

/// A copy of bytes. Where memory is missing, that is kept, and there is none of them.
pub fn copied<A: Allocator + Copy>(alloc: A, bytes: &[u8], cursor: &mut Cursor) -> Vec<u8, A>
    ensures copy { OnTrue (is_none cursor.new.mistake) (result.items ≡ bytes.now) }
    ensures kept { OnTrue (is_none cursor.new.mistake) (cursor.new ≡ cursor.old) }
    ensures first { IfSome cursor.old.mistake (λ halt. cursor.new.mistake ≡ Some halt) }
{
    match Vec::from_slice(alloc, bytes) {
        Ok(copy) => copy,
        Err(_) => {
            cursor.keep(false);
            Vec::new(alloc)
        }
    }
}

/// Takes what a parameter takes, if it is said.
fn take_kind(cursor: &mut Cursor) -> Kind
    ensures none { (take 1 (behind_blanks cursor.old.rest.now) ≡ 58 ∷ [] → ⊥)
        → (result ≡ Kind.Optional) × (cursor.new ≡ cursor.old) }
    ensures said { take 1 (behind_blanks cursor.old.rest.now) ≡ 58 ∷ []
        → IfSome (kind_of (word (behind_mark cursor.old.rest.now))) (λ kind. (result ≡ kind)
        × Reads cursor.old cursor.new (behind_word (behind_mark cursor.old.rest.now))) }
    ensures wrong { take 1 (behind_blanks cursor.old.rest.now) ≡ 58 ∷ []
        → IfNone (kind_of (word (behind_mark cursor.old.rest.now)))
        (Halts cursor.old cursor.new (Halt.Slip (slip_at (behind_mark cursor.old.rest.now)
        cursor.old.behind MacroErrorKind.Qualifier))) }
{
    if !cursor.take_if(b":") {
        return Kind::Optional;
    }
    let slip = cursor.slip(MacroErrorKind::Qualifier);
    let word = cursor.word();
    if word == b"req".as_slice() {
        return Kind::Required;
    }
    if word == b"vararg".as_slice() {
        return Kind::Rest;
    }
    cursor.fail(slip);
    Kind::Optional
}

/// Which parameter has a name.
pub fn index_of<A: Allocator + Copy>(parameters: &[Parameter<A>], name: &[u8]) -> Option<usize>
    ensures found { IfSome result (λ i.
        HoldsAt (λ p. named name.now p ≡ true) parameters.now i) }
    ensures within { IfSome result (λ i. i < length parameters.now) }
    ensures absent { IfNone result (has_name parameters.now name.now ≡ false) }
{
    for (index, parameter) in parameters.iter().enumerate() {
        if parameter.name.as_slice() == name {
            return Some(index);
        }
    }
    None
}

/// Takes the arguments of a call: of each parameter the one in its place, which is empty where none
/// is given.
pub fn arguments<A: Allocator + Copy>(
    alloc: A,
    cursor: &mut Cursor,
    parameters: &[Parameter<A>],
) -> Vec<Vec<u8, A>, A> {
    let call = cursor.slip(MacroErrorKind::Missing);
    let mut values = Vec::new(alloc);
    for _ in parameters {
        cursor.keep(values.push(Vec::new(alloc)).is_ok());
    }
    take_arguments(cursor, parameters, &mut values);
    for (parameter, value) in parameters.iter().zip(&values) {
        if matches!(parameter.kind, Kind::Required) && value.is_empty() {
            cursor.fail(call);
        }
    }
    values
}

/// Takes the arguments of a call, each as the value of its parameter.
fn take_arguments<A: Allocator + Copy>(
    cursor: &mut Cursor,
    parameters: &[Parameter<A>],
    values: &mut Vec<Vec<u8, A>, A>,
) {
    let mut next = 0usize;
    let mut is_named = false;
    for _ in 0..u64::MAX {
        if cursor.is_over() {
            break;
        }
        let place = cursor.slip(MacroErrorKind::NoParameter);
        let name = take_keyword(cursor);
        is_named = is_named || name.is_some();
        match parameter_for(parameters, name, next, is_named) {
            Ok(index) => take_value(cursor, parameters, index, values),
            Err(kind) => cursor.fail(place.with_kind(kind)),
        }
        next = next.saturating_add(1);
        cursor.skip_comma();
    }
}

/// Takes the name of the next argument and the `=` after it, if it has one.
fn take_keyword<'a>(cursor: &mut Cursor<'a>) -> Option<&'a [u8]>
    ensures name { IfSome result (λ name. (name.now ≡ word cursor.old.rest.now)
        × (is_name name.now ≡ true)) }
    ensures marked { IfSome result (λ _.
        take 1 (behind_blanks (behind_word cursor.old.rest.now)) ≡ 61 ∷ []) }
    ensures reads { IfSome result (λ _. Reads cursor.old cursor.new
        (behind_mark (behind_word cursor.old.rest.now))) }
    ensures none { IfNone result (cursor.new ≡ cursor.old) }
    ensures unnamed { IfNone result (OnTrue (is_name (word cursor.old.rest.now))
        (take 1 (behind_blanks (behind_word cursor.old.rest.now)) ≡ 61 ∷ [] → ⊥)) }
{
    let mut ahead = *cursor;
    let word = ahead.word();
    if !is_name(word) || !ahead.take_if(b"=") {
        return None;
    }
    *cursor = ahead;
    Some(word)
}

/// Which parameter an argument is of, or what is wrong with it.
fn parameter_for<A: Allocator + Copy>(
    parameters: &[Parameter<A>],
    name: Option<&[u8]>,
    next: usize,
    is_named: bool,
) -> Result<usize, MacroErrorKind>
    ensures placed { IfNone name.entry (result ≡ by_place (length parameters.now) next is_named) }
    ensures known { IfSome name.entry (λ own. IfOk result (λ i.
        HoldsAt (λ p. named own.now p ≡ true) parameters.now i)) }
    ensures unknown { IfSome name.entry (λ own. IfErr result (λ kind.
        (kind ≡ MacroErrorKind.NoParameter) × (has_name parameters.now own.now ≡ false))) }
{
    match name {
        Some(name) => index_of(parameters, name).ok_or(MacroErrorKind::NoParameter),
        None if is_named => Err(MacroErrorKind::Mixed),
        None if next < parameters.len() => Ok(next),
        None => Err(MacroErrorKind::Arguments),
    }
}

/// Takes an argument as the value of a parameter.
fn take_value<A: Allocator + Copy>(
    cursor: &mut Cursor,
    parameters: &[Parameter<A>],
    index: usize,
    values: &mut Vec<Vec<u8, A>, A>,
) {
    let (Some(parameter), Some(value)) = (parameters.get(index), values.get_mut(index)) else {
        return;
    };
    value.clear();
    match parameter.kind {
        Kind::Rest => take_all(cursor, value, None),
        _ => take_argument(cursor, value),
    }
}

/// Takes an argument: a string without its quotation marks, or what stands before a comma or a
/// blank, with blanks in parentheses and brackets.
pub fn take_argument<A: Allocator>(cursor: &mut Cursor, value: &mut Vec<u8, A>)
    ensures string { take 1 (behind_blanks cursor.old.rest.now) ≡ 34 ∷ []
        → OnTrue (is_none cursor.new.mistake) (value.new.items ≡ value.old.items
        ++ string_from false false false (behind_mark cursor.old.rest.now)) }
    ensures first { IfSome cursor.old.mistake (λ halt. cursor.new.mistake ≡ Some halt) }
{
    if cursor.take_if(b"\"") {
        return take_string(cursor, value, false);
    }
    let mut depth = 0usize;
    for _ in 0..u64::MAX {
        match cursor.peek() {
            None | Some(b',') => break,
            Some(b' ') if depth == 0 => break,
            Some(b'(' | b'[') => depth = depth.saturating_add(1),
            Some(b')' | b']') => depth = depth.saturating_sub(1),
            _ => (),
        }
        take_piece(cursor, value);
    }
}

/// Takes all that is left before a byte, without blanks that mean nothing.
pub fn take_all<A: Allocator>(cursor: &mut Cursor, value: &mut Vec<u8, A>, end: Option<u8>)
    ensures first { IfSome cursor.old.mistake (λ halt. cursor.new.mistake ≡ Some halt) }
{
    for _ in 0..u64::MAX {
        let next = cursor.peek();
        if next.is_none() || next == end {
            break;
        }
        take_piece(cursor, value);
    }
}

/// Takes a byte, a string as it stands, or a character constant as its number, which GNU `as` makes
/// of it before it looks at macros.
fn take_piece<A: Allocator>(cursor: &mut Cursor, value: &mut Vec<u8, A>)
    ensures byte { OnTrue (is_none cursor.new.mistake)
        (IfSome (next_byte cursor.old.before cursor.old.rest.now) (λ next. OnFalse (next.0 == 39)
        (OnFalse (next.0 == 34) ((value.new.items ≡ value.old.items ++ next.0 ∷ [])
        × (cursor.new.rest.now ≡ next.1))))) }
    ensures string { OnTrue (is_none cursor.new.mistake)
        (IfSome (next_byte cursor.old.before cursor.old.rest.now) (λ next. OnTrue (next.0 == 34)
        ((value.new.items ≡ value.old.items ++ 34 ∷ string_from true false false next.1)
        × (cursor.new.rest.now ≡ behind_string false false next.1)))) }
    ensures number { OnTrue (is_none cursor.new.mistake)
        (IfSome (next_byte cursor.old.before cursor.old.rest.now) (λ next. OnTrue (next.0 == 39)
        (OnFalse (begins_with 92 next.1) (IfSome (first_of next.1) (λ byte.
        value.new.items ≡ value.old.items ++ decimal_of byte))))) }
    ensures over { next_byte cursor.old.before cursor.old.rest.now ≡ None
        → (value.new ≡ value.old) × (cursor.new ≡ cursor.old) }
    ensures first { IfSome cursor.old.mistake (λ halt. cursor.new.mistake ≡ Some halt) }
{
    match cursor.take() {
        Some(b'\'') => {
            if let Some(number) = character(cursor) {
                put_decimal(number, cursor, value);
            }
        }
        Some(byte) => {
            cursor.put(byte, value);
            if byte == b'"' {
                take_string(cursor, value, true);
            }
        }
        None => (),
    }
}

/// Appends a number.
fn put_decimal<A: Allocator>(number: u8, cursor: &mut Cursor, value: &mut Vec<u8, A>)
    ensures put { OnTrue (is_none cursor.new.mistake)
        (value.new.items ≡ value.old.items ++ decimal_of number) }
    ensures kept { OnTrue (is_none cursor.new.mistake) (cursor.new ≡ cursor.old) }
    ensures first { IfSome cursor.old.mistake (λ halt. cursor.new.mistake ≡ Some halt) }
{
    if number >= 100 {
        cursor.put(b'0' + number / 100, value);
    }
    if number >= 10 {
        cursor.put(b'0' + number / 10 % 10, value);
    }
    cursor.put(b'0' + number % 10, value);
}

/// Takes what is left of a string, with or without the quotation mark that ends it. Two of them are
/// one, and are kept as two.
pub fn take_string<A: Allocator>(cursor: &mut Cursor, value: &mut Vec<u8, A>, keeps_marks: bool)
    ensures text { OnTrue (is_none cursor.new.mistake) (value.new.items
        ≡ value.old.items ++ string_from keeps_marks false false cursor.old.rest.now) }
    ensures left { OnTrue (is_none cursor.new.mistake)
        (cursor.new.rest.now ≡ behind_string false false cursor.old.rest.now) }
    ensures first { IfSome cursor.old.mistake (λ halt. cursor.new.mistake ≡ Some halt) }
{
    let mut is_escaped = false;
    while let Some(byte) = cursor.take_raw() {
        if byte == b'"' && !is_escaped {
            if keeps_marks {
                cursor.put(b'"', value);
            }
            if !cursor.take_next(b'"') {
                break;
            }
        }
        cursor.put(byte, value);
        is_escaped = byte == b'\\' && !is_escaped;
    }
}
