//! A macro's body with arguments in the places of its parameters.

ghost use Rattle.std.specs.Prelude.{◌≡◌, ◌≢◌, ◌⊎◌, ◌+◌, ◌<◌, ℕ, List, [], ◌∷◌, Some, IfSome, IsSome, drop, length, take};
ghost use Rattle.std.specs.Bool.{OnTrue, OnFalse};
ghost use Rattle.rrs_asm_lines.specs.Lines.{begins_with};
ghost use Rattle.rrs_asm_macros.specs.Arguments.{has_name};
ghost use Rattle.rrs_asm_macros.specs.Operands.{capped};
ghost use Rattle.rrs_asm_macros.specs.Scanning.{has_parameters};
ghost use Rattle.rrs_asm_macros.specs.Substitution.{IsValue, in_parentheses, name_after, or_default, size_with, value_at};

use crate::arguments::{Parameter, index_of};
use crate::scanning::{Place, first_of, first_statement};
use rrs_asm_lines::split_word;
use std::alloc::{AllocError, Allocator};

/// Appends a body with the values of the parameters in their places, and the number of the call in
/// that of `\@`. In a character constant nothing is replaced: `'\n'` is one byte.
pub fn substitute<A: Allocator + Copy>(
    alloc: A,
    body: &[u8],
    parameters: &[Parameter<A>],
    values: &[Vec<u8, A>],
    call: u64,
    out: &mut Vec<u8, A>,
) -> Result<(), AllocError> {
    let number = format!(in alloc; "{call}")?;
    let mut rest = body;
    let mut place = Place::Plain;
    for _ in 0..body.len() {
        let [byte, others @ ..] = rest else {
            break;
        };
        let (piece, taken) = piece(rest, place, parameters, values, number.as_bytes());
        out.extend_from_slice(piece)?;
        if taken == 1 {
            place = match *byte {
                b'\n' => Place::Plain,
                byte => place.behind(byte, first_of(others)),
            };
        }
        rest = rest.get(taken..).unwrap_or(&[]);
    }
    Ok(())
}

/// What the first bytes of a text at a place stand for, and how many these are.
fn piece<'a, A: Allocator + Copy>(
    text: &'a [u8],
    place: Place,
    parameters: &'a [Parameter<A>],
    values: &'a [Vec<u8, A>],
    number: &'a [u8],
) -> (&'a [u8], usize)
    ensures character { OnFalse (has_parameters place)
        ((result.0.now ≡ take 1 text.now) × (result.1 ≡ 1)) }
    ensures plain { OnFalse (begins_with 92 text.now)
        ((result.0.now ≡ take 1 text.now) × (result.1 ≡ 1)) }
    ensures number { OnTrue (has_parameters place) (take 2 text.now ≡ 92 ∷ 64 ∷ []
        → (result.0.now ≡ number.now) × (result.1 ≡ 2)) }
    ensures literal { OnTrue (has_parameters place) (take 2 text.now ≡ 92 ∷ 40 ∷ []
        → (result.0.now ≡ in_parentheses (drop 2 text.now))
        × (result.1 ≡ capped (size_with (drop 2 text.now)))) }
    ensures named { OnTrue (has_parameters place) ((others : List ℕ) → text.now ≡ 92 ∷ others
        → take 1 others ≢ 40 ∷ [] → take 1 others ≢ 64 ∷ []
        → OnTrue (has_name parameters.now (name_after others))
        (length values.now ≡ length parameters.now
        → IsValue parameters.now values.now (name_after others) result.0.now)) }
    ensures taken { OnTrue (has_parameters place) ((others : List ℕ) → text.now ≡ 92 ∷ others
        → take 1 others ≢ 40 ∷ [] → take 1 others ≢ 64 ∷ []
        → result.1 ≡ capped (length (name_after others) + 1)) }
{
    match text {
        [b'\\', others @ ..] if place.has_parameters() => match others {
            [b'(', inside @ ..] => literally(inside),
            [b'@', ..] => (number, 2),
            _ => named(text, others, parameters, values),
        },
        _ => (text.get(..1).unwrap_or(text), 1),
    }
}

/// What stands before a closing parenthesis, and how many bytes do with `\()`.
fn literally(text: &[u8]) -> (&[u8], usize)
    ensures text { result.0.now ≡ in_parentheses text.now }
    ensures taken { result.1 ≡ capped (size_with text.now) }
{
    for (index, byte) in text.iter().enumerate() {
        if *byte == b')' {
            return (&text[..index], index + 3);
        }
    }
    (text, text.len().saturating_add(2))
}

/// The value of the parameter whose name stands after a backslash, or the backslash and the name
/// where there is none, and how many bytes these are.
fn named<'a, A: Allocator + Copy>(
    text: &'a [u8],
    others: &'a [u8],
    parameters: &'a [Parameter<A>],
    values: &'a [Vec<u8, A>],
) -> (&'a [u8], usize)
    ensures taken { result.1 ≡ capped (length (name_after others.now) + 1) }
    ensures known { OnTrue (has_name parameters.now (name_after others.now))
        (length values.now ≡ length parameters.now
        → IsValue parameters.now values.now (name_after others.now) result.0.now) }
    ensures other { IsValue parameters.now values.now (name_after others.now) result.0.now
        ⊎ (result.0.now ≡ take result.1 text.now) }
{
    let name = name_after(others);
    let taken = name.len().saturating_add(1);
    match value_of(parameters, values, name) {
        Some(value) => (value, taken),
        None => (text.get(..taken).unwrap_or(text), taken),
    }
}

/// The name that stands after a backslash, which is empty where none does.
fn name_after(text: &[u8]) -> &[u8]
    ensures { result.now ≡ name_after text.now }
{
    match text {
        [b'a'..=b'z' | b'A'..=b'Z' | b'_' | b'.' | b'$', ..] => split_word(text).0,
        _ => &text[..0],
    }
}

/// The value of the parameter with a name, which is its default where it is empty.
fn value_of<'a, A: Allocator + Copy>(
    parameters: &'a [Parameter<A>],
    values: &'a [Vec<u8, A>],
    name: &[u8],
) -> Option<&'a [u8]>
    ensures value { IfSome result (λ value.
        IsValue parameters.now values.now name.now value.now) }
    ensures known { OnTrue (has_name parameters.now name.now)
        (length values.now ≡ length parameters.now → IsSome result) }
{
    let index = index_of(parameters, name)?;
    value_in(parameters, values, index)
}

/// The value of the parameter in a place.
fn value_in<'a, A: Allocator + Copy>(
    parameters: &'a [Parameter<A>],
    values: &'a [Vec<u8, A>],
    index: usize,
) -> Option<&'a [u8]>
    ensures value { IfSome result (λ value.
        value_at parameters.now values.now index ≡ Some value.now) }
    ensures there { index < length parameters.now → index < length values.now → IsSome result }
{
    let parameter = parameters.get(index)?;
    let value = values.get(index)?;
    Some(or_default(value, &parameter.default))
}

/// A value, or the default where it is empty.
fn or_default<'a>(value: &'a [u8], default: &'a [u8]) -> &'a [u8]
    ensures { result.now ≡ or_default value.now default.now }
{
    if value.is_empty() { default } else { value }
}

/// A text without its comments.
pub fn without_comments<A: Allocator + Copy>(
    alloc: A,
    text: &[u8],
) -> Result<Vec<u8, A>, AllocError> {
    let mut out = Vec::new(alloc);
    let mut rest = text;
    for _ in 0..=text.len() {
        let statement = first_statement(rest);
        out.extend_from_slice(statement.code)?;
        let Some(others) = statement.others else {
            break;
        };
        out.push(if statement.ends_line { b'\n' } else { b';' })?;
        rest = others;
    }
    Ok(out)
}
