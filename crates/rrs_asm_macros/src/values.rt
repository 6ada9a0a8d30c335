//! The values of conditions and counts: numbers, constants that are known, and operators.

ghost use Rattle.std.specs.Prelude.{◌≡◌, [], Some, None, IfNone, IfSome, drop, is_none, true};
ghost use Rattle.std.specs.Bool.{OnFalse, OnTrue};
ghost use Rattle.std.specs.Option.{option_and_then};
ghost use Rattle.rrs_asm_lines.specs.Lines.{begins_with, is_name, word};
ghost use Rattle.rrs_asm_macros.specs.declared.errors.Halt.{Halt};
ghost use Rattle.rrs_asm_macros.specs.Mistakes.{kind_of_fault};
ghost use Rattle.rrs_asm_macros.specs.Operands.{Halts, behind_apostrophe, slip_at};
ghost use Rattle.rrs_asm_macros.specs.Tables.{symbol_named};

use crate::cursor::Cursor;
use crate::errors::{MacroErrorKind, Slip};
use crate::symbols::Symbols;
use rrs_asm_lines::{LOOSEST, SourceErrorKind, Waiting, escaped, number_of};
use std::alloc::Allocator;

/// Keeps what went wrong with operators, if something did, as a mistake at a place.
fn check(cursor: &mut Cursor, waiting: &Waiting, place: Slip)
    ensures none { IfNone waiting.now.fault (cursor.new ≡ cursor.old) }
    ensures fault { IfSome waiting.now.fault (λ fault. Halts cursor.old cursor.new
        (Halt.Slip (record { kind = kind_of_fault fault; left = place.left }))) }
{
    if let Some(fault) = waiting.fault {
        let kind = match fault {
            SourceErrorKind::Division => MacroErrorKind::Division,
            _ => MacroErrorKind::Operators,
        };
        cursor.fail(place.with_kind(kind));
    }
}

/// Takes a value.
pub fn value<A: Allocator + Copy>(cursor: &mut Cursor, symbols: &Symbols<A>) -> u64 {
    let mut waiting = Waiting::new();
    for _ in 0..u64::MAX {
        take_prefixes(cursor, &mut waiting);
        let term = term(cursor, symbols);
        if let Some(value) = take_infix(cursor, &mut waiting, term) {
            return value;
        }
    }
    0
}

/// Takes the operators before a value, and opening parentheses.
fn take_prefixes(cursor: &mut Cursor, waiting: &mut Waiting) {
    for _ in 0..u64::MAX {
        let place = cursor.slip(MacroErrorKind::Operators);
        let Some(operator) = cursor.operator_before() else {
            break;
        };
        if let Some(operator) = operator {
            waiting.push(operator, 0);
        }
        check(cursor, waiting, place);
    }
}

/// Takes the closing parentheses after a term, and the operator after them. Where none stands
/// there, the value ends, and this is it.
fn take_infix(cursor: &mut Cursor, waiting: &mut Waiting, term: u64) -> Option<u64> {
    let value = closed(cursor, waiting, term);
    let place = cursor.slip(MacroErrorKind::Parenthesis);
    match cursor.operator_between() {
        Some(operator) => {
            waiting.push_between(operator, value);
            check(cursor, waiting, place);
            None
        }
        None => {
            let value = waiting.applied(LOOSEST, value);
            check(cursor, waiting, place);
            cursor.want(!waiting.is_open(), place);
            Some(value)
        }
    }
}

/// Takes the closing parentheses after a value.
fn closed(cursor: &mut Cursor, waiting: &mut Waiting, term: u64) -> u64 {
    let mut value = term;
    for _ in 0..u64::MAX {
        let place = cursor.slip(MacroErrorKind::Parenthesis);
        if !cursor.take_if(b")") {
            break;
        }
        let is_open = waiting.is_open();
        value = waiting.closed(value);
        check(cursor, waiting, place);
        cursor.want(is_open, place);
    }
    value
}

/// Takes a number, a character constant, or a constant that is known.
fn term<A: Allocator + Copy>(cursor: &mut Cursor, symbols: &Symbols<A>) -> u64
    ensures known { OnTrue (is_none cursor.new.mistake) (OnTrue (is_name (word cursor.old.rest.now))
        (option_and_then (λ value. value) (symbol_named (word cursor.old.rest.now) symbols.now)
        ≡ Some result)) }
    ensures unknown { OnTrue (is_name (word cursor.old.rest.now))
        (symbol_named (word cursor.old.rest.now) symbols.now ≡ None
        → Halts cursor.old cursor.new (Halt.Slip (slip_at cursor.old.rest.now cursor.old.behind
        MacroErrorKind.NotConstant))) }
{
    let slip = cursor.slip(MacroErrorKind::Value);
    if cursor.take_if(b"'") {
        let byte = character(cursor);
        cursor.want(byte.is_some(), slip);
        return u64::from(byte.unwrap_or(0));
    }
    let word = cursor.word();
    let (known, kind) = match word {
        [] => (None, MacroErrorKind::Value),
        [b'0'..=b'9', b'b' | b'f'] => (None, MacroErrorKind::NotConstant),
        [b'0'..=b'9', ..] => (number_of(word), MacroErrorKind::Number),
        _ => (symbols.value_of(word), MacroErrorKind::NotConstant),
    };
    cursor.want(known.is_some(), slip.with_kind(kind));
    known.unwrap_or(0)
}

/// Takes what follows the apostrophe of a character constant, with the one that can end it.
pub fn character(cursor: &mut Cursor) -> Option<u8>
    ensures plain { OnFalse (begins_with 92 cursor.old.rest.now) (IfSome result (λ byte.
        (begins_with byte cursor.old.rest.now ≡ true)
        × (cursor.new.rest.now ≡ behind_apostrophe (drop 1 cursor.old.rest.now)))) }
    ensures escaped { OnTrue (begins_with 92 cursor.old.rest.now) (IfSome result (λ _.
        cursor.new.rest.now ≡ behind_apostrophe (drop 2 cursor.old.rest.now))) }
    ensures none { OnFalse (begins_with 92 cursor.old.rest.now)
        (IfNone result (cursor.old.rest.now ≡ [])) }
    ensures mistake_kept { cursor.new.mistake ≡ cursor.old.mistake }
{
    let byte = match cursor.take_raw()? {
        b'\\' => {
            let byte = cursor.take_raw()?;
            escaped(byte).unwrap_or(byte)
        }
        byte => byte,
    };
    let _ = cursor.take_next(b'\'');
    Some(byte)
}
