//! Conditions: where they begin, go on with another and end.

ghost use Rattle.std.specs.Prelude.{◌≡◌, Bool, ◌++◌, ◌∷◌, [], true, false, IfSome, is_none, is_some, ◌==◌, length};
ghost use Rattle.std.specs.Bool.{OnTrue, OnFalse};
ghost use Rattle.rrs_asm_macros.specs.Conditions.{Begins, GoesOnWith, before_last, is_as, is_blank, is_else, is_end, next_part, unread};
ghost use Rattle.rrs_asm_macros.specs.Expanding.{last_of};
ghost use Rattle.rrs_asm_macros.specs.Operands.{Halts, is_slip};
ghost use Rattle.rrs_asm_macros.specs.Tables.{symbol_named};
ghost use Rattle.rrs_asm_lines.specs.Lines.{behind_blanks, word};

use crate::arguments::{take_all, take_string};
use crate::cursor::Cursor;
use crate::directives::{Comparison, Directive, Test};
use crate::errors::{Halt, MacroError, MacroErrorKind, Slip};
use crate::frames::{Condition, Reader};
use crate::tables::Tables;
use crate::values::value;
use std::alloc::Allocator;

/// Begins a condition. With a mistake in it nothing of it is read.
pub fn begin<A: Allocator + Copy>(
    tables: &Tables<A>,
    test: Test,
    cursor: &mut Cursor,
    place: MacroError,
    reader: &mut Reader<A>,
)
    ensures one { OnTrue (is_none cursor.new.mistake) (Begins reader.old.conditions.items place
        reader.new.conditions.items) }
    ensures blank { (wanted : Bool) → test ≡ Test.Blank wanted → OnTrue (is_none cursor.new.mistake)
        (reader.new.conditions.items ≡ reader.old.conditions.items ++ next_part
        (unread place false)
        (is_as (length (behind_blanks cursor.old.rest.now) == 0) wanted) false ∷ []) }
    ensures defined { (wanted : Bool) → test ≡ Test.Defined wanted
        → OnTrue (is_none cursor.new.mistake)
        (reader.new.conditions.items ≡ reader.old.conditions.items ++ next_part
        (unread place false)
        (is_as (is_some (symbol_named (word cursor.old.rest.now) tables.now.symbols)) wanted)
        false ∷ []) }
{
    let holds = holds(tables, test, cursor);
    go_on(reader, Condition::new(place, false), holds, false, cursor);
}

/// Goes on with a condition after what is asked. With a mistake in that nothing of it is read.
fn go_on<A: Allocator>(
    reader: &mut Reader<A>,
    condition: Condition,
    holds: bool,
    is_else: bool,
    cursor: &mut Cursor,
)
    ensures right { OnTrue (is_none cursor.new.mistake) (reader.new.conditions.items
        ≡ reader.old.conditions.items ++ next_part condition holds is_else ∷ []) }
    ensures wrong { OnTrue (is_some cursor.old.mistake) (OnTrue (is_slip cursor.new.mistake)
        (reader.new.conditions.items
        ≡ reader.old.conditions.items ++ unread condition.place true ∷ [])) }
    ensures mistake { OnTrue (is_some cursor.old.mistake) (is_some cursor.new.mistake ≡ true) }
{
    let next = match cursor.mistake {
        None => condition.or(holds, is_else),
        Some(_) => Condition::new(condition.place, true),
    };
    if reader.conditions.push(next).is_err() {
        cursor.mistake = Some(Halt::OutOfMemory);
    }
}

/// Ends the innermost condition, or goes on with `.else` or `.elseif`, by a directive that begins
/// at a place.
pub fn conclude<A: Allocator + Copy>(
    tables: &Tables<A>,
    directive: Directive,
    start: Slip,
    cursor: &mut Cursor,
    reader: &mut Reader<A>,
)
    ensures none { reader.old.conditions.items ≡ [] → Halts cursor.old cursor.new
        (Halt.Slip (record { kind = MacroErrorKind.NoCondition; left = start.left })) }
    ensures ended { OnTrue (is_end directive)
        (reader.new.conditions.items ≡ before_last reader.old.conditions.items) }
    ensures next { IfSome (last_of reader.old.conditions.items) (λ last.
        OnFalse (is_end directive) (OnTrue (is_none cursor.new.mistake)
        (GoesOnWith (before_last reader.old.conditions.items) last (is_else directive)
        reader.new.conditions.items))) }
    ensures second { IfSome (last_of reader.old.conditions.items) (λ last.
        OnFalse (is_end directive) (OnTrue last.is_behind_else
        (is_some cursor.new.mistake ≡ true))) }
{
    let Some(condition) = pop(reader) else {
        return cursor.fail(start.with_kind(MacroErrorKind::NoCondition));
    };
    if let Directive::EndIf = directive {
        return cursor.end();
    }
    let is_else = matches!(directive, Directive::Else);
    proceed(tables, condition, is_else, start, cursor, reader);
}

/// Takes the innermost condition away.
fn pop<A: Allocator>(reader: &mut Reader<A>) -> Option<Condition>
    ensures last { result ≡ last_of reader.old.conditions.items }
    ensures around { reader.new.conditions.items ≡ before_last reader.old.conditions.items }
{
    let last = reader.conditions.last().copied();
    let _ = reader.conditions.pop();
    last
}

/// Goes on with a condition by `.else` or `.elseif`, which begins at a place.
fn proceed<A: Allocator + Copy>(
    tables: &Tables<A>,
    condition: Condition,
    is_else: bool,
    start: Slip,
    cursor: &mut Cursor,
    reader: &mut Reader<A>,
)
    ensures next { OnTrue (is_none cursor.new.mistake) (GoesOnWith
        reader.old.conditions.items condition is_else reader.new.conditions.items) }
    ensures second { OnTrue condition.is_behind_else (is_some cursor.new.mistake ≡ true) }
{
    if condition.is_behind_else {
        cursor.keep(reader.conditions.push(condition).is_ok());
        return cursor.fail(start.with_kind(MacroErrorKind::SecondElse));
    }
    if is_else {
        cursor.end();
    }
    let holds = if is_else || condition.is_done {
        is_else
    } else {
        compares(tables, Comparison::NotEqual, cursor)
    };
    go_on(reader, condition, holds, is_else, cursor);
}

/// Whether what a condition asks holds.
fn holds<A: Allocator + Copy>(tables: &Tables<A>, test: Test, cursor: &mut Cursor) -> bool
    ensures blank { (wanted : Bool) → test ≡ Test.Blank wanted
        → result ≡ (is_as (length (behind_blanks cursor.old.rest.now) == 0) wanted) }
    ensures blank_kept { (wanted : Bool) → test ≡ Test.Blank wanted → cursor.new ≡ cursor.old }
    ensures over { OnTrue (is_none cursor.new.mistake) (OnFalse (is_blank test)
        (behind_blanks cursor.new.rest.now ≡ [])) }
    ensures defined { (wanted : Bool) → test ≡ Test.Defined wanted → result
        ≡ is_as (is_some (symbol_named (word cursor.old.rest.now) tables.now.symbols)) wanted }
{
    match test {
        Test::Compared(comparison) => compares(tables, comparison, cursor),
        Test::Defined(wanted) => {
            let name = cursor.name();
            cursor.end();
            tables.symbols.is_defined(name) == wanted
        }
        Test::Blank(wanted) => cursor.is_over() == wanted,
        Test::SameText(wanted) => are_same(tables.alloc, cursor, false) == wanted,
        Test::SameString(wanted) => are_same(tables.alloc, cursor, true) == wanted,
    }
}

/// Takes a value that is the last, and returns how it compares with zero.
fn compares<A: Allocator + Copy>(
    tables: &Tables<A>,
    comparison: Comparison,
    cursor: &mut Cursor,
) -> bool
    ensures over { OnTrue (is_none cursor.new.mistake) (behind_blanks cursor.new.rest.now ≡ []) }
{
    let value = value(cursor, &tables.symbols);
    cursor.end();
    comparison.holds(value, 0)
}

/// Takes two texts or strings with a comma between them, and returns whether they are the same.
fn are_same<A: Allocator + Copy>(alloc: A, cursor: &mut Cursor, are_strings: bool) -> bool
    ensures over { OnTrue (is_none cursor.new.mistake) (behind_blanks cursor.new.rest.now ≡ []) }
{
    let first = cursor.slip(MacroErrorKind::Strings);
    let one = text(alloc, cursor, are_strings, Some(b','));
    let comma = cursor.slip(MacroErrorKind::Strings);
    let is_there = cursor.take_if(b",");
    cursor.want(is_there, if are_strings { comma } else { first });
    let other = text(alloc, cursor, are_strings, None);
    cursor.end();
    one.as_slice() == other.as_slice()
}

/// Takes a string, or a text before a byte.
fn text<A: Allocator>(
    alloc: A,
    cursor: &mut Cursor,
    is_string: bool,
    end: Option<u8>,
) -> Vec<u8, A> {
    let mut text = Vec::new(alloc);
    if !is_string {
        take_all(cursor, &mut text, end);
    } else if cursor.take_if(b"\"") {
        take_string(cursor, &mut text, false);
    } else {
        cursor.fail(cursor.slip(MacroErrorKind::Strings));
    }
    text
}
