//! What `.irp` and `.irpc` repeat: their lines, with each value in the place of the parameter.

ghost use Rattle.std.specs.Prelude.{◌≡◌, ◌∷◌, [], Some, IfSome, is_none, map};
ghost use Rattle.std.specs.Bool.{OnTrue};
ghost use Rattle.rrs_asm_lines.specs.Lines.{word};

use crate::arguments::{Kind, Parameter, copied, take_all, take_argument, take_string};
use crate::cursor::Cursor;
use crate::substitution::{substitute, without_comments};
use crate::tables::Tables;
use std::alloc::{AllocError, Allocator};

/// Takes the one parameter of a repetition.
fn take_parameter<A: Allocator + Copy>(alloc: A, cursor: &mut Cursor) -> Vec<Parameter<A>, A>
    ensures one { OnTrue (is_none cursor.new.mistake)
        (map (λ parameter. parameter.name.items) result.items ≡ word cursor.old.rest.now ∷ []) }
    ensures first { IfSome cursor.old.mistake (λ halt. cursor.new.mistake ≡ Some halt) }
{
    let name = cursor.name();
    let parameter = Parameter {
        name: copied(alloc, name, cursor),
        default: Vec::new(alloc),
        kind: Kind::Optional,
    };
    cursor.skip_comma();
    let mut parameters = Vec::new(alloc);
    cursor.keep(parameters.push(parameter).is_ok());
    parameters
}

/// Takes the values that are listed, of which one is empty where there are none.
fn take_values<A: Allocator + Copy>(alloc: A, cursor: &mut Cursor) -> Vec<Vec<u8, A>, A> {
    let mut values = Vec::new(alloc);
    for _ in 0..u64::MAX {
        let mut value = Vec::new(alloc);
        take_argument(cursor, &mut value);
        cursor.skip_comma();
        cursor.keep(values.push(value).is_ok());
        if cursor.is_over() {
            break;
        }
    }
    values
}

/// Takes the characters of a string, or all that are left but for blanks. Each is a value. Where
/// there are none, one value is empty.
fn take_characters<A: Allocator + Copy>(alloc: A, cursor: &mut Cursor) -> Vec<Vec<u8, A>, A> {
    let mut characters = Vec::new(alloc);
    let is_string = cursor.take_if(b"\"");
    if is_string {
        take_string(cursor, &mut characters, false);
    } else {
        take_all(cursor, &mut characters, None);
    }
    let mut values = Vec::new(alloc);
    for byte in &characters {
        if is_string || *byte != b' ' {
            let value = copied(alloc, &[*byte], cursor);
            cursor.keep(values.push(value).is_ok());
        }
    }
    if values.is_empty() {
        cursor.keep(values.push(Vec::new(alloc)).is_ok());
    }
    values
}

/// Lines with each of the values or characters that stand there, or once with none.
pub fn each<A: Allocator + Copy>(
    tables: &Tables<A>,
    lines: &[u8],
    cursor: &mut Cursor,
    are_characters: bool,
) -> Vec<u8, A> {
    let parameters = take_parameter(tables.alloc, cursor);
    let values = if are_characters {
        take_characters(tables.alloc, cursor)
    } else {
        take_values(tables.alloc, cursor)
    };
    let mut text = Vec::new(tables.alloc);
    if cursor.mistake.is_none() {
        let is_put = put_each(tables, lines, &parameters, &values, &mut text).is_ok();
        cursor.keep(is_put);
    }
    text
}

/// Appends lines with each of the values.
fn put_each<A: Allocator + Copy>(
    tables: &Tables<A>,
    lines: &[u8],
    parameters: &[Parameter<A>],
    values: &[Vec<u8, A>],
    text: &mut Vec<u8, A>,
) -> Result<(), AllocError> {
    let alloc = tables.alloc;
    let body = without_comments(alloc, lines)?;
    for index in 0..values.len() {
        if index > 0 {
            text.push(b'\n')?;
        }
        let value = &values[index..=index];
        substitute(alloc, &body, parameters, value, tables.calls, text)?;
    }
    Ok(())
}
