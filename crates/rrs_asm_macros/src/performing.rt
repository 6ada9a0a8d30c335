//! Performing a statement: what is put into the result, and what is read next.

ghost use Rattle.std.specs.Prelude.{◌≡◌, ◌+◌, ◌-◌, ◌<◌, ◌≤◌, [], true, None, Some, IfSome, IfNone, MatchOption, length, is_none, is_some, ◌^◌};
ghost use Rattle.std.specs.Bool.{OnTrue, OnFalse};
ghost use Rattle.rrs_asm_lines.specs.Lines.{behind_blanks, lines, word};
ghost use Rattle.rrs_asm_macros.specs.Conditions.{Skips, is_skipped};
ghost use Rattle.rrs_asm_macros.specs.Expanding.{line_of};
ghost use Rattle.rrs_asm_macros.specs.Lines.{first_line};
ghost use Rattle.rrs_asm_macros.specs.Mistakes.{mistake_at};
ghost use Rattle.rrs_asm_macros.specs.Directives.{directive_named, is_counted, is_end_alone, is_exit, is_repetition};
ghost use Rattle.rrs_asm_macros.specs.Operands.{Halts, capped};
ghost use Rattle.rrs_asm_macros.specs.Reading.{IsRepeated};
ghost use Rattle.rrs_asm_macros.specs.Symbols.{Defines, symbols_of_line};
ghost use Rattle.rrs_asm_macros.specs.Tables.{macro_named};

use crate::arguments::copied;
use crate::blocks::{BlockKind, first_block, height};
use crate::conditions::{begin, conclude};
use crate::cursor::Cursor;
use crate::directives::{Directive, directive_named};
use crate::errors::{Halt, MacroError, MacroErrorKind, Slip};
use crate::frames::{Condition, Frame, Origin, Reader};
use crate::repetitions::each;
use crate::scanning::{behind_labels, first_statement};
use crate::substitution::without_comments;
use crate::tables::{Lines, Tables, weight_of};
use crate::values::value;
use rrs_asm_lines::{behind_blanks, first_line, split_word};
use std::alloc::Allocator;

/// A part of a text that is a line of the result.
#[derive(Clone, Copy)]
pub struct Span {
    pub start: usize,
    pub end: usize,
    /// The line of the source that it is of.
    pub number: usize,
}

/// What is read next.
#[derive(Drop)]
pub enum Turn<A: Allocator> {
    /// What stands after.
    Stay,
    /// Another text, and then what stands after.
    Enter(Frame<A>),
    /// What stands after the call or the repetition that is read.
    Leave,
    /// The same text once more or what stands after it, since nothing is left of it.
    Over,
    /// What stands after, with a mistake to be told.
    Stumble(Slip),
}

/// What comes of a statement or a line.
#[derive(Drop)]
pub struct Step<A: Allocator> {
    /// What is put into the result, if something is.
    pub line: Option<Span>,
    /// What is read next.
    pub turn: Turn<A>,
}

/// Where a statement stands: its text, what is left of it after the statement, and its line.
#[derive(Clone, Copy)]
struct Site<'a> {
    text: &'a [u8],
    others: Option<&'a [u8]>,
    /// The line of the source that is after it.
    next_number: usize,
    origin: Origin,
    /// How many bytes are after the code of the statement.
    behind: usize,
}

/// Reads a line or a statement of a text, where something is left of it.
pub fn read_step<A: Allocator + Copy>(
    tables: &mut Tables<A>,
    text: &[u8],
    reader: &mut Reader<A>,
) -> Step<A>
    ensures number { IfSome result.line (λ span. span.number ≡ line_of reader.old) }
    ensures skipped { is_skipped reader.old.conditions.items ≡ true → result.line ≡ None }
{
    let Some(rest) = reader.rest(text) else {
        return Step {
            line: None,
            turn: Turn::Over,
        };
    };
    if reader.is_at_line() && !reader.is_skipping() {
        let (line, _) = first_line(rest);
        if tables.is_plain(line) {
            return read_line(tables, text, rest, reader);
        }
    }
    read_statement(tables, text, rest, reader)
}

/// Reads a line of a text of which this is left. Its statements are no directives of macros and no
/// calls: it is put as it stands, and what it defines is known from there on.
fn read_line<A: Allocator + Copy>(
    tables: &mut Tables<A>,
    text: &[u8],
    rest: &[u8],
    reader: &mut Reader<A>,
) -> Step<A>
    ensures line { result.line ≡ Some (record {
      start = length text.now - length rest.now;
      end = capped (length text.now - length rest.now + length (first_line rest.now));
      number = line_of reader.old;
    }) }
    ensures stays { result.turn ≡ Turn.Stay }
    ensures defines { Defines tables.old.symbols tables.new.symbols
        (symbols_of_line (first_line rest.now)) }
    ensures macros_kept { tables.new.macros ≡ tables.old.macros }
{
    let (line, others) = first_line(rest);
    tables.spend_line(line.len(), rest.len());
    tables.note_line(line);
    let start = text.len().saturating_sub(rest.len());
    let span = Span {
        start,
        end: start.saturating_add(line.len()),
        number: reader.origin().number,
    };
    reader.go_on(text, others, 1);
    Step {
        line: Some(span),
        turn: Turn::Stay,
    }
}

/// Reads a statement of a text of which this is left.
fn read_statement<A: Allocator + Copy>(
    tables: &mut Tables<A>,
    text: &[u8],
    rest: &[u8],
    reader: &mut Reader<A>,
) -> Step<A>
    ensures number { IfSome result.line (λ span. span.number ≡ line_of reader.old) }
    ensures skipped { is_skipped reader.old.conditions.items ≡ true → result.line ≡ None }
{
    let statement = first_statement(rest);
    let others = statement.others.unwrap_or(&[]).len();
    tables.spend_statement(rest.len().saturating_sub(others), rest.len());
    let origin = reader.origin();
    reader.go_on(text, statement.others, usize::from(statement.ends_line));
    let site = Site {
        text,
        others: statement.others,
        next_number: reader.origin().number,
        origin,
        behind: rest.len().saturating_sub(statement.code.len()),
    };
    if reader.is_skipping() {
        skip(tables, &site, statement.code, reader);
        return Step {
            line: None,
            turn: Turn::Stay,
        };
    }
    let start = text.len().saturating_sub(rest.len());
    perform(tables, &site, statement.code, start, reader)
}

/// Reads a statement of a condition that does not hold: it counts where it is a condition.
fn skip<A: Allocator + Copy>(
    tables: &mut Tables<A>,
    site: &Site,
    code: &[u8],
    reader: &mut Reader<A>,
)
    ensures { OnTrue (is_none tables.new.mistake) (Skips (directive_named (word code.now))
        reader.old.conditions.items reader.new.conditions.items) }
{
    let (word, operands) = split_word(code);
    let start = Cursor::new(code, site.behind).slip(MacroErrorKind::UnendedCondition);
    let cursor = &mut Cursor::new(operands, site.behind);
    match directive_named(word) {
        Some(Directive::If(_)) => {
            let condition = Condition::new(place(site, start), true);
            cursor.keep(reader.conditions.push(condition).is_ok());
        }
        Some(directive @ (Directive::ElseIf | Directive::Else | Directive::EndIf)) => {
            conclude(tables, directive, start, cursor, reader);
        }
        _ => (),
    }
    tables.keep(cursor.mistake);
}

/// Where a condition stands that begins at a place.
fn place(site: &Site, start: Slip) -> MacroError
    ensures { length site.now.text.now < usize.MAX → result
        ≡ mistake_at site.now.origin.number site.now.origin.line_start (length site.now.text.now)
        (record { kind = MacroErrorKind.UnendedCondition; left = start.left }) }
{
    let slip = start.with_kind(MacroErrorKind::UnendedCondition);
    site.origin.mistake(site.text.len(), slip)
}

/// Performs a statement that begins at a place of its text. Its labels are put, and all of it where
/// it is no directive of macros and no call.
fn perform<A: Allocator + Copy>(
    tables: &mut Tables<A>,
    site: &Site,
    code: &[u8],
    start: usize,
    reader: &mut Reader<A>,
) -> Step<A>
    ensures number { IfSome result.line (λ span. span.number ≡ site.now.origin.number) }
    ensures start { IfSome result.line (λ span. span.start ≡ start) }
    ensures within { IfSome result.line (λ span. span.end ≤ start + length code.now) }
{
    let behind = behind_labels(code);
    let (word, operands) = split_word(behind);
    let directive = directive_named(word);
    let is_call = directive.is_none() && tables.is_macro(word);
    let put = if directive.is_some() || is_call {
        let labels = code.len().saturating_sub(behind.len());
        code.get(..labels).unwrap_or(code)
    } else {
        code
    };
    tables.note(put);
    let turn = match directive {
        Some(directive) => direct(tables, directive, site, behind, operands, reader),
        None if is_call => entered(call(tables, word, site, operands)),
        None => Turn::Stay,
    };
    let line = span_of(put, start, site.origin.number);
    Step { line, turn }
}

/// That a text is read next, if there is one.
fn entered<A: Allocator>(frame: Option<Frame<A>>) -> Turn<A>
    ensures some { IfSome frame (λ inner. result ≡ Turn.Enter inner) }
    ensures none { IfNone frame (result ≡ Turn.Stay) }
{
    match frame {
        Some(frame) => Turn::Enter(frame),
        None => Turn::Stay,
    }
}

/// The part of a text that begins at a place and has these bytes, if they are not blank.
fn span_of(put: &[u8], start: usize, number: usize) -> Option<Span>
    ensures { MatchOption result (behind_blanks put.now ≡ [])
        (λ span. span ≡ record {
          start = start;
          end = capped (start + length put.now);
          number = number;
        }) }
{
    if behind_blanks(put).is_empty() {
        return None;
    }
    let end = start.saturating_add(put.len());
    Some(Span { start, end, number })
}

/// Calls a macro. Its lines are read next, if there are any.
fn call<A: Allocator + Copy>(
    tables: &mut Tables<A>,
    word: &[u8],
    site: &Site,
    operands: &[u8],
) -> Option<Frame<A>>
    ensures counted { IfSome result (λ _. tables.new.calls ≡ capped (tables.old.calls + 1)) }
    ensures mistake { IfSome result (λ _. tables.old.mistake ≡ None) }
{
    let cursor = &mut Cursor::new(operands, site.behind);
    let lines = tables.called(word, cursor);
    tables.keep(cursor.mistake);
    if tables.mistake.is_some() {
        return None;
    }
    tables.calls = tables.calls.saturating_add(1);
    let frame = lines?;
    let left = operands.len().saturating_add(site.behind);
    tables.enter(frame.text.len(), left);
    Some(frame)
}

/// Performs a directive.
fn direct<A: Allocator + Copy>(
    tables: &mut Tables<A>,
    directive: Directive,
    site: &Site,
    code: &[u8],
    operands: &[u8],
    reader: &mut Reader<A>,
) -> Turn<A>
    ensures left { directive ≡ Directive.ExitMacro → OnFalse reader.old.is_source
        (result ≡ Turn.Leave) }
    ensures stays { OnFalse (is_repetition directive) (OnFalse (is_exit directive)
        (result ≡ Turn.Stay)) }
{
    let start = Cursor::new(code, site.behind).slip(MacroErrorKind::EndAlone);
    let cursor = &mut Cursor::new(operands, site.behind);
    let turn = match directive {
        Directive::Repeat | Directive::RepeatEach | Directive::RepeatCharacters => {
            let inside = block(tables, BlockKind::Repetition, site, start, reader);
            entered(repeat(tables, directive, inside, site.next_number, cursor))
        }
        Directive::ExitMacro if !reader.is_source => Turn::Leave,
        _ => {
            note(tables, directive, site, start, cursor, reader);
            Turn::Stay
        }
    };
    tables.keep(cursor.mistake);
    turn
}

/// Performs a directive that begins at a place and after which is read next.
fn note<A: Allocator + Copy>(
    tables: &mut Tables<A>,
    directive: Directive,
    site: &Site,
    start: Slip,
    cursor: &mut Cursor,
    reader: &mut Reader<A>,
)
    ensures alone { OnTrue (is_end_alone directive)
        (Halts cursor.old cursor.new (Halt.Slip start)) }
    ensures nothing { directive ≡ Directive.ExitMacro → Halts cursor.old cursor.new
        (Halt.Slip (record { kind = MacroErrorKind.NothingToLeave; left = start.left })) }
{
    match directive {
        Directive::Purge => tables.purge(cursor),
        Directive::If(test) => begin(tables, test, cursor, place(site, start), reader),
        Directive::ElseIf | Directive::Else | Directive::EndIf => {
            conclude(tables, directive, start, cursor, reader);
        }
        Directive::Macro => {
            let inside = block(tables, BlockKind::Macro, site, start, reader);
            define(tables, inside, site.next_number, cursor);
        }
        Directive::ExitMacro => cursor.fail(start.with_kind(MacroErrorKind::NothingToLeave)),
        _ => cursor.fail(start),
    }
}

/// The lines of the block after a statement at a place, if there are any, which is not read again.
fn block<'a, A: Allocator + Copy>(
    tables: &mut Tables<A>,
    kind: BlockKind,
    site: &Site<'a>,
    slip: Slip,
    reader: &mut Reader<A>,
) -> Option<&'a [u8]> {
    let others = site.others.unwrap_or(&[]);
    let Some(block) = first_block(others, kind) else {
        reader.go_on(site.text, None, 0);
        let slip = slip.with_kind(MacroErrorKind::Unended);
        tables.keep(Some(Halt::Slip(slip)));
        return None;
    };
    let left = block.others.unwrap_or(&[]).len();
    tables.spend(others.len().saturating_sub(left), slip.left);
    reader.go_on(site.text, block.others, block.lines);
    block.inside
}

/// Defines a macro with lines as its body, the first of which is of a line of the source.
fn define<A: Allocator + Copy>(
    tables: &mut Tables<A>,
    inside: Option<&[u8]>,
    first: usize,
    cursor: &mut Cursor,
)
    ensures defined { OnTrue (is_none cursor.new.mistake) (OnTrue (is_none tables.new.mistake)
        (is_some (macro_named (word cursor.old.rest.now) tables.new) ≡ true)) }
    ensures body { OnTrue (is_none cursor.new.mistake) (OnTrue (is_none tables.new.mistake)
        (IfSome inside.entry (λ own. IfSome (macro_named (word cursor.old.rest.now) tables.new)
        (λ known. IfSome known.body (λ body. (body.first ≡ first)
        × (body.height ≡ length (lines own.now))))))) }
    ensures empty { OnTrue (is_none cursor.new.mistake) (OnTrue (is_none tables.new.mistake)
        (IfNone inside.entry (IfSome (macro_named (word cursor.old.rest.now) tables.new)
        (λ known. known.body ≡ None)))) }
{
    let body = match inside {
        Some(inside) => match without_comments(tables.alloc, inside) {
            Ok(text) => Some(Lines {
                text,
                first,
                height: height(inside),
            }),
            Err(_) => return cursor.keep(false),
        },
        None => None,
    };
    tables.define(cursor, body);
}

/// Reads lines next, if there are any, as often as a repetition says. The first of them is of a
/// line of the source.
fn repeat<A: Allocator + Copy>(
    tables: &mut Tables<A>,
    directive: Directive,
    inside: Option<&[u8]>,
    first: usize,
    cursor: &mut Cursor,
) -> Option<Frame<A>>
    ensures lines { IfSome result (λ frame. IfSome inside.entry (λ own.
        IsRepeated frame.reader first (length (lines own.now)))) }
    ensures once { OnFalse (is_counted directive) (IfSome result (λ frame.
        frame.reader.copies ≡ 0)) }
    ensures none { IfNone inside.entry (result ≡ None) }
    ensures right { IfSome result (λ _. cursor.new.mistake ≡ None) }
{
    let much = cursor.slip(MacroErrorKind::Much);
    let count = match directive {
        Directive::Repeat => count(tables, cursor),
        _ => 1,
    };
    let copies = count.checked_sub(1)?;
    let inside = inside?;
    let text = match directive {
        Directive::Repeat => copied(tables.alloc, inside, cursor),
        _ => {
            let are_characters = matches!(directive, Directive::RepeatCharacters);
            each(tables, inside, cursor, are_characters)
        }
    };
    let weight = weight_of(text.len(), height(&text));
    cursor.want(tables.has_left(weight, copies), much);
    if cursor.mistake.is_some() {
        return None;
    }
    tables.enter(text.len(), much.left);
    Some(Frame::new(tables.alloc, text, first, height(inside), copies))
}

/// Takes how often a repetition is made.
fn count<A: Allocator + Copy>(tables: &Tables<A>, cursor: &mut Cursor) -> u64
    ensures natural { OnTrue (is_none cursor.new.mistake) (result < 2 ^ 63) }
    ensures over { OnTrue (is_none cursor.new.mistake) (behind_blanks cursor.new.rest.now ≡ []) }
{
    let negative = cursor.slip(MacroErrorKind::Negative);
    let count = value(cursor, &tables.symbols);
    cursor.end();
    cursor.want(count.cast_signed() >= 0, negative);
    count
}
