//! The lines between a directive and the one that ends it.

ghost use Rattle.std.specs.Prelude.{◌≡◌, ◌⊎◌, ◌≤◌, [], ◌∷◌, ◌++◌, false, IfNone, IfSome, length};
ghost use Rattle.std.specs.Option.{option_map_or};
ghost use Rattle.rrs_asm_lines.specs.Lines.{lines};
ghost use Rattle.rrs_asm_macros.specs.Directives.{begins_block, ends_block};
ghost use Rattle.rrs_asm_macros.specs.Scanning.{before, directive_of};

use crate::directives::{Directive, directive_named};
use crate::scanning::{behind_labels, first_statement};
use rrs_asm_lines::split_word;

/// What a block is.
#[derive(Clone, Copy)]
pub enum BlockKind {
    /// Up to `.endm`.
    Macro,
    /// Up to `.endr`.
    Repetition,
}

/// A block.
#[derive(Clone, Copy)]
pub struct Block<'a> {
    /// Its lines, without the line feed of the last, if it has any.
    pub inside: Option<&'a [u8]>,
    /// What is after the statement that ends it.
    pub others: Option<&'a [u8]>,
    /// How many lines end up to there.
    pub lines: usize,
}

/// By how much a statement nests blocks of a kind: whether it begins one or ends one.
fn edge(kind: BlockKind, code: &[u8]) -> (bool, bool)
    ensures begins { result.0 ≡ option_map_or (λ directive. begins_block kind directive)
        (directive_of code.now) false }
    ensures ends { result.1 ≡ option_map_or (λ directive. ends_block kind directive)
        (directive_of code.now) false }
{
    let (word, _) = split_word(behind_labels(code));
    let Some(directive) = directive_named(word) else {
        return (false, false);
    };
    match (kind, directive) {
        (BlockKind::Macro, Directive::Macro) => (true, false),
        (BlockKind::Macro, Directive::EndMacro) => (false, true),
        (
            BlockKind::Repetition,
            Directive::Repeat | Directive::RepeatEach | Directive::RepeatCharacters,
        ) => (true, false),
        (BlockKind::Repetition, Directive::EndRepeat) => (false, true),
        _ => (false, false),
    }
}

/// The block that a text begins with, up to the statement that ends it, if there is one.
pub fn first_block(text: &[u8], kind: BlockKind) -> Option<Block<'_>> {
    let mut rest = text;
    let mut depth = 1usize;
    let mut lines = 0usize;
    for _ in 0..=text.len() {
        let statement = first_statement(rest);
        let (begins, ends) = edge(kind, statement.code);
        if begins {
            depth = depth.saturating_add(1);
        }
        if ends {
            depth = depth.saturating_sub(1);
        }
        if statement.ends_line {
            lines = lines.saturating_add(1);
        }
        if depth == 0 {
            return Some(Block {
                inside: inside(text, rest, statement.code),
                others: statement.others,
                lines,
            });
        }
        rest = statement.others?;
    }
    None
}

/// What stands before a statement, with its labels and without the last line feed, if it is
/// anything.
fn inside<'a>(text: &'a [u8], rest: &[u8], code: &[u8]) -> Option<&'a [u8]>
    ensures none { IfNone result (length code.now ≤ length rest.now
        → length rest.now ≤ length text.now → before text.now rest.now code.now ≡ []) }
    ensures lines { IfSome result (λ own. (before text.now rest.now code.now ≡ own.now ++ 10 ∷ [])
        ⊎ (before text.now rest.now code.now ≡ own.now)) }
{
    let labels = code.len().saturating_sub(behind_labels(code).len());
    let end = text.len().saturating_sub(rest.len()).saturating_add(labels);
    match text.get(..end) {
        None | Some([]) => None,
        Some([lines @ .., b'\n']) => Some(lines),
        lines => lines,
    }
}

/// How many lines a text has.
pub fn height(text: &[u8]) -> usize
    ensures { result ≡ length (lines text.now) }
{
    let mut count = 1usize;
    for byte in text {
        if *byte == b'\n' {
            count += 1;
        }
    }
    count
}
