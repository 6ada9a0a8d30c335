//! Expanding a source.

ghost use Rattle.std.specs.Prelude.{◌≡◌, ℕ, ◌<◌, ◌≤◌, false, true, [], ◌∷◌, ◌++◌, ◌⊎◌, Some, None, length, IfOk, OnOk, IfErr, IfSome, IfNone, MatchOption, MatchResult};
ghost use Rattle.std.specs.Bool.{OnTrue, OnFalse};
ghost use Rattle.std.specs.List.{list_any};
ghost use Rattle.rrs_asm_macros.specs.Directives.{begins_one, has_directives};
ghost use Rattle.rrs_asm_macros.specs.Expansion.{IsExpansion};
ghost use Rattle.rrs_asm_lines.specs.Lines.{lines};
ghost use Rattle.rrs_asm_macros.specs.Expanding.{AreThese, AreTold, Enters, IsShort, IsWithin, Tells, TellsOne, last_of, line_of};
ghost use Rattle.rrs_asm_macros.specs.Mistakes.{mistake_at};
ghost use Rattle.rrs_asm_macros.specs.Lines.{IsLine, IsMade, IsMapped, IsSame, KeepsAbove};

use crate::blocks::height;
use crate::errors::{Halt, MacroError, MacroErrorKind, MacroFault, Slip};
use crate::following::is_expansion;
use crate::frames::{Frame, Origin, Reader};
use crate::keeping::keeps_above;
use crate::output::{Expanded, unchanged};
use crate::performing::{Span, Step, Turn, read_step};
use crate::scanning::begins_directive;
use crate::tables::Tables;
use crate::words::has_directives;
use std::alloc::{AllocError, Allocator};

/// The most macros and repetitions in one another, with the source.
const MOST_DEPTH: usize = 100;

/// The most bytes of a result.
pub const MOST_MADE: usize = 0x400_0000;

/// The most lines and statements that are read.
const MOST_STEPS: u64 = 0x4000_0000;

/// The most mistakes that are told.
const MOST_MISTAKES: usize = 20;

/// A source that is being expanded.
#[derive(Drop)]
struct Expansion<A: Allocator> {
    /// What is being read, the innermost last.
    frames: Vec<Frame<A>, A>,
    mistakes: Vec<MacroError, A>,
    /// Whether nothing more is read.
    is_over: bool,
    /// Whether memory was missing.
    is_short: bool,
}

impl<A: Allocator + Copy> Expansion<A> {
    /// Nothing of a source is read.
    fn new(alloc: A, source: &[u8]) -> Result<Self, AllocError>
        ensures within { IfOk result (λ expansion. IsWithin expansion) }
        ensures none { IfOk result (λ expansion. expansion.mistakes.items ≡ []) }
    {
        let text = Vec::from_slice(alloc, source)?;
        let mut frame = Frame::new(alloc, text, 1, height(source), 0);
        frame.reader.is_source = true;
        let mut frames = Vec::new(alloc);
        frames.push(frame)?;
        Ok(Expansion {
            frames,
            mistakes: Vec::new(alloc),
            is_over: false,
            is_short: false,
        })
    }

    /// Keeps that memory is missing where something could not be kept.
    fn keep(&mut self, is_kept: bool)
        ensures kept { OnTrue is_kept (self.new ≡ self.old) }
        ensures short { OnFalse is_kept (IsShort self.old self.new) }
        ensures frames_kept { self.new.frames ≡ self.old.frames }
        ensures within { IsWithin self.old → IsWithin self.new }
    {
        if !is_kept {
            self.is_short = true;
            self.is_over = true;
        }
    }

    /// Reads a text next.
    fn read(&mut self, frame: Frame<A>)
        ensures enters { Enters self.old self.new frame ⊎ IsShort self.old self.new }
        ensures within { IsWithin self.old → IsWithin self.new }
    {
        let is_kept = self.frames.push(frame).is_ok();
        self.keep(is_kept);
    }

    /// Why the source is not expanded, if it is not.
    #[tactic(auto, using(crate::proofs::Told::told_within))]
    fn fault(&self, alloc: A) -> Option<MacroFault<A>>
        ensures short { self.now.is_short ≡ true → result ≡ Some MacroFault.OutOfMemory }
        ensures told { self.now.is_short ≡ false → (self.now.mistakes.items ≡ [] → ⊥)
            → MatchOption result ⊥ (AreThese self.now.mistakes.items) }
        ensures whole { self.now.is_short ≡ false → self.now.mistakes.items ≡ []
            → self.now.frames.items ≡ [] → result ≡ None }
        ensures none { IfNone result ((self.now.is_short ≡ false)
            × (self.now.mistakes.items ≡ []) × (self.now.frames.items ≡ [])) }
        ensures mistakes { IsWithin self.now → IfSome result AreTold }
    {
        if self.is_short {
            Some(MacroFault::OutOfMemory)
        } else if !self.mistakes.is_empty() {
            Some(told(alloc, &self.mistakes))
        } else if !self.frames.is_empty() {
            Some(fault(alloc, MacroErrorKind::Much))
        } else {
            None
        }
    }

    /// Tells a mistake, if something more is read.
    fn tell(&mut self, mistake: MacroError)
        ensures told { self.old.is_over ≡ false
            → Tells self.old self.new mistake ⊎ IsShort self.old self.new }
        ensures over { self.old.is_over ≡ true → self.new ≡ self.old }
        ensures within { IsWithin self.old → IsWithin self.new }
    {
        if self.is_over {
            return;
        }
        let is_kept = self.mistakes.push(mistake).is_ok();
        self.keep(is_kept);
        if mistake.kind.is_last() || self.mistakes.len() >= MOST_MISTAKES {
            self.is_over = true;
        }
    }

    /// Goes on where a text is read to its end.
    fn finish(&mut self, frame: Frame<A>)
        ensures unended { self.old.is_over ≡ false → IfSome (last_of frame.reader.conditions.items)
            (λ condition. TellsOne self.old self.new condition.place) }
        ensures ended { frame.reader.conditions.items ≡ [] → frame.reader.copies ≡ 0
            → self.new ≡ self.old }
        ensures within { IsWithin self.old → IsWithin self.new }
    {
        let mut frame = frame;
        if let Some(condition) = frame.reader.conditions.last() {
            self.tell(condition.place);
        }
        if frame.reader.begin_again() {
            self.read(frame);
        }
    }

    /// Goes on after a line or a statement of a text, which began at a place, where so many bytes
    /// are made.
    fn turn(&mut self, frame: Frame<A>, turn: Turn<A>, origin: Origin, made: usize)
        ensures stays { turn ≡ Turn.Stay → made ≤ MOST_MADE
            → Enters self.old self.new frame ⊎ IsShort self.old self.new }
        ensures leaves { turn ≡ Turn.Leave → made ≤ MOST_MADE → self.new ≡ self.old }
        ensures stumbles { (slip : Slip) → turn ≡ Turn.Stumble slip → made ≤ MOST_MADE
            → self.old.is_over ≡ false → length frame.text.items < usize.MAX
            → TellsOne self.old self.new
            (mistake_at origin.number origin.line_start (length frame.text.items) slip) }
        ensures within { IsWithin self.old → IsWithin self.new }
    {
        let left = frame.text.len();
        if made > MOST_MADE {
            self.tell_at(origin, left, MacroErrorKind::Much);
        }
        self.go_on(frame, turn, origin);
    }

    /// Tells a mistake in a line of a text of so many bytes, at the head of the line.
    fn tell_at(&mut self, origin: Origin, length: usize, kind: MacroErrorKind)
        ensures told { self.old.is_over ≡ false → length < usize.MAX → TellsOne self.old self.new
            (mistake_at origin.number origin.line_start length
            (record { kind = kind; left = length })) }
        ensures over { self.old.is_over ≡ true → self.new ≡ self.old }
        ensures within { IsWithin self.old → IsWithin self.new }
    {
        self.tell(origin.mistake(length, Slip { kind, left: length }));
    }

    /// Goes on after a line or a statement of a text, which began at a place.
    fn go_on(&mut self, frame: Frame<A>, turn: Turn<A>, origin: Origin)
        ensures stays { turn ≡ Turn.Stay
            → Enters self.old self.new frame ⊎ IsShort self.old self.new }
        ensures leaves { turn ≡ Turn.Leave → self.new ≡ self.old }
        ensures stumbles { (slip : Slip) → turn ≡ Turn.Stumble slip
            → self.old.is_over ≡ false → length frame.text.items < usize.MAX
            → TellsOne self.old self.new
            (mistake_at origin.number origin.line_start (length frame.text.items) slip) }
        ensures within { IsWithin self.old → IsWithin self.new }
    {
        let left = frame.text.len();
        match turn {
            Turn::Leave => (),
            Turn::Over => self.finish(frame),
            Turn::Stay => self.read(frame),
            Turn::Stumble(slip) => {
                self.tell(origin.mistake(left, slip));
                self.read(frame);
            }
            Turn::Enter(inner) => {
                self.read(frame);
                if self.frames.len() < MOST_DEPTH {
                    self.read(inner);
                } else {
                    self.tell_at(origin, left, MacroErrorKind::Deep);
                }
            }
        }
    }
}

/// A source without macros, conditions and repetitions, and of each of its lines the line of the
/// source that it is of: for a line of a macro or of a repetition that of its body, as GNU `as`
/// tells it.
///
/// # Errors
///
/// `MacroFault::Mistakes` with the first 20 mistakes, in the order in which they are met, and
/// `MacroFault::OutOfMemory`.
pub fn expand<A: Allocator + Copy>(alloc: A, source: &[u8]) -> Result<Expanded<A>, MacroFault<A>>
    ensures same { has_directives source.now ≡ false → IfOk result (IsSame source.now) }
    ensures taken { has_directives source.now ≡ false
        → IfErr result (λ fault. fault ≡ MacroFault.OutOfMemory) }
    ensures gone { has_directives source.now ≡ true → IfOk result (λ expanded.
        list_any begins_one (lines expanded.text.items) ≡ false) }
    ensures mapped { IfOk result (IsMapped source.now) }
    ensures above { has_directives source.now ≡ true → IfOk result (KeepsAbove source.now) }
    ensures becomes { has_directives source.now ≡ true
        → IfOk result (λ expanded. IsExpansion source.now expanded.text.items) }
    ensures mistakes { IfErr result AreTold }
{
    if has_directives(source) {
        expanded(alloc, source)
    } else {
        match unchanged(alloc, source) {
            Ok(same) => Ok(same),
            Err(_) => Err(MacroFault::OutOfMemory),
        }
    }
}

/// A source with directives, expanded.
fn expanded<A: Allocator + Copy>(alloc: A, source: &[u8]) -> Result<Expanded<A>, MacroFault<A>>
    ensures gone { IfOk result (λ expanded.
        list_any begins_one (lines expanded.text.items) ≡ false) }
    ensures mapped { IfOk result (IsMapped source.now) }
    ensures above { IfOk result (KeepsAbove source.now) }
    ensures becomes { IfOk result (λ expanded. IsExpansion source.now expanded.text.items) }
    ensures mistakes { IfErr result AreTold }
{
    let mut expansion = Expansion::new(alloc, source)?;
    read_all(alloc, source, &mut expansion)
}

/// Reads a source to its end, and what it becomes. There is no result with a mistake.
fn read_all<A: Allocator + Copy>(
    alloc: A,
    source: &[u8],
    expansion: &mut Expansion<A>,
) -> Result<Expanded<A>, MacroFault<A>>
    ensures wrong { expansion.new.is_short ≡ false → (expansion.new.mistakes.items ≡ [] → ⊥)
        → MatchResult result (λ _. ⊥) (AreThese expansion.new.mistakes.items) }
    ensures right { IfOk result (λ _. expansion.new.mistakes.items ≡ []) }
    ensures read { IfOk result (λ _. expansion.new.frames.items ≡ []) }
    ensures long { IfOk result (λ _. expansion.new.is_short ≡ false) }
    ensures gone { IfOk result (λ expanded.
        list_any begins_one (lines expanded.text.items) ≡ false) }
    ensures mapped { IfOk result (IsMapped source.now) }
    ensures above { IfOk result (KeepsAbove source.now) }
    ensures becomes { IfOk result (λ expanded. IsExpansion source.now expanded.text.items) }
    ensures mistakes { IsWithin expansion.old → IfErr result AreTold }
{
    let total = height(source);
    let mut out = Expanded::new(alloc);
    let mut tables = Tables::new(alloc);
    for _ in 0..MOST_STEPS {
        if expansion.is_over {
            break;
        }
        let Some(frame) = expansion.frames.pop() else {
            break;
        };
        advance(&mut tables, expansion, frame, &mut out, total)?;
    }
    if let Some(fault) = expansion.fault(alloc) {
        return Err(fault);
    }
    match completed(out, total) {
        Ok(whole) => settled(alloc, source, whole),
        Err(_) => Err(MacroFault::OutOfMemory),
    }
}

/// Reads a line or a statement of a text, and puts what comes of it: nothing with a mistake.
fn advance<A: Allocator + Copy>(
    tables: &mut Tables<A>,
    expansion: &mut Expansion<A>,
    frame: Frame<A>,
    out: &mut Expanded<A>,
    total: usize,
) -> Result<(), AllocError>
    ensures made { 1 ≤ total → IsMade total out.old → OnOk result (IsMade total out.new) }
    ensures of_line { IsLine total (line_of frame.reader) → OnOk result
        ((out.new.lines.items ≡ out.old.lines.items)
        ⊎ (out.new.lines.items ≡ out.old.lines.items ++ line_of frame.reader ∷ [])) }
    ensures within { IsWithin expansion.old → IsWithin expansion.new }
{
    let mut frame = frame;
    let origin = frame.reader.origin();
    let step = step_of(tables, &frame.text, &mut frame.reader)?;
    put_span(out, &frame.text, step.line, total)?;
    expansion.turn(frame, step.turn, origin, out.text.len());
    Ok(())
}

/// Reads a line or a statement of a text. With a mistake nothing comes of it.
fn step_of<A: Allocator + Copy>(
    tables: &mut Tables<A>,
    text: &[u8],
    reader: &mut Reader<A>,
) -> Result<Step<A>, AllocError>
    ensures number { IfOk result (λ step.
        IfSome step.line (λ span. span.number ≡ line_of reader.old)) }
{
    let read = read_step(tables, text, reader);
    match tables.mistake.take() {
        None => Ok(read),
        Some(Halt::Slip(slip)) => Ok(Step {
            line: None,
            turn: Turn::Stumble(slip),
        }),
        Some(Halt::OutOfMemory) => Err(AllocError),
    }
}

/// A result, if it is one of this source.
fn settled<A: Allocator + Copy>(
    alloc: A,
    source: &[u8],
    whole: Expanded<A>,
) -> Result<Expanded<A>, MacroFault<A>>
    ensures gone { IfOk result (λ expanded.
        list_any begins_one (lines expanded.text.items) ≡ false) }
    ensures mapped { IsMapped source.now whole → IfOk result (IsMapped source.now) }
    ensures above { IfOk result (KeepsAbove source.now) }
    ensures becomes { IfOk result (λ expanded. IsExpansion source.now expanded.text.items) }
    ensures mistakes { IfErr result AreTold }
{
    if begins_directive(&whole.text) || !keeps_above(source, &whole) {
        return Err(fault(alloc, MacroErrorKind::LeftOver));
    }
    if is_expansion(alloc, source, &whole.text)? {
        Ok(whole)
    } else {
        Err(fault(alloc, MacroErrorKind::LeftOver))
    }
}

/// A mistake that has no place of its own. `MacroErrorKind::LeftOver` says that a directive is left
/// in a result, or that it is another than the source becomes. No source is known of which that is
/// so.
#[tactic(auto, using(crate::proofs::Told::told_within))]
fn fault<A: Allocator + Copy>(alloc: A, kind: MacroErrorKind) -> MacroFault<A>
    ensures first { AreThese (record { line = 1; column = 1; kind = kind } ∷ []) result }
    ensures told { AreTold result }
{
    let mistake = MacroError {
        line: 1,
        column: 1,
        kind,
    };
    told(alloc, &[mistake])
}

/// These mistakes.
fn told<A: Allocator + Copy>(alloc: A, mistakes: &[MacroError]) -> MacroFault<A>
    ensures { AreThese mistakes.now result }
{
    match Vec::from_slice(alloc, mistakes) {
        Ok(mistakes) => MacroFault::Mistakes(mistakes),
        Err(_) => MacroFault::OutOfMemory,
    }
}

/// A result of one of so many lines of the source, with a line at least.
fn completed<A: Allocator + Copy>(out: Expanded<A>, total: usize) -> Result<Expanded<A>, AllocError>
    ensures { 1 ≤ total → IsMade total out
        → IfOk result (λ whole. (1 ≤ length whole.lines.items) × IsMade total whole) }
{
    let mut out = out;
    if out.lines.is_empty() {
        out.put(&[], 1)?;
    }
    Ok(out)
}

/// Appends a part of a text, if one is put, as a line of its line of the source, which has so many.
fn put_span<A: Allocator + Copy>(
    out: &mut Expanded<A>,
    text: &[u8],
    span: Option<Span>,
    total: usize,
) -> Result<(), AllocError>
    ensures made { 1 ≤ total → IsMade total out.old → OnOk result (IsMade total out.new) }
    ensures number { IfSome span (λ s. IsLine total s.number
        → OnOk result (out.new.lines.items ≡ out.old.lines.items ++ s.number ∷ [])) }
    ensures none { IfNone span (OnOk result (out.new ≡ out.old)) }
{
    match span {
        Some(span) => {
            let line = text.get(span.start..span.end).unwrap_or(&[]);
            out.put(line, span.number.max(1).min(total))
        }
        None => Ok(()),
    }
}
