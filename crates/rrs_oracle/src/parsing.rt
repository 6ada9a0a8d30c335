//! Reading questions from lines of text.

ghost use Rattle.std.specs.Prelude.{◌≡◌, ◌≤◌, ℕ, List, [], ◌∷◌, Some, None, Option, IfOk, IfErr, OnErr, MatchOption, MatchResult, codes, option_map};
ghost use Rattle.rrs_oracle.specs.Numerals.{word_of, register_of};
ghost use Rattle.rrs_oracle.specs.Questions.{Asked, WhereMalformed, asked, asks, count_of, entry_of, last_of, memory_of, reads_question, reads_steps, registers_of, value_as, value_of};
ghost use Rattle.rrs_oracle.specs.Taking.{TakesAs, TakesNone, words_left};

use crate::numerals::{decimal, hex_word, register_index};
use crate::questions::{MOST_STEPS, ParseError, ParseErrorKind, Question, Register, Steps};
use std::alloc::Global;

/// What is left of a line, in words that single spaces separate.
#[derive(Drop)]
struct Words<'a> {
    /// The text from the next word on, or `None` after the last word.
    rest: Option<&'a str>,
}

impl<'a> Words<'a> {
    /// Takes the next word off.
    fn next_word(&mut self) -> Option<&'a str>
        ensures { MatchOption result (words_left self.old.rest ≡ [])
            (λ word. words_left self.old.rest ≡ word.now ∷ words_left self.new.rest) }
    {
        let text = self.rest?;
        match text.split_once(' ') {
            Some((word, rest)) => {
                self.rest = Some(rest);
                Some(word)
            }
            None => {
                self.rest = None;
                Some(text)
            }
        }
    }

    /// Takes the next word off, which is a word of the machine.
    fn next_hex(&mut self, part: &'static str) -> Result<u32, ParseErrorKind>
        ensures { MatchResult result
            (λ word. TakesAs word_of (words_left self.old.rest) word (words_left self.new.rest))
            (λ _. TakesNone word_of (words_left self.old.rest)) }
    {
        let text = self.next_word().ok_or(ParseErrorKind::Missing(part))?;
        hex_word(text).ok_or(ParseErrorKind::NotWord(part))
    }

    /// Takes the next word off, and gives what follows `name=` in it.
    fn next_value(&mut self, name: &'static str) -> Result<&'a str, ParseErrorKind>
        ensures { MatchResult result
            (λ value. TakesAs (value_of name.now) (words_left self.old.rest) value.now
            (words_left self.new.rest))
            (λ _. TakesNone (value_of name.now) (words_left self.old.rest)) }
    {
        let word = self.next_word().ok_or(ParseErrorKind::Missing(name))?;
        let (before, value) = word.split_once('=').ok_or(ParseErrorKind::Missing(name))?;
        if before != name {
            return Err(ParseErrorKind::Missing(name));
        }
        Ok(value)
    }

    /// Takes the number of steps off.
    fn next_count(&mut self) -> Result<u32, ParseErrorKind>
        ensures read { MatchResult result
            (λ count. TakesAs count_of (words_left self.old.rest) count (words_left self.new.rest))
            (λ _. TakesNone count_of (words_left self.old.rest)) }
        ensures few { IfOk result (λ count. count ≤ 1000000) }
    {
        count_of(self.next_word().ok_or(ParseErrorKind::Missing("N"))?)
    }

    /// Takes the program counter off.
    fn next_pc(&mut self) -> Result<u32, ParseErrorKind>
        ensures { MatchResult result
            (λ pc. TakesAs (value_as (codes "pc") word_of) (words_left self.old.rest) pc
            (words_left self.new.rest))
            (λ _. TakesNone (value_as (codes "pc") word_of) (words_left self.old.rest)) }
    {
        hex_word(self.next_value("pc")?).ok_or(ParseErrorKind::NotWord("pc"))
    }

    /// Takes the register that was written last off, which is `None` at `-`.
    fn next_last(&mut self) -> Result<Option<Register>, ParseErrorKind>
        ensures { MatchResult result
            (λ last. TakesAs (value_as (codes "last") last_of) (words_left self.old.rest)
            (option_map (λ register. register.index) last) (words_left self.new.rest))
            (λ _. TakesNone (value_as (codes "last") last_of) (words_left self.old.rest)) }
    {
        last_of(self.next_value("last")?)
    }

    /// Takes the registers off.
    fn next_registers(&mut self) -> Result<[u32; 32], ParseErrorKind>
        ensures { MatchResult result
            (λ registers. TakesAs (value_as (codes "regs") registers_of)
            (words_left self.old.rest) registers (words_left self.new.rest))
            (λ _. TakesNone (value_as (codes "regs") registers_of) (words_left self.old.rest)) }
    {
        registers_of(self.next_value("regs")?)
    }

    /// Takes the words of the memory off.
    fn next_memory(&mut self, alloc: Global) -> Result<Vec<u32>, ParseError>
        ensures { MatchResult result
            (λ memory. TakesAs (value_as (codes "mem") memory_of)
            (words_left self.old.rest) memory.items (words_left self.new.rest))
            (WhereMalformed (TakesNone (value_as (codes "mem") memory_of)
            (words_left self.old.rest))) }
    {
        memory_of(alloc, self.next_value("mem")?)
    }

    /// Takes `N pc=PC last=LAST regs=REGS mem=MEM` off: the steps that are asked for, and the
    /// state that they begin in.
    fn next_steps(&mut self, alloc: Global) -> Result<Steps, ParseError>
        ensures { (follows : Asked → List (List ℕ) → Option Asked) → MatchResult result
            (λ steps. reads_steps follows (words_left self.old.rest)
            ≡ follows (asked (Question.Steps steps)) (words_left self.new.rest))
            (WhereMalformed (reads_steps follows (words_left self.old.rest) ≡ None)) }
    {
        let count = self.next_count()?;
        let pc = self.next_pc()?;
        let last = self.next_last()?;
        let registers = self.next_registers()?;
        let memory = self.next_memory(alloc)?;
        Ok(Steps {
            count,
            pc,
            last,
            registers,
            memory,
        })
    }

    /// Takes a question off.
    fn next_question(&mut self, alloc: Global) -> Result<Question, ParseError>
        ensures { (follows : Asked → List (List ℕ) → Option Asked) → MatchResult result
            (λ question. reads_question follows (words_left self.old.rest)
            ≡ follows (asked question) (words_left self.new.rest))
            (WhereMalformed (reads_question follows (words_left self.old.rest) ≡ None)) }
    {
        match self.next_word() {
            Some("decode") => Ok(Question::Decode(self.next_hex("WORD")?)),
            Some("text") => Ok(Question::Text {
                pc: self.next_hex("PC")?,
                word: self.next_hex("WORD")?,
            }),
            Some("steps") => Ok(Question::Steps(self.next_steps(alloc)?)),
            _ => Err(ParseError::Malformed(ParseErrorKind::NoQuestion)),
        }
    }
}

/// The question that a line asks.
///
/// # Errors
///
/// `ParseError::Malformed` where the line asks nothing, with what is wrong with it, and
/// `ParseError::OutOfMemory`, which says nothing of the line.
pub fn question_of(alloc: Global, line: &str) -> Result<Question, ParseError>
    ensures asked { IfOk result (λ question. asks line.now ≡ Some (asked question)) }
    ensures refused { IfErr result (WhereMalformed (asks line.now ≡ None)) }
{
    if line.is_empty() {
        return Err(ParseError::Malformed(ParseErrorKind::EmptyLine));
    }
    let mut words = Words { rest: Some(line) };
    let question = words.next_question(alloc)?;
    if words.rest.is_some() {
        return Err(ParseError::Malformed(ParseErrorKind::TextAtEnd));
    }
    Ok(question)
}

/// A number of steps.
fn count_of(text: &str) -> Result<u32, ParseErrorKind>
    ensures value { IfOk result (λ count. count_of text.now ≡ Some count) }
    ensures none { OnErr result (count_of text.now ≡ None) }
    ensures few { IfOk result (λ count. count ≤ 1000000) }
{
    let count = decimal(text.as_bytes()).ok_or(ParseErrorKind::NotCount)?;
    if count > MOST_STEPS {
        return Err(ParseErrorKind::TooManySteps);
    }
    Ok(count)
}

/// The register that a name is: `x` and its number, 0 to 31.
fn register_of(name: &str) -> Result<Register, ParseErrorKind>
    ensures value { IfOk result (λ register. register_of name.now ≡ Some register.index) }
    ensures none { OnErr result (register_of name.now ≡ None) }
{
    let index = register_index(name).ok_or(ParseErrorKind::NotRegister)?;
    Ok(Register { index })
}

/// The register that was written last, or `None` at `-`.
fn last_of(text: &str) -> Result<Option<Register>, ParseErrorKind>
    ensures value { IfOk result (λ last. last_of text.now
        ≡ Some (option_map (λ register. register.index) last)) }
    ensures none { OnErr result (last_of text.now ≡ None) }
{
    if text == "-" {
        return Ok(None);
    }
    Ok(Some(register_of(text)?))
}

/// A register and its value, which is not 0.
fn entry_of(text: &str) -> Result<(Register, u32), ParseErrorKind>
    ensures value { IfOk result (λ entry. entry_of text.now ≡ Some (entry.0.index, entry.1)) }
    ensures none { OnErr result (entry_of text.now ≡ None) }
{
    let (name, value) = text.split_once('=').ok_or(ParseErrorKind::NoValue)?;
    let register = register_of(name)?;
    let value = hex_word(value).ok_or(ParseErrorKind::NotWord("a register's value"))?;
    if value == 0 {
        return Err(ParseErrorKind::ZeroListed);
    }
    Ok((register, value))
}

/// All registers, of which a list gives those that are not 0, in order, or `-` none. It looks at 33
/// entries at most: of more, one is out of order.
fn registers_of(text: &str) -> Result<[u32; 32], ParseErrorKind>
    ensures value { IfOk result (λ registers. registers_of text.now ≡ Some registers) }
    ensures none { OnErr result (registers_of text.now ≡ None) }
{
    let mut registers = [0; 32];
    if text == "-" {
        return Ok(registers);
    }
    let mut least = 0;
    for entry in text.split(',') {
        let (register, value) = entry_of(entry)?;
        if register.index < least {
            return Err(ParseErrorKind::OutOfOrder);
        }
        registers[register.index] = value;
        least = register.index + 1;
    }
    Ok(registers)
}

/// The words of the memory that a list gives, or none at `-`.
fn memory_of(alloc: Global, text: &str) -> Result<Vec<u32>, ParseError>
    ensures value { IfOk result (λ memory. memory_of text.now ≡ Some memory.items) }
    ensures none { IfErr result (WhereMalformed (memory_of text.now ≡ None)) }
{
    let mut memory = Vec::new(alloc);
    if text == "-" {
        return Ok(memory);
    }
    for entry in text.split(',') {
        memory.push(hex_word(entry).ok_or(ParseErrorKind::NotWord("a word of mem"))?)?;
    }
    Ok(memory)
}
