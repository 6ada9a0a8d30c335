//! What is made of a source.

ghost use Rattle.std.specs.Prelude.{◌≡◌, ◌≤◌, ◌+◌, ◌^◌, ℕ, List, [], ◌∷◌, ◌++◌, OnOk, IfOk, length, replicate, take};
ghost use Rattle.std.specs.Int.{to_le_bytes, w16, w32};
ghost use Rattle.rrs_words.specs.Forms.{IsShort};
ghost use Rattle.rrs_words.specs.Layers.{IsOfLayer};
ghost use Rattle.rrs_asm.specs.declared.statements.Statement.{Statement};
ghost use Rattle.rrs_asm.specs.Statements.{AreWords, AreBytes, AddsPlaced};
ghost use Rattle.rrs_asm.specs.Pseudo.{listed};

use crate::pseudo::Expansion;
use crate::statements::Statement;
use rrs_asm_lines::{Halt, LineError, SourceErrorKind};
use rrs_encode::encode;
use rrs_instruction::instruction::Instruction;
use rrs_words::{LayerInstruction, ShortInstruction, encode_layer, encode_short};
use std::alloc::{Allocator, Global};

/// The most bytes that are made of a source: 64 MiB.
pub const MOST_BYTES: usize = 0x400_0000;

/// The word of `unimp`.
const UNIMP: u32 = 0xc000_1073;

/// A statement and its place.
#[derive(Clone, Copy)]
pub struct Placed {
    /// The line where it stands, counted from 1.
    pub line: usize,
    /// The address of its first byte.
    pub address: u32,
    /// What stands there.
    pub statement: Statement,
}

/// A label and its place.
#[derive(Clone, Copy)]
pub struct Label<'a> {
    /// The line where it stands, counted from 1.
    pub line: usize,
    /// Its name, or its digit.
    pub name: &'a [u8],
    /// The address of what stands after it. After the last address that is 0.
    pub address: u32,
}

/// What was made of the items of a section.
#[derive(Drop)]
pub struct Assembled<'a, A: Allocator = Global> {
    /// The labels in the order of the source, local labels too.
    pub labels: Vec<Label<'a>, A>,
    /// The statements in the order of their addresses, which is that of the source.
    pub placed: Vec<Placed, A>,
    /// The bytes from the first address on.
    pub bytes: Vec<u8, A>,
}

impl<'a, A: Allocator + Copy> Assembled<'a, A> {
    /// Nothing.
    pub fn new(alloc: A) -> Self
        ensures labels { result.labels.items ≡ [] }
        ensures placed { result.placed.items ≡ [] }
        ensures bytes { result.bytes.items ≡ [] }
    {
        Assembled {
            labels: Vec::new(alloc),
            placed: Vec::new(alloc),
            bytes: Vec::new(alloc),
        }
    }
}

impl<'a, A: Allocator> Assembled<'a, A> {
    /// Puts a statement of a line after the others, the first of which stands at `base`. Its data
    /// are given, if it has some.
    pub fn place(
        &mut self,
        base: u32,
        line: usize,
        statement: Statement,
        given: &[u8],
    ) -> Result<(), Halt>
        ensures placed { OnOk result (AddsPlaced base line statement self.old.placed.items
            self.new.placed.items self.old.bytes.items self.new.bytes.items) }
        ensures given { (count : ℕ) → statement ≡ Statement.Data count → OnOk result
            (self.new.bytes.items ≡ self.old.bytes.items ++ take count given.now) }
        ensures labels { self.new.labels.items ≡ self.old.labels.items }
    {
        let address = address_behind(base, &self.bytes)?;
        append(&mut self.bytes, &statement, given)?;
        self.placed.push(Placed {
            line,
            address,
            statement,
        })?;
        Ok(())
    }
}

/// The address after bytes, the first of which stands at `base`.
fn address_behind<A: Allocator>(base: u32, bytes: &Vec<u8, A>) -> Result<u32, Halt>
    ensures { IfOk result (λ address. address ≡ base + length bytes.now.items) }
{
    let length = bytes.len();
    if length <= MOST_BYTES && length as u64 + u64::from(base) < 1 << 32 {
        Ok(base + length as u32)
    } else {
        Err(too_long())
    }
}

/// The mistake of a program that is too long, or goes past the end of addresses.
pub fn too_long() -> Halt {
    Halt::Error(LineError {
        kind: SourceErrorKind::TooLong,
        left: 0,
    })
}

/// Appends the bytes of a statement, whose data are given.
fn append<A: Allocator>(
    bytes: &mut Vec<u8, A>,
    statement: &Statement,
    given: &[u8],
) -> Result<(), Halt>
    ensures own { OnOk result ((own : List ℕ) × AreBytes statement.now own
        × (bytes.new.items ≡ bytes.old.items ++ own)) }
    ensures given { (count : ℕ) → statement.now ≡ Statement.Data count
        → OnOk result (bytes.new.items ≡ bytes.old.items ++ take count given.now) }
{
    match statement {
        Statement::Instruction(instruction) => append_instruction(bytes, instruction),
        Statement::Layer(instruction) => append_layer(bytes, instruction),
        Statement::Short(instruction) => append_short(bytes, instruction),
        Statement::Pseudo(pseudo) => append_expansion(bytes, &pseudo.expand()),
        Statement::Data(count) => append_data(bytes, given, *count),
        Statement::Fill(count, byte) => append_fill(bytes, *count, *byte),
        Statement::Unimp => Ok(bytes.extend_from_slice(&UNIMP.to_le_bytes())?),
    }
}

/// Appends the word of an instruction of a layer, its lowest byte first.
fn append_layer<A: Allocator>(
    bytes: &mut Vec<u8, A>,
    instruction: &LayerInstruction,
) -> Result<(), Halt>
    ensures { OnOk result ((w : ℕ) × IsOfLayer w instruction.now
        × (bytes.new.items ≡ bytes.old.items ++ to_le_bytes w32 w)) }
{
    match encode_layer(instruction) {
        Some(word) => Ok(bytes.extend_from_slice(&word.to_le_bytes())?),
        None => Err(Halt::Error(LineError {
            kind: SourceErrorKind::Range,
            left: 0,
        })),
    }
}

/// Appends the half-word of a compressed instruction, its lowest byte first.
fn append_short<A: Allocator>(
    bytes: &mut Vec<u8, A>,
    instruction: &ShortInstruction,
) -> Result<(), Halt>
    ensures { OnOk result ((h : ℕ) × IsShort h instruction.now.form instruction.now.operands
        × (bytes.new.items ≡ bytes.old.items ++ to_le_bytes w16 h)) }
{
    match encode_short(instruction) {
        Some(half) => Ok(bytes.extend_from_slice(&half.to_le_bytes())?),
        None => Err(Halt::Error(LineError {
            kind: SourceErrorKind::Range,
            left: 0,
        })),
    }
}

/// Appends the first so many bytes of data.
fn append_data<A: Allocator>(bytes: &mut Vec<u8, A>, given: &[u8], count: usize) -> Result<(), Halt>
    ensures count { OnOk result (length (take count given.now) ≡ count) }
    ensures given { OnOk result (bytes.new.items ≡ bytes.old.items ++ take count given.now) }
{
    match given.get(..count) {
        Some(own) => Ok(bytes.extend_from_slice(own)?),
        None => Err(too_long()),
    }
}

/// Appends so many of a byte.
fn append_fill<A: Allocator>(bytes: &mut Vec<u8, A>, count: u32, byte: u8) -> Result<(), Halt>
    ensures { OnOk result (bytes.new.items ≡ bytes.old.items ++ replicate count byte) }
{
    let length = bytes.len().saturating_add(count as usize);
    Ok(bytes.resize(length, byte)?)
}

/// Appends the words of one or two instructions.
fn append_expansion<A: Allocator>(bytes: &mut Vec<u8, A>, expansion: &Expansion) -> Result<(), Halt>
    ensures { OnOk result ((own : List ℕ) × AreWords (listed expansion.now) own
        × (bytes.new.items ≡ bytes.old.items ++ own)) }
{
    append_instruction(bytes, &expansion.first)?;
    match &expansion.second {
        Some(second) => append_instruction(bytes, second),
        None => Ok(()),
    }
}

/// Appends the word of an instruction, its lowest byte first.
fn append_instruction<A: Allocator>(
    bytes: &mut Vec<u8, A>,
    instruction: &Instruction,
) -> Result<(), Halt>
    ensures { OnOk result ((own : List ℕ) × AreWords (instruction.now ∷ []) own
        × (bytes.new.items ≡ bytes.old.items ++ own)) }
{
    match encode(instruction) {
        Some(word) => Ok(bytes.extend_from_slice(&word.to_le_bytes())?),
        None => Err(Halt::Error(LineError {
            kind: SourceErrorKind::Range,
            left: 0,
        })),
    }
}
