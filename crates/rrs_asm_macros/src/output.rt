//! The result: its text, and the line of the source that each of its lines is of.

ghost use Rattle.std.specs.Prelude.{◌≡◌, ℕ, ◌≤◌, [], ◌∷◌, ◌++◌, length, OnOk, IfOk};
ghost use Rattle.rrs_asm_macros.specs.Lines.{IsLine, IsMade, IsSame};

use crate::blocks::height;
use rrs_asm_lines::first_line;
use std::alloc::{AllocError, Allocator, Global};

/// A source without macros, conditions and repetitions.
#[derive(Drop)]
#[derive_where(Debug)]
pub struct Expanded<A: Allocator = Global> {
    /// Its text.
    pub text: Vec<u8, A>,
    /// Of each of its lines the line of the source that it is of, counted from 1.
    pub lines: Vec<usize, A>,
}

impl<A: Allocator + Copy> Expanded<A> {
    /// Nothing.
    pub fn new(alloc: A) -> Self
        ensures { (total : ℕ) → IsMade total result }
    {
        Expanded {
            text: Vec::new(alloc),
            lines: Vec::new(alloc),
        }
    }

    /// Appends the first line of a text, which is of a line of the source.
    pub fn put(&mut self, text: &[u8], number: usize) -> Result<(), AllocError>
        ensures made { (total : ℕ) → IsLine total number → IsMade total self.old
            → OnOk result ((1 ≤ length self.new.lines.items) × IsMade total self.new) }
        ensures number { OnOk result (self.new.lines.items ≡ self.old.lines.items ++ number ∷ []) }
    {
        let (line, _) = first_line(text);
        if !self.lines.is_empty() {
            self.text.push(b'\n')?;
        }
        self.text.extend_from_slice(line)?;
        Ok(self.lines.push(number)?)
    }
}

/// A source as it stands.
pub fn unchanged<A: Allocator + Copy>(alloc: A, source: &[u8]) -> Result<Expanded<A>, AllocError>
    ensures { IfOk result (IsSame source.now) }
{
    let mut lines = Vec::new(alloc);
    for index in 0..height(source) {
        lines.push(index + 1)?;
    }
    let text = Vec::from_slice(alloc, source)?;
    Ok(Expanded { text, lines })
}
