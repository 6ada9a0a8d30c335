//! What a run covered of each function, in lines.

use crate::functions::Function;
use crate::pieces::Pieces;
use crate::profile::Profile;
use std::io::{self, Write};

/// What a run covered of a function, or of the code that belongs to none.
#[derive(Clone, Copy)]
pub struct Covered {
    /// How many instructions it has.
    pub instructions: u64,
    /// How many of them were executed.
    pub executed: u64,
    /// How many steps were made in it.
    pub steps: u64,
    /// How often it was entered.
    pub entries: u64,
}

impl Covered {
    /// What was covered of both.
    fn and(self, other: Covered) -> Covered {
        Covered {
            instructions: self.instructions.saturating_add(other.instructions),
            executed: self.executed.saturating_add(other.executed),
            steps: self.steps.saturating_add(other.steps),
            entries: self.entries.saturating_add(other.entries),
        }
    }
}

impl Profile<'_, '_> {
    /// What the run covered of the function of a number: of each unit that belongs to it, once. 0
    /// is for the code that belongs to none. An upper half-word is no instruction, unless it was
    /// executed.
    pub fn covered(&self, number: u32) -> Covered {
        let mut covered = Covered {
            instructions: 0,
            executed: 0,
            steps: 0,
            entries: self.calls.entries(number),
        };
        let mut next = self.code.first_of(number);
        for _ in 0..u32::MAX {
            let Some((address, behind)) = self.code.unit_of(next) else {
                break;
            };
            let steps = self.coverage.count(address);
            covered = covered.and(Covered {
                instructions: u64::from(steps > 0 || self.code.begins_instruction(address)),
                executed: u64::from(steps > 0),
                steps,
                entries: 0,
            });
            next = behind;
        }
        covered
    }

    /// How many functions the code has, whose numbers begin at 1.
    pub fn function_count(&self) -> u32 {
        self.code.functions().len().min(u32::MAX as usize) as u32
    }

    /// The function of a number, if it is one.
    pub fn function(&self, number: u32) -> Option<&Function<'_>> {
        self.code.functions().get(number.wrapping_sub(1) as usize)
    }
}

/// Writes the line of a function, or of the code that belongs to none.
fn write_line<W: Write>(out: &mut Pieces<'_, W>, covered: Covered, name: &[u8]) {
    out.column(8, covered.executed, " ");
    out.column(8, covered.instructions, " ");
    out.column(12, covered.entries, " ");
    out.column(12, covered.steps, " ");
    out.name(" ", name, "\n");
}

/// Writes the lines of the functions that ran, or of those that did not.
fn write_functions<W: Write>(out: &mut Pieces<'_, W>, profile: &Profile<'_, '_>, ran: bool) {
    for index in 0..profile.function_count() {
        let number = index.wrapping_add(1);
        let covered = profile.covered(number);
        if let Some(function) = profile.function(number) {
            if (covered.steps > 0) == ran {
                write_line(out, covered, function.name);
            }
        }
    }
}

/// Writes what a run covered: a line for each function, those that ran first, and else in the order
/// of their addresses, with how many of its instructions were executed, how many it has, how often
/// it was entered, and how many steps were made in it; a line for the code that belongs to no
/// function, if there is some; one for the steps outside of the code, if some were made; and the
/// sums.
///
/// # Errors
///
/// A write that fails.
pub fn write_summary<W: Write>(out: &mut W, profile: &Profile<'_, '_>) -> io::Result<()> {
    let mut out = Pieces::new(out);
    out.text("executed       of      entered        steps  function\n");
    write_functions(&mut out, profile, true);
    write_functions(&mut out, profile, false);
    let rest = profile.covered(0);
    if rest.instructions > 0 {
        write_line(&mut out, rest, b"(no function)");
    }
    let outside = Covered {
        instructions: 0,
        executed: 0,
        steps: profile.coverage.elsewhere,
        entries: 0,
    };
    if outside.steps > 0 {
        write_line(&mut out, outside, b"(outside the code)");
    }
    let mut sum = rest.and(outside);
    for index in 0..profile.function_count() {
        sum = sum.and(profile.covered(index.wrapping_add(1)));
    }
    write_line(&mut out, sum, b"(all)");
    out.finish()
}
