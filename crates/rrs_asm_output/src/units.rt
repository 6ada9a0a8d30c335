//! What the instructions of a program lie in.

ghost use Rattle.std.specs.Prelude.{◌≡◌};
ghost use Rattle.std.specs.List.{list_any};
ghost use Rattle.rrs_asm.specs.Statements.{is_short};
ghost use Rattle.rrs_asm_output.specs.Executables.{has_compressed, unit_of};

use rrs_asm::{Placed, Section};
use rrs_elf::CodeUnit;

/// Whether one of the statements is a compressed instruction.
fn has_short(placed: &[Placed]) -> bool
    ensures { result ≡ list_any (λ p. is_short p.statement) placed.now }
{
    for one in placed {
        if one.statement.is_short() {
            return true;
        }
    }
    false
}

/// Whether a section has compressed instructions, or can have them.
fn has_compressed(section: &Section) -> bool
    ensures { result ≡ has_compressed section.now }
{
    section.takes_compressed || has_short(&section.made.placed)
}

/// What the instructions of sections lie in.
pub fn unit_of(sections: &[Section]) -> CodeUnit
    ensures { result ≡ unit_of sections.now }
{
    for section in sections {
        if has_compressed(section) {
            return CodeUnit::HalfWord;
        }
    }
    CodeUnit::Word
}
