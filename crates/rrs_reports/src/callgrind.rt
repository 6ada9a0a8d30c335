//! What a run covered, in Callgrind's profile format, which `callgrind_annotate` reads.

ghost use Rattle.std.specs.Prelude.{◌++◌, ℕ, List, OnOk};
ghost use Rattle.std.specs.Io.KnownBytes.{Appends};
ghost use Rattle.rrs_reports.specs.Profiles.{Writes, WritesSome, profile_head};

use crate::pieces::Pieces;
use crate::profile::Profile;
use std::io::{self, Write};

/// Writes the name of the function of a number, after the key of a line.
fn write_function<W: Write>(
    out: &mut Pieces<'_, W>,
    profile: &Profile<'_, '_>,
    key: &str,
    number: u32,
)
    ensures { WritesSome W.contents out.old out.new }
{
    let name = match profile.function(number) {
        Some(function) => function.name,
        None => b"(no function)",
    };
    out.text(key);
    out.number("=(", u64::from(number));
    out.name(") ", name, "\n");
}

/// Writes how many steps there were at an address.
fn write_steps<W: Write>(out: &mut Pieces<'_, W>, address: u32, steps: u64)
    ensures { WritesSome W.contents out.old out.new }
{
    out.hexadecimal("0x", 1, address);
    out.number(" ", steps);
    out.text("\n");
}

/// Writes the calls from the instruction at an address: which function, how often, and how many
/// steps were made until it returned.
fn write_calls<W: Write>(out: &mut Pieces<'_, W>, profile: &Profile<'_, '_>, address: u32)
    ensures { WritesSome W.contents out.old out.new }
{
    let mut next = profile.calls.first_from(profile.code, address);
    for _ in 0..u32::MAX {
        let Some(call) = profile.calls.call(next) else {
            return;
        };
        let start = match profile.function(call.callee) {
            Some(function) => function.start,
            None => 0,
        };
        write_function(out, profile, "cfn", call.callee);
        out.number("calls=", call.count);
        out.hexadecimal(" 0x", 1, start);
        out.text("\n");
        write_steps(out, address, call.inclusive);
        next = call.next;
    }
}

/// Writes the counts and the calls of a function, or of the code that belongs to none.
fn write_costs<W: Write>(out: &mut Pieces<'_, W>, profile: &Profile<'_, '_>, number: u32)
    ensures { WritesSome W.contents out.old out.new }
{
    write_function(out, profile, "fn", number);
    let mut next = profile.code.first_of(number);
    for _ in 0..u32::MAX {
        let Some((address, behind)) = profile.code.unit_of(next) else {
            return;
        };
        let steps = profile.coverage.count(address);
        if steps > 0 {
            write_steps(out, address, steps);
            write_calls(out, profile, address);
        }
        next = behind;
    }
}

/// Writes what a profile begins with, for the program of a path.
fn write_head<W: Write>(out: &mut Pieces<'_, W>, path: &[u8])
    ensures { Writes W.contents out.old (profile_head path.now) out.new }
{
    out.text("# callgrind format\nversion: 1\ncreator: rrs cover\n");
    out.name("cmd: ", path, "\npositions: instr\nevents: Ir\n\n");
    out.name("ob=(1) ", path, "\nfl=(1) ???\n");
}

/// Writes the costs of the code that belongs to no function, the steps outside of the code, and the
/// costs of each function that was executed.
fn write_all_costs<W: Write>(out: &mut Pieces<'_, W>, profile: &Profile<'_, '_>)
    ensures { WritesSome W.contents out.old out.new }
{
    write_costs(out, profile, 0);
    let elsewhere = profile.coverage.elsewhere;
    if elsewhere > 0 {
        write_steps(out, 0, elsewhere);
    }
    for index in 0..profile.function_count() {
        let number = index.wrapping_add(1);
        if profile.covered(number).steps > 0 {
            write_costs(out, profile, number);
        }
    }
}

/// Writes what a run covered in Callgrind's profile format, for the program of this path: of each
/// function that was executed how often each of its instructions was, and of each call how often it
/// was made and how many steps it took until the function returned. Steps outside of the code are
/// of the function `(no function)`, at address 0. The program is the object that the functions are
/// of; which source they are of is not known, for which the format has `???`.
///
/// Its begin names the program (`begins`). What follows is tested alone: `callgrind_annotate` reads
/// it, says nothing of it, and finds these steps (`tests/test_reports.py`).
///
/// # Errors
///
/// A write that fails.
pub fn write_callgrind<W: Write>(
    out: &mut W,
    path: &str,
    profile: &Profile<'_, '_>,
) -> io::Result<()>
    ensures begins { OnOk result ((costs : List ℕ)
        × Appends (W.contents out.old) (W.contents out.new) (profile_head path.now ++ costs)) }
{
    let mut pieces = Pieces {
        out,
        written: Ok(()),
    };
    write_head(&mut pieces, path.as_bytes());
    write_all_costs(&mut pieces, profile);
    pieces.written
}
