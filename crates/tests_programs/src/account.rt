//! What `simulate` and `simulate_quietly` print of a run, where they stop, and what they say of a
//! reader or a writer that fails.

use crate::THREE_WORDS;
use crate::writers::{Failing, Output};
use rrs_cli::fault::RunFault;
use rrs_cli::report::write_text;
use rrs_cli::simulation::simulate;
use rrs_run_commands::quiet::simulate_quietly;
use std::alloc::{AllocError, Global};
use std::io::{ErrorKind, Read, Write};
use std::test::Fail;

/// The account of these three words, with the line of each.
const ACCOUNT: &str = "\
0x00000000: lui x2, 0x1234b000
0x00000004: lui x3, 0xf387e000
0x00000008: add x1, x2, x3
end: IllegalInstruction pc=0x0000000c word=0x00000000, steps 3
x0 0x00000000
x1 0x05bc9000
x2 0x1234b000
x3 0xf387e000
x4 0x00000000
x5 0x00000000
x6 0x00000000
x7 0x00000000
x8 0x00000000
x9 0x00000000
x10 0x00000000
x11 0x00000000
x12 0x00000000
x13 0x00000000
x14 0x00000000
x15 0x00000000
x16 0x00000000
x17 0x00000000
x18 0x00000000
x19 0x00000000
x20 0x00000000
x21 0x00000000
x22 0x00000000
x23 0x00000000
x24 0x00000000
x25 0x00000000
x26 0x00000000
x27 0x00000000
x28 0x00000000
x29 0x00000000
x30 0x00000000
x31 0x00000000
pc 0x0000000c
";

/// How long the account is before its steps, after all of them and at its end.
const WHOLE_PARTS: [usize; 3] = [0, 89, 636];

/// The bytes of words, lowest first.
fn bytes_of(alloc: Global, words: &[u32]) -> Result<Vec<u8>, AllocError> {
    let mut bytes = Vec::new(alloc);
    for word in words {
        bytes.extend_from_slice(&word.to_le_bytes())?;
    }
    Ok(bytes)
}

/// What is printed of a run while it is made.
#[derive(Clone, Copy)]
enum Shown {
    /// The line of each instruction, by `simulate`.
    Instructions,
    /// Nothing, by `simulate_quietly`.
    Nothing,
}

/// What the call answers, whose contract is so paid in this function alone.
fn simulated<R: Read, W: Write>(
    alloc: Global,
    shown: Shown,
    reader: &mut R,
    limit: u64,
    out: &mut W,
) -> Result<(), RunFault> {
    match shown {
        Shown::Instructions => simulate(alloc, reader, limit, out),
        Shown::Nothing => simulate_quietly(alloc, reader, limit, out),
    }
}

/// The account of these bytes, or nothing where the run fails.
fn account_of(alloc: Global, shown: Shown, bytes: &[u8], limit: u64) -> Vec<u8> {
    let mut account = Vec::new(alloc);
    let mut reader = bytes;
    if simulated(alloc, shown, &mut reader, limit, &mut account).is_err() {
        account.clear();
    }
    account
}

/// Whether an account is these lines and then the one in which nothing is shown, which begins so.
fn is_after(traced: &[u8], lines: &str, quiet: &[u8], ending: &str) -> bool {
    traced.strip_prefix(lines.as_bytes()) == Some(quiet) && quiet.starts_with(ending.as_bytes())
}

/// Whether the account of these bytes begins so with a line for each instruction, and so without
/// these lines where nothing is shown.
fn begins(alloc: Global, bytes: &[u8], limit: u64, lines: &str, ending: &str) -> bool {
    let traced = account_of(alloc, Shown::Instructions, bytes, limit);
    let quiet = account_of(alloc, Shown::Nothing, bytes, limit);
    is_after(&traced, lines, &quiet, ending)
}

#[test]
fn prints_the_whole_run(rt: HostRuntime) {
    let account = account_of(rt.alloc(), Shown::Instructions, THREE_WORDS, 10);
    assert!(rt; account.as_slice() == ACCOUNT.as_bytes());
}

/// The words of a program, the limit of its run, the lines of its instructions, and the beginning
/// of what is printed after them.
type Case = (&'static [u32], u64, &'static str, &'static str);

static CASES: [Case; 16] = [
    (&[], 0, "", "end: limit, steps 0\nx0 0x00000000\n"),
    (
        &[],
        1,
        "",
        "end: IllegalInstruction pc=0x00000000 word=0x00000000, steps 0\nx0 0x00000000\n",
    ),
    // lui x2, 0x1234b / lui x3, 0xf387e / add x1, x2, x3
    (
        &[0x1234_b137, 0xf387_e1b7, 0x0031_00b3],
        2,
        "0x00000000: lui x2, 0x1234b000\n0x00000004: lui x3, 0xf387e000\n",
        "end: limit, steps 2\nx0 0x00000000\nx1 0x00000000\nx2 0x1234b000\n",
    ),
    (
        &[0x1234_b137, 0xf387_e1b7, 0x0031_00b3],
        0,
        "",
        "end: limit, steps 0\nx0 0x00000000\nx1 0x00000000\nx2 0x00000000\n",
    ),
    // Illegal instructions, the second of them a jalr with funct3 1.
    (
        &[0xffff_ffff],
        5,
        "",
        "end: IllegalInstruction pc=0x00000000 word=0xffffffff, steps 0\n",
    ),
    (
        &[0x0000_9067],
        5,
        "",
        "end: IllegalInstruction pc=0x00000000 word=0x00009067, steps 0\n",
    ),
    // addi x1, x0, 5 / ecall
    (
        &[0x0050_0093, 0x0000_0073],
        10,
        "0x00000000: addi x1, x0, 5\n0x00000004: ecall\n",
        "end: EnvironmentCall pc=0x00000004, steps 1\nx0 0x00000000\nx1 0x00000005\n",
    ),
    // ebreak
    (
        &[0x0010_0073],
        10,
        "0x00000000: ebreak\n",
        "end: Breakpoint pc=0x00000000, steps 0\nx0 0x00000000\n",
    ),
    // lw x1, 2(x0)
    (
        &[0x0020_2083],
        5,
        "0x00000000: lw x1, 2(x0)\n",
        "end: AlignmentFault addr=0x00000002, steps 0\n",
    ),
    // lbu x1, -1(x0)
    (
        &[0xfff0_4083],
        5,
        "0x00000000: lbu x1, -1(x0)\n",
        "end: LoadAccessFault addr=0xffffffff, steps 0\n",
    ),
    // sb x0, -1(x0)
    (
        &[0xfe00_0fa3],
        5,
        "0x00000000: sb x0, -1(x0)\n",
        "end: StoreAccessFault addr=0xffffffff, steps 0\n",
    ),
    // jal x1, -1048576
    (
        &[0x8000_00ef],
        5,
        "0x00000000: jal x1, 0xfff00000\n",
        "end: FetchError pc=0xfff00000, steps 1\nx0 0x00000000\nx1 0x00000004\n",
    ),
    // The same, up to the limit: the next word is not asked for.
    (
        &[0x8000_00ef],
        1,
        "0x00000000: jal x1, 0xfff00000\n",
        "end: limit, steps 1\nx0 0x00000000\nx1 0x00000004\n",
    ),
    // jal x0, 2
    (
        &[0x0020_006f],
        5,
        "0x00000000: jal x0, 0x00000002\n",
        "end: AlignmentFault addr=0x00000002, steps 1\n",
    ),
    // addi x1, x0, 19 / sw x1, 4(x0), which writes addi x0, x0, 0 over itself / jal x0, -4
    (
        &[0x0130_0093, 0x0010_2223, 0xffdf_f06f],
        4,
        "0x00000000: addi x1, x0, 19\n0x00000004: sw x1, 4(x0)\n\
        0x00000008: jal x0, 0x00000004\n0x00000004: addi x0, x0, 0\n",
        "end: limit, steps 4\nx0 0x00000000\nx1 0x00000013\n",
    ),
    // addi x0, x0, 5: x0 stays 0
    (
        &[0x0050_0013],
        1,
        "0x00000000: addi x0, x0, 5\n",
        "end: limit, steps 1\nx0 0x00000000\nx1 0x00000000\n",
    ),
];

/// Whether the account of a case begins as it says.
fn case_begins(alloc: Global, case: &Case) -> Result<bool, AllocError> {
    let bytes = bytes_of(alloc, case.0)?;
    Ok(begins(alloc, &bytes, case.1, case.2, case.3))
}

#[test]
fn prints_the_lines_of_the_steps_or_none(rt: HostRuntime) -> Result<(), Fail> {
    for (index, case) in CASES.iter().enumerate() {
        let begins_so = case_begins(rt.alloc(), case)?;
        assert!(rt; begins_so, "at {index}");
    }
    Ok(())
}

/// As many bytes as there are addresses, and two more: jal x0, 65532 at the first word, zeros, and
/// addi x0, x0, 0 at the last.
fn bytes_of_all_addresses(alloc: Global) -> Result<Vec<u8>, AllocError> {
    let mut bytes = bytes_of(alloc, &[0x7fd0_f06f])?;
    bytes.resize(65532, 0)?;
    bytes.extend_from_slice(&[0x13, 0, 0, 0, 0, 0])?;
    Ok(bytes)
}

/// What is printed of bytes that are all addresses.
const OF_ALL_ADDRESSES: (&str, &str) = (
    "0x00000000: jal x0, 0x0000fffc\n0x0000fffc: addi x0, x0, 0\n",
    "end: FetchError pc=0x00010000, steps 2\n",
);

/// Whether bytes that are too many are refused, with one of them left unread, and nothing printed.
fn are_too_many(alloc: Global, bytes: &[u8]) -> bool {
    let mut reader = bytes;
    let mut out = Vec::new(alloc);
    let result = simulated(alloc, Shown::Nothing, &mut reader, 9, &mut out);
    result == Err(RunFault::Refused(0x10000)) && reader.len() == 1 && out.is_empty()
}

/// One byte more is refused, and the next one is not read.
#[test]
fn refuses_a_byte_past_the_addresses(rt: HostRuntime) -> Result<(), Fail> {
    let bytes = bytes_of_all_addresses(rt.alloc())?;
    let all = bytes.get(..65536).unwrap_or_default();
    let (lines, ending) = OF_ALL_ADDRESSES;
    assert!(rt; begins(rt.alloc(), all, 9, lines, ending));
    assert!(rt; are_too_many(rt.alloc(), &bytes));
    Ok(())
}

/// The kinds of a read's failure.
static KINDS: [ErrorKind; 3] = [
    ErrorKind::Other,
    ErrorKind::OutOfMemory,
    ErrorKind::Interrupted,
];

/// How many bytes are read before a failure.
static FAILS_AT: [usize; 11] = [0, 1, 2, 3, 4, 5, 6, 7, 8, 65535, 65536];

/// Whether a failure of this kind is told. No byte is taken after it, and nothing is written.
fn is_told(alloc: Global, shown: Shown, fails_at: usize, kind: ErrorKind) -> bool {
    let mut reader = Failing {
        given: 0,
        fails_at,
        kind,
        has_failed: false,
    };
    let mut out = Vec::new(alloc);
    let result = simulated(alloc, shown, &mut reader, 10, &mut out);
    result == Err(RunFault::Reader) && reader.given == fails_at && out.is_empty()
}

#[test]
fn tells_a_reader_that_fails(rt: HostRuntime) {
    for &kind in &KINDS {
        for &fails_at in &FAILS_AT {
            let is_told_twice = is_told(rt.alloc(), Shown::Instructions, fails_at, kind)
                && is_told(rt.alloc(), Shown::Nothing, fails_at, kind);
            assert!(rt; is_told_twice, "after {fails_at} bytes");
        }
    }
}

/// Whether the run of three words, up to limit 10, with a line for each instruction, ends so on a
/// writer, to which these bytes are written.
fn writes(alloc: Global, mut out: Output, want: Result<(), RunFault>, written: &[u8]) -> bool {
    let result = simulated(alloc, Shown::Instructions, &mut THREE_WORDS, 10, &mut out);
    result == want && out.written.as_slice() == written
}

/// A writer whose write fails so at a byte.
fn failing(alloc: Global, fails_at: usize, kind: ErrorKind) -> Output {
    let mut out = Output::new(alloc);
    out.fails_at = fails_at;
    out.kind = kind;
    out
}

/// A write that fails at a byte leaves what is before it; one that is interrupted is made again.
#[test]
fn tells_a_writer_that_fails(rt: HostRuntime) {
    let (alloc, account) = (rt.alloc(), ACCOUNT.as_bytes());
    for fails_at in 0..account.len() {
        let full = failing(alloc, fails_at, ErrorKind::StorageFull);
        let interrupted = failing(alloc, fails_at, ErrorKind::Interrupted);
        let are_written = writes(alloc, full, Err(RunFault::Output), &account[..fails_at])
            && writes(alloc, interrupted, Ok(()), account);
        assert!(rt; are_written, "at {fails_at}");
    }
}

/// A writer whose flush fails.
fn never_flushed(alloc: Global) -> Output {
    let mut out = Output::new(alloc);
    out.fails_to_flush = true;
    out
}

/// Whether a text is written so to a writer that takes so many bytes a write, of which it takes so
/// many in all.
fn takes(
    alloc: Global,
    most: usize,
    text: &[u8],
    want: Result<(), RunFault>,
    taken: usize,
) -> bool {
    let mut out = Output::new(alloc);
    out.most = most;
    write_text(&mut out, text) == want && out.written.len() == taken
}

/// A flush that fails, a writer that takes nothing, and one that takes a byte at a time.
#[test]
fn tells_what_a_writer_does(rt: HostRuntime) {
    let alloc = rt.alloc();
    let (unflushed, account) = (never_flushed(alloc), ACCOUNT.as_bytes());
    assert!(rt;
        writes(alloc, unflushed, Err(RunFault::Output), account)
            && takes(alloc, 0, b"text", Err(RunFault::Output), 0)
            && takes(alloc, 1, &[b'a'; 1500], Ok(()), 1500)
    );
}

/// With no allocation that fails this prints the whole account. With one (`docs/RUNNING.md` says
/// how) it prints nothing, or the lines of all steps, and ends with `OutOfMemory`.
#[test]
fn out_of_memory_leaves_no_part_of_the_steps(rt: HostRuntime) {
    let account = ACCOUNT.as_bytes();
    let mut room = [0u8; 1000];
    let mut out = room.as_mut_slice();
    let result = simulated(
        rt.alloc(),
        Shown::Instructions,
        &mut THREE_WORDS,
        10,
        &mut out,
    );
    let written = 1000usize.saturating_sub(out.len());
    let are_whole = WHOLE_PARTS.contains(&written) && account.starts_with(&room[..written]);
    let want = if written < account.len() {
        Err(RunFault::OutOfMemory)
    } else {
        Ok(())
    };
    assert!(rt; result == want && are_whole, "{written} bytes");
}
