//! The programs, over a runtime of their own, and how each ends.

use crate::THREE_WORDS;
use crate::machine::{Contents, Machine};
use rrs_cli::command::{Command, Failure, conclude, run_program, take_no_arguments};
use rrs_cli::fault::RunFault;
use rrs_cli::programs::{RRS_REPLAY, RRS_RUN};
use rrs_commands::program::run_rrs;
use rrs_exec::NoProgress;
use rrs_fast::Ending;
use rrs_linux::{Heap, Linux, LinuxClocks, StoppedClocks};
use rrs_run_commands::debugger::Debugger;
use rrs_run_commands::execution::{HEAP_END, HEAP_START};
use rrs_run_commands::options::Task;
use rrs_run_commands::refusal::Refusal;
use rrs_run_commands::requests::Request;
use std::alloc::Global;
use std::io::{Read, Write};
use std::process::ExitCode;
use std::rt::{Env, Files};
use std::test::Fail;

/// What is left of a program.
#[derive(Drop)]
pub struct Left {
    pub status: ExitCode,
    /// What it said on standard error.
    pub said: Vec<u8>,
    /// What it printed.
    pub printed: Vec<u8>,
    /// The report of a run.
    report: Vec<u8>,
}

impl Left {
    /// Whether a program ended with this status, and said this on standard error.
    fn says(&self, status: u8, line: &str) -> bool {
        self.status == ExitCode::from(status) && self.said.as_slice() == line.as_bytes()
    }
}

/// A program.
#[derive(Clone, Copy)]
pub enum Program {
    /// `rrs-run`.
    Run,
    /// `rrs`.
    Rrs,
}

/// A debugger that runs nothing, and ends with the number of its words; with 100 more, and the
/// number of MiB, for firmware.
struct CountsWords;

impl Debugger for CountsWords {
    fn debug<'a, H: Env + Files + AllocGlobal, R: Read, W: Write>(
        &self,
        _rt: &H,
        task: Task,
        request: Request<'a>,
        _input: &mut R,
        _output: &mut W,
    ) -> Result<Ending, Refusal<'a>> {
        let status = match task {
            Task::DebugBoard => (request.memory.unwrap_or(0) >> 20).saturating_add(100),
            _ => request.words.len() as u64,
        };
        Ok(Ending::Exit(u32::try_from(status).unwrap_or(u32::MAX)))
    }
}

/// Ends a program, and gives its status. What it simulates reads nothing, and prints nothing. The
/// report of a run goes to `report`.
fn status_of(
    machine: &Machine<'_>,
    alloc: Global,
    program: Program,
    report: &mut Vec<u8>,
) -> ExitCode {
    match program {
        Program::Run => run_program(machine),
        Program::Rrs => {
            let heap = Heap::new(HEAP_START, HEAP_END);
            let (output, errors) = (Vec::new(alloc), Vec::new(alloc));
            let clocks = LinuxClocks::Stopped(StoppedClocks::ZERO);
            run_rrs(
                machine,
                &mut Linux::new(b"".as_slice(), output, errors, heap, clocks, 0),
                report,
                &mut NoProgress,
                &CountsWords,
                false,
            )
        }
    }
}

/// Runs a program on a machine with these words and files, and room for so many bytes of output.
pub fn run(
    alloc: Global,
    program: Program,
    words: &[&[u8]],
    files: &[Contents<'_>],
    room: usize,
) -> Left {
    let machine = Machine::new(alloc, words, files, room);
    let mut report = Vec::new(alloc);
    let status = status_of(&machine, alloc, program, &mut report);
    let (said, printed) = machine.into_outputs();
    Left {
        status,
        said,
        printed,
        report,
    }
}

/// An executable with no symbols, from 0x10054 on: addi x10, x0, 7 / lui x12, 0x10 / sw x10, 0(x12)
/// / lw x11, 0(x12) / addi x17, x0, 93 / ecall.
const PROCESS: &[u8] = b"\x7f\x45\x4c\x46\x01\x01\x01\x00\x00\x00\x00\x00\x00\x00\x00\x00\
    \x02\x00\xf3\x00\x01\x00\x00\x00\x54\x00\x01\x00\x34\x00\x00\x00\
    \x00\x00\x00\x00\x00\x00\x00\x00\x34\x00\x20\x00\x01\x00\x28\x00\x00\x00\x00\x00\
    \x01\x00\x00\x00\x00\x00\x00\x00\x00\x00\x01\x00\x00\x00\x01\x00\
    \x6c\x00\x00\x00\x6c\x00\x00\x00\x07\x00\x00\x00\x00\x10\x00\x00\
    \x13\x05\x70\x00\x37\x06\x01\x00\x23\x20\xa6\x00\
    \x83\x25\x06\x00\x93\x08\xd0\x05\x73\x00\x00\x00";

/// Such an executable whose addresses are misaligned, and which has an instruction of extension A:
/// addi x10, x0, 7 / lui x12, 0x10 / lw x11, 1(x12) / sh x10, 3(x12) / amoadd.w x13, x10, (x12)
/// / addi x17, x0, 93 / ecall.
const MENDED: &[u8] = b"\x7f\x45\x4c\x46\x01\x01\x01\x00\x00\x00\x00\x00\x00\x00\x00\x00\
    \x02\x00\xf3\x00\x01\x00\x00\x00\x54\x00\x01\x00\x34\x00\x00\x00\
    \x00\x00\x00\x00\x00\x00\x00\x00\x34\x00\x20\x00\x01\x00\x28\x00\x00\x00\x00\x00\
    \x01\x00\x00\x00\x00\x00\x00\x00\x00\x00\x01\x00\x00\x00\x01\x00\
    \x70\x00\x00\x00\x70\x00\x00\x00\x07\x00\x00\x00\x00\x10\x00\x00\
    \x13\x05\x70\x00\x37\x06\x01\x00\x83\x25\x16\x00\xa3\x11\xa6\x00\
    \xaf\x26\xa6\x00\x93\x08\xd0\x05\x73\x00\x00\x00";

/// Such an executable that asks for a file: addi x17, x0, 56 / ecall / addi x17, x0, 93 / ecall.
const ASKS: &[u8] = b"\x7f\x45\x4c\x46\x01\x01\x01\x00\x00\x00\x00\x00\x00\x00\x00\x00\
    \x02\x00\xf3\x00\x01\x00\x00\x00\x54\x00\x01\x00\x34\x00\x00\x00\
    \x00\x00\x00\x00\x00\x00\x00\x00\x34\x00\x20\x00\x01\x00\x28\x00\x00\x00\x00\x00\
    \x01\x00\x00\x00\x00\x00\x00\x00\x00\x00\x01\x00\x00\x00\x01\x00\
    \x64\x00\x00\x00\x64\x00\x00\x00\x07\x00\x00\x00\x00\x10\x00\x00\
    \x93\x08\x80\x03\x73\x00\x00\x00\x93\x08\xd0\x05\x73\x00\x00\x00";

/// Such an executable that stores below its stack, which has 8 MiB at the end of 256 MiB from
/// 0x10000 on: lui x12, 0xf810 / sw x10, -4(x12).
const RUNS_OVER: &[u8] = b"\x7f\x45\x4c\x46\x01\x01\x01\x00\x00\x00\x00\x00\x00\x00\x00\x00\
    \x02\x00\xf3\x00\x01\x00\x00\x00\x54\x00\x01\x00\x34\x00\x00\x00\
    \x00\x00\x00\x00\x00\x00\x00\x00\x34\x00\x20\x00\x01\x00\x28\x00\x00\x00\x00\x00\
    \x01\x00\x00\x00\x00\x00\x00\x00\x00\x00\x01\x00\x00\x00\x01\x00\
    \x5c\x00\x00\x00\x5c\x00\x00\x00\x07\x00\x00\x00\x00\x10\x00\x00\
    \x37\x06\x81\x0f\x23\x2e\xa6\xfe";

/// One that loads from the lowest address of the 64 KiB there: lui x12, 0xf800 / lw x10, 0(x12).
const FAR_OVER: &[u8] = b"\x7f\x45\x4c\x46\x01\x01\x01\x00\x00\x00\x00\x00\x00\x00\x00\x00\
    \x02\x00\xf3\x00\x01\x00\x00\x00\x54\x00\x01\x00\x34\x00\x00\x00\
    \x00\x00\x00\x00\x00\x00\x00\x00\x34\x00\x20\x00\x01\x00\x28\x00\x00\x00\x00\x00\
    \x01\x00\x00\x00\x00\x00\x00\x00\x00\x00\x01\x00\x00\x00\x01\x00\
    \x5c\x00\x00\x00\x5c\x00\x00\x00\x07\x00\x00\x00\x00\x10\x00\x00\
    \x37\x06\x80\x0f\x03\x25\x06\x00";

/// One that loads below these and stores above them, and then stores at 0: lui x12, 0xf800
/// / lw x10, -4(x12) / lui x12, 0xf810 / sw x10, 0(x12) / sw x10, 0(x0).
const BESIDE: &[u8] = b"\x7f\x45\x4c\x46\x01\x01\x01\x00\x00\x00\x00\x00\x00\x00\x00\x00\
    \x02\x00\xf3\x00\x01\x00\x00\x00\x54\x00\x01\x00\x34\x00\x00\x00\
    \x00\x00\x00\x00\x00\x00\x00\x00\x34\x00\x20\x00\x01\x00\x28\x00\x00\x00\x00\x00\
    \x01\x00\x00\x00\x00\x00\x00\x00\x00\x00\x01\x00\x00\x00\x01\x00\
    \x68\x00\x00\x00\x68\x00\x00\x00\x07\x00\x00\x00\x00\x10\x00\x00\
    \x37\x06\x80\x0f\x03\x25\xc6\xff\x37\x06\x81\x0f\x23\x20\xa6\x00\
    \x23\x20\xa0\x00";

/// A source.
const SOURCE: &[u8] = b"    addi x1, x0, 7\n    .data\n    .byte 5, 6, 7, 8, 9\n";

/// Files of a program, of jal x0, 0, which jumps to itself, of executables, and of sources. None can
/// be written.
const FILES: [Contents<'static>; 11] = [
    Contents {
        name: "program",
        bytes: THREE_WORDS,
        fails: false,
    },
    Contents {
        name: "loop",
        bytes: b"\x6f\x00\x00\x00",
        fails: false,
    },
    Contents {
        name: "process",
        bytes: PROCESS,
        fails: false,
    },
    Contents {
        name: "mended",
        bytes: MENDED,
        fails: false,
    },
    Contents {
        name: "asks",
        bytes: ASKS,
        fails: false,
    },
    Contents {
        name: "runs over",
        bytes: RUNS_OVER,
        fails: false,
    },
    Contents {
        name: "far over",
        bytes: FAR_OVER,
        fails: false,
    },
    Contents {
        name: "beside",
        bytes: BESIDE,
        fails: false,
    },
    Contents {
        name: "source",
        bytes: SOURCE,
        fails: false,
    },
    Contents {
        name: "empty",
        bytes: b"",
        fails: false,
    },
    Contents {
        name: "misaligned",
        bytes: b"    .byte 1\n_start:\n    .byte 2\n",
        fails: false,
    },
];

/// Whether a program prints nothing of these files, and ends with this status and this line.
fn refuses(
    alloc: Global,
    program: Program,
    words: &[&[u8]],
    files: &[Contents<'_>],
    status: u8,
    line: &str,
) -> bool {
    let left = run(alloc, program, words, files, 10_000);
    left.says(status, line) && left.printed.is_empty() && left.report.is_empty()
}

/// How `rrs-run` is called.
const RUN_USAGE: &str = "usage: rrs-run FILE LIMIT\n";

/// How `rrs` is called.
const RRS_USAGE: &str = "usage: rrs run|exec|trace|cover|as|dis|elf|board|gdb|help ..\n";

/// What it says of a word that is not UTF-8.
const NOT_TEXT: &str = "rrs: a word of the command line is not UTF-8: a link gives a file a name \
    that is, and a program can read such bytes from its input
usage: rrs run|exec|trace|cover|as|dis|elf|board|gdb|help ..
";

/// How `rrs run` is called.
const QUIET_USAGE: &str = "usage: rrs run [--quiet] FILE LIMIT\n";

/// How `rrs trace` is called.
const TRACE_USAGE: &str = "usage: rrs trace [--limit STEPS] [--memory BYTES] [--march NAME] \
    [--clock fixed]\n    [--env NAME=VALUE] .. [--from ADDRESS|SYMBOL] [--to ADDRESS|SYMBOL] \
    [--only FUNCTION]\n    [--steps N-M] [--output FILE] PROGRAM [ARGUMENT] ..\n       \
    rrs trace --board [--limit STEPS] [--memory BYTES] [--march NAME]\n           \
    [--input polled|wait] [--raw] [--dtb FILE] [--append TEXT] [--symbols FILE]\n           \
    [--from ADDRESS|SYMBOL] [--to ADDRESS|SYMBOL] [--only FUNCTION] [--steps N-M]\n           \
    [--output FILE] PROGRAM\n";

/// How `rrs cover` is called.
const COVER_USAGE: &str = "usage: rrs cover [--limit STEPS] [--memory BYTES] [--march NAME] \
    [--clock fixed]\n    [--env NAME=VALUE] .. [--annotate] [--callgrind FILE] [--output FILE]\n    \
    PROGRAM [ARGUMENT] ..\n       \
    rrs cover --board [--limit STEPS] [--memory BYTES] [--march NAME]\n           \
    [--input polled|wait] [--raw] [--dtb FILE] [--append TEXT] [--symbols FILE]\n           \
    [--annotate] [--callgrind FILE] [--output FILE] PROGRAM\n";

/// How `rrs as` is called.
const ASSEMBLE_USAGE: &str = "usage: rrs as [--gnu | --list] [-o OUTPUT] [--rars] \
    [-Ttext ADDRESS]\n    [-Tdata ADDRESS] [--incbin-anywhere] FILE\n";

/// A program, words of its command line of which it does not do what they ask, its status, and its
/// line on standard error.
type Refused = (Program, &'static [&'static [u8]], u8, &'static str);

static REFUSED: [Refused; 24] = [
    (Program::Run, &[], 2, RUN_USAGE),
    (Program::Run, &[b"rrs-run"], 2, RUN_USAGE),
    (Program::Run, &[b"rrs-run", b"program"], 2, RUN_USAGE),
    (
        Program::Run,
        &[b"rrs-run", b"program", b"10", b"10"],
        2,
        RUN_USAGE,
    ),
    (Program::Run, &[b"rrs-run", b"program", b"1a"], 2, RUN_USAGE),
    (Program::Run, &[b"rrs-run", b"10", b"program"], 2, RUN_USAGE),
    (
        Program::Run,
        &[b"rrs-run", b"program", b"\xff"],
        2,
        RUN_USAGE,
    ),
    (Program::Run, &[b"rrs-run", b"\xff", b"10"], 2, RUN_USAGE),
    (Program::Run, &[b"\xff", b"program", b"10"], 2, RUN_USAGE),
    (Program::Rrs, &[], 2, RRS_USAGE),
    (Program::Rrs, &[b"rrs"], 2, RRS_USAGE),
    (
        Program::Rrs,
        &[b"rrs", b"runs", b"program", b"10"],
        2,
        "rrs: no subcommand runs: did you mean run?
usage: rrs run|exec|trace|cover|as|dis|elf|board|gdb|help ..
",
    ),
    (
        Program::Rrs,
        &[b"rrs", b"help", b"walk"],
        2,
        "rrs: no subcommand walk: rrs help lists them
usage: rrs run|exec|trace|cover|as|dis|elf|board|gdb|help ..
",
    ),
    (
        Program::Rrs,
        &[b"rrs", b"run", b"program", b"\xff"],
        2,
        NOT_TEXT,
    ),
    (
        Program::Rrs,
        &[b"\xff", b"run", b"program", b"10"],
        2,
        NOT_TEXT,
    ),
    (Program::Rrs, &[b"rrs", b"run"], 2, QUIET_USAGE),
    (Program::Rrs, &[b"rrs", b"run", b"program"], 2, QUIET_USAGE),
    (
        Program::Rrs,
        &[b"rrs", b"run", b"--quiet", b"10"],
        2,
        QUIET_USAGE,
    ),
    (
        Program::Rrs,
        &[b"rrs", b"run", b"--quiet", b"program", b"1a"],
        2,
        "rrs run: 1a is no LIMIT, which has one to nine digits\n",
    ),
    (
        Program::Rrs,
        &[b"rrs", b"run", b"program", b"1234567890"],
        2,
        "rrs run: 1234567890 is no LIMIT, which has one to nine digits\n",
    ),
    (
        Program::Rrs,
        &[b"rrs", b"run", b"program", b"10", b"20", b"--quiet"],
        2,
        "rrs run: one word too many: 20\nusage: rrs run [--quiet] FILE LIMIT\n",
    ),
    (
        Program::Rrs,
        &[b"rrs", b"run", b"--raw", b"program", b"10"],
        2,
        "rrs run: no option --raw: rrs help run lists them\n",
    ),
    (
        Program::Rrs,
        &[b"rrs", b"run", b"--quiet=1", b"program", b"10"],
        2,
        "rrs run: --quiet=1: --quiet takes no value\n",
    ),
    (
        Program::Rrs,
        &[b"rrs", b"run", b"--", b"--quiet", b"10"],
        1,
        "rrs run: --quiet: No such file or directory\n",
    ),
];

#[test]
fn refuses_other_words(rt: HostRuntime) {
    for (index, &(program, words, status, line)) in REFUSED.iter().enumerate() {
        let is_refused = refuses(rt.alloc(), program, words, &FILES, status, line);
        assert!(rt; is_refused, "at {index}");
    }
}

/// The same, of what runs executables.
static REFUSED_PROGRAMS: [Refused; 43] = [
    (
        Program::Rrs,
        &[b"rrs", b"exec", b"--limit", b"10", b"--raw", b"program"],
        132,
        "rrs exec: at pc 0x0000000c, after 3 steps\n\
        rrs exec: no code is there; a program ends by a call of exit\n\
        rrs exec: IllegalInstruction pc=0x0000000c word=0x00000000\n",
    ),
    (
        Program::Rrs,
        &[b"rrs", b"exec", b"asks"],
        218,
        "rrs exec: the system call openat (56) is not served: \
        rrs exec --files FOLDER serves it to an executable\n",
    ),
    (
        Program::Rrs,
        &[b"rrs", b"exec", b"runs over"],
        139,
        "rrs exec: at pc 0x00010058, after 1 steps\n\
        rrs exec: the stack ran over: it has 8 MiB at most\n\
        rrs exec: StoreAccessFault addr=0x0f80fffc\n",
    ),
    (
        Program::Rrs,
        &[b"rrs", b"exec", b"far over"],
        139,
        "rrs exec: at pc 0x00010058, after 1 steps\n\
        rrs exec: the stack ran over: it has 8 MiB at most\n\
        rrs exec: LoadAccessFault addr=0x0f800000\n",
    ),
    (
        Program::Rrs,
        &[b"rrs", b"exec", b"beside"],
        139,
        "rrs exec: at pc 0x00010064, after 4 steps\n\
        rrs exec: StoreAccessFault addr=0x00000000\n",
    ),
    (
        Program::Rrs,
        &[b"rrs", b"exec", b"--limt", b"5", b"process"],
        125,
        "rrs exec: no option --limt: did you mean --limit?\n",
    ),
    (
        Program::Rrs,
        &[b"rrs", b"exec", b"--limit"],
        125,
        "rrs exec: --limit takes a value, and none is there\n",
    ),
    (
        Program::Rrs,
        &[b"rrs", b"exec", b"--limit=", b"process"],
        125,
        "rrs exec: --limit:  is no number below 2^64, of decimal digits, or of 0x and hexadecimal ones\n",
    ),
    (
        Program::Rrs,
        &[b"rrs", b"exec", b"--limit", b"0x+1", b"process"],
        125,
        "rrs exec: --limit: 0x+1 is no number below 2^64, of decimal digits, or of 0x and hexadecimal ones\n",
    ),
    (
        Program::Rrs,
        &[
            b"rrs",
            b"exec",
            b"--limit",
            b"0x10000000000000000",
            b"process",
        ],
        125,
        "rrs exec: --limit: 0x10000000000000000 is no number below 2^64, of decimal digits, or of 0x and hexadecimal ones\n",
    ),
    (
        Program::Rrs,
        &[b"rrs", b"exec", b"--memory=16Q", b"process"],
        125,
        "rrs exec: --memory: 16Q is no size below 2^64: a number of bytes, or of KiB, MiB or GiB with K, M or G after it\n",
    ),
    (
        Program::Rrs,
        &[b"rrs", b"exec", b"--memory", b"17179869184G", b"process"],
        125,
        "rrs exec: --memory: 17179869184G is no size below 2^64: a number of bytes, or of KiB, MiB or GiB with K, M or G after it\n",
    ),
    (
        Program::Rrs,
        &[b"rrs", b"exec", b"--memory", b"4294967297", b"process"],
        125,
        "rrs exec: --memory: 4294967297 is more than there can be, 4294967296 bytes\n",
    ),
    (
        Program::Rrs,
        &[b"rrs", b"board", b"--memory", b"3G", b"process"],
        125,
        "rrs board: --memory: 3G is more than there can be, 2147483648 bytes\n",
    ),
    (
        Program::Rrs,
        &[b"rrs", b"board", b"process", b"--input", b"file"],
        125,
        "rrs board: --input: file is no value that it takes: polled and wait are two\n",
    ),
    (
        Program::Rrs,
        &[b"rrs", b"exec", b"--env", b"NAME", b"process"],
        125,
        "rrs exec: --env: NAME is no variable: NAME=VALUE, with a NAME of one byte at least\n",
    ),
    (
        Program::Rrs,
        &[b"rrs", b"trace", b"--env==VALUE", b"process"],
        125,
        "rrs trace: --env: =VALUE is no variable: NAME=VALUE, with a NAME of one byte at least\n",
    ),
    (
        Program::Rrs,
        &[b"rrs", b"cover", b"--env", b"A=1", b"--env=", b"process"],
        125,
        "rrs cover: --env:  is no variable: NAME=VALUE, with a NAME of one byte at least\n",
    ),
    (
        Program::Rrs,
        &[b"rrs", b"gdb", b"--env"],
        2,
        "rrs gdb: --env takes a value, and none is there\n",
    ),
    (
        Program::Rrs,
        &[b"rrs", b"run", b"--env", b"A=1", b"program", b"10"],
        2,
        "rrs run: no option --env: rrs help run lists them\n",
    ),
    (
        Program::Rrs,
        &[b"rrs", b"trace", b"--board", b"--env=A=1", b"process"],
        125,
        "rrs trace: no option --env: rrs help trace lists them\n",
    ),
    (
        Program::Rrs,
        &[b"rrs", b"exec", b"--random", b"other", b"process"],
        125,
        "rrs exec: --random: other is no value that it takes: host alone is one\n",
    ),
    (
        Program::Rrs,
        &[b"rrs", b"cover", b"--random", b"host", b"process"],
        125,
        "rrs cover: no option --random: rrs help cover lists them\n",
    ),
    (
        Program::Rrs,
        &[b"rrs", b"gdb", b"--limit", b"5", b"process"],
        2,
        "rrs gdb: no option --limit: rrs help gdb lists them\n",
    ),
    (
        Program::Rrs,
        &[b"rrs", b"gdb", b"--board", b"--quiet", b"process"],
        2,
        "rrs gdb: no option --quiet: rrs help gdb lists them\n",
    ),
    (
        Program::Rrs,
        &[b"rrs", b"gdb", b"--raw", b"--board", b"process"],
        2,
        "rrs gdb: --board stands right after rrs gdb\n",
    ),
    (
        Program::Rrs,
        &[b"rrs", b"exec", b"missing"],
        125,
        "rrs exec: missing: No such file or directory\n",
    ),
    (
        Program::Rrs,
        &[b"rrs", b"exec", b"program"],
        125,
        "rrs exec: program: not an ELF file\n",
    ),
    (Program::Rrs, &[b"rrs", b"trace"], 125, TRACE_USAGE),
    (
        Program::Rrs,
        &[b"rrs", b"trace", b"--from"],
        125,
        "rrs trace: --from takes a value, and none is there\n",
    ),
    (
        Program::Rrs,
        &[b"rrs", b"cover", b"--callgrind", b"loop"],
        125,
        COVER_USAGE,
    ),
    (
        Program::Rrs,
        &[b"rrs", b"cover", b"--from", b"0", b"process"],
        125,
        "rrs cover: no option --from: rrs help cover lists them\n",
    ),
    (
        Program::Rrs,
        &[b"rrs", b"trace", b"--annotate", b"process"],
        125,
        "rrs trace: no option --annotate: rrs help trace lists them\n",
    ),
    (
        Program::Rrs,
        &[b"rrs", b"trace", b"--from", b"main", b"process"],
        125,
        "rrs trace: --from: main is no address, and no symbol of PROGRAM\n",
    ),
    (
        Program::Rrs,
        &[b"rrs", b"trace", b"--steps", b"4-3", b"process"],
        125,
        "rrs trace: --steps: 4-3 is no range of steps: N-M, two numbers from 1 on, of which M is no less\n",
    ),
    (
        Program::Rrs,
        &[b"rrs", b"trace", b"--steps", b"0-3", b"process"],
        125,
        "rrs trace: --steps: 0-3 is no range of steps: N-M, two numbers from 1 on, of which M is no less\n",
    ),
    (
        Program::Rrs,
        &[b"rrs", b"trace", b"--steps", b"3", b"process"],
        125,
        "rrs trace: --steps: 3 is no range of steps: N-M, two numbers from 1 on, of which M is no less\n",
    ),
    (
        Program::Rrs,
        &[b"rrs", b"trace", b"--steps", b"3-", b"process"],
        125,
        "rrs trace: --steps: 3- is no range of steps: N-M, two numbers from 1 on, of which M is no less\n",
    ),
    (
        Program::Rrs,
        &[b"rrs", b"trace", b"--to", b"main", b"process"],
        125,
        "rrs trace: --to: main is no address, and no symbol of PROGRAM\n",
    ),
    (
        Program::Rrs,
        &[b"rrs", b"trace", b"--only", b"main", b"process"],
        125,
        "rrs trace: --only: main is no function of PROGRAM\n",
    ),
    (
        Program::Rrs,
        &[b"rrs", b"trace", b"--output", b"missing", b"process"],
        125,
        "rrs trace: missing: No such file or directory\n",
    ),
    (
        Program::Rrs,
        &[b"rrs", b"cover", b"--callgrind", b"missing", b"process"],
        125,
        "rrs cover: missing: No such file or directory\n",
    ),
    (
        Program::Rrs,
        &[b"rrs", b"trace", b"--output", b"loop", b"process"],
        125,
        "rrs trace: loop: Operation not supported\n",
    ),
];

#[test]
fn refuses_programs(rt: HostRuntime) {
    for (index, &(program, words, status, line)) in REFUSED_PROGRAMS.iter().enumerate() {
        let is_refused = refuses(rt.alloc(), program, words, &FILES, status, line);
        assert!(rt; is_refused, "at {index}");
    }
}

/// The same, of what assembles and lists.
static REFUSED_FILES: [Refused; 16] = [
    (Program::Rrs, &[b"rrs", b"as"], 2, ASSEMBLE_USAGE),
    (Program::Rrs, &[b"rrs", b"as", b"--gnu"], 2, ASSEMBLE_USAGE),
    (
        Program::Rrs,
        &[b"rrs", b"as", b"source", b"--lists"],
        2,
        "rrs as: no option --lists: did you mean --list?\n",
    ),
    (
        Program::Rrs,
        &[b"rrs", b"as", b"source", b"-o"],
        2,
        "rrs as: -o takes a value, and none is there\n",
    ),
    (
        Program::Rrs,
        &[b"rrs", b"as", b"-Ttext", b"1000", b"source"],
        2,
        "rrs as: -Ttext: 1000 is no address: 0x and hexadecimal digits, below 2^32, a multiple of 4\n",
    ),
    (
        Program::Rrs,
        &[b"rrs", b"as", b"-Ttext=0x1002", b"source"],
        2,
        "rrs as: -Ttext: 0x1002 is no address: 0x and hexadecimal digits, below 2^32, a multiple of 4\n",
    ),
    (
        Program::Rrs,
        &[b"rrs", b"as", b"-Tdata", b"0x100000000", b"source"],
        2,
        "rrs as: -Tdata: 0x100000000 is no address: 0x and hexadecimal digits, below 2^32, a multiple of 4\n",
    ),
    (
        Program::Rrs,
        &[b"rrs", b"as", b"-Tdata", b"0x+8", b"source"],
        2,
        "rrs as: -Tdata: 0x+8 is no address: 0x and hexadecimal digits, below 2^32, a multiple of 4\n",
    ),
    (
        Program::Rrs,
        &[b"rrs", b"as", b"--rars", b"source"],
        1,
        "rrs as: source: the program has more than 64 MiB from its first byte to its last\n",
    ),
    (
        Program::Rrs,
        &[b"rrs", b"as", b"empty", b"-o", b"loop"],
        1,
        "rrs as: empty: the program is empty\n",
    ),
    (
        Program::Rrs,
        &[b"rrs", b"as", b"misaligned", b"-o", b"loop"],
        1,
        "rrs as: misaligned: no instruction can begin at the entry 0x00010001\n",
    ),
    (
        Program::Rrs,
        &[b"rrs", b"as", b"source", b"-o", b"source"],
        1,
        "rrs as: source: this is the source, which stays as it is\n",
    ),
    (
        Program::Rrs,
        &[b"rrs", b"as", b"source", b"-o", b"missing"],
        1,
        "rrs as: missing: No such file or directory\n",
    ),
    (
        Program::Rrs,
        &[b"rrs", b"as", b"--rars", b"source", b"-o", b"loop"],
        1,
        "rrs as: loop: Operation not supported\n",
    ),
    (
        Program::Rrs,
        &[b"rrs", b"dis", b"process", b"program"],
        2,
        "rrs dis: one word too many: program\nusage: rrs dis FILE\n",
    ),
    (
        Program::Rrs,
        &[b"rrs", b"elf", b"-x"],
        2,
        "rrs elf: no option -x: rrs help elf lists them\n",
    ),
];

#[test]
fn refuses_sources_and_listings(rt: HostRuntime) {
    for (index, &(program, words, status, line)) in REFUSED_FILES.iter().enumerate() {
        let is_refused = refuses(rt.alloc(), program, words, &FILES, status, line);
        assert!(rt; is_refused, "at {index}");
    }
}

/// Words of a command line, and what is printed of a source.
type Assembled = (&'static [&'static [u8]], &'static [u8]);

static ASSEMBLED: [Assembled; 6] = [
    (
        &[b"rrs", b"as", b"source"],
        b"\x93\x00\x70\x00\x05\x06\x07\x08\x09",
    ),
    (
        &[b"rrs", b"as", b"source", b"-Ttext", b"0xfffffff0"],
        b"\x93\x00\x70\x00\x05\x06\x07\x08\x09",
    ),
    (
        &[
            b"rrs",
            b"as",
            b"-Tdata",
            b"0x400",
            b"--rars",
            b"source",
            b"-Tdata",
            b"0x40000c",
        ],
        b"\x93\x00\x70\x00\0\0\0\0\0\0\0\0\x05\x06\x07\x08\x09",
    ),
    (
        &[b"rrs", b"as", b"--list", b"--gnu", b"source"],
        b"    addi x1, x0, 7\n    .word 0x08070605\n    .byte 0x09\n",
    ),
    (
        &[b"rrs", b"as", b"--gnu", b"source", b"--list"],
        b"00000000  00700093      1      addi x1, x0, 7\n\
        \x20                       2      .data\n\
        00000004  08070605      3      .byte 5, 6, 7, 8, 9\n\
        00000008  09      \n",
    ),
    (&[b"rrs", b"as", b"empty"], b""),
];

/// Whether `rrs` prints these bytes, and ends well.
fn prints(alloc: Global, words: &[&[u8]], want: &[u8]) -> bool {
    let left = run(alloc, Program::Rrs, words, &FILES, 10_000);
    left.says(0, "") && left.printed.as_slice() == want
}

#[test]
fn assembles(rt: HostRuntime) {
    for (index, &(words, want)) in ASSEMBLED.iter().enumerate() {
        assert!(rt; prints(rt.alloc(), words, want), "at {index}");
    }
}

/// A file of these bytes.
fn file<'a>(name: &'a str, bytes: &'a [u8], fails: bool) -> Contents<'a> {
    Contents { name, bytes, fails }
}

/// Whether `rrs-run` and `rrs run` say this of a file, each its own, where there are these four: a
/// directory, one that is cut off, one that is full and cut off, and one that is too long.
fn both_say_of(alloc: Global, too_long: &[u8], path: &[u8], lines: (&str, &str)) -> bool {
    let files = [
        file("directory", b"", true),
        file("cut off", THREE_WORDS, true),
        file(
            "full and cut off",
            too_long.get(..65536).unwrap_or_default(),
            true,
        ),
        file("too long", too_long, false),
    ];
    refuses(
        alloc,
        Program::Run,
        &[b"rrs-run", path, b"10"],
        &files,
        1,
        lines.0,
    ) && refuses(
        alloc,
        Program::Rrs,
        &[b"rrs", b"run", b"--quiet", path, b"10"],
        &files,
        1,
        lines.1,
    )
}

/// What `rrs-run` says of a file that can't be read to its end.
const CANNOT_READ: &str = "rrs-run: Could not read byte\n";

/// The name of each file that is not run, and what is said of it by `rrs-run` and by `rrs run`.
static NOT_RUN: [(&[u8], &str, &str); 5] = [
    (
        b"missing",
        "rrs-run: cannot open file\n",
        "rrs run: missing: No such file or directory\n",
    ),
    (
        b"directory",
        CANNOT_READ,
        "rrs run: directory: Is a directory\n",
    ),
    (
        b"cut off",
        CANNOT_READ,
        "rrs run: cut off: Is a directory\n",
    ),
    (
        b"full and cut off",
        CANNOT_READ,
        "rrs run: full and cut off: Is a directory\n",
    ),
    (
        b"too long",
        "rrs-run: Could not write byte at address 0x00010000\n",
        "rrs run: too long: more bytes than the memory, which ends at 0x00010000\n",
    ),
];

#[test]
fn says_why_a_file_is_not_run(rt: HostRuntime) -> Result<(), Fail> {
    let too_long = vec![in rt.alloc(); 0; 65537]?;
    for (index, &(path, line, other)) in NOT_RUN.iter().enumerate() {
        assert!(rt;
            both_say_of(rt.alloc(), &too_long, path, (line, other)),
            "at {index}"
        );
    }
    Ok(())
}

/// What is printed of a file that is run, where there is room for all of it, or nothing where it is
/// not run.
fn whole_account(alloc: Global, program: Program, words: &[&[u8]]) -> Vec<u8> {
    let left = run(alloc, program, words, &FILES, 100_000);
    if left.says(0, "") {
        left.printed
    } else {
        Vec::new(alloc)
    }
}

/// Whether these bytes are `beginning`, and then 33 lines, the first of which is that of x0.
fn is_account(printed: &[u8], beginning: &[u8]) -> bool {
    match printed.strip_prefix(beginning) {
        Some(rest) => rest.starts_with(b"x0 0x00000000\n") && lines_in(rest) == 33,
        None => false,
    }
}

/// How many of these bytes end a line.
fn lines_in(bytes: &[u8]) -> usize {
    bytes.iter().filter(|byte| **byte == b'\n').count()
}

/// A program, the words of its command line, and the beginning of its account.
type Case = (Program, &'static [&'static [u8]], &'static str);

static CASES: [Case; 9] = [
    (
        Program::Run,
        &[b"rrs-run", b"program", b"002"],
        "0x00000000: lui x2, 0x1234b000\n0x00000004: lui x3, 0xf387e000\nend: limit, steps 2\n",
    ),
    (
        Program::Run,
        &[b"rrs-run", b"program", b"999999999"],
        "0x00000000: lui x2, 0x1234b000\n0x00000004: lui x3, 0xf387e000\n\
        0x00000008: add x1, x2, x3\n\
        end: IllegalInstruction pc=0x0000000c word=0x00000000, steps 3\n",
    ),
    (
        Program::Run,
        &[b"rrs-run", b"loop", b"1"],
        "0x00000000: jal x0, 0x00000000\nend: limit, steps 1\n",
    ),
    (
        Program::Rrs,
        &[b"rrs", b"run", b"loop", b"1"],
        "0x00000000: jal x0, 0x00000000\nend: limit, steps 1\n",
    ),
    (
        Program::Run,
        &[b"rrs-run", b"loop", b"0"],
        "end: limit, steps 0\n",
    ),
    (
        Program::Rrs,
        &[b"rrs", b"run", b"loop", b"0", b"--quiet"],
        "end: limit, steps 0\n",
    ),
    (
        Program::Rrs,
        &[b"rrs", b"run", b"--quiet", b"loop", b"1"],
        "end: limit, steps 1\n",
    ),
    (
        Program::Rrs,
        &[b"rrs", b"run", b"--quiet", b"loop", b"100000"],
        "end: limit, steps 100000\n",
    ),
    (
        Program::Rrs,
        &[b"rrs", b"run", b"--quiet", b"program", b"999999999"],
        "end: IllegalInstruction pc=0x0000000c word=0x00000000, steps 3\n",
    ),
];

#[test]
fn runs_the_file_that_is_named_up_to_the_limit_that_is_named(rt: HostRuntime) {
    for (index, &(program, words, want)) in CASES.iter().enumerate() {
        let printed = whole_account(rt.alloc(), program, words);
        assert!(rt; is_account(&printed, want.as_bytes()), "at {index}");
    }
}

/// The last two lines of the log of `process`, in Spike's form.
const LAST_LINES: &str = "core   0: 3 0x00010064 (0x05d00893) x17 0x0000005d\n\
    core   0: 3 0x00010068 (0x00000073)\n";

/// The log of `process`, in Spike's form, up to those.
const FIRST_LINES: &str = "core   0: 3 0x00010054 (0x00700513) x10 0x00000007\n\
    core   0: 3 0x00010058 (0x00010637) x12 0x00010000\n\
    core   0: 3 0x0001005c (0x00a62023) mem 0x00010000 0x00000007\n\
    core   0: 3 0x00010060 (0x00062583) x11 0x00000007 mem 0x00010000\n";

/// The log of `mended`, in Spike's form: the steps that the kit makes.
const MENDED_LINES: &str = "core   0: 3 0x00010054 (0x00700513) x10 0x00000007\n\
    core   0: 3 0x00010058 (0x00010637) x12 0x00010000\n\
    core   0: 3 0x0001005c (0x00162583) x11 0x01464c45 mem 0x00010001\n";

/// And those behind them.
const MENDED_ENDS: &str = "core   0: 3 0x00010060 (0x00a611a3) mem 0x00010003 0x0007\n\
    core   0: 3 0x00010064 (0x00a626af) x13 0x074c457f mem 0x00010000 mem 0x00010000 0x074c4586\n\
    core   0: 3 0x00010068 (0x05d00893) x17 0x0000005d\n\
    core   0: 3 0x0001006c (0x00000073)\n";

/// Words of a command line, the status, what is said, and how the report begins and ends.
type Reported = (
    &'static [&'static [u8]],
    u8,
    &'static str,
    &'static str,
    &'static str,
);

static REPORTED: [Reported; 18] = [
    (&[b"rrs", b"gdb", b"--raw", b"process"], 0, "", "", ""),
    (
        &[b"rrs", b"gdb", b"process", b"--raw", b"-x"],
        3,
        "",
        "",
        "",
    ),
    (
        &[
            b"rrs",
            b"gdb",
            b"--board",
            b"process",
            b"--memory=64M",
            b"--limit=0x5",
        ],
        164,
        "",
        "",
        "",
    ),
    (
        &[
            b"rrs",
            b"trace",
            b"--limit=6",
            b"--",
            b"process",
            b"--",
            b"-x",
        ],
        7,
        "",
        FIRST_LINES,
        LAST_LINES,
    ),
    (
        &[b"rrs", b"trace", b"process", b"argument"],
        7,
        "",
        FIRST_LINES,
        LAST_LINES,
    ),
    (
        &[b"rrs", b"trace", b"--from", b"0x10064", b"process"],
        7,
        "",
        LAST_LINES,
        LAST_LINES,
    ),
    (
        &[
            b"rrs", b"trace", b"--from", b"65636", b"--limit", b"5", b"process",
        ],
        124,
        "rrs trace: at pc 0x00010068, after 5 steps\nrrs trace: limit\n",
        "core   0: 3 0x00010064 (0x05d00893) x17 0x0000005d\n",
        "core   0: 3 0x00010064 (0x05d00893) x17 0x0000005d\n",
    ),
    (
        &[b"rrs", b"trace", b"--to", b"0x10060", b"process"],
        7,
        "",
        FIRST_LINES,
        "",
    ),
    (
        &[
            b"rrs",
            b"trace",
            b"--from=0x10064",
            b"--to=0x10064",
            b"process",
        ],
        7,
        "",
        "core   0: 3 0x00010064 (0x05d00893) x17 0x0000005d\n",
        "",
    ),
    // the step at the end of the lines is none of those after their beginning
    (
        &[
            b"rrs",
            b"trace",
            b"--from=0x10064",
            b"--to=0x10054",
            b"process",
        ],
        7,
        "",
        LAST_LINES,
        "",
    ),
    (
        &[b"rrs", b"trace", b"--steps", b"5-6", b"process"],
        7,
        "",
        LAST_LINES,
        "",
    ),
    (
        &[b"rrs", b"trace", b"--steps=1-0x4", b"process"],
        7,
        "",
        FIRST_LINES,
        "",
    ),
    (
        &[
            b"rrs",
            b"trace",
            b"--steps=1-5",
            b"--from=0x10064",
            b"process",
        ],
        7,
        "",
        "core   0: 3 0x00010064 (0x05d00893) x17 0x0000005d\n",
        "",
    ),
    // a step that is carried out after its fault is one step
    (
        &[b"rrs", b"trace", b"--steps=4-7", b"mended"],
        7,
        "",
        MENDED_ENDS,
        "",
    ),
    (
        &[b"rrs", b"trace", b"mended"],
        7,
        "",
        MENDED_LINES,
        MENDED_ENDS,
    ),
    (
        &[b"rrs", b"cover", b"mended"],
        7,
        "",
        "executed       of      entered        steps  function\n",
        "            7  (all)\n",
    ),
    (
        &[b"rrs", b"cover", b"process"],
        7,
        "",
        "executed       of      entered        steps  function\n",
        "            6  (all)\n",
    ),
    (
        &[
            b"rrs",
            b"cover",
            b"--annotate",
            b"--limit",
            b"1",
            b"process",
        ],
        124,
        "rrs cover: at pc 0x00010058, after 1 steps\nrrs cover: limit\n",
        "\nprocess:     file format elf32-littleriscv\n",
        "           0     10068:\t00000073          \tecall\n",
    ),
];

/// Whether a report begins and ends so. A log has these lines alone.
fn is_report(report: &[u8], beginning: &str, end: &str) -> bool {
    let is_whole = report.len() <= beginning.len().saturating_add(end.len());
    report.starts_with(beginning.as_bytes())
        && report.ends_with(end.as_bytes())
        && (is_whole || !beginning.starts_with("core"))
}

/// Whether `rrs` prints nothing, and ends and reports as a case says.
fn reports(alloc: Global, case: &Reported) -> bool {
    let (words, status, line, beginning, end) = *case;
    let left = run(alloc, Program::Rrs, words, &FILES, 10_000);
    left.says(status, line) && left.printed.is_empty() && is_report(&left.report, beginning, end)
}

#[test]
fn reports_a_run(rt: HostRuntime) {
    for (index, case) in REPORTED.iter().enumerate() {
        assert!(rt; reports(rt.alloc(), case), "at {index}");
    }
}

/// Whether an account of this length is tried with this room: near both ends, and at times between.
fn is_tried(room: usize, length: usize) -> bool {
    room < 10 || room % 97 == 0 || room.saturating_add(10) > length
}

/// Whether `rrs-run` prints the first bytes of its account, for which there is room, and then ends
/// well, or since no more could be written.
fn ends_with(alloc: Global, words: &[&[u8]], whole: &[u8], room: usize) -> bool {
    let left = run(alloc, Program::Run, words, &FILES, room);
    let ends_so = if room < whole.len() {
        left.says(1, "rrs-run: cannot write output\n")
    } else {
        left.says(0, "")
    };
    !whole.is_empty() && ends_so && whole.get(..room) == Some(left.printed.as_slice())
}

/// A file and a limit: the first account is shorter than the buffer, so that the flush fails; the
/// second is longer.
static ACCOUNTS: [(&[u8], &[u8]); 2] = [(b"program", b"10"), (b"loop", b"400")];

#[test]
fn tells_an_output_that_fails(rt: HostRuntime) {
    for &(path, limit) in &ACCOUNTS {
        let words: [&[u8]; 3] = [b"rrs-run", path, limit];
        let whole = whole_account(rt.alloc(), Program::Run, &words);
        for room in 0..=whole.len() {
            if is_tried(room, whole.len()) {
                let ends_so = ends_with(rt.alloc(), &words, &whole, room);
                assert!(rt; ends_so, "with room for {room}");
            }
        }
    }
}

/// Whether a program that ends so has this status, and says this on standard error.
fn ends(
    alloc: Global,
    program: Command,
    outcome: Result<(), Failure>,
    status: u8,
    line: &str,
) -> bool {
    let machine = Machine::new(alloc, &[], &[], 1000);
    let ended = conclude(&machine, program, outcome);
    let (said, _printed) = machine.into_outputs();
    ended == ExitCode::from(status) && said.as_slice() == line.as_bytes()
}

#[test]
fn ends_by_its_name(rt: HostRuntime) {
    let alloc = rt.alloc();
    let (cannot_open, usage) = (Err(Failure::CannotOpen), Err(Failure::Usage));
    let output = Err(Failure::Run(RunFault::Output));
    let memory = Err(Failure::Run(RunFault::OutOfMemory));
    let ended = [
        ends(alloc, RRS_REPLAY, Ok(()), 0, ""),
        ends(
            alloc,
            RRS_RUN,
            cannot_open,
            1,
            "rrs-run: cannot open file\n",
        ),
        ends(alloc, RRS_REPLAY, usage, 2, "usage: rrs-replay\n"),
        ends(
            alloc,
            RRS_REPLAY,
            output,
            1,
            "rrs-replay: cannot write output\n",
        ),
        ends(alloc, RRS_REPLAY, memory, 1, "rrs-replay: out of memory\n"),
    ];
    assert!(rt; ended == [true; 5], "{ended:?}");
}

/// Whether a program that takes no arguments is refused as one that is called wrongly.
fn is_refused(alloc: Global, words: &[&[u8]]) -> bool {
    let machine = Machine::new(alloc, words, &[], 1000);
    matches!(take_no_arguments(&machine), Err(Failure::Usage))
}

/// Words of command lines, each with whether they are refused.
static ARGUMENTS: [(&[&[u8]], bool); 4] = [
    (&[], false),
    (&[b"rrs-replay"], false),
    (&[b"rrs-replay", b""], true),
    (&[b"rrs-replay", b"\xff"], true),
];

#[test]
fn refuses_an_argument(rt: HostRuntime) {
    for (index, &(words, want)) in ARGUMENTS.iter().enumerate() {
        assert!(rt; is_refused(rt.alloc(), words) == want, "at {index}");
    }
}
