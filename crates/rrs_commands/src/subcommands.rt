//! The subcommands of `rrs`: how each is called, and what its help says.

use rrs_cli::command::Command;
use rrs_run_commands::options::Task;

/// A subcommand.
#[derive(Clone, Copy)]
pub struct Subcommand {
    /// The word that asks for it.
    pub word: &'static str,
    /// What it does.
    pub task: Task,
    /// How it is called, and the name before what it says.
    pub command: Command,
    /// What it does, in a line of the list of all.
    pub summary: &'static str,
    /// What its help says below its usage.
    pub help: &'static str,
}

/// The subcommands.
pub static SUBCOMMANDS: [Subcommand; 9] = [
    RUN,
    EXECUTE,
    TRACE,
    COVER,
    ASSEMBLE,
    DISASSEMBLE,
    LIST,
    BOARD,
    DEBUG,
];

/// The program itself, where it is asked for help or for no subcommand.
pub static ITSELF: Subcommand = HELP;

/// `rrs gdb --board`, `rrs trace --board` and `rrs cover --board`, which have options of their own.
static DEBUG_BOARD: Subcommand = Subcommand {
    task: Task::DebugBoard,
    ..DEBUG
};

static TRACE_BOARD: Subcommand = Subcommand {
    task: Task::TraceBoard,
    ..TRACE
};

static COVER_BOARD: Subcommand = Subcommand {
    task: Task::CoverBoard,
    ..COVER
};

/// What a subcommand is with `--board` after its word, or `None` where it does not take that.
pub fn on_board(subcommand: &Subcommand) -> Option<&'static Subcommand> {
    match subcommand.task {
        Task::Debug | Task::DebugBoard => Some(&DEBUG_BOARD),
        Task::Trace | Task::TraceBoard => Some(&TRACE_BOARD),
        Task::Cover | Task::CoverBoard => Some(&COVER_BOARD),
        _ => None,
    }
}

/// `rrs run`.
const RUN: Subcommand = Subcommand {
    word: "run",
    task: Task::Run,
    command: Command {
        name: "rrs run",
        usage: "rrs run [--quiet] FILE LIMIT",
    },
    summary: "runs a file's bytes, and prints each instruction and the registers",
    help: "Puts the bytes of FILE at address 0 of a memory of 64 KiB, starts a hart there whose
registers are 0, and makes at most LIMIT steps (one to nine digits). Prints each
instruction before its step, then how the run ended, and the registers. With
--quiet it prints no instructions, and long runs are fast.

Status: 0, however the run ends; 1 where FILE can't be run; 2 for other words.
",
};

/// `rrs exec`.
const EXECUTE: Subcommand = Subcommand {
    word: "exec",
    task: Task::Execute,
    command: Command {
        name: "rrs exec",
        usage: "rrs exec [--limit STEPS] [--memory BYTES] [--files FOLDER | --files-read-only FOLDER]
    [--march NAME] [--strict-alignment] [--clock fixed] [--random host]
    [--env NAME=VALUE] .. [--raw] PROGRAM [ARGUMENT] ..",
    },
    summary: "runs a program that makes system calls of Linux",
    help: "Runs PROGRAM, an ELF executable for RV32IMAC, as a process of Linux with these
ARGUMENTs: in a memory of 256 MiB, or of what it needs up to 1 GiB (--memory, up to
4G), with its heap after its segments, its stack at the end, and a gap between them;
code and constants are read-only. It makes at most STEPS steps, of which each system
call is one, or any number. The program has standard input, output and error. With
--files it also has the files below FOLDER, which is its root and where it is, and
with --files-read-only it has them and can't change them. A load or a store at a
misaligned address is carried out, and with --strict-alignment it is a fault. With
--march the hart has the extensions of NAME and no others, as gcc's -march names them:
rv32im, rv32ima, rv32imc or rv32imac, and behind it some of _zicsr, _zifencei, _zba,
_zbb, _zbs, _zbc, _zbkb and _zicond. With --clock fixed its clocks stand at 0, so that
each run is the same. Its random bytes are the same in each run, and with --random host
they are others. --env, which may stand 16 times, puts NAME=VALUE in its environment,
which is empty else; of one NAME the last counts. A fault is told with its pc. Options
stand before PROGRAM: the words after it are the program's own. With --raw the file's
bytes stand at address 0 of 1 MiB and sp at its end, and there are no ARGUMENTs, no
environment and no files.

Status: the program's own; 124 at the limit; 125 where it can't be run; 128 and
the number of a signal for a fault: 132 illegal instruction, 133 breakpoint,
135 misaligned address, 139 address that is not mapped or not writable; 141 where
nobody reads what the program writes.
",
};

/// `rrs trace`.
const TRACE: Subcommand = Subcommand {
    word: "trace",
    task: Task::Trace,
    command: Command {
        name: "rrs trace",
        usage: "rrs trace [--limit STEPS] [--memory BYTES] [--march NAME] [--clock fixed]
    [--env NAME=VALUE] .. [--from ADDRESS|SYMBOL] [--to ADDRESS|SYMBOL] [--only FUNCTION]
    [--steps N-M] [--output FILE] PROGRAM [ARGUMENT] ..
       rrs trace --board [--limit STEPS] [--memory BYTES] [--march NAME]
           [--input polled|wait] [--raw] [--dtb FILE] [--append TEXT] [--symbols FILE]
           [--from ADDRESS|SYMBOL] [--to ADDRESS|SYMBOL] [--only FUNCTION] [--steps N-M]
           [--output FILE] PROGRAM",
    },
    summary: "runs a program as rrs exec does, and writes Spike's commit log",
    help: "Runs PROGRAM as rrs exec does, and writes a line for each step, as Spike's
--log-commits does: its pc, its word, the register that it wrote with its value, and
mem with the address of its load, or of its store with the value. The lines go to
standard error, or to FILE (--output), which has all of them or stays as it was. With
--from they begin at the first step at an ADDRESS, which is decimal digits, or 0x and
hexadecimal ones, or else the name of a SYMBOL, and with --to they end with the next
step at one. --only has those in the code of a FUNCTION, and --steps those from the
Nth step of the run to the Mth. The run is the same. A load or a store at a misaligned
address has one line, with its whole access.

With --board PROGRAM is firmware, which runs as rrs board does, and the lines are those
of spike -l --log-commits: with the privilege mode, the CSR that an instruction wrote,
and the exceptions and interrupts. A SYMBOL is then of the executable FILE, where
--symbols names one.

Status: as that of rrs exec, or of rrs board.
",
};

/// `rrs cover`.
const COVER: Subcommand = Subcommand {
    word: "cover",
    task: Task::Cover,
    command: Command {
        name: "rrs cover",
        usage: "rrs cover [--limit STEPS] [--memory BYTES] [--march NAME] [--clock fixed]
    [--env NAME=VALUE] .. [--annotate] [--callgrind FILE] [--output FILE]
    PROGRAM [ARGUMENT] ..
       rrs cover --board [--limit STEPS] [--memory BYTES] [--march NAME]
           [--input polled|wait] [--raw] [--dtb FILE] [--append TEXT] [--symbols FILE]
           [--annotate] [--callgrind FILE] [--output FILE] PROGRAM",
    },
    summary: "runs a program as rrs exec does, and says what the run covered",
    help: "Runs PROGRAM as rrs exec does, and writes what the run covered: of each function how
many of its instructions were executed, how many it has, how often it was entered, and
how many steps were made in it, those first that ran. With --annotate it writes the
disassembly, with a count before each instruction. It goes to standard error, or to
FILE (--output), and with --callgrind the counts by function and by call go to a FILE
in Callgrind's profile format, which callgrind_annotate and KCachegrind read.

With --board PROGRAM is firmware, which runs as rrs board does, and the functions are
those of the executable FILE, where --symbols names one, as vmlinux is of a kernel's
image.

Status: as that of rrs exec, or of rrs board.
",
};

/// `rrs as`.
const ASSEMBLE: Subcommand = Subcommand {
    word: "as",
    task: Task::Assemble,
    command: Command {
        name: "rrs as",
        usage: "rrs as [--gnu | --list] [-o OUTPUT] [--rars] [-Ttext ADDRESS]
    [-Tdata ADDRESS] [--incbin-anywhere] FILE",
    },
    summary: "assembles a source, and writes the bytes of the program",
    help: "Writes the bytes of the program to standard output, the first for address 0; or
with -o an ELF executable to OUTPUT, which rrs exec, rrs gdb and rrs dis take. Its
sections lie from 0x10000 on, with data that can be written on a page of its own, and
it begins at _start, else at main, else at its first byte. --list prints the source
with the address and the word of each line, and --gnu a source of the same bytes that
GNU as takes. -Ttext says where the first section lies, and -Tdata where the first
one with data that can be written does, each by 0x and hexadecimal digits; --rars
says 0x400000 and 0x10010000. .incbin takes a file beside FILE, or in a folder there;
--incbin-anywhere takes any path. A terminal is not sent the bytes of a program.

Each mistake is a line on standard error, FILE:LINE:COLUMN: and what is wrong, and
nothing is written then.

Status: 0; 1 for mistakes, and where FILE can't be assembled; 2 for other words.
",
};

/// `rrs dis`.
const DISASSEMBLE: Subcommand = Subcommand {
    word: "dis",
    task: Task::Disassemble,
    command: Command {
        name: "rrs dis",
        usage: "rrs dis FILE",
    },
    summary: "disassembles an executable",
    help: "Writes the code of FILE, an ELF executable for RV32IM, as objdump -d lays it out: of
each section that has code, or, where there are no sections, of each segment that
has, the symbols, and the address, the word and the text of each instruction. FILE
may have compressed code.

Status: 0; 1 where FILE is no such executable, and where it can't be read; 2 for
other words.
",
};

/// `rrs elf`.
const LIST: Subcommand = Subcommand {
    word: "elf",
    task: Task::List,
    command: Command {
        name: "rrs elf",
        usage: "rrs elf FILE",
    },
    summary: "lists the entry, the segments and the symbols of an executable",
    help: "Lists what FILE, an ELF executable for RV32IM, has: the entry, the program headers
and the symbols, in the columns of readelf -lsW. FILE may have compressed code.

Status: 0; 1 where FILE is no such executable, and where it can't be read; 2 for
other words.
",
};

/// `rrs board`.
const BOARD: Subcommand = Subcommand {
    word: "board",
    task: Task::Board,
    command: Command {
        name: "rrs board",
        usage: "rrs board [--limit STEPS] [--memory BYTES] [--march NAME] [--input polled|wait]
    [--raw] [--dtb FILE] [--append TEXT] PROGRAM",
    },
    summary: "runs firmware on a board with machine mode",
    help: "Runs PROGRAM, an ELF executable for RV32IMAC, on a board like QEMU's virt: RAM of
128 MiB (--memory, up to 2G) from 0x80000000 on, a UART 16550 at 0x10000000, whose two
sides are standard output and standard input, a CLINT at 0x2000000, a finisher at
0x100000. The hart has machine and user mode, and starts at the entry. With --march it
has the extensions of NAME and no others, as by rrs exec. It makes at most STEPS steps,
or any number. Time goes by the instructions that retire, and wfi goes forward to the
next alarm.

With --raw PROGRAM is an image for the start of RAM, as a kernel is, and has compressed
code by --march alone. a1 is then the address of a device tree, 64 KiB before the end of
RAM: FILE of --dtb, or the board's own, whose arguments for the kernel are TEXT. An
executable has a1 0 without --dtb and --append.

Input is read where PROGRAM looks a thousand times in a row and finds none, and at a
wfi that no alarm can end where IER asks for received data. Each such look waits for
input here, with --input wait or without. With --input polled it is read at each wfi
that waits too, and a read that gives nothing is not its end: for a terminal that
examples/board/console sets.

Status: that of the finisher; 124 at the limit; 125 where it can't be run; 126 where
wfi waits and nothing can wake it.
",
};

/// `rrs gdb`.
const DEBUG: Subcommand = Subcommand {
    word: "gdb",
    task: Task::Debug,
    command: Command {
        name: "rrs gdb",
        usage: "rrs gdb [--memory BYTES] [--march NAME] [--input FILE] [--env NAME=VALUE] ..
    [--raw] PROGRAM [ARGUMENT] ..
       rrs gdb --board [--limit STEPS] [--memory BYTES] [--march NAME] [--input FILE]
           [--raw] [--dtb FILE] [--append TEXT] PROGRAM",
    },
    summary: "runs a program, or firmware, under gdb",
    help: "Runs PROGRAM as rrs exec does, under gdb, which speaks by standard input and output:
  gdb-multiarch PROGRAM -ex 'target remote | rrs gdb PROGRAM'
The program's output goes to gdb; its input is FILE, or empty, and its clocks stand at
0. --march and --env are as of rrs exec; a raw program has none. It
can go back, as by reverse-stepi and reverse-continue. monitor help, in gdb, lists what
can be set.

With --board PROGRAM is firmware, on the board of rrs board. gdb has its CSRs by their
names, as in info registers mstatus. FILE is what its UART receives. A continue makes at
most STEPS steps, or 1000000000.

Status: 0; 1 where PROGRAM can't be run, and where it can't be read; 2 for other
words.
",
};

/// `rrs help`.
const HELP: Subcommand = Subcommand {
    word: "help",
    task: Task::Help,
    command: Command {
        name: "rrs",
        usage: "rrs run|exec|trace|cover|as|dis|elf|board|gdb|help ..",
    },
    summary: "prints this, or the help of a subcommand: rrs help run",
    help: "rrs help run, rrs run --help and rrs run -h print the help of rrs run, and rrs --version
the version.

Options stand in any order, before FILE and after it, and -- ends them; but the words
after a PROGRAM with ARGUMENTs are its own. --limit 10 is --limit=10. STEPS is decimal
digits, or 0x and hexadecimal ones. BYTES is such a number too, or one with K, M or G
after it, of KiB, MiB or GiB. A FILE or PROGRAM that is read may be -, standard input.

The status is 0, 1 where something fails, 2 for other words, and 141 where nobody reads
what rrs prints; rrs exec, trace, cover and board end with that of their program, and
with 125 where they can't run it.
",
};

/// The subcommand that a word asks for, if there is one.
pub fn named(word: &str) -> Option<&'static Subcommand> {
    for subcommand in &SUBCOMMANDS {
        if subcommand.word == word {
            return Some(subcommand);
        }
    }
    None
}
