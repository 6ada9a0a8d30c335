//! The line that shows how far a run is: on a terminal in memory, by a clock that is set.

use rrs_exec::{NoProgress, Progress};
use rrs_run_commands::progress_line::{Erasing, LineTerminal, ProgressLine};
use std::alloc::Global;
use std::cell::Cell;
use std::io;
use std::io::{ErrorKind, Read, Write};
use std::time::{Clock, Duration};

/// A clock that was set to so many milliseconds, or fails, and counts how often it was looked at.
#[derive(Drop)]
struct SetClock {
    millis: Cell<Option<u64>>,
    looks: Cell<u32>,
}

impl SetClock {
    /// A clock at 0.
    fn new() -> SetClock {
        SetClock {
            millis: Cell::new(Some(0)),
            looks: Cell::new(0),
        }
    }
}

impl Clock for &SetClock {
    fn monotonic(&self) -> io::Result<Duration> {
        self.looks.set(self.looks.get().saturating_add(1));
        match self.millis.get() {
            Some(millis) => Ok(Duration::from_millis(millis)),
            None => Err(io::Error::from(ErrorKind::Unsupported)),
        }
    }

    fn since_1970(&self) -> io::Result<Duration> {
        Err(io::Error::from(ErrorKind::Unsupported))
    }
}

/// What a terminal got of a run, and how often the clock was looked at: at these times so many more
/// steps were made.
fn shown(alloc: Global, pieces: &[(Option<u64>, u64)]) -> (Vec<u8>, u32) {
    let clock = SetClock::new();
    let terminal = LineTerminal::new(Vec::new(alloc));
    let mut progress = Some(ProgressLine::new(&clock, &terminal));
    for (millis, steps) in pieces {
        clock.millis.set(*millis);
        progress.add(*steps);
    }
    progress.end();
    progress.end();
    let _ = progress;
    (terminal.into_terminal(), clock.looks.get())
}

/// A run of which a second passed twice, once by two seconds.
const TWO_LINES: [(Option<u64>, u64); 6] = [
    (Some(7000), 1_000_000),
    (Some(7999), 500_000),
    (Some(8000), 1_000_000),
    (Some(8001), 65_535),
    (Some(8999), 2_934_465),
    (Some(10_000), 1_500_000),
];

#[test]
fn lines_are_a_second_apart(rt: HostRuntime) {
    let (bytes, looks) = shown(rt.alloc(), &TWO_LINES);
    let wanted: &[u8] = b"\x1b7\x1b[?7l[2.5 million steps, 1.5 million a second]\x1b[K\x1b[?7h\x1b8\
        \x1b7\x1b[?7l[7.0 million steps, 2.2 million a second]\x1b[K\x1b[?7h\x1b8\x1b[K";
    assert!(rt; bytes.as_slice() == wanted && looks == 5);
}

/// A run that takes less than a second; one whose clock fails; one whose clock goes back; and one
/// of few steps, of which no clock is looked at.
const NO_LINES: [(&[(Option<u64>, u64)], u32); 4] = [
    (&[(Some(0), 70_000), (Some(999), 4_194_304)], 2),
    (
        &[
            (None, 70_000),
            (Some(0), 70_000),
            (None, 70_000),
            (Some(999), 70_000),
        ],
        4,
    ),
    (&[(Some(9000), 70_000), (Some(0), 70_000)], 2),
    (&[(Some(0), 65_535), (Some(5000), 0)], 0),
];

#[test]
fn no_line_is_shown(rt: HostRuntime) {
    let mut is_none_shown = true;
    for (pieces, looks) in NO_LINES {
        let (bytes, looked) = shown(rt.alloc(), pieces);
        is_none_shown = is_none_shown && bytes.is_empty() && looked == looks;
    }
    assert!(rt; is_none_shown);
}

/// A terminal that can't be written, and counts what was tried.
#[derive(Drop)]
struct Broken<'a>(&'a Cell<u32>);

impl Write for Broken<'_> {
    fn write(&mut self, _buf: &[u8]) -> io::Result<usize> {
        self.0.set(self.0.get().saturating_add(1));
        Err(io::Error::from(ErrorKind::BrokenPipe))
    }

    fn flush(&mut self) -> io::Result<()> {
        Ok(())
    }
}

#[test]
fn the_most_steps_are_told_to_a_terminal_that_fails(rt: HostRuntime) {
    let tried = Cell::new(0);
    let clock = SetClock::new();
    let terminal = LineTerminal::new(Broken(&tried));
    let mut progress = ProgressLine::new(&clock, &terminal);
    progress.add(u64::MAX);
    clock.millis.set(Some(u64::MAX));
    progress.add(u64::MAX);
    progress.end();
    NoProgress.add(1);
    NoProgress.end();
    assert!(rt; tried.get() == 2);
}

/// A stream beside the line of a terminal in memory.
fn beside<S>(stream: S, terminal: &LineTerminal<Vec<u8>>) -> Erasing<'_, S, Vec<u8>> {
    Erasing {
        stream,
        terminal: Some(terminal),
    }
}

#[test]
fn a_line_is_erased_before_the_program_reads_or_writes(rt: HostRuntime) {
    let clock = SetClock::new();
    let terminal = LineTerminal::new(Vec::new(rt.alloc()));
    let mut progress = ProgressLine::new(&clock, &terminal);
    let mut output = beside(Vec::new(rt.alloc()), &terminal);
    let mut input = beside(b"in".as_slice(), &terminal);
    let mut are_done = output.write_all(b"a").is_ok();
    progress.add(100_000);
    for (millis, reads) in [(1000, false), (2000, true)] {
        clock.millis.set(Some(millis));
        progress.add(100_000);
        if reads {
            are_done = are_done && input.read(&mut [0; 1]).is_ok();
        }
        are_done = are_done && output.write_all(b"b").is_ok();
    }
    progress.end();
    let wanted: &[u8] = b"\x1b7\x1b[?7l[0.2 million steps, 0.1 million a second]\x1b[K\x1b[?7h\x1b8\
        \x1b[K\x1b7\x1b[?7l[0.3 million steps, 0.1 million a second]\x1b[K\x1b[?7h\x1b8\x1b[K";
    let written = output.stream;
    let shown = terminal.into_terminal();
    assert!(rt; are_done && written.as_slice() == b"abb".as_slice() && shown.as_slice() == wanted);
}
