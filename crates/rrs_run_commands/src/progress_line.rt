//! The line that shows on a terminal how far a run is.
//!
//! It stands after what the program wrote there, with the cursor before it, and is erased before
//! the program writes to a terminal or reads from one. So the screen is then what it would be
//! without the line.

ghost use Rattle.std.specs.Prelude.{◌≡◌, Some};

use rrs_exec::Progress;
use std::cell::{Cell, RefCell};
use std::io::{IsTerminal, Read, Write};
use std::time::{Clock, Duration};
use std::{fmt, io};

/// How many steps are made before the clock is looked at again.
const STEPS_BETWEEN_LOOKS: u64 = 1 << 16;

/// What a terminal is sent before a line: to keep the place of the cursor, and not to go on in the
/// next row where the line is too long for this one.
const BEFORE_LINE: &str = "\x1b7\x1b[?7l";

/// What it is sent after a line: to erase the rest of the row, to go on in the next row again, and
/// to go back to the place that was kept.
const BEHIND_LINE: &str = "\x1b[K\x1b[?7h\x1b8";

/// What erases a line: the row from the cursor on.
const ERASE: &[u8] = b"\x1b[K";

/// A terminal with the place of one line.
#[derive(Drop)]
pub struct LineTerminal<T> {
    terminal: RefCell<T>,
    is_shown: Cell<bool>,
}

impl<T: Write> LineTerminal<T> {
    /// A terminal that shows no line.
    pub fn new(terminal: T) -> LineTerminal<T> {
        LineTerminal {
            terminal: RefCell::new(terminal),
            is_shown: Cell::new(false),
        }
    }

    /// Gives the terminal back.
    pub fn into_terminal(self) -> T {
        let LineTerminal {
            terminal,
            is_shown: _,
        } = self;
        terminal.into_inner()
    }

    /// Shows a line in the place of the one that is shown. Where it can't be written nothing is
    /// told.
    fn show<D: fmt::Display + Drop>(&self, line: D) {
        if let Ok(mut terminal) = self.terminal.try_borrow_mut() {
            let _ = write!(*terminal, "{BEFORE_LINE}{line}{BEHIND_LINE}");
            self.is_shown.set(true);
        }
    }

    /// Erases the line, if one is shown.
    pub fn erase(&self) {
        if !self.is_shown.get() {
            return;
        }
        if let Ok(mut terminal) = self.terminal.try_borrow_mut() {
            let _ = terminal.write_all(ERASE);
            self.is_shown.set(false);
        }
    }
}

/// A number as so many millions, with one digit after the point.
#[derive(Clone, Copy)]
struct Millions(u64);

impl fmt::Display for Millions {
    fn fmt<W: fmt::Write>(&self, f: &mut fmt::Formatter<W>) -> fmt::Result {
        let tenths = self.0 / 100_000;
        let (whole, tenth) = (tenths / 10, tenths % 10);
        write!(f, "{whole}.{tenth}")
    }
}

/// How many steps were made, and how many a second lately.
#[derive(Clone, Copy)]
struct Speed {
    steps: Millions,
    a_second: Millions,
}

impl fmt::Display for Speed {
    fn fmt<W: fmt::Write>(&self, f: &mut fmt::Formatter<W>) -> fmt::Result {
        let (steps, a_second) = (self.steps, self.a_second);
        write!(f, "[{steps} million steps, {a_second} million a second]")
    }
}

/// How many steps a second were made, in a time that is not 0.
fn steps_a_second(steps: u64, passed: Duration) -> u64 {
    let millis = passed
        .as_secs()
        .saturating_mul(1000)
        .saturating_add(u64::from(passed.subsec_millis()));
    steps.saturating_mul(1000) / millis.max(1)
}

/// A time of a clock, and how many steps were made then.
#[derive(Clone, Copy)]
struct Moment {
    time: Duration,
    steps: u64,
}

/// A progress that shows a line a second on a terminal: how many million steps were made, and how
/// many a second since the line before.
#[derive(Drop)]
pub struct ProgressLine<'a, C, T> {
    clock: C,
    terminal: &'a LineTerminal<T>,
    /// How many steps were made.
    steps: u64,
    /// How many of them since the clock was looked at.
    unseen: u64,
    /// When the latest line was shown, or before the first one, when the clock was first looked at.
    latest: Option<Moment>,
}

impl<'a, C: Clock, T: Write> ProgressLine<'a, C, T> {
    /// No steps were made. The clock is not looked at yet.
    pub fn new(clock: C, terminal: &'a LineTerminal<T>) -> ProgressLine<'a, C, T> {
        ProgressLine {
            clock,
            terminal,
            steps: 0,
            unseen: 0,
            latest: None,
        }
    }

    /// Looks at the clock, and shows a line where a second has passed since the latest one.
    fn look(&mut self)
        ensures { self.new.steps ≡ self.old.steps }
    {
        let Ok(time) = self.clock.monotonic() else {
            return;
        };
        if let Some(latest) = self.latest {
            let passed = time.saturating_sub(latest.time);
            if passed.as_secs() == 0 {
                return;
            }
            let lately = self.steps.saturating_sub(latest.steps);
            self.terminal.show(Speed {
                steps: Millions(self.steps),
                a_second: Millions(steps_a_second(lately, passed)),
            });
        }
        self.latest = Some(Moment {
            time,
            steps: self.steps,
        });
    }
}

impl<C: Clock, T: Write> Progress for ProgressLine<'_, C, T> {
    ghost told = { λ line. Some line.steps };

    fn add(&mut self, steps: u64) {
        self.steps = self.steps.saturating_add(steps);
        self.unseen = self.unseen.saturating_add(steps);
        if self.unseen >= STEPS_BETWEEN_LOOKS {
            self.unseen = 0;
            self.look();
        }
    }

    fn end(&mut self) {
        self.terminal.erase();
    }
}

/// A stream of a program, which erases the line of a terminal before it is read and written, where
/// it is a terminal itself.
#[derive(Drop)]
pub struct Erasing<'a, S, T> {
    /// The stream.
    pub stream: S,
    /// The terminal whose line is erased, if there is one.
    pub terminal: Option<&'a LineTerminal<T>>,
}

impl<'a, S: IsTerminal, T> Erasing<'a, S, T> {
    /// A stream beside the line of a terminal.
    pub fn new(stream: S, terminal: &'a LineTerminal<T>) -> Erasing<'a, S, T>
        ensures { result.stream ≡ stream }
    {
        let terminal = stream.is_terminal().then_some(terminal);
        Erasing { stream, terminal }
    }
}

/// Erases the line of a terminal, if there is one.
fn erase<T: Write>(terminal: Option<&LineTerminal<T>>) {
    if let Some(terminal) = terminal {
        terminal.erase();
    }
}

/// What is read is what the stream gives.
impl<S: Read, T: Write> Read for Erasing<'_, S, T> {
    ghost remaining = { λ erasing. S.remaining erasing.stream };

    fn read(&mut self, buf: &mut [u8]) -> io::Result<usize> {
        erase(self.terminal);
        self.stream.read(buf)
    }
}

/// What is written is what the stream takes.
impl<S: Write, T: Write> Write for Erasing<'_, S, T> {
    ghost contents = { λ erasing. S.contents erasing.stream };

    fn write(&mut self, buf: &[u8]) -> io::Result<usize> {
        erase(self.terminal);
        self.stream.write(buf)
    }

    fn flush(&mut self) -> io::Result<()> {
        self.stream.flush()
    }
}
