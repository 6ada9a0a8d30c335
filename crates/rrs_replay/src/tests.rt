//! Lines in and answers out, over readers and writers of memory, some of which fail. Those that
//! fail do so once and then go on, so that a read or a write that is made again shows.

ghost use Rattle.std.specs.Prelude.{◌≤◌};

use super::*;
use rrs_cli::command::NamedFailure;
use rrs_oracle::answer_lines;
use std::io::{BufReader, ErrorKind, Read, Write};
use std::test::Fail;

/// Three lines, the second of which is no text; the last has no end.
const LINES: &[u8] = b"decode 0x00108333\ndecode \xff\ndecode 0x00000000";

/// The answers to these lines.
const ANSWERS: &[u8] = b"1 add\nerror: the line is not UTF-8\nnone\n";

/// A reader that gives a byte a read, and fails once before byte `fails_at`.
#[derive(Drop)]
struct Cut<'a> {
    bytes: &'a [u8],
    given: usize,
    fails_at: usize,
    kind: ErrorKind,
    has_failed: bool,
}

impl Read for Cut<'_> {
    fn read(&mut self, buf: &mut [u8]) -> io::Result<usize> {
        if self.given == self.fails_at && !self.has_failed {
            self.has_failed = true;
            return Err(io::Error::from(self.kind));
        }
        if buf.is_empty() || self.given >= self.bytes.len() {
            return Ok(0);
        }
        buf[0] = self.bytes[self.given];
        self.given += 1;
        Ok(1)
    }
}

/// A writer of up to 1000 bytes, which fails once before byte `fails_at`. It tells how many bytes
/// were written when it was last flushed.
#[derive(Drop)]
struct Page {
    bytes: [u8; 1000],
    used: usize,
    flushed: usize,
    fails_at: usize,
    has_failed: bool,
    ghost within: { used ≤ 1000 },
}

impl Page {
    fn new(fails_at: usize) -> Page {
        Page {
            bytes: [0; 1000],
            used: 0,
            flushed: 0,
            fails_at,
            has_failed: false,
        }
    }

    /// Whether these bytes are written, and nothing else.
    fn holds(&self, bytes: &[u8]) -> bool {
        self.bytes.get(..self.used) == Some(bytes)
    }
}

impl Write for Page {
    fn write(&mut self, buf: &[u8]) -> io::Result<usize> {
        if self.used >= self.fails_at && !self.has_failed {
            self.has_failed = true;
            return Err(io::Error::from(ErrorKind::StorageFull));
        }
        let limit = if self.has_failed {
            1000
        } else {
            self.fails_at.min(1000)
        };
        let count = buf.len().min(limit.saturating_sub(self.used));
        self.bytes[self.used..self.used + count].copy_from_slice(&buf[..count]);
        self.used += count;
        Ok(count)
    }

    fn flush(&mut self) -> io::Result<()> {
        self.flushed = self.used;
        Ok(())
    }
}

/// A reader of lines that fails at this byte.
fn reader_of_lines(fails_at: usize, kind: ErrorKind) -> Cut<'static> {
    Cut {
        bytes: LINES,
        given: 0,
        fails_at,
        kind,
        has_failed: false,
    }
}

/// What is answered before a read that fails is flushed by then: the program answers each line
/// before it waits for the next one.
#[test]
fn answers_the_lines_before_a_read_that_fails(rt: HostRuntime) -> Result<(), Fail> {
    for fails_at in 0..=LINES.len() {
        let mut output = Page::new(1000);
        let reader = reader_of_lines(fails_at, ErrorKind::BrokenPipe);
        let mut input = BufReader::new(rt.alloc(), reader)?;
        let answered = answer_lines(rt.alloc(), &mut input, &mut output);
        let whole = match fails_at {
            0..=17 => 0,
            18..=26 => 6,
            _ => 35,
        };
        let left = (answered, output.flushed, output.holds(&ANSWERS[..whole]));
        assert_eq!(rt;
            left,
            (Err(ReplayFault::Input), whole, true),
            "at {fails_at}"
        );
    }
    Ok(())
}

/// The last of these readers fails nowhere.
#[test]
fn reads_again_after_an_interruption(rt: HostRuntime) {
    for fails_at in 0..=LINES.len() + 1 {
        let mut output = Page::new(1000);
        let reader = reader_of_lines(fails_at, ErrorKind::Interrupted);
        let answered = answer_all(rt.alloc(), reader, &mut output);
        let left = (answered, output.holds(ANSWERS));
        assert_eq!(rt; left, (Ok(()), true), "at {fails_at}");
    }
}

/// Without a buffer a prefix of the answers is there.
#[test]
fn tells_a_write_that_fails_once(rt: HostRuntime) -> Result<(), Fail> {
    for fails_at in 0..ANSWERS.len() {
        let mut output = Page::new(fails_at);
        let mut input = BufReader::new(rt.alloc(), LINES)?;
        let answered = answer_lines(rt.alloc(), &mut input, &mut output);
        let left = (answered, output.holds(&ANSWERS[..fails_at]));
        assert_eq!(rt; left, (Err(ReplayFault::Output), true), "at {fails_at}");
    }
    Ok(())
}

/// With a buffer, what it held is written later, and the failure is told all the same.
#[test]
fn tells_a_write_of_a_buffer_that_fails_once(rt: HostRuntime) {
    for fails_at in 0..ANSWERS.len() {
        let mut output = Page::new(fails_at);
        let answered = answer_all(rt.alloc(), LINES, &mut output);
        let begins = ANSWERS.starts_with(&output.bytes[..output.used]);
        let left = (answered, begins, output.used >= fails_at);
        assert_eq!(rt;
            left,
            (Err(ReplayFault::Output), true, true),
            "at {fails_at}"
        );
    }
}

/// The answers before the first line, after each of them, and all.
const WHOLE_ANSWERS: [usize; 4] = [0, 6, 35, 40];

/// With no allocation that fails this writes all answers. With one (`docs/RUNNING.md` says how) it
/// writes those before it, and says so.
#[test]
fn out_of_memory_leaves_whole_answers(rt: HostRuntime) {
    let mut output = Page::new(1000);
    let answered = answer_all(rt.alloc(), LINES, &mut output);
    let whole = WHOLE_ANSWERS.contains(&output.used);
    let begins = ANSWERS.starts_with(&output.bytes[..output.used]);
    let want = if output.used == ANSWERS.len() {
        Ok(())
    } else {
        Err(ReplayFault::OutOfMemory)
    };
    assert_eq!(rt; (answered, whole, begins), (want, true, true));
}

#[test]
fn says_why_it_failed(rt: HostRuntime) -> Result<(), Fail> {
    for (fault, want) in [
        (ReplayFault::Input, "rrs-replay: cannot read input"),
        (ReplayFault::Output, "rrs-replay: cannot write output"),
        (ReplayFault::OutOfMemory, "rrs-replay: out of memory"),
    ] {
        let program = RRS_REPLAY;
        let failure = failure_of(fault);
        let status = failure.status();
        let text = format!(in rt.alloc(); "{}", NamedFailure { program, failure })?;
        assert_eq!(rt; (status, text.as_str()), (1, want));
    }
    Ok(())
}
