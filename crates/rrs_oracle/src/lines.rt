//! Answering lines, over readers and writers.

use crate::answers::write_answer;
use crate::parsing::question_of;
use crate::questions::{ParseError, ParseErrorKind, Question};
use std::alloc::Global;
use std::error::Error;
use std::io::{BufRead, BufReader, BufWriter, ErrorKind, Read, Write};
use std::{fmt, io, str};

/// Why not all lines were answered.
#[derive(Debug, PartialEq, Drop)]
pub enum ReplayFault {
    /// A read failed.
    Input,
    /// A write or a flush failed.
    Output,
    /// Out of memory.
    OutOfMemory,
}

impl fmt::Display for ReplayFault {
    fn fmt<W: fmt::Write>(&self, f: &mut fmt::Formatter<W>) -> fmt::Result {
        f.write_str(match self {
            ReplayFault::Input => "cannot read input",
            ReplayFault::Output => "cannot write output",
            ReplayFault::OutOfMemory => "out of memory",
        })
    }
}

impl Error for ReplayFault {}

/// Answers the lines of a reader on a writer, through buffers.
///
/// # Errors
///
/// As [answer_lines], and `ReplayFault::OutOfMemory` for the buffers. What was answered before is
/// written, unless a write fails too.
pub fn answer_all<R: Read + Drop, W: Write + Drop>(
    alloc: Global,
    reader: R,
    writer: W,
) -> Result<(), ReplayFault> {
    let Ok(mut input) = BufReader::new(alloc, reader) else {
        return Err(ReplayFault::OutOfMemory);
    };
    let Ok(mut output) = BufWriter::new(alloc, writer) else {
        return Err(ReplayFault::OutOfMemory);
    };
    let answered = answer_lines(alloc, &mut input, &mut output);
    let flushed = output.flush();
    answered.and(told(flushed, ReplayFault::Output))
}

/// Answers each line of the input, keeping one line at a time.
///
/// The output is flushed before a read that may wait for the next line. The last line may have no
/// end.
///
/// # Errors
///
/// `ReplayFault::Input` where a read fails, `ReplayFault::Output` where a write or a flush fails,
/// and `ReplayFault::OutOfMemory`. The lines before are answered; a line that was cut off is not,
/// and out of memory writes nothing of the answer.
pub fn answer_lines<R: Read, W: Write>(
    alloc: Global,
    input: &mut BufReader<R>,
    output: &mut W,
) -> Result<(), ReplayFault> {
    let mut line = Vec::new(alloc);
    for _ in 0..u64::MAX {
        if !input.buffer().contains(&b'\n') {
            told(output.flush(), ReplayFault::Output)?;
        }
        line.clear();
        if told(input.read_until(b'\n', &mut line), ReplayFault::Input)? == 0 {
            break;
        }
        let text = line.strip_suffix(b"\n").unwrap_or(&line);
        told(answer_line(alloc, text, output), ReplayFault::Output)?;
    }
    Ok(())
}

/// What a read or a write gives to the program, of which an error is this fault or out of memory.
fn told<T>(given: io::Result<T>, fault: ReplayFault) -> Result<T, ReplayFault> {
    match given {
        Ok(value) => Ok(value),
        Err(error) => Err(match error.kind() {
            ErrorKind::OutOfMemory => ReplayFault::OutOfMemory,
            _ => fault,
        }),
    }
}

/// Writes a line: the answer to a line's question, or what is wrong with it.
///
/// # Errors
///
/// The error of a write that fails, or out of memory, where nothing of the answer is written.
fn answer_line<W: Write>(alloc: Global, line: &[u8], output: &mut W) -> io::Result<()> {
    match question_in(alloc, line) {
        Ok(question) => write_answer(alloc, question, output)?,
        Err(ParseError::Malformed(kind)) => write!(output, "error: {kind}")?,
        Err(ParseError::OutOfMemory) => return Err(io::Error::from(ErrorKind::OutOfMemory)),
    }
    output.write_all(b"\n")
}

/// The question that the bytes of a line ask.
fn question_in(alloc: Global, line: &[u8]) -> Result<Question, ParseError> {
    let Ok(text) = str::from_utf8(line) else {
        return Err(ParseError::Malformed(ParseErrorKind::NotText));
    };
    question_of(alloc, text)
}
