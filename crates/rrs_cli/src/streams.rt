//! The standard streams of a program that is started where some of them are closed.

use std::rt::Files;
use std::{fs, io};

/// A file that has no bytes.
const EMPTY_FILE: &str = "/dev/null";

/// What is in the places of standard streams that are closed. Where a stream is open, its file is
/// elsewhere.
#[derive(Drop)]
pub struct OccupiedStreams<F> {
    input: io::Result<F>,
    output: io::Result<F>,
    errors: io::Result<F>,
}

/// Opens an empty file in the place of each of standard input, output and error that is closed.
/// Otherwise the next file that is opened would take this place, and a program would read it as its
/// input. While the result is kept, such an input has no bytes, and a write to such an output
/// fails.
///
/// The system gives the lowest descriptors first, so the files are in these places where any of
/// them is free. A system without the empty file is left as it is.
pub fn occupy_closed_streams<R: Files>(rt: &R) -> OccupiedStreams<R::File> {
    OccupiedStreams {
        input: fs::open(rt, EMPTY_FILE),
        output: fs::open(rt, EMPTY_FILE),
        errors: fs::open(rt, EMPTY_FILE),
    }
}
