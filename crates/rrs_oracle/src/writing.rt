//! Text that is written piece by piece.

use itoa::Buffer;
use rrs_lib::disassembly::hexadecimal_digits;
use std::io::{self, Write};

/// What pieces of text are written to. Behind a write that fails nothing more is written.
#[derive(Drop)]
pub struct Pieces<'a, W: Write> {
    out: &'a mut W,
    /// What the writes gave up to now: the error of the one that failed, if one did.
    written: io::Result<()>,
}

impl<'a, W: Write> Pieces<'a, W> {
    /// Pieces that a writer takes.
    pub fn new(out: &'a mut W) -> Pieces<'a, W> {
        Pieces {
            out,
            written: Ok(()),
        }
    }

    /// Writes a text.
    pub fn text(&mut self, text: &str) {
        if self.written.is_ok() {
            self.written = self.out.write_all(text.as_bytes());
        }
    }

    /// Writes a number in decimal, after a text.
    pub fn number(&mut self, before: &str, number: usize) {
        self.text(before);
        self.text(Buffer::new().format(number));
    }

    /// Writes a word in hexadecimal, in 8 digits, after a text.
    pub fn word(&mut self, before: &str, word: u32) {
        self.text(before);
        self.text(hexadecimal_digits(8, word).as_str());
    }

    /// The error of the write that failed, if one did.
    pub fn finish(self) -> io::Result<()> {
        self.written
    }
}
