//! Text that is written piece by piece.

ghost use Rattle.std.specs.Prelude.{◌≤◌};

use crate::names::ShownName;
use itoa::Buffer;
use rrs_lib::disassembly::hexadecimal_digits;
use std::io::{self, Write};

/// What pieces of text are written to. Behind a write that fails nothing more is written.
#[derive(Drop)]
pub struct Pieces<'a, W: Write> {
    pub(crate) out: &'a mut W,
    /// What the writes gave up to now: the error of the one that failed, if one did.
    pub(crate) written: io::Result<()>,
}

impl<'a, W: Write> Pieces<'a, W> {
    ghost use Rattle.std.specs.Prelude.{◌++◌};
    ghost use Rattle.rrs_reports.specs.Profiles.{Writes, WritesSome};
    ghost use Rattle.rrs_reports.specs.ShownNames.{shown_name};

    /// Pieces that a writer takes.
    pub fn new(out: &'a mut W) -> Pieces<'a, W> {
        Pieces {
            out,
            written: Ok(()),
        }
    }

    /// Writes bytes.
    fn bytes(&mut self, bytes: &[u8])
        ensures { Writes W.contents self.old bytes.now self.new }
    {
        if self.written.is_ok() {
            self.written = self.out.write_all(bytes);
        }
    }

    /// Writes a text.
    pub fn text(&mut self, text: &str)
        ensures { Writes W.contents self.old text.now self.new }
    {
        self.bytes(text.as_bytes());
    }

    /// Writes a name as it is shown.
    fn shown(&mut self, name: &[u8])
        ensures { Writes W.contents self.old (shown_name name.now) self.new }
    {
        if self.written.is_ok() {
            self.written = write!(self.out, "{}", ShownName { name });
        }
    }

    /// Writes a name as it is shown, which may be any bytes, between two texts.
    pub fn name(&mut self, before: &str, name: &[u8], behind: &str)
        ensures { Writes W.contents self.old
            (before.now ++ (shown_name name.now ++ behind.now)) self.new }
    {
        self.text(before);
        self.shown(name);
        self.text(behind);
    }

    /// Writes a number in decimal, after a text.
    pub fn number(&mut self, before: &str, number: u64)
        ensures { WritesSome W.contents self.old self.new }
    {
        self.text(before);
        self.text(Buffer::new().format(number));
    }

    /// Writes a word in hexadecimal, with zeros in front up to so many digits, after a text.
    pub fn hexadecimal(&mut self, before: &str, least: usize, word: u32)
        requires { least ≤ 8 }
        ensures { WritesSome W.contents self.old self.new }
    {
        self.text(before);
        self.text(hexadecimal_digits(least, word).as_str());
    }

    /// Writes a text, and spaces in front of it up to a width.
    pub fn right(&mut self, width: usize, text: &str) {
        self.spaces(width, text);
        self.text(text);
    }

    /// Writes a text, and spaces after it up to a width.
    pub fn left(&mut self, width: usize, text: &str) {
        self.text(text);
        self.spaces(width, text);
    }

    /// Writes the spaces that a text needs up to a width.
    fn spaces(&mut self, width: usize, text: &str) {
        for _ in text.len()..width {
            self.text(" ");
        }
    }

    /// Writes a number in decimal, with spaces in front of it up to a width, and a text after it.
    pub fn column(&mut self, width: usize, number: u64, behind: &str) {
        self.right(width, Buffer::new().format(number));
        self.text(behind);
    }

    /// The error of the write that failed, if one did.
    pub fn finish(self) -> io::Result<()> {
        self.written
    }
}
