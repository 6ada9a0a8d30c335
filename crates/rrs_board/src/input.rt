//! The input of a board: what is asked for a byte, and says whether one came.

ghost use Rattle.std.specs.Prelude.{◌≡◌, false};
ghost use Rattle.std.specs.Io.{ReadsAtMost};
ghost use Rattle.std.specs.Io.KnownBytes.{ReadConsumes};
ghost use Rattle.rrs_board.specs.Inputs.{Answers, Gives, Reads};

use std::io::{self, ErrorKind, Read};

/// How long an input that is asked for a byte may wait for one, of the host's time.
#[derive(Debug, PartialEq, Clone, Copy)]
pub enum Patience {
    /// Not at all: the hart looks, and goes on.
    AtOnce,
    /// A millisecond: the hart waits, and an alarm can end that.
    Millisecond,
    /// Without limit: the hart waits, and input alone can end that.
    Endless,
}

/// What an input that is asked for a byte says.
#[derive(Debug, PartialEq, Clone, Copy)]
pub enum InputAnswer {
    /// This byte came.
    Byte(u8),
    /// None came, and one may yet.
    Nothing,
    /// None came, and none will.
    Ended,
    /// The input can't be read.
    Failed,
}

/// What is typed at a board. It is asked for one byte at a time.
pub trait BoardInput {
    ghost use Rattle.std.specs.Prelude.{ℕ, List, Option};
    ghost use Rattle.rrs_board.specs.declared.input.Patience.{Patience as ThePatience};
    ghost use Rattle.rrs_board.specs.declared.input.InputAnswer.{InputAnswer as TheAnswer};

    /// The bytes that are still to come, where they are known.
    ghost remaining: { Self → Option (List ℕ) };

    /// That the input was asked with this patience and said this, by what it was before and after
    /// that.
    ghost says: { Self → ThePatience → TheAnswer → Self → Type 0 };

    /// Asks for a byte. An input that can't say at once whether it has one may wait longer.
    fn ask(&mut self, patience: Patience) -> InputAnswer
        ensures said { says self.old patience result self.new }
        ensures bytes { Gives result (remaining self.old) (remaining self.new) };
}

/// What is read byte by byte: a reader, or what says more of its reads than the contract of std's
/// `Read` does.
pub trait ByteSource {
    ghost use Rattle.std.specs.Prelude.{ℕ, List, Option, Result};
    ghost use Rattle.std.specs.declared.io.Error.{Error};
    ghost use Rattle.rrs_board.specs.declared.input.Patience.{Patience as ThePatience};

    /// The bytes that are still to come, where they are known.
    ghost remaining: { Self → Option (List ℕ) };

    /// That one read was made with this patience and gave this, by the source before and after it.
    ghost reads: { Self → ThePatience → Result (Option ℕ) Error → Self → Type 0 };

    /// Reads once, and gives a byte, or `None` at the end. An error of the kind
    /// `ErrorKind::WouldBlock` says that none came yet.
    fn read_byte(&mut self, patience: Patience) -> io::Result<Option<u8>>
        ensures made { reads self.old patience result self.new }
        ensures bytes { Reads result (remaining self.old) (remaining self.new) };
}

/// A reader is read with a buffer of one byte.
impl<R: Read> ByteSource for R {
    ghost remaining = { R.remaining };

    // The contract of `Read` has no word for a read that was made: only its bytes are told.
    ghost reads = { λ old patience result new. Reads result (R.remaining old) (R.remaining new) };

    fn read_byte(&mut self, patience: Patience) -> io::Result<Option<u8>> {
        let mut buffer = [0];
        let count = read_within(self, &mut buffer, patience)?;
        Ok((count != 0).then_some(buffer[0]))
    }
}

/// Reads once. The read waits for as long as the host makes it: to ask whether it would wait a
/// program needs a handle on waiting, and none is allowed here.
fn read_within<R: Read>(reader: &mut R, buffer: &mut [u8], patience: Patience) -> io::Result<usize>
    ensures bound { ReadsAtMost result buffer.new }
    ensures bytes { ReadConsumes (R.remaining reader.old) (R.remaining reader.new) result
        buffer.new }
{
    let _ = patience;
    reader.read(buffer)
}

/// A source of bytes, such as a reader, as the input of a board. A read of no byte is the end, one
/// that would block says that nothing came, and one that is interrupted is made again.
#[derive(Drop)]
pub struct Typed<R> {
    /// The source.
    pub reader: R,
    /// Whether each read waits for a byte or the end, however much patience is asked for.
    pub waits: bool,
}

impl<R> Typed<R> {
    /// A reader that waits no longer than it is asked to.
    pub fn new(reader: R) -> Typed<R>
        ensures { result ≡ record { reader = reader; waits = false } }
    {
        Typed {
            reader,
            waits: false,
        }
    }
}

impl<R: ByteSource> BoardInput for Typed<R> {
    ghost use Rattle.rrs_board.specs.Inputs.{ReaderSays};

    ghost remaining = { λ typed. R.remaining typed.reader };

    ghost says = { ReaderSays R.reads R.remaining };

    fn ask(&mut self, patience: Patience) -> InputAnswer {
        let patience = if self.waits {
            Patience::Endless
        } else {
            patience
        };
        ask_source(&mut self.reader, patience)
    }
}

/// Reads, again where a read is interrupted, and gives the answer of the read that is not.
fn ask_source<R: ByteSource>(source: &mut R, patience: Patience) -> InputAnswer
    ensures answers { Answers R.reads patience source.old result source.new }
    ensures bytes { Gives result (R.remaining source.old) (R.remaining source.new) }
{
    let mut interrupted = 0;
    while interrupted < u64::MAX {
        match source.read_byte(patience) {
            Ok(Some(byte)) => return InputAnswer::Byte(byte),
            Ok(None) => return InputAnswer::Ended,
            Err(error) => match error.kind() {
                ErrorKind::Interrupted => interrupted += 1,
                ErrorKind::WouldBlock => return InputAnswer::Nothing,
                _ => return InputAnswer::Failed,
            },
        }
    }
    InputAnswer::Failed
}
