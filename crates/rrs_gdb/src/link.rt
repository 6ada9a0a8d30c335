//! The two streams of a session.

ghost use Rattle.std.specs.Prelude.{◌≡◌, ◌≢◌, ◌∷◌, ◌++◌, ◌<◌, ℕ, List, [], OnOk, IfOk, IfSome, MatchOption, Some, length, take, nat_lt, codes, false, true};
ghost use Rattle.std.specs.Io.KnownBytes.{Appends, Consumes, Keeps};
ghost use Rattle.rrs_gdb.specs.declared.link.Received.{Received};
ghost use Rattle.rrs_gdb.specs.Packets.{before, behind, ComesTo, IsFrame, IsMeaning, Receives, Waits, packet, since_last};
ghost use Rattle.rrs_gdb.specs.Shown.{Exchanges, Prints, output_packet};

use crate::framing::{PacketError, decode, encode, push_bytes};
use std::alloc::{AllocError, AllocFailed, Global};
use std::io::{Read, Write};

/// The most bytes between `$` and `#` that are read: 16 KiB, as `qSupported` says.
pub(crate) const PACKET_BYTES: usize = 0x4000;

/// The most bytes of output in a packet.
const OUTPUT_BYTES: usize = 2048;

/// Why a session can't go on.
#[derive(Debug, PartialEq, Clone, Copy)]
pub enum LinkError {
    /// Out of memory.
    OutOfMemory,
    /// A write failed.
    Output,
}

impl From<AllocError> for LinkError {
    fn from(_error: AllocError) -> LinkError {
        LinkError::OutOfMemory
    }
}

impl From<AllocFailed<u8>> for LinkError {
    fn from(_error: AllocFailed<u8>) -> LinkError {
        LinkError::OutOfMemory
    }
}

/// What was received.
#[derive(Drop)]
pub enum Received {
    /// A packet with this payload.
    Packet(Vec<u8>),
    /// A packet that is no good: longer than said, cut off, or, where nothing is acknowledged, with
    /// a wrong sum.
    Bad,
    /// The end of the input.
    End,
}

/// The two streams of a session: packets come from the reader, and go to the writer.
#[derive(Drop)]
pub struct Link<R, W> {
    /// Where memory comes from.
    pub alloc: Global,
    /// The reader.
    reader: R,
    /// The writer.
    writer: W,
    /// Whether packets are acknowledged.
    pub acknowledges: bool,
    /// The packet that was sent last.
    last: Vec<u8>,
}

impl<R, W> Link<R, W> {
    /// The two streams, on which packets are acknowledged.
    pub fn new(alloc: Global, reader: R, writer: W) -> Link<R, W>
        ensures acknowledges { result.acknowledges ≡ true }
        ensures last { result.last.items ≡ [] }
        ensures reader { result.reader ≡ reader }
        ensures writer { result.writer ≡ writer }
    {
        Link {
            alloc,
            reader,
            writer,
            acknowledges: true,
            last: Vec::new(alloc),
        }
    }
}

/// The next byte of a reader, if it has one. A read that fails is an end.
fn next_byte<R: Read>(reader: &mut R) -> Option<u8>
    ensures { MatchOption result (Keeps (R.remaining reader.old) (R.remaining reader.new)) (λ byte.
        Consumes (R.remaining reader.old) (R.remaining reader.new) (byte ∷ [])) }
{
    let mut byte = [0_u8; 1];
    match reader.read(&mut byte) {
        Ok(0) | Err(_) => None,
        Ok(_) => Some(byte[0]),
    }
}

/// The bytes of a packet after its `$`: those up to `#`, and the two digits.
#[derive(Drop)]
struct Frame {
    /// The bytes, as far as a packet may have them.
    bytes: Vec<u8>,
    /// The digits.
    digits: [u8; 2],
    /// Whether there were more.
    is_long: bool,
}

/// The two digits of a packet.
fn read_digits<R: Read>(reader: &mut R) -> Option<[u8; 2]>
    ensures { MatchOption result ((read : List ℕ) × (length read < 2)
        × Consumes (R.remaining reader.old) (R.remaining reader.new) read) (λ digits.
        Consumes (R.remaining reader.old) (R.remaining reader.new) digits) }
{
    let high = next_byte(reader)?;
    let low = next_byte(reader)?;
    Some([high, low])
}

/// The bytes of a packet after its `$` and up to its `#`, which is read too, and whether there were
/// more than a packet may have; `None` at the end of the input. A `$` begins another packet.
fn read_bytes<R: Read>(alloc: Global, reader: &mut R) -> Result<Option<(Vec<u8>, bool)>, AllocError>
    ensures { IfOk result (λ found. MatchOption found ((bytes : List ℕ)
        × Consumes (R.remaining reader.old) (R.remaining reader.new) bytes
        × (before 35 bytes ≡ bytes)) (λ kept. (bytes : List ℕ)
        × Consumes (R.remaining reader.old) (R.remaining reader.new) (bytes ++ 35 ∷ [])
        × (before 35 bytes ≡ bytes)
        × (kept.0.items ≡ take 16384 (since_last 36 [] bytes))
        × (kept.1 ≡ nat_lt 16384 (length (since_last 36 [] bytes))))) }
{
    let mut bytes = Vec::new(alloc);
    let mut is_long = false;
    for _ in 0..u64::MAX {
        let Some(byte) = next_byte(reader) else {
            return Ok(None);
        };
        match byte {
            b'#' => return Ok(Some((bytes, is_long))),
            b'$' => {
                bytes.clear();
                is_long = false;
            }
            _ if bytes.len() < PACKET_BYTES => bytes.push(byte)?,
            _ => is_long = true,
        }
    }
    Ok(None)
}

/// A packet after its `$`, from a reader; `None` at the end of the input.
fn read_frame<R: Read>(alloc: Global, reader: &mut R) -> Result<Option<Frame>, AllocError>
    ensures { IfOk result (λ found. MatchOption found ((read : List ℕ)
        × Consumes (R.remaining reader.old) (R.remaining reader.new) read
        × (length (behind 35 read) < 2)) (λ frame. (read : List ℕ)
        × Consumes (R.remaining reader.old) (R.remaining reader.new) read × IsFrame read frame)) }
{
    let Some((bytes, is_long)) = read_bytes(alloc, reader)? else {
        return Ok(None);
    };
    match read_digits(reader) {
        Some(digits) => Ok(Some(Frame {
            bytes,
            digits,
            is_long,
        })),
        None => Ok(None),
    }
}

/// Writes bytes at once.
fn write_at_once<W: Write>(writer: &mut W, bytes: &[u8]) -> Result<(), LinkError>
    ensures { OnOk result (Appends (W.contents writer.old) (W.contents writer.new) bytes.now) }
{
    if writer.write_all(bytes).is_err() {
        return Err(LinkError::Output);
    }
    match writer.flush() {
        Ok(()) => Ok(()),
        Err(_) => Err(LinkError::Output),
    }
}

impl<R: Read, W: Write> Link<R, W> {
    /// Sends a payload: its packet is written, after what was written before (`sent`), and kept,
    /// so that a `-` has it sent again (`last`).
    ///
    /// # Errors
    ///
    /// Out of memory, and a write that fails.
    pub fn send(&mut self, payload: &[u8]) -> Result<(), LinkError>
        ensures sent { OnOk result (Appends (W.contents self.old.writer) (W.contents self.new.writer)
            (packet payload.now)) }
        ensures last { OnOk result (self.new.last.items ≡ packet payload.now) }
        ensures reader { self.new.reader ≡ self.old.reader }
        ensures acknowledges { self.new.acknowledges ≡ self.old.acknowledges }
    {
        let frame = encode(self.alloc, payload)?;
        write_at_once(&mut self.writer, &frame)?;
        self.last = frame;
        Ok(())
    }

    /// Sends a part of the output of a program.
    fn send_part(&mut self, part: &[u8]) -> Result<(), LinkError>
        ensures sent { OnOk result (Appends (W.contents self.old.writer) (W.contents self.new.writer)
            (output_packet part.now)) }
        ensures reader { self.new.reader ≡ self.old.reader }
        ensures acknowledges { self.new.acknowledges ≡ self.old.acknowledges }
    {
        let mut payload = Vec::new(self.alloc);
        payload.push(b'O')?;
        push_bytes(&mut payload, part)?;
        self.send(&payload)
    }

    /// Sends output of a program: all of it, in order, in `O` packets (`sent`).
    ///
    /// # Errors
    ///
    /// Out of memory, and a write that fails.
    pub fn send_output(&mut self, bytes: &[u8]) -> Result<(), LinkError>
        ensures sent { OnOk result (Prints W.contents self.old self.new bytes.now) }
        ensures reader { self.new.reader ≡ self.old.reader }
        ensures acknowledges { self.new.acknowledges ≡ self.old.acknowledges }
    {
        let mut rest = bytes;
        'parts: while !rest.is_empty() {
            let (part, others) = rest.split_at(rest.len().min(OUTPUT_BYTES));
            self.send_part(part)?;
            rest = others;
        }
        Ok(())
    }

    /// Acknowledges a packet, or asks for it again.
    fn acknowledge(&mut self, is_good: bool) -> Result<(), LinkError>
        ensures silent { self.old.acknowledges ≡ false → self.new ≡ self.old }
        ensures good { self.old.acknowledges ≡ true → is_good ≡ true → OnOk result
            (Appends (W.contents self.old.writer) (W.contents self.new.writer) (codes "+")) }
        ensures bad { self.old.acknowledges ≡ true → is_good ≡ false → OnOk result
            (Appends (W.contents self.old.writer) (W.contents self.new.writer) (codes "-")) }
        ensures reader { self.new.reader ≡ self.old.reader }
        ensures last { self.new.last ≡ self.old.last }
        ensures acknowledges { self.new.acknowledges ≡ self.old.acknowledges }
    {
        if !self.acknowledges {
            return Ok(());
        }
        write_at_once(&mut self.writer, if is_good { b"+" } else { b"-" })
    }

    /// What a frame is; `None` where it is to be asked for again.
    fn meaning(&self, frame: &Frame) -> Result<Option<Received>, LinkError>
        ensures { IfOk result (λ received. IsMeaning self.now.acknowledges frame.now received) }
    {
        if frame.is_long {
            return Ok(Some(Received::Bad));
        }
        match decode(self.alloc, &frame.bytes, &frame.digits) {
            Ok(payload) => Ok(Some(Received::Packet(payload))),
            Err(PacketError::OutOfMemory) => Err(LinkError::OutOfMemory),
            Err(PacketError::WrongSum) if self.acknowledges => Ok(None),
            Err(_) => Ok(Some(Received::Bad)),
        }
    }

    /// What comes after a `$`; `None` where it is asked for again.
    fn packet(&mut self) -> Result<Option<Received>, LinkError>
        ensures received { IfOk result (λ found. found ≢ Some Received.End
            → Exchanges R.remaining W.contents self.old self.new (λ read written. ComesTo
            self.old.acknowledges self.old.last.items found (36 ∷ read) written)) }
        ensures ended { IfOk result (λ found. found ≡ Some Received.End
            → Exchanges R.remaining W.contents self.old self.new (λ read written. Waits
            self.old.acknowledges self.old.last.items (36 ∷ read) written)) }
        ensures last { self.new.last ≡ self.old.last }
        ensures acknowledges { self.new.acknowledges ≡ self.old.acknowledges }
    {
        let Some(frame) = read_frame(self.alloc, &mut self.reader)? else {
            return Ok(Some(Received::End));
        };
        let received = self.meaning(&frame)?;
        self.acknowledge(received.is_some())?;
        Ok(received)
    }

    /// What comes of a byte before a packet: a `$` begins one, a `-` has the last one sent again,
    /// and another is skipped.
    fn begin(&mut self, byte: u8) -> Result<Option<Received>, LinkError>
        ensures received { IfOk result (λ found. found ≢ Some Received.End
            → Exchanges R.remaining W.contents self.old self.new (λ read written. ComesTo
            self.old.acknowledges self.old.last.items found (byte ∷ read) written)) }
        ensures ended { IfOk result (λ found. found ≡ Some Received.End
            → Exchanges R.remaining W.contents self.old self.new (λ read written. Waits
            self.old.acknowledges self.old.last.items (byte ∷ read) written)) }
        ensures last { self.new.last ≡ self.old.last }
        ensures acknowledges { self.new.acknowledges ≡ self.old.acknowledges }
    {
        match byte {
            b'$' => self.packet(),
            b'-' => {
                write_at_once(&mut self.writer, &self.last)?;
                Ok(None)
            }
            _ => Ok(None),
        }
    }

    /// The next packet. What lies between two packets is skipped; a `-` there has the last packet
    /// sent again. A read that fails is the end of the input.
    ///
    /// The clauses: the packet is that of the bytes that were read, and what is written meanwhile
    /// are acknowledgments and the last packet, as they were asked for (`received`). Where the input
    /// ends, the bytes that were read have no whole packet (`ended`).
    ///
    /// # Errors
    ///
    /// Out of memory, and a write that fails.
    pub fn receive(&mut self) -> Result<Received, LinkError>
        ensures received { IfOk result (λ received. received ≢ Received.End
            → Exchanges R.remaining W.contents self.old self.new (Receives
            self.old.acknowledges self.old.last.items received)) }
        ensures ended { IfOk result (λ received. received ≡ Received.End
            → Exchanges R.remaining W.contents self.old self.new (Waits
            self.old.acknowledges self.old.last.items)) }
        ensures last { self.new.last ≡ self.old.last }
        ensures acknowledges { self.new.acknowledges ≡ self.old.acknowledges }
    {
        for _ in 0..u64::MAX {
            let Some(byte) = next_byte(&mut self.reader) else {
                return Ok(Received::End);
            };
            if let Some(received) = self.begin(byte)? {
                return Ok(received);
            }
        }
        Ok(Received::End)
    }
}
