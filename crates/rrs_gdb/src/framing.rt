//! Packets: `$`, the payload, `#`, and two digits of the sum of the bytes between.

ghost use Rattle.std.specs.Prelude.{◌≡◌, ◌<◌, ◌++◌, ◌∷◌, ◌⊎◌, ℕ, List, Some, None, option_map, MatchResult, IfOk, IfErr, OnOk, slice_index, IsTrue, ◌↔◌};
ghost use Rattle.hex.specs.Hex.{lower_digits};
ghost use Rattle.rrs_gdb.specs.Shown.{text_of};
ghost use Rattle.rrs_gdb.specs.Packets.{digits_of, checksum, is_special, escaped_byte, escaped, packet, unescaped, unescaped_from, HasSum, Refuses};

use hex::FromHex;
use std::alloc::{AllocError, Global};

/// Why bytes are no packet.
#[derive(Debug, PartialEq, Clone, Copy)]
pub enum PacketError {
    /// The digits are not those of the sum of the bytes, modulo 256.
    WrongSum,
    /// The bytes end with a `}`, after which a byte is missing.
    CutOff,
    /// Out of memory.
    OutOfMemory,
}

/// The digits in lower case.
const DIGITS: &[u8; 16] = b"0123456789abcdef";

/// Whether a byte of a payload is sent as two.
fn is_special(byte: u8) -> bool
    ensures { result ≡ is_special byte }
{
    matches!(byte, b'#' | b'$' | b'*' | b'}')
}

/// The digit of a number below 16.
fn digit_of(value: u8) -> u8
    requires { value < 16 }
    ensures { result ≡ slice_index lower_digits value }
{
    DIGITS[value as usize]
}

/// Appends a byte as two digits, the high four bits first.
///
/// # Errors
///
/// Out of memory.
pub fn push_hex(text: &mut Vec<u8>, byte: u8) -> Result<(), AllocError>
    ensures { OnOk result (text.new.items ≡ text.old.items ++ digits_of byte) }
{
    text.extend_from_slice(&[digit_of(byte / 16), digit_of(byte % 16)])
}

/// Appends bytes in hexadecimal, as packets have them: two digits for each.
///
/// # Errors
///
/// Out of memory. Some of the digits may be appended then.
pub fn push_bytes(reply: &mut Vec<u8>, bytes: &[u8]) -> Result<(), AllocError>
    ensures { OnOk result (reply.new.items ≡ reply.old.items ++ text_of bytes.now) }
{
    for byte in bytes {
        push_hex(reply, *byte)?;
    }
    Ok(())
}

/// The sum of bytes, modulo 256.
fn checksum(bytes: &[u8]) -> u8
    ensures { result ≡ checksum bytes.now }
{
    let mut sum = 0_u8;
    for byte in bytes {
        sum = sum.wrapping_add(*byte);
    }
    sum
}

/// Appends a byte of a payload as it is sent.
fn push_escaped(frame: &mut Vec<u8>, byte: u8) -> Result<(), AllocError>
    ensures { OnOk result (frame.new.items ≡ frame.old.items ++ escaped_byte byte) }
{
    if is_special(byte) {
        frame.push(b'}')?;
        frame.push(byte ^ 0x20)?;
    } else {
        frame.push(byte)?;
    }
    Ok(())
}

/// The bytes of a payload as they are sent.
fn escape(alloc: Global, payload: &[u8]) -> Result<Vec<u8>, AllocError>
    ensures { IfOk result (λ bytes. bytes.items ≡ escaped payload.now) }
{
    let mut bytes = Vec::new(alloc);
    for byte in payload {
        push_escaped(&mut bytes, *byte)?;
    }
    Ok(bytes)
}

/// The packet of a payload.
///
/// # Errors
///
/// Out of memory.
pub fn encode(alloc: Global, payload: &[u8]) -> Result<Vec<u8>, AllocError>
    ensures { IfOk result (λ frame. frame.items ≡ packet payload.now) }
{
    let bytes = escape(alloc, payload)?;
    let sum = checksum(&bytes);
    let mut frame = Vec::new(alloc);
    frame.push(b'$')?;
    frame.extend_from_slice(&bytes)?;
    frame.push(b'#')?;
    push_hex(&mut frame, sum)?;
    Ok(frame)
}

/// Takes a byte that is received, after a `}` or not, and returns whether it is a `}` that turns
/// the next one.
fn take_byte(payload: &mut Vec<u8>, is_behind: bool, byte: u8) -> Result<bool, PacketError>
    ensures taken { IfOk result (λ is_next. (bytes : List ℕ)
        → option_map (λ rest. payload.old.items ++ rest) (unescaped_from is_behind (byte ∷ bytes))
        ≡ option_map (λ rest. payload.new.items ++ rest) (unescaped_from is_next bytes)) }
    ensures error { IfErr result (λ error. error ≡ PacketError.OutOfMemory) }
{
    if !is_behind && byte == b'}' {
        return Ok(true);
    }
    let meant = if is_behind { byte ^ 0x20 } else { byte };
    match payload.push(meant) {
        Ok(()) => Ok(false),
        Err(_) => Err(PacketError::OutOfMemory),
    }
}

/// The payload that bytes between `$` and `#` stand for.
fn unescape(alloc: Global, bytes: &[u8]) -> Result<Vec<u8>, PacketError>
    ensures payload { IfOk result (λ payload. unescaped bytes.now ≡ Some payload.items) }
    ensures error { IfErr result (λ error. (error ≡ PacketError.OutOfMemory)
        ⊎ ((error ≡ PacketError.CutOff) × (unescaped bytes.now ≡ None))) }
{
    let mut payload = Vec::new(alloc);
    let mut is_behind = false;
    for byte in bytes {
        is_behind = take_byte(&mut payload, is_behind, *byte)?;
    }
    if is_behind {
        return Err(PacketError::CutOff);
    }
    Ok(payload)
}

/// Whether digits are those of the sum of bytes.
fn has_sum(bytes: &[u8], digits: &[u8]) -> bool
    ensures { IsTrue result ↔ HasSum bytes.now digits.now }
{
    match <[u8; 1] as FromHex>::from_hex(digits) {
        Ok(sums) => sums == [checksum(bytes)],
        Err(_) => false,
    }
}

/// The payload of a packet, by the bytes between its `$` and its `#`, and the two digits after.
///
/// It is the inverse of [encode]: of the bytes and the digits of a packet that [encode] made it is
/// the payload (`inverse`).
///
/// # Errors
///
/// `PacketError::WrongSum` where the digits are not those of the sum of the bytes, and else
/// `PacketError::CutOff` where a `}` is the last byte; out of memory.
pub fn decode(alloc: Global, bytes: &[u8], digits: &[u8]) -> Result<Vec<u8>, PacketError>
    ensures sum { IfOk result (λ payload. HasSum bytes.now digits.now) }
    ensures payload { IfOk result (λ payload. unescaped bytes.now ≡ Some payload.items) }
    ensures refused { IfErr result (λ error. Refuses error bytes.now digits.now) }
    ensures inverse { (payload : List ℕ) → bytes.now ≡ escaped payload
        → digits.now ≡ digits_of (checksum (escaped payload))
        → MatchResult result (λ made. made.items ≡ payload)
        (λ error. error ≡ PacketError.OutOfMemory) }
{
    if !has_sum(bytes, digits) {
        return Err(PacketError::WrongSum);
    }
    match unescape(alloc, bytes) {
        Ok(payload) => Ok(payload),
        Err(error) => Err(error),
    }
}
