//! The packets of a session, and their answers.

ghost use Rattle.std.specs.Prelude.{◌≡◌, ◌≢◌, ◌⊎◌, ◌∷◌, ◌++◌, [], ℕ, ◌<◌, ◌≤◌, ◌-◌, ◌^◌, Bool, List, Ok, Some, None, IsOk, IsTrue, IfOk, IfSome, IfNone, MatchOption, OnOk, drop, length, option_map, slice_index, codes, map, string_bytes, false, true};
ghost use Rattle.std.specs.Bool.{OnTrue, OnFalse};
ghost use Rattle.std.specs.Io.KnownBytes.{Appends};
ghost use Rattle.std.specs.Str.{IsUtf8};
ghost use Rattle.hex.specs.Hex.{decode_of, decode_sized};
ghost use Rattle.rrs_lib.specs.Bytes.{ByteMap};
ghost use Rattle.rrs_lib.specs.Machine.{state_of};
ghost use Rattle.rrs_lib.specs.Executor.{state_in};
ghost use Rattle.rrs_linux.specs.Recording.{Recording};
ghost use Rattle.rrs_gdb.specs.declared.session.Going.{Going};
ghost use Rattle.rrs_gdb.specs.declared.session.Next.{Next};
ghost use Rattle.rrs_gdb.specs.declared.session.SessionEnd.{SessionEnd};
ghost use Rattle.rrs_gdb.specs.Answers.{BeginsBy, Goes, HasSubject, IsDone, Leaves, Means, Sets, Shows, moment};
ghost use Rattle.rrs_gdb.specs.Sessions.{letter, debugged, Acts, Serves, Turn, CatchesOrStays, Manages, NamedBy, Tells, end_behind, BreaksKept, EndsBy, EndsNone, Monitors, BySignal, HasNoSignal, HasSignal, IsSignal, Signals, BreaksNone, GoesBy, GoesOnFrom, GoesOnOrStays, ForgetsOrStays, HasAction, HasLetter, HasRegisters, Most, Resumes, SetsRegisters, around, asked_by, has_ended, one_step, up_to, ChangesMemory, ChangesNone, ChangesRegister, IsError, MemoryKept, PlacesKept, RegistersKept, RemovesBreak, RunsNone, SessionGoesBack, SessionKept, SettingsKept, IsChangeable, SetsBreak, SetsBytes, SetsMemory, SetsRegister, ShowsBytes, ShowsMemory, ShowsRegister};
ghost use Rattle.rrs_gdb.specs.Packets.{AreTexts, IsNumber, number, before, behind, packet};
ghost use Rattle.rrs_gdb.specs.Shown.{Requests, registers_text, stop_text, with_register, word_at};

use crate::breaks::{Breaks, break_of};
use crate::contents::{read_memory, write_memory};
use crate::framing::push_bytes;
use crate::link::{Link, LinkError, Received};
use crate::numbers::{address_and_length, behind, cut_or_all, number_of, place_and_bytes};
use crate::queries::{BAD_ADDRESS, INVALID, NO_MEMORY, catch_calls, query};
use crate::registers::{push_register, push_registers, word_at, write_register, write_registers};
use crate::resume::{INTERRUPTED, TRAPPED, backward, forward};
use crate::runner::StopRunner;
use crate::state::{SessionState, Stop, push_stop, push_text};
use crate::target::TARGET;
use hex::{FromHex, FromHexError};
use rrs_lib::instruction_executor::InstructionExecutor;
use rrs_lib::{HartState, Memory};
use rrs_linux::OutputRecorder;
use std::alloc::{AllocError, Global};
use std::io::{Read, Write};
use std::str;

/// How a session ended.
#[derive(Clone, Copy, Debug, PartialEq)]
pub enum SessionEnd {
    /// gdb ended it, or its packets ended.
    Ended,
    /// The program is to begin again.
    Restart,
}

/// What follows a packet.
#[derive(Clone, Copy, Debug, PartialEq)]
pub enum Next {
    /// The answer is sent.
    Reply,
    /// The answer is sent, and the session ends.
    ReplyAndEnd,
    /// The session ends.
    End,
    /// The program begins again.
    Restart,
}

/// How the program is to go on.
#[derive(Clone, Copy)]
enum Going {
    /// By a step.
    Step,
    /// To a stop.
    Proceed,
    /// It gets this signal.
    Killed(u8),
}

/// What a packet is about, by its letter.
#[derive(Clone, Copy)]
enum Subject {
    /// `g`, `p` and `m`: the machine is shown.
    Shown,
    /// `G`, `P`, `M` and `X`: the machine is changed.
    Changed,
    /// `c`, `C`, `s` and `S`: the program goes on.
    Run,
    /// `v`: what its name says.
    Named,
    /// `b`: the program goes back.
    Back,
    /// `Z` and `z`: breakpoints and watchpoints.
    Breaks,
    /// `q`: questions, and settings.
    Query,
    /// Another letter: the session.
    Session,
}

/// Appends the answer of a change that is done, or can't be.
///
/// # Errors
///
/// Out of memory.
pub fn push_done(reply: &mut Vec<u8>, is_done: bool, error: &[u8]) -> Result<(), AllocError>
    requires { slice_index error.now 0 ≡ 69 }
    ensures done { OnOk result (OnTrue is_done (IsError reply.old.items reply.new.items → ⊥)) }
    ensures refused { OnOk result (OnFalse is_done (IsError reply.old.items reply.new.items)) }
{
    if is_done {
        return push_text(reply, b"OK");
    }
    push_text(reply, error)
}

/// `G`: changes all registers.
fn change_registers<M: Memory>(
    alloc: Global,
    executor: &mut InstructionExecutor<M>,
    digits: &[u8],
) -> Result<bool, AllocError>
    ensures kept { MemoryKept (state_in M.bytes M.writable executor.old)
        (state_in M.bytes M.writable executor.new) }
    ensures none { IfOk result (λ changed. OnFalse changed
        (state_in M.bytes M.writable executor.new ≡ state_in M.bytes M.writable executor.old)) }
    ensures set { IfOk result (λ changed. OnTrue changed ((bytes : List ℕ)
        × (decode_of digits.now ≡ Ok bytes) × (length bytes ≡ 132)
        × HasRegisters bytes (state_in M.bytes M.writable executor.new))) }
    ensures refused { IfOk result (λ changed. OnFalse changed
        ((bytes : List ℕ) → decode_of digits.now ≡ Ok bytes → length bytes ≢ 132)) }
{
    match hex::decode(alloc, digits) {
        Ok(bytes) => Ok(write_registers(executor.hart_state, &bytes)),
        Err(FromHexError::OutOfMemory) => Err(AllocError),
        Err(_) => Ok(false),
    }
}

/// The answer of a change that is done, or can't be, after whether it is.
fn outcome_of(is_done: bool, error: &'static [u8]) -> (bool, &'static [u8])
    requires { slice_index error.now 0 ≡ 69 }
    ensures same { result.0 ≡ is_done }
    ensures done { OnTrue is_done (IsError [] result.1.now → ⊥) }
    ensures refused { OnFalse is_done (IsError [] result.1.now) }
{
    (is_done, if is_done { b"OK" } else { error })
}

/// `G`: whether the machine is changed, and the answer.
fn set_registers<M: Memory>(
    alloc: Global,
    executor: &mut InstructionExecutor<M>,
    digits: &[u8],
) -> Result<(bool, &'static [u8]), AllocError>
    ensures kept { MemoryKept (state_in M.bytes M.writable executor.old)
        (state_in M.bytes M.writable executor.new) }
    ensures done { IfOk result (λ outcome. IsDone outcome.0
        (state_in M.bytes M.writable executor.old) (state_in M.bytes M.writable executor.new)
        [] outcome.1.now) }
    ensures set { IfOk result (λ outcome. SetsRegisters digits.now
        (state_in M.bytes M.writable executor.old) (state_in M.bytes M.writable executor.new)
        [] outcome.1.now) }
{
    let is_changed = change_registers(alloc, executor, digits)?;
    Ok(outcome_of(is_changed, INVALID))
}

/// Appends that a packet can't be understood.
fn push_invalid(reply: &mut Vec<u8>) -> Result<(), AllocError>
    ensures { OnOk result (IsError reply.old.items reply.new.items) }
{
    push_text(reply, INVALID)
}

/// `p`: shows a register.
fn show_register(hart: &HartState, reply: &mut Vec<u8>, digits: &[u8]) -> Result<(), AllocError>
    ensures { (bytes : ByteMap) (writable : ℕ → Bool) → OnOk result (ShowsRegister digits.now
        (state_of hart.now bytes writable) reply.old.items reply.new.items) }
{
    let Some(number) = number_of(digits) else {
        return push_invalid(reply);
    };
    if !push_register(hart, number, reply)? {
        push_invalid(reply)?;
    }
    Ok(())
}

/// The word of the eight digits of four bytes, the lowest first.
fn word_of(digits: &[u8]) -> Option<u32>
    ensures { MatchOption result (¬ IsOk (decode_sized digits.now 4)) (λ word. (bytes : List ℕ)
        × (decode_sized digits.now 4 ≡ Ok bytes) × (word ≡ word_at bytes 0)) }
{
    match <[u8; 4] as FromHex>::from_hex(digits) {
        Ok(bytes) => Some(word_at(&bytes, 0)),
        Err(_) => None,
    }
}

/// The number and the value of a `P`.
pub fn register_and_value(text: &[u8]) -> Option<(u32, u32)>
    ensures found { IfSome result (λ found. IsNumber (before 61 text.now)
        × (found.0 ≡ number (before 61 text.now)) × ((bytes : List ℕ)
        × (decode_sized (behind 61 text.now) 4 ≡ Ok bytes) × (found.1 ≡ word_at bytes 0))) }
    ensures none { IfNone result (IsNumber (before 61 text.now)
        → IsOk (decode_sized (behind 61 text.now) 4) → ⊥) }
{
    let (number, digits) = cut_or_all(text, b'=');
    Some((number_of(number)?, word_of(digits)?))
}

/// `P`: changes a register.
fn change_register<M: Memory>(executor: &mut InstructionExecutor<M>, text: &[u8]) -> bool
    ensures kept { MemoryKept (state_in M.bytes M.writable executor.old)
        (state_in M.bytes M.writable executor.new) }
    ensures none { OnFalse result (state_in M.bytes M.writable executor.new
        ≡ state_in M.bytes M.writable executor.old) }
    ensures set { OnTrue result (IsChangeable (before 61 text.now) × ((bytes : List ℕ)
        × (decode_sized (behind 61 text.now) 4 ≡ Ok bytes)
        × (state_in M.bytes M.writable executor.new
        ≡ with_register (state_in M.bytes M.writable executor.old)
        (number (before 61 text.now)) (word_at bytes 0)))) }
    ensures refused { OnFalse result (IsChangeable (before 61 text.now)
        → IsOk (decode_sized (behind 61 text.now) 4) → ⊥) }
{
    match register_and_value(text) {
        Some((number, value)) => write_register(executor.hart_state, number, value),
        None => false,
    }
}

/// `P`: whether the machine is changed, and the answer.
fn set_register<M: Memory>(
    executor: &mut InstructionExecutor<M>,
    text: &[u8],
) -> (bool, &'static [u8])
    ensures kept { MemoryKept (state_in M.bytes M.writable executor.old)
        (state_in M.bytes M.writable executor.new) }
    ensures done { IsDone result.0 (state_in M.bytes M.writable executor.old)
        (state_in M.bytes M.writable executor.new) [] result.1.now }
    ensures set { SetsRegister text.now
        (state_in M.bytes M.writable executor.old) (state_in M.bytes M.writable executor.new)
        [] result.1.now }
{
    let is_changed = change_register(executor, text);
    outcome_of(is_changed, INVALID)
}

/// Shows so many bytes from an address on.
fn show_bytes<M: Memory>(
    alloc: Global,
    executor: &mut InstructionExecutor<M>,
    reply: &mut Vec<u8>,
    address: u32,
    count: u32,
) -> Result<(), AllocError>
    ensures kept { state_in M.bytes M.writable executor.new
        ≡ state_in M.bytes M.writable executor.old }
    ensures shown { OnOk result (ShowsBytes (M.bytes executor.old.mem.now) address count
        reply.old.items reply.new.items) }
{
    let bytes = read_memory(alloc, executor.mem, address, count.min(0x1ff0))?;
    if bytes.is_empty() && count > 0 {
        return push_text(reply, BAD_ADDRESS);
    }
    push_bytes(reply, &bytes)
}

/// `m`: shows memory.
fn show_memory<M: Memory>(
    alloc: Global,
    executor: &mut InstructionExecutor<M>,
    reply: &mut Vec<u8>,
    place: &[u8],
) -> Result<(), AllocError>
    ensures kept { state_in M.bytes M.writable executor.new
        ≡ state_in M.bytes M.writable executor.old }
    ensures shown { OnOk result (ShowsMemory place.now (state_in M.bytes M.writable executor.old)
        reply.old.items reply.new.items) }
{
    match address_and_length(place) {
        Some((address, length)) => show_bytes(alloc, executor, reply, address, length),
        None => push_invalid(reply),
    }
}

/// `M` and `X`: changes memory to bytes, of which there are to be so many. The answer is whether it
/// is changed, and what is told.
fn change_memory<M: Memory>(
    executor: &mut InstructionExecutor<M>,
    address: u32,
    count: u32,
    bytes: &[u8],
) -> (bool, &'static [u8])
    ensures kept { RegistersKept (state_in M.bytes M.writable executor.old)
        (state_in M.bytes M.writable executor.new) }
    ensures done { IsDone result.0 (state_in M.bytes M.writable executor.old)
        (state_in M.bytes M.writable executor.new) [] result.1.now }
    ensures set { length bytes.now ≡ count → 1 ≤ length bytes.now
        → SetsBytes address bytes.now (state_in M.bytes M.writable executor.old)
        (state_in M.bytes M.writable executor.new) [] result.1.now }
    ensures none { bytes.now ≡ [] → state_in M.bytes M.writable executor.new
        ≡ state_in M.bytes M.writable executor.old }
    ensures refused { length bytes.now ≢ count → IsError [] result.1.now }
{
    if bytes.len() != count as usize {
        return (false, INVALID);
    }
    if bytes.is_empty() {
        return (false, b"OK");
    }
    let is_done = write_memory(executor.mem, address, bytes);
    outcome_of(is_done, BAD_ADDRESS)
}

/// `M`: whether the machine is changed, and the answer.
fn change_by_digits<M: Memory>(
    alloc: Global,
    executor: &mut InstructionExecutor<M>,
    text: &[u8],
) -> Result<(bool, &'static [u8]), AllocError>
    ensures kept { RegistersKept (state_in M.bytes M.writable executor.old)
        (state_in M.bytes M.writable executor.new) }
    ensures done { IfOk result (λ outcome. IsDone outcome.0
        (state_in M.bytes M.writable executor.old) (state_in M.bytes M.writable executor.new)
        [] outcome.1.now) }
    ensures set { IfOk result (λ outcome. (values : List ℕ)
        → decode_of (behind 58 text.now) ≡ Ok values
        → SetsMemory values text.now (state_in M.bytes M.writable executor.old)
        (state_in M.bytes M.writable executor.new) [] outcome.1.now) }
    ensures no_values { IfOk result (λ outcome. ¬ IsOk (decode_of (behind 58 text.now))
        → IsError [] outcome.1.now) }
{
    let Some((address, length, digits)) = place_and_bytes(text) else {
        return Ok((false, INVALID));
    };
    match hex::decode(alloc, digits) {
        Ok(bytes) => Ok(change_memory(executor, address, length, &bytes)),
        Err(FromHexError::OutOfMemory) => Err(AllocError),
        Err(_) => Ok((false, INVALID)),
    }
}

/// `X`: whether the machine is changed, and the answer.
fn change_by_bytes<M: Memory>(
    executor: &mut InstructionExecutor<M>,
    text: &[u8],
) -> (bool, &'static [u8])
    ensures kept { RegistersKept (state_in M.bytes M.writable executor.old)
        (state_in M.bytes M.writable executor.new) }
    ensures done { IsDone result.0 (state_in M.bytes M.writable executor.old)
        (state_in M.bytes M.writable executor.new) [] result.1.now }
    ensures set { SetsMemory (behind 58 text.now) text.now
        (state_in M.bytes M.writable executor.old) (state_in M.bytes M.writable executor.new)
        [] result.1.now }
{
    match place_and_bytes(text) {
        Some((address, length, bytes)) => change_memory(executor, address, length, bytes),
        None => (false, INVALID),
    }
}

/// `g`, `p` and `m`: shows the machine.
fn show<M: Memory>(
    alloc: Global,
    executor: &mut InstructionExecutor<M>,
    reply: &mut Vec<u8>,
    payload: &[u8],
) -> Result<(), AllocError>
    ensures kept { state_in M.bytes M.writable executor.new
        ≡ state_in M.bytes M.writable executor.old }
    ensures shown { OnOk result (Shows payload.now (state_in M.bytes M.writable executor.old)
        reply.old.items reply.new.items) }
{
    match payload {
        [b'g'] => push_registers(executor.hart_state, reply),
        [b'p', digits @ ..] => show_register(executor.hart_state, reply, digits),
        [b'm', place @ ..] => show_memory(alloc, executor, reply, place),
        _ => Ok(()),
    }
}

/// `G`, `P`, `M` and `X`: changes the machine. The answer is whether it is changed, and what is
/// told.
fn change<M: Memory>(
    alloc: Global,
    executor: &mut InstructionExecutor<M>,
    payload: &[u8],
) -> Result<(bool, &'static [u8]), AllocError>
    ensures registers { ChangesRegister payload.now
        → MemoryKept (state_in M.bytes M.writable executor.old)
        (state_in M.bytes M.writable executor.new) }
    ensures memory { ChangesMemory payload.now
        → RegistersKept (state_in M.bytes M.writable executor.old)
        (state_in M.bytes M.writable executor.new) }
    ensures done { IfOk result (λ outcome. IsDone outcome.0
        (state_in M.bytes M.writable executor.old) (state_in M.bytes M.writable executor.new)
        [] outcome.1.now) }
    ensures sets { IfOk result (λ outcome. Sets payload.now
        (state_in M.bytes M.writable executor.old) (state_in M.bytes M.writable executor.new)
        [] outcome.1.now) }
{
    match payload {
        [b'G', digits @ ..] => set_registers(alloc, executor, digits),
        [b'P', text @ ..] => Ok(set_register(executor, text)),
        [b'M', text @ ..] => change_by_digits(alloc, executor, text),
        [b'X', text @ ..] => Ok(change_by_bytes(executor, text)),
        _ => Ok((false, b"")),
    }
}

/// The same, and after a change the history is forgotten.
fn alter<M: Memory>(
    alloc: Global,
    state: &mut SessionState<'_>,
    executor: &mut InstructionExecutor<M>,
    reply: &mut Vec<u8>,
    payload: &[u8],
) -> Result<(), AllocError>
    ensures places { PlacesKept state.old state.new }
    ensures registers { ChangesRegister payload.now
        → MemoryKept (state_in M.bytes M.writable executor.old)
        (state_in M.bytes M.writable executor.new) }
    ensures memory { ChangesMemory payload.now
        → RegistersKept (state_in M.bytes M.writable executor.old)
        (state_in M.bytes M.writable executor.new) }
    ensures sets { OnOk result (Sets payload.now
        (state_in M.bytes M.writable executor.old) (state_in M.bytes M.writable executor.new)
        reply.old.items reply.new.items) }
    ensures forgets { OnOk result (ForgetsOrStays (state_in M.bytes M.writable executor.old)
        (state_in M.bytes M.writable executor.new) state.old state.new) }
    ensures error { OnOk result (IsError reply.old.items reply.new.items
        → (state_in M.bytes M.writable executor.new ≡ state_in M.bytes M.writable executor.old)
        × SessionKept state.old state.new) }
{
    let (is_changed, answer) = change(alloc, executor, payload)?;
    push_text(reply, answer)?;
    if !is_changed {
        return Ok(());
    }
    state.forget();
    Ok(())
}

/// `Z`: sets a breakpoint or a watchpoint.
fn set_break(breaks: &mut Breaks, text: &[u8]) -> &'static [u8]
    ensures sets { SetsBreak text.now breaks.old breaks.new [] result.now }
    ensures stops { IsError [] result.now → breaks.new.stops.items ≡ breaks.old.stops.items }
    ensures watches { IsError [] result.now → breaks.new.watches.items ≡ breaks.old.watches.items }
{
    let Some(place) = break_of(text) else {
        return INVALID;
    };
    match breaks.set(place) {
        Ok(()) => b"OK",
        Err(_) => NO_MEMORY,
    }
}

/// `z`: removes a breakpoint or a watchpoint.
fn remove_break(breaks: &mut Breaks, text: &[u8]) -> &'static [u8]
    ensures removes { RemovesBreak text.now breaks.old breaks.new [] result.now }
    ensures stops { IsError [] result.now → breaks.new.stops.items ≡ breaks.old.stops.items }
    ensures watches { IsError [] result.now → breaks.new.watches.items ≡ breaks.old.watches.items }
{
    let Some(place) = break_of(text) else {
        return INVALID;
    };
    breaks.remove(place);
    b"OK"
}

/// `Z` and `z`: sets or removes a breakpoint or a watchpoint.
fn change_breaks(
    state: &mut SessionState<'_>,
    reply: &mut Vec<u8>,
    payload: &[u8],
) -> Result<(), AllocError>
    ensures settings { SettingsKept state.old state.new }
    ensures error { OnOk result (IsError reply.old.items reply.new.items
        → BreaksKept state.old state.new) }
    ensures sets { letter payload.now ≡ 90 → OnOk result (SetsBreak (drop 1 payload.now)
        state.old.breaks state.new.breaks reply.old.items reply.new.items) }
    ensures removes { letter payload.now ≡ 122 → OnOk result (RemovesBreak (drop 1 payload.now)
        state.old.breaks state.new.breaks reply.old.items reply.new.items) }
{
    match payload {
        [b'Z', text @ ..] => push_text(reply, set_break(&mut state.breaks, text)),
        [b'z', text @ ..] => push_text(reply, remove_break(&mut state.breaks, text)),
        _ => Ok(()),
    }
}

/// How the program is to go on by an action of `vCont`, or by a packet of its own, with the address
/// after it. A signal that is not 0 kills the program.
fn going_of(action: &[u8]) -> Option<(Going, &[u8])>
    ensures letter { IfSome result (λ found. HasLetter action.now found.0) }
    ensures action { IfSome result (λ found. HasAction action.now found.0 found.1.now) }
    ensures signal { IfSome result (λ found. HasSignal action.now found.0 found.1.now) }
    ensures no_signal { IfNone result (HasNoSignal action.now) }
    ensures none { IfNone result ((letter action.now ≢ 115) × (letter action.now ≢ 99)) }
{
    let (going, rest) = match action {
        [b'c', rest @ ..] => (Going::Proceed, rest),
        [b's', rest @ ..] => (Going::Step, rest),
        [b'C', rest @ ..] => return signal_and_rest(rest, Going::Proceed),
        [b'S', rest @ ..] => return signal_and_rest(rest, Going::Step),
        _ => return None,
    };
    Some((going, rest))
}

/// The same after the letter of a packet with a signal.
fn signal_and_rest(text: &[u8], going: Going) -> Option<(Going, &[u8])>
    ensures going { IfSome result (λ found.
        (found.0 ≡ going) ⊎ ((signal : ℕ) × (found.0 ≡ Going.Killed signal))) }
    ensures signal { IfSome result (λ found. BySignal text.now going found.0 found.1.now) }
    ensures none { IfNone result (¬ IsSignal (before 59 text.now)) }
{
    let (signal, rest) = cut_or_all(text, b';');
    let signal = number_of(signal)?;
    if signal > 255 {
        return None;
    }
    Some(match signal {
        0 => (going, rest),
        _ => (Going::Killed(signal as u8), rest),
    })
}

/// Appends where the program stopped.
fn tell_stop(alloc: Global, reply: &mut Vec<u8>, stop: Stop) -> Result<Next, LinkError>
    ensures told { OnOk result (reply.new.items ≡ reply.old.items ++ stop_text stop) }
    ensures no_error { OnOk result (IsError reply.old.items reply.new.items → ⊥) }
    ensures reply { IfOk result (λ next. next ≡ Next.Reply) }
{
    push_stop(alloc, reply, stop)?;
    Ok(Next::Reply)
}

/// Has the program go on, and appends where it stops.
fn go<M: Memory, G: StopRunner<M>, R: Read, W: Write>(
    runner: &mut G,
    state: &mut SessionState<'_>,
    executor: &mut InstructionExecutor<M>,
    environment: &mut OutputRecorder<'_>,
    link: &mut Link<R, W>,
    reply: &mut Vec<u8>,
    going: Going,
) -> Result<Next, LinkError>
    ensures places { PlacesKept state.old state.new }
    ensures goes_on { OnOk result (GoesBy going (has_ended state.old) (asked_by state.old)
        state.old.settings.limit
        (around state.old environment.old) (state_in M.bytes M.writable executor.old)
        (around state.new environment.new) (state_in M.bytes M.writable executor.new)) }
    ensures told { OnOk result (reply.new.items ≡ reply.old.items ++ stop_text state.new.stop) }
    ensures error { OnOk result (IsError reply.old.items reply.new.items → ⊥) }
    ensures reply { IfOk result (λ next. next ≡ Next.Reply) }
    ensures acknowledges { link.new.acknowledges ≡ link.old.acknowledges }
{
    if state.has_ended() {
        return tell_stop(link.alloc, reply, state.stop);
    }
    let (limit, at_limit) = match going {
        Going::Step => (1, Stop::Signal(TRAPPED)),
        Going::Proceed => (state.settings.limit, Stop::Signal(INTERRUPTED)),
        Going::Killed(signal) => {
            state.stop = Stop::Killed(signal);
            return tell_stop(link.alloc, reply, state.stop);
        }
    };
    let stop = forward(runner, state, executor, environment, link, limit, at_limit)?;
    state.stop = stop;
    tell_stop(link.alloc, reply, stop)
}

/// Answers that a packet can't be understood.
fn refuse(reply: &mut Vec<u8>) -> Result<Next, LinkError>
    ensures error { OnOk result (IsError reply.old.items reply.new.items) }
    ensures reply { IfOk result (λ next. next ≡ Next.Reply) }
{
    push_invalid(reply)?;
    Ok(Next::Reply)
}

/// Sets the pc to the address to go on from, if something stands there, and returns whether that is
/// an address.
fn begin_at<M: Memory>(
    state: &mut SessionState<'_>,
    executor: &mut InstructionExecutor<M>,
    address: &[u8],
) -> bool
    ensures places { PlacesKept state.old state.new }
    ensures begins { (e : Recording) → OnTrue result (BeginsBy address.now
        (around state.old e) (state_in M.bytes M.writable executor.old)
        (around state.new e) (state_in M.bytes M.writable executor.new)) }
    ensures none { OnFalse result ((0 < length address.now) × ¬ IsNumber address.now) }
    ensures kept { OnFalse result
        ((state_in M.bytes M.writable executor.new ≡ state_in M.bytes M.writable executor.old)
        × SessionKept state.old state.new) }
{
    if address.is_empty() {
        return true;
    }
    let Some(address) = number_of(address) else {
        return false;
    };
    executor.hart_state.pc = address;
    state.forget();
    true
}

/// `c`, `C`, `s` and `S`: has the program go on, from an address if there is one.
fn go_from<M: Memory, G: StopRunner<M>, R: Read, W: Write>(
    runner: &mut G,
    state: &mut SessionState<'_>,
    executor: &mut InstructionExecutor<M>,
    environment: &mut OutputRecorder<'_>,
    link: &mut Link<R, W>,
    reply: &mut Vec<u8>,
    payload: &[u8],
) -> Result<Next, LinkError>
    ensures places { PlacesKept state.old state.new }
    ensures error { OnOk result (IsError reply.old.items reply.new.items
        → (state_in M.bytes M.writable executor.new ≡ state_in M.bytes M.writable executor.old)
        × (environment.new ≡ environment.old) × SessionKept state.old state.new) }
    ensures goes { OnOk result (Goes payload.now
        (moment state.old environment.old (state_in M.bytes M.writable executor.old)
        reply.old.items)
        (moment state.new environment.new (state_in M.bytes M.writable executor.new)
        reply.new.items)) }
    ensures reply { IfOk result (λ next. next ≡ Next.Reply) }
    ensures acknowledges { link.new.acknowledges ≡ link.old.acknowledges }
{
    let Some((going, address)) = going_of(payload) else {
        return refuse(reply);
    };
    if !begin_at(state, executor, address) {
        return refuse(reply);
    }
    go(runner, state, executor, environment, link, reply, going)
}

/// `vCont`: has the program go on, by the first of the actions.
fn go_on<M: Memory, G: StopRunner<M>, R: Read, W: Write>(
    runner: &mut G,
    state: &mut SessionState<'_>,
    executor: &mut InstructionExecutor<M>,
    environment: &mut OutputRecorder<'_>,
    link: &mut Link<R, W>,
    reply: &mut Vec<u8>,
    actions: &[u8],
) -> Result<Next, LinkError>
    ensures places { PlacesKept state.old state.new }
    ensures error { OnOk result (IsError reply.old.items reply.new.items
        → (state_in M.bytes M.writable executor.new ≡ state_in M.bytes M.writable executor.old)
        × (environment.new ≡ environment.old) × SessionKept state.old state.new) }
    ensures goes_on { OnOk result ((most : Most) × GoesOnOrStays (asked_by state.old) most
        (around state.old environment.old) (state_in M.bytes M.writable executor.old)
        (around state.new environment.new) (state_in M.bytes M.writable executor.new)) }
    ensures acts { OnOk result (Acts actions.now (has_ended state.old) (asked_by state.old)
        state.old.settings.limit
        (around state.old environment.old) (state_in M.bytes M.writable executor.old)
        (around state.new environment.new) (state_in M.bytes M.writable executor.new)
        reply.old.items reply.new.items) }
    ensures acknowledges { link.new.acknowledges ≡ link.old.acknowledges }
{
    let (action, _others) = cut_or_all(actions, b';');
    let (action, _thread) = cut_or_all(action, b':');
    match going_of(action) {
        Some((going, [])) => go(runner, state, executor, environment, link, reply, going),
        _ => refuse(reply),
    }
}

/// An argument of `vRun`, by its digits.
fn argument_of(alloc: Global, digits: &[u8]) -> Result<Option<String>, AllocError>
    ensures { IfOk result (λ found. MatchOption found
        ((text : List ℕ) → decode_of digits.now ≡ Ok text → ¬ IsUtf8 text)
        (λ text. (decode_of digits.now ≡ Ok (string_bytes text)) × IsUtf8 (string_bytes text))) }
{
    let bytes = match hex::decode(alloc, digits) {
        Ok(bytes) => bytes,
        Err(FromHexError::OutOfMemory) => return Err(AllocError),
        Err(_) => return Ok(None),
    };
    match str::from_utf8(&bytes) {
        Ok(argument) => Ok(Some(String::from_str(alloc, argument)?)),
        Err(_) => Ok(None),
    }
}

/// The arguments of `vRun`, after the program's name: digits, with semicolons between.
fn arguments_of(alloc: Global, text: &[u8]) -> Result<Option<Vec<String>>, AllocError>
    ensures { IfOk result (λ found. MatchOption found
        ((texts : List (List ℕ)) → ¬ AreTexts texts text.now)
        (λ arguments. AreTexts (map string_bytes arguments.items) text.now)) }
{
    let mut arguments = Vec::new(alloc);
    let mut rest = text;
    'arguments: while !rest.is_empty() {
        let (digits, others) = cut_or_all(rest, b';');
        let Some(argument) = argument_of(alloc, digits)? else {
            return Ok(None);
        };
        arguments.push(argument)?;
        rest = others;
    }
    Ok(Some(arguments))
}

/// `vRun`: the program begins again, with arguments if there are some.
fn run_again(
    alloc: Global,
    state: &mut SessionState<'_>,
    reply: &mut Vec<u8>,
    text: &[u8],
) -> Result<Next, AllocError>
    ensures kept { SessionKept state.old state.new }
    ensures places { PlacesKept state.old state.new }
    ensures restarts { IfOk result (λ next. (texts : List (List ℕ))
        → AreTexts texts (behind 59 text.now) → (next ≡ Next.Restart)
        × AreTexts (map string_bytes state.new.arguments.items) (behind 59 text.now)
        × (state.new.has_arguments ≡ true) × (state.new.owes_stop ≡ true)) }
    ensures refused { IfOk result (λ next.
        ((texts : List (List ℕ)) → ¬ AreTexts texts (behind 59 text.now))
        → IsError reply.old.items reply.new.items × (next ≡ Next.Reply)) }
{
    let (_name, arguments) = cut_or_all(text, b';');
    let Some(arguments) = arguments_of(alloc, arguments)? else {
        push_text(reply, INVALID)?;
        return Ok(Next::Reply);
    };
    state.has_arguments = true;
    state.arguments = arguments;
    state.owes_stop = true;
    Ok(Next::Restart)
}

/// `vRun`, `vCont?` and `vKill`.
fn ask(
    alloc: Global,
    state: &mut SessionState<'_>,
    reply: &mut Vec<u8>,
    payload: &[u8],
) -> Result<Next, AllocError>
    ensures kept { SessionKept state.old state.new }
    ensures places { PlacesKept state.old state.new }
    ensures named { IfOk result (λ next. NamedBy payload.now next state.old state.new
        reply.old.items reply.new.items) }
{
    if let Some(words) = behind(payload, b"vRun;") {
        return run_again(alloc, state, reply, words);
    }
    let is_kill = behind(payload, b"vKill").is_some();
    push_text(reply, told_of(payload, is_kill))?;
    Ok(if is_kill && !state.is_extended {
        Next::ReplyAndEnd
    } else {
        Next::Reply
    })
}

/// What is told of `vKill` and `vCont?`.
fn told_of(payload: &[u8], is_kill: bool) -> &'static [u8]
    ensures kill { is_kill ≡ true → result.now ≡ codes "OK" }
    ensures actions { is_kill ≡ false → payload.now ≡ codes "vCont?"
        → result.now ≡ codes "vCont;c;C;s;S" }
{
    if is_kill {
        return b"OK";
    }
    if payload == b"vCont?".as_slice() {
        return b"vCont;c;C;s;S";
    }
    b""
}

/// Answers a packet that begins with `v`.
fn act<M: Memory, G: StopRunner<M>, R: Read, W: Write>(
    runner: &mut G,
    state: &mut SessionState<'_>,
    executor: &mut InstructionExecutor<M>,
    environment: &mut OutputRecorder<'_>,
    link: &mut Link<R, W>,
    reply: &mut Vec<u8>,
    payload: &[u8],
) -> Result<Next, LinkError>
    ensures places { PlacesKept state.old state.new }
    ensures error { OnOk result (IsError reply.old.items reply.new.items
        → (state_in M.bytes M.writable executor.new ≡ state_in M.bytes M.writable executor.old)
        × (environment.new ≡ environment.old) × SessionKept state.old state.new) }
    ensures goes_on { OnOk result ((most : Most) × GoesOnOrStays (asked_by state.old) most
        (around state.old environment.old) (state_in M.bytes M.writable executor.old)
        (around state.new environment.new) (state_in M.bytes M.writable executor.new)) }
    ensures acts { (actions : List ℕ) → payload.now ≡ codes "vCont;" ++ actions
        → OnOk result (Acts actions (has_ended state.old) (asked_by state.old)
        state.old.settings.limit
        (around state.old environment.old) (state_in M.bytes M.writable executor.old)
        (around state.new environment.new) (state_in M.bytes M.writable executor.new)
        reply.old.items reply.new.items) }
    ensures named { IfOk result (λ next. NamedBy payload.now next state.old state.new
        reply.old.items reply.new.items) }
    ensures acknowledges { link.new.acknowledges ≡ link.old.acknowledges }
{
    if let Some(actions) = behind(payload, b"vCont;") {
        return go_on(runner, state, executor, environment, link, reply, actions);
    }
    Ok(ask(link.alloc, state, reply, payload)?)
}

/// Answers a packet that begins with `Q`.
fn set<R, W>(
    state: &mut SessionState<'_>,
    link: &mut Link<R, W>,
    reply: &mut Vec<u8>,
    text: &[u8],
) -> Result<(), AllocError>
    ensures kept { SessionKept state.old state.new }
    ensures silences { text.now ≡ codes "StartNoAckMode" → OnOk result
        ((reply.new.items ≡ reply.old.items ++ codes "OK") × (link.new.acknowledges ≡ false)) }
    ensures acknowledges { text.now ≢ codes "StartNoAckMode"
        → link.new.acknowledges ≡ link.old.acknowledges }
    ensures catches { (asked : List ℕ) → text.now ≡ codes "CatchSyscalls:" ++ asked
        → OnOk result (CatchesOrStays asked state.old state.new
        reply.old.items reply.new.items) }
    ensures writer { link.new.writer ≡ link.old.writer }
{
    if text == b"StartNoAckMode".as_slice() {
        link.acknowledges = false;
        return push_text(reply, b"OK");
    }
    if let Some(asked) = behind(text, b"CatchSyscalls:") {
        let is_done = catch_calls(link.alloc, state, asked)?;
        return push_done(reply, is_done, INVALID);
    }
    Ok(())
}

/// The most steps by which a packet has the program go back.
fn steps_back(payload: &[u8]) -> Option<u64>
    ensures step { payload.now ≡ codes "bs" → result ≡ Some 1 }
    ensures goes_back { payload.now ≡ codes "bc" → result ≡ Some (2 ^ 64 - 1) }
{
    match payload {
        b"bs" => Some(1),
        b"bc" => Some(u64::MAX),
        _ => None,
    }
}

/// Answers a packet by which the program goes back.
fn reverse<'a, M: Memory>(
    alloc: Global,
    state: &mut SessionState<'a>,
    executor: &mut InstructionExecutor<M>,
    environment: &mut OutputRecorder<'a>,
    reply: &mut Vec<u8>,
    payload: &[u8],
) -> Result<(), AllocError>
    ensures places { PlacesKept state.old state.new }
    ensures error { OnOk result (IsError reply.old.items reply.new.items → ⊥) }
    ensures told { (payload.now ≡ codes "bs") ⊎ (payload.now ≡ codes "bc") → OnOk result
        (reply.new.items ≡ reply.old.items ++ stop_text state.new.stop) }
    ensures step { payload.now ≡ codes "bs" → SessionGoesBack 1
        state.new.stop state.old environment.old (state_in M.bytes M.writable executor.old)
        state.new environment.new (state_in M.bytes M.writable executor.new) }
    ensures goes_back { payload.now ≡ codes "bc" → SessionGoesBack (2 ^ 64 - 1)
        state.new.stop state.old environment.old (state_in M.bytes M.writable executor.old)
        state.new environment.new (state_in M.bytes M.writable executor.new) }
{
    let Some(limit) = steps_back(payload) else {
        return Ok(());
    };
    let stop = backward(state, executor, environment, limit);
    state.stop = stop;
    push_stop(alloc, reply, stop)
}

/// What follows a packet that is about the session alone.
fn next_behind(payload: &[u8]) -> Next
    ensures reply { EndsNone payload.now → result ≡ Next.Reply }
    ensures ends { EndsBy payload.now result }
{
    match payload {
        [b'D', ..] => Next::ReplyAndEnd,
        [b'k'] => Next::End,
        [b'R', ..] => Next::Restart,
        _ => Next::Reply,
    }
}

/// What is answered to a packet that is about the session alone.
fn tell_session<R, W>(
    state: &mut SessionState<'_>,
    link: &mut Link<R, W>,
    reply: &mut Vec<u8>,
    payload: &[u8],
) -> Result<(), AllocError>
    ensures kept { SessionKept state.old state.new }
    ensures stopped { payload.now ≡ codes "?" → OnOk result
        (reply.new.items ≡ reply.old.items ++ stop_text state.old.stop) }
    ensures manages { OnOk result (Manages payload.now state.old state.new
        reply.old.items reply.new.items link.old.acknowledges link.new.acknowledges) }
    ensures writer { link.new.writer ≡ link.old.writer }
{
    if payload == b"!".as_slice() {
        state.is_extended = true;
        return push_text(reply, b"OK");
    }
    if let Some(text) = behind(payload, b"Q") {
        return set(state, link, reply, text);
    }
    match payload {
        [b'?'] => push_stop(link.alloc, reply, state.stop),
        [b'H' | b'T' | b'D', ..] => push_text(reply, b"OK"),
        _ => Ok(()),
    }
}

/// Answers a packet that is about the session alone.
fn manage<R, W>(
    state: &mut SessionState<'_>,
    link: &mut Link<R, W>,
    reply: &mut Vec<u8>,
    payload: &[u8],
) -> Result<Next, AllocError>
    ensures kept { SessionKept state.old state.new }
    ensures stopped { payload.now ≡ codes "?" → OnOk result
        (reply.new.items ≡ reply.old.items ++ stop_text state.old.stop) }
    ensures manages { OnOk result (Manages payload.now state.old state.new
        reply.old.items reply.new.items link.old.acknowledges link.new.acknowledges) }
    ensures writer { link.new.writer ≡ link.old.writer }
    ensures reply { EndsNone payload.now → IfOk result (λ next. next ≡ Next.Reply) }
    ensures ends { IfOk result (λ next. EndsBy payload.now next) }
{
    tell_session(state, link, reply, payload)?;
    Ok(next_behind(payload))
}

/// What a packet is about.
fn subject_of(payload: &[u8]) -> Subject
    ensures { HasSubject payload.now result }
{
    match payload {
        [b'g' | b'p' | b'm', ..] => Subject::Shown,
        [b'G' | b'P' | b'M' | b'X', ..] => Subject::Changed,
        [b'c' | b'C' | b's' | b'S', ..] => Subject::Run,
        [b'v', ..] => Subject::Named,
        [b'b', ..] => Subject::Back,
        [b'Z' | b'z', ..] => Subject::Breaks,
        [b'q', ..] => Subject::Query,
        _ => Subject::Session,
    }
}

/// What follows an answer that is whole.
fn reply_behind(answered: Result<(), AllocError>) -> Result<Next, LinkError>
    ensures whole { OnOk result (IsOk answered) }
    ensures reply { IfOk result (λ next. next ≡ Next.Reply) }
{
    answered?;
    Ok(Next::Reply)
}

/// Answers a packet by its subject.
fn answer_by_subject<'a, M: Memory, G: StopRunner<M>, R: Read, W: Write>(
    runner: &mut G,
    state: &mut SessionState<'a>,
    executor: &mut InstructionExecutor<M>,
    environment: &mut OutputRecorder<'a>,
    link: &mut Link<R, W>,
    reply: &mut Vec<u8>,
    payload: &[u8],
) -> Result<Next, LinkError>
    ensures leaves { Leaves payload.now
        (moment state.old environment.old (state_in M.bytes M.writable executor.old)
        reply.old.items)
        (moment state.new environment.new (state_in M.bytes M.writable executor.new)
        reply.new.items) }
    ensures means { OnOk result (Means payload.now
        (moment state.old environment.old (state_in M.bytes M.writable executor.old)
        reply.old.items)
        (moment state.new environment.new (state_in M.bytes M.writable executor.new)
        reply.new.items)) }
    ensures tells { OnOk result (Tells TARGET.now state.old.path.now state.old.is_extended
        payload.now reply.old.items reply.new.items) }
    ensures named { IfOk result (λ next. NamedBy payload.now next state.old state.new
        reply.old.items reply.new.items) }
    ensures manages { OnOk result (Manages payload.now state.old state.new
        reply.old.items reply.new.items link.old.acknowledges link.new.acknowledges) }
    ensures quiet { RunsNone payload.now → link.new.writer ≡ link.old.writer }
    ensures reply { EndsNone payload.now → IfOk result (λ next. next ≡ Next.Reply) }
    ensures ends { IfOk result (λ next. EndsBy payload.now next) }
{
    let alloc = link.alloc;
    match subject_of(payload) {
        Subject::Shown => reply_behind(show(alloc, executor, reply, payload)),
        Subject::Changed => reply_behind(alter(alloc, state, executor, reply, payload)),
        Subject::Run => go_from(runner, state, executor, environment, link, reply, payload),
        Subject::Named => act(runner, state, executor, environment, link, reply, payload),
        Subject::Back => {
            reply_behind(reverse(alloc, state, executor, environment, reply, payload))
        }
        Subject::Breaks => reply_behind(change_breaks(state, reply, payload)),
        Subject::Query => reply_behind(query(alloc, state, reply, payload)),
        Subject::Session => Ok(manage(state, link, reply, payload)?),
    }
}

/// Answers a packet: the answer is appended to `reply`, and output of the program goes to the link.
///
/// Only a packet with the letter of a change changes the machine, and only what its letter says
/// (`asks`, `registers`, `memory`), and only one by which the program goes on or back takes it on.
/// Breakpoints, watchpoints and settings are changed by the packets that are for them alone
/// (`breaks`, `settings`), and a packet that is answered by an error changes nothing (`error`).
/// What the text of a packet means is said by `shows_registers`, `sets_registers`,
/// `shows_register`, `sets_register`, `shows_memory`, `sets_memory` and `sets_bytes`, and, of those
/// by which the program goes on, by `steps`, `continues` and `acts`. `Z` and `z` set and remove the
/// breakpoint or the watchpoint that they name, and no other (`sets_break`, `removes_break`); `?`,
/// `bs` and `bc` are answered by where the program stopped (`stopped`, `back_told`); a command of
/// `monitor` sets what it names and is answered by how that stands (`monitors`), and other questions
/// change nothing (`questions`). `D` and `k` end the session, and by `R` the program begins again
/// (`ends`); others do not, but for some that begin with `v` (`reply`).
///
/// # Errors
///
/// Out of memory, and a write that fails.
pub fn answer_to<'a, M: Memory, G: StopRunner<M>, R: Read, W: Write>(
    runner: &mut G,
    state: &mut SessionState<'a>,
    executor: &mut InstructionExecutor<M>,
    environment: &mut OutputRecorder<'a>,
    link: &mut Link<R, W>,
    reply: &mut Vec<u8>,
    payload: &[u8],
) -> Result<Next, LinkError>
    ensures asks { ChangesNone payload.now → RunsNone payload.now
        → (state_in M.bytes M.writable executor.new ≡ state_in M.bytes M.writable executor.old) }
    ensures registers { ChangesRegister payload.now
        → MemoryKept (state_in M.bytes M.writable executor.old)
        (state_in M.bytes M.writable executor.new) }
    ensures memory { ChangesMemory payload.now
        → RegistersKept (state_in M.bytes M.writable executor.old)
        (state_in M.bytes M.writable executor.new) }
    ensures step { (letter payload.now ≡ 115) ⊎ (letter payload.now ≡ 83)
        → OnOk result (GoesOnFrom (asked_by state.old) one_step
        (around state.old environment.old) (state_in M.bytes M.writable executor.old)
        (around state.new environment.new) (state_in M.bytes M.writable executor.new)) }
    ensures goes_on { (letter payload.now ≡ 99) ⊎ (letter payload.now ≡ 67)
        → OnOk result (GoesOnFrom (asked_by state.old) (up_to state.old.settings.limit)
        (around state.old environment.old) (state_in M.bytes M.writable executor.old)
        (around state.new environment.new) (state_in M.bytes M.writable executor.new)) }
    ensures steps { letter payload.now ≡ 115 → OnOk result (Resumes (drop 1 payload.now)
        (has_ended state.old) (asked_by state.old) one_step
        (around state.old environment.old) (state_in M.bytes M.writable executor.old)
        (around state.new environment.new) (state_in M.bytes M.writable executor.new)
        reply.old.items reply.new.items) }
    ensures continues { letter payload.now ≡ 99 → OnOk result (Resumes (drop 1 payload.now)
        (has_ended state.old) (asked_by state.old) (up_to state.old.settings.limit)
        (around state.old environment.old) (state_in M.bytes M.writable executor.old)
        (around state.new environment.new) (state_in M.bytes M.writable executor.new)
        reply.old.items reply.new.items) }
    ensures step_signal { letter payload.now ≡ 83 → OnOk result (Signals (drop 1 payload.now)
        (has_ended state.old) (asked_by state.old) one_step
        (around state.old environment.old) (state_in M.bytes M.writable executor.old)
        (around state.new environment.new) (state_in M.bytes M.writable executor.new)
        reply.old.items reply.new.items) }
    ensures signal { letter payload.now ≡ 67 → OnOk result (Signals (drop 1 payload.now)
        (has_ended state.old) (asked_by state.old) (up_to state.old.settings.limit)
        (around state.old environment.old) (state_in M.bytes M.writable executor.old)
        (around state.new environment.new) (state_in M.bytes M.writable executor.new)
        reply.old.items reply.new.items) }
    ensures resumes { letter payload.now ≡ 118 → OnOk result ((most : Most)
        × GoesOnOrStays (asked_by state.old) most
        (around state.old environment.old) (state_in M.bytes M.writable executor.old)
        (around state.new environment.new) (state_in M.bytes M.writable executor.new)) }
    ensures environment { RunsNone payload.now → environment.new ≡ environment.old }
    ensures breaks { BreaksNone payload.now → BreaksKept state.old state.new }
    ensures settings { letter payload.now ≢ 113 → state.new.settings ≡ state.old.settings }
    ensures history { ChangesNone payload.now → RunsNone payload.now → letter payload.now ≢ 113
        → state.new.history ≡ state.old.history }
    ensures forgets { ChangesRegister payload.now ⊎ ChangesMemory payload.now
        → OnOk result (ForgetsOrStays (state_in M.bytes M.writable executor.old)
        (state_in M.bytes M.writable executor.new) state.old state.new) }
    ensures error { letter payload.now ≢ 113 → OnOk result
        (IsError reply.old.items reply.new.items
        → (state_in M.bytes M.writable executor.new ≡ state_in M.bytes M.writable executor.old)
        × (environment.new ≡ environment.old) × SessionKept state.old state.new) }
    ensures acts { (actions : List ℕ)
        → payload.now ≡ codes "vCont;" ++ actions
        → OnOk result (Acts actions (has_ended state.old) (asked_by state.old)
        state.old.settings.limit
        (around state.old environment.old) (state_in M.bytes M.writable executor.old)
        (around state.new environment.new) (state_in M.bytes M.writable executor.new)
        reply.old.items reply.new.items) }
    ensures steps_back { payload.now ≡ codes "bs" → OnOk result (SessionGoesBack 1
        state.new.stop state.old environment.old (state_in M.bytes M.writable executor.old)
        state.new environment.new (state_in M.bytes M.writable executor.new)) }
    ensures goes_back { payload.now ≡ codes "bc" → OnOk result (SessionGoesBack (2 ^ 64 - 1)
        state.new.stop state.old environment.old (state_in M.bytes M.writable executor.old)
        state.new environment.new (state_in M.bytes M.writable executor.new)) }
    ensures back_told { (payload.now ≡ codes "bs") ⊎ (payload.now ≡ codes "bc") → OnOk result
        (reply.new.items ≡ reply.old.items ++ stop_text state.new.stop) }
    ensures shows_registers { payload.now ≡ codes "g" → OnOk result (reply.new.items
        ≡ reply.old.items ++ registers_text (state_in M.bytes M.writable executor.old)) }
    ensures sets_registers { letter payload.now ≡ 71 → OnOk result (SetsRegisters
        (drop 1 payload.now) (state_in M.bytes M.writable executor.old)
        (state_in M.bytes M.writable executor.new) reply.old.items reply.new.items) }
    ensures shows_register { letter payload.now ≡ 112 → OnOk result (ShowsRegister
        (drop 1 payload.now) (state_in M.bytes M.writable executor.old)
        reply.old.items reply.new.items) }
    ensures sets_register { letter payload.now ≡ 80 → OnOk result (SetsRegister
        (drop 1 payload.now) (state_in M.bytes M.writable executor.old)
        (state_in M.bytes M.writable executor.new) reply.old.items reply.new.items) }
    ensures shows_memory { letter payload.now ≡ 109 → OnOk result (ShowsMemory
        (drop 1 payload.now) (state_in M.bytes M.writable executor.old)
        reply.old.items reply.new.items) }
    ensures sets_memory { letter payload.now ≡ 77 → OnOk result ((values : List ℕ)
        → decode_of (behind 58 (drop 1 payload.now)) ≡ Ok values
        → SetsMemory values (drop 1 payload.now) (state_in M.bytes M.writable executor.old)
        (state_in M.bytes M.writable executor.new) reply.old.items reply.new.items) }
    ensures no_values { letter payload.now ≡ 77
        → OnOk result (¬ IsOk (decode_of (behind 58 (drop 1 payload.now)))
        → IsError reply.old.items reply.new.items) }
    ensures sets_break { letter payload.now ≡ 90 → OnOk result (SetsBreak (drop 1 payload.now)
        state.old.breaks state.new.breaks reply.old.items reply.new.items) }
    ensures removes_break { letter payload.now ≡ 122 → OnOk result (RemovesBreak
        (drop 1 payload.now) state.old.breaks state.new.breaks
        reply.old.items reply.new.items) }
    ensures sets_bytes { letter payload.now ≡ 88 → OnOk result (SetsMemory
        (behind 58 (drop 1 payload.now)) (drop 1 payload.now)
        (state_in M.bytes M.writable executor.old) (state_in M.bytes M.writable executor.new)
        reply.old.items reply.new.items) }
    ensures stopped { payload.now ≡ codes "?" → OnOk result
        (reply.new.items ≡ reply.old.items ++ stop_text state.old.stop) }
    ensures monitors { (digits command : List ℕ) → payload.now ≡ codes "qRcmd," ++ digits
        → decode_of digits ≡ Ok command
        → OnOk result (Monitors (before 32 command) (behind 32 command) state.old state.new
        reply.old.items reply.new.items) }
    ensures questions { letter payload.now ≡ 113
        → ((digits : List ℕ) → payload.now ≢ codes "qRcmd," ++ digits)
        → OnOk result (state.new ≡ state.old) }
    ensures tells { OnOk result (Tells TARGET.now state.old.path.now state.old.is_extended
        payload.now reply.old.items reply.new.items) }
    ensures named { IfOk result (λ next. NamedBy payload.now next state.old state.new
        reply.old.items reply.new.items) }
    ensures manages { OnOk result (Manages payload.now state.old state.new
        reply.old.items reply.new.items link.old.acknowledges link.new.acknowledges) }
    ensures quiet { RunsNone payload.now → link.new.writer ≡ link.old.writer }
    ensures reply { EndsNone payload.now → IfOk result (λ next. next ≡ Next.Reply) }
    ensures ends { IfOk result (λ next. EndsBy payload.now next) }
{
    answer_by_subject(runner, state, executor, environment, link, reply, payload)
}

/// Whether a packet has an answer.
fn has_answer(next: Next) -> bool
    ensures yes { OnTrue result ((next ≡ Next.Reply) ⊎ (next ≡ Next.ReplyAndEnd)) }
    ensures no { OnFalse result ((next ≡ Next.End) ⊎ (next ≡ Next.Restart)) }
{
    matches!(next, Next::Reply | Next::ReplyAndEnd)
}

/// How the session ends after a packet, if it does.
fn end_of(next: Next) -> Option<SessionEnd>
    ensures { result ≡ end_behind next }
{
    match next {
        Next::Reply => None,
        Next::ReplyAndEnd | Next::End => Some(SessionEnd::Ended),
        Next::Restart => Some(SessionEnd::Restart),
    }
}

/// Answers a packet, and returns how the session ends, if it does.
fn answer<'a, M: Memory, G: StopRunner<M>, R: Read, W: Write>(
    runner: &mut G,
    state: &mut SessionState<'a>,
    executor: &mut InstructionExecutor<M>,
    environment: &mut OutputRecorder<'a>,
    link: &mut Link<R, W>,
    payload: &[u8],
) -> Result<Option<SessionEnd>, LinkError>
    ensures { IfOk result (Turn W.contents payload.now
        (debugged state.old (state_in M.bytes M.writable executor.old)) link.old
        (debugged state.new (state_in M.bytes M.writable executor.new)) link.new) }
{
    let mut reply = Vec::new(link.alloc);
    let next = answer_to(
        runner,
        state,
        executor,
        environment,
        link,
        &mut reply,
        payload,
    )?;
    if has_answer(next) {
        link.send(&reply)?;
    }
    Ok(end_of(next))
}

/// The payload of the next packet, if there is one. A packet that is no good is answered by an
/// error.
fn next_payload<R: Read, W: Write>(link: &mut Link<R, W>) -> Result<Option<Vec<u8>>, LinkError>
    ensures { IfOk result (λ found. Requests R.remaining W.contents
        (option_map (λ payload. payload.items) found) link.old link.new) }
{
    for _ in 0..u64::MAX {
        match link.receive()? {
            Received::Packet(payload) => return Ok(Some(payload)),
            Received::Bad => link.send(INVALID)?,
            Received::End => return Ok(None),
        }
    }
    Ok(None)
}

/// Returns where the program stopped, if gdb waits for that.
fn send_stop<R: Read, W: Write>(
    state: &mut SessionState<'_>,
    link: &mut Link<R, W>,
) -> Result<(), LinkError>
    ensures owed { state.old.owes_stop ≡ true → OnOk result (Appends (W.contents link.old.writer)
        (W.contents link.new.writer) (packet (stop_text state.old.stop))) }
    ensures none { state.old.owes_stop ≡ false → (link.new ≡ link.old) × IsOk result }
    ensures told { state.new ≡ record state.old { owes_stop = false } }
{
    if !state.owes_stop {
        return Ok(());
    }
    state.owes_stop = false;
    let mut reply = Vec::new(link.alloc);
    push_stop(link.alloc, &mut reply, state.stop)?;
    link.send(&reply)
}

/// Answers the packets that gdb sends, until it ends the session or the program is to begin again.
///
/// The clause: gdb is told where the program stopped, if it waits for that, and then each packet
/// has its turn, in order, until one of them ends the session, or the input ends (`served`).
///
/// # Errors
///
/// Out of memory, and a write that fails.
pub fn serve<'a, M: Memory, G: StopRunner<M>, R: Read, W: Write>(
    runner: &mut G,
    state: &mut SessionState<'a>,
    executor: &mut InstructionExecutor<M>,
    environment: &mut OutputRecorder<'a>,
    link: &mut Link<R, W>,
) -> Result<SessionEnd, LinkError>
    ensures served { IfOk result (Serves R.remaining W.contents
        (debugged state.old (state_in M.bytes M.writable executor.old)) link.old
        (debugged state.new (state_in M.bytes M.writable executor.new)) link.new) }
{
    send_stop(state, link)?;
    for _ in 0..u64::MAX {
        let Some(payload) = next_payload(link)? else {
            return Ok(SessionEnd::Ended);
        };
        if let Some(end) = answer(runner, state, executor, environment, link, &payload)? {
            return Ok(end);
        }
    }
    Ok(SessionEnd::Ended)
}
