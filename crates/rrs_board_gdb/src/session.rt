//! The packets of a session, and their answers.

ghost use Rattle.std.specs.Prelude.{◌≡◌, ◌≢◌, ◌⊎◌, ◌++◌, ℕ, ◌≤◌, Bool, true, false, List, [], Ok, IfOk, IfSome, MatchOption, OnOk, codes, drop, length};
ghost use Rattle.std.specs.Bool.{OnTrue, OnFalse};
ghost use Rattle.hex.specs.Hex.{decode_of};
ghost use Rattle.rrs_gdb.specs.Packets.{before, behind};
ghost use Rattle.rrs_gdb.specs.Shown.{text_of};
ghost use Rattle.rrs_gdb.specs.Sessions.{letter, BreaksNone, ChangesMemory, ChangesNone, IsError, RunsNone, SetsBytes, SetsMemory, ShowsBytes, ShowsMemory};
ghost use Rattle.rrs_gdb.specs.declared.session.Next.{Next};
ghost use Rattle.rrs_board_gdb.specs.declared.session.BoardStop.{BoardStop};
ghost use Rattle.rrs_board_gdb.specs.Going.{debugged};
ghost use Rattle.rrs_board_gdb.specs.Shown.{SameBoard, SameButRam, byte_at, ram_state, with_register};
ghost use Rattle.rrs_board_gdb.specs.Answers.{Asks, HasSubject, Inspects, Leaves, Means};
ghost use Rattle.rrs_board_gdb.specs.Sessions.{Changes, EndsBy, GoesBy, GoesFrom, IsContinue, IsEnding, IsGoing, IsStep, IsTaken, Tells, RemovesStop, SetsRegister, SetsStop, ShowsRegister, stop_of, stop_text};

use crate::going::{DebuggedBoard, GoReason};
use crate::ram::{change_ram, show_ram};
use crate::registers::{change_register, value_of};
use crate::target::push_target;
use hex::FromHexError;
use rrs_board::{Asking, Board};
use rrs_gdb::{
    BAD_ADDRESS, Break, Breaks, INVALID, Link, LinkError, NO_MEMORY, Next, Received,
    address_and_length, answer_of, behind, break_of, cut_or_all, number_of, place_and_bytes,
    push_bytes, push_done, push_hex, push_part, push_registers, push_text, push_word,
    register_and_value,
};
use rrs_machine::Profile;
use std::alloc::{AllocError, Global};
use std::io::{Read, Write};

/// What the stub has.
const SUPPORTED: &[u8] = b"PacketSize=4000;QStartNoAckMode+;qXfer:features:read+;vContSupported+";
/// gdb's number of the signal of a stop by gdb itself: a limit that is reached.
const INTERRUPTED: u8 = 2;
/// gdb's number of the signal of a breakpoint, and of a step.
const TRAPPED: u8 = 5;

/// Where a program stopped, as gdb is told.
#[derive(Clone, Copy, Debug, PartialEq)]
pub enum BoardStop {
    /// By a signal, with gdb's number.
    Signal(u8),
    /// It ended with this status.
    Exited(u8),
}

/// What a packet is about, by its letter.
#[derive(Clone, Copy)]
enum Subject {
    /// `c`, `C`, `s` and `S`: the board goes on.
    Run,
    /// `g`, `p`, `P`, `m` and `M`: the board is shown or changed.
    Inspected,
    /// Another letter: the session.
    Session,
}

/// A board under gdb, and where it stops.
#[derive(Drop)]
pub struct BoardSession<'a> {
    /// The board, and its input and output.
    pub debugged: DebuggedBoard<'a>,
    /// The breakpoints.
    pub breaks: Breaks,
    /// The most steps of a `continue`.
    pub limit: u64,
    /// Where the program stopped last.
    pub stop: BoardStop,
}

impl<'a> BoardSession<'a> {
    /// A board that made no step, what its UART is to receive, and the most steps of a `continue`.
    pub fn new(alloc: Global, board: Board, input: &'a [u8], limit: u64) -> BoardSession<'a>
        ensures board { result.debugged.board ≡ board }
        ensures input { result.debugged.input.now ≡ input.now }
        ensures output { result.debugged.output.items ≡ [] }
        ensures stops { result.breaks.stops.items ≡ [] }
        ensures limit { result.limit ≡ limit }
        ensures stop { result.stop ≡ BoardStop.Signal 5 }
    {
        BoardSession {
            debugged: DebuggedBoard {
                board,
                input,
                asking: Asking::new(false),
                output: Vec::new(alloc),
            },
            breaks: Breaks::new(alloc),
            limit,
            stop: BoardStop::Signal(TRAPPED),
        }
    }
}

/// Appends where a program stopped, as gdb is told.
fn push_stop(reply: &mut Vec<u8>, stop: BoardStop) -> Result<(), AllocError>
    ensures { OnOk result (reply.new.items ≡ reply.old.items ++ stop_text stop) }
{
    let (letter, code) = match stop {
        BoardStop::Signal(signal) => (b'S', signal),
        BoardStop::Exited(status) => (b'W', status),
    };
    reply.push(letter)?;
    push_hex(reply, code)
}

/// Appends that a packet can't be understood, or names nothing that is there.
fn push_invalid(reply: &mut Vec<u8>) -> Result<(), AllocError>
    ensures error { OnOk result (IsError reply.old.items reply.new.items) }
    ensures digits { OnOk result (reply.new.items ≡ reply.old.items ++ codes "E16") }
{
    push_text(reply, INVALID)
}

/// `p`: shows a register.
fn show(board: &Board, reply: &mut Vec<u8>, digits: &[u8]) -> Result<(), AllocError>
    ensures { OnOk result (ShowsRegister digits.now board.now reply.old.items reply.new.items) }
{
    let Some(number) = number_of(digits) else {
        return push_invalid(reply);
    };
    match value_of(board, number) {
        Some(value) => push_word(reply, value),
        None => push_invalid(reply),
    }
}

/// `P`: changes a register, and returns whether it is changed.
fn change(board: &mut Board, text: &[u8]) -> bool
    ensures changed { OnTrue result (Changes text.now board.old board.new) }
    ensures kept { OnFalse result (board.new ≡ board.old) }
    ensures refused { OnFalse result ((changed : Board) → ¬ Changes text.now board.old changed) }
{
    match register_and_value(text) {
        Some((number, value)) => change_register(board, number, value),
        None => false,
    }
}

/// `P`.
fn set(board: &mut Board, reply: &mut Vec<u8>, text: &[u8]) -> Result<(), AllocError>
    ensures set { OnOk result (SetsRegister text.now board.old board.new
        reply.old.items reply.new.items) }
    ensures error { OnOk result (IsError reply.old.items reply.new.items
        → SameBoard board.old board.new) }
{
    let is_changed = change(board, text);
    push_done(reply, is_changed, INVALID)
}

/// Shows so many bytes of RAM from an address on.
fn show_bytes(
    alloc: Global,
    board: &mut Board,
    reply: &mut Vec<u8>,
    address: u32,
    count: u32,
) -> Result<(), AllocError>
    ensures kept { SameBoard board.old board.new }
    ensures shown { OnOk result (ShowsBytes (byte_at board.old) address count
        reply.old.items reply.new.items) }
{
    let bytes = show_ram(alloc, board, address, count.min(0x1ff0))?;
    if bytes.is_empty() && count > 0 {
        return push_text(reply, BAD_ADDRESS);
    }
    push_bytes(reply, &bytes)
}

/// `m`: shows RAM.
fn show_memory(
    alloc: Global,
    board: &mut Board,
    reply: &mut Vec<u8>,
    place: &[u8],
) -> Result<(), AllocError>
    ensures kept { SameBoard board.old board.new }
    ensures shown { OnOk result (ShowsMemory place.now (ram_state board.old)
        reply.old.items reply.new.items) }
{
    match address_and_length(place) {
        Some((address, length)) => show_bytes(alloc, board, reply, address, length),
        None => push_invalid(reply),
    }
}

/// `M`: changes RAM to bytes, of which there are to be so many.
fn change_memory(
    board: &mut Board,
    reply: &mut Vec<u8>,
    address: u32,
    count: u32,
    bytes: &[u8],
) -> Result<(), AllocError>
    ensures rest { SameButRam board.old board.new }
    ensures error { OnOk result (IsError reply.old.items reply.new.items
        → SameBoard board.old board.new) }
    ensures set { OnOk result (length bytes.now ≡ count → 1 ≤ length bytes.now
        → SetsBytes address bytes.now (ram_state board.old) (ram_state board.new)
        reply.old.items reply.new.items) }
    ensures none { OnOk result (bytes.now ≡ [] → ram_state board.new ≡ ram_state board.old) }
    ensures refused { OnOk result (length bytes.now ≢ count
        → IsError reply.old.items reply.new.items) }
{
    if bytes.len() != count as usize {
        return push_invalid(reply);
    }
    if bytes.is_empty() {
        return push_text(reply, b"OK");
    }
    let is_done = change_ram(board, address, bytes);
    push_done(reply, is_done, BAD_ADDRESS)
}

/// `M`: the same, by digits.
fn change_by_digits(
    alloc: Global,
    board: &mut Board,
    reply: &mut Vec<u8>,
    text: &[u8],
) -> Result<(), AllocError>
    ensures rest { SameButRam board.old board.new }
    ensures error { OnOk result (IsError reply.old.items reply.new.items
        → SameBoard board.old board.new) }
    ensures set { OnOk result ((values : List ℕ) → decode_of (behind 58 text.now) ≡ Ok values
        → SetsMemory values text.now (ram_state board.old) (ram_state board.new)
        reply.old.items reply.new.items) }
{
    let Some((address, length, digits)) = place_and_bytes(text) else {
        push_invalid(reply)?;
        return Ok(());
    };
    match hex::decode(alloc, digits) {
        Ok(bytes) => change_memory(board, reply, address, length, &bytes),
        Err(FromHexError::OutOfMemory) => Err(AllocError),
        Err(_) => {
            push_invalid(reply)?;
            Ok(())
        }
    }
}

/// Answers a packet that shows or changes the board.
fn inspect(
    alloc: Global,
    board: &mut Board,
    reply: &mut Vec<u8>,
    payload: &[u8],
) -> Result<(), AllocError>
    ensures asks { ChangesNone payload.now → SameBoard board.old board.new }
    ensures memory { ChangesMemory payload.now → SameButRam board.old board.new }
    ensures error { OnOk result (IsError reply.old.items reply.new.items
        → SameBoard board.old board.new) }
    ensures inspects { OnOk result (Inspects payload.now board.old board.new
        reply.old.items reply.new.items) }
{
    match payload {
        [b'g'] => push_registers(&board.hart, reply),
        [b'p', digits @ ..] => show(board, reply, digits),
        [b'P', text @ ..] => set(board, reply, text),
        [b'm', place @ ..] => show_memory(alloc, board, reply, place),
        [b'M', text @ ..] => change_by_digits(alloc, board, reply, text),
        _ => Ok(()),
    }
}

/// The most steps by an action of `vCont`, or by a packet of its own, and whether it is a step.
fn limit_of(action: &[u8], limit: u64) -> Option<(u64, bool)>
    ensures { MatchOption result (¬ (IsStep action.now ⊎ IsContinue action.now)) (λ going.
        (IsStep action.now × (going.0 ≡ 1) × (going.1 ≡ true))
        ⊎ (IsContinue action.now × (going.0 ≡ limit) × (going.1 ≡ false))) }
{
    match action {
        [b'c'] | [b'C', ..] => Some((limit, false)),
        [b's'] | [b'S', ..] => Some((1, true)),
        _ => None,
    }
}

/// The stop of a board that went no further.
fn stop_of(reason: GoReason, is_step: bool) -> BoardStop
    ensures { result ≡ stop_of is_step reason }
{
    match reason {
        GoReason::AtStop => BoardStop::Signal(TRAPPED),
        GoReason::Limit if is_step => BoardStop::Signal(TRAPPED),
        GoReason::Limit => BoardStop::Signal(INTERRUPTED),
        GoReason::Finished(status) => BoardStop::Exited((status % 256) as u8),
        GoReason::Stuck(signal) => BoardStop::Signal(signal),
    }
}

/// Has the board go on by so many steps at most, if the program has not ended.
fn go<R: Read, W: Write>(
    session: &mut BoardSession<'_>,
    link: &mut Link<R, W>,
    limit: u64,
    is_step: bool,
) -> Result<(), LinkError>
    ensures breaks { session.new.breaks ≡ session.old.breaks }
    ensures limit { session.new.limit ≡ session.old.limit }
    ensures goes { OnOk result (GoesFrom session.old.stop is_step session.old.breaks.stops.items limit
        (debugged session.old.debugged) (debugged session.new.debugged) session.new.stop) }
    ensures acknowledges { link.new.acknowledges ≡ link.old.acknowledges }
{
    match session.stop {
        BoardStop::Exited(_) => Ok(()),
        BoardStop::Signal(_) => {
            let end = session
                .debugged
                .proceed(link, limit, &session.breaks.stops)?;
            session.stop = stop_of(end.reason, is_step);
            Ok(())
        }
    }
}

/// Has the board go on by an action, and appends where it stops.
fn go_on<R: Read, W: Write>(
    session: &mut BoardSession<'_>,
    link: &mut Link<R, W>,
    reply: &mut Vec<u8>,
    action: &[u8],
) -> Result<Next, LinkError>
    ensures breaks { session.new.breaks ≡ session.old.breaks }
    ensures limit { session.new.limit ≡ session.old.limit }
    ensures goes { OnOk result (GoesBy action.now session.old session.new
        reply.old.items reply.new.items) }
    ensures error { OnOk result (IsError reply.old.items reply.new.items
        → SameBoard session.old.debugged.board session.new.debugged.board) }
    ensures reply { IfOk result (λ next. next ≡ Next.Reply) }
    ensures acknowledges { link.new.acknowledges ≡ link.old.acknowledges }
{
    let Some((limit, is_step)) = limit_of(action, session.limit) else {
        push_invalid(reply)?;
        return Ok(Next::Reply);
    };
    go(session, link, limit, is_step)?;
    push_stop(reply, session.stop)?;
    Ok(Next::Reply)
}

/// The actions of a `vCont`.
fn actions_of(payload: &[u8]) -> Option<&[u8]>
    ensures found { MatchOption result
        ((actions : List ℕ) → payload.now ≢ codes "vCont;" ++ actions)
        (λ actions. payload.now ≡ codes "vCont;" ++ actions.now) }
    ensures letter { IfSome result (λ _. letter payload.now ≡ 118) }
{
    payload.strip_prefix(b"vCont;")
}

/// `vCont`: has the board go on by the first of the actions.
fn resume<R: Read, W: Write>(
    session: &mut BoardSession<'_>,
    link: &mut Link<R, W>,
    reply: &mut Vec<u8>,
    actions: &[u8],
) -> Result<Next, LinkError>
    ensures breaks { session.new.breaks ≡ session.old.breaks }
    ensures limit { session.new.limit ≡ session.old.limit }
    ensures goes { OnOk result (GoesBy (before 58 (before 59 actions.now)) session.old session.new
        reply.old.items reply.new.items) }
    ensures error { OnOk result (IsError reply.old.items reply.new.items
        → SameBoard session.old.debugged.board session.new.debugged.board) }
    ensures reply { IfOk result (λ next. next ≡ Next.Reply) }
    ensures acknowledges { link.new.acknowledges ≡ link.old.acknowledges }
{
    let (action, _others) = cut_or_all(actions, b';');
    let (action, _thread) = cut_or_all(action, b':');
    go_on(session, link, reply, action)
}

/// `Z`: sets a breakpoint. There are no watchpoints.
fn set_stop(breaks: &mut Breaks, text: &[u8]) -> &'static [u8]
    ensures { SetsStop text.now breaks.old breaks.new [] result.now }
{
    match break_of(text) {
        Some(Break::Stop(address)) => match breaks.set_stop(address) {
            Ok(()) => b"OK",
            Err(_) => NO_MEMORY,
        },
        Some(Break::Watch(_)) => b"",
        None => INVALID,
    }
}

/// `z`: removes a breakpoint.
fn remove_stop(breaks: &mut Breaks, text: &[u8]) -> &'static [u8]
    ensures { RemovesStop text.now breaks.old breaks.new [] result.now }
{
    match break_of(text) {
        Some(Break::Stop(address)) => {
            breaks.remove_stop(address);
            b"OK"
        }
        Some(Break::Watch(_)) => b"",
        None => INVALID,
    }
}

/// Answers a packet that begins with `q`, where the hart has this profile.
fn query(
    alloc: Global,
    profile: Profile,
    reply: &mut Vec<u8>,
    payload: &[u8],
) -> Result<(), AllocError>
    ensures { letter payload.now ≡ 113 → OnOk result
        (Tells payload.now reply.old.items reply.new.items) }
{
    if let Some(place) = behind(payload, b"qXfer:features:read:target.xml:") {
        let mut target = Vec::new(alloc);
        push_target(profile, alloc, &mut target)?;
        return push_part(reply, &target, place);
    }
    let word = cut_or_all(payload, b':').0;
    if word == b"qSupported".as_slice() {
        return push_text(reply, SUPPORTED);
    }
    push_text(reply, answer_of(false, word))
}

/// Whether a packet begins with `q`.
fn is_question(payload: &[u8]) -> bool
    ensures yes { OnTrue result (letter payload.now ≡ 113) }
    ensures no { OnFalse result (letter payload.now ≢ 113) }
{
    matches!(payload, [b'q', ..])
}

/// Answers a packet that is about the session alone.
fn tell(
    alloc: Global,
    session: &mut BoardSession<'_>,
    reply: &mut Vec<u8>,
    payload: &[u8],
) -> Result<(), AllocError>
    ensures board { session.new.debugged ≡ session.old.debugged }
    ensures stop { session.new.stop ≡ session.old.stop }
    ensures limit { session.new.limit ≡ session.old.limit }
    ensures breaks { BreaksNone payload.now
        → session.new.breaks.stops.items ≡ session.old.breaks.stops.items }
    ensures asks { OnOk result (Asks payload.now session.old session.new
        reply.old.items reply.new.items) }
    ensures error { OnOk result (IsError reply.old.items reply.new.items
        → session.new.breaks.stops.items ≡ session.old.breaks.stops.items) }
    ensures tells { OnOk result (Tells payload.now reply.old.items reply.new.items) }
{
    if is_question(payload) {
        let profile = session.debugged.board.csrs.profile;
        return query(alloc, profile, reply, payload);
    }
    match payload {
        [b'?'] => push_stop(reply, session.stop),
        [b'Z', text @ ..] => push_text(reply, set_stop(&mut session.breaks, text)),
        [b'z', text @ ..] => push_text(reply, remove_stop(&mut session.breaks, text)),
        _ => push_text(reply, plain_answer(payload)),
    }
}

/// What follows a packet that is about the session alone.
fn next_behind(payload: &[u8]) -> Next
    ensures { EndsBy payload.now result }
{
    match payload {
        [b'k'] => Next::End,
        [b'D', ..] => Next::ReplyAndEnd,
        [b'v', ..] if payload.starts_with(b"vKill") => Next::ReplyAndEnd,
        _ => Next::Reply,
    }
}

/// The same, and returns what follows.
fn manage<R, W>(
    session: &mut BoardSession<'_>,
    link: &mut Link<R, W>,
    reply: &mut Vec<u8>,
    payload: &[u8],
) -> Result<Next, AllocError>
    ensures board { session.new.debugged ≡ session.old.debugged }
    ensures stop { session.new.stop ≡ session.old.stop }
    ensures limit { session.new.limit ≡ session.old.limit }
    ensures breaks { BreaksNone payload.now
        → session.new.breaks.stops.items ≡ session.old.breaks.stops.items }
    ensures asks { OnOk result (Asks payload.now session.old session.new
        reply.old.items reply.new.items) }
    ensures error { OnOk result (IsError reply.old.items reply.new.items
        → session.new.breaks.stops.items ≡ session.old.breaks.stops.items) }
    ensures tells { OnOk result (Tells payload.now reply.old.items reply.new.items) }
    ensures silences { payload.now ≡ codes "QStartNoAckMode" → link.new.acknowledges ≡ false }
    ensures acknowledges { payload.now ≢ codes "QStartNoAckMode"
        → link.new.acknowledges ≡ link.old.acknowledges }
    ensures ends { IfOk result (λ next. EndsBy payload.now next) }
{
    if payload == b"QStartNoAckMode".as_slice() {
        link.acknowledges = false;
    }
    tell(link.alloc, session, reply, payload)?;
    Ok(next_behind(payload))
}

/// Whether gdb ends the session, and waits for an answer.
fn ends_session(payload: &[u8]) -> bool
    ensures detaches { letter payload.now ≡ 68 → result ≡ true }
    ensures kills { (rest : List ℕ) → payload.now ≡ codes "vKill" ++ rest → result ≡ true }
    ensures only { OnTrue result (IsEnding payload.now) }
{
    payload.starts_with(b"D") || payload.starts_with(b"vKill")
}

/// What is answered to any other packet, whatever the state: nothing where it is not known.
fn plain_answer(payload: &[u8]) -> &'static [u8]
    ensures offers { payload.now ≡ codes "vCont?" → result.now ≡ codes "vCont;c;C;s;S" }
    ensures takes { IsTaken payload.now → result.now ≡ codes "OK" }
    ensures none { payload.now ≢ codes "vCont?" → ¬ IsTaken payload.now → result.now ≡ [] }
{
    if payload == b"vCont?".as_slice() {
        return b"vCont;c;C;s;S";
    }
    let is_taken = matches!(payload, [b'H' | b'T', ..])
        || payload == b"QStartNoAckMode".as_slice()
        || ends_session(payload);
    if is_taken { b"OK" } else { b"" }
}

/// What a packet is about.
fn subject_of(payload: &[u8]) -> Subject
    ensures { HasSubject payload.now result }
{
    match payload {
        [b'c' | b'C' | b's' | b'S', ..] => Subject::Run,
        [b'g' | b'p' | b'P' | b'm' | b'M', ..] => Subject::Inspected,
        _ => Subject::Session,
    }
}

/// Answers a packet by its subject.
fn answer_by_subject<R: Read, W: Write>(
    session: &mut BoardSession<'_>,
    link: &mut Link<R, W>,
    reply: &mut Vec<u8>,
    payload: &[u8],
) -> Result<Next, LinkError>
    ensures leaves { Leaves payload.now session.old session.new }
    ensures means { OnOk result (Means payload.now session.old session.new
        reply.old.items reply.new.items) }
    ensures tells { OnOk result (Tells payload.now reply.old.items reply.new.items) }
    ensures silences { payload.now ≡ codes "QStartNoAckMode" → link.new.acknowledges ≡ false }
    ensures acknowledges { payload.now ≢ codes "QStartNoAckMode"
        → link.new.acknowledges ≡ link.old.acknowledges }
    ensures ends { IfOk result (λ next. EndsBy payload.now next) }
{
    if let Some(actions) = actions_of(payload) {
        return resume(session, link, reply, actions);
    }
    match subject_of(payload) {
        Subject::Run => go_on(session, link, reply, payload),
        Subject::Inspected => {
            inspect(link.alloc, &mut session.debugged.board, reply, payload)?;
            Ok(Next::Reply)
        }
        Subject::Session => Ok(manage(session, link, reply, payload)?),
    }
}

/// Answers a packet: the answer is appended to `reply`, and output of the program goes to the link.
///
/// `p` and `m` show the register, or the bytes of RAM, that they name (`shows_register`,
/// `shows_memory`), and `P` and `M` change exactly these, or are answered by an error
/// (`sets_register`, `sets_memory`). Only `c`, `C`, `s`, `S` and `vCont` have the board go on, by
/// its own steps from where it is to the limit, to a breakpoint or to its end, and gdb is told to
/// which (`goes`, `resumes`); where the program ended before, it stays. Other packets leave the
/// board (`asks`), what its UART is to receive and where it stopped (`input`, `stop`), and one that
/// is answered by an error does (`error`). Breakpoints are changed by `Z` and `z` alone (`breaks`),
/// which set and remove the one that they name (`sets_stop`, `removes_stop`). `?` is answered by
/// where the program stopped (`stopped`). `D`, `k` and `vKill` end the session (`ends`).
///
/// # Errors
///
/// Out of memory, and a write that fails.
pub fn answer_to<R: Read, W: Write>(
    session: &mut BoardSession<'_>,
    link: &mut Link<R, W>,
    reply: &mut Vec<u8>,
    payload: &[u8],
) -> Result<Next, LinkError>
    ensures asks { ChangesNone payload.now → RunsNone payload.now
        → SameBoard session.old.debugged.board session.new.debugged.board }
    ensures memory { ChangesMemory payload.now
        → SameButRam session.old.debugged.board session.new.debugged.board }
    ensures shows_register { letter payload.now ≡ 112 → OnOk result (ShowsRegister
        (drop 1 payload.now) session.old.debugged.board reply.old.items reply.new.items) }
    ensures sets_register { letter payload.now ≡ 80 → OnOk result (SetsRegister
        (drop 1 payload.now) session.old.debugged.board session.new.debugged.board
        reply.old.items reply.new.items) }
    ensures shows_memory { letter payload.now ≡ 109 → OnOk result (ShowsMemory
        (drop 1 payload.now) (ram_state session.old.debugged.board)
        reply.old.items reply.new.items) }
    ensures sets_memory { letter payload.now ≡ 77 → OnOk result ((values : List ℕ)
        → decode_of (behind 58 (drop 1 payload.now)) ≡ Ok values
        → SetsMemory values (drop 1 payload.now) (ram_state session.old.debugged.board)
        (ram_state session.new.debugged.board) reply.old.items reply.new.items) }
    ensures goes { IsGoing payload.now → OnOk result (GoesBy payload.now session.old session.new
        reply.old.items reply.new.items) }
    ensures resumes { (actions : List ℕ) → payload.now ≡ codes "vCont;" ++ actions
        → OnOk result (GoesBy (before 58 (before 59 actions)) session.old session.new
        reply.old.items reply.new.items) }
    ensures stays { letter payload.now ≡ 118
        → ((actions : List ℕ) → payload.now ≢ codes "vCont;" ++ actions)
        → session.new.debugged ≡ session.old.debugged }
    ensures error { OnOk result (IsError reply.old.items reply.new.items
        → SameBoard session.old.debugged.board session.new.debugged.board) }
    ensures input { RunsNone payload.now
        → session.new.debugged.input ≡ session.old.debugged.input }
    ensures stop { RunsNone payload.now → session.new.stop ≡ session.old.stop }
    ensures limit { session.new.limit ≡ session.old.limit }
    ensures breaks { BreaksNone payload.now
        → session.new.breaks.stops.items ≡ session.old.breaks.stops.items }
    ensures sets_stop { letter payload.now ≡ 90 → OnOk result (SetsStop (drop 1 payload.now)
        session.old.breaks session.new.breaks reply.old.items reply.new.items) }
    ensures removes_stop { letter payload.now ≡ 122 → OnOk result (RemovesStop
        (drop 1 payload.now) session.old.breaks session.new.breaks
        reply.old.items reply.new.items) }
    ensures stopped { payload.now ≡ codes "?" → OnOk result
        (reply.new.items ≡ reply.old.items ++ stop_text session.old.stop) }
    ensures tells { OnOk result (Tells payload.now reply.old.items reply.new.items) }
    ensures silences { payload.now ≡ codes "QStartNoAckMode" → link.new.acknowledges ≡ false }
    ensures acknowledges { payload.now ≢ codes "QStartNoAckMode"
        → link.new.acknowledges ≡ link.old.acknowledges }
    ensures ends { IfOk result (λ next. EndsBy payload.now next) }
{
    answer_by_subject(session, link, reply, payload)
}

/// Answers the packets that gdb sends, until it ends the session.
///
/// # Errors
///
/// Out of memory, and a write that fails.
pub fn serve<R: Read, W: Write>(
    session: &mut BoardSession<'_>,
    link: &mut Link<R, W>,
) -> Result<(), LinkError> {
    for _ in 0..u64::MAX {
        match link.receive()? {
            Received::End => return Ok(()),
            Received::Bad => link.send(INVALID)?,
            Received::Packet(payload) => {
                let mut reply = Vec::new(link.alloc);
                let next = answer_to(session, link, &mut reply, &payload)?;
                if matches!(next, Next::Reply | Next::ReplyAndEnd) {
                    link.send(&reply)?;
                }
                if next != Next::Reply {
                    return Ok(());
                }
            }
        }
    }
    Ok(())
}
