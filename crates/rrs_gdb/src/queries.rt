//! The packets that ask, and those that set how the session goes on.

ghost use Rattle.std.specs.Prelude.{◌≡◌, ◌≢◌, ◌^◌, ◌++◌, ℕ, nat_lt, List, [], false, true, Ok, IsOk, IfOk, IfErr, MatchOption, OnOk, OnErr, codes, string_bytes, if◌then◌else◌};
ghost use Rattle.std.specs.Bool.{OnTrue, OnFalse};
ghost use Rattle.std.specs.Fmt.{digits};
ghost use Rattle.hex.specs.Hex.{decode_of};
ghost use Rattle.rrs_gdb.specs.declared.queries.Setting.{Setting};
ghost use Rattle.rrs_gdb.specs.declared.state.Caught.{Caught};
ghost use Rattle.rrs_gdb.specs.Packets.{AreNumbers, IsDecimal, before, behind};
ghost use Rattle.rrs_gdb.specs.Shown.{text_of};
ghost use Rattle.rrs_gdb.specs.Sessions.{Accepts, BreaksKept, Catches, Monitors, SessionKept, Sets, SetsOrTells, ShowsPart, Tells, help_text, on_or_off, setting_line, value_text, word_of};

use crate::framing::push_bytes;
use crate::numbers::{address_and_length, behind, cut, cut_or_all, decimal_of, number_of};
use crate::state::{Caught, SessionState, push_text};
use crate::target::TARGET;
use hex::FromHexError;
use std::alloc::{AllocError, Global};

/// What the stub has.
const SUPPORTED: &[u8] = b"PacketSize=4000;QStartNoAckMode+;qXfer:features:read+;\
qXfer:exec-file:read+;ReverseStep+;ReverseContinue+;QCatchSyscalls+;vContSupported+";

/// The answer where a packet can't be understood: `EINVAL`, 22.
pub const INVALID: &[u8] = b"E16";
/// The answer where an address is not mapped, or not writable: `EFAULT`, 14.
pub const BAD_ADDRESS: &[u8] = b"E0e";
/// The answer where there is no memory: `ENOMEM`, 12.
pub const NO_MEMORY: &[u8] = b"E0c";

/// Appends a part of an object, by the offset and the length that are asked for.
///
/// # Errors
///
/// Out of memory.
pub fn push_part(reply: &mut Vec<u8>, object: &[u8], place: &[u8]) -> Result<(), AllocError>
    ensures { OnOk result (ShowsPart object.now place.now reply.old.items reply.new.items) }
{
    let Some((offset, length)) = address_and_length(place) else {
        return push_text(reply, INVALID);
    };
    let start = (offset as usize).min(object.len());
    let end = (start + length as usize).min(object.len());
    reply.push(if end < object.len() { b'm' } else { b'l' })?;
    push_text(reply, &object[start..end])
}

/// Answers `qXfer`, after that word: the description of the target, and the path of the program.
fn transfer(state: &SessionState<'_>, reply: &mut Vec<u8>, asked: &[u8]) -> Result<(), AllocError>
    ensures target { (place : List ℕ) → asked.now ≡ codes "features:read:target.xml:" ++ place
        → OnOk result (ShowsPart TARGET.now place reply.old.items reply.new.items) }
    ensures path { (rest : List ℕ) → asked.now ≡ codes "exec-file:read:" ++ rest
        → OnOk result (ShowsPart state.now.path.now (behind 58 rest)
        reply.old.items reply.new.items) }
{
    if let Some(place) = behind(asked, b"features:read:target.xml:") {
        return push_part(reply, TARGET, place);
    }
    if let Some(place) = behind(asked, b"exec-file:read:") {
        return match cut(place, b':') {
            Some((_process, place)) => push_part(reply, state.path, place),
            None => push_text(reply, INVALID),
        };
    }
    if behind(asked, b"features:read:").is_some() {
        return push_text(reply, b"E00");
    }
    Ok(())
}

/// The numbers of calls, with semicolons between, if they are numbers.
fn numbers_in(alloc: Global, text: &[u8]) -> Result<Option<Vec<u32>>, AllocError>
    ensures { IfOk result (λ found. MatchOption found
        ((numbers : List ℕ) → ¬ AreNumbers numbers text.now)
        (λ numbers. AreNumbers numbers.items text.now)) }
{
    let mut numbers = Vec::new(alloc);
    let mut rest = text;
    'numbers: while !rest.is_empty() {
        let (word, others) = cut_or_all(rest, b';');
        let Some(number) = number_of(word) else {
            return Ok(None);
        };
        numbers.push(number)?;
        rest = others;
    }
    Ok(Some(numbers))
}

/// Which calls are caught by what is after `QCatchSyscalls:1;`, if that are numbers: all, if there
/// are none.
fn caught_of(alloc: Global, text: &[u8]) -> Result<Option<Caught>, AllocError>
    ensures { IfOk result (λ found. MatchOption found
        ((numbers : List ℕ) → ¬ AreNumbers numbers text.now)
        (λ caught. AreNumbers caught.numbers.items text.now
        × (text.now ≡ [] → caught.are_all ≡ true)
        × (text.now ≢ [] → caught.are_all ≡ false))) }
{
    let Some(numbers) = numbers_in(alloc, text)? else {
        return Ok(None);
    };
    let are_all = text.is_empty();
    Ok(Some(Caught { are_all, numbers }))
}

/// Which calls are caught by what is after `QCatchSyscalls:`, if that can be understood.
fn caught_by(alloc: Global, asked: &[u8]) -> Result<Option<Caught>, AllocError>
    ensures { IfOk result (λ found. MatchOption found ((caught : Caught) → ¬ Catches asked.now caught)
        (λ caught. Catches asked.now caught)) }
{
    let (word, rest) = cut_or_all(asked, b';');
    match word {
        b"1" => caught_of(alloc, rest),
        b"0" if rest.is_empty() => Ok(Some(Caught {
            are_all: false,
            numbers: Vec::new(alloc),
        })),
        _ => Ok(None),
    }
}

/// Sets which calls are caught, by what is after `QCatchSyscalls:`, and returns whether that can be
/// understood.
pub(crate) fn catch_calls(
    alloc: Global,
    state: &mut SessionState<'_>,
    asked: &[u8],
) -> Result<bool, AllocError>
    ensures kept { SessionKept state.old state.new }
    ensures caught { IfOk result (λ is_done. OnTrue is_done (Catches asked.now state.new.caught)) }
    ensures refused { IfOk result (λ is_done. OnFalse is_done ((state.new ≡ state.old)
        × ((caught : Caught) → ¬ Catches asked.now caught))) }
{
    match caught_by(alloc, asked)? {
        Some(caught) => {
            state.caught = caught;
            Ok(true)
        }
        None => Ok(false),
    }
}

/// Appends the line of a setting, as the answer of `qRcmd`.
fn push_setting(
    alloc: Global,
    reply: &mut Vec<u8>,
    name: &[u8],
    value: &[u8],
) -> Result<(), AllocError>
    ensures { OnOk result (reply.new.items
        ≡ reply.old.items ++ text_of (setting_line name.now value.now)) }
{
    let mut line = Vec::new(alloc);
    push_text(&mut line, name)?;
    push_text(&mut line, b": ")?;
    push_text(&mut line, value)?;
    push_text(&mut line, b"\n")?;
    push_bytes(reply, &line)
}

/// What `monitor help` says.
const HELP: &[u8] = b"monitor steps: how many steps were made, and can be taken back\n\
monitor limit [N]: the most steps of a continue\n\
monitor history [N]: the most steps that are kept, of which the latest stay\n\
monitor stop-at-exit [on|off]: whether the program stops once where it is to exit\n\
catch syscall: where gdb does not have it, break at an ecall, as 'break *0x10204 if $a7 == 64'\n";

/// What is said where there is no memory for a history.
const NO_HISTORY: &[u8] = b"history: out of memory\n";

/// What a command of `monitor` is about.
#[derive(Clone, Copy)]
enum Setting {
    /// How many steps were made, which is not set.
    Steps,
    /// The most steps of a `continue`.
    Limit,
    /// How many steps are kept.
    HistoryRoom,
    /// Whether the program stops once where it is to exit.
    StopAtExit,
}

/// The word of a setting.
fn word_of(setting: Setting) -> &'static [u8]
    ensures { result.now ≡ word_of setting }
{
    match setting {
        Setting::Steps => b"steps",
        Setting::Limit => b"limit",
        Setting::HistoryRoom => b"history",
        Setting::StopAtExit => b"stop-at-exit",
    }
}

/// What a command is about, by its first word.
fn setting_of(word: &[u8]) -> Option<Setting>
    ensures { MatchOption result ((setting : Setting) → word.now ≢ word_of setting)
        (λ setting. word.now ≡ word_of setting) }
{
    match word {
        b"steps" => Some(Setting::Steps),
        b"limit" => Some(Setting::Limit),
        b"history" => Some(Setting::HistoryRoom),
        _ if word == b"stop-at-exit".as_slice() => Some(Setting::StopAtExit),
        _ => None,
    }
}

/// The text of a number.
fn number_text(alloc: Global, number: u64) -> Result<String, AllocError>
    ensures { IfOk result (λ text. string_bytes text ≡ digits 10 false number) }
{
    format!(in alloc; "{number}")
}

/// Whether something is on, in words.
fn on_or_off(is_on: bool) -> &'static str
    ensures { result.now ≡ on_or_off is_on }
{
    if is_on { "on" } else { "off" }
}

/// How many steps were made, and how many can be taken back.
fn steps_text(alloc: Global, state: &SessionState<'_>) -> Result<String, AllocError>
    ensures { IfOk result (λ text. string_bytes text ≡ value_text state.now Setting.Steps) }
{
    let mut text = number_text(alloc, state.steps)?;
    let kept = number_text(alloc, state.history.steps() as u64)?;
    text.push_str(", of which ")?;
    text.push_str(&kept)?;
    text.push_str(" can be taken back")?;
    Ok(text)
}

/// How a setting stands, as it is shown.
fn value_of(alloc: Global, state: &SessionState<'_>, setting: Setting) -> Result<String, AllocError>
    ensures { IfOk result (λ text. string_bytes text ≡ value_text state.now setting) }
{
    match setting {
        Setting::Steps => steps_text(alloc, state),
        Setting::Limit => number_text(alloc, state.settings.limit),
        Setting::HistoryRoom => number_text(alloc, state.settings.history as u64),
        Setting::StopAtExit => String::from_str(alloc, on_or_off(state.settings.stops_at_exit)),
    }
}

/// Whether so many steps are more than are ever kept, 2^32.
fn is_too_many(steps: u64) -> bool
    ensures { result ≡ nat_lt (2 ^ 32) steps }
{
    steps > 1 << 32
}

/// Sets how many steps are kept, if there is memory for them.
fn set_room(
    alloc: Global,
    state: &mut SessionState<'_>,
    argument: &[u8],
) -> Result<(), &'static [u8]>
    ensures breaks { BreaksKept state.old state.new }
    ensures set { OnOk result (Sets Setting.HistoryRoom argument.now state.old state.new) }
    ensures only { OnOk result (IsDecimal argument.now) }
    ensures kept { OnErr result (state.new ≡ state.old) }
    ensures refused { IfErr result (λ told. IsDecimal argument.now
        → told.now ≡ codes "history: out of memory\n") }
    ensures helped { IfErr result (λ told. ¬ IsDecimal argument.now → told.now ≡ help_text) }
{
    let Some(room) = decimal_of(argument) else {
        return Err(HELP);
    };
    if is_too_many(room) {
        return Err(NO_HISTORY);
    }
    match state.set_history(alloc, room as usize) {
        Ok(()) => Ok(()),
        Err(_) => Err(NO_HISTORY),
    }
}

/// Sets whether the program stops once where it is to exit.
fn set_stop_at_exit(state: &mut SessionState<'_>, argument: &[u8]) -> Result<(), &'static [u8]>
    ensures breaks { BreaksKept state.old state.new }
    ensures set { OnOk result (Sets Setting.StopAtExit argument.now state.old state.new) }
    ensures only { OnOk result (Accepts Setting.StopAtExit argument.now) }
    ensures kept { OnErr result (state.new ≡ state.old) }
    ensures refused { OnErr result (¬ Accepts Setting.StopAtExit argument.now) }
    ensures helped { IfErr result (λ told. told.now ≡ help_text) }
{
    state.settings.stops_at_exit = match argument {
        b"on" => true,
        b"off" => false,
        _ => return Err(HELP),
    };
    Ok(())
}

/// Sets the most steps of a `continue`.
fn set_limit(state: &mut SessionState<'_>, argument: &[u8]) -> Result<(), &'static [u8]>
    ensures breaks { BreaksKept state.old state.new }
    ensures set { OnOk result (Sets Setting.Limit argument.now state.old state.new) }
    ensures only { OnOk result (IsDecimal argument.now) }
    ensures kept { OnErr result (state.new ≡ state.old) }
    ensures refused { OnErr result (¬ IsDecimal argument.now) }
    ensures helped { IfErr result (λ told. told.now ≡ help_text) }
{
    let Some(limit) = decimal_of(argument) else {
        return Err(HELP);
    };
    state.settings.limit = limit;
    Ok(())
}

/// Sets what a command is about to its argument.
///
/// # Errors
///
/// What is told where it can't be set so.
fn set_to(
    alloc: Global,
    state: &mut SessionState<'_>,
    setting: Setting,
    argument: &[u8],
) -> Result<(), &'static [u8]>
    ensures breaks { BreaksKept state.old state.new }
    ensures set { OnOk result (Sets setting argument.now state.old state.new) }
    ensures only { OnOk result (Accepts setting argument.now) }
    ensures kept { OnErr result (state.new ≡ state.old) }
    ensures refused { IfErr result (λ told. Accepts setting argument.now
        → (setting ≡ Setting.HistoryRoom) × (told.now ≡ codes "history: out of memory\n")) }
    ensures helped { IfErr result (λ told. ¬ Accepts setting argument.now
        → told.now ≡ help_text) }
{
    match setting {
        Setting::Steps => Err(HELP),
        Setting::Limit => set_limit(state, argument),
        Setting::HistoryRoom => set_room(alloc, state, argument),
        Setting::StopAtExit => set_stop_at_exit(state, argument),
    }
}

/// Sets what a command is about, if it has an argument, and shows how it stands.
fn monitor_setting(
    alloc: Global,
    state: &mut SessionState<'_>,
    reply: &mut Vec<u8>,
    setting: Setting,
    argument: &[u8],
) -> Result<(), AllocError>
    ensures breaks { BreaksKept state.old state.new }
    ensures shown { OnOk result (argument.now ≡ [] → (state.new ≡ state.old)
        × (reply.new.items ≡ reply.old.items
        ++ text_of (setting_line (word_of setting) (value_text state.old setting)))) }
    ensures set { OnOk result (Accepts setting argument.now
        → SetsOrTells setting argument.now state.old state.new reply.old.items reply.new.items) }
    ensures kept { ¬ Accepts setting argument.now → state.new ≡ state.old }
    ensures helped { OnOk result (argument.now ≢ [] → ¬ Accepts setting argument.now
        → reply.new.items ≡ reply.old.items ++ text_of help_text) }
{
    if !argument.is_empty() {
        if let Err(refused) = set_to(alloc, state, setting, argument) {
            return push_bytes(reply, refused);
        }
    }
    let value = value_of(alloc, state, setting)?;
    push_setting(alloc, reply, word_of(setting), value.as_bytes())
}

/// Answers a command of `monitor`.
fn monitor(
    alloc: Global,
    state: &mut SessionState<'_>,
    reply: &mut Vec<u8>,
    command: &[u8],
) -> Result<(), AllocError>
    ensures breaks { BreaksKept state.old state.new }
    ensures monitors { OnOk result (Monitors (before 32 command.now) (behind 32 command.now)
        state.old state.new reply.old.items reply.new.items) }
{
    let (word, argument) = cut_or_all(command, b' ');
    match setting_of(word) {
        Some(setting) => monitor_setting(alloc, state, reply, setting, argument),
        None => push_bytes(reply, HELP),
    }
}

/// Answers `qRcmd`, by the digits of its command.
fn command(
    alloc: Global,
    state: &mut SessionState<'_>,
    reply: &mut Vec<u8>,
    digits: &[u8],
) -> Result<(), AllocError>
    ensures breaks { BreaksKept state.old state.new }
    ensures monitors { OnOk result ((command : List ℕ) → decode_of digits.now ≡ Ok command
        → Monitors (before 32 command) (behind 32 command)
        state.old state.new reply.old.items reply.new.items) }
    ensures kept { ¬ IsOk (decode_of digits.now) → state.new ≡ state.old }
{
    match hex::decode(alloc, digits) {
        Ok(command) => monitor(alloc, state, reply, &command),
        Err(FromHexError::OutOfMemory) => Err(AllocError),
        Err(_) => push_text(reply, INVALID),
    }
}

/// What is answered to a question of the session, by its word: the thread, the list of threads, and
/// whether the program ran before gdb came. Nothing where it is not known.
pub fn answer_of(is_extended: bool, word: &[u8]) -> &'static [u8]
    ensures thread { word.now ≡ codes "qC" → result.now ≡ codes "QC1" }
    ensures threads { word.now ≡ codes "qfThreadInfo" → result.now ≡ codes "m1" }
    ensures no_more { word.now ≡ codes "qsThreadInfo" → result.now ≡ codes "l" }
    ensures attached { word.now ≡ codes "qAttached"
        → result.now ≡ (if is_extended then codes "0" else codes "1") }
{
    if word == b"qC".as_slice() {
        return b"QC1";
    }
    if word == b"qfThreadInfo".as_slice() {
        return b"m1";
    }
    if word == b"qsThreadInfo".as_slice() {
        return b"l";
    }
    if word == b"qAttached".as_slice() {
        return if is_extended { b"0" } else { b"1" };
    }
    b""
}

/// Answers a question of the session.
fn tell(state: &SessionState<'_>, reply: &mut Vec<u8>, payload: &[u8]) -> Result<(), AllocError>
    ensures tells { OnOk result (Tells TARGET.now state.now.path.now state.now.is_extended
        payload.now reply.old.items reply.new.items) }
{
    if let Some(asked) = behind(payload, b"qXfer:") {
        return transfer(state, reply, asked);
    }
    let word = cut_or_all(payload, b':').0;
    if word == b"qSupported".as_slice() {
        return push_text(reply, SUPPORTED);
    }
    push_text(reply, answer_of(state.is_extended, word))
}

/// Answers a packet that begins with `q`.
pub(crate) fn query(
    alloc: Global,
    state: &mut SessionState<'_>,
    reply: &mut Vec<u8>,
    payload: &[u8],
) -> Result<(), AllocError>
    ensures breaks { BreaksKept state.old state.new }
    ensures monitors { (digits : List ℕ) → payload.now ≡ codes "qRcmd," ++ digits
        → OnOk result ((command : List ℕ) → decode_of digits ≡ Ok command
        → Monitors (before 32 command) (behind 32 command)
        state.old state.new reply.old.items reply.new.items) }
    ensures kept { ((digits : List ℕ) → payload.now ≢ codes "qRcmd," ++ digits)
        → state.new ≡ state.old }
    ensures tells { OnOk result (Tells TARGET.now state.old.path.now state.old.is_extended
        payload.now reply.old.items reply.new.items) }
{
    if let Some(digits) = behind(payload, b"qRcmd,") {
        return command(alloc, state, reply, digits);
    }
    tell(state, reply, payload)
}
