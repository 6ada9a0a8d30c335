//! The program goes on, forward and back.

ghost use Rattle.std.specs.Prelude.{◌≡◌, ◌≢◌, ◌+◌, ◌-◌, ◌%◌, ◌^◌, ◌<◌, ◌++◌, drop, length, slice_get, false, true, Contains, IfErr, IfNone, IfOk, MatchOption, OnOk};
ghost use Rattle.std.specs.Bool.{OnTrue, OnFalse};
ghost use Rattle.rrs_gdb.specs.declared.back.BackEnd.{BackEnd};
ghost use Rattle.rrs_lib.specs.Executor.{state_in};
ghost use Rattle.rrs_linux.specs.Recording.{Recording};
ghost use Rattle.rrs_hart.specs.Harts.{hart_with};
ghost use Rattle.rrs_lib.specs.Steps.{StepAnswer};
ghost use Rattle.rrs_gdb.specs.Harts.{may_differ, HartTouchesNone, HartTouchesOne, HartStepped};
ghost use Rattle.rrs_gdb.specs.Shown.{Prints};
ghost use Rattle.rrs_gdb.specs.Sessions.{CallMade, CallStops, CallTakenBack, FaultStops, GivenBack, Raises, GoesOn, IsAfterCall, NotesCall, OutputTaken, Passes, PassesBefore, PlacesKept, PrintsCall, SessionGoesBack, StopsAt, StopsBefore, StopsBehind, around, asked_by, is_call, mark_of, signal_of, still, stop_back, stop_of, stopped_at};

use crate::back::{BackEnd, go_back};
use crate::breaks::Watch;
use crate::forward::{ForwardEnd, ForwardReason, go_forward};
use crate::harts::{may_differ, watch_hart};
use crate::link::{Link, LinkError};
use crate::runner::StopRunner;
use crate::state::{CallMark, SessionState, Stop};
use rrs_fast::is_stop;
use rrs_history::{serve_recorded, step_hart_recorded};
use rrs_lib::Memory;
use rrs_lib::instruction_executor::{InstructionException, InstructionExecutor};
use rrs_linux::OutputRecorder;
use std::io::{Read, Write};

/// gdb's number of the signal of a stop by gdb itself: a limit that is reached.
pub(crate) const INTERRUPTED: u8 = 2;
/// gdb's number of the signal of a breakpoint, and of a step.
pub(crate) const TRAPPED: u8 = 5;
/// The number of `exit`.
const EXIT: u32 = 93;
/// The number of `exit_group`.
const EXIT_GROUP: u32 = 94;

/// gdb's number of the signal that a program gets for an exception.
fn signal_of(fault: &InstructionException) -> u8
    ensures { result ≡ signal_of fault.now }
{
    match fault {
        InstructionException::IllegalInstruction(_, _) => 4,
        InstructionException::Breakpoint(_) => 5,
        InstructionException::AlignmentFault(_) => 10,
        InstructionException::FetchError(_)
        | InstructionException::LoadAccessFault(_)
        | InstructionException::StoreAccessFault(_) => 11,
        InstructionException::EnvironmentCall(_) => 12,
    }
}

/// Sends what was made of output, but for what was sent already, before steps were taken back.
fn send_new<R: Read, W: Write>(
    state: &mut SessionState<'_>,
    link: &mut Link<R, W>,
    bytes: &[u8],
) -> Result<(), LinkError>
    ensures places { PlacesKept state.old state.new }
    ensures around { (e : Recording) → around state.new e ≡ around state.old e }
    ensures steps { state.new.steps ≡ state.old.steps }
    ensures calls { state.new.calls ≡ state.old.calls }
    ensures sent { OnOk result (Prints W.contents link.old link.new
        (drop (state.old.sent - state.old.made) bytes.now)) }
    ensures made { state.old.made + length bytes.now < 2 ^ 64
        → state.new.made ≡ state.old.made + length bytes.now }
    ensures known { state.old.made + length bytes.now < 2 ^ 64 → state.new.sent - state.new.made
        ≡ state.old.sent - state.old.made - length bytes.now }
    ensures acknowledges { link.new.acknowledges ≡ link.old.acknowledges }
{
    let known = state.sent.saturating_sub(state.made);
    state.made = state.made.saturating_add(bytes.len() as u64);
    if known >= bytes.len() as u64 {
        return Ok(());
    }
    state.sent = state.made;
    link.send_output(&bytes[known as usize..])
}

/// Sends what a call made of output, and of errors.
fn send_made<R: Read, W: Write>(
    state: &mut SessionState<'_>,
    environment: &mut OutputRecorder<'_>,
    link: &mut Link<R, W>,
) -> Result<(), LinkError>
    ensures places { PlacesKept state.old state.new }
    ensures around { (e : Recording) → around state.new e ≡ around state.old e }
    ensures steps { state.new.steps ≡ state.old.steps }
    ensures calls { state.new.calls ≡ state.old.calls }
    ensures taken { OnOk result (OutputTaken environment.old environment.new) }
    ensures sent { state.old.made + length environment.old.output.items
        + length environment.old.errors.items < 2 ^ 64 → OnOk result (Prints W.contents link.old link.new
        (drop (state.old.sent - state.old.made)
        (environment.old.output.items ++ environment.old.errors.items))) }
    ensures acknowledges { link.new.acknowledges ≡ link.old.acknowledges }
{
    send_new(state, link, &environment.output)?;
    environment.output.clear();
    send_new(state, link, &environment.errors)?;
    environment.errors.clear();
    Ok(())
}

/// Whether a stop comes before the call at the pc is made.
fn stop_before(state: &mut SessionState<'_>, number: u32) -> Option<Stop>
    ensures places { PlacesKept state.old state.new }
    ensures stop { (e : Recording) → MatchOption result
        ((around state.new e ≡ around state.old e)
        × PassesBefore (asked_by state.old) (around state.old e) number)
        (λ at. StopsBefore (asked_by state.old) (around state.old e) number
        (stopped_at (around state.new e) at)) }
    ensures made { state.new.made ≡ state.old.made }
    ensures sent { state.new.sent ≡ state.old.sent }
    ensures steps { state.new.steps ≡ state.old.steps }
    ensures calls { state.new.calls ≡ state.old.calls }
    ensures reserved { state.new.reservation ≡ state.old.reservation }
{
    if state.catches(number) && !state.has_entered {
        state.has_entered = true;
        return Some(Stop::Entry(number));
    }
    let is_exit = number == EXIT || number == EXIT_GROUP;
    if is_exit && state.settings.stops_at_exit && !state.has_told_exit {
        state.has_told_exit = true;
        return Some(Stop::Signal(TRAPPED));
    }
    None
}

/// Whether a stop comes after a call that was made, and after which the program goes on.
fn stop_behind(state: &mut SessionState<'_>, number: u32, pc: u32) -> Option<Stop>
    ensures places { PlacesKept state.old state.new }
    ensures around { (e : Recording)
        → around state.new e ≡ record (around state.old e) { entered = false } }
    ensures stop { MatchOption result
        ((state.old.has_entered ≡ false) × ¬ Contains state.old.breaks.stops.items pc)
        (λ at. StopsBehind state.old.has_entered state.old.breaks.stops.items number pc at) }
    ensures steps { state.new.steps ≡ state.old.steps }
    ensures calls { state.new.calls ≡ state.old.calls }
{
    if state.has_entered {
        state.has_entered = false;
        return Some(Stop::Return(number));
    }
    if state.breaks.stops.contains(&pc) {
        return Some(Stop::Signal(TRAPPED));
    }
    None
}

/// What there is before a call, by how many bytes of output were made, and by what is reserved.
fn mark_of(environment: &OutputRecorder<'_>, made: u64, reservation: Option<u32>) -> CallMark
    ensures { result ≡ mark_of environment.now made reservation }
{
    CallMark {
        left: environment.input.len(),
        top: environment.heap.top,
        made,
        random: environment.random,
        reservation,
    }
}

/// Has the call at the pc served, and sends its output. The answer is the stop that comes of it.
fn make_call<M: Memory, R: Read, W: Write>(
    state: &mut SessionState<'_>,
    executor: &mut InstructionExecutor<M>,
    environment: &mut OutputRecorder<'_>,
    link: &mut Link<R, W>,
) -> Result<Option<Stop>, LinkError>
    ensures places { PlacesKept state.old state.new }
    ensures made { IfOk result (λ stop. MatchOption stop
        (CallMade (asked_by state.old)
        (around state.old environment.old) (state_in M.bytes M.writable executor.old)
        (around state.new environment.new) (state_in M.bytes M.writable executor.new))
        (λ at. CallStops (asked_by state.old)
        (around state.old environment.old) (state_in M.bytes M.writable executor.old)
        (stopped_at (around state.new environment.new) at)
        (state_in M.bytes M.writable executor.new))) }
    ensures printed { IfOk result (λ stop. MatchOption stop
        (PrintsCall W.contents state.old.made state.old.sent environment.old
        (state_in M.bytes M.writable executor.old) (state_in M.bytes M.writable executor.new)
        link.old link.new)
        (λ at. IsAfterCall at → PrintsCall W.contents state.old.made state.old.sent
        environment.old (state_in M.bytes M.writable executor.old)
        (state_in M.bytes M.writable executor.new) link.old link.new)) }
    ensures counted { state.old.steps < 2 ^ 64 - 1 → IfOk result (λ stop. MatchOption stop
        (state.new.steps ≡ state.old.steps + 1)
        (λ at. IsAfterCall at → state.new.steps ≡ state.old.steps + 1)) }
    ensures noted { IfOk result (λ stop. MatchOption stop
        (NotesCall environment.old state.old state.new)
        (λ at. IsAfterCall at → NotesCall environment.old state.old state.new)) }
    ensures acknowledges { link.new.acknowledges ≡ link.old.acknowledges }
{
    let number = executor.hart_state.read_register(17);
    if let Some(stop) = stop_before(state, number) {
        return Ok(Some(stop));
    }
    let mark = mark_of(environment, state.made, state.reservation);
    let end = serve_recorded(executor, environment, &mut state.history);
    let _oldest = state.calls.push_front(mark);
    send_made(state, environment, link)?;
    state.steps = state.steps.saturating_add(1);
    match end {
        Some(status) => Ok(Some(Stop::Exited((status % 256) as u8))),
        None => Ok(stop_behind(state, number, executor.hart_state.pc)),
    }
}

/// The stop of steps forward that ended, but for a call.
fn stop_of(reason: &ForwardReason, at_limit: Stop) -> Stop
    ensures { result ≡ stop_of at_limit reason.now }
{
    match reason {
        ForwardReason::AtStop => Stop::Signal(TRAPPED),
        ForwardReason::Touches(watch) => Stop::Touched(*watch),
        ForwardReason::Limit => at_limit,
        ForwardReason::Fault(fault) => Stop::Signal(signal_of(fault)),
    }
}

/// Counts steps that were made. After one nothing is told of the call at the pc.
fn count_steps(state: &mut SessionState<'_>, steps: u64)
    ensures places { PlacesKept state.old state.new }
    ensures around { (e : Recording) → around state.new e ≡ record (around state.old e) {
      entered = still steps state.old.has_entered;
      told_exit = still steps state.old.has_told_exit;
    } }
    ensures counted { state.old.steps + steps < 2 ^ 64
        → state.new.steps ≡ state.old.steps + steps }
    ensures calls { state.new.calls ≡ state.old.calls }
{
    state.steps = state.steps.saturating_add(steps);
    if steps == 0 {
        return;
    }
    state.has_entered = false;
    state.has_told_exit = false;
}

/// Whether an exception is a call.
fn is_call(fault: &InstructionException) -> bool
    ensures { result ≡ is_call fault.now }
{
    match fault {
        InstructionException::EnvironmentCall(_) => true,
        InstructionException::IllegalInstruction(_, _)
        | InstructionException::Breakpoint(_)
        | InstructionException::AlignmentFault(_)
        | InstructionException::FetchError(_)
        | InstructionException::LoadAccessFault(_)
        | InstructionException::StoreAccessFault(_) => false,
    }
}

/// Makes a step of the hart, where the kit's step raised an exception. The answer is the stop that
/// comes of it, before an access to a watchpoint, at the exception or behind the instruction; or the
/// exception of the hart's step.
fn step_on<M: Memory>(
    state: &mut SessionState<'_>,
    executor: &mut InstructionExecutor<M>,
    environment: &OutputRecorder<'_>,
    fault: InstructionException,
) -> Result<Option<Stop>, InstructionException>
    ensures places { PlacesKept state.old state.new }
    ensures made { IfOk result (λ stop. MatchOption stop
        (Passes (asked_by state.old) fault
        (around state.old environment.now) (state_in M.bytes M.writable executor.old)
        (around state.new environment.now) (state_in M.bytes M.writable executor.new))
        (λ at. FaultStops (asked_by state.old) fault
        (around state.old environment.now) (state_in M.bytes M.writable executor.old)
        (stopped_at (around state.new environment.now) at)
        (state_in M.bytes M.writable executor.new))) }
    ensures raised { IfErr result (λ left. (may_differ fault ≡ true)
        × Raises (asked_by state.old) left
        (around state.old environment.now) (state_in M.bytes M.writable executor.old)
        (around state.new environment.now) (state_in M.bytes M.writable executor.new)) }
    ensures counted { state.old.steps < 2 ^ 64 - 1 → IfOk result (λ stop. IfNone stop
        (state.new.steps ≡ state.old.steps + 1)) }
    ensures noted { IfOk result (λ stop. IfNone stop
        (NotesCall environment.now state.old state.new)) }
{
    if !may_differ(&fault) {
        return Ok(Some(Stop::Signal(signal_of(&fault))));
    }
    let (profile, reserved) = (state.profile, state.reservation);
    if let Some(watch) = watch_hart(executor, &state.breaks.watches, profile, reserved) {
        return Ok(Some(Stop::Touched(watch)));
    }
    let mark = mark_of(environment, state.made, reserved);
    let (history, reservation) = (&mut state.history, &mut state.reservation);
    if let Err(left) = step_hart_recorded(executor, reservation, profile, history) {
        return Err(left);
    }
    let _forgotten = state.calls.push_front(mark);
    count_steps(state, 1);
    if is_stop(&state.breaks.stops, executor.hart_state.pc) {
        return Ok(Some(Stop::Signal(TRAPPED)));
    }
    Ok(None)
}

/// Goes on behind an exception of the kit's step: a call is served, also where it is one of the
/// hart's step alone, and otherwise a step of the hart is made. The answer is the stop that comes of
/// it.
fn pass<M: Memory, R: Read, W: Write>(
    state: &mut SessionState<'_>,
    executor: &mut InstructionExecutor<M>,
    environment: &mut OutputRecorder<'_>,
    link: &mut Link<R, W>,
    fault: InstructionException,
) -> Result<Option<Stop>, LinkError>
    ensures places { PlacesKept state.old state.new }
    ensures passes { IfOk result (λ stop. MatchOption stop
        (Passes (asked_by state.old) fault
        (around state.old environment.old) (state_in M.bytes M.writable executor.old)
        (around state.new environment.new) (state_in M.bytes M.writable executor.new))
        (λ at. StopsAt (asked_by state.old) fault
        (around state.old environment.old) (state_in M.bytes M.writable executor.old)
        (stopped_at (around state.new environment.new) at)
        (state_in M.bytes M.writable executor.new))) }
    ensures acknowledges { link.new.acknowledges ≡ link.old.acknowledges }
{
    if is_call(&fault) {
        return make_call(state, executor, environment, link);
    }
    let left = match step_on(state, executor, environment, fault) {
        Ok(stop) => return Ok(stop),
        Err(left) => left,
    };
    if is_call(&left) {
        return make_call(state, executor, environment, link);
    }
    Ok(Some(Stop::Signal(signal_of(&left))))
}

/// Goes forward, to a stop or for `limit` steps, each call that is served being one.
pub(crate) fn forward<M: Memory, G: StopRunner<M>, R: Read, W: Write>(
    runner: &mut G,
    state: &mut SessionState<'_>,
    executor: &mut InstructionExecutor<M>,
    environment: &mut OutputRecorder<'_>,
    link: &mut Link<R, W>,
    limit: u64,
    at_limit: Stop,
) -> Result<Stop, LinkError>
    ensures places { PlacesKept state.old state.new }
    ensures goes_on { IfOk result (λ at. GoesOn (asked_by state.old) at_limit
        (stopped_at (around state.new environment.new) at)
        (state_in M.bytes M.writable executor.new)
        limit (around state.old environment.old) (state_in M.bytes M.writable executor.old)) }
    ensures acknowledges { link.new.acknowledges ≡ link.old.acknowledges }
{
    let mut left = limit;
    'legs: while left > 0 {
        let ForwardEnd { steps, reason } = go_forward(
            runner,
            executor,
            &mut state.history,
            left,
            &state.breaks,
        );
        count_steps(state, steps);
        let fault = match reason {
            ForwardReason::Fault(fault) => fault,
            other => return Ok(stop_of(&other, at_limit)),
        };
        if let Some(stop) = pass(state, executor, environment, link, fault)? {
            return Ok(stop);
        }
        left = left.saturating_sub(steps).saturating_sub(1);
    }
    Ok(at_limit)
}

/// Gives back what there was before the call that was taken back.
fn take_call_back<'a>(state: &mut SessionState<'a>, environment: &mut OutputRecorder<'a>)
    ensures places { PlacesKept state.old state.new }
    ensures history { state.new.history ≡ state.old.history }
    ensures steps { state.new.steps ≡ state.old.steps }
    ensures taken { CallTakenBack environment.old environment.new }
    ensures given { MatchOption (slice_get state.old.calls.items 0)
        ((state.new.made ≡ state.old.made) × (environment.new ≡ environment.old)) (λ mark.
        GivenBack mark state.old state.new environment.old environment.new) }
{
    if let Some(mark) = state.calls.pop_front() {
        let input = state.input;
        let start = input.len().saturating_sub(mark.left);
        environment.input = &input[start..];
        environment.heap.top = mark.top;
        environment.random = mark.random;
        state.made = mark.made;
        state.reservation = mark.reservation;
    }
}

/// Whether steps back ended after a call.
fn is_behind_call(end: &BackEnd) -> bool
    ensures yes { OnTrue result (end.now ≡ BackEnd.Call) }
    ensures no { OnFalse result (end.now ≢ BackEnd.Call) }
{
    match end {
        BackEnd::Call => true,
        BackEnd::AtBegin | BackEnd::AtStop | BackEnd::Touched(_) | BackEnd::Limit => false,
    }
}

/// The stop of steps back that ended, but for a call.
fn stop_back(end: &BackEnd) -> Stop
    ensures { result ≡ stop_back end.now }
{
    match end {
        BackEnd::AtBegin => Stop::AtBegin,
        BackEnd::Touched(watch) => Stop::Touched(*watch),
        BackEnd::AtStop | BackEnd::Limit | BackEnd::Call => Stop::Signal(TRAPPED),
    }
}

/// The watchpoint that the instruction touches which was taken back, by a step of the hart. That is
/// made again then.
fn touch_again<M: Memory>(
    state: &mut SessionState<'_>,
    executor: &mut InstructionExecutor<M>,
    environment: &OutputRecorder<'_>,
) -> Option<Watch>
    ensures places { PlacesKept state.old state.new }
    ensures steps { state.new.steps ≡ state.old.steps }
    ensures touched { MatchOption result
        ((state_in M.bytes M.writable executor.new ≡ state_in M.bytes M.writable executor.old)
        × (state.new.history ≡ state.old.history)
        × HartTouchesNone state.old.breaks.watches.items state.old.profile
        (hart_with (state_in M.bytes M.writable executor.old) state.old.reservation))
        (λ watch. HartTouchesOne state.old.breaks.watches.items state.old.profile
        (hart_with (state_in M.bytes M.writable executor.old) state.old.reservation) watch
        × ((answer : StepAnswer) × HartStepped state.old.profile
        state.old.reservation state.old.history (state_in M.bytes M.writable executor.old) answer
        state.new.reservation state.new.history (state_in M.bytes M.writable executor.new))) }
{
    let (profile, reserved) = (state.profile, state.reservation);
    let Some(watch) = watch_hart(executor, &state.breaks.watches, profile, reserved) else {
        return None;
    };
    let mark = mark_of(environment, state.made, reserved);
    let (history, reservation) = (&mut state.history, &mut state.reservation);
    if step_hart_recorded(executor, reservation, profile, history).is_ok() {
        let _forgotten = state.calls.push_front(mark);
    }
    Some(watch)
}

/// Goes back, to a stop or for `limit` steps, each call being one. Steps that are taken back are no
/// longer counted.
pub(crate) fn backward<'a, M: Memory>(
    state: &mut SessionState<'a>,
    executor: &mut InstructionExecutor<M>,
    environment: &mut OutputRecorder<'a>,
    limit: u64,
) -> Stop
    ensures places { PlacesKept state.old state.new }
    ensures back { SessionGoesBack limit result
        state.old environment.old (state_in M.bytes M.writable executor.old)
        state.new environment.new (state_in M.bytes M.writable executor.new) }
{
    state.has_entered = false;
    state.has_told_exit = false;
    let mut left = limit;
    'legs: while left > 0 {
        let back = go_back(executor, &mut state.history, left, &state.breaks);
        if !is_behind_call(&back.end) {
            state.steps = state.steps.saturating_sub(back.steps);
            return stop_back(&back.end);
        }
        take_call_back(state, environment);
        if let Some(watch) = touch_again(state, executor, environment) {
            state.steps = state.steps.saturating_sub(back.steps.saturating_sub(1));
            return Stop::Touched(watch);
        }
        state.steps = state.steps.saturating_sub(back.steps);
        if is_stop(&state.breaks.stops, executor.hart_state.pc) {
            return Stop::Signal(TRAPPED);
        }
        left -= 1;
    }
    Stop::Signal(TRAPPED)
}
