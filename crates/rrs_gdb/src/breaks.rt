//! Where a run stops.

ghost use Rattle.std.specs.Prelude.{◌≡◌, ◌≤◌, [], Contains, MatchOption, Ok, OnErr, OnOk};
ghost use Rattle.std.specs.Bool.{OnTrue, OnFalse};
ghost use Rattle.rrs_lib.specs.Bytes.{width};
ghost use Rattle.rrs_lib.specs.Executor.{state_in, KeepsTheRest};
ghost use Rattle.rrs_trace.specs.Outside.{AccessesAfterFetch, WithEachMemory, requested};
ghost use Rattle.rrs_gdb.specs.declared.breaks.Watch.{Watch};
ghost use Rattle.rrs_gdb.specs.Shown.{kind_name};
ghost use Rattle.rrs_gdb.specs.declared.breaks.Break.{Break};
ghost use Rattle.rrs_gdb.specs.Sessions.{IsBreak};
ghost use Rattle.rrs_gdb.specs.Breaks.{WithBreak, WithoutBreak, WithEntry, WithoutEntry, IsWatched, IsAskedOf, TouchesNone, TouchesOne};

use crate::numbers::{address_and_length, cut_or_all};
use rrs_lib::instruction_executor::{InstructionExecutor, fetch_word};
use rrs_lib::{HartState, MemAccessSize, Memory};
use rrs_trace::{DataRequest, request};
use std::alloc::{AllocError, Global};

/// Which accesses a watchpoint is for.
#[derive(Clone, Copy, Debug, PartialEq)]
pub enum WatchKind {
    /// Stores.
    Write,
    /// Loads.
    Read,
    /// Both.
    Access,
}

/// A watchpoint: addresses, and the accesses to them at which a run stops.
#[derive(Clone, Copy, Debug, PartialEq)]
pub struct Watch {
    /// Which accesses.
    pub kind: WatchKind,
    /// The first address.
    pub address: u32,
    /// How many addresses there are.
    pub length: u32,
}

impl Watch {
    /// The name of its kind, as gdb is told.
    pub(crate) fn name(&self) -> &'static [u8]
        ensures { result.now ≡ kind_name self.now.kind }
    {
        match self.kind {
            WatchKind::Write => b"watch",
            WatchKind::Read => b"rwatch",
            WatchKind::Access => b"awatch",
        }
    }

    /// Whether an access touches one of the addresses.
    fn is_touched(&self, access: DataRequest) -> bool
        ensures yes { OnTrue result (IsAskedOf self.now access) }
        ensures no { OnFalse result (¬ IsAskedOf self.now access) }
    {
        let (is_kind, address, size) = match access {
            DataRequest::Load(address, size) => (self.kind != WatchKind::Write, address, size),
            DataRequest::Store(address, size, _) => (self.kind != WatchKind::Read, address, size),
        };
        is_kind && self.is_watched(address, width_of(size))
    }

    /// Whether one of so many addresses is watched, of which there is one at least.
    fn is_watched(&self, address: u32, count: u64) -> bool
        requires { (1 ≤ count) × (count ≤ 4) }
        ensures yes { OnTrue result (IsWatched self.now address count) }
        ensures no { OnFalse result (¬ IsWatched self.now address count) }
    {
        let start = u64::from(self.address);
        let from = u64::from(address);
        if self.length == 0 {
            return false;
        }
        if from >= start + u64::from(self.length) {
            return false;
        }
        start < from + count
    }
}

/// One place where a run stops.
#[derive(Clone, Copy, Debug, PartialEq)]
pub enum Break {
    /// Before the instruction at an address.
    Stop(u32),
    /// At an access.
    Watch(Watch),
}

/// The breakpoint or the watchpoint that `Z` or `z` names, by what stands after the letter: a type,
/// a comma, an address, a comma and a number, which of a watchpoint is how many addresses there
/// are. Conditions, after a semicolon, are not looked at.
pub fn break_of(text: &[u8]) -> Option<Break>
    ensures { MatchOption result ((place : Break) → ¬ IsBreak text.now place)
        (λ place. IsBreak text.now place) }
{
    let (kind, rest) = cut_or_all(text, b',');
    let (address, length) = address_and_length(cut_or_all(rest, b';').0)?;
    let kind = match kind {
        b"0" | b"1" => return Some(Break::Stop(address)),
        b"2" => WatchKind::Write,
        b"3" => WatchKind::Read,
        b"4" => WatchKind::Access,
        _ => return None,
    };
    Some(Break::Watch(Watch {
        kind,
        address,
        length,
    }))
}

/// The number of bytes of an access.
fn width_of(size: MemAccessSize) -> u64
    ensures value { result ≡ width size }
    ensures small { (1 ≤ result) × (result ≤ 4) }
{
    match size {
        MemAccessSize::Byte => 1,
        MemAccessSize::HalfWord => 2,
        MemAccessSize::Word => 4,
    }
}

/// Where a run stops: before instructions at addresses, and after accesses.
#[derive(Drop)]
pub struct Breaks {
    /// The addresses of instructions, each once.
    pub stops: Vec<u32>,
    /// The watchpoints, each once.
    pub watches: Vec<Watch>,
}

impl Breaks {
    /// None.
    pub fn new(alloc: Global) -> Breaks
        ensures stops { result.stops.items ≡ [] }
        ensures watches { result.watches.items ≡ [] }
    {
        Breaks {
            stops: Vec::new(alloc),
            watches: Vec::new(alloc),
        }
    }

    /// Sets a breakpoint, if it isn't set already.
    ///
    /// # Errors
    ///
    /// Out of memory. Then the breakpoints are as they were.
    pub fn set_stop(&mut self, address: u32) -> Result<(), AllocError>
        ensures set { OnOk result
            (WithEntry self.old.stops.items address self.new.stops.items) }
        ensures watches { self.new.watches.items ≡ self.old.watches.items }
        ensures none { OnErr result (self.new.stops.items ≡ self.old.stops.items) }
    {
        if self.stops.contains(&address) {
            return Ok(());
        }
        self.stops.push(address)?;
        Ok(())
    }

    /// Removes a breakpoint, if it is set.
    pub fn remove_stop(&mut self, address: u32)
        ensures removed { WithoutEntry self.old.stops.items address self.new.stops.items }
        ensures watches { self.new.watches.items ≡ self.old.watches.items }
    {
        self.stops.retain(|stop| *stop != address);
    }

    /// Sets a watchpoint, if it isn't set already.
    ///
    /// # Errors
    ///
    /// Out of memory. Then the watchpoints are as they were.
    pub fn set_watch(&mut self, watch: Watch) -> Result<(), AllocError>
        ensures set { OnOk result
            (WithEntry self.old.watches.items watch self.new.watches.items) }
        ensures stops { self.new.stops.items ≡ self.old.stops.items }
        ensures none { OnErr result (self.new.watches.items ≡ self.old.watches.items) }
    {
        if self.watches.contains(&watch) {
            return Ok(());
        }
        self.watches.push(watch)?;
        Ok(())
    }

    /// Removes a watchpoint, if it is set.
    pub fn remove_watch(&mut self, watch: Watch)
        ensures removed { WithoutEntry self.old.watches.items watch self.new.watches.items }
        ensures stops { self.new.stops.items ≡ self.old.stops.items }
    {
        self.watches.retain(|other| *other != watch);
    }

    /// Sets a breakpoint or a watchpoint, if it isn't set already.
    ///
    /// # Errors
    ///
    /// Out of memory. Then all are as they were.
    pub fn set(&mut self, place: Break) -> Result<(), AllocError>
        ensures set { OnOk result (WithBreak place self.old self.new) }
        ensures stops { OnErr result (self.new.stops.items ≡ self.old.stops.items) }
        ensures watches { OnErr result (self.new.watches.items ≡ self.old.watches.items) }
    {
        match place {
            Break::Stop(address) => self.set_stop(address),
            Break::Watch(watch) => self.set_watch(watch),
        }
    }

    /// Removes a breakpoint or a watchpoint, if it is set.
    pub fn remove(&mut self, place: Break)
        ensures removed { WithoutBreak place self.old self.new }
    {
        match place {
            Break::Stop(address) => self.remove_stop(address),
            Break::Watch(watch) => self.remove_watch(watch),
        }
    }
}

/// The first watchpoint that an access touches.
pub(crate) fn touched(watches: &[Watch], access: DataRequest) -> Option<Watch>
    ensures { MatchOption result
        ((watch : Watch) → Contains watches.now watch → ¬ IsAskedOf watch access)
        (λ watch. Contains watches.now watch × IsAskedOf watch access) }
{
    for watch in watches {
        if watch.is_touched(access) {
            return Some(*watch);
        }
    }
    None
}

/// The access that the step from here makes beside its fetch.
fn access_at<M: Memory>(executor: &mut InstructionExecutor<M>) -> Option<DataRequest>
    ensures kept { state_in M.bytes M.writable executor.new
        ≡ state_in M.bytes M.writable executor.old }
    ensures access { AccessesAfterFetch (state_in M.bytes M.writable executor.old)
        (requested (state_in M.bytes M.writable executor.old) (Ok result)) }
    ensures rest { KeepsTheRest M.layout executor.old executor.new }
{
    match fetch_word(executor.mem, executor.hart_state.pc) {
        Ok(word) => access_of(executor.hart_state, word),
        Err(_) => None,
    }
}

/// The access that the step of a word makes.
fn access_of(hart: &HartState, word: u32) -> Option<DataRequest>
    ensures { WithEachMemory hart.now word (λ s. AccessesAfterFetch s (requested s (Ok result))) }
{
    match request(hart, word) {
        Ok(access) => access,
        Err(_) => None,
    }
}

/// The first watchpoint that the step from here touches. The word of the step is fetched, if there
/// are watchpoints, and nothing else is accessed.
pub(crate) fn watch_at<M: Memory>(
    executor: &mut InstructionExecutor<M>,
    watches: &[Watch],
) -> Option<Watch>
    ensures kept { state_in M.bytes M.writable executor.new
        ≡ state_in M.bytes M.writable executor.old }
    ensures touched { MatchOption result
        (TouchesNone watches.now (state_in M.bytes M.writable executor.old))
        (λ watch. TouchesOne watches.now (state_in M.bytes M.writable executor.old) watch) }
    ensures rest { KeepsTheRest M.layout executor.old executor.new }
{
    if watches.is_empty() {
        return None;
    }
    match access_at(executor) {
        Some(access) => touched(watches, access),
        None => None,
    }
}
