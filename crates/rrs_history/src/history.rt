//! The latest changes, newest first.

ghost use Rattle.std.specs.Prelude.{◌≡◌, ◌∷◌, [], ◌≤◌, ◌↔◌, false, List, length, take, count_by, slice_get, IfOk, IfSome, IfNone, OnOk, OnErr, IsTrue};
ghost use Rattle.std.specs.List.{list_any};
ghost use Rattle.rrs_history.specs.declared.change.Change.{Change};
ghost use Rattle.rrs_lib.specs.Machine.{State};
ghost use Rattle.rrs_lib.specs.Executor.{state_in, KeepsTheRest};
ghost use Rattle.rrs_lib.specs.Accesses.{Access, Makes, MakesExactly};
ghost use Rattle.rrs_lib.specs.Steps.{Step, IsOnlyStep, LastIsRegister, cleared};
ghost use Rattle.rrs_history.specs.Changes.{NotedAccessesOf};
ghost use Rattle.rrs_history.specs.Histories.{changes, room, past, of_calls, Tells, Remembers, TakesBack, ForgetsOne};

use crate::change::{Change, step_noted, undo};
use circular_buffer::HeapCircularBuffer;
use rrs_lib::Memory;
use rrs_lib::instruction_executor::{InstructionException, InstructionExecutor};
use std::alloc::{AllocError, Global};

/// A ring with room for so many items, which holds the first ones of another.
///
/// # Errors
///
/// Out of memory.
pub fn newest<T: Copy>(
    alloc: Global,
    old: &HeapCircularBuffer<T>,
    capacity: usize,
) -> Result<HeapCircularBuffer<T>, AllocError>
    ensures kept { IfOk result (λ ring. ring.items ≡ take capacity old.now.items) }
    ensures room { IfOk result (λ ring. ring.capacity ≡ capacity) }
{
    let mut ring = HeapCircularBuffer::with_capacity(alloc, capacity)?;
    let (front, back) = old.as_slices();
    let _first = ring.fill_from_slice(front);
    let _rest = ring.fill_from_slice(back);
    Ok(ring)
}

/// The latest changes of a machine, as many as there is room for: the oldest go first.
///
/// A step is one change. The clauses speak of `changes`, the changes that are kept, newest first,
/// of `room`, how many may be kept, and of `past`, the states that they lead back to from the state
/// of the machine.
#[derive(Drop)]
pub struct History {
    /// The changes, newest first.
    ring: HeapCircularBuffer<Change>,
}

impl History {
    /// An empty history with room for this many changes, of 32 bytes each. It allocates once; no
    /// step does. Room for none keeps nothing.
    ///
    /// # Errors
    ///
    /// `AllocError` where there is not as much memory.
    pub fn new(alloc: Global, capacity: usize) -> Result<History, AllocError>
        ensures { IfOk result (λ h. (changes h ≡ []) × (room h ≡ capacity)) }
    {
        let ring = HeapCircularBuffer::with_capacity(alloc, capacity)?;
        Ok(History { ring })
    }

    /// How many changes may be kept.
    pub fn room(&self) -> usize
        ensures room { result ≡ room self.now }
        ensures within { length (changes self.now) ≤ room self.now }
    {
        self.ring.capacity()
    }

    /// How many changes are kept.
    pub fn len(&self) -> usize
        ensures { result ≡ length (changes self.now) }
    {
        self.ring.len()
    }

    /// Whether no change is kept.
    pub fn is_empty(&self) -> bool
        ensures { IsTrue result ↔ (changes self.now ≡ []) }
    {
        self.ring.is_empty()
    }

    /// The latest change, if one is kept.
    pub fn latest(&self) -> Option<Change>
        ensures { result ≡ slice_get (changes self.now) 0 }
    {
        self.ring.front().copied()
    }

    /// How many steps and calls can be taken back: the change with which each began is kept.
    ///
    /// From any state the changes lead back to so many states (`states`).
    pub fn steps(&self) -> usize
        ensures begun { result ≡ count_by (λ (c : Change). c.starts) (changes self.now) }
        ensures states { (s : State) → length (past (changes self.now) s) ≡ result }
    {
        self.ring.iter().filter(|change| change.starts).count()
    }

    /// Whether a step can be taken back.
    #[inline]
    pub fn leads_back(&self) -> bool
        ensures { result ≡ list_any (λ (c : Change). c.starts) (changes self.now) }
    {
        self.ring.iter().any(|change| change.starts)
    }

    /// Keeps a change as the latest one. Where there is no room, the oldest goes.
    #[inline]
    pub fn push(&mut self, change: Change)
        ensures changes { changes self.new ≡ take (room self.old) (change ∷ changes self.old) }
        ensures room { room self.new ≡ room self.old }
        ensures within { length (changes self.old) ≤ room self.old }
    {
        let _room = self.room();
        let _oldest = self.ring.push_front(change);
    }

    /// Forgets the latest step or call, with all its changes, and takes nothing back.
    pub(crate) fn forget_latest(&mut self)
        ensures forgets { (t : State) → ForgetsOne (changes self.old) t (changes self.new) }
        ensures room { room self.new ≡ room self.old }
    {
        'parts: while let Some(latest) = self.ring.pop_front() {
            if latest.starts {
                return;
            }
        }
    }

    /// A history with room for this many changes, which keeps the latest ones of this one: as many
    /// as there is room for. This one stays.
    ///
    /// # Errors
    ///
    /// `AllocError` where there is not as much memory.
    pub fn with_room(&self, alloc: Global, capacity: usize) -> Result<History, AllocError>
        ensures kept { IfOk result (λ h. changes h ≡ take capacity (changes self.now)) }
        ensures room { IfOk result (λ h. room h ≡ capacity) }
    {
        let ring = newest(alloc, &self.ring, capacity)?;
        Ok(History { ring })
    }

    /// Forgets all changes, as after a change of the machine that is not kept.
    pub fn clear(&mut self)
        ensures changes { changes self.new ≡ [] }
        ensures room { room self.new ≡ room self.old }
    {
        self.ring.clear();
    }
}

/// Makes a step, and keeps its change.
///
/// The step is that of `step`, with its answer and its accesses, and before its store one read
/// more, of the bytes that it is to replace (`accesses`). After a step that is `Ok` the history
/// leads back to the state before it, and from there to the states before that (`remembered`), and
/// tells that it was no call (`told`): so n steps, and [step_back] n times, leave registers, pc,
/// last written register and bytes as they were, if there is room for n changes. From a state there
/// is one step (`only`), so that forward again the same steps are made. Nothing is allocated.
///
/// # Errors
///
/// The exceptions of `step`. After each of them the registers, the pc and the bytes are as before,
/// and no register is the one written last. Nothing is kept, and the history leads back to the
/// states to which it led before (`kept`).
pub fn step_recorded<M: Memory>(
    executor: &mut InstructionExecutor<M>,
    history: &mut History,
) -> Result<(), InstructionException>
    ensures step { Step (state_in M.bytes M.writable executor.old)
        (state_in M.bytes M.writable executor.new) result }
    ensures only { IsOnlyStep (state_in M.bytes M.writable executor.old)
        (state_in M.bytes M.writable executor.new) result }
    ensures fault { OnErr result (state_in M.bytes M.writable executor.new
        ≡ cleared (state_in M.bytes M.writable executor.old)) }
    ensures remembered { OnOk result (Remembers
        history.old (state_in M.bytes M.writable executor.old)
        history.new (state_in M.bytes M.writable executor.new)) }
    ensures told { OnOk result (Tells (false ∷ of_calls (changes history.old)) history.new) }
    ensures kept { OnErr result ((changes history.new ≡ changes history.old)
        × (past (changes history.new) (state_in M.bytes M.writable executor.new)
        ≡ past (changes history.old) (state_in M.bytes M.writable executor.old))) }
    ensures room { room history.new ≡ room history.old }
    ensures last { LastIsRegister executor.new.hart_state.now.last_register_write }
    ensures rest { KeepsTheRest M.layout executor.old executor.new }
    ensures accesses { MakesExactly M.reads M.writes
        (NotedAccessesOf (state_in M.bytes M.writable executor.old))
        executor.old.mem.now executor.new.mem.now }
{
    let (answer, change) = step_noted(executor);
    if answer.is_ok() {
        history.push(change);
    }
    answer
}

/// Takes the latest step back, or the latest call, and returns the change with which it began.
///
/// The state is then the newest one that the history led back to, and the history leads to the
/// others (`back`). The hart is at the pc of the change (`at_its_pc`). Exactly the bytes that the
/// step had stored are written, and nothing is read (`taken`). What a device keeps beside its bytes
/// stays.
///
/// The answer is `None`, and nothing changes, where the history leads to no state.
pub fn step_back<M: Memory>(
    executor: &mut InstructionExecutor<M>,
    history: &mut History,
) -> Option<Change>
    ensures back { IfSome result (λ change.
        past (changes history.old) (state_in M.bytes M.writable executor.old)
        ≡ state_in M.bytes M.writable executor.new
        ∷ past (changes history.new) (state_in M.bytes M.writable executor.new)) }
    ensures at_its_pc { IfSome result (λ change. executor.new.hart_state.now.pc ≡ change.pc) }
    ensures taken { IfSome result (λ change. (accesses : List Access)
        × TakesBack (changes history.old) change (changes history.new)
        (state_in M.bytes M.writable executor.old)
        (state_in M.bytes M.writable executor.new) accesses
        × Makes M.reads M.writes accesses executor.old.mem.now executor.new.mem.now) }
    ensures none { IfNone result
        (past (changes history.old) (state_in M.bytes M.writable executor.old) ≡ []) }
    ensures unchanged { IfNone result ((changes history.new ≡ changes history.old)
        × (state_in M.bytes M.writable executor.new ≡ state_in M.bytes M.writable executor.old)
        × (executor.new.mem.now ≡ executor.old.mem.now)) }
    ensures room { room history.new ≡ room history.old }
    ensures rest { KeepsTheRest M.layout executor.old executor.new }
{
    if !history.leads_back() {
        return None;
    }
    'parts: while let Some(change) = history.ring.pop_front() {
        undo(executor, &change);
        if change.starts {
            return Some(change);
        }
    }
    None
}
