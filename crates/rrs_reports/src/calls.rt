//! The calls of a run: which function called which, from where, how often, and how many steps were
//! made until it returned.

use crate::code::{Code, entry};
use rrs_lib::instruction::Instruction;
use rrs_lib::instruction_formats::{IType, JType};
use rrs_words::{decode_short, expanded};
use std::alloc::{AllocError, Global};

/// How a step went on to the next one. A jump to the next instruction is in no special way.
#[derive(Clone, Copy, PartialEq)]
enum Kind {
    /// By `jal` or `jalr` that writes x1 or x5, the registers for return addresses.
    Call,
    /// The same by a compressed instruction, which has 2 bytes.
    ShortCall,
    /// By `jalr` that writes no register and jumps to x1 or x5.
    Return,
    /// In another way.
    Other,
    /// There was none: the run starts.
    Start,
}

/// The calls of a function from an instruction.
#[derive(Clone, Copy)]
pub struct Call {
    /// The address of the instruction.
    pub site: u32,
    /// The number of the function that the instruction is of, 0 where it is of none, and else 1
    /// more than its place among the functions of the code.
    pub caller: u32,
    /// The number of the function that is called.
    pub callee: u32,
    /// How often it was called.
    pub count: u64,
    /// How many steps were made from there until it returned.
    pub inclusive: u64,
    /// 1 and the place of another call from an instruction in the same place, or 0.
    pub(crate) next: u32,
}

/// A function that has not returned.
#[derive(Clone, Copy)]
struct Frame {
    /// The place of its call among the calls.
    call: u32,
    /// The number of the function.
    callee: u32,
    /// Where it returns to.
    return_address: u32,
    /// How many steps were made before its first one.
    start: u64,
    /// Whether it was jumped to by another function, in whose place it returns.
    is_tail: bool,
}

/// The step before.
#[derive(Clone, Copy)]
struct Before {
    /// Its pc.
    pc: u32,
    /// The number of its function.
    owner: u32,
    /// How it goes on.
    kind: Kind,
}

/// The calls of a run, by the steps that it was shown.
#[derive(Drop)]
pub struct Calls {
    /// The calls, each pair of an instruction and a function once.
    calls: Vec<Call>,
    /// Of each unit of code 1 and the place of the first call from it, or 0.
    first: Vec<u32>,
    /// Of each function how often it was entered; entry 0 is for code of none.
    entries: Vec<u64>,
    /// The functions that have not returned, the latest last.
    frames: Vec<Frame>,
    /// The step before.
    before: Before,
    /// How many steps were made before the latest one, or at the end all.
    steps: u64,
    /// Whether memory was short, and calls are missing.
    is_short: bool,
}

/// How the instruction of a step goes on, by its bits.
#[inline(never)]
fn kind_of(bits: u32) -> Kind {
    if bits % 4 != 3 {
        return kind_of_half((bits % 65536) as u16);
    }
    let (opcode, rd, rs1) = (bits % 128, bits / 128 % 32, bits / 32768 % 32);
    let is_link = rd == 1 || rd == 5;
    match opcode {
        0x6f if is_link => Kind::Call,
        0x67 if is_link => Kind::Call,
        0x67 if rd == 0 && (rs1 == 1 || rs1 == 5) => Kind::Return,
        _ => Kind::Other,
    }
}

/// How a compressed instruction goes on, as what it stands for does.
fn kind_of_half(half: u16) -> Kind {
    let Some(short) = decode_short(half) else {
        return Kind::Other;
    };
    match expanded(&short) {
        Instruction::Jal(JType { rd: 1 | 5, .. }) => Kind::ShortCall,
        Instruction::Jalr(IType { rd: 1 | 5, .. }) => Kind::ShortCall,
        Instruction::Jalr(
            IType {
                rd: 0,
                rs1: 1 | 5,
                ..
            },
        ) => Kind::Return,
        _ => Kind::Other,
    }
}

/// The address behind the call of a step, to which the function returns.
fn return_address(before: Before) -> u32 {
    match before.kind {
        Kind::ShortCall => before.pc.wrapping_add(2),
        _ => before.pc.wrapping_add(4),
    }
}

impl Calls {
    /// No calls, of this code.
    ///
    /// # Errors
    ///
    /// Out of memory.
    pub fn new(alloc: Global, code: &Code<'_>) -> Result<Calls, AllocError> {
        let functions = code.functions().len().saturating_add(1);
        Ok(Calls {
            calls: Vec::new(alloc),
            first: vec![in alloc; 0; code.units()]?,
            entries: vec![in alloc; 0; functions]?,
            frames: Vec::new(alloc),
            before: Before {
                pc: 0,
                owner: 0,
                kind: Kind::Start,
            },
            steps: 0,
            is_short: false,
        })
    }

    /// The calls, in the order in which they were made first.
    pub fn calls(&self) -> &[Call] {
        &self.calls
    }

    /// 1 and the place of a call from the instruction at an address, or 0.
    pub(crate) fn first_from(&self, code: &Code<'_>, address: u32) -> u32 {
        entry(&self.first, code.place_of(address))
    }

    /// The call at a place, to which 1 was added.
    pub(crate) fn call(&self, next: u32) -> Option<&Call> {
        self.calls.get(next.wrapping_sub(1) as usize)
    }

    /// How often the function of a number was entered: by a call, by itself or another, or by a
    /// jump, a branch or a fall-through from another function that is no return to it.
    pub fn entries(&self, function: u32) -> u64 {
        self.entries.get(function as usize).copied().unwrap_or(0)
    }

    /// Whether memory was short, and calls are missing.
    pub fn is_short(&self) -> bool {
        self.is_short
    }

    /// The place of the call of a function from an instruction, which is made if it is not there.
    fn place_of(&mut self, code: &Code<'_>, before: Before, callee: u32) -> Option<u32> {
        let first = self.first_from(code, before.pc);
        let mut next = first;
        for _ in 0..u32::MAX {
            let Some(call) = self.call(next) else {
                break;
            };
            if call.callee == callee && call.site == before.pc {
                return Some(next.wrapping_sub(1));
            }
            next = call.next;
        }
        let place = self.calls.len().min(u32::MAX as usize - 1) as u32;
        let call = Call {
            site: before.pc,
            caller: before.owner,
            callee,
            count: 0,
            inclusive: 0,
            next: first,
        };
        if self.calls.push(call).is_err() {
            return None;
        }
        if let Some(first) = self.first.get_mut(code.place_of(before.pc)) {
            *first = place.wrapping_add(1);
        }
        Some(place)
    }

    /// Enters a function.
    fn enter(&mut self, code: &Code<'_>, before: Before, callee: u32, is_tail: bool) {
        if let Some(count) = self.entries.get_mut(callee as usize) {
            *count = count.saturating_add(1);
        }
        let Some(call) = self.place_of(code, before, callee) else {
            self.is_short = true;
            return;
        };
        if let Some(made) = self.calls.get_mut(call as usize) {
            made.count = made.count.saturating_add(1);
        }
        let frame = Frame {
            call,
            callee,
            return_address: return_address(before),
            start: self.steps,
            is_tail,
        };
        if self.frames.push(frame).is_err() {
            self.is_short = true;
        }
    }

    /// Takes all but the first so many functions as returned.
    fn leave_down_to(&mut self, count: usize) {
        for _ in count..self.frames.len() {
            if let Some(frame) = self.frames.pop() {
                let steps = self.steps.saturating_sub(frame.start);
                if let Some(call) = self.calls.get_mut(frame.call as usize) {
                    call.inclusive = call.inclusive.saturating_add(steps);
                }
            }
        }
    }

    /// Returns to an address, and gives whether a function returns there. Those that jumped to the
    /// function return with it.
    fn return_to(&mut self, address: u32) -> bool {
        for above in 0..self.frames.len() {
            let place = self.frames.len().saturating_sub(above.saturating_add(1));
            if let Some(frame) = self.frames.get(place) {
                if frame.return_address == address && !frame.is_tail {
                    self.leave_down_to(place);
                    return true;
                }
            }
        }
        false
    }

    /// Goes on in a function that has not returned, as `longjmp` does, and gives whether there is
    /// one.
    fn resume(&mut self, owner: u32) -> bool {
        for above in 0..self.frames.len() {
            let count = self.frames.len().saturating_sub(above);
            if let Some(frame) = self.frames.get(count.saturating_sub(1)) {
                if frame.callee == owner {
                    self.leave_down_to(count);
                    return true;
                }
            }
        }
        false
    }

    /// Takes in the step of this number, at an address that a function has, which goes on from the
    /// step before. The bits there may be 0 where the next step is behind it.
    #[inline(always)]
    pub fn add(&mut self, code: &Code<'_>, number: u64, pc: u32, owner: u32, bits: u32) {
        if self.before.kind != Kind::Other || self.before.owner != owner {
            self.steps = number;
            self.go_on(code, self.before, pc, owner);
        }
        let kind = if bits == 0 {
            Kind::Other
        } else {
            kind_of(bits)
        };
        self.before = Before { pc, owner, kind };
    }

    /// An exception or an interrupt comes after the step before: a call or a return that it makes
    /// is taken as another jump.
    pub fn interrupt(&mut self) {
        if self.before.kind != Kind::Start {
            self.before.kind = Kind::Other;
        }
    }

    /// Goes on from a step to an address.
    #[inline(never)]
    fn go_on(&mut self, code: &Code<'_>, before: Before, pc: u32, owner: u32) {
        match before.kind {
            Kind::Start => {
                if let Some(count) = self.entries.get_mut(owner as usize) {
                    *count = count.saturating_add(1);
                }
            }
            Kind::Call | Kind::ShortCall => self.enter(code, before, owner, false),
            Kind::Return if self.return_to(pc) => {}
            _ if owner == before.owner => {}
            _ if !code.begins_function(pc) && self.resume(owner) => {}
            _ => self.enter(code, before, owner, true),
        }
    }

    /// Takes all functions as returned, at the end of a run of so many steps.
    pub fn finish(&mut self, steps: u64) {
        self.steps = steps;
        self.leave_down_to(0);
    }
}
