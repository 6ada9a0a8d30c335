//! What the devices do between two steps.

ghost use Rattle.std.specs.Prelude.{◌≡◌, None, ◌+◌, ◌/◌, ◌%◌, ◌^◌, ◌<◌, ◌≤◌, ◌==◌};
ghost use Rattle.rrs_board.specs.Clint.{can_wake};
ghost use Rattle.rrs_board.specs.Finisher.{status_of, restarts};
ghost use Rattle.rrs_machine.specs.MachineSteps.{MachineState, fetched_at};
ghost use Rattle.rrs_board.specs.Effects.{inputs_of, shown_word, showing, transmits, finds_none, byte_at, uart_after, answered_access, answered, finisher_event, access_event, ticked, waited, settled, event_after, Tells, StandsInVain, arrived, waits_for_input};

use crate::devices::{DeviceAccess, Devices, looked_at, wrote};
use crate::memory::RAM_START;
use crate::uart::Uart;
use rrs_hart::Encoding;
use rrs_lib::instruction_executor::InstructionException;
use rrs_machine::{CsrFile, Inputs, MachineAnswer};

/// What a device has for the caller.
#[derive(Debug, PartialEq, Clone, Copy)]
pub enum BoardEvent {
    /// The program transmitted this byte.
    Transmitted(u8),
    /// The program looked at LSR or IIR, and the UART held no byte.
    Looked,
    /// The program ended with this status.
    Finished(u32),
    /// A `wfi` waits for the alarm, and time went forward to it.
    Waits,
    /// A `wfi` waits, and no alarm can end that.
    NothingWakes,
    /// The hart is dead: it jumps to itself, and takes no interrupt.
    Spins,
    /// The hart is dead: a trap went to a handler that can't be fetched.
    LacksHandler,
    /// The program asked that the board starts anew.
    Restarts,
}

/// The address of the finisher.
const FINISHER: u32 = 0x0010_0000;
/// The address of the UART.
const UART: u32 = 0x1000_0000;

/// Four registers of the UART from an offset on.
fn shown_word(uart: &Uart, offset: u32) -> u32
    requires { offset < 8 }
    ensures { result ≡ shown_word uart.now offset }
{
    u32::from(uart.shown(offset))
        + u32::from(uart.shown(offset + 1)) * 0x100
        + u32::from(uart.shown(offset + 2)) * 0x1_0000
        + u32::from(uart.shown(offset + 3)) * 0x100_0000
}

/// The status with which a word for the finisher ends the program.
fn status_of(word: u32) -> Option<u32>
    ensures { result ≡ status_of word }
{
    match word % 0x1_0000 {
        0x5555 => Some(0),
        0x3333 => Some(word / 0x1_0000),
        _ => None,
    }
}

/// What the caller is told of a word for the finisher.
fn finisher_event(word: u32) -> Option<BoardEvent>
    ensures { result ≡ finisher_event word }
{
    if word % 0x1_0000 == 0x7777 {
        return Some(BoardEvent::Restarts);
    }
    match status_of(word) {
        Some(status) => Some(BoardEvent::Finished(status)),
        None => None,
    }
}

/// What the caller is told of a hart with these CSRs at a pc where this is fetched, where no device
/// has anything for him: that it is dead, or nothing.
pub fn dead_event(
    csrs: &CsrFile,
    pc: u32,
    fetched: Result<Encoding, InstructionException>,
) -> Option<BoardEvent>
    ensures told { (s : MachineState) → s.csrs ≡ csrs.now → s.hart.pc ≡ pc
        → fetched_at s ≡ fetched → Tells None result s }
    ensures alive { (s : MachineState) → s.csrs ≡ csrs.now → s.hart.pc ≡ pc
        → fetched_at s ≡ fetched → result ≡ None → ¬ StandsInVain s }
{
    if !csrs.stands_still(pc, fetched) {
        return None;
    }
    match fetched {
        Err(_) => Some(BoardEvent::LacksHandler),
        Ok(_) if pc >= RAM_START => Some(BoardEvent::Spins),
        Ok(_) => None,
    }
}

/// A byte of a word.
fn byte_of(word: u32, place: u32) -> u8
    requires { place < 4 }
    ensures { result ≡ word / 256 ^ place % 256 }
{
    match place {
        0 => (word % 0x100) as u8,
        1 => (word / 0x100 % 0x100) as u8,
        2 => (word / 0x1_0000 % 0x100) as u8,
        _ => (word / 0x100_0000 % 0x100) as u8,
    }
}

impl Devices {
    /// What the hart is told before a step.
    #[inline(always)]
    pub fn inputs(&self) -> Inputs
        ensures { result ≡ inputs_of self.now }
    {
        Inputs {
            external: false,
            software: self.software % 2 == 1,
            timer: self.alarm <= self.time,
            time: self.time,
        }
    }

    /// How many units of time may pass before the alarm comes, or time starts again from 0.
    pub(crate) fn time_left(&self) -> u64
        ensures alarm { self.now.time < self.now.alarm
            → self.now.time + result ≤ self.now.alarm }
        ensures goes_on { self.now.time + result < 2 ^ 64 }
    {
        if self.time < self.alarm {
            self.alarm - self.time
        } else {
            u64::MAX - self.time
        }
    }

    /// Lets so many units of time pass.
    pub(crate) fn pass(&mut self, units: u64)
        requires { self.old.time + units < 2 ^ 64 }
        ensures { self.new ≡ record self.old { time = self.old.time + units } }
    {
        self.time += units;
    }

    /// Hands the UART a byte that arrives. Where it holds one already, the byte is lost: ask
    /// [Uart::has_byte] first.
    pub fn receive(&mut self, byte: u8)
        ensures { self.new ≡ arrived byte self.old }
    {
        let mut uart = self.uart;
        uart.receive(byte);
        self.show(uart);
    }

    /// Whether the UART asks for received data, and holds none.
    pub fn waits_for_input(&self) -> bool
        ensures { result ≡ waits_for_input self.now }
    {
        self.uart.asks_for_data() && !self.uart.has_byte()
    }

    /// Shows the registers of a UART.
    pub fn show(&mut self, uart: Uart)
        ensures { self.new ≡ showing uart self.old }
    {
        self.uart = uart;
        self.uart_low = shown_word(&uart, 0);
        self.uart_high = shown_word(&uart, 4);
    }

    /// Whether the program transmitted a byte.
    fn transmits(&self) -> bool
        ensures { result ≡ transmits self.now }
    {
        wrote(UART, self.access) && !self.uart.has_divisor()
    }

    /// Whether the program looked at LSR or IIR, and no byte was there.
    fn finds_none(&self) -> bool
        ensures { result ≡ finds_none self.now }
    {
        (looked_at(UART + 5, self.access) || looked_at(UART + 2, self.access))
            && !self.uart.has_byte()
    }

    /// The byte that a register of the UART has after a write.
    fn byte_at(&self, offset: u32) -> u8
        ensures { result ≡ byte_at offset self.now }
    {
        let word = if offset < 4 {
            self.uart_low
        } else {
            self.uart_high
        };
        byte_of(word, offset % 4)
    }

    /// The UART after an access: after a look, then after a write.
    fn uart_after(&self, access: DeviceAccess) -> Uart
        ensures { result ≡ uart_after access self.now }
    {
        let mut uart = self.uart;
        if access.address >= UART {
            let offset = access.address - UART;
            if access.is_read {
                uart.look(offset);
            }
            if access.is_write {
                uart.write(offset, self.byte_at(offset));
            }
        }
        uart
    }

    /// Answers to an access.
    fn answer_access(&mut self, access: DeviceAccess)
        ensures { self.new ≡ answered_access access self.old }
    {
        let uart = self.uart_after(access);
        self.finisher = 0;
        self.software %= 2;
        self.access = None;
        self.show(uart);
    }

    /// Answers to an access, where there was one.
    #[inline(always)]
    fn answer(&mut self)
        ensures { self.new ≡ answered self.old }
    {
        match self.access {
            Some(access) => self.answer_access(access),
            None => {}
        }
    }

    /// What the caller is told of an access.
    fn access_event(&self) -> Option<BoardEvent>
        ensures { result ≡ access_event self.now }
    {
        if wrote(FINISHER, self.access) {
            finisher_event(self.finisher)
        } else if self.transmits() {
            Some(BoardEvent::Transmitted(self.byte_at(0)))
        } else if self.finds_none() {
            Some(BoardEvent::Looked)
        } else {
            None
        }
    }

    /// Lets time go on where an instruction retired.
    #[inline(always)]
    fn tick(&mut self, answer: MachineAnswer)
        ensures { self.new ≡ ticked answer self.old }
    {
        match answer {
            MachineAnswer::Raised(_) | MachineAnswer::Interrupted(_) => {}
            MachineAnswer::Retired | MachineAnswer::Waiting => {
                self.time = self.time.wrapping_add(1);
            }
        }
    }

    /// Whether an alarm can end a wait.
    fn can_wake(&self, csrs: &CsrFile) -> bool
        ensures { result ≡ can_wake csrs.now self.now.alarm }
    {
        csrs.mie / 0x80 % 2 == 1 && self.alarm < u64::MAX
    }

    /// Goes forward to the alarm where the hart waits for it.
    fn wait(&mut self, answer: MachineAnswer, csrs: &CsrFile)
        ensures { self.new ≡ waited answer csrs.now self.old }
    {
        if let MachineAnswer::Waiting = answer {
            if self.can_wake(csrs) && self.time < self.alarm {
                self.time = self.alarm;
            }
        }
    }

    /// What the caller is told after a step.
    fn event_after(&self, answer: MachineAnswer, csrs: &CsrFile) -> Option<BoardEvent>
        ensures { result ≡ event_after answer csrs.now self.now }
    {
        match answer {
            MachineAnswer::Waiting if self.can_wake(csrs) => Some(BoardEvent::Waits),
            MachineAnswer::Waiting => Some(BoardEvent::NothingWakes),
            _ => self.access_event(),
        }
    }

    /// Does what is to be done after a step that ended so, and answers what the caller is told.
    pub fn settle(&mut self, answer: MachineAnswer, csrs: &CsrFile) -> Option<BoardEvent>
        ensures devices { self.new ≡ settled answer csrs.now self.old }
        ensures event { result ≡ event_after answer csrs.now self.old }
    {
        let event = self.event_after(answer, csrs);
        self.answer();
        self.tick(answer);
        self.wait(answer, csrs);
        event
    }
}
