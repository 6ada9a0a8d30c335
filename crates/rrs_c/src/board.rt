//! A board, as C has it: the hart, its CSRs and what the devices keep.

ghost use Rattle.std.specs.Prelude.{◌≡◌, ◌%◌, not};
ghost use Rattle.rrs_board.specs.Uart.{has_byte};
ghost use Rattle.rrs_board.specs.Effects.{arrived};
ghost use Rattle.rrs_c.specs.Boards.{uart_in, devices_in, event_in, IsBoardEnd, as_number, IsResetInC};
ghost use Rattle.rrs_c.specs.LentBoards.{AreSettled};

use crate::hart::RrsHart;
use crate::machine::{RrsCsrs, csrs_of, profile_of};
use crate::retired::flag;
use rrs_board::{BoardEvent, Devices, Uart};
use rrs_machine::CsrFile;

/// What a UART keeps. Of each register the lowest byte counts.
#[repr(C)]
#[derive(Drop)]
pub struct RrsUart {
    /// 1 where a byte was received that the program has not read, any other number where none is
    /// held.
    pub holds: u32,
    /// That byte.
    pub received: u32,
    /// IER.
    pub interrupt_enable: u32,
    /// 1 where the FIFOs are enabled, any other number where they are not.
    pub has_fifos: u32,
    /// LCR.
    pub line_control: u32,
    /// MCR.
    pub modem_control: u32,
    /// SCR.
    pub scratch: u32,
    /// DLL.
    pub divisor_low: u32,
    /// DLM.
    pub divisor_high: u32,
    /// 1 where THR became empty, and no look at IIR told so since. Any other number says no.
    pub is_emptied: u32,
}

/// A board, owned by the caller, who lends its RAM too.
#[repr(C)]
#[derive(Drop)]
pub struct RrsBoard {
    /// The hart.
    pub hart: RrsHart,
    /// Its CSRs.
    pub csrs: RrsCsrs,
    /// `mtimecmp`: from this time on a timer interrupt is pending.
    pub alarm: u64,
    /// `mtime`.
    pub time: u64,
    /// `msip`: bit 0 says that a software interrupt is pending.
    pub software: u32,
    /// The UART.
    pub uart: RrsUart,
}

/// How a run of a board ended.
#[repr(C)]
#[derive(Clone, Copy)]
pub struct RrsBoardEnd {
    /// How many steps were made, the last one among them.
    pub steps: u64,
    /// What the last step has for the caller. 0: nothing, the limit was reached, 1: a byte was
    /// transmitted, 2: a look at LSR or IIR found no byte, 3: the program ended, 4: a `wfi` waits
    /// for the alarm, and time went forward to it, 5: a `wfi` waits, and nothing wakes it, 6: the
    /// hart jumps to itself, and takes no interrupt, 7: a trap went to a handler that can't be
    /// fetched, 8: the program asked that the board starts anew.
    pub event: u32,
    /// The byte that was transmitted, or the status of the program's end, else 0.
    pub value: u32,
}

/// The lowest byte of a word.
#[inline]
fn low_byte(word: u32) -> u8
    ensures { result ≡ word % 256 }
{
    (word % 0x100) as u8
}

/// The UART of the kit that one of C is.
#[inline]
fn uart_of(uart: &RrsUart) -> Uart
    ensures { result ≡ uart_in uart.now }
{
    let received = if uart.holds == 1 {
        Some(low_byte(uart.received))
    } else {
        None
    };
    Uart {
        received,
        interrupt_enable: low_byte(uart.interrupt_enable),
        has_fifos: uart.has_fifos == 1,
        line_control: low_byte(uart.line_control),
        modem_control: low_byte(uart.modem_control),
        scratch: low_byte(uart.scratch),
        divisor_low: low_byte(uart.divisor_low),
        divisor_high: low_byte(uart.divisor_high),
        is_emptied: uart.is_emptied == 1,
    }
}

/// The UART of C that one of the kit is.
#[inline]
fn uart_for(uart: &Uart) -> RrsUart
    ensures { uart_in result ≡ uart.now }
{
    let (holds, received) = match uart.received {
        Some(byte) => (1, u32::from(byte)),
        None => (0, 0),
    };
    RrsUart {
        holds,
        received,
        interrupt_enable: u32::from(uart.interrupt_enable),
        has_fifos: flag(uart.has_fifos),
        line_control: u32::from(uart.line_control),
        modem_control: u32::from(uart.modem_control),
        scratch: u32::from(uart.scratch),
        divisor_low: u32::from(uart.divisor_low),
        divisor_high: u32::from(uart.divisor_high),
        is_emptied: flag(uart.is_emptied),
    }
}

/// The devices of the kit that those of C are, which have answered to each access.
#[inline]
pub(crate) fn devices_of(board: &RrsBoard) -> Devices
    ensures { result ≡ devices_in board.now }
{
    let mut devices = Devices::new();
    devices.software = board.software;
    devices.alarm = board.alarm;
    devices.time = board.time;
    devices.show(uart_of(&board.uart));
    devices
}

/// Gives a board the devices that those of the kit are, which have answered to each access.
#[inline]
pub(crate) fn put_devices(devices: &Devices, board: &mut RrsBoard)
    requires { AreSettled devices.now }
    ensures same { devices_in board.new ≡ devices.now }
    ensures hart_kept { board.new.hart ≡ board.old.hart }
    ensures csrs_kept { board.new.csrs ≡ board.old.csrs }
{
    board.alarm = devices.alarm;
    board.time = devices.time;
    board.software = devices.software;
    board.uart = uart_for(&devices.uart);
}

/// A board at reset.
#[inline]
pub(crate) fn reset_board(profile: u32, pc: u32) -> RrsBoard
    ensures { IsResetInC profile pc result }
{
    let devices = Devices::new();
    let hart = RrsHart {
        x: [0; 32],
        pc,
        last: 0,
    };
    RrsBoard {
        hart,
        csrs: csrs_of(&CsrFile::with_profile(profile_of(profile)), 0),
        alarm: devices.alarm,
        time: devices.time,
        software: devices.software,
        uart: uart_for(&devices.uart),
    }
}

/// Hands the UART a byte, and says whether it took it.
#[inline]
pub(crate) fn receive(board: &mut RrsBoard, byte: u32) -> u32
    ensures arrived { devices_in board.new ≡ arrived (byte % 256) (devices_in board.old) }
    ensures told { result ≡ as_number (not (has_byte (uart_in board.old.uart))) }
    ensures refused { result ≡ 0 → board.new ≡ board.old }
    ensures hart_kept { board.new.hart ≡ board.old.hart }
    ensures csrs_kept { board.new.csrs ≡ board.old.csrs }
{
    if board.uart.holds == 1 {
        return 0;
    }
    board.uart.holds = 1;
    board.uart.received = byte;
    1
}

/// How a run ended, as C has it.
#[inline]
pub(crate) fn board_end_of(steps: u64, event: Option<BoardEvent>) -> RrsBoardEnd
    ensures steps { result.steps ≡ steps }
    ensures same { event_in result ≡ event }
    ensures told { IsBoardEnd result }
{
    let (event, value) = match event {
        None => (0, 0),
        Some(BoardEvent::Transmitted(byte)) => (1, u32::from(byte)),
        Some(BoardEvent::Looked) => (2, 0),
        Some(BoardEvent::Finished(status)) => (3, status),
        Some(BoardEvent::Waits) => (4, 0),
        Some(BoardEvent::NothingWakes) => (5, 0),
        Some(BoardEvent::Spins) => (6, 0),
        Some(BoardEvent::LacksHandler) => (7, 0),
        Some(BoardEvent::Restarts) => (8, 0),
    };
    RrsBoardEnd {
        steps,
        event,
        value,
    }
}
