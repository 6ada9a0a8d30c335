//! The UART, a 16550.

ghost use Rattle.std.specs.Prelude.{◌≡◌, ◌≤◌};
ghost use Rattle.rrs_board.specs.Uart.{reset_uart, has_divisor, asks_for_data, asks_for_room, has_byte, receiver_buffer, line_status, interrupt_of, identification, modem_status, shown, after_look, written_at_0, written_at_1, written_at_2, changes_fifos, clears, after_write, after_arrival};

/// What a UART keeps.
#[derive(Debug, PartialEq, Clone, Copy)]
pub struct Uart {
    /// The byte that was received and that the program has not read yet.
    pub received: Option<u8>,
    /// IER, of which four bits are written.
    pub interrupt_enable: u8,
    /// Bit 0 of FCR: whether the FIFOs are enabled.
    pub has_fifos: bool,
    /// LCR, whose bit 7 is DLAB.
    pub line_control: u8,
    /// MCR, of which five bits are written.
    pub modem_control: u8,
    /// SCR.
    pub scratch: u8,
    /// DLL.
    pub divisor_low: u8,
    /// DLM.
    pub divisor_high: u8,
    /// Whether THR became empty, and no look at IIR told so since.
    pub is_emptied: bool,
}

/// MSR: a modem that is connected.
const MODEM_STATUS: u8 = 0xb0;

impl Uart {
    /// A UART after a master reset.
    pub fn new() -> Uart
        ensures { result ≡ reset_uart }
    {
        Uart {
            received: None,
            interrupt_enable: 0,
            has_fifos: false,
            line_control: 0,
            modem_control: 0,
            scratch: 0,
            divisor_low: 12,
            divisor_high: 0,
            is_emptied: false,
        }
    }

    /// DLAB: whether the divisor is in the place of the first two registers.
    pub fn has_divisor(&self) -> bool
        ensures { result ≡ has_divisor self.now }
    {
        self.line_control / 0x80 % 2 == 1
    }

    /// Whether IER enables the interrupt of received data.
    pub fn asks_for_data(&self) -> bool
        ensures { result ≡ asks_for_data self.now }
    {
        self.interrupt_enable % 2 == 1
    }

    /// Whether IER enables the interrupt of an empty THR.
    fn asks_for_room(&self) -> bool
        ensures { result ≡ asks_for_room self.now }
    {
        self.interrupt_enable / 2 % 2 == 1
    }

    /// Whether a byte was received that the program has not read.
    pub fn has_byte(&self) -> bool
        ensures { result ≡ has_byte self.now }
    {
        self.received.is_some()
    }

    /// LSR.
    fn line_status(&self) -> u8
        ensures { result ≡ line_status self.now }
    {
        if self.has_byte() { 0x61 } else { 0x60 }
    }

    /// The pending interrupt, as the low half of IIR has it.
    fn interrupt(&self) -> u8
        ensures value { result ≡ interrupt_of self.now }
        ensures small { result ≤ 4 }
    {
        if self.asks_for_data() && self.has_byte() {
            4
        } else if self.asks_for_room() && self.is_emptied {
            2
        } else {
            1
        }
    }

    /// IIR.
    fn identification(&self) -> u8
        ensures { result ≡ identification self.now }
    {
        if self.has_fifos {
            0xc0 + self.interrupt()
        } else {
            self.interrupt()
        }
    }

    /// RBR.
    fn receiver_buffer(&self) -> u8
        ensures { result ≡ receiver_buffer self.now.received }
    {
        self.received.unwrap_or(0)
    }

    /// The register that is read at an offset, from 0 to 7.
    pub fn shown(&self, offset: u32) -> u8
        ensures { result ≡ shown self.now offset }
    {
        match offset {
            0 if self.has_divisor() => self.divisor_low,
            0 => self.receiver_buffer(),
            1 if self.has_divisor() => self.divisor_high,
            1 => self.interrupt_enable,
            2 => self.identification(),
            3 => self.line_control,
            4 => self.modem_control,
            5 => self.line_status(),
            6 => MODEM_STATUS,
            _ => self.scratch,
        }
    }

    /// Answers to a read at an offset.
    pub fn look(&mut self, offset: u32)
        ensures { self.new ≡ after_look offset self.old }
    {
        if offset == 0 {
            if !self.has_divisor() {
                self.received = None;
            }
        } else if offset == 2 && self.interrupt() == 2 {
            self.is_emptied = false;
        }
    }

    /// A byte for THR, or DLL.
    fn write_at_0(&mut self, byte: u8)
        ensures { self.new ≡ written_at_0 byte self.old }
    {
        if self.has_divisor() {
            self.divisor_low = byte;
        } else {
            self.is_emptied = true;
        }
    }

    /// A byte for IER, or DLM.
    fn write_at_1(&mut self, byte: u8)
        ensures { self.new ≡ written_at_1 byte self.old }
    {
        if self.has_divisor() {
            self.divisor_high = byte;
        } else {
            if !self.asks_for_room() {
                self.is_emptied = true;
            }
            self.interrupt_enable = byte % 0x10;
        }
    }

    /// Whether a byte for FCR enables the FIFOs that are not, or the other way round.
    fn changes_fifos(&self, byte: u8) -> bool
        ensures { result ≡ changes_fifos byte self.now }
    {
        if byte % 2 == 1 {
            !self.has_fifos
        } else {
            self.has_fifos
        }
    }

    /// A byte for FCR.
    fn write_at_2(&mut self, byte: u8)
        ensures { self.new ≡ written_at_2 byte self.old }
    {
        let changes = self.changes_fifos(byte);
        let is_on = byte % 2 == 1;
        if changes || (is_on && byte / 2 % 2 == 1) {
            self.received = None;
        }
        if changes || (is_on && byte / 4 % 2 == 1) {
            self.is_emptied = true;
        }
        self.has_fifos = is_on;
    }

    /// Answers to a write at an offset.
    pub fn write(&mut self, offset: u32, byte: u8)
        ensures { self.new ≡ after_write offset byte self.old }
    {
        match offset {
            0 => self.write_at_0(byte),
            1 => self.write_at_1(byte),
            2 => self.write_at_2(byte),
            3 => self.line_control = byte,
            4 => self.modem_control = byte % 0x20,
            7 => self.scratch = byte,
            _ => {}
        }
    }

    /// Takes a byte that arrives, where none is held.
    pub fn receive(&mut self, byte: u8)
        ensures { self.new ≡ after_arrival byte self.old }
    {
        if !self.has_byte() {
            self.received = Some(byte);
        }
    }
}
