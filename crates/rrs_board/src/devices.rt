//! The registers of the devices, as a memory.

ghost use Rattle.std.specs.Prelude.{◌≡◌, ◌+◌, ◌*◌, ◌/◌, ◌%◌, ◌^◌, ◌≤◌, ◌<◌};
ghost use Rattle.rrs_memory.specs.Bytes.{width};
ghost use Rattle.rrs_board.specs.Registers.{register, with_register, start_of, with_bytes, wrote, looked_at, noted, after_read};
ghost use Rattle.rrs_board.specs.Effects.{reset_devices};

use crate::uart::Uart;
use rrs_machine::csrs::{high_half, low_half, of_halves};
use rrs_memory::{MemAccessSize, Memory};

/// An access to a register of a device.
#[derive(Debug, PartialEq, Clone, Copy)]
pub struct DeviceAccess {
    /// The address.
    pub address: u32,
    /// Whether it is a read; an AMO reads and then writes.
    pub is_read: bool,
    /// Whether it is a write.
    pub is_write: bool,
}

/// The devices of a board: what their registers show, and what they keep beside that.
#[derive(Debug, PartialEq, Clone, Copy)]
pub struct Devices {
    /// The finisher, at 0x100000.
    pub finisher: u32,
    /// `msip`, at 0x2000000: bit 0 says that a software interrupt is pending.
    pub software: u32,
    /// `mtimecmp`, at 0x2004000: from this time on a timer interrupt is pending.
    pub alarm: u64,
    /// `mtime`, at 0x200bff8.
    pub time: u64,
    /// The UART.
    pub uart: Uart,
    /// What registers 0 to 3 of the UART show at 0x10000000, the first in the lowest byte, and what
    /// was written there in this step.
    pub uart_low: u32,
    /// The same of registers 4 to 7.
    pub uart_high: u32,
    /// The access to a register that the devices have not answered to yet.
    pub access: Option<DeviceAccess>,
}

/// Whether the program wrote to this address.
pub(crate) fn wrote(address: u32, access: Option<DeviceAccess>) -> bool
    ensures { result ≡ wrote address access }
{
    match access {
        Some(access) => access.is_write && access.address == address,
        None => false,
    }
}

/// Whether the program read from this address.
pub(crate) fn looked_at(address: u32, access: Option<DeviceAccess>) -> bool
    ensures { result ≡ looked_at address access }
{
    match access {
        Some(access) => access.is_read && access.address == address,
        None => false,
    }
}

/// The word whose lowest `size` bytes are ones.
fn mask_of(size: MemAccessSize) -> u32
    ensures { result + 1 ≡ 256 ^ width size }
{
    match size {
        MemAccessSize::Byte => 0xff,
        MemAccessSize::HalfWord => 0xffff,
        MemAccessSize::Word => 0xffff_ffff,
    }
}

/// The `size` bytes of a word from byte `place` on.
fn part_of(word: u32, place: u32, size: MemAccessSize) -> u32
    requires { place + width size ≤ 4 }
    ensures { result ≡ word / 256 ^ place % 256 ^ width size }
{
    (word >> (8 * place)) & mask_of(size)
}

/// A word whose `size` bytes from byte `place` on are replaced by the lowest bytes of `value`.
fn with_part(word: u32, place: u32, size: MemAccessSize, value: u32) -> u32
    requires { place + width size ≤ 4 }
    ensures { result ≡ with_bytes word value (width size) place }
{
    let mask = mask_of(size);
    let shift = 8 * place;
    (word & !(mask << shift)) | ((value & mask) << shift)
}

/// The address of the word that an address is in.
fn start_of(address: u32) -> u32
    ensures { result ≡ start_of address }
{
    address - address % 4
}

impl Devices {
    /// The devices at reset: nothing is pending, there is no alarm, and nothing was received.
    pub fn new() -> Self
        ensures { result ≡ reset_devices }
    {
        Devices {
            finisher: 0,
            software: 0,
            alarm: u64::MAX,
            time: 0,
            uart: Uart::new(),
            uart_low: 0x0001_0000,
            uart_high: 0x00b0_6000,
            access: None,
        }
    }

    /// The word at an address that is a multiple of 4, where there is a register.
    fn register(&self, address: u32) -> Option<u32>
        ensures { result ≡ register self.now address }
    {
        match address {
            0x0010_0000 => Some(self.finisher),
            0x0200_0000 => Some(self.software),
            0x0200_4000 => Some(low_half(self.alarm)),
            0x0200_4004 => Some(high_half(self.alarm)),
            0x0200_bff8 => Some(low_half(self.time)),
            0x0200_bffc => Some(high_half(self.time)),
            0x1000_0000 => Some(self.uart_low),
            0x1000_0004 => Some(self.uart_high),
            _ => None,
        }
    }

    /// Replaces the word at such an address.
    fn set_register(&mut self, address: u32, value: u32)
        ensures { self.new ≡ with_register self.old address value }
    {
        match address {
            0x0010_0000 => self.finisher = value,
            0x0200_0000 => self.software = value,
            0x0200_4000 => self.alarm = of_halves(high_half(self.alarm), value),
            0x0200_4004 => self.alarm = of_halves(value, low_half(self.alarm)),
            0x0200_bff8 => self.time = of_halves(high_half(self.time), value),
            0x0200_bffc => self.time = of_halves(value, low_half(self.time)),
            0x1000_0000 => self.uart_low = value,
            0x1000_0004 => self.uart_high = value,
            _ => {}
        }
    }

    /// Notes an access. A write goes with a read of its address before it in the step.
    fn note(&mut self, address: u32, is_write: bool)
        ensures { self.new ≡ noted self.old address is_write }
    {
        let is_read = !is_write || looked_at(address, self.access);
        self.access = Some(DeviceAccess {
            address,
            is_read,
            is_write,
        });
    }
}

impl Memory for Devices {
    ghost use Rattle.rrs_board.specs.Registers.{device_bytes, device_writable, device_layout, device_reads, DeviceWrites};

    ghost bytes = { device_bytes };

    ghost writable = { device_writable };

    ghost layout = { device_layout };

    ghost reads = { device_reads };

    ghost writes = { DeviceWrites };

    fn read_mem(&mut self, addr: u32, size: MemAccessSize) -> Option<u32> {
        match self.register(start_of(addr)) {
            Some(word) => {
                self.note(addr, false);
                Some(part_of(word, addr % 4, size))
            }
            None => None,
        }
    }

    fn write_mem(&mut self, addr: u32, size: MemAccessSize, store_data: u32) -> bool {
        let start = start_of(addr);
        match self.register(start) {
            Some(word) => {
                let changed = with_part(word, addr % 4, size, store_data);
                self.set_register(start, changed);
                self.note(addr, true);
                true
            }
            None => false,
        }
    }
}
