//! The device tree of the board, as the kernel of an operating system reads it (Devicetree
//! Specification 0.4, "Flattened Devicetree (DTB) Format").
//!
//! A tree is a header, the places in memory that are reserved, of which there are none, the
//! structure of nodes and properties, and the names of the properties. All numbers are of four
//! bytes, the highest byte first.

use crate::memory::RAM_START;
use rrs_words::HartProfile;
use std::alloc::{AllocError, Global};

/// How often `mtime` grows in a second, as the tree says.
pub const TIMEBASE: u32 = 10_000_000;

/// Where the structure begins: after the header of 40 bytes and the end of the reserved places.
const STRUCTURE: u32 = 56;

/// The words of the structure.
const BEGIN_NODE: u32 = 1;

const END_NODE: u32 = 2;

const PROPERTY: u32 = 3;

const END: u32 = 9;

/// The numbers by which nodes name the interrupt controller of the hart, and the finisher.
const HART_INTERRUPTS: u32 = 1;

const FINISHER: u32 = 2;

/// The extensions of a hart with these layers, as the tree names them.
fn isa_of(layers: HartProfile) -> &'static str {
    match (layers.atomics, layers.compressed) {
        (false, false) => "rv32im",
        (false, true) => "rv32imc",
        (true, false) => "rv32ima",
        (true, true) => "rv32imac",
    }
}

/// A tree that is written.
#[derive(Drop)]
struct Tree {
    /// The structure.
    structure: Vec<u8>,
    /// The names of the properties, each with a 0 behind it.
    names: Vec<u8>,
}

/// Puts a number of four bytes, the highest byte first.
fn put_number(bytes: &mut Vec<u8>, number: u32) -> Result<(), AllocError> {
    bytes.extend_from_slice(&number.to_be_bytes())?;
    Ok(())
}

/// Puts zeros up to a multiple of 4.
fn pad(bytes: &mut Vec<u8>) -> Result<(), AllocError> {
    let missing = (4 - bytes.len() % 4) % 4;
    for _ in 0..missing {
        bytes.push(0)?;
    }
    Ok(())
}

/// The length as a number of four bytes.
fn length_of(bytes: &[u8]) -> u32 {
    (bytes.len() % 0x1_0000_0000) as u32
}

impl Tree {
    /// Begins a node.
    fn begin(&mut self, name: &str) -> Result<(), AllocError> {
        put_number(&mut self.structure, BEGIN_NODE)?;
        self.structure.extend_from_slice(name.as_bytes())?;
        self.structure.push(0)?;
        pad(&mut self.structure)
    }

    /// Ends the node that was begun last.
    fn end(&mut self) -> Result<(), AllocError> {
        put_number(&mut self.structure, END_NODE)
    }

    /// A property with these bytes.
    fn property(&mut self, name: &str, value: &[u8]) -> Result<(), AllocError> {
        put_number(&mut self.structure, PROPERTY)?;
        put_number(&mut self.structure, length_of(value))?;
        put_number(&mut self.structure, length_of(&self.names))?;
        self.structure.extend_from_slice(value)?;
        pad(&mut self.structure)?;
        self.names.extend_from_slice(name.as_bytes())?;
        self.names.push(0)?;
        Ok(())
    }

    /// A property with these numbers.
    fn numbers(&mut self, alloc: Global, name: &str, numbers: &[u32]) -> Result<(), AllocError> {
        let mut value = Vec::new(alloc);
        for number in numbers {
            put_number(&mut value, *number)?;
        }
        self.property(name, &value)
    }

    /// A property with a text, and a 0 behind it. Several texts have a 0 between them.
    fn text(&mut self, alloc: Global, name: &str, text: &str) -> Result<(), AllocError> {
        let mut value = Vec::new(alloc);
        value.extend_from_slice(text.as_bytes())?;
        value.push(0)?;
        self.property(name, &value)
    }

    /// The hart, with these layers, whose interrupt controller the CLINT names.
    fn harts(&mut self, alloc: Global, layers: HartProfile) -> Result<(), AllocError> {
        self.begin("cpus")?;
        self.numbers(alloc, "#address-cells", &[1])?;
        self.numbers(alloc, "#size-cells", &[0])?;
        self.numbers(alloc, "timebase-frequency", &[TIMEBASE])?;
        self.begin("cpu@0")?;
        self.text(alloc, "device_type", "cpu")?;
        self.numbers(alloc, "reg", &[0])?;
        self.text(alloc, "status", "okay")?;
        self.text(alloc, "compatible", "riscv")?;
        self.text(alloc, "riscv,isa", isa_of(layers))?;
        self.begin("interrupt-controller")?;
        self.numbers(alloc, "#interrupt-cells", &[1])?;
        self.property("interrupt-controller", b"")?;
        self.text(alloc, "compatible", "riscv,cpu-intc")?;
        self.numbers(alloc, "phandle", &[HART_INTERRUPTS])?;
        self.end()?;
        self.end()?;
        self.end()
    }

    /// The devices, and how the machine is powered off.
    fn devices(&mut self, alloc: Global) -> Result<(), AllocError> {
        self.begin("soc")?;
        self.numbers(alloc, "#address-cells", &[1])?;
        self.numbers(alloc, "#size-cells", &[1])?;
        self.text(alloc, "compatible", "simple-bus")?;
        self.property("ranges", b"")?;
        self.begin("clint@2000000")?;
        self.text(alloc, "compatible", "sifive,clint0\0riscv,clint0")?;
        self.numbers(alloc, "reg", &[0x0200_0000, 0x1_0000])?;
        let interrupts = [HART_INTERRUPTS, 3, HART_INTERRUPTS, 7];
        self.numbers(alloc, "interrupts-extended", &interrupts)?;
        self.end()?;
        self.begin("serial@10000000")?;
        self.text(alloc, "compatible", "ns16550a")?;
        self.numbers(alloc, "reg", &[0x1000_0000, 0x100])?;
        self.numbers(alloc, "clock-frequency", &[3_686_400])?;
        self.end()?;
        self.begin("test@100000")?;
        self.text(alloc, "compatible", "sifive,test1\0sifive,test0\0syscon")?;
        self.numbers(alloc, "reg", &[0x10_0000, 0x1000])?;
        self.numbers(alloc, "phandle", &[FINISHER])?;
        self.end()?;
        self.begin("poweroff")?;
        self.text(alloc, "compatible", "syscon-poweroff")?;
        self.numbers(alloc, "regmap", &[FINISHER])?;
        self.numbers(alloc, "offset", &[0])?;
        self.numbers(alloc, "value", &[0x5555])?;
        self.end()?;
        self.end()
    }

    /// The whole file.
    fn file(&self, alloc: Global) -> Result<Vec<u8>, AllocError> {
        let names_from = STRUCTURE.wrapping_add(length_of(&self.structure));
        let size = names_from.wrapping_add(length_of(&self.names));
        let mut file = Vec::new(alloc);
        let header = [
            0xd00d_feed,
            size,
            STRUCTURE,
            names_from,
            40,
            17,
            16,
            0,
            length_of(&self.names),
            length_of(&self.structure),
        ];
        for number in header {
            put_number(&mut file, number)?;
        }
        // No place is reserved: the list ends with an address and a size of 0, of 8 bytes each.
        for _ in 0..4 {
            put_number(&mut file, 0)?;
        }
        file.extend_from_slice(&self.structure)?;
        file.extend_from_slice(&self.names)?;
        Ok(file)
    }
}

/// The device tree of a board whose hart has these layers, with so many bytes of RAM: its hart, its
/// devices, where RAM is, and the arguments for the kernel, its command line. No clause says what is in it: that is tested,
/// beside `dtc`, and by what boots with it.
///
/// # Errors
///
/// Out of memory.
pub fn device_tree(
    alloc: Global,
    layers: HartProfile,
    ram_bytes: u32,
    arguments: &str,
) -> Result<Vec<u8>, AllocError> {
    let mut tree = Tree {
        structure: Vec::new(alloc),
        names: Vec::new(alloc),
    };
    tree.begin("")?;
    tree.numbers(alloc, "#address-cells", &[1])?;
    tree.numbers(alloc, "#size-cells", &[1])?;
    tree.text(alloc, "compatible", "riscv-virtio")?;
    tree.text(alloc, "model", "rrs board")?;
    tree.begin("chosen")?;
    tree.text(alloc, "stdout-path", "/soc/serial@10000000")?;
    tree.text(alloc, "bootargs", arguments)?;
    tree.end()?;
    tree.begin("memory@80000000")?;
    tree.text(alloc, "device_type", "memory")?;
    tree.numbers(alloc, "reg", &[RAM_START, ram_bytes])?;
    tree.end()?;
    tree.harts(alloc, layers)?;
    tree.devices(alloc)?;
    tree.end()?;
    put_number(&mut tree.structure, END)?;
    tree.file(alloc)
}
