//! A program in the simulated machine that prints: the machine of words and a port, the call of
//! `put_string` there on the string "Hello, RISC-V!", and what the port has logged then.

ghost use Rattle.std.specs.Prelude.{◌≡◌, [], IfErr, IfOk, IsOkUnless, IsTrue, OnOk};
ghost use Rattle.std.specs.Io.KnownBytes.{Appends};
ghost use Rattle.rrs_extra.specs.Programs.{HoldsWords, HoldsIllegal};
ghost use Rattle.rrs_programs.specs.Ports.{parts_bytes, parts_writable};
ghost use Rattle.rrs_programs.specs.Printing.{HoldsString, put_string_program};
ghost use Rattle.rrs_cli.specs.Faults.{StopsPrinting};
ghost use Rattle.tests_host.specs.Greeting.{greeting, port_address, words_to_run, machine_regions, HasLog, HasRoom};

use rrs_cli::fault::RunFault;
use rrs_cli::report::write_text;
use rrs_lib::HartState;
use rrs_lib::instruction_executor::InstructionExecutor;
use rrs_lib::memories::{MemorySpace, VecMemory};
use rrs_programs::{PrintPort, RamOrPort, print_string};
use std::alloc::Global;
use std::io::Write;
use std::test::Fail;

/// The address of the port.
const PORT: u32 = 0x1000_0000;

/// The address of the string.
const STRING: u32 = 28;

/// The words from address 0 on: the program, an illegal instruction, to which it returns, and the
/// string with its 0.
const WORDS: [u32; 11] = [
    0x0005_c783, // lbu x15, 0(x11)
    0x0007_9463, // bne x15, x0, 8 bytes on
    0x0000_8067, // jalr x0, 0(x1)
    0x0015_8593, // addi x11, x11, 1
    0x00f5_0023, // sb x15, 0(x10)
    0xfedf_f06f, // jal x0, 20 bytes back
    0,
    0x6c6c_6548, // "Hell"
    0x5220_2c6f, // "o, R"
    0x2d43_5349, // "ISC-"
    0x000a_2156, // "V!", a line feed, and 0
];

/// Runs the program, and writes what it printed.
///
/// # Errors
///
/// `RunFault::OutOfMemory`: nothing is written then. `RunFault::Output` where a write fails: a
/// beginning of the text is written then.
pub fn print_greeting<W: Write>(alloc: Global, out: &mut W) -> Result<(), RunFault>
    ensures greeting { OnOk result (Appends (W.contents out.old) (W.contents out.new) greeting) }
    ensures fault { IfErr result (StopsPrinting (λ lines. lines ≡ []) (λ lines. lines ≡ greeting)
        (W.contents out.old) (W.contents out.new)) }
{
    let ram = words(alloc)?;
    let Ok(port) = PrintPort::new(alloc, b"Hello, RISC-V!\n".len()) else {
        return Err(RunFault::OutOfMemory);
    };
    let mut space = machine(alloc, ram, port)?;
    run(&mut space, out)
}

/// The words of the machine.
///
/// # Errors
///
/// `RunFault::OutOfMemory`, out of memory for the words.
fn words(alloc: Global) -> Result<VecMemory, RunFault>
    ensures words { IfOk result (λ memory. memory.mem.items ≡ words_to_run) }
    ensures fault { IsOkUnless result RunFault.OutOfMemory }
{
    match WORDS.to_vec(alloc) {
        Ok(words) => Ok(VecMemory::new(words)),
        Err(_) => Err(RunFault::OutOfMemory),
    }
}

/// A space with the words at 0 and the port at its address.
///
/// # Errors
///
/// `RunFault::OutOfMemory`, out of memory for the regions.
fn machine(
    alloc: Global,
    ram: VecMemory,
    port: PrintPort,
) -> Result<MemorySpace<RamOrPort>, RunFault>
    ensures regions { IfOk result (λ space. space.regions ≡ machine_regions ram port) }
    ensures fault { IsOkUnless result RunFault.OutOfMemory }
{
    let mut space = MemorySpace::new(alloc);
    if space.add_memory(0, 44, RamOrPort::Ram(ram)).is_err() {
        return Err(RunFault::OutOfMemory);
    }
    if space.add_memory(PORT, 4, RamOrPort::Port(port)).is_err() {
        return Err(RunFault::OutOfMemory);
    }
    Ok(space)
}

/// Calls the program on the string, and writes what is in the port's log then.
///
/// # Errors
///
/// `RunFault::Output` where a write fails.
fn run<W: Write>(space: &mut MemorySpace<RamOrPort>, out: &mut W) -> Result<(), RunFault>
    requires program { HoldsWords (parts_bytes space.old) 0 put_string_program }
    requires stops { HoldsIllegal (parts_bytes space.old) 24 }
    requires string { HoldsString (parts_bytes space.old) 28 greeting }
    requires writable { IsTrue (parts_writable space.old port_address) }
    requires room { HasRoom space.old.regions }
    ensures greeting { OnOk result (Appends (W.contents out.old) (W.contents out.new) greeting) }
    ensures fault { IfErr result (StopsPrinting (λ _. ⊥) (λ lines. lines ≡ greeting)
        (W.contents out.old) (W.contents out.new)) }
{
    let mut hart = HartState::new();
    hart.registers[1] = 24;
    hart.registers[10] = PORT;
    hart.registers[11] = STRING;
    let mut executor = InstructionExecutor {
        mem: space,
        hart_state: &mut hart,
    };
    print_string(&mut executor, b"Hello, RISC-V!\n");
    write_log(executor.mem, out)
}

/// Writes what is in the port's log.
///
/// # Errors
///
/// `RunFault::Output` where a write fails.
fn write_log<W: Write>(space: &MemorySpace<RamOrPort>, out: &mut W) -> Result<(), RunFault>
    requires { HasLog space.now.regions greeting }
    ensures greeting { OnOk result (Appends (W.contents out.old) (W.contents out.new) greeting) }
    ensures fault { IfErr result (StopsPrinting (λ _. ⊥) (λ lines. lines ≡ greeting)
        (W.contents out.old) (W.contents out.new)) }
{
    match space.get_memory_ref(1) {
        Some(RamOrPort::Port(port)) => write_text(out, port.log.as_slice()),
        _ => unreachable!(),
    }
}

#[test]
fn prints_what_the_program_prints(rt: HostRuntime) -> Result<(), Fail> {
    let mut out = Vec::new(rt.alloc());
    print_greeting(rt.alloc(), &mut out)?;
    assert!(rt; out.as_slice() == b"Hello, RISC-V!\n".as_slice());
    Ok(())
}
