//! The trait of memories, the four that there are, and the loader.

ghost use Rattle.std.specs.Prelude.{◌≡◌, IfOk, vec_len};

use crate::machines::memory_of;
use crate::surface::executor::steps_and_run;
use crate::surface::{is_cloned_and_copied, is_shown_and_compared};
use rrs_extra::{PageError, PagedMemory};
use rrs_lib::instruction_executor::InstructionException;
use rrs_lib::memories::{BoxedMemory, LoadFault, VecMemory, read_to_memory};
use rrs_lib::{MemAccessSize, Memory};
use std::alloc::{AllocError, Global};
use std::io::{self, Read};
use std::test::Fail;

/// The number of bytes of a size.
fn bytes_of(size: MemAccessSize) -> u32 {
    match size {
        MemAccessSize::Byte => 1,
        MemAccessSize::HalfWord => 2,
        MemAccessSize::Word => 4,
    }
}

/// What reads of a half-word at 2 and of the bytes at 3 and 4 answer, and then a write of the
/// half-word.
pub(crate) fn accessed<M: Memory>(memory: &mut M) -> ([Option<u32>; 3], bool) {
    let half: Option<u32> = memory.read_mem(2, MemAccessSize::HalfWord);
    let last: Option<u32> = memory.read_mem(3, MemAccessSize::Byte);
    let behind: Option<u32> = memory.read_mem(4, MemAccessSize::Byte);
    let written: bool = memory.write_mem(2, MemAccessSize::HalfWord, 0xaaaa_bbcc);
    ([half, last, behind], written)
}

/// What they answer of the word 0x44332211.
pub(crate) const ANSWERS: ([Option<u32>; 3], bool) = ([Some(0x4433), Some(0x44), None], true);

#[test]
fn words_are_accessed(rt: HostRuntime) -> Result<(), Fail> {
    let mut memory: VecMemory = memory_of(rt.alloc(), &[0x4433_2211])?;
    let seen = accessed(&mut memory);
    let VecMemory { mem }: VecMemory = memory;
    let words: Vec<u32> = mem;
    assert!(rt; seen == ANSWERS && words.as_slice() == [0xbbcc_2211].as_slice());
    is_cloned_and_copied::<MemAccessSize>();
    let size = MemAccessSize::HalfWord;
    assert!(rt; [bytes_of(size), bytes_of(size)] == [2, 2]);
    Ok(())
}

#[test]
fn what_a_box_holds_is_accessed(rt: HostRuntime) -> Result<(), Fail> {
    let words: VecMemory = memory_of(rt.alloc(), &[0x4433_2211])?;
    let memory: Box<dyn Memory + Drop> = Box::new(rt.alloc(), words)?;
    let mut boxed: BoxedMemory = BoxedMemory { memory };
    assert!(rt; accessed(&mut boxed) == ANSWERS);
    Ok(())
}

/// The words and the marks of a page whose last word is a read-only `addi x0, x0, 0`.
fn page(alloc: Global) -> Result<(Vec<u32>, Vec<bool>), AllocError>
    ensures { IfOk result (λ lists. (vec_len lists.0 ≡ 1024) × (vec_len lists.1 ≡ 1024)) }
{
    let mut words = vec![in alloc; 0; 1024]?;
    let mut marks = vec![in alloc; false; 1024]?;
    words[1023] = 0x0000_0013;
    marks[1023] = true;
    Ok((words, marks))
}

// The last page alone: a step there goes on at 0, where nothing is.
#[test]
fn the_last_page_is_executed(rt: HostRuntime) -> Result<(), Fail> {
    is_shown_and_compared::<PageError>();
    let mut pages: PagedMemory = PagedMemory::new(rt.alloc());
    let (words, read_only): (Vec<u32>, Vec<bool>) = page(rt.alloc())?;
    let number: u32 = 0xf_ffff;
    let added: Result<(), PageError> = pages.add_page(number, words, read_only);
    let is_added = match added {
        Ok(()) => true,
        Err(PageError::PageTaken) => false,
        Err(PageError::OutOfMemory) => false,
    };
    let (answers, end) = steps_and_run(&mut pages, 0xffff_fffc);
    let unmapped = InstructionException::FetchError(0);
    assert!(rt; is_added && answers == [Ok(()), Err(unmapped), Err(unmapped)] && end.steps == 0);
    Ok(())
}

/// What an error is, and its address.
fn kind_of(fault: &LoadFault) -> (u32, u32) {
    match fault {
        LoadFault::Reader(error) => {
            let _error: &io::Error = error;
            (1, 0)
        }
        LoadFault::Refused(address) => (2, *address),
        LoadFault::EndOfAddresses => (3, 0),
    }
}

/// Loads a reader's bytes.
fn load<R: Read, M: Memory>(reader: &mut R, memory: &mut M) -> Result<(), LoadFault> {
    let start_addr: u32 = 0;
    read_to_memory::<R, M>(reader, memory, start_addr)
}

#[test]
fn a_reader_is_loaded(rt: HostRuntime) -> Result<(), Fail> {
    let mut memory = memory_of(rt.alloc(), &[0])?;
    let mut reader: &[u8] = &[1, 2, 3, 4, 5];
    let Err(fault) = load(&mut reader, &mut memory) else {
        return Err(Fail::from("loaded"));
    };
    let text = format!(in rt.alloc(); "{fault}")?;
    let is_told = text.as_str() == "Could not write byte at address 0x00000004";
    assert!(rt; kind_of(&fault) == (2, 4) && is_told && memory.mem.first() == Some(&0x0403_0201));
    Ok(())
}
