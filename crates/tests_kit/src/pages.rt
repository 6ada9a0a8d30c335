//! What memories of pages answer at chosen addresses.

ghost use Rattle.std.specs.Prelude.{◌≡◌, ◌^◌, ◌<◌, IfOk, vec_len};

use rrs_extra::{PageError, PagedMemory};
use rrs_lib::MemAccessSize;
use std::alloc::{AllocError, Global};
use std::test::Fail;
use tests_shared::{read_at, write_at};

/// The words of a page that begins with some, and is zero after them.
fn words_of(alloc: Global, first: &[u32]) -> Result<Vec<u32>, Fail>
    ensures { IfOk result (λ words. vec_len words ≡ 1024) }
{
    let mut words = vec![in alloc; 0; 1024]?;
    for (index, word) in first.iter().enumerate() {
        if index < words.len() {
            words[index] = *word;
        }
    }
    Ok(words)
}

/// The marks of a page of which one word is read-only.
fn one_read_only(alloc: Global, index: usize) -> Result<Vec<bool>, Fail>
    requires { index < 1024 }
    ensures { IfOk result (λ marks. vec_len marks ≡ 1024) }
{
    let mut marks = vec![in alloc; false; 1024]?;
    marks[index] = true;
    Ok(marks)
}

#[test]
fn a_page_is_read_and_written_but_for_its_read_only_word(rt: HostRuntime) -> Result<(), Fail> {
    let alloc = rt.alloc();
    let mut memory = PagedMemory::new(alloc);
    let words = words_of(alloc, &[0, 0xdead_beef])?;
    let added = memory.add_page(0, words, one_read_only(alloc, 1)?);
    let written = [
        write_at(&mut memory, 7, MemAccessSize::Byte, 0),
        write_at(&mut memory, 4, MemAccessSize::Word, 0),
        write_at(&mut memory, 8, MemAccessSize::Word, 5),
        write_at(&mut memory, 4092, MemAccessSize::HalfWord, 0x1_2345),
        write_at(&mut memory, 4096, MemAccessSize::Byte, 1),
    ];
    let read = [
        read_at(&mut memory, 7, MemAccessSize::Byte),
        read_at(&mut memory, 8, MemAccessSize::Word),
        read_at(&mut memory, 4092, MemAccessSize::Word),
        read_at(&mut memory, 4096, MemAccessSize::Word),
    ];
    let expected = [Some(0xde), Some(5), Some(0x2345), None];
    assert!(rt; added.is_ok() && written == [false, false, true, true, false] && read == expected);
    Ok(())
}

/// The two lists of a page whose words are all one, and writable.
fn open_page(alloc: Global, word: u32) -> Result<(Vec<u32>, Vec<bool>), AllocError>
    ensures { IfOk result (λ lists. (vec_len lists.0 ≡ 1024) × (vec_len lists.1 ≡ 1024)) }
{
    let words = vec![in alloc; word; 1024]?;
    let marks = vec![in alloc; false; 1024]?;
    Ok((words, marks))
}

/// The same, asked for again where an allocation is refused.
fn some_page(alloc: Global, word: u32) -> Result<(Vec<u32>, Vec<bool>), AllocError>
    ensures { IfOk result (λ lists. (vec_len lists.0 ≡ 1024) × (vec_len lists.1 ≡ 1024)) }
{
    match open_page(alloc, word) {
        Ok(lists) => Ok(lists),
        Err(AllocError) => open_page(alloc, word),
    }
}

/// Adds a page of a word, and returns what the call answered.
fn added_once(
    memory: &mut PagedMemory,
    alloc: Global,
    number: u32,
    word: u32,
) -> Result<Result<(), PageError>, AllocError>
    requires { number < 2 ^ 20 }
{
    let (words, marks) = some_page(alloc, word)?;
    Ok(memory.add_page(number, words, marks))
}

/// Adds a page of a word, and again where there was no memory: what the calls answered, and how
/// many pages there were after the first of two.
fn added_at_last(
    memory: &mut PagedMemory,
    alloc: Global,
    number: u32,
    word: u32,
) -> Result<(Result<(), PageError>, Option<usize>), AllocError>
    requires { number < 2 ^ 20 }
{
    let added = added_once(memory, alloc, number, word)?;
    if added == Err(PageError::OutOfMemory) {
        let count = memory.page_count();
        let again = added_once(memory, alloc, number, word)?;
        return Ok((again, Some(count)));
    }
    Ok((added, None))
}

/// Whichever allocation fails, the pages are as before, and the same call then adds the page. A
/// number that is taken is refused for that, whatever memory there is. The words are those of the
/// page that was added, in whatever order the numbers came.
#[test]
fn a_refused_page_may_be_added_again(rt: HostRuntime) -> Result<(), Fail> {
    let alloc = rt.alloc();
    let mut memory = PagedMemory::new(alloc);
    for count in 0..13 {
        let number = (count as u32 * 5 + 7) % 13;
        let (added, pages) = added_at_last(&mut memory, alloc, number, number + 100)?;
        let again = added_once(&mut memory, alloc, number, 0)?;
        assert!(rt;
            added == Ok(()) && pages.unwrap_or(count) == count && again == Err(PageError::PageTaken)
        );
    }
    for number in 0..13 {
        let first = read_at(&mut memory, number * 4096, MemAccessSize::Word);
        assert!(rt; first == Some(number + 100) && memory.has_page(number));
    }
    Ok(())
}
