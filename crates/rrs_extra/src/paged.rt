//! A memory of pages, some of whose words are read-only.

ghost use Rattle.std.specs.Prelude.{◌≡◌, ◌≢◌, ◌↔◌, ℕ, ◌/◌, ◌%◌, ◌^◌, ◌<◌, [], List, length, map};
ghost use Rattle.std.specs.Prelude.{true, false, not, Some, None, Err, OnOk, OnErr, IsSome, IsTrue};
ghost use Rattle.std.specs.Prelude.{slice_index, slice_index_or, vec_len};
ghost use Rattle.std.specs.Bool.{OnTrue, OnFalse};
ghost use Rattle.rrs_lib.specs.Bytes.{width, little_endian, store, Reads, Writes};
ghost use Rattle.rrs_lib.specs.VecBytes.{bytes_of_words};
ghost use Rattle.rrs_extra.specs.Pages.{contents, page, page_at, ArePages, inserted};
ghost use Rattle.rrs_extra.specs.Pages.{paged_bytes, paged_writable, paged_layout};
ghost use Rattle.rrs_extra.specs.Pages.{paged_reads, PagedWrites};

use rrs_lib::memories::VecMemory;
use rrs_lib::{MemAccessSize, Memory};
use std::alloc::Global;
use std::collections::BTreeMap;
use std::marker::Model;

/// Why a page was not added to a [PagedMemory].
#[derive(Debug, PartialEq, Drop)]
pub enum PageError {
    /// There is a page of this number.
    PageTaken,
    /// Out of memory.
    OutOfMemory,
}

/// A memory of pages of 1,024 words, with a mark for each word that is read-only.
///
/// Word `i` of page `p` lies at the address `4096 * p + 4 * i`. All of it can be read; its four
/// bytes are writable exactly where the word is not marked. No access allocates: that is seen in
/// the code, and no clause says it.
#[derive(Drop)]
pub struct PagedMemory {
    pages: BTreeMap<u32, PageContents>,
}

#[derive(Drop)]
struct PageContents {
    words: VecMemory,
    read_only: Vec<bool>,
}

impl Model for PagedMemory {
    ghost use Rattle.std.specs.Prelude.{List, map};
    ghost use Rattle.std.specs.Coded.{coded_list};
    ghost use Rattle.rrs_extra.specs.Pages.{Page, page_code, ArePages};

    ghost Value = { List Page };

    ghost coded = { coded_list page_code };

    ghost use Rattle.rrs_extra.specs.PageFields.{page_of};

    ghost view = { λ s. map page_of s.pages.entries };

    ghost invariant = { λ s. ArePages (map page_of s.pages.entries) };
}

impl PageContents {
    /// Reads from a place in the page.
    #[inline]
    fn read(&mut self, place: u32, size: MemAccessSize) -> Option<u32>
        requires { place % width size ≡ 0 }
        ensures value { result
            ≡ little_endian (bytes_of_words self.old.words.mem.items) place (width size) }
        ensures kept { self.new ≡ self.old }
    {
        self.words.read_mem(place, size)
    }

    /// Writes the low bytes of a value at a place in the page, and returns whether its word is not
    /// read-only.
    #[inline]
    fn write(&mut self, place: u32, size: MemAccessSize, value: u32) -> bool
        requires within { place < 4096 }
        requires aligned { place % width size ≡ 0 }
        requires words_long { vec_len self.old.words.mem ≡ 1024 }
        requires marks_long { vec_len self.old.read_only ≡ 1024 }
        ensures answer { result ≡ not (slice_index_or self.old.read_only.items (place / 4) true) }
        ensures written { OnTrue result (bytes_of_words self.new.words.mem.items
            ≡ store (bytes_of_words self.old.words.mem.items) place (width size) value) }
        ensures refused { OnFalse result (self.new ≡ self.old) }
        ensures marks_kept { self.new.read_only ≡ self.old.read_only }
        ensures length_kept { vec_len self.new.words.mem ≡ 1024 }
        ensures others_kept { (i : ℕ) → i ≢ place / 4
            → slice_index self.new.words.mem.items i ≡ slice_index self.old.words.mem.items i }
    {
        if self.read_only[(place >> 2) as usize] {
            return false;
        }
        self.words.write_mem(place, size, value)
    }
}

impl PagedMemory {
    /// A memory with no pages.
    pub fn new(alloc: Global) -> Self
        ensures { result ≡ [] }
    {
        PagedMemory {
            pages: BTreeMap::new(alloc),
        }
    }

    /// How many pages there are.
    pub fn page_count(&self) -> usize
        ensures count { result ≡ length self.now }
        ensures pages { ArePages self.now }
    {
        self.pages.len()
    }

    /// Whether there is a page of this number.
    pub fn has_page(&self, number: u32) -> bool
        ensures { IsTrue result ↔ IsSome (page_at self.now number) }
    {
        self.pages.contains_key(&number)
    }

    /// Adds the page of a number below 2^20, with its 1,024 words, each of them read-only where its
    /// mark is `true`.
    ///
    /// # Errors
    ///
    /// Tested in this order: `PageTaken` where there is a page of this number; `OutOfMemory` where
    /// there is no memory for it. After both the pages are as before, and what was passed is
    /// dropped.
    pub fn add_page(
        &mut self,
        number: u32,
        words: Vec<u32>,
        read_only: Vec<bool>,
    ) -> Result<(), PageError>
        requires number_fits { number < 2 ^ 20 }
        requires words_long { vec_len words ≡ 1024 }
        requires marks_long { vec_len read_only ≡ 1024 }
        ensures taken { (result ≡ Err PageError.PageTaken) ↔ IsSome (page_at self.old number) }
        ensures accepted { OnOk result (page_at self.old number ≡ None) }
        ensures ok { OnOk result
            (self.new ≡ inserted (page number words.items read_only.items) self.old) }
        ensures added { OnOk result
            (page_at self.new number ≡ Some (contents words.items read_only.items)) }
        ensures others_kept { OnOk result ((other : ℕ) → other ≢ number
            → page_at self.new other ≡ page_at self.old other) }
        ensures err { OnErr result (self.new ≡ self.old) }
        ensures pages { ArePages self.new }
    {
        if self.has_page(number) {
            return Err(PageError::PageTaken);
        }
        let contents = PageContents {
            words: VecMemory::new(words),
            read_only,
        };
        match self.pages.insert(number, contents) {
            Ok(_) => Ok(()),
            Err(_) => Err(PageError::OutOfMemory),
        }
    }
}

impl Memory for PagedMemory {
    ghost bytes = { paged_bytes };

    ghost writable = { paged_writable };

    ghost layout = { paged_layout };

    ghost reads = { paged_reads };

    ghost writes = { PagedWrites };

    fn read_mem(&mut self, addr: u32, size: MemAccessSize) -> Option<u32>
        requires { addr % width size ≡ 0 }
        ensures laws { Reads paged_bytes paged_writable paged_layout
            self.old self.new addr (width size) result }
        ensures did { paged_reads self.old addr size self.new result }
    {
        match self.pages.get_mut(&(addr >> 12)) {
            Some(page) => page.read(addr & 0xfff, size),
            None => None,
        }
    }

    fn write_mem(&mut self, addr: u32, size: MemAccessSize, store_data: u32) -> bool
        requires { addr % width size ≡ 0 }
        ensures laws { Writes paged_bytes paged_writable paged_layout
            self.old self.new addr (width size) store_data result }
        ensures did { PagedWrites self.old addr size store_data self.new result }
        ensures pages { ArePages self.new }
    {
        match self.pages.get_mut(&(addr >> 12)) {
            Some(page) => page.write(addr & 0xfff, size, store_data),
            None => false,
        }
    }

    /// They are, at each address, as those of a `VecMemory`.
    #[inline(always)]
    fn reads_are_pure(&self, addr: u32) -> bool {
        true
    }
}
