//! The marks of pages: what a program may do with each.

ghost use Rattle.std.specs.Prelude.{◌≡◌, ◌≤◌, ◌<◌, ◌^◌, ℕ, length, IfOk, slice_index_or};
ghost use Rattle.rrs_exec.specs.Protection.{stronger, touches, mark_of, IsMarkedBy};

use std::alloc::{AllocError, Global};

/// The number of bytes of a page.
pub const PAGE_BYTES: u32 = 4096;

/// What a program may do with a page.
#[derive(Clone, Copy, Debug, PartialEq)]
pub enum Protection {
    /// It is not mapped: no access is granted.
    Unmapped,
    /// It can be read, and fetched from.
    ReadOnly,
    /// It can be read and written.
    Writable,
}

impl Protection {
    /// The one of two that allows more.
    fn or(self, other: Protection) -> Protection
        ensures { result ≡ stronger self other }
    {
        match (self, other) {
            (Protection::Writable, _) | (_, Protection::Writable) => Protection::Writable,
            (Protection::ReadOnly, _) | (_, Protection::ReadOnly) => Protection::ReadOnly,
            (Protection::Unmapped, Protection::Unmapped) => Protection::Unmapped,
        }
    }
}

/// Addresses that a program has, and what it may do with them.
#[derive(Clone, Copy, Debug, PartialEq)]
pub struct PageRange {
    /// The first address.
    pub start: u64,
    /// The address after the last.
    pub end: u64,
    /// What may be done there, and in the rest of each page that has one of the addresses.
    pub protection: Protection,
}

impl PageRange {
    /// Whether a page has one of the addresses.
    fn touches(&self, page: u32) -> bool
        ensures { result ≡ touches self.now page }
    {
        let start = u64::from(page) * 4096;
        self.start < self.end && self.start < start + 4096 && start < self.end
    }

    /// The first page after `page` that has one of the addresses where `page` has none, or the
    /// other way round.
    fn change_after(&self, page: u32) -> u64
        ensures later { page < result }
        ensures same { (p : ℕ) → page ≤ p → p < result
            → touches self.now p ≡ touches self.now page }
    {
        let page = u64::from(page);
        let first = self.start / 4096;
        let behind = self.end.saturating_sub(1) / 4096 + 1;
        if page < first {
            first
        } else if page < behind {
            behind
        } else {
            u64::MAX
        }
    }
}

/// What a program that has these addresses may do with a page: the most that one of them allows
/// that lies in it.
fn mark_of(ranges: &[PageRange], page: u32) -> Protection
    ensures { result ≡ mark_of ranges.now page }
{
    let mut mark = Protection::Unmapped;
    for range in ranges {
        if range.touches(page) {
            mark = mark.or(range.protection);
        }
    }
    mark
}

/// A page after `page` before which all from `page` on have one mark.
fn next_change(ranges: &[PageRange], page: u32) -> u64
    ensures later { page < result }
    ensures same { (p : ℕ) → page ≤ p → p < result
        → mark_of ranges.now p ≡ mark_of ranges.now page }
{
    let mut next = u64::MAX;
    for range in ranges {
        next = next.min(range.change_after(page));
    }
    next
}

/// The marks of so many pages, from address 0 on, for a program that has these addresses.
///
/// # Errors
///
/// Out of memory for the marks.
pub fn marks_of(
    alloc: Global,
    ranges: &[PageRange],
    pages: u32,
) -> Result<Vec<Protection>, AllocError>
    ensures { IfOk result (λ marks. IsMarkedBy ranges.now pages marks.items) }
{
    let mut marks = Vec::new(alloc);
    let mut page = 0;
    'stretches: while page < pages {
        let next = next_change(ranges, page).min(u64::from(pages)) as u32;
        marks.resize(next as usize, mark_of(ranges, page))?;
        page = next;
    }
    Ok(marks)
}
