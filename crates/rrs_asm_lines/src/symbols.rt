//! Symbols: labels, local labels and constants, and how far each `%pcrel_hi` reaches.
//!
//! All are entries of one table, found by a hash of their name or number. Beside them it is kept
//! of each branch where it was.

use crate::errors::SourceErrorKind;
use crate::reading::Site;
use std::alloc::{Allocator, Global};

/// A reading of the source.
#[derive(Clone, Copy, PartialEq)]
pub enum Pass {
    /// For how long the sections are.
    First,
    /// For what symbols stand for. It is read again while the lengths of branches change.
    Second,
    /// For how far each `%pcrel_hi` reaches, where there is one.
    Third,
    /// For the statements.
    Last,
}

impl Pass {
    /// Whether the source is read for the last time.
    pub fn is_last(self) -> bool {
        matches!(self, Pass::Last)
    }
}

/// What is known of a symbol at a place.
#[derive(Clone, Copy)]
pub enum Known {
    /// Its value, and its definition stands before.
    Now(u64),
    /// Its value in the reading before, and its definition stands further on.
    Later(u64),
    /// The source is read for the last time later, and its definition may stand further on.
    Perhaps,
    /// There is no definition.
    Never,
}

/// What is known of a symbol, and whether it is a label of another section.
#[derive(Clone, Copy)]
pub struct Found {
    /// What is known.
    pub known: Known,
    /// Whether it is an address.
    pub is_label: bool,
    /// Whether it is a label of another section.
    pub is_elsewhere: bool,
}

impl Found {
    /// What is known of what is no label.
    fn plain(known: Known) -> Self {
        Found {
            known,
            is_label: false,
            is_elsewhere: false,
        }
    }
}

/// A branch in a reading.
#[derive(Clone, Copy)]
pub struct Branch {
    /// How far it is from the beginning of its section.
    pub offset: u32,
    /// Whether its target is out of its reach, so that it is two instructions.
    pub is_far: bool,
}

/// What an entry is found by.
#[derive(Clone, Copy)]
struct Key<'a> {
    /// The name of a label or a constant, and else nothing.
    name: &'a [u8],
    /// Behind no name: the digit of a local label, or `DISTANCE`.
    kind: u8,
    /// How many local labels of the digit stand before, or the address of a statement with
    /// `%pcrel_hi`.
    number: u32,
}

/// What stands in the place of a digit in the key of a distance.
const DISTANCE: u8 = 10;

/// The key of a local label, or of a distance.
fn numbered<'a>(kind: u8, number: u32) -> Key<'a> {
    Key {
        name: &[],
        kind,
        number,
    }
}

/// The key of a label or a constant.
fn named(name: &[u8]) -> Key<'_> {
    Key {
        name,
        ..numbered(0, 0)
    }
}

impl Key<'_> {
    /// Whether it is another one.
    fn is(self, other: Key) -> bool {
        self.number == other.number && self.kind == other.kind && self.name == other.name
    }

    /// Its hash: that of Fowler, Noll and Vo (FNV-1a), of 32 bits, of the name. It begins with the
    /// number, of which the bits of an address within a page differ, or those of the page.
    fn hash(self) -> usize {
        let mut hash = 0x811c_9dc5 ^ self.number ^ self.number >> 12 ^ u32::from(self.kind) << 24;
        for byte in self.name {
            hash = (hash ^ u32::from(*byte)).wrapping_mul(0x0100_0193);
        }
        hash as usize
    }
}

/// What a symbol stands for.
#[derive(Clone, Copy)]
struct Entry<'a> {
    key: Key<'a>,
    /// Its value, in 64 bits: a constant may be negative.
    value: u64,
    /// Whether it is a label, and no constant, which can be defined again.
    is_label: bool,
    /// The section of a label.
    section: &'a [u8],
    /// The address of that section in the reading.
    start: u32,
    /// The latest reading in which its definition was met.
    met: Pass,
    /// The number of that reading.
    number: u32,
    /// Which entry comes next of those in the same slot. None of them: it is the last.
    next: usize,
}

impl Entry<'_> {
    /// How far it is from the beginning of its section.
    fn offset(self) -> u64 {
        self.value.wrapping_sub(u64::from(self.start))
    }
}

/// Where there is no entry.
const NONE: usize = usize::MAX;

/// The symbols of a source.
#[derive(Drop)]
pub struct Symbols<'a, A: Allocator = Global> {
    entries: Vec<Entry<'a>, A>,
    /// The first entry of each hash, modulo how many these are.
    slots: Vec<usize, A>,
    /// How many local labels of each digit were met in this reading.
    counts: [u32; 10],
    /// Whether a statement with `%pcrel_hi` was met.
    has_distances: bool,
    /// Whether memory was missing for an entry.
    is_full: bool,
    /// Whether a label stands at another place of its section than in the reading before.
    is_moved: bool,
    /// How many labels and statements of the source were begun in this reading.
    begun: usize,
    /// Of each of them by its number, how it was in the reading before, if it is a branch.
    branches: Vec<Option<Branch>, A>,
    /// Whether a branch has another length than in the reading before.
    has_changed: bool,
    /// Whether a branch of two instructions stays one.
    pub only_grows: bool,
    /// The number of this reading.
    number: u32,
    /// Which reading it is.
    pub pass: Pass,
}

/// The symbols of a source, to look them up.
#[derive(Clone, Copy)]
pub struct Scope<'a, 's> {
    entries: &'s [Entry<'a>],
    slots: &'s [usize],
    counts: [u32; 10],
    /// The statement as it was in the reading before, if it is a branch.
    pub branch: Option<Branch>,
    /// Whether a branch of two instructions stays one.
    pub only_grows: bool,
    /// The number of this reading.
    number: u32,
    /// Which reading it is.
    pub pass: Pass,
}

impl Scope<'_, '_> {
    /// Which entry has a key: none of them where none has it.
    fn find(&self, key: Key) -> usize {
        let slot = key.hash().checked_rem(self.slots.len()).unwrap_or(0);
        let mut index = self.slots.get(slot).copied().unwrap_or(NONE);
        for _ in 0..self.entries.len() {
            match self.entries.get(index) {
                Some(entry) if !entry.key.is(key) => index = entry.next,
                _ => break,
            }
        }
        index
    }

    /// The entry with a key.
    fn entry(&self, key: Key) -> Option<Entry<'_>> {
        self.entries.get(self.find(key)).copied()
    }

    /// How far the `%pcrel_hi` of the statement at an address reaches, once all symbols have their
    /// addresses.
    pub fn distance_at(&self, address: u32) -> Option<u32> {
        match self.entry(numbered(DISTANCE, address)) {
            Some(
                Entry {
                    met: Pass::Third | Pass::Last,
                    value,
                    ..
                },
            ) => u32::try_from(value).ok(),
            _ => None,
        }
    }

    /// What is known at a place of a symbol.
    pub fn value_of(&self, name: &[u8], site: Site) -> Found {
        match self.entry(named(name)) {
            Some(entry) => self.found(entry, entry.number == self.number, site),
            None => Found::plain(self.absent()),
        }
    }

    /// What is known at a place of an entry, whose definition stands before or further on. A label
    /// further on in the same section lies as far from its beginning as in the reading before.
    fn found(&self, entry: Entry, is_before: bool, site: Site) -> Found {
        let is_elsewhere = entry.is_label && entry.section != site.section;
        let value = if is_before || !entry.is_label || is_elsewhere {
            entry.value
        } else {
            entry.offset().wrapping_add(u64::from(site.start))
        };
        let known = if is_before {
            Known::Now(value)
        } else {
            Known::Later(value)
        };
        Found {
            known,
            is_label: entry.is_label,
            is_elsewhere,
        }
    }

    /// What is known where nothing is found.
    fn absent(&self) -> Known {
        if self.pass.is_last() {
            Known::Never
        } else {
            Known::Perhaps
        }
    }

    /// What is known at a place of the nearest local label of a digit, before or after.
    pub fn local_value(&self, digit: u8, is_before: bool, site: Site) -> Found {
        let count = self.counts.get(usize::from(digit)).copied().unwrap_or(0);
        let number = count.wrapping_sub(u32::from(is_before));
        match self.entry(numbered(digit, number)) {
            Some(entry) => self.found(entry, is_before, site),
            None if is_before => Found::plain(Known::Never),
            None => Found::plain(self.absent()),
        }
    }
}

impl<'a, A: Allocator> Symbols<'a, A> {
    /// Begins another reading.
    pub fn begin(&mut self, pass: Pass) {
        self.counts = [0; 10];
        self.is_moved = false;
        self.begun = 0;
        self.has_changed = false;
        self.number = self.number.saturating_add(1);
        self.pass = pass;
    }

    /// The symbols as they are, to look them up.
    pub fn scope(&self) -> Scope<'a, '_> {
        Scope {
            entries: &self.entries,
            slots: &self.slots,
            counts: self.counts,
            branch: self.branch(),
            only_grows: self.only_grows,
            number: self.number,
            pass: self.pass,
        }
    }

    /// Begins the next label or statement of the source.
    pub fn begin_part(&mut self) {
        self.begun = self.begun.saturating_add(1);
    }

    /// The statement as it was in the reading before, if it is a branch.
    fn branch(&self) -> Option<Branch> {
        self.branches.get(self.begun).copied().unwrap_or(None)
    }

    /// Keeps the statement, which is a branch.
    pub fn keep_branch(&mut self, branch: Branch) {
        self.has_changed |= match self.branch() {
            Some(before) => before.is_far != branch.is_far,
            None => true,
        };
        if self.branches.len() <= self.begun {
            let count = self.begun.saturating_add(1);
            self.is_full |= self.branches.resize(count, None).is_err();
        }
        if let Some(kept) = self.branches.get_mut(self.begun) {
            *kept = Some(branch);
        }
    }

    /// Whether a branch has another length than in the reading before.
    pub fn has_changed(&self) -> bool {
        self.has_changed
    }

    /// Whether a label stands at another place of its section than in the reading before.
    pub fn is_moved(&self) -> bool {
        self.is_moved
    }

    /// Whether a `%pcrel_hi` was met.
    pub fn has_distances(&self) -> bool {
        self.has_distances
    }

    /// Whether memory was missing for a symbol or a distance, which is then not there.
    pub fn is_full(&self) -> bool {
        self.is_full
    }

    /// Keeps how far a `%pcrel_hi` reaches.
    pub fn keep_distance(&mut self, address: u32, distance: u32) {
        self.has_distances = true;
        self.put(self.constant(numbered(DISTANCE, address), u64::from(distance)));
    }

    /// Defines a local label of a digit at a place.
    pub fn define_local(&mut self, digit: u8, site: Site<'a>) {
        if let Some(count) = self.counts.get_mut(usize::from(digit)) {
            let key = numbered(digit, *count);
            *count = count.saturating_add(1);
            self.put(self.label(key, site));
        }
    }

    /// Defines a label at a place. Tells what is wrong with it: it is defined already, or it is
    /// `.`.
    pub fn define_label(&mut self, name: &'a [u8], site: Site<'a>) -> Option<SourceErrorKind> {
        self.define(self.label(named(name), site))
    }

    /// Defines a constant. Tells what is wrong with it, as of a label. It can be defined again.
    pub fn define_constant(&mut self, name: &'a [u8], value: u64) -> Option<SourceErrorKind> {
        self.define(self.constant(named(name), value))
    }

    /// Puts a symbol that is not defined in this reading.
    fn define(&mut self, entry: Entry<'a>) -> Option<SourceErrorKind> {
        if entry.key.name == b".".as_slice() {
            return Some(SourceErrorKind::Unsupported);
        }
        if let Some(old) = self.scope().entry(entry.key) {
            let is_met = old.number == self.number;
            let are_labels = entry.is_label == old.is_label;
            if (entry.is_label || old.is_label) && (is_met || !are_labels) {
                return Some(SourceErrorKind::Duplicate);
            }
        }
        self.put(entry);
        None
    }

    /// The entry of a label at a place.
    fn label(&self, key: Key<'a>, site: Site<'a>) -> Entry<'a> {
        Entry {
            is_label: true,
            section: site.section,
            start: site.start,
            ..self.constant(key, u64::from(site.here))
        }
    }

    /// The entry of what is no label.
    fn constant(&self, key: Key<'a>, value: u64) -> Entry<'a> {
        Entry {
            key,
            value,
            is_label: false,
            section: &[],
            start: 0,
            met: self.pass,
            number: self.number,
            next: NONE,
        }
    }

    /// Puts an entry in the place of the one with its key, or after all.
    fn put(&mut self, entry: Entry<'a>) {
        let index = self.scope().find(entry.key);
        match self.entries.get_mut(index) {
            Some(old) => {
                let next = old.next;
                self.is_moved |= entry.is_label && old.offset() != entry.offset();
                *old = Entry { next, ..entry };
            }
            None => self.add(entry),
        }
    }

    /// Puts an entry after all. Where there are too few slots, there are twice as many then, and
    /// each entry is put in its slot.
    fn add(&mut self, entry: Entry<'a>) {
        let index = self.entries.len();
        self.is_full |= self.entries.push(entry).is_err();
        if index < self.slots.len() {
            return link(&mut self.entries, &mut self.slots, index);
        }
        let count = self.slots.len().saturating_mul(2).saturating_add(FEWEST);
        self.slots.clear();
        self.is_full |= self.slots.resize(count, NONE).is_err();
        for index in 0..self.entries.len() {
            link(&mut self.entries, &mut self.slots, index);
        }
    }
}

/// How many slots there are at least.
const FEWEST: usize = 64;

/// Puts an entry first in its slot.
fn link(entries: &mut [Entry], slots: &mut [usize], index: usize) {
    let Some(entry) = entries.get_mut(index) else {
        return;
    };
    let slot = entry.key.hash().checked_rem(slots.len()).unwrap_or(0);
    if let Some(first) = slots.get_mut(slot) {
        entry.next = *first;
        *first = index;
    }
}

impl<'a, A: Allocator + Copy> Symbols<'a, A> {
    /// No symbols, before the first reading.
    pub fn new(alloc: A) -> Self {
        Symbols {
            entries: Vec::new(alloc),
            slots: Vec::new(alloc),
            counts: [0; 10],
            has_distances: false,
            is_full: false,
            is_moved: false,
            begun: 0,
            branches: Vec::new(alloc),
            has_changed: false,
            only_grows: false,
            number: 0,
            pass: Pass::First,
        }
    }
}
