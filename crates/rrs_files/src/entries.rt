//! The entries of a directory, as a program finds them in memory.

ghost use Rattle.std.specs.Prelude.{◌≡◌, ◌≤◌, ◌+◌, [], ◌++◌, length, ℕ};
ghost use Rattle.rrs_files.specs.Entries.{AddsEntry, ListsEntries, PutsEntry, ReadsDirectory, ended_by, record_size};

use crate::errors::{BAD_ARGUMENT, NO_DIRECTORY};
use crate::folder::{Entry, Folder, NAME_BYTES};
use crate::paths::{IS_DIRECTORY, kind_of};
use arrayvec::ArrayVec;

/// The most bytes of entries that one call puts into memory.
pub const ENTRY_BYTES: usize = 65_536;

/// No more entries have so many bytes, since each has 24 at least.
const MOST_ENTRIES: usize = 2731;

/// How many bytes of an entry are before its name.
const BEFORE_NAME: usize = 19;

/// What one entry more is to a text of entries.
#[derive(Clone, Copy, Debug, PartialEq)]
pub enum Step {
    /// It was added.
    Added,
    /// There is none.
    Ended,
    /// There is no room for it.
    Full,
    /// The host failed.
    Failed(u32),
}

/// Reads entries of the directory at a number from its position on, as many as have room in so many
/// bytes, to a text that is empty, and gives the position after them.
pub fn read_directory<F: Folder>(
    folder: &mut F,
    place: usize,
    count: u32,
    text: &mut ArrayVec<u8, ENTRY_BYTES>,
) -> Result<u64, u32>
    requires place { place ≤ 63 }
    requires empty { text.old.items ≡ [] }
    ensures { ReadsDirectory F.did place count folder.old folder.new text.new.items result }
{
    let status = match folder.status(place) {
        Err(error) => return Err(error),
        Ok(status) => status,
    };
    if kind_of(&status) != IS_DIRECTORY {
        return Err(NO_DIRECTORY);
    }
    match folder.seek(place, 1, 0) {
        Err(error) => Err(error),
        Ok(position) => {
            let most = count.min(ENTRY_BYTES as u32);
            list_entries(folder, place, position, most as usize, text)
        }
    }
}

/// Adds entries from a position on to a text that is empty, as many as have room in so many bytes,
/// and gives the position after them.
fn list_entries<F: Folder>(
    folder: &mut F,
    place: usize,
    from: u64,
    most: usize,
    text: &mut ArrayVec<u8, ENTRY_BYTES>,
) -> Result<u64, u32>
    requires place { place ≤ 63 }
    requires most { most ≤ 65536 }
    requires empty { text.old.items ≡ [] }
    ensures { ListsEntries F.did place from most folder.old folder.new text.new.items result }
{
    for count in 0..MOST_ENTRIES {
        let position = from.wrapping_add(count as u64);
        let step = add_entry(folder, place, position, most, text);
        match ended_by(step, count, position) {
            Some(ended) => return ended,
            None => {}
        }
    }
    Err(BAD_ARGUMENT)
}

/// How a list of entries ends at a position where so many were added before, if it does.
fn ended_by(step: Step, count: usize, position: u64) -> Option<Result<u64, u32>>
    ensures { result ≡ ended_by step count position }
{
    match step {
        Step::Added => None,
        Step::Ended => Some(Ok(position)),
        Step::Full if count == 0 => Some(Err(BAD_ARGUMENT)),
        Step::Failed(error) if count == 0 => Some(Err(error)),
        _ => Some(Ok(position)),
    }
}

/// Adds the entry at a position to a text, if there is one and room for it in so many bytes.
fn add_entry<F: Folder>(
    folder: &mut F,
    place: usize,
    position: u64,
    most: usize,
    text: &mut ArrayVec<u8, ENTRY_BYTES>,
) -> Step
    requires place { place ≤ 63 }
    requires most { most ≤ 65536 }
    ensures { AddsEntry F.did place position most text.old.items text.new.items
        folder.old folder.new result }
{
    let mut name = [0; NAME_BYTES];
    match folder.entry(place, position, &mut name) {
        Err(error) => Step::Failed(error),
        Ok(None) => Step::Ended,
        Ok(Some(entry)) => {
            let next = position.wrapping_add(1);
            put_entry(text, most, entry, &name[..entry.size], next)
        }
    }
}

/// Adds an entry to a text, if there is room for it in so many bytes.
fn put_entry(
    text: &mut ArrayVec<u8, ENTRY_BYTES>,
    most: usize,
    entry: Entry,
    name: &[u8],
    next: u64,
) -> Step
    requires most { most ≤ 65536 }
    requires name { length name.now ≤ 255 }
    ensures { PutsEntry most entry name.now next text.old.items text.new.items result }
{
    let size = record_size(name);
    if text.as_slice().len() + size > most {
        return Step::Full;
    }
    append(text, &entry.number.to_le_bytes());
    append(text, &next.to_le_bytes());
    append(text, &(size as u16).to_le_bytes());
    append(text, &[entry.kind]);
    append(text, name);
    append(text, &[0; 8][..size - BEFORE_NAME - name.len()]);
    Step::Added
}

/// How many bytes the entry of a name has.
fn record_size(name: &[u8]) -> usize
    requires { length name.now ≤ 255 }
    ensures { result ≡ record_size name.now }
{
    (BEFORE_NAME + name.len() + 8) / 8 * 8
}

/// Appends bytes to a text.
fn append(text: &mut ArrayVec<u8, ENTRY_BYTES>, bytes: &[u8])
    requires { length text.old.items + length bytes.now ≤ 65536 }
    ensures { text.new.items ≡ text.old.items ++ bytes.now }
{
    match text.try_extend_from_slice(bytes) {
        Ok(()) | Err(_) => {}
    }
}
