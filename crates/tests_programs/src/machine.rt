//! A runtime whose words, files and outputs are in memory, and fail where they are told to.

use std::alloc::{Allocator, Global};
use std::cell::Cell;
use std::env::FillError;
use std::fmt::Display;
use std::fs::{Metadata, OpenFile, OpenOptions};
use std::io;
use std::io::{ErrorKind, Read, Seek, SeekFrom, Write};
use std::rt::{Env, Files};

/// A file's name and bytes, and whether a read after the last of them fails.
#[derive(Clone, Copy)]
pub struct Contents<'a> {
    pub name: &'a str,
    pub bytes: &'a [u8],
    pub fails: bool,
}

/// The words of the command line, the files, what was said on standard error, the bytes that were
/// printed on standard output, and how many fit there.
#[derive(Drop)]
pub struct Machine<'a> {
    alloc: Global,
    words: &'a [&'a [u8]],
    files: &'a [Contents<'a>],
    said: Cell<Vec<u8>>,
    printed: Cell<Vec<u8>>,
    room: usize,
}

impl<'a> Machine<'a> {
    /// A machine on which nothing was printed.
    pub fn new(
        alloc: Global,
        words: &'a [&'a [u8]],
        files: &'a [Contents<'a>],
        room: usize,
    ) -> Machine<'a> {
        Machine {
            alloc,
            words,
            files,
            said: Cell::new(Vec::new(alloc)),
            printed: Cell::new(Vec::new(alloc)),
            room,
        }
    }

    /// What was said on standard error, and what was printed on standard output.
    pub fn into_outputs(self) -> (Vec<u8>, Vec<u8>) {
        (self.said.into_inner(), self.printed.into_inner())
    }
}

/// A file that is open for reading.
#[derive(Drop)]
pub struct Opened<'a> {
    rest: &'a [u8],
    fails: bool,
}

fn unsupported() -> io::Error {
    io::Error::from(ErrorKind::Unsupported)
}

impl Read for Opened<'_> {
    fn read(&mut self, buf: &mut [u8]) -> io::Result<usize> {
        if self.rest.is_empty() && self.fails {
            return Err(io::Error::from(ErrorKind::IsADirectory));
        }
        let count = buf.len().min(self.rest.len());
        buf[..count].copy_from_slice(&self.rest[..count]);
        self.rest = &self.rest[count..];
        Ok(count)
    }
}

impl Write for Opened<'_> {
    fn write(&mut self, _buf: &[u8]) -> io::Result<usize> {
        Err(unsupported())
    }

    fn flush(&mut self) -> io::Result<()> {
        Err(unsupported())
    }
}

impl Seek for Opened<'_> {
    fn seek(&mut self, _to: SeekFrom) -> io::Result<u64> {
        Err(unsupported())
    }
}

impl OpenFile for Opened<'_> {
    fn metadata(&self) -> io::Result<Metadata> {
        Err(unsupported())
    }

    fn set_len(&self, _size: u64) -> io::Result<()> {
        Err(unsupported())
    }

    fn sync_all(&self) -> io::Result<()> {
        Err(unsupported())
    }

    fn sync_data(&self) -> io::Result<()> {
        Err(unsupported())
    }
}

impl Alloc for Machine<'_> {
    type A = Global;

    fn alloc(&self) -> Global {
        self.alloc
    }
}

impl Env for Machine<'_> {
    fn arg(&self, i: usize, buf: &mut [u8]) -> Result<usize, FillError> {
        let Some(word) = self.words.get(i) else {
            return Err(FillError::NotPresent);
        };
        if word.len() > buf.len() {
            return Err(FillError::TooLong);
        }
        buf[..word.len()].copy_from_slice(word);
        Ok(word.len())
    }

    fn var(&self, _name: &str, _buf: &mut [u8]) -> Result<usize, FillError> {
        Err(FillError::NotPresent)
    }

    fn var_at(&self, _i: usize, _buf: &mut [u8]) -> Result<usize, FillError> {
        Err(FillError::NotPresent)
    }
}

impl<'a> Files for Machine<'a> {
    type File = Opened<'a>;

    type Dir = Opened<'a>;

    fn open_file(&self, _how: &OpenOptions, path: &str) -> io::Result<Opened<'a>> {
        for file in self.files {
            if file.name == path {
                return Ok(Opened {
                    rest: file.bytes,
                    fails: file.fails,
                });
            }
        }
        Err(io::Error::from(ErrorKind::NotFound))
    }

    fn open_dir(&self, _path: &str) -> io::Result<Opened<'a>> {
        Err(unsupported())
    }

    fn metadata(&self, _path: &str) -> io::Result<Metadata> {
        Err(unsupported())
    }

    fn symlink_metadata(&self, _path: &str) -> io::Result<Metadata> {
        Err(unsupported())
    }

    fn copy(&self, _from: &str, _to: &str) -> io::Result<u64> {
        Err(unsupported())
    }

    fn rename(&self, _from: &str, _to: &str) -> io::Result<()> {
        Err(unsupported())
    }

    fn remove_file(&self, _path: &str) -> io::Result<()> {
        Err(unsupported())
    }

    fn create_dir(&self, _path: &str) -> io::Result<()> {
        Err(unsupported())
    }

    fn remove_dir(&self, _path: &str) -> io::Result<()> {
        Err(unsupported())
    }

    fn remove_dir_all<B: Allocator>(&self, _alloc: B, _path: &str) -> io::Result<()> {
        Err(unsupported())
    }
}

impl Print for Machine<'_> {
    fn print<D: Display + Drop>(&self, _value: D) -> io::Result<()> {
        Err(unsupported())
    }

    fn println<D: Display + Drop>(&self, _value: D) -> io::Result<()> {
        Err(unsupported())
    }

    fn write_all(&self, _bytes: &[u8]) -> io::Result<()> {
        Err(unsupported())
    }

    fn write_some(&self, bytes: &[u8]) -> io::Result<usize> {
        let mut printed = self.printed.replace(Vec::new(self.alloc));
        let room = self.room.saturating_sub(printed.len());
        let count = bytes.len().min(room);
        let added = printed.extend_from_slice(&bytes[..count]);
        self.printed.set(printed);
        if room == 0 {
            return Err(io::Error::from(ErrorKind::StorageFull));
        }
        added?;
        Ok(count)
    }
}

impl Eprint for Machine<'_> {
    fn eprint<D: Display + Drop>(&self, _value: D) -> io::Result<()> {
        Err(unsupported())
    }

    fn eprintln<D: Display + Drop>(&self, value: D) -> io::Result<()> {
        let mut said = self.said.replace(Vec::new(self.alloc));
        let written = writeln!(said, "{value}");
        self.said.set(said);
        written
    }
}
