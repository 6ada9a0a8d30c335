//! What is written to a file from memory: a buffer, or the pieces of a vector.

ghost use Rattle.std.specs.Prelude.{◌≡◌, ◌<◌, ◌≤◌, true, false};
ghost use Rattle.rrs_fast.specs.Serving.{MakesSome};
ghost use Rattle.rrs_linux.specs.Vectors.{WritesVector};
ghost use Rattle.rrs_files.specs.Calls.{WritesFile, WritesFilePieces, refuses_write, takes_lent, takes_of_file};

use crate::errors::{BAD_ADDRESS, BAD_DESCRIPTOR};
use crate::files::Files;
use crate::folder::Folder;
use crate::serving::CHUNK;
use rrs_lib::Memory;
use rrs_linux::{Output, copy_chunk, most_of, write_pieces};

/// A descriptor of files that are lent. A write goes to its position, as to a stream.
#[derive(Drop)]
struct OpenFile<'a, F> {
    /// The files.
    files: &'a mut Files<F>,
    /// The descriptor.
    descriptor: u32,
}

impl<'a, F: Folder> Output for OpenFile<'a, F> {
    ghost takes = { takes_lent F.did };

    fn write_from<M: Memory>(&mut self, memory: &mut M, address: u32, count: u32) -> u32 {
        let descriptor = self.descriptor;
        self.files
            .write_from(memory, descriptor, None, address, count)
    }
}

impl<F: Folder> Files<F> {
    /// Whether a write by a descriptor that is open is refused: files may only be read, or it is
    /// open to be read alone.
    fn refuses_write(&self, descriptor: u32) -> bool
        requires { descriptor < 67 }
        ensures { result ≡ refuses_write self.now descriptor }
    {
        self.is_read_only || !self.descriptors.may_write(descriptor)
    }

    /// Writes to a descriptor from memory, and gives the answer of the call.
    pub(crate) fn write_from<M: Memory>(
        &mut self,
        memory: &mut M,
        descriptor: u32,
        from: Option<u64>,
        address: u32,
        count: u32,
    ) -> u32
        ensures does { MakesSome M.reads M.writes
            (WritesFile F.did (M.bytes memory.old) descriptor from address count
            self.old self.new result)
            memory.old memory.new }
        ensures bytes_kept { M.bytes memory.new ≡ M.bytes memory.old }
        ensures writable_kept { M.writable memory.new ≡ M.writable memory.old }
        ensures layout_kept { M.layout memory.new ≡ M.layout memory.old }
    {
        let Some(place) = self.descriptors.file_of(descriptor) else {
            return BAD_DESCRIPTOR;
        };
        if self.refuses_write(descriptor) {
            return BAD_DESCRIPTOR;
        }
        let Some(most) = most_of(address, count) else {
            return BAD_ADDRESS;
        };
        let most = most.min(CHUNK as u32);
        let mut chunk = [0; CHUNK];
        let size = copy_chunk(memory, address, most, &mut chunk);
        if is_unmapped(size, most) {
            return BAD_ADDRESS;
        }
        match self.folder.write(place, from, &chunk[..size as usize]) {
            Err(error) => error,
            Ok(written) => written as u32,
        }
    }

    /// Writes to a descriptor from the pieces of a vector in memory, and gives the answer of the
    /// call.
    pub(crate) fn write_pieces_from<M: Memory>(
        &mut self,
        memory: &mut M,
        descriptor: u32,
        address: u32,
        count: u32,
    ) -> u32
        ensures does { MakesSome M.reads M.writes
            (WritesFilePieces F.did (M.bytes memory.old) descriptor address count
            self.old self.new result)
            memory.old memory.new }
        ensures bytes_kept { M.bytes memory.new ≡ M.bytes memory.old }
        ensures writable_kept { M.writable memory.new ≡ M.writable memory.old }
        ensures layout_kept { M.layout memory.new ≡ M.layout memory.old }
    {
        let Some(_place) = self.descriptors.file_of(descriptor) else {
            return BAD_DESCRIPTOR;
        };
        if self.refuses_write(descriptor) {
            return BAD_DESCRIPTOR;
        }
        let mut file = OpenFile {
            files: self,
            descriptor,
        };
        write_lent(&mut file, memory, address, count)
    }
}

/// Writes the pieces of a vector in memory to a descriptor of files that are lent, and gives the
/// answer of the call.
fn write_lent<'a, F: Folder, M: Memory>(
    file: &mut OpenFile<'a, F>,
    memory: &mut M,
    address: u32,
    count: u32,
) -> u32
    ensures same_files { file.new.files.ghost_name ≡ file.old.files.ghost_name }
    ensures taken { MakesSome M.reads M.writes
        (WritesVector (takes_of_file F.did file.old.descriptor) (M.bytes memory.old) address count
        file.old.files.now file.new.files.now result)
        memory.old memory.new }
    ensures bytes_kept { M.bytes memory.new ≡ M.bytes memory.old }
    ensures writable_kept { M.writable memory.new ≡ M.writable memory.old }
    ensures layout_kept { M.layout memory.new ≡ M.layout memory.old }
{
    write_pieces(file, memory, address, count)
}

/// Whether a buffer of which bytes are wanted has none, where so many were copied.
fn is_unmapped(copied: u32, wanted: u32) -> bool
    ensures yes { result ≡ true → (copied ≡ 0) × (0 < wanted) }
    ensures no { result ≡ false → copied ≡ 0 → wanted ≡ 0 }
{
    copied == 0 && wanted != 0
}
