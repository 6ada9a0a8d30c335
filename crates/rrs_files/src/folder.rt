//! A folder of the host.

ghost use Rattle.std.specs.Prelude.{◌≡◌, ◌<◌, ◌≤◌, [], IfOk, IfErr, IfSome, Ok, Err, Some, None, length, take};
ghost use Rattle.rrs_files.specs.Events.{Did, Changed, Closed, Gave, LinkTold, Listed, Looked, NameChanged, Opened, Renamed, Sought, Told, Took};

/// What is told of a file: its status.
#[derive(Clone, Copy, Debug, PartialEq)]
pub struct Status {
    /// The number of the device that it lies on.
    pub device: u64,
    /// Its number there.
    pub number: u64,
    /// Its kind, and who may do what with it: `st_mode`.
    pub mode: u32,
    /// How many names it has.
    pub links: u32,
    /// The number of its owner.
    pub owner: u32,
    /// The number of its group.
    pub group: u32,
    /// How many bytes it has.
    pub size: u64,
    /// How many bytes are best transferred at once.
    pub block_size: u32,
    /// How many blocks of 512 bytes it takes.
    pub blocks: u64,
    /// When it was read last.
    pub accessed: Moment,
    /// When it was written last.
    pub modified: Moment,
    /// When its status was changed last.
    pub changed: Moment,
}

/// A moment: seconds since 1970, modulo 2^64, and nanoseconds.
#[derive(Clone, Copy, Debug, PartialEq)]
pub struct Moment {
    /// The seconds.
    pub seconds: u64,
    /// The nanoseconds.
    pub nanos: u32,
}

/// How a file is opened.
#[derive(Clone, Copy, Debug, PartialEq)]
pub struct How {
    /// To be read.
    pub reads: bool,
    /// To be written.
    pub writes: bool,
    /// Each write is at its end. What is not opened to be written has none.
    pub appends: bool,
    /// It is made if it is not there.
    pub creates: bool,
    /// It must not be there.
    pub is_new: bool,
    /// What it has is gone.
    pub truncates: bool,
    /// It must be a directory.
    pub is_directory: bool,
    /// Who may do what with it, if it is made.
    pub mode: u32,
}

/// The most bytes of the text of a link: `PATH_MAX`.
pub const LINK_BYTES: usize = 4096;

/// The most bytes of a name: `NAME_MAX`.
pub const NAME_BYTES: usize = 255;

/// An entry of a directory, but for the bytes of its name.
#[derive(Clone, Copy, Debug, PartialEq)]
pub struct Entry {
    /// The number of what it names, on the device that the directory lies on.
    pub number: u64,
    /// The kind of what it names: `d_type`.
    pub kind: u8,
    /// How many bytes its name has.
    pub size: usize,
}

/// What is done to a file that is open.
#[derive(Clone, Copy, Debug, PartialEq)]
pub enum Change {
    /// It has so many bytes: those after them are gone, and those that it lacked are 0.
    Length(u64),
    /// What was written to it is put on the device.
    Flush,
    /// What was written to it is put there, and of its status only what its bytes need.
    FlushBytes,
    /// Who may do what with it: 12 bits.
    Mode(u32),
}

/// What is done to a name.
#[derive(Clone, Copy, Debug, PartialEq)]
pub enum NameChange {
    /// The name of a file is removed.
    Remove,
    /// An empty directory is removed.
    RemoveDirectory,
    /// A directory is made, with this mode.
    MakeDirectory(u32),
    /// When a file or a directory was read last, and when it was written.
    SetTimes(Moment, Moment),
}

/// The files below a folder of the host, of which up to 64 are open, each at a number from 0 to 63.
/// A directory that is open to be read is one of them: its position is the number of an entry.
///
/// A path is relative to the folder, and is nowhere absolute: `a/b` is `FOLDER/a/b`, and so is
/// `/a/b`. Where a call fails, it gives the word that answers the error, -n for the error n.
pub trait Folder {
    /// What a call of the host does: the folder before, the call with its outcome, and the folder
    /// after.
    ghost did: { Did Self };

    /// What a path names. A link as its last part is not followed.
    fn look(&mut self, path: &[u8]) -> Result<Status, u32>
        ensures { did self.old (Looked path.now result) self.new };

    /// Puts the text of the link that a path names at the beginning of this room, and gives how
    /// many bytes it has. No link has none.
    fn link(&mut self, path: &[u8], room: &mut [u8; LINK_BYTES]) -> Result<usize, u32>
        ensures some { IfOk result (λ size. 0 < size) }
        ensures within { IfOk result (λ size. size ≤ 4096) }
        ensures told { IfOk result (λ size.
            did self.old (LinkTold path.now (Ok (take size room.new))) self.new) }
        ensures failed { IfErr result (λ error.
            did self.old (LinkTold path.now (Err error)) self.new) };

    /// Opens the file that a path names, at a number. Gives the error, if there is one.
    fn open(&mut self, at: usize, path: &[u8], how: How) -> Option<u32>
        requires { at ≤ 63 }
        ensures { did self.old (Opened at path.now how result) self.new };

    /// Closes the file at a number.
    fn close(&mut self, at: usize)
        requires { at ≤ 63 }
        ensures { did self.old (Closed at) self.new };

    /// Reads so many bytes at most from the file at a number, to the beginning of this room: from
    /// its position on, which moves, or else from this one on.
    fn read(
        &mut self,
        at: usize,
        from: Option<u64>,
        most: usize,
        room: &mut [u8],
    ) -> Result<usize, u32>
        requires place { at ≤ 63 }
        requires room { most ≤ length room.old }
        ensures within { IfOk result (λ count. count ≤ most) }
        ensures length { length room.new ≡ length room.old }
        ensures gave { IfOk result (λ count.
            did self.old (Gave at from most (Ok (take count room.new))) self.new) }
        ensures failed { IfErr result (λ error.
            did self.old (Gave at from most (Err error)) self.new) };

    /// Writes bytes to the file at a number, all or fewer: from its position on, which moves, or
    /// else from this one on.
    fn write(&mut self, at: usize, from: Option<u64>, bytes: &[u8]) -> Result<usize, u32>
        requires { at ≤ 63 }
        ensures within { IfOk result (λ count. count ≤ length bytes.now) }
        ensures took { did self.old (Took at from bytes.now result) self.new };

    /// Moves the position in the file at a number, and gives it: from the beginning (0), from where
    /// it is (1), or from the end (2), by an offset modulo 2^64.
    fn seek(&mut self, at: usize, from: u32, offset: u64) -> Result<u64, u32>
        requires { at ≤ 63 }
        ensures { did self.old (Sought at from offset result) self.new };

    /// The status of the file at a number.
    fn status(&mut self, at: usize) -> Result<Status, u32>
        requires { at ≤ 63 }
        ensures { did self.old (Told at result) self.new };

    /// The entry at a position of the directory at a number, if there are so many, whose name is
    /// put at the beginning of this room: `.` and `..` first, and the others by their names.
    fn entry(
        &mut self,
        at: usize,
        position: u64,
        room: &mut [u8; NAME_BYTES],
    ) -> Result<Option<Entry>, u32>
        requires { at ≤ 63 }
        ensures within { IfOk result (λ told. IfSome told (λ entry. entry.size ≤ 255)) }
        ensures told { IfOk result (λ told. IfSome told (λ entry.
            did self.old (Listed at position (take entry.size room.new) (Ok (Some entry)))
            self.new)) }
        ensures ended { result ≡ Ok None
            → did self.old (Listed at position [] (Ok None)) self.new }
        ensures failed { IfErr result (λ error.
            did self.old (Listed at position [] (Err error)) self.new) };

    /// Changes the file at a number. Gives the error, if there is one.
    fn change(&mut self, at: usize, change: Change) -> Option<u32>
        requires { at ≤ 63 }
        ensures { did self.old (Changed at change result) self.new };

    /// Changes what a path names. Gives the error, if there is one.
    fn change_name(&mut self, path: &[u8], change: NameChange) -> Option<u32>
        ensures { did self.old (NameChanged path.now change result) self.new };

    /// Gives what one path names the name that another is, in the place of what that names. Gives
    /// the error, if there is one.
    fn rename(&mut self, from: &[u8], to: &[u8]) -> Option<u32>
        ensures { did self.old (Renamed from.now to.now result) self.new };
}
