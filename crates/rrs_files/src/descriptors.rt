//! The descriptors that a program has open.

ghost use Rattle.std.specs.Prelude.{◌≡◌, ◌<◌, ◌≤◌, ◌↔◌, IsTrue, Some, None, MatchOption, set, slice_index_or};
ghost use Rattle.rrs_files.specs.Descriptors.{AreStreams, AreUsed, HasTarget, IsClosed, IsFirstFree, IsFree, IsFull, IsOpen, IsUnused, IsUsed, kept_flags, may_write, stream_at};

/// How many descriptors there are: the standard streams, and 64 more.
pub const MOST_OPEN: usize = 67;

/// How many files may be open.
const MOST_FILES: usize = 64;

/// The flags of `openat` that are kept: the access mode, and `O_APPEND`.
const KEPT: u32 = 0x403;

/// Of these the access mode, which is 0 for a file that is read alone: `O_ACCMODE`.
const ACCESS_MODE: u32 = 3;

/// What a descriptor has.
#[derive(Clone, Copy, Debug, PartialEq)]
pub enum Target {
    /// The file of a number, below 64.
    File(usize),
    /// A standard stream: 0 is the input, 1 the output and 2 the errors.
    Stream(u32),
}

/// Which of the 67 descriptors are open.
#[derive(Clone, Copy, Debug, PartialEq)]
pub struct Descriptors {
    /// What each has that is open. Several may share a file, and so its position, or a stream.
    pub targets: [Option<Target>; MOST_OPEN],
    /// How each that is open was opened: its access mode and `O_APPEND`, of the flags of `openat`.
    pub flags: [u32; MOST_OPEN],
}

impl Descriptors {
    /// Of which the standard streams are open alone.
    pub fn new() -> Descriptors
        ensures { AreStreams result }
    {
        let mut targets = [None; MOST_OPEN];
        let mut flags = [0; MOST_OPEN];
        targets[0] = Some(Target::Stream(0));
        targets[1] = Some(Target::Stream(1));
        targets[2] = Some(Target::Stream(2));
        flags[1] = 1;
        flags[2] = 1;
        Descriptors { targets, flags }
    }

    /// What a descriptor has, if it is open.
    pub fn target_of(&self, descriptor: u32) -> Option<Target>
        ensures { MatchOption result (IsFree self.now.targets descriptor)
            (HasTarget self.now.targets descriptor) }
    {
        let place = descriptor as usize;
        if place >= MOST_OPEN {
            return None;
        }
        match self.targets[place] {
            Some(Target::File(at)) if at >= MOST_FILES => None,
            target => target,
        }
    }

    /// The number of the file of a descriptor, below 64, if it has one.
    pub fn file_of(&self, descriptor: u32) -> Option<usize>
        ensures { MatchOption result (IsClosed self.now.targets descriptor)
            (IsOpen self.now.targets descriptor) }
    {
        match self.target_of(descriptor) {
            Some(Target::File(at)) => Some(at),
            Some(Target::Stream(_)) => None,
            None => None,
        }
    }

    /// The standard stream of a descriptor, if it has one.
    pub fn stream_of(&self, descriptor: u32) -> Option<u32>
        ensures { result ≡ stream_at self.now.targets descriptor }
    {
        let place = descriptor as usize;
        if place >= MOST_OPEN {
            return None;
        }
        match self.targets[place] {
            Some(Target::Stream(stream)) => Some(stream),
            _ => None,
        }
    }

    /// How a descriptor was opened.
    pub fn flags_of(&self, descriptor: u32) -> u32
        requires { descriptor < 67 }
        ensures { result ≡ slice_index_or self.now.flags descriptor 0 }
    {
        self.flags[descriptor as usize]
    }

    /// Whether a descriptor was opened to be written.
    pub fn may_write(&self, descriptor: u32) -> bool
        requires { descriptor < 67 }
        ensures { result ≡ may_write self.now.flags descriptor }
    {
        self.flags_of(descriptor) & ACCESS_MODE != 0
    }

    /// The first descriptor from a least one on that is not open, if there is one.
    pub fn free_place(&self, least: usize) -> Option<usize>
        ensures { MatchOption result (IsFull self.now.targets least)
            (IsFirstFree self.now.targets least) }
    {
        for place in least..MOST_OPEN {
            match self.targets[place] {
                None => return Some(place),
                Some(_) => {}
            }
        }
        None
    }

    /// A number of a file that no descriptor has, if there is one.
    pub fn free_file(&self) -> Option<usize>
        ensures { MatchOption result (AreUsed self.now.targets)
            (IsUnused self.now.targets) }
    {
        for at in 0..MOST_FILES {
            if !self.has(Target::File(at)) {
                return Some(at);
            }
        }
        None
    }

    /// Whether some descriptor has this.
    pub fn has(&self, target: Target) -> bool
        ensures { IsTrue result ↔ IsUsed self.now.targets target }
    {
        for place in 0..MOST_OPEN {
            if self.targets[place] == Some(target) {
                return true;
            }
        }
        false
    }

    /// Gives a descriptor this, with flags of `openat`.
    pub fn take(&mut self, place: usize, target: Target, flags: u32)
        requires { place < 67 }
        ensures taken { self.new.targets ≡ set self.old.targets place (Some target) }
        ensures noted { self.new.flags ≡ set self.old.flags place (kept_flags flags) }
    {
        self.targets[place] = Some(target);
        self.flags[place] = flags & KEPT;
    }

    /// Frees a descriptor.
    pub fn free(&mut self, descriptor: u32)
        requires { descriptor < 67 }
        ensures freed { self.new.targets ≡ set self.old.targets descriptor None }
        ensures flags_kept { self.new.flags ≡ self.old.flags }
    {
        self.targets[descriptor as usize] = None;
    }
}

impl Default for Descriptors {
    fn default() -> Self {
        Self::new()
    }
}
