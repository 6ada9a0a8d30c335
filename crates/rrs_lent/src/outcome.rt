//! What a caller is told of a source.

/// How an assembly ended: the source was assembled.
pub const ASSEMBLED: u32 = 0;

/// How an assembly ended: the source has mistakes.
pub const MISTAKES: u32 = 1;

/// How an assembly ended: the memory that was lent is too small.
pub const SMALL_ROOM: u32 = 2;

/// How an assembly ended: a buffer is too small.
pub const SMALL_BUFFER: u32 = 3;

/// A statement, and where its bytes lie.
#[repr(C)]
#[derive(Clone, Copy, PartialEq, Debug)]
pub struct RrsStatement {
    /// The line, counted from 1.
    pub line: usize,
    /// The address of its first byte.
    pub address: u32,
    /// How many bytes it has.
    pub size: u32,
}

/// A label, and where it lies.
#[repr(C)]
#[derive(Clone, Copy, PartialEq, Debug)]
pub struct RrsSymbol {
    /// The line, counted from 1.
    pub line: usize,
    /// Where its name begins in the texts.
    pub name: usize,
    /// How many bytes its name has.
    pub length: usize,
    /// The address of what stands after it.
    pub address: u32,
}

/// A mistake, and where it is.
#[repr(C)]
#[derive(Clone, Copy, PartialEq, Debug)]
pub struct RrsMistake {
    /// The line, counted from 1.
    pub line: usize,
    /// The byte of the line, counted from 1.
    pub column: usize,
    /// Where what is told of it begins in the texts.
    pub text: usize,
    /// How many bytes that has.
    pub length: usize,
}

/// How an assembly ended, and how many of each there are.
#[repr(C)]
#[derive(Clone, Copy, PartialEq, Debug)]
pub struct RrsAssembled {
    /// How it ended: `ASSEMBLED`, `MISTAKES`, `SMALL_ROOM` or `SMALL_BUFFER`.
    pub end: u32,
    /// Where the program begins, and 0 where the source is not assembled.
    pub entry: u32,
    /// How many bytes there are, from the address of the first section on.
    pub bytes: usize,
    /// How many statements.
    pub statements: usize,
    /// How many labels.
    pub symbols: usize,
    /// How many mistakes.
    pub mistakes: usize,
    /// How many bytes the names of the labels have, or what is told of the mistakes.
    pub texts: usize,
    /// How much memory to lend the next time, where it was too little, and else 0.
    pub room: usize,
}
