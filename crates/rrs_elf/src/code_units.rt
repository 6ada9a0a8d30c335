//! What instructions lie in.

ghost use Rattle.std.specs.Prelude.{◌≡◌, ◌↔◌, ◌/◌, ◌%◌, ◌≤◌, IsTrue};
ghost use Rattle.rrs_elf.specs.Executables.{bytes_of};

/// What the instructions of a machine lie in.
#[derive(Debug, PartialEq, Clone, Copy)]
pub enum CodeUnit {
    /// Words at multiples of 4.
    Word,
    /// Half-words at even addresses, of which an instruction has one or two: compressed code.
    HalfWord,
}

impl CodeUnit {
    /// How many bytes a unit has.
    pub fn bytes(self) -> u32
        ensures value { result ≡ bytes_of self }
        ensures bounds { (2 ≤ result) × (result ≤ 4) }
    {
        match self {
            CodeUnit::Word => 4,
            CodeUnit::HalfWord => 2,
        }
    }

    /// How many whole units so many bytes have.
    #[inline]
    pub fn count(self, bytes: u32) -> u32
        ensures value { result ≡ bytes / bytes_of self }
        ensures bounds { result ≤ bytes / 2 }
    {
        match self {
            CodeUnit::Word => bytes / 4,
            CodeUnit::HalfWord => bytes / 2,
        }
    }

    /// Whether a unit begins at an address.
    pub fn begins_at(self, address: u32) -> bool
        ensures { IsTrue result ↔ (address % bytes_of self ≡ 0) }
    {
        address % self.bytes() == 0
    }
}
