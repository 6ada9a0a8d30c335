//! Numbers in a file, the lowest byte first. A byte past the end of the file counts as 0.

ghost use Rattle.std.specs.Prelude.{◌≡◌, ◌<◌, ◌^◌, slice_index};
ghost use Rattle.rrs_elf.specs.Numbers.{half, word};

/// The byte at an offset.
pub fn read_byte(file: &[u8], at: usize) -> u8
    ensures { result ≡ slice_index file.now at }
{
    if at < file.len() { file[at] } else { 0 }
}

/// The number of 2 bytes at an offset.
#[tactic(auto, unfolding(crate::specs::Numbers::half))]
pub fn read_half(file: &[u8], at: usize) -> u16
    requires { at < 2 ^ 41 }
    ensures { result ≡ half file.now at }
{
    u16::from(read_byte(file, at)) + 256 * u16::from(read_byte(file, at + 1))
}

/// The number of 4 bytes at an offset.
#[tactic(auto, unfolding(crate::specs::Numbers::word))]
pub fn read_word(file: &[u8], at: usize) -> u32
    requires { at < 2 ^ 40 }
    ensures { result ≡ word file.now at }
{
    u32::from(read_half(file, at)) + 65536 * u32::from(read_half(file, at + 2))
}
