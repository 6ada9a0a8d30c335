//! What a stream does with the bytes of a program's buffers.

ghost use Rattle.std.specs.Prelude.{◌≡◌};
ghost use Rattle.rrs_fast.specs.Serving.{MakesSome};
ghost use Rattle.rrs_linux.specs.Transfers.{Gives, Takes};

use rrs_lib::Memory;

/// A standard input. `K` is what the environment keeps between two calls, and so says which kind
/// the input is of.
pub trait Input<K> {
    /// What a read to a buffer does: to the bytes of memory, of which some are writable, to the
    /// input and to what is kept of it; by which accesses, in order, and with which answer.
    ghost gives: { Gives Self K };

    /// Which inputs are alike, for a program that reads them. Without this member those are that
    /// are equal.
    ghost alike: { Self → Self → Type 0 } = { λ a b. a ≡ b };

    /// Gives bytes of the input to a buffer in memory, and gives the answer of the call.
    fn read_to<M: Memory>(&mut self, held: &mut K, memory: &mut M, address: u32, count: u32) -> u32
        ensures given { MakesSome M.reads M.writes
            (gives (M.writable memory.old) (M.bytes memory.old) (M.bytes memory.new) address count
            self.old held.old self.new held.new result)
            memory.old memory.new }
        ensures writable_kept { M.writable memory.new ≡ M.writable memory.old }
        ensures layout_kept { M.layout memory.new ≡ M.layout memory.old };
}

/// A standard output or a standard error.
pub trait Output {
    /// What a write of a buffer does to the stream, by the bytes of memory; by which accesses, in
    /// order, and with which answer.
    ghost takes: { Takes Self };

    /// Which streams are alike, for a program that writes to them. Without this member those are
    /// that are equal.
    ghost alike: { Self → Self → Type 0 } = { λ a b. a ≡ b };

    /// Takes the bytes of a buffer in memory, and gives the answer of the call.
    fn write_from<M: Memory>(&mut self, memory: &mut M, address: u32, count: u32) -> u32
        ensures taken { MakesSome M.reads M.writes
            (takes (M.bytes memory.old) address count self.old self.new result)
            memory.old memory.new }
        ensures bytes_kept { M.bytes memory.new ≡ M.bytes memory.old }
        ensures writable_kept { M.writable memory.new ≡ M.writable memory.old }
        ensures layout_kept { M.layout memory.new ≡ M.layout memory.old };
}
