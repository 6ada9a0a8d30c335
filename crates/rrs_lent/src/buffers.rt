//! What is put into the caller's buffers.

ghost use Rattle.std.specs.Prelude.{◌≡◌, ◌≤◌, ◌++◌, length, drop};

/// Puts values at the front of a buffer that has room for them.
pub(crate) fn put<T: Copy>(values: &[T], buffer: &mut [T])
    requires { length values.now ≤ length buffer.old }
    ensures { buffer.new ≡ values.now ++ drop (length values.now) buffer.old }
{
    buffer[..values.len()].copy_from_slice(values);
}
