// Bytes for a caller's buffer.
ghost use Rattle.std.specs.Prelude.{◌≡◌, length};
ghost use Rattle.ft_session.specs.Buffers.{filled};

/// Copies bytes into a buffer, as many as have room: how many there are in all. The rest of the
/// buffer is left as it is.
pub fn copy_into(bytes: &[u8], buffer: &mut [u8]) -> usize
    ensures count { result ≡ length bytes.now }
    ensures bytes { buffer.new ≡ filled bytes.now buffer.old }
{
    let count = bytes.len().min(buffer.len());
    let (front, _) = buffer.split_at_mut(count);
    front.copy_from_slice(&bytes[..count]);
    bytes.len()
}
