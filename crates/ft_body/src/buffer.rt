// A buffer of bytes that is written, and what a write destroys.
ghost use Rattle.std.specs.Prelude.{◌≡◌, ℕ, ◌+◌, ◌≤◌, length, take, vec_len, slice_index, IsOk, IfOk, OnOk, OnErr};
ghost use Rattle.ft_body.specs.Bytes.{laid_over, written};
ghost use Rattle.ft_body.specs.Paging.{EndsWithNoZero};
ghost use Rattle.ft_body.specs.PutBack.{PutsBytesBack};

use crate::PAGE_SIZE;
use ft_base::Memory;
use std::alloc::Global;

/// The bytes that a change of a buffer destroyed.
#[derive(Default, Drop)]
pub(crate) enum LostBytes {
    /// Nothing.
    #[default]
    Nothing,
    /// The bytes that were overwritten, where they were, and how many bytes there were in all.
    Part {
        from: u16,
        size: u16,
        bytes: Vec<u8>,
    },
    /// All bytes, if fewer were left.
    Whole(Vec<u8>),
}

/// Returns the bytes in another buffer. Copying none takes no memory.
pub(crate) fn copy_of(alloc: Global, bytes: &[u8]) -> Result<Vec<u8>, Memory>
    ensures bytes { IfOk result (λ copy. copy.items ≡ bytes.now) }
    ensures nothing { length bytes.now ≡ 0 → IsOk result }
{
    let mut copy = Vec::new(alloc);
    copy.extend_from_slice(bytes)?;
    Ok(copy)
}

/// Returns the bytes without the zeros at their end.
pub(crate) fn without_end_zeros(bytes: &[u8]) -> &[u8]
    ensures front { result.now ≡ take (length result.now) bytes.now }
    ensures size { length result.now ≤ length bytes.now }
    ensures zeros { (k : ℕ) → length result.now ≤ k → slice_index bytes.now k ≡ 0 }
    ensures last { EndsWithNoZero result.now }
{
    let mut end = bytes.len();
    while end > 0 && bytes[end - 1] == 0 {
        end -= 1;
    }
    &bytes[..end]
}

/// Writes bytes from `start` on, after zeros that fill a gap. Returns what it destroyed. If there
/// are no bytes, nothing changes. On an error, no byte has changed.
pub(crate) fn overwrite(
    buffer: &mut Vec<u8>,
    start: usize,
    bytes: &[u8],
) -> Result<LostBytes, Memory>
    requires room { start + length bytes.now ≤ PAGE_SIZE }
    requires page { vec_len buffer.old ≤ PAGE_SIZE }
    ensures after { OnOk result (buffer.new.items ≡ written buffer.old.items start bytes.now) }
    ensures lost { IfOk result (λ lost. PutsBytesBack lost buffer.new.items buffer.old.items) }
    ensures err { OnErr result (buffer.new.items ≡ buffer.old.items) }
{
    if bytes.is_empty() {
        return Ok(LostBytes::Nothing);
    }
    let size = buffer.len();
    let end = start + bytes.len();
    let from = start.min(size);
    let lost = copy_of(*buffer.allocator(), &buffer[from..end.min(size)])?;
    make_room(buffer, end)?;
    buffer.resize(end.max(size), 0)?;
    lay_over(buffer, start, bytes);
    Ok(LostBytes::Part {
        from: from as u16,
        size: size as u16,
        bytes: lost,
    })
}

/// Makes room for `size` bytes if there is none: for no more if the buffer is empty, and for a
/// whole page if they are more than half of one. In all other cases it leaves the growth to the
/// `Vec`.
fn make_room(buffer: &mut Vec<u8>, size: usize) -> Result<(), Memory>
    ensures { buffer.new.items ≡ buffer.old.items }
{
    if size <= buffer.capacity() {
        return Ok(());
    }
    let has = buffer.len();
    if has == 0 {
        buffer.reserve_exact(size)?;
    } else if size > PAGE_SIZE / 2 {
        buffer.reserve_exact(PAGE_SIZE.saturating_sub(has))?;
    }
    Ok(())
}

/// Writes bytes over those of a buffer, from `start` on.
pub(crate) fn lay_over(buffer: &mut Vec<u8>, start: usize, bytes: &[u8])
    requires { start + length bytes.now ≤ vec_len buffer.old }
    ensures { buffer.new.items ≡ laid_over buffer.old.items start bytes.now }
{
    buffer[start..start + bytes.len()].copy_from_slice(bytes);
}
