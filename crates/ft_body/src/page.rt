// One page of a body.
ghost use Rattle.std.specs.Prelude.{◌≡◌, ℕ, ◌+◌, ◌-◌, ◌<◌, ◌≤◌, [], vec_len, length, nat_lt, slice_index, IfOk, OnOk, OnErr};
ghost use Rattle.ft_body.specs.Paging.{IsPage, IsFront, IsWritten};
ghost use Rattle.ft_body.specs.PutBack.{PutsBytesBack, LiesWithin, bytes_back};

use crate::PAGE_SIZE;
use crate::buffer::{LostBytes, copy_of, lay_over, overwrite, without_end_zeros};
use ft_base::Memory;
use std::alloc::Global;
use std::marker::Model;
use std::mem;

/// The bytes of one page, up to the last one that is not zero. All bytes after it are zeros. A page
/// of zeros only is a hole.
#[derive(Drop)]
pub(crate) struct Page {
    bytes: Vec<u8>,
}

impl Model for Page {
    ghost use Rattle.std.specs.Prelude.{ℕ, List};

    ghost Value = { List ℕ };

    ghost view = { λ a. a.bytes.items };
}

impl Page {
    /// Returns a page of zeros. Takes no memory.
    pub(crate) fn hole(alloc: Global) -> Page
        ensures { result ≡ [] }
    {
        Page {
            bytes: Vec::new(alloc),
        }
    }

    /// Returns whether one of the bytes is not zero.
    pub(crate) fn is_made(&self) -> bool
        ensures { result ≡ nat_lt 0 (length self.now) }
    {
        !self.bytes.is_empty()
    }

    /// Returns the bytes, without zeros at the end.
    pub(crate) fn bytes(&self) -> &[u8]
        ensures { result.now ≡ self.now }
    {
        &self.bytes
    }

    /// Returns another page with equal bytes. Out of memory is the only error.
    pub(crate) fn copy(&self) -> Result<Page, Memory>
        ensures { IfOk result (λ copy. copy ≡ self.now) }
    {
        let bytes = copy_of(*self.bytes.allocator(), &self.bytes)?;
        Ok(Page { bytes })
    }

    /// Returns another page with the first `size` bytes, and zeros after them. Out of memory is the
    /// only error.
    pub(crate) fn front(&self, size: usize) -> Result<Page, Memory>
        requires size { size ≤ PAGE_SIZE }
        ensures page { IfOk result (λ front. IsPage front) }
        ensures bytes { IfOk result
            (λ front. IsFront (slice_index self.now) (slice_index front) size) }
    {
        let front = without_end_zeros(&self.bytes[..size.min(self.bytes.len())]);
        let bytes = copy_of(*self.bytes.allocator(), front)?;
        Ok(Page { bytes })
    }

    /// Writes bytes from `start` on, and returns what it destroyed. On an error, nothing has
    /// changed.
    pub(crate) fn write(&mut self, start: usize, bytes: &[u8]) -> Result<LostBytes, Memory>
        requires page { IsPage self.old }
        requires room { start + length bytes.now ≤ PAGE_SIZE }
        ensures page { OnOk result (IsPage self.new) }
        ensures after { OnOk result
            (IsWritten (slice_index self.old) (slice_index self.new) start bytes.now) }
        ensures lost { IfOk result (λ lost. PutsBytesBack lost self.new self.old) }
        ensures err { OnErr result (self.new ≡ self.old) }
    {
        let size = self.bytes.len();
        if start + bytes.len() < size {
            return overwrite(&mut self.bytes, start, bytes);
        }
        let bytes = without_end_zeros(bytes);
        if start + bytes.len() < size {
            return shorten(&mut self.bytes, start, bytes);
        }
        overwrite(&mut self.bytes, start, bytes)
    }

    /// Puts back what a write destroyed. Takes no memory.
    pub(crate) fn put_back(&mut self, lost: LostBytes)
        requires { LiesWithin lost self.old }
        ensures { self.new ≡ bytes_back lost self.old }
    {
        match lost {
            LostBytes::Nothing => {}
            LostBytes::Part { from, size, bytes } => {
                lay_over(&mut self.bytes, from as usize, &bytes);
                self.bytes.truncate(size as usize);
            }
            LostBytes::Whole(bytes) => self.bytes = bytes,
        }
    }
}

/// Keeps the bytes before `start`, puts the given bytes after them, and removes the zeros at the
/// end. Returns what it destroyed. On an error, nothing has changed.
fn shorten(buffer: &mut Vec<u8>, start: usize, bytes: &[u8]) -> Result<LostBytes, Memory>
    requires page { IsPage buffer.old.items }
    requires shorter { start + length bytes.now < vec_len buffer.old }
    ensures page { OnOk result (IsPage buffer.new.items) }
    ensures before { OnOk result ((k : ℕ) → k < start
        → slice_index buffer.new.items k ≡ slice_index buffer.old.items k) }
    ensures there { OnOk result ((k : ℕ) → start ≤ k
        → slice_index buffer.new.items k ≡ slice_index bytes.now (k - start)) }
    ensures lost { IfOk result (λ lost. PutsBytesBack lost buffer.new.items buffer.old.items) }
    ensures err { OnErr result (buffer.new.items ≡ buffer.old.items) }
{
    let mut front = copy_of(*buffer.allocator(), &buffer[..start])?;
    front.extend_from_slice(bytes)?;
    let end = without_end_zeros(&front).len();
    front.truncate(end);
    Ok(LostBytes::Whole(mem::replace(buffer, front)))
}
