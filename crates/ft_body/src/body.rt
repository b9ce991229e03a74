// The body of a file, seen as a list of bytes.
ghost use Rattle.std.specs.Prelude.{◌≡◌, ◌==◌, ◌≤◌, ◌+◌, ◌/◌, ℕ, false, [], length, slice_index, IsOk, IfOk, OnOk, OnErr};
ghost use Rattle.ft_body.specs.declared.TheConstants.{LARGEST_SIZE};
ghost use Rattle.ft_body.specs.Bytes.{bytes_at, fitting, after_write, resized};
ghost use Rattle.ft_body.specs.Paging.{made_pages, is_made, KeepsPagesOutside, MakesNoPage};

use crate::blocks::Placed;
use crate::spread::{copy_of_blocks, made, read, resize, write};
use crate::undo::BodyUndo;
use crate::{LARGEST_SIZE, PAGE_SIZE};
use ft_base::Memory;
use smallvec::SmallVec;
use std::alloc::Global;
use std::marker::Model;
use std::snapshot::Snapshot;

/// The bytes of a file, which clauses see as a list.
///
/// They are in pages of `PAGE_SIZE` bytes. A page is made if one of its bytes is not zero. Any
/// other page is a hole, which takes no bytes. The pages are in blocks of 2 MiB. A block without a
/// made page is not kept.
///
/// A write takes time in proportion to the bytes that it writes, and the bytes of at most one page.
/// This time also grows with the pages of a block and the number of blocks in two cases. Either the
/// write adds pages or blocks, or it leaves only zeros at the end of a block. A read takes time in
/// proportion to the bytes that it gives. Lengthening takes constant time and no memory. A cut
/// takes time and memory in proportion to what stays: the blocks, the pages of one block, and the
/// bytes of at most one page.
#[derive(Drop)]
pub struct Body {
    size: usize,
    blocks: Vec<Placed>,
}

impl Model for Body {
    ghost use Rattle.std.specs.Prelude.{ℕ, List};
    ghost use Rattle.ft_body.specs.Blocks.{IsBlocked, bytes_of};

    ghost Value = { List ℕ };

    ghost view = { λ a. bytes_of a.size a.blocks.items };

    ghost invariant = { λ a. IsBlocked a.size a.blocks.items };
}

impl Body {
    /// Returns the body of an empty file. Takes no memory.
    pub fn new(alloc: Global) -> Body
        ensures { result ≡ [] }
    {
        Body {
            size: 0,
            blocks: Vec::new(alloc),
        }
    }

    /// Returns how many bytes there are.
    pub fn len(&self) -> u64
        ensures count { result ≡ length self.now }
        ensures limit { result ≤ LARGEST_SIZE }
    {
        self.size as u64
    }

    /// Returns whether there are no bytes.
    pub fn is_empty(&self) -> bool
        ensures { result ≡ (length self.now == 0) }
    {
        self.size == 0
    }

    /// Returns the bytes from an offset on, at most `count`. At or past the end there are none.
    /// Reading none takes no memory.
    pub fn read_at(&self, offset: u64, count: u64) -> Result<Vec<u8>, Memory>
        ensures bytes { IfOk result (λ read. read.items ≡ bytes_at self.now offset count) }
        ensures nothing { bytes_at self.now offset count ≡ [] → IsOk result }
    {
        let size = self.size as u64;
        let start = offset.min(size);
        let count = count.min(size - start);
        let alloc = *self.blocks.allocator();
        read(alloc, &self.blocks, start as usize, count as usize)
    }

    /// Writes as many of the bytes at an offset as there is room for below `LARGEST_SIZE`. Returns
    /// how many it wrote, and the undo. Zeros fill a gap before the bytes. If none is written,
    /// nothing changes and no memory is taken. On an error, nothing has changed.
    pub fn write_at(&mut self, offset: u64, bytes: &[u8]) -> Result<(u64, BodyUndo), Memory>
        requires { offset ≤ LARGEST_SIZE }
        ensures taken { IfOk result
            (λ done. done.0 ≡ length (fitting LARGEST_SIZE bytes.now offset)) }
        ensures after { OnOk result (self.new ≡ after_write self.old offset bytes.now) }
        ensures undo { IfOk result
            (λ done. done.1 ≡ record { before = self.old; after = self.new }) }
        ensures err { OnErr result (self.new ≡ self.old) }
        ensures nothing { fitting LARGEST_SIZE bytes.now offset ≡ [] → IsOk result }
        ensures pages { OnOk result
            (KeepsPagesOutside self.old self.new offset
            (offset + length (fitting LARGEST_SIZE bytes.now offset))) }
    {
        let taken = (LARGEST_SIZE - offset).min(bytes.len() as u64) as usize;
        if taken == 0 {
            return Ok((0, self.unchanged()));
        }
        let offset = offset as usize;
        let size = self.size;
        let before = Snapshot::of(&self.blocks);
        let lost = write(&mut self.blocks, offset, &bytes[..taken])?;
        self.size = size.max(offset + taken);
        let size_after = Snapshot::of(&self.size);
        let after = Snapshot::of(&self.blocks);
        let undo = BodyUndo::new(lost, size, before, size_after, after);
        Ok((taken as u64, undo))
    }

    /// Returns the undo of a change that changed nothing.
    fn unchanged(&self) -> BodyUndo
        ensures { result ≡ record { before = self.now; after = self.now } }
    {
        let lost = SmallVec::new(*self.blocks.allocator());
        let before = Snapshot::of(&self.blocks);
        let size_after = Snapshot::of(&self.size);
        let after = Snapshot::of(&self.blocks);
        BodyUndo::new(lost, self.size, before, size_after, after)
    }

    /// Cuts the body to a size, or adds zeros up to it, and returns the undo. Setting the present
    /// size or a greater one takes no memory. On an error, nothing has changed.
    pub fn set_len(&mut self, size: u64) -> Result<BodyUndo, Memory>
        requires { size ≤ LARGEST_SIZE }
        ensures after { OnOk result (self.new ≡ resized self.old size) }
        ensures undo { IfOk result (λ undo. undo ≡ record { before = self.old; after = self.new }) }
        ensures err { OnErr result (self.new ≡ self.old) }
        ensures nothing { length self.old ≡ size → IsOk result }
        ensures pages { OnOk result (MakesNoPage self.old self.new size) }
    {
        let old_size = self.size;
        let before = Snapshot::of(&self.blocks);
        let lost = resize(&mut self.blocks, old_size, size as usize)?;
        self.size = size as usize;
        let size_after = Snapshot::of(&self.size);
        let after = Snapshot::of(&self.blocks);
        Ok(BodyUndo::new(lost, old_size, before, size_after, after))
    }

    /// Undoes a change, if the body is as the change left it. Takes no memory.
    pub fn undo(&mut self, undo: BodyUndo)
        requires { self.old ≡ undo.after }
        ensures { self.new ≡ undo.before }
    {
        undo.put_back(&mut self.size, &mut self.blocks);
    }

    /// Returns how many pages are made. A page is made if one of its bytes is not zero. Any other
    /// page is a hole, which takes no bytes.
    pub fn pages(&self) -> u64
        ensures count { result ≡ made_pages self.now }
        ensures holes { (k : ℕ) → is_made self.now (k / PAGE_SIZE) ≡ false
            → slice_index self.now k ≡ 0 }
    {
        made(self.size, &self.blocks)
    }

    /// Returns another body with equal bytes. An empty one takes no memory. Out of memory is the
    /// only error.
    pub fn copy(&self) -> Result<Body, Memory>
        ensures equal { IfOk result (λ copy. copy ≡ self.now) }
        ensures nothing { self.now ≡ [] → IsOk result }
    {
        let blocks = copy_of_blocks(*self.blocks.allocator(), &self.blocks)?;
        Ok(Body {
            size: self.size,
            blocks,
        })
    }
}
