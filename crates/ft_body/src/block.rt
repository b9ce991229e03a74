// A block of a body: some of its bytes, in pages.
ghost use Rattle.std.specs.Prelude.{◌≡◌, ℕ, ◌+◌, ◌<◌, ◌≤◌, ◌≢◌, ◌++◌, [], length, slice_index, IfOk, OnOk, OnErr};
ghost use Rattle.ft_body.specs.declared.TheConstants.{BLOCK_SIZE};
ghost use Rattle.ft_body.specs.Bytes.{bytes_at, written, resized};
ghost use Rattle.ft_body.specs.Paging.{made_pages, IsFrontEnd};

use crate::BLOCK_SIZE;
use crate::block_undo::BlockUndo;
use crate::page::Page;
use crate::pages::{Lost, copy_of_pages, end_below, read as read_pages, resize, write};
use ft_base::Memory;
use std::alloc::Global;
use std::marker::Model;
use std::snapshot::Snapshot;

/// The bytes of one block, which clauses see as a list.
///
/// They are in pages of `PAGE_SIZE` bytes. A page is made if one of its bytes is not zero. Any
/// other page is a hole, which takes no bytes. A write takes time in proportion to the bytes that
/// it writes, the pages that it adds, and the bytes of at most one page. A read takes time in
/// proportion to the bytes that it gives. A change of the length takes time in proportion to the
/// pages that stay or are added, and the bytes of at most one page.
#[derive(Drop)]
pub(crate) struct Block {
    size: usize,
    pages: Vec<Page>,
}

impl Model for Block {
    ghost use Rattle.std.specs.Prelude.{ℕ, List};
    ghost use Rattle.ft_body.specs.Paging.{IsPaged, bytes_in};

    ghost Value = { List ℕ };

    ghost view = { λ a. bytes_in a.size a.pages.items };

    ghost invariant = { λ a. IsPaged a.size a.pages.items };
}

impl Block {
    /// Returns a block without bytes. Takes no memory.
    pub(crate) fn new(alloc: Global) -> Block
        ensures { result ≡ [] }
    {
        Block {
            size: 0,
            pages: Vec::new(alloc),
        }
    }

    /// Returns how many bytes there are.
    pub(crate) fn len(&self) -> usize
        ensures count { result ≡ length self.now }
        ensures limit { result ≤ BLOCK_SIZE }
    {
        self.size
    }

    /// Appends the bytes from an offset on, at most `count`, to others. Out of memory is the only
    /// error.
    pub(crate) fn read_at(
        &self,
        read: &mut Vec<u8>,
        offset: usize,
        count: usize,
    ) -> Result<(), Memory>
        ensures { OnOk result (read.new.items ≡ read.old.items ++ bytes_at self.now offset count) }
    {
        let start = offset.min(self.size);
        let count = count.min(self.size - start);
        read_pages(&self.pages, read, start, count)
    }

    /// Returns the length of the bytes before an offset, without the zeros at their end.
    pub(crate) fn end_below(&self, size: usize) -> usize
        ensures { IsFrontEnd (slice_index self.now) size result }
    {
        end_below(&self.pages, size.min(self.size))
    }

    /// Writes bytes at an offset, and returns the undo. Zeros fill a gap before the bytes. If there
    /// are no bytes, nothing changes. On an error, nothing has changed.
    pub(crate) fn write_at(&mut self, offset: usize, bytes: &[u8]) -> Result<BlockUndo, Memory>
        requires { offset + length bytes.now ≤ BLOCK_SIZE }
        ensures after { OnOk result (self.new ≡ written self.old offset bytes.now) }
        ensures undo { IfOk result (λ undo. undo ≡ record { before = self.old; after = self.new }) }
        ensures err { OnErr result (self.new ≡ self.old) }
    {
        if bytes.is_empty() {
            return Ok(self.unchanged());
        }
        let size = self.size;
        let before = Snapshot::of(&self.pages);
        let lost = write(&mut self.pages, offset, bytes)?;
        self.size = size.max(offset + bytes.len());
        let size_after = Snapshot::of(&self.size);
        let after = Snapshot::of(&self.pages);
        Ok(BlockUndo::new(lost, size, before, size_after, after))
    }

    /// Returns the undo of a change that changed nothing.
    fn unchanged(&self) -> BlockUndo
        ensures { result ≡ record { before = self.now; after = self.now } }
    {
        let lost = Lost::nothing(&self.pages);
        let before = Snapshot::of(&self.pages);
        let size_after = Snapshot::of(&self.size);
        let after = Snapshot::of(&self.pages);
        BlockUndo::new(lost, self.size, before, size_after, after)
    }

    /// Cuts the block to a size, or adds zeros up to it, and returns the undo. On an error, nothing
    /// has changed.
    pub(crate) fn set_len(&mut self, size: usize) -> Result<BlockUndo, Memory>
        requires { size ≤ BLOCK_SIZE }
        ensures after { OnOk result (self.new ≡ resized self.old size) }
        ensures undo { IfOk result (λ undo. undo ≡ record { before = self.old; after = self.new }) }
        ensures err { OnErr result (self.new ≡ self.old) }
    {
        let old_size = self.size;
        let before = Snapshot::of(&self.pages);
        let lost = resize(&mut self.pages, old_size, size)?;
        self.size = size;
        let size_after = Snapshot::of(&self.size);
        let after = Snapshot::of(&self.pages);
        Ok(BlockUndo::new(lost, old_size, before, size_after, after))
    }

    /// Undoes a change, if the block is as the change left it. Takes no memory.
    pub(crate) fn undo(&mut self, undo: BlockUndo)
        requires { self.old ≡ undo.after }
        ensures { self.new ≡ undo.before }
    {
        undo.put_back(&mut self.size, &mut self.pages);
    }

    /// Returns how many pages are made.
    pub(crate) fn pages(&self) -> u64
        ensures { result ≡ made_pages self.now }
    {
        self.pages.iter().filter(|page| page.is_made()).count() as u64
    }

    /// Returns another block with equal bytes. Out of memory is the only error.
    pub(crate) fn copy(&self) -> Result<Block, Memory>
        ensures { IfOk result (λ copy. copy ≡ self.now) }
    {
        let pages = copy_of_pages(*self.pages.allocator(), &self.pages)?;
        Ok(Block {
            size: self.size,
            pages,
        })
    }
}
