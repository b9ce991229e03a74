// The pages of a block: how they are read, written, cut, and put back.
ghost use Rattle.std.specs.Prelude.{◌≡◌, ℕ, List, [], ◌+◌, ◌-◌, ◌*◌, ◌/◌, ◌<◌, ◌≤◌, ◌++◌, length, replicate, take, drop, vec_len, IsOk, IfOk, OnOk, OnErr};
ghost use Prim.Native.Nat.{max};
ghost use Rattle.ft_body.specs.Paging.{page_count as count_of, byte_in, bytes_in, ArePages, IsPaged, AppendsBytes, IsWritten, IsFront, IsFrontEnd};
ghost use Rattle.ft_body.specs.Bytes.{resized};
ghost use Rattle.ft_body.specs.PutBack.{PutsBack, PutPartsBack};

use crate::buffer::{LostBytes, without_end_zeros};
use crate::page::Page;
use crate::{BLOCK_SIZE, PAGE_SIZE};
use ft_base::Memory;
use smallvec::SmallVec;
use std::alloc::Global;
use std::mem;

/// The bytes and pages that a change of the pages destroyed.
#[derive(Drop)]
pub(crate) enum Lost {
    /// The lost bytes of the pages that were written, from `first` on, and how many pages there
    /// were.
    Parts {
        count: u16,
        first: u16,
        parts: SmallVec<LostBytes, 1>,
    },
    /// The pages from before a cut. The first `kept` of them are holes here, because they stay in
    /// the block.
    Tail {
        kept: u16,
        pages: Vec<Page>,
    },
}

/// Returns how many pages `size` bytes take.
pub(crate) fn page_count(size: usize) -> usize
    ensures { result ≡ count_of size }
{
    size.div_ceil(PAGE_SIZE)
}

/// Adds holes up to `count` pages. On an error, nothing has changed.
pub(crate) fn lengthen(pages: &mut Vec<Page>, count: usize) -> Result<(), Memory>
    requires { vec_len pages.old ≤ count }
    ensures after { OnOk result (pages.new.items ≡ pages.old.items
        ++ replicate (count - vec_len pages.old) []) }
    ensures err { OnErr result (pages.new.items ≡ pages.old.items) }
    ensures nothing { vec_len pages.old ≡ count → IsOk result }
{
    let alloc = *pages.allocator();
    if pages.is_empty() {
        pages.reserve_exact(count)?;
    }
    pages.resize_with(count, || Page::hole(alloc))?;
    Ok(())
}

/// Appends `count` bytes, from `start` on, to others. Out of memory is the only error.
pub(crate) fn read(
    pages: &[Page],
    read: &mut Vec<u8>,
    start: usize,
    count: usize,
) -> Result<(), Memory>
    requires limit { start + count ≤ BLOCK_SIZE }
    requires room { count_of (start + count) ≤ length pages.now }
    requires pages { ArePages pages.now }
    ensures { OnOk result
        (AppendsBytes (byte_in pages.now) start count read.old.items read.new.items) }
{
    let before = read.len();
    let end = start + count;
    for index in start / PAGE_SIZE..page_count(end) {
        let first = index * PAGE_SIZE;
        let from = start.max(first) - first;
        let to = end.min(first + PAGE_SIZE) - first;
        let bytes = pages[index].bytes();
        read.extend_from_slice(&bytes[from.min(bytes.len())..to.min(bytes.len())])?;
        read.resize(before + first + to - start, 0)?;
    }
    Ok(())
}

/// Returns the length of the bytes before an index, without the zeros at their end.
pub(crate) fn end_below(pages: &[Page], size: usize) -> usize
    requires limit { size ≤ BLOCK_SIZE }
    requires room { count_of size ≤ length pages.now }
    requires pages { ArePages pages.now }
    ensures { IsFrontEnd (byte_in pages.now) size result }
{
    let mut index = page_count(size);
    while index > 0 {
        index -= 1;
        let first = index * PAGE_SIZE;
        let bytes = pages[index].bytes();
        let end = without_end_zeros(&bytes[..bytes.len().min(size - first)]).len();
        if end > 0 {
            return first + end;
        }
    }
    0
}

/// Returns other pages with equal bytes. Copying none takes no memory.
pub(crate) fn copy_of_pages(alloc: Global, pages: &[Page]) -> Result<Vec<Page>, Memory>
    ensures equal { IfOk result (λ copy. copy.items ≡ pages.now) }
    ensures nothing { length pages.now ≡ 0 → IsOk result }
{
    let mut copy = Vec::with_capacity(alloc, pages.len())?;
    for page in pages {
        copy.push(page.copy()?)?;
    }
    Ok(copy)
}

/// Writes bytes, at least one, from `offset` on, and returns what it destroyed. On an error,
/// nothing has changed.
pub(crate) fn write(pages: &mut Vec<Page>, offset: usize, bytes: &[u8]) -> Result<Lost, Memory>
    requires limit { offset + length bytes.now ≤ BLOCK_SIZE }
    requires some { 0 < length bytes.now }
    requires count { vec_len pages.old ≤ count_of BLOCK_SIZE }
    requires pages { ArePages pages.old.items }
    ensures count { OnOk result (vec_len pages.new
        ≡ max (vec_len pages.old) (count_of (offset + length bytes.now))) }
    ensures pages { OnOk result (ArePages pages.new.items) }
    ensures after { OnOk result
        (IsWritten (byte_in pages.old.items) (byte_in pages.new.items) offset bytes.now) }
    ensures lost { IfOk result (λ lost. PutsBack lost pages.new.items pages.old.items) }
    ensures err { OnErr result (pages.new.items ≡ pages.old.items) }
{
    let alloc = *pages.allocator();
    let count = pages.len();
    lengthen(pages, count.max(page_count(offset + bytes.len())))?;
    match write_each(alloc, pages, offset, bytes) {
        Ok(parts) => Ok(Lost::Parts {
            count: count as u16,
            first: (offset / PAGE_SIZE) as u16,
            parts,
        }),
        Err(error) => {
            pages.truncate(count);
            Err(error)
        }
    }
}

/// Writes bytes from `offset` on, page by page, and returns what it destroyed in each. On an error,
/// nothing has changed.
fn write_each(
    alloc: Global,
    pages: &mut [Page],
    offset: usize,
    bytes: &[u8],
) -> Result<SmallVec<LostBytes, 1>, Memory>
    requires limit { offset + length bytes.now ≤ BLOCK_SIZE }
    requires some { 0 < length bytes.now }
    requires room { offset + length bytes.now ≤ length pages.old * PAGE_SIZE }
    requires pages { ArePages pages.old }
    ensures pages { OnOk result (ArePages pages.new) }
    ensures after { OnOk result
        (IsWritten (byte_in pages.old) (byte_in pages.new) offset bytes.now) }
    ensures lost { IfOk result
        (λ parts. PutPartsBack (offset / PAGE_SIZE) parts.items pages.new pages.old) }
    ensures err { OnErr result (pages.new ≡ pages.old) }
{
    let first = offset / PAGE_SIZE;
    let end = offset + bytes.len();
    let mut parts = SmallVec::new(alloc);
    parts.reserve(page_count(end) - first)?;
    for index in first..page_count(end) {
        let from = offset.max(index * PAGE_SIZE);
        let to = end.min((index + 1) * PAGE_SIZE);
        let part = &bytes[from - offset..to - offset];
        match pages[index].write(from - index * PAGE_SIZE, part) {
            Ok(lost) => parts.push_reserved(lost),
            Err(error) => {
                put_parts_back(pages, first, parts);
                return Err(error);
            }
        }
    }
    Ok(parts)
}

/// Cuts pages that hold `old_size` bytes to `size` bytes, or adds holes up to them. Returns what it
/// destroyed. On an error, nothing has changed.
pub(crate) fn resize(pages: &mut Vec<Page>, old_size: usize, size: usize) -> Result<Lost, Memory>
    requires paged { IsPaged old_size pages.old.items }
    requires limit { size ≤ BLOCK_SIZE }
    ensures paged { OnOk result (IsPaged size pages.new.items) }
    ensures after { OnOk result (bytes_in size pages.new.items
        ≡ resized (bytes_in old_size pages.old.items) size) }
    ensures lost { IfOk result (λ lost. PutsBack lost pages.new.items pages.old.items) }
    ensures err { OnErr result (pages.new.items ≡ pages.old.items) }
    ensures nothing { old_size ≡ size → IsOk result }
{
    if size < old_size {
        return cut(pages, size);
    }
    let lost = Lost::nothing(pages);
    lengthen(pages, page_count(size))?;
    Ok(lost)
}

/// Cuts pages to `size` bytes, and returns what it destroyed. On an error, nothing has changed.
fn cut(pages: &mut Vec<Page>, size: usize) -> Result<Lost, Memory>
    requires room { count_of size ≤ vec_len pages.old }
    requires limit { size ≤ BLOCK_SIZE }
    requires pages { ArePages pages.old.items }
    ensures count { OnOk result (vec_len pages.new ≡ count_of size) }
    ensures pages { OnOk result (ArePages pages.new.items) }
    ensures after { OnOk result (IsFront (byte_in pages.old.items) (byte_in pages.new.items) size) }
    ensures lost { IfOk result (λ lost. PutsBack lost pages.new.items pages.old.items) }
    ensures err { OnErr result (pages.new.items ≡ pages.old.items) }
{
    let alloc = *pages.allocator();
    let kept = size / PAGE_SIZE;
    let mut front = Vec::with_capacity(alloc, page_count(size))?;
    lengthen(&mut front, page_count(size))?;
    if kept < front.len() {
        front[kept] = pages[kept].front(size - kept * PAGE_SIZE)?;
    }
    swap_fronts(&mut front, pages, kept);
    Ok(Lost::Tail {
        kept: kept as u16,
        pages: mem::replace(pages, front),
    })
}

/// Swaps the first `count` items of two lists.
pub(crate) fn swap_fronts<T>(some: &mut Vec<T>, others: &mut Vec<T>, count: usize)
    requires some { count ≤ vec_len some.old }
    requires others { count ≤ vec_len others.old }
    ensures some { some.new.items ≡ take count others.old.items ++ drop count some.old.items }
    ensures others { others.new.items ≡ take count some.old.items ++ drop count others.old.items }
{
    for index in 0..count {
        mem::swap(&mut some[index], &mut others[index]);
    }
}

/// Puts back what a change destroyed. Takes no memory.
pub(crate) fn put_back(pages: &mut Vec<Page>, lost: Lost)
    requires { (before : List (List ℕ)) × PutsBack lost pages.old.items before }
    ensures { (before : List (List ℕ)) → PutsBack lost pages.old.items before
        → pages.new.items ≡ before }
{
    match lost {
        Lost::Parts {
            count,
            first,
            parts,
        } => {
            put_parts_back(pages, first as usize, parts);
            pages.truncate(count as usize);
        }
        Lost::Tail {
            kept,
            pages: mut tail,
        } => {
            swap_fronts(&mut tail, pages, kept as usize);
            *pages = tail;
        }
    }
}

/// Puts back what was in the pages from `first` on, the last page first.
fn put_parts_back(pages: &mut [Page], first: usize, mut parts: SmallVec<LostBytes, 1>)
    requires { (before : List (List ℕ)) × PutPartsBack first parts.items pages.old before }
    ensures { (before : List (List ℕ)) → PutPartsBack first parts.items pages.old before
        → pages.new ≡ before }
{
    while let Some(lost) = parts.pop() {
        pages[first + parts.len()].put_back(lost);
    }
}

impl Lost {
    /// Returns that nothing was destroyed. Putting this back removes only pages that were added.
    pub(crate) fn nothing(pages: &Vec<Page>) -> Lost
        requires { vec_len pages.now ≤ count_of BLOCK_SIZE }
        ensures { (added : List (List ℕ))
            → PutsBack result (pages.now.items ++ added) pages.now.items }
    {
        Lost::Parts {
            count: pages.len() as u16,
            first: 0,
            parts: SmallVec::new(*pages.allocator()),
        }
    }
}
