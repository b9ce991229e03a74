// The bytes of a body in its blocks: how they are read, written, cut and counted.
ghost use Rattle.std.specs.Prelude.{◌≡◌, ℕ, [], ◌+◌, ◌-◌, ◌*◌, ◌<◌, ◌≤◌, ◌++◌, length, vec_len, slice_index, IsOk, IfOk, OnOk, OnErr};
ghost use Rattle.ft_body.specs.Blocks.{placed_at, placed_in, block_in, byte_of, bytes_of, AreBlocks, IsBlocked, IsReplaced, IsWrittenIn, IsCutIn, KeepsOthers, Undoes, StillUndoes};
ghost use Rattle.ft_body.specs.Bytes.{bytes_at, resized};
ghost use Rattle.ft_body.specs.Paging.{IsWritten, IsFront, made_pages};

use crate::block::Block;
use crate::blocks::{
    LostBlocks, Placed, add, cut_at, cut_behind, index_of, place_of, put_back, take_out, write_at,
};
use crate::buffer::without_end_zeros;
use crate::{BLOCK_SIZE, LARGEST_SIZE};
use ft_base::Memory;
use smallvec::SmallVec;
use std::alloc::Global;

/// Returns `count` bytes from `start` on. Reading none takes no memory.
pub(crate) fn read(
    alloc: Global,
    blocks: &[Placed],
    start: usize,
    count: usize,
) -> Result<Vec<u8>, Memory>
    requires limit { start + count ≤ LARGEST_SIZE }
    requires blocks { AreBlocks 0 blocks.now }
    ensures count { IfOk result (λ read. length read.items ≡ count) }
    ensures bytes { IfOk result
        (λ read. (k : ℕ) → k < count → slice_index read.items k ≡ byte_of blocks.now (start + k)) }
    ensures nothing { count ≡ 0 → IsOk result }
{
    if count == 0 {
        return Ok(Vec::new(alloc));
    }
    let end = start + count;
    let mut read = Vec::with_capacity(alloc, count)?;
    for at in start / BLOCK_SIZE..end.div_ceil(BLOCK_SIZE) {
        let first = at * BLOCK_SIZE;
        let from = start.max(first) - first;
        let to = end.min(first + BLOCK_SIZE) - first;
        read_block(blocks, &mut read, at, from, to - from)?;
        read.resize(first + to - start, 0)?;
    }
    Ok(read)
}

/// Appends the bytes that the block with a number keeps, from `start` on, at most `count`.
fn read_block(
    blocks: &[Placed],
    read: &mut Vec<u8>,
    at: usize,
    start: usize,
    count: usize,
) -> Result<(), Memory>
    requires { AreBlocks 0 blocks.now }
    ensures { OnOk result (read.new.items ≡ read.old.items
        ++ bytes_at (block_in blocks.now at) start count) }
{
    match index_of(blocks, at) {
        Ok(index) => blocks[index].block.read_at(read, start, count),
        Err(_) => Ok(()),
    }
}

/// Writes bytes, at least one, from `offset` on, and returns the steps that it took. On an error,
/// nothing has changed.
pub(crate) fn write(
    blocks: &mut Vec<Placed>,
    offset: usize,
    bytes: &[u8],
) -> Result<SmallVec<LostBlocks, 1>, Memory>
    requires limit { offset + length bytes.now ≤ LARGEST_SIZE }
    requires some { 0 < length bytes.now }
    requires blocks { AreBlocks 0 blocks.old.items }
    ensures blocks { OnOk result (AreBlocks 0 blocks.new.items) }
    ensures after { OnOk result
        (IsWritten (byte_of blocks.old.items) (byte_of blocks.new.items) offset bytes.now) }
    ensures lost { IfOk result (λ steps. Undoes steps.items blocks.new.items blocks.old.items) }
    ensures err { OnErr result (blocks.new.items ≡ blocks.old.items) }
{
    let mut steps = SmallVec::new(*blocks.allocator());
    match write_each(blocks, &mut steps, offset, bytes) {
        Ok(()) => Ok(steps),
        Err(error) => {
            put_back(blocks, steps);
            Err(error)
        }
    }
}

/// Writes bytes from `offset` on, block by block. Even on an error, the steps undo all changes.
fn write_each(
    blocks: &mut Vec<Placed>,
    steps: &mut SmallVec<LostBlocks, 1>,
    offset: usize,
    bytes: &[u8],
) -> Result<(), Memory>
    requires limit { offset + length bytes.now ≤ LARGEST_SIZE }
    requires some { 0 < length bytes.now }
    requires blocks { AreBlocks 0 blocks.old.items }
    ensures blocks { OnOk result (AreBlocks 0 blocks.new.items) }
    ensures after { OnOk result
        (IsWritten (byte_of blocks.old.items) (byte_of blocks.new.items) offset bytes.now) }
    ensures lost { StillUndoes steps.old.items steps.new.items blocks.old.items blocks.new.items }
{
    let end = offset + bytes.len();
    for at in offset / BLOCK_SIZE..end.div_ceil(BLOCK_SIZE) {
        let from = offset.max(at * BLOCK_SIZE);
        let to = end.min((at + 1) * BLOCK_SIZE);
        let part = &bytes[from - offset..to - offset];
        write_block(blocks, steps, at, from - at * BLOCK_SIZE, part)?;
    }
    Ok(())
}

/// Writes bytes to the block with a number, from `start` on. Even on an error, the steps undo all
/// changes.
fn write_block(
    blocks: &mut Vec<Placed>,
    steps: &mut SmallVec<LostBlocks, 1>,
    at: usize,
    start: usize,
    bytes: &[u8],
) -> Result<(), Memory>
    requires limit { start + length bytes.now ≤ BLOCK_SIZE }
    requires blocks { AreBlocks 0 blocks.old.items }
    ensures blocks { OnOk result (AreBlocks 0 blocks.new.items) }
    ensures there { OnOk result
        (IsWrittenIn (placed_in blocks.old.items at) blocks.new.items start bytes.now) }
    ensures others { OnOk result (KeepsOthers blocks.old.items blocks.new.items at) }
    ensures lost { StillUndoes steps.old.items steps.new.items blocks.old.items blocks.new.items }
{
    match index_of(blocks, at) {
        Ok(index) => write_found(blocks, steps, index, start, bytes),
        Err(index) => {
            let bytes = without_end_zeros(bytes);
            if bytes.is_empty() {
                return Ok(());
            }
            let mut block = Block::new(*blocks.allocator());
            block.write_at(start, bytes)?;
            add(blocks, steps, index, Placed { at, block })
        }
    }
}

/// Writes bytes to the block at an index, from `start` on. Even on an error, the steps undo all
/// changes.
fn write_found(
    blocks: &mut Vec<Placed>,
    steps: &mut SmallVec<LostBlocks, 1>,
    index: usize,
    start: usize,
    bytes: &[u8],
) -> Result<(), Memory>
    requires inside { index < vec_len blocks.old }
    requires limit { start + length bytes.now ≤ BLOCK_SIZE }
    requires blocks { AreBlocks 0 blocks.old.items }
    ensures blocks { OnOk result (AreBlocks 0 blocks.new.items) }
    ensures there { OnOk result
        (IsWrittenIn (placed_at blocks.old.items index) blocks.new.items start bytes.now) }
    ensures others { OnOk result
        (KeepsOthers blocks.old.items blocks.new.items (placed_at blocks.old.items index).at) }
    ensures lost { StillUndoes steps.old.items steps.new.items blocks.old.items blocks.new.items }
{
    let size = blocks[index].block.len();
    if start + bytes.len() < size {
        return write_at(blocks, steps, index, start, bytes);
    }
    let bytes = without_end_zeros(bytes);
    write_at(blocks, steps, index, start, bytes)?;
    if start + bytes.len() < size {
        cut_found(blocks, steps, index, start + bytes.len())?;
    }
    Ok(())
}

/// Cuts the block at an index to its bytes before a size, without zeros at the end. If this leaves
/// no bytes, removes the block. Even on an error, the steps undo all changes.
fn cut_found(
    blocks: &mut Vec<Placed>,
    steps: &mut SmallVec<LostBlocks, 1>,
    index: usize,
    size: usize,
) -> Result<(), Memory>
    requires inside { index < vec_len blocks.old }
    requires blocks { AreBlocks 0 blocks.old.items }
    ensures blocks { OnOk result (AreBlocks 0 blocks.new.items) }
    ensures there { OnOk result (IsCutIn (placed_at blocks.old.items index) blocks.new.items size) }
    ensures others { OnOk result
        (KeepsOthers blocks.old.items blocks.new.items (placed_at blocks.old.items index).at) }
    ensures lost { StillUndoes steps.old.items steps.new.items blocks.old.items blocks.new.items }
{
    let block = &blocks[index].block;
    let end = block.end_below(size);
    if end == block.len() {
        return Ok(());
    }
    if end == 0 {
        return take_out(blocks, steps, index);
    }
    cut_at(blocks, steps, index, end)
}

/// Cuts blocks that hold `old_size` bytes to `size` bytes, and returns the steps that it took. If
/// there are no more bytes than `size`, no block changes. On an error, nothing has changed.
pub(crate) fn resize(
    blocks: &mut Vec<Placed>,
    old_size: usize,
    size: usize,
) -> Result<SmallVec<LostBlocks, 1>, Memory>
    requires blocked { IsBlocked old_size blocks.old.items }
    requires limit { size ≤ LARGEST_SIZE }
    ensures blocked { OnOk result (IsBlocked size blocks.new.items) }
    ensures after { OnOk result (bytes_of size blocks.new.items
        ≡ resized (bytes_of old_size blocks.old.items) size) }
    ensures lost { IfOk result (λ steps. Undoes steps.items blocks.new.items blocks.old.items) }
    ensures err { OnErr result (blocks.new.items ≡ blocks.old.items) }
    ensures nothing { old_size ≡ size → IsOk result }
{
    let mut steps = SmallVec::new(*blocks.allocator());
    if old_size <= size {
        return Ok(steps);
    }
    match cut(blocks, &mut steps, size) {
        Ok(()) => Ok(steps),
        Err(error) => {
            put_back(blocks, steps);
            Err(error)
        }
    }
}

/// Cuts blocks to `size` bytes. Even on an error, the steps undo all changes.
fn cut(
    blocks: &mut Vec<Placed>,
    steps: &mut SmallVec<LostBlocks, 1>,
    size: usize,
) -> Result<(), Memory>
    requires limit { size ≤ LARGEST_SIZE }
    requires blocks { AreBlocks 0 blocks.old.items }
    ensures blocks { OnOk result (AreBlocks 0 blocks.new.items) }
    ensures after { OnOk result
        (IsFront (byte_of blocks.old.items) (byte_of blocks.new.items) size) }
    ensures lost { StillUndoes steps.old.items steps.new.items blocks.old.items blocks.new.items }
{
    let kept = place_of(blocks, size.div_ceil(BLOCK_SIZE));
    cut_behind(blocks, steps, kept)?;
    match index_of(blocks, size / BLOCK_SIZE) {
        Ok(index) => cut_found(blocks, steps, index, size % BLOCK_SIZE),
        Err(_) => Ok(()),
    }
}

/// Returns other blocks with equal bytes. Copying none takes no memory.
pub(crate) fn copy_of_blocks(alloc: Global, blocks: &[Placed]) -> Result<Vec<Placed>, Memory>
    ensures equal { IfOk result (λ copy. copy.items ≡ blocks.now) }
    ensures nothing { length blocks.now ≡ 0 → IsOk result }
{
    let mut copy = Vec::with_capacity(alloc, blocks.len())?;
    for placed in blocks {
        copy.push(Placed {
            at: placed.at,
            block: placed.block.copy()?,
        })?;
    }
    Ok(copy)
}

/// Returns how many pages are made in blocks that hold `size` bytes.
pub(crate) fn made(size: usize, blocks: &[Placed]) -> u64
    requires { IsBlocked size blocks.now }
    ensures { result ≡ made_pages (bytes_of size blocks.now) }
{
    let mut made = 0;
    for placed in blocks {
        made += placed.block.pages();
    }
    made
}
