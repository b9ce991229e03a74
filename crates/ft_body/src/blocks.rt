// The blocks of a body in a list by their numbers, and the steps by which they change.
ghost use Rattle.std.specs.Prelude.{◌≡◌, ℕ, List, [], ◌∷◌, ◌++◌, ◌+◌, ◌-◌, ◌<◌, ◌≤◌, ◌≢◌, length, take, drop, vec_len, slice_index_or, IfOk, IfErr, OnOk, OnErr, MatchOption};
ghost use Rattle.std.specs.List.{insert, remove};
ghost use Rattle.ft_body.specs.declared.blocks.Placed.{Placed};
ghost use Rattle.ft_body.specs.Bytes.{written, resized};
ghost use Rattle.ft_body.specs.Blocks.{placed_at, block_in, AreBlocks, IsPlace, changed_at, last_moved_to, FitsBack, step_back, Undoes, StillUndoes};

use crate::BLOCK_SIZE;
use crate::block::Block;
use crate::block_undo::BlockUndo;
use crate::pages::swap_fronts;
use ft_base::Memory;
use smallvec::SmallVec;
use std::mem;

/// A block, and its number: its place in the body, counted in blocks.
#[derive(Drop)]
pub(crate) struct Placed {
    pub(crate) at: usize,
    pub(crate) block: Block,
}

/// The blocks or bytes that one step of a change destroyed.
#[derive(Default, Drop)]
pub(crate) enum LostBlocks {
    /// Nothing.
    #[default]
    Nothing,
    /// The absence of a block, where one was made.
    Made { index: usize },
    /// Bytes of one block.
    Changed { index: usize, undo: BlockUndo },
    /// The blocks from before a cut. The first `kept` of them are empty here, because they stay in
    /// the body.
    Tail { kept: usize, blocks: Vec<Placed> },
    /// The index of the block that was moved after all others.
    Last { index: usize },
}

/// Returns the index of the block with a number. If there is no such block, returns the index where
/// it belongs.
pub(crate) fn place_of(blocks: &[Placed], at: usize) -> usize
    requires { AreBlocks 0 blocks.now }
    ensures { IsPlace blocks.now at result }
{
    // This is the case in a file without holes of whole blocks.
    if at < blocks.len() && blocks[at].at == at {
        return at;
    }
    let mut low = 0;
    let mut high = blocks.len();
    while low < high {
        let middle = low + (high - low) / 2;
        if blocks[middle].at < at {
            low = middle + 1;
        } else {
            high = middle;
        }
    }
    low
}

/// Returns the index of the block with a number. If there is no such block, the error is the index
/// where it belongs.
pub(crate) fn index_of(blocks: &[Placed], at: usize) -> Result<usize, usize>
    requires { AreBlocks 0 blocks.now }
    ensures found { IfOk result
        (λ i. (i < length blocks.now) × ((placed_at blocks.now i).at ≡ at)) }
    ensures place { IfErr result (λ i. IsPlace blocks.now at i) }
    ensures absent { OnErr result ((i : ℕ) → i < length blocks.now
        → (placed_at blocks.now i).at ≢ at) }
{
    let index = place_of(blocks, at);
    if index < blocks.len() && blocks[index].at == at {
        Ok(index)
    } else {
        Err(index)
    }
}

/// Inserts a block at an index. Adds to `steps` what undoes this. Even on an error, the steps undo
/// all changes.
pub(crate) fn add(
    blocks: &mut Vec<Placed>,
    steps: &mut SmallVec<LostBlocks, 1>,
    index: usize,
    placed: Placed,
) -> Result<(), Memory>
    requires { index ≤ vec_len blocks.old }
    ensures after { OnOk result (blocks.new.items ≡ insert blocks.old.items index placed) }
    ensures lost { StillUndoes steps.old.items steps.new.items blocks.old.items blocks.new.items }
{
    steps.reserve(1)?;
    make_place(blocks)?;
    blocks.insert(index, placed)?;
    steps.push_reserved(LostBlocks::Made { index });
    Ok(())
}

/// Makes room for one block if there is no block, so that a small body takes no more.
fn make_place(blocks: &mut Vec<Placed>) -> Result<(), Memory>
    ensures { blocks.new.items ≡ blocks.old.items }
{
    if blocks.is_empty() {
        blocks.reserve_exact(1)?;
    }
    Ok(())
}

/// Writes bytes to the block at an index, from `start` on. Adds to `steps` what undoes this. Even
/// on an error, the steps undo all changes.
pub(crate) fn write_at(
    blocks: &mut Vec<Placed>,
    steps: &mut SmallVec<LostBlocks, 1>,
    index: usize,
    start: usize,
    bytes: &[u8],
) -> Result<(), Memory>
    requires inside { index < vec_len blocks.old }
    requires limit { start + length bytes.now ≤ BLOCK_SIZE }
    ensures after { OnOk result (blocks.new.items
        ≡ changed_at blocks.old.items index (λ block. written block start bytes.now)) }
    ensures lost { StillUndoes steps.old.items steps.new.items blocks.old.items blocks.new.items }
{
    steps.reserve(1)?;
    let undo = blocks[index].block.write_at(start, bytes)?;
    steps.push_reserved(LostBlocks::Changed { index, undo });
    Ok(())
}

/// Cuts the block at an index to a size. Adds to `steps` what undoes this. Even on an error, the
/// steps undo all changes.
pub(crate) fn cut_at(
    blocks: &mut Vec<Placed>,
    steps: &mut SmallVec<LostBlocks, 1>,
    index: usize,
    size: usize,
) -> Result<(), Memory>
    requires inside { index < vec_len blocks.old }
    requires limit { size ≤ BLOCK_SIZE }
    ensures after { OnOk result (blocks.new.items
        ≡ changed_at blocks.old.items index (λ block. resized block size)) }
    ensures lost { StillUndoes steps.old.items steps.new.items blocks.old.items blocks.new.items }
{
    steps.reserve(1)?;
    let undo = blocks[index].block.set_len(size)?;
    steps.push_reserved(LostBlocks::Changed { index, undo });
    Ok(())
}

/// Removes the blocks from index `kept` on. Adds to `steps` what undoes this. Even on an error, the
/// steps undo all changes.
pub(crate) fn cut_behind(
    blocks: &mut Vec<Placed>,
    steps: &mut SmallVec<LostBlocks, 1>,
    kept: usize,
) -> Result<(), Memory>
    requires { kept ≤ vec_len blocks.old }
    ensures after { OnOk result (blocks.new.items ≡ take kept blocks.old.items) }
    ensures lost { StillUndoes steps.old.items steps.new.items blocks.old.items blocks.new.items }
{
    if kept == blocks.len() {
        return Ok(());
    }
    let alloc = *blocks.allocator();
    steps.reserve(1)?;
    let mut front = Vec::with_capacity(alloc, kept)?;
    front.resize_with(
        kept,
        || Placed {
            at: 0,
            block: Block::new(alloc),
        },
    )?;
    swap_fronts(&mut front, blocks, kept);
    let blocks = mem::replace(blocks, front);
    steps.push_reserved(LostBlocks::Tail { kept, blocks });
    Ok(())
}

/// Removes the block at an index. Adds to `steps` what undoes this. Even on an error, the steps
/// undo all changes.
pub(crate) fn take_out(
    blocks: &mut Vec<Placed>,
    steps: &mut SmallVec<LostBlocks, 1>,
    index: usize,
) -> Result<(), Memory>
    requires { index < vec_len blocks.old }
    ensures after { OnOk result (blocks.new.items ≡ remove blocks.old.items index) }
    ensures lost { StillUndoes steps.old.items steps.new.items blocks.old.items blocks.new.items }
{
    steps.reserve(1)?;
    move_last(blocks, index);
    steps.push_reserved(LostBlocks::Last { index });
    let kept = blocks.len() - 1;
    cut_behind(blocks, steps, kept)
}

/// Moves the block at an index after all others.
fn move_last(blocks: &mut [Placed], index: usize)
    requires { index < length blocks.old }
    ensures { blocks.new ≡ remove blocks.old index ++ placed_at blocks.old index ∷ [] }
{
    blocks[index..].rotate_left(1);
}

/// Moves the last block to an index.
fn move_back(blocks: &mut [Placed], index: usize)
    requires { index < length blocks.old }
    ensures { blocks.new ≡ last_moved_to blocks.old index }
{
    blocks[index..].rotate_right(1);
}

/// Puts back what the steps of a change destroyed, the last step first. Takes no memory.
pub(crate) fn put_back(blocks: &mut Vec<Placed>, mut steps: SmallVec<LostBlocks, 1>)
    requires { (before : List Placed) × Undoes steps.items blocks.old.items before }
    ensures { (before : List Placed) → Undoes steps.items blocks.old.items before
        → blocks.new.items ≡ before }
{
    while let Some(lost) = steps.pop() {
        put_step_back(blocks, lost);
    }
}

/// Puts back what one step destroyed. Takes no memory.
fn put_step_back(blocks: &mut Vec<Placed>, lost: LostBlocks)
    requires { FitsBack lost blocks.old.items }
    ensures { blocks.new.items ≡ step_back lost blocks.old.items }
{
    match lost {
        LostBlocks::Nothing => {}
        LostBlocks::Made { index } => drop(blocks.remove(index)),
        LostBlocks::Changed { index, undo } => blocks[index].block.undo(undo),
        LostBlocks::Tail {
            kept,
            blocks: mut tail,
        } => {
            swap_fronts(&mut tail, blocks, kept);
            *blocks = tail;
        }
        LostBlocks::Last { index } => move_back(blocks, index),
    }
}
