// How a change of a body is undone.
ghost use Rattle.std.specs.Prelude.{◌≡◌};
ghost use Rattle.ft_body.specs.Blocks.{IsBlocked, bytes_of, Undoes};

use crate::blocks::{LostBlocks, Placed, put_back};
use smallvec::SmallVec;
use std::marker::Model;
use std::snapshot::Snapshot;

/// The undo of one change of a body.
///
/// Clauses see it as the bytes before the change and the bytes after it. It keeps only what the
/// change destroyed, and room for the pages and the blocks of these bytes. The snapshots have no
/// bytes.
pub struct BodyUndo {
    lost: SmallVec<LostBlocks, 1>,
    size: usize,
    before: Snapshot<Vec<Placed>>,
    size_after: Snapshot<usize>,
    after: Snapshot<Vec<Placed>>,
}

impl Model for BodyUndo {
    ghost use Rattle.ft_body.specs.Bytes.{BodyChange};

    ghost Value = { BodyChange };

    ghost use Rattle.ft_body.specs.Blocks.{IsBlocked, bytes_of, Undoes};

    ghost view = { λ a. record {
      before = bytes_of a.size a.before.value.items;
      after = bytes_of a.size_after.value a.after.value.items;
    } };

    ghost invariant = { λ a. IsBlocked a.size a.before.value.items
        × IsBlocked a.size_after.value a.after.value.items
        × Undoes a.lost.items a.after.value.items a.before.value.items };
}

// By hand, so that callers that drop one see one step.
impl Drop for BodyUndo {
    fn drop(self) {
        let BodyUndo {
            lost: _,
            size: _,
            before: _,
            size_after: _,
            after: _,
        } = self;
    }
}

impl BodyUndo {
    /// Returns the undo of a change that destroyed `lost`.
    pub(crate) fn new(
        lost: SmallVec<LostBlocks, 1>,
        size: usize,
        before: Snapshot<Vec<Placed>>,
        size_after: Snapshot<usize>,
        after: Snapshot<Vec<Placed>>,
    ) -> BodyUndo
        requires lost { Undoes lost.items after.value.items before.value.items }
        requires before { IsBlocked size before.value.items }
        requires after { IsBlocked size_after.value after.value.items }
        ensures { result ≡ record {
          before = bytes_of size before.value.items;
          after = bytes_of size_after.value after.value.items;
        } }
    {
        BodyUndo {
            lost,
            size,
            before,
            size_after,
            after,
        }
    }

    /// Puts back what the change destroyed, in blocks as the change left them. Takes no memory.
    pub(crate) fn put_back(self, size: &mut usize, blocks: &mut Vec<Placed>)
        requires blocked { IsBlocked size.old blocks.old.items }
        requires after { bytes_of size.old blocks.old.items ≡ self.after }
        ensures blocked { IsBlocked size.new blocks.new.items }
        ensures before { bytes_of size.new blocks.new.items ≡ self.before }
    {
        let BodyUndo {
            lost,
            size: size_before,
            before: _,
            size_after: _,
            after: _,
        } = self;
        put_back(blocks, lost);
        *size = size_before;
    }
}
