// How a change of a block is undone.
ghost use Rattle.std.specs.Prelude.{◌≡◌};
ghost use Rattle.ft_body.specs.Paging.{IsPaged, bytes_in};
ghost use Rattle.ft_body.specs.PutBack.{PutsBack};

use crate::page::Page;
use crate::pages::{Lost, put_back};
use std::marker::Model;
use std::snapshot::Snapshot;

/// The undo of one change of a block.
///
/// Clauses see it as the bytes before the change and the bytes after it. It keeps only what the
/// change destroyed, and room for the pages of these bytes. The snapshots have no bytes.
pub struct BlockUndo {
    lost: Lost,
    size: u32,
    before: Snapshot<Vec<Page>>,
    size_after: Snapshot<usize>,
    after: Snapshot<Vec<Page>>,
}

impl Model for BlockUndo {
    ghost use Rattle.ft_body.specs.Bytes.{BodyChange};

    ghost Value = { BodyChange };

    ghost use Rattle.ft_body.specs.Paging.{IsPaged, bytes_in};
    ghost use Rattle.ft_body.specs.PutBack.{PutsBack};

    ghost view = { λ a. record {
      before = bytes_in a.size a.before.value.items;
      after = bytes_in a.size_after.value a.after.value.items;
    } };

    ghost invariant = { λ a. IsPaged a.size a.before.value.items
        × IsPaged a.size_after.value a.after.value.items
        × PutsBack a.lost a.after.value.items a.before.value.items };
}

// By hand, so that callers that drop one see one step.
impl Drop for BlockUndo {
    fn drop(self) {
        let BlockUndo {
            lost: _,
            size: _,
            before: _,
            size_after: _,
            after: _,
        } = self;
    }
}

impl BlockUndo {
    /// Returns the undo of a change that destroyed `lost`.
    pub(crate) fn new(
        lost: Lost,
        size: usize,
        before: Snapshot<Vec<Page>>,
        size_after: Snapshot<usize>,
        after: Snapshot<Vec<Page>>,
    ) -> BlockUndo
        requires lost { PutsBack lost after.value.items before.value.items }
        requires before { IsPaged size before.value.items }
        requires after { IsPaged size_after.value after.value.items }
        ensures { result ≡ record {
          before = bytes_in size before.value.items;
          after = bytes_in size_after.value after.value.items;
        } }
    {
        BlockUndo {
            lost,
            size: size as u32,
            before,
            size_after,
            after,
        }
    }

    /// Puts back what the change destroyed, in pages as the change left them. Takes no memory.
    pub(crate) fn put_back(self, size: &mut usize, pages: &mut Vec<Page>)
        requires paged { IsPaged size.old pages.old.items }
        requires after { bytes_in size.old pages.old.items ≡ self.after }
        ensures paged { IsPaged size.new pages.new.items }
        ensures before { bytes_in size.new pages.new.items ≡ self.before }
    {
        let BlockUndo {
            lost,
            size: size_before,
            before: _,
            size_after: _,
            after: _,
        } = self;
        put_back(pages, lost);
        *size = size_before as usize;
    }
}
