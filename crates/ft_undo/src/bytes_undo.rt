// How a change of a file's bytes is undone.
ghost use Rattle.std.specs.Prelude.{◌≡◌, ◌≤◌, IfOk, OnOk, OnErr};
ghost use Rattle.ft_body.specs.declared.TheConstants.{LARGEST_SIZE};
ghost use Rattle.ft_body.specs.Bytes.{after_write, resized};
ghost use Rattle.ft_cells.specs.Cells.{contents_of, bytes_of, untimed, put_contents, HasFilePlace};

use ft_base::Memory;
use ft_tree::{FileUndo, HintedFile, Tree};
use std::alloc::{AllocFailed, Global};
use std::marker::Model;

/// The undo of a change of a file's bytes, with the time that they had. It is a separate type, so
/// that the other before-images stay small.
///
/// Clauses see it as what the file held before the change and after it.
pub struct BytesUndo {
    undo: Box<FileUndo>,
}

impl Model for BytesUndo {
    ghost use Rattle.std.specs.Box.{box_value};
    ghost use Rattle.ft_cells.specs.Cells.{ContentsChange};

    ghost Value = { ContentsChange };

    ghost view = { λ a. box_value a.undo };
}

// By hand, so that callers that drop one see one step.
impl Drop for BytesUndo {
    fn drop(self) {
        let BytesUndo { undo: _ } = self;
    }
}

impl BytesUndo {
    /// Writes bytes to a file at an offset, as `Tree::write_bytes` does, and returns what undoes
    /// that. If there is not enough memory, nothing has changed.
    pub(crate) fn write(
        alloc: Global,
        tree: &mut Tree,
        file: &HintedFile,
        offset: u64,
        bytes: &[u8],
    ) -> Result<BytesUndo, Memory>
        requires place { HasFilePlace tree.old file.now }
        requires limit { offset ≤ LARGEST_SIZE }
        ensures ok { OnOk result (tree.new
            ≡ put_contents tree.old file.now
            (untimed (after_write (bytes_of tree.old file.now) offset bytes.now))) }
        ensures undo { IfOk result
            (λ undo. undo ≡ record {
              before = contents_of tree.old file.now;
              after = contents_of tree.new file.now;
            }) }
        ensures err { OnErr result (tree.new ≡ tree.old) }
    {
        let (_, undo) = tree.write_bytes(file.again(), offset, bytes)?;
        BytesUndo::keep(alloc, tree, file.number(), undo)
    }

    /// Cuts a file to a size, or adds zeros up to it, as `Tree::set_size` does, and returns what
    /// undoes that. If there is not enough memory, nothing has changed.
    pub(crate) fn resize(
        alloc: Global,
        tree: &mut Tree,
        file: &HintedFile,
        size: u64,
    ) -> Result<BytesUndo, Memory>
        requires place { HasFilePlace tree.old file.now }
        requires limit { size ≤ LARGEST_SIZE }
        ensures ok { OnOk result (tree.new
            ≡ put_contents tree.old file.now
            (untimed (resized (bytes_of tree.old file.now) size))) }
        ensures undo { IfOk result
            (λ undo. undo ≡ record {
              before = contents_of tree.old file.now;
              after = contents_of tree.new file.now;
            }) }
        ensures err { OnErr result (tree.new ≡ tree.old) }
    {
        let undo = tree.set_size(file.again(), size)?;
        BytesUndo::keep(alloc, tree, file.number(), undo)
    }

    /// Returns what undoes a change that was just made, in a box. If there is not enough memory, it
    /// undoes the change.
    fn keep(alloc: Global, tree: &mut Tree, file: u64, undo: FileUndo) -> Result<BytesUndo, Memory>
        requires place { HasFilePlace tree.old file }
        requires left { contents_of tree.old file ≡ undo.after }
        ensures ok { OnOk result (tree.new ≡ tree.old) }
        ensures kept { IfOk result (λ kept. kept ≡ undo) }
        ensures err { OnErr result (tree.new ≡ put_contents tree.old file undo.before) }
    {
        match Box::new(alloc, undo) {
            Ok(undo) => Ok(BytesUndo { undo }),
            Err(AllocFailed { value }) => {
                tree.undo_bytes(file, value);
                Err(Memory)
            }
        }
    }

    /// Undoes the change, if the file holds what the change left. Takes no memory.
    pub(crate) fn roll_back(self, tree: &mut Tree, file: u64)
        requires place { HasFilePlace tree.old file }
        requires left { contents_of tree.old file ≡ self.after }
        ensures { tree.new ≡ put_contents tree.old file self.before }
    {
        let BytesUndo { undo } = self;
        tree.undo_bytes(file, Box::into_inner(undo));
    }
}
