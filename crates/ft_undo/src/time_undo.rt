// How setting the time of a file's bytes is undone.
ghost use Rattle.std.specs.Prelude.{◌≡◌};
ghost use Rattle.ft_cells.specs.Cells.{contents_of, timed, put_contents, HasFilePlace};

use ft_tree::{HintedFile, Rare, Timestamp, Tree};
use std::marker::Model;
use std::snapshot::Snapshot;

/// The undo of setting the time of a file's bytes.
///
/// Clauses see it as what the file held before and after. It keeps only the time that the bytes
/// had: the snapshots have no bytes.
pub struct TimeUndo {
    time: Rare<Timestamp>,
    file: Snapshot<HintedFile>,
    after: Snapshot<Tree>,
}

impl Model for TimeUndo {
    ghost use Rattle.ft_cells.specs.Cells.{ContentsChange, contents_of, timed};

    ghost Value = { ContentsChange };

    ghost view = { λ a. record {
      before = timed (contents_of a.after.value a.file.value) a.time;
      after = contents_of a.after.value a.file.value;
    } };
}

// By hand, so that callers that drop one see one step.
impl Drop for TimeUndo {
    fn drop(self) {
        let TimeUndo {
            time: _,
            file: _,
            after: _,
        } = self;
    }
}

impl TimeUndo {
    /// Sets the time of a file's bytes, or that they have none, and returns what undoes that. Takes
    /// no memory.
    pub(crate) fn set(tree: &mut Tree, file: HintedFile, to: Rare<Timestamp>) -> TimeUndo
        requires { HasFilePlace tree.old file }
        ensures set { tree.new ≡ put_contents tree.old file (timed (contents_of tree.old file) to) }
        ensures undo { result ≡ record {
          before = contents_of tree.old file;
          after = timed (contents_of tree.old file) to;
        } }
    {
        let number = Snapshot::of(&file);
        let time = tree.set_time(file, to);
        TimeUndo {
            time,
            file: number,
            after: Snapshot::of(tree),
        }
    }

    /// Gives the bytes of a file the time that they had, if the file holds what the change left.
    /// Takes no memory.
    pub(crate) fn roll_back(self, tree: &mut Tree, file: u64)
        requires place { HasFilePlace tree.old file }
        requires left { contents_of tree.old file ≡ self.after }
        ensures { tree.new ≡ put_contents tree.old file self.before }
    {
        let TimeUndo {
            time,
            file: _,
            after: _,
        } = self;
        tree.set_time(HintedFile::new(file), time);
    }
}
