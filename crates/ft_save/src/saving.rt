// From replies to a tree of directories.
ghost use Rattle.std.specs.Prelude.{◌≡◌, ◌⊎◌, List, OnOk, OnErr, IfErr, IfOk};
ghost use Rattle.ft_copy.specs.Runs.{Copies};
ghost use Rattle.ft_save.specs.Saves.{FindsNone, IsLast, IsLeft, Saves, StopsRows, StopsSave};
ghost use Rattle.ft_save.specs.Sources.{IsSourceOf, IsTreeOf};
ghost use Rattle.ft_save.specs.Trees.{Tells};

use crate::index::{Index, index_of};
use crate::reading::tree_told;
use crate::reported::Reported;
use crate::row::Row;
use ft_base::Memory;
use ft_copy::{CopyLimits, CopyStop, Target, copy};
use ft_dot::read_all;
use ft_script::PlayFault;
use std::alloc::Global;
use std::io::Read;
use thiserror::Error;

/// Why nothing was saved.
#[derive(Debug, PartialEq, Eq, Drop, Error)]
pub enum SaveFault {
    /// The replies could not be read, or there was no memory for them.
    #[error("{0}")]
    Replies(PlayFault),
    /// They do not end with a whole report of what the tree holds.
    #[error("NoTree")]
    NoTree,
    /// The copy was not made.
    #[error("{}", .0.trouble)]
    CopyStop(CopyStop),
}

/// Reads replies to their end, and returns the tree of the report with which they end.
pub fn read_tree<R: Read>(alloc: Global, reader: &mut R) -> Result<SavedTree, SaveFault>
    ensures ok { IfOk result
        (λ tree. (rows : List Row) × IsLast (R.remaining reader.old) (R.remaining reader.new) rows
        × IsTreeOf rows tree) }
    ensures fault { IfErr result
        (λ fault. FindsNone fault (R.remaining reader.old) (R.remaining reader.new)
        ⊎ (fault ≡ SaveFault.Replies PlayFault.Memory)) }
{
    let rows = last_rows(alloc, reader)?;
    Ok(SavedTree {
        index: index_of(alloc, rows)?,
    })
}

/// The tree with which replies end.
#[derive(Drop)]
pub struct SavedTree {
    pub(crate) index: Index,
}

impl SavedTree {
    /// Returns the tree as the source of a copy.
    pub fn source(&self) -> Reported<'_>
        ensures { IsSourceOf self.now result }
    {
        Reported { index: &self.index }
    }
}

/// Reads replies to their end, and makes the tree of the report with which they end: directories,
/// files with their bytes, further names as links, and after all else the symbolic links.
/// Directories and files have the modes and owners of their rows, and else the default ones, files
/// the time of theirs. S_ISUID and S_ISGID are left out if the limits say so. Descriptors, and
/// files that have no name, are left out. A report after which anything comes is refused, and so is
/// a file that is larger than these limits allow.
pub fn save<R: Read, T: Target>(
    alloc: Global,
    limits: CopyLimits,
    reader: &mut R,
    target: &mut T,
) -> Result<(), SaveFault>
    ensures ok { OnOk result
        (Saves limits (R.remaining reader.old) (R.remaining reader.new) T.does target.old
        target.new) }
    ensures err { OnErr result (IsLeft T.does T.fails target.old target.new) }
    ensures fault { IfErr result
        (λ fault. StopsSave limits T.does T.fails fault (R.remaining reader.old)
        (R.remaining reader.new) target.old target.new) }
{
    let rows = last_rows(alloc, reader)?;
    copy_rows(alloc, limits, rows, target)
}

/// Reads replies to their end, and returns the rows of the report with which they end.
fn last_rows<R: Read>(alloc: Global, reader: &mut R) -> Result<Vec<Row>, SaveFault>
    ensures ok { IfOk result
        (λ rows. IsLast (R.remaining reader.old) (R.remaining reader.new) rows.items) }
    ensures fault { IfErr result
        (λ fault. FindsNone fault (R.remaining reader.old) (R.remaining reader.new)) }
{
    let mut replies = Vec::new(alloc);
    read_all(reader, &mut replies)?;
    let rows = tree_told(alloc, replies.as_slice())?;
    rows.ok_or(SaveFault::NoTree)
}

/// Copies the tree that rows describe.
fn copy_rows<T: Target>(
    alloc: Global,
    limits: CopyLimits,
    rows: Vec<Row>,
    target: &mut T,
) -> Result<(), SaveFault>
    ensures ok { OnOk result (Copies limits (Tells rows.items) T.does target.old target.new) }
    ensures err { OnErr result (IsLeft T.does T.fails target.old target.new) }
    ensures fault { IfErr result
        (λ fault. StopsRows limits T.does T.fails fault rows.items target.old target.new) }
{
    let index = index_of(alloc, rows)?;
    let source = Reported { index: &index };
    copy(alloc, limits, &source, target)?;
    Ok(())
}

impl From<PlayFault> for SaveFault {
    ghost use Rattle.std.specs.Prelude.{◌≡◌};
    ghost use Rattle.ft_save.specs.declared.saving.SaveFault.TheVariants.{Replies};

    ghost from_gives = { λ fault save_fault. save_fault ≡ Replies fault };

    fn from(fault: PlayFault) -> SaveFault {
        SaveFault::Replies(fault)
    }
}

impl From<Memory> for SaveFault {
    ghost use Rattle.std.specs.Prelude.{◌≡◌};
    ghost use Rattle.ft_script.specs.declared.playing.PlayFault.TheVariants.{Memory};
    ghost use Rattle.ft_save.specs.declared.saving.SaveFault.TheVariants.{Replies};

    ghost from_gives = { λ _ save_fault. save_fault ≡ Replies Memory };

    fn from(_error: Memory) -> SaveFault {
        SaveFault::Replies(PlayFault::Memory)
    }
}

impl From<CopyStop> for SaveFault {
    ghost use Rattle.std.specs.Prelude.{◌≡◌};
    ghost use Rattle.ft_save.specs.declared.saving.SaveFault.TheVariants as faults;

    ghost from_gives = { λ stopped save_fault. save_fault ≡ faults.CopyStop stopped };

    fn from(stopped: CopyStop) -> SaveFault {
        SaveFault::CopyStop(stopped)
    }
}
