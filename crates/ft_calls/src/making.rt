// The modes of new directories and files.
ghost use Rattle.ft_posix.specs.Attributes.{dir_mode, file_mode};
ghost use Rattle.ft_calls.specs.Drafts.{AddsWrites};

use crate::attributes::Change;
use ft_base::Memory;
use ft_posix::{Edit, Edits};
use ft_tree::{HintedFile, Kind, Rare};
use std::alloc::Global;

/// Adds the edit that gives a new directory the given mode, if there is one.
pub(crate) fn set_dir_mode(
    alloc: Global,
    edits: &mut Edits<'_>,
    dir: u64,
    mode: Option<u16>,
) -> Result<(), Memory>
    ensures { AddsWrites edits.old edits.new result (dir_mode dir mode) }
{
    let Some(mode) = mode else {
        return Ok(());
    };
    edits.push(Edit::DirAttributes {
        dir,
        to: Rare::new(alloc, Change::Mode(mode).changed(Kind::Dir, None))?,
    })?;
    Ok(())
}

/// Adds the edit that gives a new file the given mode, if there is one.
pub(crate) fn set_file_mode(
    alloc: Global,
    edits: &mut Edits<'_>,
    file: u64,
    mode: Option<u16>,
) -> Result<(), Memory>
    ensures { AddsWrites edits.old edits.new result (file_mode file mode) }
{
    let Some(mode) = mode else {
        return Ok(());
    };
    edits.push(Edit::FileAttributes {
        file: HintedFile::new(file),
        to: Rare::new(alloc, Change::Mode(mode).changed(Kind::File, None))?,
    })?;
    Ok(())
}
