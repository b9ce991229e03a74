// Appends the rows of a tree, one kind after another.
ghost use Rattle.std.specs.Prelude.{◌≡◌, ◌++◌, OnOk};
ghost use Rattle.std.specs.FinMap as finite;
ghost use Rattle.ft_cells.specs.Rows.{dir_rows, edge_rows, file_rows, dir_attributes_rows, file_attributes_rows, time_rows, open_rows};
ghost use Rattle.ft_tree.specs.Tidy.{dirs_from, edges_from, files_from, opens_from};

use crate::tree::ROOT;
use ft_base::{Memory, Table};
use ft_cells::{Hinted, OpenFile, TreeRow};
use ft_inodes::Inodes;
use ft_open_files::OpenFiles;
use std::alloc::Global;

/// Appends the rows of the directories that exist. Out of memory is the only error.
pub(crate) fn push_dirs(rows: &mut Vec<TreeRow>, inodes: &Inodes) -> Result<(), Memory>
    ensures { OnOk result (rows.new.items ≡ rows.old.items
        ++ dir_rows (dirs_from (finite.entries inodes.now.directories))) }
{
    for (number, directory) in inodes.directories() {
        if number == ROOT || directory.parent().is_some() {
            rows.push(TreeRow::Dir { number })?;
        }
    }
    Ok(())
}

/// Appends the rows of the entries of all directories. Out of memory is the only error.
pub(crate) fn push_edges(rows: &mut Vec<TreeRow>, inodes: &Inodes) -> Result<(), Memory>
    ensures { OnOk result (rows.new.items ≡ rows.old.items
        ++ edge_rows (edges_from (finite.entries inodes.now.directories))) }
{
    for (number, directory) in inodes.directories() {
        directory.push_edges(number, rows)?;
    }
    Ok(())
}

/// Appends the rows of the files that exist. Out of memory is the only error.
pub(crate) fn push_files(
    rows: &mut Vec<TreeRow>,
    inodes: &Inodes,
    opens: &OpenFiles,
) -> Result<(), Memory>
    ensures { OnOk result (rows.new.items ≡ rows.old.items
        ++ file_rows (files_from opens.now (finite.entries inodes.now.files))) }
{
    for (number, file) in inodes.files() {
        if file.links() > 0 || opens.is_open(number) {
            let size = file.body().len();
            let bytes = file.body().read_at(0, size)?;
            rows.push(TreeRow::File {
                number,
                size,
                bytes: bytes.into(),
            })?;
        }
    }
    Ok(())
}

/// Appends the rows of the attributes that are stored of existing directories. Out of memory is the
/// only error.
pub(crate) fn push_dir_attributes(rows: &mut Vec<TreeRow>, inodes: &Inodes) -> Result<(), Memory>
    ensures { OnOk result (rows.new.items ≡ rows.old.items
        ++ dir_attributes_rows (dirs_from (finite.entries inodes.now.directories))) }
{
    for (number, directory) in inodes.directories() {
        if number == ROOT || directory.parent().is_some() {
            if let Some(attributes) = directory.attributes() {
                rows.push(TreeRow::Attributes { number, attributes })?;
            }
        }
    }
    Ok(())
}

/// Appends the rows of the attributes that are stored of existing files. Out of memory is the only
/// error.
pub(crate) fn push_file_attributes(
    rows: &mut Vec<TreeRow>,
    inodes: &Inodes,
    opens: &OpenFiles,
) -> Result<(), Memory>
    ensures { OnOk result (rows.new.items ≡ rows.old.items
        ++ file_attributes_rows (files_from opens.now (finite.entries inodes.now.files))) }
{
    for (number, file) in inodes.files() {
        if file.links() > 0 || opens.is_open(number) {
            if let Some(attributes) = file.attributes() {
                rows.push(TreeRow::Attributes { number, attributes })?;
            }
        }
    }
    Ok(())
}

/// Appends the rows of the times of existing files. Out of memory is the only error.
pub(crate) fn push_times(
    rows: &mut Vec<TreeRow>,
    inodes: &Inodes,
    opens: &OpenFiles,
) -> Result<(), Memory>
    ensures { OnOk result (rows.new.items ≡ rows.old.items
        ++ time_rows (files_from opens.now (finite.entries inodes.now.files))) }
{
    for (number, file) in inodes.files() {
        if file.links() > 0 || opens.is_open(number) {
            if let Some(time) = file.time() {
                rows.push(TreeRow::Time { file: number, time })?;
            }
        }
    }
    Ok(())
}

/// Appends the rows of the open descriptors. Out of memory is the only error.
pub(crate) fn push_opens(
    alloc: Global,
    rows: &mut Vec<TreeRow>,
    opens: &Table<Option<Hinted<OpenFile>>>,
) -> Result<(), Memory>
    ensures { OnOk result (rows.new.items ≡ rows.old.items
        ++ open_rows (opens_from (finite.entries opens.now))) }
{
    for (fd, place) in opens.sorted(alloc)? {
        if let Some(hinted) = place {
            let open = hinted.value();
            rows.push(TreeRow::Fd {
                fd,
                file: open.file,
                access: open.access,
                append: open.append,
                offset: open.offset,
            })?;
        }
    }
    Ok(())
}
