// A tree that is looked at, cell by cell, and a record of its cells that were looked at.
ghost use Rattle.std.specs.Prelude.{◌≡◌, ◌≤◌, [], length, option_copied, IfOk, IfSome, OnOk};
ghost use Rattle.std.specs.Option.{option_to_list};
ghost use Rattle.std.specs.FinMap as finite;
ghost use Rattle.ft_body.specs.declared.TheConstants.{LARGEST_SIZE};
ghost use Rattle.ft_path.specs.FilePath.{parts_of};
ghost use Rattle.ft_cells.specs.declared.cell.Cell.TheVariants.{Links, Names, Fd, DirAttributes, FileAttributes};
ghost use Rattle.ft_cells.specs.Cells.{bytes_of, directory_count};
ghost use Rattle.ft_tree.specs.Views.{view_of};
ghost use Rattle.ft_tree.specs.Fronts.{LeadsIfAny, entries_of};
ghost use Rattle.ft_tree.specs.Walk.{walk, walk_from};
ghost use Rattle.ft_posix.specs.Links.{climb};
ghost use Rattle.ft_posix.specs.declared.call.Mode.TheVariants.{Write as WriteMode};
ghost use Rattle.ft_posix.specs.Looking.{Looking, Observes, look_at, size_at, is_bare, names_noted, noted_at};
ghost use Rattle.ft_posix.specs.Computes.{Resolves, Parses};
ghost use Rattle.ft_posix.specs.Accesses.{with_looks};
ghost use Rattle.ft_posix.specs.Besides.{AreListedBut};
ghost use Rattle.ft_posix.specs.Within.{AreWithin};
ghost use Rattle.ft_posix.specs.Edits.{edit_cell, with_edits};
ghost use Rattle.ft_looks.specs.Rests.{IsRest};
ghost use Rattle.ft_looks.specs.Sizes.{size_and_time_at};

use crate::access_set::AccessSet;
use ft_base::Memory;
use ft_path::{FilePath, JudgedPath, Name};
use ft_posix::{Access, CallError, Edit, Edits};
use ft_tree::{
    Attributes, Cell, Cursor, EntryRef, Front, HintedFile, Node, OpenFile, PathEnd, ROOT, Reader,
    Route, Timestamp, Tree, TreeLimits, walk_from,
};
use std::alloc::Global;
use std::marker::Model;

/// A tree that is looked at, and a record of its cells that were looked at.
///
/// The end of a path's front may be known. A path that continues after the front is walked from
/// there. The entries on the front's way therefore count as read, whether they are looked at or
/// not.
#[derive(Drop)]
pub struct Look<'t> {
    cursor: Cursor<'t>,
    touched: AccessSet,
    front: Option<&'t Front>,
}

impl<'t> Model for Look<'t> {
    ghost use Rattle.std.specs.Option.{option_copied};
    ghost use Rattle.ft_tree.specs.Views.{view_of};
    ghost use Rattle.ft_tree.specs.Fronts.{LeadsIfAny, entries_of};
    ghost use Rattle.ft_posix.specs.Accesses.{with_looks};
    ghost use Rattle.ft_posix.specs.Besides.{AreReads};
    ghost use Rattle.ft_posix.specs.Looking.{Looking, coded_looking};

    ghost Value = { Looking };

    ghost coded = { coded_looking };

    ghost view = { λ a. record {
      cells = a.cursor;
      modes = with_looks a.touched (entries_of (option_copied a.front));
      front = entries_of (option_copied a.front);
    } };

    ghost invariant = { λ a. LeadsIfAny (view_of a.cursor) (option_copied a.front)
        × AreReads a.touched };
}

impl<'t> Look<'t> {
    /// Returns a look at a tree, with nothing looked at yet.
    pub fn new(alloc: Global, tree: &'t Tree) -> Look<'t>
        ensures { result ≡ record { cells = tree.entry.now; modes = finite.empty; front = [] } }
    {
        Look::behind(alloc, tree, None)
    }

    /// Returns a look at a tree, with nothing looked at yet. If a front is given, its end is known.
    pub fn behind(alloc: Global, tree: &'t Tree, front: Option<&'t Front>) -> Look<'t>
        requires { LeadsIfAny (view_of tree.now) (option_copied front) }
        ensures { result ≡ record {
          cells = tree.entry.now;
          modes = with_looks finite.empty (entries_of (option_copied front.entry));
          front = entries_of (option_copied front.entry);
        } }
    {
        Look {
            cursor: Cursor::new(tree),
            touched: AccessSet::new(alloc),
            front,
        }
    }

    /// Notes that a cell is looked at.
    fn note(&mut self, cell: Cell) -> Result<(), Memory>
        ensures noted { OnOk result (self.new ≡ noted_at self.old cell) }
        ensures same { self.new.cells ≡ self.old.cells }
    {
        self.touched.read(cell)
    }

    /// Returns the limits of the tree.
    pub fn limits(&self) -> TreeLimits
        ensures are { result ≡ self.now.cells.limits }
        ensures size { result.file_size ≤ LARGEST_SIZE }
    {
        self.cursor.tree().limits()
    }

    /// Returns how many entries name a file, and notes the look.
    pub fn links(&mut self, file: u64) -> Result<u64, Memory>
        ensures { Observes self.old (look_at (Links file)) self.new result }
    {
        self.note(Cell::Links(file))?;
        Ok(self.cursor.links(file))
    }

    /// Returns the stored attributes of a directory, and notes the look.
    pub fn dir_attributes(&mut self, dir: u64) -> Result<Option<Attributes>, Memory>
        ensures { Observes self.old (look_at (DirAttributes dir)) self.new result }
    {
        self.note(Cell::DirAttributes(dir))?;
        Ok(self.cursor.dir_attributes(dir))
    }

    /// Returns the stored attributes of a file, and notes the look.
    pub fn file_attributes(&mut self, file: u64) -> Result<Option<Attributes>, Memory>
        ensures { Observes self.old (look_at (FileAttributes file)) self.new result }
    {
        self.note(Cell::FileAttributes(file))?;
        Ok(self.cursor.file_attributes(file))
    }

    /// Returns the open file description of a descriptor, and notes the look.
    pub fn open_file(&mut self, fd: u64) -> Result<Option<OpenFile>, Memory>
        ensures { Observes self.old (look_at (Fd fd)) self.new result }
    {
        self.note(Cell::Fd(fd))?;
        Ok(self.cursor.open_file(fd))
    }

    /// Returns whether a directory has no entry, and notes the look at its names.
    pub fn is_empty_dir(&mut self, dir: u64) -> Result<bool, Memory>
        ensures { Observes self.old (is_bare dir) self.new result }
    {
        self.note(Cell::Names(dir))?;
        Ok(self.cursor.is_empty_dir(dir))
    }

    /// Notes that the names of a directory are looked at.
    pub fn note_names(&mut self, dir: u64) -> Result<(), Memory>
        ensures { Observes self.old (names_noted dir) self.new result }
    {
        self.note(Cell::Names(dir))?;
        Ok(())
    }

    /// Returns the size of a file, and notes the look at its bytes.
    pub fn size(&mut self, file: u64) -> Result<u64, Memory>
        ensures found { Observes self.old (size_at file) self.new result }
        ensures limit { IfOk result (λ size. size ≤ LARGEST_SIZE) }
    {
        self.note(Cell::Bytes(file))?;
        Ok(size_of(&self.cursor, file))
    }

    /// Returns the size of a file and the time of its bytes, and notes one look at them.
    pub fn size_and_time(&mut self, file: u64) -> Result<(u64, Option<Timestamp>), Memory>
        ensures { Observes self.old (size_and_time_at file) self.new result }
    {
        self.note(Cell::Bytes(file))?;
        Ok((size_of(&self.cursor, file), self.cursor.time(file)))
    }

    /// Returns a file's number, with a hint for a later read or write: where something was found
    /// last.
    pub fn hinted(&self, file: u64) -> HintedFile
        ensures { result ≡ file }
    {
        self.cursor.hinted(file)
    }

    /// Returns where a path leads, through a last symbolic link if that is to be followed. Notes
    /// each look.
    pub fn walk(
        &mut self,
        alloc: Global,
        follow: bool,
        path: &JudgedPath<'_>,
    ) -> Result<PathEnd, CallError>
        ensures { Resolves self.old (walk follow path.now.names path.now.trailing) self.new result }
    {
        match self.rest_of(path) {
            Some((start, rest)) => self.walk_from(alloc, follow, start, &rest),
            None => self.walk_from(alloc, follow, ROOT, path),
        }
    }

    /// Returns where a path leads from a directory on. Notes each look.
    fn walk_from(
        &mut self,
        alloc: Global,
        follow: bool,
        start: u64,
        path: &JudgedPath<'_>,
    ) -> Result<PathEnd, CallError>
        ensures { Resolves self.old (walk_from follow start path.now.names path.now.trailing)
            self.new result }
    {
        let parts = path.parts(alloc)?;
        let route = Route {
            start,
            names: parts.names.as_slice(),
            slash: parts.trailing,
        };
        match walk_from(alloc, self, follow, route)? {
            Ok(spot) => Ok(spot),
            Err(errno) => Err(CallError::Errno(errno)),
        }
    }

    /// Returns the directory to which the front leads, and the rest of a path after the front.
    /// Returns none if no front is known, or if the path does not continue after it.
    fn rest_of<'p>(&self, path: &JudgedPath<'p>) -> Option<(u64, JudgedPath<'p>)>
        ensures { IfSome result (λ found. IsRest self.now path.now found.0 found.1) }
    {
        let front = self.front?;
        let rest = path.behind(front.text.as_slice())?;
        Some((front.end(), rest))
    }

    /// Returns whether directory `moved` is met on the way up from directory `dir` to the root.
    /// Notes each look.
    pub fn climb(&mut self, moved: u64, dir: u64) -> Result<bool, Memory>
        ensures { Observes self.old (climb (directory_count self.old.cells) moved dir) self.new
            result }
    {
        let mut at = dir;
        for _ in 0..self.cursor.tree().directory_count() {
            if at == moved {
                return Ok(true);
            }
            if at == ROOT {
                return Ok(false);
            }
            at = self.parent(at)?.unwrap_or(ROOT);
        }
        Ok(at == moved)
    }

    /// Returns the accesses of a call that made these looks and makes these edits. Reads of entries
    /// on the front's way may be missing.
    pub fn into_accesses(self, edits: &Edits<'_>) -> Result<Vec<Access>, Memory>
        ensures list { IfOk result
            (λ list. AreListedBut self.entry.front (with_edits self.entry.modes edits.now)
            list.items) }
        ensures within { AreWithin edits.now }
    {
        let Look {
            cursor: _,
            mut touched,
            front: _,
        } = self;
        note_edits(&mut touched, edits)?;
        touched.into_accesses()
    }
}

/// Each cell that a walk reads is noted.
impl<'t> Reader for Look<'t> {
    ghost use Rattle.std.specs.Prelude.{refl};
    ghost use Rattle.ft_posix.specs.Looking.{noted_at};

    ghost cells = { λ look. look.cells };

    ghost noted = { noted_at };

    ghost stays = { λ _ _. refl };

    fn entry(&mut self, dir: u64, name: &Name) -> Result<Option<Node>, Memory> {
        self.touched.read_entry(EntryRef { dir, name })?;
        Ok(self.cursor.entry(dir, name))
    }

    fn parent(&mut self, dir: u64) -> Result<Option<u64>, Memory> {
        self.note(Cell::Parent(dir))?;
        Ok(self.cursor.parent(dir))
    }

    fn target(&mut self, link: u64) -> Result<Vec<u8>, Memory> {
        self.note(Cell::Bytes(link))?;
        self.cursor.target(link)
    }
}

/// Returns the size of a file, in bytes.
fn size_of(cursor: &Cursor<'_>, file: u64) -> u64
    ensures size { result ≡ length (bytes_of cursor.now file) }
    ensures limit { result ≤ LARGEST_SIZE }
{
    match cursor.body(file) {
        Some(body) => body.len(),
        None => 0,
    }
}

/// Returns the judged path, or the fault of its text.
pub fn text_parts(path: &FilePath) -> Result<JudgedPath<'_>, CallError>
    ensures { Parses (parts_of path.now) result }
{
    match path.judged() {
        Ok(judged) => Ok(judged),
        Err(errno) => Err(CallError::Errno(errno)),
    }
}

/// Notes the cells that are edited.
#[tactic(auto, using(ft_posix::proofs::Noting::parts_noted))]
fn note_edits(touched: &mut AccessSet, edits: &Edits<'_>) -> Result<(), Memory>
    ensures noted { OnOk result (touched.new ≡ with_edits touched.old edits.now) }
    ensures within { AreWithin edits.now }
{
    let items = edits.as_items();
    note_if(touched, items.first())?;
    note_if(touched, items.second())?;
    for edit in items.rest() {
        note_edit(touched, edit)?;
    }
    Ok(())
}

/// Notes the cell that is edited, if there is an edit.
fn note_if(touched: &mut AccessSet, edit: Option<&Edit<'_>>) -> Result<(), Memory>
    ensures { OnOk result (touched.new
        ≡ with_edits touched.old (option_to_list (option_copied edit.entry))) }
{
    match edit {
        Some(edit) => note_edit(touched, edit),
        None => Ok(()),
    }
}

/// Notes the cell that is edited.
fn note_edit(touched: &mut AccessSet, edit: &Edit<'_>) -> Result<(), Memory>
    ensures { OnOk result (touched.new ≡ finite.insert touched.old (edit_cell edit.now) WriteMode) }
{
    match edit {
        Edit::Entry { entry, .. } => touched.write_entry(entry.as_ref()),
        Edit::Parent { dir, .. } => touched.write(Cell::Parent(*dir)),
        Edit::Links { file, .. } => touched.write(Cell::Links(*file)),
        Edit::Overwrite { file, .. } | Edit::Resize { file, .. } | Edit::Time { file, .. } => {
            touched.write(Cell::Bytes(file.number()))
        }
        Edit::Open { fd, .. } => touched.write(Cell::Fd(*fd)),
        Edit::DirAttributes { dir, .. } => touched.write(Cell::DirAttributes(*dir)),
        Edit::FileAttributes { file, .. } => touched.write(Cell::FileAttributes(file.number())),
    }
}
