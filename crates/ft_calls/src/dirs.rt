// The plans of the calls on directories.
ghost use Rattle.std.specs.Prelude.{true, false, ◌≡◌, [], ◌∷◌, Ok, Some, None};
ghost use Rattle.ft_path.specs.FilePath.{parts_of};
ghost use Rattle.ft_cells.specs.declared.node.Node.TheVariants.{Dir as DirNode};
ghost use Rattle.ft_cells.specs.declared.node.PathEnd.TheVariants.{Named};
ghost use Rattle.ft_cells.specs.declared.cell.Cell.TheVariants.{Parent, DirAttributes};
ghost use Rattle.ft_posix.specs.Outcomes.{sets, from_parts, from_judged};
ghost use Rattle.ft_posix.specs.Attributes.{mode_fault};
ghost use Rattle.ft_posix.specs.Dirs.{make_dir, remove_parts, remove_dir, last_fault, list_dir};
ghost use Rattle.ft_posix.specs.Computes.{Computes};
ghost use Rattle.ft_posix.specs.Intended.{intended};
ghost use Rattle.ft_calls.specs.Drafts.{Plans, IsSameDraft, AddsWrites};

use crate::draft::Draft;
use crate::judging::{find_spot, mode_fault};
use crate::making::set_dir_mode;
use ft_base::Memory;
use ft_looks::{Look, text_parts};
use ft_path::{Errno, FilePath, JudgedPath, LastName};
use ft_posix::{CallError, Edit, Edits, PlannedReply};
use ft_tree::{Entry, Node, PathEnd, Rare};
use std::alloc::Global;

impl<'a, 'b, 't, 'c> Draft<'a, 'b, 't, 'c> {
    /// Plans to make a directory with the given mode, which gets the stamp as its number.
    #[inline(never)]
    pub(crate) fn mkdir(
        &mut self,
        mode: Option<u16>,
        path: &FilePath,
    ) -> Result<PlannedReply, CallError>
        requires { self.old.edits.now ≡ [] }
        ensures plans { Plans self.old
            (from_judged (mode_fault mode) false (parts_of path.now) (make_dir self.old.stamp mode))
            self.new result }
        ensures same { IsSameDraft self.old self.new }
    {
        let spot = find_spot(self.alloc, self.look, false, path, mode_fault(mode))?;
        self.make_dir(mode, spot)
    }

    /// Plans to make a directory at the end of a walk.
    fn make_dir(&mut self, mode: Option<u16>, spot: PathEnd) -> Result<PlannedReply, CallError>
        requires { self.old.edits.now ≡ [] }
        ensures plans { Plans self.old (make_dir self.old.stamp mode spot) self.new result }
        ensures same { IsSameDraft self.old self.new }
    {
        let PathEnd::Named {
            entry,
            node: None,
            ..
        } = spot
        else {
            return Err(CallError::Errno(Errno::EEXIST));
        };
        self.edits.push(Edit::Parent {
            dir: self.stamp,
            to: Some(entry.dir),
        })?;
        self.edits.push(Edit::Entry {
            entry,
            to: Some(Node::Dir(self.stamp)),
        })?;
        set_dir_mode(self.alloc, self.edits, self.stamp, mode)?;
        Ok(PlannedReply::Done)
    }

    /// Plans to remove an empty directory.
    #[inline(never)]
    pub(crate) fn rmdir(&mut self, path: &FilePath) -> Result<PlannedReply, CallError>
        requires { self.old.edits.now ≡ [] }
        ensures plans { Plans self.old (remove_parts (parts_of path.now)) self.new result }
        ensures same { IsSameDraft self.old self.new }
    {
        let parts = text_parts(path)?;
        self.remove_parts(&parts)
    }

    /// Plans to remove the directory to which a path leads.
    fn remove_parts(&mut self, parts: &JudgedPath<'_>) -> Result<PlannedReply, CallError>
        requires { self.old.edits.now ≡ [] }
        ensures plans { Plans self.old (remove_parts (Ok parts.now)) self.new result }
        ensures same { IsSameDraft self.old self.new }
    {
        if let Some(errno) = last_fault(parts.last()) {
            return Err(CallError::Errno(errno));
        }
        let spot = self.look.walk(self.alloc, false, parts)?;
        self.remove_dir(spot)
    }

    /// Plans to remove the directory at the end of a walk.
    fn remove_dir(&mut self, spot: PathEnd) -> Result<PlannedReply, CallError>
        requires { self.old.edits.now ≡ [] }
        ensures plans { Plans self.old (remove_dir spot) self.new result }
        ensures same { IsSameDraft self.old self.new }
    {
        let PathEnd::Named { entry, node, .. } = spot else {
            return Err(CallError::Errno(Errno::EBUSY));
        };
        match node {
            None => Err(CallError::Errno(Errno::ENOENT)),
            Some(Node::File(..)) => Err(CallError::Errno(Errno::ENOTDIR)),
            Some(Node::Dir(number)) => self.remove_bare(entry, number),
        }
    }

    /// Plans to remove a directory, unless it has an entry.
    fn remove_bare(&mut self, entry: Entry, number: u64) -> Result<PlannedReply, CallError>
        requires { self.old.edits.now ≡ [] }
        ensures plans { Plans self.old (remove_dir (Named entry (Some (DirNode number)) false))
            self.new result }
        ensures same { IsSameDraft self.old self.new }
    {
        if !self.look.is_empty_dir(number)? {
            return Err(CallError::Errno(Errno::ENOTEMPTY));
        }
        dir_gone(self.edits, number)?;
        self.edits.push(Edit::Entry { entry, to: None })?;
        Ok(PlannedReply::Done)
    }
}

/// Returns the fault of the last component of a path whose directory is to be removed, if there is
/// one.
fn last_fault(last: LastName) -> Option<Errno>
    ensures { result ≡ last_fault last }
{
    match last {
        LastName::Absent => Some(Errno::EBUSY),
        LastName::Dot => Some(Errno::EINVAL),
        LastName::DotDot => Some(Errno::ENOTEMPTY),
        LastName::Plain => None,
    }
}

/// Adds the edits that remove a directory with its attributes.
pub(crate) fn dir_gone(edits: &mut Edits<'_>, dir: u64) -> Result<(), Memory>
    ensures { AddsWrites edits.old edits.new result
        (sets (DirAttributes dir) None ∷ sets (Parent dir) None ∷ []) }
{
    edits.push(Edit::DirAttributes {
        dir,
        to: Rare::none(),
    })?;
    edits.push(Edit::Parent { dir, to: None })?;
    Ok(())
}

/// Plans to list the names of a directory.
#[inline(never)]
pub(crate) fn list(
    alloc: Global,
    look: &mut Look<'_>,
    path: &FilePath,
) -> Result<PlannedReply, CallError>
    ensures { Computes look.old (from_parts true (parts_of path.now) list_dir) look.new
        (intended [] result) }
{
    let parts = text_parts(path)?;
    let spot = look.walk(alloc, true, &parts)?;
    list_dir(look, spot)
}

/// Plans to list the directory at the end of a walk.
fn list_dir(look: &mut Look<'_>, spot: PathEnd) -> Result<PlannedReply, CallError>
    ensures { Computes look.old (list_dir spot) look.new (intended [] result) }
{
    match spot {
        PathEnd::Named { node: None, .. } => Err(CallError::Errno(Errno::ENOENT)),
        PathEnd::Named {
            node: Some(Node::File(..)),
            ..
        } => Err(CallError::Errno(Errno::ENOTDIR)),
        PathEnd::Named {
            node: Some(Node::Dir(number)),
            ..
        }
        | PathEnd::Itself(number) => {
            look.note_names(number)?;
            Ok(PlannedReply::NamesOf(number))
        }
    }
}
