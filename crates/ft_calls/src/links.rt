// The plans of link, unlink and rename.
ghost use Rattle.std.specs.Prelude.{false, ◌≡◌, [], Ok, None, OnOk};
ghost use Rattle.ft_path.specs.FilePath.{parts_of};
ghost use Rattle.ft_cells.specs.declared.node.PathEnd.TheVariants.{Named};
ghost use Rattle.ft_cells.specs.Cells.{Cells};
ghost use Rattle.ft_posix.specs.Outcomes.{from_parts};
ghost use Rattle.ft_posix.specs.Links.{link_new, link_old, link_parts, unlink_spot, rename_fault, renamed, with_parent, unless_below, replace_file, replace_dir, rename_file, rename_dir, rename_old, rename_parts};
ghost use Rattle.ft_posix.specs.declared.intent.PlannedReply.TheVariants.{Done};
ghost use Rattle.ft_posix.specs.Computes.{outcome_of};
ghost use Rattle.ft_calls.specs.Drafts.{Plans, IsSameDraft, directories_of, AddsWrites};

use crate::dirs::dir_gone;
use crate::draft::Draft;
use ft_base::Memory;
use ft_looks::text_parts;
use ft_path::{Errno, FilePath, JudgedPath, LastName};
use ft_posix::{CallError, Edit, Edits, PlannedReply};
use ft_tree::{Entry, Form, Node, PathEnd, TreeLimits};

impl<'a, 'b, 't, 'c> Draft<'a, 'b, 't, 'c> {
    /// Plans to remove an entry of a file.
    #[inline(never)]
    pub(crate) fn unlink(&mut self, path: &FilePath) -> Result<PlannedReply, CallError>
        requires { self.old.edits.now ≡ [] }
        ensures plans { Plans self.old (from_parts false (parts_of path.now) unlink_spot)
            self.new result }
        ensures same { IsSameDraft self.old self.new }
    {
        let parts = text_parts(path)?;
        let spot = self.look.walk(self.alloc, false, &parts)?;
        self.unlink_spot(spot)
    }

    /// Plans to remove the entry of a file at the end of a walk.
    fn unlink_spot(&mut self, spot: PathEnd) -> Result<PlannedReply, CallError>
        requires { self.old.edits.now ≡ [] }
        ensures plans { Plans self.old (unlink_spot spot) self.new result }
        ensures same { IsSameDraft self.old self.new }
    {
        let PathEnd::Named { entry, node, .. } = spot else {
            return Err(CallError::Errno(Errno::EPERM));
        };
        match node {
            None => Err(CallError::Errno(Errno::ENOENT)),
            Some(Node::Dir(_)) => Err(CallError::Errno(Errno::EPERM)),
            Some(Node::File(_, file)) => {
                let links = self.look.links(file)?;
                self.edits.push(Edit::Links {
                    file,
                    to: links.saturating_sub(1),
                })?;
                self.edits.push(Edit::Entry { entry, to: None })?;
                Ok(PlannedReply::Done)
            }
        }
    }

    /// Plans to make another entry for a file.
    #[inline(never)]
    pub(crate) fn link(&mut self, old: &FilePath, new: &FilePath) -> Result<PlannedReply, CallError>
        requires { self.old.edits.now ≡ [] }
        ensures plans { Plans self.old
            (link_parts self.old.look.now.cells.limits (parts_of old.now) (parts_of new.now))
            self.new result }
        ensures same { IsSameDraft self.old self.new }
    {
        let from = text_parts(old)?;
        let to = text_parts(new)?;
        let limits = self.look.limits();
        self.link_parts(limits, &from, &to)
    }

    /// Plans to link the file to which the old path leads, at the end of the new path.
    fn link_parts(
        &mut self,
        limits: TreeLimits,
        old: &JudgedPath<'_>,
        new: &JudgedPath<'_>,
    ) -> Result<PlannedReply, CallError>
        requires { self.old.edits.now ≡ [] }
        ensures plans { Plans self.old (link_parts limits (Ok old.now) (Ok new.now))
            self.new result }
        ensures same { IsSameDraft self.old self.new }
    {
        let spot = self.look.walk(self.alloc, false, old)?;
        self.link_old(limits, new, spot)
    }

    /// Plans to link the file at the end of a walk, at the end of the new path.
    fn link_old(
        &mut self,
        limits: TreeLimits,
        new: &JudgedPath<'_>,
        spot: PathEnd,
    ) -> Result<PlannedReply, CallError>
        requires { self.old.edits.now ≡ [] }
        ensures plans { Plans self.old (link_old limits new.now spot) self.new result }
        ensures same { IsSameDraft self.old self.new }
    {
        match spot {
            PathEnd::Named { node: None, .. } => Err(CallError::Errno(Errno::ENOENT)),
            PathEnd::Named {
                node: Some(Node::File(form, file)),
                ..
            } => self.link_file(limits, form, file, new),
            _ => Err(CallError::Errno(Errno::EPERM)),
        }
    }

    /// Plans to link a file at the end of a path.
    fn link_file(
        &mut self,
        limits: TreeLimits,
        form: Form,
        file: u64,
        new: &JudgedPath<'_>,
    ) -> Result<PlannedReply, CallError>
        requires { self.old.edits.now ≡ [] }
        ensures plans { Plans self.old (from_parts false (Ok new.now) (link_new limits form file))
            self.new result }
        ensures same { IsSameDraft self.old self.new }
    {
        let spot = self.look.walk(self.alloc, false, new)?;
        self.link_new(limits, form, file, spot)
    }

    /// Plans to link a file at the end of a walk, unless it has as many links as the tree allows.
    fn link_new(
        &mut self,
        limits: TreeLimits,
        form: Form,
        file: u64,
        spot: PathEnd,
    ) -> Result<PlannedReply, CallError>
        requires { self.old.edits.now ≡ [] }
        ensures plans { Plans self.old (link_new limits form file spot) self.new result }
        ensures same { IsSameDraft self.old self.new }
    {
        let PathEnd::Named {
            entry,
            node: None,
            slash,
        } = spot
        else {
            return Err(CallError::Errno(Errno::EEXIST));
        };
        if slash {
            return Err(CallError::Errno(Errno::ENOENT));
        }
        let links = self.look.links(file)?;
        if links >= limits.links {
            return Err(CallError::Errno(Errno::EMLINK));
        }
        self.edits.push(Edit::Entry {
            entry,
            to: Some(Node::File(form, file)),
        })?;
        self.edits.push(Edit::Links {
            file,
            to: links + 1,
        })?;
        Ok(PlannedReply::Done)
    }

    /// Plans to give a file or a directory another name.
    #[inline(never)]
    pub(crate) fn rename(
        &mut self,
        old: &FilePath,
        new: &FilePath,
    ) -> Result<PlannedReply, CallError>
        requires { self.old.edits.now ≡ [] }
        ensures plans { Plans self.old
            (rename_parts (directories_of self.old) (parts_of old.now)
            (parts_of new.now)) self.new result }
        ensures same { IsSameDraft self.old self.new }
    {
        let from = text_parts(old)?;
        let to = text_parts(new)?;
        self.rename_parts(&from, &to)
    }

    /// Plans to move the entry at the end of the old path to the end of the new path.
    fn rename_parts(
        &mut self,
        old: &JudgedPath<'_>,
        new: &JudgedPath<'_>,
    ) -> Result<PlannedReply, CallError>
        requires { self.old.edits.now ≡ [] }
        ensures plans { Plans self.old
            (rename_parts (directories_of self.old) (Ok old.now) (Ok new.now))
            self.new result }
        ensures same { IsSameDraft self.old self.new }
    {
        if let Some(errno) = rename_fault(old.last(), new.last()) {
            return Err(CallError::Errno(errno));
        }
        let moved = self.look.walk(self.alloc, false, old)?;
        self.rename_old(new, moved)
    }

    /// Plans to move the entry at the end of a walk to the end of a path.
    fn rename_old(&mut self, new: &JudgedPath<'_>, spot: PathEnd) -> Result<PlannedReply, CallError>
        requires { self.old.edits.now ≡ [] }
        ensures plans { Plans self.old
            (rename_old (directories_of self.old) new.now spot)
            self.new result }
        ensures same { IsSameDraft self.old self.new }
    {
        let PathEnd::Named { entry, node, .. } = spot else {
            return Err(CallError::Errno(Errno::EBUSY));
        };
        match node {
            None => Err(CallError::Errno(Errno::ENOENT)),
            Some(Node::File(form, file)) => self.rename_file_to(entry, form, file, new),
            Some(Node::Dir(number)) => self.rename_dir_to(entry, number, new),
        }
    }

    /// Plans to move the entry of a file to the end of a path.
    fn rename_file_to(
        &mut self,
        old: Entry,
        form: Form,
        file: u64,
        new: &JudgedPath<'_>,
    ) -> Result<PlannedReply, CallError>
        requires { self.old.edits.now ≡ [] }
        ensures plans { Plans self.old (from_parts false (Ok new.now) (rename_file old form file))
            self.new result }
        ensures same { IsSameDraft self.old self.new }
    {
        let spot = self.look.walk(self.alloc, false, new)?;
        self.rename_file(old, form, file, spot)
    }

    /// Plans to move the entry of a file to the end of a walk.
    fn rename_file(
        &mut self,
        old: Entry,
        form: Form,
        file: u64,
        spot: PathEnd,
    ) -> Result<PlannedReply, CallError>
        requires { self.old.edits.now ≡ [] }
        ensures plans { Plans self.old (rename_file old form file spot) self.new result }
        ensures same { IsSameDraft self.old self.new }
    {
        let PathEnd::Named {
            entry: new,
            node,
            slash,
        } = spot
        else {
            return Err(CallError::Errno(Errno::EBUSY));
        };
        match node {
            None if slash => Err(CallError::Errno(Errno::ENOTDIR)),
            None => {
                push_rename(self.edits, old, Node::File(form, file), new)?;
                Ok(PlannedReply::Done)
            }
            Some(Node::File(_, replaced)) if replaced == file => Ok(PlannedReply::Done),
            Some(Node::File(_, replaced)) => {
                self.replace_file(old, Node::File(form, file), new, replaced)
            },
            Some(Node::Dir(_)) => Err(CallError::Errno(Errno::EISDIR)),
        }
    }

    /// Plans to move the entry of a file to the entry of another file, which it replaces.
    fn replace_file(
        &mut self,
        old: Entry,
        moved: Node,
        new: Entry,
        replaced: u64,
    ) -> Result<PlannedReply, CallError>
        requires { self.old.edits.now ≡ [] }
        ensures plans { Plans self.old (replace_file old moved new replaced) self.new result }
        ensures same { IsSameDraft self.old self.new }
    {
        let links = self.look.links(replaced)?;
        push_rename(self.edits, old, moved, new)?;
        self.edits.push(Edit::Links {
            file: replaced,
            to: links.saturating_sub(1),
        })?;
        Ok(PlannedReply::Done)
    }

    /// Plans to move the entry of a directory to the end of a path.
    fn rename_dir_to(
        &mut self,
        old: Entry,
        number: u64,
        new: &JudgedPath<'_>,
    ) -> Result<PlannedReply, CallError>
        requires { self.old.edits.now ≡ [] }
        ensures plans { Plans self.old
            (from_parts false (Ok new.now)
            (rename_dir (directories_of self.old) old number)) self.new result }
        ensures same { IsSameDraft self.old self.new }
    {
        let spot = self.look.walk(self.alloc, false, new)?;
        self.rename_dir(old, number, spot)
    }

    /// Plans to move the entry of a directory to the end of a walk.
    fn rename_dir(
        &mut self,
        old: Entry,
        number: u64,
        spot: PathEnd,
    ) -> Result<PlannedReply, CallError>
        requires { self.old.edits.now ≡ [] }
        ensures plans { Plans self.old
            (rename_dir (directories_of self.old) old number spot)
            self.new result }
        ensures same { IsSameDraft self.old self.new }
    {
        let PathEnd::Named {
            entry: new,
            node,
            ..
        } = spot
        else {
            return Err(CallError::Errno(Errno::EBUSY));
        };
        match node {
            None => self.move_dir(old, number, new),
            Some(Node::Dir(replaced)) if replaced == number => Ok(PlannedReply::Done),
            Some(Node::Dir(replaced)) => self.replace_dir(old, number, new, replaced),
            Some(Node::File(..)) => Err(CallError::Errno(Errno::ENOTDIR)),
        }
    }

    /// Plans to move the entry of a directory to a missing name, unless the directory would come to
    /// be below itself.
    fn move_dir(&mut self, old: Entry, number: u64, new: Entry) -> Result<PlannedReply, CallError>
        requires { self.old.edits.now ≡ [] }
        ensures plans { Plans self.old
            (rename_dir (directories_of self.old) old number (Named new None false)) self.new
            result }
        ensures same { IsSameDraft self.old self.new }
    {
        if self.look.climb(number, new.dir)? {
            return Err(CallError::Errno(Errno::EINVAL));
        }
        let (dir, into) = (old.dir, new.dir);
        push_rename(self.edits, old, Node::Dir(number), new)?;
        with_parent(self.edits, number, dir, into)?;
        Ok(PlannedReply::Done)
    }

    /// Plans to move the entry of a directory to the entry of another directory, which is then
    /// removed. Fails if the moved one would come to be below itself, or if the other is not empty.
    fn replace_dir(
        &mut self,
        old: Entry,
        number: u64,
        new: Entry,
        replaced: u64,
    ) -> Result<PlannedReply, CallError>
        requires { self.old.edits.now ≡ [] }
        ensures plans { Plans self.old
            (unless_below (directories_of self.old) number new.dir
            (replace_dir old number new replaced)) self.new result }
        ensures same { IsSameDraft self.old self.new }
    {
        if self.look.climb(number, new.dir)? {
            return Err(CallError::Errno(Errno::EINVAL));
        }
        self.replace_empty(old, number, new, replaced)
    }

    /// Plans to move the entry of a directory to the entry of an empty one, which is then removed
    /// with its attributes. Fails if that one is not empty.
    fn replace_empty(
        &mut self,
        old: Entry,
        number: u64,
        new: Entry,
        replaced: u64,
    ) -> Result<PlannedReply, CallError>
        requires { self.old.edits.now ≡ [] }
        ensures plans { Plans self.old (replace_dir old number new replaced) self.new result }
        ensures same { IsSameDraft self.old self.new }
    {
        if !self.look.is_empty_dir(replaced)? {
            return Err(CallError::Errno(Errno::ENOTEMPTY));
        }
        let (dir, into) = (old.dir, new.dir);
        push_rename(self.edits, old, Node::Dir(number), new)?;
        dir_gone(self.edits, replaced)?;
        with_parent(self.edits, number, dir, into)?;
        Ok(PlannedReply::Done)
    }
}

/// Returns the fault of the last components of two paths, if there is one. Looks nothing up.
fn rename_fault(old: LastName, new: LastName) -> Option<Errno>
    ensures { result ≡ rename_fault old new }
{
    match (old, new) {
        (LastName::Dot | LastName::DotDot, _) | (_, LastName::Dot | LastName::DotDot) => {
            Some(Errno::EINVAL)
        }
        (LastName::Absent, _) | (_, LastName::Absent) => Some(Errno::EBUSY),
        (LastName::Plain, LastName::Plain) => None,
    }
}

/// Adds the edits by which the new entry names what the old one named, and the old one is removed.
fn push_rename(edits: &mut Edits<'_>, old: Entry, node: Node, new: Entry) -> Result<(), Memory>
    requires { edits.old ≡ [] }
    ensures { (cells : Cells)
        → OnOk result (outcome_of cells (record { told = Done; edits = edits.new })
        ≡ renamed old node new []) }
{
    edits.push(Edit::Entry {
        entry: new,
        to: Some(node),
    })?;
    edits.push(Edit::Entry {
        entry: old,
        to: None,
    })?;
    Ok(())
}

/// Adds the edit that sets a directory's parent, if it moves to another directory.
fn with_parent(edits: &mut Edits<'_>, number: u64, dir: u64, into: u64) -> Result<(), Memory>
    ensures { AddsWrites edits.old edits.new result (with_parent number dir into) }
{
    if dir == into {
        return Ok(());
    }
    edits.push(Edit::Parent {
        dir: number,
        to: Some(into),
    })?;
    Ok(())
}
