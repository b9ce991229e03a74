// The plans of symlink and readlink.
ghost use Rattle.std.specs.Prelude.{false, ◌≡◌, ◌≤◌, [], Ok, length};
ghost use Rattle.ft_path.specs.declared.TheConstants.{LONGEST_PATH};
ghost use Rattle.ft_path.specs.FilePath.{parts_of};
ghost use Rattle.ft_cells.specs.Cells.{bytes_of};
ghost use Rattle.ft_posix.specs.Outcomes.{from_parts};
ghost use Rattle.ft_posix.specs.Symlinks.{target_fault, make_link, symlink_parts, read_link};
ghost use Rattle.ft_posix.specs.Computes.{Computes};
ghost use Rattle.ft_posix.specs.Intended.{intended};
ghost use Rattle.ft_calls.specs.Drafts.{Plans, IsSameDraft};

use crate::draft::Draft;
use ft_looks::{Look, text_parts};
use ft_path::{Errno, FilePath, JudgedPath, LONGEST_PATH};
use ft_posix::{CallError, Edit, PlannedReply};
use ft_tree::{Form, HintedFile, Node, PathEnd};
use std::alloc::Global;

impl<'a, 'b, 't, 'c> Draft<'a, 'b, 't, 'c> {
    /// Plans to make a symbolic link, which gets the stamp as its number.
    #[inline(never)]
    pub(crate) fn symlink(
        &mut self,
        target: &'c FilePath,
        path: &FilePath,
    ) -> Result<PlannedReply, CallError>
        requires none { self.old.edits.now ≡ [] }
        requires fresh { bytes_of self.old.look.now.cells self.old.stamp ≡ [] }
        ensures plans { Plans self.old (symlink_parts self.old.stamp target.now (parts_of path.now))
            self.new result }
        ensures same { IsSameDraft self.old self.new }
    {
        let parts = text_parts(path)?;
        self.symlink_parts(target.as_bytes(), &parts)
    }

    /// Plans to make a symbolic link at the end of a path.
    fn symlink_parts(
        &mut self,
        target: &'c [u8],
        parts: &JudgedPath<'_>,
    ) -> Result<PlannedReply, CallError>
        requires none { self.old.edits.now ≡ [] }
        requires fresh { bytes_of self.old.look.now.cells self.old.stamp ≡ [] }
        ensures plans { Plans self.old (symlink_parts self.old.stamp target.now (Ok parts.now))
            self.new result }
        ensures same { IsSameDraft self.old self.new }
    {
        if let Some(errno) = target_fault(target) {
            return Err(CallError::Errno(errno));
        }
        let spot = self.look.walk(self.alloc, false, parts)?;
        self.make_link(target, spot)
    }

    /// Plans to make a symbolic link at the end of a walk.
    fn make_link(&mut self, target: &'c [u8], spot: PathEnd) -> Result<PlannedReply, CallError>
        requires none { self.old.edits.now ≡ [] }
        requires fresh { bytes_of self.old.look.now.cells self.old.stamp ≡ [] }
        requires short { length target.now ≤ LONGEST_PATH }
        ensures plans { Plans self.old (make_link self.old.stamp target.now spot) self.new result }
        ensures same { IsSameDraft self.old self.new }
    {
        let PathEnd::Named {
            entry,
            node: None,
            slash,
        } = spot
        else {
            return Err(CallError::Errno(Errno::EEXIST));
        };
        if slash {
            return Err(CallError::Errno(Errno::ENOENT));
        }
        self.edits.push(Edit::Links {
            file: self.stamp,
            to: 1,
        })?;
        self.edits.push(Edit::Overwrite {
            file: HintedFile::new(self.stamp),
            at: 0,
            bytes: target,
        })?;
        self.edits.push(Edit::Entry {
            entry,
            to: Some(Node::File(Form::Link, self.stamp)),
        })?;
        Ok(PlannedReply::Done)
    }
}

/// Returns the fault of the length of a target, if there is one.
fn target_fault(target: &[u8]) -> Option<Errno>
    ensures { result ≡ target_fault target.now }
{
    if target.is_empty() {
        return Some(Errno::ENOENT);
    }
    if target.len() > LONGEST_PATH {
        return Some(Errno::ENAMETOOLONG);
    }
    None
}

/// Returns the planned reply with the target of a symbolic link.
#[inline(never)]
pub(crate) fn readlink(
    alloc: Global,
    look: &mut Look<'_>,
    path: &FilePath,
) -> Result<PlannedReply, CallError>
    ensures { Computes look.old (from_parts false (parts_of path.now) read_link) look.new
        (intended [] result) }
{
    let parts = text_parts(path)?;
    let spot = look.walk(alloc, false, &parts)?;
    read_link(look, spot)
}

/// Returns the planned reply with the target of the symbolic link at the end of a walk.
fn read_link(look: &mut Look<'_>, spot: PathEnd) -> Result<PlannedReply, CallError>
    ensures { Computes look.old (read_link spot) look.new (intended [] result) }
{
    match spot {
        PathEnd::Named { node: None, .. } => Err(CallError::Errno(Errno::ENOENT)),
        PathEnd::Named {
            node: Some(Node::File(Form::Link, link)),
            ..
        } => {
            let len = look.size(link)?;
            Ok(PlannedReply::BytesOf {
                file: look.hinted(link),
                at: 0,
                len,
            })
        }
        _ => Err(CallError::Errno(Errno::EINVAL)),
    }
}
