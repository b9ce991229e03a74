// The plans of open, truncate and stat.
ghost use Rattle.std.specs.Prelude.{true, ◌≡◌, ◌≤◌, [], Ok, None};
ghost use Rattle.ft_body.specs.declared.TheConstants.{LARGEST_SIZE};
ghost use Rattle.ft_path.specs.FilePath.{parts_of};
ghost use Rattle.ft_cells.specs.Looks.{Answer};
ghost use Rattle.ft_cells.specs.declared.node.PathEnd.TheVariants.{Named};
ghost use Rattle.ft_posix.specs.Outcomes.{from_parts};
ghost use Rattle.ft_posix.specs.Looking.{Observes};
ghost use Rattle.ft_posix.specs.Files.{open_node, open_spot, open_fault, open_parts, cut_file, truncate_spot, truncate_parts, dir_info, attributes_at, file_info, stat_spot};
ghost use Rattle.ft_posix.specs.Computes.{Computes};
ghost use Rattle.ft_posix.specs.Intended.{intended};
ghost use Rattle.ft_calls.specs.Drafts.{Plans, IsSameDraft};

use crate::draft::Draft;
use crate::judging::{find_spot, mode_fault};
use crate::making::set_file_mode;
use crate::offsets::to_size;
use ft_base::Memory;
use ft_looks::{Look, text_parts};
use ft_path::{Errno, FilePath, JudgedPath};
use ft_posix::{CallError, Edit, FileInfo, OpenFlags, PlannedReply};
use ft_tree::{Attributes, Entry, Form, HintedFile, Kind, Node, PathEnd};
use std::alloc::Global;

impl<'a, 'b, 't, 'c> Draft<'a, 'b, 't, 'c> {
    /// Plans to open a file, and to make it if that is requested. A new file and the descriptor get
    /// the stamp as their number.
    #[inline(never)]
    pub(crate) fn open(
        &mut self,
        path: &FilePath,
        flags: OpenFlags,
    ) -> Result<PlannedReply, CallError>
        requires { self.old.edits.now ≡ [] }
        ensures plans { Plans self.old (open_parts self.old.stamp flags (parts_of path.now))
            self.new result }
        ensures same { IsSameDraft self.old self.new }
    {
        let follow = !flags.is_exclusive();
        let spot = find_spot(self.alloc, self.look, follow, path, open_fault(flags))?;
        self.open_spot(flags, spot)
    }

    /// Plans to open the file at the end of a walk.
    fn open_spot(&mut self, flags: OpenFlags, spot: PathEnd) -> Result<PlannedReply, CallError>
        requires { self.old.edits.now ≡ [] }
        ensures plans { Plans self.old (Answer (open_spot self.old.stamp flags spot))
            self.new result }
        ensures same { IsSameDraft self.old self.new }
    {
        let PathEnd::Named { entry, node, slash } = spot else {
            if flags.is_exclusive() {
                return Err(CallError::Errno(Errno::EEXIST));
            }
            return Err(CallError::Errno(Errno::EISDIR));
        };
        match node {
            None => self.open_missing(flags, slash, entry),
            Some(_) if flags.is_exclusive() => Err(CallError::Errno(Errno::EEXIST)),
            Some(node) => self.open_node(flags, node),
        }
    }

    /// Plans to open a missing file. If that is requested, it is made, empty and with the given
    /// mode.
    fn open_missing(
        &mut self,
        flags: OpenFlags,
        slash: bool,
        entry: Entry,
    ) -> Result<PlannedReply, CallError>
        requires { self.old.edits.now ≡ [] }
        ensures plans { Plans self.old
            (Answer (open_spot self.old.stamp flags (Named entry None slash)))
            self.new result }
        ensures same { IsSameDraft self.old self.new }
    {
        if !flags.create || slash {
            return Err(CallError::Errno(Errno::ENOENT));
        }
        self.edits.push(Edit::Links {
            file: self.stamp,
            to: 1,
        })?;
        self.edits.push(Edit::Resize {
            file: HintedFile::new(self.stamp),
            size: 0,
        })?;
        self.edits.push(Edit::Open {
            fd: self.stamp,
            to: Some(flags.description(self.stamp)),
        })?;
        self.edits.push(Edit::Entry {
            entry,
            to: Some(Node::File(Form::Regular, self.stamp)),
        })?;
        set_file_mode(self.alloc, self.edits, self.stamp, flags.mode)?;
        Ok(PlannedReply::Number(self.stamp))
    }

    /// Plans to open what an entry leads to.
    fn open_node(&mut self, flags: OpenFlags, node: Node) -> Result<PlannedReply, CallError>
        requires { self.old.edits.now ≡ [] }
        ensures plans { Plans self.old (Answer (open_node self.old.stamp flags node))
            self.new result }
        ensures same { IsSameDraft self.old self.new }
    {
        let file = match node {
            Node::File(Form::Regular, file) => file,
            Node::File(Form::Link, _) => return Err(CallError::Errno(Errno::ELOOP)),
            Node::Dir(_) => return Err(CallError::Errno(Errno::EISDIR)),
        };
        self.edits.push(Edit::Open {
            fd: self.stamp,
            to: Some(flags.description(file)),
        })?;
        if !flags.trunc {
            return Ok(PlannedReply::Number(self.stamp));
        }
        self.edits.push(Edit::Resize {
            file: self.look.hinted(file),
            size: 0,
        })?;
        Ok(PlannedReply::Number(self.stamp))
    }

    /// Plans to cut a file to a length, or to add zeros up to it.
    #[inline(never)]
    pub(crate) fn truncate(
        &mut self,
        length: i64,
        path: &FilePath,
    ) -> Result<PlannedReply, CallError>
        requires { self.old.edits.now ≡ [] }
        ensures plans { Plans self.old
            (truncate_parts self.old.look.now.cells.limits length (parts_of path.now))
            self.new result }
        ensures same { IsSameDraft self.old self.new }
    {
        let parts = text_parts(path)?;
        let size = to_size(self.look.limits(), length)?;
        self.truncate_to(size, &parts)
    }

    /// Plans to cut the file to which a path leads.
    fn truncate_to(&mut self, size: u64, parts: &JudgedPath<'_>) -> Result<PlannedReply, CallError>
        requires size { size ≤ LARGEST_SIZE }
        requires none { self.old.edits.now ≡ [] }
        ensures plans { Plans self.old (from_parts true (Ok parts.now) (truncate_spot size))
            self.new result }
        ensures same { IsSameDraft self.old self.new }
    {
        let spot = self.look.walk(self.alloc, true, parts)?;
        self.truncate_spot(size, spot)
    }

    /// Plans to cut the file at the end of a walk.
    fn truncate_spot(&mut self, size: u64, spot: PathEnd) -> Result<PlannedReply, CallError>
        requires size { size ≤ LARGEST_SIZE }
        requires none { self.old.edits.now ≡ [] }
        ensures plans { Plans self.old (truncate_spot size spot) self.new result }
        ensures same { IsSameDraft self.old self.new }
    {
        match spot {
            PathEnd::Named { node: None, .. } => Err(CallError::Errno(Errno::ENOENT)),
            PathEnd::Named {
                node: Some(Node::File(Form::Regular, file)),
                ..
            } => self.cut_file(file, size),
            PathEnd::Named {
                node: Some(Node::File(Form::Link, _)),
                ..
            } => Err(CallError::Errno(Errno::ELOOP)),
            _ => Err(CallError::Errno(Errno::EISDIR)),
        }
    }

    /// Plans to cut a file to a size, or to add zeros up to it.
    pub(crate) fn cut_file(&mut self, file: u64, size: u64) -> Result<PlannedReply, CallError>
        requires size { size ≤ LARGEST_SIZE }
        requires none { self.old.edits.now ≡ [] }
        ensures plans { Plans self.old (cut_file file size) self.new result }
        ensures same { IsSameDraft self.old self.new }
    {
        self.look.size(file)?;
        self.edits.push(Edit::Resize {
            file: self.look.hinted(file),
            size,
        })?;
        Ok(PlannedReply::Done)
    }
}

/// Returns the fault of the flags with which a file is to be opened, if there is one.
fn open_fault(flags: OpenFlags) -> Option<Errno>
    ensures { result ≡ open_fault flags }
{
    if flags.trunc && !flags.access.can_write() {
        return Some(Errno::EINVAL);
    }
    mode_fault(flags.mode)
}

/// Returns the planned reply about what a path leads to, through a last symbolic link if that is to
/// be followed.
#[inline(never)]
pub(crate) fn stat(
    alloc: Global,
    look: &mut Look<'_>,
    follow: bool,
    path: &FilePath,
) -> Result<PlannedReply, CallError>
    ensures { Computes look.old (from_parts follow (parts_of path.now) stat_spot) look.new
        (intended [] result) }
{
    let parts = text_parts(path)?;
    let spot = look.walk(alloc, follow, &parts)?;
    stat_spot(look, spot)
}

/// Returns the planned reply about the end of a walk.
fn stat_spot(look: &mut Look<'_>, spot: PathEnd) -> Result<PlannedReply, CallError>
    ensures { Computes look.old (stat_spot spot) look.new (intended [] result) }
{
    match spot {
        PathEnd::Named { node: None, .. } => Err(CallError::Errno(Errno::ENOENT)),
        PathEnd::Named {
            node: Some(Node::File(form, file)),
            ..
        } => file_info(look, form, file),
        PathEnd::Named {
            node: Some(Node::Dir(number)),
            ..
        }
        | PathEnd::Itself(number) => dir_info(look, number),
    }
}

/// Returns the planned reply about a directory.
fn dir_info(look: &mut Look<'_>, dir: u64) -> Result<PlannedReply, CallError>
    ensures { Computes look.old (dir_info dir) look.new (intended [] result) }
{
    let attributes = look.dir_attributes(dir)?;
    Ok(PlannedReply::Info(FileInfo {
        kind: Kind::Dir,
        number: dir,
        links: 1,
        size: 0,
        attributes,
        time: None,
    }))
}

/// Returns the planned reply about a file or a symbolic link.
pub(crate) fn file_info(
    look: &mut Look<'_>,
    form: Form,
    file: u64,
) -> Result<PlannedReply, CallError>
    ensures { Computes look.old (file_info form file) look.new (intended [] result) }
{
    let links = look.links(file)?;
    let (size, time) = look.size_and_time(file)?;
    let attributes = attributes_at(look, form, file)?;
    Ok(PlannedReply::Info(FileInfo {
        kind: Node::File(form, file).kind(),
        number: file,
        links,
        size,
        attributes,
        time,
    }))
}

/// Returns the stored attributes of a file. A symbolic link has none of its own.
fn attributes_at(look: &mut Look<'_>, form: Form, file: u64) -> Result<Option<Attributes>, Memory>
    ensures { Observes look.old (attributes_at form file) look.new result }
{
    match form {
        Form::Regular => look.file_attributes(file),
        Form::Link => Ok(None),
    }
}
