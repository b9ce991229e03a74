// The plans of the calls on attributes and times.
ghost use Rattle.std.specs.Prelude.{true, false, ◌≡◌, [], Some};
ghost use Rattle.ft_path.specs.FilePath.{parts_of};
ghost use Rattle.ft_posix.specs.Outcomes.{from_parts, from_judged};
ghost use Rattle.ft_posix.specs.Attributes.{mode_fault, time_fault, changed, change_dir, change_file, change_spot, chmod_spot, chown_spot, chown_link, lchown_spot, fchmod_open, fchown_open, set_time, time_spot, utime_spot, lutime_spot, futime_open};
ghost use Rattle.ft_posix.specs.Descriptors.{with_open, any_open};
ghost use Rattle.ft_calls.specs.Drafts.{Plans, IsSameDraft};
ghost use Rattle.ft_calls.specs.Changes.{made, done_unless};

use crate::draft::Draft;
use crate::judging::{find_spot, mode_fault, time_fault};
use crate::purpose::{Purpose, open_for};
use ft_path::{Errno, FilePath};
use ft_posix::{CallError, Edit, PlannedReply};
use ft_tree::{Attributes, Form, Kind, Node, OpenFile, PathEnd, Rare, Timestamp};

/// A change of attributes.
#[derive(Clone, Copy)]
pub(crate) enum Change {
    /// The mode.
    Mode(u16),
    /// The owner and the group. One that is not given stays.
    Owners {
        owner: Option<u32>,
        group: Option<u32>,
    },
}

impl Change {
    /// Returns what is stored of the attributes of a directory or file after the change.
    pub(crate) fn changed(self, kind: Kind, was: Option<Attributes>) -> Option<Attributes>
        ensures { result ≡ changed kind (made self) was }
    {
        let was = was.unwrap_or(Attributes::of(kind));
        self.made(was).kept(kind)
    }

    /// Returns the changed attributes.
    fn made(self, was: Attributes) -> Attributes
        ensures { result ≡ made self was }
    {
        match self {
            Change::Mode(mode) => Attributes {
                mode,
                owner: was.owner,
                group: was.group,
            },
            Change::Owners { owner, group } => Attributes {
                mode: was.mode,
                owner: owner.unwrap_or(was.owner),
                group: group.unwrap_or(was.group),
            },
        }
    }
}

impl<'a, 'b, 't, 'c> Draft<'a, 'b, 't, 'c> {
    /// Plans to set the mode of a directory or a file.
    #[inline(never)]
    pub(crate) fn chmod(&mut self, mode: u16, path: &FilePath) -> Result<PlannedReply, CallError>
        requires { self.old.edits.now ≡ [] }
        ensures plans { Plans self.old
            (from_judged (mode_fault (Some mode)) true (parts_of path.now) (chmod_spot mode))
            self.new result }
        ensures same { IsSameDraft self.old self.new }
    {
        let fault = mode_fault(Some(mode));
        let spot = find_spot(self.alloc, self.look, true, path, fault)?;
        let change = Change::Mode(mode);
        self.change_spot(change, Some(Errno::ELOOP), spot)
    }

    /// Plans to set the mode of a descriptor's file.
    #[inline(never)]
    pub(crate) fn fchmod(&mut self, fd: u64, mode: u16) -> Result<PlannedReply, CallError>
        requires { self.old.edits.now ≡ [] }
        ensures plans { Plans self.old (with_open fd any_open (fchmod_open mode)) self.new result }
        ensures same { IsSameDraft self.old self.new }
    {
        let description = open_for(self.look, fd, Purpose::Any)?;
        self.fchmod_open(mode, description)
    }

    /// Plans to set the mode of a description's file.
    fn fchmod_open(&mut self, mode: u16, description: OpenFile) -> Result<PlannedReply, CallError>
        requires { self.old.edits.now ≡ [] }
        ensures plans { Plans self.old (fchmod_open mode description) self.new result }
        ensures same { IsSameDraft self.old self.new }
    {
        if let Some(errno) = mode_fault(Some(mode)) {
            return Err(CallError::Errno(errno));
        }
        self.change_file(Change::Mode(mode), description.file)
    }

    /// Plans to set the owner and the group of a directory or a file. One that is not given stays.
    #[inline(never)]
    pub(crate) fn chown(
        &mut self,
        owner: Option<u32>,
        group: Option<u32>,
        path: &FilePath,
    ) -> Result<PlannedReply, CallError>
        requires { self.old.edits.now ≡ [] }
        ensures plans { Plans self.old
            (from_parts true (parts_of path.now) (chown_spot owner group))
            self.new result }
        ensures same { IsSameDraft self.old self.new }
    {
        let spot = find_spot(self.alloc, self.look, true, path, None)?;
        let change = Change::Owners { owner, group };
        self.change_spot(change, Some(Errno::ELOOP), spot)
    }

    /// Plans to set the owner and the group of a directory or a file. Those of a last symbolic link
    /// stay 0.
    #[inline(never)]
    pub(crate) fn lchown(
        &mut self,
        owner: Option<u32>,
        group: Option<u32>,
        path: &FilePath,
    ) -> Result<PlannedReply, CallError>
        requires { self.old.edits.now ≡ [] }
        ensures plans { Plans self.old
            (from_parts false (parts_of path.now) (lchown_spot owner group))
            self.new result }
        ensures same { IsSameDraft self.old self.new }
    {
        let spot = find_spot(self.alloc, self.look, false, path, None)?;
        let change = Change::Owners { owner, group };
        self.change_spot(change, link_fault(owner, group), spot)
    }

    /// Plans to set the owner and the group of a descriptor's file. One that is not given stays.
    #[inline(never)]
    pub(crate) fn fchown(
        &mut self,
        fd: u64,
        owner: Option<u32>,
        group: Option<u32>,
    ) -> Result<PlannedReply, CallError>
        requires { self.old.edits.now ≡ [] }
        ensures plans { Plans self.old (with_open fd any_open (fchown_open owner group))
            self.new result }
        ensures same { IsSameDraft self.old self.new }
    {
        let description = open_for(self.look, fd, Purpose::Any)?;
        let change = Change::Owners { owner, group };
        self.change_file(change, description.file)
    }

    /// Plans to change the attributes at the end of a walk. A symbolic link has none that could be
    /// changed: there the call returns `Done`, or fails with the given fault.
    fn change_spot(
        &mut self,
        change: Change,
        link_fault: Option<Errno>,
        spot: PathEnd,
    ) -> Result<PlannedReply, CallError>
        requires { self.old.edits.now ≡ [] }
        ensures plans { Plans self.old (change_spot (made change) (done_unless link_fault) spot)
            self.new result }
        ensures same { IsSameDraft self.old self.new }
    {
        match spot {
            PathEnd::Named { node: None, .. } => Err(CallError::Errno(Errno::ENOENT)),
            PathEnd::Named {
                node: Some(Node::Dir(dir)),
                ..
            }
            | PathEnd::Itself(dir) => self.change_dir(change, dir),
            PathEnd::Named {
                node: Some(Node::File(Form::Regular, file)),
                ..
            } => self.change_file(change, file),
            PathEnd::Named {
                node: Some(Node::File(Form::Link, _)),
                ..
            } => match link_fault {
                None => Ok(PlannedReply::Done),
                Some(errno) => Err(CallError::Errno(errno)),
            },
        }
    }

    /// Plans to change the attributes of a directory.
    fn change_dir(&mut self, change: Change, dir: u64) -> Result<PlannedReply, CallError>
        requires { self.old.edits.now ≡ [] }
        ensures plans { Plans self.old (change_dir (made change) dir) self.new result }
        ensures same { IsSameDraft self.old self.new }
    {
        let was = self.look.dir_attributes(dir)?;
        let to = Rare::new(self.alloc, change.changed(Kind::Dir, was))?;
        self.edits.push(Edit::DirAttributes { dir, to })?;
        Ok(PlannedReply::Done)
    }

    /// Plans to change the attributes of a file.
    fn change_file(&mut self, change: Change, file: u64) -> Result<PlannedReply, CallError>
        requires { self.old.edits.now ≡ [] }
        ensures plans { Plans self.old (change_file (made change) file) self.new result }
        ensures same { IsSameDraft self.old self.new }
    {
        let was = self.look.file_attributes(file)?;
        let to = Rare::new(self.alloc, change.changed(Kind::File, was))?;
        self.edits.push(Edit::FileAttributes {
            file: self.look.hinted(file),
            to,
        })?;
        Ok(PlannedReply::Done)
    }

    /// Plans to set the time of a file's bytes.
    #[inline(never)]
    pub(crate) fn utime(
        &mut self,
        time: Timestamp,
        path: &FilePath,
    ) -> Result<PlannedReply, CallError>
        requires { self.old.edits.now ≡ [] }
        ensures plans { Plans self.old
            (from_judged (time_fault time) true (parts_of path.now) (utime_spot time))
            self.new result }
        ensures same { IsSameDraft self.old self.new }
    {
        let spot = find_spot(self.alloc, self.look, true, path, time_fault(time))?;
        self.time_spot(Errno::ELOOP, time, spot)
    }

    /// Plans to set the time of a file's bytes. Fails at a last symbolic link.
    #[inline(never)]
    pub(crate) fn lutime(
        &mut self,
        time: Timestamp,
        path: &FilePath,
    ) -> Result<PlannedReply, CallError>
        requires { self.old.edits.now ≡ [] }
        ensures plans { Plans self.old
            (from_judged (time_fault time) false (parts_of path.now) (lutime_spot time))
            self.new result }
        ensures same { IsSameDraft self.old self.new }
    {
        let spot = find_spot(self.alloc, self.look, false, path, time_fault(time))?;
        self.time_spot(Errno::EINVAL, time, spot)
    }

    /// Plans to set the time of the bytes of a descriptor's file.
    #[inline(never)]
    pub(crate) fn futime(&mut self, fd: u64, time: Timestamp) -> Result<PlannedReply, CallError>
        requires { self.old.edits.now ≡ [] }
        ensures plans { Plans self.old (with_open fd any_open (futime_open time)) self.new result }
        ensures same { IsSameDraft self.old self.new }
    {
        let description = open_for(self.look, fd, Purpose::Any)?;
        self.futime_open(time, description)
    }

    /// Plans to set the time of the bytes of a description's file.
    fn futime_open(
        &mut self,
        time: Timestamp,
        description: OpenFile,
    ) -> Result<PlannedReply, CallError>
        requires { self.old.edits.now ≡ [] }
        ensures plans { Plans self.old (futime_open time description) self.new result }
        ensures same { IsSameDraft self.old self.new }
    {
        if let Some(errno) = time_fault(time) {
            return Err(CallError::Errno(errno));
        }
        self.set_time(time, description.file)
    }

    /// Plans to set the time at the end of a walk. Only a file has a time. A symbolic link has the
    /// given fault.
    fn time_spot(
        &mut self,
        link_fault: Errno,
        time: Timestamp,
        spot: PathEnd,
    ) -> Result<PlannedReply, CallError>
        requires { self.old.edits.now ≡ [] }
        ensures plans { Plans self.old (time_spot link_fault time spot) self.new result }
        ensures same { IsSameDraft self.old self.new }
    {
        match spot {
            PathEnd::Named { node: None, .. } => Err(CallError::Errno(Errno::ENOENT)),
            PathEnd::Named {
                node: Some(Node::File(Form::Regular, file)),
                ..
            } => self.set_time(time, file),
            PathEnd::Named {
                node: Some(Node::File(Form::Link, _)),
                ..
            } => Err(CallError::Errno(link_fault)),
            _ => Err(CallError::Errno(Errno::EINVAL)),
        }
    }

    /// Plans to set the time of a file.
    fn set_time(&mut self, time: Timestamp, file: u64) -> Result<PlannedReply, CallError>
        requires { self.old.edits.now ≡ [] }
        ensures plans { Plans self.old (set_time time file) self.new result }
        ensures same { IsSameDraft self.old self.new }
    {
        self.look.size(file)?;
        self.edits.push(Edit::Time {
            file: self.look.hinted(file),
            to: Rare::new(self.alloc, Some(time))?,
        })?;
        Ok(PlannedReply::Done)
    }
}

/// Returns the fault of the owner and the group that a symbolic link would get, if there is one.
fn link_fault(owner: Option<u32>, group: Option<u32>) -> Option<Errno>
    ensures { done_unless result ≡ chown_link owner group }
{
    if owner.unwrap_or(0) == 0 && group.unwrap_or(0) == 0 {
        return None;
    }
    Some(Errno::EINVAL)
}
