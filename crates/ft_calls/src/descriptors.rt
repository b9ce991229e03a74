// The plans of the calls on descriptors.
ghost use Rattle.std.specs.Prelude.{◌≡◌, ◌<◌, ◌≤◌, ◌+◌, [], length};
ghost use Rattle.ft_body.specs.declared.TheConstants.{LARGEST_SIZE};
ghost use Rattle.ft_body.specs.Bytes.{fitting};
ghost use Rattle.ft_posix.specs.Descriptors.{with_open, any_open, is_readable, is_writable, at_offset, close_open, read_open, pread_at, pread_open, write_place, write_at, write_open, pwrite_at, pwrite_open, seek_from, seek_open, moved, sought, ftruncate_open, fstat_open};
ghost use Rattle.ft_cells.specs.Looks.{Answer};
ghost use Rattle.ft_posix.specs.Looking.{Observes};
ghost use Rattle.ft_posix.specs.Computes.{Computes};
ghost use Rattle.ft_posix.specs.Intended.{intended};
ghost use Rattle.ft_calls.specs.Drafts.{Plans, IsSameDraft};

use crate::draft::Draft;
use crate::files::file_info;
use crate::offsets::{not_negative, seek_place, to_size};
use crate::purpose::{Purpose, open_for};
use ft_base::Memory;
use ft_looks::Look;
use ft_path::Errno;
use ft_posix::{CallError, Edit, PlannedReply, Whence};
use ft_tree::{Form, OpenFile, TreeLimits};

impl<'a, 'b, 't, 'c> Draft<'a, 'b, 't, 'c> {
    /// Plans to write at the offset, or with append at the end of the file. The offset becomes the
    /// end of the written bytes.
    #[inline(never)]
    pub(crate) fn write(&mut self, fd: u64, bytes: &'c [u8]) -> Result<PlannedReply, CallError>
        requires { self.old.edits.now ≡ [] }
        ensures plans { Plans self.old
            (with_open fd is_writable (write_open self.old.look.now.cells.limits fd bytes.now))
            self.new result }
        ensures same { IsSameDraft self.old self.new }
    {
        let limits = self.look.limits();
        let description = open_for(self.look, fd, Purpose::Writing)?;
        self.write_open(limits, fd, bytes, description)
    }

    /// Plans to write at the offset of a description, or with append at the end of its file.
    fn write_open(
        &mut self,
        limits: TreeLimits,
        fd: u64,
        bytes: &'c [u8],
        description: OpenFile,
    ) -> Result<PlannedReply, CallError>
        requires none { self.old.edits.now ≡ [] }
        requires size { limits.file_size ≤ LARGEST_SIZE }
        ensures plans { Plans self.old (write_open limits fd bytes.now description)
            self.new result }
        ensures same { IsSameDraft self.old self.new }
    {
        if bytes.is_empty() {
            return Ok(PlannedReply::Number(0));
        }
        let place = write_place(self.look, description)?;
        self.write_at(limits, fd, description, bytes, place)
    }

    /// Plans to write at a place, as many bytes as have room there.
    fn write_at(
        &mut self,
        limits: TreeLimits,
        fd: u64,
        description: OpenFile,
        bytes: &'c [u8],
        at: u64,
    ) -> Result<PlannedReply, CallError>
        requires none { self.old.edits.now ≡ [] }
        requires size { limits.file_size ≤ LARGEST_SIZE }
        ensures plans { Plans self.old (write_at limits fd description bytes.now at)
            self.new result }
        ensures same { IsSameDraft self.old self.new }
    {
        if at >= limits.file_size {
            return Err(CallError::Errno(Errno::EFBIG));
        }
        self.look.size(description.file)?;
        let file = self.look.hinted(description.file);
        let bytes = with_room(limits, bytes, at);
        let taken = bytes.len() as u64;
        self.edits.push(Edit::Overwrite { file, at, bytes })?;
        self.edits.push(Edit::Open {
            fd,
            to: Some(at_offset(description, at + taken)),
        })?;
        Ok(PlannedReply::Number(taken))
    }

    /// Plans to close a descriptor.
    #[inline(never)]
    pub(crate) fn close(&mut self, fd: u64) -> Result<PlannedReply, CallError>
        requires { self.old.edits.now ≡ [] }
        ensures plans { Plans self.old (with_open fd any_open (close_open fd)) self.new result }
        ensures same { IsSameDraft self.old self.new }
    {
        let description = open_for(self.look, fd, Purpose::Any)?;
        self.close_open(fd, description)
    }

    /// Plans to close an open descriptor. Looks at whether entries name its file.
    fn close_open(&mut self, fd: u64, description: OpenFile) -> Result<PlannedReply, CallError>
        requires { self.old.edits.now ≡ [] }
        ensures plans { Plans self.old (close_open fd description) self.new result }
        ensures same { IsSameDraft self.old self.new }
    {
        self.look.links(description.file)?;
        self.edits.push(Edit::Open { fd, to: None })?;
        Ok(PlannedReply::Done)
    }

    /// Plans to read at the offset, which moves by the count of the bytes.
    #[inline(never)]
    pub(crate) fn read(&mut self, fd: u64, len: u64) -> Result<PlannedReply, CallError>
        requires { self.old.edits.now ≡ [] }
        ensures plans { Plans self.old (with_open fd is_readable (read_open fd len))
            self.new result }
        ensures same { IsSameDraft self.old self.new }
    {
        let description = open_for(self.look, fd, Purpose::Reading)?;
        self.read_open(fd, len, description)
    }

    /// Plans to read at the offset of a description.
    fn read_open(
        &mut self,
        fd: u64,
        len: u64,
        description: OpenFile,
    ) -> Result<PlannedReply, CallError>
        requires { self.old.edits.now ≡ [] }
        ensures plans { Plans self.old (read_open fd len description) self.new result }
        ensures same { IsSameDraft self.old self.new }
    {
        let size = self.look.size(description.file)?;
        let read = size.saturating_sub(description.offset).min(len);
        let told = PlannedReply::BytesOf {
            file: self.look.hinted(description.file),
            at: description.offset,
            len,
        };
        self.edits.push(Edit::Open {
            fd,
            to: Some(at_offset(description, description.offset + read)),
        })?;
        Ok(told)
    }

    /// Plans to write at an offset. The offset of the description stays.
    #[inline(never)]
    pub(crate) fn pwrite(
        &mut self,
        fd: u64,
        offset: i64,
        bytes: &'c [u8],
    ) -> Result<PlannedReply, CallError>
        requires { self.old.edits.now ≡ [] }
        ensures plans { Plans self.old
            (with_open fd is_writable (pwrite_open self.old.look.now.cells.limits offset bytes.now))
            self.new result }
        ensures same { IsSameDraft self.old self.new }
    {
        let limits = self.look.limits();
        let description = open_for(self.look, fd, Purpose::Writing)?;
        self.pwrite_open(limits, offset, bytes, description)
    }

    /// Plans to write to a description's file at an offset that may be negative.
    fn pwrite_open(
        &mut self,
        limits: TreeLimits,
        offset: i64,
        bytes: &'c [u8],
        description: OpenFile,
    ) -> Result<PlannedReply, CallError>
        requires none { self.old.edits.now ≡ [] }
        requires size { limits.file_size ≤ LARGEST_SIZE }
        ensures plans { Plans self.old (pwrite_open limits offset bytes.now description)
            self.new result }
        ensures same { IsSameDraft self.old self.new }
    {
        let at = not_negative(offset)?;
        self.pwrite_at(limits, description, bytes, at)
    }

    /// Plans to write to a description's file at a place, as many bytes as have room there.
    fn pwrite_at(
        &mut self,
        limits: TreeLimits,
        description: OpenFile,
        bytes: &'c [u8],
        at: u64,
    ) -> Result<PlannedReply, CallError>
        requires none { self.old.edits.now ≡ [] }
        requires size { limits.file_size ≤ LARGEST_SIZE }
        ensures plans { Plans self.old (pwrite_at limits description bytes.now at) self.new result }
        ensures same { IsSameDraft self.old self.new }
    {
        if bytes.is_empty() {
            return Ok(PlannedReply::Number(0));
        }
        if at >= limits.file_size {
            return Err(CallError::Errno(Errno::EFBIG));
        }
        self.look.size(description.file)?;
        let file = self.look.hinted(description.file);
        let bytes = with_room(limits, bytes, at);
        let taken = bytes.len() as u64;
        self.edits.push(Edit::Overwrite { file, at, bytes })?;
        Ok(PlannedReply::Number(taken))
    }

    /// Plans to set the offset of a descriptor.
    #[inline(never)]
    pub(crate) fn lseek(
        &mut self,
        fd: u64,
        whence: Whence,
        offset: i64,
    ) -> Result<PlannedReply, CallError>
        requires { self.old.edits.now ≡ [] }
        ensures plans { Plans self.old (with_open fd any_open (seek_open fd whence offset))
            self.new result }
        ensures same { IsSameDraft self.old self.new }
    {
        let description = open_for(self.look, fd, Purpose::Any)?;
        self.seek_open(fd, whence, offset, description)
    }

    /// Plans to set the offset of a description.
    fn seek_open(
        &mut self,
        fd: u64,
        whence: Whence,
        offset: i64,
        description: OpenFile,
    ) -> Result<PlannedReply, CallError>
        requires { self.old.edits.now ≡ [] }
        ensures plans { Plans self.old (seek_open fd whence offset description) self.new result }
        ensures same { IsSameDraft self.old self.new }
    {
        let from = seek_from(self.look, whence, description)?;
        self.seek_to(fd, description, from, offset)
    }

    /// Plans to set the offset to a place after `from`, or before it if `offset` is negative.
    fn seek_to(
        &mut self,
        fd: u64,
        description: OpenFile,
        from: u64,
        offset: i64,
    ) -> Result<PlannedReply, CallError>
        requires { self.old.edits.now ≡ [] }
        ensures plans { Plans self.old (Answer (sought fd description (moved from offset)))
            self.new result }
        ensures same { IsSameDraft self.old self.new }
    {
        let at = seek_place(from, offset)?;
        self.edits.push(Edit::Open {
            fd,
            to: Some(at_offset(description, at)),
        })?;
        Ok(PlannedReply::Number(at))
    }

    /// Plans to cut a descriptor's file to a length, or to add zeros up to it.
    #[inline(never)]
    pub(crate) fn ftruncate(&mut self, fd: u64, length: i64) -> Result<PlannedReply, CallError>
        requires { self.old.edits.now ≡ [] }
        ensures plans { Plans self.old
            (with_open fd is_writable (ftruncate_open self.old.look.now.cells.limits length))
            self.new result }
        ensures same { IsSameDraft self.old self.new }
    {
        let limits = self.look.limits();
        let description = open_for(self.look, fd, Purpose::Writing)?;
        self.ftruncate_open(limits, length, description)
    }

    /// Plans to cut a description's file to a length, or to add zeros up to it.
    fn ftruncate_open(
        &mut self,
        limits: TreeLimits,
        length: i64,
        description: OpenFile,
    ) -> Result<PlannedReply, CallError>
        requires none { self.old.edits.now ≡ [] }
        requires size { limits.file_size ≤ LARGEST_SIZE }
        ensures plans { Plans self.old (ftruncate_open limits length description) self.new result }
        ensures same { IsSameDraft self.old self.new }
    {
        let size = to_size(limits, length)?;
        self.cut_file(description.file, size)
    }
}

/// Returns the place where bytes are written: the offset, or with append the end of the file.
fn write_place(look: &mut Look<'_>, description: OpenFile) -> Result<u64, Memory>
    ensures { Observes look.old (write_place description) look.new result }
{
    if description.append {
        return look.size(description.file);
    }
    Ok(description.offset)
}

/// Returns as many of the bytes as have room at a place.
fn with_room(limits: TreeLimits, bytes: &[u8], at: u64) -> &[u8]
    requires place { at < limits.file_size }
    requires size { limits.file_size ≤ LARGEST_SIZE }
    ensures bytes { result.now ≡ fitting limits.file_size bytes.now at }
    ensures all_fit { fitting LARGEST_SIZE result.now at ≡ result.now }
    ensures end { at + length result.now ≤ LARGEST_SIZE }
{
    let room = limits.file_size - at;
    &bytes[..room.min(bytes.len() as u64) as usize]
}

/// Returns a description with another offset.
fn at_offset(description: OpenFile, offset: u64) -> OpenFile
    ensures { result ≡ at_offset description offset }
{
    OpenFile {
        file: description.file,
        access: description.access,
        append: description.append,
        offset,
    }
}

/// Plans to read at an offset. The offset of the description stays.
#[inline(never)]
pub(crate) fn pread(
    look: &mut Look<'_>,
    fd: u64,
    offset: i64,
    len: u64,
) -> Result<PlannedReply, CallError>
    ensures { Computes look.old (with_open fd is_readable (pread_open offset len)) look.new
        (intended [] result) }
{
    let description = open_for(look, fd, Purpose::Reading)?;
    pread_open(look, offset, len, description)
}

/// Plans to read from a description's file at an offset that may be negative.
fn pread_open(
    look: &mut Look<'_>,
    offset: i64,
    len: u64,
    description: OpenFile,
) -> Result<PlannedReply, CallError>
    ensures { Computes look.old (pread_open offset len description) look.new (intended [] result) }
{
    let at = not_negative(offset)?;
    pread_at(look, len, description, at)
}

/// Plans to read from a description's file at a place.
fn pread_at(
    look: &mut Look<'_>,
    len: u64,
    description: OpenFile,
    at: u64,
) -> Result<PlannedReply, CallError>
    ensures { Computes look.old (pread_at len description at) look.new (intended [] result) }
{
    let file = description.file;
    look.size(file)?;
    Ok(PlannedReply::BytesOf {
        file: look.hinted(file),
        at,
        len,
    })
}

/// Returns the point from which an offset counts.
fn seek_from(look: &mut Look<'_>, whence: Whence, description: OpenFile) -> Result<u64, Memory>
    ensures { Observes look.old (seek_from whence description) look.new result }
{
    match whence {
        Whence::Set => Ok(0),
        Whence::Cur => Ok(description.offset),
        Whence::End => look.size(description.file),
    }
}

/// Returns the planned reply about what a descriptor has open.
#[inline(never)]
pub(crate) fn fstat(look: &mut Look<'_>, fd: u64) -> Result<PlannedReply, CallError>
    ensures { Computes look.old (with_open fd any_open fstat_open) look.new (intended [] result) }
{
    let description = open_for(look, fd, Purpose::Any)?;
    file_info(look, Form::Regular, description.file)
}
