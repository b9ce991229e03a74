// A script as a target.
ghost use Rattle.std.specs.Prelude.{◌≡◌, ◌⊎◌, ◌<◌, suc, IfErr, IfOk, IfSome, IsTrue, OnOk};
ghost use Rattle.std.specs.Option.{option_to_list};
ghost use Rattle.ft_load.specs.Spellings.{PathFits, below, top_path};
ghost use Rattle.ft_load.specs.Scripts.{CallFits, FailsToSay, FailsToWriteCall, FailsToWriteCalls, IsBadPath, IsFull, IsWithinCalls, Says, WritesCall, WritesCalls, chown_of, fchown_of, futime_of, has_owners, has_top_mode, has_top_owners, said_mode, top_chmod, top_chown, top_mkdir};

use crate::spelling::{CallLine, Form, Spelling};
use ft_cells::{AccessMode, Attributes, Kind, Timestamp};
use ft_copy::{CopyFault, Target};
use ft_needs::NeedsLine;
use ft_path::{FilePath, LONGEST_PATH, PathFault};
use ft_posix::{Call, OpenFlags};
use ft_script::write_out;
use std::alloc::Global;
use std::io::Write;

/// A script of one transaction, which is written as its requests come in.
#[derive(Drop)]
pub(crate) struct Script<'a, W> {
    pub(crate) alloc: Global,
    pub(crate) form: Form<'a>,
    pub(crate) writer: W,
    // the stamp of the next call, if the core is new
    pub(crate) next: u64,
    // the descriptor of the open file then
    pub(crate) fd: u64,
}

impl<W: Write> Script<'_, W> {
    /// Returns the stamp after that of the next call. More calls than the limits allow are refused.
    fn stamp_after(&self) -> Result<u64, CopyFault>
        ensures ok { IfOk result (λ next. (next ≡ suc self.now.next)
            × IsWithinCalls self.now.form next) }
        ensures err { IfErr result
            (λ trouble. (trouble ≡ CopyFault.Full) × IsFull self.now.form self.now.next) }
    {
        let Some(next) = self.next.checked_add(1) else {
            return Err(CopyFault::Full);
        };
        if next.saturating_sub(2) > self.form.limits.calls {
            return Err(CopyFault::Full);
        }
        Ok(next)
    }

    /// Writes a call. More calls than the limits allow are refused.
    fn ask(&mut self, call: &Call) -> Result<(), CopyFault>
        ensures call { OnOk result (WritesCall W.contents call.now self.old self.new) }
        ensures err { IfErr result
            (λ trouble. FailsToWriteCall W.contents trouble call.now self.old self.new) }
        ensures fd { self.new.fd ≡ self.old.fd }
        ensures form { self.new.form ≡ self.old.form }
    {
        let next = self.stamp_after()?;
        let spelling = self.form.spelling;
        let line = format!(in self.alloc; "{}", CallLine { spelling, call })?;
        self.say(line.as_str())?;
        self.next = next;
        Ok(())
    }

    /// Writes a call, if there is one.
    fn ask_if(&mut self, call: Option<Call>) -> Result<(), CopyFault>
        ensures call { OnOk result
            (WritesCalls W.contents (option_to_list call) self.old self.new) }
        ensures err { IfErr result (λ trouble. FailsToWriteCalls W.contents trouble
            (option_to_list call) self.old self.new) }
        ensures fd { self.new.fd ≡ self.old.fd }
        ensures form { self.new.form ≡ self.old.form }
    {
        match call {
            Some(call) => self.ask(&call),
            None => Ok(()),
        }
    }

    /// Writes text.
    fn say(&mut self, text: &str) -> Result<(), CopyFault>
        ensures text { OnOk result
            (Says text.now (W.contents self.old.writer) (W.contents self.new.writer)) }
        ensures err { IfErr result
            (λ trouble. FailsToSay trouble text.now (W.contents self.old.writer)
            (W.contents self.new.writer)) }
        ensures next { self.new.next ≡ self.old.next }
        ensures fd { self.new.fd ≡ self.old.fd }
        ensures form { self.new.form ≡ self.old.form }
    {
        match write_out(&mut self.writer, text.as_bytes()) {
            Ok(()) => Ok(()),
            Err(_) => Err(CopyFault::Write),
        }
    }
}

impl<W: Write> Target for Script<'_, W> {
    ghost use Rattle.std.specs.Prelude.{◌≡◌};
    ghost use Rattle.ft_load.specs.Scripts.{BreaksOff, Scripts};

    ghost does = { λ old asked new. Scripts old.form asked old.next old.fd (W.contents old.writer)
        new.next new.fd (W.contents new.writer) × (new.form ≡ old.form) };

    ghost fails = { λ old asked trouble new. BreaksOff old.form trouble asked old.next old.fd
        (W.contents old.writer) (W.contents new.writer) };

    fn start(&mut self) -> Result<(), CopyFault> {
        let spelling = self.form.spelling;
        let needs = NeedsLine(&self.form.limits);
        let front = format!(in self.alloc; "{needs}{}", spelling.begin_line())?;
        let Some(call) = top_mkdir(self.alloc, spelling)? else {
            return self.say(front.as_str());
        };
        let next = self.stamp_after()?;
        let call = &call;
        let lines = format!(in self.alloc; "{front}{}", CallLine { spelling, call })?;
        self.say(lines.as_str())?;
        self.next = next;
        Ok(())
    }

    fn folder(&mut self, path: &[u8], attributes: Attributes) -> Result<(), CopyFault> {
        let call = Call::Mkdir {
            path: path_below(self.alloc, self.form.spelling, path)?,
            mode: said_mode(Kind::Dir, attributes.mode),
        };
        let chown = chown_of(self.alloc, self.form.spelling, path, attributes)?;
        self.ask(&call)?;
        self.ask_if(chown)
    }

    fn open(&mut self, path: &[u8], attributes: Attributes) -> Result<(), CopyFault> {
        let call = Call::Open {
            path: path_below(self.alloc, self.form.spelling, path)?,
            flags: OpenFlags {
                access: AccessMode::WriteOnly,
                create: true,
                excl: true,
                trunc: false,
                append: false,
                mode: said_mode(Kind::File, attributes.mode),
            },
        };
        let fd = self.next;
        self.ask(&call)?;
        self.fd = fd;
        self.ask_if(fchown_of(fd, attributes))
    }

    fn piece(&mut self, bytes: &[u8]) -> Result<(), CopyFault> {
        let bytes = Vec::from_slice(self.alloc, bytes)?;
        let call = Call::Write {
            fd: self.fd,
            bytes: bytes.into(),
        };
        self.ask(&call)
    }

    fn close(&mut self, time: Option<Timestamp>) -> Result<(), CopyFault> {
        let fd = self.fd;
        self.ask_if(futime_of(fd, time))?;
        self.ask(&Call::Close { fd })
    }

    fn link(&mut self, first: &[u8], path: &[u8]) -> Result<(), CopyFault> {
        let call = Call::Link {
            old: path_below(self.alloc, self.form.spelling, first)?,
            new: path_below(self.alloc, self.form.spelling, path)?,
        };
        self.ask(&call)
    }

    fn symlink(&mut self, to: &[u8], path: &[u8]) -> Result<(), CopyFault> {
        let call = Call::Symlink {
            target: path_of(self.alloc, to)?,
            path: path_below(self.alloc, self.form.spelling, path)?,
        };
        self.ask(&call)
    }

    fn finish(&mut self, attributes: Attributes) -> Result<(), CopyFault> {
        let spelling = self.form.spelling;
        let chmod = top_chmod(self.alloc, spelling, attributes)?;
        let chown = top_chown(self.alloc, spelling, attributes)?;
        self.ask_if(chmod)?;
        self.ask_if(chown)?;
        self.say(spelling.commit_line())
    }

    fn give_up(&mut self) {}
}

/// Returns the path that has these bytes. A path that is too long is refused.
fn path_of(alloc: Global, bytes: &[u8]) -> Result<FilePath, CopyFault>
    ensures ok { IfOk result (λ path. path ≡ bytes.now) }
    ensures fits { OnOk result (PathFits bytes.now) }
    ensures err { IfErr result
        (λ trouble. (trouble ≡ CopyFault.Memory) ⊎ IsBadPath trouble bytes.now) }
{
    if bytes.len() > LONGEST_PATH {
        return Err(CopyFault::PathTooLong);
    }
    match FilePath::new(alloc, bytes) {
        Ok(path) => Ok(path),
        Err(PathFault::Memory) => Err(CopyFault::Memory),
        Err(PathFault::NulByte) => Err(CopyFault::BadName),
    }
}

/// Returns the path in the tree of what has this path in the source. A path that is too long is
/// refused.
fn path_below(alloc: Global, spelling: Spelling<'_>, path: &[u8]) -> Result<FilePath, CopyFault>
    ensures ok { IfOk result (λ whole. whole ≡ below spelling.entry path.now) }
    ensures fits { OnOk result (PathFits (below spelling.entry path.now)) }
    ensures err { IfErr result (λ trouble. (trouble ≡ CopyFault.Memory)
        ⊎ IsBadPath trouble (below spelling.entry path.now)) }
{
    let mut whole = Vec::from_slice(alloc, spelling.top)?;
    whole.extend_from_slice(path)?;
    path_of(alloc, whole.as_slice())
}

/// Returns the mode of what is made, if it must be set: it is not that which a directory or file
/// gets anyway.
pub(crate) fn said_mode(kind: Kind, mode: u16) -> Option<u16>
    ensures { result ≡ said_mode kind mode }
{
    if mode == Attributes::of(kind).mode {
        None
    } else {
        Some(mode)
    }
}

/// Returns whether owner and group must be written.
pub(crate) fn has_owners(attributes: Attributes) -> bool
    ensures { result ≡ has_owners attributes }
{
    attributes.owner != 0 || attributes.group != 0
}

/// Returns the call that sets the owner and the group of what has this path in the source, if they
/// must be set.
fn chown_of(
    alloc: Global,
    spelling: Spelling<'_>,
    path: &[u8],
    attributes: Attributes,
) -> Result<Option<Call>, CopyFault>
    ensures ok { IfOk result (λ call. call ≡ chown_of (below spelling.entry path.now) attributes) }
    ensures err { IfErr result (λ trouble. (trouble ≡ CopyFault.Memory)
        ⊎ IsBadPath trouble (below spelling.entry path.now)) }
{
    if !has_owners(attributes) {
        return Ok(None);
    }
    Ok(Some(Call::Chown {
        owner: Some(attributes.owner),
        group: Some(attributes.group),
        path: path_below(alloc, spelling, path)?,
    }))
}

/// Returns the call that sets the owner and the group of the open file, if they must be set.
fn fchown_of(fd: u64, attributes: Attributes) -> Option<Call>
    ensures { result ≡ fchown_of fd attributes }
{
    if !has_owners(attributes) {
        return None;
    }
    Some(Call::Fchown {
        fd,
        owner: Some(attributes.owner),
        group: Some(attributes.group),
    })
}

/// Returns the call that sets the time of the bytes of the open file, if there is one.
fn futime_of(fd: u64, time: Option<Timestamp>) -> Option<Call>
    ensures { result ≡ futime_of fd time }
{
    let time = time?;
    Some(Call::Futime { fd, time })
}

/// Returns the call that makes the directory that holds everything, unless it is the root.
fn top_mkdir(alloc: Global, spelling: Spelling<'_>) -> Result<Option<Call>, CopyFault>
    ensures ok { IfOk result (λ call. call ≡ top_mkdir spelling.entry) }
    ensures fits { OnOk result (IfSome (top_mkdir spelling.entry) CallFits) }
    ensures err { IfErr result
        (λ trouble. (trouble ≡ CopyFault.Memory) ⊎ IsBadPath trouble (top_path spelling.entry)) }
{
    if spelling.top.is_empty() {
        return Ok(None);
    }
    Ok(Some(Call::Mkdir {
        path: path_of(alloc, spelling.top)?,
        mode: None,
    }))
}

/// Returns whether the mode of the directory that holds everything must be written.
pub(crate) fn has_top_mode(spelling: Spelling<'_>, attributes: Attributes) -> bool
    ensures { result ≡ has_top_mode spelling.entry attributes }
{
    !spelling.is_top_new() || said_mode(Kind::Dir, attributes.mode).is_some()
}

/// Returns whether its owner and its group must be written.
pub(crate) fn has_top_owners(spelling: Spelling<'_>, attributes: Attributes) -> bool
    ensures { result ≡ has_top_owners spelling.entry attributes }
{
    !spelling.is_top_new() || has_owners(attributes)
}

/// Returns the call that sets the mode of this directory, if it must be set.
fn top_chmod(
    alloc: Global,
    spelling: Spelling<'_>,
    attributes: Attributes,
) -> Result<Option<Call>, CopyFault>
    ensures ok { IfOk result (λ call. call ≡ top_chmod spelling.entry attributes) }
    ensures fits { OnOk result (IfSome (top_chmod spelling.entry attributes) CallFits) }
    ensures err { IfErr result
        (λ trouble. (trouble ≡ CopyFault.Memory) ⊎ IsBadPath trouble (top_path spelling.entry)) }
{
    if !has_top_mode(spelling, attributes) {
        return Ok(None);
    }
    Ok(Some(Call::Chmod {
        mode: attributes.mode,
        path: path_of(alloc, spelling.top_path())?,
    }))
}

/// Returns the call that sets its owner and its group, if they must be set.
fn top_chown(
    alloc: Global,
    spelling: Spelling<'_>,
    attributes: Attributes,
) -> Result<Option<Call>, CopyFault>
    ensures ok { IfOk result (λ call. call ≡ top_chown spelling.entry attributes) }
    ensures fits { OnOk result (IfSome (top_chown spelling.entry attributes) CallFits) }
    ensures err { IfErr result
        (λ trouble. (trouble ≡ CopyFault.Memory) ⊎ IsBadPath trouble (top_path spelling.entry)) }
{
    if !has_top_owners(spelling, attributes) {
        return Ok(None);
    }
    Ok(Some(Call::Chown {
        owner: Some(attributes.owner),
        group: Some(attributes.group),
        path: path_of(alloc, spelling.top_path())?,
    }))
}
