// The accesses, the edits and the reply of a call, found in one pass.
ghost use Rattle.std.specs.Prelude.{◌≡◌, [], None, IfOk, OnOk};
ghost use Rattle.std.specs.Option.{option_copied};
ghost use Rattle.ft_cells.specs.Cells.{bytes_of};
ghost use Rattle.ft_tree.specs.Sound.{AreSoundCells};
ghost use Rattle.ft_posix.specs.Edits.{CanEditAll, Apart};
ghost use Rattle.ft_posix.specs.Stored.{outcome};
ghost use Rattle.ft_posix.specs.Accesses.{accesses_of};
ghost use Rattle.ft_tree.specs.Views.{view_of};
ghost use Rattle.ft_tree.specs.Fronts.{LeadsIfAny, entries_of};
ghost use Rattle.ft_posix.specs.Besides.{AreAlikeBut};
ghost use Rattle.ft_posix.specs.Looking.{noted};
ghost use Rattle.ft_posix.specs.Computes.{outcome_of};
ghost use Rattle.ft_calls.specs.Drafts.{Plans, IsSameDraft, steps_of, IsOutcome};

use crate::descriptors::{fstat, pread};
use crate::dirs::list;
use crate::draft::Draft;
use crate::files::stat;
use crate::symlinks::readlink;
use ft_base::Memory;
use ft_looks::Look;
use ft_posix::{Access, Call, CallError, Edits, Intent, PlannedReply};
use ft_tree::{Front, Tree};
use std::alloc::Global;
use std::mem;

/// A call that was looked at and is not made yet: its accesses and its intent.
#[derive(Drop)]
pub struct Prepared<'c> {
    pub accesses: Vec<Access>,
    pub intent: Intent<'c>,
}

/// Looks at everything that a call looks at, and returns its accesses and its intent. Changes
/// nothing. Out of memory is the only refusal.
pub fn prepare<'c>(
    alloc: Global,
    tree: &Tree,
    stamp: u64,
    call: &'c Call,
) -> Result<Prepared<'c>, Memory>
    requires fresh { bytes_of tree.now stamp ≡ [] }
    ensures accesses { IfOk result
        (λ call_made. call_made.accesses.items ≡ accesses_of tree.now stamp call.now) }
    ensures outcome { IfOk result
        (λ call_made. outcome_of tree.now call_made.intent ≡ outcome tree.now stamp call.now) }
    ensures places { AreSoundCells tree.now → IfOk result
        (λ call_made. CanEditAll tree.now call_made.intent.edits) }
    ensures apart { AreSoundCells tree.now → IfOk result
        (λ call_made. Apart call_made.intent.edits) }
{
    let mut edits = Edits::new(alloc);
    let Looked { accesses, told } = look_over(alloc, tree, stamp, call, &mut edits)?;
    let intent = Intent { told, edits };
    Ok(Prepared { accesses, intent })
}

/// Looks at everything that a call looks at, and returns its intent. Makes no list of its accesses,
/// and changes nothing. Out of memory is the only refusal.
pub fn intend<'c>(
    alloc: Global,
    tree: &Tree,
    stamp: u64,
    call: &'c Call,
) -> Result<Intent<'c>, Memory>
    requires { bytes_of tree.now stamp ≡ [] }
    ensures { IfOk result (λ intent. outcome_of tree.now intent ≡ outcome tree.now stamp call.now) }
{
    let mut look = Look::new(alloc, tree);
    let mut edits = Edits::new(alloc);
    let mut draft = Draft {
        alloc,
        stamp,
        look: &mut look,
        edits: &mut edits,
    };
    let told = draft.plan_or_fail(call)?;
    Ok(Intent { told, edits })
}

/// The accesses and the planned reply of a call that was looked at.
#[derive(Drop)]
pub struct Looked {
    pub accesses: Vec<Access>,
    pub told: PlannedReply,
}

/// Looks at everything that a call looks at, as `prepare` does, and puts its edits into the
/// caller's list. Changes nothing else. Out of memory is the only refusal.
pub fn look_over<'c>(
    alloc: Global,
    tree: &Tree,
    stamp: u64,
    call: &'c Call,
    edits: &mut Edits<'c>,
) -> Result<Looked, Memory>
    requires none { edits.old ≡ [] }
    requires fresh { bytes_of tree.now stamp ≡ [] }
    ensures accesses { IfOk result
        (λ looked. looked.accesses.items ≡ accesses_of tree.now stamp call.now) }
    ensures outcome { IfOk result
        (λ looked. IsOutcome tree.now stamp call.now looked.told edits.new) }
    ensures places { AreSoundCells tree.now → OnOk result (CanEditAll tree.now edits.new) }
    ensures apart { AreSoundCells tree.now → OnOk result (Apart edits.new) }
{
    look_behind(alloc, tree, None, stamp, call, edits)
}

/// Looks at everything that a call looks at, as `look_over` does, with a front that may be known. A
/// path that continues after the front is walked from the front's end. Reads of the entries on the
/// front's way may be missing among the accesses, and nothing else.
pub fn look_behind<'c>(
    alloc: Global,
    tree: &Tree,
    front: Option<&Front>,
    stamp: u64,
    call: &'c Call,
    edits: &mut Edits<'c>,
) -> Result<Looked, Memory>
    requires none { edits.old ≡ [] }
    requires fresh { bytes_of tree.now stamp ≡ [] }
    requires leads { LeadsIfAny (view_of tree.now) (option_copied front) }
    ensures accesses { IfOk result
        (λ looked. AreAlikeBut (entries_of (option_copied front.entry)) looked.accesses.items
        (accesses_of tree.now stamp call.now)) }
    ensures exact { option_copied front.entry ≡ None → IfOk result
        (λ looked. looked.accesses.items ≡ accesses_of tree.now stamp call.now) }
    ensures outcome { IfOk result
        (λ looked. IsOutcome tree.now stamp call.now looked.told edits.new) }
    ensures places { AreSoundCells tree.now → OnOk result (CanEditAll tree.now edits.new) }
    ensures apart { AreSoundCells tree.now → OnOk result (Apart edits.new) }
{
    let mut look = Look::behind(alloc, tree, front);
    let mut draft = Draft {
        alloc,
        stamp,
        look: &mut look,
        edits,
    };
    let told = draft.plan_or_fail(call)?;
    let accesses = look.into_accesses(edits)?;
    Ok(Looked { accesses, told })
}

impl<'a, 'b, 't, 'c> Draft<'a, 'b, 't, 'c> {
    /// Returns the planned reply of a call, and adds its edits. A fault is a reply like others,
    /// without edits.
    fn plan_or_fail(&mut self, call: &'c Call) -> Result<PlannedReply, Memory>
        requires none { self.old.edits.now ≡ [] }
        requires fresh { bytes_of self.old.look.now.cells self.old.stamp ≡ [] }
        ensures outcome { IfOk result
            (λ told. IsOutcome self.old.look.now.cells self.old.stamp call.now told
            self.new.edits.now) }
        ensures looks { OnOk result (self.new.look.now
            ≡ noted self.old.look.now (steps_of self.old call.now)) }
        ensures same { IsSameDraft self.old self.new }
    {
        match self.plan(call) {
            Ok(told) => Ok(told),
            Err(CallError::Errno(errno)) => {
                drop(mem::replace(self.edits, Edits::new(self.alloc)));
                Ok(PlannedReply::Failed(errno))
            }
            Err(CallError::Memory) => Err(Memory),
        }
    }

    /// Returns the planned reply of a call, and adds its edits. Fails with the fault of the call.
    fn plan(&mut self, call: &'c Call) -> Result<PlannedReply, CallError>
        requires none { self.old.edits.now ≡ [] }
        requires fresh { bytes_of self.old.look.now.cells self.old.stamp ≡ [] }
        ensures plans { Plans self.old (steps_of self.old call.now) self.new result }
        ensures same { IsSameDraft self.old self.new }
    {
        match call {
            Call::Mkdir { path, mode } => self.mkdir(*mode, path),
            Call::Rmdir { path } => self.rmdir(path),
            Call::List { path } => list(self.alloc, self.look, path),
            Call::Open { path, flags } => self.open(path, *flags),
            Call::Close { fd } => self.close(*fd),
            Call::Read { fd, len } => self.read(*fd, *len),
            Call::Write { fd, bytes } => self.write(*fd, bytes.as_slice()),
            Call::Pread { fd, off, len } => pread(self.look, *fd, *off, *len),
            Call::Pwrite { fd, off, bytes } => self.pwrite(*fd, *off, bytes.as_slice()),
            Call::Lseek { fd, whence, off } => self.lseek(*fd, *whence, *off),
            Call::Truncate { len, path } => self.truncate(*len, path),
            Call::Ftruncate { fd, len } => self.ftruncate(*fd, *len),
            Call::Stat { path } => stat(self.alloc, self.look, true, path),
            Call::Fstat { fd } => fstat(self.look, *fd),
            Call::Link { old, new } => self.link(old, new),
            Call::Unlink { path } => self.unlink(path),
            Call::Rename { old, new } => self.rename(old, new),
            Call::Symlink { target, path } => self.symlink(target, path),
            Call::Readlink { path } => readlink(self.alloc, self.look, path),
            Call::Lstat { path } => stat(self.alloc, self.look, false, path),
            Call::Chmod { mode, path } => self.chmod(*mode, path),
            Call::Fchmod { fd, mode } => self.fchmod(*fd, *mode),
            Call::Chown { owner, group, path } => self.chown(*owner, *group, path),
            Call::Lchown { owner, group, path } => self.lchown(*owner, *group, path),
            Call::Fchown { fd, owner, group } => self.fchown(*fd, *owner, *group),
            Call::Utime { time, path } => self.utime(*time, path),
            Call::Lutime { time, path } => self.lutime(*time, path),
            Call::Futime { fd, time } => self.futime(*fd, *time),
        }
    }
}

/// Returns the accesses of a call with this stamp: the cells that it reads and writes, each once
/// and in the order of cells. A cell that is written has the mode `Write`.
///
/// Out of memory is the only refusal.
pub fn accesses(alloc: Global, tree: &Tree, stamp: u64, call: &Call) -> Result<Vec<Access>, Memory>
    requires { bytes_of tree.now stamp ≡ [] }
    ensures { IfOk result (λ list. list.items ≡ accesses_of tree.now stamp call.now) }
{
    let Prepared { accesses, intent } = prepare(alloc, tree, stamp, call)?;
    drop(intent);
    Ok(accesses)
}
