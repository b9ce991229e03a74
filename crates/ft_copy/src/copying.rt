// The copy of a tree.
ghost use Rattle.std.specs.Prelude.{◌≡◌, [], OnOk, OnErr, IfErr, IfOk};
ghost use Rattle.ft_copy.specs.Runs.{Begins, Copies, GivesUp, Visits, VisitsAll, VisitsFile};
ghost use Rattle.ft_copy.specs.Stops.{IsCauseAtRoot, Stops, StopsBegin, StopsCopy, StopsVisit, StopsVisiting};
ghost use Rattle.ft_copy.specs.Told.{Finds};
ghost use Rattle.ft_copy.specs.declared.found.Found.TheVariants.{File, Folder};
ghost use Rattle.ft_copy.specs.declared.found.TheConstants.{ROOT};
ghost use Rattle.ft_copy.specs.Walks.{is_dotted, standing};

use crate::copy_fault::{CopyFault, CopyStop};
use crate::file::copy_file;
use crate::firsts::Firsts;
use crate::found::{CopyPath, Found, FoundFile, FoundFolder, ROOT};
use crate::limits::CopyLimits;
use crate::linking::make_links;
use crate::source::Source;
use crate::target::Target;
use crate::walk::{Walk, enter, put_off};
use ft_base::Sequence;
use ft_path::LONGEST_PATH;
use std::alloc::Global;
use std::collections::VecDeque;

/// Copies the tree that a source describes to a target.
///
/// A directory is copied before its contents, and the names of a directory in the order of their
/// bytes. A file is copied by its bytes when it is met first, and as a link when it is met again.
/// The copy stops if what is listed or read is not what was found there.
///
/// Symbolic links are not followed. They are made after all else, so the target is never asked for
/// anything whose path leads through one.
///
/// A device, a FIFO or a socket is refused, unless the source leaves it out. A file with more bytes
/// or more names than these limits allow is refused too.
///
/// Directories and files keep their attributes, without S_ISUID and S_ISGID if the limits exclude
/// these. Files keep the time of their bytes.
///
/// If something fails, the target is asked to give up, and for nothing more.
pub fn copy<S: Source, T: Target>(
    alloc: Global,
    limits: CopyLimits,
    source: &S,
    target: &mut T,
) -> Result<(), CopyStop>
    ensures ok { OnOk result (Copies limits (S.tells source.now) T.does target.old target.new) }
    ensures err { OnErr result (GivesUp T.does T.fails target.old target.new) }
    ensures stopped { IfErr result
        (λ stopped. StopsCopy limits (S.tells source.now) T.does T.fails stopped target.old
        target.new) }
{
    match copy_whole(alloc, limits, source, target) {
        Ok(()) => Ok(()),
        Err(stopped) => {
            target.give_up();
            Err(stopped)
        }
    }
}

/// Copies a tree as `copy` does, but does not ask the target to give up if something fails.
fn copy_whole<S: Source, T: Target>(
    alloc: Global,
    limits: CopyLimits,
    source: &S,
    target: &mut T,
) -> Result<(), CopyStop>
    ensures ok { OnOk result (Copies limits (S.tells source.now) T.does target.old target.new) }
    ensures err { IfErr result
        (λ stopped. Stops limits (S.tells source.now) T.does T.fails stopped target.old
        target.new) }
{
    let mut walk = Walk {
        alloc,
        left: Vec::new(alloc),
        links: VecDeque::new(alloc),
        firsts: Firsts::new(alloc),
    };
    let top = match begin(source, target, &mut walk) {
        Ok(top) => top,
        Err(trouble) => return Err(at_root(alloc, trouble)),
    };
    visit_all(limits, source, target, &mut walk)?;
    make_links(limits, source, target, &mut walk)?;
    match target.finish(limits.kept_attributes(top.attributes)) {
        Ok(()) => Ok(()),
        Err(trouble) => Err(at_root(alloc, trouble)),
    }
}

/// Returns the stop of a copy at the root.
fn at_root(alloc: Global, trouble: CopyFault) -> CopyStop
    ensures trouble { result.trouble ≡ trouble }
    ensures path { result.path ≡ [] }
{
    CopyStop {
        trouble,
        path: Sequence::new(alloc),
    }
}

/// Starts the target, enters the root, and returns it.
fn begin<S: Source, T: Target>(
    source: &S,
    target: &mut T,
    walk: &mut Walk,
) -> Result<FoundFolder, CopyFault>
    ensures ok { IfOk result
        (λ top. Begins (S.tells source.now) T.does top (standing walk.old) (standing walk.new)
        target.old target.new) }
    ensures err { IfErr result
        (λ trouble. StopsBegin (S.tells source.now) T.does T.fails trouble target.old target.new) }
{
    let top = root_of(source)?;
    target.start()?;
    enter(source, walk, b"".as_slice(), ROOT, top.id)?;
    Ok(top)
}

/// Returns the root. If it is not a directory, it is refused.
fn root_of<S: Source>(source: &S) -> Result<FoundFolder, CopyFault>
    ensures ok { IfOk result (λ top. S.tells source.now (Finds [] ROOT (Folder top))) }
    ensures err { IfErr result (λ trouble. IsCauseAtRoot (S.tells source.now) trouble) }
{
    match source.look(b"".as_slice(), ROOT)? {
        Found::Folder(top) => Ok(top),
        Found::File(_) | Found::Symlink(_) | Found::Special => Err(CopyFault::BadTree),
    }
}

/// Visits all places that are left, and those that are met on the way. Fails with `Full` after 2^64
/// - 1 visits.
fn visit_all<S: Source, T: Target>(
    limits: CopyLimits,
    source: &S,
    target: &mut T,
    walk: &mut Walk,
) -> Result<(), CopyStop>
    ensures ok { OnOk result
        (VisitsAll limits (S.tells source.now) T.does (standing walk.old) (standing walk.new)
        target.old target.new) }
    ensures err { IfErr result
        (λ stopped. StopsVisiting limits (S.tells source.now) T.does T.fails stopped
        (standing walk.old) target.old target.new) }
{
    let mut turns = u64::MAX;
    while turns > 0 {
        turns -= 1;
        let Some(place) = walk.left.pop() else {
            return Ok(());
        };
        match visit(limits, source, target, walk, &place) {
            Ok(()) => {}
            Err(trouble) => {
                return Err(CopyStop {
                    trouble,
                    path: place.path,
                });
            }
        }
    }
    Err(at_root(walk.alloc, CopyFault::Full))
}

/// Visits one place.
fn visit<S: Source, T: Target>(
    limits: CopyLimits,
    source: &S,
    target: &mut T,
    walk: &mut Walk,
    place: &CopyPath,
) -> Result<(), CopyFault>
    ensures ok { OnOk result
        (Visits limits (S.tells source.now) T.does place.now (standing walk.old) (standing walk.new)
        target.old target.new) }
    ensures err { IfErr result
        (λ trouble. StopsVisit limits (S.tells source.now) T.does T.fails trouble place.now
        (standing walk.old) target.old target.new) }
{
    let path = place.path.as_slice();
    if is_dotted(path) {
        return Err(CopyFault::BadName);
    }
    if path.len() > LONGEST_PATH {
        return Err(CopyFault::PathTooLong);
    }
    match source.look(path, place.node)? {
        Found::Folder(folder) => {
            target.folder(path, limits.kept_attributes(folder.attributes))?;
            enter(source, walk, path, place.node, folder.id)
        }
        Found::File(file) => visit_file(limits, source, target, walk, place, &file),
        Found::Symlink(facts) => Ok(put_off(walk, place, facts)?),
        Found::Special => {
            if source.omits(path)? {
                Ok(())
            } else {
                Err(CopyFault::Special)
            }
        }
    }
}

/// Visits a file: copies it when it is met first, and gives it a further name when it is met again.
fn visit_file<S: Source, T: Target>(
    limits: CopyLimits,
    source: &S,
    target: &mut T,
    walk: &mut Walk,
    place: &CopyPath,
    file: &FoundFile,
) -> Result<(), CopyFault>
    ensures ok { OnOk result
        (VisitsFile limits (S.tells source.now) T.does place.now file.now (standing walk.old)
        (standing walk.new) target.old target.new) }
    ensures err { S.tells source.now (Finds place.now.path place.now.node (File file.now))
        → IfErr result (λ trouble. StopsVisit limits (S.tells source.now) T.does T.fails trouble
        place.now (standing walk.old) target.old target.new) }
{
    let facts = file.facts;
    if facts.links > limits.links {
        return Err(CopyFault::TooManyLinks);
    }
    if facts.size > limits.file_size {
        return Err(CopyFault::TooLarge);
    }
    if facts.links <= 1 {
        return copy_file(walk.alloc, limits, source, target, place, file);
    }
    match walk.firsts.get(facts.id) {
        Some(first) => target.link(first.as_slice(), place.path.as_slice()),
        None => {
            let first = Vec::from_slice(walk.alloc, place.path.as_slice())?;
            walk.firsts.insert(facts.id, first.into())?;
            copy_file(walk.alloc, limits, source, target, place, file)
        }
    }
}

/// Returns whether the last name of a path is `.` or `..`, which lead elsewhere.
fn is_dotted(path: &[u8]) -> bool
    ensures { result ≡ is_dotted path.now }
{
    path.ends_with(b"/.".as_slice()) || path.ends_with(b"/..".as_slice())
}
