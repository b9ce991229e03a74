// A target that makes nothing, and finds the steps to what is requested.
ghost use Rattle.std.specs.Prelude.{◌≡◌, ◌≢◌, ◌⊎◌, ℕ, List, [], true, None, Some, IfNone, IfOk, IfSome, IsFalse, IsSome, IsTrue};
ghost use Rattle.std.specs.Io.KnownBytes.{IsAtEnd};
ghost use Rattle.ft_copy.specs.Told.{Leads};
ghost use Rattle.ft_into.specs.Compares.{IsAnother, MayStay, linked};
ghost use Rattle.ft_into.specs.Knows.{SameFile as SameOf, fresh};
ghost use Rattle.ft_into.specs.Views.{kept_of, same_of, seen};
ghost use Rattle.ft_into.specs.Wishes.{are_given, is_timed};

use crate::comparison::{Comparing, OpenFile, SameFile};
use crate::kept::Kept;
use crate::names::Names;
use crate::reading::{goes_on, is_over};
use crate::step::{Act, Step, Thing};
use crate::steps::Steps;
use crate::wishes::{Wishes, is_timed};
use ft_cells::{Attributes, Timestamp};
use ft_copy::{CopyFault, FileFacts, Found, FoundFile, PIECE, ROOT, Source, Target};
use std::alloc::{AllocError, Global};
use std::io::Read;

impl<'a, S: Source> Comparing<'a, S, S::File> {
    /// Returns a comparison in which nothing was requested yet.
    pub(crate) fn new(
        alloc: Global,
        disk: &'a S,
        wishes: Wishes,
    ) -> Result<Comparing<'a, S, S::File>, AllocError>
        ensures seen { IfOk result (λ comparing. seen S.File.remaining comparing ≡ fresh) }
        ensures wishes { IfOk result (λ comparing. comparing.wishes ≡ wishes) }
        ensures disk { IfOk result (λ comparing. comparing.disk.now ≡ disk.now) }
    {
        Ok(Comparing {
            alloc,
            disk,
            wishes,
            names: Names::new(alloc),
            kept: Kept::new(alloc),
            steps: Steps::new(alloc),
            top: None,
            file: None,
            is_linking: false,
            room: vec![in alloc; 0; PIECE]?,
        })
    }

    /// Opens a file that is there, if it may be the one that is requested. If another one is
    /// opened, the fault is `Read`.
    fn same_file(
        &self,
        path: &[u8],
        node: u64,
        found: FoundFile,
        wanted: Attributes,
    ) -> Result<Option<SameFile<S::File>>, CopyFault>
        ensures { IfOk result (λ same. MayStay (S.tells self.now.disk.now)
            (are_given self.now.wishes wanted found.given.attributes) path.now node found
            (kept_of self.now.kept) (same_of S.File.remaining same)) }
    {
        if !self.wishes.are_given(wanted, found.given.attributes) || self.kept.has(found.facts) {
            return Ok(None);
        }
        let opened = self.disk.open(path, node)?;
        if opened.id != found.facts.id {
            return Err(CopyFault::Read);
        }
        Ok(Some(SameFile {
            found,
            file: opened.file,
        }))
    }

    /// Returns whether a symbolic link that is there is the one that is requested. If another one
    /// is read, the fault is `Read`.
    fn is_same_link(
        &self,
        path: &[u8],
        node: u64,
        facts: FileFacts,
        to: &[u8],
    ) -> Result<bool, CopyFault>
        ensures { IfOk result (λ same. (held : List ℕ)
            × S.tells self.now.disk.now (Leads path.now node facts.id held)
            × (IsTrue same → (held ≡ to.now) × (kept_of self.now.kept facts.id ≡ None))
            × (IsFalse same → (held ≢ to.now) ⊎ IsSome (kept_of self.now.kept facts.id))) }
    {
        let leading = self.disk.read_link(path, node)?;
        if leading.id != facts.id {
            return Err(CopyFault::Read);
        }
        Ok(leading.to.as_slice() == to && !self.kept.has(facts))
    }
}

impl<S: Source> Target for Comparing<'_, S, S::File> {
    ghost use Rattle.std.specs.Prelude.{◌≡◌};
    ghost use Rattle.ft_into.specs.Compares.{Compares};
    ghost use Rattle.ft_into.specs.Views.{seen};

    ghost does = { λ old asked new. (new.wishes ≡ old.wishes) × (new.disk.now ≡ old.disk.now)
        × Compares (S.tells old.disk.now) old.wishes (seen S.File.remaining old) asked
        (seen S.File.remaining new) };

    fn start(&mut self) -> Result<(), CopyFault> {
        let path = b"".as_slice();
        let Found::Folder(top) = self.disk.look(path, ROOT)? else {
            return Err(CopyFault::Exists);
        };
        self.top = Some(top);
        self.names.enter(self.alloc, self.disk, path, ROOT, top.id)
    }

    fn folder(&mut self, path: &[u8], attributes: Attributes) -> Result<(), CopyFault> {
        let Some((node, found)) = self.names.find(self.disk, path)? else {
            return self.steps.push(Act::Add, Thing::Folder, path);
        };
        match found {
            Found::Folder(folder) => {
                let same = self.wishes.are_given(attributes, folder.attributes);
                self.steps.change_unless(same, Thing::Folder, path)?;
                self.names
                    .enter(self.alloc, self.disk, path, node, folder.id)
            }
            _ => self
                .steps
                .replace(self.disk, self.wishes.removes, Thing::Folder, path, node),
        }
    }

    fn open(&mut self, path: &[u8], attributes: Attributes) -> Result<(), CopyFault> {
        let Some((node, found)) = self.names.find(self.disk, path)? else {
            self.file = Some(opening(&self.steps, Act::Add, path, None)?);
            return Ok(());
        };
        match found {
            Found::File(found) => {
                let same = self.same_file(path, node, found, attributes)?;
                self.file = Some(opening(&self.steps, Act::Change, path, same)?);
            }
            _ => {
                self.steps
                    .clear(self.disk, self.wishes.removes, path, node)?;
                self.file = Some(opening(&self.steps, Act::Add, path, None)?);
            }
        }
        Ok(())
    }

    fn piece(&mut self, bytes: &[u8]) -> Result<(), CopyFault> {
        if let Some(open) = &mut self.file {
            if let Some(same) = &mut open.same {
                if !goes_on(&mut same.file, bytes, self.room.as_mut_slice())? {
                    open.same = None;
                }
            }
        }
        Ok(())
    }

    fn close(&mut self, time: Option<Timestamp>) -> Result<(), CopyFault> {
        let Some(open) = self.file.take() else {
            return Err(CopyFault::Read);
        };
        let OpenFile { step, same } = open;
        match staying(time, same)? {
            Some(found) => Ok(self.kept.note(found.facts, step.path.as_slice())?),
            None => Ok(self.steps.items.push(step)?),
        }
    }

    fn link(&mut self, first: &[u8], path: &[u8]) -> Result<(), CopyFault> {
        let Some((node, found)) = self.names.find(self.disk, path)? else {
            return self.steps.push(Act::Add, Thing::Link, path);
        };
        match linked(found, self.is_linking) {
            Some(facts) => {
                let same = self.kept.is_at(facts.id, first);
                self.steps.change_unless(same, Thing::Link, path)
            }
            None => self
                .steps
                .replace(self.disk, self.wishes.removes, Thing::Link, path, node),
        }
    }

    fn symlink(&mut self, to: &[u8], path: &[u8]) -> Result<(), CopyFault> {
        self.is_linking = true;
        let Some((node, found)) = self.names.find(self.disk, path)? else {
            return self.steps.push(Act::Add, Thing::Symlink, path);
        };
        match found {
            Found::Symlink(facts) => {
                if self.is_same_link(path, node, facts, to)? {
                    return Ok(self.kept.note(facts, path)?);
                }
                self.steps.push(Act::Change, Thing::Symlink, path)
            }
            _ => self
                .steps
                .replace(self.disk, self.wishes.removes, Thing::Symlink, path, node),
        }
    }

    fn finish(&mut self, attributes: Attributes) -> Result<(), CopyFault> {
        let Some(top) = self.top else {
            return Err(CopyFault::Read);
        };
        if self.wishes.removes {
            self.steps.remove_rest(self.disk, &mut self.names)?;
        }
        let same = self.wishes.are_given(attributes, top.attributes);
        self.steps
            .change_unless(same, Thing::Folder, b"".as_slice())
    }

    fn give_up(&mut self) {}
}

/// Returns a file that is requested, by what is done with it and by the one that may stay.
fn opening<F>(
    steps: &Steps,
    act: Act,
    path: &[u8],
    same: Option<SameFile<F>>,
) -> Result<OpenFile<F>, CopyFault>
where
    F: Drop,
    ensures step { IfOk result
        (λ file. file.step ≡ record { act = act; thing = Thing.File; path = path.now }) }
    ensures same { IfOk result (λ file. file.same ≡ same) }
{
    let step = steps.step(act, Thing::File, path)?;
    Ok(OpenFile { step, same })
}

/// Returns the file that may stay, if it does: it has this time, and no more bytes.
fn staying<F: Read + Drop>(
    time: Option<Timestamp>,
    same: Option<SameFile<F>>,
) -> Result<Option<FoundFile>, CopyFault>
    ensures some { IfOk result (λ staying. IfSome staying (λ found. (file : SameOf)
        × (same_of F.remaining same ≡ Some file) × (file.found ≡ found)
        × (is_timed time found.given.time ≡ true) × IsAtEnd file.left)) }
    ensures none { IfOk result
        (λ staying. IfNone staying (IsAnother time (same_of F.remaining same))) }
{
    let Some(SameFile { found, mut file }) = same else {
        return Ok(None);
    };
    if !is_timed(time, found.given.time) {
        return Ok(None);
    }
    if !is_over(&mut file)? {
        return Ok(None);
    }
    Ok(Some(found))
}

/// Returns what is known of what may be another name of what is requested. That is a symbolic link
/// if one is requested, and else a file.
fn linked(found: Found, is_linking: bool) -> Option<FileFacts>
    ensures some { IfSome result (λ facts. linked found is_linking ≡ Some facts) }
    ensures none { IfNone result (linked found is_linking ≡ None) }
{
    match found {
        Found::Folder(_) => None,
        Found::File(file) => if is_linking { None } else { Some(file.facts) },
        Found::Symlink(facts) => if is_linking { Some(facts) } else { None },
        Found::Special => None,
    }
}
