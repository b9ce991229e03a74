// The contents of a directory that a tree does not have.
ghost use Rattle.std.specs.Prelude.{◌≡◌, ◌∷◌, ◌++◌, List, IfOk, OnOk, map, reverse};
ghost use Rattle.ft_copy.specs.declared.found.CopyPath.{CopyPath as PathOf};
ghost use Rattle.ft_copy.specs.declared.found.FoundFolder.{FoundFolder};
ghost use Rattle.ft_copy.specs.declared.found.Found.TheVariants.{Folder};
ghost use Rattle.ft_copy.specs.Told.{Finds};
ghost use Rattle.ft_copy.specs.Walks.{child};
ghost use Rattle.ft_into.specs.declared.step.Step.{Step as StepOf};
ghost use Rattle.ft_into.specs.Removes.{AreInside, Removes, removal};

use crate::step::{Act, Step, Thing};
use ft_base::Memory;
use ft_copy::{CopyFault, CopyPath, FileId, FolderEntry, Found, Source};
use std::alloc::Global;

/// Adds the steps that remove what is at a place with its contents. The contents of a directory
/// come before it.
pub(crate) fn add_removals<S: Source>(
    alloc: Global,
    disk: &S,
    place: CopyPath,
    steps: &mut Vec<Step>,
) -> Result<(), CopyFault>
    ensures { OnOk result ((removals : List StepOf)
        × (steps.new.items ≡ steps.old.items ++ removals)
        × Removes (S.tells disk.now) place removals) }
{
    let mut left = Vec::new(alloc);
    left.push(place)?;
    let mut removals = Vec::new(alloc);
    let mut turns = u64::MAX;
    while turns > 0 {
        turns -= 1;
        let Some(place) = left.pop() else {
            return Ok(move_turned(&mut removals, steps)?);
        };
        let found = look_into(alloc, disk, &place, &mut left)?;
        removals.push(removal_of(place, found))?;
    }
    Err(CopyFault::Full)
}

/// Returns what is at a place, and adds its contents to what is left.
fn look_into<S: Source>(
    alloc: Global,
    disk: &S,
    place: &CopyPath,
    left: &mut Vec<CopyPath>,
) -> Result<Found, CopyFault>
    ensures { IfOk result (λ found. (inside : List PathOf)
        × S.tells disk.now (Finds place.now.path place.now.node found)
        × AreInside (S.tells disk.now) place.now found inside
        × (left.new.items ≡ left.old.items ++ inside)) }
{
    let found = disk.look(place.path.as_slice(), place.node)?;
    if let Found::Folder(folder) = found {
        add_inside(alloc, disk, place, folder.id, left)?;
    }
    Ok(found)
}

/// Adds the contents of this directory to what is left, in the order of their names. If another one
/// is listed, the fault is `Read`.
fn add_inside<S: Source>(
    alloc: Global,
    disk: &S,
    place: &CopyPath,
    id: FileId,
    left: &mut Vec<CopyPath>,
) -> Result<(), CopyFault>
    ensures { OnOk result ((folder : FoundFolder) → folder.id ≡ id → (inside : List PathOf)
        × AreInside (S.tells disk.now) place.now (Folder folder) inside
        × (left.new.items ≡ left.old.items ++ inside)) }
{
    let path = place.path.as_slice();
    let listing = disk.names(path, place.node)?;
    if listing.id != id {
        return Err(CopyFault::Read);
    }
    let mut names = listing.names;
    names.sort_unstable();
    names.reverse();
    Ok(add_names(alloc, path, names, left)?)
}

/// Adds the places of these names of a directory, the last name first.
fn add_names(
    alloc: Global,
    path: &[u8],
    names: Vec<FolderEntry>,
    left: &mut Vec<CopyPath>,
) -> Result<(), Memory>
    ensures { OnOk result (left.new.items
        ≡ left.old.items ++ map (child path.now) (reverse names.items)) }
{
    let mut names = names;
    while let Some(listed) = names.pop() {
        let place = place_in(alloc, path, &listed)?;
        left.push(place)?;
    }
    Ok(())
}

/// Returns the place of a name of a directory.
fn place_in(alloc: Global, path: &[u8], listed: &FolderEntry) -> Result<CopyPath, Memory>
    ensures { IfOk result (λ place. place ≡ child path.now listed.now) }
{
    let path = child_path(alloc, path, listed.name.as_bytes())?;
    Ok(CopyPath {
        path: path.into(),
        node: listed.node,
    })
}

/// Returns the step that removes what was found at a place.
fn removal_of(place: CopyPath, found: Found) -> Step
    ensures { result ≡ removal place found }
{
    Step {
        act: Act::Remove,
        thing: Thing::of(found),
        path: place.path,
    }
}

/// Appends steps to others, the last of them first.
fn move_turned(from: &mut Vec<Step>, to: &mut Vec<Step>) -> Result<(), Memory>
    ensures { OnOk result (to.new.items ≡ to.old.items ++ reverse from.old.items) }
{
    while let Some(step) = from.pop() {
        to.push(step)?;
    }
    Ok(())
}

/// Returns the path of a name in a directory.
pub(crate) fn child_path(alloc: Global, path: &[u8], name: &[u8]) -> Result<Vec<u8>, Memory>
    ensures { IfOk result (λ child. child.items ≡ path.now ++ 47 ∷ name.now) }
{
    let mut bytes = Vec::from_slice(alloc, path)?;
    bytes.push(b'/')?;
    bytes.extend_from_slice(name)?;
    Ok(bytes)
}
