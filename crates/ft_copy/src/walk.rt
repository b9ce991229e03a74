// The walk over a source: the places that are still to be visited.
ghost use Rattle.std.specs.Prelude.{◌≡◌, ◌⊎◌, ◌++◌, OnOk, IfErr, IfOk};
ghost use Rattle.ft_copy.specs.Stops.{IsUnread};
ghost use Rattle.ft_copy.specs.Walks.{Enters, PutsOff, above, child, standing};

use crate::copy_fault::CopyFault;
use crate::firsts::Firsts;
use crate::found::{CopyPath, FileFacts, FileId, FolderEntry, MetLink};
use crate::source::Source;
use ft_base::Memory;
use std::alloc::Global;
use std::collections::VecDeque;

/// The places that are still to be visited, the next at the end.
///
/// The walk also has the symbolic links that were met, the next at the front. It also has the files
/// and links with more than one name that were already copied.
#[derive(Drop)]
pub(crate) struct Walk {
    pub(crate) alloc: Global,
    pub(crate) left: Vec<CopyPath>,
    pub(crate) links: VecDeque<MetLink>,
    pub(crate) firsts: Firsts,
}

/// Puts the contents of this directory on top of the places that are still to be visited. They are
/// in the order of the bytes of their names.
pub(crate) fn enter<S: Source>(
    source: &S,
    walk: &mut Walk,
    path: &[u8],
    node: u64,
    id: FileId,
) -> Result<(), CopyFault>
    ensures ok { OnOk result
        (Enters (S.tells source.now) path.now node id (standing walk.old) (standing walk.new)) }
    ensures err { IfErr result
        (λ trouble. (trouble ≡ CopyFault.Memory) ⊎ IsUnread (S.tells source.now) trouble path.now
        node id) }
{
    let listing = source.names(path, node)?;
    if !listing.id.is(id) {
        return Err(CopyFault::Read);
    }
    let mut names = listing.names;
    names.sort_unstable();
    put_on_top(walk, path, names)?;
    Ok(())
}

/// Puts the names of a directory on top, so that the first name is visited next.
fn put_on_top(walk: &mut Walk, path: &[u8], names: Vec<FolderEntry>) -> Result<(), Memory>
    ensures left { OnOk result (walk.new.left.items ≡ walk.old.left.items
        ++ above path.now names.items) }
    ensures links { walk.new.links ≡ walk.old.links }
    ensures firsts { walk.new.firsts ≡ walk.old.firsts }
{
    let mut names = names;
    while let Some(listed) = names.pop() {
        let place = place_of(walk.alloc, path, &listed)?;
        walk.left.push(place)?;
    }
    Ok(())
}

/// Returns the place to which a name of a directory leads.
fn place_of(alloc: Global, path: &[u8], listed: &FolderEntry) -> Result<CopyPath, Memory>
    ensures { IfOk result (λ place. place ≡ child path.now listed.now) }
{
    let mut bytes = Vec::from_slice(alloc, path)?;
    bytes.push(b'/')?;
    bytes.extend_from_slice(listed.name.as_bytes())?;
    Ok(CopyPath {
        path: bytes.into(),
        node: listed.node,
    })
}

/// Puts a symbolic link off until all else is made.
pub(crate) fn put_off(walk: &mut Walk, place: &CopyPath, facts: FileFacts) -> Result<(), Memory>
    ensures { OnOk result (PutsOff place.now facts (standing walk.old) (standing walk.new)) }
{
    let path = Vec::from_slice(walk.alloc, place.path.as_slice())?;
    walk.links.push_back(MetLink {
        place: CopyPath {
            path: path.into(),
            node: place.node,
        },
        facts,
    })?;
    Ok(())
}
