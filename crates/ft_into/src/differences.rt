// The differences between a tree and a directory.
ghost use Rattle.std.specs.Prelude.{IfOk};
ghost use Rattle.ft_into.specs.Allows.{AreAllowed};
ghost use Rattle.ft_into.specs.Compares.{ComparesTree};

use crate::comparison::Comparing;
use crate::names::Names;
use crate::step::Step;
use crate::wishes::Wishes;
use ft_base::{Memory, Sequence};
use ft_copy::{CopyFault, CopyLimits, CopyStop, Source, copy};
use std::alloc::Global;

/// The begin of the names of files that are made alongside their places.
const BESIDE: &[u8] = b".save.part";

/// The steps from a directory to a tree, and what a killed run has left in the directory.
#[derive(Debug, PartialEq, Eq, Drop)]
pub struct Differences {
    pub steps: Vec<Step>,
    pub left: Vec<Sequence<u8>>,
}

/// Compares a tree with the reports of a source on a directory. Exactly what differs takes a step:
/// a directory or a file that is missing or has other attributes, a file that has other bytes or
/// another time, a symbolic link that leads elsewhere, and a name of another file. Anything that
/// the tree does not have is removed if that is wished, and else stays. Something of another kind
/// that blocks a path is removed too. If that is not wished, the fault is `Exists`.
///
/// The steps come in the order of the copy of the tree: each directory before its contents, then
/// the symbolic links, then removals, the contents of a directory before it, and at last the root.
/// Anything that blocks a path is removed right before the step to that path.
pub fn compare<T: Source, S: Source>(
    alloc: Global,
    limits: CopyLimits,
    tree: &T,
    disk: &S,
    wishes: Wishes,
) -> Result<Differences, CopyStop>
    ensures steps { IfOk result (λ differences. ComparesTree (S.tells disk.now) wishes limits
        (T.tells tree.now) differences.steps.items) }
    ensures allowed { IfOk result
        (λ differences. AreAllowed (S.tells disk.now) wishes differences.steps.items) }
{
    let mut comparing = match Comparing::new(alloc, disk, wishes) {
        Ok(comparing) => comparing,
        Err(_) => return Err(without_memory(alloc)),
    };
    copy(alloc, limits, tree, &mut comparing)?;
    let Comparing { names, steps, .. } = comparing;
    match left_in(alloc, names) {
        Ok(left) => Ok(Differences {
            steps: steps.items,
            left,
        }),
        Err(_) => Err(without_memory(alloc)),
    }
}

/// Returns the stop of a copy that lacks memory.
fn without_memory(alloc: Global) -> CopyStop {
    CopyStop {
        trouble: CopyFault::Memory,
        path: Sequence::new(alloc),
    }
}

/// Returns what a killed run has left among the names that the tree does not have, the last first.
fn left_in(alloc: Global, names: Names) -> Result<Vec<Sequence<u8>>, Memory> {
    let mut names = names;
    let mut left = Vec::new(alloc);
    while let Some((path, _)) = names.take_last() {
        if is_beside(path.as_slice()) {
            left.push(path.into())?;
        }
    }
    Ok(left)
}

/// Returns whether a path is one at which files are made before they get their places.
fn is_beside(path: &[u8]) -> bool {
    match path.iter().rposition(|byte| *byte == b'/') {
        Some(slash) => path[slash + 1..].starts_with(BESIDE),
        None => false,
    }
}
