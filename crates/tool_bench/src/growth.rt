// A tree that grows by calls.
use crate::failed::{Failed, check};
use crate::paths::Place;
use ft_calls::{Call, Prepared, Reply, prepare};
use ft_path::FilePath;
use ft_tree::Tree;
use ft_undo::{perform, revert};
use std::alloc::Global;
use std::marker::Model;

/// A tree, and the stamp of the next call on it.
#[derive(Drop)]
pub struct Growth {
    alloc: Global,
    tree: Tree,
    next: u64,
}

impl Model for Growth {
    ghost use Rattle.std.specs.Prelude.{◌≤◌, ℕ};
    ghost use Rattle.ft_cells.specs.Cells.{Cells, coded_cells};
    ghost use Rattle.ft_tree.specs.Sound.{AreSoundCells, IsFree};

    ghost Value = { Cells };

    ghost coded = { coded_cells };

    ghost view = { λ a. a.tree };

    ghost invariant = { λ a. AreSoundCells a.tree × ((k : ℕ) → a.next ≤ k → IsFree a.tree k) };
}

/// Returns whether a call has done what it was asked for.
fn is_done(reply: &Reply) -> bool {
    matches!(reply, Reply::Done)
}

impl Growth {
    /// A tree of directories, as many as `size` with three components.
    pub fn new(alloc: Global, size: u64) -> Result<Growth, Failed> {
        let mut growth = Growth {
            alloc,
            tree: Tree::new(alloc)?,
            next: 2,
        };
        growth.fill(size)?;
        Ok(growth)
    }

    /// Makes this many directories.
    fn fill(&mut self, size: u64) -> Result<(), Failed> {
        for index in 0..size {
            self.add(Place::of(index))?;
        }
        Ok(())
    }

    /// Makes a directory, and those above it if it is the first in them.
    fn add(&mut self, place: Place) -> Result<(), Failed> {
        for level in place.new_levels() {
            let path = place.path(self.alloc, *level)?;
            check(self.makes(path)?)?;
        }
        Ok(())
    }

    /// Makes a directory, and returns whether it was made.
    fn makes(&mut self, path: FilePath) -> Result<bool, Failed> {
        let call = Call::Mkdir { path, mode: None };
        self.does(&call)
    }

    /// Makes a call, and returns its reply.
    pub fn perform(&mut self, call: &Call) -> Result<Reply, Failed> {
        let stamp = self.next;
        let next = stamp.checked_add(1).ok_or(Failed::Call)?;
        let (reply, _undo) = perform(self.alloc, &mut self.tree, stamp, call)?;
        self.next = next;
        Ok(reply)
    }

    /// Makes a call, and returns whether it has done what it was asked for.
    pub fn does(&mut self, call: &Call) -> Result<bool, Failed> {
        let reply = self.perform(call)?;
        Ok(is_done(&reply))
    }

    /// How many accesses a call has, which is looked at and not made.
    pub fn accesses(&self, call: &Call) -> Result<usize, Failed> {
        let Prepared { accesses, .. } = prepare(self.alloc, &self.tree, self.next, call)?;
        Ok(accesses.len())
    }

    /// Makes a call on a copy, and undoes it there if that is asked for. Returns whether it has
    /// done what it was asked for.
    pub fn does_on_copy(&self, call: &Call, is_taken_back: bool) -> Result<bool, Failed> {
        let mut copy = self.tree.copy()?;
        let (reply, undo) = perform(self.alloc, &mut copy, self.next, call)?;
        if is_taken_back {
            revert(&mut copy, undo);
        }
        Ok(is_done(&reply))
    }
}
