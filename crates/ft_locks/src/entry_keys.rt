// The keys of the entries in the lock table, by directory.
ghost use Rattle.std.specs.Prelude.{◌≡◌, ℕ, cond, true, None, Some, IsSome, OnErr, IfOk, IfSome, IfNone};
ghost use Rattle.std.specs.Option.{option_copied};
ghost use Rattle.std.specs.FinMap as finite;
ghost use Rattle.ft_locks.specs.EntryKeys.{key_at, spot_of, same_spot, is_spot, IsMoved, UpdatesKeys};

use ft_base::{Memory, Table};
use ft_tree::Cell;
use std::alloc::Global;

/// The keys of the entries in the table, in no order, for each directory that has any.
///
/// Each entry knows the place of its key. To add or to remove a key takes the time to hash the
/// directory's number, however many keys there are.
#[derive(Drop)]
pub(crate) struct EntryKeys {
    alloc: Global,
    pub(crate) keys: Table<Vec<usize>>,
}

impl EntryKeys {
    /// Returns the lists without any keys. Takes no memory.
    pub(crate) fn new(alloc: Global) -> EntryKeys
        ensures { result.keys ≡ finite.empty }
    {
        EntryKeys {
            alloc,
            keys: Table::new(alloc),
        }
    }

    /// Returns the keys of a directory's entries, if there are any.
    pub(crate) fn of(&self, dir: u64) -> Option<&Vec<usize>>
        ensures { option_copied result ≡ finite.get self.now.keys dir }
    {
        self.keys.get(dir)
    }

    /// Adds the key of a cell that is an entry, and returns its place. For another cell it adds
    /// nothing and returns 0. If there is not enough memory, nothing changes.
    pub(crate) fn note(&mut self, cell: &Cell, key: usize) -> Result<usize, Memory>
        ensures free { IfOk result
            (λ place. (t : ℕ × ℕ) → is_spot (spot_of cell.now place) t ≡ true
            → key_at self.old.keys t.0 t.1 ≡ None) }
        ensures ok { IfOk result
            (λ place. UpdatesKeys self.old.keys self.new.keys (is_spot (spot_of cell.now place))
            (Some key)) }
        ensures err { OnErr result ((t : ℕ × ℕ)
            → key_at self.new.keys t.0 t.1 ≡ key_at self.old.keys t.0 t.1) }
    {
        match cell {
            Cell::Entry(entry) => self.add(entry.dir, key),
            _ => Ok(0),
        }
    }

    /// Removes the key at a place of a directory's list. Returns the key that moves into this
    /// place, if one does. Takes no memory.
    pub(crate) fn remove(&mut self, dir: u64, place: usize) -> Option<usize>
        requires { IsSome (key_at self.old.keys dir place) }
        ensures none { IfNone result
            (UpdatesKeys self.old.keys self.new.keys (same_spot (dir, place)) None) }
        ensures moved { IfSome result
            (λ moved. IsMoved self.old.keys self.new.keys dir place moved) }
    {
        let keys = self.keys.get_mut(dir)?;
        keys.swap_remove(place);
        let moved = keys.get(place).copied();
        let is_last = keys.is_empty();
        if is_last {
            self.keys.remove(dir);
        }
        moved
    }

    /// Adds a key to a directory's list, and returns its place. If there is not enough memory,
    /// nothing changes.
    fn add(&mut self, dir: u64, key: usize) -> Result<usize, Memory>
        ensures free { IfOk result (λ place. key_at self.old.keys dir place ≡ None) }
        ensures ok { IfOk result
            (λ place. UpdatesKeys self.old.keys self.new.keys (same_spot (dir, place)) (Some key)) }
        ensures err { OnErr result ((t : ℕ × ℕ)
            → key_at self.new.keys t.0 t.1 ≡ key_at self.old.keys t.0 t.1) }
    {
        if let Some(keys) = self.keys.get_mut(dir) {
            let place = keys.len();
            keys.push(key)?;
            return Ok(place);
        }
        let mut keys = Vec::new(self.alloc);
        keys.push(key)?;
        self.keys.insert(dir, keys)?;
        Ok(0)
    }
}
