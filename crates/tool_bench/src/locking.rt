// The asks of one transaction, in a table with the locks of others.
use crate::failed::{Failed, check};
use crate::paths::path;
use ft_calls::{Access, Mode};
use ft_core::Rule;
use ft_forest::{Forest, ForestLimits, TxnId};
use ft_locks::Locks;
use ft_path::FilePath;
use ft_tree::{Cell, EntryRef};
use std::alloc::Global;
use std::mem;

/// A measure that is repeated in a table of locks.
#[derive(Clone, Copy, PartialEq, Eq)]
pub enum Asking {
    /// Three accesses are made, and nothing is asked: what the others take besides their asks.
    Accesses,
    /// The blockers of three accesses that nobody has locked, and their grant.
    Alone,
    /// The blockers of three accesses that nobody has locked, and their grant, while as many other
    /// transactions are open as there are locks.
    Among,
}

impl Asking {
    /// The one of this name.
    pub fn named(name: &str) -> Option<Asking> {
        match name {
            "accesses" => Some(Asking::Accesses),
            "alone" => Some(Asking::Alone),
            "among" => Some(Asking::Among),
            _ => None,
        }
    }
}

/// The transactions, and their locks.
#[derive(Drop)]
struct Table {
    forest: Forest,
    locks: Locks,
}

impl Table {
    /// Begins a transaction, and opens its locks.
    fn begin(&mut self) -> Result<TxnId, Failed> {
        let txn = self.forest.begin()?;
        self.locks.open(txn)?;
        Ok(txn)
    }

    /// Grants the accesses of a transaction. Fails if the transaction is not open.
    fn grant(&mut self, txn: TxnId, accesses: &[Access]) -> Result<(), Failed> {
        check(self.locks.is_open(txn))?;
        self.locks.grant(txn, accesses)?;
        Ok(())
    }

    /// Gives a transaction the lock of the entry with this number.
    fn lock_entry(&mut self, alloc: Global, txn: TxnId, number: u64) -> Result<(), Failed> {
        let cell = entry(alloc, 2, "/d", number)?;
        let mode = Mode::Write;
        self.grant(txn, [Access { cell, mode }].as_slice())
    }

    /// Makes the accesses of a file with this number, and asks for them if that is measured.
    /// Returns whether nobody blocked it.
    fn take(
        &mut self,
        alloc: Global,
        asking: Asking,
        asker: TxnId,
        file: u64,
    ) -> Result<bool, Failed> {
        let accesses = accesses_of(alloc, file)?;
        if asking == Asking::Accesses {
            return Ok(true);
        }
        self.ask(asker, accesses.as_slice())
    }

    /// Asks for the blockers, and grants the accesses if there are none.
    fn ask(&mut self, txn: TxnId, accesses: &[Access]) -> Result<bool, Failed> {
        let blockers = self
            .locks
            .blockers(&self.forest, txn, accesses, Rule::Profile)?;
        let is_granted = blockers.is_empty();
        if is_granted {
            self.grant(txn, accesses)?;
        }
        Ok(is_granted)
    }
}

/// The entry of a directory whose name is this text and a number.
fn entry(alloc: Global, dir: u64, text: &str, number: u64) -> Result<Cell, Failed> {
    let text = format!(in alloc; "{text}{number}")?;
    let path = path(alloc, text.as_bytes())?;
    first_in(alloc, dir, &path)
}

/// The entry of a directory that has the first name of a path.
fn first_in(alloc: Global, dir: u64, path: &FilePath) -> Result<Cell, Failed> {
    let parts = path.parts(alloc)?;
    match parts.names.as_slice().first() {
        Some(name) => Ok(Cell::Entry(EntryRef { dir, name }.to_entry()?)),
        None => Err(Failed::Call),
    }
}

/// Three accesses, as of a call that makes a file with this number.
fn accesses_of(alloc: Global, file: u64) -> Result<[Access; 3], Failed> {
    let mode = Mode::Write;
    Ok([
        Access {
            cell: entry(alloc, 1, "/n", file)?,
            mode,
        },
        Access {
            cell: Cell::Links(file),
            mode,
        },
        Access {
            cell: Cell::Bytes(file),
            mode,
        },
    ])
}

/// Gives locks, as many as `size`: all to one transaction, or each to one of its own.
fn fill(alloc: Global, table: &mut Table, asking: Asking, size: u64) -> Result<(), Failed> {
    let mut owner = table.begin()?;
    for number in 0..size {
        if asking == Asking::Among {
            owner = table.begin()?;
        }
        table.lock_entry(alloc, owner, number)?;
    }
    Ok(())
}

/// Asks `count` times, in a table of so many locks, and returns how often nobody blocked it.
fn run_in(
    alloc: Global,
    table: &mut Table,
    asking: Asking,
    count: u64,
    size: u64,
) -> Result<u64, Failed> {
    fill(alloc, table, asking, size)?;
    let asker = table.begin()?;
    let mut done: u64 = 0;
    for index in 0..count {
        if table.take(alloc, asking, asker, index)? {
            done = done.wrapping_add(1);
        }
    }
    Ok(done)
}

/// Asks `count` times, in a new table of this many locks, and returns how often nobody blocked it.
pub fn run(alloc: Global, asking: Asking, count: u64, size: u64) -> Result<u64, Failed> {
    let forest = Forest::new(alloc, 0, ForestLimits::default());
    let locks = Locks::new(alloc);
    let mut table = Table { forest, locks };
    let done = run_in(alloc, &mut table, asking, count, size);
    // To drop the table is no part of an ask.
    mem::forget(table);
    done
}
