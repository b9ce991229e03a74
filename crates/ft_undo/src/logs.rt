// The undo logs of the transactions.
ghost use Rattle.std.specs.Prelude.{◌≡◌, ◌≢◌, ◌<◌, ◌^◌, [], true, false, Some, None, length, OnOk, OnErr, IfErr};
ghost use Rattle.std.specs.Option.{option_map};
ghost use Rattle.ft_owned_lists.specs.OwnedLists.{list_in};
ghost use Rattle.ft_history.specs.Logs.{put, pushed, popped, handed};
ghost use Rattle.ft_posix.specs.Computes.{writes_of};
ghost use Rattle.ft_posix.specs.Edits.{CanEditAll, Apart};
ghost use Rattle.ft_undo.specs.Logs.{is_open, newest_of, AreLists, AreOpen};
ghost use Rattle.ft_undo.specs.LogRecord.{IsLogged};

use crate::undo::Undo;
use ft_base::Memory;
use ft_calls::Edits;
use ft_owned_lists::OwnedLists;
use ft_tree::Tree;
use std::alloc::{AllocFailed, Global};
use std::marker::Model;

/// The undo of a granted call, and the call's stamp.
#[derive(Drop)]
pub struct LogRecord {
    pub stamp: u64,
    pub undo: Undo,
}

/// The undo logs: for each open transaction, a list of the undos of its calls, the newest first.
///
/// A transaction is open from its begin to its end. Each function takes the time to find its
/// transactions by a hash, however many are open and however long their lists are. Only `len` and
/// `close` also take the time of the list.
pub struct Logs {
    chains: OwnedLists<LogRecord>,
}

impl Drop for Logs {
    fn drop(self) {
        let Logs { chains: _ } = self;
    }
}

impl Model for Logs {
    ghost use Rattle.ft_owned_lists.specs.OwnedLists.{Lists, coded_lists};
    ghost use Rattle.ft_undo.specs.declared.logs.LogRecord.{LogRecord};
    ghost use Rattle.ft_undo.specs.contracts.logs.LogRecord as logged;

    ghost Value = { Lists LogRecord };

    ghost coded = { coded_lists logged.the_row.coded };

    ghost view = { λ a. a.chains };
}

impl Logs {
    /// Returns logs in which no transaction is open. Takes no memory.
    pub fn new(alloc: Global) -> Logs
        ensures lists { AreLists result (λ _. []) }
        ensures opened { AreOpen result (λ _. false) }
    {
        Logs {
            chains: OwnedLists::new(alloc),
        }
    }

    /// Returns whether a transaction is open.
    pub fn is_open(&self, txn: u64) -> bool
        ensures { result ≡ is_open self.now txn }
    {
        self.chains.is_open(txn)
    }

    /// Opens a transaction, with an empty list. If it is open already, it keeps its list. If there
    /// is not enough memory, nothing has changed.
    pub fn open(&mut self, txn: u64) -> Result<(), Memory>
        ensures lists { AreLists self.new (list_in self.old) }
        ensures opened { OnOk result (AreOpen self.new (put (is_open self.old) txn true)) }
        ensures err { OnErr result (self.new ≡ self.old) }
    {
        self.chains.open(txn)
    }

    /// Adds the undo of a call to a transaction's list, as its newest. If there is not enough
    /// memory, it returns the undo and changes nothing.
    pub fn push(&mut self, txn: u64, stamp: u64, undo: Undo) -> Result<(), AllocFailed<Undo>>
        requires { is_open self.old txn ≡ true }
        ensures lists { OnOk result
            (AreLists self.new (pushed (list_in self.old) txn (record {
              stamp = stamp;
              undo = undo;
            }))) }
        ensures opened { AreOpen self.new (is_open self.old) }
        ensures err { OnErr result (self.new ≡ self.old) }
        ensures undo_returned { IfErr result (λ failed. failed.value ≡ undo) }
    {
        match self.chains.push_front(txn, LogRecord { stamp, undo }) {
            Ok(()) => Ok(()),
            Err(
                AllocFailed {
                    value: LogRecord { stamp: _, undo },
                },
            ) => Err(AllocFailed { value: undo }),
        }
    }

    /// Makes the planned edits of a call, and keeps their undo as the newest of a transaction's
    /// list. Each written cell has its place then. The undo is built directly in its place in the
    /// list.
    ///
    /// Out of memory is the only refusal. It undoes the edits that were made, and nothing has
    /// changed.
    pub fn apply(
        &mut self,
        alloc: Global,
        txn: u64,
        stamp: u64,
        tree: &mut Tree,
        edits: &Edits<'_>,
    ) -> Result<(), Memory>
        requires open { is_open self.old txn ≡ true }
        requires places { CanEditAll tree.old edits.now }
        requires apart { Apart edits.now }
        ensures made { OnOk result
            (IsLogged tree.old tree.new (writes_of tree.old edits.now) self.old self.new txn
            stamp) }
        ensures refused { OnErr result (tree.new ≡ tree.old) }
        ensures kept { OnErr result (AreLists self.new (list_in self.old)) }
        ensures opened { AreOpen self.new (is_open self.old) }
    {
        // (the place in the list comes first, so that nothing has to be undone if there is none)
        let undo = Undo::new(alloc);
        if let Err(failed) = self.chains.push_front(txn, LogRecord { stamp, undo }) {
            drop(failed);
            return Err(Memory);
        }
        let logged = self.chains.first_mut(txn).unwrap();
        if let Err(memory) = logged.undo.fill(tree, edits) {
            let _ = self.take_last(txn);
            return Err(memory);
        }
        Ok(())
    }

    /// Moves a child's whole list to its parent, as newer than all that the parent had, and closes
    /// the child (Moss 1981, commit of a subtransaction). Takes no memory.
    pub fn splice(&mut self, child: u64, parent: u64)
        requires child { is_open self.old child ≡ true }
        requires parent { is_open self.old parent ≡ true }
        requires apart { child ≢ parent }
        ensures lists { AreLists self.new (handed (list_in self.old) child (Some parent)) }
        ensures opened { AreOpen self.new (put (is_open self.old) child false) }
    {
        self.chains.splice(child, parent);
        self.chains.close(child);
    }

    /// Returns the stamp of the newest call in a transaction's list, if there is one.
    pub fn newest(&self, txn: u64) -> Option<u64>
        ensures { result ≡ option_map (λ logged. logged.stamp) (newest_of (list_in self.now txn)) }
    {
        Some(self.chains.first(txn)?.stamp)
    }

    /// Returns the number of calls in a transaction's list, 0 if it is not open.
    pub fn len(&self, txn: u64) -> usize
        requires few { length (list_in self.now txn) < 2 ^ 64 }
        ensures count { result ≡ length (list_in self.now txn) }
    {
        self.chains.values(txn).count()
    }

    /// Removes and returns the record of the newest call in a transaction's list, if there is one.
    /// Takes no memory.
    pub fn take_last(&mut self, txn: u64) -> Option<LogRecord>
        ensures newest { result ≡ newest_of (list_in self.old txn) }
        ensures lists { AreLists self.new (popped (list_in self.old) (Some txn)) }
        ensures opened { AreOpen self.new (is_open self.old) }
    {
        self.chains.pop_front(txn)
    }

    /// Drops all of a transaction's list, and closes the transaction (Moss 1981, commit of a
    /// top-level transaction, and abort). Takes no memory.
    pub fn close(&mut self, txn: u64)
        ensures lists { AreLists self.new (handed (list_in self.old) txn None) }
        ensures opened { AreOpen self.new (put (is_open self.old) txn false) }
    {
        while self.take_last(txn).is_some() {}
        self.chains.close(txn);
    }
}
