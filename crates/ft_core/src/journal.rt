// The journal: what has happened, and what is noted of the live transactions.
ghost use Rattle.std.specs.Prelude.{◌≡◌, ◌≤◌, ◌+◌, IsSome, Some, None, OnOk, OnErr, false};
ghost use Rattle.std.specs.FinMap as finite;
ghost use Rattle.std.specs.Option.{option_copied};
ghost use Rattle.ft_tree.specs.Tidy.{tidy};
ghost use Rattle.ft_forest.specs.declared.TheConstants.{LAST_NUMBER as last_number};
ghost use Rattle.ft_core.specs.Journals.{IsNoted, asked_for, no_events, sub_in, is_full, with_begin, with_ask, with_event, without, noted_up, GrantsAsk};
ghost use Rattle.ft_core.specs.Noted.{event_of};

use crate::LAST_NUMBER;
use crate::past::{Grant, Past, Seen, Turn};
use ft_base::{Memory, Table};
use ft_calls::{Call, Reply};
use ft_forest::TxnId;
use ft_lock_rules::Rule;
use ft_paged::PagedTable;
use ft_tree::Tree;
use std::alloc::Global;
use std::marker::Model;

/// On what terms calls are granted: by which rule, and how many since the base.
#[derive(Clone, Copy)]
pub(crate) struct Terms {
    pub rule: Rule,
    pub calls: u64,
}

pub(crate) struct Journal {
    terms: Terms,
    // (no bytes: only clauses see what has happened)
    past: Past,
    asks: Table<Call>,
    subs: PagedTable<Option<u64>>,
    base_stamp: u64,
    last_stamp: u64,
}

impl Drop for Journal {
    fn drop(self) {
        let Journal {
            terms: _,
            past: _,
            asks: _,
            subs: _,
            base_stamp: _,
            last_stamp: _,
        } = self;
    }
}

impl Model for Journal {
    ghost use Rattle.std.specs.Prelude.{◌≤◌};
    ghost use Rattle.ft_forest.specs.declared.TheConstants.{LAST_NUMBER as last_number};
    ghost use Rattle.ft_core.specs.Journals.{Journaled, coded_journaled};

    ghost Value = { Journaled };

    ghost coded = { coded_journaled };

    ghost view = { λ a. record {
      rule = a.terms.rule;
      calls = a.terms.calls;
      events = a.past.events;
      asks = a.asks;
      subs = a.subs;
      base_tree = a.past.tree;
      base_stamp = a.base_stamp;
      last_stamp = a.last_stamp;
    } };

    ghost invariant = { λ a. (a.base_stamp ≤ a.last_stamp) × (a.last_stamp ≤ last_number) };
}

impl Journal {
    /// Returns the journal of a core on which nothing has happened since this tree, which is not
    /// kept; `stamp` is the last one given before. Takes no memory.
    pub(crate) fn new(alloc: Global, terms: Terms, base: &Tree, stamp: u64) -> Journal
        requires { stamp ≤ last_number }
        ensures { result ≡ no_events terms.rule terms.calls (tidy base.now) stamp }
    {
        Journal {
            terms,
            past: Past::new(base),
            asks: Table::new(alloc),
            subs: PagedTable::new(alloc),
            base_stamp: stamp,
            last_stamp: stamp,
        }
    }

    /// Returns by which rule calls are granted, and how many since the base.
    pub(crate) fn terms(&self) -> Terms
        ensures rule { result.rule ≡ self.now.rule }
        ensures calls { result.calls ≡ self.now.calls }
    {
        self.terms
    }

    /// Returns by which rule calls are granted.
    pub(crate) fn rule(&self) -> Rule
        ensures { result ≡ self.now.rule }
    {
        self.terms.rule
    }

    /// Returns the calls that transactions wait for.
    pub(crate) fn asks(&self) -> &Table<Call>
        ensures { result.now ≡ self.now.asks }
    {
        &self.asks
    }

    /// Returns the call that a transaction waits for.
    pub(crate) fn pending(&self, txn: TxnId) -> Option<&Call>
        ensures { option_copied result ≡ finite.get self.now.asks txn }
    {
        self.asks.get(txn.0)
    }

    /// Returns the call that is asked for now, or without one the call that the transaction waits
    /// for.
    pub(crate) fn wanted<'a>(&'a self, txn: TxnId, asked: &'a Option<Call>) -> &'a Call
        requires { IsSome (asked_for asked.now (finite.get self.now.asks txn)) }
        ensures { asked_for asked.now (finite.get self.now.asks txn) ≡ Some result.now }
    {
        if let Some(call) = asked {
            return call;
        }
        let Some(call) = self.asks.get(txn.0) else {
            unreachable!();
        };
        call
    }

    /// Returns the last stamp when a child of a live transaction last committed.
    pub(crate) fn last_sub(&self, txn: TxnId) -> Option<u64>
        ensures { result ≡ sub_in self.now txn }
    {
        self.subs.get(txn.0).flatten()
    }

    /// Returns the last stamp given; if no call was granted yet, the base's last one.
    pub(crate) fn last_stamp(&self) -> u64
        ensures stamp { result ≡ self.now.last_stamp }
        ensures last { result ≤ last_number }
    {
        self.last_stamp
    }

    /// Returns whether as many calls were granted since the base stamp as may be, or the last stamp
    /// is the greatest number.
    pub(crate) fn is_full(&self) -> bool
        ensures { result ≡ is_full self.now }
    {
        self.last_stamp - self.base_stamp >= self.terms.calls || self.last_stamp >= LAST_NUMBER
    }

    /// Returns the stamp after the last one.
    pub(crate) fn next_stamp(&self) -> u64
        ensures { result ≡ self.now.last_stamp + 1 }
    {
        self.last_stamp + 1
    }

    /// Makes the place of what is noted of a transaction that is to begin.
    pub(crate) fn open(&mut self, txn: u64) -> Result<(), Memory>
        ensures ok { OnOk result (self.new
            ≡ record self.old { subs = finite.insert self.old.subs txn None }) }
        ensures err { OnErr result (self.new ≡ self.old) }
    {
        self.subs.insert(txn, None)
    }

    /// Notes that a transaction has begun.
    pub(crate) fn begin(&mut self, txn: TxnId, parent: Option<TxnId>)
        ensures { self.new ≡ with_begin self.old txn parent }
    {
        self.past = self.past.then(&Turn::Begin { txn, parent });
    }

    /// Notes that a call was granted: the one that was asked for now, or without one the call that
    /// the transaction waits for. It waits for nothing then. Hands out the call that it waited for.
    pub(crate) fn grant(
        &mut self,
        txn: TxnId,
        asked: &Option<Call>,
        reply: &Reply,
        seen: &Seen,
    ) -> Option<Call>
        requires few { is_full self.old ≡ false }
        requires some { IsSome (asked_for asked.now (finite.get self.old.asks txn)) }
        ensures pending { result ≡ finite.get self.old.asks txn }
        ensures told { GrantsAsk self.old self.new txn asked.now reply.now seen.now.accesses }
    {
        let stamp = self.last_stamp + 1;
        self.past = self.past.and(&Grant {
            stamp,
            txn,
            call: self.wanted(txn, asked),
            reply,
            seen,
        });
        self.last_stamp = stamp;
        self.take_ask(txn)
    }

    /// Notes that a transaction waits for a call that was asked for now. Without one it waits on.
    pub(crate) fn wait(&mut self, txn: TxnId, asked: Option<Call>) -> Result<(), Memory>
        ensures ok { OnOk result (self.new ≡ with_ask self.old txn asked) }
        ensures err { OnErr result (self.new ≡ self.old) }
    {
        if let Some(call) = asked {
            self.asks.insert(txn.0, call)?;
        }
        Ok(())
    }

    /// Takes out the call that a transaction waits for, if there is one.
    fn take_ask(&mut self, txn: TxnId) -> Option<Call>
        ensures taken { result ≡ finite.get self.old.asks txn }
        ensures left { self.new ≡ record self.old { asks = finite.remove self.old.asks txn } }
    {
        // (mostly nobody waits, and then nothing is hashed)
        if self.asks.is_empty() {
            return None;
        }
        self.asks.remove(txn.0)
    }

    /// Forgets the call that a transaction waits for.
    pub(crate) fn drop_ask(&mut self, txn: TxnId)
        ensures { self.new ≡ record self.old { asks = finite.remove self.old.asks txn } }
    {
        let _ = self.take_ask(txn);
    }

    /// Records the end of a transaction or an undo.
    pub(crate) fn tell(&mut self, turn: &Turn)
        ensures { self.new ≡ with_event self.old (event_of turn.now) }
    {
        self.past = self.past.then(turn);
    }

    /// Forgets what is noted of a transaction.
    pub(crate) fn forget(&mut self, txn: TxnId)
        ensures { self.new ≡ without self.old txn }
    {
        self.drop_ask(txn);
        self.subs.remove(txn.0);
    }

    /// Notes of a live transaction that a child of it commits. A transaction that commits at the
    /// top is nobody's child.
    pub(crate) fn note_sub(&mut self, parent: Option<TxnId>)
        requires { IsNoted self.old parent }
        ensures { self.new ≡ noted_up self.old parent }
    {
        if let Some(txn) = parent {
            self.subs.set(txn.0, Some(self.last_stamp));
        }
    }
}

/// Returns the call that is asked for now, or without one the call that was waited for.
pub(crate) fn asked_or(asked: Option<Call>, pending: Option<Call>) -> Call
    requires { IsSome (asked_for asked pending) }
    ensures { asked_for asked pending ≡ Some result }
{
    let Some(call) = asked.or(pending) else {
        unreachable!();
    };
    call
}
