// A walk along the events of a core that gives the committed calls out.
ghost use Rattle.std.specs.Prelude.{◌≡◌, ◌<◌, ◌+◌, [], length, OnOk, OnErr};
ghost use Rattle.std.specs.FinMap as finite;
ghost use Rattle.ft_core.specs.States.{history};
ghost use Rattle.ft_core.specs.Reached.{IsReached};
ghost use Rattle.ft_serial.specs.Walks.{stands as stands_in, IsWalk, GivesNext, TakesNext, PassesEvent, KeepsPlace};

use crate::asked::{Asked, forget_all, push_call};
use crate::top_level::find_top;
use ft_base::{Memory, Table};
use ft_calls::StampedCall;
use ft_core::{Core, Event, TxnId};
use std::alloc::Global;

/// The core's events that have been gone over. It keeps what it needs to know of them, so that they
/// may be forgotten.
#[derive(Drop)]
pub(crate) struct Walk {
    /// How many of the events that are kept were gone over.
    pub(crate) passed: usize,
    /// The stamps that were undone, of the calls that are listed below.
    undone: Table<()>,
    /// For each top-level transaction that has not ended its granted calls, the oldest first.
    under: Table<Vec<Asked>>,
    /// The calls of the transaction that committed last which are still to be looked at, the
    /// newest first.
    closing: Vec<Asked>,
}

impl Walk {
    /// Returns a walk that has gone over nothing. Takes no memory.
    pub(crate) fn new(alloc: Global) -> Walk
        ensures { IsWalk 0 result [] [] }
    {
        Walk {
            passed: 0,
            undone: Table::new(alloc),
            under: Table::new(alloc),
            closing: Vec::new(alloc),
        }
    }

    /// Returns the next committed call in the serial order, if there is one that was not given out.
    /// The events are those of the core except the forgotten ones.
    pub(crate) fn next(
        &mut self,
        core: &Core,
        events: &[Event],
    ) -> Result<Option<StampedCall>, Memory>
        ensures next { GivesNext self.old self.new core.now.state events.now result }
        ensures reached { IsReached core.now }
    {
        let alloc = core.alloc();
        loop {
            if let Some(call) = self.take_closing(core) {
                return Ok(Some(call));
            }
            if self.passed >= events.len() {
                return Ok(None);
            }
            self.pass(alloc, core, events)?;
        }
    }

    /// Returns the next call of the transaction that committed last, if there is one. Takes no
    /// memory.
    fn take_closing(&mut self, core: &Core) -> Option<StampedCall>
        requires { IsReached core.now }
        ensures taken { TakesNext self.old self.new core.now.state result }
        ensures passed { self.new.passed ≡ self.old.passed }
    {
        while let Some(asked) = self.closing.pop() {
            let Asked { txn, call } = asked;
            let stands = self.stands(core, call.stamp, txn);
            self.undone.remove(call.stamp);
            if stands {
                return Some(call);
            }
        }
        None
    }

    /// Goes over the next event. Lack of memory changes nothing.
    fn pass(&mut self, alloc: Global, core: &Core, events: &[Event]) -> Result<(), Memory>
        requires reached { IsReached core.now }
        requires next { self.old.passed < length events.now }
        ensures ok { OnOk result (PassesEvent self.old self.new core.now.state events.now) }
        ensures passed { OnOk result (self.new.passed ≡ self.old.passed + 1) }
        ensures err { OnErr result (KeepsPlace self.old self.new core.now.state) }
    {
        match &events[self.passed] {
            Event::Call {
                stamp,
                txn,
                call,
                ..
            } => {
                let top = find_top(core, *txn).top;
                let call = call.copy(alloc)?;
                let call = StampedCall {
                    stamp: *stamp,
                    call,
                };
                push_call(alloc, &mut self.under, top, Asked { txn: *txn, call })?;
            }
            Event::Undo { stamp } => {
                self.undone.insert(*stamp, ())?;
            }
            Event::Commit { txn } => {
                if let Some(mut calls) = self.under.remove(txn.0) {
                    calls.reverse();
                    self.closing = calls;
                }
            }
            Event::Abort { txn } => {
                if let Some(calls) = self.under.remove(txn.0) {
                    forget_all(&mut self.undone, &calls);
                }
            }
            Event::Begin { .. } => {}
        }
        self.passed += 1;
        Ok(())
    }

    /// Returns whether a call that was granted is standing: it is not undone, and neither its asker
    /// nor an ancestor of that is aborted.
    pub(crate) fn stands(&self, core: &Core, stamp: u64, txn: TxnId) -> bool
        requires { IsReached core.now }
        ensures { result ≡ stands_in (finite.contains_key self.now.undone) (history core.now.state)
            stamp txn }
    {
        !self.undone.contains(stamp) && !find_top(core, txn).is_gone
    }
}
