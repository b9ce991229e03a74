// A list of events, with places for those that must not lack memory.
ghost use Rattle.std.specs.Prelude.{◌≡◌, ◌<◌, ◌≤◌, ◌+◌, [], OnOk, OnErr};
ghost use Rattle.ft_core.specs.FullOutcomes.{outcome_of};
ghost use Rattle.ft_record.specs.Recording.{HasReplyTwice, nothing_recorded, with_new, with_outcome, with_told, with_given_back};

use ft_base::{Memory, Sequence};
use ft_core::{Event, FullOutcome, Outcome, TxnId};
use std::alloc::Global;
use std::marker::Model;

pub(crate) struct Record {
    events: Vec<Event>,
    // How many places are kept for the ends of transactions and for undos.
    spare: usize,
}

impl Drop for Record {
    fn drop(self) {
        let Record {
            events: _,
            spare: _,
        } = self;
    }
}

impl Model for Record {
    ghost use Rattle.std.specs.Prelude.{◌-◌, ◌+◌, ◌≤◌, vec_len, vec_capacity};
    ghost use Rattle.ft_record.specs.Recording.{Recording, coded_recording};

    ghost Value = { Recording };

    ghost coded = { coded_recording };

    ghost view = { λ a. record {
      events = a.events.items;
      spare = a.spare;
      room = vec_capacity a.events - (vec_len a.events + a.spare);
    } };

    ghost invariant = { λ a. vec_len a.events + a.spare ≤ vec_capacity a.events };
}

impl Record {
    /// Returns a record in which nothing has happened. Takes no memory.
    pub(crate) fn new(alloc: Global) -> Record
        ensures { result ≡ record nothing_recorded { room = result.room } }
    {
        Record {
            events: Vec::new(alloc),
            spare: 0,
        }
    }

    /// Returns the events of the record.
    pub(crate) fn events(&self) -> &[Event]
        ensures { result.now ≡ self.now.events }
    {
        self.events.as_slice()
    }

    /// Makes the places of one more event, and of the one that ends or undoes it. If they are
    /// missing, an eighth of all is also made, and not as many again: these places are large, and
    /// many are kept free for ends and undos.
    pub(crate) fn reserve(&mut self) -> Result<(), Memory>
        ensures same { self.new ≡ record self.old { room = self.new.room } }
        ensures room { OnOk result (2 ≤ self.new.room) }
    {
        let wanted = self.spare + 2;
        if wanted <= self.events.capacity() - self.events.len() {
            return Ok(());
        }
        let more = self.events.capacity() / 8;
        self.events.reserve_exact(wanted + more)?;
        Ok(())
    }

    /// Records a begin or a call, in a new place; the other is kept for its end or its undo.
    pub(crate) fn add(&mut self, event: Event)
        requires { 2 ≤ self.old.room }
        ensures { self.new ≡ with_new self.old event }
    {
        self.events.push_reserved(event);
        self.spare += 1;
    }

    /// Records a call that was requested, if it was made, in a new place, and returns its outcome.
    pub(crate) fn add_outcome(&mut self, txn: TxnId, outcome: FullOutcome) -> Outcome
        requires room { 2 ≤ self.old.room }
        requires twice { HasReplyTwice outcome }
        ensures told { self.new ≡ with_outcome self.old txn outcome }
        ensures outcome { result ≡ outcome_of outcome }
    {
        match outcome {
            FullOutcome::Granted {
                stamp,
                call,
                reply,
                kept,
                accesses,
            } => {
                let Some(kept) = kept else {
                    unreachable!();
                };
                self.add(Event::Call {
                    stamp,
                    txn,
                    call,
                    reply: kept,
                    accesses: Sequence::from(accesses),
                });
                Outcome::Granted { stamp, reply }
            }
            FullOutcome::Waits { blockers } => Outcome::Waits { blockers },
        }
    }

    /// Records the end of a transaction or an undo, in a place that was kept.
    pub(crate) fn tell(&mut self, event: Event)
        requires { 0 < self.old.spare }
        ensures { self.new ≡ with_told self.old event }
    {
        self.events.push_reserved(event);
        self.spare -= 1;
    }

    /// Forgets the events. Places stay kept.
    pub(crate) fn forget(&mut self)
        ensures same { self.new ≡ record self.old { events = []; room = self.new.room } }
    {
        self.events.clear();
    }

    /// Gives places back that were kept: so many events cannot come any more.
    pub(crate) fn give_back(&mut self, count: u64)
        requires { count ≤ self.old.spare }
        ensures { self.new ≡ with_given_back self.old count }
    {
        self.spare -= count as usize;
    }
}
