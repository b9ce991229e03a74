// The committed calls of a core, one after another.
ghost use Rattle.std.specs.Prelude.{◌≡◌, ◌++◌, ◌∷◌, [], drop, length, IfOk, IfSome, IfNone, OnErr};
ghost use mathlib.Core.List.{IsPrefix};
ghost use Rattle.ft_serial.specs.Serials.{committed_calls, committed_in};

use crate::walk::Walk;
use ft_base::Memory;
use ft_calls::StampedCall;
use ft_core::{Core, Event};
use std::alloc::Global;
use std::marker::Model;
use std::snapshot::Snapshot;

/// The core's events that have been gone over, and the committed calls that were given out of them.
///
/// Clauses see these events and these calls. Neither is kept, but the calls of the top-level
/// transactions that have not ended are. Therefore, events that were gone over may be forgotten. A
/// checkpoint forgets all, so begin with a new one after it.
pub struct CommittedCalls {
    walk: Walk,
    // The core as it was when the events were last forgotten, and when it was last gone over. They
    // have no bytes.
    since: Option<Snapshot<Core>>,
    seen: Option<Snapshot<Core>>,
}

impl Drop for CommittedCalls {
    fn drop(self) {
        let CommittedCalls {
            walk: _,
            since: _,
            seen: _,
        } = self;
    }
}

impl Model for CommittedCalls {
    ghost use Rattle.ft_record.specs.Recent.{forgotten_by};
    ghost use Rattle.ft_serial.specs.CommittedCalls.{GoneOver, gone_over, passed_by, given_by};
    ghost use Rattle.ft_serial.specs.Walks.{IsWalk};

    ghost Value = { GoneOver };

    ghost view = { λ a. gone_over a.walk a.since a.seen };

    ghost invariant = { λ a. IsWalk (forgotten_by a.since) a.walk (passed_by a.walk a.since a.seen)
        (given_by a.walk (passed_by a.walk a.since a.seen)) };
}

impl CommittedCalls {
    /// Returns an iterator that has gone over nothing. Takes no memory.
    pub fn new(alloc: Global) -> CommittedCalls
        ensures events { result.events ≡ [] }
        ensures forgotten { result.forgotten ≡ 0 }
        ensures given { result.given ≡ [] }
    {
        CommittedCalls {
            walk: Walk::new(alloc),
            since: None,
            seen: None,
        }
    }

    /// Returns the next committed call in the serial order, if there is one that was not given out.
    ///
    /// The core's events begin with those that were gone over; only those after them are gone over
    /// now. The argument is the events except the forgotten ones. Out of memory is the only
    /// refusal, and loses nothing: the next try goes on.
    ///
    /// Takes the time of the events that are gone over, and for each call among them and each that
    /// is given out that of its asker's depth; and the memory of a copy of each call among them,
    /// until its top-level transaction has ended.
    pub fn next(&mut self, core: &Core, events: &[Event]) -> Result<Option<StampedCall>, Memory>
        requires first { IsPrefix self.old.events core.now.state.events }
        requires events { events.now ≡ drop self.old.forgotten core.now.state.events }
        ensures call { IfOk result
            (λ next. IfSome next (λ call. self.new.given ≡ self.old.given ++ call ∷ [])) }
        ensures same { IfOk result (λ next. IfNone next (self.new.given ≡ self.old.given)) }
        ensures all { IfOk result
            (λ next. IfNone next (self.new.given ≡ committed_calls core.now.state)) }
        ensures whole { IfOk result
            (λ next. IfNone next (self.new.events ≡ core.now.state.events)) }
        ensures err { OnErr result (self.new.given ≡ self.old.given) }
        ensures forgotten { self.new.forgotten ≡ self.old.forgotten }

        // For a caller that goes on with a later core: what was gone over and given out comes first
        // in this one.
        ensures events { IsPrefix self.new.events core.now.state.events }
        ensures given { IsPrefix self.new.given (committed_calls core.now.state) }
        ensures kept { IsPrefix self.new.given (committed_in self.new.events) }
    {
        let next = self.walk.next(core, events);
        self.seen = Some(Snapshot::of(core));
        next
    }

    /// Forgets the events of the core, which were all gone over: the next ones are given without
    /// them. Takes no memory.
    pub fn forget(&mut self, core: &Core)
        requires { self.old.events ≡ core.now.state.events }
        ensures events { self.new.events ≡ self.old.events }
        ensures forgotten { self.new.forgotten ≡ length core.now.state.events }
        ensures given { self.new.given ≡ self.old.given }
    {
        self.walk.passed = 0;
        self.since = Some(Snapshot::of(core));
        self.seen = Some(Snapshot::of(core));
    }
}
