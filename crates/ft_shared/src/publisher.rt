// The publisher of the committed calls of a core.
ghost use Rattle.std.specs.Prelude.{◌≡◌, ◌++◌, ◌∷◌, [], drop, length, None, MatchBool, IfOk, IsSome, OnOk, OnErr};
ghost use mathlib.Core.List.{IsPrefix};
ghost use Rattle.ft_serial.specs.Serials.{committed_calls, committed_in};
ghost use Rattle.ft_shared.specs.Publishing.{IsPublishable, IsPublished, listed};

use core::mem::replace_with;
use ft_base::Memory;
use ft_calls::StampedCall;
use ft_core::{Core, Event};
use ft_serial::CommittedCalls;
use ft_view::{
    Prefix, PublishLog, Published, Receipt, View, ViewFault, ViewHandle, ViewStep, ViewWriter,
    ViewsBrand,
};
use std::alloc::Global;
use std::marker::Model;
use std::sync::Wait;

/// The most readers of a core's views at one time.
pub const MOST_READERS: usize = 64;

/// The publisher of the committed calls of a core. It is not `Drop`: end it by `end`.
pub(crate) struct Publisher<J: ViewsBrand> {
    book: PublishLog,
    writer: ViewWriter<J>,
    // The committed calls that were taken from the core.
    commits: CommittedCalls,
    // The list that the writer was given.
    fed: Prefix,
    // The list that the book has: the same, or one call more, if there was no memory to give it.
    told: Prefix,
    // A call that was taken from the core, and not yet given to the writer.
    held: Option<StampedCall>,
}

impl<J: ViewsBrand> Model for Publisher<J> {
    ghost use Rattle.ft_shared.specs.Publishing.{Publishing, coded_publishing, IsPublishing};

    ghost Value = { Publishing };

    ghost coded = { coded_publishing };

    ghost view = { λ a. record {
      published = a.writer.desk.shown.value.front.calls;
      fed = a.fed.calls;
      told = a.told.calls;
      held = a.held;
      commits = a.commits;
    } };

    ghost invariant = { λ a. IsPublishing J.opened J.shows a.book a.writer.desk.shown.value
        a.writer.behind a.writer.log.items a.fed a.told a.held a.commits };
}

/// The parts of a publisher: a book, the front that has seen nothing of it, and two equal views of
/// the base.
#[derive(Drop)]
pub(crate) struct Blank {
    pub(crate) book: PublishLog,
    pub(crate) nothing: Prefix,
    pub(crate) first: View,
    pub(crate) second: View,
}

impl<J: ViewsBrand> Publisher<J> {
    /// Returns a publisher that has published nothing.
    pub(crate) fn new(alloc: Global, blank: Blank) -> Result<Publisher<J>, Memory>
        requires book { (blank.book ≡ J.opened.book) × (blank.nothing.book ≡ J.opened.book) }
        requires nothing { blank.nothing.calls ≡ [] }
        requires first { blank.first ≡ record { tree = J.opened.base; front = blank.nothing } }
        requires second { blank.second ≡ record { tree = J.opened.base; front = blank.nothing } }
        requires whole { J.shows [] }
        ensures published { IfOk result (λ publisher. publisher.published ≡ []) }
        ensures passed { IfOk result (λ publisher. publisher.commits.events ≡ []) }
        ensures forgotten { IfOk result (λ publisher. publisher.commits.forgotten ≡ 0) }
    {
        let Blank {
            book,
            nothing,
            first,
            second,
        } = blank;
        match ViewWriter::new(alloc, first, second, MOST_READERS) {
            Ok(writer) => Ok(Publisher {
                book,
                writer,
                commits: CommittedCalls::new(alloc),
                fed: nothing.again(),
                told: nothing,
                held: None,
            }),
            Err(_) => Err(Memory),
        }
    }

    /// Returns what looks at the views. Refuses NoReader.
    pub(crate) fn reader(&self) -> Result<ViewHandle<J>, ViewFault> {
        self.writer
            .factory()
            .reader()
            .map_err(|_| ViewFault::NoReader)
    }

    /// Its contract: the published calls had committed when the core was last gone over. It does
    /// nothing.
    pub(crate) fn stands(&self)
        ensures { IsPrefix self.now.published (committed_in self.now.commits.events) }
    {
        let _ = &self.writer;
    }

    /// Publishes the whole committed part of the core, and returns how many calls that has, with
    /// the receipt of it. After lack of memory readers see what they saw.
    pub(crate) fn publish<R: Wait>(
        &mut self,
        rt: &R,
        core: &Core,
        events: &[Event],
    ) -> Result<(u64, Receipt<J>), Memory>
        requires passed { IsPrefix self.old.commits.events core.now.state.events }
        requires events { events.now ≡ drop self.old.commits.forgotten core.now.state.events }
        requires whole { J.shows (committed_calls core.now.state) }
        ensures forgotten { self.new.commits.forgotten ≡ self.old.commits.forgotten }
        ensures passed { IsPrefix self.new.commits.events core.now.state.events }
        ensures gone { OnOk result (self.new.commits.events ≡ core.now.state.events) }
        ensures whole { OnOk result (self.new.published ≡ committed_calls core.now.state) }
        ensures count { IfOk result (λ told. told.0 ≡ length (committed_calls core.now.state)) }
        ensures receipt { IfOk result (λ told. told.1 ≡ committed_calls core.now.state) }
        ensures same { OnErr result (self.new.published ≡ self.old.published) }
    {
        self.feed(core, events)?;
        self.show(rt)?;
        Ok((self.fed.len(), Receipt::new(self.fed.again())))
    }

    /// Forgets the events of the core, which were all gone over: the next ones are given without
    /// them.
    pub(crate) fn forget(&mut self, core: &Core)
        requires { self.old.commits.events ≡ core.now.state.events }
        ensures published { self.new.published ≡ self.old.published }
        ensures passed { self.new.commits.events ≡ self.old.commits.events }
        ensures forgotten { self.new.commits.forgotten ≡ length core.now.state.events }
    {
        self.commits.forget(core);
    }

    /// Gives the writer all committed calls that it has not got.
    fn feed(&mut self, core: &Core, events: &[Event]) -> Result<(), Memory>
        requires passed { IsPrefix self.old.commits.events core.now.state.events }
        requires events { events.now ≡ drop self.old.commits.forgotten core.now.state.events }
        ensures forgotten { self.new.commits.forgotten ≡ self.old.commits.forgotten }
        ensures passed { IsPrefix self.new.commits.events core.now.state.events }
        ensures published { self.new.published ≡ self.old.published }
        ensures gone { OnOk result (self.new.commits.events ≡ core.now.state.events) }
        ensures all { OnOk result (self.new.fed ≡ committed_calls core.now.state) }
    {
        self.give()?;
        while self.take_next(core, events)? {
            self.give()?;
        }
        Ok(())
    }

    /// Takes the next of the committed calls from the core, and returns whether there is one.
    fn take_next(&mut self, core: &Core, events: &[Event]) -> Result<bool, Memory>
        requires passed { IsPrefix self.old.commits.events core.now.state.events }
        requires events { events.now ≡ drop self.old.commits.forgotten core.now.state.events }
        requires nothing { self.old.held ≡ None }
        ensures passed { IsPrefix self.new.commits.events core.now.state.events }
        ensures published { self.new.published ≡ self.old.published }
        ensures forgotten { self.new.commits.forgotten ≡ self.old.commits.forgotten }
        ensures taken { OnOk result (self.new.commits.given ≡ self.old.commits.given
            ++ listed self.new.held) }
        ensures first { IsPrefix self.new.commits.given (committed_calls core.now.state) }
        ensures gone { IfOk result
            (λ more. MatchBool more (IsSome self.new.held) (self.new.commits.events
            ≡ core.now.state.events)) }
        ensures more { IfOk result
            (λ more. MatchBool more (IsSome self.new.held) (self.new.fed
            ≡ committed_calls core.now.state)) }
    {
        self.held = self.commits.next(core, events)?;
        Ok(self.held.is_some())
    }
}

impl<J: ViewsBrand> Publisher<J> {
    /// Gives the writer the call that is held, if one is. After lack of memory it is held still.
    fn give(&mut self) -> Result<(), Memory>
        ensures others { (self.new.published ≡ self.old.published)
            × (self.new.commits ≡ self.old.commits) }
        ensures given { OnOk result (self.new.held ≡ None) }
    {
        self.tell()?;
        self.append()
    }

    /// Gives the book the call that is held, if the book has not got it.
    fn tell(&mut self) -> Result<(), Memory>
        ensures others { self.new ≡ record self.old { told = self.new.told } }
        ensures told { OnOk result (self.new.told ≡ self.old.fed ++ listed self.old.held) }
    {
        let Some(call) = &self.held else {
            return Ok(());
        };
        if self.told.len() > self.fed.len() {
            return Ok(());
        }
        // The book has gone on without this publisher only if another one had it, and none has.
        let Some(told) = self.told.append(&self.book, call) else {
            return Err(Memory);
        };
        self.told = told;
        Ok(())
    }

    /// Gives the writer the call that is held, which the book has got.
    fn append(&mut self) -> Result<(), Memory>
        requires { self.old.told ≡ self.old.fed ++ listed self.old.held }
        ensures others { (self.new.published ≡ self.old.published)
            × (self.new.commits ≡ self.old.commits) }
        ensures fed { OnOk result ((self.new.fed ≡ self.old.fed ++ listed self.old.held)
            × (self.new.held ≡ None)) }
        ensures same { OnErr result ((self.new.fed ≡ self.old.fed)
            × (self.new.held ≡ self.old.held)) }
    {
        let Some(call) = self.held.take() else {
            return Ok(());
        };
        let front = self.told.again();
        match self.writer.append(Published { call, front }) {
            Ok(()) => {
                self.fed = self.told.again();
                Ok(())
            }
            Err(Published { call, front: _ }) => {
                self.held = Some(call);
                Err(Memory)
            }
        }
    }

    /// Shows readers the calls that the writer was given, which are whole transactions. It waits
    /// for the readers of the other copy.
    fn show<R: Wait>(&mut self, rt: &R) -> Result<(), Memory>
        requires { J.shows self.old.fed }
        ensures others { (self.new.fed ≡ self.old.fed) × (self.new.commits ≡ self.old.commits) }
        ensures shown { OnOk result (self.new.published ≡ self.old.fed) }
        ensures same { OnErr result (self.new.published ≡ self.old.published) }
    {
        replace_with(
            &mut self.writer,
            rt,
            |writer: ViewWriter<J>, rt: &R| -> (ViewWriter<J>, Result<(), Memory>)
                requires { IsPublishable J.opened J.shows writer.desk.shown.value writer.behind
                    writer.log.items }
                ensures { IsPublished writer.desk.shown.value writer.behind writer.log.items
                    result.0.desk.shown.value result.0.behind result.0.log.items result.1 }
            { shown(writer, rt) },
        )
    }

    /// Ends the views. It waits for those that read.
    pub(crate) fn end<R: Wait>(self, rt: &R) {
        let Publisher {
            book: _,
            writer,
            commits: _,
            fed: _,
            told: _,
            held: _,
        } = self;
        drop(writer.take(rt));
    }
}

/// Shows what is pending.
fn shown<J: ViewsBrand, R: Wait>(
    writer: ViewWriter<J>,
    rt: &R,
) -> (ViewWriter<J>, Result<(), Memory>)
    requires { IsPublishable J.opened J.shows writer.desk.shown.value writer.behind
        writer.log.items }
    ensures { IsPublished writer.desk.shown.value writer.behind writer.log.items
        result.0.desk.shown.value result.0.behind result.0.log.items result.1 }
{
    let (writer, shown) = writer.publish_as::<ViewStep<J>, R>(rt);
    (writer, shown.map_err(|_| Memory))
}
