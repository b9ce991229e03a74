// Readers of views.
ghost use Rattle.std.specs.Prelude.{◌≡◌, ◌⊎◌, [], length, IfOk, OnOk, OnErr};
ghost use mathlib.Core.List.{IsPrefix};
ghost use Rattle.ft_posix.specs.declared.call.Call.TheVariants.{Stat, Lstat, Readlink, List};
ghost use Rattle.ft_view.specs.Replay.{replayed, reply_on};
ghost use Rattle.ft_view.specs.Reading.{contents_on, answer_on};
ghost use Rattle.ft_view.specs.Shown.{IsViewOf};

use crate::answering::{Question, answer};
use crate::publish_log::{Prefix, ViewsBrand};
use crate::view::{View, ViewRule, ViewStep};
use ft_base::Memory;
use ft_calls::Reply;
use ft_path::FilePath;
use left_right::reader::Reader as Looking;
use std::alloc::Global;
use std::marker::{Model, PhantomData};
use thiserror::Error;

/// Why a reader gives no answer.
#[derive(Clone, Copy, Debug, PartialEq, Eq, Error)]
pub enum ViewFault {
    /// There was not enough memory.
    #[error("Memory")]
    Memory = 1,
    /// There was no place or no memory for one more reader, and the call may be tried again. Or the
    /// views are no longer published, and this is permanent.
    ///
    /// It would also be the answer for a view that is older than what the reader knows. No such
    /// view occurs: a list is published before its receipt is given out, and it is never
    /// withdrawn.
    #[error("NoReader")]
    NoReader = 2,
}

impl From<Memory> for ViewFault {
    ghost use Rattle.std.specs.Prelude.{◌≡◌};
    ghost use Rattle.ft_view.specs.declared.reader.ViewFault.TheVariants.{Memory};

    ghost from_gives = { λ _ fault. fault ≡ Memory };

    /// Returns `ViewFault::Memory`.
    fn from(_memory: Memory) -> ViewFault {
        ViewFault::Memory
    }
}

/// A handle to look at the views, with the place that it takes.
pub type ViewHandle<J> = Looking<View, (), ViewRule<J>>;

/// The receipt of one publication: the list that it published. Clauses see the calls.
#[derive(Drop)]
pub struct Receipt<J: ViewsBrand> {
    front: Prefix,
    of: PhantomData<J>,
}

impl<J: ViewsBrand> Model for Receipt<J> {
    ghost use Rattle.std.specs.Prelude.{◌≡◌, List};
    ghost use Rattle.ft_posix.specs.declared.stamped.StampedCall.{StampedCall};

    ghost Value = { List StampedCall };

    ghost view = { λ a. a.front.calls };

    ghost invariant = { λ a. a.front.book ≡ J.opened.book };
}

impl<J: ViewsBrand> Receipt<J> {
    /// Returns the receipt of a list of the views' book.
    pub fn new(front: Prefix) -> Receipt<J>
        requires { front.book ≡ J.opened.book }
        ensures { result ≡ front.calls }
    {
        Receipt {
            front,
            of: PhantomData,
        }
    }

    /// Returns a copy, for one more reader. Takes no memory.
    pub fn again(&self) -> Receipt<J>
        ensures { result ≡ self.now }
    {
        Receipt::new(self.front.again())
    }
}

/// A reader of the views.
///
/// Clauses see what it knows: the longest list that it has seen or has learned from a receipt. Each
/// list that it sees later begins with that one.
///
/// None of its calls waits: it has no handle to wait with, and takes no lock.
#[derive(Drop)]
pub struct Reader<J: ViewsBrand> {
    alloc: Global,
    inner: Option<ViewHandle<J>>,
    known: Prefix,
}

impl<J: ViewsBrand> Model for Reader<J> {
    ghost use Rattle.std.specs.Prelude.{◌≡◌, List};
    ghost use Rattle.ft_posix.specs.declared.stamped.StampedCall.{StampedCall};

    ghost Value = { List StampedCall };

    ghost view = { λ a. a.known.calls };

    ghost invariant = { λ a. a.known.book ≡ J.opened.book };
}

impl<J: ViewsBrand> Reader<J> {
    /// Returns a reader that has seen nothing, given the empty list of the views' book.
    pub fn new(alloc: Global, inner: ViewHandle<J>, nothing: Prefix) -> Reader<J>
        requires book { nothing.book ≡ J.opened.book }
        requires empty { nothing.calls ≡ [] }
        ensures { result ≡ [] }
    {
        Reader {
            alloc,
            inner: Some(inner),
            known: nothing,
        }
    }

    /// Returns another reader of the same views, which knows what this one knows. Fails with
    /// `NoReader` if there is no place or no memory for it.
    pub fn again(&self) -> Result<Reader<J>, ViewFault>
        ensures { IfOk result (λ reader. reader ≡ self.now) }
    {
        let Some(inner) = &self.inner else {
            return Err(ViewFault::NoReader);
        };
        match inner.factory().reader() {
            Ok(inner) => Ok(Reader {
                alloc: self.alloc,
                inner: Some(inner),
                known: self.known.again(),
            }),
            Err(_) => Err(ViewFault::NoReader),
        }
    }

    /// Returns a receipt of what the reader knows. A reader that learns it sees no older list from
    /// then on. Takes no memory.
    pub fn receipt(&self) -> Receipt<J>
        ensures { result ≡ self.now }
    {
        Receipt::new(self.known.again())
    }

    /// Learns from a receipt: each list that the reader sees from now on begins with that of the
    /// receipt.
    pub fn learn(&mut self, receipt: Receipt<J>)
        ensures one { (self.new ≡ self.old) ⊎ (self.new ≡ receipt) }
        ensures before { IsPrefix self.old self.new }
        ensures told { IsPrefix receipt self.new }
    {
        self.known = self.known.max(&receipt.front);
    }

    /// Returns the number of calls in the list of the view, and the reply of Stat on the view's
    /// tree.
    ///
    /// The list begins with the list seen before and with that of each receipt learned. It is whole
    /// (`shows`). For a shared core it has the committed calls: those of each top-level transaction
    /// all together, or none of them.
    ///
    /// Fails with `Memory` or `NoReader`. The reader then knows only what it knew before.
    pub fn stat(&mut self, path: &FilePath) -> Result<(u64, Reply), ViewFault>
        ensures before { IsPrefix self.old self.new }
        ensures whole { OnOk result (J.shows self.new) }
        ensures count { IfOk result (λ told. told.0 ≡ length self.new) }
        ensures reply { IfOk result
            (λ told. told.1 ≡ reply_on (replayed J.opened.base self.new) (Stat path.now)) }
        ensures refused { OnErr result (self.new ≡ self.old) }
    {
        self.query(&Question::Stat(path))
    }

    /// Returns the number of calls in the list of the view, and the reply of Lstat, which describes
    /// a symbolic link itself. The list and the faults are those of `stat`.
    pub fn lstat(&mut self, path: &FilePath) -> Result<(u64, Reply), ViewFault>
        ensures before { IsPrefix self.old self.new }
        ensures whole { OnOk result (J.shows self.new) }
        ensures count { IfOk result (λ told. told.0 ≡ length self.new) }
        ensures reply { IfOk result
            (λ told. told.1 ≡ reply_on (replayed J.opened.base self.new) (Lstat path.now)) }
        ensures refused { OnErr result (self.new ≡ self.old) }
    {
        self.query(&Question::Lstat(path))
    }

    /// Returns the number of calls in the list of the view, and the reply of Readlink: the target
    /// of a symbolic link. The list and the faults are those of `stat`.
    pub fn read_link(&mut self, path: &FilePath) -> Result<(u64, Reply), ViewFault>
        ensures before { IsPrefix self.old self.new }
        ensures whole { OnOk result (J.shows self.new) }
        ensures count { IfOk result (λ told. told.0 ≡ length self.new) }
        ensures reply { IfOk result
            (λ told. told.1 ≡ reply_on (replayed J.opened.base self.new) (Readlink path.now)) }
        ensures refused { OnErr result (self.new ≡ self.old) }
    {
        self.query(&Question::Link(path))
    }

    /// Returns the number of calls in the list of the view, and the reply of List. The list of
    /// calls and the faults are those of `stat`.
    pub fn list(&mut self, path: &FilePath) -> Result<(u64, Reply), ViewFault>
        ensures before { IsPrefix self.old self.new }
        ensures whole { OnOk result (J.shows self.new) }
        ensures count { IfOk result (λ told. told.0 ≡ length self.new) }
        ensures reply { IfOk result
            (λ told. told.1 ≡ reply_on (replayed J.opened.base self.new) (List path.now)) }
        ensures refused { OnErr result (self.new ≡ self.old) }
    {
        self.query(&Question::List(path))
    }

    /// Returns the number of calls in the list of the view, and the contents of a file. The list
    /// and the faults are those of `stat`.
    ///
    /// The contents are the reply of a Read after an Open for reading without flags, or the error
    /// of that Open. The Read is of as many bytes as a file may have. No descriptor is left open.
    pub fn read_file(&mut self, path: &FilePath) -> Result<(u64, Reply), ViewFault>
        ensures before { IsPrefix self.old self.new }
        ensures whole { OnOk result (J.shows self.new) }
        ensures count { IfOk result (λ told. told.0 ≡ length self.new) }
        ensures reply { IfOk result
            (λ told. told.1 ≡ contents_on (replayed J.opened.base self.new) path.now) }
        ensures refused { OnErr result (self.new ≡ self.old) }
    {
        self.query(&Question::File(path))
    }

    /// Returns the number of calls in the list of the view, and the answer to a question. Fails
    /// with `Memory` or `NoReader`.
    fn query(&mut self, question: &Question<'_>) -> Result<(u64, Reply), ViewFault>
        ensures before { IsPrefix self.old self.new }
        ensures whole { OnOk result (J.shows self.new) }
        ensures count { IfOk result (λ told. told.0 ≡ length self.new) }
        ensures reply { IfOk result
            (λ told. told.1 ≡ answer_on (replayed J.opened.base self.new) question.now) }
        ensures refused { OnErr result (self.new ≡ self.old) }
    {
        let Some(inner) = self.inner.take() else {
            return Err(ViewFault::NoReader);
        };
        let (inner, told) = look(self.alloc, inner, &mut self.known, question);
        self.inner = Some(inner);
        told
    }
}

/// Puts a question to the view that was published last, and returns the handle with the answer. If
/// no view can be read, the answer is `NoReader`.
fn look<J: ViewsBrand>(
    alloc: Global,
    inner: ViewHandle<J>,
    known: &mut Prefix,
    question: &Question<'_>,
) -> (ViewHandle<J>, Result<(u64, Reply), ViewFault>)
    requires { known.old.book ≡ J.opened.book }
    ensures book { known.new.book ≡ J.opened.book }
    ensures before { IsPrefix known.old.calls known.new.calls }
    ensures whole { OnOk result.1 (J.shows known.new.calls) }
    ensures count { IfOk result.1 (λ told. told.0 ≡ length known.new.calls) }
    ensures reply { IfOk result.1 (λ told. told.1
        ≡ answer_on (replayed J.opened.base known.new.calls) question.now) }
    ensures refused { OnErr result.1 (known.new ≡ known.old) }
{
    match inner.enter_as::<ViewStep<J>>() {
        Ok(reading) => {
            let told = tell::<J>(alloc, reading.get(), known, question);
            (reading.leave(), told)
        }
        Err(inner) => (inner, Err(ViewFault::NoReader)),
    }
}

/// Returns the number of calls in the list of a view, and the answer of its tree to a question. The
/// list then replaces the known one.
///
/// Fails with `Memory`, or with `NoReader` if the list does not begin with the known one.
fn tell<J: ViewsBrand>(
    alloc: Global,
    view: &View,
    known: &mut Prefix,
    question: &Question<'_>,
) -> Result<(u64, Reply), ViewFault>
    requires view { IsViewOf J.opened J.shows view.now }
    requires known { known.old.book ≡ J.opened.book }
    ensures book { known.new.book ≡ J.opened.book }
    ensures before { IsPrefix known.old.calls known.new.calls }
    ensures whole { OnOk result (J.shows known.new.calls) }
    ensures count { IfOk result (λ told. told.0 ≡ length known.new.calls) }
    ensures reply { IfOk result
        (λ told. told.1 ≡ answer_on (replayed J.opened.base known.new.calls) question.now) }
    ensures refused { OnErr result (known.new ≡ known.old) }
{
    let shown = view.front();
    // The list always begins so: a list that is published later is no shorter.
    if !known.is_prefix_of(shown) {
        return Err(ViewFault::NoReader);
    }
    let reply = answer(alloc, view.tree(), question)?;
    *known = shown.again();
    Ok((known.len(), reply))
}
