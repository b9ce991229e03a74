// Views that were opened.
ghost use Rattle.std.specs.Prelude.{◌≡◌, [], Some, IfOk, IfErr};
ghost use Rattle.ft_tree.specs.Tidy.{tidy};
ghost use Rattle.ft_core.specs.Living.{NoneIsLive};
ghost use Rattle.ft_view.specs.Replay.{IsReadable};
ghost use Rattle.ft_shared.specs.Opening.{named_by, AreCopies, IsRefused, IsNameless};

use crate::guarded::Guarded;
use crate::publisher::{Blank, Publisher};
use crate::shareable::Shareable;
use crate::shared::Shared;
use crate::sharing::{Sharing, ViewsOf};
use ft_base::Memory;
use ft_core::Fault;
use ft_record::Recorded;
use ft_tree::Tree;
use ft_view::{PublishLog, Reader, View, ViewFault};
use std::alloc::Global;
use std::marker::Model;
use std::sync::Wait;

/// A core whose views are opened and have no name yet. Clauses see the core and the book.
#[derive(Drop)]
pub struct Opened<C: Shareable = Recorded> {
    core: C,
    blank: Blank,
}

impl<C: Shareable> Model for Opened<C> {
    ghost use Rattle.std.specs.Prelude.{◌≡◌, Some};
    ghost use Rattle.ft_shared.specs.Opening.{Opening, coded_opening, IsOpened};

    ghost Value = { Opening };

    ghost coded = { coded_opening };

    ghost view = { λ a. record { core = C.stored a.core; book = a.blank.book } };

    ghost invariant = { λ a. (C.forgotten a.core ≡ Some 0)
        × IsOpened (C.stored a.core).state a.blank.book a.blank.nothing a.blank.first
        a.blank.second };
}

/// The reason why a core has no views: it can't be shared, or there was not enough memory or no
/// place for the reader.
#[derive(Debug, PartialEq, Eq, Clone, Copy)]
pub enum Cause {
    Fault(Fault),
    View(ViewFault),
}

/// A core that has no views, and why.
#[derive(Drop)]
pub struct ViewsRefused<C = Recorded> {
    pub core: C,
    pub cause: Cause,
}

/// Opens views of a core. They start from its base, and nothing is published, whatever has
/// committed.
///
/// Refuses Live if a transaction is live, and then Memory, and hands the core back.
pub fn with_views<C: Shareable>(core: C) -> Result<Opened<C>, ViewsRefused<C>>
    requires kept { C.forgotten core ≡ Some 0 }
    requires base { C.knows_base core }
    ensures opened { IfOk result
        (λ opened. (opened.core ≡ C.stored core) × NoneIsLive (C.stored core).state) }
    ensures refused { IfErr result (λ refused. (refused.core ≡ core)
        × IsRefused (C.stored core).state refused.cause) }
{
    if core.core().has_live() {
        return Err(ViewsRefused {
            core,
            cause: Cause::Fault(Fault::Live),
        });
    }
    match blank(core.core().alloc(), core.base()) {
        Ok(blank) => Ok(Opened { core, blank }),
        Err(Memory) => Err(ViewsRefused {
            core,
            cause: Cause::View(ViewFault::Memory),
        }),
    }
}

/// Returns two copies of the base, with nothing of a new book.
fn blank(alloc: Global, base: &Tree) -> Result<Blank, Memory>
    requires { IsReadable base.now }
    ensures { IfOk result (λ blank. AreCopies (tidy base.now) blank.book blank.nothing blank.first
        blank.second) }
{
    let (first, second) = (base.copy()?, base.copy()?);
    let (book, nothing) = PublishLog::new();
    Ok(Blank {
        book,
        first: View::new(alloc, first, nothing.again()),
        second: View::new(alloc, second, nothing.again()),
        nothing,
    })
}

impl<C: Shareable> Opened<C> {
    /// Names the views, and makes of them what threads share and a reader that has seen nothing.
    ///
    /// The name, `J`, is only in the proofs: it ties readers and receipts to these views. Refuses
    /// Memory and then NoReader, if there is no place for the reader, and hands the core back.
    pub fn named<J: Sharing, R: Wait>(
        self,
        rt: &R,
    ) -> Result<(Shared<J, C>, Reader<ViewsOf<J>>), ViewsRefused<C>>
        requires { named_by self ≡ J.origin }
        ensures reader { IfOk result (λ named. named.1 ≡ []) }
        ensures refused { IfErr result
            (λ refused. (C.stored refused.core ≡ self.core) × IsNameless refused.cause) }
    {
        let Opened { core, blank } = self;
        let alloc = core.core().alloc();
        let nothing = blank.nothing.again();
        let publisher = match Publisher::<ViewsOf<J>>::new(alloc, blank) {
            Ok(publisher) => publisher,
            Err(Memory) => {
                return Err(ViewsRefused {
                    core,
                    cause: Cause::View(ViewFault::Memory),
                });
            }
        };
        match publisher.reader() {
            Ok(inner) => {
                let shared = Shared::over(Guarded::with_views(core, publisher));
                Ok((shared, Reader::new(alloc, inner, nothing)))
            }
            Err(fault) => {
                publisher.end(rt);
                Err(ViewsRefused {
                    core,
                    cause: Cause::View(fault),
                })
            }
        }
    }
}
