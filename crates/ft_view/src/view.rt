// The published value: a tree with the list of calls whose replay it is.
ghost use Rattle.std.specs.Prelude.{◌≡◌};
ghost use Rattle.ft_tree.specs.Tidy.{tidy};
ghost use Rattle.ft_view.specs.Replay.{IsReadable};

use crate::READING;
use crate::answering::is_free;
use crate::clearing::make;
use crate::publish_log::{Prefix, ViewsBrand};
use crossbeam_utils::rule::{Outcome, Protocol};
use ft_posix::StampedCall;
use ft_tree::Tree;
use left_right::Absorb;
use left_right::writer::Writer;
use std::alloc::{AllocError, Global};
use std::marker::{Model, PhantomData};

/// A tree and a list of calls. Under the rule of the views the tree is the replay of the list.
///
/// Clauses see the plain tree and the list. The code has the tree and the length of the list.
#[derive(Drop)]
pub struct View {
    alloc: Global,
    tree: Tree,
    front: Prefix,
}

impl Model for View {
    ghost use Rattle.ft_tree.specs.Tidy.{tidy};
    ghost use Rattle.ft_view.specs.Replay.{IsReadable};
    ghost use Rattle.ft_view.specs.Shown.{Shown, coded_shown};

    ghost Value = { Shown };

    ghost coded = { coded_shown };

    ghost view = { λ a. record { tree = tidy a.tree; front = a.front } };

    ghost invariant = { λ a. IsReadable a.tree };
}

/// A call to publish, and the list that ends with it.
#[derive(Drop)]
pub struct Published {
    pub call: StampedCall,
    pub front: Prefix,
}

/// The rule of the views that a name refers to: readers take the replay of a list of their book,
/// and the list is whole.
pub struct ViewRule<J: ViewsBrand> {
    of: PhantomData<J>,
}

impl<J: ViewsBrand> Protocol<View, ()> for ViewRule<J> {
    ghost use Rattle.ft_view.specs.Shown.{IsViewOf};

    ghost holds = { λ x views. IsViewOf J.opened J.shows x };

    ghost first = { tt };
}

/// The outcome of a step under the rule: readers then take such a view.
pub struct ViewStep<J: ViewsBrand> {
    of: PhantomData<J>,
}

impl<J: ViewsBrand> Outcome<View, ()> for ViewStep<J> {
    ghost use Rattle.ft_view.specs.Shown.{IsViewOf};

    ghost then = { λ v x y w. IsViewOf J.opened J.shows y };
}

/// A writer that publishes views, one call after another.
pub type ViewWriter<J> = Writer<View, Published, (), ViewRule<J>>;

impl View {
    /// Returns a tree with a list. For the views that a name refers to, these are their base and
    /// the empty list.
    pub fn new(alloc: Global, tree: Tree, front: Prefix) -> View
        requires { IsReadable tree }
        ensures tree { result.tree ≡ tidy tree }
        ensures list { result.front ≡ front }
    {
        View { alloc, tree, front }
    }

    /// Returns the list of the view, of which the code has the length.
    pub fn front(&self) -> &Prefix
        ensures { result.now ≡ self.now.front }
    {
        &self.front
    }

    /// Returns the tree of the view.
    pub fn tree(&self) -> &Tree
        ensures tree { tidy result.now ≡ self.now.tree }
        ensures readable { IsReadable result.now }
    {
        &self.tree
    }
}

impl Absorb<Published> for View {
    /// No value of this type is made.
    type State = View;

    ghost use Rattle.ft_view.specs.Shown.{advanced};

    ghost state = { λ v. v };

    ghost applied = { λ v published. advanced v published.call published.front };

    /// Makes the call on the tree, and drops what is useless after it.
    ///
    /// The call fails, and nothing changes, if there is not enough memory or if its stamp already
    /// numbers something. The stamp of a committed call never does.
    fn absorb_first(&mut self, operation: &Published, _other: &View) -> Result<(), AllocError> {
        let StampedCall { stamp, call } = &operation.call;
        if *stamp >= READING || !is_free(&self.tree, *stamp) {
            return Err(AllocError);
        }
        let Ok(()) = make(self.alloc, &mut self.tree, *stamp, call) else {
            return Err(AllocError);
        };
        self.front = operation.front.again();
        Ok(())
    }
}
