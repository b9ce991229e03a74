// The shared state, and the views of it, as proofs name them.
use ft_view::ViewsBrand;
use std::marker::{Brand, PhantomData};

/// The shared state: that of the core at that time, whether it has views, and their book. It is
/// known only in the proofs: by it clauses say that whatever is done goes on from that state.
///
/// `Brand` is a type to pick it for, at a call (CALLING.md). If nothing is picked, it means a new
/// core without views.
pub trait Sharing {
    ghost use Rattle.ft_shared.specs.Origins.{Origin};

    ghost origin: { Origin };
}

impl Sharing for Brand {
    ghost use Rattle.ft_shared.specs.Origins.{new_core};

    ghost origin = { new_core };
}

/// The views of what is shared under a name, for readers and receipts of them. No value of it is
/// made.
pub struct ViewsOf<J: Sharing> {
    of: PhantomData<J>,
}

impl<J: Sharing> ViewsBrand for ViewsOf<J> {
    ghost use Rattle.ft_shared.specs.Origins.{views_of, IsWhole};

    ghost opened = { views_of J.origin };

    ghost shows = { IsWhole J.origin.from };
}
