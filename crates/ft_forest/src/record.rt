// What is kept for one transaction. It refers to other transactions by their places, which are in
// the order of their numbers.
ghost use Rattle.std.specs.Prelude.{◌≡◌, ◌<◌, ◌+◌, ◌^◌, None};
ghost use Rattle.std.specs.Option.{ForSome};
ghost use Rattle.ft_forest.specs.declared.state.State.TheVariants.{Live};
ghost use Rattle.ft_forest.specs.Records.{parent_by, state_by};

use crate::state::State;

/// The record of each transaction, even after it has ended, in one number. The number is the
/// discriminant of its state, plus 4 times its parent's place plus one (0 at the top level).
#[derive(Clone, Copy)]
pub struct Record(pub u64);

/// The additional record of a live transaction.
#[derive(Clone, Copy)]
pub struct LiveRecord {
    pub depth: u64,
    /// How many live children it has, and the youngest of them.
    pub children: u64,
    pub youngest: Option<usize>,
    /// Its next live siblings. At the top level, all transactions are siblings.
    pub older: Option<usize>,
    pub younger: Option<usize>,
}

impl Record {
    /// Returns the record of a live transaction with this parent.
    pub fn begun(parent: Option<usize>) -> Record
        requires { ForSome parent (λ p. p + 1 < 2 ^ 62) }
        ensures parent { parent_by result.0 ≡ parent }
        ensures live { state_by result.0 ≡ Live }
    {
        let above = match parent {
            Some(place) => place as u64 + 1,
            None => 0,
        };
        Record(4 * above + State::Live as u64)
    }

    /// Returns the place of its parent, if it has one.
    pub fn parent(self) -> Option<usize>
        ensures { result ≡ parent_by self.0 }
    {
        let above = self.0 / 4;
        if above == 0 {
            None
        } else {
            Some(above as usize - 1)
        }
    }

    /// Returns its state.
    pub fn state(self) -> State
        ensures { result ≡ state_by self.0 }
    {
        match self.0 % 4 {
            0 => State::Live,
            1 => State::Committed,
            _ => State::Aborted,
        }
    }

    /// Returns the record with another state.
    pub fn with_state(self, state: State) -> Record
        ensures parent { parent_by result.0 ≡ parent_by self.0 }
        ensures state { state_by result.0 ≡ state }
    {
        Record(self.0 - self.0 % 4 + state as u64)
    }
}

impl LiveRecord {
    /// Returns the record of a live transaction without a child and without a younger sibling.
    pub fn begun(depth: u64, older: Option<usize>) -> LiveRecord
        ensures depth { result.depth ≡ depth }
        ensures children { result.children ≡ 0 }
        ensures youngest { result.youngest ≡ None }
        ensures older { result.older ≡ older }
        ensures younger { result.younger ≡ None }
    {
        LiveRecord {
            depth,
            children: 0,
            youngest: None,
            older,
            younger: None,
        }
    }
}
