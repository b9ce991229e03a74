// The way up from a transaction.
ghost use Rattle.std.specs.Prelude.{◌≡◌};
ghost use Rattle.ft_posix.specs.Posix.{posix_calls};
ghost use Rattle.ft_history.specs.Forest.{root};
ghost use Rattle.ft_history.specs.History.{parent as parent_of, is_gone as is_gone_of};
ghost use Rattle.ft_core.specs.States.{history, fate_of};
ghost use Rattle.ft_core.specs.Reached.{IsReached};
ghost use Rattle.ft_serial.specs.Walks.{is_aborted as is_aborted_fate};

use ft_core::{Core, State, TxnId};

/// The place to which the way up from a transaction leads.
#[derive(Clone, Copy)]
pub(crate) struct TopLevel {
    /// The top-level transaction at or above it.
    pub(crate) top: TxnId,
    /// Whether it is aborted, or one above it is.
    pub(crate) is_gone: bool,
}

/// Goes up from a transaction. Takes the time of its depth.
pub(crate) fn find_top(core: &Core, txn: TxnId) -> TopLevel
    requires { IsReached core.now }
    ensures top { result.top ≡ root (parent_of posix_calls (history core.now.state)) txn }
    ensures gone { result.is_gone ≡ is_gone_of posix_calls (history core.now.state) txn }
{
    let mut top = txn;
    let mut is_gone = false;
    while let Some(parent) = core.parent(top) {
        is_gone = is_gone || is_aborted(core, top);
        top = parent;
    }
    let is_gone = is_gone || is_aborted(core, top);
    TopLevel { top, is_gone }
}

/// Returns whether a transaction is aborted.
fn is_aborted(core: &Core, txn: TxnId) -> bool
    ensures { result ≡ is_aborted_fate (fate_of core.now.state txn) }
{
    match core.fate(txn) {
        Some(State::Aborted) => true,
        Some(State::Live | State::Committed) => false,
        None => false,
    }
}
