// Granted calls in lists by top-level transactions.
ghost use Rattle.std.specs.Prelude.{◌≡◌, ◌==◌, ◌++◌, ◌∷◌, [], ℕ, cond, OnOk, OnErr};
ghost use Rattle.ft_serial.specs.Asked.{calls_in};
ghost use Rattle.ft_serial.specs.Walks.{without_calls};

use ft_base::{Memory, Table};
use ft_calls::StampedCall;
use ft_core::TxnId;
use std::alloc::Global;

/// A granted call, and the transaction that asked for it.
#[derive(Drop)]
pub(crate) struct Asked {
    pub(crate) txn: TxnId,
    pub(crate) call: StampedCall,
}

/// Puts a call after those of a top-level transaction. Lack of memory changes none.
pub(crate) fn push_call(
    alloc: Global,
    table: &mut Table<Vec<Asked>>,
    top: TxnId,
    call: Asked,
) -> Result<(), Memory>
    ensures ok { OnOk result ((t : ℕ)
        → calls_in table.new t ≡ cond (t == top) (calls_in table.old t ++ call
        ∷ []) (calls_in table.old t)) }
    ensures err { OnErr result ((t : ℕ) → calls_in table.new t ≡ calls_in table.old t) }
{
    if let Some(calls) = table.get_mut(top.0) {
        calls.push(call)?;
        return Ok(());
    }
    let mut calls = Vec::new(alloc);
    calls.push(call)?;
    table.insert(top.0, calls)?;
    Ok(())
}

/// Forgets of these calls that they were undone. Takes no memory.
pub(crate) fn forget_all(undone: &mut Table<()>, calls: &[Asked])
    ensures { undone.new ≡ without_calls undone.old calls.now }
{
    for asked in calls {
        undone.remove(asked.call.stamp);
    }
}
