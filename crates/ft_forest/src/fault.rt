use ft_base::Memory;
use thiserror::Error;

/// Why a call of a forest is refused. A refusal changes nothing.
#[derive(Clone, Copy, Debug, PartialEq, Eq, Error)]
pub enum ForestFault {
    /// There was not enough memory.
    #[error("Memory")]
    Memory = 1,
    /// No transaction has this number since the base.
    #[error("NoTxn")]
    NoTxn = 2,
    /// The transaction has committed or was aborted.
    #[error("Ended")]
    Ended = 3,
    /// The transaction has a live child.
    #[error("ChildLive")]
    ChildLive = 4,
    /// There are as many transactions as the limits allow, or the last number is used up.
    #[error("Full")]
    Full = 7,
    /// The transaction is as deep as the limits allow.
    #[error("Deep")]
    Deep = 8,
}

impl From<Memory> for ForestFault {
    ghost use Rattle.std.specs.Prelude.{◌≡◌};
    ghost use Rattle.ft_forest.specs.declared.fault.ForestFault.TheVariants.{Memory};

    ghost from_gives = { λ _ fault. fault ≡ Memory };

    fn from(_memory: Memory) -> ForestFault {
        ForestFault::Memory
    }
}
