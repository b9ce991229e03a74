use ft_base::Memory;
use ft_forest::ForestFault;
use thiserror::Error;

/// Why a request is refused. A refusal changes nothing.
#[derive(Clone, Copy, Debug, PartialEq, Eq, Error)]
pub enum Fault {
    /// There was no memory left.
    #[error("Memory")]
    Memory = 1,
    /// No transaction has this number since the base.
    #[error("NoTxn")]
    NoTxn = 2,
    /// The transaction has committed or is aborted.
    #[error("Ended")]
    Ended = 3,
    /// The transaction has a live child.
    #[error("ChildLive")]
    ChildLive = 4,
    /// The transaction has no call to be undone.
    #[error("NothingToUndo")]
    NothingToUndo = 5,
    /// A child of the transaction has committed since its last call.
    #[error("SubSince")]
    SubSince = 6,
    /// A limit of transactions or calls is reached.
    #[error("Full")]
    Full = 7,
    /// The transaction is as deep as one may be.
    #[error("Deep")]
    Deep = 8,
    /// A transaction is live.
    #[error("Live")]
    Live = 9,
    /// The transaction has no pending ask.
    #[error("NoAsk")]
    NoAsk = 10,
    /// There are no views. No core returns it, only `publish` of one behind a lock (ft_shared).
    #[error("NoViews")]
    NoViews = 11,
    /// A limit is above the greatest. No request returns it, only the making of a core.
    #[error("BadLimits")]
    BadLimits = 12,
}

impl From<Memory> for Fault {
    ghost use Rattle.std.specs.Prelude.{◌≡◌};
    ghost use Rattle.ft_core.specs.declared.fault.Fault.TheVariants.{Memory};

    ghost from_gives = { λ _ fault. fault ≡ Memory };

    fn from(_memory: Memory) -> Fault {
        Fault::Memory
    }
}

impl From<ForestFault> for Fault {
    ghost use Rattle.std.specs.Prelude.{◌≡◌};
    ghost use Rattle.ft_core.specs.Faults.{fault_from};

    ghost from_gives = { λ refused fault. fault ≡ fault_from refused };

    fn from(refused: ForestFault) -> Fault {
        match refused {
            ForestFault::Memory => Fault::Memory,
            ForestFault::NoTxn => Fault::NoTxn,
            ForestFault::Ended => Fault::Ended,
            ForestFault::ChildLive => Fault::ChildLive,
            ForestFault::Full => Fault::Full,
            ForestFault::Deep => Fault::Deep,
        }
    }
}
