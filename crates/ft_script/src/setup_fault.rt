// Why a script was not played first.
use ft_base::Memory;
use thiserror::Error;

/// Why a script was not played first.
#[derive(Clone, Copy, Debug, PartialEq, Eq, Error)]
pub enum SetupFault {
    /// There was no memory for a line, or for what it requests.
    #[error("Memory")]
    Memory,
    /// The limits are greater than a core may have.
    #[error("BadLimits")]
    BadLimits,
    /// The line of this number, from 1, is not a valid request, or its request is refused, fails or
    /// waits, or its transfer is not made; or the line is the last, and a transaction is live after
    /// it.
    #[error("Script {0}")]
    Script(u64),
}

impl From<Memory> for SetupFault {
    ghost use Rattle.std.specs.Prelude.{◌≡◌};
    ghost use Rattle.ft_script.specs.declared.setup_fault.SetupFault.TheVariants.{Memory};

    ghost from_gives = { λ _ fault. fault ≡ Memory };

    fn from(_error: Memory) -> SetupFault {
        SetupFault::Memory
    }
}
