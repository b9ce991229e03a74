// Why the file of a plan is not written out.
use ft_base::Memory;
use ft_transfer::FileFailed;
use std::alloc::AllocError;
use thiserror::Error;

/// Why the file of a plan is not written out.
#[derive(Clone, Copy, Debug, PartialEq, Eq, Error)]
pub enum PlanFileFault {
    /// There was not enough memory.
    #[error("Memory")]
    Memory,
    /// It has more than 8,388,608 bytes.
    #[error("TooLong")]
    TooLong,
    /// A file of the disk that it puts could not be read.
    #[error("Read")]
    Read,
}

impl From<Memory> for PlanFileFault {
    ghost use Rattle.std.specs.Prelude.{◌≡◌};
    ghost use Rattle.ft_plan_files.specs.declared.fault.PlanFileFault.TheVariants.{Memory};

    ghost from_gives = { λ _ fault. fault ≡ Memory };

    fn from(_error: Memory) -> PlanFileFault {
        PlanFileFault::Memory
    }
}

impl From<AllocError> for PlanFileFault {
    ghost use Rattle.std.specs.Prelude.{◌≡◌};
    ghost use Rattle.ft_plan_files.specs.declared.fault.PlanFileFault.TheVariants.{Memory};

    ghost from_gives = { λ _ fault. fault ≡ Memory };

    fn from(_error: AllocError) -> PlanFileFault {
        PlanFileFault::Memory
    }
}

impl From<FileFailed> for PlanFileFault {
    ghost use Rattle.std.specs.Prelude.{◌≡◌};
    ghost use Rattle.ft_plan_files.specs.declared.fault.PlanFileFault.TheVariants.{Read};

    ghost from_gives = { λ _ fault. fault ≡ Read };

    fn from(_failed: FileFailed) -> PlanFileFault {
        PlanFileFault::Read
    }
}
