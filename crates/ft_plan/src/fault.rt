// Why a plan is not read, or its jobs are not run.
use ft_base::Memory;
use ft_words::ParseError;
use std::alloc::AllocError;
use thiserror::Error;

/// Why a plan is not read, or its jobs are not run.
#[derive(Clone, Copy, Debug, PartialEq, Eq, Error)]
pub enum JobFault {
    /// There was no memory left.
    #[error("Memory")]
    Memory = 1,
    /// The bytes are no plan. Only `Plan::read` returns it.
    #[error("BadPlan")]
    BadPlan = 2,
    /// The reports are not what happened.
    #[error("Mismatch")]
    Mismatch = 3,
    /// A thread could not be started.
    #[error("Thread")]
    Thread = 4,
}

impl From<Memory> for JobFault {
    ghost use Rattle.std.specs.Prelude.{◌≡◌};
    ghost use Rattle.ft_plan.specs.declared.fault.JobFault.TheVariants.{Memory};

    ghost from_gives = { λ _ fault. fault ≡ Memory };

    fn from(_error: Memory) -> JobFault {
        JobFault::Memory
    }
}

impl From<AllocError> for JobFault {
    ghost use Rattle.std.specs.Prelude.{◌≡◌};
    ghost use Rattle.ft_plan.specs.declared.fault.JobFault.TheVariants.{Memory};

    ghost from_gives = { λ _ fault. fault ≡ Memory };

    fn from(_error: AllocError) -> JobFault {
        JobFault::Memory
    }
}

impl From<ParseError> for JobFault {
    ghost use Rattle.std.specs.Prelude.{◌≡◌};
    ghost use Rattle.ft_plan.specs.Lines.{fault_from};

    ghost from_gives = { λ unread fault. fault ≡ fault_from unread };

    fn from(unread: ParseError) -> JobFault {
        match unread {
            ParseError::Misspelt => JobFault::BadPlan,
            ParseError::NoMemory => JobFault::Memory,
        }
    }
}
