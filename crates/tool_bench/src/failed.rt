// Why nothing was measured.
ghost use Rattle.std.specs.Prelude.{◌≡◌, true, OnOk};

use ft_base::Memory;
use ft_core::Fault;
use ft_forest::ForestFault;
use ft_path::{PartsFault, PathFault};
use ft_view::ViewFault;
use std::alloc::AllocError;

/// Why a measure was given up. It owns nothing, so that what hands it on has nothing to drop.
#[derive(Clone, Copy, Debug, PartialEq, Eq)]
pub enum Failed {
    /// The words after the program's name are not valid.
    Usage,
    /// There was no memory left.
    Memory,
    /// A call was refused, or had to wait, or was not answered as it should be.
    Call,
}

impl Failed {
    /// The text that reports it.
    pub fn text(self) -> &'static str {
        match self {
            Failed::Usage =>
                "usage: tool_bench WHAT COUNT SIZE, or tool_bench views MAKES EVERY READS ASKS\n",
            Failed::Memory => "tool_bench: no memory\n",
            Failed::Call => "tool_bench: a call went wrong\n",
        }
    }
}

/// Fails if something is not as it should be.
pub fn check(holds: bool) -> Result<(), Failed>
    ensures { OnOk result (holds ≡ true) }
{
    if holds { Ok(()) } else { Err(Failed::Call) }
}

impl From<Memory> for Failed {
    fn from(_: Memory) -> Failed {
        Failed::Memory
    }
}

impl From<AllocError> for Failed {
    fn from(_: AllocError) -> Failed {
        Failed::Memory
    }
}

impl From<Fault> for Failed {
    fn from(fault: Fault) -> Failed {
        match fault {
            Fault::Memory => Failed::Memory,
            _ => Failed::Call,
        }
    }
}

impl From<ViewFault> for Failed {
    fn from(fault: ViewFault) -> Failed {
        match fault {
            ViewFault::Memory => Failed::Memory,
            _ => Failed::Call,
        }
    }
}

impl From<PathFault> for Failed {
    fn from(fault: PathFault) -> Failed {
        match fault {
            PathFault::Memory => Failed::Memory,
            PathFault::NulByte => Failed::Call,
        }
    }
}

impl From<PartsFault> for Failed {
    fn from(fault: PartsFault) -> Failed {
        match fault {
            PartsFault::Memory => Failed::Memory,
            PartsFault::Errno(_) => Failed::Call,
        }
    }
}

impl From<ForestFault> for Failed {
    fn from(_: ForestFault) -> Failed {
        Failed::Call
    }
}
