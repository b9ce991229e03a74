// A plan from its file, ready to be run.
ghost use Rattle.std.specs.Prelude.{◌<◌, ◌↔◌, length, IfOk, IsErrOf};
ghost use Rattle.ft_plan_files.specs.WrittenOut.{IsNotWrittenOut};
ghost use Rattle.ft_plan_files.specs.WrittenPlans.{IsWrittenPlan};
ghost use Rattle.ft_plan_files.specs.declared.writing.TheConstants.{LONGEST_PLAN};

use crate::fault::PlanFileFault;
use crate::places::{GetPlace, places_of};
use crate::writing::written_out;
use ft_plan_names::numbered_plan;
use ft_transfer::DiskFiles;
use std::alloc::Global;

/// A plan that is ready to be run.
#[derive(Debug, Drop)]
pub struct WrittenPlan {
    /// Its bytes, with steps in place of the lines that carry files of the disk, and numbers in
    /// place of the names of steps.
    pub bytes: Vec<u8>,
    /// The places of its `get`s.
    pub gets: Vec<GetPlace>,
}

/// Returns the plan of a file that has this text. Reads the files of the disk that it puts, in the
/// order of their lines.
///
/// Fails if the text has more than 8,388,608 bytes, if one of the files that it puts can't be read,
/// or if there is not enough memory.
pub fn written_plan<F: DiskFiles>(
    alloc: Global,
    text: &[u8],
    files: &F,
) -> Result<WrittenPlan, PlanFileFault>
    ensures ok { IfOk result (λ plan. IsWrittenPlan (F.tells files.now) text.now plan) }
    ensures long { IsErrOf result PlanFileFault.TooLong ↔ (LONGEST_PLAN < length text.now) }
    ensures unread { IsErrOf result PlanFileFault.Read
        → IsNotWrittenOut (F.tells files.now) text.now }
{
    let made = written_out(alloc, text, files)?;
    let bytes = numbered_plan(alloc, made.as_slice())?;
    let gets = places_of(alloc, text)?;
    Ok(WrittenPlan { bytes, gets })
}
