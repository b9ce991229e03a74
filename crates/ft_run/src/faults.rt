// The line that reports a fault.
ghost use Rattle.std.specs.Prelude.{◌≡◌};
ghost use Rattle.ft_run.specs.FaultLines.{fault_line, plan_file_fault_line, run_fault_line, trouble_name};

use ft_copy::CopyFault;
use ft_job_text::RunFault;
use ft_jobs::JobFault;
use ft_plan_files::PlanFileFault;
use ft_script::PlayFault;

/// Returns the line that reports a fault, with its line feed.
pub fn fault_line(fault: PlayFault) -> &'static str
    ensures { result.now ≡ fault_line fault }
{
    match fault {
        PlayFault::Memory => "fault: Memory\n",
        PlayFault::Read => "fault: Read\n",
        PlayFault::Write => "fault: Write\n",
        PlayFault::TooLong => "fault: TooLong\n",
        PlayFault::Turns => "fault: Turns\n",
    }
}

/// Returns the line that reports a fault of a plan, with its line feed.
pub fn run_fault_line(fault: RunFault) -> &'static str
    ensures { result.now ≡ run_fault_line fault }
{
    match fault {
        RunFault::Jobs(JobFault::Memory) => fault_line(PlayFault::Memory),
        RunFault::Jobs(JobFault::BadPlan) => "fault: BadPlan\n",
        RunFault::Jobs(JobFault::Mismatch) => "fault: Mismatch\n",
        RunFault::Jobs(JobFault::Thread) => "fault: Thread\n",
        RunFault::Write => fault_line(PlayFault::Write),
    }
}

/// Returns the line that reports why a plan is not written out, with its line feed.
pub fn plan_file_fault_line(fault: PlanFileFault) -> &'static str
    ensures { result.now ≡ plan_file_fault_line fault }
{
    match fault {
        PlanFileFault::Memory => fault_line(PlayFault::Memory),
        PlanFileFault::TooLong => run_fault_line(RunFault::Jobs(JobFault::BadPlan)),
        PlanFileFault::Read => fault_line(PlayFault::Read),
    }
}

/// Returns the name of what stopped a copy.
pub(crate) fn trouble_name(trouble: CopyFault) -> &'static str
    ensures { result.now ≡ trouble_name trouble }
{
    match trouble {
        CopyFault::Memory => "Memory",
        CopyFault::Read => "Read",
        CopyFault::Write => "Write",
        CopyFault::Special => "Special",
        CopyFault::TooLarge => "TooLarge",
        CopyFault::TooManyLinks => "TooManyLinks",
        CopyFault::PathTooLong => "PathTooLong",
        CopyFault::BadName => "BadName",
        CopyFault::BadTree => "BadTree",
        CopyFault::Exists => "Exists",
        CopyFault::Full => "Full",
    }
}
