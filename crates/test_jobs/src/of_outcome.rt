// The outcome of jobs, as text.
use ft_base::{Memory, Sequence};
use ft_core::{Fault, TxnId};
use ft_job_text::OutcomeText;
use ft_jobs::{End, Plan, Report};
use ft_tree::TreeRow;
use ft_words::TreeText;
use std::alloc::Global;
use std::test::Fail;

const FIVE_JOBS: &[u8] =
    b"job a\ncommit\njob b\nabort\njob c\ncommit\njob d\nsubs\ncommit\njob e d\ncommit\n";

const FIVE_ENDS: &str = "job a 1 committed\njob b 2 aborted\njob c 3 waited\njob d - refused Full\n\
        job e - notstarted\nhistory 0\ntree 1\ndir 1\n";

/// A report of no calls.
fn report(alloc: Global, job: u64, txn: Option<TxnId>, end: End) -> Report {
    Report {
        job,
        txn,
        end,
        calls: Sequence::new(alloc),
    }
}

/// A report of each end.
fn reports(alloc: Global) -> Result<Vec<Report>, Memory> {
    let mut reports = Vec::new(alloc);
    reports.push(report(alloc, 0, Some(TxnId(1)), End::Committed))?;
    reports.push(report(alloc, 1, Some(TxnId(2)), End::Aborted))?;
    reports.push(report(alloc, 2, Some(TxnId(3)), End::Waited))?;
    reports.push(report(alloc, 3, None, End::Refused(Fault::Full)))?;
    reports.push(report(alloc, 4, None, End::NotStarted))?;
    Ok(reports)
}

/// Returns whether this is the text of jobs without calls that leave only the root.
fn is_told(alloc: Global, plan: &Plan, reports: &[Report], told: &str) -> Result<bool, Memory> {
    let tree = TreeText::of(alloc, &[TreeRow::Dir { number: 1 }])?;
    let text = OutcomeText {
        jobs: plan.jobs(),
        reports,
        history: &[],
        tree: &tree,
    };
    Ok(format!(in alloc; "{text}")?.as_str() == told)
}

#[test]
fn ends_are_told(rt: HostRuntime) -> Result<(), Fail> {
    let alloc = rt.alloc();
    let plan = Plan::read(alloc, FIVE_JOBS)?;
    let reports = reports(alloc)?;
    assert!(rt; is_told(alloc, &plan, reports.as_slice(), FIVE_ENDS)?);
    Ok(())
}
