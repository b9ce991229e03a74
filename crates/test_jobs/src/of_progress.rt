// The line that shows how far jobs have come, and the screen that it is written on.
use ft_job_text::Watch;
use ft_jobs::Gate;
use ft_plan::Plan;
use std::alloc::Global;
use std::sync::Wait;
use std::test::Fail;
use std::thread::{self, Threads};
use std::time::{Clock, Duration};

const TWO_JOBS: &[u8] = b"job one\nmkdir /a\nmkdir /b\ncommit\njob two-2\nmkdir /c\nabort\n";

/// The jobs that come to each step, each job by its place, and what is shown then.
const TOLD: &[(&[(u64, u64)], &str)] = &[
    (&[], "jobs ended: 0 of 2; calls granted: 0"),
    (&[(0, 1), (1, 1)], "jobs ended: 0 of 2; calls granted: 0"),
    (
        &[],
        "jobs ended: 0 of 2; calls granted: 0; waiting: one two-2",
    ),
    (
        &[(0, 2)],
        "jobs ended: 0 of 2; calls granted: 1; waiting: two-2",
    ),
];

const TOLD_AT_THE_END: &str = "jobs ended: 2 of 2; calls granted: 2";

/// Returns whether the watch shows this.
fn tells<R: Wait>(rt: &R, alloc: Global, watch: &Watch<'_>, told: &str) -> Result<bool, Fail> {
    Ok(watch.line(rt, alloc)?.as_str() == told)
}

/// Returns whether it shows all these, each once the jobs have come to its steps.
fn tells_all<R: Wait + Clock>(rt: &R, alloc: Global, watch: &Watch<'_>) -> Result<bool, Fail> {
    for (steps, told) in TOLD {
        for (job, step) in *steps {
            watch.pass(rt, *job, *step);
        }
        if !tells(rt, alloc, watch, told)? {
            return Ok(false);
        }
    }
    Ok(true)
}

/// Returns whether a line shows two jobs as they come to a call, wait and end.
fn tells_to_the_end<R: Wait + Clock>(
    rt: &R,
    alloc: Global,
    watch: &Watch<'_>,
) -> Result<bool, Fail> {
    if !tells_all(rt, alloc, watch)? {
        return Ok(false);
    }
    watch.pass(rt, 0, 3);
    watch.ended(rt, 0);
    watch.ended(rt, 1);
    tells(rt, alloc, watch, TOLD_AT_THE_END)
}

#[test]
fn jobs_are_watched(rt: HostRuntime) -> Result<(), Fail> {
    let alloc = rt.alloc();
    let plan = Plan::read(alloc, TWO_JOBS)?;
    let watch = Watch::new(alloc, plan.jobs())?;
    assert!(rt; tells_to_the_end(&rt, alloc, &watch)?);
    Ok(())
}

/// Returns what a screen has got when the first job has asked for a call, and has waited for so
/// long.
fn shown<R: Threads + Wait + Clock + Sync>(
    rt: &R,
    alloc: Global,
    millis: u64,
) -> Result<Vec<u8>, Fail> {
    let plan = Plan::read(alloc, TWO_JOBS)?;
    let watch = Watch::new(alloc, plan.jobs())?;
    let mut screen = Vec::new(alloc);
    watch.pass(rt, 0, 1);
    thread::join(
        rt,
        || watch.show(rt, alloc, &mut screen),
        || {
            thread::sleep(rt, Duration::from_millis(millis));
            watch.stop(rt);
        },
    );
    Ok(screen)
}

const FIRST_LINES: &[u8] = b"\r\x1b[Kjobs ended: 0 of 2; calls granted: 0\
        \r\x1b[Kjobs ended: 0 of 2; calls granted: 0; waiting: one\r\x1b[K";

#[test]
fn line_is_gone_at_the_end(rt: HostRuntime) -> Result<(), Fail> {
    let screen = shown(&rt, rt.alloc(), 3000)?;
    assert!(rt; screen.as_slice().starts_with(FIRST_LINES));
    assert!(rt;
        screen
            .as_slice()
            .ends_with(b"; waiting: one\r\x1b[K".as_slice())
    );
    assert!(rt; screen.len() < 4000);
    Ok(())
}

#[test]
fn short_runs_show_nothing(rt: HostRuntime) -> Result<(), Fail> {
    assert!(rt; shown(&rt, rt.alloc(), 0)?.is_empty());
    Ok(())
}
