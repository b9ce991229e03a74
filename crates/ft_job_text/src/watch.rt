// The progress of jobs while they run.
use crate::progress::Progress;
use ft_jobs::Gate;
use ft_plan::{Job, JobName, Step};
use ft_screen::{PAUSE, erase, rewrite};
use std::alloc::{AllocError, Global};
use std::io::Write;
use std::sync::{Condvar, Mutex, Wait};
use std::time::{Clock, Duration};

/// How far the jobs of a plan have come. It is a gate that lets each step pass at once, and takes
/// note of it.
///
/// No clause constrains what it shows.
#[derive(Drop)]
pub struct Watch<'a> {
    jobs: &'a [Job],
    noted: Mutex<Noted>,
    // All jobs have ended.
    over: Condvar,
}

/// The notes.
#[derive(Drop)]
struct Noted {
    places: Vec<Place>,
    granted: u64,
    is_over: bool,
}

/// The place of a job.
#[derive(Clone, Copy, PartialEq, Eq)]
enum Place {
    // At no call.
    Elsewhere,
    // It has asked for a call since the last look.
    Asks,
    // It had asked for the call before.
    Waits,
    Ended,
}

impl<'a> Watch<'a> {
    /// Returns a watch of jobs, none of which has begun.
    pub fn new(alloc: Global, jobs: &'a [Job]) -> Result<Watch<'a>, AllocError> {
        let mut places = Vec::new(alloc);
        for _ in jobs {
            places.push(Place::Elsewhere)?;
        }
        Ok(Watch {
            jobs,
            noted: Mutex::new(Noted {
                places,
                granted: 0,
                is_over: false,
            }),
            over: Condvar::new(),
        })
    }

    /// Shows how far the jobs have come, on a line of a screen that it writes anew at most ten
    /// times a second, until `stop` is called; then the line is erased. If it was called within the
    /// first tenth of a second, nothing is written.
    ///
    /// A line that can't be made or written is left out.
    pub fn show<R: Wait + Clock, S: Write>(&self, rt: &R, alloc: Global, screen: &mut S) {
        let mut is_shown = false;
        for _ in rt.forever() {
            if self.is_over_soon(rt) {
                break;
            }
            if let Ok(line) = self.line(rt, alloc) {
                is_shown = true;
                let _ = rewrite(screen, line.as_bytes());
            }
        }
        if is_shown {
            let _ = erase(screen);
        }
    }

    /// Ends `show`.
    pub fn stop<R: Wait>(&self, rt: &R) {
        self.noted.lock(rt).is_over = true;
        self.over.notify_all();
    }

    /// Returns how far the jobs have come, as text. Those wait that are at the same call as at the
    /// look before.
    pub fn line<R: Wait>(&self, rt: &R, alloc: Global) -> Result<String, AllocError> {
        let mut noted = self.noted.lock(rt);
        let waiting = names_of_waiting(alloc, self.jobs, noted.places.as_slice())?;
        let progress = Progress {
            ended: count_of(noted.places.as_slice(), Place::Ended),
            jobs: self.jobs.len(),
            granted: noted.granted,
            waiting: waiting.as_slice(),
        };
        noted.look();
        format!(in alloc; "{progress}")
    }

    /// Pauses, for less if the jobs end meanwhile. Whether they have ended.
    fn is_over_soon<R: Wait + Clock>(&self, rt: &R) -> bool {
        let pause = Duration::from_millis(PAUSE);
        let (noted, _) = self
            .over
            .wait_timeout_while(rt, self.noted.lock(rt), pause, |noted| { !noted.is_over });
        noted.is_over
    }

    /// Returns the place of a job when it comes to this step.
    fn place_at(&self, job: u64, step: u64) -> Place {
        let Some(job) = self.jobs.get(job as usize) else {
            return Place::Elsewhere;
        };
        match job.steps.as_slice().get(step.saturating_sub(1) as usize) {
            Some(Step::Call(_) | Step::CallOn(_) | Step::Try(_) | Step::TryOn(_)) => Place::Asks,
            _ => Place::Elsewhere,
        }
    }
}

impl Gate for Watch<'_> {
    fn pass<R: Wait + Clock>(&self, rt: &R, job: u64, step: u64) {
        let place = self.place_at(job, step);
        self.noted.lock(rt).go_on(job, step, place);
    }

    fn ended<R: Wait + Clock>(&self, rt: &R, job: u64) {
        self.noted.lock(rt).end(job);
    }
}

impl Noted {
    /// Notes that a job goes on, to this step and place: if it was at a call, that was granted,
    /// unless it begins again.
    fn go_on(&mut self, job: u64, step: u64, place: Place) {
        if let Some(here) = self.places.get_mut(job as usize) {
            if step > 1 && matches!(*here, Place::Asks | Place::Waits) {
                self.granted = self.granted.saturating_add(1);
            }
            *here = place;
        }
    }

    /// Notes that a job has ended.
    fn end(&mut self, job: u64) {
        if let Some(here) = self.places.get_mut(job as usize) {
            *here = Place::Ended;
        }
    }

    /// Notes that somebody has looked: a job that asks now waits at the next look, unless it has
    /// gone on.
    fn look(&mut self) {
        for place in &mut self.places {
            if *place == Place::Asks {
                *place = Place::Waits;
            }
        }
    }
}

/// Returns how many jobs are at this place.
fn count_of(places: &[Place], wanted: Place) -> usize {
    places.iter().filter(|&&place| place == wanted).count()
}

/// Returns the names of the jobs that wait.
fn names_of_waiting<'a>(
    alloc: Global,
    jobs: &'a [Job],
    places: &[Place],
) -> Result<Vec<&'a JobName>, AllocError> {
    let mut names = Vec::new(alloc);
    for (job, place) in jobs.iter().zip(places) {
        if *place == Place::Waits {
            names.push(&job.name)?;
        }
    }
    Ok(names)
}
