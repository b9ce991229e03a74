// The state of the jobs of a plan: which may start, which of them waits for which, and their
// reports.
use ft_base::{Memory, Sequence};
use ft_core::TxnId;
use ft_job_reports::{End, Report, ended_as_meant, is_must, place_of};
use ft_plan::{Job, JobName};
use std::alloc::Global;
use std::sync::{Condvar, CondvarTimeouts, Mutex, MutexGuard, Wait};
use std::time::{Clock, Duration};

/// How long a job rests at most before it begins again for the first time, in milliseconds. It is
/// so much longer each time, up to `MOST_RESTS` times as long.
const REST: u64 = 20;

const MOST_RESTS: u64 = 10;

/// The state of the jobs of a plan, which their threads share.
#[derive(Drop)]
pub struct Board {
    places: Mutex<Places>,
    // A job has reached its subjobs, or has ended.
    moved: Condvar,
}

/// All jobs, each with its report, which is that of a job not started until it ends.
#[derive(Drop)]
struct Places {
    places: Vec<Place>,
    reports: Vec<Report>,
    // How often a deadlock was broken, a call was granted or a job was begun again.
    renewals: u64,
    // How often a job has ended.
    ends: u64,
}

/// A job among the others.
#[derive(Drop)]
struct Place {
    // The place of the job that it is a subjob of, if it is one.
    parent: Option<usize>,
    // Whether it takes that one along.
    is_must: bool,
    // The places of those that it comes after.
    after: Vec<usize>,
    // How often it was begun again.
    retries: u64,
    phase: Phase,
}

/// How far a job has come.
#[derive(Clone, Copy)]
enum Phase {
    // No thread has taken it yet.
    Ahead,
    // It has not reached its subjobs yet.
    Taken,
    // Its subjobs may begin, under this transaction.
    AtSubs(TxnId),
    Ended,
}

/// How a job that was taken begins.
#[derive(Clone, Copy)]
pub enum Start {
    /// At the top.
    Top,
    /// Under this transaction.
    Under(TxnId),
    /// It does not begin: its parent has not reached its subjobs, or one that it comes after has
    /// not committed.
    Never,
}

impl Board {
    /// Returns a board of these jobs, none of which has started.
    pub fn new(alloc: Global, jobs: &[Job]) -> Result<Board, Memory> {
        let mut places = Vec::new(alloc);
        let mut reports = Vec::new(alloc);
        for (at, job) in jobs.iter().enumerate() {
            places.push(Place::of(alloc, jobs, job)?)?;
            reports.push(Report {
                job: at as u64,
                txn: None,
                end: End::NotStarted,
                calls: Sequence::new(alloc),
            })?;
        }
        Ok(Board {
            places: Mutex::new(Places {
                places,
                reports,
                renewals: 0,
                ends: 0,
            }),
            moved: Condvar::new(),
        })
    }

    /// Takes the first job that may start, once one may; none if all are taken.
    pub fn take<R: Wait>(&self, rt: &R) -> Option<usize> {
        let mut places = self.moved.wait_while(rt, self.places.lock(rt), |places| {
            places.has_ahead() && places.next().is_none()
        });
        let at = places.next()?;
        places.set_phase(at, Phase::Taken);
        Some(at)
    }

    /// Takes the first subjob of a job that may start, once one may; none if all have ended.
    pub fn take_below<R: Wait>(&self, rt: &R, parent: usize) -> Option<usize> {
        let mut places = self.moved.wait_while(rt, self.places.lock(rt), |places| {
            places.has_live_below(parent) && places.next_below(parent).is_none()
        });
        let at = places.next_below(parent)?;
        places.set_phase(at, Phase::Taken);
        Some(at)
    }

    /// Returns how a job begins that was taken.
    pub fn start_of<R: Wait>(&self, rt: &R, job: usize) -> Start {
        self.places.lock(rt).start_of(job)
    }

    /// Lets the subjobs of a job begin under its transaction.
    pub fn open_subs<R: Wait>(&self, rt: &R, job: usize, txn: TxnId) {
        self.places.lock(rt).set_phase(job, Phase::AtSubs(txn));
        self.moved.notify_all();
    }

    /// Returns whether no subjob of a job takes it along, once all have ended.
    pub fn is_spared<R: Wait>(&self, rt: &R, job: usize) -> bool {
        self.places.lock(rt).is_spared(job)
    }

    /// Notes that a job has ended, with its report.
    pub fn end<R: Wait>(&self, rt: &R, job: usize, report: Report) {
        self.places.lock(rt).end(job, report);
        self.moved.notify_all();
    }

    /// Returns how often a job was begun again.
    pub fn retries<R: Wait>(&self, rt: &R, job: usize) -> u64 {
        self.places.lock(rt).retries(job)
    }

    /// Rests before a job begins again, until another one has ended, or for a time that is longer
    /// the oftener it was begun again.
    pub fn rest<R: Wait + Clock>(&self, rt: &R, job: usize) {
        let places = self.places.lock(rt);
        let ends = places.ends;
        let rests = places.retries(job).saturating_add(1).min(MOST_RESTS);
        let most = Duration::from_millis(REST.saturating_mul(rests));
        let (places, _) = self
            .moved
            .wait_timeout_while(rt, places, most, |places| places.ends == ends);
        MutexGuard::unlock(places);
    }

    /// Lets a job begin again, with the report of the try that has ended. If there is not enough
    /// memory for that, returns the report.
    pub fn begin_again<R: Wait>(&self, rt: &R, job: usize, report: Report) -> Option<Report> {
        let report = self.places.lock(rt).begin_again(job, report);
        self.moved.notify_all();
        report
    }

    /// Notes that a deadlock was broken or a call was granted.
    pub fn renew<R: Wait>(&self, rt: &R) {
        self.places.lock(rt).renew();
    }

    /// Returns how often a deadlock was broken, a call was granted, or a job was begun again or has
    /// ended.
    pub fn renewals<R: Wait>(&self, rt: &R) -> u64 {
        let places = self.places.lock(rt);
        places.renewals.saturating_add(places.ends)
    }

    /// Returns the reports of all jobs, in their order, and those of earlier tries after them.
    pub fn into_reports(self) -> Vec<Report> {
        let Board { places, moved: _ } = self;
        let Places {
            places: _,
            reports,
            renewals: _,
            ends: _,
        } = places.into_inner();
        reports
    }
}

impl Place {
    /// Returns the place of a job among these jobs, which was not taken.
    fn of(alloc: Global, jobs: &[Job], job: &Job) -> Result<Place, Memory> {
        let parent = match &job.parent {
            None => None,
            Some(name) => place_of(jobs, name.as_bytes()),
        };
        Ok(Place {
            parent,
            is_must: is_must(job.kind),
            after: places_of(alloc, jobs, job.after.as_slice())?,
            retries: 0,
            phase: Phase::Ahead,
        })
    }

    /// Returns whether no thread has taken the job yet.
    fn is_ahead(&self) -> bool {
        matches!(self.phase, Phase::Ahead)
    }

    /// Returns whether the job has ended.
    fn has_ended(&self) -> bool {
        matches!(self.phase, Phase::Ended)
    }
}

/// Returns the places of the jobs of these names.
fn places_of(alloc: Global, jobs: &[Job], names: &[JobName]) -> Result<Vec<usize>, Memory> {
    let mut places = Vec::new(alloc);
    for name in names {
        if let Some(at) = place_of(jobs, name.as_bytes()) {
            places.push(at)?;
        }
    }
    Ok(places)
}

impl Places {
    /// Returns the first job that may start.
    fn next(&self) -> Option<usize> {
        self.places.iter().position(|place| self.may_start(place))
    }

    /// Returns the first subjob of a job that may start.
    fn next_below(&self, parent: usize) -> Option<usize> {
        self.places.iter().position(|place| place.parent == Some(parent) && self.may_start(place))
    }

    /// Returns whether there is a job that was not taken.
    fn has_ahead(&self) -> bool {
        self.places.iter().any(|place| place.is_ahead())
    }

    /// Returns whether a subjob of a job has not ended.
    fn has_live_below(&self, parent: usize) -> bool {
        self.places
            .iter()
            .any(|place| place.parent == Some(parent) && !place.has_ended())
    }

    /// Returns whether a job was not taken, and it is known how the job begins.
    fn may_start(&self, place: &Place) -> bool {
        if !place.is_ahead() {
            return false;
        }
        let is_open = match place.parent {
            None => true,
            Some(parent) => matches!(self.phase(parent), Phase::AtSubs(_) | Phase::Ended),
        };
        is_open && place.after.iter().all(|at| self.has_ended(*at))
    }

    /// Returns how a job that was taken begins. A job that does not exist never begins.
    fn start_of(&self, job: usize) -> Start {
        let Some(place) = self.places.get(job) else {
            return Start::Never;
        };
        if !place.after.iter().all(|at| self.has_committed(*at)) {
            return Start::Never;
        }
        let Some(parent) = place.parent else {
            return Start::Top;
        };
        match self.phase(parent) {
            Phase::AtSubs(txn) => Start::Under(txn),
            Phase::Ahead | Phase::Taken | Phase::Ended => Start::Never,
        }
    }

    /// Returns how far a job has come. A job that does not exist has ended.
    fn phase(&self, job: usize) -> Phase {
        match self.places.get(job) {
            None => Phase::Ended,
            Some(place) => place.phase,
        }
    }

    /// Returns whether a job has ended. A job that does not exist has ended.
    fn has_ended(&self, job: usize) -> bool {
        matches!(self.phase(job), Phase::Ended)
    }

    /// Returns whether the report of a job says that it has committed.
    fn has_committed(&self, job: usize) -> bool {
        match self.reports.get(job) {
            None => false,
            Some(report) => matches!(report.end, End::Committed),
        }
    }

    /// Returns whether no subjob takes the job along: each that would has ended as meant.
    fn is_spared(&self, job: usize) -> bool {
        self.places.iter().zip(&self.reports).all(|(place, report)| {
            !place.is_must || place.parent != Some(job) || ended_as_meant(report)
        })
    }

    /// Notes how far a job has come, if the job exists.
    fn set_phase(&mut self, job: usize, phase: Phase) {
        if let Some(place) = self.places.get_mut(job) {
            place.phase = phase;
        }
    }

    /// Returns how often a job was begun again.
    fn retries(&self, job: usize) -> u64 {
        match self.places.get(job) {
            None => 0,
            Some(place) => place.retries,
        }
    }

    /// Lets a job begin again, with the report of the try that has ended. If there is not enough
    /// memory for that, returns the report.
    fn begin_again(&mut self, job: usize, report: Report) -> Option<Report> {
        if self.reports.try_reserve(1).is_err() {
            return Some(report);
        }
        let _ = self.reports.push(report);
        self.renew();
        if let Some(place) = self.places.get_mut(job) {
            place.retries = place.retries.saturating_add(1);
            place.phase = Phase::Ahead;
        }
        None
    }

    /// Notes that a deadlock was broken, a call was granted or a job was begun again.
    fn renew(&mut self) {
        self.renewals = self.renewals.saturating_add(1);
    }

    /// Notes that a job has ended, with its report.
    fn end(&mut self, job: usize, report: Report) {
        if let Some(place) = self.reports.get_mut(job) {
            *place = report;
        }
        self.set_phase(job, Phase::Ended);
        self.ends = self.ends.saturating_add(1);
    }
}
