// How far jobs have come, as text.
ghost use Rattle.std.specs.Prelude.{Some};
ghost use Rattle.ft_job_text.specs.ProgressTexts.{progress_text, waiting_text};

use ft_plan::JobName;
use std::fmt;

/// How far the jobs of a plan have come. Its text has no line feed.
#[derive(Clone, Copy)]
pub struct Progress<'a> {
    /// How many jobs have ended.
    pub ended: usize,
    /// How many there are.
    pub jobs: usize,
    /// How many calls they were granted.
    pub granted: u64,
    /// The jobs whose calls wait.
    pub waiting: &'a [&'a JobName],
}

impl fmt::Display for Progress<'_> {
    ghost output = { λ p. Some (progress_text p.ended p.jobs p.granted p.waiting.now) };

    fn fmt<W: fmt::Write>(&self, f: &mut fmt::Formatter<W>) -> fmt::Result {
        write!(
            f,
            "jobs ended: {} of {}; calls granted: {}{}",
            self.ended,
            self.jobs,
            self.granted,
            WaitingText(self.waiting)
        )
    }
}

/// The job that waits, if one does.
#[derive(Clone, Copy)]
struct WaitingText<'a>(&'a [&'a JobName]);

impl fmt::Display for WaitingText<'_> {
    ghost output = { λ text. Some (waiting_text text.0.now) };

    fn fmt<W: fmt::Write>(&self, f: &mut fmt::Formatter<W>) -> fmt::Result {
        if self.0.is_empty() {
            return Ok(());
        }
        write!(f, "; waiting:{}", Names(self.0))
    }
}

/// Names, each after a space.
#[derive(Clone, Copy)]
struct Names<'a>(&'a [&'a JobName]);

impl fmt::Display for Names<'_> {
    ghost use Rattle.std.specs.List.{flat_map};
    ghost use Rattle.ft_job_text.specs.ProgressTexts.{name_text};

    ghost output = { λ names. Some (flat_map name_text names.0.now) };

    fn fmt<W: fmt::Write>(&self, f: &mut fmt::Formatter<W>) -> fmt::Result {
        for name in self.0 {
            write!(f, " {name}")?;
        }
        Ok(())
    }
}
