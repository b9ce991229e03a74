// From the lines of a plan to its jobs.
ghost use Rattle.std.specs.Prelude.{◌≡◌, ◌⊎◌, ◌++◌, ◌∷◌, ◌↔◌, [], List, IsTrue, OnOk, IfOk, IfErr, IsErrOf, Some};
ghost use Rattle.ft_words.specs.Spelling.{lines_of};
ghost use Rattle.ft_plan.specs.Plans.{plan_lines, plan_said, said};
ghost use Rattle.ft_plan.specs.Lines.{behind_strict, is_strict_line};
ghost use Rattle.ft_plan.specs.Parsing.{begun_lines, IsStray, TakesLine, IsInNoPlan, job_of};

use crate::fault::JobFault;
use crate::job::{Job, JobKind, Step};
use crate::line::{PlanLine, line_of};
use crate::name::JobName;
use ft_base::{Memory, Sequence};
use ft_words::{Lines, Words};
use std::alloc::Global;
use std::marker::Model;

/// Returns the jobs that lines describe.
///
/// Returns BadPlan if the lines are not those of any jobs.
pub fn jobs_of(alloc: Global, text: &[u8]) -> Result<Vec<Job>, JobFault>
    ensures ok { IfOk result
        (λ jobs. plan_said (lines_of text.now) ≡ Some (plan_lines jobs.items)) }
    ensures bad { IsErrOf result JobFault.BadPlan → (jobs : List Job)
        → plan_said (lines_of text.now) ≡ Some (plan_lines jobs) → ⊥ }
    ensures cause { IfErr result (λ fault. (fault ≡ JobFault.BadPlan) ⊎ (fault ≡ JobFault.Memory)) }
{
    match behind_strict(Lines::of(text)) {
        Some(lines) => jobs_in(alloc, true, lines),
        None => jobs_in(alloc, false, Lines::of(text)),
    }
}

/// Returns the lines after the one that makes a plan strict, if all lines before it are silent.
fn behind_strict(lines: Lines<'_>) -> Option<Lines<'_>>
    ensures { result ≡ behind_strict lines.entry }
{
    let mut lines = lines;
    while let Some(line) = lines.next() {
        if let Some(words) = Words::of_line(line) {
            return if is_strict_line(words) {
                Some(lines)
            } else {
                None
            };
        }
    }
    None
}

/// Returns whether a line makes a plan strict.
fn is_strict_line(words: Words<'_>) -> bool
    ensures { result ≡ is_strict_line words.entry }
{
    match words.sole() {
        Some(word) => word == b"strict".as_slice(),
        None => false,
    }
}

/// Returns the jobs that the lines of a plan describe. The plan is strict or is not.
fn jobs_in(alloc: Global, strict: bool, lines: Lines<'_>) -> Result<Vec<Job>, JobFault>
    ensures ok { IfOk result (λ jobs. said strict lines.entry ≡ Some (plan_lines jobs.items)) }
    ensures bad { IsErrOf result JobFault.BadPlan → (jobs : List Job)
        → said strict lines.entry ≡ Some (plan_lines jobs) → ⊥ }
    ensures cause { IfErr result (λ fault. (fault ≡ JobFault.BadPlan) ⊎ (fault ≡ JobFault.Memory)) }
{
    let mut jobs = Jobs::new(alloc);
    for line in lines {
        jobs.read(alloc, strict, line)?;
    }
    Ok(jobs.end()?)
}

/// A job that has begun, with its steps so far.
#[derive(Drop)]
struct Begun {
    name: JobName,
    parent: Option<JobName>,
    kind: JobKind,
    after: Vec<JobName>,
    steps: Vec<Step>,
}

impl Begun {
    /// Adds a step.
    fn push(&mut self, step: Step) -> Result<(), Memory>
        ensures steps { OnOk result (self.new.steps.items ≡ self.old.steps.items ++ step ∷ []) }
        ensures others { self.new ≡ record self.old { steps = self.new.steps } }
    {
        self.steps.push(step)?;
        Ok(())
    }

    /// Returns whether no line has come after the one that begins the job.
    fn is_new(&self) -> bool
        ensures { IsTrue result ↔ ((self.now.after.items ≡ []) × (self.now.steps.items ≡ [])) }
    {
        self.after.is_empty() && self.steps.is_empty()
    }

    /// Returns the job, which has all its steps.
    fn end(self) -> Job
        ensures { result ≡ job_of self }
    {
        Job {
            name: self.name,
            parent: self.parent,
            kind: self.kind,
            after: self.after.into(),
            steps: self.steps.into(),
        }
    }
}

/// The jobs of the lines so far: those that have ended, and the one that has begun.
#[derive(Drop)]
struct Jobs {
    ended: Vec<Job>,
    begun: Option<Begun>,
}

impl Model for Jobs {
    ghost use Rattle.std.specs.Prelude.{◌++◌, List};
    ghost use Rattle.ft_plan.specs.declared.line.PlanLine.{PlanLine};
    ghost use Rattle.ft_plan.specs.Plans.{plan_lines};
    ghost use Rattle.ft_plan.specs.Parsing.{begun_lines, HasBegun};

    ghost Value = { List PlanLine };

    ghost view = { λ jobs. plan_lines jobs.ended.items ++ begun_lines jobs.begun };

    ghost invariant = { λ jobs. HasBegun jobs.ended.items jobs.begun };
}

impl Jobs {
    /// Returns the jobs of no line.
    fn new(alloc: Global) -> Jobs
        ensures { result ≡ [] }
    {
        Jobs {
            ended: Vec::new(alloc),
            begun: None,
        }
    }

    /// Takes the meaning of the next line.
    #[tactic(auto, using(crate::proofs::Grouping::said_silent, crate::proofs::Grouping::said_more))]
    fn read(&mut self, alloc: Global, strict: bool, line: &[u8]) -> Result<(), JobFault>
        ensures ok { OnOk result (TakesLine strict line.now self.old self.new) }
        ensures bad { IsErrOf result JobFault.BadPlan → IsInNoPlan strict line.now self.old }
        ensures cause { IfErr result
            (λ fault. (fault ≡ JobFault.BadPlan) ⊎ (fault ≡ JobFault.Memory)) }
    {
        let Some(words) = Words::of_line(line) else {
            return Ok(());
        };
        let said = line_of(alloc, strict, words)?;
        self.take(said)
    }

    /// Takes the next line. Refuses a step before the first job. Refuses a line of what a job comes
    /// after, unless it is right after the line that begins the job.
    fn take(&mut self, line: PlanLine) -> Result<(), JobFault>
        ensures ok { OnOk result (self.new ≡ self.old ++ line ∷ []) }
        ensures bad { IsErrOf result JobFault.BadPlan → IsStray self.old line }
        ensures cause { IfErr result
            (λ fault. (fault ≡ JobFault.BadPlan) ⊎ (fault ≡ JobFault.Memory)) }
    {
        match line {
            PlanLine::Job(name, parent, kind) => Ok(self.begin(name, parent, kind)?),
            PlanLine::After(names) => self.come_after(names),
            PlanLine::Step(step) => self.add(step),
        }
    }

    /// Takes the names of the jobs after which the job that has just begun comes.
    fn come_after(&mut self, names: Sequence<JobName>) -> Result<(), JobFault>
        ensures ok { OnOk result (self.new ≡ self.old ++ PlanLine.After names ∷ []) }
        ensures bad { IsErrOf result JobFault.BadPlan → IsStray self.old (PlanLine.After names) }
        ensures cause { IfErr result (λ fault. fault ≡ JobFault.BadPlan) }
    {
        let Some(begun) = &mut self.begun else {
            return Err(JobFault::BadPlan);
        };
        if names.is_empty() {
            return Err(JobFault::BadPlan);
        }
        if !begun.is_new() {
            return Err(JobFault::BadPlan);
        }
        begun.after = names.into_vec();
        Ok(())
    }

    /// Takes the next step of the job that has begun.
    fn add(&mut self, step: Step) -> Result<(), JobFault>
        ensures ok { OnOk result (self.new ≡ self.old ++ PlanLine.Step step ∷ []) }
        ensures bad { IsErrOf result JobFault.BadPlan → IsStray self.old (PlanLine.Step step) }
        ensures cause { IfErr result
            (λ fault. (fault ≡ JobFault.BadPlan) ⊎ (fault ≡ JobFault.Memory)) }
    {
        match &mut self.begun {
            None => Err(JobFault::BadPlan),
            Some(begun) => Ok(begun.push(step)?),
        }
    }

    /// Begins the next job.
    fn begin(&mut self, name: JobName, parent: Option<JobName>, kind: JobKind) -> Result<(), Memory>
        ensures ok { OnOk result (self.new ≡ self.old ++ PlanLine.Job name parent kind ∷ []) }
    {
        let next = Begun {
            name,
            parent,
            kind,
            after: Vec::new(*self.ended.allocator()),
            steps: Vec::new(*self.ended.allocator()),
        };
        if let Some(begun) = self.begun.replace(next) {
            self.ended.push(begun.end())?;
        }
        Ok(())
    }

    /// Returns all jobs, if no line follows.
    fn end(self) -> Result<Vec<Job>, Memory>
        ensures { IfOk result (λ jobs. plan_lines jobs.items ≡ self) }
    {
        let Self { mut ended, begun } = self;
        if let Some(begun) = begun {
            ended.push(begun.end())?;
        }
        Ok(ended)
    }
}
