//! The line of a plan that is wrong, and the reason, in a sentence for its author.
//!
//! `ft_plan` decides what a plan is, and its clauses say so exactly. This crate only explains: no
//! clause states which line it names. It is asked only about bytes that are no plan, in which steps
//! take the place of the lines that carry files of the disk, and numbers the place of the names of
//! steps.
#![tactic(auto)]

use ft_names::{is_descriptor_word, is_name};
use ft_plan::JobName;
use ft_plan_files::line_of_file;
use ft_words::{ParseError, Words, parse_call, parse_descriptor_call, parse_u64};
use std::alloc::Global;

/// The most jobs of a plan that is strict, and of one that is not.
const MOST_STRICT_JOBS: usize = 4_096;

const MOST_FREE_JOBS: usize = 64;

/// The mistake of a job with more than two words.
const TWO_NAMES: &str = "a job has at most two names: its own, and the job around it";

const NO_MUST: &str = "'must' is for strict plans";

/// What is wrong with a call on what no step has opened.
const NOT_OPENED: &str = "'@' needs the number or the name of an earlier step 'open' of the job";

/// What is wrong with a line that carries no file of the disk.
const NO_FILE: &str = "'put' and 'get' need just a path, and '@' with the name of a file of the \
        disk (%20 is a space)";

/// A mistake in a plan.
#[derive(Clone, Copy)]
pub struct Mistake {
    /// The number of the line of the plan's file, if it is in one.
    pub line: Option<u64>,
    /// The reason why it is wrong.
    pub why: &'static str,
}

/// The reason to stop the search: a mistake, or that there is no memory to go on.
#[derive(Clone, Copy)]
enum Stop {
    Found(Mistake),
    NoMemory,
}

/// Returns that the line of this number is wrong.
fn wrong(line: u64, why: &'static str) -> Stop {
    Stop::Found(Mistake {
        line: Some(line),
        why,
    })
}

/// Returns that the plan is wrong as a whole.
fn wrong_whole(why: &'static str) -> Stop {
    Stop::Found(Mistake { line: None, why })
}

/// Returns the first mistake in the lines of a plan, by its line in the plan's file, or none if
/// there is no memory to look for it.
pub fn mistake_in(alloc: Global, file: &[u8], text: &[u8]) -> Option<Mistake> {
    let Err(Stop::Found(mistake)) = read_lines(alloc, text) else {
        return None;
    };
    let line = match mistake.line {
        Some(line) => Some(line_of_file(alloc, file, line).ok()?),
        None => None,
    };
    Some(Mistake {
        line,
        why: mistake.why,
    })
}

/// Reads the lines of a plan, up to the first mistake.
fn read_lines(alloc: Global, text: &[u8]) -> Result<(), Stop> {
    let mut jobs = Jobs {
        alloc,
        kind: PlanKind::Unknown,
        seen: Vec::new(alloc),
    };
    let mut number = 0_u64;
    for line in text.split(|byte| *byte == b'\n') {
        number = number.saturating_add(1);
        if let Some(words) = Words::of_line(line) {
            jobs.read(number, words)?;
        }
    }
    jobs.end()
}

/// Whether a plan is strict, which its first line decides.
#[derive(Clone, Copy, PartialEq, Eq)]
enum PlanKind {
    Unknown,
    Free,
    Strict,
}

/// A job that a line has begun, with its steps so far.
#[derive(Drop)]
struct Seen<'a> {
    line: u64,
    name: &'a [u8],
    parent: Option<&'a [u8]>,
    // whether a line says what it comes after
    is_after: bool,
    // for each step whether it opens a file
    opens: Vec<bool>,
    // the line of its step `subs`
    subs: Option<u64>,
    // whether it has its last step
    is_ended: bool,
}

/// The jobs of the lines so far.
#[derive(Drop)]
struct Jobs<'a> {
    alloc: Global,
    kind: PlanKind,
    seen: Vec<Seen<'a>>,
}

impl<'a> Jobs<'a> {
    /// Reads the words of the next line.
    fn read(&mut self, line: u64, words: Words<'a>) -> Result<(), Stop> {
        let mut words = words;
        let Some(word) = words.next() else {
            return Ok(());
        };
        let is_first = self.kind == PlanKind::Unknown;
        if is_first {
            self.kind = PlanKind::Free;
        }
        if word == b"strict".as_slice() {
            return self.read_strict(line, is_first, words);
        }
        if word == b"job".as_slice() {
            return self.read_job(line, words);
        }
        if word == b"after".as_slice() {
            return self.read_after(line, words);
        }
        self.read_step(line, word, words)
    }

    /// Reads the line that makes a plan strict.
    fn read_strict(&mut self, line: u64, is_first: bool, words: Words<'a>) -> Result<(), Stop> {
        let mut words = words;
        if !is_first || words.next().is_some() {
            return Err(wrong(line, "'strict' is a line of its own, before all others"));
        }
        self.kind = PlanKind::Strict;
        Ok(())
    }

    /// Reads a line that begins a job.
    fn read_job(&mut self, line: u64, words: Words<'a>) -> Result<(), Stop> {
        self.end_job()?;
        let mut words = words;
        let Some(first) = words.next() else {
            return Err(wrong(line, "a name is missing after 'job'"));
        };
        let must = self.kind == PlanKind::Strict && first == b"must".as_slice();
        if !must {
            return self.begin(line, first, words);
        }
        let (Some(name), Some(parent)) = (words.next(), words.next()) else {
            return Err(wrong(
                line,
                "'job must' needs two names: a subjob, and the job around it",
            ));
        };
        if words.next().is_some() {
            return Err(wrong(line, "there are words after the two names"));
        }
        self.push(line, name, Some(parent))
    }

    /// Begins a job of this name, under the one that the other word names, if there is one.
    fn begin(&mut self, line: u64, name: &'a [u8], others: Words<'a>) -> Result<(), Stop> {
        let mut others = others;
        let parent = others.next();
        if others.next().is_some() {
            let is_must = name == b"must".as_slice();
            return Err(wrong(line, if is_must { NO_MUST } else { TWO_NAMES }));
        }
        self.push(line, name, parent)
    }

    /// Begins a job of these names.
    fn push(&mut self, line: u64, name: &'a [u8], parent: Option<&'a [u8]>) -> Result<(), Stop> {
        self.check_name(line, name)?;
        if self.is_named(name) {
            return Err(wrong(line, "another job has this name"));
        }
        if let Some(parent) = parent
            && !self.is_named(parent)
        {
            return Err(wrong(line, "the job around it is not on an earlier line"));
        }
        if self.seen.len() >= self.most_jobs() {
            return Err(wrong(line, "a plan has at most 64 jobs, or 4,096 if it is strict"));
        }
        let seen = Seen {
            line,
            name,
            parent,
            is_after: false,
            opens: Vec::new(self.alloc),
            subs: None,
            is_ended: false,
        };
        self.seen.push(seen).map_err(|_| Stop::NoMemory)
    }

    /// Returns how many jobs the plan may have.
    fn most_jobs(&self) -> usize {
        if self.kind == PlanKind::Strict {
            MOST_STRICT_JOBS
        } else {
            MOST_FREE_JOBS
        }
    }

    /// Returns whether one of the jobs has this name.
    fn is_named(&self, name: &[u8]) -> bool {
        self.seen.iter().any(|job| job.name == name)
    }

    /// Refuses a word that is no name of a job.
    fn check_name(&self, line: u64, name: &[u8]) -> Result<(), Stop> {
        match JobName::read(self.alloc, name) {
            Ok(_) => Ok(()),
            Err(ParseError::NoMemory) => Err(Stop::NoMemory),
            Err(ParseError::Misspelt) => {
                Err(wrong(line, "a name is 1 to 32 of a to z, 0 to 9, '_' and '-'"))
            }
        }
    }

    /// Reads the line of what a job comes after.
    fn read_after(&mut self, line: u64, words: Words<'a>) -> Result<(), Stop> {
        if self.kind != PlanKind::Strict {
            return Err(wrong(line, "'after' is for strict plans"));
        }
        let Some((job, before)) = self.seen.split_last() else {
            return Err(wrong(line, "'after' comes before the first job"));
        };
        if job.is_after || !job.opens.is_empty() {
            return Err(wrong(line, "'after' comes once, right after the line of its job"));
        }
        let mut count = 0_u64;
        for name in words {
            if !has_sibling(before, job, name) {
                return Err(wrong(
                    line,
                    "'after' may name only earlier jobs with the same parent",
                ));
            }
            count = count.saturating_add(1);
        }
        if count == 0 {
            return Err(wrong(line, "'after' needs the name of a job"));
        }
        if let Some(job) = self.seen.last_mut() {
            job.is_after = true;
        }
        Ok(())
    }

    /// Reads a step of the job that has begun.
    fn read_step(&mut self, line: u64, word: &'a [u8], words: Words<'a>) -> Result<(), Stop> {
        let alloc = self.alloc;
        let kind = self.kind;
        let Some(job) = self.seen.last_mut() else {
            return Err(wrong(line, "a step comes before the first job"));
        };
        if job.is_ended {
            return Err(wrong(line, "a step comes after 'commit' or 'abort'"));
        }
        let opens = if is_alone(word) {
            job.read_alone(line, word, words)?
        } else if word != b"try".as_slice() {
            job.read_call(alloc, line, word, words)?
        } else if kind == PlanKind::Strict {
            job.read_try(alloc, line, words)?
        } else {
            return Err(wrong(line, "'try' is for strict plans"));
        };
        job.opens.push(opens).map_err(|_| Stop::NoMemory)
    }

    /// Ends the job that has begun, if there is one.
    fn end_job(&self) -> Result<(), Stop> {
        match self.seen.last() {
            Some(job) if !job.is_ended => {
                Err(wrong(job.line, "the job does not end with 'commit' or 'abort'"))
            }
            _ => Ok(()),
        }
    }

    /// Ends the plan.
    fn end(&self) -> Result<(), Stop> {
        self.end_job()?;
        if self.seen.is_empty() {
            return Err(wrong_whole("it has no job"));
        }
        for job in self.seen.iter() {
            let has_subjobs = self.seen.iter().any(|other| other.parent == Some(job.name));
            match job.subs {
                None if has_subjobs => {
                    return Err(wrong(job.line, "the job has subjobs and no step 'subs'"));
                }
                Some(line) if !has_subjobs => {
                    return Err(wrong(line, "'subs' is a step of a job without subjobs"));
                }
                _ => {}
            }
        }
        Ok(())
    }
}

impl<'a> Seen<'a> {
    /// Reads a step of one word, which opens no file.
    fn read_alone(&mut self, line: u64, word: &[u8], words: Words<'a>) -> Result<bool, Stop> {
        let mut words = words;
        if words.next().is_some() {
            return Err(wrong(line, "'subs', 'commit' and 'abort' are lines of their own"));
        }
        if word != b"subs".as_slice() {
            self.is_ended = true;
        } else if self.subs.is_some() {
            return Err(wrong(line, "the job has a step 'subs' already"));
        } else {
            self.subs = Some(line);
        }
        Ok(false)
    }

    /// Reads a call that may fail.
    fn read_try(&self, alloc: Global, line: u64, words: Words<'a>) -> Result<bool, Stop> {
        let mut words = words;
        match words.next() {
            Some(name) if !is_alone(name) => self.read_call(alloc, line, name, words),
            _ => Err(wrong(line, "only a call may come after 'try'")),
        }
    }

    /// Reads a call, and returns whether it opens a file.
    fn read_call(
        &self,
        alloc: Global,
        line: u64,
        name: &[u8],
        words: Words<'a>,
    ) -> Result<bool, Stop> {
        if let Some(number) = opened_by(&words)
            && is_on_opened(alloc, name, &words)?
        {
            return self.check_opened(line, number);
        }
        if is_descriptor_word(name) && is_unknown(&words) {
            return Err(wrong(line, NOT_OPENED));
        }
        if name == b"put".as_slice() || name == b"get".as_slice() {
            return Err(wrong(line, NO_FILE));
        }
        match parse_call(alloc, name, words) {
            Ok(_) => Ok(name == b"open".as_slice()),
            Err(ParseError::NoMemory) => Err(Stop::NoMemory),
            Err(ParseError::Misspelt) => Err(wrong(
                line,
                "not a step: no call has this name and these words",
            )),
        }
    }

    /// Checks that a call on what a step opened has the number of a step that opens a file.
    fn check_opened(&self, line: u64, number: u64) -> Result<bool, Stop> {
        let before = number
            .checked_sub(1)
            .and_then(|before| usize::try_from(before).ok());
        match before.and_then(|before| self.opens.get(before)) {
            Some(opens) if *opens => Ok(false),
            _ => Err(wrong(line, NOT_OPENED)),
        }
    }
}

/// Returns whether a step is the only word of its line.
fn is_alone(word: &[u8]) -> bool {
    word == b"subs".as_slice() || word == b"commit".as_slice() || word == b"abort".as_slice()
}

/// Returns what comes after `@` in the first word, if that begins so.
fn after_at<'a>(words: &Words<'a>) -> Option<&'a [u8]> {
    let mut words = words.strip_first_byte(b'@')?;
    words.next()
}

/// Returns the number of a step after `@`, if the first word is one.
fn opened_by(words: &Words<'_>) -> Option<u64> {
    parse_u64(after_at(words)?)
}

/// Returns whether the first word is `@` and a name. The names that are known have numbers in their
/// place, so this one is not known.
fn is_unknown(words: &Words<'_>) -> bool {
    match after_at(words) {
        Some(name) => is_name(name),
        None => false,
    }
}

/// Returns whether words are a call on what a step opened.
fn is_on_opened(alloc: Global, name: &[u8], words: &Words<'_>) -> Result<bool, Stop> {
    let Some(words) = words.strip_first_byte(b'@') else {
        return Ok(false);
    };
    match parse_descriptor_call(alloc, name, words) {
        Ok(_) => Ok(true),
        Err(ParseError::NoMemory) => Err(Stop::NoMemory),
        Err(ParseError::Misspelt) => Ok(false),
    }
}

/// Returns whether one of these jobs has this name, and is in the same job.
fn has_sibling(before: &[Seen<'_>], job: &Seen<'_>, name: &[u8]) -> bool {
    before
        .iter()
        .any(|other| other.name == name && other.parent == job.parent)
}
