// The places of the `get`s of a plan, and the numbers of its lines.
ghost use Rattle.std.specs.Prelude.{◌≡◌, ◌+◌, ◌++◌, ◌^◌, ◌<◌, ◌≤◌, length, IfOk, OnOk};
ghost use Rattle.ft_words.specs.Spelling.{words_of};
ghost use Rattle.ft_plan_files.specs.Places.{get_in, get_to, line_count, line_of_file, lines_made, places_of, plain_count, steps_to};
ghost use Rattle.ft_plan_files.specs.Counting.{count_of};
ghost use Rattle.ft_plan_files.specs.declared.writing.TheConstants.{LONGEST_PLAN};

use crate::file_line::{FileLine, file_line_in};
use ft_base::Memory;
use ft_names::without_return;
use ft_path::FilePath;
use ft_plan_names::{begins_job, is_silent, is_step};
use ft_transfer::Direction;
use ft_words::Lines;
use std::alloc::Global;

/// The place of a `get` in a plan.
#[derive(Debug, PartialEq, Eq, Drop)]
pub struct GetPlace {
    /// How many jobs are before its job.
    pub job: u64,
    /// The number of its step `read`. The first step of a job has the number 1.
    pub step: u64,
    /// The file of the disk that is to have the bytes.
    pub file: FilePath,
}

/// Returns the places of the `get`s of a plan, in the order of their lines.
pub fn places_of(alloc: Global, text: &[u8]) -> Result<Vec<GetPlace>, Memory>
    requires { length text.now ≤ LONGEST_PLAN }
    ensures { IfOk result (λ places. places.items ≡ places_of text.now) }
{
    let mut gets = Gets {
        jobs: 0,
        steps: 0,
        places: Vec::new(alloc),
    };
    for line in Lines::of(text) {
        gets.read(alloc, line)?;
    }
    Ok(gets.places)
}

/// The `get`s of the lines so far.
#[derive(Drop)]
struct Gets {
    // how many jobs have begun
    jobs: u64,
    // how many steps the last of them has
    steps: u64,
    // where the `get`s are
    places: Vec<GetPlace>,
}

impl Gets {
    /// Takes the next line.
    fn read(&mut self, alloc: Global, line: &[u8]) -> Result<(), Memory>
        requires jobs { self.old.jobs < 2 ^ 32 }
        requires steps { self.old.steps < 2 ^ 32 }
        ensures count { OnOk result (count_of self.new ≡ line_count (count_of self.old) line.now) }
        ensures places { OnOk result
            (self.new.places.items ≡ self.old.places.items ++ get_in (count_of self.old) line.now) }
    {
        let text = without_return(line);
        if is_silent(text) {
            return Ok(());
        }
        match file_line_in(alloc, text)? {
            None => {
                self.count(text);
                Ok(())
            }
            Some(line) => self.add(line.direction, line.file),
        }
    }

    /// Counts words that carry no file.
    fn count(&mut self, text: &[u8])
        requires jobs { self.old.jobs < 2 ^ 32 }
        requires steps { self.old.steps < 2 ^ 32 }
        ensures count { count_of self.new ≡ plain_count (count_of self.old) (words_of text.now) }
        ensures places { self.new.places ≡ self.old.places }
    {
        if begins_job(text) {
            self.jobs += 1;
            self.steps = 0;
        } else if is_step(text) {
            self.steps += 1;
        }
    }

    /// Counts the steps of a line that carries this file, and takes its place if it is a `get`.
    fn add(&mut self, direction: Direction, file: FilePath) -> Result<(), Memory>
        requires { self.old.steps < 2 ^ 32 }
        ensures count { OnOk result
            (count_of self.new ≡ (self.old.jobs, self.old.steps + steps_to direction)) }
        ensures places { OnOk result (self.new.places.items
            ≡ self.old.places.items ++ get_to direction (count_of self.old) file) }
    {
        if let Direction::Get = direction {
            let job = self.jobs.saturating_sub(1);
            let step = self.steps + 2;
            self.places.push(GetPlace { job, step, file })?;
        }
        self.steps += steps_to(direction);
        Ok(())
    }
}

/// Returns the number of the line of a plan's file for which the line of this number was written
/// out. The first line has the number 1.
pub fn line_of_file(alloc: Global, text: &[u8], number: u64) -> Result<u64, Memory>
    ensures { IfOk result (λ line. line ≡ line_of_file text.now number) }
{
    let mut here = 1;
    let mut left = number;
    for line in Lines::of(text) {
        let made = lines_made(alloc, line)?;
        if left <= made {
            return Ok(here);
        }
        left -= made;
        here += 1;
    }
    Ok(here - 1 + left)
}

/// Returns how many lines are written out for a line.
fn lines_made(alloc: Global, line: &[u8]) -> Result<u64, Memory>
    ensures { IfOk result (λ made. made ≡ lines_made line.now) }
{
    let found = file_line_in(alloc, without_return(line))?;
    Ok(found.map_or(1, |line| steps_to(line.direction)))
}

/// Returns for how many steps a line in this direction stands.
fn steps_to(direction: Direction) -> u64
    ensures { result ≡ steps_to direction }
{
    match direction {
        Direction::Put => 4,
        Direction::Get => 3,
    }
}
