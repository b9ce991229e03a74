// The open file descriptions of a tree, and how many each file has.
ghost use Rattle.std.specs.Prelude.{◌≡◌, ◌+◌, ◌-◌, ℕ, true, IsSome, IsOk, IfOk, OnOk, OnErr};
ghost use Rattle.std.specs.Option.{option_flatten, option_map};
ghost use Rattle.std.specs.Ordering.{nat_cmp};
ghost use Rattle.std.specs.Coded.{coded_ℕ, coded_option};
ghost use Rattle.std.specs.FinMap as finite;
ghost use Rattle.ft_cells.specs.declared.open_file.OpenFile.{OpenFile};
ghost use Rattle.ft_cells.specs.contracts.open_file.OpenFile as open_file;
ghost use Rattle.ft_cells.specs.Cells.{Opens, is_open};
ghost use Rattle.ft_open_files.specs.Openings.{openings, AreCounts, described, one_of};

use ft_base::{Memory, Table};
use ft_cells::{Hint, Hinted, OpenFile, seen_in, value_in, with_hint};
use std::alloc::{AllocError, Global};
use std::marker::Model;

/// The open file descriptions, by descriptor: a place for each, which may be empty.
///
/// The descriptions of each file are counted, so that one lookup reports whether a file is open. If
/// an update of a count ever fails, all places are searched from then on. An update fails if there
/// is not enough memory or the count is too large.
#[derive(Drop)]
pub struct OpenFiles {
    places: Table<Option<Hinted<OpenFile>>>,
    counts: Table<u64>,
    is_counted: bool,
}

impl Model for OpenFiles {
    ghost Value = { Opens };

    ghost coded = { finite.code coded_ℕ (coded_option open_file.the_row.coded) };

    ghost view = { λ a. a.places };

    ghost invariant = { λ a. a.is_counted ≡ true → AreCounts a.counts (openings a.places) };
}

impl OpenFiles {
    /// Returns a table with no description. Takes no memory.
    pub fn new(alloc: Global) -> OpenFiles
        ensures { result ≡ finite.empty }
    {
        OpenFiles {
            places: Table::new(alloc),
            counts: Table::new(alloc),
            is_counted: true,
        }
    }

    /// Returns the table of all places.
    pub fn places(&self) -> &Table<Option<Hinted<OpenFile>>>
        ensures { result.now ≡ self.now }
    {
        &self.places
    }

    /// Returns the description of a descriptor, if it is open.
    pub fn get(&self, fd: u64) -> Option<OpenFile>
        ensures { result ≡ option_flatten (finite.get self.now fd) }
    {
        match self.get_hinted(fd) {
            Some((open, _)) => Some(open),
            None => None,
        }
    }

    /// Returns the description of a descriptor, if it is open, with a hint of where its file is.
    pub fn get_hinted(&self, fd: u64) -> Option<(OpenFile, Hint)>
        ensures { option_map (λ seen. seen.0) result ≡ option_flatten (finite.get self.now fd) }
    {
        seen_in(self.places.get(fd))
    }

    /// Returns whether some descriptor has a file open.
    pub fn is_open(&self, file: u64) -> bool
        ensures { result ≡ is_open self.now file }
    {
        if self.is_counted {
            return counted(&self.counts, file) > 0;
        }
        is_open(&self.places, file)
    }

    /// Sets the description of a descriptor, or that it is closed, with a hint of where the file
    /// is. Returns the previous content of its place, if there was such a place.
    ///
    /// Out of memory is the only error. It changes nothing, and can occur only if the place is new.
    pub fn set(
        &mut self,
        fd: u64,
        to: Option<OpenFile>,
        near: Hint,
    ) -> Result<Option<Option<OpenFile>>, Memory>
        ensures was { IfOk result (λ was. was ≡ finite.get self.old fd) }
        ensures ok { OnOk result (self.new ≡ finite.insert self.old fd to) }
        ensures err { OnErr result (self.new ≡ self.old) }
        ensures place { IsSome (finite.get self.old fd) → IsOk result }
    {
        let was = value_in(self.places.insert(fd, with_hint(to, near))?);
        if self.is_counted {
            self.is_counted = recount(&mut self.counts, file_of(was.flatten()), file_of(to));
        }
        Ok(was)
    }

    /// Removes the place of a descriptor, with its content.
    pub fn remove(&mut self, fd: u64)
        ensures { self.new ≡ finite.remove self.old fd }
    {
        let was = value_in(self.places.remove(fd));
        if self.is_counted {
            self.is_counted = recount(&mut self.counts, file_of(was.flatten()), None);
        }
    }

    /// Removes the count of a file, if the count is zero. The descriptions do not change.
    pub fn forget(&mut self, file: u64)
        ensures { self.new ≡ self.old }
    {
        if counted(&self.counts, file) == 0 {
            self.counts.remove(file);
        }
    }
}

impl Clone for OpenFiles {
    ghost is_clone = { λ descriptions copy. copy ≡ descriptions };

    fn clone(&self) -> Result<OpenFiles, AllocError> {
        let places = self.places.clone()?;
        let counts = self.counts.clone()?;
        Ok(OpenFiles {
            places,
            counts,
            is_counted: self.is_counted,
        })
    }
}

/// Returns whether some descriptor has a file open, by searching all places.
fn is_open(places: &Table<Option<Hinted<OpenFile>>>, file: u64) -> bool
    ensures { result ≡ is_open places.now file }
{
    for (_, place) in places.iter() {
        if let Some(open) = place {
            if open.value().file == file {
                return true;
            }
        }
    }
    false
}

/// Returns the file of a description, if there is one.
fn file_of(description: Option<OpenFile>) -> Option<u64>
    ensures { result ≡ option_map (λ (o : OpenFile). o.file) description }
{
    match description {
        Some(description) => Some(description.file),
        None => None,
    }
}

/// Returns how many descriptions of a file were counted.
fn counted(counts: &Table<u64>, file: u64) -> u64
    ensures { result ≡ described counts.now file }
{
    match counts.get(file) {
        Some(count) => *count,
        None => 0,
    }
}

/// Updates the counts after a description of the file `gone` was replaced by one of the file
/// `come`. Returns whether that was done. It is not done if there is not enough memory or a count
/// is too large.
fn recount(counts: &mut Table<u64>, gone: Option<u64>, come: Option<u64>) -> bool
    ensures { result ≡ true → (n m : ℕ → ℕ) → AreCounts counts.old n
        → ((i : ℕ) → one_of gone i + m i ≡ one_of come i + n i) → AreCounts counts.new m }
{
    if gone == come {
        return true;
    }
    add_one(counts, come) && take_one(counts, gone)
}

/// Counts one more description of the file, if there is one. Returns whether that was done.
fn add_one(counts: &mut Table<u64>, file: Option<u64>) -> bool
    ensures { result ≡ true → (i : ℕ)
        → described counts.new i ≡ one_of file i + described counts.old i }
{
    let Some(file) = file else {
        return true;
    };
    match counted(counts, file).checked_add(1) {
        Some(count) => counts.insert(file, count).is_ok(),
        None => false,
    }
}

/// Counts one description of the file less, if there is one. Returns whether that was done.
fn take_one(counts: &mut Table<u64>, file: Option<u64>) -> bool
    ensures { result ≡ true → (i : ℕ)
        → described counts.new i ≡ described counts.old i - one_of file i }
{
    let Some(file) = file else {
        return true;
    };
    let count = counted(counts, file).saturating_sub(1);
    counts.insert(file, count).is_ok()
}
