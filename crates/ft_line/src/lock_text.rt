// The text of locks.
ghost use Rattle.std.specs.Prelude.{◌≡◌, ◌++◌, length, Some};
ghost use Rattle.std.specs.List.{filter};
ghost use Rattle.ft_words.specs.Texts.{lines_text};
ghost use Rattle.ft_line.specs.Reports.{locks_text, attribute_locks_text, lock_text, cell_text, is_attributes, is_told, mode_text, kind_text};

use ft_calls::Mode;
use ft_lock_rules::{LockKind, LockLine};
use ft_tree::{Cell, Entry};
use ft_words::PercentCoded;
use std::fmt;

/// Those of some locks that are of all but attributes.
#[derive(Clone, Copy)]
pub struct LocksText<'a>(pub &'a [LockLine]);

impl fmt::Display for LocksText<'_> {
    ghost output = { λ text. Some (locks_text text.0.now) };

    fn fmt<W: fmt::Write>(&self, f: &mut fmt::Formatter<W>) -> fmt::Result {
        let lines = LockLines {
            locks: self.0,
            of_attributes: false,
        };
        write!(f, "locks {}{lines}", lines.count())
    }
}

/// Those of some locks that are of attributes.
#[derive(Clone, Copy)]
pub struct AttributeLocksText<'a>(pub &'a [LockLine]);

impl fmt::Display for AttributeLocksText<'_> {
    ghost output = { λ text. Some (attribute_locks_text text.0.now) };

    fn fmt<W: fmt::Write>(&self, f: &mut fmt::Formatter<W>) -> fmt::Result {
        let lines = LockLines {
            locks: self.0,
            of_attributes: true,
        };
        write!(f, "attributes {}{lines}", lines.count())
    }
}

/// Those locks that are of attributes, or those that are not, each after a line feed.
#[derive(Clone, Copy)]
struct LockLines<'a> {
    locks: &'a [LockLine],
    of_attributes: bool,
}

impl LockLines<'_> {
    /// Returns whether this lock is one of them.
    fn has(self, lock: &LockLine) -> bool
        ensures { result ≡ is_told self.entry.of_attributes lock.now }
    {
        is_attributes(&lock.cell) == self.of_attributes
    }

    /// Returns how many of them there are.
    fn count(self) -> usize
        ensures { result ≡ length (filter (is_told self.entry.of_attributes) self.entry.locks.now) }
    {
        self.locks.iter().filter(|&lock| self.has(lock)).count()
    }
}

impl fmt::Display for LockLines<'_> {
    ghost output = { λ lines. Some
        (lines_text lock_text (filter (is_told lines.of_attributes) lines.locks.now)) };

    fn fmt<W: fmt::Write>(&self, f: &mut fmt::Formatter<W>) -> fmt::Result {
        for lock in self.locks {
            if self.has(lock) {
                write!(f, "\n{}", LockText(lock))?;
            }
        }
        Ok(())
    }
}

/// One lock.
#[derive(Clone, Copy)]
struct LockText<'a>(&'a LockLine);

impl fmt::Display for LockText<'_> {
    ghost output = { λ text. Some (lock_text text.0.now) };

    fn fmt<W: fmt::Write>(&self, f: &mut fmt::Formatter<W>) -> fmt::Result {
        let lock = self.0;
        write!(
            f,
            "lock {} {} {} {}",
            CellText(&lock.cell),
            mode_text(lock.mode),
            lock.owner.0,
            kind_text(lock.kind)
        )
    }
}

/// A cell.
#[derive(Clone, Copy)]
struct CellText<'a>(&'a Cell);

impl fmt::Display for CellText<'_> {
    ghost output = { λ text. Some (cell_text text.0.now) };

    fn fmt<W: fmt::Write>(&self, f: &mut fmt::Formatter<W>) -> fmt::Result {
        match self.0 {
            Cell::Entry(Entry { dir, name }) => {
                write!(f, "entry {dir} {}", PercentCoded(name.as_bytes()))
            }
            Cell::Names(dir) => write!(f, "names {dir}"),
            Cell::Parent(dir) => write!(f, "parent {dir}"),
            Cell::Links(file) => write!(f, "links {file}"),
            Cell::Bytes(file) => write!(f, "bytes {file}"),
            Cell::Fd(fd) => write!(f, "fd {fd}"),
            Cell::DirAttributes(number) | Cell::FileAttributes(number) => {
                write!(f, "attributes {number}")
            }
        }
    }
}

/// Returns whether a cell is the mode and the owners of a directory or of a file.
fn is_attributes(cell: &Cell) -> bool
    ensures { result ≡ is_attributes cell.now }
{
    matches!(cell, Cell::DirAttributes(_) | Cell::FileAttributes(_))
}

/// Returns the word for the mode of a lock.
fn mode_text(mode: Mode) -> &'static str
    ensures { result.now ≡ mode_text mode }
{
    match mode {
        Mode::Read => "read",
        Mode::Write => "write",
    }
}

/// Returns the word for how the owner got a lock.
fn kind_text(kind: LockKind) -> &'static str
    ensures { result.now ≡ kind_text kind }
{
    match kind {
        LockKind::Held => "held",
        LockKind::Retained => "retained",
    }
}
