// The locks of one owner on one cell.
ghost use Rattle.std.specs.Prelude.{◌≡◌};

use crate::line::LockKind;
use ft_posix::Mode;

/// The locks of one owner on one cell, out of the four that are possible.
#[derive(Clone, Copy, Default)]
pub struct LockModes {
    pub read_held: bool,
    pub read_retained: bool,
    pub write_held: bool,
    pub write_retained: bool,
}

impl LockModes {
    ghost use Rattle.ft_lock_rules.specs.LockModes.{no_marks, held_in, held_of, with_marks, as_retained, has_mark, is_marked, conflicts_with, suffice_for};

    /// Returns no lock.
    pub fn none() -> LockModes
        ensures { result ≡ no_marks }
    {
        LockModes {
            read_held: false,
            read_retained: false,
            write_held: false,
            write_retained: false,
        }
    }

    /// Returns the lock that a call of the owner itself takes.
    pub fn held(mode: Mode) -> LockModes
        ensures { result ≡ held_in mode }
    {
        LockModes {
            read_held: mode == Mode::Read,
            write_held: mode == Mode::Write,
            ..LockModes::none()
        }
    }

    /// Returns the locks among these that are held.
    pub fn only_held(self) -> LockModes
        ensures { result ≡ held_of self }
    {
        LockModes {
            read_held: self.read_held,
            write_held: self.write_held,
            ..LockModes::none()
        }
    }

    /// Returns these locks and the others together.
    pub fn with(self, other: LockModes) -> LockModes
        ensures { result ≡ with_marks self other }
    {
        LockModes {
            read_held: self.read_held || other.read_held,
            read_retained: self.read_retained || other.read_retained,
            write_held: self.write_held || other.write_held,
            write_retained: self.write_retained || other.write_retained,
        }
    }

    /// Returns what a parent inherits when the owner commits: it retains these locks in their
    /// modes.
    pub fn as_retained(self) -> LockModes
        ensures { result ≡ as_retained self }
    {
        LockModes {
            read_retained: self.read_held || self.read_retained,
            write_retained: self.write_held || self.write_retained,
            ..LockModes::none()
        }
    }

    /// Returns whether the lock of this mode and kind is among them.
    pub fn has(self, mode: Mode, kind: LockKind) -> bool
        ensures { result ≡ has_mark self mode kind }
    {
        match (mode, kind) {
            (Mode::Read, LockKind::Held) => self.read_held,
            (Mode::Read, LockKind::Retained) => self.read_retained,
            (Mode::Write, LockKind::Held) => self.write_held,
            (Mode::Write, LockKind::Retained) => self.write_retained,
        }
    }

    /// Returns whether there is any lock.
    pub fn is_some(self) -> bool
        ensures { result ≡ is_marked self }
    {
        self.read_held || self.read_retained || self.write_held || self.write_retained
    }

    /// Returns whether one of them conflicts with an access in this mode to an overlapping cell:
    /// one of the two writes.
    pub fn conflicts_with(self, mode: Mode) -> bool
        ensures { result ≡ conflicts_with self mode }
    {
        match mode {
            Mode::Read => self.write_held || self.write_retained,
            Mode::Write => self.is_some(),
        }
    }

    /// Returns whether one of them is for an access in this mode, or for more: a lock to write is
    /// also enough to read.
    pub fn suffice_for(self, mode: Mode) -> bool
        ensures { result ≡ suffice_for self mode }
    {
        match mode {
            Mode::Read => self.is_some(),
            Mode::Write => self.write_held || self.write_retained,
        }
    }
}
