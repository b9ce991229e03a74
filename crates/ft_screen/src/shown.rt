// A tree of directories whose progress is shown while it is read or made.
ghost use Rattle.std.specs.Prelude.{◌≡◌};

use crate::tally::Tally;
use ft_cells::{Attributes, Timestamp};
use ft_copy::{CopyFault, Found, Leading, Listing, Opened, Source, Target};
use std::alloc::Global;
use std::cell::RefCell;
use std::io::Write;
use std::time::Clock;

/// A source that returns what another source returns. It shows on a screen, if there is one, how
/// many directories and files the other has reported. `done` is called at the end.
///
/// No clause says what it shows.
#[derive(Drop)]
pub struct ShownSource<'a, R, S, W> {
    source: &'a S,
    tally: RefCell<Tally<'a, R, W>>,
}

impl<'a, R: Clock, S: Source, W: Write> ShownSource<'a, R, S, W> {
    /// Returns a source that has reported nothing yet.
    pub fn new(
        rt: &'a R,
        alloc: Global,
        source: &'a S,
        screen: Option<W>,
    ) -> ShownSource<'a, R, S, W>
        ensures { result.source.now ≡ source.now }
    {
        ShownSource {
            source,
            tally: RefCell::new(Tally::new(rt, alloc, screen)),
        }
    }

    /// Erases what is shown.
    pub fn done(&self) {
        if let Ok(mut tally) = self.tally.try_borrow_mut() {
            tally.erase();
        }
    }

    /// Counts what was found. Something special is not counted.
    fn count(&self, found: Found) {
        if let Ok(mut tally) = self.tally.try_borrow_mut() {
            match found {
                Found::Folder(_) => tally.folder(),
                Found::File(_) | Found::Symlink(_) => tally.file(),
                Found::Special => {}
            }
        }
    }
}

impl<R: Clock, S: Source, W: Write> Source for ShownSource<'_, R, S, W> {
    type File = S::File;

    ghost tells = { λ shown. S.tells shown.source.now };

    /// Returns the names in a directory, as the other source does.
    fn names(&self, path: &[u8], node: u64) -> Result<Listing, CopyFault> {
        self.source.names(path, node)
    }

    /// Returns what is at a place, as the other source does, and counts it unless it is the root.
    fn look(&self, path: &[u8], node: u64) -> Result<Found, CopyFault> {
        let found = self.source.look(path, node)?;
        // (the root is not counted)
        if !path.is_empty() {
            self.count(found);
        }
        Ok(found)
    }

    /// Opens a file, as the other source does.
    fn open(&self, path: &[u8], node: u64) -> Result<Opened<S::File>, CopyFault> {
        self.source.open(path, node)
    }

    /// Returns the target of a symbolic link, as the other source does.
    fn read_link(&self, path: &[u8], node: u64) -> Result<Leading, CopyFault> {
        self.source.read_link(path, node)
    }

    /// Erases the line, and returns whether the path is to be left out. The other source reports
    /// what it leaves out, and the line makes room for this report.
    fn omits(&self, path: &[u8]) -> Result<bool, CopyFault> {
        self.done();
        self.source.omits(path)
    }
}

/// A target that makes what another target makes. It shows on a screen, if there is one, how many
/// directories and files the other has made. At the end what is shown is erased.
///
/// No clause says what it shows.
#[derive(Drop)]
pub struct ShownTarget<'a, R, T, W> {
    target: T,
    tally: Tally<'a, R, W>,
}

impl<'a, R: Clock, T: Target, W: Write> ShownTarget<'a, R, T, W> {
    /// Returns a target that has made nothing yet.
    pub fn new(rt: &'a R, alloc: Global, target: T, screen: Option<W>) -> ShownTarget<'a, R, T, W>
        ensures { result.target ≡ target }
    {
        ShownTarget {
            target,
            tally: Tally::new(rt, alloc, screen),
        }
    }
}

impl<R: Clock, T: Target, W: Write> Target for ShownTarget<'_, R, T, W> {
    ghost does = { λ old asked new. T.does old.target asked new.target };

    ghost fails = { λ old asked trouble new. T.fails old.target asked trouble new.target };

    /// Begins a tree in the other target.
    fn start(&mut self) -> Result<(), CopyFault> {
        self.target.start()
    }

    /// Counts a directory, and makes it in the other target.
    fn folder(&mut self, path: &[u8], attributes: Attributes) -> Result<(), CopyFault> {
        self.tally.folder();
        self.target.folder(path, attributes)
    }

    /// Counts a file, and makes it in the other target.
    fn open(&mut self, path: &[u8], attributes: Attributes) -> Result<(), CopyFault> {
        self.tally.file();
        self.target.open(path, attributes)
    }

    /// Appends bytes to the open file of the other target.
    fn piece(&mut self, bytes: &[u8]) -> Result<(), CopyFault> {
        self.target.piece(bytes)
    }

    /// Closes the open file of the other target.
    fn close(&mut self, time: Option<Timestamp>) -> Result<(), CopyFault> {
        self.target.close(time)
    }

    /// Counts a further name, and makes it in the other target.
    fn link(&mut self, first: &[u8], path: &[u8]) -> Result<(), CopyFault> {
        self.tally.file();
        self.target.link(first, path)
    }

    /// Counts a symbolic link, and makes it in the other target.
    fn symlink(&mut self, to: &[u8], path: &[u8]) -> Result<(), CopyFault> {
        self.tally.file();
        self.target.symlink(to, path)
    }

    /// Erases what is shown, and ends the tree in the other target.
    fn finish(&mut self, attributes: Attributes) -> Result<(), CopyFault> {
        self.tally.erase();
        self.target.finish(attributes)
    }

    /// Erases what is shown, and lets the other target remove what was begun.
    fn give_up(&mut self) {
        self.tally.erase();
        self.target.give_up()
    }
}
