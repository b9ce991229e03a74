// A tree of directories in memory: one that is read, and one that is made. Each has so many turns:
// a call takes one, and if none is left it fails.
use ft_cells::{Attributes, Kind, Timestamp};
use ft_copy::{
    CopyFault, FileFacts, FileId, FolderEntry, Found, FoundFile, FoundFolder, Given, Leading,
    Listing, Opened, Source, Target, name_of,
};
use std::alloc::Global;
use std::cell::Cell;
use std::io;
use std::io::{ErrorKind, Read};
use std::time::{Clock, Duration};

// ---- what stands where

/// The thing at a path. A directory and a file have the default attributes, and a file no time, if
/// nothing else is given.
#[derive(Clone, Copy)]
pub enum Held<'a> {
    Folder,
    /// A directory with these attributes.
    Owned(Attributes),
    /// A file: its number, how many names it has, and its bytes.
    File(u64, u64, &'a [u8]),
    /// A file of one name that is given this: its number, and its bytes.
    Given(u64, &'a [u8], Given),
    /// A symbolic link: its number, how many names it has, and where it leads.
    Symlink(u64, u64, &'a [u8]),
    /// A thing that a tree has no place for.
    Special,
}

/// A path, and what is there.
pub type Row<'a> = (&'a [u8], Held<'a>);

impl<'a> Held<'a> {
    /// Its attributes, if it is a directory.
    fn folder(self) -> Option<Attributes> {
        match self {
            Held::Folder => Some(Attributes::of(Kind::Dir)),
            Held::Owned(attributes) => Some(attributes),
            _ => None,
        }
    }

    /// Its number, the count of its names, its bytes and what it is given, if it is a file.
    fn file(self) -> Option<(u64, u64, &'a [u8], Given)> {
        let given = Given {
            attributes: Attributes::of(Kind::File),
            time: None,
        };
        match self {
            Held::File(number, links, bytes) => Some((number, links, bytes, given)),
            Held::Given(number, bytes, given) => Some((number, 1, bytes, given)),
            _ => None,
        }
    }
}

/// The thing at a path, if there is one: at the root a directory, if no row is there.
fn held_at<'a>(rows: &[Row<'a>], path: &[u8]) -> Option<Held<'a>> {
    match rows.iter().find(|row| row.0 == path) {
        Some(row) => Some(row.1),
        None if path.is_empty() => Some(Held::Folder),
        None => None,
    }
}

/// The name that leads from a directory to a path, if it is one name.
fn name_in<'a>(folder: &[u8], path: &'a [u8]) -> Option<&'a [u8]> {
    let name = path.strip_prefix(folder)?.strip_prefix(b"/".as_slice())?;
    if name.contains(&b'/') {
        return None;
    }
    Some(name)
}

// ---- a tree that is read

/// A tree of these rows. The names of a directory are listed from the last to the first.
#[derive(Drop)]
pub struct FakeSource<'a> {
    pub alloc: Global,
    pub rows: &'a [Row<'a>],
    /// The things at these paths when they are listed, opened or read, though those of the rows
    /// above were found there.
    pub meanwhile: &'a [Row<'a>],
    /// The path at which what a tree has no place for is left out.
    pub skipped: &'a [u8],
    pub turns: &'a Cell<u64>,
}

/// A file that is open for reading.
#[derive(Drop)]
pub struct FakeFile<'a> {
    bytes: &'a [u8],
    turns: &'a Cell<u64>,
}

/// The numbers of all directories that are found, and of those that come in their place.
const FIRST: u64 = 0;

const MEANWHILE: u64 = 1;

/// Takes a turn.
fn take_turn(turns: &Cell<u64>) -> Result<(), CopyFault> {
    let left = turns.get();
    if left == 0 {
        return Err(CopyFault::Read);
    }
    turns.set(left - 1);
    Ok(())
}

/// The facts of a file, or of a symbolic link.
fn facts_of(number: u64, links: u64, bytes: &[u8]) -> FileFacts {
    FileFacts {
        id: FileId { device: 1, number },
        links,
        size: bytes.len() as u64,
    }
}

/// Returns what distinguishes a directory from the one that comes in its place.
fn folder_id(number: u64) -> FileId {
    FileId { device: 2, number }
}

/// The thing at a path, as it is found.
fn found_as(held: Held<'_>) -> Result<Found, CopyFault> {
    if let Some(attributes) = held.folder() {
        let id = folder_id(FIRST);
        return Ok(Found::Folder(FoundFolder { id, attributes }));
    }
    if let Some((number, links, bytes, given)) = held.file() {
        let facts = facts_of(number, links, bytes);
        return Ok(Found::File(FoundFile { facts, given }));
    }
    match held {
        Held::Symlink(number, links, to) => Ok(Found::Symlink(facts_of(number, links, to))),
        Held::Special => Ok(Found::Special),
        _ => Err(CopyFault::Read),
    }
}

impl<'a> FakeSource<'a> {
    /// The thing that is listed, opened or read at a path.
    fn held_now(&self, path: &[u8]) -> Result<Held<'a>, CopyFault> {
        take_turn(self.turns)?;
        match self.meanwhile.iter().find(|row| row.0 == path) {
            Some(row) => Ok(row.1),
            None => held_at(self.rows, path).ok_or(CopyFault::Read),
        }
    }

    /// Returns whether another thing is there by then.
    fn is_other(&self, path: &[u8]) -> bool {
        self.meanwhile.iter().any(|row| row.0 == path)
    }
}

impl<'a> Source for FakeSource<'a> {
    type File = FakeFile<'a>;

    fn names(&self, path: &[u8], _node: u64) -> Result<Listing, CopyFault> {
        self.held_now(path)?.folder().ok_or(CopyFault::Read)?;
        let id = folder_id(if self.is_other(path) {
            MEANWHILE
        } else {
            FIRST
        });
        let mut names = Vec::new(self.alloc);
        for row in self.rows.iter().rev() {
            if let Some(bytes) = name_in(path, row.0) {
                let name = name_of(self.alloc, bytes)?;
                names.push(FolderEntry { name, node: 0 })?;
            }
        }
        Ok(Listing { id, names })
    }

    fn look(&self, path: &[u8], _node: u64) -> Result<Found, CopyFault> {
        take_turn(self.turns)?;
        found_as(held_at(self.rows, path).ok_or(CopyFault::Read)?)
    }

    fn open(&self, path: &[u8], _node: u64) -> Result<Opened<FakeFile<'a>>, CopyFault> {
        let held = self.held_now(path)?;
        let (number, links, bytes, _) = held.file().ok_or(CopyFault::Read)?;
        Ok(Opened {
            id: facts_of(number, links, bytes).id,
            file: FakeFile {
                bytes,
                turns: self.turns,
            },
        })
    }

    fn read_link(&self, path: &[u8], _node: u64) -> Result<Leading, CopyFault> {
        match self.held_now(path)? {
            Held::Symlink(number, links, to) => Ok(Leading {
                id: facts_of(number, links, to).id,
                to: Vec::from_slice(self.alloc, to)?.into(),
            }),
            _ => Err(CopyFault::Read),
        }
    }

    fn omits(&self, path: &[u8]) -> Result<bool, CopyFault> {
        take_turn(self.turns)?;
        Ok(path == self.skipped)
    }
}

impl Read for FakeFile<'_> {
    fn read(&mut self, buffer: &mut [u8]) -> io::Result<usize> {
        match take_turn(self.turns) {
            Ok(()) => self.bytes.read(buffer),
            Err(_) => Err(io::Error::from(ErrorKind::Other)),
        }
    }
}

// ---- a tree that is made

/// A tree that is made. A call that fails has made something all the same.
#[derive(Drop)]
pub struct FakeTarget {
    alloc: Global,
    turns: u64,
    // the root and what was made in it, each in its turn
    made: Vec<Made>,
    // the bytes of each file, and where each symbolic link leads
    files: Vec<Vec<u8>>,
    // what each of them was given, by the same numbers
    given: Vec<Given>,
    // the attributes of the root, once the tree is whole
    root: Option<Attributes>,
}

/// A thing that was made at a path.
#[derive(Drop)]
struct Made {
    path: Vec<u8>,
    what: What,
}

/// A directory with these attributes, or a name of the file or of the symbolic link of this number.
#[derive(Clone, Copy, PartialEq, Eq)]
enum What {
    Folder(Attributes),
    File(usize),
    Symlink(usize),
}

impl FakeTarget {
    /// Returns a target on which nothing is made yet, and which fails after so many calls.
    pub fn new(alloc: Global, turns: u64) -> FakeTarget {
        FakeTarget {
            alloc,
            turns,
            made: Vec::new(alloc),
            files: Vec::new(alloc),
            given: Vec::new(alloc),
            root: None,
        }
    }

    /// Returns whether there is nothing.
    pub fn is_empty(&self) -> bool {
        self.made.is_empty() && self.files.is_empty()
    }

    /// Returns whether the tree is whole and has exactly these rows, made in this order. The first
    /// may be that of the root, which else has the default attributes.
    pub fn holds(&self, rows: &[Row<'_>]) -> bool {
        let (root, rows) = match rows.split_first() {
            Some((row, rows)) if row.0.is_empty() => (row.1.folder(), rows),
            _ => (Some(Attributes::of(Kind::Dir)), rows),
        };
        match self.made.split_first() {
            Some((top, made)) if self.root == root && top.path.is_empty() => {
                made.len() == rows.len()
                    && made
                        .iter()
                        .zip(rows)
                        .all(|(made, row)| self.is_row(made, row))
            }
            _ => false,
        }
    }

    /// Returns whether what was made is this row.
    fn is_row(&self, made: &Made, row: &Row<'_>) -> bool {
        made.path.as_slice() == row.0
            && match (made.what, row.1) {
                (What::Folder(attributes), held) => held.folder() == Some(attributes),
                (What::File(file), held) => self.is_file(file, held),
                (What::Symlink(link), Held::Symlink(number, _, to)) => {
                    link as u64 == number && self.has_bytes(link, to)
                }
                _ => false,
            }
    }

    /// Returns whether the file of this number is that of a row.
    fn is_file(&self, file: usize, held: Held<'_>) -> bool {
        match held.file() {
            Some((number, _, bytes, given)) => {
                file as u64 == number
                    && self.has_bytes(file, bytes)
                    && self.given.get(file) == Some(&given)
            }
            None => false,
        }
    }

    /// Returns whether the file, or where the symbolic link leads, of this number is these bytes.
    fn has_bytes(&self, file: usize, bytes: &[u8]) -> bool {
        self.files
            .get(file)
            .is_some_and(|held| held.as_slice() == bytes)
    }

    /// Returns what was made at a path.
    fn at(&self, path: &[u8]) -> Option<&Made> {
        self.made.iter().find(|made| made.path.as_slice() == path)
    }

    /// Makes something in a directory, if its name is free, and takes a turn.
    fn put(&mut self, path: &[u8], what: What) -> Result<(), CopyFault> {
        let is_in_folder = self.made.iter().any(|made| matches!(made.what, What::Folder(_))
            && name_in(made.path.as_slice(), path).is_some());
        if !is_in_folder || self.at(path).is_some() {
            return Err(CopyFault::BadTree);
        }
        let path = Vec::from_slice(self.alloc, path)?;
        self.made.push(Made { path, what })?;
        self.take_turn()
    }

    /// Adds a file or a symbolic link of these bytes, and returns its number.
    fn add(&mut self, bytes: Vec<u8>, attributes: Attributes) -> Result<usize, CopyFault> {
        let number = self.files.len();
        self.files.push(bytes)?;
        self.given.push(Given {
            attributes,
            time: None,
        })?;
        Ok(number)
    }

    /// Takes a turn.
    fn take_turn(&mut self) -> Result<(), CopyFault> {
        if self.turns == 0 {
            return Err(CopyFault::Write);
        }
        self.turns -= 1;
        Ok(())
    }
}

impl Target for FakeTarget {
    fn start(&mut self) -> Result<(), CopyFault> {
        self.made.push(Made {
            path: Vec::new(self.alloc),
            what: What::Folder(Attributes::of(Kind::Dir)),
        })?;
        self.take_turn()
    }

    fn folder(&mut self, path: &[u8], attributes: Attributes) -> Result<(), CopyFault> {
        self.put(path, What::Folder(attributes))
    }

    fn open(&mut self, path: &[u8], attributes: Attributes) -> Result<(), CopyFault> {
        let file = self.add(Vec::new(self.alloc), attributes)?;
        self.put(path, What::File(file))
    }

    fn piece(&mut self, bytes: &[u8]) -> Result<(), CopyFault> {
        match self.files.last_mut() {
            Some(file) => file.extend_from_slice(bytes)?,
            None => return Err(CopyFault::BadTree),
        }
        self.take_turn()
    }

    fn close(&mut self, time: Option<Timestamp>) -> Result<(), CopyFault> {
        match self.given.last_mut() {
            Some(given) => given.time = time,
            None => return Err(CopyFault::BadTree),
        }
        self.take_turn()
    }

    fn link(&mut self, first: &[u8], path: &[u8]) -> Result<(), CopyFault> {
        match self.at(first) {
            Some(made) if !matches!(made.what, What::Folder(_)) => {
                let what = made.what;
                self.put(path, what)
            }
            _ => Err(CopyFault::BadTree),
        }
    }

    fn symlink(&mut self, to: &[u8], path: &[u8]) -> Result<(), CopyFault> {
        let bytes = Vec::from_slice(self.alloc, to)?;
        let link = self.add(bytes, Attributes::of(Kind::Link))?;
        self.put(path, What::Symlink(link))
    }

    fn finish(&mut self, attributes: Attributes) -> Result<(), CopyFault> {
        self.root = Some(attributes);
        self.take_turn()
    }

    fn give_up(&mut self) {
        self.made.clear();
        self.files.clear();
        self.given.clear();
        self.root = None;
    }
}

// ---- a clock

/// A clock that goes on by so many milliseconds at each look.
#[derive(Drop)]
pub struct FakeClock {
    step: u64,
    millis: Cell<u64>,
}

impl FakeClock {
    /// Returns a clock that goes on by this step each time it is read.
    pub fn new(step: u64) -> FakeClock {
        FakeClock {
            step,
            millis: Cell::new(0),
        }
    }
}

impl Clock for FakeClock {
    fn monotonic(&self) -> io::Result<Duration> {
        self.millis.set(self.millis.get().saturating_add(self.step));
        Ok(Duration::from_millis(self.millis.get()))
    }

    fn since_1970(&self) -> io::Result<Duration> {
        self.monotonic()
    }
}
