// A tree by its cells.
ghost use Rattle.std.specs.Prelude.{◌≡◌, ◌↔◌, ◌<◌, ◌≤◌, ◌+◌, ◌-◌, ◌^◌, ℕ, [], length, IsTrue, IsOk, IfOk, OnOk, OnErr, Option};
ghost use Rattle.std.specs.Option.{option_copied, option_map};
ghost use Rattle.std.specs.FinMap as finite;
ghost use Rattle.ft_cells.specs.Nodes.{with_kinds};
ghost use Rattle.ft_cells.specs.Looks.{answer};
ghost use Rattle.ft_tree.specs.Views.{view_of};
ghost use Rattle.ft_tree.specs.Walk.{walk, found};
ghost use Rattle.ft_body.specs.declared.TheConstants.{LARGEST_SIZE};
ghost use Rattle.ft_body.specs.Bytes.{fitting, after_write, resized};
ghost use Rattle.ft_cells.specs.Cells.{entry_of, names_of, parent_of, dir_attributes_of, links_of, file_attributes_of, contents_of, bytes_of, time_of, untimed, timed, body_in, open_of, kind_of, has_dir, has_file, put_entry, put_parent, put_dir_attributes, put_links, put_file_attributes, put_contents, put_open, directory_count, HasEntryPlace, HasDirPlace, HasFilePlace, HasOpenPlace, fresh_cells};
ghost use Rattle.ft_cells.specs.declared.cell.Cell.TheVariants.{Entry as EntryCell, Parent, Links, Fd};
ghost use Rattle.ft_tree.specs.Held.{place_at, without_place};
ghost use Rattle.ft_cells.specs.Limits.{default_limits};
ghost use Rattle.ft_cells.specs.Rows.{rows_of};
ghost use Rattle.ft_tree.specs.Tidy.{tidy};
ghost use Rattle.ft_tree.specs.Sound.{AreSoundCells, IsFree};
ghost use Rattle.std.specs.FinSet as set;
ghost use Rattle.ft_tree.specs.Sweep.{is_useless, is_spare, one_if, at_place, drop_spare, swept_at, dropped_at, places_in, IsSwept, IsSweptClean, LeavesNone};

use crate::cursor::{Cursor, HintedFile};
use crate::keeps::Keeps;
use crate::reader::walk;
use crate::rows::{
    push_dir_attributes, push_dirs, push_edges, push_file_attributes, push_files, push_opens,
    push_times,
};
use ft_base::Memory;
use ft_body::Body;
use ft_cells::{
    Attributes, Cell, Entry, Form, Found, Hint, Kind, Node, OpenFile, PathEnd, Rare, Timestamp,
    TreeLimits, TreeRow,
};
use ft_inodes::{Directory, File, FileUndo, Inodes};
use ft_open_files::OpenFiles;
use ft_path::{Errno, Name, Parts};
use std::alloc::Global;
use std::marker::Model;

/// The number of the root directory, where every walk begins.
pub const ROOT: u64 = 1;

/// A tree of directories and files with its open file descriptions, in memory.
///
/// Clauses see its stored cells and its limits, which never change. For each directory they see its
/// parent, its attributes, and a place for each of its entries. For each file they see the count of
/// its links, its attributes, and its bytes with their time. For each descriptor they see a place
/// for its open file description. The places of entries and descriptions may be empty.
///
/// The plain tree is what these cells are when tidied: without the empty places, and without files
/// that neither an entry nor a description names. A tree may have any number of each, and keeps the
/// allocator that it was made with.
pub struct Tree {
    alloc: Global,
    limits: TreeLimits,
    inodes: Inodes,
    opens: OpenFiles,
    /// A hint of where the directory or file is that was last changed, except by a change of its
    /// entries.
    near: Hint,
    /// A hint of where the directory is of which an entry was last changed.
    home: Hint,
    /// The number that is mixed into the hashes of names.
    seed: u64,
}

impl Drop for Tree {
    fn drop(self) {
        let Tree {
            alloc: _,
            limits: _,
            inodes: _,
            opens: _,
            near: _,
            home: _,
            seed: _,
        } = self;
    }
}

impl Model for Tree {
    ghost use Rattle.std.specs.Prelude.{◌≤◌};
    ghost use Rattle.ft_body.specs.declared.TheConstants.{LARGEST_SIZE};
    ghost use Rattle.ft_cells.specs.Cells.{Cells, coded_cells};

    ghost Value = { Cells };

    ghost coded = { coded_cells };

    ghost view = { λ a. record {
      limits = a.limits;
      directories = a.inodes.directories;
      files = a.inodes.files;
      opens = a.opens;
    } };

    ghost invariant = { λ a. a.limits.file_size ≤ LARGEST_SIZE };
}

impl Tree {
    /// Returns the empty tree with the default limits: only the root, without an entry. Every
    /// number except that of the root is free in it. Out of memory is the only error.
    pub fn new(alloc: Global) -> Result<Tree, Memory>
        ensures cells { IfOk result (λ tree. tree ≡ fresh_cells default_limits) }
        ensures sound { IfOk result (λ tree. AreSoundCells tree) }
        ensures free { IfOk result (λ tree. (k : ℕ) → 2 ≤ k → IsFree tree k) }
    {
        Tree::with_limits(alloc, TreeLimits::default())
    }

    /// Returns the empty tree with these limits: only the root, without an entry. Every number
    /// except that of the root is free in it. Out of memory is the only error.
    pub fn with_limits(alloc: Global, limits: TreeLimits) -> Result<Tree, Memory>
        requires { limits.file_size ≤ LARGEST_SIZE }
        ensures cells { IfOk result (λ tree. tree ≡ fresh_cells limits) }
        ensures sound { IfOk result (λ tree. AreSoundCells tree) }
        ensures free { IfOk result (λ tree. (k : ℕ) → 2 ≤ k → IsFree tree k) }
    {
        let mut inodes = Inodes::new(alloc);
        let near = inodes.add_directory(ROOT, Directory::new(alloc, None))?;
        Ok(Tree {
            alloc,
            limits,
            inodes,
            opens: OpenFiles::new(alloc),
            near,
            home: near,
            seed: 0,
        })
    }

    /// Sets the number that is mixed into the hashes by which names are found. Someone who cannot
    /// guess it cannot choose names that collide. Until it is set, it is 0.
    ///
    /// Set it before the first entry: a directory with many entries keeps the number that it found.
    /// The number is not visible in the cells of the tree.
    pub fn seed(&mut self, seed: u64)
        ensures { self.new ≡ self.old }
    {
        self.seed = seed;
    }

    /// Returns the limits of the tree.
    pub fn limits(&self) -> TreeLimits
        ensures are { result ≡ self.now.limits }
        ensures size { result.file_size ≤ LARGEST_SIZE }
    {
        self.limits
    }

    /// Returns what a name leads to in a directory. Returns nothing if the name is not an entry or
    /// `dir` is not a stored directory. `.` and `..` are treated like other names.
    ///
    /// See POSIX.1-2017, Base Definitions, 3 (Directory Entry).
    pub fn entry(&self, dir: u64, name: &Name) -> Option<Node>
        ensures { result ≡ entry_of self.now dir name.now }
    {
        match self.child(dir, name, self.home) {
            Some((node, _)) => Some(node),
            None => None,
        }
    }

    /// Returns the parent of a directory: the directory that has its entry. Returns nothing for the
    /// root, and for a number that is not a directory.
    ///
    /// In POSIX.1-2017, Base Definitions, 3 (Parent Directory), the root may be its own parent.
    /// Here the walk handles the step up from the root.
    pub fn parent(&self, dir: u64) -> Option<u64>
        ensures { result ≡ parent_of self.now dir }
    {
        self.parent_near(dir, self.near)
    }

    /// Returns the attributes that are stored of a directory. Returns nothing if they are the
    /// defaults of a directory, and for a number that is not a directory.
    ///
    /// See POSIX.1-2017, Base Definitions, sys/stat.h.
    pub fn dir_attributes(&self, dir: u64) -> Option<Attributes>
        ensures { result ≡ dir_attributes_of self.now dir }
    {
        self.dir_attributes_near(dir, self.near)
    }

    /// Returns what a number names. It is a directory if it is the root or has a parent, and a file
    /// if an entry or a description names it. Otherwise returns nothing.
    pub fn kind(&self, number: u64) -> Option<Kind>
        ensures { result ≡ kind_of self.now number }
    {
        if self.has_dir(number) {
            return Some(Kind::Dir);
        }
        if self.has_file(number) {
            return Some(Kind::File);
        }
        None
    }

    /// Returns how many entries name a file. Returns 0 for a number that is not a file.
    ///
    /// See POSIX.1-2017, Base Definitions, 3 (Link Count).
    pub fn links(&self, file: u64) -> u64
        ensures { result ≡ links_of self.now file }
    {
        self.links_near(file, self.near)
    }

    /// Returns the attributes that are stored of a file. Returns nothing if they are the defaults
    /// of a file, and for a number that is not a file.
    ///
    /// See POSIX.1-2017, Base Definitions, sys/stat.h.
    pub fn file_attributes(&self, file: u64) -> Option<Attributes>
        ensures { result ≡ file_attributes_of self.now file }
    {
        self.file_attributes_near(file, self.near)
    }

    /// Returns the time of the bytes of a file, if one was set since the last write.
    ///
    /// See POSIX.1-2017, Base Definitions, 4.9 (File Times Update). That no clock is read is a rule
    /// of this project.
    pub fn time(&self, file: u64) -> Option<Timestamp>
        ensures { result ≡ time_of self.now file }
    {
        self.time_near(file, self.near)
    }

    /// Returns the bytes of a file, if the file is stored.
    pub fn body(&self, file: u64) -> Option<&Body>
        ensures { option_copied result ≡ body_in self.now file }
    {
        self.body_near(file, self.near)
    }

    /// Returns the bytes of a file, if the file is stored. The file comes with a hint of where it
    /// is.
    pub fn hinted_body(&self, file: &HintedFile) -> Option<&Body>
        ensures { option_copied result ≡ body_in self.now file.now }
    {
        self.body_near(file.number, self.hint_at(file))
    }

    /// Returns the open file description of a descriptor, if it is open.
    ///
    /// See POSIX.1-2017, Base Definitions, 3 (Open File Description).
    pub fn open_file(&self, fd: u64) -> Option<OpenFile>
        ensures { result ≡ open_of self.now fd }
    {
        self.opens.get(fd)
    }

    /// Returns how many directories are stored: those that exist, and those whose place was
    /// emptied. From each existing directory, at most this many steps up lead to the root.
    pub fn directory_count(&self) -> usize
        ensures { result ≡ directory_count self.now }
    {
        self.inodes.directory_count()
    }

    /// Returns whether a directory has no entry. A number that is not a directory has none.
    ///
    /// See POSIX.1-2017, Base Definitions, 3 (Empty Directory).
    pub fn is_empty_dir(&self, dir: u64) -> bool
        ensures { IsTrue result ↔ (names_of self.now dir ≡ []) }
    {
        self.is_empty_near(dir, self.near)
    }

    /// Returns the names of a directory with the kinds of what they lead to, in the order of their
    /// bytes. `.` and `..` are not added. A number that is not a directory has no names. Out of
    /// memory is the only error.
    pub fn names(&self, dir: u64) -> Result<Vec<(Name, Kind)>, Memory>
        ensures { IfOk result (λ names. names.items ≡ with_kinds (names_of self.now dir)) }
    {
        match self.inodes.directory(dir, self.near) {
            Some(directory) => directory.names(self.alloc),
            None => Ok(Vec::new(self.alloc)),
        }
    }

    /// Sets what an entry leads to, or that it is not an entry, and changes no other cell. Returns
    /// the previous content of its place, or nothing if the place is new. The directory must be
    /// stored. That the tree stays sound is up to the caller.
    ///
    /// Out of memory can occur only if the place is new, and then nothing has changed. An entry
    /// that is emptied leaves its place, so that it can be set again without memory.
    pub fn set_entry(
        &mut self,
        entry: Entry,
        to: Option<Node>,
    ) -> Result<Option<Option<Node>>, Memory>
        requires { HasDirPlace self.old entry.dir }
        ensures was { IfOk result (λ was. was ≡ place_at self.old (EntryCell entry)) }
        ensures ok { OnOk result (self.new ≡ put_entry self.old entry.dir entry.name to) }
        ensures err { OnErr result (self.new ≡ self.old) }
        ensures place { HasEntryPlace self.old entry.dir entry.name → IsOk result }
    {
        let Entry { dir, name } = entry;
        let leads = self.hint_to(to, self.near);
        self.home = self.inodes.hint_of(Node::Dir(dir), self.home);
        match self.inodes.directory_mut(dir, self.home) {
            Some(directory) => directory.set_entry(name, to, leads, self.seed),
            None => unreachable!(),
        }
    }

    /// Sets the parent of a directory, or that it has none, and changes no other cell. Returns the
    /// previous parent, or nothing if the place of the directory is new. A directory that was not
    /// stored has no attributes or entries. That the tree stays sound is up to the caller.
    ///
    /// Out of memory can occur only if the place is new, and then nothing has changed. A directory
    /// whose parent is removed leaves its place, so that it can be set again without memory.
    pub fn set_parent(
        &mut self,
        dir: u64,
        parent: Option<u64>,
    ) -> Result<Option<Option<u64>>, Memory>
        ensures was { IfOk result (λ was. was ≡ place_at self.old (Parent dir)) }
        ensures ok { OnOk result (self.new ≡ put_parent self.old dir parent) }
        ensures err { OnErr result (self.new ≡ self.old) }
        ensures place { HasDirPlace self.old dir → IsOk result }
    {
        let Some(near) = self.inodes.find(Node::Dir(dir), self.near) else {
            self.near = self
                .inodes
                .add_directory(dir, Directory::new(self.alloc, parent))?;
            return Ok(None);
        };
        self.near = near;
        match self.inodes.directory_mut(dir, near) {
            Some(directory) => Ok(Some(directory.set_parent(parent))),
            None => unreachable!(),
        }
    }

    /// Sets or clears the attributes that are stored of a directory, and changes no other cell.
    /// Returns the previous ones. The directory must be stored. That it exists is up to the caller.
    /// Takes no memory.
    pub fn set_dir_attributes(&mut self, dir: u64, to: Rare<Attributes>) -> Rare<Attributes>
        requires { HasDirPlace self.old dir }
        ensures was { result ≡ dir_attributes_of self.old dir }
        ensures set { self.new ≡ put_dir_attributes self.old dir to }
    {
        self.near = self.inodes.hint_of(Node::Dir(dir), self.near);
        match self.inodes.directory_mut(dir, self.near) {
            Some(directory) => directory.set_attributes(to),
            None => unreachable!(),
        }
    }

    /// Sets how many entries name a file, and changes no other cell. Returns the previous count, or
    /// nothing if the place of the file is new. A file that was not stored has no attributes or
    /// bytes. That the count is right is up to the caller.
    ///
    /// Out of memory can occur only if the place is new, and then nothing has changed.
    pub fn set_links(&mut self, file: u64, links: u64) -> Result<Option<u64>, Memory>
        ensures was { IfOk result (λ was. was ≡ place_at self.old (Links file)) }
        ensures ok { OnOk result (self.new ≡ put_links self.old file links) }
        ensures err { OnErr result (self.new ≡ self.old) }
        ensures place { HasFilePlace self.old file → IsOk result }
    {
        let Some(near) = self.inodes.find(Node::File(Form::Regular, file), self.near) else {
            self.near = self.inodes.add_file(file, File::new(self.alloc, links))?;
            return Ok(None);
        };
        self.near = near;
        match self.inodes.file_mut(file, near) {
            Some(stored) => Ok(Some(stored.set_links(links))),
            None => unreachable!(),
        }
    }

    /// Sets or clears the attributes that are stored of a file, and changes no other cell. Returns
    /// the previous ones. The file must be stored. Takes no memory.
    pub fn set_file_attributes(
        &mut self,
        file: HintedFile,
        to: Rare<Attributes>,
    ) -> Rare<Attributes>
        requires { HasFilePlace self.old file }
        ensures was { result ≡ file_attributes_of self.old file }
        ensures set { self.new ≡ put_file_attributes self.old file to }
    {
        let number = file.number;
        self.near = self
            .inodes
            .hint_of(Node::File(Form::Regular, number), self.hint_at(&file));
        match self.inodes.file_mut(number, self.near) {
            Some(stored) => stored.set_attributes(to),
            None => unreachable!(),
        }
    }

    /// Sets or clears the time of the bytes of a file, and changes no other cell. Returns the
    /// previous time. The file must be stored. Takes no memory.
    pub fn set_time(&mut self, file: HintedFile, to: Rare<Timestamp>) -> Rare<Timestamp>
        requires { HasFilePlace self.old file }
        ensures was { result ≡ time_of self.old file }
        ensures set { self.new ≡ put_contents self.old file (timed (contents_of self.old file) to) }
    {
        let number = file.number;
        self.near = self
            .inodes
            .hint_of(Node::File(Form::Regular, number), self.hint_at(&file));
        match self.inodes.file_mut(number, self.near) {
            Some(stored) => stored.set_time(to),
            None => unreachable!(),
        }
    }

    /// Writes bytes to a file at an offset, as many as fit below the size limit, and fills a gap
    /// before them with zeros. If none fits, the bytes of the file stay. In either case they have
    /// no time afterwards. Returns how many bytes were written, and the undo record. The file must
    /// be stored, and no other cell changes.
    ///
    /// Out of memory is the only error, and then nothing has changed. A write of no bytes takes no
    /// memory.
    pub fn write_bytes(
        &mut self,
        file: HintedFile,
        offset: u64,
        bytes: &[u8],
    ) -> Result<(u64, FileUndo), Memory>
        requires place { HasFilePlace self.old file }
        requires limit { offset ≤ LARGEST_SIZE }
        ensures taken { IfOk result
            (λ done. done.0 ≡ length (fitting LARGEST_SIZE bytes.now offset)) }
        ensures ok { OnOk result (self.new
            ≡ put_contents self.old file
            (untimed (after_write (bytes_of self.old file) offset bytes.now))) }
        ensures undo { IfOk result
            (λ done. done.1 ≡ record {
              before = contents_of self.old file;
              after = contents_of self.new file;
            }) }
        ensures err { OnErr result (self.new ≡ self.old) }
        ensures nothing { fitting LARGEST_SIZE bytes.now offset ≡ [] → IsOk result }
    {
        let number = file.number;
        self.near = self
            .inodes
            .hint_of(Node::File(Form::Regular, number), self.hint_at(&file));
        match self.inodes.file_mut(number, self.near) {
            Some(stored) => stored.write_at(offset, bytes),
            None => unreachable!(),
        }
    }

    /// Cuts a file to a size, or adds zeros up to that size, and removes the time of its bytes.
    /// Returns the undo record. The file must be stored, and no other cell changes.
    ///
    /// Out of memory is the only error, and then nothing has changed. A file that already has this
    /// size takes no memory.
    pub fn set_size(&mut self, file: HintedFile, size: u64) -> Result<FileUndo, Memory>
        requires place { HasFilePlace self.old file }
        requires limit { size ≤ LARGEST_SIZE }
        ensures ok { OnOk result (self.new
            ≡ put_contents self.old file (untimed (resized (bytes_of self.old file) size))) }
        ensures undo { IfOk result
            (λ undo. undo ≡ record {
              before = contents_of self.old file;
              after = contents_of self.new file;
            }) }
        ensures err { OnErr result (self.new ≡ self.old) }
        ensures same { length (bytes_of self.old file) ≡ size → IsOk result }
    {
        let number = file.number;
        self.near = self
            .inodes
            .hint_of(Node::File(Form::Regular, number), self.hint_at(&file));
        match self.inodes.file_mut(number, self.near) {
            Some(stored) => stored.set_len(size),
            None => unreachable!(),
        }
    }

    /// Undoes a change of the bytes of a file. The file must hold what the change left. Takes no
    /// memory.
    pub fn undo_bytes(&mut self, file: u64, undo: FileUndo)
        requires place { HasFilePlace self.old file }
        requires left { contents_of self.old file ≡ undo.after }
        ensures { self.new ≡ put_contents self.old file undo.before }
    {
        self.near = self
            .inodes
            .hint_of(Node::File(Form::Regular, file), self.near);
        match self.inodes.file_mut(file, self.near) {
            Some(stored) => stored.undo(undo),
            None => unreachable!(),
        }
    }

    /// Sets the open file description of a descriptor, or that it is closed, and changes no other
    /// cell. Returns the previous content of its place, or nothing if the place is new. That the
    /// file exists is up to the caller.
    ///
    /// Out of memory can occur only if the place is new, and then nothing has changed. A descriptor
    /// that is closed leaves its place, so that it can be set again without memory.
    pub fn set_open_file(
        &mut self,
        fd: u64,
        to: Option<OpenFile>,
    ) -> Result<Option<Option<OpenFile>>, Memory>
        ensures was { IfOk result (λ was. was ≡ place_at self.old (Fd fd)) }
        ensures ok { OnOk result (self.new ≡ put_open self.old fd to) }
        ensures err { OnErr result (self.new ≡ self.old) }
        ensures place { HasOpenPlace self.old fd → IsOk result }
    {
        let near = match self.opens.get_hinted(fd) {
            Some((_, near)) => near,
            None => self.near,
        };
        self.near = self.hint_to(to.map(|open| Node::File(Form::Regular, open.file)), near);
        self.opens.set(fd, to, self.near)
    }

    /// Removes the place of a cell, with all its content. A directory goes with its attributes and
    /// entries, and a file with its links, attributes and bytes. The names of a directory have no
    /// place of their own. That the tree stays sound is up to the caller.
    pub fn drop_place(&mut self, cell: &Cell)
        ensures { self.new ≡ without_place self.old cell.now }
    {
        match cell {
            Cell::Entry(entry) => {
                if let Some(directory) = self.inodes.directory_mut(entry.dir, self.home) {
                    directory.drop_place(&entry.name);
                }
            }
            Cell::Names(_) => {}
            Cell::Parent(dir) | Cell::DirAttributes(dir) => {
                self.inodes.drop_directory(*dir);
            }
            Cell::Links(file) | Cell::Bytes(file) | Cell::FileAttributes(file) => {
                self.inodes.drop_file(*file);
                self.opens.forget(*file);
            }
            Cell::Fd(fd) => {
                self.opens.remove(*fd);
            }
        }
    }

    /// Removes the useless places of released cells, except those that are kept, and returns how
    /// many it removed. If there were too many to count, it returns the largest number. The plain
    /// tree does not change. Takes no memory, and time proportional to the number of released
    /// cells.
    ///
    /// An empty place of an entry or a descriptor is useless. A stored directory is useless if it
    /// does not exist and has no place of an entry. A file is useless if neither an entry nor a
    /// description names it. A directory whose last place of an entry is removed this way may be
    /// removed too.
    ///
    /// The place of a directory is kept while its names, its parent or its attributes are kept. It
    /// is also kept while it has places of entries. The place of a file is kept while its links,
    /// bytes or attributes are kept.
    ///
    /// In POSIX.1-2017, System Interfaces, unlink and close, a file to which no name and no
    /// description leads is removed.
    pub fn sweep<K: Keeps>(&mut self, keeps: &mut K) -> u64
        ensures swept { IsSwept (K.kept keeps.old) self.old self.new }
        ensures clean { IsSweptClean (K.kept keeps.old) (set.contains (K.released_cells keeps.old))
            self.old self.new }
        ensures none_left { LeavesNone (K.kept keeps.old) (K.released_cells keeps.old) self.old
            self.new }
        ensures tidy { tidy self.new ≡ tidy self.old }
        ensures sound { AreSoundCells self.old → AreSoundCells self.new }
        ensures told { keeps.new ≡ K.all_told keeps.old }
        ensures count { places_in self.old < 2 ^ 64 - 1
            → places_in self.old ≡ result + places_in self.new }
    {
        let mut dropped: u64 = 0;
        while let Some(cell) = keeps.take_released() {
            dropped = dropped.saturating_add(self.sweep_cell(keeps, &cell));
        }
        dropped
    }

    /// Removes the useless place of a released cell, and the place of a directory whose last place
    /// of an entry is removed by this. Returns how many places were removed.
    fn sweep_cell<K: Keeps>(&mut self, keeps: &K, cell: &Cell) -> u64
        ensures cells { self.new ≡ swept_at (K.kept keeps.now) self.old cell.now }
        ensures count { result ≡ dropped_at (K.kept keeps.now) self.old cell.now }
    {
        match cell {
            Cell::Entry(entry) => {
                if self.entry(entry.dir, &entry.name).is_some() {
                    // (neither its place nor that of its directory is useless)
                    return 0;
                }
                let dropped = self.drop_spare(keeps, cell);
                dropped + self.drop_spare(keeps, &Cell::Parent(entry.dir))
            }
            Cell::Names(dir) => self.drop_spare(keeps, &Cell::Parent(*dir)),
            _ => self.drop_spare(keeps, cell),
        }
    }

    /// Removes the place of a cell if it is useless and not kept. Returns how many places were
    /// removed: 0 or 1.
    fn drop_spare<K: Keeps>(&mut self, keeps: &K, cell: &Cell) -> u64
        ensures cells { self.new ≡ drop_spare (K.kept keeps.now) self.old cell.now }
        ensures count { result ≡ one_if (is_spare (K.kept keeps.now) self.old cell.now) }
        ensures one { result ≤ 1 }
    {
        if !self.is_useless(cell) || keeps_place(keeps, cell) {
            return 0;
        }
        self.drop_place(cell);
        1
    }

    /// Returns whether the place of a cell is there and is useless.
    fn is_useless(&self, cell: &Cell) -> bool
        ensures { result ≡ is_useless self.now cell.now }
    {
        match cell {
            Cell::Entry(entry) => self.is_empty_entry(entry),
            Cell::Names(dir) => self.is_bare_dir(*dir),
            Cell::Parent(dir) => self.is_bare_dir(*dir),
            Cell::Links(file) => self.is_dead_file(*file),
            Cell::Bytes(file) => self.is_dead_file(*file),
            Cell::Fd(fd) => self.is_empty_descriptor(*fd),
            Cell::DirAttributes(dir) => self.is_bare_dir(*dir),
            Cell::FileAttributes(file) => self.is_dead_file(*file),
        }
    }

    /// Returns whether an entry has a place that is empty.
    fn is_empty_entry(&self, entry: &Entry) -> bool
        ensures { result ≡ is_useless self.now (EntryCell entry.now) }
    {
        match self.inodes.directory(entry.dir, self.home) {
            Some(directory) => directory.has_empty(&entry.name),
            None => false,
        }
    }

    /// Returns whether a directory is stored, but does not exist and has no place of an entry.
    fn is_bare_dir(&self, dir: u64) -> bool
        ensures { result ≡ is_useless self.now (Parent dir) }
    {
        match self.inodes.directory(dir, self.near) {
            Some(directory) => {
                dir != ROOT && directory.parent().is_none() && directory.has_no_place()
            }
            None => false,
        }
    }

    /// Returns whether a file is stored that neither an entry nor a description names.
    fn is_dead_file(&self, file: u64) -> bool
        ensures { result ≡ is_useless self.now (Links file) }
    {
        self.inodes.file(file, self.near).is_some() && !self.has_file(file)
    }

    /// Returns whether a descriptor has a place but is not open.
    fn is_empty_descriptor(&self, fd: u64) -> bool
        ensures { result ≡ is_useless self.now (Fd fd) }
    {
        matches!(self.opens.places().get(fd), Some(None))
    }

    /// Returns what a path leads to, with the errors of `walk`. A missing last name is a place
    /// without a number. The call decides what a slash after it means. Out of memory can occur for
    /// a long last name, or for the target of a symbolic link that is followed.
    pub fn lookup(&self, follow: bool, parts: &Parts) -> Result<Result<Found, Errno>, Memory>
        ensures { IfOk result (λ end. end
            ≡ found (answer (walk follow parts.now.names parts.now.trailing) (view_of self.now))) }
    {
        let mut cursor = Cursor::new(self);
        let names = parts.names.as_slice();
        let end = walk(self.alloc, &mut cursor, follow, names, parts.trailing)?;
        Ok(found(end))
    }

    /// Returns the allocator that the tree was made with.
    pub(crate) fn allocator(&self) -> Global {
        self.alloc
    }

    /// Returns the content of the tree, without empty places and without files that nothing names.
    /// Out of memory is the only error.
    ///
    /// The order is a rule of this project. First come the directories by number, then the entries
    /// by directory and by the bytes of their names, and then the files by number. The stored
    /// attributes follow, of directories and then of files, by number. Last come the times of files
    /// by number, and the open descriptors by number.
    pub fn rows(&self) -> Result<Vec<TreeRow>, Memory>
        ensures { IfOk result (λ rows. rows.items ≡ rows_of (tidy self.now)) }
    {
        let mut rows = Vec::new(self.alloc);
        push_dirs(&mut rows, &self.inodes)?;
        push_edges(&mut rows, &self.inodes)?;
        push_files(&mut rows, &self.inodes, &self.opens)?;
        push_dir_attributes(&mut rows, &self.inodes)?;
        push_file_attributes(&mut rows, &self.inodes, &self.opens)?;
        push_times(&mut rows, &self.inodes, &self.opens)?;
        push_opens(self.alloc, &mut rows, self.opens.places())?;
        Ok(rows)
    }

    /// Returns a separate tree with equal stored cells, including the empty places. Out of memory
    /// is the only error.
    pub fn copy(&self) -> Result<Tree, Memory>
        ensures { IfOk result (λ copy. copy ≡ self.now) }
    {
        let inodes = self.inodes.clone()?;
        let opens = self.opens.clone()?;
        Ok(Tree {
            alloc: self.alloc,
            limits: self.limits,
            inodes,
            opens,
            near: self.near,
            home: self.home,
            seed: self.seed,
        })
    }

    /// Returns what `entry` returns, with a hint of where that is. The directory is sought first at
    /// `near`.
    pub(crate) fn child(&self, dir: u64, name: &Name, near: Hint) -> Option<(Node, Hint)>
        ensures { option_map (λ child. child.0) result ≡ entry_of self.now dir name.now }
    {
        self.inodes.directory(dir, near)?.child(name)
    }

    /// Returns what `open_file` returns, with a hint of where the file is.
    pub(crate) fn opened(&self, fd: u64) -> Option<(OpenFile, Hint)>
        ensures { option_map (λ opened. opened.0) result ≡ open_of self.now fd }
    {
        self.opens.get_hinted(fd)
    }

    /// Returns what `parent` returns. The directory is sought first at `near`.
    pub(crate) fn parent_near(&self, dir: u64, near: Hint) -> Option<u64>
        ensures { result ≡ parent_of self.now dir }
    {
        self.inodes.directory(dir, near)?.parent()
    }

    /// Returns what `dir_attributes` returns. The directory is sought first at `near`.
    pub(crate) fn dir_attributes_near(&self, dir: u64, near: Hint) -> Option<Attributes>
        ensures { result ≡ dir_attributes_of self.now dir }
    {
        self.inodes.directory(dir, near)?.attributes()
    }

    /// Returns what `file_attributes` returns. The file is sought first at `near`.
    pub(crate) fn file_attributes_near(&self, file: u64, near: Hint) -> Option<Attributes>
        ensures { result ≡ file_attributes_of self.now file }
    {
        self.inodes.file(file, near)?.attributes()
    }

    /// Returns what `time` returns. The file is sought first at `near`.
    pub(crate) fn time_near(&self, file: u64, near: Hint) -> Option<Timestamp>
        ensures { result ≡ time_of self.now file }
    {
        self.inodes.file(file, near)?.time()
    }

    /// Returns what `links` returns. The file is sought first at `near`.
    pub(crate) fn links_near(&self, file: u64, near: Hint) -> u64
        ensures { result ≡ links_of self.now file }
    {
        match self.inodes.file(file, near) {
            Some(stored) => stored.links(),
            None => 0,
        }
    }

    /// Returns what `body` returns. The file is sought first at `near`.
    pub(crate) fn body_near(&self, file: u64, near: Hint) -> Option<&Body>
        ensures { option_copied result ≡ body_in self.now file }
    {
        match self.inodes.file(file, near) {
            Some(stored) => Some(stored.body()),
            None => None,
        }
    }

    /// Returns what `is_empty_dir` returns. The directory is sought first at `near`.
    pub(crate) fn is_empty_near(&self, dir: u64, near: Hint) -> bool
        ensures { IsTrue result ↔ (names_of self.now dir ≡ []) }
    {
        match self.inodes.directory(dir, near) {
            Some(directory) => directory.is_empty(),
            None => true,
        }
    }

    /// Returns the hint of a file, or where the tree was last edited if the file comes without one.
    fn hint_at(&self, file: &HintedFile) -> Hint {
        file.near.unwrap_or(self.near)
    }

    /// Returns where the node is to which an entry or a description leads, or `near` if there is
    /// none or it is not stored.
    fn hint_to(&self, to: Option<Node>, near: Hint) -> Hint {
        match to {
            Some(node) => self.inodes.hint_of(node, near),
            None => near,
        }
    }

    /// Returns whether a number is a directory that exists.
    fn has_dir(&self, number: u64) -> bool
        ensures { result ≡ has_dir self.now number }
    {
        match self.inodes.directory(number, self.near) {
            Some(directory) => number == ROOT || directory.parent().is_some(),
            None => false,
        }
    }

    /// Returns whether a number is a file that an entry or a description names.
    fn has_file(&self, number: u64) -> bool
        ensures { result ≡ has_file self.now number }
    {
        self.links(number) > 0 || self.opens.is_open(number)
    }
}

/// Returns what a path leads to, from the end of its walk.
fn found(end: Result<PathEnd, Errno>) -> Result<Found, Errno>
    ensures { result ≡ found end }
{
    match end {
        Ok(PathEnd::Named { entry, node, .. }) => Ok(Found::Place {
            dir: entry.dir,
            number: node.map(Node::number),
        }),
        Ok(PathEnd::Itself(number)) => Ok(Found::Whole { number }),
        Err(errno) => Err(errno),
    }
}

/// Returns whether one of the cells that share the place of this cell is kept.
fn keeps_place<K: Keeps>(keeps: &K, cell: &Cell) -> bool
    ensures { result ≡ at_place (K.kept keeps.now) cell.now }
{
    match cell {
        Cell::Entry(_) | Cell::Fd(_) => keeps.keeps(cell),
        Cell::Names(dir) | Cell::Parent(dir) | Cell::DirAttributes(dir) => {
            keeps.keeps(&Cell::Names(*dir))
                || keeps.keeps(&Cell::Parent(*dir))
                || keeps.keeps(&Cell::DirAttributes(*dir))
        }
        Cell::Links(file) | Cell::Bytes(file) | Cell::FileAttributes(file) => {
            keeps.keeps(&Cell::Links(*file))
                || keeps.keeps(&Cell::Bytes(*file))
                || keeps.keeps(&Cell::FileAttributes(*file))
        }
    }
}
