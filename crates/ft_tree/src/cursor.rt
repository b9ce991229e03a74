// A reader of a tree that remembers where something was last found.
ghost use Rattle.std.specs.Prelude.{◌≡◌, ◌↔◌, [], IsTrue, IfOk, refl};
ghost use Rattle.std.specs.Option.{option_copied};
ghost use Rattle.ft_cells.specs.Cells.{entry_of, parent_of, dir_attributes_of, links_of, file_attributes_of, names_of, bytes_of, time_of, body_in, open_of};

use crate::reader::Reader;
use crate::tree::Tree;
use ft_base::Memory;
use ft_body::Body;
use ft_cells::{Attributes, Hint, Node, OpenFile, Timestamp};
use ft_path::Name;
use std::marker::Model;

/// A tree that is read, with a hint of where something was last found in it.
///
/// If reading goes on from there, as in a walk, no number is looked up.
#[derive(Drop)]
pub struct Cursor<'t> {
    tree: &'t Tree,
    near: Hint,
}

impl<'t> Model for Cursor<'t> {
    ghost use Rattle.ft_cells.specs.Cells.{Cells, coded_cells};

    ghost Value = { Cells };

    ghost coded = { coded_cells };

    ghost view = { λ a. a.tree.now };
}

impl<'t> Cursor<'t> {
    /// Returns a cursor on a tree of which nothing was read yet.
    pub fn new(tree: &'t Tree) -> Cursor<'t>
        ensures { result ≡ tree.entry.now }
    {
        Cursor {
            tree,
            near: Hint::first(),
        }
    }

    /// Returns the tree.
    pub fn tree(&self) -> &'t Tree
        ensures { result.now ≡ self.now }
    {
        self.tree
    }

    /// Returns what a name leads to in a directory, as `Tree::entry` does.
    pub fn entry(&mut self, dir: u64, name: &Name) -> Option<Node>
        ensures node { result ≡ entry_of self.old dir name.now }
        ensures same { self.new ≡ self.old }
    {
        match self.tree.child(dir, name, self.near) {
            Some((node, near)) => {
                self.near = near;
                Some(node)
            }
            None => None,
        }
    }

    /// Returns the open file description of a descriptor, as `Tree::open_file` does.
    pub fn open_file(&mut self, fd: u64) -> Option<OpenFile>
        ensures open { result ≡ open_of self.old fd }
        ensures same { self.new ≡ self.old }
    {
        let (open, near) = self.tree.opened(fd)?;
        self.near = near;
        Some(open)
    }

    /// Returns the parent of a directory, as `Tree::parent` does.
    pub fn parent(&self, dir: u64) -> Option<u64>
        ensures { result ≡ parent_of self.now dir }
    {
        self.tree.parent_near(dir, self.near)
    }

    /// Returns the attributes that are stored of a directory, as `Tree::dir_attributes` does.
    pub fn dir_attributes(&self, dir: u64) -> Option<Attributes>
        ensures { result ≡ dir_attributes_of self.now dir }
    {
        self.tree.dir_attributes_near(dir, self.near)
    }

    /// Returns how many entries name a file, as `Tree::links` does.
    pub fn links(&self, file: u64) -> u64
        ensures { result ≡ links_of self.now file }
    {
        self.tree.links_near(file, self.near)
    }

    /// Returns the attributes that are stored of a file, as `Tree::file_attributes` does.
    pub fn file_attributes(&self, file: u64) -> Option<Attributes>
        ensures { result ≡ file_attributes_of self.now file }
    {
        self.tree.file_attributes_near(file, self.near)
    }

    /// Returns the time of the bytes of a file, as `Tree::time` does.
    pub fn time(&self, file: u64) -> Option<Timestamp>
        ensures { result ≡ time_of self.now file }
    {
        self.tree.time_near(file, self.near)
    }

    /// Returns the bytes of a file, if it is stored, as `Tree::body` does.
    pub fn body(&self, file: u64) -> Option<&'t Body>
        ensures { option_copied result ≡ body_in self.now file }
    {
        self.tree.body_near(file, self.near)
    }

    /// Returns the target of a symbolic link: all its bytes, or none if it is not stored. Out of
    /// memory is the only error.
    pub fn target(&self, link: u64) -> Result<Vec<u8>, Memory>
        ensures { IfOk result (λ target. target.items ≡ bytes_of self.now link) }
    {
        match self.body(link) {
            Some(body) => body.read_at(0, body.len()),
            None => Ok(Vec::new(self.tree.allocator())),
        }
    }

    /// Returns the number of a file with a hint of where something was last found. The file can
    /// later be read or written from there.
    pub fn hinted(&self, file: u64) -> HintedFile
        ensures { result ≡ file }
    {
        HintedFile {
            number: file,
            near: Some(self.near),
        }
    }

    /// Returns whether a directory has no entry, as `Tree::is_empty_dir` does.
    pub fn is_empty_dir(&self, dir: u64) -> bool
        ensures { IsTrue result ↔ (names_of self.now dir ≡ []) }
    {
        self.tree.is_empty_near(dir, self.near)
    }
}

/// The number of a file, with a hint of where the file is. Clauses see only the number.
///
/// If the hint is right, no number is looked up to read or write the file.
#[derive(Debug, Drop)]
pub struct HintedFile {
    pub(crate) number: u64,
    pub(crate) near: Option<Hint>,
}

impl Model for HintedFile {
    ghost use Rattle.std.specs.Prelude.{ℕ};

    ghost Value = { ℕ };

    ghost view = { λ a. a.number };
}

impl HintedFile {
    /// Returns a file number without a hint. The file is then sought where the tree was last
    /// edited.
    pub fn new(number: u64) -> HintedFile
        ensures { result ≡ number }
    {
        HintedFile { number, near: None }
    }

    /// Returns a copy, with the same number and the same hint.
    pub fn again(&self) -> HintedFile
        ensures { result ≡ self.now }
    {
        HintedFile {
            number: self.number,
            near: self.near,
        }
    }

    /// Returns the number of the file.
    pub fn number(&self) -> u64
        ensures { result ≡ self.now }
    {
        self.number
    }
}

/// Reads a tree, and keeps no record of what is read.
impl<'t> Reader for Cursor<'t> {
    ghost cells = { λ cursor. cursor };

    ghost noted = { λ cursor _. cursor };

    ghost stays = { λ _ _. refl };

    fn entry(&mut self, dir: u64, name: &Name) -> Result<Option<Node>, Memory> {
        Ok(Cursor::entry(self, dir, name))
    }

    fn parent(&mut self, dir: u64) -> Result<Option<u64>, Memory> {
        Ok(Cursor::parent(self, dir))
    }

    fn target(&mut self, link: u64) -> Result<Vec<u8>, Memory> {
        Cursor::target(self, link)
    }
}
