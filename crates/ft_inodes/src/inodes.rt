// The store of directories and files: each is in a slab, and an index has its key.
ghost use Rattle.std.specs.Prelude.{◌≡◌, ◌↔◌, ℕ, true, cond, is_some, option_copied, None, Some, OnOk, OnErr};
ghost use Rattle.std.specs.Option.{option_copied_mut};
ghost use Rattle.std.specs.Ordering.{nat_cmp};
ghost use Rattle.std.specs.Borrow.{sem};
ghost use Rattle.std.specs.BTreeMap.{is_at};
ghost use Rattle.std.specs.FinMap as finite;
ghost use Rattle.slab.specs.Slab.{get, SameValues};
ghost use Rattle.ft_inodes.specs.Stored.{no_inode, is_stored, with_directory, with_file, without_directory, without_file};
ghost use Rattle.ft_cells.specs.Nodes.{number_of};
ghost use Rattle.ft_inodes.specs.Keyed.{key_in, is_node, IsAdded};

use crate::directory::Directory;
use crate::file::File;
use crate::inode::Inode;
use crate::listed::{Directories, Files};
use ft_base::Memory;
use ft_cells::{Form, Hint, Node};
use ft_paged::PagedMap;
use slab::Slab;
use std::alloc::{AllocError, Global};
use std::marker::Model;

/// The directories and files of a tree, each under its number.
///
/// All of them are in one slab, whose keys are reused. An index by number has the key of each.
/// Finding, adding or removing one takes constant time, and a correct hint saves the lookup in the
/// index. A number or a key of more than 32 bits is refused as out of memory.
#[derive(Drop)]
pub struct Inodes {
    slab: Slab<Inode>,
    directories: PagedMap<u32>,
    files: PagedMap<u32>,
}

impl Model for Inodes {
    ghost use Rattle.ft_inodes.specs.Stored.{InodeCells, coded_inode_cells};
    ghost use Rattle.ft_inodes.specs.Keyed.{shown_by, dir_in, file_in, is_dir, is_file, Leads};

    ghost Value = { InodeCells };

    ghost coded = { coded_inode_cells };

    ghost view = { λ a. record {
      directories = shown_by dir_in a.slab a.directories;
      files = shown_by file_in a.slab a.files;
    } };

    ghost invariant = { λ a. Leads is_dir a.slab a.directories × Leads is_file a.slab a.files };
}

impl Inodes {
    ghost use Rattle.ft_inodes.specs.Lending.{LendsDirectory, LendsFile};

    /// Returns a store with no directory and no file. Takes no memory.
    pub fn new(alloc: Global) -> Inodes
        ensures { result ≡ no_inode }
    {
        Inodes {
            slab: Slab::new(alloc),
            directories: PagedMap::new(alloc),
            files: PagedMap::new(alloc),
        }
    }

    /// Returns a hint of where a directory or a file is, or `None` if it is not stored.
    pub fn find(&self, node: Node, near: Hint) -> Option<Hint>
        ensures { is_some result ≡ is_stored self.now node }
    {
        match node {
            Node::Dir(number) => key_of(&self.slab, &self.directories, Node::Dir(number), near),
            Node::File(form, number) => {
                key_of(&self.slab, &self.files, Node::File(form, number), near)
            }
        }
        .map(|key| Hint { key })
    }

    /// Returns a hint of where a directory or a file is, or `near` if it is not stored.
    pub fn hint_of(&self, node: Node, near: Hint) -> Hint {
        self.find(node, near).unwrap_or(near)
    }

    /// Returns the directory with a number, if there is one.
    pub fn directory(&self, number: u64, near: Hint) -> Option<&Directory>
        ensures { option_copied result ≡ finite.get self.now.directories number }
    {
        let key = key_of(&self.slab, &self.directories, Node::Dir(number), near)?;
        self.slab.get(key)?.directory()
    }

    /// Returns the file with a number, if there is one.
    pub fn file(&self, number: u64, near: Hint) -> Option<&File>
        ensures { option_copied result ≡ finite.get self.now.files number }
    {
        let key = key_of(
            &self.slab,
            &self.files,
            Node::File(Form::Regular, number),
            near,
        )?;
        self.slab.get(key)?.file()
    }

    /// Returns the directory with a number, if there is one, to be written. The value that the
    /// reference has at its end is then stored under the number. Takes no memory.
    pub fn directory_mut(&mut self, number: u64, near: Hint) -> Option<&mut Directory>
        ensures* writes_back { sem 𝓛 (LendsDirectory self.entry number result) }
        ensures value { option_copied_mut result ≡ finite.get self.old.directories number }
    {
        let key = key_of(&self.slab, &self.directories, Node::Dir(number), near)?;
        let inode = self.slab.get_mut(key).unwrap();
        Some(inode.directory_mut())
    }

    /// Returns the file with a number, if there is one, to be written. The value that the reference
    /// has at its end is then stored under the number. Takes no memory.
    pub fn file_mut(&mut self, number: u64, near: Hint) -> Option<&mut File>
        ensures* writes_back { sem 𝓛 (LendsFile self.entry number result) }
        ensures value { option_copied_mut result ≡ finite.get self.old.files number }
    {
        let key = key_of(
            &self.slab,
            &self.files,
            Node::File(Form::Regular, number),
            near,
        )?;
        let inode = self.slab.get_mut(key).unwrap();
        Some(inode.file_mut())
    }

    /// Adds a directory under a number that no directory has, and returns a hint of where it is.
    /// Out of memory is the only error, and it changes nothing.
    pub fn add_directory(&mut self, number: u64, directory: Directory) -> Result<Hint, Memory>
        requires { finite.get self.old.directories number ≡ None }
        ensures ok { OnOk result (self.new ≡ with_directory self.old number directory) }
        ensures err { OnErr result (self.new ≡ self.old) }
    {
        let inode = Inode::Directory(number, directory);
        add(&mut self.slab, &mut self.directories, number, inode)
    }

    /// Adds a file under a number that no file has, and returns a hint of where it is. Out of
    /// memory is the only error, and it changes nothing.
    pub fn add_file(&mut self, number: u64, file: File) -> Result<Hint, Memory>
        requires { finite.get self.old.files number ≡ None }
        ensures ok { OnOk result (self.new ≡ with_file self.old number file) }
        ensures err { OnErr result (self.new ≡ self.old) }
    {
        let inode = Inode::File(number, file);
        add(&mut self.slab, &mut self.files, number, inode)
    }

    /// Removes the directory with a number, if there is one. Takes no memory.
    pub fn drop_directory(&mut self, number: u64)
        ensures { self.new ≡ without_directory self.old number }
    {
        take_out(&mut self.slab, &mut self.directories, number);
    }

    /// Removes the file with a number, if there is one. Takes no memory.
    pub fn drop_file(&mut self, number: u64)
        ensures { self.new ≡ without_file self.old number }
    {
        take_out(&mut self.slab, &mut self.files, number);
    }

    /// Returns how many directories are stored.
    pub fn directory_count(&self) -> usize
        ensures { result ≡ finite.len self.now.directories }
    {
        self.directories.len()
    }

    /// Returns an iterator over the directories with their numbers, in rising order of the numbers.
    /// Takes no memory.
    pub fn directories(&self) -> Directories<'_>
        ensures { result ≡ finite.entries self.now.directories }
    {
        Directories {
            slab: &self.slab,
            keys: self.directories.entries(),
        }
    }

    /// Returns an iterator over the files with their numbers, in rising order of the numbers. Takes
    /// no memory.
    pub fn files(&self) -> Files<'_>
        ensures { result ≡ finite.entries self.now.files }
    {
        Files {
            slab: &self.slab,
            keys: self.files.entries(),
        }
    }
}

impl Clone for Inodes {
    ghost is_clone = { λ inodes copy. copy ≡ inodes };

    fn clone(&self) -> Result<Inodes, AllocError> {
        let slab = self.slab.clone()?;
        let directories = self.directories.clone()?;
        let files = self.files.clone()?;
        Ok(Inodes {
            slab,
            directories,
            files,
        })
    }
}

/// Returns the key of a directory or file, if it is stored. This is the hinted key if the node is
/// there, and otherwise the key in the index.
fn key_of(slab: &Slab<Inode>, index: &PagedMap<u32>, node: Node, near: Hint) -> Option<usize>
    requires { (key : ℕ) → (key_in index.now (number_of node) ≡ Some key)
        ↔ (is_node node (get slab.now key) ≡ true) }
    ensures { result ≡ key_in index.now (number_of node) }
{
    match slab.get(near.key) {
        Some(inode) if inode.is(node) => Some(near.key),
        _ => Some(index.get(node.number())? as usize),
    }
}

/// Adds an inode under a free key, to which its number then leads, and returns a hint with this
/// key. Out of memory is the only error, and it changes no inode and no number.
fn add(
    slab: &mut Slab<Inode>,
    index: &mut PagedMap<u32>,
    number: u64,
    inode: Inode,
) -> Result<Hint, Memory>
    requires { key_in index.old number ≡ None }
    ensures ok { OnOk result (IsAdded slab.old slab.new index.old index.new number inode) }
    ensures err { OnErr result (SameValues slab.old slab.new) }
    ensures err_index { OnErr result (index.new ≡ index.old) }
{
    slab.reserve(1)?;
    let Ok(key) = u32::try_from(slab.vacant_key()) else {
        return Err(Memory);
    };
    index.insert(number, key)?;
    let key = slab.insert_reserved(inode);
    Ok(Hint { key })
}

/// Removes a number from the index and its inode from the slab, if the number leads to one.
fn take_out(slab: &mut Slab<Inode>, index: &mut PagedMap<u32>, number: u64)
    ensures slots { (key : ℕ) → (key_in index.old number ≡ Some key → ⊥)
        → get slab.new key ≡ get slab.old key }
    ensures emptied { (key : ℕ) → key_in index.old number ≡ Some key → get slab.new key ≡ None }
    ensures index { (q : ℕ) → key_in index.new q
        ≡ cond (is_at (nat_cmp number) q) None (key_in index.old q) }
{
    if let Some(key) = index.remove(number) {
        slab.try_remove(key as usize);
    }
}
