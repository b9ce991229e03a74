// The content of one key of the store.
ghost use Rattle.std.specs.Prelude.{◌≡◌, option_copied, IsSome, Some};
ghost use Rattle.std.specs.Borrow.{sem};
ghost use Rattle.ft_inodes.specs.Keyed.{dir_of, file_of, is_node};
ghost use Rattle.ft_inodes.specs.Lending.{LendsDirOf, LendsFileOf};

use crate::directory::Directory;
use crate::file::File;
use ft_cells::Node;
use std::alloc::AllocError;

/// A directory or a file, with its number.
#[derive(Drop)]
pub(crate) enum Inode {
    Directory(u64, Directory),
    File(u64, File),
}

impl Inode {
    /// Returns whether the inode is this directory or file.
    pub(crate) fn is(&self, node: Node) -> bool
        ensures { result ≡ is_node node (Some self.now) }
    {
        match (self, node) {
            (Inode::Directory(own, _), Node::Dir(number)) => *own == number,
            (Inode::File(own, _), Node::File(_, number)) => *own == number,
            _ => false,
        }
    }

    /// Returns the directory, if the inode is one.
    pub(crate) fn directory(&self) -> Option<&Directory>
        ensures { option_copied result ≡ dir_of self.now }
    {
        match self {
            Inode::Directory(_, directory) => Some(directory),
            Inode::File(..) => None,
        }
    }

    /// Returns the file, if the inode is one.
    pub(crate) fn file(&self) -> Option<&File>
        ensures { option_copied result ≡ file_of self.now }
    {
        match self {
            Inode::File(_, file) => Some(file),
            Inode::Directory(..) => None,
        }
    }

    /// Returns the directory, to be written. The inode must be a directory.
    pub(crate) fn directory_mut(&mut self) -> &mut Directory
        requires { IsSome (dir_of self.old) }
        ensures* writes_back { sem 𝓛 (LendsDirOf self.entry result) }
        ensures value { dir_of self.old ≡ Some result.now }
    {
        match self {
            Inode::Directory(_, directory) => directory,
            Inode::File(..) => unreachable!(),
        }
    }

    /// Returns the file, to be written. The inode must be a file.
    pub(crate) fn file_mut(&mut self) -> &mut File
        requires { IsSome (file_of self.old) }
        ensures* writes_back { sem 𝓛 (LendsFileOf self.entry result) }
        ensures value { file_of self.old ≡ Some result.now }
    {
        match self {
            Inode::File(_, file) => file,
            Inode::Directory(..) => unreachable!(),
        }
    }
}

impl Clone for Inode {
    ghost is_clone = { λ inode copy. copy ≡ inode };

    fn clone(&self) -> Result<Inode, AllocError> {
        Ok(match self {
            Inode::Directory(number, directory) => Inode::Directory(*number, directory.clone()?),
            Inode::File(number, file) => Inode::File(*number, file.clone()?),
        })
    }
}
