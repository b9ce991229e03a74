// The entries of names in directories.
ghost use Rattle.std.specs.Prelude.{◌≡◌, IfOk};
ghost use Rattle.ft_cells.specs.Entries.{entry_in};

use ft_base::Memory;
use ft_path::Name;
use std::alloc::AllocError;

/// A name in a directory. It is the place of one entry, whether or not the name is an entry now.
///
/// See POSIX.1-2017, Base Definitions, 3 (Directory Entry). That directories have numbers is a rule
/// of this project.
#[derive(Debug, PartialEq, Eq, Drop)]
pub struct Entry {
    /// The number of the directory.
    pub dir: u64,
    /// The name in that directory.
    pub name: Name,
}

impl Entry {
    /// Returns this entry with its name borrowed.
    pub fn as_ref(&self) -> EntryRef<'_>
        ensures { entry_in result ≡ self.now }
    {
        let Entry { dir, name } = self;
        EntryRef { dir: *dir, name }
    }
}

impl Clone for Entry {
    ghost is_clone = { λ entry copy. copy ≡ entry };

    fn clone(&self) -> Result<Entry, AllocError> {
        let dir = self.dir;
        let name = self.name.clone()?;
        Ok(Entry { dir, name })
    }
}

/// An entry whose name is borrowed.
#[derive(Clone, Copy, Debug)]
pub struct EntryRef<'a> {
    /// The number of the directory.
    pub dir: u64,
    /// The name in that directory.
    pub name: &'a Name,
}

impl EntryRef<'_> {
    /// Returns this entry with a name of its own. Out of memory is the only error.
    pub fn to_entry(self) -> Result<Entry, Memory>
        ensures { IfOk result (λ entry. entry ≡ entry_in self.entry) }
    {
        let dir = self.dir;
        let name = self.name.try_clone()?;
        Ok(Entry { dir, name })
    }
}
