// Iterators over the store, in the order of the numbers.
ghost use Rattle.std.specs.Iterator.{YieldsFirstBy, item_count};

use crate::directory::Directory;
use crate::file::File;
use crate::inode::Inode;
use ft_paged::PagedEntries;
use slab::Slab;
use std::marker::Model;

/// An iterator over the directories of a store with their numbers. Clauses see it as the list of
/// the items that are left.
#[derive(Drop)]
pub struct Directories<'a> {
    pub(crate) slab: &'a Slab<Inode>,
    pub(crate) keys: PagedEntries<'a, u32>,
}

impl<'a> Model for Directories<'a> {
    ghost use Rattle.std.specs.Prelude.{ℕ, List};
    ghost use Rattle.std.specs.Coded.{coded×, coded_ℕ, coded_list};
    ghost use Rattle.ft_cells.specs.Cells.{DirCells, coded_dir_cells};
    ghost use Rattle.ft_inodes.specs.Keyed.{listed_by, dir_in, is_dir, AllLead};

    ghost Value = { List (ℕ × DirCells) };

    ghost coded = { coded_list (coded× coded_ℕ coded_dir_cells) };

    ghost view = { λ a. listed_by dir_in a.slab.now a.keys };

    ghost invariant = { λ a. AllLead is_dir a.slab.now a.keys };
}

impl<'a> Iterator for Directories<'a> {
    type Item = (u64, &'a Directory);

    ghost next_gives = { YieldsFirstBy (λ item. (item.0, item.1.now)) (λ rest. rest) };

    ghost remaining = { item_count (λ rest. rest) };

    fn next(&mut self) -> Option<(u64, &'a Directory)> {
        let (number, key) = self.keys.next()?;
        let directory = self.slab.get(key as usize)?.directory()?;
        Some((number, directory))
    }
}

/// An iterator over the files of a store with their numbers. Clauses see it as the list of the
/// items that are left.
#[derive(Drop)]
pub struct Files<'a> {
    pub(crate) slab: &'a Slab<Inode>,
    pub(crate) keys: PagedEntries<'a, u32>,
}

impl<'a> Model for Files<'a> {
    ghost use Rattle.std.specs.Prelude.{ℕ, List};
    ghost use Rattle.std.specs.Coded.{coded×, coded_ℕ, coded_list};
    ghost use Rattle.ft_cells.specs.Cells.{FileCells, coded_file_cells};
    ghost use Rattle.ft_inodes.specs.Keyed.{listed_by, file_in, is_file, AllLead};

    ghost Value = { List (ℕ × FileCells) };

    ghost coded = { coded_list (coded× coded_ℕ coded_file_cells) };

    ghost view = { λ a. listed_by file_in a.slab.now a.keys };

    ghost invariant = { λ a. AllLead is_file a.slab.now a.keys };
}

impl<'a> Iterator for Files<'a> {
    type Item = (u64, &'a File);

    ghost next_gives = { YieldsFirstBy (λ item. (item.0, item.1.now)) (λ rest. rest) };

    ghost remaining = { item_count (λ rest. rest) };

    fn next(&mut self) -> Option<(u64, &'a File)> {
        let (number, key) = self.keys.next()?;
        let file = self.slab.get(key as usize)?.file()?;
        Some((number, file))
    }
}
