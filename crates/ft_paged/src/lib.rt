//! Maps and lists in pages. Clauses see the maps, from consecutive numbers or from numbers of 32
//! bits, as finite maps. The list of numbers grows by pages.
#![tactic(auto)]

mod group;
mod page;
mod paged_list;
mod paged_map;
mod paged_table;

pub use paged_list::PagedList;
pub use paged_map::{PagedEntries, PagedMap};
pub use paged_table::PagedTable;

/// How many numbers share a page of a `PagedTable` or a `PagedMap`.
const PAGE_LEN: usize = 64;

/// How many pages share a group of a `PagedTable` or a `PagedMap`.
const GROUP_PAGES: usize = 64;

/// How many numbers share a group of a `PagedTable` or a `PagedMap`.
const GROUP_LEN: usize = 4_096;

/// How many groups a `PagedMap` has at most. Its numbers therefore have at most 32 bits.
const MOST_GROUPS: usize = 1_048_576;

/// How many numbers share a page of a `PagedList`.
const LIST_PAGE_LEN: usize = 512;

/// How many pages a `PagedList` has at most before its last. Its length therefore fits in 64 bits.
const MOST_LIST_PAGES: usize = 1 << 54;

/// For how many numbers the first page of a `PagedList` has room when it is made.
const FIRST_ROOM: usize = 4;
