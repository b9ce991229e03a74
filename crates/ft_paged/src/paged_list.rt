// A list of numbers that grows by pages.
ghost use Rattle.std.specs.Prelude.{◌≡◌, ◌<◌, ◌≤◌, ◌+◌, ◌-◌, ◌++◌, [], ◌∷◌, length, set, slice_index, vec_capacity, IsOk, OnOk, OnErr};
ghost use Rattle.ft_paged.specs.declared.TheConstants.{LIST_PAGE_LEN as list_page_len, MOST_LIST_PAGES as most_list_pages};
ghost use Rattle.ft_paged.specs.Roomy.{joined_items, AreFull};

use crate::{FIRST_ROOM, LIST_PAGE_LEN, MOST_LIST_PAGES};
use ft_base::Memory;
use std::alloc::Global;
use std::marker::Model;
use std::mem::replace;

/// A list of numbers that grows by pages. Clauses see it as a list with room for some more numbers.
///
/// A page is 512 numbers in 4,096 bytes. The first page grows as a `Vec` does, so a short list
/// stays short. Each other page is made whole. No page moves or is copied when another is made. A
/// long list therefore takes 8 bytes a number and the rest of one page. The list of the pages takes
/// at most 48 bytes a page. There are at most 2^54 pages before the last: one more is refused as
/// out of memory.
#[derive(Drop)]
pub struct PagedList {
    /// The pages that are full.
    full: Vec<Vec<u64>>,
    /// The page that grows.
    last: Vec<u64>,
}

impl Model for PagedList {
    ghost use Rattle.std.specs.Prelude.{◌-◌, ◌++◌, vec_len, vec_capacity};
    ghost use Rattle.ft_paged.specs.Roomy.{RoomyList, coded_roomy, joined_items, IsPagedList};

    ghost Value = { RoomyList };

    ghost coded = { coded_roomy };

    ghost view = { λ a. record {
      items = joined_items a.full.items ++ a.last.items;
      room = vec_capacity a.last - vec_len a.last;
    } };

    ghost invariant = { λ a. IsPagedList a.full.items a.last };
}

impl PagedList {
    /// Returns the empty list. Takes no memory.
    pub fn new(alloc: Global) -> PagedList
        ensures { result ≡ record { items = []; room = 0 } }
    {
        PagedList {
            full: Vec::new(alloc),
            last: Vec::new(alloc),
        }
    }

    /// Returns how many numbers there are.
    pub fn len(&self) -> usize
        ensures { result ≡ length self.now.items }
    {
        self.full.len() * LIST_PAGE_LEN + self.last.len()
    }

    /// Returns the number at a place.
    pub fn get(&self, place: usize) -> u64
        requires { place < length self.now.items }
        ensures { result ≡ slice_index self.now.items place }
    {
        let within = place % LIST_PAGE_LEN;
        match self.full.get(place / LIST_PAGE_LEN) {
            Some(page) => page[within],
            None => self.last[within],
        }
    }

    /// Sets the number at a place. Takes no memory.
    pub fn set(&mut self, place: usize, value: u64)
        requires { place < length self.old.items }
        ensures { self.new ≡ record self.old { items = set self.old.items place value } }
    {
        let page = place / LIST_PAGE_LEN;
        let within = place % LIST_PAGE_LEN;
        if page < self.full.len() {
            self.full[page][within] = value;
        } else {
            self.last[within] = value;
        }
    }

    /// Makes room for one more number, if there is none. Takes memory only in this case. If there
    /// is not enough memory, nothing has changed.
    pub fn reserve(&mut self) -> Result<(), Memory>
        ensures same { self.new.items ≡ self.old.items }
        ensures room { OnOk result (0 < self.new.room) }
        ensures err { OnErr result (self.new ≡ self.old) }
        ensures had { 0 < self.old.room → IsOk result }
    {
        if self.last.len() < self.last.capacity() {
            return Ok(());
        }
        if self.last.len() == LIST_PAGE_LEN {
            begin_page(&mut self.full, &mut self.last)
        } else {
            grow_page(&mut self.last)
        }
    }

    /// Appends a number, for which there is room. Takes no memory.
    pub fn push_reserved(&mut self, value: u64)
        requires { 0 < self.old.room }
        ensures { self.new ≡ record {
          items = self.old.items ++ value ∷ [];
          room = self.old.room - 1;
        } }
    {
        self.last.push_reserved(value);
    }

    /// Returns the allocator of the list.
    pub fn allocator(&self) -> Global {
        *self.last.allocator()
    }
}

/// Moves the last page to the full ones, and begins another with room for a whole page. On an
/// error, nothing has changed.
fn begin_page(full: &mut Vec<Vec<u64>>, last: &mut Vec<u64>) -> Result<(), Memory>
    requires full { AreFull full.old.items }
    requires last { length last.old.items ≡ list_page_len }
    requires few { length full.old.items ≤ most_list_pages }
    ensures full { AreFull full.new.items }
    ensures few { length full.new.items ≤ most_list_pages }
    ensures same { joined_items full.new.items ++ last.new.items ≡ joined_items full.old.items
        ++ last.old.items }
    ensures last { OnOk result (last.new.items ≡ []) }
    ensures room { OnOk result (vec_capacity last.new ≡ list_page_len) }
    ensures full_kept { OnErr result (full.new.items ≡ full.old.items) }
    ensures last_kept { OnErr result (last.new.items ≡ last.old.items) }
    ensures room_kept { OnErr result (vec_capacity last.new ≡ vec_capacity last.old) }
{
    if full.len() == MOST_LIST_PAGES {
        return Err(Memory);
    }
    let page = Vec::with_capacity(*last.allocator(), LIST_PAGE_LEN)?;
    full.reserve(1)?;
    full.push_reserved(replace(last, page));
    Ok(())
}

/// Doubles the room of a page that has none left, but to no more than a whole page. On an error,
/// nothing has changed.
fn grow_page(page: &mut Vec<u64>) -> Result<(), Memory>
    requires less { length page.old.items < list_page_len }
    requires within { vec_capacity page.old ≤ list_page_len }
    ensures same { page.new.items ≡ page.old.items }
    ensures within { vec_capacity page.new ≤ list_page_len }
    ensures room { OnOk result (length page.new.items < vec_capacity page.new) }
    ensures room_kept { OnErr result (vec_capacity page.new ≡ vec_capacity page.old) }
{
    let count = page.len();
    let more = count.max(FIRST_ROOM).min(LIST_PAGE_LEN - count);
    page.reserve_exact(more)?;
    Ok(())
}
