// A group of pages of a `PagedTable` or a `PagedMap`.
ghost use Rattle.std.specs.Prelude.{◌≡◌, ◌<◌, ◌≤◌, ◌+◌, ◌*◌, ◌++◌, None, Some, length, set, get_or, replicate, IsSome, IsOk, IfSome, IfOk, OnOk, OnErr};
ghost use Rattle.ft_paged.specs.declared.TheConstants.{PAGE_LEN as page_len, GROUP_LEN as group_len, GROUP_PAGES as group_pages};
ghost use Rattle.ft_paged.specs.Paged.{blank, blank_group, valued, joined_places, group_places, HaveLen, IsFirstFrom, IsSpare};

use crate::PAGE_LEN;
use crate::page::Page;
use ft_base::Memory;
use std::alloc::{AllocError, Global};
use std::marker::Model;
use std::mem::{replace, swap};

/// A place for each of `GROUP_LEN` numbers, in pages. While no place has a value, it takes no
/// memory. The exceptions are what a spare page and a spare group keep, and a list of pages that a
/// failed insert left.
#[derive(Drop)]
pub(crate) struct Group<V> {
    /// How many places have a value.
    used: usize,
    /// All pages up to the last one with a value, and perhaps more. If no place has a value, there
    /// may be none.
    pages: Vec<Page<V>>,
}

impl<V> Model for Group<V> {
    ghost use Rattle.std.specs.Prelude.{List, Option};
    ghost use Rattle.std.specs.Coded.{coded_list, coded_option};
    ghost use Rattle.ft_paged.specs.Paged.{group_places, IsGroup};

    ghost Value = { List (Option V) };

    ghost coded = { coded_list (coded_option V.code) };

    ghost view = { λ a. group_places a.pages.items };

    ghost invariant = { λ a. IsGroup a.used a.pages.items };
}

/// The memory that the next page and the next group with a value take.
#[derive(Drop)]
pub(crate) struct Spare<V> {
    pub(crate) page: Page<V>,
    pub(crate) group: Group<V>,
}

impl<V: Copy> Group<V> {
    /// Returns a group in which no place has a value. Takes no memory.
    pub(crate) fn new(alloc: Global) -> Group<V>
        ensures { result ≡ blank_group }
    {
        Group {
            used: 0,
            pages: Vec::new(alloc),
        }
    }

    /// Returns the value of a place, if it has one.
    pub(crate) fn get(&self, place: usize) -> Option<V>
        requires { place < group_len }
        ensures { result ≡ get_or self.now place None }
    {
        self.pages.get(place / PAGE_LEN)?.get(place % PAGE_LEN)
    }

    /// Sets the value of a place. Takes memory only if the place had no value. If there is not
    /// enough memory, nothing has changed.
    pub(crate) fn insert(
        &mut self,
        spare: &mut Spare<V>,
        place: usize,
        value: V,
    ) -> Result<(), Memory>
        requires place { place < group_len }
        requires spare { IsSpare spare.old.page spare.old.group }
        ensures ok { OnOk result (self.new ≡ set self.old place (Some value)) }
        ensures err { OnErr result (self.new ≡ self.old) }
        ensures had { IsSome (get_or self.old place None) → IsOk result }
        ensures spare { IsSpare spare.new.page spare.new.group }
    {
        let page = place / PAGE_LEN;
        let within = place % PAGE_LEN;
        have_page(&mut self.pages, &mut spare.group, page)?;
        let had = self.pages[page].get(within).is_some();
        self.pages[page].insert(&mut spare.page, within, value)?;
        if !had {
            self.used += 1;
        }
        Ok(())
    }

    /// Sets the value of a place that has one. Takes no memory.
    pub(crate) fn set(&mut self, place: usize, value: V)
        requires { IsSome (get_or self.old place None) }
        ensures { self.new ≡ set self.old place (Some value) }
    {
        self.pages[place / PAGE_LEN].set(place % PAGE_LEN, value);
    }

    /// Removes the value of a place, if it has one. If this leaves a page or the group without a
    /// value, its memory goes to the spare one or is freed. Takes no memory.
    pub(crate) fn remove(&mut self, spare: &mut Spare<V>, place: usize)
        requires place { place < group_len }
        requires spare { IsSpare spare.old.page spare.old.group }
        ensures after { self.new ≡ set self.old place None }
        ensures spare { IsSpare spare.new.page spare.new.group }
    {
        if self.get(place).is_none() {
            return;
        }
        self.pages[place / PAGE_LEN].remove(&mut spare.page, place % PAGE_LEN);
        self.used -= 1;
        if self.used == 0 {
            self.free(&mut spare.group);
        }
    }

    /// Returns the first place with a value, from this one on, and its value.
    pub(crate) fn first_from(&self, from: usize) -> Option<(usize, V)>
        ensures first { IsFirstFrom self.now from result }
        ensures place { IfSome result (λ found. found.0 < group_len) }
    {
        for place in from..self.pages.len() * PAGE_LEN {
            if let Some(value) = self.get(place) {
                return Some((place, value));
            }
        }
        None
    }

    /// Returns another group with the same values. Out of memory is the only error.
    pub(crate) fn copied(&self) -> Result<Group<V>, AllocError>
        ensures { IfOk result (λ copy. copy ≡ self.now) }
    {
        let mut pages = Vec::with_capacity(*self.pages.allocator(), self.pages.len())?;
        for page in &self.pages {
            pages.push_reserved(page.copied()?);
        }
        Ok(Group {
            used: self.used,
            pages,
        })
    }

    /// Gives the list of pages to the spare group, or frees it if the spare group has one. No page
    /// has a value. Takes no memory.
    fn free(&mut self, spare: &mut Group<V>)
        requires places { self.old ≡ blank_group }
        requires spare { spare.old ≡ blank_group }
        ensures same { self.new ≡ blank_group }
        ensures spare { spare.new ≡ blank_group }
    {
        let alloc = *self.pages.allocator();
        let group = replace(self, Group::new(alloc));
        if spare.pages.is_empty() {
            *spare = group;
        }
    }
}

/// Makes the list of pages reach this page. If the list is empty, it first takes that of the spare
/// group. No value changes, even on an error.
fn have_page<V: Copy>(
    pages: &mut Vec<Page<V>>,
    spare: &mut Group<V>,
    page: usize,
) -> Result<(), Memory>
    requires page { page < group_pages }
    requires pages { HaveLen page_len pages.old.items }
    requires few { length pages.old.items ≤ group_pages }
    requires spare { spare.old ≡ blank_group }
    ensures pages { HaveLen page_len pages.new.items }
    ensures few { length pages.new.items ≤ group_pages }
    ensures same { group_places pages.new.items ≡ group_places pages.old.items }
    ensures valued { valued (joined_places pages.new.items)
        ≡ valued (joined_places pages.old.items) }
    ensures there { OnOk result (page < length pages.new.items) }
    ensures had { page < length pages.old.items → IsOk result }
    ensures spare { spare.new ≡ blank_group }
{
    take_spare(pages, spare);
    make_page(pages, page)
}

/// Takes the pages of the spare group if there is no page. No value changes.
fn take_spare<V: Copy>(pages: &mut Vec<Page<V>>, spare: &mut Group<V>)
    requires pages { HaveLen page_len pages.old.items }
    requires few { length pages.old.items ≤ group_pages }
    requires spare { spare.old ≡ blank_group }
    ensures pages { HaveLen page_len pages.new.items }
    ensures few { length pages.new.items ≤ group_pages }
    ensures same { group_places pages.new.items ≡ group_places pages.old.items }
    ensures valued { valued (joined_places pages.new.items)
        ≡ valued (joined_places pages.old.items) }
    ensures there { length pages.old.items ≤ length pages.new.items }
    ensures spare { spare.new ≡ blank_group }
{
    if pages.is_empty() {
        swap(pages, &mut spare.pages);
    }
}

/// Makes this page and those before it, without values, if they do not exist. No value changes,
/// even on an error.
fn make_page<V: Copy>(pages: &mut Vec<Page<V>>, page: usize) -> Result<(), Memory>
    requires page { page < group_pages }
    requires pages { HaveLen page_len pages.old.items }
    requires few { length pages.old.items ≤ group_pages }
    ensures pages { HaveLen page_len pages.new.items }
    ensures few { length pages.new.items ≤ group_pages }
    ensures same { group_places pages.new.items ≡ group_places pages.old.items }
    ensures valued { valued (joined_places pages.new.items)
        ≡ valued (joined_places pages.old.items) }
    ensures there { OnOk result (page < length pages.new.items) }
    ensures had { page < length pages.old.items → IsOk result }
{
    if page < pages.len() {
        return Ok(());
    }
    let more = page + 1 - pages.len();
    add_pages(pages, more)?;
    Ok(())
}

/// Appends pages without values. If there is not enough memory, nothing has changed.
fn add_pages<V: Copy>(pages: &mut Vec<Page<V>>, count: usize) -> Result<(), Memory>
    ensures ok { OnOk result (pages.new.items ≡ pages.old.items ++ replicate count blank) }
    ensures err { OnErr result (pages.new.items ≡ pages.old.items) }
{
    let alloc = *pages.allocator();
    pages.reserve(count)?;
    for _ in 0..count {
        pages.push_reserved(Page::new(alloc));
    }
    Ok(())
}

/// Appends groups without values. If there is not enough memory, nothing has changed.
pub(crate) fn add_groups<V: Copy>(groups: &mut Vec<Group<V>>, count: usize) -> Result<(), Memory>
    ensures ok { OnOk result (groups.new.items ≡ groups.old.items ++ replicate count blank_group) }
    ensures err { OnErr result (groups.new.items ≡ groups.old.items) }
{
    let alloc = *groups.allocator();
    groups.reserve(count)?;
    for _ in 0..count {
        groups.push_reserved(Group::new(alloc));
    }
    Ok(())
}
