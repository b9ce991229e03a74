// A map from numbers of 32 bits, seen as a finite map, with a walk in the order of the numbers.
ghost use Rattle.std.specs.Prelude.{◌≡◌, ◌<◌, ◌+◌, ◌*◌, ◌^◌, None, length, IfSome, OnOk, OnErr};
ghost use Rattle.std.specs.FinMap as finite;
ghost use Rattle.std.specs.Iterator.{YieldsFirst, item_count};
ghost use Rattle.ft_paged.specs.declared.TheConstants.{GROUP_LEN as group_len, MOST_GROUPS as most_groups};
ghost use Rattle.ft_paged.specs.Paged.{dense, joined_places, valued, AreGroups, IsFirstFrom};

use crate::group::{Group, Spare, add_groups};
use crate::page::Page;
use crate::{GROUP_LEN, MOST_GROUPS};
use ft_base::Memory;
use std::alloc::{AllocError, Global};
use std::marker::Model;

/// A map from numbers of 32 bits that are given one after another. Clauses see it as a finite map.
///
/// Each value is at its number in a page of 64, and each page is in a group of 64, so nothing is
/// searched for. Except when groups are made or copied, a call takes the same time however many
/// numbers there are. A group without a value takes 32 bytes, up to the last group that an insert
/// reached. A number without a value therefore takes about a hundredth of a byte. In another group,
/// a page without a value takes 32 bytes, up to the last page that an insert reached. A group may
/// reuse the pages of one that lost its values.
#[derive(Drop)]
pub struct PagedMap<V> {
    /// How many numbers have a value.
    count: usize,
    groups: Vec<Group<V>>,
    spare: Spare<V>,
}

impl<V> Model for PagedMap<V> {
    ghost use Rattle.std.specs.Ordering.{nat_cmp};
    ghost use Rattle.std.specs.Coded.{coded_ℕ};
    ghost use Rattle.std.specs.FinMap as finite;
    ghost use Rattle.ft_paged.specs.Paged.{dense, joined_places, IsPagedMap};

    ghost Value = { finite.FinMap nat_cmp V };

    ghost coded = { finite.code coded_ℕ V.code };

    ghost view = { λ a. dense (joined_places a.groups.items) };

    ghost invariant = { λ a. IsPagedMap a.count a.groups.items a.spare.page a.spare.group };
}

impl<V: Copy> PagedMap<V> {
    /// Returns the empty map. Takes no memory.
    pub fn new(alloc: Global) -> PagedMap<V>
        ensures { result ≡ finite.empty }
    {
        PagedMap {
            count: 0,
            groups: Vec::new(alloc),
            spare: Spare {
                page: Page::new(alloc),
                group: Group::new(alloc),
            },
        }
    }

    /// Returns the value at a number, if there is one.
    pub fn get(&self, number: u64) -> Option<V>
        ensures { result ≡ finite.get self.now number }
    {
        let spot = spot_of(number);
        self.groups.get(spot.group as usize)?.get(spot.place)
    }

    /// Returns how many numbers have a value.
    pub fn len(&self) -> usize
        ensures { result ≡ finite.len self.now }
    {
        self.count
    }

    /// Sets the value at a number that has none. A number of more than 32 bits is refused as out of
    /// memory. On an error, nothing has changed.
    pub fn insert(&mut self, number: u64, value: V) -> Result<(), Memory>
        requires { finite.get self.old number ≡ None }
        ensures ok { OnOk result (self.new ≡ finite.insert self.old number value) }
        ensures err { OnErr result (self.new ≡ self.old) }
    {
        let spot = spot_of(number);
        if spot.group >= MOST_GROUPS as u64 {
            return Err(Memory);
        }
        let group = spot.group as usize;
        have_group(&mut self.groups, group)?;
        self.groups[group].insert(&mut self.spare, spot.place, value)?;
        self.count += 1;
        Ok(())
    }

    /// Removes and returns the value at a number, if there is one. Takes no memory.
    pub fn remove(&mut self, number: u64) -> Option<V>
        ensures value { result ≡ finite.get self.old number }
        ensures after { self.new ≡ finite.remove self.old number }
    {
        let value = self.get(number)?;
        let spot = spot_of(number);
        self.groups[spot.group as usize].remove(&mut self.spare, spot.place);
        self.count -= 1;
        Some(value)
    }

    /// Returns the numbers with their values, in rising order of the numbers. Takes no memory.
    pub fn entries(&self) -> PagedEntries<'_, V>
        ensures { result ≡ finite.entries self.now }
    {
        PagedEntries {
            groups: &self.groups,
            from: 0,
        }
    }
}

impl<V: Copy> Clone for PagedMap<V> {
    ghost is_clone = { λ map copy. copy ≡ map };

    fn clone(&self) -> Result<PagedMap<V>, AllocError> {
        let alloc = *self.groups.allocator();
        let mut groups = Vec::with_capacity(alloc, self.groups.len())?;
        for group in &self.groups {
            groups.push_reserved(group.copied()?);
        }
        Ok(PagedMap {
            count: self.count,
            groups,
            spare: Spare {
                page: Page::new(alloc),
                group: Group::new(alloc),
            },
        })
    }
}

/// The numbers of a map with their values, in rising order. Clauses see it as the list of those
/// that are left.
#[derive(Drop)]
pub struct PagedEntries<'a, V> {
    groups: &'a [Group<V>],
    from: u64,
}

impl<'a, V> Model for PagedEntries<'a, V> {
    ghost use Rattle.std.specs.Prelude.{ℕ, List, drop};
    ghost use Rattle.std.specs.Coded.{coded×, coded_ℕ, coded_list};
    ghost use Rattle.ft_paged.specs.Paged.{numbered, joined_places, AreGroups};

    ghost Value = { List (ℕ × V) };

    ghost coded = { coded_list (coded× coded_ℕ V.code) };

    ghost view = { λ a. numbered a.from (drop a.from (joined_places a.groups.now)) };

    ghost invariant = { λ a. AreGroups a.groups.now };
}

impl<'a, V: Copy> Iterator for PagedEntries<'a, V> {
    type Item = (u64, V);

    ghost next_gives = { YieldsFirst (λ rest. rest) };

    ghost remaining = { item_count (λ rest. rest) };

    fn next(&mut self) -> Option<(u64, V)> {
        let (number, value) = first_from(self.groups, self.from)?;
        self.from = number + 1;
        Some((number, value))
    }
}

/// Returns the first number with a value, from this one on, and its value.
fn first_from<V: Copy>(groups: &[Group<V>], from: u64) -> Option<(u64, V)>
    requires { AreGroups groups.now }
    ensures first { IsFirstFrom (joined_places groups.now) from result }
    ensures number { IfSome result (λ found. found.0 < 2 ^ 32) }
{
    let spot = spot_of(from);
    let mut from = spot.place;
    for group in spot.group as usize..groups.len() {
        if let Some(found) = groups[group].first_from(from) {
            return Some(((GROUP_LEN * group + found.0) as u64, found.1));
        }
        from = 0;
    }
    None
}

/// The spot of a number's value: the number of its group, and its place in the group.
#[derive(Clone, Copy)]
struct Spot {
    group: u64,
    place: usize,
}

/// Returns where the value of a number is.
fn spot_of(number: u64) -> Spot
    ensures number { number ≡ group_len * result.group + result.place }
    ensures place { result.place < group_len }
{
    Spot {
        group: number / GROUP_LEN as u64,
        place: (number % GROUP_LEN as u64) as usize,
    }
}

/// Makes this group and those before it, without values, if they do not exist. No value changes,
/// even on an error.
fn have_group<V: Copy>(groups: &mut Vec<Group<V>>, group: usize) -> Result<(), Memory>
    requires room { group < most_groups }
    requires groups { AreGroups groups.old.items }
    ensures groups { AreGroups groups.new.items }
    ensures same { dense (joined_places groups.new.items) ≡ dense (joined_places groups.old.items) }
    ensures count { valued (joined_places groups.new.items)
        ≡ valued (joined_places groups.old.items) }
    ensures there { OnOk result (group < length groups.new.items) }
{
    if group < groups.len() {
        return Ok(());
    }
    let more = group + 1 - groups.len();
    add_groups(groups, more)?;
    Ok(())
}
