// A map from numbers that are given one after another, seen as a finite map.
ghost use Rattle.std.specs.Prelude.{◌≡◌, ◌<◌, ◌≤◌, ◌+◌, ◌*◌, ◌^◌, ◌++◌, ℕ, Option, None, List, length, replicate, IsSome, IsOk, OnOk, OnErr};
ghost use Rattle.std.specs.FinMap as finite;
ghost use Rattle.ft_paged.specs.declared.TheConstants.{GROUP_LEN as group_len};
ghost use Rattle.ft_paged.specs.Paged.{dense, spread, blank_group, HaveLen};

use crate::GROUP_LEN;
use crate::group::{Group, Spare, add_groups};
use crate::page::Page;
use ft_base::Memory;
use std::alloc::Global;
use std::marker::Model;

/// A map from numbers that are given one after another. Clauses see it as a finite map.
///
/// Each value is at its number in a page of 64, and each page is in a group of 64, so nothing is
/// hashed. Except when groups are made, a call takes the same time however many numbers there are.
/// A group without a value takes 32 bytes, from the first group that an insert reached to the last.
/// A number without a value therefore takes about a hundredth of a byte. A number far above all
/// others needs all groups up to its own: it is refused if there is not enough memory for them. In
/// another group, a page without a value takes 32 bytes, up to the last page that an insert
/// reached. A group may reuse the pages of one that lost its values. A number below the first group
/// makes new groups in front and moves all others.
#[derive(Drop)]
pub struct PagedTable<V> {
    /// The value at 0.
    zero: Option<V>,
    /// How many groups, from that of 1 on, have no place.
    skipped: u64,
    groups: Vec<Group<V>>,
    spare: Spare<V>,
}

impl<V> Model for PagedTable<V> {
    ghost use Rattle.std.specs.Ordering.{nat_cmp};
    ghost use Rattle.std.specs.Coded.{coded_ℕ};
    ghost use Rattle.std.specs.FinMap as finite;
    ghost use Rattle.ft_paged.specs.Paged.{dense, spread, IsPagedTable};

    ghost Value = { finite.FinMap nat_cmp V };

    ghost coded = { finite.code coded_ℕ V.code };

    ghost view = { λ a. dense (spread a.zero a.skipped a.groups.items) };

    ghost invariant = { λ a. IsPagedTable a.groups.items a.spare.page a.spare.group };
}

impl<V: Copy> PagedTable<V> {
    /// Returns the empty map. Takes no memory.
    pub fn new(alloc: Global) -> PagedTable<V>
        ensures { result ≡ finite.empty }
    {
        PagedTable {
            zero: None,
            skipped: 0,
            groups: Vec::new(alloc),
            spare: Spare {
                page: Page::new(alloc),
                group: Group::new(alloc),
            },
        }
    }

    /// Returns the value at a key, if there is one.
    pub fn get(&self, key: u64) -> Option<V>
        ensures { result ≡ finite.get self.now key }
    {
        if key == 0 {
            return self.zero;
        }
        let spot = spot_of(key);
        let group = spot.group.checked_sub(self.skipped)?;
        self.groups.get(group as usize)?.get(spot.place)
    }

    /// Returns whether a key has a value.
    pub fn contains(&self, key: u64) -> bool
        ensures { result ≡ finite.contains_key self.now key }
    {
        self.get(key).is_some()
    }

    /// Sets the value at a key. Takes memory only if the key has no value. If there is not enough
    /// memory, nothing has changed.
    pub fn insert(&mut self, key: u64, value: V) -> Result<(), Memory>
        ensures ok { OnOk result (self.new ≡ finite.insert self.old key value) }
        ensures err { OnErr result (self.new ≡ self.old) }
        ensures place { IsSome (finite.get self.old key) → IsOk result }
    {
        if key == 0 {
            self.set_zero(value);
            return Ok(());
        }
        let spot = spot_of(key);
        begin_at(&mut self.skipped, &mut self.groups, spot.group)?;
        let group = (spot.group - self.skipped) as usize;
        make_group(&mut self.groups, group)?;
        self.groups[group].insert(&mut self.spare, spot.place, value)?;
        Ok(())
    }

    /// Sets the value at 0, which always has a place. Takes no memory.
    pub fn set_zero(&mut self, value: V)
        ensures { self.new ≡ finite.insert self.old 0 value }
    {
        self.zero = Some(value);
    }

    /// Sets the value at a key that has one. Takes no memory.
    pub fn set(&mut self, key: u64, value: V)
        requires { IsSome (finite.get self.old key) }
        ensures { self.new ≡ finite.insert self.old key value }
    {
        if key == 0 {
            self.set_zero(value);
        } else {
            let spot = spot_of(key);
            let group = (spot.group - self.skipped) as usize;
            self.groups[group].set(spot.place, value);
        }
    }

    /// Removes the value at a key, if there is one. Takes no memory.
    pub fn remove(&mut self, key: u64)
        ensures { self.new ≡ finite.remove self.old key }
    {
        if key == 0 {
            self.zero = None;
            return;
        }
        let spot = spot_of(key);
        let Some(group) = spot.group.checked_sub(self.skipped) else {
            return;
        };
        let group = group as usize;
        if group < self.groups.len() {
            self.groups[group].remove(&mut self.spare, spot.place);
        }
    }
}

/// The spot of a number's value: the number of its group, and its place in the group.
#[derive(Clone, Copy)]
struct Spot {
    group: u64,
    place: usize,
}

/// Returns where the value of a number from 1 on is.
fn spot_of(key: u64) -> Spot
    requires { 0 < key }
    ensures key { key ≡ group_len * result.group + result.place + 1 }
    ensures place { result.place < group_len }
{
    let number = key - 1;
    Spot {
        group: number / GROUP_LEN as u64,
        place: (number % GROUP_LEN as u64) as usize,
    }
}

/// Makes the groups begin at this one or below it. No value changes, even on an error.
fn begin_at<V: Copy>(
    skipped: &mut u64,
    groups: &mut Vec<Group<V>>,
    number: u64,
) -> Result<(), Memory>
    requires { HaveLen group_len groups.old.items }
    ensures groups { HaveLen group_len groups.new.items }
    ensures same { (zero : Option V)
        → dense (spread zero skipped.new groups.new.items)
        ≡ dense (spread zero skipped.old groups.old.items) }
    ensures begun { OnOk result (skipped.new ≤ number) }
    ensures none { skipped.old ≤ number → 0 < length groups.old.items → IsOk result }
    ensures skipped_kept { skipped.old ≤ number → 0 < length groups.old.items
        → skipped.new ≡ skipped.old }
    ensures groups_kept { skipped.old ≤ number → groups.new.items ≡ groups.old.items }
{
    if groups.is_empty() {
        *skipped = number;
        return Ok(());
    }
    if *skipped <= number {
        return Ok(());
    }
    let more = (*skipped - number) as usize;
    add_groups(groups, more)?;
    groups.rotate_right(more);
    *skipped = number;
    Ok(())
}

/// Makes this group and those before it, without values, if they do not exist. No value changes,
/// even on an error.
fn make_group<V: Copy>(groups: &mut Vec<Group<V>>, group: usize) -> Result<(), Memory>
    requires room { group + 1 < 2 ^ 64 }
    requires groups { HaveLen group_len groups.old.items }
    ensures groups { HaveLen group_len groups.new.items }
    ensures same { (zero : Option V) → (skipped : ℕ)
        → dense (spread zero skipped groups.new.items)
        ≡ dense (spread zero skipped groups.old.items) }
    ensures there { OnOk result (group < length groups.new.items) }
    ensures none { group < length groups.old.items → IsOk result }
    ensures kept { group < length groups.old.items → groups.new.items ≡ groups.old.items }
{
    if group < groups.len() {
        return Ok(());
    }
    let more = group + 1 - groups.len();
    add_groups(groups, more)?;
    Ok(())
}
