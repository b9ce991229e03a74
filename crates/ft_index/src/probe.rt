// How a key is found, placed and removed. Each hash has a home among the slots, where the search
// for its keys begins. The search goes on up to a free slot or the end.
ghost use Rattle.std.specs.Prelude.{◌≡◌, ◌<◌, ◌≤◌, ◌+◌, ◌^◌, ℕ, OnOk, OnErr, length};
ghost use Rattle.ft_index.specs.Slots.{HasMark, AreFull, slot_at, AreSlots};
ghost use Rattle.ft_index.specs.Probing.{home_of, IsPlaced, AreLed, AreLedBut, IsClosing, SameKeys};

use crate::slot::{FREE, Slot};
use ft_base::Memory;

/// Returns the home of a hash.
pub(crate) fn home(hash: u32, homes: usize) -> usize
    requires { homes ≤ 2 ^ 32 }
    ensures home { result ≡ home_of homes hash }
    ensures within { result ≤ homes }
{
    (hash as usize * homes) >> 32
}

/// Returns the first free slot from a place on. If there is none, returns the end.
fn first_free(slots: &[Slot], start: usize) -> usize
    requires { start ≤ length slots.now }
    ensures start { start ≤ result }
    ensures within { result ≤ length slots.now }
    ensures full { AreFull slots.now start result }
    ensures free { (slot_at slots.now result).mark ≡ 0 }
{
    let mut at = start;
    while at < slots.len() && slots[at].mark != 0 {
        at += 1;
    }
    at
}

/// Puts a key in the first free slot from its home on. Takes memory only at the end of the slots.
/// If there is not enough memory, nothing has changed.
pub(crate) fn place(slots: &mut Vec<Slot>, homes: usize, slot: Slot) -> Result<(), Memory>
    requires few { homes ≤ 2 ^ 32 }
    requires within { homes ≤ length slots.old.items }
    ensures ok { OnOk result (IsPlaced homes slots.old.items slots.new.items slot) }
    ensures err { OnErr result (slots.new.items ≡ slots.old.items) }
{
    let at = first_free(slots, home(slot.hash, homes));
    if at < slots.len() {
        slots[at] = slot;
    } else {
        slots.push(slot)?;
    }
    Ok(())
}

/// Returns the place of a key, found by its mark from the home of its hash on.
pub(crate) fn find(slots: &[Slot], start: usize, mark: u32) -> usize
    requires { HasMark slots.now start mark }
    ensures within { result < length slots.now }
    ensures marked { (slot_at slots.now result).mark ≡ mark }
{
    let mut at = start;
    while slots[at].mark != mark {
        at += 1;
    }
    at
}

/// Closes a gap. Each key after it that could not be found past the gap moves into it, and leaves
/// the next gap.
pub(crate) fn close_gap(slots: &mut [Slot], homes: usize, gap: usize)
    requires few { homes ≤ 2 ^ 32 }
    requires apart { AreSlots slots.old }
    requires gap { (slot_at slots.old gap).mark ≡ 0 }
    requires led { AreLedBut homes slots.old gap }
    requires within { gap < length slots.old }
    ensures apart { AreSlots slots.new }
    ensures led { AreLed homes slots.new }
    ensures same { SameKeys slots.old slots.new }
{
    let mut hole = gap;
    let mut at = gap + 1;
    while at < slots.len() && slots[at].mark != 0 {
        hole = move_into(slots, homes, hole, at);
        at += 1;
    }
}

/// Moves a key into the gap before it, if it could not be found past the gap. Returns where the gap
/// is then.
fn move_into(slots: &mut [Slot], homes: usize, gap: usize, at: usize) -> usize
    requires few { homes ≤ 2 ^ 32 }
    requires closing { IsClosing homes slots.old gap at }
    requires full { 0 < (slot_at slots.old at).mark }
    requires within { at < length slots.old }
    ensures closing { IsClosing homes slots.new result (at + 1) }
    ensures same { SameKeys slots.old slots.new }
{
    let slot = slots[at];
    if home(slot.hash, homes) > gap {
        return gap;
    }
    slots[gap] = slot;
    slots[at] = FREE;
    at
}
