// How an index gets more slots.
ghost use Rattle.std.specs.Prelude.{◌≡◌, ◌<◌, ◌≤◌, ◌^◌, OnOk, OnErr, IfOk, length, replicate, vec_len};
ghost use Rattle.ft_index.specs.Slots.{map_of, free, AreSlots};
ghost use Rattle.ft_index.specs.Probing.{IsTable, SameKeys};

use crate::probe::place;
use crate::slot::{FREE, Slot};
use crate::{FIRST_HOMES, MOST_HOMES, MOST_SPARE};
use ft_base::Memory;
use std::alloc::Global;

/// Doubles the homes if there are keys for three quarters of them. Fails if there is not enough
/// memory or all homes exist. On an error, nothing has changed.
pub(crate) fn make_room(
    slots: &mut Vec<Slot>,
    homes: &mut usize,
    count: usize,
) -> Result<(), Memory>
    requires table { IsTable homes.old slots.old.items }
    requires few { count ≤ homes.old }
    ensures table { IsTable homes.new slots.new.items }
    ensures same { map_of slots.new.items ≡ map_of slots.old.items }
    ensures few { count ≤ homes.new }
    ensures room { OnOk result (count < homes.new) }
{
    if count < *homes - *homes / 4 {
        return Ok(());
    }
    if *homes == MOST_HOMES {
        return Err(Memory);
    }
    let more = (*homes * 2).max(FIRST_HOMES).min(MOST_HOMES);
    *slots = with_homes(*slots.allocator(), slots, more)?;
    *homes = more;
    Ok(())
}

/// Returns slots with this many homes and the same keys. Out of memory is the only error.
fn with_homes(alloc: Global, slots: &[Slot], homes: usize) -> Result<Vec<Slot>, Memory>
    requires apart { AreSlots slots.now }
    requires few { homes ≤ 2 ^ 32 }
    ensures table { IfOk result (λ table. IsTable homes table.items) }
    ensures same { IfOk result (λ table. SameKeys slots.now table.items) }
{
    let mut table = free_slots(alloc, homes)?;
    for slot in slots {
        if slot.mark != 0 {
            place(&mut table, homes, *slot)?;
        }
    }
    Ok(table)
}

/// Returns this many free slots, with room for some more. Out of memory is the only error.
fn free_slots(alloc: Global, homes: usize) -> Result<Vec<Slot>, Memory>
    requires { homes ≤ 2 ^ 32 }
    ensures { IfOk result (λ table. table.items ≡ replicate homes free) }
{
    let mut slots = Vec::with_capacity(alloc, homes + (homes / 2).min(MOST_SPARE))?;
    slots.resize(homes, FREE)?;
    Ok(slots)
}
