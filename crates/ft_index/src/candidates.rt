// The keys of one hash, one after another.
ghost use Rattle.std.specs.Iterator.{YieldsFirst, item_count};

use crate::slot::Slot;
use std::marker::Model;

/// The keys of one hash, in no specified order. Clauses see it as the list of those that are left.
#[derive(Drop)]
pub struct Candidates<'a> {
    pub(crate) slots: &'a [Slot],
    pub(crate) at: usize,
    pub(crate) hash: u32,
}

impl<'a> Model for Candidates<'a> {
    ghost use Rattle.std.specs.Prelude.{List, ℕ, drop};
    ghost use Rattle.std.specs.Coded.{coded_list, coded_ℕ};
    ghost use Rattle.ft_index.specs.Slots.{keys_of};

    ghost Value = { List ℕ };

    ghost coded = { coded_list coded_ℕ };

    ghost view = { λ a. keys_of a.hash (drop a.at a.slots.now) };
}

impl<'a> Iterator for Candidates<'a> {
    type Item = usize;

    ghost next_gives = { YieldsFirst (λ rest. rest) };

    ghost remaining = { item_count (λ rest. rest) };

    fn next(&mut self) -> Option<usize> {
        while self.at < self.slots.len() {
            let slot = self.slots[self.at];
            if slot.mark == 0 {
                return None;
            }
            self.at += 1;
            if slot.hash == self.hash {
                return Some(slot.mark as usize - 1);
            }
        }
        None
    }
}
