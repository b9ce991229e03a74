// A short list that holds its first two values in itself.
ghost use Rattle.std.specs.Prelude.{◌≡◌, ◌<◌, [], ◌∷◌, ◌++◌, drop, length, slice_get, option_copied, IsOk, IfNone, IfSome, OnOk, OnErr, IfErr};

use std::alloc::{AllocFailed, Global};
use std::marker::Model;

/// A list of values, which clauses see as a list. The first two values take no memory.
pub struct ShortList<T> {
    first: Option<T>,
    second: Option<T>,
    more: Vec<T>,
}

impl<T: Drop> Drop for ShortList<T> {
    fn drop(self) {
        let ShortList {
            first: _,
            second: _,
            more: _,
        } = self;
    }
}

impl<T> Model for ShortList<T> {
    ghost use Rattle.std.specs.Prelude.{List};
    ghost use Rattle.std.specs.Coded.{coded_list};
    ghost use Rattle.ft_base.specs.ShortList.{in_a_row, AreFilled};

    ghost Value = { List T };

    ghost coded = { coded_list T.code };

    ghost view = { λ a. in_a_row a.first a.second a.more.items };

    ghost invariant = { λ a. AreFilled a.first a.second a.more.items };
}

impl<T: Drop> ShortList<T> {
    /// Returns the empty list. Takes no memory.
    pub fn new(alloc: Global) -> ShortList<T>
        ensures { result ≡ [] }
    {
        ShortList {
            first: None,
            second: None,
            more: Vec::new(alloc),
        }
    }

    /// Returns the first value, if there is one.
    pub fn first(&self) -> Option<&T>
        ensures { option_copied result ≡ slice_get self.now 0 }
    {
        self.first.as_ref()
    }

    /// Returns the second value, if there is one.
    pub fn second(&self) -> Option<&T>
        ensures { option_copied result ≡ slice_get self.now 1 }
    {
        self.second.as_ref()
    }

    /// Returns the values from the third on. Only these take memory.
    pub fn rest(&self) -> &[T]
        ensures { result.now ≡ drop 2 self.now }
    {
        self.more.as_slice()
    }

    /// Appends a value. If there is not enough memory, returns the value, and nothing has changed.
    /// The first two values take no memory.
    pub fn push(&mut self, value: T) -> Result<(), AllocFailed<T>>
        ensures ok { OnOk result (self.new ≡ self.old ++ value ∷ []) }
        ensures err { OnErr result (self.new ≡ self.old) }
        ensures value_returned { IfErr result (λ failed. failed.value ≡ value) }
        ensures two { length self.old < 2 → IsOk result }
    {
        if self.first.is_none() {
            self.first = Some(value);
            return Ok(());
        }
        if self.second.is_none() {
            self.second = Some(value);
            return Ok(());
        }
        self.more.push(value)
    }

    /// Removes and returns the last value, if there is one. Takes no memory.
    pub fn pop(&mut self) -> Option<T>
        ensures some { IfSome result (λ value. self.old ≡ self.new ++ value ∷ []) }
        ensures none { IfNone result (self.old ≡ []) }
        ensures left { IfNone result (self.new ≡ []) }
    {
        if let Some(value) = self.more.pop() {
            return Some(value);
        }
        if let Some(value) = self.second.take() {
            return Some(value);
        }
        self.first.take()
    }

    /// Removes and returns the first value, if there is one. Takes no memory.
    pub fn pop_front(&mut self) -> Option<T>
        ensures some { IfSome result (λ value. self.old ≡ value ∷ self.new) }
        ensures none { IfNone result (self.old ≡ []) }
        ensures left { IfNone result (self.new ≡ []) }
    {
        if self.first.is_none() {
            return None;
        }
        let value = self.first.take();
        if self.second.is_some() {
            self.first = self.second.take();
            if !self.more.is_empty() {
                self.second = Some(self.more.remove(0));
            }
        }
        value
    }
}
