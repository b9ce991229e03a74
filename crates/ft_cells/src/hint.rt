// Hints: where an inode was last seen.
ghost use Rattle.std.specs.Prelude.{◌≡◌};
ghost use Rattle.std.specs.Option.{option_copied, option_flatten, option_map};

use std::alloc::AllocError;
use std::marker::Model;

/// The key under which an inode was last seen.
///
/// A hint may be wrong: the inode may no longer be under this key, and another may be there
/// instead. A lookup tries the hint first. If the hint is wrong, the lookup uses the index.
#[derive(Clone, Copy, Debug, PartialEq, Eq)]
pub struct Hint {
    pub key: usize,
}

impl Hint {
    /// Returns the key that the first inode of a store gets.
    pub fn first() -> Hint {
        Hint { key: 0 }
    }
}

/// A value that leads to an inode, with a hint of where that inode was last seen.
///
/// Clauses see the value without the hint.
#[derive(Drop)]
pub struct Hinted<T> {
    value: T,
    near: Hint,
}

impl<T> Model for Hinted<T> {
    ghost Value = { T };

    ghost coded = { T.code };

    ghost view = { λ a. a.value };
}

impl<T: Copy> Hinted<T> {
    /// Returns the value without its hint.
    pub fn value(&self) -> T
        ensures { result ≡ self.now }
    {
        self.value
    }
}

impl<T: Copy> Clone for Hinted<T> {
    ghost is_clone = { λ hinted copy. copy ≡ hinted };

    fn clone(&self) -> Result<Hinted<T>, AllocError> {
        Ok(Hinted {
            value: self.value,
            near: self.near,
        })
    }
}

/// Returns the new content of a place: the value with its hint, or nothing if there is no value.
pub fn with_hint<T: Copy>(to: Option<T>, near: Hint) -> Option<Hinted<T>>
    ensures { result ≡ to }
{
    match to {
        Some(value) => Some(Hinted { value, near }),
        None => None,
    }
}

/// Returns the previous content of a place without its hint. The outer `None` means that there was
/// no such place, and the inner one that the place was empty.
pub fn value_in<T: Copy>(was: Option<Option<Hinted<T>>>) -> Option<Option<T>>
    ensures { result ≡ was }
{
    match was {
        Some(Some(hinted)) => Some(Some(hinted.value)),
        Some(None) => Some(None),
        None => None,
    }
}

/// Returns the value in a place and its hint, if there is such a place and it is not empty.
pub fn seen_in<T: Copy>(place: Option<&Option<Hinted<T>>>) -> Option<(T, Hint)>
    ensures { option_map (λ seen. seen.0) result ≡ option_flatten (option_copied place.entry) }
{
    match place {
        Some(Some(hinted)) => Some((hinted.value, hinted.near)),
        _ => None,
    }
}
