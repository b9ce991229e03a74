// Values that are seldom present.
ghost use Rattle.std.specs.Prelude.{◌≡◌, None, IfOk, IsOk};

use ft_base::Memory;
use std::alloc::{AllocError, Global};
use std::marker::Model;

/// A value that is seldom present. The value is stored apart, so an absent value needs room only
/// for a pointer.
///
/// Clauses see it as an option.
#[derive(Debug, Drop)]
pub struct Rare<T> {
    value: Option<Box<T>>,
}

impl<T> Model for Rare<T> {
    ghost use Rattle.std.specs.Prelude.{Option, option_map};
    ghost use Rattle.std.specs.Box.{box_value};
    ghost use Rattle.std.specs.Coded.{coded_option};

    ghost Value = { Option T };

    ghost coded = { coded_option T.code };

    ghost view = { λ a. option_map box_value a.value };
}

impl<T> Rare<T> {
    /// Returns no value. Takes no memory.
    pub fn none() -> Rare<T>
        ensures { result ≡ None }
    {
        Rare { value: None }
    }
}

impl<T: Copy> Rare<T> {
    /// Returns this value, stored apart, or no value. Out of memory is the only error, and it
    /// cannot occur without a value.
    pub fn new(alloc: Global, value: Option<T>) -> Result<Rare<T>, Memory>
        ensures value { IfOk result (λ rare. rare ≡ value) }
        ensures nothing { value ≡ None → IsOk result }
    {
        match value {
            Some(value) => Ok(Rare {
                value: Some(Box::new(alloc, value).map_err(AllocError::from)?),
            }),
            None => Ok(Rare { value: None }),
        }
    }

    /// Returns the value, if there is one.
    pub fn get(&self) -> Option<T>
        ensures { result ≡ self.now }
    {
        match &self.value {
            Some(value) => Some(**value),
            None => None,
        }
    }
}

impl<T: Copy> Clone for Rare<T> {
    ghost is_clone = { λ rare copy. copy ≡ rare };

    fn clone(&self) -> Result<Rare<T>, AllocError> {
        match &self.value {
            Some(value) => {
                let alloc = *Box::allocator(value);
                let value = Box::new(alloc, **value)?;
                Ok(Rare { value: Some(value) })
            }
            None => Ok(Rare { value: None }),
        }
    }
}
