// Calls with their stamps.
ghost use Rattle.std.specs.Prelude.{◌≡◌, IfOk};

use crate::call::Call;
use ft_base::Memory;
use std::alloc::Global;

/// A granted call with its stamp. The stamp is its place in the order of the grants, and the number
/// of whatever it makes.
#[derive(Debug, PartialEq, Eq, Drop)]
pub struct StampedCall {
    pub stamp: u64,
    pub call: Call,
}

impl StampedCall {
    /// Returns an equal stamped call. Out of memory is the only refusal.
    pub fn copy(&self, alloc: Global) -> Result<StampedCall, Memory>
        ensures { IfOk result (λ copy. copy ≡ self.now) }
    {
        Ok(StampedCall {
            stamp: self.stamp,
            call: self.call.copy(alloc)?,
        })
    }
}
