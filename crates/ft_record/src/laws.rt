//! Laws of every core, each as the contract of a function that does nothing.
ghost use Rattle.ft_core.specs.Reached.{IsReached};

use crate::recorded::Recorded;
use ft_core::laws::reached as reached_core;

/// The history of a core is legal from a base that is a sound tree; only live transactions wait;
/// and its tree is the one of the headline, and sound.
pub fn reached(core: &Recorded)
    ensures { IsReached core.now }
{
    reached_core(core.core());
}
