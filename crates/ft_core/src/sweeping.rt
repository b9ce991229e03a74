// The sweep of a core.
ghost use Rattle.std.specs.Prelude.{◌≡◌, ◌<◌, ◌+◌, ◌-◌, ◌^◌};
ghost use Rattle.ft_tree.specs.Sweep.{places_in};
ghost use Rattle.ft_core.specs.Living.{NoneIsLive};
ghost use Rattle.ft_core.specs.Sweeps.{HasNoUselessPlace, EachUselessIsLocked};

use crate::manager::Core;
use crate::parts::Parts;

impl Core {
    /// Drops places of the tree that are of no use any more, among those that were released since
    /// the last sweep: empty ones, and those of files and directories that are gone. Returns how
    /// many it dropped, or the largest number if there were more. Takes no memory, and the time of
    /// what was released.
    ///
    /// Whatever an undo or an abort may need stays, and nothing is seen of a sweep: the state is
    /// the same. No place of no use is left except those that are locked, and if no transaction is
    /// live none at all.
    pub fn sweep(&mut self) -> u64
        ensures same { self.new.state ≡ self.old.state }
        ensures count { places_in self.old.cells < 2 ^ 64 - 1
            → places_in self.old.cells ≡ result + places_in self.new.cells }
        ensures locked { EachUselessIsLocked self.old.state self.new.cells }
        ensures none_left { NoneIsLive self.old.state → HasNoUselessPlace self.new.cells }
    {
        self.memo.forget();
        let Parts { tree, locks, .. } = &mut self.parts;
        tree.sweep(locks)
    }
}
