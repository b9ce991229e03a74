// Checkpoints.
ghost use Rattle.std.specs.Prelude.{◌≡◌, None, OnOk, IfErr};
ghost use Rattle.ft_core.specs.declared.fault.Fault.TheVariants.{Live as LiveFault};
ghost use Rattle.ft_core.specs.declared.request.Request.TheVariants.{Checkpoint};
ghost use Rattle.ft_core.specs.declared.request.Answer.TheVariants.{Cleared};
ghost use Rattle.ft_lock_rules.specs.Locks.{no_locks as without_locks};
ghost use Rattle.ft_core.specs.Living.{NoneIsLive};
ghost use Rattle.ft_core.specs.States.{after_checkpoint};
ghost use Rattle.ft_core.specs.Steps.{IsStep, exact_rule, refusal_of, refused_with, answer_with};

use crate::fault::Fault;
use crate::journal::Journal;
use crate::manager::Core;
use ft_locks::Locks;
use ft_undo::Logs;
use std::alloc::Global;

impl Core {
    /// Makes the present tree the base, and forgets the transactions and all that has happened:
    /// limits are the same and count from here, and the next numbers go on.
    ///
    /// Refuses Live if a transaction is live, and nothing else. Takes no memory.
    pub fn checkpoint(&mut self) -> Result<(), Fault>
        ensures step { IsStep exact_rule
            self.old.state Checkpoint (answer_with (λ done. Cleared) result) self.new.state }
        ensures live { IfErr result (λ fault. fault ≡ LiveFault) }
    {
        self.may_checkpoint()?;
        self.restart();
        Ok(())
    }

    /// Refuses what `checkpoint` refuses.
    pub fn may_checkpoint(&self) -> Result<(), Fault>
        ensures refused { refusal_of self.now.state Checkpoint ≡ refused_with result }
        ensures none_live { OnOk result (NoneIsLive self.now.state) }
        ensures live { IfErr result (λ fault. fault ≡ LiveFault) }
    {
        if self.has_live() {
            return Err(Fault::Live);
        }
        Ok(())
    }

    /// Makes the tree the base, if no transaction is live.
    fn restart(&mut self)
        requires { refusal_of self.old.state Checkpoint ≡ None }
        ensures { self.new.state ≡ after_checkpoint self.old.state }
    {
        self.sweep();
        let terms = self.journal.terms();
        let stamp = self.journal.last_stamp();
        self.journal = Journal::new(self.alloc, terms, &self.parts.tree, stamp);
        self.parts.forest.restart();
        self.parts.locks = no_locks(self.alloc, self.seed);
        self.parts.logs = Logs::new(self.alloc);
        self.memo.forget();
    }
}

/// Returns a lock table without locks, under a seed. Takes no memory.
fn no_locks(alloc: Global, seed: u64) -> Locks
    ensures { result ≡ without_locks }
{
    let mut locks = Locks::new(alloc);
    locks.seed(seed);
    locks
}
