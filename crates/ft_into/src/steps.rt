// The steps that a comparison has found.
ghost use Rattle.std.specs.Prelude.{◌≡◌, ◌++◌, [], true, List, IfOk, OnOk};
ghost use Rattle.ft_into.specs.Compares.{change_unless, one_step};
ghost use Rattle.ft_into.specs.Removes.{Removes, RemovesNames};
ghost use Rattle.ft_into.specs.Views.{names_of};
ghost use Rattle.ft_into.specs.declared.step.Step.{Step as StepOf};

use crate::gone::add_removals;
use crate::names::Names;
use crate::step::{Act, Step, Thing};
use ft_copy::{CopyFault, CopyPath, Source};
use std::alloc::Global;

/// The steps that a comparison has found so far.
#[derive(Drop)]
pub(crate) struct Steps {
    pub(crate) alloc: Global,
    pub(crate) items: Vec<Step>,
}

impl Steps {
    /// Returns no steps. Takes no memory.
    pub(crate) fn new(alloc: Global) -> Steps
        ensures { result.items.items ≡ [] }
    {
        Steps {
            alloc,
            items: Vec::new(alloc),
        }
    }

    /// Returns a step.
    pub(crate) fn step(&self, act: Act, thing: Thing, path: &[u8]) -> Result<Step, CopyFault>
        ensures { IfOk result
            (λ step. step ≡ record { act = act; thing = thing; path = path.now }) }
    {
        let path = Vec::from_slice(self.alloc, path)?;
        Ok(Step {
            act,
            thing,
            path: path.into(),
        })
    }

    /// Adds a step.
    pub(crate) fn push(&mut self, act: Act, thing: Thing, path: &[u8]) -> Result<(), CopyFault>
        ensures { OnOk result
            (self.new.items.items ≡ self.old.items.items ++ one_step act thing path.now) }
    {
        let step = self.step(act, thing, path)?;
        self.items.push(step)?;
        Ok(())
    }

    /// Adds a change, unless what is there is the same.
    pub(crate) fn change_unless(
        &mut self,
        same: bool,
        thing: Thing,
        path: &[u8],
    ) -> Result<(), CopyFault>
        ensures { OnOk result
            (self.new.items.items ≡ self.old.items.items ++ change_unless same thing path.now) }
    {
        if same {
            return Ok(());
        }
        self.push(Act::Change, thing, path)
    }

    /// Adds the steps that remove what blocks a path, with its contents. If that is not wished, the
    /// fault is `Exists`.
    pub(crate) fn clear<S: Source>(
        &mut self,
        disk: &S,
        removes: bool,
        path: &[u8],
        node: u64,
    ) -> Result<(), CopyFault>
        ensures { OnOk result ((removals : List StepOf)
            × (self.new.items.items ≡ self.old.items.items ++ removals) × (removes ≡ true)
            × Removes (S.tells disk.now) (record { path = path.now; node = node }) removals) }
    {
        if !removes {
            return Err(CopyFault::Exists);
        }
        let path = Vec::from_slice(self.alloc, path)?;
        let place = CopyPath {
            path: path.into(),
            node,
        };
        add_removals(self.alloc, disk, place, &mut self.items)
    }

    /// Adds a step that adds something, after those that remove what blocks its path.
    pub(crate) fn replace<S: Source>(
        &mut self,
        disk: &S,
        removes: bool,
        thing: Thing,
        path: &[u8],
        node: u64,
    ) -> Result<(), CopyFault>
        ensures { OnOk result ((removals : List StepOf)
            × (self.new.items.items
            ≡ self.old.items.items ++ (removals ++ one_step Act.Add thing path.now))
            × (removes ≡ true)
            × Removes (S.tells disk.now) (record { path = path.now; node = node }) removals) }
    {
        self.clear(disk, removes, path, node)?;
        self.push(Act::Add, thing, path)
    }

    /// Adds the steps that remove what is at each of these names.
    pub(crate) fn remove_rest<S: Source>(
        &mut self,
        disk: &S,
        names: &mut Names,
    ) -> Result<(), CopyFault>
        ensures removals { OnOk result ((removals : List StepOf)
            × (self.new.items.items ≡ self.old.items.items ++ removals)
            × RemovesNames (S.tells disk.now) (names_of names.old) removals) }
        ensures none { OnOk result (names_of names.new ≡ []) }
    {
        while let Some((path, node)) = names.take_last() {
            let place = CopyPath {
                path: path.into(),
                node,
            };
            add_removals(self.alloc, disk, place, &mut self.items)?;
        }
        Ok(())
    }
}
