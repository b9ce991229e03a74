// The execution of steps.
ghost use Rattle.std.specs.Prelude.{◌≡◌, ◌++◌, ◌∷◌, List, OnOk, IfSome, IfNone, map};
ghost use Rattle.std.specs.List.{flat_map};
ghost use Rattle.ft_into.specs.declared.step.Step.{Step as StepOf};
ghost use Rattle.ft_copy.specs.Asked.{Finish};
ghost use Rattle.ft_into.specs.Carries.{AreRemovals, CarriesOut, CarriesTree, IsMadeOf, removing};
ghost use Rattle.ft_into.specs.Makes.{Making, MakesAll, steps_of};

use crate::maker::Maker;
use crate::step::{Act, Step, Thing};
use ft_cells::{Attributes, Timestamp};
use ft_copy::{CopyFault, CopyLimits, CopyStop, Source, Target, copy};
use std::alloc::Global;

/// Carries out steps, one after another, by a copy of the tree to which they lead. Anything that no
/// step names is left as it is.
///
/// Returns the maker too. If something fails, a prefix of the steps was carried out.
pub fn carry_out<S: Source, M: Maker>(
    alloc: Global,
    limits: CopyLimits,
    tree: &S,
    steps: &[Step],
    maker: M,
) -> (M, Result<(), CopyStop>)
    ensures steps { OnOk result.1 (CarriesOut M.does steps.now maker result.0) }
    ensures tree { OnOk result.1
        (CarriesTree M.does limits (S.tells tree.now) steps.now maker result.0) }
{
    let mut carrying = Carrying {
        maker,
        rest: steps,
        is_open: false,
    };
    let copied = copy(alloc, limits, tree, &mut carrying);
    (carrying.maker, copied)
}

/// A target that passes on to a maker what the next step names, and nothing else.
#[derive(Drop)]
pub(crate) struct Carrying<'a, M> {
    pub(crate) maker: M,
    // the steps that are left
    pub(crate) rest: &'a [Step],
    // whether the open file is made
    pub(crate) is_open: bool,
}

impl<M: Maker> Carrying<'_, M> {
    /// Carries out the removals that are next.
    fn remove_next(&mut self) -> Result<(), CopyFault>
        ensures steps { OnOk result ((removed : List StepOf)
            × MakesAll M.does self.old.maker (map removing removed) self.new.maker
            × (self.old.rest.now ≡ removed ++ self.new.rest.now)
            × AreRemovals removed) }
        ensures is_open { self.new.is_open ≡ self.old.is_open }
    {
        let mut rest = self.rest;
        while let Some((step, more)) = rest.split_first() {
            if step.act != Act::Remove {
                self.rest = rest;
                return Ok(());
            }
            self.maker.remove(step.thing, step.path.as_slice())?;
            rest = more;
        }
        self.rest = rest;
        Ok(())
    }

    /// Takes the next step if it has this kind and this path, and returns what it does.
    fn take_next(&mut self, thing: Thing, path: &[u8]) -> Option<Act>
        ensures some { IfSome result
            (λ act. self.old.rest.now ≡ record {
              act = act;
              thing = thing;
              path = path.now;
            } ∷ self.new.rest.now) }
        ensures none { IfNone result (self.new.rest.now ≡ self.old.rest.now) }
        ensures maker { self.new.maker ≡ self.old.maker }
        ensures is_open { self.new.is_open ≡ self.old.is_open }
    {
        let rest = self.rest;
        match rest.split_first() {
            Some((step, more)) if step.thing == thing && step.path.as_slice() == path => {
                self.rest = more;
                Some(step.act)
            }
            _ => None,
        }
    }
}

impl<M: Maker> Carrying<'_, M> {
    /// Gives the root its attributes, if the next step says so.
    fn change_top(&mut self, attributes: Attributes) -> Result<(), CopyFault>
        ensures own { OnOk result ((own : List Making) × IsMadeOf (Finish attributes) own
            × MakesAll M.does self.old.maker own self.new.maker
            × (self.old.rest.now ≡ flat_map steps_of own ++ self.new.rest.now)) }
        ensures is_open { self.new.is_open ≡ self.old.is_open }
    {
        let path = b"".as_slice();
        match self.take_next(Thing::Folder, path) {
            Some(act) => self.maker.folder(act, path, attributes),
            None => Ok(()),
        }
    }
}

impl<M: Maker> Target for Carrying<'_, M> {
    ghost use Rattle.ft_into.specs.Carries.{Carries};

    ghost does = { λ old asked new. Carries M.does (record {
      maker = old.maker;
      rest = old.rest.now;
      is_open = old.is_open;
    }) asked (record {
      maker = new.maker;
      rest = new.rest.now;
      is_open = new.is_open;
    }) };

    fn start(&mut self) -> Result<(), CopyFault> {
        Ok(())
    }

    fn folder(&mut self, path: &[u8], attributes: Attributes) -> Result<(), CopyFault> {
        self.remove_next()?;
        match self.take_next(Thing::Folder, path) {
            Some(act) => self.maker.folder(act, path, attributes),
            None => Ok(()),
        }
    }

    fn open(&mut self, path: &[u8], attributes: Attributes) -> Result<(), CopyFault> {
        self.remove_next()?;
        self.is_open = false;
        match self.take_next(Thing::File, path) {
            Some(act) => {
                self.is_open = true;
                self.maker.open(act, path, attributes)
            }
            None => Ok(()),
        }
    }

    fn piece(&mut self, bytes: &[u8]) -> Result<(), CopyFault> {
        if self.is_open {
            self.maker.piece(bytes)
        } else {
            Ok(())
        }
    }

    fn close(&mut self, time: Option<Timestamp>) -> Result<(), CopyFault> {
        if self.is_open {
            self.is_open = false;
            self.maker.close(time)
        } else {
            Ok(())
        }
    }

    fn link(&mut self, first: &[u8], path: &[u8]) -> Result<(), CopyFault> {
        self.remove_next()?;
        match self.take_next(Thing::Link, path) {
            Some(act) => self.maker.link(act, first, path),
            None => Ok(()),
        }
    }

    fn symlink(&mut self, to: &[u8], path: &[u8]) -> Result<(), CopyFault> {
        self.remove_next()?;
        match self.take_next(Thing::Symlink, path) {
            Some(act) => self.maker.symlink(act, to, path),
            None => Ok(()),
        }
    }

    /// (Steps that are left are those of another tree.)
    fn finish(&mut self, attributes: Attributes) -> Result<(), CopyFault> {
        self.remove_next()?;
        self.change_top(attributes)?;
        if !self.rest.is_empty() {
            return Err(CopyFault::Read);
        }
        self.maker.finish()
    }

    fn give_up(&mut self) {
        self.maker.give_up()
    }
}
