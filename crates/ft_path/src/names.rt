// Lists of names.
ghost use Rattle.std.specs.Prelude.{◌≡◌, [], ◌∷◌, ◌++◌, OnOk, OnErr, nat_eq};
ghost use Rattle.std.specs.Cmp.{partial_equiv_from_equiv};
ghost use Rattle.std.specs.Cmp.Lexicographic.{pointwise, lists_equiv, nat_list_eq_equiv};

use crate::name::Name;
use ft_base::Memory;
use smallvec::SmallVec;
use std::alloc::Global;
use std::marker::Model;

/// A list of names. Up to four names take no memory except their own.
#[derive(Debug, Drop)]
pub struct Names {
    items: SmallVec<Name, 4>,
}

impl Model for Names {
    ghost use Rattle.std.specs.Prelude.{ℕ, List};

    ghost Value = { List (List ℕ) };

    ghost view = { λ a. a.items.items };
}

impl Names {
    /// Returns the empty list. Takes no memory.
    pub fn new(alloc: Global) -> Names
        ensures { result ≡ [] }
    {
        Names {
            items: SmallVec::new(alloc),
        }
    }

    /// Returns the names, in order.
    pub fn as_slice(&self) -> &[Name]
        ensures { result.now ≡ self.now }
    {
        self.items.as_slice()
    }

    /// Appends a name. If there is not enough memory, drops the name, and the list has not changed.
    pub fn push(&mut self, name: Name) -> Result<(), Memory>
        ensures ok { OnOk result (self.new ≡ self.old ++ name ∷ []) }
        ensures err { OnErr result (self.new ≡ self.old) }
    {
        self.items.push(name)?;
        Ok(())
    }

    /// Appends copies of names. On an error, some of the copies may be in the list.
    pub fn push_copies(&mut self, names: &[Name]) -> Result<(), Memory>
        ensures { OnOk result (self.new ≡ self.old ++ names.now) }
    {
        for name in names {
            self.push(name.try_clone()?)?;
        }
        Ok(())
    }
}

impl PartialEq for Names {
    ghost eq = { pointwise (pointwise nat_eq) };

    ghost laws = { partial_equiv_from_equiv (lists_equiv nat_list_eq_equiv) };

    fn eq(&self, other: &Names) -> bool {
        self.as_slice() == other.as_slice()
    }
}

impl Eq for Names {
    ghost laws = { lists_equiv nat_list_eq_equiv };
}
