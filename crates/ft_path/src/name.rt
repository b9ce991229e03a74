// Names of files in a directory.
ghost use Rattle.std.specs.Prelude.{◌≡◌, ◌≤◌, ◌↔◌, ◌∷◌, [], IsTrue, ℕ, List, length, IfOk, IsOk, Some, refl, nat_eq};
ghost use Rattle.std.proofs.Common.{ap};
ghost use Rattle.std.specs.Ordering.{nat_cmp};
ghost use Rattle.std.specs.Cmp.{partial_equiv_from_equiv};
ghost use Rattle.std.specs.Cmp.Lexicographic.{slice_cmp, pointwise, bytes_decides, nat_list_cmp_total, nat_list_eq_equiv, texts_ties, texts_po};
ghost use Rattle.ft_path.specs.Name.{IsName, is_dot, is_dot_dot};
ghost use Rattle.ft_path.specs.Hashed.{hashed};

use crate::SHORT_NAME;
use crate::bytes::Bytes;
use ft_base::Memory;
use std::alloc::{AllocError, Global};
use std::cmp::Ordering;
use std::hash::{Hash, Hasher};
use std::marker::Model;

/// The name of a file in a directory: 1 to 255 bytes, none of them null or a slash.
///
/// `.` and `..` are names. Names are ordered by their bytes. Two names of at most `SHORT_NAME`
/// bytes are compared as numbers of eight bytes, and the first number decides for most names.
#[derive(Debug, Drop)]
pub struct Name {
    bytes: Bytes,
}

impl Model for Name {
    ghost use Rattle.std.specs.Prelude.{◌≡◌, ℕ, List};
    ghost use Rattle.ft_path.specs.Name.{IsName};
    ghost use Rattle.ft_path.specs.Kept.{kept, Fits};

    ghost Value = { List ℕ };

    ghost view = { λ a. kept a.bytes };

    ghost invariant = { λ a. IsName (kept a.bytes) × Fits a.bytes };
}

impl Name {
    /// Returns the name with these bytes. Up to `SHORT_NAME` bytes take no memory.
    pub fn from_bytes(alloc: Global, bytes: &[u8]) -> Result<Name, Memory>
        requires { IsName bytes.now }
        ensures name { IfOk result (λ name. name ≡ bytes.now) }
        ensures short { length bytes.now ≤ SHORT_NAME → IsOk result }
    {
        let bytes = Bytes::copy_of(alloc, bytes)?;
        Ok(Name { bytes })
    }

    /// Returns the bytes of the name.
    pub fn as_bytes(&self) -> &[u8]
        ensures value { result.now ≡ self.now }
        ensures valid { IsName self.now }
    {
        self.bytes.as_slice()
    }

    /// Returns whether the name is `.`, that of a directory in itself.
    pub fn is_dot(&self) -> bool
        ensures { result ≡ is_dot self.now }
    {
        self.bytes.is_dot()
    }

    /// Returns whether the name is `..`, that of a directory's parent.
    pub fn is_dot_dot(&self) -> bool
        ensures { result ≡ is_dot_dot self.now }
    {
        self.bytes.is_dot_dot()
    }

    /// Returns another name with the same bytes. Up to `SHORT_NAME` bytes take no memory.
    pub fn try_clone(&self) -> Result<Name, Memory>
        ensures name { IfOk result (λ name. name ≡ self.now) }
        ensures short { length self.now ≤ SHORT_NAME → IsOk result }
    {
        Ok(self.copied()?)
    }

    /// Returns the hash of the name under a seed, by which an index finds it. The same name has the
    /// same hash.
    pub fn hashed(&self, seed: u64) -> u64
        ensures { result ≡ hashed seed self.now }
    {
        self.bytes.hashed(seed)
    }

    /// Returns another name with the same bytes, or the error of the allocation. Up to `SHORT_NAME`
    /// bytes take no memory.
    fn copied(&self) -> Result<Name, AllocError>
        ensures name { IfOk result (λ name. name ≡ self.now) }
        ensures short { length self.now ≤ SHORT_NAME → IsOk result }
    {
        let bytes = self.bytes.copied()?;
        Ok(Name { bytes })
    }
}

impl Default for Name {
    /// Returns `.`, the name of a directory in itself.
    fn default() -> Name
        ensures { result ≡ 46 ∷ [] }
    {
        let mut place = [0; SHORT_NAME];
        place[0] = b'.';
        Name {
            bytes: Bytes::Short(1, place),
        }
    }
}

impl Clone for Name {
    ghost is_clone = { λ name copy. copy ≡ name };

    fn clone(&self) -> Result<Name, AllocError> {
        self.copied()
    }
}

impl PartialEq for Name {
    ghost eq = { pointwise nat_eq };

    ghost laws = { partial_equiv_from_equiv nat_list_eq_equiv };

    fn eq(&self, other: &Name) -> bool {
        self.bytes.is_same(&other.bytes)
    }
}

impl Eq for Name {
    ghost laws = { nat_list_eq_equiv };
}

impl Hash for Name {
    ghost hash_input = { λ name. name ∷ [] };

    ghost respects_eq = { λ x y same. ap (λ (name : List ℕ). name
        ∷ []) ((bytes_decides x y).0 same) };

    fn hash<H: Hasher>(&self, state: &mut H) {
        state.write(self.as_bytes());
    }
}

impl PartialOrd for Name {
    ghost partial_cmp = { λ x y. Some (slice_cmp nat_cmp x y) };

    ghost laws = { texts_po };

    fn partial_cmp(&self, other: &Name) -> Option<Ordering> {
        Some(self.cmp(other))
    }
}

impl Ord for Name {
    ghost cmp = { slice_cmp nat_cmp };

    ghost total = { nat_list_cmp_total };

    ghost matches_partial_cmp = { λ x y. refl };

    ghost matches_eq = { texts_ties };

    fn cmp(&self, other: &Name) -> Ordering {
        self.bytes.order(&other.bytes)
    }
}
