// The text of a path, and its parts.
ghost use Rattle.std.specs.Prelude.{◌≡◌, ◌↔◌, ℕ, List, IsTrue, IfOk, false, nat_eq};
ghost use Rattle.std.specs.List.{list_any};
ghost use Rattle.std.specs.Cmp.{partial_equiv_from_equiv};
ghost use Rattle.std.specs.Cmp.Lexicographic.{pointwise, nat_list_eq_equiv};
ghost use Rattle.ft_path.specs.Name.{has_nul, IsNulFree};
ghost use Rattle.ft_path.specs.FilePath.{components, is_long, last_of, parts_of, target_parts, begins_with_slash, IsAnswer};

use crate::errno::Errno;
use crate::name::Name;
use crate::names::Names;
use crate::slashes::Pieces;
use crate::{LONGEST_NAME, LONGEST_PATH};
use ft_base::Memory;
use std::alloc::{AllocError, Global};
use std::marker::Model;
use thiserror::Error;

/// Why bytes did not make a path.
#[derive(Clone, Copy, Debug, PartialEq, Eq, Error)]
pub enum PathFault {
    /// There was not enough memory.
    #[error("Memory")]
    Memory = 1,
    /// A byte is null.
    #[error("NulByte")]
    NulByte = 2,
}

impl From<Memory> for PathFault {
    ghost use Rattle.std.specs.Prelude.{◌≡◌};
    ghost use Rattle.ft_path.specs.declared.path.PathFault.TheVariants.{Memory};

    ghost from_gives = { λ _ fault. fault ≡ Memory };

    fn from(_error: Memory) -> PathFault {
        PathFault::Memory
    }
}

/// Why a path gave no parts.
#[derive(Clone, Copy, Debug, PartialEq, Eq, Error)]
pub enum PartsFault {
    /// There was not enough memory.
    #[error("Memory")]
    Memory,
    /// The text has a fault.
    #[error("{0}")]
    Errno(Errno),
}

impl From<Memory> for PartsFault {
    ghost use Rattle.std.specs.Prelude.{◌≡◌};
    ghost use Rattle.ft_path.specs.declared.path.PartsFault.TheVariants.{Memory};

    ghost from_gives = { λ _ fault. fault ≡ Memory };

    fn from(_error: Memory) -> PartsFault {
        PartsFault::Memory
    }
}

/// The text of a path: bytes, none of them null.
#[derive(Debug, Drop)]
pub struct FilePath {
    bytes: Vec<u8>,
}

impl Model for FilePath {
    ghost Value = { List ℕ };

    ghost view = { λ a. a.bytes.items };

    ghost invariant = { λ a. IsNulFree a.bytes.items };
}

/// The components of a path, and whether slashes follow the last one.
///
/// A path without components, such as `/`, has no trailing slash.
#[derive(Debug, PartialEq, Eq, Drop)]
pub struct Parts {
    pub names: Names,
    pub trailing: bool,
}

/// The kind of the last component of a path (POSIX.1-2017, Base Definitions, 4.13 Pathname
/// Resolution).
#[derive(Clone, Copy, Debug, PartialEq, Eq)]
pub enum LastName {
    /// There is no component: the path leads to the root.
    Absent,
    /// `.`, the directory in itself.
    Dot,
    /// `..`, the directory's parent.
    DotDot,
    /// Any other name.
    Plain,
}

impl Parts {
    /// Returns what the last component is.
    pub fn last(&self) -> LastName
        ensures { result ≡ last_of self.now.names }
    {
        match self.names.as_slice().last() {
            None => LastName::Absent,
            Some(name) if name.is_dot() => LastName::Dot,
            Some(name) if name.is_dot_dot() => LastName::DotDot,
            Some(_) => LastName::Plain,
        }
    }
}

impl FilePath {
    /// Returns the path with these bytes, however many they are. Refuses a null byte. The only
    /// other error is out of memory.
    pub fn new(alloc: Global, bytes: &[u8]) -> Result<FilePath, PathFault>
        ensures path { IfOk result (λ path. path ≡ bytes.now) }
        ensures nul { (result ≡ Err PathFault.NulByte) ↔ IsTrue (has_nul bytes.now) }
    {
        if bytes.contains(&0) {
            return Err(PathFault::NulByte);
        }
        let bytes = bytes.to_vec(alloc).map_err(Memory::from)?;
        Ok(FilePath { bytes })
    }

    /// Returns the bytes of the path.
    pub fn as_bytes(&self) -> &[u8]
        ensures value { result.now ≡ self.now }
        ensures nul_free { IsNulFree self.now }
    {
        self.bytes.as_slice()
    }

    /// Returns the components of the path, and whether slashes follow the last one.
    ///
    /// Refuses an empty path with ENOENT. Then refuses a path of more than 4,095 bytes, or with a
    /// component of more than 255 bytes, with ENAMETOOLONG. The error is out of memory only if the
    /// text has no fault.
    pub fn parts(&self, alloc: Global) -> Result<Parts, PartsFault>
        ensures { IsAnswer (parts_of self.now) result }
    {
        text_parts(alloc, self.as_bytes())
    }

    /// Returns another path with the same bytes. Out of memory is the only error.
    pub fn try_clone(&self) -> Result<FilePath, Memory>
        ensures { IfOk result (λ path. path ≡ self.now) }
    {
        let bytes = self.bytes.clone()?;
        Ok(FilePath { bytes })
    }
}

impl Clone for FilePath {
    ghost is_clone = { λ path copy. copy ≡ path };

    fn clone(&self) -> Result<FilePath, AllocError> {
        let copied = self.bytes.clone()?;
        Ok(FilePath { bytes: copied })
    }
}

impl PartialEq for FilePath {
    ghost eq = { pointwise nat_eq };

    ghost laws = { partial_equiv_from_equiv nat_list_eq_equiv };

    fn eq(&self, other: &FilePath) -> bool {
        self.bytes == other.bytes
    }
}

impl Eq for FilePath {
    ghost laws = { nat_list_eq_equiv };
}

/// Returns the parts of the text of a symbolic link, by the rules for a path. Refuses a null byte
/// with EINVAL.
pub fn target_parts(alloc: Global, target: &[u8]) -> Result<Parts, PartsFault>
    ensures { IsAnswer (target_parts target.now) result }
{
    if target.contains(&0) {
        return Err(PartsFault::Errno(Errno::EINVAL));
    }
    text_parts(alloc, target)
}

/// Returns whether a path begins with a slash.
pub fn begins_with_slash(path: &[u8]) -> bool
    ensures { result ≡ begins_with_slash path.now }
{
    match path.first() {
        Some(byte) => *byte == b'/',
        None => false,
    }
}

/// Returns the parts of the text of a path. The error is out of memory only if the text has no
/// fault.
fn text_parts(alloc: Global, bytes: &[u8]) -> Result<Parts, PartsFault>
    requires { IsNulFree bytes.now }
    ensures { IsAnswer (parts_of bytes.now) result }
{
    if bytes.is_empty() {
        return Err(PartsFault::Errno(Errno::ENOENT));
    }
    if bytes.len() > LONGEST_PATH || has_long_component(bytes) {
        return Err(PartsFault::Errno(Errno::ENAMETOOLONG));
    }
    let names = component_names(alloc, bytes)?;
    let trailing = !names.as_slice().is_empty() && bytes.ends_with(b"/".as_slice());
    Ok(Parts { names, trailing })
}

/// Returns whether a component has more bytes than a name may have.
pub(crate) fn has_long_component(bytes: &[u8]) -> bool
    ensures { result ≡ list_any is_long (components bytes.now) }
{
    if bytes.len() <= LONGEST_NAME {
        return false;
    }
    for piece in Pieces::of(bytes) {
        if piece.len() > LONGEST_NAME {
            return true;
        }
    }
    false
}

/// Returns the components as names. Out of memory is the only error.
pub(crate) fn component_names(alloc: Global, bytes: &[u8]) -> Result<Names, Memory>
    requires nul_free { IsNulFree bytes.now }
    requires short { list_any is_long (components bytes.now) ≡ false }
    ensures { IfOk result (λ names. names ≡ components bytes.now) }
{
    let mut names = Names::new(alloc);
    for piece in Pieces::of(bytes) {
        if !piece.is_empty() {
            names.push(Name::from_bytes(alloc, piece)?)?;
        }
    }
    Ok(names)
}
