// A path whose text is judged: its parts, a front of it, and what comes after a front.
ghost use Rattle.std.specs.Prelude.{◌≡◌, true, Some, IfOk, IfSome};
ghost use Rattle.ft_path.specs.FilePath.{components, parts_of, last_name, last_of};
ghost use Rattle.ft_path.specs.Judged.{EndsInSlash, IsBehind};

use crate::LONGEST_PATH;
use crate::errno::Errno;
use crate::path::{FilePath, LastName, Parts, component_names, has_long_component};
use crate::slashes::Pieces;
use bstr::ByteSlice;
use ft_base::Memory;
use std::alloc::Global;
use std::marker::Model;

/// A path whose text has no fault. Clauses see its parts.
#[derive(Debug, Drop)]
pub struct JudgedPath<'p> {
    bytes: &'p [u8],
}

impl<'p> Model for JudgedPath<'p> {
    ghost use Rattle.std.specs.Prelude.{◌≡◌, false};
    ghost use Rattle.std.specs.List.{list_any};
    ghost use Rattle.ft_path.specs.declared.path.Parts.{Parts};
    ghost use Rattle.ft_path.specs.contracts.path.Parts as parts;
    ghost use Rattle.ft_path.specs.Name.{IsNulFree};
    ghost use Rattle.ft_path.specs.FilePath.{components, has_trailing_slash, is_long};

    ghost Value = { Parts };

    ghost coded = { parts.the_row.coded };

    ghost view = { λ a. record {
      names = components a.bytes.now;
      trailing = has_trailing_slash a.bytes.now;
    } };

    ghost invariant = { λ a. IsNulFree a.bytes.now
        × (list_any is_long (components a.bytes.now) ≡ false) };
}

impl FilePath {
    /// Returns the path, if its text has no fault.
    ///
    /// Refuses the same texts as `parts`, with the same errors, but takes no memory.
    pub fn judged(&self) -> Result<JudgedPath<'_>, Errno>
        ensures { result ≡ parts_of self.now }
    {
        let bytes = self.as_bytes();
        if bytes.is_empty() {
            return Err(Errno::ENOENT);
        }
        if bytes.len() > LONGEST_PATH || has_long_component(bytes) {
            return Err(Errno::ENAMETOOLONG);
        }
        Ok(JudgedPath { bytes })
    }
}

impl<'p> JudgedPath<'p> {
    /// Returns the components, and whether slashes follow the last one. Out of memory is the only
    /// error.
    pub fn parts(&self, alloc: Global) -> Result<Parts, Memory>
        ensures { IfOk result (λ parts. parts ≡ self.now) }
    {
        let names = component_names(alloc, self.bytes)?;
        let trailing = !names.as_slice().is_empty() && self.bytes.ends_with(b"/".as_slice());
        Ok(Parts { names, trailing })
    }

    /// Returns the bytes of the path.
    pub fn as_bytes(&self) -> &'p [u8]
        ensures names { components result.now ≡ self.now.names }
        ensures slash { self.now.trailing ≡ true → EndsInSlash result.now }
    {
        self.bytes
    }

    /// Returns what the last component is.
    pub fn last(&self) -> LastName
        ensures { result ≡ last_of self.now.names }
    {
        let mut last = LastName::Absent;
        for piece in Pieces::of(self.bytes) {
            if !piece.is_empty() {
                last = kind_of(piece);
            }
        }
        last
    }

    /// Returns the front of the path: its text up to and including the last slash. Returns none if
    /// the path has no slash or ends in one, or if another slash comes right before the last. Also
    /// returns none if there is no slash between the first byte and the last slash, as in `/a/b`.
    pub fn front(&self) -> Option<JudgedPath<'p>>
        ensures { IfSome result (λ front. front.trailing ≡ true) }
    {
        let at = self.bytes.rfind_byte(b'/')?;
        if at < 2 || at + 1 == self.bytes.len() || self.bytes[at - 1] == b'/' {
            return None;
        }
        let inner = &self.bytes[1..at];
        if inner.find_byte(b'/').is_none() {
            return None;
        }
        let bytes = &self.bytes[..at + 1];
        Some(JudgedPath { bytes })
    }

    /// Returns what comes after a front that ends in a slash, if the path begins with this front
    /// and a component comes next.
    pub fn behind(&self, front: &[u8]) -> Option<JudgedPath<'p>>
        requires { EndsInSlash front.now }
        ensures { IfSome result (λ rest. IsBehind front.now rest self.now) }
    {
        let rest = self.bytes.strip_prefix(front)?;
        if *rest.first()? == b'/' {
            return None;
        }
        Some(JudgedPath { bytes: rest })
    }
}

/// Returns what a component is, if it is the last one.
fn kind_of(name: &[u8]) -> LastName
    ensures { result ≡ last_name (Some name.now) }
{
    if name == b".".as_slice() {
        return LastName::Dot;
    }
    if name == b"..".as_slice() {
        return LastName::DotDot;
    }
    LastName::Plain
}
