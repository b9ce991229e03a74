// The directory of the tree that is to hold everything.
ghost use Rattle.std.specs.Prelude.{◌≡◌, IfErr, IfOk, None, Some};
ghost use Rattle.clap.specs.Words.{found_of, rows_of};
ghost use Rattle.ft_command.specs.Places.{HasBadPlace, TellsPlace, place_of};

use clap::ArgMatches;
use ft_path::{FilePath, PathFault, begins_with_slash};
use percent_encoding::percent_decode;
use std::alloc::{AllocError, Global};

/// Why there is no path.
#[derive(Clone, Copy, Debug, PartialEq, Eq)]
pub(crate) enum PlaceFault {
    /// There was not enough memory.
    Memory,
    /// The word codes no absolute path, or one whose text has a fault.
    NoPlace,
}

impl From<AllocError> for PlaceFault {
    ghost use Rattle.std.specs.Prelude.{◌≡◌};
    ghost use Rattle.ft_command.specs.declared.place.PlaceFault.TheVariants.{Memory};

    ghost from_gives = { λ _ fault. fault ≡ Memory };

    /// Returns `PlaceFault::Memory`.
    fn from(_error: AllocError) -> PlaceFault {
        PlaceFault::Memory
    }
}

/// Returns the path of the directory that is named, if one is.
pub(crate) fn asked_place(alloc: Global, found: &ArgMatches) -> Result<Option<FilePath>, PlaceFault>
    ensures ok { IfOk result (λ at. TellsPlace (rows_of (found_of found.now)) at) }
    ensures err { IfErr result
        (λ fault. fault ≡ PlaceFault.NoPlace → HasBadPlace (rows_of (found_of found.now))) }
{
    match found.get_str("at") {
        None => Ok(None),
        Some(word) => {
            let path = place_of(alloc, word.as_bytes())?;
            Ok(Some(path))
        }
    }
}

/// Returns the absolute path that a word codes, as in a script. Its text must have no fault.
fn place_of(alloc: Global, word: &[u8]) -> Result<FilePath, PlaceFault>
    ensures ok { IfOk result (λ path. place_of word.now ≡ Some path) }
    ensures err { IfErr result (λ fault. fault ≡ PlaceFault.NoPlace → place_of word.now ≡ None) }
{
    let bytes = percent_decode(word).into_cow(alloc)?;
    let path = match FilePath::new(alloc, bytes.as_slice()) {
        Ok(path) => path,
        Err(PathFault::Memory) => return Err(PlaceFault::Memory),
        Err(PathFault::NulByte) => return Err(PlaceFault::NoPlace),
    };
    if begins_with_slash(path.as_bytes()) && path.judged().is_ok() {
        Ok(path)
    } else {
        Err(PlaceFault::NoPlace)
    }
}
