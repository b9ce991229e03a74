// The parts of a tree that a directory is to have.
ghost use Rattle.std.specs.Prelude.{◌≡◌};
ghost use Rattle.ft_into.specs.Wishes.{are_given, is_held, is_timed};

use ft_cells::{Attributes, Timestamp};

/// The mode bit S_ISGID. S_ISUID is the only one above it.
const SET_GROUP_ID: u16 = 0o2000;

/// The parts of a tree that a directory is to have.
#[derive(Clone, Copy, Debug, PartialEq, Eq)]
pub struct Wishes {
    /// Whether what the tree does not have is removed.
    pub removes: bool,
    /// Whether owners and groups are set. If they are not set and differ from those of the tree,
    /// S_ISUID and S_ISGID are not set either.
    pub owners: bool,
}

impl Wishes {
    /// Returns whether something with the second attributes needs no change to have the first.
    pub(crate) fn are_given(self, wanted: Attributes, held: Attributes) -> bool
        ensures { result ≡ are_given self wanted held }
    {
        if wanted.owner == held.owner && wanted.group == held.group {
            return wanted.mode == held.mode;
        }
        !self.owners && wanted.mode % SET_GROUP_ID == held.mode
    }
}

/// Returns whether a file with the second time needs no change to have the first. Any time will do
/// if there is none, or if it is before 1970 and thus can't be set.
pub(crate) fn is_timed(wanted: Option<Timestamp>, held: Option<Timestamp>) -> bool
    ensures { result ≡ is_timed wanted held }
{
    match wanted {
        Some(time) => time.seconds < 0 || is_held(time, held),
        None => true,
    }
}

/// Returns whether a file has this time.
fn is_held(wanted: Timestamp, held: Option<Timestamp>) -> bool
    ensures { result ≡ is_held wanted held }
{
    match held {
        Some(held) => wanted.seconds == held.seconds && wanted.nanoseconds == held.nanoseconds,
        None => false,
    }
}
