// The limits of a copy.
ghost use Rattle.std.specs.Prelude.{◌≡◌};
ghost use Rattle.ft_copy.specs.Kept.{kept_attributes, kept_given};

use crate::found::Given;
use ft_cells::Attributes;

/// The mode bit S_ISGID. S_ISUID is the only bit above it.
const SET_GROUP_ID: u16 = 0o2000;

/// The limits of what may be copied of a tree.
#[derive(Clone, Copy, Debug, PartialEq, Eq)]
pub struct CopyLimits {
    /// The most bytes that a file may have.
    pub file_size: u64,
    /// The most names that a file or a symbolic link may have.
    pub links: u64,
    /// Whether a mode keeps its bits S_ISUID and S_ISGID. If not, they are left out.
    pub set_id: bool,
}

impl CopyLimits {
    /// Returns these attributes as a copy has them.
    pub(crate) fn kept_attributes(self, attributes: Attributes) -> Attributes
        ensures { result ≡ kept_attributes self attributes }
    {
        if self.set_id {
            return attributes;
        }
        Attributes {
            mode: attributes.mode % SET_GROUP_ID,
            ..attributes
        }
    }

    /// Returns what the copy of a file is given, if the file has this.
    pub(crate) fn kept_given(self, given: Given) -> Given
        ensures { result ≡ kept_given self given }
    {
        Given {
            attributes: self.kept_attributes(given.attributes),
            time: given.time,
        }
    }
}
