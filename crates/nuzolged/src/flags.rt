// The flags of an open, in one word.
ghost use Rattle.std.specs.Prelude.{◌≡◌};
ghost use Rattle.nuzolged.specs.Flags.{access_of, has_flag, opening_of};

use ft_tree::AccessMode;

/// The bits of the access: those of `O_ACCMODE`.
const ACCESS: u32 = 3;

/// It makes the file if it is missing: `O_CREAT` of Linux.
const CREATE: u32 = 0o100;

/// The file must be missing: `O_EXCL`.
const EXCL: u32 = 0o200;

/// It cuts the file to nothing: `O_TRUNC`.
const TRUNC: u32 = 0o1000;

/// Each write is at the end of the file: `O_APPEND`.
const APPEND: u32 = 0o2000;

/// All bits that a flag has.
const FLAGS: u32 = 0o3303;

/// How a file is opened.
#[derive(Clone, Copy, Debug, PartialEq, Eq)]
pub(crate) struct Opening {
    pub(crate) access: AccessMode,
    pub(crate) create: bool,
    pub(crate) excl: bool,
    pub(crate) trunc: bool,
    pub(crate) append: bool,
}

/// Returns the meaning of the flags of a word, if they are those of an open.
pub(crate) fn opening_of(flags: u32) -> Option<Opening>
    ensures { result ≡ opening_of flags }
{
    if flags & FLAGS != flags {
        return None;
    }
    let access = access_of(flags & ACCESS)?;
    Some(Opening {
        access,
        create: has_flag(flags, CREATE),
        excl: has_flag(flags, EXCL),
        trunc: has_flag(flags, TRUNC),
        append: has_flag(flags, APPEND),
    })
}

/// Returns whether a word has a flag.
fn has_flag(flags: u32, flag: u32) -> bool
    ensures { result ≡ has_flag flags flag }
{
    flags & flag != 0
}

/// Returns the access of a number.
fn access_of(number: u32) -> Option<AccessMode>
    ensures { result ≡ access_of number }
{
    match number {
        0 => Some(AccessMode::ReadOnly),
        1 => Some(AccessMode::WriteOnly),
        2 => Some(AccessMode::ReadWrite),
        _ => None,
    }
}
