// Open file descriptions.
/// The mode in which a file is open (POSIX.1-2017, Base Definitions, fcntl.h: O_RDONLY, O_WRONLY
/// and O_RDWR).
#[derive(Clone, Copy, Debug, PartialEq, Eq)]
pub enum AccessMode {
    /// The file is open only for reading.
    ReadOnly,
    /// The file is open only for writing.
    WriteOnly,
    /// The file is open for both reading and writing.
    ReadWrite,
}

impl AccessMode {
    ghost use Rattle.std.specs.Prelude.{◌≡◌};
    ghost use Rattle.ft_cells.specs.Modes.{can_read, can_write};

    /// Returns whether the mode allows reading.
    pub fn can_read(self) -> bool
        ensures { result ≡ can_read self }
    {
        match self {
            AccessMode::ReadOnly | AccessMode::ReadWrite => true,
            AccessMode::WriteOnly => false,
        }
    }

    /// Returns whether the mode allows writing.
    pub fn can_write(self) -> bool
        ensures { result ≡ can_write self }
    {
        match self {
            AccessMode::WriteOnly | AccessMode::ReadWrite => true,
            AccessMode::ReadOnly => false,
        }
    }
}

/// An open file description (POSIX.1-2017, Base Definitions, 3.258 Open File Description).
#[derive(Clone, Copy, Debug, PartialEq, Eq)]
pub struct OpenFile {
    /// The number of the file.
    pub file: u64,
    /// The mode in which the file is open.
    pub access: AccessMode,
    /// Whether each write goes to the end of the file (O_APPEND).
    pub append: bool,
    /// The offset, in bytes, of the next read or write.
    pub offset: u64,
}
