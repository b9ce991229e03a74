// Why words could not be read.
use ft_base::Memory;
use std::alloc::AllocError;

/// Why words could not be read.
#[derive(Clone, Copy, Debug, PartialEq, Eq)]
pub enum ParseError {
    /// They are not a valid request.
    Misspelt,
    /// There was no memory.
    NoMemory,
}

impl From<Memory> for ParseError {
    ghost use Rattle.std.specs.Prelude.{◌≡◌};
    ghost use Rattle.ft_words.specs.declared.parse_error.ParseError.TheVariants.{NoMemory};

    ghost from_gives = { λ _ unread. unread ≡ NoMemory };

    fn from(_error: Memory) -> ParseError {
        ParseError::NoMemory
    }
}

impl From<AllocError> for ParseError {
    ghost use Rattle.std.specs.Prelude.{◌≡◌};
    ghost use Rattle.ft_words.specs.declared.parse_error.ParseError.TheVariants.{NoMemory};

    ghost from_gives = { λ _ unread. unread ≡ NoMemory };

    fn from(_error: AllocError) -> ParseError {
        ParseError::NoMemory
    }
}
