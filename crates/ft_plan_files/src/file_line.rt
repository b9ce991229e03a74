// The lines of a plan that carry a file of the disk.
ghost use Rattle.std.specs.Prelude.{◌≡◌, IfOk};
ghost use Rattle.ft_words.specs.Calls.{Reads};
ghost use Rattle.ft_words.specs.Spelling.{words_of};
ghost use Rattle.ft_plan_files.specs.FileLines.{carried, file_line, tried_line};

use ft_base::Memory;
use ft_path::FilePath;
use ft_transfer::{Direction, parse_direction, parse_path_file};
use ft_words::{ParseError, Words};
use std::alloc::Global;

/// A line of a plan that carries a file of the disk: `put PATH @FILE` or `get PATH @FILE`.
#[derive(Drop)]
pub(crate) struct FileLine {
    /// Whether `try` comes before it, and so before each of its steps.
    pub(crate) tried: bool,
    /// Its direction.
    pub(crate) direction: Direction,
    /// The file of the tree.
    pub(crate) path: FilePath,
    /// The file of the disk.
    pub(crate) file: FilePath,
}

/// Returns the file that a line without a carriage return at its end carries, if it carries one.
pub(crate) fn file_line_in(alloc: Global, text: &[u8]) -> Result<Option<FileLine>, Memory>
    ensures { IfOk result (λ found. found ≡ file_line (words_of text.now)) }
{
    match file_line(alloc, Words::of(text)) {
        Ok(line) => Ok(Some(line)),
        Err(ParseError::Misspelt) => Ok(None),
        Err(ParseError::NoMemory) => Err(Memory),
    }
}

/// Reads the words of a line that carries a file. It may be tried.
fn file_line(alloc: Global, words: Words<'_>) -> Result<FileLine, ParseError>
    ensures { Reads result (file_line words.entry) }
{
    let mut words = words;
    let word = words.next().ok_or(ParseError::Misspelt)?;
    if word == b"try".as_slice() {
        return tried_line(alloc, words);
    }
    carried(alloc, false, word, words)
}

/// Reads the words after `try`.
fn tried_line(alloc: Global, words: Words<'_>) -> Result<FileLine, ParseError>
    ensures { Reads result (tried_line words.entry) }
{
    let mut words = words;
    let word = words.next().ok_or(ParseError::Misspelt)?;
    carried(alloc, true, word, words)
}

/// Returns the line that a direction begins. It is tried or not.
fn carried(
    alloc: Global,
    tried: bool,
    word: &[u8],
    words: Words<'_>,
) -> Result<FileLine, ParseError>
    ensures { Reads result (carried tried word.now words.entry) }
{
    let direction = parse_direction(word).ok_or(ParseError::Misspelt)?;
    let (path, file) = parse_path_file(alloc, words)?;
    Ok(FileLine {
        tried,
        direction,
        path,
        file,
    })
}
