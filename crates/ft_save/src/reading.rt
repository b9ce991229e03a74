// From replies to the report of what the tree holds with which they end.
ghost use Rattle.std.specs.Prelude.{◌≡◌, IfOk, Some, option_map};
ghost use Rattle.percent_encoding.specs.Percent.{percent_decode};
ghost use Rattle.ft_words.specs.Spelling.{parse_u64, words_of};
ghost use Rattle.ft_words.specs.Calls.{both, last_word, only, three};
ghost use Rattle.ft_save.specs.Reading.{attributes_of, count_of, edge_of, ends_a_line, fd_of, file_of, folder_of, is_target, last_tree, link_of, row_of, rows_of, time_of, tree_told};

use crate::row::Row;
use ft_base::{Memory, Sequence};
use ft_cells::{Attributes, Form, MOST_NANOSECONDS, Timestamp};
use ft_path::LONGEST_PATH;
use ft_words::{Lines, Words, parse_i64, parse_mode, parse_u32, parse_u64};
use percent_encoding::percent_decode;
use std::alloc::Global;

/// Returns the rows of the report of the tree with which replies end.
///
/// A report is a line `tree N` and N rows. Nothing may come after it, and its last line has its
/// line feed: replies that were cut off end with no report. Fails only for lack of memory.
pub(crate) fn tree_told(alloc: Global, replies: &[u8]) -> Result<Option<Vec<Row>>, Memory>
    ensures { IfOk result (λ rows. option_map (λ list. list.items) rows ≡ tree_told replies.now) }
{
    if !ends_a_line(replies) {
        return Ok(None);
    }
    last_tree(alloc, Lines::of(replies))
}

/// Returns whether the last byte is a line feed.
fn ends_a_line(bytes: &[u8]) -> bool
    ensures { result ≡ ends_a_line bytes.now }
{
    match bytes.last() {
        None => false,
        Some(byte) => *byte == b'\n',
    }
}

/// Returns the rows of the report with which lines end.
fn last_tree(alloc: Global, lines: Lines<'_>) -> Result<Option<Vec<Row>>, Memory>
    ensures { IfOk result (λ rows. option_map (λ list. list.items) rows ≡ last_tree lines.entry) }
{
    let mut rest = lines;
    let mut last = None;
    while let Some(line) = rest.next() {
        if let Some(count) = count_in(line) {
            if let Some(rows) = rows_in(alloc, count, rest.copy())? {
                last = Some(rows);
            }
        }
    }
    Ok(last)
}

/// Returns the rows of lines, if there are exactly this many.
fn rows_in(alloc: Global, count: u64, lines: Lines<'_>) -> Result<Option<Vec<Row>>, Memory>
    ensures { IfOk result (λ rows. option_map (λ list. list.items) rows
        ≡ rows_of count lines.entry) }
{
    let mut rest = lines;
    let mut rows = Vec::new(alloc);
    let mut left = count;
    while left > 0 {
        left -= 1;
        let Some(line) = rest.next() else {
            return Ok(None);
        };
        let Some(row) = row_in(alloc, line)? else {
            return Ok(None);
        };
        rows.push(row)?;
    }
    if rest.next().is_some() {
        return Ok(None);
    }
    Ok(Some(rows))
}

/// Returns the count of rows on a line.
fn count_in(line: &[u8]) -> Option<u64>
    ensures { result ≡ count_of (words_of line.now) }
{
    let mut words = Words::of(line);
    if words.next()? != b"tree".as_slice() {
        return None;
    }
    parse_u64(words.sole()?)
}

/// Returns the row that a line describes.
fn row_in(alloc: Global, line: &[u8]) -> Result<Option<Row>, Memory>
    ensures { IfOk result (λ row. row ≡ row_of (words_of line.now)) }
{
    let mut words = Words::of(line);
    let Some(word) = words.next() else {
        return Ok(None);
    };
    if word == b"dir".as_slice() {
        Ok(folder_in(words))
    } else if word == b"edge".as_slice() {
        edge_in(alloc, words)
    } else if word == b"file".as_slice() {
        file_in(alloc, words)
    } else if word == b"link".as_slice() {
        link_in(alloc, words)
    } else if word == b"attributes".as_slice() {
        Ok(attributes_in(words))
    } else if word == b"time".as_slice() {
        Ok(time_in(words))
    } else if word == b"fd".as_slice() {
        Ok(fd_in(words))
    } else {
        Ok(None)
    }
}

/// Reads the row `NODE` of a directory.
fn folder_in(words: Words<'_>) -> Option<Row>
    ensures { result ≡ folder_of words.entry }
{
    let node = parse_u64(words.sole()?)?;
    Some(Row::Folder { node })
}

/// Reads the row `FOLDER NAME NODE` of a name.
fn edge_in(alloc: Global, words: Words<'_>) -> Result<Option<Row>, Memory>
    ensures { IfOk result (λ row. row ≡ edge_of words.entry) }
{
    let Some((folder, name, node)) = edge_words(words) else {
        return Ok(None);
    };
    let name = decoded(alloc, name)?;
    Ok(Some(Row::Edge { folder, name, node }))
}

/// Returns the arguments of `FOLDER NAME NODE`, with the name as it is coded.
fn edge_words<'a>(words: Words<'a>) -> Option<(u64, &'a [u8], u64)>
    ensures { option_map (λ e. (e.0, e.1.now, e.2)) result
        ≡ three parse_u64 Some (only parse_u64) words.entry }
{
    let mut words = words;
    let folder = parse_u64(words.next()?)?;
    let name = words.next()?;
    let node = parse_u64(words.sole()?)?;
    Some((folder, name, node))
}

/// Reads the row `NODE SIZE DATA` of a file. The data may be absent with its space.
fn file_in(alloc: Global, words: Words<'_>) -> Result<Option<Row>, Memory>
    ensures { IfOk result (λ row. row ≡ file_of words.entry) }
{
    let Some((node, size, data)) = file_words(words) else {
        return Ok(None);
    };
    let bytes = decoded(alloc, data)?;
    if bytes.len() as u64 != size {
        return Ok(None);
    }
    Ok(Some(Row::File {
        node,
        form: Form::Regular,
        bytes,
    }))
}

/// Returns the arguments of `NODE SIZE DATA`, with the data as they are coded.
fn file_words<'a>(words: Words<'a>) -> Option<(u64, u64, &'a [u8])>
    ensures { option_map (λ f. (f.0, f.1, f.2.now)) result
        ≡ three parse_u64 parse_u64 last_word words.entry }
{
    let mut words = words;
    let node = parse_u64(words.next()?)?;
    let size = parse_u64(words.next()?)?;
    let data = words.sole_or_empty()?;
    Some((node, size, data))
}

/// Reads the row `NODE TARGET` of a symbolic link.
fn link_in(alloc: Global, words: Words<'_>) -> Result<Option<Row>, Memory>
    ensures { IfOk result (λ row. row ≡ link_of words.entry) }
{
    let Some((node, target)) = link_words(words) else {
        return Ok(None);
    };
    let bytes = decoded(alloc, target)?;
    if !is_target(bytes.as_slice()) {
        return Ok(None);
    }
    Ok(Some(Row::File {
        node,
        form: Form::Link,
        bytes,
    }))
}

/// Returns the arguments of `NODE TARGET`, with the target as it is coded.
fn link_words<'a>(words: Words<'a>) -> Option<(u64, &'a [u8])>
    ensures { option_map (λ l. (l.0, l.1.now)) result ≡ both parse_u64 last_word words.entry }
{
    let mut words = words;
    let node = parse_u64(words.next()?)?;
    let target = words.sole_or_empty()?;
    Some((node, target))
}

/// Returns whether a symbolic link can lead there.
fn is_target(bytes: &[u8]) -> bool
    ensures { result ≡ is_target bytes.now }
{
    !bytes.is_empty() && bytes.len() <= LONGEST_PATH && !bytes.contains(&0)
}

/// Reads the row `NODE MODE OWNER GROUP` of attributes.
fn attributes_in(words: Words<'_>) -> Option<Row>
    ensures { result ≡ attributes_of words.entry }
{
    let mut words = words;
    let node = parse_u64(words.next()?)?;
    let mode = parse_mode(words.next()?)?;
    let owner = parse_u32(words.next()?)?;
    let group = parse_u32(words.sole()?)?;
    let attributes = Attributes { mode, owner, group };
    Some(Row::Attributes { node, attributes })
}

/// Reads the row `NODE SECONDS NANOSECONDS` of a time.
fn time_in(words: Words<'_>) -> Option<Row>
    ensures { result ≡ time_of words.entry }
{
    let mut words = words;
    let node = parse_u64(words.next()?)?;
    let seconds = parse_i64(words.next()?)?;
    let nanoseconds = parse_u32(words.sole()?)?;
    if nanoseconds > MOST_NANOSECONDS {
        return None;
    }
    let time = Timestamp {
        seconds,
        nanoseconds,
    };
    Some(Row::Time { node, time })
}

/// Reads the row `FD FILE ACCESS OFFSET` of a descriptor.
fn fd_in(words: Words<'_>) -> Option<Row>
    ensures { result ≡ fd_of words.entry }
{
    let mut words = words;
    parse_u64(words.next()?)?;
    parse_u64(words.next()?)?;
    words.next()?;
    parse_u64(words.sole()?)?;
    Some(Row::Descriptor)
}

/// Returns the bytes that a word codes.
fn decoded(alloc: Global, word: &[u8]) -> Result<Sequence<u8>, Memory>
    ensures { IfOk result (λ bytes. bytes ≡ percent_decode word.now) }
{
    let mut bytes = Vec::new(alloc);
    percent_decode(word).append_to(&mut bytes)?;
    Ok(bytes.into())
}
