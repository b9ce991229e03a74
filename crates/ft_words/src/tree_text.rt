// The text of what a tree holds.
ghost use Rattle.std.specs.Prelude.{◌≡◌, ◌++◌, ℕ, List, Some, IfOk};
ghost use Rattle.std.specs.FinMap as finite;
ghost use Rattle.ft_words.specs.Texts.{tree_text, rows_text, row_text, lines_text, is_link, link_in, access_text, flag_text};

use crate::modes::{AttributesText, TimeText};
use crate::text::{CodedArgument, PercentCoded};
use ft_base::{Memory, Table};
use ft_tree::{AccessMode, Entry, Form, Node, TreeRow};
use std::alloc::Global;
use std::fmt;
use std::marker::Model;

/// The contents of a tree, row by row. Clauses see its text.
#[derive(Drop)]
pub struct TreeText<'a> {
    rows: &'a [TreeRow],
    // The numbers of its symbolic links.
    links: Table<()>,
}

impl<'a> Model for TreeText<'a> {
    ghost Value = { List ℕ };

    ghost view = { λ text. rows_text (finite.contains_key text.links) text.rows.now };
}

impl<'a> TreeText<'a> {
    /// Returns the text of these rows. Takes memory only if there are symbolic links.
    pub fn of(alloc: Global, rows: &'a [TreeRow]) -> Result<TreeText<'a>, Memory>
        ensures { IfOk result (λ text. text ≡ tree_text rows.entry.now) }
    {
        let links = links_of(alloc, rows)?;
        Ok(TreeText { rows, links })
    }
}

impl fmt::Display for TreeText<'_> {
    ghost output = { λ text. Some text };

    fn fmt<W: fmt::Write>(&self, f: &mut fmt::Formatter<W>) -> fmt::Result {
        let lines = RowLines {
            rows: self.rows,
            links: &self.links,
        };
        write!(f, "tree {}{lines}", self.rows.len())
    }
}

/// Returns the numbers of the symbolic links to which edges lead.
fn links_of(alloc: Global, rows: &[TreeRow]) -> Result<Table<()>, Memory>
    ensures { IfOk result (λ links. (number : ℕ)
        → finite.contains_key links number ≡ is_link rows.now number) }
{
    let mut links = Table::new(alloc);
    for row in rows {
        if let Some(link) = link_in(row) {
            links.insert(link, ())?;
        }
    }
    Ok(links)
}

/// Returns the number of the symbolic link to which an edge leads.
fn link_in(row: &TreeRow) -> Option<u64>
    ensures { result ≡ link_in row.now }
{
    match row {
        TreeRow::Edge {
            node: Node::File(Form::Link, number),
            ..
        } => Some(*number),
        _ => None,
    }
}

/// Rows, each after a line feed.
#[derive(Clone, Copy)]
struct RowLines<'a> {
    rows: &'a [TreeRow],
    links: &'a Table<()>,
}

impl fmt::Display for RowLines<'_> {
    ghost output = { λ lines. Some
        (lines_text (row_text (finite.contains_key lines.links.now)) lines.rows.now) };

    fn fmt<W: fmt::Write>(&self, f: &mut fmt::Formatter<W>) -> fmt::Result {
        let links = self.links;
        for row in self.rows {
            write!(f, "\n{}", RowText { row, links })?;
        }
        Ok(())
    }
}

/// One row.
#[derive(Clone, Copy)]
struct RowText<'a> {
    row: &'a TreeRow,
    links: &'a Table<()>,
}

impl fmt::Display for RowText<'_> {
    ghost output = { λ text. Some (row_text (finite.contains_key text.links.now) text.row.now) };

    fn fmt<W: fmt::Write>(&self, f: &mut fmt::Formatter<W>) -> fmt::Result {
        match self.row {
            TreeRow::Dir { number } => write!(f, "dir {number}"),
            TreeRow::Edge {
                entry: Entry { dir, name },
                node,
            } => write!(
                f,
                "edge {dir} {} {}",
                PercentCoded(name.as_bytes()),
                node.number()
            ),
            TreeRow::File { number, bytes, .. } if self.links.contains(*number) => {
                write!(f, "link {number}{}", CodedArgument(bytes.as_slice()))
            }
            TreeRow::File {
                number,
                size,
                bytes,
            } => write!(f, "file {number} {size}{}", CodedArgument(bytes.as_slice())),
            TreeRow::Attributes { number, attributes } => {
                write!(f, "attributes {number} {}", AttributesText(*attributes))
            }
            TreeRow::Time { file, time } => write!(f, "time {file} {}", TimeText(*time)),
            TreeRow::Fd {
                fd,
                file,
                access,
                append,
                offset,
            } => write!(
                f,
                "fd {fd} {file} {}{} {offset}",
                access_text(*access),
                flag_text(*append, "a")
            ),
        }
    }
}

/// Returns how a file is open.
pub(crate) fn access_text(access: AccessMode) -> &'static str
    ensures { result.now ≡ access_text access }
{
    match access {
        AccessMode::ReadOnly => "r",
        AccessMode::WriteOnly => "w",
        AccessMode::ReadWrite => "rw",
    }
}

/// Returns a letter, if a flag is set.
pub(crate) fn flag_text(is_set: bool, letter: &'static str) -> &'static str
    ensures { result.now ≡ flag_text is_set letter.entry.now }
{
    if is_set { letter } else { "" }
}
