// The rows of a report, by the numbers that they describe.
ghost use Rattle.std.specs.Prelude.{◌≡◌, List, [], ◌∷◌, OnOk, IfOk};
ghost use Rattle.std.specs.Option.{unwrap_or};
ghost use Rattle.std.specs.FinMap as finite;
ghost use Rattle.ft_save.specs.declared.row.Row.{Row};
ghost use Rattle.ft_save.specs.Trees.{Indexes, PutsName};

use crate::row::Row;
use ft_base::{Memory, Sequence, Table};
use ft_cells::{Attributes, Form, Kind, Timestamp};
use std::alloc::Global;

/// A name in a directory, which may be any bytes, and what it leads to.
#[derive(Drop)]
pub(crate) struct Edge {
    pub(crate) name: Sequence<u8>,
    pub(crate) node: u64,
}

/// The contents of a file; if it is a symbolic link, where it leads.
#[derive(Drop)]
pub(crate) struct Content {
    pub(crate) form: Form,
    pub(crate) bytes: Sequence<u8>,
}

/// The rows of a report, by the numbers that they describe.
#[derive(Drop)]
pub(crate) struct Index {
    pub(crate) alloc: Global,
    // what has a row of its own, of a directory or a file, and whether it has more than one
    pub(crate) own: Table<bool>,
    // the names in each directory
    pub(crate) edges: Table<Sequence<Edge>>,
    // what each file holds
    pub(crate) files: Table<Content>,
    // what has a name, and whether it has more than one
    pub(crate) named: Table<bool>,
    // the mode and the owners of what has a row of them
    pub(crate) attributes: Table<Attributes>,
    // the time of each file that has one
    pub(crate) times: Table<Timestamp>,
}

impl Index {
    ghost use Rattle.std.specs.Prelude.{List};
    ghost use Rattle.ft_save.specs.declared.row.Row.{Row};
    ghost use Rattle.ft_cells.specs.Attributes.{attributes_from};
    ghost use Rattle.ft_save.specs.Trees.{Indexes, attributes_in, has_names, has_one_row};

    /// Returns whether there is exactly one row of this number, of a directory or a file.
    pub(crate) fn has_one_row(&self, node: u64) -> bool
        ensures { (rows : List Row) → Indexes self.now rows → result ≡ has_one_row rows node }
    {
        match self.own.get(node) {
            None => false,
            Some(more) => !*more,
        }
    }

    /// Returns whether there are names in it.
    pub(crate) fn has_names(&self, node: u64) -> bool
        ensures { (rows : List Row) → Indexes self.now rows → result ≡ has_names rows node }
    {
        match self.edges.get(node) {
            None => false,
            Some(edges) => !edges.is_empty(),
        }
    }

    /// Returns the attributes of a directory or file of this kind.
    pub(crate) fn attributes_of(&self, kind: Kind, node: u64) -> Attributes
        ensures { (rows : List Row) → Indexes self.now rows
            → result ≡ attributes_from kind (attributes_in rows node) }
    {
        match self.attributes.get(node) {
            None => Attributes::of(kind),
            Some(attributes) => *attributes,
        }
    }
}

/// Returns an index of rows.
pub(crate) fn index_of(alloc: Global, rows: Vec<Row>) -> Result<Index, Memory>
    ensures { IfOk result (λ index. Indexes index rows.items) }
{
    let mut index = Index {
        alloc,
        own: Table::new(alloc),
        edges: Table::new(alloc),
        files: Table::new(alloc),
        named: Table::new(alloc),
        attributes: Table::new(alloc),
        times: Table::new(alloc),
    };
    let mut rows = rows;
    while let Some(row) = rows.pop() {
        add(&mut index, row)?;
    }
    Ok(index)
}

/// Adds a row, in front of those that were added before.
fn add(index: &mut Index, row: Row) -> Result<(), Memory>
    ensures { (rows : List Row) → Indexes index.old rows
        → OnOk result (Indexes index.new (row ∷ rows)) }
{
    match row {
        Row::Folder { node } => add_own(index, node),
        Row::Edge { folder, name, node } => {
            let more = index.named.contains(node);
            index.named.insert(node, more)?;
            add_edge(index, folder, Edge { name, node })
        }
        Row::File { node, form, bytes } => {
            index.files.insert(node, Content { form, bytes })?;
            add_own(index, node)
        }
        Row::Attributes { node, attributes } => {
            index.attributes.insert(node, attributes)?;
            Ok(())
        }
        Row::Time { node, time } => {
            index.times.insert(node, time)?;
            Ok(())
        }
        Row::Descriptor => Ok(()),
    }
}

/// Notes that there is a row, or one more, of a directory or a file.
fn add_own(index: &mut Index, node: u64) -> Result<(), Memory>
    ensures { OnOk result (index.new
        ≡ record index.old {
          own = finite.insert index.old.own node
              (finite.contains_key index.old.own node);
        }) }
{
    let more = index.own.contains(node);
    index.own.insert(node, more)?;
    Ok(())
}

/// Puts a name after those of its directory.
fn add_edge(index: &mut Index, folder: u64, edge: Edge) -> Result<(), Memory>
    ensures { OnOk result (PutsName index.old folder edge index.new) }
{
    let mut edges = take_edges(index, folder);
    edges.push(edge)?;
    index.edges.insert(folder, edges.into())?;
    Ok(())
}

/// Removes the names of a directory, and returns them.
fn take_edges(index: &mut Index, folder: u64) -> Vec<Edge>
    ensures taken { result.items ≡ unwrap_or (finite.get index.old.edges folder) [] }
    ensures rest { index.new ≡ record index.old { edges = finite.remove index.old.edges folder } }
{
    match index.edges.remove(folder) {
        Some(edges) => edges.into_vec(),
        None => Vec::new(index.alloc),
    }
}
