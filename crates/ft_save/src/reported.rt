// The tree of a report, as a source.
ghost use Rattle.std.specs.Prelude.{◌≡◌, ◌⊎◌, map, IfErr, IfOk};
ghost use Rattle.ft_copy.specs.Told.{HasNoName};
ghost use Rattle.ft_save.specs.Trees.{file_facts, found_as, listed, row_id};

use crate::index::{Content, Edge, Index};
use ft_cells::{DEFAULT_LINKS, Form, Kind};
use ft_copy::{
    CopyFault, FileFacts, FileId, FolderEntry, Found, FoundFile, FoundFolder, Given, Leading,
    Listing, Opened, ROOT, Source, name_of,
};
use std::alloc::Global;

/// The tree that a report describes.
#[derive(Clone, Copy)]
pub struct Reported<'a> {
    pub(crate) index: &'a Index,
}

impl<'a> Source for Reported<'a> {
    ghost use Rattle.std.specs.Prelude.{List};
    ghost use Rattle.ft_save.specs.declared.row.Row.{Row};
    ghost use Rattle.ft_save.specs.Trees.{Indexes, Tells};

    type File = &'a [u8];

    ghost tells = { λ reported told. (rows : List Row) → Indexes reported.index.now rows
        → Tells rows told };

    fn names(&self, _path: &[u8], node: u64) -> Result<Listing, CopyFault> {
        let alloc = self.index.alloc;
        let names = match self.index.edges.get(node) {
            Some(edges) => names_of(alloc, edges.as_slice())?,
            None => Vec::new(alloc),
        };
        let id = id_of(node);
        Ok(Listing { id, names })
    }

    fn look(&self, path: &[u8], node: u64) -> Result<Found, CopyFault> {
        if !self.index.has_one_row(node) {
            return Err(CopyFault::BadTree);
        }
        let more = self.index.named.get(node).copied().unwrap_or(false);
        if let Some(content) = self.index.files.get(node) {
            if path.is_empty() || self.index.has_names(node) {
                return Err(CopyFault::BadTree);
            }
            let given = Given {
                attributes: self.index.attributes_of(Kind::File, node),
                time: self.index.times.get(node).copied(),
            };
            return Ok(found(node, more, content, given));
        }
        if more || path.is_empty() != (node == ROOT) {
            return Err(CopyFault::BadTree);
        }
        Ok(Found::Folder(FoundFolder {
            id: id_of(node),
            attributes: self.index.attributes_of(Kind::Dir, node),
        }))
    }

    fn open(&self, _path: &[u8], node: u64) -> Result<Opened<&'a [u8]>, CopyFault> {
        match self.index.files.get(node) {
            Some(content) => Ok(Opened {
                id: id_of(node),
                file: content.bytes.as_slice(),
            }),
            None => Err(CopyFault::Read),
        }
    }

    fn read_link(&self, _path: &[u8], node: u64) -> Result<Leading, CopyFault> {
        match self.index.files.get(node) {
            Some(content) => {
                let to = Vec::from_slice(self.index.alloc, content.bytes.as_slice())?;
                Ok(Leading {
                    id: id_of(node),
                    to: to.into(),
                })
            }
            None => Err(CopyFault::Read),
        }
    }

    fn omits(&self, _path: &[u8]) -> Result<bool, CopyFault> {
        Ok(false)
    }
}

/// Returns what distinguishes something from all else: its number.
fn id_of(node: u64) -> FileId
    ensures { result ≡ row_id node }
{
    FileId {
        device: 0,
        number: node,
    }
}

/// Returns a file as it is found, which may have more than one name.
fn found(node: u64, more: bool, content: &Content, given: Given) -> Found
    ensures { result ≡ found_as content.now.form
        (record { facts = file_facts node more content.now.bytes; given = given }) }
{
    let facts = FileFacts {
        id: id_of(node),
        links: if more { DEFAULT_LINKS } else { 1 },
        size: content.bytes.len() as u64,
    };
    match content.form {
        Form::Regular => Found::File(FoundFile { facts, given }),
        Form::Link => Found::Symlink(facts),
    }
}

/// Returns the names that are listed. Refuses bytes that are no name.
fn names_of(alloc: Global, edges: &[Edge]) -> Result<Vec<FolderEntry>, CopyFault>
    ensures ok { IfOk result (λ names. names.items ≡ map listed edges.now) }
    ensures err { IfErr result
        (λ trouble. (trouble ≡ CopyFault.Memory) ⊎ ((trouble ≡ CopyFault.BadName)
        × HasNoName (map listed edges.now))) }
{
    let mut names = Vec::new(alloc);
    let mut rest = edges;
    while let Some((edge, more)) = rest.split_first() {
        let name = name_of(alloc, edge.name.as_slice())?;
        names.push(FolderEntry {
            name,
            node: edge.node,
        })?;
        rest = more;
    }
    Ok(names)
}
