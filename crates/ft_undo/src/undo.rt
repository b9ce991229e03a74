// How the edits of a call are made, and undone.
ghost use Rattle.std.specs.Prelude.{◌≡◌, [], length, map, IfOk, OnOk, OnErr};
ghost use Rattle.ft_posix.specs.Stored.{put, put_all};
ghost use Rattle.ft_laws.specs.Effects.{before};
ghost use Rattle.ft_cells.specs.Cells.{contents_of, timed, put_entry, put_dir_attributes, put_file_attributes, put_contents, HasDirPlace, HasFilePlace};
ghost use Rattle.ft_posix.specs.declared.intent.Edit.TheVariants.{Entry as EntryEdit, DirAttributes, FileAttributes, Time};
ghost use Rattle.ft_posix.specs.Accesses.{written_cell};
ghost use Rattle.ft_posix.specs.Posix.{posix};
ghost use Rattle.ft_posix.specs.Computes.{write_of, writes_of};
ghost use Rattle.ft_posix.specs.Edits.{CanEdit, CanEditAll, Apart};
ghost use Rattle.ft_undo.specs.Undone.{back_of, given_back, restore, restored, CanGiveBack, CanGiveAllBack, CanRestoreAll, AreAsLeft, MayRevert, IsApplied};

use crate::bytes_undo::BytesUndo;
use crate::entry_was::EntryWas;
use crate::time_undo::TimeUndo;
use ft_base::Memory;
use ft_calls::{Edit, Edits, Intent};
use ft_tree::{Attributes, Cell, Entry, HintedFile, Node, OpenFile, Rare, Timestamp, Tree};
use std::alloc::Global;
use std::marker::Model;

/// A cell that was set, with what was in its place before, or nothing if the place was new.
#[derive(Drop)]
pub enum BeforeImage {
    /// The node to which an entry led.
    Entry {
        entry: Entry,
        was: EntryWas,
    },
    /// The parent of a directory: the directory that had its entry.
    Parent {
        dir: u64,
        was: Option<Option<u64>>,
    },
    /// How many entries named a file.
    Links {
        file: u64,
        was: Option<u64>,
    },
    /// The bytes that a change of a file destroyed, with the time that they had.
    Bytes {
        file: u64,
        undo: BytesUndo,
    },
    /// The open file description of a descriptor.
    Open {
        fd: u64,
        was: Option<Option<OpenFile>>,
    },
    /// The attributes that a directory had, as they were kept.
    DirAttributes {
        dir: u64,
        was: Rare<Attributes>,
    },
    /// The attributes that a file had, as they were kept.
    FileAttributes {
        file: u64,
        was: Rare<Attributes>,
    },
    /// The time that a file's bytes had.
    Time {
        file: u64,
        undo: TimeUndo,
    },
}

/// The undo of a call: the before-images of its edits. Undoing takes no memory. The undo of a call
/// that changed nothing has no room, and any other has exactly the room for its edits.
#[derive(Drop)]
pub struct Undo {
    items: Vec<BeforeImage>,
}

impl Model for Undo {
    ghost use Rattle.std.specs.Prelude.{List};
    ghost use Rattle.ft_undo.specs.declared.undo.BeforeImage.{BeforeImage};

    ghost Value = { List BeforeImage };

    ghost view = { λ a. a.items.items };
}

impl Undo {
    /// Returns an undo without before-images. Takes no memory.
    pub(crate) fn new(alloc: Global) -> Undo
        ensures { result ≡ [] }
    {
        Undo {
            items: Vec::new(alloc),
        }
    }

    /// Makes edits one after another, and keeps their before-images. If there is not enough memory,
    /// it undoes the edits that were made and keeps nothing.
    pub(crate) fn fill(&mut self, tree: &mut Tree, edits: &Edits<'_>) -> Result<(), Memory>
        requires empty { self.old ≡ [] }
        requires places { CanEditAll tree.old edits.now }
        ensures { IsApplied tree.old edits.now tree.new self.new result }
    {
        let alloc = *self.items.allocator();
        self.items.reserve_exact(edits.len())?;
        while let Some(edit) = edits.get(self.items.len()) {
            match set(alloc, tree, edit) {
                Ok(back) => self.items.push_reserved(back),
                Err(memory) => {
                    unwind(tree, &mut self.items);
                    return Err(memory);
                }
            }
        }
        Ok(())
    }

    /// Undoes the edits that were just made, the last one first, and removes the places that were
    /// new. It serves a call that runs out of memory: nothing has changed then. Takes no memory.
    pub fn roll_back(self, tree: &mut Tree)
        requires { CanRestoreAll tree.old self }
        ensures { tree.new ≡ restored tree.old self }
    {
        let mut undo = self;
        unwind(tree, &mut undo.items);
    }
}

/// Makes the planned edits of a call, and returns their undo. Each written cell has its place then.
/// `revert` may apply the undo if each of these cells has its place and holds what the edits left
/// in it. Right after the edits, `Undo::roll_back` can undo them as if they had never been made.
///
/// Out of memory is the only refusal. It undoes the edits that were made, and nothing has changed.
pub fn apply(alloc: Global, tree: &mut Tree, intent: Intent<'_>) -> Result<Undo, Memory>
    requires places { CanEditAll tree.old intent.edits }
    requires apart { Apart intent.edits }
    ensures made { OnOk result (tree.new
        ≡ put_all tree.old (writes_of tree.old intent.entry.edits)) }
    ensures refused { OnErr result (tree.new ≡ tree.old) }
    ensures left { OnOk result
        (AreAsLeft tree.new tree.new (map written_cell (writes_of tree.old intent.entry.edits))) }
    ensures inverse { IfOk result
        (λ undo. map given_back undo
        ≡ before posix tree.old (writes_of tree.old intent.entry.edits)) }
    ensures may_revert { IfOk result
        (λ undo. MayRevert tree.new (writes_of tree.old intent.entry.edits) undo) }
    ensures can_take_back { IfOk result (λ undo. CanRestoreAll tree.new undo) }
    ensures taken_back { IfOk result (λ undo. restored tree.new undo ≡ tree.old) }
{
    let mut undo = Undo::new(alloc);
    undo.fill(tree, &intent.edits)?;
    Ok(undo)
}

/// Undoes a call: each cell that it wrote has its value from before the call, and no other cell
/// changes. Takes no memory: a place that the call made stays, and is empty.
pub fn revert(tree: &mut Tree, undo: Undo)
    requires { CanGiveAllBack tree.old undo }
    ensures { tree.new ≡ put_all tree.old (map given_back undo) }
{
    let Undo { items } = undo;
    // (the edits are of different cells, so any order would do)
    for back in items {
        give_back(tree, back);
    }
}

/// Makes one edit, and returns its before-image. If there is not enough memory, nothing has
/// changed.
fn set(alloc: Global, tree: &mut Tree, edit: &Edit<'_>) -> Result<BeforeImage, Memory>
    requires { CanEdit tree.old edit.now }
    ensures after { OnOk result (tree.new ≡ put tree.old (write_of tree.old edit.now)) }
    ensures back { IfOk result (λ back. back ≡ back_of tree.old edit.now) }
    ensures err { OnErr result (tree.new ≡ tree.old) }
{
    match edit {
        Edit::Entry { entry, to } => set_entry(tree, entry, *to),
        Edit::Parent { dir, to } => {
            let was = tree.set_parent(*dir, *to)?;
            Ok(BeforeImage::Parent { dir: *dir, was })
        }
        Edit::Links { file, to } => {
            let was = tree.set_links(*file, *to)?;
            Ok(BeforeImage::Links { file: *file, was })
        }
        Edit::Overwrite { file, at, bytes } => {
            let undo = BytesUndo::write(alloc, tree, file, *at, bytes)?;
            let file = file.number();
            Ok(BeforeImage::Bytes { file, undo })
        }
        Edit::Resize { file, size } => {
            let undo = BytesUndo::resize(alloc, tree, file, *size)?;
            let file = file.number();
            Ok(BeforeImage::Bytes { file, undo })
        }
        Edit::Open { fd, to } => {
            let was = tree.set_open_file(*fd, *to)?;
            Ok(BeforeImage::Open { fd: *fd, was })
        }
        Edit::DirAttributes { dir, to } => set_dir_attributes(tree, *dir, to),
        Edit::FileAttributes { file, to } => set_file_attributes(tree, file, to),
        Edit::Time { file, to } => set_time(tree, file, to),
    }
}

/// Sets what an entry leads to, and returns the before-image. If there is not enough memory,
/// nothing has changed.
fn set_entry(tree: &mut Tree, entry: &Entry, to: Option<Node>) -> Result<BeforeImage, Memory>
    requires { HasDirPlace tree.old entry.now.dir }
    ensures after { OnOk result (tree.new ≡ put_entry tree.old entry.now.dir entry.now.name to) }
    ensures back { IfOk result (λ back. back ≡ back_of tree.old (EntryEdit entry.now to)) }
    ensures err { OnErr result (tree.new ≡ tree.old) }
{
    let kept = entry.clone()?;
    let was = EntryWas::new(tree.set_entry(entry.clone()?, to)?);
    Ok(BeforeImage::Entry { entry: kept, was })
}

/// Sets what is kept of a directory's attributes, and returns the before-image. If there is not
/// enough memory, nothing has changed.
fn set_dir_attributes(
    tree: &mut Tree,
    dir: u64,
    to: &Rare<Attributes>,
) -> Result<BeforeImage, Memory>
    requires { HasDirPlace tree.old dir }
    ensures after { OnOk result (tree.new ≡ put_dir_attributes tree.old dir to.now) }
    ensures back { IfOk result (λ back. back ≡ back_of tree.old (DirAttributes dir to.now)) }
    ensures err { OnErr result (tree.new ≡ tree.old) }
{
    let was = tree.set_dir_attributes(dir, to.clone()?);
    Ok(BeforeImage::DirAttributes { dir, was })
}

/// Sets what is kept of a file's attributes, and returns the before-image. If there is not enough
/// memory, nothing has changed.
fn set_file_attributes(
    tree: &mut Tree,
    file: &HintedFile,
    to: &Rare<Attributes>,
) -> Result<BeforeImage, Memory>
    requires { HasFilePlace tree.old file.now }
    ensures after { OnOk result (tree.new ≡ put_file_attributes tree.old file.now to.now) }
    ensures back { IfOk result (λ back. back ≡ back_of tree.old (FileAttributes file.now to.now)) }
    ensures err { OnErr result (tree.new ≡ tree.old) }
{
    let was = tree.set_file_attributes(file.again(), to.clone()?);
    let file = file.number();
    Ok(BeforeImage::FileAttributes { file, was })
}

/// Sets the time of a file's bytes, and returns the before-image. If there is not enough memory,
/// nothing has changed.
fn set_time(tree: &mut Tree, file: &HintedFile, to: &Rare<Timestamp>) -> Result<BeforeImage, Memory>
    requires { HasFilePlace tree.old file.now }
    ensures after { OnOk result (tree.new
        ≡ put_contents tree.old file.now (timed (contents_of tree.old file.now) to.now)) }
    ensures back { IfOk result (λ back. back ≡ back_of tree.old (Time file.now to.now)) }
    ensures err { OnErr result (tree.new ≡ tree.old) }
{
    let undo = TimeUndo::set(tree, file.again(), to.clone()?);
    let file = file.number();
    Ok(BeforeImage::Time { file, undo })
}

/// Undoes all edits that are kept, the last one first, and keeps none. Takes no memory.
fn unwind(tree: &mut Tree, backs: &mut Vec<BeforeImage>)
    requires { CanRestoreAll tree.old backs.old.items }
    ensures tree { tree.new ≡ restored tree.old backs.old.items }
    ensures none { backs.new.items ≡ [] }
{
    while let Some(back) = backs.pop() {
        restore(tree, back);
    }
}

/// Gives a cell the value that it had. The cell has its place, so this takes no memory.
fn give_back(tree: &mut Tree, back: BeforeImage)
    requires { CanGiveBack tree.old back }
    ensures { tree.new ≡ put tree.old (given_back back) }
{
    let is_refused = match back {
        BeforeImage::Entry { entry, was } => tree.set_entry(entry, was.get().flatten()).is_err(),
        BeforeImage::Parent { dir, was } => tree.set_parent(dir, was.flatten()).is_err(),
        BeforeImage::Links { file, was } => tree.set_links(file, was.unwrap_or(0)).is_err(),
        BeforeImage::Bytes { file, undo } => {
            undo.roll_back(tree, file);
            false
        }
        BeforeImage::Open { fd, was } => tree.set_open_file(fd, was.flatten()).is_err(),
        BeforeImage::DirAttributes { dir, was } => {
            tree.set_dir_attributes(dir, was);
            false
        }
        BeforeImage::FileAttributes { file, was } => {
            tree.set_file_attributes(HintedFile::new(file), was);
            false
        }
        BeforeImage::Time { file, undo } => {
            undo.roll_back(tree, file);
            false
        }
    };
    if is_refused {
        unreachable!();
    }
}

/// Gives a cell the value that it had, and removes its place if that was new.
fn restore(tree: &mut Tree, back: BeforeImage)
    requires { CanGiveBack tree.old back }
    ensures { tree.new ≡ restore tree.old back }
{
    match back {
        BeforeImage::Entry { entry, was } => match was.get() {
            None => tree.drop_place(&Cell::Entry(entry)),
            Some(_) => give_back(tree, BeforeImage::Entry { entry, was }),
        },
        BeforeImage::Parent { dir, was } => match was {
            None => tree.drop_place(&Cell::Parent(dir)),
            Some(_) => give_back(tree, BeforeImage::Parent { dir, was }),
        },
        BeforeImage::Links { file, was } => match was {
            None => tree.drop_place(&Cell::Links(file)),
            Some(_) => give_back(tree, BeforeImage::Links { file, was }),
        },
        BeforeImage::Bytes { file, undo } => give_back(tree, BeforeImage::Bytes { file, undo }),
        BeforeImage::Open { fd, was } => match was {
            None => tree.drop_place(&Cell::Fd(fd)),
            Some(_) => give_back(tree, BeforeImage::Open { fd, was }),
        },
        BeforeImage::DirAttributes { dir, was } => give_back(
            tree,
            BeforeImage::DirAttributes { dir, was },
        ),
        BeforeImage::FileAttributes { file, was } => give_back(
            tree,
            BeforeImage::FileAttributes { file, was },
        ),
        BeforeImage::Time { file, undo } => give_back(tree, BeforeImage::Time { file, undo }),
    }
}
