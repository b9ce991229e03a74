// The intent of a call: its reply and its edits, before it is made.
ghost use Rattle.std.specs.Prelude.{◌≡◌, [], ◌∷◌, ◌++◌, length, slice_get, option_copied, OnOk, OnErr, IfOk};
ghost use Rattle.ft_body.specs.Bytes.{bytes_at};
ghost use Rattle.ft_cells.specs.Cells.{bytes_of};
ghost use Rattle.ft_posix.specs.Within.{IsWithin, AreWithin};

use crate::call::{FileInfo, Reply};
use ft_base::{Memory, ShortList};
use ft_path::Errno;
use ft_tree::{Attributes, Entry, HintedFile, Node, OpenFile, Rare, Timestamp, Tree};
use std::alloc::Global;
use std::marker::Model;

/// The reason that a call has no intent.
#[derive(Clone, Copy)]
pub enum CallError {
    /// There was not enough memory.
    Memory,
    /// The call fails, with this error.
    Errno(Errno),
}

impl From<Memory> for CallError {
    ghost use Rattle.std.specs.Prelude.{◌≡◌};
    ghost use Rattle.ft_posix.specs.declared.intent.CallError.TheVariants.{Memory};

    ghost from_gives = { λ _ stop. stop ≡ Memory };

    fn from(_memory: Memory) -> CallError {
        CallError::Memory
    }
}

impl From<Errno> for CallError {
    ghost use Rattle.std.specs.Prelude.{◌≡◌};
    ghost use Rattle.ft_posix.specs.declared.intent.CallError.TheVariants.{Errno as Fails};

    ghost from_gives = { λ errno stop. stop ≡ Fails errno };

    fn from(errno: Errno) -> CallError {
        CallError::Errno(errno)
    }
}

/// A cell that is to get a new value. Bytes to be written are borrowed from the call.
#[derive(Drop)]
pub enum Edit<'c> {
    /// The node that an entry leads to.
    Entry {
        entry: Entry,
        to: Option<Node>,
    },
    /// The directory that has a directory's entry.
    Parent {
        dir: u64,
        to: Option<u64>,
    },
    /// How many entries name a file.
    Links {
        file: u64,
        to: u64,
    },
    /// Bytes of a file from an offset on, as many as have room. The file loses its time.
    Overwrite {
        file: HintedFile,
        at: u64,
        bytes: &'c [u8],
    },
    /// The size of a file. The file loses its time.
    Resize {
        file: HintedFile,
        size: u64,
    },
    /// The open file description of a descriptor.
    Open {
        fd: u64,
        to: Option<OpenFile>,
    },
    /// The stored attributes of a directory.
    DirAttributes {
        dir: u64,
        to: Rare<Attributes>,
    },
    /// The stored attributes of a file.
    FileAttributes {
        file: HintedFile,
        to: Rare<Attributes>,
    },
    /// The time of a file's bytes, or that they have none.
    Time {
        file: HintedFile,
        to: Rare<Timestamp>,
    },
}

/// The edits of a call.
#[derive(Drop)]
pub struct Edits<'c> {
    items: ShortList<Edit<'c>>,
}

impl<'c> Model for Edits<'c> {
    ghost use Rattle.std.specs.Prelude.{List};
    ghost use Rattle.ft_posix.specs.declared.intent.Edit.{Edit};

    ghost Value = { List Edit };

    ghost use Rattle.ft_posix.specs.Within.{AreWithin};

    ghost view = { λ a. a.items };

    ghost invariant = { λ a. AreWithin a.items };
}

impl<'c> Edits<'c> {
    /// Returns an empty list of edits. Takes no memory.
    pub fn new(alloc: Global) -> Edits<'c>
        ensures { result ≡ [] }
    {
        Edits {
            items: ShortList::new(alloc),
        }
    }

    /// Returns the edits, in order.
    pub fn as_items(&self) -> &ShortList<Edit<'c>>
        ensures items { result.now ≡ self.now }
        ensures within { AreWithin self.now }
    {
        &self.items
    }

    /// Returns the number of edits.
    pub fn len(&self) -> usize
        ensures { result ≡ length self.now }
    {
        if self.items.first().is_none() {
            return 0;
        }
        if self.items.second().is_none() {
            return 1;
        }
        2 + self.items.rest().len()
    }

    /// Returns the edit at an index, if there is one.
    pub fn get(&self, index: usize) -> Option<&Edit<'c>>
        ensures { option_copied result ≡ slice_get self.now index }
    {
        match index {
            0 => self.items.first(),
            1 => self.items.second(),
            _ => self.items.rest().get(index - 2),
        }
    }

    /// Adds an edit at the end. The first two edits take no memory.
    pub fn push(&mut self, edit: Edit<'c>) -> Result<(), Memory>
        requires { IsWithin edit }
        ensures { OnOk result (self.new ≡ self.old ++ edit.entry ∷ []) }
    {
        self.items.push(edit)?;
        Ok(())
    }
}

/// The reply of a call before it is made. A list is given only by its place in the tree.
#[derive(Debug, Drop)]
pub enum PlannedReply {
    /// The call is to be made, and there is nothing to report.
    Done,
    /// A descriptor, an offset, or how many bytes are written.
    Number(u64),
    /// The facts about what a path leads to or a descriptor has open.
    Info(FileInfo),
    /// The call fails, with this error.
    Failed(Errno),
    /// The names of a directory.
    NamesOf(u64),
    /// The bytes of a file from an offset on, at most `len`.
    BytesOf { file: HintedFile, at: u64, len: u64 },
}

/// The intent of a call: its reply, and the edits that are to be made.
#[derive(Drop)]
pub struct Intent<'c> {
    pub told: PlannedReply,
    pub edits: Edits<'c>,
}

impl<'c> Intent<'c> {
    ghost use Rattle.std.specs.Prelude.{◌≡◌, IfOk, OnErr};
    ghost use Rattle.ft_posix.specs.Computes.{reply_of};
    ghost use Rattle.ft_posix.specs.Perform.{IsList};

    /// Returns the reply of the call. A list is read from the tree, which must be as it was looked
    /// at. Only a list takes memory, and out of memory is the only refusal.
    pub fn reply(&self, alloc: Global, tree: &Tree) -> Result<Reply, Memory>
        ensures reply { IfOk result (λ reply. reply ≡ reply_of tree.now self.now.told) }
        ensures lists { OnErr result (IsList (reply_of tree.now self.now.told)) }
    {
        self.told.reply(alloc, tree)
    }
}

impl PlannedReply {
    ghost use Rattle.std.specs.Prelude.{◌≡◌, IfOk, OnErr};
    ghost use Rattle.ft_posix.specs.Computes.{reply_of};
    ghost use Rattle.ft_posix.specs.Perform.{IsList};

    /// Returns the planned reply in full. A list is read from the tree, which must be as it was
    /// looked at. Only a list takes memory, and out of memory is the only refusal.
    pub fn reply(&self, alloc: Global, tree: &Tree) -> Result<Reply, Memory>
        ensures reply { IfOk result (λ reply. reply ≡ reply_of tree.now self.now) }
        ensures lists { OnErr result (IsList (reply_of tree.now self.now)) }
    {
        match self {
            PlannedReply::Done => Ok(Reply::Done),
            PlannedReply::Number(number) => Ok(Reply::Number(*number)),
            PlannedReply::Info(info) => Ok(Reply::Info(*info)),
            PlannedReply::Failed(errno) => Ok(Reply::Failed(*errno)),
            PlannedReply::NamesOf(dir) => Ok(Reply::Names(tree.names(*dir)?.into())),
            PlannedReply::BytesOf { file, at, len } => {
                let bytes = read_bytes(alloc, tree, file, *at, *len)?;
                Ok(Reply::Bytes(bytes.into()))
            }
        }
    }
}

/// Returns the bytes of a file from an offset on, at most `count`.
fn read_bytes(
    alloc: Global,
    tree: &Tree,
    file: &HintedFile,
    offset: u64,
    count: u64,
) -> Result<Vec<u8>, Memory>
    ensures { IfOk result (λ read. read.items
        ≡ bytes_at (bytes_of tree.now file.now) offset count) }
{
    match tree.hinted_body(file) {
        Some(body) => body.read_at(offset, count),
        None => Ok(Vec::new(alloc)),
    }
}
