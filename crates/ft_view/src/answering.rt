// The answers of a tree to a reader, and the numbers that are free in it.
ghost use Rattle.std.specs.Prelude.{◌≡◌, IfOk, IsTrue};
ghost use Rattle.ft_tree.specs.Sound.{AreSoundCells, IsFree};
ghost use Rattle.ft_tree.specs.Tidy.{tidy};
ghost use Rattle.ft_view.specs.Replay.{reply_on, IsReadable};
ghost use Rattle.ft_view.specs.Reading.{contents_on, answer_on, opened_in, whole_told};

use crate::READING;
use ft_base::Memory;
use ft_body::LARGEST_SIZE;
use ft_calls::{Call, Edit, Edits, Intent, OpenFlags, PlannedReply, Reply, intend};
use ft_path::FilePath;
use ft_tree::{AccessMode, HintedFile, ROOT, Tree};
use std::alloc::Global;

/// A question of a reader to a tree.
#[derive(Clone, Copy)]
pub(crate) enum Question<'p> {
    /// What Stat replies.
    Stat(&'p FilePath),
    /// What Lstat replies.
    Lstat(&'p FilePath),
    /// What Readlink replies.
    Link(&'p FilePath),
    /// What List replies.
    List(&'p FilePath),
    /// The contents of a file.
    File(&'p FilePath),
}

/// Returns the answer of a tree to a question. The tree is not changed. Out of memory is the only
/// refusal.
pub(crate) fn answer(alloc: Global, tree: &Tree, question: &Question<'_>) -> Result<Reply, Memory>
    requires { IsReadable tree.now }
    ensures { IfOk result (λ reply. reply ≡ answer_on (tidy tree.now) question.now) }
{
    match question {
        Question::Stat(path) => {
            let path = path.try_clone()?;
            reply(alloc, tree, &Call::Stat { path })
        }
        Question::Lstat(path) => {
            let path = path.try_clone()?;
            reply(alloc, tree, &Call::Lstat { path })
        }
        Question::Link(path) => {
            let path = path.try_clone()?;
            reply(alloc, tree, &Call::Readlink { path })
        }
        Question::List(path) => {
            let path = path.try_clone()?;
            reply(alloc, tree, &Call::List { path })
        }
        Question::File(path) => contents(alloc, tree, path),
    }
}

/// Returns the reply of a call, without making the call.
fn reply(alloc: Global, tree: &Tree, call: &Call) -> Result<Reply, Memory>
    requires { IsReadable tree.now }
    ensures { IfOk result (λ reply. reply ≡ reply_on (tidy tree.now) call.now) }
{
    intend(alloc, tree, READING, call)?.reply(alloc, tree)
}

/// Returns the reply of a Read of the whole file after an Open for reading, or the error of the
/// Open.
///
/// Neither call is made: the plan of the Open names the file, which is then read.
fn contents(alloc: Global, tree: &Tree, path: &FilePath) -> Result<Reply, Memory>
    requires { IsReadable tree.now }
    ensures { IfOk result (λ reply. reply ≡ contents_on (tidy tree.now) path.now) }
{
    let open = Call::Open {
        path: path.try_clone()?,
        flags: OpenFlags {
            access: AccessMode::ReadOnly,
            create: false,
            excl: false,
            trunc: false,
            append: false,
            mode: None,
        },
    };
    let Intent { told, edits } = intend(alloc, tree, READING, &open)?;
    let told = whole(told, &edits);
    Intent { told, edits }.reply(alloc, tree)
}

/// Returns the planned reply of reading the whole file that these edits open. If they open none, it
/// returns the given reply.
fn whole(told: PlannedReply, edits: &Edits<'_>) -> PlannedReply
    ensures { result ≡ whole_told (opened_in edits.now) told }
{
    match edits.as_items().first() {
        Some(
            Edit::Open {
                to: Some(description),
                ..
            },
        ) => PlannedReply::BytesOf {
            file: HintedFile::new(description.file),
            at: 0,
            len: LARGEST_SIZE,
        },
        _ => told,
    }
}

/// Returns true only if a number is free: nothing is stored under it, and nothing names it. A
/// stored file has its number even if nothing names the file.
pub(crate) fn is_free(tree: &Tree, number: u64) -> bool
    requires { AreSoundCells tree.now }
    ensures { IsTrue result → IsFree tree.now number }
{
    if number <= ROOT {
        return false;
    }
    if tree.kind(number).is_some() {
        return false;
    }
    if tree.body(number).is_some() {
        return false;
    }
    tree.open_file(number).is_none()
}
