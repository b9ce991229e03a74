// What `perform` answers and does, what `revert` undoes on a copy, and which cells are touched, by
// worked rows. Call by call they are played by case files.
ghost use Rattle.std.specs.Prelude.{◌≢◌, ◌≤◌, ℕ, OnOk};
ghost use Rattle.ft_tree.specs.Sound.{AreSoundCells, IsFree};

use ft_base::Memory;
use ft_calls::{Access, Call, Mode, OpenFlags, Reply, accesses};
use ft_path::{Errno, FilePath};
use ft_tree::{AccessMode, Attributes, Cell, Kind, Timestamp, Tree};
use ft_undo::{perform, revert};
use std::alloc::Global;
use std::test::Fail;

/// A call, as a test writes it.
#[derive(Clone, Copy)]
enum CallRef<'a> {
    Mkdir(&'a [u8]),
    Stat(&'a [u8]),
    /// To read and write, and made if it is not there.
    Open(&'a [u8]),
    Close(u64),
    Write(u64, &'a [u8]),
    /// Nine bytes from the beginning.
    Pread(u64),
    Fstat(u64),
    /// From the old path to the new one.
    Link(&'a [u8], &'a [u8]),
    Unlink(&'a [u8]),
    /// From the old path to the new one.
    Rename(&'a [u8], &'a [u8]),
    Chmod(u16, &'a [u8]),
    Fchmod(u64, u16),
    /// Sets an owner, while the group stays.
    Chown(u32, &'a [u8]),
    Lchown(u32, &'a [u8]),
    /// Sets a group, while the owner stays.
    Fchown(u64, u32),
    Utime(Timestamp, &'a [u8]),
    Lutime(Timestamp, &'a [u8]),
    Futime(u64, Timestamp),
}

/// A reply, as a test writes it.
#[derive(Clone, Copy)]
enum ReplyRef<'a> {
    Done,
    Number(u64),
    Bytes(&'a [u8]),
    /// A kind, a number, its links and its size.
    Info(Kind, u64, u64, u64),
    /// The attributes and the time, if they are told.
    Attributes(Option<Attributes>, Option<Timestamp>),
    Failed(Errno),
}

/// The place of the first call in a table that is not as it has it.
#[derive(Debug, Drop)]
struct WrongCall(usize);

/// Returns the call that is described.
fn call_of(alloc: Global, call: CallRef) -> Result<Call, Fail> {
    Ok(match call {
        CallRef::Mkdir(path) => Call::Mkdir {
            path: FilePath::new(alloc, path)?,
            mode: None,
        },
        CallRef::Stat(path) => Call::Stat {
            path: FilePath::new(alloc, path)?,
        },
        CallRef::Open(path) => open_of(FilePath::new(alloc, path)?),
        CallRef::Close(fd) => Call::Close { fd },
        CallRef::Write(fd, bytes) => Call::Write {
            fd,
            bytes: bytes.to_vec(alloc)?.into(),
        },
        CallRef::Pread(fd) => Call::Pread { fd, off: 0, len: 9 },
        CallRef::Fstat(fd) => Call::Fstat { fd },
        CallRef::Unlink(path) => Call::Unlink {
            path: FilePath::new(alloc, path)?,
        },
        call => call_of_two(alloc, call)?,
    })
}

/// Returns a call that opens a file, and makes it if it is missing.
fn open_of(path: FilePath) -> Call {
    Call::Open {
        path,
        flags: OpenFlags {
            access: AccessMode::ReadWrite,
            create: true,
            excl: false,
            trunc: false,
            append: false,
            mode: None,
        },
    }
}

/// A call on two paths.
fn call_of_two(alloc: Global, call: CallRef) -> Result<Call, Fail> {
    match call {
        CallRef::Link(old, new) => {
            let old = FilePath::new(alloc, old)?;
            let new = FilePath::new(alloc, new)?;
            Ok(Call::Link { old, new })
        }
        CallRef::Rename(old, new) => {
            let old = FilePath::new(alloc, old)?;
            let new = FilePath::new(alloc, new)?;
            Ok(Call::Rename { old, new })
        }
        call => call_of_attributes(alloc, call),
    }
}

/// A call on attributes or a time.
fn call_of_attributes(alloc: Global, call: CallRef) -> Result<Call, Fail> {
    Ok(match call {
        CallRef::Chmod(mode, path) => Call::Chmod {
            mode,
            path: FilePath::new(alloc, path)?,
        },
        CallRef::Fchmod(fd, mode) => Call::Fchmod { fd, mode },
        CallRef::Chown(owner, path) => Call::Chown {
            owner: Some(owner),
            group: None,
            path: FilePath::new(alloc, path)?,
        },
        CallRef::Lchown(owner, path) => Call::Lchown {
            owner: Some(owner),
            group: None,
            path: FilePath::new(alloc, path)?,
        },
        CallRef::Fchown(fd, group) => Call::Fchown {
            fd,
            owner: None,
            group: Some(group),
        },
        CallRef::Utime(time, path) => Call::Utime {
            time,
            path: FilePath::new(alloc, path)?,
        },
        CallRef::Lutime(time, path) => Call::Lutime {
            time,
            path: FilePath::new(alloc, path)?,
        },
        CallRef::Futime(fd, time) => Call::Futime { fd, time },
        _ => Err(Fail::from("a call on attributes"))?,
    })
}

/// Returns whether this is the reply.
fn is_reply(reply: &Reply, wanted: ReplyRef) -> bool {
    match (reply, wanted) {
        (Reply::Done, ReplyRef::Done) => true,
        (Reply::Number(number), ReplyRef::Number(wanted)) => *number == wanted,
        (Reply::Bytes(bytes), ReplyRef::Bytes(wanted)) => bytes.as_slice() == wanted,
        (Reply::Info(info), ReplyRef::Info(kind, number, links, size)) => {
            info.kind == kind && info.number == number && info.links == links && info.size == size
        }
        (Reply::Info(info), ReplyRef::Attributes(attributes, time)) => {
            info.attributes == attributes && info.time == time
        }
        (Reply::Failed(errno), ReplyRef::Failed(wanted)) => *errno == wanted,
        _ => false,
    }
}

/// Makes calls one after another on a new tree, with stamps from 2 on. Fails at the first that
/// cannot be undone, or is not answered as it says.
fn make_calls(alloc: Global, calls: &[(CallRef, ReplyRef)]) -> Result<(), Fail> {
    let mut tree = Tree::new(alloc)?;
    make_calls_on(alloc, &mut tree, calls)
}

/// Makes these calls on a tree, one after another. Fails at the first one with another reply.
fn make_calls_on(alloc: Global, tree: &mut Tree, calls: &[(CallRef, ReplyRef)]) -> Result<(), Fail>
    requires sound { AreSoundCells tree.old }
    requires free { (k : ℕ) → 2 ≤ k → IsFree tree.old k }
{
    let mut stamp: u64 = 2;
    for (place, (call, wanted)) in calls.iter().enumerate() {
        if !plays(alloc, tree, stamp, *call, *wanted)? {
            Err(WrongCall(place))?;
        }
        stamp = stamp.checked_add(1).ok_or("stamp")?;
    }
    Ok(())
}

/// Makes a call, and returns whether it can be undone and is answered so.
fn plays(
    alloc: Global,
    tree: &mut Tree,
    stamp: u64,
    call: CallRef,
    wanted: ReplyRef,
) -> Result<bool, Fail>
    requires sound { AreSoundCells tree.old }
    requires free { IsFree tree.old stamp }
    ensures sound { AreSoundCells tree.new }
    ensures free { OnOk result ((k : ℕ) → IsFree tree.old k → k ≢ stamp → IsFree tree.new k) }
{
    let call = call_of(alloc, call)?;
    let is_taken_back = is_taken_back(alloc, tree, stamp, &call)?;
    Ok(answers(alloc, tree, stamp, &call, wanted)? && is_taken_back)
}

/// Makes a call, and returns whether this is its reply.
fn answers(
    alloc: Global,
    tree: &mut Tree,
    stamp: u64,
    call: &Call,
    wanted: ReplyRef,
) -> Result<bool, Memory>
    requires sound { AreSoundCells tree.old }
    requires free { IsFree tree.old stamp }
    ensures sound { AreSoundCells tree.new }
    ensures free { OnOk result ((k : ℕ) → IsFree tree.old k → k ≢ stamp → IsFree tree.new k) }
{
    let (reply, _undo) = perform(alloc, tree, stamp, call)?;
    Ok(is_reply(&reply, wanted))
}

/// Returns whether a call on a copy of the tree, made and undone, leaves the rows of the tree.
fn is_taken_back(alloc: Global, tree: &Tree, stamp: u64, call: &Call) -> Result<bool, Memory>
    requires sound { AreSoundCells tree.now }
    requires free { IsFree tree.now stamp }
{
    let mut copy = tree.copy()?;
    make_and_take_back(alloc, &mut copy, stamp, call)?;
    show_the_same(&copy, tree)
}

/// Makes a call, and undoes it.
fn make_and_take_back(alloc: Global, tree: &mut Tree, stamp: u64, call: &Call) -> Result<(), Memory>
    requires sound { AreSoundCells tree.old }
    requires free { IsFree tree.old stamp }
{
    let (_reply, undo) = perform(alloc, tree, stamp, call)?;
    revert(tree, undo);
    Ok(())
}

/// Returns whether two trees have the same rows.
fn show_the_same(tree: &Tree, other: &Tree) -> Result<bool, Memory> {
    Ok(tree.rows()?.as_slice() == other.rows()?.as_slice())
}

/// Returns whether a call that makes `/a` touches its entry in the root and the parent of directory
/// 2.
fn touches_two_cells(alloc: Global) -> Result<bool, Fail> {
    let tree = Tree::new(alloc)?;
    let call = call_of(alloc, CallRef::Mkdir(b"/a"))?;
    Ok(touches_two_cells_of(alloc, &tree, &call)?)
}

/// Returns whether the call writes only the entry and the new directory's parent.
fn touches_two_cells_of(alloc: Global, tree: &Tree, call: &Call) -> Result<bool, Memory>
    requires { IsFree tree.now 2 }
{
    Ok(are_entry_and_parent(accesses(alloc, tree, 2, call)?.as_slice()))
}

/// Returns whether these accesses write only these two cells.
fn are_entry_and_parent(list: &[Access]) -> bool {
    match list {
        [
            Access {
                cell: Cell::Entry(entry),
                mode: Mode::Write,
            },
            Access {
                cell: Cell::Parent(2),
                mode: Mode::Write,
            },
        ] => entry.dir == 1 && entry.name.as_bytes() == b"a".as_slice(),
        _ => false,
    }
}

#[test]
fn single_calls(rt: HostRuntime) -> Result<(), Fail> {
    make_calls(rt.alloc(), &[(CallRef::Mkdir(b"/a"), ReplyRef::Done)])?;
    assert!(rt; touches_two_cells(rt.alloc())?);
    Ok(())
}

#[test]
fn undo_brings_back_replaced_file(rt: HostRuntime) -> Result<(), Fail> {
    const CALLS: &[(CallRef, ReplyRef)] = &[
        (CallRef::Open(b"/f"), ReplyRef::Number(2)),
        (CallRef::Link(b"/f", b"/h"), ReplyRef::Done),
        (CallRef::Open(b"/g"), ReplyRef::Number(4)),
        (CallRef::Rename(b"/g", b"/f"), ReplyRef::Done),
        (CallRef::Stat(b"/h"), ReplyRef::Info(Kind::File, 2, 1, 0)),
    ];
    make_calls(rt.alloc(), CALLS)
}

#[test]
fn orphan_lives_on(rt: HostRuntime) -> Result<(), Fail> {
    const CALLS: &[(CallRef, ReplyRef)] = &[
        (CallRef::Open(b"/f"), ReplyRef::Number(2)),
        (CallRef::Write(2, b"hi"), ReplyRef::Number(2)),
        (CallRef::Unlink(b"/f"), ReplyRef::Done),
        (CallRef::Fstat(2), ReplyRef::Info(Kind::File, 2, 0, 2)),
        (CallRef::Pread(2), ReplyRef::Bytes(b"hi")),
        (CallRef::Close(2), ReplyRef::Done),
    ];
    make_calls(rt.alloc(), CALLS)
}

/// A time before the Epoch.
const EARLY: Timestamp = Timestamp {
    seconds: -1,
    nanoseconds: 999_999_999,
};

#[test]
fn attributes_stay_and_time_goes(rt: HostRuntime) -> Result<(), Fail> {
    let early = Some(EARLY);
    let owned = Some(Attributes {
        mode: 0o755,
        owner: 7,
        group: 8,
    });
    let calls = [
        (CallRef::Open(b"/f"), ReplyRef::Number(2)),
        (CallRef::Write(2, b"hi"), ReplyRef::Number(2)),
        (CallRef::Utime(EARLY, b"/f"), ReplyRef::Done),
        (CallRef::Stat(b"/f"), ReplyRef::Attributes(None, early)),
        (CallRef::Chmod(0o755, b"/f"), ReplyRef::Done),
        (CallRef::Chown(7, b"/f"), ReplyRef::Done),
        (CallRef::Fchown(2, 8), ReplyRef::Done),
        (CallRef::Fstat(2), ReplyRef::Attributes(owned, early)),
        (CallRef::Write(2, b"!"), ReplyRef::Number(1)),
        (CallRef::Stat(b"/f"), ReplyRef::Attributes(owned, None)),
    ];
    make_calls(rt.alloc(), &calls)
}

#[test]
fn attributes_go_back_to_none(rt: HostRuntime) -> Result<(), Fail> {
    let owned = Some(Attributes {
        mode: 0o644,
        owner: 7,
        group: 0,
    });
    let calls = [
        (CallRef::Open(b"/f"), ReplyRef::Number(2)),
        (CallRef::Fchmod(2, 0o600), ReplyRef::Done),
        (CallRef::Lchown(7, b"/f"), ReplyRef::Done),
        (CallRef::Chmod(0o644, b"/f"), ReplyRef::Done),
        (CallRef::Stat(b"/f"), ReplyRef::Attributes(owned, None)),
        (CallRef::Chown(0, b"/f"), ReplyRef::Done),
        (CallRef::Stat(b"/f"), ReplyRef::Attributes(None, None)),
        (CallRef::Lutime(EARLY, b"/f"), ReplyRef::Done),
        (CallRef::Futime(2, EARLY), ReplyRef::Done),
        (CallRef::Mkdir(b"/d"), ReplyRef::Done),
        (
            CallRef::Utime(EARLY, b"/d"),
            ReplyRef::Failed(Errno::EINVAL),
        ),
        (
            CallRef::Chmod(0o10000, b"/d"),
            ReplyRef::Failed(Errno::EINVAL),
        ),
        (CallRef::Chmod(0o1777, b"/d"), ReplyRef::Done),
        (CallRef::Rename(b"/f", b"/d/f"), ReplyRef::Done),
        (
            CallRef::Stat(b"/d/f"),
            ReplyRef::Attributes(None, Some(EARLY)),
        ),
    ];
    make_calls(rt.alloc(), &calls)
}
