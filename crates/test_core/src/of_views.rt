// Views of what has committed: what readers see before a publish and after it, during one, and from
// another base.
ghost use Rattle.std.specs.Prelude.{◌≡◌};
ghost use Rattle.ft_shared.specs.Opening.{named_by};

use crate::of_serial::{is_serial, replays_from_new};
use ft_calls::{Call, FileInfo, Reply};
use ft_core::{Fault, TxnId};
use ft_path::{Errno, FilePath};
use ft_record::Recorded;
use ft_shared::{Opened, Shared, Sharing, ViewsOf, with_views};
use ft_tree::Kind;
use ft_view::{Reader, ViewFault};
use std::alloc::Global;
use std::marker::Brand;
use std::sync::Wait;
use std::test::Fail;
use std::thread;
use std::thread::Threads;
use test_scripts::{Line, Through, Wanted, is_reply, new_shared, plays};

/// The steps with the views of a core, and whether all is answered as it should be.
trait Steps {
    /// Takes these steps, and returns whether the reader saw what it should.
    fn take<J: Sharing, R: Wait>(
        &self,
        rt: &R,
        alloc: Global,
        shared: &Shared<J>,
        reader: &mut Reader<ViewsOf<J>>,
    ) -> Result<bool, Fail>;
}

/// Takes steps with views of a core, and gives the core back.
fn through_views<S: Steps, R: Wait>(
    rt: &R,
    core: Recorded,
    steps: &S,
) -> Result<(bool, Recorded), Fail> {
    let alloc = core.alloc();
    match with_views(core) {
        Ok(opened) => through_named::<Brand, S, R>(rt, alloc, opened, steps),
        Err(_) => Err(Fail::from("no views")),
    }
}

/// Names the views, takes the steps, and returns whether all was seen, with the core.
fn through_named<J: Sharing, S: Steps, R: Wait>(
    rt: &R,
    alloc: Global,
    opened: Opened,
    steps: &S,
) -> Result<(bool, Recorded), Fail>
    requires { named_by opened ≡ J.origin }
{
    match opened.named::<J, R>(rt) {
        Ok((shared, mut reader)) => {
            let taken = steps.take(rt, alloc, &shared, &mut reader);
            let core = shared.into_core(rt);
            Ok((taken?, core))
        }
        Err(_) => Err(Fail::from("no name")),
    }
}

/// Takes steps with views of a new core, and gives the core back.
fn through_new_views<S: Steps, R: Wait>(
    rt: &R,
    alloc: Global,
    steps: &S,
) -> Result<(bool, Recorded), Fail> {
    through_views(rt, Recorded::new(alloc)?, steps)
}

/// How many calls are published then.
fn published<J: Sharing, R: Wait>(rt: &R, shared: &Shared<J>) -> Result<u64, Fault> {
    let (calls, _) = shared.publish(rt)?;
    Ok(calls)
}

/// Returns whether a reader is answered so; the wanted number is that of the calls.
fn is_told(told: &Result<(u64, Reply), ViewFault>, wanted: Wanted) -> bool {
    match told {
        Ok((calls, reply)) => is_reply(*calls, reply, wanted),
        Err(_) => false,
    }
}

/// Returns whether a reader lists these names, all of directories, and so many calls.
fn lists<J: Sharing>(
    reader: &mut Reader<ViewsOf<J>>,
    path: &FilePath,
    calls: u64,
    wanted: &[u8],
) -> bool {
    is_told(&reader.list(path), Wanted::Directories(calls, wanted))
}

/// A directory is committed; of two transactions that make one in it one is aborted, and the other
/// is live.
fn makes_in_directory<J: Sharing, R: Wait>(
    rt: &R,
    alloc: Global,
    shared: &Shared<J>,
) -> Result<bool, Fail> {
    let script = [
        (Line::Begin, Wanted::Txn(1)),
        (Line::Mkdir(1, b"/d".as_slice()), Wanted::Done(2)),
        (Line::Commit(1), Wanted::Committed),
        (Line::Begin, Wanted::Txn(2)),
        (Line::Begin, Wanted::Txn(3)),
        (Line::Mkdir(2, b"/d/a".as_slice()), Wanted::Done(3)),
        (Line::Mkdir(3, b"/d/b".as_slice()), Wanted::Done(4)),
        (Line::Abort(2), Wanted::Aborted(1)),
        (
            Line::List(3, b"/d".as_slice()),
            Wanted::Names(5, b"b".as_slice()),
        ),
    ];
    plays(alloc, &mut Through { rt, shared }, &script)
}

/// A reader sees nothing of it before the publish, and the committed calls from then on, whether it
/// learns the receipt or not.
struct SeenFromPublishOn;

impl Steps for SeenFromPublishOn {
    fn take<J: Sharing, R: Wait>(
        &self,
        rt: &R,
        alloc: Global,
        shared: &Shared<J>,
        reader: &mut Reader<ViewsOf<J>>,
    ) -> Result<bool, Fail> {
        let path = FilePath::new(alloc, b"/d".as_slice())?;
        let nothing = Wanted::Failed(0, Errno::ENOENT);
        let played = makes_in_directory(rt, alloc, shared)?;
        let unseen = is_told(&reader.list(&path), nothing);
        shared.commit(rt, TxnId(3))?;
        let unpublished = is_told(&reader.list(&path), nothing);
        let (calls, receipt) = shared.publish(rt)?;
        let seen = lists(reader, &path, 3, b"b".as_slice());
        reader.learn(receipt);
        let learnt = lists(reader, &path, 3, b"b".as_slice());
        Ok(played && unseen && unpublished && calls == 3 && seen && learnt)
    }
}

#[test]
fn views_after_publish(rt: HostRuntime) -> Result<(), Fail> {
    let (is_so, _) = through_new_views(&rt, rt.alloc(), &SeenFromPublishOn)?;
    assert!(rt; is_so);
    Ok(())
}

/// A reader that has seen nothing learns the receipt.
struct LearntByAnother;

impl Steps for LearntByAnother {
    fn take<J: Sharing, R: Wait>(
        &self,
        rt: &R,
        alloc: Global,
        shared: &Shared<J>,
        reader: &mut Reader<ViewsOf<J>>,
    ) -> Result<bool, Fail> {
        let path = FilePath::new(alloc, b"/d".as_slice())?;
        let played = makes_in_directory(rt, alloc, shared)?;
        shared.commit(rt, TxnId(3))?;
        let (_, receipt) = shared.publish(rt)?;
        let mut another = reader.again()?;
        another.learn(receipt);
        let listed = lists(&mut another, &path, 3, b"b".as_slice());
        let info = Reply::Info(FileInfo {
            kind: Kind::Dir,
            number: 2,
            links: 1,
            size: 0,
            attributes: None,
            time: None,
        });
        let told = another.stat(&path) == Ok((3, info));
        let read = another.read_file(&path) == Ok((3, Reply::Failed(Errno::EISDIR)));
        Ok(played && listed && told && read)
    }
}

#[test]
fn reader_that_learnt(rt: HostRuntime) -> Result<(), Fail> {
    let (is_so, _) = through_new_views(&rt, rt.alloc(), &LearntByAnother)?;
    assert!(rt; is_so);
    Ok(())
}

/// Two transactions commit in the order of their begins, of which the second made its directory
/// first; a third one is live at the end.
struct InCommitOrder;

impl Steps for InCommitOrder {
    fn take<J: Sharing, R: Wait>(
        &self,
        rt: &R,
        alloc: Global,
        shared: &Shared<J>,
        reader: &mut Reader<ViewsOf<J>>,
    ) -> Result<bool, Fail> {
        let script = [
            (Line::Begin, Wanted::Txn(1)),
            (Line::Begin, Wanted::Txn(2)),
            (Line::Mkdir(2, b"/b".as_slice()), Wanted::Done(2)),
            (Line::Mkdir(1, b"/a".as_slice()), Wanted::Done(3)),
            (Line::Commit(1), Wanted::Committed),
            (Line::Commit(2), Wanted::Committed),
            (Line::Begin, Wanted::Txn(3)),
            (Line::Mkdir(3, b"/c".as_slice()), Wanted::Done(4)),
        ];
        let root = FilePath::new(alloc, b"/".as_slice())?;
        let played = plays(alloc, &mut Through { rt, shared }, &script)?;
        let first = published(rt, shared)?;
        let listed = lists(&mut reader.again()?, &root, 2, b"ab".as_slice());
        let second = published(rt, shared)?;
        Ok(played && first == 2 && listed && second == 2)
    }
}

/// Returns whether a core that has no views publishes nothing.
fn publishes_nothing<R: Wait>(rt: &R, alloc: Global) -> Result<bool, Fail> {
    let shared = new_shared(alloc)?;
    let answer = published(rt, &shared);
    shared.into_core(rt);
    Ok(answer == Err(Fault::NoViews))
}

#[test]
fn publish_in_commit_order(rt: HostRuntime) -> Result<(), Fail> {
    let alloc = rt.alloc();
    let (is_so, core) = through_new_views(&rt, alloc, &InCommitOrder)?;
    assert!(rt; is_so);
    assert!(rt; is_serial(&core, &[3, 2, 4])?);
    let wanted = [Wanted::Done(3), Wanted::Done(2), Wanted::Done(4)];
    assert!(rt; replays_from_new(&core, &wanted)?);
    assert!(rt; publishes_nothing(&rt, alloc)?);
    Ok(())
}

#[test]
fn view_faults_have_numbers(rt: HostRuntime) {
    assert_eq!(rt; ViewFault::Memory as u8, 1);
    assert_eq!(rt; ViewFault::NoReader as u8, 2);
}

/// A reader sees the base first, and what has committed since once it is published.
struct FromBase;

impl Steps for FromBase {
    fn take<J: Sharing, R: Wait>(
        &self,
        rt: &R,
        alloc: Global,
        shared: &Shared<J>,
        reader: &mut Reader<ViewsOf<J>>,
    ) -> Result<bool, Fail> {
        let root = FilePath::new(alloc, b"/".as_slice())?;
        let before = lists(reader, &root, 0, b"a".as_slice());
        let calls = published(rt, shared)?;
        let after = lists(reader, &root, 1, b"ab".as_slice());
        Ok(before && calls == 1 && after)
    }
}

#[test]
fn views_of_another_base(rt: HostRuntime) -> Result<(), Fail> {
    let alloc = rt.alloc();
    let script = [
        (Line::Begin, Wanted::Txn(1)),
        (Line::Mkdir(1, b"/a".as_slice()), Wanted::Done(2)),
        (Line::Commit(1), Wanted::Committed),
        (Line::Checkpoint, Wanted::Cleared),
        (Line::Begin, Wanted::Txn(2)),
        (Line::Mkdir(2, b"/b".as_slice()), Wanted::Done(3)),
        (Line::Commit(2), Wanted::Committed),
    ];
    let mut core = Recorded::new(alloc)?;
    assert!(rt; plays(alloc, &mut core, &script)?);
    let (is_so, _) = through_views(&rt, core, &FromBase)?;
    assert!(rt; is_so);
    Ok(())
}

/// A reader sees the names of a base of which all was undone: none.
struct BareBase;

impl Steps for BareBase {
    fn take<J: Sharing, R: Wait>(
        &self,
        _rt: &R,
        alloc: Global,
        _shared: &Shared<J>,
        reader: &mut Reader<ViewsOf<J>>,
    ) -> Result<bool, Fail> {
        let root = FilePath::new(alloc, b"/".as_slice())?;
        Ok(lists(reader, &root, 0, b"".as_slice()))
    }
}

#[test]
fn views_right_after_a_checkpoint(rt: HostRuntime) -> Result<(), Fail> {
    let alloc = rt.alloc();
    let script = [
        (Line::Begin, Wanted::Txn(1)),
        (Line::Mkdir(1, b"/a".as_slice()), Wanted::Done(2)),
        (
            Line::List(1, b"/".as_slice()),
            Wanted::Directories(3, b"a".as_slice()),
        ),
        (Line::Abort(1), Wanted::Aborted(2)),
        (Line::Begin, Wanted::Txn(2)),
        (
            Line::List(2, b"/".as_slice()),
            Wanted::Directories(4, b"".as_slice()),
        ),
        (Line::Checkpoint, Wanted::Refused(Fault::Live)),
        (Line::Abort(2), Wanted::Aborted(1)),
        (Line::Checkpoint, Wanted::Cleared),
        (Line::Commit(1), Wanted::Refused(Fault::NoTxn)),
    ];
    let mut core = Recorded::new(alloc)?;
    assert!(rt; plays(alloc, &mut core, &script)?);
    let (is_so, _) = through_views(&rt, core, &BareBase)?;
    assert!(rt; is_so);
    Ok(())
}

/// A file with two bytes, a mode and a time is published and read, and a symbolic link to it.
struct FileRead;

impl Steps for FileRead {
    fn take<J: Sharing, R: Wait>(
        &self,
        rt: &R,
        alloc: Global,
        shared: &Shared<J>,
        reader: &mut Reader<ViewsOf<J>>,
    ) -> Result<bool, Fail> {
        let script = [
            (Line::Begin, Wanted::Txn(1)),
            (Line::Open(1, b"/f".as_slice()), Wanted::Number(2, 2)),
            (Line::Write(1, 2, b"hi".as_slice()), Wanted::Number(3, 2)),
            (
                Line::Symlink(1, b"f".as_slice(), b"/l".as_slice()),
                Wanted::Done(4),
            ),
            (Line::Chmod(1, 0o600, b"/l".as_slice()), Wanted::Done(5)),
            (Line::Futime(1, 2, 9), Wanted::Done(6)),
            (Line::Commit(1), Wanted::Committed),
        ];
        let path = FilePath::new(alloc, b"/f".as_slice())?;
        let link = FilePath::new(alloc, b"/l".as_slice())?;
        let played = plays(alloc, &mut Through { rt, shared }, &script)?;
        let calls = published(rt, shared)?;
        let hi = Wanted::Bytes(5, b"hi".as_slice());
        let read = is_told(&reader.read_file(&path), hi) && is_told(&reader.read_file(&link), hi);
        let followed = is_told(&reader.stat(&link), Wanted::File(5, [2, 1, 2]));
        let set = is_told(
            &reader.stat(&path),
            Wanted::Attributes(5, Some(0o600), Some(9)),
        );
        let itself = is_told(&reader.lstat(&link), Wanted::Link(5, [4, 1, 1]));
        let target = is_told(&reader.read_link(&link), Wanted::Bytes(5, b"f".as_slice()));
        Ok(played && calls == 5 && read && followed && set && itself && target)
    }
}

#[test]
fn published_file_is_read(rt: HostRuntime) -> Result<(), Fail> {
    let (is_so, _) = through_new_views(&rt, rt.alloc(), &FileRead)?;
    assert!(rt; is_so);
    Ok(())
}

/// How many directories are published one by one.
const DIRECTORIES: u64 = 20;
/// How many readers look on meanwhile, and how often each.
const READERS: u64 = 4;

const LOOKS: u64 = 300;

/// Makes a directory in a transaction of its own, and returns how many calls are published then.
fn publish_one<J: Sharing, R: Wait>(
    rt: &R,
    alloc: Global,
    shared: &Shared<J>,
    number: u64,
) -> Option<u64> {
    let text = format!(in alloc; "/{number}").ok()?;
    let path = FilePath::new(alloc, text.as_bytes()).ok()?;
    let txn = shared.begin(rt).ok()?;
    let _ = shared.ask(rt, txn, Call::Mkdir { path, mode: None }).ok()?;
    shared.commit(rt, txn).ok()?;
    published(rt, shared).ok()
}

/// Publishes directories one by one, and returns whether each makes it one call more.
fn publish_each<J: Sharing, R: Wait>(rt: &R, alloc: Global, shared: &Shared<J>) -> bool {
    for number in 0..DIRECTORIES {
        if publish_one(rt, alloc, shared, number) != Some(number + 1) {
            return false;
        }
    }
    true
}

/// How many calls a reader sees, if the list has as many names.
fn count<J: Sharing>(reader: &mut Reader<ViewsOf<J>>, path: &FilePath) -> Option<u64> {
    match &reader.list(path) {
        Ok((calls, Reply::Names(names))) if names.len() as u64 == *calls => Some(*calls),
        _ => None,
    }
}

/// Returns whether a reader always lists as many names as calls, and never fewer than before.
fn looks_on<J: Sharing>(mut reader: Reader<ViewsOf<J>>, path: &FilePath) -> bool {
    let mut last = 0;
    for _ in 0..LOOKS {
        match count(&mut reader, path) {
            Some(calls) if calls >= last => last = calls,
            _ => return false,
        }
    }
    true
}

/// Returns whether readers, each in a thread, look on while directories are published.
fn publishes_beside<J: Sharing + Send + Sync, R: Threads + Wait + Sync>(
    rt: &R,
    alloc: Global,
    shared: &Shared<J>,
    reader: &Reader<ViewsOf<J>>,
) -> Result<bool, Fail> {
    let root = FilePath::new(alloc, b"/".as_slice())?;
    let mut jobs = Vec::new(alloc);
    for _ in 0..READERS {
        jobs.push(Some(reader.again()?))?;
    }
    jobs.push(None)?;
    let work = |job| match job {
        Some(reader) => looks_on(reader, &root),
        None => publish_each(rt, alloc, shared),
    };
    let answers = thread::map_vec(rt, jobs, &work)?;
    Ok(answers.iter().all(|is_so| *is_so))
}

/// Names the views, and returns whether a thread sees them while another one publishes.
fn publishes_beside_named<J: Sharing + Send + Sync, R: Threads + Wait + Sync>(
    rt: &R,
    alloc: Global,
    opened: Opened,
) -> Result<bool, Fail>
    requires { named_by opened ≡ J.origin }
{
    match opened.named::<J, R>(rt) {
        Ok((shared, reader)) => {
            let is_so = publishes_beside(rt, alloc, &shared, &reader);
            shared.into_core(rt);
            is_so
        }
        Err(_) => Err(Fail::from("no name")),
    }
}

/// Returns whether readers of a new core, each in a thread, look on while directories are
/// published.
fn publishes_beside_anew<R: Threads + Wait + Sync>(rt: &R, alloc: Global) -> Result<bool, Fail> {
    match with_views(Recorded::new(alloc)?) {
        Ok(opened) => publishes_beside_named::<Brand, R>(rt, alloc, opened),
        Err(_) => Err(Fail::from("no views")),
    }
}

#[test]
fn readers_beside_a_publisher(rt: HostRuntime) -> Result<(), Fail> {
    assert!(rt; publishes_beside_anew(&rt, rt.alloc())?);
    Ok(())
}
