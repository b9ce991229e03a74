// Requests, and the answers that they are to get from a core, however it is reached.
use ft_calls::{Call, OpenFlags, Reply};
use ft_core::{Answer, Core, Fault, Request, TxnId};
use ft_path::{Errno, FilePath, Name};
use ft_record::Recorded;
use ft_tree::{AccessMode, Attributes, Kind, Timestamp};
use std::alloc::Global;
use std::test::Fail;

/// A request: the number of its transaction, and its path or its descriptor.
#[derive(Clone, Copy)]
pub enum Line<'a> {
    Begin,
    Sub(u64),
    Mkdir(u64, &'a [u8]),
    Rmdir(u64, &'a [u8]),
    List(u64, &'a [u8]),
    /// To read and write, and made if it is not there.
    Open(u64, &'a [u8]),
    Unlink(u64, &'a [u8]),
    /// Its target, and then its path.
    Symlink(u64, &'a [u8], &'a [u8]),
    Rename(u64, &'a [u8], &'a [u8]),
    Close(u64, u64),
    Write(u64, u64, &'a [u8]),
    /// At the beginning.
    Pwrite(u64, u64, &'a [u8]),
    Read(u64, u64),
    /// At the beginning.
    Pread(u64, u64),
    Fstat(u64, u64),
    Stat(u64, &'a [u8]),
    /// Its mode, and then its path.
    Chmod(u64, u16, &'a [u8]),
    /// Its descriptor, and then whole seconds.
    Futime(u64, u64, i64),
    Retry(u64),
    Drop(u64),
    Undo(u64),
    Commit(u64),
    Abort(u64),
    Checkpoint,
}

/// An answer; of a granted call, its stamp.
#[derive(Clone, Copy)]
pub enum Wanted<'a> {
    Txn(u64),
    Done(u64),
    Failed(u64, Errno),
    /// The names in their order, one after the other.
    Names(u64, &'a [u8]),
    /// The names in their order, one after the other, each the name of a directory.
    Directories(u64, &'a [u8]),
    Number(u64, u64),
    Bytes(u64, &'a [u8]),
    /// The number, the links and the size of a file.
    File(u64, [u64; 3]),
    /// The number, the links and the size of a symbolic link.
    Link(u64, [u64; 3]),
    /// The mode of what there is, if it is another than the default one, and its time, in whole
    /// seconds.
    Attributes(u64, Option<u16>, Option<i64>),
    Waits(u64),
    Dropped,
    Committed,
    Aborted(u64),
    Undone(u64),
    Cleared,
    Refused(Fault),
}

/// Returns the call of a line with one path, and its transaction.
fn path_call(alloc: Global, line: Line) -> Result<(u64, Call), Fail> {
    match line {
        Line::Mkdir(txn, path) => {
            let path = FilePath::new(alloc, path)?;
            Ok((txn, Call::Mkdir { path, mode: None }))
        }
        Line::Rmdir(txn, path) => {
            let path = FilePath::new(alloc, path)?;
            Ok((txn, Call::Rmdir { path }))
        }
        Line::List(txn, path) => {
            let path = FilePath::new(alloc, path)?;
            Ok((txn, Call::List { path }))
        }
        Line::Unlink(txn, path) => {
            let path = FilePath::new(alloc, path)?;
            Ok((txn, Call::Unlink { path }))
        }
        Line::Symlink(txn, target, path) => {
            let target = FilePath::new(alloc, target)?;
            let path = FilePath::new(alloc, path)?;
            Ok((txn, Call::Symlink { target, path }))
        }
        Line::Rename(txn, old, new) => {
            let old = FilePath::new(alloc, old)?;
            let new = FilePath::new(alloc, new)?;
            Ok((txn, Call::Rename { old, new }))
        }
        line => file_call(alloc, line),
    }
}

/// A call on the path of a file.
fn file_call(alloc: Global, line: Line) -> Result<(u64, Call), Fail> {
    match line {
        Line::Open(txn, path) => {
            let path = FilePath::new(alloc, path)?;
            let call = Call::Open {
                path,
                flags: OpenFlags {
                    access: AccessMode::ReadWrite,
                    create: true,
                    excl: false,
                    trunc: false,
                    append: false,
                    mode: None,
                },
            };
            Ok((txn, call))
        }
        Line::Stat(txn, path) => {
            let path = FilePath::new(alloc, path)?;
            Ok((txn, Call::Stat { path }))
        }
        Line::Chmod(txn, mode, path) => {
            let path = FilePath::new(alloc, path)?;
            Ok((txn, Call::Chmod { mode, path }))
        }
        line => descriptor_call(alloc, line),
    }
}

/// Returns the call of a line with a descriptor, and its transaction.
fn descriptor_call(alloc: Global, line: Line) -> Result<(u64, Call), Fail> {
    match line {
        Line::Write(txn, fd, bytes) => {
            let bytes = bytes.to_vec(alloc)?.into();
            Ok((txn, Call::Write { fd, bytes }))
        }
        Line::Pwrite(txn, fd, bytes) => {
            let bytes = bytes.to_vec(alloc)?.into();
            Ok((txn, Call::Pwrite { fd, off: 0, bytes }))
        }
        Line::Close(txn, fd) => Ok((txn, Call::Close { fd })),
        Line::Read(txn, fd) => Ok((txn, Call::Read { fd, len: 9 })),
        Line::Pread(txn, fd) => Ok((txn, Call::Pread { fd, off: 0, len: 9 })),
        Line::Fstat(txn, fd) => Ok((txn, Call::Fstat { fd })),
        Line::Futime(txn, fd, seconds) => {
            let time = of_seconds(seconds);
            Ok((txn, Call::Futime { fd, time }))
        }
        _ => Err(Fail::from("no call")),
    }
}

/// The request of a line.
fn request(alloc: Global, line: Line) -> Result<Request, Fail> {
    match line {
        Line::Begin => Ok(Request::Begin),
        Line::Sub(txn) => Ok(Request::Sub(TxnId(txn))),
        Line::Retry(txn) => Ok(Request::Retry(TxnId(txn))),
        Line::Drop(txn) => Ok(Request::Drop(TxnId(txn))),
        Line::Undo(txn) => Ok(Request::Undo(TxnId(txn))),
        Line::Commit(txn) => Ok(Request::Commit(TxnId(txn))),
        Line::Abort(txn) => Ok(Request::Abort(TxnId(txn))),
        Line::Checkpoint => Ok(Request::Checkpoint),
        line => {
            let (txn, call) = path_call(alloc, line)?;
            Ok(Request::Ask(TxnId(txn), call))
        }
    }
}

/// Returns whether the names are these, one after the other.
fn are_names(names: &[(Name, Kind)], wanted: &[u8]) -> bool {
    let all = names.iter().flat_map(|(name, _)| name.as_bytes());
    all.copied().eq(wanted.iter().copied())
}

/// Returns whether a reply describes such a thing, with this number, so many links and this size.
fn is_info(reply: &Reply, wanted: Kind, numbers: [u64; 3]) -> bool {
    match reply {
        Reply::Info(info) => info.kind == wanted && [info.number, info.links, info.size] == numbers,
        _ => false,
    }
}

/// A time of whole seconds.
fn of_seconds(seconds: i64) -> Timestamp {
    Timestamp {
        seconds,
        nanoseconds: 0,
    }
}

/// Returns whether a reply has this mode, with owner and group 0, and this time.
fn has_attributes(reply: &Reply, mode: Option<u16>, seconds: Option<i64>) -> bool {
    let wanted = mode.map(|mode| Attributes {
        mode,
        owner: 0,
        group: 0,
    });
    match reply {
        Reply::Info(info) => info.attributes == wanted && info.time == seconds.map(of_seconds),
        _ => false,
    }
}

/// Returns whether a reply is the one that is wanted, with this number: the stamp of a granted
/// call.
pub fn is_reply(stamp: u64, reply: &Reply, wanted: Wanted) -> bool {
    match (reply, wanted) {
        (Reply::Done, Wanted::Done(wanted)) => stamp == wanted,
        (Reply::Failed(errno), Wanted::Failed(number, wanted)) => {
            stamp == number && *errno == wanted
        }
        (Reply::Number(fd), Wanted::Number(number, wanted)) => stamp == number && *fd == wanted,
        (Reply::Bytes(bytes), Wanted::Bytes(number, wanted)) => {
            stamp == number && bytes.as_slice() == wanted
        }
        (Reply::Names(names), Wanted::Names(number, wanted)) => {
            stamp == number && are_names(names.as_slice(), wanted)
        }
        (Reply::Names(names), Wanted::Directories(number, wanted)) => {
            stamp == number
                && are_names(names.as_slice(), wanted)
                && names.as_slice().iter().all(|(_, kind)| *kind == Kind::Dir)
        }
        (reply, Wanted::File(number, wanted)) => {
            stamp == number && is_info(reply, Kind::File, wanted)
        }
        (reply, Wanted::Link(number, wanted)) => {
            stamp == number && is_info(reply, Kind::Link, wanted)
        }
        (reply, Wanted::Attributes(number, mode, seconds)) => {
            stamp == number && has_attributes(reply, mode, seconds)
        }
        _ => false,
    }
}

/// Returns whether an answer is the one that is wanted.
fn is_answer(answer: &Answer, wanted: Wanted) -> bool {
    match (answer, wanted) {
        (Answer::Txn(txn), Wanted::Txn(wanted)) => txn.0 == wanted,
        (Answer::Granted { stamp, reply }, wanted) => is_reply(*stamp, reply, wanted),
        (Answer::Waits { blockers }, Wanted::Waits(wanted)) => {
            blockers.as_slice() == [TxnId(wanted)].as_slice()
        }
        (Answer::Dropped, Wanted::Dropped) => true,
        (Answer::Cleared, Wanted::Cleared) => true,
        (Answer::Committed, Wanted::Committed) => true,
        (Answer::Aborted(count), Wanted::Aborted(wanted)) => *count == wanted,
        (Answer::Undone(stamp), Wanted::Undone(wanted)) => *stamp == wanted,
        (Answer::Refused(fault), Wanted::Refused(wanted)) => *fault == wanted,
        _ => false,
    }
}

/// A receiver of requests.
pub trait Answers {
    /// Carries out a request, and returns the answer.
    fn answer_to(&mut self, request: Request) -> Answer;
}

impl Answers for Core {
    fn answer_to(&mut self, request: Request) -> Answer {
        self.answer(request)
    }
}

impl Answers for Recorded {
    fn answer_to(&mut self, request: Request) -> Answer {
        let answer = match request {
            Request::Begin => self.begin().map(Answer::Txn),
            Request::Sub(parent) => self.sub(parent).map(Answer::Txn),
            Request::Ask(txn, call) => self.ask(txn, call).map(Answer::from),
            Request::Retry(txn) => self.retry(txn).map(Answer::from),
            Request::Drop(txn) => self.drop_ask(txn).map(|()| Answer::Dropped),
            Request::Commit(txn) => self.commit(txn).map(|()| Answer::Committed),
            Request::Abort(txn) => self.abort(txn).map(Answer::Aborted),
            Request::Undo(txn) => self.undo_call(txn).map(Answer::Undone),
            Request::Checkpoint => self.checkpoint().map(|()| Answer::Cleared),
        };
        answer.unwrap_or_else(Answer::Refused)
    }
}

/// Carries a script out, one request for each line, and returns whether each is answered as it
/// says.
pub fn plays<A: Answers>(
    alloc: Global,
    answers: &mut A,
    script: &[(Line, Wanted)],
) -> Result<bool, Fail> {
    for (line, wanted) in script {
        let answer = answers.answer_to(request(alloc, *line)?);
        if !is_answer(&answer, *wanted) {
            return Ok(false);
        }
    }
    Ok(true)
}
