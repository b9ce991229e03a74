// Answers in numbers.
ghost use Rattle.std.specs.Prelude.{◌≡◌};
ghost use Rattle.nuzolged.specs.Listing.{kind_number};
ghost use Rattle.nuzolged.specs.Numbers.{told, told_of, told_of_answer, told_of_reply, told_of_info, told_name, told_size, errno_number, fault_number};

use crate::listing::listing_size;
use ft_calls::{FileInfo, Reply};
use ft_core::{Answer, Fault};
use ft_path::Errno;
use ft_session::LastAnswer;
use ft_tree::{Attributes, Kind, Timestamp};

/// There was no memory.
pub(crate) const MEMORY: u32 = 1001;

/// A limit is above the greatest.
pub(crate) const BAD_LIMITS: u32 = 1012;

/// The call must wait.
pub(crate) const WAITS: u32 = 1100;

/// The handle holds no tree.
pub(crate) const CLOSED: u32 = 1200;

/// An argument is not valid.
pub(crate) const BAD: u32 = 1201;

/// The time in an answer that has none.
const EPOCH: Timestamp = Timestamp {
    seconds: 0,
    nanoseconds: 0,
};

/// The outcome of a request, in numbers: the members with which `nuz_answer` of the header begins.
#[repr(C)]
#[derive(Clone, Copy, Debug, PartialEq, Eq)]
pub struct NuzAnswer {
    /// 0 if it is done; the error number of a call that failed; 1000 and the number of a refusal;
    /// or a code of its own: the call waits, the handle is closed, an argument is bad.
    pub code: u32,
    /// The kind of what a name leads to: 1 a directory, 2 a file, 3 a symbolic link. Else 0.
    pub kind: u32,
    /// The stamp of a call that was granted, also of one that failed.
    pub stamp: u64,
    /// A transaction, a descriptor, an offset, a count, or the number of what a name leads to.
    pub number: u64,
    /// How many links that has.
    pub links: u64,
    /// How many bytes there are.
    pub size: u64,
    /// The mode of what a name leads to, or a descriptor has open.
    pub mode: u32,
    /// The user that owns that.
    pub owner: u32,
    /// The group of that.
    pub group: u32,
    /// Whether its bytes have a time.
    pub has_time: bool,
    /// The seconds of that time.
    pub seconds: i64,
    /// The nanoseconds of that time.
    pub nanoseconds: u32,
}

impl NuzAnswer {
    /// Returns an answer of a code, a stamp and a number.
    pub(crate) fn of(code: u32, stamp: u64, number: u64) -> NuzAnswer
        ensures { result ≡ told code stamp number }
    {
        NuzAnswer {
            code,
            kind: 0,
            stamp,
            number,
            links: 0,
            size: 0,
            mode: 0,
            owner: 0,
            group: 0,
            has_time: false,
            seconds: 0,
            nanoseconds: 0,
        }
    }

    /// Returns the answer that it is done, with the number of bytes.
    pub(crate) fn of_size(size: usize) -> NuzAnswer
        ensures { result ≡ told_size size }
    {
        NuzAnswer {
            size: size as u64,
            ..NuzAnswer::of(0, 0, 0)
        }
    }

    /// Returns that it is done, with the length of a name and the kind of what the name leads to.
    pub(crate) fn of_name(kind: Kind, size: usize) -> NuzAnswer
        ensures { result ≡ told_name kind size }
    {
        NuzAnswer {
            kind: kind_number(kind),
            ..NuzAnswer::of_size(size)
        }
    }
}

/// Returns the outcome of the last request, in numbers.
pub(crate) fn told_of(last: &LastAnswer) -> NuzAnswer
    ensures { result ≡ told_of last.now }
{
    match last {
        LastAnswer::Answer(answer) => told_of_answer(answer),
        LastAnswer::Text(text) => NuzAnswer::of_size(text.len()),
    }
}

/// Returns an answer in numbers.
fn told_of_answer(answer: &Answer) -> NuzAnswer
    ensures { result ≡ told_of_answer answer.now }
{
    match answer {
        Answer::Txn(txn) => NuzAnswer::of(0, 0, txn.0),
        Answer::Granted { stamp, reply } => told_of_reply(*stamp, reply),
        Answer::Waits { blockers } => NuzAnswer::of(WAITS, 0, blockers.len() as u64),
        Answer::Dropped | Answer::Committed | Answer::Cleared => NuzAnswer::of(0, 0, 0),
        Answer::Aborted(count) => NuzAnswer::of(0, 0, *count),
        Answer::Undone(stamp) => NuzAnswer::of(0, *stamp, 0),
        Answer::Refused(fault) => NuzAnswer::of(fault_number(*fault), 0, 0),
    }
}

/// Returns a reply in numbers.
fn told_of_reply(stamp: u64, reply: &Reply) -> NuzAnswer
    ensures { result ≡ told_of_reply stamp reply.now }
{
    match reply {
        Reply::Done => NuzAnswer::of(0, stamp, 0),
        Reply::Names(names) => NuzAnswer {
            size: listing_size(names.as_slice()),
            ..NuzAnswer::of(0, stamp, names.len() as u64)
        },
        Reply::Number(number) => NuzAnswer::of(0, stamp, *number),
        Reply::Bytes(bytes) => NuzAnswer::of(0, stamp, bytes.len() as u64),
        Reply::Info(info) => told_of_info(stamp, *info),
        Reply::Failed(errno) => NuzAnswer::of(errno_number(*errno), stamp, 0),
    }
}

/// Returns the answer of `stat` in numbers.
fn told_of_info(stamp: u64, info: FileInfo) -> NuzAnswer
    ensures { result ≡ told_of_info stamp info }
{
    let attributes = info.attributes.unwrap_or(Attributes::of(info.kind));
    let time = info.time.unwrap_or(EPOCH);
    NuzAnswer {
        code: 0,
        kind: kind_number(info.kind),
        stamp,
        number: info.number,
        links: info.links,
        size: info.size,
        mode: attributes.mode as u32,
        owner: attributes.owner,
        group: attributes.group,
        has_time: info.time.is_some(),
        seconds: time.seconds,
        nanoseconds: time.nanoseconds,
    }
}

/// Returns the number of a kind.
fn kind_number(kind: Kind) -> u32
    ensures { result ≡ kind_number kind }
{
    match kind {
        Kind::Dir => 1,
        Kind::File => 2,
        Kind::Link => 3,
    }
}

/// Returns the number of a refusal: they come after those of errors.
pub(crate) fn fault_number(fault: Fault) -> u32
    ensures { result ≡ fault_number fault }
{
    match fault {
        Fault::Memory => MEMORY,
        Fault::NoTxn => 1002,
        Fault::Ended => 1003,
        Fault::ChildLive => 1004,
        Fault::NothingToUndo => 1005,
        Fault::SubSince => 1006,
        Fault::Full => 1007,
        Fault::Deep => 1008,
        Fault::Live => 1009,
        Fault::NoAsk => 1010,
        Fault::NoViews => 1011,
        Fault::BadLimits => BAD_LIMITS,
    }
}

/// Returns the number of an error, as Linux has it (errno.h).
fn errno_number(errno: Errno) -> u32
    ensures { result ≡ errno_number errno }
{
    match errno {
        Errno::EPERM => 1,
        Errno::ENOENT => 2,
        Errno::EBADF => 9,
        Errno::EBUSY => 16,
        Errno::EEXIST => 17,
        Errno::ENOTDIR => 20,
        Errno::EISDIR => 21,
        Errno::EINVAL => 22,
        Errno::EFBIG => 27,
        Errno::EMLINK => 31,
        Errno::ENAMETOOLONG => 36,
        Errno::ENOTEMPTY => 39,
        Errno::ELOOP => 40,
        Errno::EOVERFLOW => 75,
    }
}
