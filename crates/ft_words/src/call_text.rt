// The text of a call.
ghost use Rattle.std.specs.Prelude.{◌≡◌, ◌++◌, Some};
ghost use Rattle.ft_words.specs.CallTexts.{call_text, flags_text, given_mode_text, whence_text};
ghost use Rattle.ft_words.specs.Arguments.{argument_text};
ghost use Rattle.ft_words.specs.Verbs.{word, verb_of};

use crate::modes::{ModeText, OwnerText};
use crate::text::{CodedArgument, PercentCoded};
use crate::tree_text::{access_text, flag_text};
use crate::verbs::Verb;
use ft_posix::{Call, OpenFlags, Whence};
use std::fmt;

/// A call: its name and its arguments, as a line of words has them.
///
/// An empty last word is left out with the space before it, except the path after the mode of a
/// `mkdir`, since a mode without a path would be read as one.
#[derive(Clone, Copy)]
pub struct CallText<'a>(pub &'a Call);

impl fmt::Display for CallText<'_> {
    ghost output = { λ text. Some (call_text text.0.now) };

    fn fmt<W: fmt::Write>(&self, f: &mut fmt::Formatter<W>) -> fmt::Result {
        let verb = Verb::of(self.0);
        let (first, second, third) = arguments(self.0);
        write!(f, "{}{first}{second}{third}", verb.word())
    }
}

/// An argument, which is printed after a space.
#[derive(Clone, Copy)]
enum Argument<'a> {
    Absent,
    Number(u64),
    Integer(i64),
    Whence(Whence),
    Flags(OpenFlags),
    Mode(u16),
    Owner(Option<u32>),
    Path(&'a [u8]),
    // A path or bytes, left out where they are empty.
    Last(&'a [u8]),
}

impl fmt::Display for Argument<'_> {
    ghost output = { λ argument. Some (argument_text argument) };

    fn fmt<W: fmt::Write>(&self, f: &mut fmt::Formatter<W>) -> fmt::Result {
        match self {
            Argument::Absent => Ok(()),
            Argument::Number(number) => write!(f, " {number}"),
            Argument::Integer(number) => write!(f, " {number}"),
            Argument::Whence(whence) => write!(f, " {}", whence_text(*whence)),
            Argument::Flags(flags) => write!(f, " {}", FlagsText(*flags)),
            Argument::Mode(mode) => write!(f, " {}", ModeText(*mode)),
            Argument::Owner(owner) => write!(f, " {}", OwnerText(*owner)),
            Argument::Path(path) => write!(f, " {}", PercentCoded(path)),
            Argument::Last(bytes) => CodedArgument(bytes).fmt(f),
        }
    }
}

/// Returns the arguments of a call, which has at most three.
fn arguments(call: &Call) -> (Argument<'_>, Argument<'_>, Argument<'_>)
    ensures { word (verb_of call.now) ++ argument_text result.0 ++ argument_text result.1
        ++ argument_text result.2 ≡ call_text call.now }
{
    use Argument::{Absent, Flags, Integer, Last, Mode, Number, Owner, Path};
    match call {
        Call::Mkdir {
            path,
            mode: Some(mode),
        } => (Absent, Mode(*mode), Path(path.as_bytes())),
        Call::Mkdir { path, mode: None }
        | Call::Rmdir { path }
        | Call::List { path }
        | Call::Stat { path }
        | Call::Unlink { path }
        | Call::Readlink { path }
        | Call::Lstat { path } => (Absent, Absent, Last(path.as_bytes())),
        Call::Link { old, new } | Call::Rename { old, new } => {
            (Absent, Path(old.as_bytes()), Last(new.as_bytes()))
        }
        Call::Symlink { target, path } => {
            (Absent, Path(target.as_bytes()), Last(path.as_bytes()))
        }
        Call::Open { path, flags } => (Absent, Flags(*flags), Last(path.as_bytes())),
        Call::Truncate { len, path } => (Absent, Integer(*len), Last(path.as_bytes())),
        Call::Close { fd } | Call::Fstat { fd } => (Absent, Absent, Number(*fd)),
        Call::Read { fd, len } => (Absent, Number(*fd), Number(*len)),
        Call::Ftruncate { fd, len } => (Absent, Number(*fd), Integer(*len)),
        Call::Pread { fd, off, len } => (Number(*fd), Integer(*off), Number(*len)),
        Call::Lseek { fd, whence, off } => {
            (Number(*fd), Argument::Whence(*whence), Integer(*off))
        }
        Call::Write { fd, bytes } => (Absent, Number(*fd), Last(bytes.as_slice())),
        Call::Pwrite { fd, off, bytes } => (Number(*fd), Integer(*off), Last(bytes.as_slice())),
        Call::Chmod { mode, path } => (Absent, Mode(*mode), Last(path.as_bytes())),
        Call::Fchmod { fd, mode } => (Absent, Number(*fd), Mode(*mode)),
        Call::Chown { owner, group, path } | Call::Lchown { owner, group, path } => {
            (Owner(*owner), Owner(*group), Last(path.as_bytes()))
        }
        Call::Fchown { fd, owner, group } => (Number(*fd), Owner(*owner), Owner(*group)),
        Call::Utime { time, path } | Call::Lutime { time, path } => (
            Integer(time.seconds),
            Number(u64::from(time.nanoseconds)),
            Last(path.as_bytes()),
        ),
        Call::Futime { fd, time } => (
            Number(*fd),
            Integer(time.seconds),
            Number(u64::from(time.nanoseconds)),
        ),
    }
}

/// The text of how a file is to be opened.
#[derive(Clone, Copy)]
struct FlagsText(OpenFlags);

impl fmt::Display for FlagsText {
    ghost output = { λ text. Some (flags_text text.0) };

    fn fmt<W: fmt::Write>(&self, f: &mut fmt::Formatter<W>) -> fmt::Result {
        let access = access_text(self.0.access);
        let create = flag_text(self.0.create, "c");
        let excl = flag_text(self.0.excl, "x");
        let trunc = flag_text(self.0.trunc, "t");
        let append = flag_text(self.0.append, "a");
        let mode = GivenMode(self.0.mode);
        write!(f, "{access}{create}{excl}{trunc}{append}{mode}")
    }
}

/// The text of the mode of a file that is made, if a mode is given.
#[derive(Clone, Copy)]
struct GivenMode(Option<u16>);

impl fmt::Display for GivenMode {
    ghost output = { λ given. Some (given_mode_text given.0) };

    fn fmt<W: fmt::Write>(&self, f: &mut fmt::Formatter<W>) -> fmt::Result {
        match self.0 {
            Some(mode) => write!(f, "={}", ModeText(mode)),
            None => Ok(()),
        }
    }
}

/// Returns the word for the point from which an offset counts.
fn whence_text(whence: Whence) -> &'static str
    ensures { result.now ≡ whence_text whence }
{
    match whence {
        Whence::Set => "set",
        Whence::Cur => "cur",
        Whence::End => "end",
    }
}
