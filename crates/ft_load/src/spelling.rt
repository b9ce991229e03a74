// How a script is written: with numbers or with names, and below which directory of the tree.
ghost use Rattle.std.specs.Prelude.{◌≡◌, [], true, false, Some};
ghost use Rattle.ft_load.specs.Spellings.{IsWithoutLastSlashes, begin_line, call_line, commit_line, has_names, is_top_new, named_text, top_of, top_path};

use ft_core::Limits;
use ft_posix::Call;
use ft_words::{CallText, CodedArgument, OwnerText};
use std::fmt;

/// The path of the root.
const ROOT_PATH: &[u8] = b"/";

/// How a script spells its transaction, its descriptors and its paths.
///
/// With numbers, it is for a core that is new: the transaction is number 1, and the descriptor of a
/// file is the stamp of its `open`. With names, it is for any core: the transaction is `load`, and
/// the open file is `file`. Then everything that it makes is in one directory of the tree.
#[derive(Clone, Copy)]
pub struct Spelling<'a> {
    pub(crate) has_names: bool,
    // the path of that directory, without a slash at its end: it is empty if that is the root
    pub(crate) top: &'a [u8],
}

/// What a script is like.
#[derive(Clone, Copy)]
pub struct Form<'a> {
    /// The limits of the core that it is for.
    pub limits: Limits,
    /// How it is spelled.
    pub spelling: Spelling<'a>,
}

impl<'a> Spelling<'a> {
    /// Returns the spelling with numbers.
    pub fn with_numbers() -> Spelling<'static>
        ensures names { has_names result ≡ false }
        ensures top { top_of result ≡ [] }
    {
        Spelling {
            has_names: false,
            top: b"".as_slice(),
        }
    }

    /// Returns the spelling with names, for a script that puts everything into the directory at
    /// this path of the tree. Slashes at the end of the path do not count. The script makes the
    /// directory if it is not the root.
    pub fn with_names(path: &'a [u8]) -> Spelling<'a>
        ensures names { has_names result ≡ true }
        ensures top { IsWithoutLastSlashes path.now (top_of result) }
    {
        Spelling {
            has_names: true,
            top: without_last_slashes(path),
        }
    }

    /// Returns what comes before the paths of the source in those of the script.
    pub fn top(self) -> &'a [u8]
        ensures { result.now ≡ top_of self.entry }
    {
        self.top
    }

    /// Returns the path of the directory that holds everything.
    pub(crate) fn top_path(self) -> &'a [u8]
        ensures { result.now ≡ top_path self.entry }
    {
        if self.top.is_empty() {
            ROOT_PATH
        } else {
            self.top
        }
    }

    /// Returns whether this directory is new: it is made by the script, or is the root of a new
    /// core.
    pub(crate) fn is_top_new(self) -> bool
        ensures { result ≡ is_top_new self.entry }
    {
        !self.has_names || !self.top.is_empty()
    }

    /// Returns the line that begins the transaction.
    pub(crate) fn begin_line(self) -> &'static str
        ensures { result.now ≡ begin_line self.entry }
    {
        if self.has_names {
            "begin as load\n"
        } else {
            "begin\n"
        }
    }

    /// Returns the line that commits it.
    pub(crate) fn commit_line(self) -> &'static str
        ensures { result.now ≡ commit_line self.entry }
    {
        if self.has_names {
            "commit load\n"
        } else {
            "commit 1\n"
        }
    }
}

/// Returns a path without the slashes at its end.
fn without_last_slashes(path: &[u8]) -> &[u8]
    ensures { IsWithoutLastSlashes path.now result.now }
{
    let mut front = path;
    while let Some(less) = front.strip_suffix(b"/".as_slice()) {
        front = less;
    }
    front
}

/// A call of the transaction, on its line.
#[derive(Clone, Copy)]
pub(crate) struct CallLine<'a> {
    pub(crate) spelling: Spelling<'a>,
    pub(crate) call: &'a Call,
}

impl fmt::Display for CallLine<'_> {
    ghost output = { λ line. Some (call_line line.spelling line.call.now) };

    fn fmt<W: fmt::Write>(&self, f: &mut fmt::Formatter<W>) -> fmt::Result {
        if self.spelling.has_names {
            writeln!(f, "load {}", NamedCall(self.call))
        } else {
            writeln!(f, "1 {}", CallText(self.call))
        }
    }
}

/// A call, with a name in place of the descriptor of the open file. An `open` gives the name.
#[derive(Clone, Copy)]
struct NamedCall<'a>(&'a Call);

impl fmt::Display for NamedCall<'_> {
    ghost output = { λ named. Some (named_text named.0.now) };

    fn fmt<W: fmt::Write>(&self, f: &mut fmt::Formatter<W>) -> fmt::Result {
        match self.0 {
            Call::Open { .. } => write!(f, "{} as file", CallText(self.0)),
            Call::Close { .. } => f.write_str("close file"),
            Call::Write { bytes, .. } => {
                write!(f, "write file{}", CodedArgument(bytes.as_slice()))
            }
            Call::Fchown { owner, group, .. } => {
                write!(f, "fchown file {} {}", OwnerText(*owner), OwnerText(*group))
            }
            Call::Futime { time, .. } => {
                write!(f, "futime file {} {}", time.seconds, time.nanoseconds)
            }
            _ => CallText(self.0).fmt(f),
        }
    }
}
