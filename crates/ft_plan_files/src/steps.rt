// The steps for which a line that carries a file of the disk stands.
ghost use Rattle.std.specs.Prelude.{◌≡◌, Some};
ghost use Rattle.ft_plan_files.specs.FileLines.{filling_steps, front, get_text, put_text, steps_text};

use ft_words::{CodedArgument, PercentCoded};
use std::fmt;

/// The steps of a `put` of these bytes, in a line each, without a line feed after the last.
#[derive(Clone, Copy)]
pub(crate) struct PutText<'a> {
    /// Whether each of them is tried.
    pub(crate) tried: bool,
    /// The path of the file of the tree.
    pub(crate) path: &'a [u8],
    /// The bytes of the file of the disk.
    pub(crate) bytes: &'a [u8],
}

impl fmt::Display for PutText<'_> {
    ghost output = { λ put. Some (put_text put.tried put.path.now put.bytes.now) };

    fn fmt<W: fmt::Write>(&self, f: &mut fmt::Formatter<W>) -> fmt::Result {
        let front = front(self.tried);
        let path = PercentCoded(self.path);
        let size = self.bytes.len();
        let filling = FillingText {
            tried: self.tried,
            bytes: self.bytes,
        };
        write!(
            f,
            "{front}open wct {path} as put\n{front}ftruncate @put {size}\n{filling}"
        )
    }
}

/// The last two of these steps.
#[derive(Clone, Copy)]
struct FillingText<'a> {
    tried: bool,
    bytes: &'a [u8],
}

impl fmt::Display for FillingText<'_> {
    ghost output = { λ text. Some (steps_text text.tried (filling_steps text.bytes.now)) };

    fn fmt<W: fmt::Write>(&self, f: &mut fmt::Formatter<W>) -> fmt::Result {
        let front = front(self.tried);
        let data = CodedArgument(self.bytes);
        write!(f, "{front}write @put{data}\n{front}close @put")
    }
}

/// The steps of a `get`, in a line each, without a line feed after the last.
#[derive(Clone, Copy)]
pub(crate) struct GetText<'a> {
    /// Whether each of them is tried.
    pub(crate) tried: bool,
    /// The path of the file of the tree.
    pub(crate) path: &'a [u8],
}

impl fmt::Display for GetText<'_> {
    ghost output = { λ get. Some (get_text get.tried get.path.now) };

    fn fmt<W: fmt::Write>(&self, f: &mut fmt::Formatter<W>) -> fmt::Result {
        let front = front(self.tried);
        let path = PercentCoded(self.path);
        let most = u64::MAX;
        write!(
            f,
            "{front}open r {path} as get\n{front}read @get {most}\n{front}close @get"
        )
    }
}

/// Returns what comes before a step that is tried or not.
fn front(tried: bool) -> &'static str
    ensures { result.now ≡ front tried }
{
    if tried { "try " } else { "" }
}
