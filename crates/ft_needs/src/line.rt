// The line that lists the limits which a script needs.
ghost use Rattle.std.specs.Prelude.{◌≡◌, Some};
ghost use Rattle.ft_needs.specs.Lines.{flag_text, flags_text, needs_text, raised_by, raised_for, size_text, with_flag, with_flags};

use crate::values::{limit_of, size_of};
use ft_core::Limits;
use ft_words::{Lines, Words};
use std::fmt;

/// Returns the limits that are at least these, and at least those that a script needs by this line:
/// `# needs` and flags with their values, as `# needs --largest-file 3G`. Another line needs
/// nothing.
pub fn raised_by(limits: Limits, line: &[u8]) -> Limits
    ensures { result ≡ raised_by limits line.now }
{
    let text = line.strip_suffix(b"\r".as_slice()).unwrap_or(line);
    let mut words = Words::of(text);
    if words.next() != Some(b"#".as_slice()) || words.next() != Some(b"needs".as_slice()) {
        return limits;
    }
    with_flags(words, limits).unwrap_or(limits)
}

/// Returns the limits that are at least these, and at least those that a script needs by its first
/// line.
pub fn raised_for(limits: Limits, script: &[u8]) -> Limits
    ensures { result ≡ raised_for limits script.now }
{
    match Lines::of(script).next() {
        Some(line) => raised_by(limits, line),
        None => limits,
    }
}

/// Returns these limits, raised to at least what flags with their values request.
fn with_flags(words: Words<'_>, limits: Limits) -> Option<Limits>
    ensures { result ≡ with_flags words.entry limits }
{
    let mut words = words;
    let mut limits = limits;
    while let Some(flag) = words.next() {
        let value = words.next()?;
        limits = with_flag(flag, value, limits)?;
    }
    Some(limits)
}

/// Returns these limits, raised to at least what one flag with its value requests. Returns `None`
/// if there is no such flag, or if its value is no limit.
fn with_flag(flag: &[u8], value: &[u8], limits: Limits) -> Option<Limits>
    ensures { result ≡ with_flag flag.now value.now limits }
{
    let most = Limits::greatest();
    let mut limits = limits;
    if flag == b"--largest-file".as_slice() {
        limits.file_size = limits.file_size.max(size_of(value, most.file_size)?);
    } else if flag == b"--most-calls".as_slice() {
        limits.calls = limits.calls.max(limit_of(value, most.calls)?);
    } else if flag == b"--most-transactions".as_slice() {
        limits.transactions = limits.transactions.max(limit_of(value, most.transactions)?);
    } else if flag == b"--deepest".as_slice() {
        limits.depth = limits.depth.max(limit_of(value, most.depth)?);
    } else {
        return None;
    }
    Some(limits)
}

/// The line by which a script needs these limits of sizes and calls, with its line feed; nothing if
/// they are no more than the default ones.
#[derive(Clone, Copy)]
pub struct NeedsLine<'a>(pub &'a Limits);

impl fmt::Display for NeedsLine<'_> {
    ghost output = { λ line. Some (needs_text line.0.now) };

    fn fmt<W: fmt::Write>(&self, f: &mut fmt::Formatter<W>) -> fmt::Result {
        let least = Limits::default();
        if self.0.file_size <= least.file_size && self.0.calls <= least.calls {
            return Ok(());
        }
        writeln!(f, "# needs{}", Flags(self.0))
    }
}

/// The flags that are needed.
#[derive(Clone, Copy)]
struct Flags<'a>(&'a Limits);

impl fmt::Display for Flags<'_> {
    ghost output = { λ flags. Some (flags_text flags.0.now) };

    fn fmt<W: fmt::Write>(&self, f: &mut fmt::Formatter<W>) -> fmt::Result {
        let least = Limits::default();
        if self.0.file_size > least.file_size {
            write!(f, " --largest-file {}", Size(self.0.file_size))?;
        }
        if self.0.calls > least.calls {
            write!(f, " --most-calls {}", self.0.calls)?;
        }
        Ok(())
    }
}

/// A size, in the greatest unit of which it is a multiple.
#[derive(Clone, Copy)]
struct Size(u64);

impl fmt::Display for Size {
    ghost output = { λ size. Some (size_text size.0) };

    fn fmt<W: fmt::Write>(&self, f: &mut fmt::Formatter<W>) -> fmt::Result {
        let Size(size) = *self;
        if size % (1 << 30) == 0 {
            write!(f, "{}G", size / (1 << 30))
        } else if size % (1 << 20) == 0 {
            write!(f, "{}M", size / (1 << 20))
        } else if size % (1 << 10) == 0 {
            write!(f, "{}K", size / (1 << 10))
        } else {
            write!(f, "{size}")
        }
    }
}
