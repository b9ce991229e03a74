// The meaning of a line of a strict script.
ghost use Rattle.std.specs.Prelude.{◌≡◌, IfOk, option_copied};
ghost use Rattle.ft_names.specs.Names.{names_of};
ghost use Rattle.ft_names.specs.Meanings.{seen};
ghost use Rattle.ft_strict.specs.Strict.{is_asking, may_be_tried, may_fail, strict_meaning_of, tried};

use ft_base::Memory;
use ft_line::ScriptLine;
use ft_names::{LineMeaning, NamedLine, Names, named_line};
use std::alloc::Global;

/// A line of a strict script.
#[derive(Drop)]
pub(crate) struct StrictLine<'a> {
    /// Its meaning, and the name that it gives.
    pub named: NamedLine<'a>,
    /// Whether the run goes on if it does not do what it requests.
    pub may_fail: bool,
}

/// Returns the meaning of a line of a strict script. After `try ` there must be a request, a report
/// or a transfer.
///
/// Fails only for lack of memory.
pub(crate) fn strict_line_of<'a>(
    alloc: Global,
    line: &'a [u8],
    names: &Names,
) -> Result<StrictLine<'a>, Memory>
    ensures meaning { IfOk result
        (λ strict. seen strict.named ≡ strict_meaning_of (names_of names.now) line.now) }
    ensures may_fail { IfOk result
        (λ strict. strict.may_fail ≡ may_fail (names_of names.now) line.now) }
{
    let Some(tried) = tried(line) else {
        let named = named_line(alloc, line, names)?;
        return Ok(StrictLine {
            named,
            may_fail: false,
        });
    };
    let named = named_line(alloc, tried, names)?;
    if !may_be_tried(&named.meaning) {
        return Ok(StrictLine {
            named: NamedLine::bad(),
            may_fail: false,
        });
    }
    Ok(StrictLine {
        named,
        may_fail: true,
    })
}

/// Returns the text after `try `, if a line begins with it.
fn tried(line: &[u8]) -> Option<&[u8]>
    ensures { option_copied result ≡ tried line.now }
{
    line.strip_prefix(b"try ".as_slice())
}

/// Returns whether a line may be tried: it is a valid request or a transfer.
fn may_be_tried(meaning: &LineMeaning) -> bool
    ensures { result ≡ may_be_tried meaning.now }
{
    match meaning {
        LineMeaning::Line(line) => is_asking(line),
        LineMeaning::Transfer(_) => true,
    }
}

/// Returns whether a line is a valid request.
fn is_asking(line: &ScriptLine) -> bool
    ensures { result ≡ is_asking line.now }
{
    matches!(line, ScriptLine::Request(_) | ScriptLine::Query(_))
}
