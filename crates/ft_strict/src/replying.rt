// One line of a strict script, carried out.
ghost use Rattle.std.specs.Prelude.{ℕ, Bool, List, option_copied, string_bytes, IfOk, OnErr};
ghost use Rattle.ft_names.specs.Names.{moment};
ghost use Rattle.ft_strict.specs.Strict.{AnswersStrictly, Does, MayAnswerStrictly, MayDo, MeaningDoes, MeaningMayDo, Tells, TransferDoes};

use crate::line::strict_line_of;
use crate::well::try_execute;
use ft_base::Memory;
use ft_core::{Core, Request};
use ft_line::{AnswerText, Query, ScriptLine, is_well, whole_report_of};
use ft_names::{LineMeaning, NamedLine, Names};
use ft_transfer::{DiskFiles, Transfer, carry_out, did_well, put_transfer_answer};
use std::alloc::Global;

/// The reply to a line of a strict script.
#[derive(Debug, PartialEq, Eq, Drop)]
pub struct StrictReply {
    /// Its text, with its line feeds.
    pub text: String,
    /// Whether the run goes on after it.
    pub goes_on: bool,
}

/// Carries out one line of a strict script, without its line feed, and returns the text of its
/// reply, as `reply_into` of ft_names does; but a `tree` while a transaction is live is refused as
/// `Live`. The run goes on if the line does what it requests, or begins with `try `.
///
/// Fails only for lack of memory, even for a request or for the contents of a report: then the line
/// was not carried out, or there was no memory for the text of its reply. A transfer for which
/// there is not enough memory did not do what it requests.
pub fn strict_reply_to<F: DiskFiles>(
    alloc: Global,
    line: &[u8],
    names: &mut Names,
    files: &F,
    core: &mut Core,
) -> Result<StrictReply, Memory>
    ensures ok { IfOk result
        (λ reply. AnswersStrictly (F.tells files.now) reply.goes_on (moment core.old names.old)
        line.now (string_bytes reply.text) (moment core.new names.new)) }
    ensures err { OnErr result (MayAnswerStrictly (F.tells files.now) (moment core.old names.old)
        line.now (moment core.new names.new)) }
{
    let line = strict_line_of(alloc, line, names)?;
    let (text, well) = reply_to_meaning(alloc, line.named, names, files, core)?;
    Ok(StrictReply {
        text,
        goes_on: well || line.may_fail,
    })
}

/// Carries out the request of a line. Returns the text of its reply, and whether the line did what
/// it requests.
fn reply_to_meaning<F: DiskFiles>(
    alloc: Global,
    line: NamedLine<'_>,
    names: &mut Names,
    files: &F,
    core: &mut Core,
) -> Result<(String, bool), Memory>
    ensures ok { IfOk result
        (λ reply. MeaningDoes (F.tells files.now) reply.1 (moment core.old names.old)
        line.entry.meaning (option_copied line.entry.given) (string_bytes reply.0)
        (moment core.new names.new)) }
    ensures err { OnErr result (MeaningMayDo (F.tells files.now) (moment core.old names.old)
        line.entry.meaning (option_copied line.entry.given) (moment core.new names.new)) }
{
    let NamedLine { meaning, given } = line;
    match meaning {
        LineMeaning::Line(line) => reply_to_line(alloc, line, given, names, core),
        LineMeaning::Transfer(transfer) => reply_to_transfer(alloc, transfer, files, core),
    }
}

/// Carries out a line that is no transfer. Returns the text of its reply, and whether the line did
/// what it requests.
fn reply_to_line(
    alloc: Global,
    line: ScriptLine,
    given: Option<&[u8]>,
    names: &mut Names,
    core: &mut Core,
) -> Result<(String, bool), Memory>
    ensures ok { IfOk result
        (λ reply. Does reply.1 (moment core.old names.old) line
        (option_copied given.entry) (string_bytes reply.0) (moment core.new names.new)) }
    ensures err { OnErr result (MayDo (moment core.old names.old) line
        (option_copied given.entry) (moment core.new names.new)) }
{
    match line {
        ScriptLine::Silent => Ok((String::new(alloc), true)),
        ScriptLine::Bad => Ok((String::from_str(alloc, "bad line\n")?, false)),
        ScriptLine::Query(report) => reply_to_report(alloc, report, core),
        ScriptLine::Request(request) => reply_to_request(alloc, request, given, names, core),
    }
}

/// Carries out a transfer. Returns the text of its answer, and whether it was made.
fn reply_to_transfer<F: DiskFiles>(
    alloc: Global,
    transfer: Transfer,
    files: &F,
    core: &mut Core,
) -> Result<(String, bool), Memory>
    ensures ok { IfOk result
        (λ reply. TransferDoes (F.tells files.now) reply.1 core.old.state transfer
        (string_bytes reply.0) core.new.state) }
    ensures err { OnErr result ((well : Bool) × (text : List ℕ)
        × TransferDoes (F.tells files.now) well core.old.state transfer text core.new.state) }
{
    let answer = carry_out(transfer, files, core);
    let mut text = String::new(alloc);
    put_transfer_answer(&mut text, &answer)?;
    text.push_str("\n")?;
    Ok((text, did_well(&answer)))
}

/// Carries out a request. Returns the text of its reply, and whether it did what it requests.
fn reply_to_request(
    alloc: Global,
    request: Request,
    given: Option<&[u8]>,
    names: &mut Names,
    core: &mut Core,
) -> Result<(String, bool), Memory>
    ensures ok { IfOk result
        (λ reply. Does reply.1 (moment core.old names.old) (ScriptLine.Request request)
        (option_copied given.entry) (string_bytes reply.0) (moment core.new names.new)) }
    ensures err { OnErr result (MayDo (moment core.old names.old) (ScriptLine.Request request)
        (option_copied given.entry) (moment core.new names.new)) }
{
    let answer = try_execute(alloc, request, given, names, core)?;
    let text = format!(in alloc; "{}\n", AnswerText(&answer))?;
    Ok((text, is_well(&answer)))
}

/// Returns the text of a report, and whether the report is given: a tree is not while a transaction
/// is live.
fn reply_to_report(alloc: Global, report: Query, core: &Core) -> Result<(String, bool), Memory>
    ensures { IfOk result (λ reply. Tells reply.1 core.now.state report (string_bytes reply.0)) }
{
    if report == Query::Tree && core.has_live() {
        return Ok((String::from_str(alloc, "refused Live\n")?, false));
    }
    match whole_report_of(alloc, report, core)? {
        Some(text) => Ok((text, true)),
        None => Err(Memory),
    }
}
