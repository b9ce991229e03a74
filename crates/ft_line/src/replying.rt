// One line of a script, carried out.
ghost use Rattle.std.specs.Prelude.{string_bytes, IfOk, OnErr, OnOk};
ghost use Rattle.ft_line.specs.Requests.{parse_line};
ghost use Rattle.ft_line.specs.Lines.{GivesText, IsLegal, MayGiveText};

use crate::line::ScriptLine;
use crate::meaning::parse_line;
use crate::putting::put_answer;
use crate::reporting::report_of;
use ft_base::Memory;
use ft_core::{Answer, Core, Request};
use std::alloc::Global;

/// Carries out one line of a script, without its line feed, and returns the text of its reply.
/// After a commit or an abort that is not refused, what it has released is swept.
///
/// Fails only for lack of memory: then the line was not carried out, or there was no memory for the
/// text of its reply.
pub fn reply_to(alloc: Global, line: &[u8], core: &mut Core) -> Result<String, Memory>
    ensures ok { IfOk result
        (λ reply. GivesText core.old.state (parse_line line.now) (string_bytes reply)
        core.new.state) }
    ensures err { OnErr result
        (MayGiveText core.old.state (parse_line line.now) core.new.state) }
{
    let mut reply = String::new(alloc);
    reply_into(alloc, line, core, &mut reply)?;
    Ok(reply)
}

/// Carries out one line of a script, without its line feed, and replaces another text by the text
/// of the reply. After a commit or an abort that is not refused, what it has released is swept.
///
/// Fails only for lack of memory: then the line was not carried out, or there was no memory for the
/// text of its reply.
pub fn reply_into(
    alloc: Global,
    line: &[u8],
    core: &mut Core,
    reply: &mut String,
) -> Result<(), Memory>
    ensures ok { OnOk result
        (GivesText core.old.state (parse_line line.now) (string_bytes reply.new) core.new.state) }
    ensures err { OnErr result
        (MayGiveText core.old.state (parse_line line.now) core.new.state) }
{
    reply.clear();
    match parse_line(alloc, line)? {
        ScriptLine::Silent => Ok(()),
        ScriptLine::Bad => Ok(reply.push_str("bad line\n")?),
        ScriptLine::Query(report) => {
            *reply = report_of(alloc, report, core)?;
            Ok(())
        }
        ScriptLine::Request(request) => {
            let answer = execute(core, request);
            put_answer(reply, &answer)?;
            Ok(reply.push_str("\n")?)
        }
    }
}

/// Carries out a request. After a commit or an abort that is not refused, what it has released is
/// swept.
pub fn execute(core: &mut Core, request: Request) -> Answer
    ensures { IsLegal core.old.state request result core.new.state }
{
    let answer = core.answer(request);
    if matches!(answer, Answer::Committed | Answer::Aborted(_)) {
        core.sweep();
    }
    answer
}
