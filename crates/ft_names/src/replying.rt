// One line of a script with names, carried out.
ghost use Rattle.std.specs.Prelude.{◌≡◌, ℕ, List, [], option_copied, string_bytes, OnErr, OnOk};
ghost use Rattle.ft_names.specs.Names.{moment};
ghost use Rattle.ft_names.specs.Lines.{Gives, GivesText, MayGive, MayGiveText, MeaningGives, MeaningMayGive, TransferGives};

use crate::meaning::{LineMeaning, NamedLine, named_line};
use crate::naming::Names;
use ft_base::Memory;
use ft_core::{Core, Request};
use ft_line::{ScriptLine, execute, put_answer, report_of};
use ft_transfer::{DiskFiles, Transfer, carry_out, put_transfer_answer};
use std::alloc::Global;

/// Carries out one line of a script, without its line feed, and replaces another text by the text
/// of the reply. After a commit or an abort that is not refused, what it has released is swept.
///
/// Fails only for lack of memory: then the line was not carried out, or there was no memory for the
/// text of its reply.
#[tactic(auto, using(crate::proofs::Answering::gives_text, crate::proofs::Answering::may_give_text))]
pub fn reply_into<F: DiskFiles>(
    alloc: Global,
    line: &[u8],
    names: &mut Names,
    files: &F,
    core: &mut Core,
    reply: &mut String,
) -> Result<(), Memory>
    ensures ok { OnOk result (GivesText (F.tells files.now) (moment core.old names.old) line.now
        (string_bytes reply.new) (moment core.new names.new)) }
    ensures err { OnErr result (MayGiveText (F.tells files.now) (moment core.old names.old)
        line.now (moment core.new names.new)) }
{
    let line = named_line(alloc, line, names)?;
    reply_to_meaning(alloc, line, names, files, core, reply)
}

/// Carries out what a line means, and replaces another text by the text of the reply.
fn reply_to_meaning<F: DiskFiles>(
    alloc: Global,
    line: NamedLine<'_>,
    names: &mut Names,
    files: &F,
    core: &mut Core,
    reply: &mut String,
) -> Result<(), Memory>
    ensures ok { OnOk result (MeaningGives (F.tells files.now) (moment core.old names.old)
        line.entry.meaning (option_copied line.entry.given) (string_bytes reply.new)
        (moment core.new names.new)) }
    ensures err { OnErr result (MeaningMayGive (F.tells files.now) (moment core.old names.old)
        line.entry.meaning (option_copied line.entry.given) (moment core.new names.new)) }
{
    let NamedLine { meaning, given } = line;
    reply.clear();
    match meaning {
        LineMeaning::Line(line) => reply_to_line(alloc, line, given, names, core, reply),
        LineMeaning::Transfer(transfer) => reply_to_transfer(transfer, files, core, reply),
    }
}

/// Carries out a line that is no transfer, and puts the text of the reply.
fn reply_to_line(
    alloc: Global,
    line: ScriptLine,
    given: Option<&[u8]>,
    names: &mut Names,
    core: &mut Core,
    reply: &mut String,
) -> Result<(), Memory>
    requires { string_bytes reply.old ≡ [] }
    ensures ok { OnOk result (Gives (moment core.old names.old) line
        (option_copied given.entry) (string_bytes reply.new) (moment core.new names.new)) }
    ensures err { OnErr result (MayGive (moment core.old names.old) line
        (option_copied given.entry) (moment core.new names.new)) }
{
    match line {
        ScriptLine::Silent => Ok(()),
        ScriptLine::Bad => Ok(reply.push_str("bad line\n")?),
        ScriptLine::Query(report) => {
            *reply = report_of(alloc, report, core)?;
            Ok(())
        }
        ScriptLine::Request(request) => {
            reply_to_request(alloc, request, given, names, core, reply)
        }
    }
}

/// Carries out a transfer, and puts the text of its answer.
fn reply_to_transfer<F: DiskFiles>(
    transfer: Transfer,
    files: &F,
    core: &mut Core,
    reply: &mut String,
) -> Result<(), Memory>
    requires { string_bytes reply.old ≡ [] }
    ensures ok { OnOk result (TransferGives (F.tells files.now) core.old.state transfer
        (string_bytes reply.new) core.new.state) }
    ensures err { OnErr result ((text : List ℕ)
        × TransferGives (F.tells files.now) core.old.state transfer text core.new.state) }
{
    let answer = carry_out(transfer, files, core);
    put_transfer_answer(reply, &answer)?;
    Ok(reply.push_str("\n")?)
}

/// Carries out a request, gives the name to the number in its answer, and puts the answer's text.
fn reply_to_request(
    alloc: Global,
    request: Request,
    given: Option<&[u8]>,
    names: &mut Names,
    core: &mut Core,
    reply: &mut String,
) -> Result<(), Memory>
    requires { string_bytes reply.old ≡ [] }
    ensures ok { OnOk result (Gives (moment core.old names.old) (ScriptLine.Request request)
        (option_copied given.entry) (string_bytes reply.new) (moment core.new names.new)) }
    ensures err { OnErr result (MayGive (moment core.old names.old) (ScriptLine.Request request)
        (option_copied given.entry) (moment core.new names.new)) }
{
    names.reserve(alloc, given)?;
    let answer = execute(core, request);
    names.give(given, &answer);
    put_answer(reply, &answer)?;
    Ok(reply.push_str("\n")?)
}
