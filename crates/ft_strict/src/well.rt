// A request for which there must be memory.
ghost use Rattle.std.specs.Prelude.{◌≡◌, ◌↔◌, option_copied, IfOk, IsTrue, OnErr};
ghost use Rattle.ft_line.specs.Wells.{IsMet};
ghost use Rattle.ft_names.specs.Names.{moment, names_after, names_of};

use ft_base::Memory;
use ft_core::{Answer, Core, Fault, Request};
use ft_line::execute;
use ft_names::Names;
use std::alloc::Global;

/// Carries out a request, as `execute` does, for which there must be memory, and gives the name to
/// its answer, if there is one.
///
/// Fails only for lack of memory. Room for the name is reserved before the request is carried out.
pub fn try_execute(
    alloc: Global,
    request: Request,
    given: Option<&[u8]>,
    names: &mut Names,
    core: &mut Core,
) -> Result<Answer, Memory>
    ensures ok { IfOk result (λ answer. IsMet core.old.state request answer core.new.state) }
    ensures names { IfOk result (λ answer. names_of names.new
        ≡ names_after (option_copied given.entry) answer (names_of names.old)) }
    ensures err { OnErr result (moment core.new names.new ≡ moment core.old names.old) }
{
    names.reserve(alloc, given)?;
    let answer = execute(core, request);
    if wants_memory(&answer) {
        return Err(Memory);
    }
    names.give(given, &answer);
    Ok(answer)
}

/// Returns whether there was not enough memory for a request.
fn wants_memory(answer: &Answer) -> bool
    ensures { IsTrue result ↔ answer.now ≡ Answer.Refused Fault.Memory }
{
    matches!(answer, Answer::Refused(Fault::Memory))
}
