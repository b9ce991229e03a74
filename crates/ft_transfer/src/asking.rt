// A request of a transfer, and what the next one needs of its answer.
ghost use Rattle.ft_transfer.specs.Answers.{bytes_in, done, number_in, txn_in, well_in};
ghost use Rattle.ft_transfer.specs.Transfers.{Obtains};

use ft_base::Sequence;
use ft_calls::Reply;
use ft_core::{Answer, Core, Request, TxnId};
use ft_line::{execute, is_well};

/// Makes a request. Fails with its answer if it did not do what it requests.
pub(crate) fn done(core: &mut Core, request: Request) -> Result<(), Answer>
    ensures { Obtains core.old.state request done result core.new.state }
{
    let answer = execute(core, request);
    if is_well(&answer) {
        Ok(())
    } else {
        Err(answer)
    }
}

/// Makes a request, and returns its answer. Fails with that if it did not do what it requests.
pub(crate) fn well(core: &mut Core, request: Request) -> Result<Answer, Answer>
    ensures { Obtains core.old.state request well_in result core.new.state }
{
    let answer = execute(core, request);
    if !is_well(&answer) {
        return Err(answer);
    }
    Ok(answer)
}

/// Makes a request, and returns the transaction that was begun. Fails with the answer if none was.
pub(crate) fn txn_of(core: &mut Core, request: Request) -> Result<TxnId, Answer>
    ensures { Obtains core.old.state request txn_in result core.new.state }
{
    match execute(core, request) {
        Answer::Txn(txn) => Ok(txn),
        other => Err(other),
    }
}

/// Makes a request, and returns the number that it returned. Fails with the answer if it returned
/// none.
pub(crate) fn number_of(core: &mut Core, request: Request) -> Result<u64, Answer>
    ensures { Obtains core.old.state request number_in result core.new.state }
{
    match execute(core, request) {
        Answer::Granted {
            reply: Reply::Number(number),
            ..
        } => Ok(number),
        other => Err(other),
    }
}

/// Makes a request, and returns the bytes that it returned. Fails with the answer if it returned
/// none.
pub(crate) fn bytes_of(core: &mut Core, request: Request) -> Result<Sequence<u8>, Answer>
    ensures { Obtains core.old.state request bytes_in result core.new.state }
{
    match execute(core, request) {
        Answer::Granted {
            reply: Reply::Bytes(bytes),
            ..
        } => Ok(bytes),
        other => Err(other),
    }
}
