// A core and its caller.
ghost use Rattle.std.specs.Prelude.{◌≡◌, ◌⊎◌, [], OnOk, OnErr, IfErr};
ghost use Rattle.ft_posix.specs.declared.call.Call.{Call as CallOf};
ghost use Rattle.ft_core.specs.declared.request.Answer.{Answer as AnswerOf};
ghost use Rattle.ft_core.specs.declared.fault.Fault.TheVariants.{Live as LiveFault};
ghost use Rattle.ft_core.specs.declared.request.Answer.TheVariants.{Cleared, Refused};
ghost use Rattle.ft_core.specs.declared.request.Request.TheVariants.{Ask, Checkpoint};
ghost use Rattle.ft_core.specs.Steps.{IsStep, exact_rule};
ghost use Rattle.ft_line.specs.declared.line.ScriptLine.TheVariants.{Bad as BadLine};
ghost use Rattle.ft_line.specs.Requests.{parse_line};
ghost use Rattle.ft_session.specs.Sessions.{HasAnswered, HasStepped, HasTold, IsExecuted, IsSame, KeepsTurns, MayHaveTold};

use crate::last_answer::LastAnswer;
use ft_base::{Memory, Sequence};
use ft_core::{Answer, Core, Fault, Request, TxnId};
use ft_line::{ScriptLine, execute, parse_line, reply_to};
use std::alloc::Global;

/// Why a line was not carried out. Nothing has changed.
#[derive(Clone, Copy, Debug, PartialEq, Eq)]
pub enum LineFault {
    /// There was no memory left.
    Memory,
    /// It is not a valid request.
    Bad,
}

impl From<Memory> for LineFault {
    ghost use Rattle.std.specs.Prelude.{◌≡◌};
    ghost use Rattle.ft_session.specs.declared.session.LineFault.TheVariants.{Memory};

    ghost from_gives = { λ _ fault. fault ≡ Memory };

    fn from(_memory: Memory) -> LineFault {
        LineFault::Memory
    }
}

/// A core, and what the last request to it came to.
#[derive(Drop)]
pub struct Session {
    pub core: Core,
    pub last: LastAnswer,
    /// Whether a call waits in turn for older asks that conflict with it.
    pub is_fair: bool,
    /// The transactions that asked for a call and had to wait, in their order, and some that no
    /// longer wait.
    pub turns: Vec<TxnId>,
}

impl Session {
    /// Returns a session with a core, of which nothing has been requested yet, and in which calls
    /// wait in turn for older asks, or do not.
    pub fn new(alloc: Global, core: Core, is_fair: bool) -> Session
        ensures core { result.core ≡ core }
        ensures last { result.last ≡ LastAnswer.Text [] }
        ensures fair { result.is_fair ≡ is_fair }
        ensures turns { result.turns.items ≡ [] }
    {
        Session {
            core,
            last: LastAnswer::Text(Sequence::new(alloc)),
            is_fair,
            turns: Vec::new(alloc),
        }
    }

    /// Carries out a request. After a commit or an abort that is not refused, what it has released
    /// is swept.
    pub fn answer(&mut self, request: Request)
        ensures { (answer : AnswerOf) × HasAnswered self.old request answer self.new }
    {
        let answered = self.execute(request);
        self.last = LastAnswer::Answer(answered);
    }

    /// Carries out a request, by the turns of calls if they wait in turn.
    fn execute(&mut self, request: Request) -> Answer
        ensures stepped { HasStepped self.old request result self.new }
        ensures last { self.new.last ≡ self.old.last }
    {
        if self.is_fair {
            return self.execute_fairly(request);
        }
        execute(&mut self.core, request)
    }

    /// Makes the present tree the base, as that request does. Takes no memory.
    pub fn checkpoint(&mut self)
        ensures asked { (answer : AnswerOf) × HasAnswered self.old Checkpoint answer self.new }
        ensures live { (self.new.last ≡ LastAnswer.Answer Cleared) ⊎ (self.new.last
            ≡ LastAnswer.Answer (Refused LiveFault)) }
    {
        let answer = cleared(&mut self.core);
        self.last = LastAnswer::Answer(answer);
    }

    /// Answers a call in a transaction that is not made, for lack of memory. It is refused as the
    /// core refuses each call there, and else Memory.
    pub fn refuse_ask(&mut self, txn: TxnId)
        ensures { (call : CallOf) → (answer : AnswerOf)
            × HasAnswered self.old (Ask txn call) answer self.new }
    {
        self.last = LastAnswer::Answer(Answer::Refused(refusal(&self.core, txn)));
    }

    /// Carries out one line of a script, without its line feed.
    ///
    /// Refuses a line that is not a valid request. Else it fails only for lack of memory: for the
    /// words of the line, or for the text of a report.
    pub fn run_line(&mut self, alloc: Global, line: &[u8]) -> Result<(), LineFault>
        ensures ok { OnOk result (IsExecuted self.old (parse_line line.now) self.new) }
        ensures bad { IfErr result
            (λ fault. fault ≡ LineFault.Bad → parse_line line.now ≡ BadLine) }
        ensures same { OnErr result (IsSame self.old self.new) }
    {
        match parse_line(alloc, line)? {
            ScriptLine::Bad => Err(LineFault::Bad),
            ScriptLine::Request(request) => {
                self.answer(request);
                Ok(())
            }
            ScriptLine::Silent | ScriptLine::Query(_) => Ok(self.tell(alloc, line)?),
        }
    }

    /// Carries out a line whose reply is a text of its own.
    fn tell(&mut self, alloc: Global, line: &[u8]) -> Result<(), Memory>
        ensures ok { OnOk result (HasTold self.old (parse_line line.now) self.new) }
        ensures err { OnErr result (MayHaveTold self.old (parse_line line.now) self.new) }
        ensures turns { KeepsTurns self.old self.new }
    {
        let text = reply_to(alloc, line, &mut self.core)?;
        self.last = LastAnswer::Text(text.into_bytes().into());
        Ok(())
    }
}

/// Makes the present tree of a core the base.
fn cleared(core: &mut Core) -> Answer
    ensures step { IsStep exact_rule core.old.state Checkpoint result core.new.state }
    ensures live { (result ≡ Cleared) ⊎ (result ≡ Refused LiveFault) }
{
    match core.checkpoint() {
        Ok(()) => Answer::Cleared,
        Err(fault) => Answer::Refused(fault),
    }
}

/// Returns the refusal of a call in a transaction for which there is no memory.
fn refusal(core: &Core, txn: TxnId) -> Fault
    ensures { (call : CallOf)
        → IsStep exact_rule core.now.state (Ask txn call) (Refused result) core.now.state }
{
    match core.may_ask(txn) {
        Err(fault) => fault,
        Ok(()) => Fault::Memory,
    }
}
