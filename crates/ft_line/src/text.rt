// The text of an answer.
ghost use Rattle.std.specs.Prelude.{◌≡◌, Some};
ghost use Rattle.ft_line.specs.Texts.{text_of, txn_list, fault_name};

use ft_core::{Answer, Fault, TxnId};
use ft_words::ReplyText;
use std::fmt;

/// The reply that reports an answer, without its line feed.
#[derive(Clone, Copy)]
pub struct AnswerText<'a>(pub &'a Answer);

impl fmt::Display for AnswerText<'_> {
    ghost output = { λ text. Some (text_of text.0.now) };

    fn fmt<W: fmt::Write>(&self, f: &mut fmt::Formatter<W>) -> fmt::Result {
        match self.0 {
            Answer::Txn(txn) => write!(f, "txn {}", txn.0),
            Answer::Granted { stamp, reply } => write!(f, "{stamp} {}", ReplyText(reply)),
            Answer::Waits { blockers } => write!(f, "waits{}", TxnList(blockers.as_slice())),
            Answer::Dropped | Answer::Committed | Answer::Aborted(_) | Answer::Cleared => {
                f.write_str("ok")
            }
            Answer::Undone(stamp) => write!(f, "undone {stamp}"),
            Answer::Refused(fault) => write!(f, "refused {}", fault_name(*fault)),
        }
    }
}

/// Numbers of transactions, each after a space.
#[derive(Clone, Copy)]
pub struct TxnList<'a>(pub &'a [TxnId]);

impl fmt::Display for TxnList<'_> {
    ghost output = { λ list. Some (txn_list list.0.now) };

    fn fmt<W: fmt::Write>(&self, f: &mut fmt::Formatter<W>) -> fmt::Result {
        for txn in self.0 {
            write!(f, " {}", txn.0)?;
        }
        Ok(())
    }
}

/// Returns the name of a refusal.
pub fn fault_name(fault: Fault) -> &'static str
    ensures { result.now ≡ fault_name fault }
{
    match fault {
        Fault::Memory => "Memory",
        Fault::NoTxn => "NoTxn",
        Fault::Ended => "Ended",
        Fault::ChildLive => "ChildLive",
        Fault::NothingToUndo => "NothingToUndo",
        Fault::SubSince => "SubSince",
        Fault::Full => "Full",
        Fault::Deep => "Deep",
        Fault::Live => "Live",
        Fault::NoAsk => "NoAsk",
        Fault::NoViews => "NoViews",
        Fault::BadLimits => "BadLimits",
    }
}
