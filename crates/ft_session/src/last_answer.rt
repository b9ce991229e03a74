// The outcome of the last request, and its parts.
ghost use Rattle.std.specs.Prelude.{◌≡◌, length, option_map, IfOk, OnErr};
ghost use Rattle.ft_session.specs.Buffers.{filled};
ghost use Rattle.ft_session.specs.Parts.{names_in, blockers_in, bytes_in, reply_text};

use crate::copying::copy_into;
use ft_base::{Memory, Sequence};
use ft_calls::Reply;
use ft_core::{Answer, TxnId};
use ft_line::AnswerText;
use ft_path::Name;
use ft_tree::Kind;
use std::alloc::Global;

/// The outcome of the last request.
#[derive(Debug, PartialEq, Eq, Drop)]
pub enum LastAnswer {
    /// The core has answered so.
    Answer(Answer),
    /// A line that requests no step of the core has this text for its reply.
    Text(Sequence<u8>),
}

impl LastAnswer {
    /// Returns the names that a list has returned; none if there is no such answer.
    pub fn names(&self) -> &[(Name, Kind)]
        ensures { result.now ≡ names_in self.now }
    {
        match self {
            LastAnswer::Answer(
                Answer::Granted {
                    stamp: _,
                    reply: Reply::Names(names),
                },
            ) => names.as_slice(),
            _ => &[],
        }
    }

    /// Returns the transactions for which a call waits; none if it does not.
    pub fn blockers(&self) -> &[TxnId]
        ensures { result.now ≡ blockers_in self.now }
    {
        match self {
            LastAnswer::Answer(Answer::Waits { blockers }) => blockers.as_slice(),
            _ => &[],
        }
    }

    /// Returns the bytes that a read, or a read of a target, has returned, if there is such an
    /// answer.
    pub fn bytes(&self) -> Option<&[u8]>
        ensures { option_map (λ bytes. bytes.now) result ≡ bytes_in self.now }
    {
        match self {
            LastAnswer::Answer(
                Answer::Granted {
                    stamp: _,
                    reply: Reply::Bytes(bytes),
                },
            ) => Some(bytes.as_slice()),
            _ => None,
        }
    }

    /// Copies the reply into a buffer as a script shows it, as much of it as has room: how many
    /// bytes there are in all. Lack of memory for its text leaves the buffer as it is.
    pub fn copy_reply(&self, alloc: Global, buffer: &mut [u8]) -> Result<usize, Memory>
        ensures count { IfOk result (λ count. count ≡ length (reply_text self.now)) }
        ensures bytes { IfOk result (λ _. buffer.new ≡ filled (reply_text self.now) buffer.old) }
        ensures same { OnErr result (buffer.new ≡ buffer.old) }
    {
        match self {
            LastAnswer::Text(text) => Ok(copy_into(text.as_slice(), buffer)),
            LastAnswer::Answer(answer) => {
                let text = format!(in alloc; "{}\n", AnswerText(answer))?;
                Ok(copy_into(text.as_bytes(), buffer))
            }
        }
    }
}
