// The text of the answer to a transfer.
ghost use Rattle.std.specs.Prelude.{◌≡◌, ◌++◌, string_bytes, OnOk};
ghost use Rattle.ft_transfer.specs.Answers.{transfer_text};

use crate::transfer::TransferAnswer;
use ft_base::Memory;
use ft_line::put_answer;

/// Puts the text of the answer to a transfer after another text.
pub fn put_transfer_answer(text: &mut String, answer: &TransferAnswer) -> Result<(), Memory>
    ensures ok { OnOk result
        (string_bytes text.new ≡ string_bytes text.old ++ transfer_text answer.now) }
{
    match answer {
        TransferAnswer::Request(answer) => put_answer(text, answer),
        TransferAnswer::File => Ok(text.push_str("refused File")?),
    }
}
