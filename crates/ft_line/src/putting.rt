// The text of an answer, put after another text. What most lines reply is not formatted.
ghost use Rattle.std.specs.Prelude.{◌≡◌, ◌++◌, codes, string_bytes, OnOk};
ghost use Rattle.std.specs.Fmt.{decimal};
ghost use Rattle.ft_line.specs.Texts.{text_of};
ghost use Rattle.ft_words.specs.Texts.{kind_text, reply_text};

use crate::text::AnswerText;
use ft_base::Memory;
use ft_cells::Kind;
use ft_core::Answer;
use ft_posix::Reply;
use ft_words::ReplyText;
use itoa::Buffer;

/// Puts the text of an answer after another text.
pub fn put_answer(text: &mut String, answer: &Answer) -> Result<(), Memory>
    ensures ok { OnOk result (string_bytes text.new ≡ string_bytes text.old ++ text_of answer.now) }
{
    match answer {
        Answer::Txn(txn) => put_number(text, "txn ", txn.0),
        Answer::Granted { stamp, reply } => {
            put_number(text, "", *stamp)?;
            text.push_str(" ")?;
            put_reply(text, reply)
        }
        Answer::Dropped | Answer::Committed | Answer::Aborted(_) | Answer::Cleared => {
            Ok(text.push_str("ok")?)
        }
        Answer::Undone(stamp) => put_number(text, "undone ", *stamp),
        Answer::Waits { .. } | Answer::Refused(_) => Ok(write!(text, "{}", AnswerText(answer))?),
    }
}

/// Puts what a call replied after a text.
fn put_reply(text: &mut String, reply: &Reply) -> Result<(), Memory>
    ensures ok { OnOk result
        (string_bytes text.new ≡ string_bytes text.old ++ reply_text reply.now) }
{
    match reply {
        Reply::Done => Ok(text.push_str("ok")?),
        Reply::Number(number) => put_number(text, "ok ", *number),
        Reply::Failed(errno) => Ok(text.push_str(errno.name())?),
        Reply::Info(info) if info.attributes.is_none() && info.time.is_none() => {
            put_number(text, kind_word(info.kind), info.number)?;
            put_number(text, " ", info.links)?;
            put_number(text, " ", info.size)
        }
        Reply::Names(_) | Reply::Bytes(_) | Reply::Info(_) => {
            Ok(write!(text, "{}", ReplyText(reply))?)
        }
    }
}

/// Returns what is before the number of a directory, a file or a symbolic link.
fn kind_word(kind: Kind) -> &'static str
    ensures { result.now ≡ codes "ok " ++ kind_text kind ++ codes " " }
{
    match kind {
        Kind::Dir => "ok dir ",
        Kind::File => "ok file ",
        Kind::Link => "ok link ",
    }
}

/// Puts a word and then a number after a text.
fn put_number(text: &mut String, word: &str, number: u64) -> Result<(), Memory>
    ensures ok { OnOk result
        (string_bytes text.new ≡ string_bytes text.old ++ word.now ++ decimal number) }
{
    text.push_str(word)?;
    Ok(text.push_str(Buffer::new().format(number))?)
}
