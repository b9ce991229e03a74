// The text of what a call replied.
ghost use Rattle.std.specs.Prelude.{◌≡◌, Some};
ghost use Rattle.ft_words.specs.Texts.{reply_text, kind_text, attributes_tail, time_tail, coded, data_text, listing, listed};

use crate::coding::{CODED_PIECE, put_coded};
use crate::modes::{AttributesText, TimeText};
use ft_path::Name;
use ft_posix::Reply;
use ft_tree::{Attributes, Kind, Timestamp};
use percent_encoding::ascii_str;
use std::fmt;

/// The reply to a call.
#[derive(Clone, Copy)]
pub struct ReplyText<'a>(pub &'a Reply);

impl fmt::Display for ReplyText<'_> {
    ghost output = { λ text. Some (reply_text text.0.now) };

    fn fmt<W: fmt::Write>(&self, f: &mut fmt::Formatter<W>) -> fmt::Result {
        match self.0 {
            Reply::Done => f.write_str("ok"),
            Reply::Names(names) => write!(f, "ok {}{}", names.len(), Listing(names.as_slice())),
            Reply::Number(number) => write!(f, "ok {number}"),
            Reply::Bytes(bytes) => write!(
                f,
                "ok {}{}",
                bytes.len(),
                CodedArgument(bytes.as_slice())
            ),
            Reply::Info(info) => write!(
                f,
                "ok {} {} {} {}{}{}",
                kind_text(info.kind),
                info.number,
                info.links,
                info.size,
                AttributesTail(info.attributes),
                TimeTail(info.time)
            ),
            Reply::Failed(errno) => errno.fmt(f),
        }
    }
}

/// Returns the word for a directory, a file or a symbolic link.
fn kind_text(kind: Kind) -> &'static str
    ensures { result.now ≡ kind_text kind }
{
    match kind {
        Kind::Dir => "dir",
        Kind::File => "file",
        Kind::Link => "link",
    }
}

/// Attributes after a space and their name, if they are not the default ones.
#[derive(Clone, Copy)]
struct AttributesTail(Option<Attributes>);

impl fmt::Display for AttributesTail {
    ghost output = { λ tail. Some (attributes_tail tail.0) };

    fn fmt<W: fmt::Write>(&self, f: &mut fmt::Formatter<W>) -> fmt::Result {
        match self.0 {
            Some(attributes) => write!(f, " attributes {}", AttributesText(attributes)),
            None => Ok(()),
        }
    }
}

/// The time of bytes after a space and its name, if there is one.
#[derive(Clone, Copy)]
struct TimeTail(Option<Timestamp>);

impl fmt::Display for TimeTail {
    ghost output = { λ tail. Some (time_tail tail.0) };

    fn fmt<W: fmt::Write>(&self, f: &mut fmt::Formatter<W>) -> fmt::Result {
        match self.0 {
            Some(time) => write!(f, " time {}", TimeText(time)),
            None => Ok(()),
        }
    }
}

/// Bytes, percent-coded.
#[derive(Clone, Copy)]
pub struct PercentCoded<'a>(pub &'a [u8]);

impl fmt::Display for PercentCoded<'_> {
    ghost output = { λ bytes. Some (coded bytes.0.now) };

    fn fmt<W: fmt::Write>(&self, f: &mut fmt::Formatter<W>) -> fmt::Result {
        let mut place = [0; CODED_PIECE];
        let mut rest = self.0;
        while !rest.is_empty() {
            let (end, behind) = put_coded(rest, &mut place);
            f.write_str(ascii_str(&place[..end]))?;
            rest = behind;
        }
        Ok(())
    }
}

/// Bytes, percent-coded, after a space where there are any.
#[derive(Clone, Copy)]
pub struct CodedArgument<'a>(pub &'a [u8]);

impl fmt::Display for CodedArgument<'_> {
    ghost output = { λ bytes. Some (data_text bytes.0.now) };

    fn fmt<W: fmt::Write>(&self, f: &mut fmt::Formatter<W>) -> fmt::Result {
        if self.0.is_empty() {
            return Ok(());
        }
        write!(f, " {}", PercentCoded(self.0))
    }
}

/// The names of a directory.
#[derive(Clone, Copy)]
struct Listing<'a>(&'a [(Name, Kind)]);

impl fmt::Display for Listing<'_> {
    ghost output = { λ list. Some (listing list.0.now) };

    fn fmt<W: fmt::Write>(&self, f: &mut fmt::Formatter<W>) -> fmt::Result {
        for (name, kind) in self.0 {
            write!(f, "{}", Listed(name, *kind))?;
        }
        Ok(())
    }
}

/// One name of a directory, after a space.
#[derive(Clone, Copy)]
struct Listed<'a>(&'a Name, Kind);

impl fmt::Display for Listed<'_> {
    ghost output = { λ entry. Some (listed entry.0.now entry.1) };

    fn fmt<W: fmt::Write>(&self, f: &mut fmt::Formatter<W>) -> fmt::Result {
        let name = PercentCoded(self.0.as_bytes());
        match self.1 {
            Kind::Dir => write!(f, " {name}/"),
            Kind::File => write!(f, " {name}"),
            Kind::Link => write!(f, " {name}@"),
        }
    }
}
