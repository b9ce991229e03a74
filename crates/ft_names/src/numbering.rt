// Words with numbers in place of names.
ghost use Rattle.std.specs.Prelude.{◌≡◌, ◌++◌, ◌∷◌, [], None, is_some, IfErr, MatchOption, OnOk, IfOk};
ghost use Rattle.ft_words.specs.Calls.{descriptor_calls, look_up};
ghost use Rattle.ft_words.specs.Spelling.{IsFreeOf, words_left, words_of};
ghost use Rattle.ft_words.specs.declared.parse_error.ParseError.TheVariants.{Misspelt};
ghost use Rattle.ft_names.specs.Names.{is_name, names_of};
ghost use Rattle.ft_names.specs.Meanings.{Puts, PutsNumber, is_request_word, number_first, number_word, numbered, numbered_call};

use crate::naming::Names;
use ft_base::Memory;
use ft_words::{ParseError, split_once};
use itoa::Buffer;
use smallvec::SmallVec;
use std::alloc::Global;

/// The words of a line with numbers in place of names. A short line takes no memory, so no request
/// for the end of a transaction does: its word, a space before each word, and a number have at most
/// 28 bytes.
pub(crate) type Numbered = SmallVec<u8, 64>;

/// Returns the words of a text, each after a space. A name has its number in its place if it is
/// where a request has the number of a transaction or of a descriptor.
///
/// A name that is not known is misspelt.
pub(crate) fn numbered(alloc: Global, names: &Names, text: &[u8]) -> Result<Numbered, ParseError>
    ensures ok { IfOk result
        (λ made. Puts [] (numbered (names_of names.now) (words_of text.now)) made.items) }
    ensures misspelt { IfErr result
        (λ error. error ≡ Misspelt → numbered (names_of names.now) (words_of text.now) ≡ None) }
{
    let mut made = Numbered::new(alloc);
    put_numbered(&mut made, names, text)?;
    Ok(made)
}

/// Puts the words of a line after a text, with numbers in place of names.
#[tactic(auto, using(crate::proofs::Wording::puts_behind, crate::proofs::Wording::puts_number_call))]
fn put_numbered(made: &mut Numbered, names: &Names, text: &[u8]) -> Result<(), ParseError>
    ensures ok { OnOk result
        (Puts made.old.items (numbered (names_of names.now) (words_of text.now)) made.new.items) }
    ensures misspelt { IfErr result
        (λ error. error ≡ Misspelt → numbered (names_of names.now) (words_of text.now) ≡ None) }
{
    let (first, rest) = split_first(text);
    if is_request_word(first) {
        put_word(made, first)?;
        put_first(made, names, rest)?;
    } else {
        put_number(made, names, first)?;
        put_call(made, names, rest)?;
    }
    Ok(())
}

/// Puts the words of a call after a text. Its first argument may be the name of a descriptor.
#[tactic(auto, using(crate::proofs::Wording::puts_behind))]
fn put_call(made: &mut Numbered, names: &Names, rest: Option<&[u8]>) -> Result<(), ParseError>
    ensures ok { OnOk result
        (Puts made.old.items (numbered_call (names_of names.now) (words_left rest.entry))
        made.new.items) }
    ensures misspelt { IfErr result
        (λ error. error ≡ Misspelt
        → numbered_call (names_of names.now) (words_left rest.entry) ≡ None) }
{
    let Some(text) = rest else {
        return Ok(());
    };
    let (verb, rest) = split_first(text);
    put_word(made, verb)?;
    if is_descriptor_word(verb) {
        put_first(made, names, rest)?;
    } else {
        put_rest(made, rest)?;
    }
    Ok(())
}

/// Puts words after a text. The first may be a name.
#[tactic(auto, using(crate::proofs::Wording::puts_number_rest))]
fn put_first(made: &mut Numbered, names: &Names, rest: Option<&[u8]>) -> Result<(), ParseError>
    ensures ok { OnOk result
        (Puts made.old.items (number_first (names_of names.now) (words_left rest.entry))
        made.new.items) }
    ensures misspelt { IfErr result
        (λ error. error ≡ Misspelt
        → number_first (names_of names.now) (words_left rest.entry) ≡ None) }
{
    let Some(text) = rest else {
        return Ok(());
    };
    let (first, rest) = split_first(text);
    put_number(made, names, first)?;
    put_rest(made, rest)?;
    Ok(())
}

/// Puts a word after a text, or if it is a name, the number for which it stands.
#[tactic(auto, using(crate::proofs::Wording::decimal_free))]
fn put_number(made: &mut Numbered, names: &Names, word: &[u8]) -> Result<(), ParseError>
    requires { IsFreeOf 32 word.now }
    ensures ok { OnOk result
        (PutsNumber (names_of names.now) word.now made.old.items made.new.items) }
    ensures misspelt { IfErr result
        (λ error. error ≡ Misspelt → number_word (names_of names.now) word.now ≡ None) }
{
    if !is_name(word) {
        put_word(made, word)?;
        return Ok(());
    }
    let number = names.get(word).ok_or(ParseError::Misspelt)?;
    put_word(made, Buffer::new().format(number).as_bytes())?;
    Ok(())
}

/// Puts the words that are left after a text, as they are.
#[tactic(auto, using(crate::proofs::Wording::text_put))]
fn put_rest(made: &mut Numbered, rest: Option<&[u8]>) -> Result<(), Memory>
    ensures ok { OnOk result
        (words_of made.new.items ≡ words_of made.old.items ++ words_left rest.entry) }
{
    if let Some(text) = rest {
        made.extend_from_slice(b" ".as_slice())?;
        made.extend_from_slice(text)?;
    }
    Ok(())
}

/// Puts a space and a word after a text.
#[tactic(auto, using(crate::proofs::Wording::word_put))]
fn put_word(made: &mut Numbered, word: &[u8]) -> Result<(), Memory>
    requires { IsFreeOf 32 word.now }
    ensures ok { OnOk result
        (words_of made.new.items ≡ words_of made.old.items ++ word.now ∷ []) }
{
    made.extend_from_slice(b" ".as_slice())?;
    made.extend_from_slice(word)?;
    Ok(())
}

/// Returns the first word of a text, and the text after the space that ends it, if there is more.
#[tactic(auto, using(crate::proofs::Wording::words_of_free, crate::proofs::Wording::words_of_split))]
pub fn split_first(text: &[u8]) -> (&[u8], Option<&[u8]>)
    ensures words { words_of text.now ≡ result.0.now ∷ words_left result.1 }
    ensures free { IsFreeOf 32 result.0.now }
{
    match split_once(b' ', text) {
        None => (text, None),
        Some((word, rest)) => (word, Some(rest)),
    }
}

/// Returns the text before the last space, and the word after it. Returns `None` if there is only
/// one word.
pub(crate) fn split_last(text: &[u8]) -> Option<(&[u8], &[u8])>
    ensures { MatchOption result (words_of text.now ≡ text.now ∷ [])
        (λ parts. words_of text.now ≡ words_of parts.0.now ++ parts.1.now ∷ []) }
{
    match text.iter().rposition(|&byte| byte == b' ') {
        Some(at) => Some((&text[..at], &text[at + 1..])),
        None => None,
    }
}

/// Returns whether a word may be a name: it begins with a letter.
pub fn is_name(word: &[u8]) -> bool
    ensures { result ≡ is_name word.now }
{
    match word.first() {
        Some(byte) => byte.is_ascii_alphabetic(),
        None => false,
    }
}

/// Returns whether a word is a request for a new transaction, or for something of one.
fn is_request_word(word: &[u8]) -> bool
    ensures { result ≡ is_request_word word.now }
{
    word == b"begin".as_slice()
        || word == b"sub".as_slice()
        || word == b"commit".as_slice()
        || word == b"abort".as_slice()
        || word == b"undo".as_slice()
        || word == b"retry".as_slice()
        || word == b"drop".as_slice()
}

/// Returns whether a word is the name of a call on a descriptor.
pub fn is_descriptor_word(word: &[u8]) -> bool
    ensures { result ≡ is_some (look_up descriptor_calls word.now) }
{
    word == b"close".as_slice()
        || word == b"read".as_slice()
        || word == b"write".as_slice()
        || word == b"pread".as_slice()
        || word == b"pwrite".as_slice()
        || word == b"lseek".as_slice()
        || word == b"ftruncate".as_slice()
        || word == b"fstat".as_slice()
        || word == b"fchmod".as_slice()
        || word == b"fchown".as_slice()
        || word == b"futime".as_slice()
}
