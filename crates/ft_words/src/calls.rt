// The calls, by their names.
ghost use Rattle.std.specs.Prelude.{◌≡◌};
ghost use Rattle.ft_words.specs.Calls.{parse_call, read_by, descriptor_calls, Reads};
ghost use Rattle.ft_words.specs.Verbs.{call_by, descriptor_call};

use crate::arguments::{
    number, parse_fd_data, parse_fd_len, parse_fd_mode, parse_fd_off_data, parse_fd_off_len,
    parse_fd_owner_group, parse_fd_size, parse_fd_time, parse_fd_whence_off, parse_flags_path,
    parse_mode_path, parse_optional_mode_path, parse_owner_group_path, parse_size_path,
    parse_time_path, parse_two_paths, path,
};
use crate::parse_error::ParseError;
use crate::verbs::{DESCRIPTOR_VERBS, DescriptorVerb, VERBS, Verb, spelled};
use crate::words::Words;
use ft_posix::Call;
use ft_tree::Timestamp;
use std::alloc::Global;

/// Returns the call of this name, with the arguments that the words after it spell.
#[tactic(auto, using(crate::proofs::Reading::call_of_verb))]
pub fn parse_call(alloc: Global, name: &[u8], words: Words<'_>) -> Result<Call, ParseError>
    ensures { Reads result (parse_call name.now words.entry) }
{
    match spelled(&VERBS, name) {
        Some(verb) => read_call(alloc, verb, words),
        None => Err(ParseError::Misspelt),
    }
}

/// Returns the call on a descriptor of this name, with the arguments that the words after the name
/// spell. The descriptor is the first argument. Refuses any other name as misspelt.
#[tactic(auto, using(crate::proofs::Reading::descriptor_call_of_verb))]
pub fn parse_descriptor_call(
    alloc: Global,
    name: &[u8],
    words: Words<'_>,
) -> Result<Call, ParseError>
    ensures { Reads result (read_by descriptor_calls name.now words.entry) }
{
    match spelled(&DESCRIPTOR_VERBS, name) {
        Some(verb) => read_call(alloc, verb, words),
        None => Err(ParseError::Misspelt),
    }
}

/// Returns the call of this verb, with the arguments that the words spell.
fn read_call(alloc: Global, verb: Verb, words: Words<'_>) -> Result<Call, ParseError>
    ensures { Reads result (call_by verb words.entry) }
{
    match verb {
        Verb::OnPath(verb) => {
            let path = path(alloc, words)?;
            Ok(verb.on(path))
        }
        Verb::Mkdir => {
            let (mode, path) = parse_optional_mode_path(alloc, words)?;
            Ok(Call::Mkdir { path, mode })
        }
        Verb::Open => {
            let (flags, path) = parse_flags_path(alloc, words)?;
            Ok(Call::Open { path, flags })
        }
        Verb::Truncate => {
            let (len, path) = parse_size_path(alloc, words)?;
            Ok(Call::Truncate { len, path })
        }
        Verb::OnPaths(verb) => {
            let (first, second) = parse_two_paths(alloc, words)?;
            Ok(verb.on(first, second))
        }
        Verb::Chmod => {
            let (mode, path) = parse_mode_path(alloc, words)?;
            Ok(Call::Chmod { mode, path })
        }
        Verb::Owning(verb) => {
            let (owner, group, path) = parse_owner_group_path(alloc, words)?;
            Ok(verb.with(owner, group, path))
        }
        Verb::Timing(verb) => {
            let (seconds, nanoseconds, path) = parse_time_path(alloc, words)?;
            Ok(verb.with(
                Timestamp {
                    seconds,
                    nanoseconds,
                },
                path,
            ))
        }
        Verb::OnDescriptor(verb) => read_descriptor_call(alloc, verb, words),
    }
}

/// Returns the call on a descriptor of this verb, with the arguments that the words spell.
fn read_descriptor_call(
    alloc: Global,
    verb: DescriptorVerb,
    words: Words<'_>,
) -> Result<Call, ParseError>
    ensures { Reads result (descriptor_call verb words.entry) }
{
    match verb {
        DescriptorVerb::Write => {
            let (fd, bytes) = parse_fd_data(alloc, words)?;
            Ok(Call::Write { fd, bytes })
        }
        DescriptorVerb::Pwrite => {
            let (fd, off, bytes) = parse_fd_off_data(alloc, words)?;
            Ok(Call::Pwrite { fd, off, bytes })
        }
        DescriptorVerb::Close => {
            let fd = number(words).ok_or(ParseError::Misspelt)?;
            Ok(Call::Close { fd })
        }
        DescriptorVerb::Read => {
            let (fd, len) = parse_fd_len(words).ok_or(ParseError::Misspelt)?;
            Ok(Call::Read { fd, len })
        }
        DescriptorVerb::Pread => {
            let (fd, off, len) = parse_fd_off_len(words).ok_or(ParseError::Misspelt)?;
            Ok(Call::Pread { fd, off, len })
        }
        DescriptorVerb::Lseek => {
            let (fd, whence, off) = parse_fd_whence_off(words).ok_or(ParseError::Misspelt)?;
            Ok(Call::Lseek { fd, whence, off })
        }
        DescriptorVerb::Ftruncate => {
            let (fd, len) = parse_fd_size(words).ok_or(ParseError::Misspelt)?;
            Ok(Call::Ftruncate { fd, len })
        }
        DescriptorVerb::Fstat => {
            let fd = number(words).ok_or(ParseError::Misspelt)?;
            Ok(Call::Fstat { fd })
        }
        DescriptorVerb::Fchmod => {
            let (fd, mode) = parse_fd_mode(words).ok_or(ParseError::Misspelt)?;
            Ok(Call::Fchmod { fd, mode })
        }
        DescriptorVerb::Fchown => {
            let (fd, owner, group) = parse_fd_owner_group(words).ok_or(ParseError::Misspelt)?;
            Ok(Call::Fchown { fd, owner, group })
        }
        DescriptorVerb::Futime => {
            let (fd, seconds, nanoseconds) = parse_fd_time(words).ok_or(ParseError::Misspelt)?;
            let time = Timestamp {
                seconds,
                nanoseconds,
            };
            Ok(Call::Futime { fd, time })
        }
    }
}
