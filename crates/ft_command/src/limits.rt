// The flags that set limits.
ghost use Rattle.std.specs.Prelude.{◌≡◌, IfErr, IfOk, false};
ghost use Rattle.std.specs.Option.{unwrap_or};
ghost use Rattle.clap.specs.Words.{app_of, found_of, rows_of, rule_of};
ghost use Rattle.ft_command.specs.CommandLine.{HasNoGlobals};
ghost use Rattle.ft_command.specs.Limits.{IsAsked, IsBadLimit, TellsLimits, flag_limit, flag_name, limit_rule, limited};

use clap::{Arg, ArgMatches, Command};
use ft_core::Limits;
use ft_needs::{limit_of, size_of};
use std::alloc::{AllocError, Global};

/// The limits that are requested, each with its flag.
#[derive(Clone, Copy, Debug, PartialEq, Eq)]
pub struct AskedLimits {
    pub file_size: Option<u64>,
    pub calls: Option<u64>,
    pub transactions: Option<u64>,
    pub depth: Option<u64>,
}

impl AskedLimits {
    /// Returns the requested limits, and those of `limits` for the others.
    pub fn over(&self, limits: Limits) -> Limits
        ensures { result ≡ record {
          file_size = unwrap_or self.now.file_size limits.file_size;
          links = limits.links;
          depth = unwrap_or self.now.depth limits.depth;
          transactions = unwrap_or self.now.transactions limits.transactions;
          calls = unwrap_or self.now.calls limits.calls;
        } }
    {
        Limits {
            file_size: self.file_size.unwrap_or(limits.file_size),
            links: limits.links,
            depth: self.depth.unwrap_or(limits.depth),
            transactions: self.transactions.unwrap_or(limits.transactions),
            calls: self.calls.unwrap_or(limits.calls),
        }
    }
}

/// A flag that sets a limit.
#[derive(Clone, Copy, Debug, PartialEq, Eq)]
pub(crate) enum Flag {
    LargestFile,
    MostCalls,
    MostTransactions,
    Deepest,
}

impl Flag {
    /// Returns the name of the flag, without the dashes before it.
    pub(crate) fn name<'a>(self) -> &'a str
        ensures { result.now ≡ flag_name self }
    {
        match self {
            Flag::LargestFile => "largest-file",
            Flag::MostCalls => "most-calls",
            Flag::MostTransactions => "most-transactions",
            Flag::Deepest => "deepest",
        }
    }

    /// Returns the limit that a value of the flag gives.
    pub(crate) fn limit_of(self, value: &str) -> Option<u64>
        ensures { result ≡ flag_limit self value.now }
    {
        let value = value.as_bytes();
        let most = Limits::greatest();
        match self {
            Flag::LargestFile => size_of(value, most.file_size),
            Flag::MostCalls => limit_of(value, most.calls),
            Flag::MostTransactions => limit_of(value, most.transactions),
            Flag::Deepest => limit_of(value, most.depth),
        }
    }

    /// Returns the values that the flag may have, as text.
    pub(crate) fn values(self) -> &'static str {
        match self {
            Flag::LargestFile => "a number of bytes up to 2^47, with or without K, M or G",
            Flag::MostCalls | Flag::MostTransactions => "a number up to 2^62",
            Flag::Deepest => "a number up to 4096",
        }
    }
}

/// Returns the limits that flags request, or one of the flags whose value is no limit.
pub(crate) fn asked_limits(found: &ArgMatches) -> Result<AskedLimits, Flag>
    ensures ok { IfOk result (TellsLimits (rows_of (found_of found.now))) }
    ensures err { IfErr result (λ flag. IsBadLimit flag (rows_of (found_of found.now))) }
{
    Ok(AskedLimits {
        file_size: asked_limit(found, Flag::LargestFile)?,
        calls: asked_limit(found, Flag::MostCalls)?,
        transactions: asked_limit(found, Flag::MostTransactions)?,
        depth: asked_limit(found, Flag::Deepest)?,
    })
}

/// Returns the limit that a flag requests, if the flag is given. Fails with the flag if its value
/// is no limit.
fn asked_limit(found: &ArgMatches, flag: Flag) -> Result<Option<u64>, Flag>
    ensures ok { IfOk result (IsAsked flag (rows_of (found_of found.now))) }
    ensures err { IfErr result
        (λ bad. (bad ≡ flag) × IsBadLimit flag (rows_of (found_of found.now))) }
{
    match found.get_str(flag.name()) {
        None => Ok(None),
        Some(value) => match flag.limit_of(value) {
            None => Err(flag),
            Some(limit) => Ok(Some(limit)),
        },
    }
}

/// Adds the flags to a command.
pub(crate) fn with_limits<'a>(
    alloc: Global,
    command: Command<'a>,
) -> Result<Command<'a>, AllocError>
    ensures app { IfOk result
        (λ limited_command. app_of limited_command ≡ limited (app_of command.entry)) }
    ensures local { HasNoGlobals command.entry → IfOk result HasNoGlobals }
{
    command
        .arg(limit_arg(
            alloc,
            Flag::LargestFile,
            "Maximum bytes of a file, such as 3G, or none",
        ))?
        .arg(limit_arg(
            alloc,
            Flag::MostCalls,
            "Maximum number of granted calls, or none",
        ))?
        .arg(limit_arg(
            alloc,
            Flag::MostTransactions,
            "Maximum number of transactions, or none",
        ))?
        .arg(limit_arg(
            alloc,
            Flag::Deepest,
            "Maximum depth of nested transactions, or none",
        ))
}

/// Returns the argument of a flag.
fn limit_arg<'a>(alloc: Global, flag: Flag, help: &'a str) -> Arg<'a>
    ensures rule { rule_of result ≡ limit_rule flag }
    ensures local { result.global ≡ false }
{
    Arg::new(alloc, flag.name())
        .long(flag.name())
        .value_name("N")
        .help(help)
}
