// The task that a command line requests.
ghost use Rattle.std.specs.Prelude.{◌≡◌, IfOk, IfSome, IsFalse, IsTrue, List, Some, codes, false, map, option_map, string_bytes};
ghost use Rattle.clap.specs.Words.{Row, Text, app_of, found_of, kind_of, one_of, rows_of, rule_of, subcommand_rows_of};
ghost use Rattle.ft_command.specs.Limits.{IsBadLimit};
ghost use Rattle.ft_command.specs.Places.{HasBadPlace};
ghost use Rattle.ft_command.specs.CommandLine.{ChoiceOf, ErrorChoice, HasNoGlobals, IsFlag, IsWithoutInto, LacksInto, ReadChoice, TellsAfter, TellsDir, TellsJobs, TellsNumberIfAny, TellsRule, TellsSave, after_rule, at_rule, bare, check_rule, dir_rule, dot, dry_run_rule, file_rule, into_rule, jobs, load, moss_rule, no_owners_rule, play, program, quiet_rule, remove_rule, retries_rule, save, set_id_rule, skip_rule, strict_rule, sync_rule, threads_rule, turns_rule, with_filters, with_folders};

use crate::limits::{AskedLimits, Flag, asked_limits, with_limits};
use crate::place::{PlaceFault, asked_place};
use clap::builder::ValueParser;
use clap::error::ErrorKind;
use clap::{Arg, ArgAction, ArgMatches, Command, Error};
use ft_lock_rules::Rule;
use ft_path::FilePath;
use std::alloc::{AllocError, Global};
use std::convert::AsStr;

/// A task of the program.
#[derive(Debug, Drop)]
pub enum Choice {
    /// Run a script on a core that grants calls by this rule and has these limits, after the script
    /// in a file, if there is one. If the run is strict, each line must do what it requests.
    Play {
        strict: bool,
        rule: Rule,
        after: Option<String>,
        limits: AskedLimits,
    },
    /// Draw the last report of which transaction waits for which.
    Dot,
    /// Write a script that makes what this directory holds, or list the things in it that can't be
    /// loaded, if it is to be checked. They are left out if they are to be skipped. If the path of
    /// a directory of the tree is given, the script puts everything into that directory, and has
    /// names in place of numbers. Modes have their bits S_ISUID and S_ISGID only if these are
    /// requested. Progress is not shown if it is to be quiet. No more is written than these limits
    /// allow.
    Load {
        dir: String,
        at: Option<FilePath>,
        skip: bool,
        check: bool,
        set_id: bool,
        quiet: bool,
        limits: AskedLimits,
    },
    /// Make this directory of the tree with which replies end. A file that is larger than these
    /// limits allow is refused.
    Save {
        dir: String,
        how: AskedSave,
        limits: AskedLimits,
    },
    /// Run the jobs of the plan in a file, at this pace. Progress is not shown if it is to be
    /// quiet. Their core grants calls by this rule and has these limits. The script in a file, if
    /// there is one, is played first.
    Jobs {
        file: String,
        pace: AskedPace,
        quiet: bool,
        rule: Rule,
        after: Option<String>,
        limits: AskedLimits,
    },
    /// Print this help, or the version, to the standard output, and end with status 0.
    Help(String),
    /// Print this to the standard error, and end with status 2: the arguments are not valid.
    Usage(String),
    /// There was no memory to read the words.
    Fault,
}

/// How a directory is to be made of a tree.
#[derive(Clone, Copy, Debug, PartialEq, Eq)]
pub struct AskedSave {
    /// Modes have their bits S_ISUID and S_ISGID.
    pub set_id: bool,
    /// No owner and no group is set.
    pub no_owners: bool,
    /// Progress is not shown.
    pub quiet: bool,
    /// It survives a power failure after the end.
    pub sync: bool,
    /// The directory exists, and only what differs is made.
    pub into: bool,
    /// Anything that the tree does not have is removed.
    pub remove: bool,
    /// The steps are listed, and nothing is done.
    pub dry_run: bool,
}

/// How the jobs of a plan are to be run.
#[derive(Clone, Copy, Debug, PartialEq, Eq)]
pub struct AskedPace {
    /// A call of theirs asks at most so many times, at least once.
    pub turns: u64,
    /// At most so many threads run them.
    pub threads: u64,
    /// One that is aborted to break a deadlock is begun again at most so many times.
    pub retries: Option<u64>,
}

/// Examples: a script is run, its waits-for edges are drawn, the jobs of a plan are run, and jobs
/// begin with the files of one directory and end with those of another.
const EXAMPLE: &str = "Example:\n  ft play < script.ft\n  \
        ft play < script.ft | ft dot | dot -Tsvg > waits.svg\n  ft jobs build.plan\n  \
        ft load src > src.ft\n  ft jobs build.plan --after src.ft | ft save out";

/// What the lines of a script and of a plan can do outside the tree.
const FILES: &str =
    "The lines 'put' and 'get' read and replace files of the disk, with your rights.";

/// The version of the program, which is that of the library.
const VERSION: &str = "0.1.0";

/// The text between a mistake and a usage.
const USAGE: &str = "\n\nUsage: ";

/// The greatest number of attempts that may be set for a call of a job.
const MOST_TURNS: u64 = 1_000_000;

/// The most threads that jobs may be given.
const MOST_THREADS: u64 = 4096;

/// The greatest number of retries that may be set for a job.
const MOST_RETRIES: u64 = 1_000_000;

/// Returns the task that the arguments after the program's name request.
///
/// The texts are those of the crate that reads the arguments. At a wrong subcommand, a list of the
/// right ones is added.
pub fn choose<'a, S: AsStr>(alloc: Global, words: &'a [S]) -> Choice
    ensures { ChoiceOf (map S.text words.entry.now) result }
{
    let Ok(command) = program(alloc) else {
        return Choice::Fault;
    };
    match command.try_get_matches_from(words) {
        Ok(matches) => choice_of(alloc, &matches),
        Err(error) => choice_at(alloc, &error),
    }
}

/// Returns the choice if the words could be read. The crate that reads them knows no other
/// subcommand.
fn choice_of(alloc: Global, matches: &ArgMatches) -> Choice
    ensures { ReadChoice (subcommand_rows_of matches.now) result }
{
    if let Some(found) = matches.subcommand_matches("play") {
        return play_choice(alloc, found);
    }
    if let Some(found) = matches.subcommand_matches("dot") {
        return dot_choice(alloc, found);
    }
    if let Some(found) = matches.subcommand_matches("load") {
        return load_choice(alloc, found);
    }
    if let Some(found) = matches.subcommand_matches("save") {
        return save_choice(alloc, found);
    }
    match matches.subcommand_matches("jobs") {
        Some(found) => jobs_choice(alloc, found),
        None => Choice::Fault,
    }
}

/// Returns the choice if a script is to be run.
fn play_choice(alloc: Global, found: &ArgMatches) -> Choice
    ensures { ReadChoice (Some (codes "play", rows_of (found_of found.now))) result }
{
    let strict = asked_strict(found);
    let rule = asked_rule(found);
    let limits = match asked_limits(found) {
        Ok(limits) => limits,
        Err(flag) => return misused(alloc, found, flag),
    };
    match asked_after(alloc, found) {
        Ok(after) => Choice::Play {
            strict,
            rule,
            after,
            limits,
        },
        Err(_) => Choice::Fault,
    }
}

/// Returns the choice if a report is to be drawn. The limits are for the other commands of a pipe.
fn dot_choice(alloc: Global, found: &ArgMatches) -> Choice
    ensures { ReadChoice (Some (codes "dot", rows_of (found_of found.now))) result }
{
    match asked_limits(found) {
        Ok(_) => Choice::Dot,
        Err(flag) => misused(alloc, found, flag),
    }
}

/// Returns the choice if the value of a flag is no limit.
fn misused(alloc: Global, found: &ArgMatches, flag: Flag) -> Choice
    ensures { (name : Text) → IsBadLimit flag (rows_of (found_of found.now))
        → ReadChoice (Some (name, rows_of (found_of found.now))) result }
{
    let name = flag.name();
    let value = found.get_str(name).unwrap_or("");
    let text = format!(in alloc;
        "error: invalid value '{value}' for '--{name} <N>': it is neither {}, nor none\n\n\
            For more information, try '--help'.\n",
        flag.values()
    );
    match text {
        Ok(text) => Choice::Usage(text),
        Err(_) => Choice::Fault,
    }
}

/// Returns the choice if a directory is to be loaded.
fn load_choice(alloc: Global, found: &ArgMatches) -> Choice
    ensures { ReadChoice (Some (codes "load", rows_of (found_of found.now))) result }
{
    let skip = found.get_flag("skip");
    let check = found.get_flag("check");
    let set_id = found.get_flag("set-id");
    let quiet = found.get_flag("quiet");
    let limits = match asked_limits(found) {
        Ok(limits) => limits,
        Err(flag) => return misused(alloc, found, flag),
    };
    let at = match asked_place(alloc, found) {
        Ok(at) => at,
        Err(PlaceFault::NoPlace) => return misplaced(alloc, found),
        Err(PlaceFault::Memory) => return Choice::Fault,
    };
    match asked_dir(alloc, found) {
        Some(dir) => Choice::Load {
            dir,
            at,
            skip,
            check,
            set_id,
            quiet,
            limits,
        },
        None => Choice::Fault,
    }
}

/// Returns the choice if the directory of the tree for a script has no absolute path, or one whose
/// text has a fault.
fn misplaced(alloc: Global, found: &ArgMatches) -> Choice
    ensures { HasBadPlace (rows_of (found_of found.now))
        → ReadChoice (Some (codes "load", rows_of (found_of found.now))) result }
{
    let value = found.get_str("at").unwrap_or("");
    let text = format!(in alloc;
        "error: invalid value '{value}' for '--at <PATH>': \
            it is no absolute path that a tree can have\n\n\
            For more information, try '--help'.\n"
    );
    match text {
        Ok(text) => Choice::Usage(text),
        Err(_) => Choice::Fault,
    }
}

/// Returns the choice if a directory is to be saved.
fn save_choice(alloc: Global, found: &ArgMatches) -> Choice
    ensures { ReadChoice (Some (codes "save", rows_of (found_of found.now))) result }
{
    let how = asked_save(found);
    let limits = match asked_limits(found) {
        Ok(limits) => limits,
        Err(flag) => return misused(alloc, found, flag),
    };
    if lacks_into(how) {
        return lacking_into(alloc);
    }
    match asked_dir(alloc, found) {
        Some(dir) => Choice::Save { dir, how, limits },
        None => Choice::Fault,
    }
}

/// Returns whether a flag that needs `--into` is given without it.
fn lacks_into(how: AskedSave) -> bool
    ensures yes { IsTrue result → IsWithoutInto how }
    ensures no { IsFalse result → ¬ IsWithoutInto how }
{
    !how.into && (how.remove || how.dry_run)
}

/// Returns the choice in that case.
fn lacking_into(alloc: Global) -> Choice
    ensures { (found : List Row) → LacksInto found
        → ReadChoice (Some (codes "save", found)) result }
{
    let text = String::from_str(
        alloc,
        "error: '--remove' and '--dry-run' need '--into'\n\nFor more information, try '--help'.\n",
    );
    match text {
        Ok(text) => Choice::Usage(text),
        Err(_) => Choice::Fault,
    }
}

/// Returns how a directory is to be made.
fn asked_save(found: &ArgMatches) -> AskedSave
    ensures { TellsSave (rows_of (found_of found.now)) result }
{
    AskedSave {
        set_id: found.get_flag("set-id"),
        no_owners: found.get_flag("no-owners"),
        quiet: found.get_flag("quiet"),
        sync: found.get_flag("sync"),
        into: found.get_flag("into"),
        remove: found.get_flag("remove"),
        dry_run: found.get_flag("dry-run"),
    }
}

/// Returns the choice if the jobs of a plan are to be run.
fn jobs_choice(alloc: Global, found: &ArgMatches) -> Choice
    ensures { ReadChoice (Some (codes "jobs", rows_of (found_of found.now))) result }
{
    let rule = asked_rule(found);
    let limits = match asked_limits(found) {
        Ok(limits) => limits,
        Err(flag) => return misused(alloc, found, flag),
    };
    let Ok(after) = asked_after(alloc, found) else {
        return Choice::Fault;
    };
    match asked_of_jobs(alloc, found) {
        Some((file, pace, quiet)) => Choice::Jobs {
            file,
            pace,
            quiet,
            rule,
            after,
            limits,
        },
        None => Choice::Fault,
    }
}

/// Returns the file of the script that is to be played first. Fails if there is not enough memory
/// for its name.
fn asked_after(alloc: Global, found: &ArgMatches) -> Result<Option<String>, AllocError>
    ensures { IfOk result (λ after. TellsAfter (rows_of (found_of found.now))
        (option_map string_bytes after)) }
{
    match found.get_str("after") {
        Some(file) => {
            let name = String::from_str(alloc, file)?;
            Ok(Some(name))
        }
        None => Ok(None),
    }
}

/// Returns the directory that is named. Returns `None` if there is not enough memory for its name.
fn asked_dir(alloc: Global, found: &ArgMatches) -> Option<String>
    ensures { IfSome result (λ dir. TellsDir (rows_of (found_of found.now)) (string_bytes dir)) }
{
    let dir = found.get_str("dir")?;
    let dir = String::from_str(alloc, dir).ok()?;
    Some(dir)
}

/// Returns whether each line must do what it requests.
fn asked_strict(found: &ArgMatches) -> bool
    ensures { IsFlag (one_of (codes "strict") (rows_of (found_of found.now))) result }
{
    found.get_flag("strict")
}

/// Returns the rule by which calls are to be granted.
fn asked_rule(found: &ArgMatches) -> Rule
    ensures { TellsRule (rows_of (found_of found.now)) result }
{
    if found.get_flag("moss") {
        Rule::Moss
    } else {
        Rule::Profile
    }
}

/// Returns the file and the pace that `jobs` was given, and whether it is to be quiet. Returns
/// `None` if there is not enough memory for the name of the file. (The crate that reads the words
/// refuses 0.)
fn asked_of_jobs(alloc: Global, found: &ArgMatches) -> Option<(String, AskedPace, bool)>
    ensures { IfSome result (λ asked. TellsJobs (rows_of (found_of found.now))
        (string_bytes asked.0) asked.1 asked.2) }
{
    let file = found.get_str("file")?;
    let turns = found.get_one::<u64>("turns")?;
    if turns == 0 {
        return None;
    }
    let threads = found.get_one::<u64>("threads")?;
    let retries = asked_retries(found)?;
    let file = String::from_str(alloc, file).ok()?;
    let pace = AskedPace {
        turns,
        threads,
        retries,
    };
    Some((file, pace, found.get_flag("quiet")))
}

/// Returns how often a job is begun again at most, if that is given. (The crate that reads the
/// words lets only numbers through.)
fn asked_retries(found: &ArgMatches) -> Option<Option<u64>>
    ensures { IfSome result
        (TellsNumberIfAny (codes "retries") (rows_of (found_of found.now))) }
{
    match found.get_str("retries") {
        None => Some(None),
        Some(_) => Some(Some(found.get_one::<u64>("retries")?)),
    }
}

/// Returns the command line of the program.
fn program<'a>(alloc: Global) -> Result<Command<'a>, AllocError>
    ensures { IfOk result (λ command. app_of command ≡ program) }
{
    let jobs = jobs_command(alloc)?;
    with_folders(alloc)?.subcommand(jobs)
}

/// Returns the command line without the jobs of a plan.
fn with_folders<'a>(alloc: Global) -> Result<Command<'a>, AllocError>
    ensures { IfOk result (λ command. app_of command ≡ with_folders) }
{
    let load = load_command(alloc)?;
    let save = save_command(alloc)?;
    with_filters(alloc)?.subcommand(load)?.subcommand(save)
}

/// Returns the command line without directories and the jobs of a plan.
fn with_filters<'a>(alloc: Global) -> Result<Command<'a>, AllocError>
    ensures { IfOk result (λ command. app_of command ≡ with_filters) }
{
    let play = play_command(alloc)?;
    let dot = dot_command(alloc)?;
    named(alloc)?.subcommand(play)?.subcommand(dot)
}

/// Returns the command line without its subcommands, whose usages begin with the program's name.
fn named<'a>(alloc: Global) -> Result<Command<'a>, AllocError>
    ensures { IfOk result (λ command. app_of command ≡ bare) }
{
    bare(alloc).bin_name("ft")
}

/// Returns the command line without its subcommands.
fn bare<'a>(alloc: Global) -> Command<'a>
    ensures { app_of result ≡ bare }
{
    Command::new(alloc, "ft")
        .about("Runs transaction scripts on an in-memory file tree")
        .version(VERSION)
        .no_binary_name(true)
        .subcommand_required(true)
        .after_help(EXAMPLE)
}

/// Returns the subcommand that runs a script.
fn play_command<'a>(alloc: Global) -> Result<Command<'a>, AllocError>
    ensures app { IfOk result (λ command. app_of command ≡ play) }
    ensures local { IfOk result HasNoGlobals }
{
    let command = Command::new(alloc, "play")
        .about("Runs a script from standard input to standard output")
        .after_help(FILES)
        .arg(strict_arg(alloc))?
        .arg(moss_arg(alloc))?
        .arg(after_arg(alloc))?;
    with_limits(alloc, command)
}

/// Returns the subcommand that draws which transaction waits for which.
fn dot_command<'a>(alloc: Global) -> Result<Command<'a>, AllocError>
    ensures app { IfOk result (λ command. app_of command ≡ dot) }
    ensures local { IfOk result HasNoGlobals }
{
    let command = Command::new(alloc, "dot").about(
        "Writes the last waits-for report as a Graphviz graph",
    );
    with_limits(alloc, command)
}

/// Returns the subcommand that writes a script of a directory.
fn load_command<'a>(alloc: Global) -> Result<Command<'a>, AllocError>
    ensures app { IfOk result (λ command. app_of command ≡ load) }
    ensures local { IfOk result HasNoGlobals }
{
    let command = Command::new(alloc, "load")
        .about("Writes a script that makes the contents of a directory")
        .arg(dir_arg(alloc))?
        .arg(at_arg(alloc))?
        .arg(skip_arg(alloc))?
        .arg(check_arg(alloc))?
        .arg(set_id_arg(alloc))?
        .arg(quiet_arg(alloc))?;
    with_limits(alloc, command)
}

/// Returns the subcommand that makes a directory.
fn save_command<'a>(alloc: Global) -> Result<Command<'a>, AllocError>
    ensures app { IfOk result (λ command. app_of command ≡ save) }
    ensures local { IfOk result HasNoGlobals }
{
    let command = Command::new(alloc, "save")
        .about("Makes a directory from the tree at the end of replies")
        .arg(dir_arg(alloc))?
        .arg(set_id_arg(alloc))?
        .arg(no_owners_arg(alloc))?
        .arg(quiet_arg(alloc))?
        .arg(sync_arg(alloc))?
        .arg(into_arg(alloc))?
        .arg(remove_arg(alloc))?
        .arg(dry_run_arg(alloc))?;
    with_limits(alloc, command)
}

/// Returns the subcommand that runs the jobs of a plan.
fn jobs_command<'a>(alloc: Global) -> Result<Command<'a>, AllocError>
    ensures app { IfOk result (λ command. app_of command ≡ jobs) }
    ensures local { IfOk result HasNoGlobals }
{
    let command = Command::new(alloc, "jobs")
        .about("Runs the jobs of a plan in threads, and prints the outcome")
        .after_help(FILES)
        .arg(file_arg(alloc))?
        .arg(turns_arg(alloc))?
        .arg(quiet_arg(alloc))?
        .arg(moss_arg(alloc))?
        .arg(after_arg(alloc))?
        .arg(threads_arg(alloc))?
        .arg(retries_arg(alloc))?;
    with_limits(alloc, command)
}

/// Returns the argument of the directory.
fn dir_arg<'a>(alloc: Global) -> Arg<'a>
    ensures rule { rule_of result ≡ dir_rule }
    ensures local { result.global ≡ false }
{
    Arg::new(alloc, "dir")
        .required(true)
        .value_name("DIR")
        .help("The directory")
}

/// Returns the flag of the directory of the tree for a script, which then has names.
fn at_arg<'a>(alloc: Global) -> Arg<'a>
    ensures rule { rule_of result ≡ at_rule }
    ensures local { result.global ≡ false }
{
    Arg::new(alloc, "at").long("at").value_name("PATH").help(
        "Put everything into this directory of the tree, and write names for numbers",
    )
}

/// Returns the flag that leaves out what can't be loaded.
fn skip_arg<'a>(alloc: Global) -> Arg<'a>
    ensures rule { rule_of result ≡ skip_rule }
    ensures local { result.global ≡ false }
{
    Arg::new(alloc, "skip")
        .long("skip")
        .action(ArgAction::SetTrue)
        .help("Leave out what can't be loaded, list it, and end with status 3")
}

/// Returns the flag that only lists what can't be loaded.
fn check_arg<'a>(alloc: Global) -> Arg<'a>
    ensures rule { rule_of result ≡ check_rule }
    ensures local { result.global ≡ false }
{
    Arg::new(alloc, "check")
        .long("check")
        .action(ArgAction::SetTrue)
        .help("Write no script, but list what can't be loaded")
}

/// Returns the flag that keeps the bits S_ISUID and S_ISGID.
fn set_id_arg<'a>(alloc: Global) -> Arg<'a>
    ensures rule { rule_of result ≡ set_id_rule }
    ensures local { result.global ≡ false }
{
    Arg::new(alloc, "set-id")
        .long("set-id")
        .action(ArgAction::SetTrue)
        .help("Keep the set-user-ID and set-group-ID bits of modes")
}

/// Returns the flag that sets no owner and no group.
fn no_owners_arg<'a>(alloc: Global) -> Arg<'a>
    ensures rule { rule_of result ≡ no_owners_rule }
    ensures local { result.global ≡ false }
{
    Arg::new(alloc, "no-owners")
        .long("no-owners")
        .action(ArgAction::SetTrue)
        .help("Do not set owners and groups, even as the superuser")
}

/// Returns the flag that makes a save survive a power failure.
fn sync_arg<'a>(alloc: Global) -> Arg<'a>
    ensures rule { rule_of result ≡ sync_rule }
    ensures local { result.global ≡ false }
{
    Arg::new(alloc, "sync")
        .long("sync")
        .action(ArgAction::SetTrue)
        .help("Wait until the disk has everything")
}

/// Returns the flag that changes a directory that exists.
fn into_arg<'a>(alloc: Global) -> Arg<'a>
    ensures rule { rule_of result ≡ into_rule }
    ensures local { result.global ≡ false }
{
    Arg::new(alloc, "into")
        .long("into")
        .action(ArgAction::SetTrue)
        .help("Change a directory that exists, and list what differs")
}

/// Returns the flag that removes what the tree does not have.
fn remove_arg<'a>(alloc: Global) -> Arg<'a>
    ensures rule { rule_of result ≡ remove_rule }
    ensures local { result.global ≡ false }
{
    Arg::new(alloc, "remove")
        .long("remove")
        .action(ArgAction::SetTrue)
        .help("With --into, remove what the tree does not have")
}

/// Returns the flag that lists the steps and does nothing.
fn dry_run_arg<'a>(alloc: Global) -> Arg<'a>
    ensures rule { rule_of result ≡ dry_run_rule }
    ensures local { result.global ≡ false }
{
    Arg::new(alloc, "dry-run")
        .long("dry-run")
        .action(ArgAction::SetTrue)
        .help("With --into, only list what would be done")
}

/// Returns the flag that ends a run at the first line that does not do what it requests.
fn strict_arg<'a>(alloc: Global) -> Arg<'a>
    ensures rule { rule_of result ≡ strict_rule }
    ensures local { result.global ≡ false }
{
    Arg::new(alloc, "strict")
        .long("strict")
        .action(ArgAction::SetTrue)
        .help("End with status 3 at the first line that is invalid, refused, fails or waits")
}

/// Returns the flag of the script that is played first.
fn after_arg<'a>(alloc: Global) -> Arg<'a>
    ensures rule { rule_of result ≡ after_rule }
    ensures local { result.global ≡ false }
{
    Arg::new(alloc, "after")
        .long("after")
        .value_name("FILE")
        .help("Play this script first, without printing its replies")
}

/// Returns the argument of the plan.
fn file_arg<'a>(alloc: Global) -> Arg<'a>
    ensures rule { rule_of result ≡ file_rule }
    ensures local { result.global ≡ false }
{
    Arg::new(alloc, "file")
        .required(true)
        .value_name("FILE")
        .help("The plan")
}

/// Returns the flag of how often a call asks at most.
fn turns_arg<'a>(alloc: Global) -> Arg<'a>
    ensures rule { rule_of result ≡ turns_rule }
    ensures local { result.global ≡ false }
{
    Arg::new(alloc, "turns")
        .long("turns")
        .value_name("N")
        .value_parser(ValueParser::unsigned(1, MOST_TURNS))
        .default_value("10000")
        .help("Maximum number of attempts per blocked call")
}

/// Returns the flag of how many threads run jobs at most.
fn threads_arg<'a>(alloc: Global) -> Arg<'a>
    ensures rule { rule_of result ≡ threads_rule }
    ensures local { result.global ≡ false }
{
    Arg::new(alloc, "threads")
        .long("threads")
        .value_name("N")
        .value_parser(ValueParser::unsigned(1, MOST_THREADS))
        .default_value("64")
        .help("Maximum number of threads that run jobs")
}

/// Returns how often a job is begun again at most.
fn retries_arg<'a>(alloc: Global) -> Arg<'a>
    ensures rule { rule_of result ≡ retries_rule }
    ensures local { result.global ≡ false }
{
    Arg::new(alloc, "retries")
        .long("retries")
        .value_name("N")
        .value_parser(ValueParser::unsigned(0, MOST_RETRIES))
        .help("Break deadlocks, and begin a job again at most N times (strict plans: 10)")
}

/// Returns the flag that leaves out the progress.
fn quiet_arg<'a>(alloc: Global) -> Arg<'a>
    ensures rule { rule_of result ≡ quiet_rule }
    ensures local { result.global ≡ false }
{
    Arg::new(alloc, "quiet")
        .long("quiet")
        .action(ArgAction::SetTrue)
        .help("Do not show progress")
}

/// Returns the flag that requests Moss's rule for holders.
fn moss_arg<'a>(alloc: Global) -> Arg<'a>
    ensures rule { rule_of result ≡ moss_rule }
    ensures local { result.global ≡ false }
{
    Arg::new(alloc, "moss")
        .long("moss")
        .action(ArgAction::SetTrue)
        .help("Also block calls on locks that an ancestor holds (Moss's stricter rule)")
}

/// Returns the choice if the words could not be read.
fn choice_at(alloc: Global, error: &Error) -> Choice
    ensures { ErrorChoice (kind_of error.now) result }
{
    let kind = error.kind();
    if kind == ErrorKind::OutOfMemory {
        return Choice::Fault;
    }
    match text_of(alloc, error) {
        Err(_) => Choice::Fault,
        Ok(text) => {
            if kind == ErrorKind::DisplayHelp || kind == ErrorKind::DisplayVersion {
                Choice::Help(text)
            } else {
                Choice::Usage(text)
            }
        }
    }
}

/// Returns the text of an error. If a subcommand is wrong, it lists those that there are.
fn text_of(alloc: Global, error: &Error) -> Result<String, AllocError> {
    let text = error.to_string(alloc)?;
    if error.kind() != ErrorKind::InvalidSubcommand {
        return Ok(text);
    }
    match text.as_str().rsplit_once(USAGE) {
        Some((mistake, usage)) => with_subcommands(alloc, mistake, usage),
        None => Ok(text),
    }
}

/// Returns the text of a mistake, followed by the list of subcommands and the usage. The list is
/// written as at a lack of a subcommand.
fn with_subcommands(alloc: Global, mistake: &str, usage: &str) -> Result<String, AllocError> {
    let command = program(alloc)?;
    let mut text = String::from_str(alloc, mistake)?;
    text.push_str("\n  [subcommands: ")?;
    for subcommand in command.get_subcommands() {
        text.push_str(subcommand.get_name())?;
        text.push_str(", ")?;
    }
    text.push_str("help]")?;
    text.push_str(USAGE)?;
    text.push_str(usage)?;
    Ok(text)
}
