// No clause states which words the crate that reads them takes, nor its texts.
use ft_command::{Choice, choose};
use ft_core::{Limits, Rule};
use std::alloc::Global;
use std::test::Fail;

/// Returns whether these words are not valid, and the text that says so has this part.
fn is_usage(alloc: Global, words: &[&str], part: &str) -> bool {
    let choice = choose(alloc, words);
    matches!(&choice, Choice::Usage(text) if text.as_str().contains(part))
}

/// Returns whether they request help, and its text has this part.
fn is_help(alloc: Global, words: &[&str], part: &str) -> bool {
    let choice = choose(alloc, words);
    matches!(&choice, Choice::Help(text) if text.as_str().contains(part))
}

/// Returns whether they request a script on a core of this rule.
fn is_play_by(alloc: Global, words: &[&str], wanted: Rule) -> bool {
    matches!(choose(alloc, words), Choice::Play { rule, after: None, .. } if rule == wanted)
}

/// The limits that they request, over the default ones.
fn limits_of(alloc: Global, words: &[&str]) -> Option<Limits> {
    let asked = match choose(alloc, words) {
        Choice::Play { limits, .. }
        | Choice::Load { limits, .. }
        | Choice::Save { limits, .. }
        | Choice::Jobs { limits, .. } => limits,
        _ => return None,
    };
    Some(asked.over(Limits::default()))
}

/// Returns whether they request a script on a core of these limits.
fn is_play_within(alloc: Global, words: &[&str], wanted: Limits) -> bool {
    limits_of(alloc, words) == Some(wanted)
}

/// Returns whether the words request a script by the default rule.
fn is_play(alloc: Global, words: &[&str]) -> bool {
    is_play_by(alloc, words, Rule::Profile)
}

/// Returns whether the words request a drawing.
fn is_dot(alloc: Global, words: &[&str]) -> bool {
    matches!(choose(alloc, words), Choice::Dot)
}

/// Returns whether they request the jobs of this plan, in so many turns, and to be as quiet.
fn is_jobs(alloc: Global, words: &[&str], plan: &str, most: u64, hushed: bool) -> bool {
    match choose(alloc, words) {
        Choice::Jobs {
            file,
            pace,
            quiet,
            rule,
            after: None,
            ..
        } => {
            file.as_str() == plan && pace.turns == most && quiet == hushed && rule == Rule::Profile
        }
        _ => false,
    }
}

/// Returns whether they request a script of this directory, to skip, to keep set-id bits and to be
/// quiet or not.
fn is_load(alloc: Global, words: &[&str], folder: &str, asked: (bool, bool, bool)) -> bool {
    match choose(alloc, words) {
        Choice::Load {
            dir,
            at: None,
            skip,
            check: false,
            set_id,
            quiet,
            limits: _,
        } => dir.as_str() == folder && (skip, set_id, quiet) == asked,
        _ => false,
    }
}

/// Returns whether they request a script of a directory for this directory of the tree.
fn is_load_at(alloc: Global, words: &[&str], path: &[u8]) -> bool {
    match choose(alloc, words) {
        Choice::Load { at, .. } => match at {
            Some(place) => place.as_bytes() == path,
            None => false,
        },
        _ => false,
    }
}

/// Returns whether they request a list of what can't be loaded of this directory.
fn is_check(alloc: Global, words: &[&str], folder: &str) -> bool {
    match choose(alloc, words) {
        Choice::Load {
            dir,
            skip: false,
            check: true,
            ..
        } => dir.as_str() == folder,
        _ => false,
    }
}

/// Returns whether they request jobs in so many threads at most.
fn is_jobs_in(alloc: Global, words: &[&str], most: u64) -> bool {
    matches!(choose(alloc, words), Choice::Jobs { pace, .. } if pace.threads == most)
}

/// Returns whether they request so many retries at most, or no number of them.
fn is_jobs_again(alloc: Global, words: &[&str], most: Option<u64>) -> bool {
    matches!(choose(alloc, words), Choice::Jobs { pace, .. } if pace.retries == most)
}
/// Returns whether they request this directory to be made, to keep set-id bits, to set no owners
/// and to be quiet or not.
fn is_save(alloc: Global, words: &[&str], folder: &str, asked: (bool, bool, bool)) -> bool {
    match choose(alloc, words) {
        Choice::Save {
            dir,
            how,
            limits: _,
        } => {
            dir.as_str() == folder && (how.set_id, how.no_owners, how.quiet) == asked && !how.into
        }
        _ => false,
    }
}

/// Returns whether they request a change of this directory, with these flags: to remove, to change
/// nothing, and to survive a power failure.
fn is_into(alloc: Global, words: &[&str], folder: &str, asked: (bool, bool, bool)) -> bool {
    match choose(alloc, words) {
        Choice::Save {
            dir,
            how,
            limits: _,
        } => { dir.as_str() == folder && (how.remove, how.dry_run, how.sync) == asked && how.into }
        _ => false,
    }
}

/// The file of the script that is to be played first, if they ask for one.
fn first_file(alloc: Global, words: &[&str]) -> Option<String> {
    match choose(alloc, words) {
        Choice::Play {
            strict: _,
            rule: _,
            after,
            limits: _,
        } => after,
        Choice::Jobs {
            file: _plan,
            pace: _,
            quiet: _,
            rule: _,
            after,
            limits: _,
        } => after,
        _ => None,
    }
}

/// Returns whether they request something after the script in this file.
fn is_after(alloc: Global, words: &[&str], script: &str) -> bool {
    match first_file(alloc, words) {
        Some(file) => file.as_str() == script,
        None => false,
    }
}

#[test]
fn choices_of_load(rt: HostRuntime) -> Result<(), Fail> {
    let alloc = rt.alloc();
    assert!(rt; is_load(alloc, &["load", "src"], "src", (false, false, false)));
    assert!(rt;
        is_load(
            alloc,
            &["load", "--skip", "src"],
            "src",
            (true, false, false)
        )
    );
    assert!(rt;
        is_load(
            alloc,
            &["load", "--set-id", "src"],
            "src",
            (false, true, false)
        )
    );
    assert!(rt;
        is_load(
            alloc,
            &["load", "src", "--quiet"],
            "src",
            (false, false, true)
        )
    );
    assert!(rt; is_check(alloc, &["load", "src", "--check"], "src"));
    assert!(rt; is_usage(alloc, &["load"], "<DIR>"));
    Ok(())
}

#[test]
fn choices_of_load_at(rt: HostRuntime) -> Result<(), Fail> {
    let alloc = rt.alloc();
    assert!(rt; is_load_at(alloc, &["load", "src", "--at", "/a"], b"/a"));
    assert!(rt; is_load_at(alloc, &["load", "--at=/", "src"], b"/"));
    assert!(rt; is_load_at(alloc, &["load", "--at", "/a%20b/%25", "src"], b"/a b/%"));
    for path in ["src", "", "a/b", "/a%00", "%"] {
        let text = "for '--at <PATH>': it is no absolute path that a tree can have";
        assert!(rt;
            is_usage(alloc, &["load", "src", "--at", path], text),
            "at {path}"
        );
    }
    assert!(rt; is_usage(alloc, &["save", "out", "--at", "/a"], "'--at'"));
    Ok(())
}

#[test]
fn choices_of_save(rt: HostRuntime) -> Result<(), Fail> {
    let alloc = rt.alloc();
    assert!(rt; is_save(alloc, &["save", "out"], "out", (false, false, false)));
    assert!(rt;
        is_save(
            alloc,
            &["save", "--set-id", "out"],
            "out",
            (true, false, false)
        )
    );
    assert!(rt;
        is_save(
            alloc,
            &["save", "--no-owners", "out"],
            "out",
            (false, true, false)
        )
    );
    assert!(rt;
        is_save(
            alloc,
            &["save", "--quiet", "out"],
            "out",
            (false, false, true)
        )
    );
    assert!(rt; is_usage(alloc, &["save"], "<DIR>"));
    assert!(rt; is_after(alloc, &["play", "--after", "src.ft"], "src.ft"));
    assert!(rt; is_after(alloc, &["jobs", "p", "--after", "src.ft"], "src.ft"));
    Ok(())
}

#[test]
fn choices_of_save_into(rt: HostRuntime) -> Result<(), Fail> {
    let alloc = rt.alloc();
    assert!(rt;
        is_into(
            alloc,
            &["save", "--into", "out"],
            "out",
            (false, false, false)
        )
    );
    assert!(rt;
        is_into(
            alloc,
            &["save", "--into", "--remove", "--dry-run", "--sync", "out"],
            "out",
            (true, true, true)
        )
    );
    assert!(rt; is_usage(alloc, &["save", "--remove", "out"], "need '--into'"));
    assert!(rt; is_usage(alloc, &["save", "--dry-run", "out"], "need '--into'"));
    Ok(())
}

#[test]
fn choices(rt: HostRuntime) -> Result<(), Fail> {
    let alloc = rt.alloc();
    assert!(rt; is_play(alloc, &["play"]));
    assert!(rt; is_play_by(alloc, &["play", "--moss"], Rule::Moss));
    assert!(rt; is_dot(alloc, &["dot"]));
    assert!(rt; is_usage(alloc, &[], "Usage: ft <COMMAND>"));
    assert!(rt; is_usage(alloc, &["dance"], "unrecognized subcommand 'dance'"));
    assert!(rt;
        is_usage(
            alloc,
            &["dance"],
            "[subcommands: play, dot, load, save, jobs, help]"
        )
    );
    assert!(rt; is_usage(alloc, &["play", "--dance"], "Usage: ft play [OPTIONS]"));
    assert!(rt; is_usage(alloc, &["play", "now"], "'now'"));
    assert!(rt;
        is_help(
            alloc,
            &["--help"],
            "ft play < script.ft | ft dot | dot -Tsvg"
        )
    );
    assert!(rt; is_help(alloc, &["play", "--help"], "play"));
    assert!(rt; is_help(alloc, &["--version"], "ft 0.1.0"));
    Ok(())
}

#[test]
fn choices_of_jobs(rt: HostRuntime) -> Result<(), Fail> {
    let alloc = rt.alloc();
    assert!(rt; is_jobs(alloc, &["jobs", "p"], "p", 10_000, false));
    assert!(rt;
        is_jobs(
            alloc,
            &["jobs", "p", "--turns", "1000000"],
            "p",
            1_000_000,
            false
        )
    );
    assert!(rt; is_jobs(alloc, &["jobs", "--turns=1", "--quiet", "p"], "p", 1, true));
    assert!(rt;
        is_usage(
            alloc,
            &["jobs", "p", "--turns", "0"],
            "0 is not in 1..=1000000"
        )
    );
    assert!(rt;
        is_usage(
            alloc,
            &["jobs", "p", "--turns", "1000001"],
            "1000001 is not in 1..=1000000"
        )
    );
    assert!(rt; is_usage(alloc, &["jobs"], "<FILE>"));
    assert!(rt; is_help(alloc, &["jobs", "--help"], "[default: 10000]"));
    Ok(())
}

#[test]
fn choices_of_retries(rt: HostRuntime) -> Result<(), Fail> {
    let alloc = rt.alloc();
    assert!(rt; is_jobs_again(alloc, &["jobs", "p"], None));
    assert!(rt; is_jobs_again(alloc, &["jobs", "p", "--retries", "0"], Some(0)));
    assert!(rt; is_jobs_again(alloc, &["jobs", "--retries=1000000", "p"], Some(1_000_000)));
    assert!(rt; is_usage(alloc, &["jobs", "p", "--retries", "x"], "retries"));
    Ok(())
}

#[test]
fn choices_of_threads(rt: HostRuntime) -> Result<(), Fail> {
    let alloc = rt.alloc();
    assert!(rt; is_jobs_in(alloc, &["jobs", "p"], 64));
    assert!(rt; is_jobs_in(alloc, &["jobs", "p", "--threads", "4096"], 4_096));
    assert!(rt; is_jobs_in(alloc, &["jobs", "--threads=1", "p"], 1));
    assert!(rt;
        is_usage(
            alloc,
            &["jobs", "p", "--threads", "0"],
            "0 is not in 1..=4096"
        )
    );
    assert!(rt;
        is_usage(
            alloc,
            &["jobs", "p", "--threads=4097"],
            "4097 is not in 1..=4096"
        )
    );
    Ok(())
}

#[test]
fn choices_of_limits(rt: HostRuntime) -> Result<(), Fail> {
    let alloc = rt.alloc();
    let mut wanted = Limits::default();
    assert!(rt; is_play_within(alloc, &["play"], wanted));
    wanted.file_size = 3 << 30;
    assert!(rt; is_play_within(alloc, &["play", "--largest-file", "3G"], wanted));
    wanted.calls = 5_000_000;
    let words = ["play", "--largest-file=3145728K", "--most-calls", "5000000"];
    assert!(rt; is_play_within(alloc, &words, wanted));
    wanted = Limits::default();
    wanted.transactions = 1 << 62;
    wanted.depth = 4_096;
    let words = ["play", "--most-transactions", "none", "--deepest=none"];
    assert!(rt; is_play_within(alloc, &words, wanted));
    Ok(())
}

#[test]
fn limits_of_other_commands(rt: HostRuntime) -> Result<(), Fail> {
    let alloc = rt.alloc();
    let mut wanted = Limits::default();
    wanted.file_size = 5 << 20;
    wanted.calls = 7;
    let flags = ["--largest-file", "5M", "--most-calls=7"];
    for command in ["load", "save", "jobs"] {
        let words = [command, "d", flags[0], flags[1], flags[2]];
        assert_eq!(rt; limits_of(alloc, &words), Some(wanted), "at {command}");
    }
    assert!(rt; is_dot(alloc, &["dot", "--largest-file", "5M", "--deepest", "none"]));
    Ok(())
}

#[test]
fn bad_limits_are_usage_errors(rt: HostRuntime) -> Result<(), Fail> {
    let alloc = rt.alloc();
    let text = "invalid value '3T' for '--largest-file <N>'";
    assert!(rt; is_usage(alloc, &["play", "--largest-file", "3T"], text));
    assert!(rt;
        is_usage(
            alloc,
            &["jobs", "p", "--deepest", "4097"],
            "a number up to 4096"
        )
    );
    assert!(rt; is_usage(alloc, &["play", "--most-calls="], "--most-calls"));
    assert!(rt; is_usage(alloc, &["play", "--most-transactions", "2K"], "'2K'"));
    assert!(rt; is_usage(alloc, &["load", "d", "--largest-file", "3T"], text));
    assert!(rt; is_usage(alloc, &["save", "d", "--largest-file", "3T"], text));
    assert!(rt; is_usage(alloc, &["dot", "--largest-file", "3T"], text));
    Ok(())
}
