//! The program `ft`: `ft play` runs a script of transactions on a tree of directories, from
//! standard input to standard output; `ft dot` draws the last report of which transaction waits
//! for which among the replies that such a run wrote; `ft jobs FILE` runs the jobs of a plan in
//! threads, and prints their outcome; `ft load DIR` writes a script that makes what a directory
//! holds, and `ft save DIR` makes a directory of the tree with which replies end, or with `--into`
//! changes one that exists.
//!
//! It ends with status 0, even after a help text; with 1 after a fault, which a line `fault: NAME`
//! on standard error reports; and with 2 if the command line is not valid. It ends with 3 if a line
//! of a strict script did not do what it requests, a job of a strict plan did not end as it means,
//! or `load` has left something out; its output says which.
#![tactic(auto)]

mod causes;
mod disk_maker;
mod disk_source;
mod disk_target;
mod explained;
mod faults;
mod gets;
mod giving;
mod held;
mod into;
mod made;
mod removal;
mod script_files;
mod skipping;
mod status;
mod strictly;

ghost use Rattle.std.specs.Prelude.{◌≡◌, IfOk};
ghost use Rattle.ft_core.specs.Living.{NoneIsLive};
ghost use Rattle.ft_core.specs.States.{at_base};

use crate::causes::{Causes, Noted};
use crate::disk_maker::DiskMaker;
use crate::disk_source::DiskSource;
use crate::disk_target::DiskTarget;
use crate::explained::{Explained, say};
use crate::faults::{fault_line, plan_file_fault_line};
use crate::giving::is_superuser;
use crate::into::{Into, into_status};
use crate::script_files::{PlanFiles, ScriptFiles};
use crate::skipping::SkippingSource;
use crate::status::{
    dot_status, jobs_status, load_status, play_status, report_fault, report_setup_fault,
    save_status,
};
use crate::strictly::play_strictly_status;
use ft_base::Memory;
use ft_command::{AskedLimits, AskedSave, Choice, choose};
use ft_copy::{CopyLimits, Source};
use ft_core::{Core, Limits, Rule};
use ft_into::Wishes;
use ft_job_text::PlanRun;
use ft_jobs::Pace;
use ft_load::{Form, Spelling, needs_of};
use ft_needs::{limits_for, raised_for};
use ft_path::FilePath;
use ft_plan_files::{LONGEST_PLAN, PlanFileFault, WrittenPlan, written_plan};
use ft_record::Recorded;
use ft_screen::ShownTarget;
use ft_script::{PlayFault, SetupFault, core_with_setup, write_out};
use ft_transfer::NoFiles;
use std::fs::{File, Files};
use std::io::{ErrorKind, IsTerminal, Read, Stderr, Write};
use std::process::ExitCode;
use std::random::RandomSource;
use std::{env, io};

/// Carries out the task that the command line requests, and returns the status to end with.
fn main(rt: HostRuntime) -> ExitCode {
    let alloc = rt.alloc();
    let choice = match words_given(&rt) {
        Ok(words) => choose(alloc, words.as_slice()),
        Err(_) => Choice::Fault,
    };
    let status = match choice {
        Choice::Play {
            strict,
            rule,
            after,
            limits,
        } => run_script(&rt, strict, rule, limits, after),
        Choice::Dot => dot_status(alloc, &mut rt.stdin(), &mut rt.stdout(), &mut rt.stderr()),
        Choice::Load {
            dir,
            at,
            skip,
            check,
            set_id,
            quiet,
            limits,
        } => load_dir(
            &rt,
            dir.as_str(),
            &Loading {
                spelling: spelling_for(&at),
                skip,
                check,
                set_id,
                quiet,
            },
            limits,
        ),
        Choice::Save { dir, how, limits } => save_dir(&rt, dir.as_str(), how, limits),
        Choice::Jobs {
            file,
            pace,
            quiet,
            rule,
            after,
            limits,
        } => match begun_jobs(&rt, file.as_str(), rule, limits, after) {
            Ok(begun) => jobs_status(
                &rt,
                alloc,
                begun.core,
                PlanRun {
                    plan: &begun.plan,
                    pace: Pace {
                        turns: pace.turns,
                        threads: pace.threads,
                        retries: pace.retries,
                    },
                    screen: screen(&rt, quiet),
                },
                &begun.files,
                &mut rt.stdout(),
                &mut Explained::of_plan(&rt, file.as_str(), begun.text.as_slice(), &begun.plan),
            ),
            Err(status) => status,
        },
        Choice::Help(text) => helped(&rt, text.as_str()),
        Choice::Usage(text) => misused(&rt, text),
        Choice::Fault => report_fault(&mut rt.stderr(), fault_line(PlayFault::Memory)),
    };
    ExitCode::from(status)
}

/// Returns the words after the program's name.
fn words_given(rt: &HostRuntime) -> io::Result<Vec<String>> {
    Ok(env::args(rt)?.skip(1).collect(rt.alloc())?)
}

/// Runs the script on standard input, whose first line may list the limits that it needs. If the
/// run is strict, each of its lines must do what it requests.
fn run_script(
    rt: &HostRuntime,
    strict: bool,
    rule: Rule,
    asked: AskedLimits,
    after: Option<String>,
) -> u8 {
    let alloc = rt.alloc();
    let mut input = rt.stdin();
    let (needed, front) = match limits_for(alloc, Limits::default(), &mut input) {
        Ok(begun) => begun,
        Err(error) => return report_fault(&mut rt.stderr(), fault_line(fault_of(&error))),
    };
    let core = match core_for(rt, rule, asked, needed, after) {
        Ok(core) => core,
        Err(status) => return status,
    };
    let files = ScriptFiles::new(rt, core.limits().file_size);
    let mut script = front.as_slice().chain(input);
    let mut replies = rt.stdout();
    let mut errors = Explained::of_script(rt);
    if strict {
        play_strictly_status(alloc, core, &mut script, &mut replies, &files, &mut errors)
    } else {
        play_status(alloc, core, &mut script, &mut replies, &files, &mut errors)
    }
}

/// Returns the fault of a failed read.
fn fault_of(error: &io::Error) -> PlayFault {
    match error.kind() {
        ErrorKind::OutOfMemory => PlayFault::Memory,
        ErrorKind::Interrupted => PlayFault::Turns,
        _ => PlayFault::Read,
    }
}

/// A run of the jobs of a plan that can start.
#[derive(Drop)]
struct BegunJobs<'rt> {
    core: Recorded,
    /// The text of the file of the plan.
    text: Vec<u8>,
    plan: WrittenPlan,
    /// The files of the disk that the plan may name.
    files: PlanFiles<'rt>,
}

/// Returns the run of the plan in a file. If its core or the plan could not be had, that was
/// reported, and the error is the status to end with.
fn begun_jobs<'rt>(
    rt: &'rt HostRuntime,
    file: &str,
    rule: Rule,
    asked: AskedLimits,
    after: Option<String>,
) -> Result<BegunJobs<'rt>, u8>
    ensures { IfOk result (λ begun. NoneIsLive begun.core.state) }
{
    let core = core_for(rt, rule, asked, Limits::default(), after)?;
    let files = PlanFiles::new(rt, core.limits().file_size);
    let (text, plan) = plan_in(rt, file, &files)?;
    match Recorded::of(core) {
        Ok(core) => Ok(BegunJobs {
            core,
            text,
            plan,
            files,
        }),
        Err(_) => Err(report_fault(&mut rt.stderr(), fault_line(PlayFault::Memory))),
    }
}

/// Returns the text of a file, and the plan that it is. If there is none, that was reported.
fn plan_in(
    rt: &HostRuntime,
    file: &str,
    files: &PlanFiles<'_>,
) -> Result<(Vec<u8>, WrittenPlan), u8> {
    let text = match read_file(rt, file, LONGEST_PLAN as u64 + 1) {
        Ok(text) => text,
        Err(error) => return Err(unread(rt, "the plan", file, &error)),
    };
    match written_plan(rt.alloc(), text.as_slice(), files) {
        Ok(plan) => Ok((text, plan)),
        Err(fault) => Err(unwritten(rt, file, fault)),
    }
}

/// Reports why a plan is not run. If a file of the disk could not be read, a sentence has said so.
fn unwritten(rt: &HostRuntime, file: &str, fault: PlanFileFault) -> u8 {
    if fault == PlanFileFault::TooLong {
        say(
            rt,
            format!(in rt.alloc(); "{file}: it has more than 8,388,608 bytes"),
        );
    }
    report_fault(&mut rt.stderr(), plan_file_fault_line(fault))
}

/// Reports that a file could not be read, by its name, and why.
fn unread(rt: &HostRuntime, what: &str, file: &str, error: &io::Error) -> u8 {
    let fault = fault_of(error);
    if fault != PlayFault::Read {
        return report_fault(&mut rt.stderr(), fault_line(fault));
    }
    let kind = error.kind();
    say(
        rt,
        format!(in rt.alloc(); "cannot read {what} '{file}': {kind}"),
    );
    let status = report_fault(&mut rt.stderr(), fault_line(fault));
    let causes = Causes::new();
    causes.note(error);
    causes.tell(rt);
    status
}

/// Prints a help text.
fn helped(rt: &HostRuntime, text: &str) -> u8 {
    match write_out(&mut rt.stdout(), text.as_bytes()) {
        Ok(()) => 0,
        Err(_) => report_fault(&mut rt.stderr(), fault_line(PlayFault::Write)),
    }
}

/// Prints what can be requested.
fn misused(rt: &HostRuntime, text: String) -> u8 {
    let _ = rt.eprint(text);
    2
}

/// How a directory is to be loaded.
#[derive(Clone, Copy)]
struct Loading<'a> {
    spelling: Spelling<'a>,
    skip: bool,
    check: bool,
    set_id: bool,
    quiet: bool,
}

/// Returns how a script is spelled: with names if it is for this directory of the tree, and with
/// numbers if it is for none.
fn spelling_for(at: &Option<FilePath>) -> Spelling<'_> {
    match at {
        Some(path) => Spelling::with_names(path.as_bytes()),
        None => Spelling::with_numbers(),
    }
}

/// Writes a script of a directory to standard output, or lists there what of it can't be loaded.
/// The script needs no more than is requested. If nothing is requested, it needs no more than a
/// core that is played with flags can have. Returns 3 if something was left out.
fn load_dir(rt: &HostRuntime, dir: &str, loading: &Loading<'_>, asked: AskedLimits) -> u8 {
    let causes = Causes::new();
    let most = asked.over(Limits {
        links: Limits::default().links,
        ..Limits::greatest()
    });
    load_disk(rt, dir, &causes, loading, most)
}

/// Writes a script of a directory that needs no more than these limits, or lists what of it can't
/// be loaded. Returns the status to end with.
fn load_disk<'a>(
    rt: &'a HostRuntime,
    dir: &'a str,
    causes: &'a Causes,
    loading: &Loading<'_>,
    most: Limits,
) -> u8 {
    let skips = loading.skip || loading.check;
    let disk = DiskSource::new(rt, dir, causes, skips);
    if skips {
        return load_rest(rt, &disk, causes, loading, most);
    }
    let needs = needs_of(rt.alloc(), most, loading.set_id, loading.spelling, &disk);
    disk.begin();
    load_from(rt, &disk, causes, loading, needs)
}

/// Writes a script of a directory without what can't be loaded, or only lists that. Returns 3 if
/// something was left out and no fault was reported.
fn load_rest<'a>(
    rt: &'a HostRuntime,
    disk: &DiskSource<'a>,
    causes: &'a Causes,
    loading: &Loading<'_>,
    most: Limits,
) -> u8 {
    let allowed = CopyLimits {
        file_size: most.file_size,
        links: most.links,
        set_id: loading.set_id,
    };
    let top = loading.spelling.top();
    let skipping = SkippingSource::new(rt, disk, causes, allowed, top, loading.check);
    let needs = needs_of(
        rt.alloc(),
        most,
        loading.set_id,
        loading.spelling,
        &skipping,
    );
    skipping.begin();
    let status = load_from(rt, &skipping, causes, loading, needs);
    let Ok(has_left_out) = skipping.tell() else {
        return report_fault(&mut rt.stderr(), fault_line(PlayFault::Memory));
    };
    if has_left_out && status == 0 {
        return 3;
    }
    status
}

/// Writes a script of a source, which needs this, to standard output. Writes none if the source is
/// only checked.
fn load_from<S: Source>(
    rt: &HostRuntime,
    source: &S,
    causes: &Causes,
    loading: &Loading<'_>,
    needs: Result<Limits, Memory>,
) -> u8 {
    let Ok(needs) = needs else {
        return report_fault(&mut rt.stderr(), fault_line(PlayFault::Memory));
    };
    causes.forget();
    let status = if loading.check {
        load_to(rt, source, loading, needs, io::sink())
    } else {
        load_to(rt, source, loading, needs, Noted::new(rt.stdout(), causes))
    };
    if status == 1 {
        causes.tell(rt);
    }
    status
}

/// Hands a script of a source, which needs this, to a writer. If standard output is a terminal,
/// progress is not shown, because the script itself shows it.
fn load_to<S: Source, W: Write + Drop>(
    rt: &HostRuntime,
    source: &S,
    loading: &Loading<'_>,
    needs: Limits,
    script: W,
) -> u8 {
    let alloc = rt.alloc();
    let form = Form {
        limits: needs,
        spelling: loading.spelling,
    };
    let set_id = loading.set_id;
    let screen = screen(rt, loading.quiet || rt.stdout().is_terminal());
    let mut errors = Explained::of_directory(rt);
    let (_writer, status) = load_status(
        rt,
        alloc,
        form,
        set_id,
        source,
        screen,
        script,
        &mut errors,
    );
    status
}

/// Makes a directory of the tree with which standard input ends, or changes one that exists. Its
/// files are no larger than is requested.
fn save_dir(rt: &HostRuntime, dir: &str, how: AskedSave, asked: AskedLimits) -> u8 {
    let causes = Causes::new();
    let limits = asked.over(Limits::greatest());
    let allowed = CopyLimits {
        file_size: limits.file_size,
        links: limits.links,
        set_id: how.set_id,
    };
    let status = if how.into {
        save_into(rt, dir, how, allowed, &causes)
    } else {
        save_new(rt, dir, how, allowed, &causes)
    };
    if status == 1 {
        causes.tell(rt);
    }
    status
}

/// Makes a directory of the tree with which standard input ends, and returns the status to end
/// with.
fn save_new<'a>(
    rt: &'a HostRuntime,
    dir: &'a str,
    how: AskedSave,
    allowed: CopyLimits,
    causes: &'a Causes,
) -> u8 {
    let alloc = rt.alloc();
    let target = DiskTarget::new(rt, dir, causes, !how.no_owners, how.sync);
    let mut target = ShownTarget::new(rt, alloc, target, screen(rt, how.quiet));
    let mut replies = Noted::new(rt.stdin(), causes);
    let mut errors = Explained::of_replies(rt);
    save_status(alloc, allowed, &mut replies, &mut target, &mut errors)
}

/// Changes a directory until it holds the tree with which standard input ends. The steps are listed
/// on standard output. Returns the status to end with.
fn save_into<'a>(
    rt: &'a HostRuntime,
    dir: &'a str,
    how: AskedSave,
    allowed: CopyLimits,
    causes: &'a Causes,
) -> u8 {
    let disk = DiskSource::new(rt, dir, causes, true);
    disk.begin();
    let maker = DiskMaker::new(rt, dir, causes, !how.no_owners, how.sync);
    let into = Into {
        wishes: Wishes {
            removes: how.remove,
            owners: !how.no_owners && is_superuser(rt),
        },
        is_dry: how.dry_run,
    };
    let mut replies = Noted::new(rt.stdin(), causes);
    let mut list = Noted::new(rt.stdout(), causes);
    let mut errors = Explained::of_replies(rt);
    let (_maker, status) = into_status(
        rt.alloc(),
        allowed,
        into,
        &mut replies,
        &disk,
        maker,
        &mut list,
        &mut errors,
    );
    status
}

/// Returns a core that grants calls by this rule, on which the script in a file was played first,
/// if there is one. It has the limits that are requested. Without a request it has those that are
/// needed or, if they are greater, those that this script needs. On failure, that was reported, and
/// the error is the status to end with.
fn core_for(
    rt: &HostRuntime,
    rule: Rule,
    asked: AskedLimits,
    needed: Limits,
    after: Option<String>,
) -> Result<Core, u8>
    ensures none_live { IfOk result (λ core. NoneIsLive core.state) }
    ensures base { IfOk result
        (λ core. core.state ≡ at_base core.state.rule core.state.limits core.state.base) }
{
    let alloc = rt.alloc();
    let seed = random_number(rt);
    let begun = match &after {
        None => core_with_setup(alloc, rule, asked.over(needed), seed, None, &NoFiles),
        Some(file) => match read_file(rt, file.as_str(), u64::MAX) {
            Ok(script) => {
                let limits = asked.over(raised_for(needed, script.as_slice()));
                let files = ScriptFiles::new(rt, limits.file_size);
                core_with_setup(alloc, rule, limits, seed, Some(script.as_slice()), &files)
            }
            Err(error) => return Err(unread(rt, "the script", file.as_str(), &error)),
        },
    };
    match begun {
        Ok(core) => Ok(core),
        Err(fault) => {
            explain_setup(rt, after, fault);
            Err(report_setup_fault(alloc, &mut rt.stderr(), fault))
        }
    }
}

/// Says which line of the script in a file could not be played first.
fn explain_setup(rt: &HostRuntime, after: Option<String>, fault: SetupFault) {
    if let (Some(file), SetupFault::Script(line)) = (after, fault) {
        let why = "it is no request, is refused, fails or waits, or leaves a transaction live";
        say(rt, format!(in rt.alloc(); "{file}:{line}: {why}"));
    }
}

/// Returns a number that nobody can guess, or 0 if the system has none to give.
fn random_number(rt: &HostRuntime) -> u64 {
    let mut bytes = [0; 8];
    match rt.fill_bytes(&mut bytes) {
        Ok(()) => u64::from_le_bytes(bytes),
        Err(_) => 0,
    }
}

/// Returns the screen that shows progress: standard error, if it is a terminal. Returns `None` if
/// it is no terminal, or if nothing is to be shown.
fn screen(rt: &HostRuntime, quiet: bool) -> Option<Stderr> {
    let errors = rt.stderr();
    if quiet || !errors.is_terminal() {
        return None;
    }
    Some(errors)
}

/// Returns the bytes of a file, but at most this many.
fn read_file(rt: &HostRuntime, file: &str, most: u64) -> io::Result<Vec<u8>> {
    let mut bytes = Vec::new(rt.alloc());
    File::open(rt, file).and_then(|file| file.take(most).read_to_end(&mut bytes))?;
    Ok(bytes)
}
