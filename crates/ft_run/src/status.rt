// The status that the program ends with.
ghost use Rattle.std.specs.Prelude.{◌≡◌, ◌⊎◌, true, false};
ghost use Rattle.std.specs.Io.KnownBytes.{Keeps};
ghost use Rattle.ft_dot.specs.Drawn.{Draws};
ghost use Rattle.ft_run.specs.FaultLines.{TellsLine, after_line, save_line, stopped_line, unwritten_line};
ghost use Rattle.ft_script.specs.Runs.{AnswersFreely, WritesFront};
ghost use Rattle.ft_core.specs.Living.{NoneIsLive};
ghost use Rattle.ft_load.specs.Loads.{Loads};
ghost use Rattle.ft_save.specs.Saves.{IsLeft, Saves};
ghost use Rattle.ft_run.specs.Statuses.{PlaysToEnd, FailsToPlay, FailsToDraw, FailsToRun, FailsToLoad, FailsToSave, RunsJobs, status_of};

use crate::faults::{fault_line, run_fault_line, trouble_name};
use crate::gets::give_files;
use ft_copy::{CopyLimits, CopyStop, Source, Target};
use ft_core::Core;
use ft_dot::draw;
use ft_job_text::{PlanRun, run_plan};
use ft_load::{Form, load};
use ft_record::Recorded;
use ft_save::{SaveFault, save};
use ft_screen::ShownSource;
use ft_script::{PlayFault, SetupFault, play, write_out};
use ft_transfer::DiskFiles;
use ft_words::CodedArgument;
use std::alloc::Global;
use std::io::{Read, Write};
use std::sync::Wait;
use std::thread::Threads;
use std::time::Clock;

/// Runs a script on a core, and returns the status to end with: 0, or 1 after a fault, which a line
/// on `errors` reports. If that line can't be written, the status is the same.
pub fn play_status<R: Read, W: Write, F: DiskFiles, E: Write>(
    alloc: Global,
    core: Core,
    reader: &mut R,
    writer: &mut W,
    files: &F,
    errors: &mut E,
) -> u8
    ensures status { (result ≡ 0) ⊎ (result ≡ 1) }
    ensures quiet { result ≡ 0 → Keeps (E.contents errors.old) (E.contents errors.new) }
    ensures ok { result ≡ 0 → PlaysToEnd (AnswersFreely (F.tells files.now)) R.remaining W.contents
        reader.old reader.new writer.old writer.new core.state }
    ensures fault { result ≡ 1 → FailsToPlay (AnswersFreely (F.tells files.now))
        R.remaining W.contents E.contents
        reader.old reader.new writer.old writer.new errors.old errors.new core.state }
{
    let mut core = core;
    match play(alloc, reader, writer, files, &mut core) {
        Ok(()) => 0,
        Err(fault) => report_fault(errors, fault_line(fault)),
    }
}

/// Draws the last report of which transaction waits for which, and returns the status to end with:
/// 0, or 1 after a fault, which a line on `errors` reports. If that line can't be written, the
/// status is the same.
pub fn dot_status<R: Read, W: Write, E: Write>(
    alloc: Global,
    reader: &mut R,
    writer: &mut W,
    errors: &mut E,
) -> u8
    ensures status { (result ≡ 0) ⊎ (result ≡ 1) }
    ensures quiet { result ≡ 0 → Keeps (E.contents errors.old) (E.contents errors.new) }
    ensures ok { result ≡ 0 → Draws (R.remaining reader.old) (R.remaining reader.new)
        (W.contents writer.old) (W.contents writer.new) }
    ensures fault { result ≡ 1 → FailsToDraw R.remaining W.contents E.contents
        reader.old reader.new writer.old writer.new errors.old errors.new }
{
    match draw(alloc, reader, writer) {
        Ok(()) => 0,
        Err(fault) => report_fault(errors, fault_line(fault)),
    }
}

/// Runs the jobs of a plan on a core in which no transaction is live, and returns the status to end
/// with: 0; 3 if the plan is strict and a job did not end as it means; or 1 after a fault, which a
/// line on `errors` reports. If that line can't be written, the status is the same. How far the
/// jobs have come is shown on a screen while they run, if there is one.
///
/// After the run, files of the disk are given what the `get`s of the plan got. A line on `errors`
/// reports each that could not be written, and the status is 1.
pub fn jobs_status<
    R: Threads + Wait + Clock + Sync,
    S: Write + Send + Drop,
    F: DiskFiles,
    W: Write,
    E: Write,
>(
    rt: &R,
    alloc: Global,
    core: Recorded,
    run: PlanRun<'_, S>,
    files: &F,
    writer: &mut W,
    errors: &mut E,
) -> u8
    requires { NoneIsLive core.state }
    ensures status { (result ≡ 0) ⊎ (result ≡ 1) ⊎ (result ≡ 3) }
    ensures quiet { (result ≡ 0) ⊎ (result ≡ 3)
        → Keeps (E.contents errors.old) (E.contents errors.new) }
    ensures ok { result ≡ 0 → RunsJobs (F.tells files.now) true true core.state
        run.entry.plan.now W.contents E.contents writer.old writer.new errors.old errors.new }
    ensures unmet { result ≡ 3 → RunsJobs (F.tells files.now) false true core.state
        run.entry.plan.now W.contents E.contents writer.old writer.new errors.old errors.new }
    ensures fault { result ≡ 1 → FailsToRun (F.tells files.now) core.state
        run.entry.plan.now W.contents E.contents writer.old writer.new errors.old errors.new }
{
    let gets = run.plan.gets.as_slice();
    match run_plan(rt, alloc, core, run, writer) {
        Ok(end) => {
            let given = give_files(alloc, gets, end.got.as_slice(), files, errors);
            status_of(end.met, given)
        }
        Err(fault) => report_fault(errors, run_fault_line(fault)),
    }
}

/// Returns the status of jobs that have run: 1 if a file could not be written, and otherwise 3 if
/// they did not end as the plan means.
fn status_of(met: bool, given: bool) -> u8
    ensures { result ≡ status_of met given }
{
    match (given, met) {
        (false, _) => 1,
        (true, true) => 0,
        (true, false) => 3,
    }
}

/// Reports a fault by its line, and returns the status that it ends with.
pub fn report_fault<E: Write>(errors: &mut E, line: &str) -> u8
    ensures status { result ≡ 1 }
    ensures line { WritesFront (E.contents errors.old) (E.contents errors.new) line.now }
{
    let _ = write_out(errors, line.as_bytes());
    1
}

/// Reports why a script was not played first, and returns the status that it ends with. If there is
/// no memory for the line, that is reported.
pub fn report_setup_fault<E: Write>(alloc: Global, errors: &mut E, fault: SetupFault) -> u8
    ensures status { result ≡ 1 }
    ensures line { TellsLine (E.contents errors.old) (E.contents errors.new) (after_line fault) }
{
    let number = match fault {
        SetupFault::Memory => return report_fault(errors, fault_line(PlayFault::Memory)),
        SetupFault::BadLimits => return report_fault(errors, "fault: BadLimits\n"),
        SetupFault::Script(number) => number,
    };
    match format!(in alloc; "fault: Script {number}\n") {
        Ok(line) => report_fault(errors, line.as_str()),
        Err(_) => report_fault(errors, fault_line(PlayFault::Memory)),
    }
}

/// Writes a script of what a source holds, in this form, with the bits S_ISUID and S_ISGID of modes
/// or without. Returns the writer and the status to end with: 0, or 1 after a
/// fault, which a line on `errors` reports, with the path at which it came. How far it has come is
/// shown on a screen meanwhile, if there is one.
pub fn load_status<R: Clock, S: Source, V: Write + Drop, W: Write, E: Write>(
    rt: &R,
    alloc: Global,
    form: Form<'_>,
    set_id: bool,
    source: &S,
    screen: Option<V>,
    writer: W,
    errors: &mut E,
) -> (W, u8)
    ensures status { (result.1 ≡ 0) ⊎ (result.1 ≡ 1) }
    ensures quiet { result.1 ≡ 0 → Keeps (E.contents errors.old) (E.contents errors.new) }
    ensures ok { result.1 ≡ 0
        → Loads form.entry set_id (S.tells source.now) (W.contents writer) (W.contents result.0) }
    ensures fault { result.1 ≡ 1 → FailsToLoad form.entry set_id (S.tells source.now)
        W.contents E.contents writer result.0 errors.old errors.new }
{
    let shown = ShownSource::new(rt, alloc, source, screen);
    let (writer, loaded) = load(alloc, form, set_id, &shown, writer);
    shown.done();
    let status = match loaded {
        Ok(()) => 0,
        Err(stopped) => report_stop(alloc, errors, &stopped),
    };
    (writer, status)
}

/// Makes the tree with which replies end, if its files are within these limits, and returns the
/// status to end with: 0, or 1 after a fault, which a line on `errors` reports, with the path at
/// which it came.
pub fn save_status<R: Read, T: Target, E: Write>(
    alloc: Global,
    limits: CopyLimits,
    reader: &mut R,
    target: &mut T,
    errors: &mut E,
) -> u8
    ensures status { (result ≡ 0) ⊎ (result ≡ 1) }
    ensures quiet { result ≡ 0 → Keeps (E.contents errors.old) (E.contents errors.new) }
    ensures ok { result ≡ 0 → Saves limits (R.remaining reader.old) (R.remaining reader.new) T.does
        target.old target.new }
    ensures left { result ≡ 1 → IsLeft T.does T.fails target.old target.new }
    ensures fault { result ≡ 1 → FailsToSave limits T.does T.fails R.remaining E.contents
        reader.old reader.new target.old target.new errors.old errors.new }
{
    match save(alloc, limits, reader, target) {
        Ok(()) => 0,
        Err(fault) => report_save_fault(alloc, errors, &fault),
    }
}

/// Reports why nothing was saved.
pub fn report_save_fault<E: Write>(alloc: Global, errors: &mut E, fault: &SaveFault) -> u8
    ensures status { result ≡ 1 }
    ensures line { TellsLine (E.contents errors.old) (E.contents errors.new) (save_line fault.now) }
{
    match fault {
        SaveFault::Replies(fault) => report_fault(errors, fault_line(*fault)),
        SaveFault::NoTree => report_fault(errors, "fault: NoTree\n"),
        SaveFault::CopyStop(stopped) => report_stop(alloc, errors, stopped),
    }
}

/// Reports why a copy was not made, and at which path. If there is not enough memory for the line,
/// that is reported.
fn report_stop<E: Write>(alloc: Global, errors: &mut E, stopped: &CopyStop) -> u8
    ensures status { result ≡ 1 }
    ensures line { TellsLine (E.contents errors.old) (E.contents errors.new)
        (stopped_line stopped.now) }
{
    let name = trouble_name(stopped.trouble);
    let path = CodedArgument(stopped.path.as_slice());
    match format!(in alloc; "fault: {name}{path}\n") {
        Ok(line) => report_fault(errors, line.as_str()),
        Err(_) => report_fault(errors, fault_line(PlayFault::Memory)),
    }
}

/// Reports that a file of the disk could not be written. If there is no memory for the line, that
/// is reported.
pub fn report_unwritten<E: Write>(alloc: Global, errors: &mut E, file: &[u8]) -> u8
    ensures status { result ≡ 1 }
    ensures line { TellsLine (E.contents errors.old) (E.contents errors.new)
        (unwritten_line file.now) }
{
    let file = CodedArgument(file);
    match format!(in alloc; "fault: Write{file}\n") {
        Ok(line) => report_fault(errors, line.as_str()),
        Err(_) => report_fault(errors, fault_line(PlayFault::Memory)),
    }
}
