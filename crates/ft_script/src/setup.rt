// A script that is played first.
ghost use Rattle.std.specs.Prelude.{◌≡◌, true, false, length, option_copied, IfErr, IfOk, OnErr, OnOk};
ghost use Rattle.ft_names.specs.Names.{Naming, moment, no_names};
ghost use Rattle.ft_core.specs.Living.{NoneIsLive};
ghost use Rattle.ft_core.specs.Limits.{are_within, greatest_limits};
ghost use Rattle.ft_core.specs.States.{at_base, first_state};
ghost use Rattle.ft_words.specs.Spelling.{lines_of};
ghost use Rattle.ft_script.specs.Setup.{Begins, GoesBadly, GoesWell, IsPlayedFirst, LineGoesBadly, LineGoesWell, PlaysWell, StopsBegin, StopsFirst, no_core};

use crate::setup_fault::SetupFault;
use ft_base::Memory;
use ft_core::{Core, Fault, Limits, Rule};
use ft_line::{ScriptLine, is_well};
use ft_names::{LineMeaning, NamedLine, Names, named_line};
use ft_strict::try_execute;
use ft_transfer::{DiskFiles, carry_out, did_well};
use ft_words::Lines;
use std::alloc::Global;

/// Returns a core that grants calls by this rule and has these limits: a new one, or if there is a
/// script, one on which that was played first, with these files of the disk. It is seeded before,
/// as `Core::seed` describes.
///
/// Limits that a core can't have are refused.
pub fn core_with_setup<F: DiskFiles>(
    alloc: Global,
    rule: Rule,
    limits: Limits,
    seed: u64,
    script: Option<&[u8]>,
    files: &F,
) -> Result<Core, SetupFault>
    ensures state { IfOk result
        (λ core. Begins (F.tells files.now) rule limits (option_copied script.entry) core.state) }
    ensures within { OnOk result (are_within limits greatest_limits ≡ true) }
    ensures none_live { IfOk result (λ core. NoneIsLive core.state) }
    ensures base { IfOk result
        (λ core. core.state ≡ at_base core.state.rule core.state.limits core.state.base) }
    ensures fault { IfErr result
        (λ fault. StopsBegin (F.tells files.now) fault rule limits
        (option_copied script.entry)) }
{
    let mut core = new_core(alloc, rule, limits, seed)?;
    match script {
        None => Ok(core),
        Some(text) => {
            play_setup(alloc, text, files, &mut core)?;
            Ok(core)
        }
    }
}

/// Returns a new core that has these limits and is seeded, if a core may have them.
fn new_core(alloc: Global, rule: Rule, limits: Limits, seed: u64) -> Result<Core, SetupFault>
    ensures state { IfOk result (λ core. core.state ≡ first_state rule limits) }
    ensures within { OnOk result (are_within limits greatest_limits ≡ true) }
    ensures fault { IfErr result (λ fault. fault ≡ no_core limits) }
{
    match Core::with(alloc, rule, limits) {
        Ok(core) => {
            let mut core = core;
            core.seed(seed);
            Ok(core)
        }
        Err(Fault::BadLimits) => Err(SetupFault::BadLimits),
        Err(_) => Err(SetupFault::Memory),
    }
}

/// Plays a script on a core without writing replies, and then makes the present tree the base, as a
/// `checkpoint` does.
///
/// Each line must do what it requests. A line that is not a valid request, a request that is
/// refused, fails or waits, and a transfer that is not made, end the run with their number. A
/// transaction that is left live ends it too. If there is not enough memory, even for a request,
/// that is the fault. Reports are left out.
pub fn play_setup<F: DiskFiles>(
    alloc: Global,
    script: &[u8],
    files: &F,
    core: &mut Core,
) -> Result<(), SetupFault>
    ensures ok { OnOk result (IsPlayedFirst (F.tells files.now) core.old.state
        (lines_of script.now) core.new.state) }
    ensures fault { IfErr result
        (λ fault. StopsFirst (F.tells files.now) fault core.old.state (lines_of script.now)
        core.new.state) }
{
    let last = play_all(alloc, script, files, core)?;
    match core.checkpoint() {
        Ok(()) => Ok(()),
        Err(Fault::Live) => Err(SetupFault::Script(last)),
        Err(_) => Err(SetupFault::Memory),
    }
}

/// Plays the lines of a script, and returns how many there are.
fn play_all<F: DiskFiles>(
    alloc: Global,
    script: &[u8],
    files: &F,
    core: &mut Core,
) -> Result<u64, SetupFault>
    ensures ok { OnOk result ((names : Naming) × PlaysWell (F.tells files.now)
        (core.old.state, no_names) (lines_of script.now) (core.new.state, names)) }
    ensures count { IfOk result (λ count. count ≡ length (lines_of script.now)) }
    ensures fault { IfErr result
        (λ fault. StopsFirst (F.tells files.now) fault core.old.state (lines_of script.now)
        core.new.state) }
{
    let mut rest = Lines::of(script);
    let mut names = Names::new(alloc);
    let mut number: u64 = 0;
    while let Some(line) = rest.next() {
        number += 1;
        let well = play_line(alloc, line, &mut names, files, core)?;
        if !well {
            return Err(SetupFault::Script(number));
        }
    }
    Ok(number)
}

/// Plays a line, and returns whether it did what it requests.
fn play_line<F: DiskFiles>(
    alloc: Global,
    line: &[u8],
    names: &mut Names,
    files: &F,
    core: &mut Core,
) -> Result<bool, Memory>
    ensures well { IfOk result
        (λ well. well ≡ true → LineGoesWell (F.tells files.now) (moment core.old names.old)
        line.now (moment core.new names.new)) }
    ensures badly { IfOk result
        (λ well. well ≡ false → LineGoesBadly (F.tells files.now) (moment core.old names.old)
        line.now (moment core.new names.new)) }
    ensures memory { OnErr result (moment core.new names.new ≡ moment core.old names.old) }
{
    let NamedLine { meaning, given } = named_line(alloc, line, names)?;
    match meaning {
        LineMeaning::Line(line) => play_script_line(alloc, line, given, names, core),
        LineMeaning::Transfer(transfer) => {
            let answer = carry_out(transfer, files, core);
            Ok(did_well(&answer))
        }
    }
}

/// Plays a line that is no transfer, and returns whether it did what it requests.
fn play_script_line(
    alloc: Global,
    line: ScriptLine,
    given: Option<&[u8]>,
    names: &mut Names,
    core: &mut Core,
) -> Result<bool, Memory>
    ensures well { IfOk result
        (λ well. well ≡ true → GoesWell (moment core.old names.old) line
        (option_copied given.entry) (moment core.new names.new)) }
    ensures badly { IfOk result
        (λ well. well ≡ false → GoesBadly (moment core.old names.old) line
        (option_copied given.entry) (moment core.new names.new)) }
    ensures memory { OnErr result (moment core.new names.new ≡ moment core.old names.old) }
{
    match line {
        ScriptLine::Silent | ScriptLine::Query(_) => Ok(true),
        ScriptLine::Bad => Ok(false),
        ScriptLine::Request(request) => {
            let answer = try_execute(alloc, request, given, names, core)?;
            Ok(is_well(&answer))
        }
    }
}
