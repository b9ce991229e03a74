// The output on a screen while a tree is loaded or saved. (The line that reports a fault:
// hostile/round.)
use crate::fakes::{FakeClock, FakeSource, FakeTarget, Row};
use crate::of_load::{TREE, WITH_SPECIAL, default_form};
use crate::of_save::{REPLIES, default_limits};
use ft_copy::{CopyFault, CopyStop};
use ft_load::load;
use ft_save::{SaveFault, save};
use ft_screen::{ShownSource, ShownTarget};
use std::alloc::Global;
use std::cell::Cell;
use std::test::Fail;

/// Loads a tree, while a clock goes on by so many milliseconds at each look.
fn load_shown(
    alloc: Global,
    rows: &[Row<'_>],
    step: u64,
    screen: &mut Vec<u8>,
) -> Result<(), CopyStop> {
    let clock = FakeClock::new(step);
    let turns = Cell::new(100);
    let source = FakeSource {
        alloc,
        rows,
        meanwhile: &[],
        skipped: b"".as_slice(),
        turns: &turns,
    };
    let shown = ShownSource::new(&clock, alloc, &source, Some(screen));
    let (_, loaded) = load(alloc, default_form(), false, &shown, Vec::new(alloc));
    shown.done();
    loaded
}

/// Saves a tree in this many turns, while a clock goes on by this many milliseconds at each look.
fn save_shown(alloc: Global, turns: u64, step: u64, screen: &mut Vec<u8>) -> Result<(), SaveFault> {
    let clock = FakeClock::new(step);
    let target = FakeTarget::new(alloc, turns);
    let mut shown = ShownTarget::new(&clock, alloc, target, Some(screen));
    save(
        alloc,
        default_limits(false),
        &mut REPLIES.as_bytes(),
        &mut shown,
    )
}

/// Returns whether a load ends well and shows this.
fn load_shows(alloc: Global, rows: &[Row<'_>], step: u64, screen: &str) -> bool {
    let mut seen = Vec::new(alloc);
    load_shown(alloc, rows, step, &mut seen).is_ok() && seen.as_slice() == screen.as_bytes()
}

/// Returns whether a save does.
fn save_shows(alloc: Global, turns: u64, step: u64, screen: &str) -> bool {
    let mut seen = Vec::new(alloc);
    save_shown(alloc, turns, step, &mut seen).is_ok() && seen.as_slice() == screen.as_bytes()
}

/// Returns whether a copy was stopped by this, at this path.
fn is_stopped(stopped: &CopyStop, trouble: CopyFault, path: &[u8]) -> bool {
    stopped.trouble == trouble && stopped.path.as_slice() == path
}

/// Returns whether a load of a tree with a special file stops there, and shows nothing.
fn load_stops(alloc: Global) -> bool {
    let mut seen = Vec::new(alloc);
    let Err(stopped) = load_shown(alloc, WITH_SPECIAL, 60, &mut seen) else {
        return false;
    };
    is_stopped(&stopped, CopyFault::Special, b"/dev/s y".as_slice()) && seen.is_empty()
}

/// Returns whether a save of six turns stops at its second file, and what it has shown is erased.
fn save_stops(alloc: Global) -> bool {
    let mut seen = Vec::new(alloc);
    let Err(SaveFault::CopyStop(stopped)) = save_shown(alloc, 6, 60, &mut seen) else {
        return false;
    };
    is_stopped(&stopped, CopyFault::Write, b"/a/nothing".as_slice())
        && seen.as_slice() == SAVED.as_bytes()
}

const LOADED: &str = "\r\x1b[Kdirectories: 2; files: 1\r\x1b[Kdirectories: 2; files: 3\r\x1b[K";

#[test]
fn loads_are_shown(rt: HostRuntime) -> Result<(), Fail> {
    let alloc = rt.alloc();
    assert!(rt;
        load_shows(alloc, TREE, 60, LOADED) && load_shows(alloc, TREE, 10, "") && load_stops(alloc)
    );
    Ok(())
}

const SAVED: &str = "\r\x1b[Kdirectories: 1; files: 2\r\x1b[K";

#[test]
fn saves_are_shown(rt: HostRuntime) -> Result<(), Fail> {
    let alloc = rt.alloc();
    assert!(rt;
        save_shows(alloc, 100, 60, SAVED) && save_shows(alloc, 100, 10, "") && save_stops(alloc)
    );
    Ok(())
}
