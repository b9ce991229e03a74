// No clause states this: that a load comes to its end, its text in a script, and which fault comes
// at which place.
use crate::fakes::{FakeSource, Held, Row};
use ft_cells::{Attributes, Timestamp};
use ft_copy::{CopyFault, CopyStop, Given};
use ft_core::Limits;
use ft_load::{Form, Spelling, load, needs_of};
use std::alloc::Global;
use std::cell::Cell;
use std::test::Fail;

/// More turns than any load here takes.
const ALL: u64 = 1_000_000;

/// An empty directory, an empty file, a file of two names, and bytes that are no text. As a path
/// `/a-` comes before what is in `/a`, and as a name after it.
pub const TREE: &[Row<'static>] = &[
    (b"/%", Held::File(0, 2, b"a b")),
    (b"/a", Held::Folder),
    (b"/a/empty", Held::Folder),
    (b"/a/nothing", Held::File(1, 1, b"")),
    (b"/a-", Held::File(2, 1, b"\x00\xff")),
    (b"/b\xff", Held::File(0, 2, b"a b")),
];

/// The script that makes it.
pub const SCRIPT: &str =
    "begin\n1 open wcx /%25\n1 write 2 a%20b\n1 close 2\n1 mkdir /a\n1 mkdir /a/empty\n\
        1 open wcx /a/nothing\n1 close 7\n1 open wcx /a-\n1 write 9 %00%FF\n1 close 9\n\
        1 link /%25 /b%FF\ncommit 1\n";

/// Symbolic links out of the tree, to themselves and to nowhere, one of two names, and one that
/// would come before the directory to which it leads. They come after all else.
pub const WITH_LINKS: &[Row<'static>] = &[
    (b"/d", Held::Folder),
    (b"/d/f", Held::File(0, 1, b"x")),
    (b"/d-", Held::Folder),
    (b"/0", Held::Symlink(1, 2, b"d")),
    (b"/d/e", Held::Symlink(2, 1, b"/etc/pass wd")),
    (b"/d/g", Held::Symlink(1, 2, b"d")),
    (b"/d-/loop", Held::Symlink(3, 1, b"loop")),
    (b"/e", Held::Symlink(4, 1, b"..//no\xffne%/")),
];

/// The script that makes it.
pub const SCRIPT_WITH_LINKS: &str =
    "begin\n1 mkdir /d\n1 open wcx /d/f\n1 write 3 x\n1 close 3\n1 mkdir /d-\n1 symlink d /0\n\
        1 symlink /etc/pass%20wd /d/e\n1 link /0 /d/g\n1 symlink loop /d-/loop\n\
        1 symlink ..//no%FFne%25/ /e\ncommit 1\n";

/// The attributes of the tree below.
const ROOT: Attributes = Attributes {
    mode: 0o1751,
    owner: 5,
    group: 6,
};

const UNWRITTEN: Attributes = Attributes {
    mode: 0o555,
    owner: 0,
    group: 0,
};

const RUN: Given = Given {
    attributes: Attributes {
        mode: 0o755,
        owner: 0,
        group: 7,
    },
    time: None,
};

const SET_ID: Given = Given {
    attributes: Attributes {
        mode: 0o6755,
        owner: 1_000,
        group: 0,
    },
    time: Some(OLD),
};

const WITHOUT: Given = Given {
    attributes: Attributes {
        mode: 0o755,
        owner: 1_000,
        group: 0,
    },
    time: Some(OLD),
};

const OLD: Timestamp = Timestamp {
    seconds: -1,
    nanoseconds: 5,
};

/// A root that only its owner and its group may list, a directory that nobody may write, a file
/// that may be run, and one with set-id bits, whose bytes are older than the Epoch.
pub const WITH_ATTRIBUTES: &[Row<'static>] = &[
    (b"", Held::Owned(ROOT)),
    (b"/d", Held::Owned(UNWRITTEN)),
    (b"/d/run", Held::Given(0, b"x", RUN)),
    (b"/s", Held::Given(1, b"", SET_ID)),
];

/// The rows of `WITH_ATTRIBUTES`, but without set-id bits.
pub const WITHOUT_SET_ID: &[Row<'static>] = &[
    (b"", Held::Owned(ROOT)),
    (b"/d", Held::Owned(UNWRITTEN)),
    (b"/d/run", Held::Given(0, b"x", RUN)),
    (b"/s", Held::Given(1, b"", WITHOUT)),
];

/// The script that makes it, with set-id bits.
pub const SCRIPT_WITH_ATTRIBUTES: &str =
    "begin\n1 mkdir 0555 /d\n1 open wcx=0755 /d/run\n1 fchown 3 0 7\n1 write 3 x\n1 close 3\n\
        1 open wcx=6755 /s\n1 fchown 7 1000 0\n1 futime 7 -1 5\n1 close 7\n1 chmod 1751 /\n\
        1 chown 5 6 /\ncommit 1\n";

/// The script that makes the rows of `WITH_ATTRIBUTES`, but without set-id bits.
const SCRIPT_WITHOUT_SET_ID: &str =
    "begin\n1 mkdir 0555 /d\n1 open wcx=0755 /d/run\n1 fchown 3 0 7\n1 write 3 x\n1 close 3\n\
        1 open wcx=0755 /s\n1 fchown 7 1000 0\n1 futime 7 -1 5\n1 close 7\n1 chmod 1751 /\n\
        1 chown 5 6 /\ncommit 1\n";

/// How many calls a load of each takes: two for the root, two for each other directory, for each
/// file a look, an open, its pieces and a read at its end, and two for each symbolic link; for each
/// further name one.
const CALLS: u64 = 18;

const CALLS_WITH_LINKS: u64 = 19;

/// The form of a script with numbers, for a core with the default limits.
pub fn default_form() -> Form<'static> {
    Form {
        limits: Limits::default(),
        spelling: Spelling::with_numbers(),
    }
}

/// Loads a tree in so many turns, and puts its script after a text.
fn load_in(
    alloc: Global,
    (rows, skipped): (&[Row<'_>], &[u8]),
    turns: u64,
    text: &mut Vec<u8>,
) -> Result<(), CopyStop> {
    let turns = Cell::new(turns);
    let source = FakeSource {
        alloc,
        rows,
        meanwhile: &[],
        skipped,
        turns: &turns,
    };
    let (_, loaded) = load(alloc, default_form(), false, &source, text);
    loaded
}

/// Returns whether a tree is loaded as this script.
fn is_loaded(alloc: Global, tree: (&[Row<'_>], &[u8]), script: &str) -> bool {
    let mut text = Vec::new(alloc);
    load_in(alloc, tree, ALL, &mut text).is_ok() && text.as_slice() == script.as_bytes()
}

/// Returns whether a load of a tree in so many turns stops so, and what was written does not
/// commit.
fn stops(
    alloc: Global,
    tree: (&[Row<'_>], &[u8]),
    turns: u64,
    (trouble, path): (CopyFault, &[u8]),
) -> bool {
    let mut text = Vec::new(alloc);
    match load_in(alloc, tree, turns, &mut text) {
        Ok(()) => false,
        Err(stopped) => {
            stopped.trouble == trouble
                && stopped.path.as_slice() == path
                && !text.as_slice().ends_with(b"commit 1\n".as_slice())
        }
    }
}

#[test]
fn directory_as_script(rt: HostRuntime) -> Result<(), Fail> {
    assert!(rt; is_loaded(rt.alloc(), (TREE, b"".as_slice()), SCRIPT));
    Ok(())
}

#[test]
fn links_as_script(rt: HostRuntime) -> Result<(), Fail> {
    let alloc = rt.alloc();
    assert!(rt; is_loaded(alloc, (WITH_LINKS, b"".as_slice()), SCRIPT_WITH_LINKS));
    Ok(())
}

/// A directory, a file in it, and a symbolic link.
const FOUND: &[Row<'static>] = &[
    (b"/d", Held::Folder),
    (b"/d/f", Held::File(0, 1, b"inside")),
    (b"/l", Held::Symlink(1, 1, b"inside")),
];

/// The things that come in the place of each of them before it is listed, opened or read.
const MEANWHILE: &[Row<'static>] = &[
    (b"", Held::Folder),
    (b"/d", Held::Folder),
    (b"/d", Held::Symlink(9, 1, b"outside")),
    (b"/d/f", Held::File(9, 1, b"outside")),
    (b"/d/f", Held::Symlink(9, 1, b"outside")),
    (b"/d/f", Held::Special),
    (b"/l", Held::Symlink(9, 1, b"outside")),
    (b"/l", Held::File(9, 1, b"outside")),
];

/// Loads the tree in which this comes in the place of what was found, and puts its script after a
/// text.
fn load_amid(alloc: Global, meanwhile: &[Row<'_>], text: &mut Vec<u8>) -> Result<(), CopyStop> {
    let turns = Cell::new(ALL);
    let source = FakeSource {
        alloc,
        rows: FOUND,
        meanwhile,
        skipped: b"".as_slice(),
        turns: &turns,
    };
    let (_, loaded) = load(alloc, default_form(), false, &source, text);
    loaded
}

/// Returns whether a load stops at what has come in a place, and has written nothing of it.
fn is_refused_amid(alloc: Global, row: Row<'_>) -> bool {
    let mut text = Vec::new(alloc);
    let loaded = load_amid(alloc, [row].as_slice(), &mut text);
    let is_refused = loaded.is_err_and(|stopped| stopped.trouble == CopyFault::Read
        && stopped.path.as_slice() == row.0);
    let is_told = text
        .as_slice()
        .windows(7)
        .any(|part| part == b"outside".as_slice());
    is_refused && !is_told
}

#[test]
fn what_was_found_is_read(rt: HostRuntime) -> Result<(), Fail> {
    let alloc = rt.alloc();
    for (path, held) in MEANWHILE {
        assert!(rt; is_refused_amid(alloc, (*path, *held)), "at {path:?}");
    }
    let mut text = Vec::new(alloc);
    let same = [(b"/d/f".as_slice(), Held::File(0, 1, b"more"))];
    assert!(rt; load_amid(alloc, same.as_slice(), &mut text).is_ok());
    Ok(())
}

/// The script of a tree in this spelling, with set-id bits or without.
fn script_of(
    alloc: Global,
    rows: &[Row<'_>],
    set_id: bool,
    spelling: Spelling<'_>,
) -> Option<Vec<u8>> {
    let turns = Cell::new(ALL);
    let source = FakeSource {
        alloc,
        rows,
        meanwhile: &[],
        skipped: b"".as_slice(),
        turns: &turns,
    };
    let limits = needs_of(alloc, Limits::default(), set_id, spelling, &source).ok()?;
    let form = Form { limits, spelling };
    let (text, loaded) = load(alloc, form, set_id, &source, Vec::new(alloc));
    loaded.is_ok().then_some(text)
}

#[test]
fn modes_owners_and_times_as_script(rt: HostRuntime) -> Result<(), Fail> {
    let alloc = rt.alloc();
    for (set_id, script) in [
        (true, SCRIPT_WITH_ATTRIBUTES),
        (false, SCRIPT_WITHOUT_SET_ID),
    ] {
        let text = script_of(alloc, WITH_ATTRIBUTES, set_id, Spelling::with_numbers());
        assert!(rt;
            text.is_some_and(|text| text.as_slice() == script.as_bytes()),
            "{set_id}"
        );
    }
    Ok(())
}

/// The script that makes the rows of `WITH_ATTRIBUTES` below a directory, without set-id bits, with
/// names.
const SCRIPT_BELOW: &str = "begin as load\nload mkdir /s%20x/y\nload mkdir 0555 /s%20x/y/d\n\
        load open wcx=0755 /s%20x/y/d/run as file\nload fchown file 0 7\nload write file x\n\
        load close file\nload open wcx=0755 /s%20x/y/s as file\nload fchown file 1000 0\n\
        load futime file -1 5\nload close file\nload chmod 1751 /s%20x/y\n\
        load chown 5 6 /s%20x/y\ncommit load\n";

/// The script that makes the rows of `WITH_LINKS` in the root, with names. It sets what the root is
/// given, since the core need not be new.
const SCRIPT_WITH_NAMES: &str =
    "begin as load\nload mkdir /d\nload open wcx /d/f as file\nload write file x\n\
        load close file\nload mkdir /d-\nload symlink d /0\nload symlink /etc/pass%20wd /d/e\n\
        load link /0 /d/g\nload symlink loop /d-/loop\nload symlink ..//no%FFne%25/ /e\n\
        load chmod 0755 /\nload chown 0 0 /\ncommit load\n";

#[test]
fn script_with_names(rt: HostRuntime) -> Result<(), Fail> {
    let alloc = rt.alloc();
    for (rows, path, script) in [
        (WITH_ATTRIBUTES, b"/s x/y".as_slice(), SCRIPT_BELOW),
        (WITH_ATTRIBUTES, b"/s x/y//".as_slice(), SCRIPT_BELOW),
        (WITH_LINKS, b"/".as_slice(), SCRIPT_WITH_NAMES),
        (WITH_LINKS, b"//".as_slice(), SCRIPT_WITH_NAMES),
    ] {
        let text = script_of(alloc, rows, false, Spelling::with_names(path));
        assert!(rt;
            text.is_some_and(|text| text.as_slice() == script.as_bytes()),
            "{path:?}"
        );
    }
    Ok(())
}

/// Returns whether a directory with a path of so many bytes is loaded below one with three.
fn is_short_enough_below(alloc: Global, length: usize) -> Result<bool, Fail> {
    let path = long_path(alloc, length)?;
    let rows = rows_to(alloc, path.as_slice())?;
    let below = Spelling::with_names(b"/ab".as_slice());
    Ok(script_of(alloc, rows.as_slice(), false, below).is_some())
}

#[test]
fn longest_path_below(rt: HostRuntime) -> Result<(), Fail> {
    let alloc = rt.alloc();
    assert!(rt; is_short_enough_below(alloc, 4_092)? && !is_short_enough_below(alloc, 4_093)?);
    Ok(())
}

/// How many calls a script of one directory and of a root with attributes may have, if none is
/// refused for it.
const CALLS_BELOW: u64 = 4;

#[test]
fn calls_below_are_counted(rt: HostRuntime) -> Result<(), Fail> {
    let alloc = rt.alloc();
    let rows = [
        (b"".as_slice(), Held::Owned(ROOT)),
        (b"/d".as_slice(), Held::Folder),
    ];
    let turns = Cell::new(ALL);
    let source = FakeSource {
        alloc,
        rows: rows.as_slice(),
        meanwhile: &[],
        skipped: b"".as_slice(),
        turns: &turns,
    };
    let spelling = Spelling::with_names(b"/s".as_slice());
    for calls in 0..CALLS_BELOW + 1 {
        let mut limits = Limits::default();
        limits.calls = calls;
        let form = Form { limits, spelling };
        let (_, loaded) = load(alloc, form, false, &source, Vec::new(alloc));
        assert_eq!(rt; loaded.is_ok(), calls == CALLS_BELOW, "with {calls}");
    }
    Ok(())
}

/// A thing that a tree has no place for, amid directories.
pub const WITH_SPECIAL: &[Row<'static>] = &[
    (b"/dev", Held::Folder),
    (b"/dev/s y", Held::Special),
    (b"/z", Held::Folder),
];

/// Returns whether what a tree has no place for is refused by its path, and left out if that is
/// asked for at its path.
fn is_refused_or_left_out(alloc: Global) -> bool {
    let special = (CopyFault::Special, b"/dev/s y".as_slice());
    stops(alloc, (WITH_SPECIAL, b"/z".as_slice()), ALL, special)
        && is_loaded(
            alloc,
            (WITH_SPECIAL, b"/dev/s y".as_slice()),
            "begin\n1 mkdir /dev\n1 mkdir /z\ncommit 1\n",
        )
}

#[test]
fn special_files(rt: HostRuntime) -> Result<(), Fail> {
    assert!(rt; is_refused_or_left_out(rt.alloc()));
    Ok(())
}

/// Returns whether a file of so many bytes and names is loaded, or the fault that comes at it.
fn trouble_of(alloc: Global, links: u64, size: usize) -> Result<Option<CopyFault>, Fail> {
    let bytes = vec![in alloc; b'x'; size]?;
    let rows = [(b"/f".as_slice(), Held::File(0, links, bytes.as_slice()))];
    let mut text = Vec::new(alloc);
    match load_in(alloc, (rows.as_slice(), b"".as_slice()), ALL, &mut text) {
        Ok(()) => Ok(None),
        Err(stopped) => Ok(Some(stopped.trouble)),
    }
}

/// Returns whether a symbolic link of so many names is loaded, or the fault that comes at it.
fn trouble_of_link(alloc: Global, links: u64) -> Option<CopyFault> {
    let rows = [(b"/l".as_slice(), Held::Symlink(0, links, b"to"))];
    let mut text = Vec::new(alloc);
    let loaded = load_in(alloc, (rows.as_slice(), b"".as_slice()), ALL, &mut text);
    Some(loaded.err()?.trouble)
}

#[test]
fn limits_of_links(rt: HostRuntime) -> Result<(), Fail> {
    let alloc = rt.alloc();
    assert_eq!(rt; trouble_of_link(alloc, 1_000), None);
    assert_eq!(rt;
        trouble_of_link(alloc, 1_001),
        Some(CopyFault::TooManyLinks)
    );
    Ok(())
}

#[test]
fn limits_of_files(rt: HostRuntime) -> Result<(), Fail> {
    for (links, size, trouble) in [
        (1_000, 1_048_576, None),
        (1, 1_048_577, Some(CopyFault::TooLarge)),
        (1_001, 0, Some(CopyFault::TooManyLinks)),
    ] {
        assert_eq!(rt;
            trouble_of(rt.alloc(), links, size)?,
            trouble,
            "at {links} and {size}"
        );
    }
    Ok(())
}

/// Returns whether the script of a file of so many bytes begins so, if as much may be needed.
fn begins_with(alloc: Global, size: usize, most: Limits, line: &str) -> Result<bool, Fail> {
    let bytes = vec![in alloc; b'x'; size]?;
    let rows = [(b"/f".as_slice(), Held::File(0, 1, bytes.as_slice()))];
    let turns = Cell::new(ALL);
    let source = FakeSource {
        alloc,
        rows: rows.as_slice(),
        meanwhile: &[],
        skipped: b"".as_slice(),
        turns: &turns,
    };
    let spelling = Spelling::with_numbers();
    let Ok(limits) = needs_of(alloc, most, false, spelling, &source) else {
        return Ok(false);
    };
    let form = Form { limits, spelling };
    let (text, loaded) = load(alloc, form, false, &source, Vec::new(alloc));
    Ok(loaded.is_ok() && text.as_slice().starts_with(line.as_bytes()))
}

#[test]
fn what_a_script_needs(rt: HostRuntime) -> Result<(), Fail> {
    let alloc = rt.alloc();
    let most = Limits::greatest();
    for (size, line) in [
        (1_048_576, "begin\n1 open"),
        (1_048_577, "# needs --largest-file 1048577\nbegin\n1 open"),
        (3_145_728, "# needs --largest-file 3M\nbegin\n1 open"),
    ] {
        assert!(rt; begins_with(alloc, size, most, line)?, "at {size}");
    }
    let mut less = most;
    less.file_size = 3_145_727;
    assert!(rt; !begins_with(alloc, 3_145_728, less, "")?);
    assert!(rt; begins_with(alloc, 3_145_727, less, "# needs --largest-file 3145727\n")?);
    Ok(())
}

/// A path of so many bytes: each name has 255, and the last what is left.
fn long_path(alloc: Global, length: usize) -> Result<Vec<u8>, Fail> {
    let mut path = Vec::new(alloc);
    for place in 0..length {
        path.push(if place % 256 == 0 { b'/' } else { b'd' })?;
    }
    Ok(path)
}

/// The directories on the way to the end of a path, and the one there.
fn rows_to<'a>(alloc: Global, path: &'a [u8]) -> Result<Vec<Row<'a>>, Fail> {
    let mut rows = Vec::new(alloc);
    for (place, byte) in path.iter().enumerate() {
        if *byte == b'/' {
            if let Some(front) = path.get(..place) {
                rows.push((front, Held::Folder))?;
            }
        }
    }
    rows.push((path, Held::Folder))?;
    Ok(rows)
}

/// Returns whether a path of so many bytes is loaded.
fn is_short_enough(alloc: Global, length: usize) -> Result<bool, Fail> {
    let path = long_path(alloc, length)?;
    let rows = rows_to(alloc, path.as_slice())?;
    let too_long = (CopyFault::PathTooLong, path.as_slice());
    Ok(!stops(alloc, (rows.as_slice(), b"".as_slice()), ALL, too_long))
}

#[test]
fn longest_path(rt: HostRuntime) -> Result<(), Fail> {
    assert!(rt; is_short_enough(rt.alloc(), 4_095)? && !is_short_enough(rt.alloc(), 4_096)?);
    Ok(())
}

/// Returns whether a load that takes so many calls ends with a fault at each that fails, and else
/// as it should.
fn faults_at_each_call(alloc: Global, rows: &[Row<'_>], calls: u64) -> bool {
    for turns in 0..calls {
        let mut text = Vec::new(alloc);
        match load_in(alloc, (rows, b"".as_slice()), turns, &mut text) {
            Err(stopped) if stopped.trouble == CopyFault::Read => {}
            _ => return false,
        }
        if text.as_slice().ends_with(b"commit 1\n".as_slice()) {
            return false;
        }
    }
    let mut text = Vec::new(alloc);
    load_in(alloc, (rows, b"".as_slice()), calls, &mut text).is_ok()
}

#[test]
fn source_that_fails(rt: HostRuntime) -> Result<(), Fail> {
    let alloc = rt.alloc();
    assert!(rt; faults_at_each_call(alloc, TREE, CALLS));
    assert!(rt; faults_at_each_call(alloc, WITH_LINKS, CALLS_WITH_LINKS));
    Ok(())
}
