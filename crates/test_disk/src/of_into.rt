// No clause states this: that the steps from a directory to a tree come to their end, what a killed
// run has left, and that each failure is reported.
use crate::fakes::{FakeSource, Held, Row};
use crate::of_save::default_limits;
use ft_cells::{Attributes, Kind, Timestamp};
use ft_copy::{CopyFault, CopyStop, Given};
use ft_into::{Act, Differences, Maker, Thing, Wishes, carry_out, compare};
use std::alloc::Global;
use std::cell::Cell;
use std::test::Fail;

/// More turns than any run here takes.
const ALL: u64 = 1_000_000;

const KEEPS: Wishes = Wishes {
    removes: false,
    owners: true,
};

const REMOVES: Wishes = Wishes {
    removes: true,
    owners: true,
};

/// The attributes of a file without a time, and a time.
const TIMED: Given = Given {
    attributes: Attributes {
        mode: 0o644,
        owner: 0,
        group: 0,
    },
    time: Some(Timestamp {
        seconds: 7,
        nanoseconds: 8,
    }),
};

/// The tree. The directory below differs from it in each way in which names can differ that need
/// not be removed.
const TREE: &[Row<'static>] = &[
    (b"", Held::Owned(OTHER)),
    (b"/a", Held::Folder),
    (b"/a/same", Held::File(0, 1, b"one")),
    (b"/a/two words", Held::File(1, 1, b"new")),
    (b"/bytes", Held::File(2, 1, b"abd")),
    (b"/further", Held::File(5, 2, b"of two names")),
    (b"/longer", Held::File(3, 1, b"ab")),
    (b"/mode", Held::Owned(OTHER)),
    (b"/mode/link", Held::Symlink(9, 1, b"to")),
    (b"/named", Held::File(5, 2, b"of two names")),
    (b"/shorter", Held::File(4, 1, b"abc")),
    (b"/split", Held::File(6, 1, b"of two names")),
    (b"/time", Held::Given(7, b"t", TIMED)),
    (b"/z", Held::Symlink(8, 1, b"same")),
];

const OTHER: Attributes = Attributes {
    mode: 0o700,
    owner: 1,
    group: 2,
};

const DISK: &[Row<'static>] = &[
    (b"/.save.part3", Held::File(90, 1, b"half")),
    (b"/a", Held::Folder),
    (b"/a/same", Held::Given(10, b"one", TIMED)),
    (b"/a/.save.part0", Held::Folder),
    (b"/bytes", Held::File(12, 1, b"abc")),
    (b"/further", Held::File(15, 3, b"of two names")),
    (b"/gone", Held::Folder),
    (b"/gone/in it", Held::Symlink(19, 1, b"..")),
    (b"/gone/in.it", Held::Special),
    (b"/longer", Held::File(13, 1, b"abc")),
    (b"/mode", Held::Folder),
    (b"/mode/link", Held::Symlink(18, 1, b"elsewhere")),
    (b"/named", Held::File(15, 3, b"of two names")),
    (b"/shorter", Held::File(14, 1, b"ab")),
    (b"/split", Held::File(15, 3, b"of two names")),
    (b"/time", Held::File(17, 1, b"t")),
    (b"/z", Held::Symlink(20, 1, b"same")),
];

const CHANGES: &str =
    "add file /a/two%20words\nchange file /bytes\nchange file /longer\nchange dir /mode\n\
    change file /shorter\nchange file /split\nchange file /time\n\
    change symlink /mode/link\n";

const REMOVALS: &str =
    "remove symlink /gone/in%20it\nremove special /gone/in.it\nremove dir /gone\n\
    remove dir /a/.save.part0\nremove file /.save.part3\n";

const ROOT: &str = "change dir /\n";

/// The requests to a maker that carries out the changes.
const MADE: &str = "Add open /a/two words\npiece new\nclose\nChange open /bytes\npiece abd\nclose\n\
    Change open /longer\npiece ab\nclose\nChange folder /mode\nChange open /shorter\n\
    piece abc\nclose\nChange open /split\npiece of two names\nclose\nChange open /time\n\
    piece t\nclose\nChange symlink /mode/link\nChange folder \nfinish\n";

// ---- a source, and a maker that notes its requests

/// Returns a source with these rows, which fails after so many calls.
fn source<'a>(alloc: Global, rows: &'a [Row<'a>], turns: &'a Cell<u64>) -> FakeSource<'a> {
    FakeSource {
        alloc,
        rows,
        meanwhile: &[],
        skipped: b"".as_slice(),
        turns,
    }
}

/// The requests to a maker, in lines. So many of them succeed.
#[derive(Drop)]
struct Noting {
    alloc: Global,
    lines: String,
    turns: u64,
}

impl Noting {
    /// Writes a line with a step and its path. Fails if no calls are left.
    fn note(&mut self, what: &str, path: &[u8]) -> Result<(), CopyFault> {
        let path = std::str::from_utf8(path).map_err(|_| CopyFault::BadName)?;
        let line = format!(in self.alloc; "{what}{path}\n")?;
        self.lines.push_str(line.as_str())?;
        if self.turns == 0 {
            return Err(CopyFault::Write);
        }
        self.turns -= 1;
        Ok(())
    }

    /// Writes a line with what is done, to what, and the path.
    fn note_act(&mut self, act: Act, what: &str, path: &[u8]) -> Result<(), CopyFault> {
        let what = format!(in self.alloc; "{act:?} {what} ")?;
        self.note(what.as_str(), path)
    }
}

impl Maker for Noting {
    fn folder(&mut self, act: Act, path: &[u8], _given: Attributes) -> Result<(), CopyFault> {
        self.note_act(act, "folder", path)
    }

    fn open(&mut self, act: Act, path: &[u8], _given: Attributes) -> Result<(), CopyFault> {
        self.note_act(act, "open", path)
    }

    fn piece(&mut self, bytes: &[u8]) -> Result<(), CopyFault> {
        self.note("piece ", bytes)
    }

    fn close(&mut self, _time: Option<Timestamp>) -> Result<(), CopyFault> {
        self.note("close", b"".as_slice())
    }

    fn link(&mut self, act: Act, _first: &[u8], path: &[u8]) -> Result<(), CopyFault> {
        self.note_act(act, "link", path)
    }

    fn symlink(&mut self, act: Act, _to: &[u8], path: &[u8]) -> Result<(), CopyFault> {
        self.note_act(act, "symlink", path)
    }

    fn remove(&mut self, thing: Thing, path: &[u8]) -> Result<(), CopyFault> {
        let what = format!(in self.alloc; "remove {thing} ")?;
        self.note(what.as_str(), path)
    }

    fn finish(&mut self) -> Result<(), CopyFault> {
        self.note("finish", b"".as_slice())
    }

    fn give_up(&mut self) {
        let _ = self.note("give up", b"".as_slice());
    }
}

// ---- the steps

/// Returns the steps from a directory to a tree, if the directory can be asked so many times.
fn compared(
    alloc: Global,
    tree: &[Row<'_>],
    disk: &[Row<'_>],
    wishes: Wishes,
    turns: u64,
) -> Result<Differences, CopyStop> {
    let all = Cell::new(ALL);
    let some = Cell::new(turns);
    let tree = source(alloc, tree, &all);
    let disk = source(alloc, disk, &some);
    compare(alloc, default_limits(false), &tree, &disk, wishes)
}

/// Returns the steps as text.
fn text_of(alloc: Global, differences: &Differences) -> Option<String> {
    let mut text = String::new(alloc);
    for step in differences.steps.iter() {
        let line = format!(in alloc; "{step}\n").ok()?;
        text.push_str(line.as_str()).ok()?;
    }
    Some(text)
}

/// Returns whether the steps are these.
fn are_steps(
    alloc: Global,
    tree: &[Row<'_>],
    disk: &[Row<'_>],
    wishes: Wishes,
    parts: &[&str],
) -> bool {
    let Ok(differences) = compared(alloc, tree, disk, wishes, ALL) else {
        return false;
    };
    let Some(text) = text_of(alloc, &differences) else {
        return false;
    };
    let mut rest = text.as_str();
    for part in parts {
        match rest.strip_prefix(*part) {
            Some(more) => rest = more,
            None => return false,
        }
    }
    rest.is_empty()
}

#[test]
fn just_what_differs(rt: HostRuntime) -> Result<(), Fail> {
    let alloc = rt.alloc();
    assert!(rt; are_steps(alloc, TREE, DISK, KEEPS, &[CHANGES, ROOT]));
    assert!(rt; are_steps(alloc, TREE, DISK, REMOVES, &[CHANGES, REMOVALS, ROOT]));
    assert!(rt; are_steps(alloc, TREE, TREE, REMOVES, &[]));
    Ok(())
}

#[test]
fn what_was_left_is_told(rt: HostRuntime) -> Result<(), Fail> {
    let alloc = rt.alloc();
    let all = compared(alloc, TREE, DISK, KEEPS, ALL);
    let is_told = match &all {
        Ok(differences) => {
            differences.left.len() == 2
                && differences
                    .left
                    .iter()
                    .zip(LEFT)
                    .all(|(one, other)| one.as_slice() == *other)
        }
        Err(_) => false,
    };
    assert!(rt; is_told);
    Ok(())
}

const LEFT: &[&[u8]] = &[b"/a/.save.part0", b"/.save.part3"];

// ---- things of another kind

const KINDS: &[Row<'static>] = &[
    (b"/d", Held::Folder),
    (b"/d/f", Held::File(0, 2, b"x")),
    (b"/f", Held::File(0, 2, b"x")),
    (b"/s", Held::Symlink(1, 1, b"d")),
];

const OF_OTHERS: &[Row<'static>] = &[
    (b"/d", Held::Symlink(30, 1, b"elsewhere")),
    (b"/f", Held::Folder),
    (b"/f/in", Held::Folder),
    (b"/f/in/it", Held::File(31, 1, b"")),
    (b"/s", Held::Special),
];

const REPLACED: &str =
    "remove symlink /d\nadd dir /d\nadd file /d/f\nremove file /f/in/it\nremove dir /f/in\n\
    remove dir /f\nadd link /f\nremove special /s\nadd symlink /s\n";

#[test]
fn another_kind_is_in_the_way(rt: HostRuntime) -> Result<(), Fail> {
    let alloc = rt.alloc();
    assert!(rt; are_steps(alloc, KINDS, OF_OTHERS, REMOVES, &[REPLACED]));
    let is_refused = match compared(alloc, KINDS, OF_OTHERS, KEEPS, ALL) {
        Err(stopped) => {
            stopped.trouble == CopyFault::Exists && stopped.path.as_slice() == b"/d".as_slice()
        }
        Ok(_) => false,
    };
    assert!(rt; is_refused);
    Ok(())
}

// ---- owners that are not set

const OWNED: &[Row<'static>] = &[(b"/a", Held::Owned(OTHER)), (b"/b", Held::Owned(SHUT))];

const MINE: &[Row<'static>] = &[(b"/a", Held::Owned(OWN)), (b"/b", Held::Owned(OWN))];

const OWN: Attributes = Attributes {
    mode: 0o700,
    owner: 1000,
    group: 1000,
};

const SHUT: Attributes = Attributes {
    mode: 0o500,
    owner: 0,
    group: 0,
};

#[test]
fn owners_that_are_not_given(rt: HostRuntime) -> Result<(), Fail> {
    let alloc = rt.alloc();
    let wishes = Wishes {
        removes: false,
        owners: false,
    };
    assert!(rt; are_steps(alloc, OWNED, MINE, wishes, &["change dir /b\n"]));
    assert!(rt;
        are_steps(
            alloc,
            OWNED,
            MINE,
            KEEPS,
            &["change dir /a\nchange dir /b\n"]
        )
    );
    Ok(())
}

// ---- a disk that can't be read, and steps that are not carried out

/// Returns how often the directory has to be asked in a comparison, or this number if it is less.
fn reads_up_to(alloc: Global, most: u64) -> u64 {
    for turns in 0..most {
        if compared(alloc, TREE, DISK, REMOVES, turns).is_ok() {
            return turns;
        }
    }
    most
}

#[test]
fn each_read_may_fail(rt: HostRuntime) -> Result<(), Fail> {
    let reads = reads_up_to(rt.alloc(), 100);
    assert!(rt; 20 < reads && reads < 100);
    Ok(())
}

/// Returns the requests to a maker, of which so many succeed, and whether all did.
fn carried(
    alloc: Global,
    tree: &[Row<'_>],
    differences: &Differences,
    turns: u64,
) -> (String, bool) {
    let all = Cell::new(ALL);
    let tree = source(alloc, tree, &all);
    let maker = Noting {
        alloc,
        lines: String::new(alloc),
        turns,
    };
    let steps = differences.steps.as_slice();
    let (maker, carried) = carry_out(alloc, default_limits(false), &tree, steps, maker);
    (maker.lines, carried.is_ok())
}

/// Returns whether just the steps are carried out, if nothing fails.
fn is_made(alloc: Global, differences: &Differences) -> bool {
    let (lines, is_done) = carried(alloc, TREE, differences, ALL);
    is_done && lines.as_str() == MADE
}

/// Returns whether the maker gives up at each of so many requests that may fail.
fn gives_up_at_each(alloc: Global, differences: &Differences, requests: u64) -> bool {
    for turns in 0..requests {
        let (lines, is_done) = carried(alloc, TREE, differences, turns);
        if is_done || !lines.as_str().ends_with("\ngive up\n") {
            return false;
        }
    }
    true
}

/// Returns whether the steps to one tree are refused with another one.
fn is_refused(alloc: Global, differences: &Differences) -> bool {
    let (_, is_done) = carried(alloc, KINDS, differences, ALL);
    !is_done
}

#[test]
fn just_the_steps_are_carried_out(rt: HostRuntime) -> Result<(), Fail> {
    let alloc = rt.alloc();
    let all = compared(alloc, TREE, DISK, KEEPS, ALL);
    let are_carried_out = match &all {
        Ok(differences) => {
            is_made(alloc, differences)
                && gives_up_at_each(alloc, differences, 22)
                && is_refused(alloc, differences)
        }
        Err(_) => false,
    };
    assert!(rt; are_carried_out);
    Ok(())
}
