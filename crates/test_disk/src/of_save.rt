// No clause states this: that a save comes to its end, and what is left if it does not.
use crate::fakes::{FakeTarget, Held, Row};
use crate::of_load::{
    SCRIPT, SCRIPT_WITH_ATTRIBUTES, SCRIPT_WITH_LINKS, TREE, WITH_ATTRIBUTES, WITH_LINKS,
    WITHOUT_SET_ID,
};
use ft_cells::TreeLimits;
use ft_copy::{CopyFault, CopyLimits};
use ft_core::Core;
use ft_save::{SaveFault, save};
use ft_script::play;
use ft_transfer::NoFiles;
use std::alloc::Global;
use std::test::Fail;

/// More turns than any save here takes.
const ALL: u64 = 1_000_000;

/// Two reports: in the second a file has two names, one is empty, and one is open and has no name.
pub const REPLIES: &str =
    "txn 1\ntree 3\ndir 1\ndir 2\nedge 1 old 2\nok\ntree 10\ndir 1\ndir 2\nedge 1 %25 3\n\
        edge 1 a 2\nedge 2 again 3\nedge 2 nothing 4\nfile 3 3 a%20b\nfile 4 0 \nfile 5 6 orphan\n\
        fd 9 5 w 0\n";

/// The tree of the second.
const SAVED: &[Row<'static>] = &[
    (b"/%", Held::File(0, 2, b"a b")),
    (b"/a", Held::Folder),
    (b"/a/again", Held::File(0, 2, b"a b")),
    (b"/a/nothing", Held::File(1, 1, b"")),
];

/// A report of symbolic links, of the tree that `of_load` has.
const LINK_REPLIES: &str =
    "tree 16\ndir 1\ndir 2\ndir 3\nedge 1 0 5\nedge 1 d 2\nedge 1 d- 3\nedge 1 e 8\n\
        edge 2 e 6\nedge 2 f 4\nedge 2 g 5\nedge 3 loop 7\nfile 4 1 x\nlink 5 d\n\
        link 6 /etc/pass%20wd\nlink 7 loop\nlink 8 ..//no%FFne%25/\n";

/// A report of modes, owners and times, of the tree that `of_load` has. Rows of a link, of what is
/// nothing, and second rows change nothing.
const ATTRIBUTE_REPLIES: &str =
    "tree 18\ndir 1\ndir 2\nedge 1 d 2\nedge 1 s 4\nedge 2 run 3\nfile 3 1 x\nfile 4 0\n\
        attributes 1 1751 5 6\nattributes 2 555 0 0\nattributes 3 00755 0 7\n\
        attributes 4 6755 1000 0\nattributes 9 0700 1 1\nattributes 2 0700 1 1\ntime 2 7 7\n\
        time 4 -1 5\ntime 4 8 8\ntime 9 7 7\nfd 9 4 r 0\n";

/// How many calls a save of each makes: a start and a finish, one for each directory, each symbolic
/// link and each further name, and for each file an open, its pieces and a close.
const CALLS: u64 = 9;

const LINK_CALLS: u64 = 12;

/// The limits of a save if nobody asks for more, with set-id bits or without.
pub fn default_limits(set_id: bool) -> CopyLimits {
    let TreeLimits { file_size, links } = TreeLimits::default();
    CopyLimits {
        file_size,
        links,
        set_id,
    }
}

/// Returns whether replies are saved as these rows.
fn is_saved(alloc: Global, replies: &[u8], rows: &[Row<'_>]) -> bool {
    is_saved_with(alloc, replies, false, rows)
}

/// Returns whether replies are saved as these rows, with set-id bits or without them.
fn is_saved_with(alloc: Global, replies: &[u8], set_id: bool, rows: &[Row<'_>]) -> bool {
    let mut reader = replies;
    let mut target = FakeTarget::new(alloc, ALL);
    save(alloc, default_limits(set_id), &mut reader, &mut target).is_ok() && target.holds(rows)
}

#[test]
fn last_tree_is_saved(rt: HostRuntime) -> Result<(), Fail> {
    assert!(rt; is_saved(rt.alloc(), REPLIES.as_bytes(), SAVED));
    Ok(())
}

#[test]
fn links_are_saved_last(rt: HostRuntime) -> Result<(), Fail> {
    assert!(rt; is_saved(rt.alloc(), LINK_REPLIES.as_bytes(), WITH_LINKS));
    Ok(())
}

#[test]
fn modes_owners_and_times_are_saved(rt: HostRuntime) -> Result<(), Fail> {
    let alloc = rt.alloc();
    let replies = ATTRIBUTE_REPLIES.as_bytes();
    assert!(rt; is_saved_with(alloc, replies, true, WITH_ATTRIBUTES));
    assert!(rt; is_saved_with(alloc, replies, false, WITHOUT_SET_ID));
    Ok(())
}

#[test]
fn rows_that_are_none(rt: HostRuntime) -> Result<(), Fail> {
    let alloc = rt.alloc();
    for row in [
        "attributes 1",
        "attributes 1 0755 0",
        "attributes 1 0755 0 0 0",
        "attributes 1 8 0 0",
        "attributes 1 10000 0 0",
        "attributes 1 000755 0 0",
        "attributes 1 0755 - 0",
        "attributes 1 0755 4294967296 0",
        "attributes - 0755 0 0",
        "time 1 0",
        "time 1 0 1000000000",
        "time 1 0 -1",
        "time 1 9223372036854775808 0",
        "time 1 0 0 0",
    ] {
        let replies = format!(in alloc; "tree 2\ndir 1\n{row}\n")?;
        assert!(rt; finds_none(alloc, replies.as_str()), "{row}");
    }
    Ok(())
}

/// Why a save in so many turns is not made, if that leaves nothing.
fn stopped_by(alloc: Global, replies: &[u8], turns: u64) -> Option<SaveFault> {
    let mut reader = replies;
    let mut target = FakeTarget::new(alloc, turns);
    let fault = save(alloc, default_limits(false), &mut reader, &mut target).err()?;
    target.is_empty().then_some(fault)
}

/// Returns whether a save in so many turns is not made for this reason, which leaves nothing.
fn leaves_nothing(alloc: Global, replies: &[u8], turns: u64, trouble: CopyFault) -> bool {
    match stopped_by(alloc, replies, turns) {
        Some(SaveFault::CopyStop(stopped)) => stopped.trouble == trouble,
        _ => false,
    }
}

/// Returns whether no tree is found in replies.
fn finds_none(alloc: Global, replies: &str) -> bool {
    let fault = stopped_by(alloc, replies.as_bytes(), ALL);
    matches!(fault, Some(SaveFault::NoTree))
}

#[test]
fn no_tree(rt: HostRuntime) -> Result<(), Fail> {
    assert!(rt; finds_none(rt.alloc(), "txn 1\nok\ntree 2\ndir 1\n"));
    Ok(())
}

#[test]
fn no_older_tree(rt: HostRuntime) -> Result<(), Fail> {
    let alloc = rt.alloc();
    for behind in [
        "tree 3\ndir 1\nedge 1 cut 2\n",
        "refused Memory\n",
        "ok\n",
        "\n",
        "tree",
    ] {
        let replies = format!(in alloc; "{REPLIES}{behind}")?;
        assert!(rt;
            finds_none(alloc, replies.as_str()),
            "behind which stands {behind}"
        );
    }
    Ok(())
}

#[test]
fn no_line_that_is_cut(rt: HostRuntime) -> Result<(), Fail> {
    assert!(rt; finds_none(rt.alloc(), "tree 3\ndir 1\nedge 1 f 2\nfile 2 1 %"));
    Ok(())
}

/// Returns whether the report with which replies end describes no tree.
fn is_bad_tree(alloc: Global, replies: &str) -> bool {
    leaves_nothing(alloc, replies.as_bytes(), ALL, CopyFault::BadTree)
}

#[test]
fn rows_of_no_tree(rt: HostRuntime) -> Result<(), Fail> {
    let alloc = rt.alloc();
    assert!(rt; is_bad_tree(alloc, "tree 4\ndir 1\nedge 1 f 2\nfile 2 1 x\nfile 2 1 y\n"));
    assert!(rt; is_bad_tree(alloc, "tree 4\ndir 1\ndir 2\nedge 1 f 2\nfile 2 1 x\n"));
    assert!(rt;
        is_bad_tree(
            alloc,
            "tree 5\ndir 1\nedge 1 f 2\nedge 2 g 3\nfile 2 0\nfile 3 0\n"
        )
    );
    Ok(())
}

#[test]
fn links_of_no_tree(rt: HostRuntime) -> Result<(), Fail> {
    let alloc = rt.alloc();
    for rows in [
        // names in a link; one at the root; one that is a file or a directory too
        "tree 5\ndir 1\nedge 1 l 2\nedge 2 f 3\nlink 2 /etc\nfile 3 0\n",
        "tree 1\nlink 1 /etc\n",
        "tree 2\ndir 1\nlink 1 /etc\n",
        "tree 4\ndir 1\nedge 1 l 2\nlink 2 /etc\nfile 2 0\n",
        "tree 4\ndir 1\ndir 2\nedge 1 l 2\nlink 2 /etc\n",
        // a name twice: of a link, and of a directory in which there is a file
        "tree 7\ndir 1\ndir 2\nedge 1 l 2\nedge 1 l 3\nedge 2 f 4\nlink 3 /etc\nfile 4 0\n",
        "tree 7\ndir 1\ndir 3\nedge 1 l 3\nedge 1 l 2\nedge 3 f 4\nlink 2 /etc\nfile 4 0\n",
    ] {
        assert!(rt; is_bad_tree(alloc, rows), "of {rows}");
    }
    Ok(())
}

/// The report of a symbolic link that leads to the place which this codes.
fn report_of_link(alloc: Global, to: &str) -> Result<String, Fail> {
    Ok(format!(in alloc; "tree 3\ndir 1\nedge 1 l 2\nlink 2{to}\n")?)
}

#[test]
fn links_to_no_path(rt: HostRuntime) -> Result<(), Fail> {
    let alloc = rt.alloc();
    for to in ["", " ", " %00", " a%00b", " a b", " a "] {
        let report = report_of_link(alloc, to)?;
        assert!(rt; finds_none(alloc, report.as_str()), "to {to}");
    }
    Ok(())
}

#[test]
fn longest_link(rt: HostRuntime) -> Result<(), Fail> {
    let alloc = rt.alloc();
    let mut to = String::new(alloc);
    for _ in 0..4_095 {
        to.push('/')?;
    }
    let rows = [(b"/l".as_slice(), Held::Symlink(0, 1, to.as_bytes()))];
    let report = format!(in alloc; "tree 3\ndir 1\nedge 1 l 2\nlink 2 {to}\n")?;
    assert!(rt; is_saved(alloc, report.as_bytes(), rows.as_slice()));
    let longer = format!(in alloc; "tree 3\ndir 1\nedge 1 l 2\nlink 2 {to}/\n")?;
    assert!(rt; finds_none(alloc, longer.as_str()));
    Ok(())
}

#[test]
fn names_that_lead_elsewhere(rt: HostRuntime) -> Result<(), Fail> {
    let alloc = rt.alloc();
    for name in [".", "..", "%2E%2E", "", "/", "a%2Fb", "/etc", "a%00"] {
        let replies = format!(in alloc;
            "tree 6\ndir 1\ndir 2\nedge 1 %20 2\nedge 2 %20 3\nedge 2 {name} 3\nfile 3 1 x\n"
        )?;
        assert!(rt;
            leaves_nothing(alloc, replies.as_bytes(), ALL, CopyFault::BadName),
            "at {name}"
        );
    }
    Ok(())
}

/// Returns whether a report of a file of so many bytes is saved, if a file may have as many as
/// this.
fn is_saved_within(alloc: Global, size: usize, file_size: u64) -> Result<bool, Fail> {
    let bytes = vec![in alloc; b'x'; size]?;
    let head = format!(in alloc; "tree 3\ndir 1\nedge 1 f 2\nfile 2 {size} ")?;
    let mut replies = Vec::from_slice(alloc, head.as_bytes())?;
    replies.extend_from_slice(bytes.as_slice())?;
    replies.push(b'\n')?;
    let limits = CopyLimits {
        file_size,
        ..default_limits(false)
    };
    let mut target = FakeTarget::new(alloc, ALL);
    let saved = save(alloc, limits, &mut replies.as_slice(), &mut target);
    let rows = [(b"/f".as_slice(), Held::File(0, 1, bytes.as_slice()))];
    Ok(saved.is_ok() && target.holds(rows.as_slice()))
}

#[test]
fn files_within_limits(rt: HostRuntime) -> Result<(), Fail> {
    let alloc = rt.alloc();
    assert!(rt; is_saved_within(alloc, 1_048_577, 1_048_577)?);
    assert!(rt; !is_saved_within(alloc, 1_048_577, 1_048_576)?);
    assert!(rt; is_saved_within(alloc, 2, 2)? && !is_saved_within(alloc, 3, 2)?);
    Ok(())
}

/// Returns whether a save that makes so many calls leaves nothing at each that fails, and else is
/// made.
fn leaves_nothing_at_each_call(alloc: Global, replies: &str, calls: u64, rows: &[Row<'_>]) -> bool {
    for turns in 0..calls {
        if !leaves_nothing(alloc, replies.as_bytes(), turns, CopyFault::Write) {
            return false;
        }
    }
    let mut target = FakeTarget::new(alloc, calls);
    let mut reader = replies.as_bytes();
    let saved = save(alloc, default_limits(false), &mut reader, &mut target);
    saved.is_ok() && target.holds(rows)
}

#[test]
fn target_that_fails(rt: HostRuntime) -> Result<(), Fail> {
    let alloc = rt.alloc();
    assert!(rt; leaves_nothing_at_each_call(alloc, REPLIES, CALLS, SAVED));
    assert!(rt; leaves_nothing_at_each_call(alloc, LINK_REPLIES, LINK_CALLS, WITH_LINKS));
    Ok(())
}

/// The replies when the script of a load is played, and then asked for the tree.
fn replies_to_load(alloc: Global, script: &str) -> Result<Vec<u8>, Fail> {
    let script = format!(in alloc; "{script}tree\n")?;
    let mut core = Core::new(alloc)?;
    let mut replies = Vec::new(alloc);
    play(
        alloc,
        &mut script.as_bytes(),
        &mut replies,
        &NoFiles,
        &mut core,
    )?;
    Ok(replies)
}

#[test]
fn loaded_tree_is_saved(rt: HostRuntime) -> Result<(), Fail> {
    let alloc = rt.alloc();
    for (script, rows) in [
        (SCRIPT, TREE),
        (SCRIPT_WITH_LINKS, WITH_LINKS),
        (SCRIPT_WITH_ATTRIBUTES, WITH_ATTRIBUTES),
    ] {
        let replies = replies_to_load(alloc, script)?;
        assert!(rt; is_saved_with(alloc, replies.as_slice(), true, rows));
    }
    Ok(())
}
