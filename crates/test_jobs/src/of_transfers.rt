// No clause states this: transfers with a disk that fails, or whose file is too large. Plans carry
// files from and to the same disk.
use ft_core::{Core, Limits, Rule};
use ft_job_text::{PlanEnd, PlanRun, run_plan};
use ft_jobs::Pace;
use ft_plan_files::{LONGEST_PLAN, PlanFileFault, written_plan};
use ft_record::Recorded;
use ft_script::play;
use ft_transfer::{DiskFiles, FileFailed};
use std::alloc::Global;
use std::cell::Cell;
use std::sync::Wait;
use std::test::Fail;
use std::thread::Threads;
use std::time::Clock;

/// A disk of one file, `source`. It takes one other file, or none if it is full.
#[derive(Drop)]
struct SmallDisk {
    alloc: Global,
    is_full: bool,
    taken: Cell<Option<Vec<u8>>>,
}

/// The bytes of the file.
const SOURCE: &[u8] = b"two words";

impl DiskFiles for SmallDisk {
    fn read_file(&self, name: &[u8]) -> Result<Vec<u8>, FileFailed> {
        if name != b"source".as_slice() {
            return Err(FileFailed);
        }
        SOURCE.to_vec(self.alloc).map_err(|_| FileFailed)
    }

    fn write_file(&self, name: &[u8], bytes: &[u8]) -> Result<(), FileFailed> {
        if self.is_full || name != b"copy".as_slice() {
            return Err(FileFailed);
        }
        let bytes = bytes.to_vec(self.alloc).map_err(|_| FileFailed)?;
        self.taken.set(Some(bytes));
        Ok(())
    }
}

/// Returns whether a script on a new core, whose files have at most this many bytes, has these
/// replies.
fn gives(files: &SmallDisk, file_size: u64, script: &str, replies: &str) -> Result<bool, Fail> {
    let alloc = files.alloc;
    let limits = Limits {
        file_size,
        ..Limits::default()
    };
    let mut core = Core::with(alloc, Rule::Profile, limits)?;
    let mut text = Vec::new(alloc);
    play(alloc, &mut script.as_bytes(), &mut text, files, &mut core)?;
    Ok(text.as_slice() == replies.as_bytes())
}

/// Returns the disk, which has taken nothing yet.
fn disk(alloc: Global, is_full: bool) -> SmallDisk {
    SmallDisk {
        alloc,
        is_full,
        taken: Cell::new(None),
    }
}

#[test]
fn files_are_carried_whole(rt: HostRuntime) -> Result<(), Fail> {
    let files = disk(rt.alloc(), false);
    let script = "begin as job\njob put /f @source\njob get /f @%63opy\ncommit job\ntree\n";
    let replies = "txn 1\n5 ok\n8 ok\nok\ntree 3\ndir 1\nedge 1 f 2\nfile 2 9 two%20words\n";
    assert!(rt; gives(&files, 9, script, replies)?);
    assert!(rt;
        files
            .taken
            .take()
            .is_some_and(|bytes| bytes.as_slice() == SOURCE)
    );
    Ok(())
}

/// The locks that a transaction has after it has put a file.
const LOCKS: &str = "locks 6\nlock entry 1 f write 1 retained\nlock links 2 read 1 retained\n\
        lock links 2 write 1 retained\nlock bytes 2 write 1 retained\n\
        lock fd 2 read 1 retained\nlock fd 2 write 1 retained\n";

#[test]
fn transfers_that_fail_leave_nothing(rt: HostRuntime) -> Result<(), Fail> {
    let alloc = rt.alloc();
    let script =
        "begin\n1 put /f @source\nlocks\n1 get /f @copy\nlocks\n1 put /g @none\n1 list /\n";
    let replies = format!(in alloc;
        "txn 1\n5 ok\n{LOCKS}refused File\n{LOCKS}refused File\n9 ok 1 f\n"
    )?;
    assert!(rt; gives(&disk(alloc, true), 9, script, replies.as_str())?);
    let script = "begin\n1 put /f @source\nlocks\n1 list /\n";
    assert!(rt;
        gives(
            &disk(alloc, false),
            8,
            script,
            "txn 1\n3 EFBIG\nlocks 0\n4 ok 0\n"
        )?
    );
    Ok(())
}

// ---- plans

/// A plan whose first job puts the file and gets it. There is no file for the first `get`, and the
/// job of the last one aborts.
const CARRYING: &[u8] =
    b"strict\njob a\nput /f @source\ntry get /g @copy\nget /f @%63opy\nsubs\ncommit\n\
        job b a\nget /f @copy\nabort\n";

const CARRIED: &str =
    "job a 1 committed\njob b 2 aborted\nhistory 13\ncall 2 1 open wct /f = ok 2\n\
        call 3 1 ftruncate 2 9 = ok\ncall 4 1 write 2 two%20words = ok 9\n\
        call 5 1 close 2 = ok\ncall 6 1 open r /g = ENOENT\n\
        call 7 1 read 0 18446744073709551615 = EBADF\ncall 8 1 close 0 = EBADF\n\
        call 9 1 open r /f = ok 9\n\
        call 10 1 read 9 18446744073709551615 = ok 9 two%20words\n\
        call 11 1 close 9 = ok\ncall 12 2 open r /f = ok 12\n\
        call 13 2 read 12 18446744073709551615 = ok 9 two%20words\n\
        call 14 2 close 12 = ok\ntree 3\ndir 1\nedge 1 f 2\nfile 2 9 two%20words\n";

/// Runs the plan of a file with this text on a new core. Returns what is written, and how it ends.
fn ran<R: Threads + Wait + Clock + Sync>(
    rt: &R,
    files: &SmallDisk,
    text: &[u8],
) -> Result<(Vec<u8>, PlanEnd), Fail> {
    let alloc = files.alloc;
    let plan = written_plan(alloc, text, files)?;
    let run = PlanRun {
        plan: &plan,
        pace: Pace::of_turns(1),
        screen: None::<Vec<u8>>,
    };
    let mut output = Vec::new(alloc);
    let end = run_plan(rt, alloc, Recorded::new(alloc)?, run, &mut output)?;
    Ok((output, end))
}

/// Returns whether the second of three `get`s got the bytes of the file, and the others got none.
fn has_second_only(end: &PlanEnd) -> bool {
    match end.got.as_slice() {
        [None, Some(bytes), None] => bytes.as_slice() == SOURCE,
        _ => false,
    }
}

#[test]
fn plans_carry_files_whole(rt: HostRuntime) -> Result<(), Fail> {
    let files = disk(rt.alloc(), false);
    let (output, end) = ran(&rt, &files, CARRYING)?;
    assert!(rt; output.as_slice() == CARRIED.as_bytes());
    assert!(rt; end.met && has_second_only(&end));
    Ok(())
}

/// Returns whether the file of a plan with this text is not written out, for this reason.
fn fails(files: &SmallDisk, text: &[u8], fault: PlanFileFault) -> bool {
    matches!(written_plan(files.alloc, text, files), Err(found) if found == fault)
}

#[test]
fn file_that_a_plan_puts_is_missing(rt: HostRuntime) -> Result<(), Fail> {
    let files = disk(rt.alloc(), false);
    let text = b"job a\nput /f @source\nput /g @none\ncommit\n".as_slice();
    assert!(rt; fails(&files, text, PlanFileFault::Read));
    Ok(())
}

/// The beginning of a plan, and the steps that are written out for it. They have 42 bytes more.
const PUT: &[u8] = b"put /f @source\n#";

const STEPS: &[u8] = b"open wct /f\nftruncate @1 9\nwrite @1 two%20words\nclose @1\n#";

#[test]
fn file_of_a_plan_that_is_too_long(rt: HostRuntime) -> Result<(), Fail> {
    let alloc = rt.alloc();
    let files = disk(alloc, false);
    assert_eq!(rt; LONGEST_PLAN, 8_388_608);
    let mut text = PUT.to_vec(alloc)?;
    text.resize(8_388_608, b'#')?;
    let plan = written_plan(alloc, text.as_slice(), &files)?;
    assert!(rt; plan.bytes.as_slice().starts_with(STEPS));
    assert_eq!(rt; plan.bytes.len(), 8_388_650);
    text.push(b'#')?;
    assert!(rt; fails(&files, text.as_slice(), PlanFileFault::TooLong));
    Ok(())
}
