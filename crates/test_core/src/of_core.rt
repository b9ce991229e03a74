// Scripts worked by hand, one call of the core a request; lists of requests; the numbers of the
// faults, and what is printed.
use ft_calls::Mode;
use ft_core::{Answer, Core, Fault, LiveChild, Request, Rule, TxnId};
use ft_locks::{LockKind, LockLine};
use ft_path::Errno;
use ft_record::Recorded;
use ft_tree::{Cell, TreeRow};
use std::alloc::Global;
use std::test::Fail;
use test_scripts::{Answers, Line, Wanted, plays};

/// Carries a script out on a new core, and returns whether each line is answered as it says.
fn plays_anew(alloc: Global, script: &[(Line, Wanted)]) -> Result<bool, Fail> {
    let mut core = Core::new(alloc)?;
    plays(alloc, &mut core, script)
}

/// Carries a script out on a new core. Returns whether each line is answered as it says, and the
/// tree then holds only the root.
fn plays_to_nothing(alloc: Global, script: &[(Line, Wanted)]) -> Result<bool, Fail> {
    let mut core = Core::new(alloc)?;
    Ok(plays(alloc, &mut core, script)? && is_bare(&core)?)
}

/// Returns whether the tree holds only the root.
fn is_bare(core: &Core) -> Result<bool, Fail> {
    let rows = core.tree().rows()?;
    Ok(rows.as_slice() == [TreeRow::Dir { number: 1 }].as_slice())
}

#[test]
fn parent_abort_takes_committed_child(rt: HostRuntime) -> Result<(), Fail> {
    let script = [
        (Line::Begin, Wanted::Txn(1)),
        (Line::Mkdir(1, b"/x".as_slice()), Wanted::Done(2)),
        (Line::Sub(1), Wanted::Txn(2)),
        (Line::Mkdir(2, b"/x/y".as_slice()), Wanted::Done(3)),
        (Line::Commit(2), Wanted::Committed),
        (Line::Sub(1), Wanted::Txn(3)),
        (Line::Rmdir(3, b"/x/y".as_slice()), Wanted::Done(4)),
        (Line::Abort(1), Wanted::Aborted(3)),
        (
            Line::List(3, b"/".as_slice()),
            Wanted::Refused(Fault::Ended),
        ),
    ];
    assert!(rt; plays_to_nothing(rt.alloc(), &script)?);
    Ok(())
}

#[test]
fn abort_amid_neighbours(rt: HostRuntime) -> Result<(), Fail> {
    let script = [
        (Line::Begin, Wanted::Txn(1)),
        (Line::Sub(1), Wanted::Txn(2)),
        (Line::Sub(1), Wanted::Txn(3)),
        (Line::Begin, Wanted::Txn(4)),
        (Line::Mkdir(2, b"/p".as_slice()), Wanted::Done(2)),
        (Line::Mkdir(4, b"/q".as_slice()), Wanted::Done(3)),
        (Line::Open(3, b"/f".as_slice()), Wanted::Number(4, 4)),
        (Line::Open(4, b"/g".as_slice()), Wanted::Number(5, 5)),
        (Line::Commit(2), Wanted::Committed),
        (
            Line::Rename(3, b"/f".as_slice(), b"/p/f".as_slice()),
            Wanted::Done(6),
        ),
        (Line::Write(4, 5, b"zz".as_slice()), Wanted::Number(7, 2)),
        (Line::Abort(1), Wanted::Aborted(3)),
        (
            Line::List(4, b"/".as_slice()),
            Wanted::Names(8, b"gq".as_slice()),
        ),
        (Line::Fstat(4, 4), Wanted::Failed(9, Errno::EBADF)),
        (
            Line::List(2, b"/".as_slice()),
            Wanted::Refused(Fault::Ended),
        ),
    ];
    assert!(rt; plays_anew(rt.alloc(), &script)?);
    Ok(())
}

#[test]
fn abort_in_log_order(rt: HostRuntime) -> Result<(), Fail> {
    let script = [
        (Line::Begin, Wanted::Txn(1)),
        (Line::Sub(1), Wanted::Txn(2)),
        (Line::Mkdir(2, b"/x".as_slice()), Wanted::Done(2)),
        (Line::Mkdir(1, b"/y".as_slice()), Wanted::Done(3)),
        (Line::Commit(2), Wanted::Committed),
        (Line::Undo(1), Wanted::Refused(Fault::SubSince)),
        (Line::Rmdir(1, b"/x".as_slice()), Wanted::Done(4)),
        (Line::Begin, Wanted::Txn(3)),
        (Line::Mkdir(3, b"/z".as_slice()), Wanted::Done(5)),
        (Line::Abort(1), Wanted::Aborted(3)),
        (
            Line::List(3, b"/".as_slice()),
            Wanted::Names(6, b"z".as_slice()),
        ),
    ];
    assert!(rt; plays_anew(rt.alloc(), &script)?);
    Ok(())
}

/// Carries a script out on a new core, and returns whether each line is answered as it says, so
/// many events are standing then, and the tree holds only the root.
fn walks_back(alloc: Global, script: &[(Line, Wanted)], events: usize) -> Result<bool, Fail> {
    let mut core = Recorded::new(alloc)?;
    let is_played = plays(alloc, &mut core, script)?;
    Ok(is_played && core.history().len() == events && is_bare(core.core())?)
}

#[test]
fn undo_walks_back(rt: HostRuntime) -> Result<(), Fail> {
    let script = [
        (Line::Begin, Wanted::Txn(1)),
        (Line::Open(1, b"/f".as_slice()), Wanted::Number(2, 2)),
        (Line::Pwrite(1, 2, b"hi".as_slice()), Wanted::Number(3, 2)),
        (Line::Read(1, 2), Wanted::Bytes(4, b"hi".as_slice())),
        (Line::Undo(1), Wanted::Undone(4)),
        (Line::Undo(1), Wanted::Undone(3)),
        (Line::Undo(1), Wanted::Undone(2)),
        (Line::Undo(1), Wanted::Refused(Fault::NothingToUndo)),
        (Line::Sub(1), Wanted::Txn(2)),
        (Line::Undo(1), Wanted::Refused(Fault::ChildLive)),
        (Line::Commit(2), Wanted::Committed),
        (Line::Undo(1), Wanted::Refused(Fault::SubSince)),
        (
            Line::List(1, b"/".as_slice()),
            Wanted::Names(5, b"".as_slice()),
        ),
        (Line::Undo(1), Wanted::Undone(5)),
        (Line::Undo(1), Wanted::Refused(Fault::SubSince)),
    ];
    assert!(rt; walks_back(rt.alloc(), &script, 11)?);
    Ok(())
}

#[test]
fn ended_and_unknown_transactions(rt: HostRuntime) -> Result<(), Fail> {
    let script = [
        (Line::Begin, Wanted::Txn(1)),
        (Line::Sub(1), Wanted::Txn(2)),
        (Line::Commit(1), Wanted::Refused(Fault::ChildLive)),
        (Line::Abort(1), Wanted::Aborted(0)),
        (
            Line::List(2, b"/".as_slice()),
            Wanted::Refused(Fault::Ended),
        ),
        (Line::Commit(9), Wanted::Refused(Fault::NoTxn)),
        (Line::Begin, Wanted::Txn(3)),
        (Line::Retry(3), Wanted::Refused(Fault::NoAsk)),
        (Line::Sub(3), Wanted::Txn(4)),
        (Line::Mkdir(4, b"/a".as_slice()), Wanted::Done(2)),
        (Line::List(3, b"/a".as_slice()), Wanted::Waits(4)),
        (Line::Retry(3), Wanted::Waits(4)),
        (Line::Drop(3), Wanted::Dropped),
        (Line::Drop(3), Wanted::Refused(Fault::NoAsk)),
        (Line::List(3, b"/a".as_slice()), Wanted::Waits(4)),
        (Line::Commit(4), Wanted::Committed),
        (Line::Retry(3), Wanted::Names(3, b"".as_slice())),
        (Line::Retry(3), Wanted::Refused(Fault::NoAsk)),
    ];
    assert!(rt; plays_anew(rt.alloc(), &script)?);
    Ok(())
}

#[test]
fn abort_brings_mode_and_time_back(rt: HostRuntime) -> Result<(), Fail> {
    let script = [
        (Line::Begin, Wanted::Txn(1)),
        (Line::Open(1, b"/f".as_slice()), Wanted::Number(2, 2)),
        (Line::Write(1, 2, b"hi".as_slice()), Wanted::Number(3, 2)),
        (Line::Chmod(1, 0o755, b"/f".as_slice()), Wanted::Done(4)),
        (Line::Futime(1, 2, -5), Wanted::Done(5)),
        (Line::Commit(1), Wanted::Committed),
        (Line::Begin, Wanted::Txn(2)),
        (Line::Write(2, 2, b"!".as_slice()), Wanted::Number(6, 1)),
        (Line::Chmod(2, 0o644, b"/f".as_slice()), Wanted::Done(7)),
        (Line::Fstat(2, 2), Wanted::Attributes(8, None, None)),
        (Line::Begin, Wanted::Txn(3)),
        (Line::Stat(3, b"/f".as_slice()), Wanted::Waits(2)),
        (Line::Abort(2), Wanted::Aborted(3)),
        (Line::Retry(3), Wanted::Attributes(9, Some(0o755), Some(-5))),
        (Line::Undo(3), Wanted::Undone(9)),
    ];
    assert!(rt; plays_anew(rt.alloc(), &script)?);
    Ok(())
}

/// A core that is swept before each request.
#[derive(Drop)]
struct SweptCore(Core);

impl Answers for SweptCore {
    fn answer_to(&mut self, request: Request) -> Answer {
        self.0.sweep();
        self.0.answer(request)
    }
}

/// Carries a script out on a new core with a sweep before each line, and returns whether the tree
/// holds only the root then.
fn sweeps_to_nothing(alloc: Global, script: &[(Line, Wanted)]) -> Result<bool, Fail> {
    let mut swept = SweptCore(Core::new(alloc)?);
    Ok(plays(alloc, &mut swept, script)? && is_bare(&swept.0)?)
}

#[test]
fn sweep_before_each_request(rt: HostRuntime) -> Result<(), Fail> {
    let script = [
        (Line::Begin, Wanted::Txn(1)),
        (Line::Open(1, b"/f".as_slice()), Wanted::Number(2, 2)),
        (Line::Write(1, 2, b"hi".as_slice()), Wanted::Number(3, 2)),
        (Line::Unlink(1, b"/f".as_slice()), Wanted::Done(4)),
        (Line::Fstat(1, 2), Wanted::File(5, [2, 0, 2])),
        (Line::Pread(1, 2), Wanted::Bytes(6, b"hi".as_slice())),
        (Line::Close(1, 2), Wanted::Done(7)),
        (Line::Undo(1), Wanted::Undone(7)),
        (Line::Undo(1), Wanted::Undone(6)),
        (Line::Pread(1, 2), Wanted::Bytes(8, b"hi".as_slice())),
        (Line::Abort(1), Wanted::Aborted(5)),
        (Line::Begin, Wanted::Txn(2)),
        (
            Line::List(2, b"/".as_slice()),
            Wanted::Names(9, b"".as_slice()),
        ),
    ];
    assert!(rt; sweeps_to_nothing(rt.alloc(), &script)?);
    Ok(())
}

/// Returns whether a sweep spares what the first transaction has made, and drops two places once it
/// is aborted: that of the entry, and that of the directory.
fn drops_two_after_abort(core: &mut Core) -> bool {
    let before = core.sweep();
    let aborted = core.abort(TxnId(1));
    let after = core.sweep();
    before == 0 && aborted == Ok(1) && after == 2 && core.sweep() == 0
}

/// Returns whether a script is answered as it says on a new core, and a sweep then spares what the
/// first transaction has made, and drops two places once that is aborted.
fn sweeps_two(alloc: Global, script: &[(Line, Wanted)]) -> Result<bool, Fail> {
    let mut core = Core::new(alloc)?;
    Ok(plays(alloc, &mut core, script)? && drops_two_after_abort(&mut core))
}

#[test]
fn sweep_counts_places(rt: HostRuntime) -> Result<(), Fail> {
    let script = [
        (Line::Begin, Wanted::Txn(1)),
        (Line::Mkdir(1, b"/a".as_slice()), Wanted::Done(2)),
    ];
    assert!(rt; sweeps_two(rt.alloc(), &script)?);
    Ok(())
}

/// Returns whether one transaction waits only for another, and is its parent, as the only ones.
fn waits_for_its_child(core: &Core, parent: u64, child: u64) -> Result<bool, Fail> {
    let (parent, child) = (TxnId(parent), TxnId(child));
    let pending = core.pending()?;
    let children = core.children()?;
    let waits = match pending.as_slice() {
        [one] => one.txn == parent && one.blockers.as_slice() == [child].as_slice(),
        _ => false,
    };
    Ok(waits && children.as_slice() == [LiveChild { parent, child }].as_slice())
}

/// Returns whether transaction 3 waits only for 4 after a script, and is its parent.
fn leaves_waiting(alloc: Global, script: &[(Line, Wanted)]) -> Result<bool, Fail> {
    let mut core = Core::new(alloc)?;
    Ok(plays(alloc, &mut core, script)? && waits_for_its_child(&core, 3, 4)?)
}

#[test]
fn small_calls(rt: HostRuntime) -> Result<(), Fail> {
    let script = [
        (Line::Begin, Wanted::Txn(1)),
        (Line::Sub(1), Wanted::Txn(2)),
        (Line::Abort(1), Wanted::Aborted(0)),
        (Line::Begin, Wanted::Txn(3)),
        (Line::Sub(3), Wanted::Txn(4)),
        (Line::Mkdir(4, b"/a".as_slice()), Wanted::Done(2)),
        (Line::List(3, b"/a".as_slice()), Wanted::Waits(4)),
    ];
    assert!(rt; leaves_waiting(rt.alloc(), &script)?);
    Ok(())
}

/// Returns whether these are the write locks of a transaction on the entry `a` of the root and on a
/// directory's parent.
fn are_locks(lines: &[LockLine], txn: u64, kind: LockKind) -> bool {
    let all = lines.iter().all(|line| line.owner == TxnId(txn)
        && line.mode == Mode::Write
        && line.kind == kind);
    match lines {
        [entry, parent] => {
            let is_entry = match &entry.cell {
                Cell::Entry(entry) => entry.dir == 1 && entry.name.as_bytes() == b"a".as_slice(),
                _ => false,
            };
            all && is_entry && parent.cell == Cell::Parent(2)
        }
        _ => false,
    }
}

/// Returns whether the second transaction holds those locks, and its parent retains them once it
/// has committed.
fn hands_locks_up(core: &mut Core) -> Result<bool, Fail> {
    let are_held = are_locks(core.lock_lines()?.as_slice(), 2, LockKind::Held);
    core.commit(TxnId(2))?;
    let lines = core.lock_lines()?;
    Ok(are_held && are_locks(lines.as_slice(), 1, LockKind::Retained))
}

/// Returns whether a script is answered as it says on a new core. The second transaction must then
/// hold its locks, and its parent retain them once it has committed.
fn hands_up_behind(alloc: Global, script: &[(Line, Wanted)]) -> Result<bool, Fail> {
    let mut core = Core::new(alloc)?;
    Ok(plays(alloc, &mut core, script)? && hands_locks_up(&mut core)?)
}

#[test]
fn lock_lines(rt: HostRuntime) -> Result<(), Fail> {
    let script = [
        (Line::Begin, Wanted::Txn(1)),
        (Line::Sub(1), Wanted::Txn(2)),
        (Line::Mkdir(2, b"/a".as_slice()), Wanted::Done(2)),
    ];
    assert!(rt; hands_up_behind(rt.alloc(), &script)?);
    Ok(())
}

/// Returns whether a new core answers these requests so, all at once.
fn runs(alloc: Global, requests: Vec<Request>, wanted: &[Answer]) -> Result<bool, Fail> {
    let mut core = Core::new(alloc)?;
    let answers = core.run(requests)?;
    Ok(answers.as_slice() == wanted)
}

#[test]
fn single_calls(rt: HostRuntime) -> Result<(), Fail> {
    let alloc = rt.alloc();
    let mut requests = Vec::new(alloc);
    requests.push(Request::Begin)?;
    requests.push(Request::Sub(TxnId(1)))?;
    requests.push(Request::Commit(TxnId(1)))?;
    requests.push(Request::Abort(TxnId(1)))?;
    let wanted = [
        Answer::Txn(TxnId(1)),
        Answer::Txn(TxnId(2)),
        Answer::Refused(Fault::ChildLive),
        Answer::Aborted(0),
    ];
    assert!(rt; runs(alloc, requests, &wanted)?);
    Ok(())
}

/// Returns whether the tree of the base is that of the core, and nothing has happened since.
fn is_at_base(core: &Recorded) -> Result<bool, Fail> {
    let base = core.base().rows()?;
    let tree = core.tree().rows()?;
    Ok(base.as_slice() == tree.as_slice() && core.history().is_empty())
}

/// Carries a script out on a new core of this rule, and returns whether each line is answered as it
/// says, and the core is then at its base, by the same rule.
fn ends_at_base(alloc: Global, rule: Rule, script: &[(Line, Wanted)]) -> Result<bool, Fail> {
    let mut core = Recorded::with_rule(alloc, rule)?;
    Ok(plays(alloc, &mut core, script)? && is_at_base(&core)? && core.rule() == rule)
}

#[test]
fn checkpoint_keeps_tree_and_rule(rt: HostRuntime) -> Result<(), Fail> {
    let script = [
        (Line::Begin, Wanted::Txn(1)),
        (Line::Open(1, b"/f".as_slice()), Wanted::Number(2, 2)),
        (Line::Checkpoint, Wanted::Refused(Fault::Live)),
        (Line::Sub(1), Wanted::Txn(2)),
        (Line::Unlink(2, b"/f".as_slice()), Wanted::Waits(1)),
        (Line::Commit(2), Wanted::Committed),
        (Line::Commit(1), Wanted::Committed),
        (Line::Checkpoint, Wanted::Cleared),
        (Line::Commit(1), Wanted::Refused(Fault::NoTxn)),
    ];
    assert!(rt; ends_at_base(rt.alloc(), Rule::Moss, &script)?);
    Ok(())
}

/// Begins subtransactions, each under the last.
fn chain(core: &mut Core, count: u64) -> bool {
    for parent in 1..=count {
        if core.sub(TxnId(parent)).is_err() {
            return false;
        }
    }
    true
}

/// Returns whether so many subtransactions may be begun under a new one, each under the last, and
/// no more.
fn goes_as_deep_as(alloc: Global, count: u64) -> Result<bool, Fail> {
    let mut core = Core::new(alloc)?;
    Ok(
        core.begin() == Ok(TxnId(1))
            && chain(&mut core, count)
            && core.sub(TxnId(count.saturating_add(1))) == Err(Fault::Deep),
    )
}

#[test]
fn sixty_three_subs_then_deep(rt: HostRuntime) -> Result<(), Fail> {
    assert!(rt; goes_as_deep_as(rt.alloc(), 63)?);
    Ok(())
}

/// The numbers of the faults.
const NUMBERS: &[(Fault, u8)] = &[
    (Fault::Memory, 1),
    (Fault::NoTxn, 2),
    (Fault::Ended, 3),
    (Fault::ChildLive, 4),
    (Fault::NothingToUndo, 5),
    (Fault::SubSince, 6),
    (Fault::Full, 7),
    (Fault::Deep, 8),
    (Fault::Live, 9),
    (Fault::NoAsk, 10),
    (Fault::NoViews, 11),
    (Fault::BadLimits, 12),
];

#[test]
fn faults_have_numbers(rt: HostRuntime) {
    assert!(rt;
        NUMBERS
            .iter()
            .all(|(fault, number)| *fault as u8 == *number)
    );
}

#[test]
fn names_are_printed(rt: HostRuntime) -> Result<(), Fail> {
    let alloc = rt.alloc();
    let fault = format!(in alloc; "{}", Fault::NothingToUndo)?;
    assert_eq!(rt; fault.as_str(), "NothingToUndo");
    Ok(())
}
