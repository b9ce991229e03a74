// The lock table of nobody, and one cell that a crowd has locked.
ghost use Rattle.std.specs.Prelude.{◌≡◌, true, IfOk};
ghost use Rattle.ft_lock_rules.specs.Locks.{is_opened};

use ft_base::Memory;
use ft_calls::{Access, Mode};
use ft_cells::Cell;
use ft_forest::{Forest, ForestLimits, TxnId};
use ft_lock_rules::Rule;
use ft_locks::Locks;
use std::alloc::Global;
use std::test::Fail;

/// How many have locked the cell.
const CROWD: u64 = 1_000;

/// The one of them that writes.
const WRITER: TxnId = TxnId(500);

/// Top-level transactions, each of which has locked one and the same cell.
#[derive(Drop)]
struct Crowd {
    forest: Forest,
    locks: Locks,
}

impl Crowd {
    /// One more transaction begins, which locks nothing yet.
    fn begin(&mut self) -> Result<TxnId, Fail>
        ensures { IfOk result (λ txn. is_opened self.new.locks txn ≡ true) }
    {
        let txn = self.forest.begin()?;
        self.locks.open(txn)?;
        Ok(txn)
    }

    /// The transactions that block one that asks for the cell.
    fn blockers(&self, txn: TxnId, mode: Mode, rule: Rule) -> Result<Vec<TxnId>, Memory> {
        let cell = Cell::Links(7);
        self.locks
            .blockers(&self.forest, txn, &[Access { cell, mode }], rule)
    }
}

/// A thousand transactions lock one cell in the order of their numbers: one to write it, and the
/// others to read it. None is asked whether others are in its way.
fn gather(alloc: Global) -> Result<Crowd, Fail> {
    let forest = Forest::new(alloc, 0, ForestLimits::default());
    let locks = Locks::new(alloc);
    let mut crowd = Crowd { forest, locks };
    for _ in 0..CROWD {
        let txn = crowd.begin()?;
        let cell = Cell::Links(7);
        let mode = if txn == WRITER {
            Mode::Write
        } else {
            Mode::Read
        };
        crowd.locks.grant(txn, &[Access { cell, mode }])?;
    }
    Ok(crowd)
}

/// Returns whether these are all of the crowd, each once.
fn are_all(blockers: &[TxnId]) -> bool {
    for number in 1..=CROWD {
        if !blockers.contains(&TxnId(number)) {
            return false;
        }
    }
    blockers.len() == 1_000
}

#[test]
fn small_calls(rt: HostRuntime) -> Result<(), Fail> {
    let locks = Locks::new(rt.alloc());
    assert!(rt; has_no_line(&locks)?);
    Ok(())
}

/// Returns whether no lock is listed.
fn has_no_line(locks: &Locks) -> Result<bool, Memory> {
    Ok(locks.lines()?.is_empty())
}

#[test]
fn many_lock_one_cell(rt: HostRuntime) -> Result<(), Fail> {
    let mut crowd = gather(rt.alloc())?;
    let txn = crowd.begin()?;
    assert!(rt; is_blocked_by_the_crowd(&crowd, txn, Rule::Profile)?);
    assert!(rt; is_blocked_by_the_crowd(&crowd, txn, Rule::Moss)?);
    Ok(())
}

/// Returns whether the writer blocks a reader, and all block another writer.
fn is_blocked_by_the_crowd(crowd: &Crowd, txn: TxnId, rule: Rule) -> Result<bool, Memory> {
    let of_a_reader = crowd.blockers(txn, Mode::Read, rule)?;
    let of_a_writer = crowd.blockers(txn, Mode::Write, rule)?;
    Ok(of_a_reader.as_slice() == [WRITER].as_slice() && are_all(of_a_writer.as_slice()))
}

#[test]
fn writer_among_many_ends(rt: HostRuntime) -> Result<(), Fail> {
    let mut crowd = gather(rt.alloc())?;
    let txn = crowd.begin()?;
    assert!(rt; crowd.locks.is_open(WRITER));
    crowd.locks.release(WRITER);
    assert!(rt; is_blocked_by_the_readers(&crowd, txn, Rule::Profile)?);
    assert!(rt; is_blocked_by_the_readers(&crowd, txn, Rule::Moss)?);
    Ok(())
}

/// Returns whether nobody blocks a reader, and all except the writer block a writer.
fn is_blocked_by_the_readers(crowd: &Crowd, txn: TxnId, rule: Rule) -> Result<bool, Memory> {
    let of_a_reader = crowd.blockers(txn, Mode::Read, rule)?;
    let of_a_writer = crowd.blockers(txn, Mode::Write, rule)?;
    let is_writer_gone = !of_a_writer.as_slice().contains(&WRITER);
    Ok(of_a_reader.is_empty() && of_a_writer.len() == 999 && is_writer_gone)
}
