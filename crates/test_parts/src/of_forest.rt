// The limits, and what no clause states: printed text, and the numbers of faults.
use crate::of_path::is_printed;
use ft_forest::{Forest, ForestFault, ForestLimits, TxnId};
use std::test::Fail;

#[test]
fn forests_are_full(rt: HostRuntime) -> Result<(), Fail> {
    let mut forest = Forest::new(rt.alloc(), 0, ForestLimits::default());
    assert!(rt; begin_all(&mut forest)?);
    Ok(())
}

/// Begins 100,000 transactions, and returns whether there may not be one more.
fn begin_all(forest: &mut Forest) -> Result<bool, ForestFault> {
    for _ in 0..100_000 {
        forest.begin()?;
    }
    Ok(forest.begin() == Err(ForestFault::Full))
}

#[test]
fn numbers_are_used_up(rt: HostRuntime) -> Result<(), Fail> {
    let mut forest = Forest::new(
        rt.alloc(),
        9_223_372_036_854_775_806,
        ForestLimits::default(),
    );
    assert!(rt; gives_the_last_number(&mut forest)?);
    Ok(())
}

/// Returns whether the last number is given, and none after it.
fn gives_the_last_number(forest: &mut Forest) -> Result<bool, ForestFault> {
    let last = forest.begin()?;
    Ok(last.0 == 9_223_372_036_854_775_807 && forest.begin() == Err(ForestFault::Full))
}

#[test]
fn numbers_and_faults_are_shown(rt: HostRuntime) -> Result<(), Fail> {
    assert!(rt; ForestFault::Deep as u8 == 8);
    assert!(rt; is_printed(rt.alloc(), TxnId(7), "7")?);
    assert!(rt; is_printed(rt.alloc(), ForestFault::ChildLive, "ChildLive")?);
    Ok(())
}
