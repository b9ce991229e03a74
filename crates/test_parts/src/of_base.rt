// No clause states this: printed text, and that long lists are joined at once.
use ft_base::Memory;
use ft_owned_lists::OwnedLists;
use std::test::Fail;

#[test]
fn want_of_memory_has_a_name(rt: HostRuntime) -> Result<(), Fail> {
    assert_eq!(rt; format!(in rt.alloc(); "{Memory}")?.as_str(), "Memory");
    Ok(())
}

/// Two lists of 100,000 numbers are joined 200,000 times.
#[test]
fn long_chains_are_joined_at_once(rt: HostRuntime) -> Result<(), Fail> {
    let mut chains = OwnedLists::new(rt.alloc());
    assert!(rt; are_joined_at_once(&mut chains)?);
    Ok(())
}

/// Returns whether two long lists can be joined many times, and have their entries afterwards.
fn are_joined_at_once(chains: &mut OwnedLists<u64>) -> Result<bool, Memory> {
    fill(chains, 1)?;
    fill(chains, 2)?;
    Ok(turn_round(chains) && chains.first(2) == Some(&0))
}

/// Opens an owner, and gives it the numbers up to 99,999, of which the greatest is in front.
fn fill(chains: &mut OwnedLists<u64>, owner: u64) -> Result<(), Memory> {
    chains.open(owner)?;
    for value in 0..100_000 {
        if chains.is_open(owner) {
            chains.push_front(owner, value)?;
        }
    }
    Ok(())
}

/// Puts the first of all numbers after the others, 100,000 times.
fn turn_round(chains: &mut OwnedLists<u64>) -> bool {
    for _ in 0..100_000 {
        if !join(chains, 1, 2) || !join(chains, 2, 1) || !chains.is_open(2) {
            return false;
        }
        chains.move_front(1, 2);
    }
    true
}

/// Moves the list of one owner to that of another, if both are open. Returns whether it has.
fn join(chains: &mut OwnedLists<u64>, source: u64, target: u64) -> bool {
    let can = source != target && chains.is_open(source) && chains.is_open(target);
    if can {
        chains.splice(source, target);
    }
    can
}
