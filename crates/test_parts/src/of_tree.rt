// The new tree, and what leads through one: what the program calls only inside of other calls.
use ft_base::Memory;
use ft_path::{Errno, FilePath};
use ft_tree::{Found, ROOT, Tree, TreeRow};
use std::alloc::Global;
use std::test::Fail;

#[test]
fn small_calls(rt: HostRuntime) -> Result<(), Fail> {
    let tree = Tree::new(rt.alloc())?;
    assert!(rt; is_the_root_alone(&tree)?);
    Ok(())
}

/// Returns whether the tree has only the root, without names.
fn is_the_root_alone(tree: &Tree) -> Result<bool, Memory> {
    let rows = tree.rows()?;
    let is_one = matches!(rows.as_slice(), [TreeRow::Dir { number: ROOT }]);
    Ok(is_one && tree.names(ROOT)?.is_empty())
}

#[test]
fn paths_lead_through_the_tree(rt: HostRuntime) -> Result<(), Fail> {
    let tree = Tree::new(rt.alloc())?;
    let whole = Found::Whole { number: ROOT };
    let place = Found::Place {
        dir: ROOT,
        number: None,
    };
    assert!(rt; leads(rt.alloc(), &tree, b"/..", Ok(whole))?);
    assert!(rt; leads(rt.alloc(), &tree, b"/x/", Ok(place))?);
    assert!(rt; leads(rt.alloc(), &tree, b"/x/y", Err(Errno::ENOENT))?);
    Ok(())
}

/// Returns whether a path leads there.
fn leads(
    alloc: Global,
    tree: &Tree,
    path: &[u8],
    wanted: Result<Found, Errno>,
) -> Result<bool, Fail> {
    let parts = FilePath::new(alloc, path)?.parts(alloc)?;
    Ok(tree.lookup(true, &parts)? == wanted)
}
